//! Texts in quotes.

ghost use Rattle.std.specs.Prelude.{◌≡◌, Bool};
ghost use Rattle.sal_literals.specs.Texts.{is_control};
ghost use Rattle.sal_literals.specs.code.Scanning.{hex_value, is_in_hex, after_high, after_low, scan_step, scan_at, quoted_at};
ghost use Rattle.sal_literals.specs.declared.quoted.Position.TheVariants.{Plain, Slash};
ghost use Rattle.sal_literals.specs.code.Reads.{ReadsAs};

use crate::fault::Fault;
use sal_value::{List, Text};
use std::alloc::Global;

/// Where the next byte stands.
#[derive(Clone, Copy, Debug, PartialEq, Eq)]
pub enum Position {
    Plain,
    /// After a backslash.
    Slash,
    /// After `\x`.
    Hex,
    /// After `\x` and a digit of this value.
    Low(u8),
}

/// What a byte does.
#[derive(Clone, Copy, Debug, PartialEq, Eq)]
pub enum Scan {
    Moves(Position),
    Gives(u8),
    Ends,
    Fails,
}

fn hex_value(byte: u8) -> Option<u8>
    ensures { result ≡ hex_value byte }
{
    match byte {
        b'0'..=b'9' => Some(byte - b'0'),
        b'a'..=b'f' => Some(byte - b'W'),
        _ => None,
    }
}

fn is_control(byte: u8) -> bool
    ensures { result ≡ is_control byte }
{
    byte < b' ' || byte == 127
}

/// A control byte that has no letter of its own.
fn is_in_hex(number: u16) -> bool
    ensures { result ≡ is_in_hex number }
{
    (number < 32 || number == 127) && !(number == 9 || number == 10 || number == 13)
}

fn after_high(digit: Option<u8>) -> Scan
    ensures { result ≡ after_high digit }
{
    match digit {
        Some(digit) => Scan::Moves(Position::Low(digit)),
        None => Scan::Fails,
    }
}

fn after_low(high: u8, digit: Option<u8>) -> Scan
    ensures { result ≡ after_low high digit }
{
    let Some(digit) = digit else {
        return Scan::Fails;
    };
    let number = 16 * u16::from(high) + u16::from(digit);
    if is_in_hex(number) {
        Scan::Gives(number as u8)
    } else {
        Scan::Fails
    }
}

#[tactic(auto, unfolding(crate::specs::code::Scanning::scan_step))]
fn plain_step(byte: u8) -> Scan
    ensures { result ≡ scan_step Plain byte }
{
    match byte {
        b'"' => Scan::Ends,
        b'\\' => Scan::Moves(Position::Slash),
        _ if is_control(byte) => Scan::Fails,
        _ => Scan::Gives(byte),
    }
}

#[tactic(auto, unfolding(crate::specs::code::Scanning::scan_step))]
fn slash_step(byte: u8) -> Scan
    ensures { result ≡ scan_step Slash byte }
{
    match byte {
        b'x' => Scan::Moves(Position::Hex),
        b'"' | b'\\' => Scan::Gives(byte),
        b'n' => Scan::Gives(b'\n'),
        b'r' => Scan::Gives(b'\r'),
        b't' => Scan::Gives(b'\t'),
        _ => Scan::Fails,
    }
}

#[tactic(auto, unfolding(crate::specs::code::Scanning::scan_step))]
fn scan_step(at: Position, byte: u8) -> Scan
    ensures { result ≡ scan_step at byte }
{
    match at {
        Position::Plain => plain_step(byte),
        Position::Slash => slash_step(byte),
        Position::Hex => after_high(hex_value(byte)),
        Position::Low(high) => after_low(high, hex_value(byte)),
    }
}

/// The bytes of a text up to its closing quote.
#[tactic(auto, using(crate::proofs::Steps::scan_moves, crate::proofs::Steps::scan_gives, crate::proofs::Steps::scan_ends, crate::proofs::Steps::scan_fails, crate::proofs::Steps::scan_nothing, crate::proofs::Steps::nothing_read))]
fn scan_text(alloc: Global, bytes: &[u8]) -> Result<(List<u8>, &[u8]), Fault>
    ensures { ReadsAs (λ x. (x.0, x.1.now)) result (scan_at Plain bytes.now) }
{
    let mut text = List::new(alloc);
    let mut at = Position::Plain;
    let mut rest = bytes;
    'bytes: while let [byte, after @ ..] = rest {
        rest = after;
        match scan_step(at, *byte) {
            Scan::Moves(to) => at = to,
            Scan::Gives(byte) => {
                text.push(byte)?;
                at = Position::Plain;
            }
            Scan::Ends => return Ok((text, rest)),
            Scan::Fails => return Err(Fault::Wrong),
        }
    }
    Err(Fault::Wrong)
}

/// A text after its opening quote.
#[tactic(auto, using(crate::proofs::Cutting::utf8_true, crate::proofs::Cutting::utf8_false), unfolding(crate::specs::code::Scanning::quoted_at))]
pub fn quoted(alloc: Global, bytes: &[u8]) -> Result<(Text, &[u8]), Fault>
    ensures { ReadsAs (λ x. (x.0, x.1.now)) result (quoted_at bytes.now) }
{
    let (text, rest) = scan_text(alloc, bytes)?;
    match str::from_utf8(text.as_slice()) {
        Ok(text) => {
            let text = Text::from_text(alloc, text)?;
            Ok((text, rest))
        }
        Err(_) => Err(Fault::Wrong),
    }
}
