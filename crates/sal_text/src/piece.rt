//! The part at the front of a text.

ghost use Rattle.std.specs.Prelude.{◌≡◌, ◌<◌, ◌≤◌, length, slice_index};
ghost use Rattle.std.specs.Bool.{OnTrue};
ghost use Rattle.sal_text.specs.code.Scanning.{scan_name, scan_number, scan_string, scan_line, scan_block, scan_sign, begins_line, begins_block, scan_other, scan_from};

use crate::bytes::{digits_length, is_blank, is_digit, is_letter, name_length};
use crate::comments::{block_length, line_length};
use crate::numbers::is_number;
use crate::signs::sign_length;
use crate::strings::{bad_escape, length_to_quote};
use crate::token::LexRule;
use crate::words::is_word;
use sal_ast::Kind;

/// What stands at the front of a text.
#[derive(Clone, Copy, Drop)]
pub enum Scan {
    /// A blank or a comment, of so many bytes.
    Between(usize),
    /// A token of so many bytes.
    Token(Kind, usize),
    /// What a rule refuses, at this byte.
    Refused(LexRule, usize),
}

#[tactic(auto, unfolding(crate::specs::code::Scanning::scan_name))]
fn scan_name(text: &[u8]) -> Scan
    ensures { result ≡ scan_name text.now }
{
    let count = name_length(text);
    let kind = if is_word(&text[..count]) {
        Kind::Word
    } else {
        Kind::Id
    };
    Scan::Token(kind, count)
}

#[tactic(auto, using(crate::proofs::Runs::run_all), unfolding(crate::specs::code::Scanning::scan_number))]
fn scan_number(text: &[u8]) -> Scan
    ensures { result ≡ scan_number text.now }
{
    let count = digits_length(text);
    if is_number(&text[..count]) {
        Scan::Token(Kind::Number, count)
    } else {
        Scan::Refused(LexRule::L3, 0)
    }
}

#[tactic(auto, unfolding(crate::specs::code::Scanning::scan_string))]
fn scan_string(text: &[u8]) -> Scan
    requires { 0 < length text.now }
    ensures { result ≡ scan_string text.now }
{
    let Some(count) = length_to_quote(&text[1..]) else {
        return Scan::Refused(LexRule::L2, 0);
    };
    match bad_escape(&text[..count + 1]) {
        None => Scan::Token(Kind::Str, count + 1),
        Some(at) => Scan::Refused(LexRule::L5, at),
    }
}

#[tactic(auto, unfolding(crate::specs::code::Scanning::scan_line))]
fn scan_line(text: &[u8]) -> Scan
    requires { 2 ≤ length text.now }
    ensures { result ≡ scan_line text.now }
{
    Scan::Between(line_length(&text[2..]) + 2)
}

#[tactic(auto, unfolding(crate::specs::code::Scanning::scan_block))]
fn scan_block(text: &[u8]) -> Scan
    requires { 2 ≤ length text.now }
    ensures { result ≡ scan_block text.now }
{
    match block_length(&text[2..]) {
        None => Scan::Refused(LexRule::L4, 0),
        Some(count) => Scan::Between(count + 2),
    }
}

#[tactic(auto, unfolding(crate::specs::code::Scanning::scan_sign))]
fn scan_sign(text: &[u8]) -> Scan
    ensures { result ≡ scan_sign text.now }
{
    let count = sign_length(text);
    if count == 0 {
        Scan::Refused(LexRule::L1, 0)
    } else {
        Scan::Token(Kind::Sign, count)
    }
}

/// Whether the text begins with `//`.
fn begins_line(text: &[u8]) -> bool
    ensures value { result ≡ begins_line text.now }
    ensures two { OnTrue result (2 ≤ length text.now) }
{
    match text {
        [first, second, ..] => *first == b'/' && *second == b'/',
        _ => false,
    }
}

/// Whether the text begins with `/*`.
fn begins_block(text: &[u8]) -> bool
    ensures value { result ≡ begins_block text.now }
    ensures two { OnTrue result (2 ≤ length text.now) }
{
    match text {
        [first, second, ..] => *first == b'/' && *second == b'*',
        _ => false,
    }
}

#[tactic(auto, unfolding(crate::specs::code::Scanning::scan_other))]
fn scan_other(text: &[u8]) -> Scan
    ensures { result ≡ scan_other text.now }
{
    if begins_line(text) {
        scan_line(text)
    } else if begins_block(text) {
        scan_block(text)
    } else {
        scan_sign(text)
    }
}

/// The part that the text begins with.
#[tactic(auto, unfolding(crate::specs::code::Scanning::scan_from))]
pub fn scan_front(text: &[u8]) -> Scan
    requires { 0 < length text.now }
    ensures { result ≡ scan_from (slice_index text.now 0) text.now }
{
    let first = text[0];
    if is_blank(first) {
        Scan::Between(1)
    } else if is_letter(first) {
        scan_name(text)
    } else if is_digit(first) {
        scan_number(text)
    } else if first == b'"' {
        scan_string(text)
    } else {
        scan_other(text)
    }
}
