//! Values from their texts.

ghost use Rattle.std.specs.Prelude.{◌≡◌, ◌∷◌, false, MatchOption, IfOk};
ghost use Rattle.sal_literals.specs.Reading.{name_of, word_value, scalar_of, flat_at, separator_at, is_array, is_closed, value_at, if_whole, value_of, schedule_value_of};
ghost use Rattle.sal_literals.specs.code.Reads.{ReadsAs, names_by};

use crate::fault::Fault;
use crate::names::{self, Names};
use crate::numbers::int;
use crate::quoted::quoted;
use crate::words::cut;
use sal_value::{List, Name, NoMemory, Value};
use std::alloc::Global;

/// A reference or a number.
fn scalar(alloc: Global, names: Names, word: &[u8]) -> Result<Value, Fault>
    ensures { ReadsAs (λ v. v) result (scalar_of (names_by names) word.now) }
{
    match word {
        [] => Err(Fault::Wrong),
        [b'@', text @ ..] => match names.read(alloc, text)? {
            Some(name) => Ok(Value::Ref(name)),
            None => Err(Fault::Wrong),
        },
        _ => match int(word) {
            Some(number) => Ok(Value::Int(number)),
            None => Err(Fault::Wrong),
        },
    }
}

/// A value that is no text and no array.
#[tactic(auto, unfolding(crate::specs::Reading::word_value))]
fn word(alloc: Global, names: Names, word: &[u8]) -> Result<Value, Fault>
    ensures { ReadsAs (λ v. v) result (word_value (names_by names) word.now) }
{
    if word == b"null".as_slice() {
        return Ok(Value::Null);
    }
    if word == b"true".as_slice() {
        return Ok(Value::Bool(true));
    }
    if word == b"false".as_slice() {
        return Ok(Value::Bool(false));
    }
    scalar(alloc, names, word)
}

/// A value that is no array.
#[tactic(auto, unfolding(crate::specs::Reading::flat_at))]
fn flat(alloc: Global, names: Names, bytes: &[u8]) -> Result<(Value, &[u8]), Fault>
    ensures { ReadsAs (λ x. (x.0, x.1.now)) result (flat_at (names_by names) bytes.now) }
{
    match bytes {
        [] => Err(Fault::Wrong),
        [b'"', rest @ ..] => {
            let (text, rest) = quoted(alloc, rest)?;
            Ok((Value::Str(text), rest))
        }
        _ => {
            let (front, rest) = cut(bytes, b',', b']');
            let value = word(alloc, names, front)?;
            Ok((value, rest))
        }
    }
}

/// What stands after an opening bracket.
fn after_open(bytes: &[u8]) -> Option<&[u8]>
    ensures { MatchOption result (is_array bytes.now ≡ false) (λ rest. bytes.now ≡ 91 ∷ rest.now) }
{
    match bytes {
        [b'[', rest @ ..] => Some(rest),
        _ => None,
    }
}

/// What stands after a closing bracket.
fn after_close(bytes: &[u8]) -> Option<&[u8]>
    ensures { MatchOption result (is_closed bytes.now ≡ false) (λ rest. bytes.now ≡ 93 ∷ rest.now) }
{
    match bytes {
        [b']', rest @ ..] => Some(rest),
        _ => None,
    }
}

/// Whether the array ends after an item, and what follows.
#[tactic(auto, unfolding(crate::specs::Reading::separator_at))]
fn separator(bytes: &[u8]) -> Result<(bool, &[u8]), Fault>
    ensures { ReadsAs (λ x. (x.0, x.1.now)) result (separator_at bytes.now) }
{
    match bytes {
        [b']', rest @ ..] => Ok((true, rest)),
        [b',', rest @ ..] => Ok((false, rest)),
        _ => Err(Fault::Wrong),
    }
}

/// A value with at most so many arrays in one another.
#[tactic(auto, using(crate::proofs::Items::other_reads, crate::proofs::Items::too_deep, crate::proofs::Items::empty_array))]
fn value(alloc: Global, names: Names, depth: u8, bytes: &[u8]) -> Result<(Value, &[u8]), Fault>
    ensures { ReadsAs (λ x. (x.0, x.1.now)) result (value_at (names_by names) depth bytes.now) }
{
    let Some(inside) = after_open(bytes) else {
        return flat(alloc, names, bytes);
    };
    if depth == 0 {
        return Err(Fault::Wrong);
    }
    if let Some(rest) = after_close(inside) {
        return Ok((Value::Array(List::new(alloc)), rest));
    }
    let mut items = List::new(alloc);
    let mut rest = inside;
    let most = inside.len();
    for _ in 0..most {
        let (item, after) = value(alloc, names, depth - 1, rest)?;
        items.push(item)?;
        let (ends, after) = separator(after)?;
        if ends {
            return Ok((Value::Array(items), after));
        }
        rest = after;
    }
    Err(Fault::Wrong)
}

/// The name that has this text.
pub fn read_name(alloc: Global, text: &[u8]) -> Result<Option<Name>, NoMemory>
    ensures { IfOk result (λ o. o ≡ name_of text.now) }
{
    names::name(alloc, text)
}

fn read(alloc: Global, names: Names, text: &[u8]) -> Result<Option<Value>, NoMemory>
    ensures { IfOk result (λ o. o ≡ if_whole (value_at (names_by names) 64 text.now)) }
{
    match value(alloc, names, 64, text) {
        Ok((value, [])) => Ok(Some(value)),
        Ok((_, [_, ..])) | Err(Fault::Wrong) => Ok(None),
        Err(Fault::Memory) => Err(NoMemory),
    }
}

/// The value that has this text.
#[tactic(auto, unfolding(crate::specs::Reading::value_of))]
pub fn read_value(alloc: Global, text: &[u8]) -> Result<Option<Value>, NoMemory>
    ensures { IfOk result (λ o. o ≡ value_of text.now) }
{
    read(alloc, Names::Own, text)
}

/// The value that this text writes in a schedule: each reference is a universal name, in any of its spellings.
#[tactic(auto, unfolding(crate::specs::Reading::schedule_value_of))]
pub fn read_schedule_value(alloc: Global, text: &[u8]) -> Result<Option<Value>, NoMemory>
    ensures { IfOk result (λ o. o ≡ schedule_value_of text.now) }
{
    read(alloc, Names::Universal, text)
}
