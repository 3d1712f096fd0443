//! Names and values from bytes.

ghost use Rattle.std.specs.Prelude.{◌≡◌, ◌↔◌, ◌∷◌, false, List, length, IsTrue, IfOk, MatchOption};
ghost use Rattle.sal_value.specs.Names.{uan_text};
ghost use Rattle.sal_value.specs.Decoding.{count_at, canonical_uan, uan_at, anon_at, name_at, value_at, is_array, decoded_name, decoded_value, fault_with_offset};
ghost use Rattle.sal_value.specs.code.Reads.{ReadsAs, Decodes};

use crate::fields::{self, Fault};
use crate::list::List;
use crate::name::{Name, NameFault, Uan};
use crate::no_memory::NoMemory;
use crate::value::{DecodeFault, Value};
use std::alloc::Global;

#[tactic(auto, using(crate::proofs::Canonical::same_bytes))]
fn is_text_of(alloc: Global, uan: &Uan, text: &[u8]) -> Result<bool, NoMemory>
    ensures { IfOk result (λ same. IsTrue same ↔ (uan_text uan.now ≡ text.now)) }
{
    let written = uan.text(alloc)?;
    Ok(written.as_bytes() == text)
}

/// The name whose canonical text it is.
#[tactic(auto, using(crate::proofs::Canonical::canonical_text, crate::proofs::Canonical::other_text, crate::proofs::Canonical::refused_text))]
fn canonical(alloc: Global, text: &[u8]) -> Result<Option<Uan>, NoMemory>
    ensures { IfOk result (λ o. o ≡ canonical_uan text.now) }
{
    match Uan::read(alloc, text) {
        Ok(uan) => {
            if is_text_of(alloc, &uan, text)? {
                Ok(Some(uan))
            } else {
                Ok(None)
            }
        }
        Err(NameFault::Memory) => Err(NoMemory),
        Err(NameFault::Scheme | NameFault::Host | NameFault::Port | NameFault::Path) => Ok(None),
    }
}

#[tactic(auto, unfolding(crate::specs::Decoding::uan_at))]
fn uan(alloc: Global, bytes: &[u8]) -> Result<(Uan, &[u8]), Fault>
    ensures { ReadsAs (λ x. (x.0, x.1.now)) result (uan_at bytes.now) }
{
    let (len, behind) = fields::number_16(bytes)?;
    let (text, rest) = fields::take(behind, len as usize)?;
    match canonical(alloc, text)? {
        Some(uan) => Ok((uan, rest)),
        None => Err(Fault::Bad(behind.len())),
    }
}

#[tactic(auto, unfolding(crate::specs::Decoding::anon_at))]
fn anon(bytes: &[u8]) -> Result<(Name, &[u8]), Fault>
    ensures { ReadsAs (λ x. (x.0, x.1.now)) result (anon_at bytes.now) }
{
    let (theatre, rest) = fields::number_32(bytes)?;
    let (number, rest) = fields::number_64(rest)?;
    Ok((Name::Anon(theatre, number), rest))
}

#[tactic(auto, unfolding(crate::specs::Decoding::name_at))]
fn name(alloc: Global, bytes: &[u8]) -> Result<(Name, &[u8]), Fault>
    ensures { ReadsAs (λ x. (x.0, x.1.now)) result (name_at bytes.now) }
{
    let (tag, rest) = fields::byte(bytes)?;
    match tag {
        0 => anon(rest),
        1 => {
            let (uan, rest) = uan(alloc, rest)?;
            Ok((Name::Uan(uan), rest))
        }
        2 => {
            let (number, rest) = fields::number_64(rest)?;
            Ok((Name::Outside(number), rest))
        }
        _ => Err(Fault::Bad(bytes.len())),
    }
}

#[tactic(auto, unfolding(crate::specs::Decoding::count_at))]
fn count(bytes: &[u8]) -> Result<(u16, &[u8]), Fault>
    ensures { ReadsAs (λ x. (x.0, x.1.now)) result (count_at bytes.now) }
{
    let (count, rest) = fields::number_16(bytes)?;
    if count > 4096 {
        return Err(Fault::Bad(bytes.len()));
    }
    Ok((count, rest))
}

/// What stands after the tag of an array.
fn after_array_tag(bytes: &[u8]) -> Option<&[u8]>
    ensures { MatchOption result (is_array bytes.now ≡ false) (λ behind. bytes.now ≡ 4 ∷ behind.now) }
{
    match bytes {
        [4, behind @ ..] => Some(behind),
        _ => None,
    }
}

/// A value that is no array.
#[tactic(auto, unfolding(crate::specs::Decoding::value_at, crate::specs::Decoding::tagged_at))]
fn alone(alloc: Global, bytes: &[u8]) -> Result<(Value, &[u8]), Fault>
    ensures { ReadsAs (λ x. (x.0, x.1.now)) result (value_at 0 bytes.now) }
{
    let (tag, rest) = fields::byte(bytes)?;
    match tag {
        0 => Ok((Value::Null, rest)),
        1 => {
            let (number, rest) = fields::number_32(rest)?;
            Ok((Value::Int(number.cast_signed()), rest))
        }
        2 => {
            let (truth, rest) = fields::truth(rest)?;
            Ok((Value::Bool(truth), rest))
        }
        3 => {
            let (text, rest) = fields::text(alloc, rest)?;
            Ok((Value::Str(text), rest))
        }
        5 => {
            let (name, rest) = name(alloc, rest)?;
            Ok((Value::Ref(name), rest))
        }
        _ => Err(Fault::Bad(bytes.len())),
    }
}

/// A value with at most so many arrays in one another.
#[tactic(auto, using(crate::proofs::Items::other_reads))]
fn value(alloc: Global, depth: u8, bytes: &[u8]) -> Result<(Value, &[u8]), Fault>
    ensures { ReadsAs (λ x. (x.0, x.1.now)) result (value_at depth bytes.now) }
{
    let Some(behind) = after_array_tag(bytes) else {
        return alone(alloc, bytes);
    };
    if depth == 0 {
        return Err(Fault::Bad(bytes.len()));
    }
    let (count, mut rest) = count(behind)?;
    let mut items = List::new(alloc);
    for _ in 0..count {
        let (item, after) = value(alloc, depth - 1, rest)?;
        items.push(item)?;
        rest = after;
    }
    Ok((Value::Array(items), rest))
}

fn with_offset(fault: Fault, size: usize) -> DecodeFault
    ensures { result ≡ fault_with_offset fault size }
{
    match fault {
        Fault::Cut => DecodeFault::Cut,
        Fault::Bad(left) => DecodeFault::Bad(size.saturating_sub(left)),
        Fault::Memory => DecodeFault::Memory,
    }
}

impl Name {
    /// Reads a name from the front of the bytes, and tells how many it takes.
    #[tactic(auto, unfolding(crate::specs::Decoding::decoded_name))]
    pub fn decode(alloc: Global, bytes: &[u8]) -> Result<(Name, usize), DecodeFault>
        ensures { Decodes result (decoded_name bytes.now) }
    {
        match name(alloc, bytes) {
            Ok((name, rest)) => Ok((name, bytes.len().saturating_sub(rest.len()))),
            Err(fault) => Err(with_offset(fault, bytes.len())),
        }
    }
}

impl Value {
    /// Reads a value from the front of the bytes, and tells how many it takes.
    #[tactic(auto, unfolding(crate::specs::Decoding::decoded_value))]
    pub fn decode(alloc: Global, bytes: &[u8]) -> Result<(Value, usize), DecodeFault>
        ensures { Decodes result (decoded_value bytes.now) }
    {
        match value(alloc, 64, bytes) {
            Ok((value, rest)) => Ok((value, bytes.len().saturating_sub(rest.len()))),
            Err(fault) => Err(with_offset(fault, bytes.len())),
        }
    }
}
