//! Fields at the front of some bytes, and the bytes after them.

ghost use Rattle.std.specs.Prelude.{◌≡◌, ◌↔◌, IsTrue, IfOk};
ghost use Rattle.std.specs.Int.{w16, w32, w64};
ghost use Rattle.sal_value.specs.Names.{ual_text};
ghost use Rattle.sal_envelope.specs.Decoding.{byte_at, bytes_at, number_at, bool_at, fault_before, name_at, value_at, uan_at, canonical_ual, locator_at, many_at, values_at, made_at, place_at, token_at, inner_at, reply_at, handler_at, moved_at, found_at};
ghost use Rattle.sal_envelope.specs.code.Reads.{ReadsAs};

use crate::fault::Fault;
use sal_mail::Reply;
use sal_value::{DecodeFault, List, Name, NameFault, NoMemory, Ual, Uan, Value};
use std::alloc::Global;

/// One byte.
pub fn byte(bytes: &[u8]) -> Result<(u8, &[u8]), Fault>
    ensures { ReadsAs (λ x. (x.0, x.1.now)) result (byte_at bytes.now) }
{
    match bytes {
        [] => Err(Fault::Cut),
        [first, rest @ ..] => Ok((*first, rest)),
    }
}

#[tactic(auto, unfolding(crate::specs::Decoding::bytes_at))]
fn take(bytes: &[u8], count: usize) -> Result<(&[u8], &[u8]), Fault>
    ensures { ReadsAs (λ x. (x.0.now, x.1.now)) result (bytes_at count bytes.now) }
{
    if bytes.len() < count {
        return Err(Fault::Cut);
    }
    Ok(bytes.split_at(count))
}

/// A number in 2 bytes.
#[tactic(auto, unfolding(crate::specs::Decoding::bytes_at, crate::specs::Decoding::number_at))]
pub fn number_16(bytes: &[u8]) -> Result<(u16, &[u8]), Fault>
    ensures { ReadsAs (λ x. (x.0, x.1.now)) result (number_at w16 bytes.now) }
{
    if bytes.len() < 2 {
        return Err(Fault::Cut);
    }
    let (front, rest) = bytes.split_at(2);
    Ok((u16::from_be_bytes([front[0], front[1]]), rest))
}

/// A number in 4 bytes.
#[tactic(auto, unfolding(crate::specs::Decoding::bytes_at, crate::specs::Decoding::number_at))]
pub fn number_32(bytes: &[u8]) -> Result<(u32, &[u8]), Fault>
    ensures { ReadsAs (λ x. (x.0, x.1.now)) result (number_at w32 bytes.now) }
{
    if bytes.len() < 4 {
        return Err(Fault::Cut);
    }
    let (front, rest) = bytes.split_at(4);
    let number = u32::from_be_bytes([front[0], front[1], front[2], front[3]]);
    Ok((number, rest))
}

/// A number in 8 bytes.
#[tactic(auto, unfolding(crate::specs::Decoding::bytes_at, crate::specs::Decoding::number_at))]
pub fn number_64(bytes: &[u8]) -> Result<(u64, &[u8]), Fault>
    ensures { ReadsAs (λ x. (x.0, x.1.now)) result (number_at w64 bytes.now) }
{
    if bytes.len() < 8 {
        return Err(Fault::Cut);
    }
    let (front, rest) = bytes.split_at(8);
    let number = u64::from_be_bytes([
        front[0], front[1], front[2], front[3], front[4], front[5], front[6], front[7],
    ]);
    Ok((number, rest))
}

/// 0 or 1.
#[tactic(auto, unfolding(crate::specs::Decoding::bool_at))]
pub fn truth(bytes: &[u8]) -> Result<(bool, &[u8]), Fault>
    ensures { ReadsAs (λ x. (x.0, x.1.now)) result (bool_at bytes.now) }
{
    match bytes {
        [] => Err(Fault::Cut),
        [0, rest @ ..] => Ok((false, rest)),
        [1, rest @ ..] => Ok((true, rest)),
        _ => Err(Fault::Bad(bytes.len())),
    }
}

/// A fault by how many bytes are left at its field, where so many were given.
fn fault_before(fault: DecodeFault, size: usize) -> Fault
    ensures { result ≡ fault_before fault size }
{
    match fault {
        DecodeFault::Cut => Fault::Cut,
        DecodeFault::Bad(place) => Fault::Bad(size.saturating_sub(place)),
        DecodeFault::Memory => Fault::Memory,
    }
}

/// A name.
#[tactic(auto, using(crate::proofs::Fronts::name_fits), unfolding(crate::specs::Decoding::name_at))]
pub fn name(alloc: Global, bytes: &[u8]) -> Result<(Name, &[u8]), Fault>
    ensures { ReadsAs (λ x. (x.0, x.1.now)) result (name_at bytes.now) }
{
    match Name::decode(alloc, bytes) {
        Ok((name, size)) => Ok((name, &bytes[size..])),
        Err(fault) => Err(fault_before(fault, bytes.len())),
    }
}

/// A value.
#[tactic(auto, using(crate::proofs::Fronts::value_fits), unfolding(crate::specs::Decoding::value_at))]
pub fn value(alloc: Global, bytes: &[u8]) -> Result<(Value, &[u8]), Fault>
    ensures { ReadsAs (λ x. (x.0, x.1.now)) result (value_at bytes.now) }
{
    match Value::decode(alloc, bytes) {
        Ok((value, size)) => Ok((value, &bytes[size..])),
        Err(fault) => Err(fault_before(fault, bytes.len())),
    }
}

/// A universal name.
#[tactic(auto, unfolding(crate::specs::Decoding::uan_at))]
pub fn uan(alloc: Global, bytes: &[u8]) -> Result<(Uan, &[u8]), Fault>
    ensures { ReadsAs (λ x. (x.0, x.1.now)) result (uan_at bytes.now) }
{
    let (tag, _) = byte(bytes)?;
    if tag != 1 {
        return Err(Fault::Bad(bytes.len()));
    }
    let (name, rest) = name(alloc, bytes)?;
    match name {
        Name::Uan(uan) => Ok((uan, rest)),
        Name::Anon(_, _) | Name::Outside(_) => Err(Fault::Bad(bytes.len())),
    }
}

#[tactic(auto, using(crate::proofs::Fronts::same_text))]
fn is_text_of(alloc: Global, place: &Ual, text: &[u8]) -> Result<bool, NoMemory>
    ensures { IfOk result (λ same. IsTrue same ↔ (ual_text place.now ≡ text.now)) }
{
    let written = place.text(alloc)?;
    Ok(written.as_bytes() == text)
}

/// The locator whose canonical text it is.
#[tactic(auto, using(crate::proofs::Fronts::canonical_text, crate::proofs::Fronts::other_text, crate::proofs::Fronts::refused_text))]
fn canonical(alloc: Global, text: &[u8]) -> Result<Option<Ual>, NoMemory>
    ensures { IfOk result (λ o. o ≡ canonical_ual text.now) }
{
    match Ual::read(alloc, text) {
        Ok(place) => {
            if is_text_of(alloc, &place, text)? {
                Ok(Some(place))
            } else {
                Ok(None)
            }
        }
        Err(NameFault::Memory) => Err(NoMemory),
        Err(NameFault::Scheme | NameFault::Host | NameFault::Port | NameFault::Path) => Ok(None),
    }
}

/// A locator after its length.
#[tactic(auto, unfolding(crate::specs::Decoding::locator_at))]
pub fn locator(alloc: Global, bytes: &[u8]) -> Result<(Ual, &[u8]), Fault>
    ensures { ReadsAs (λ x. (x.0, x.1.now)) result (locator_at bytes.now) }
{
    let (size, behind) = number_16(bytes)?;
    let (text, rest) = take(behind, size as usize)?;
    match canonical(alloc, text)? {
        Some(place) => Ok((place, rest)),
        None => Err(Fault::Bad(behind.len())),
    }
}

/// So many values.
fn many(alloc: Global, count: u8, bytes: &[u8]) -> Result<(List<Value>, &[u8]), Fault>
    ensures { ReadsAs (λ x. (x.0, x.1.now)) result (many_at count bytes.now) }
{
    let mut values = List::new(alloc);
    let mut rest = bytes;
    for _ in 0..count {
        let (value, after) = value(alloc, rest)?;
        values.push(value)?;
        rest = after;
    }
    Ok((values, rest))
}

/// At most so many values, after their count.
#[tactic(auto, unfolding(crate::specs::Decoding::values_at))]
pub fn values(alloc: Global, most: u8, bytes: &[u8]) -> Result<(List<Value>, &[u8]), Fault>
    ensures { ReadsAs (λ x. (x.0, x.1.now)) result (values_at most bytes.now) }
{
    let (count, rest) = byte(bytes)?;
    if count > most {
        return Err(Fault::Bad(bytes.len()));
    }
    many(alloc, count, rest)
}

/// A maker and a number.
#[tactic(auto, unfolding(crate::specs::Decoding::made_at))]
pub fn made(alloc: Global, bytes: &[u8]) -> Result<((Name, u64), &[u8]), Fault>
    ensures { ReadsAs (λ x. (x.0, x.1.now)) result (made_at bytes.now) }
{
    let (maker, rest) = name(alloc, bytes)?;
    let (serial, rest) = number_64(rest)?;
    Ok(((maker, serial), rest))
}

#[tactic(auto, unfolding(crate::specs::Decoding::place_at))]
fn place(alloc: Global, bytes: &[u8]) -> Result<(Reply, &[u8]), Fault>
    ensures { ReadsAs (λ x. (x.0, x.1.now)) result (place_at bytes.now) }
{
    let ((maker, join), rest) = made(alloc, bytes)?;
    let (at, rest) = number_32(rest)?;
    Ok((Reply::Place(maker, join, at), rest))
}

#[tactic(auto, unfolding(crate::specs::Decoding::token_at))]
fn token(alloc: Global, bytes: &[u8]) -> Result<(Reply, &[u8]), Fault>
    ensures { ReadsAs (λ x. (x.0, x.1.now)) result (token_at bytes.now) }
{
    let ((maker, number), rest) = made(alloc, bytes)?;
    Ok((Reply::Tok(maker, number), rest))
}

/// To a token or a place.
#[tactic(auto, unfolding(crate::specs::Decoding::inner_at))]
pub fn inner(alloc: Global, bytes: &[u8]) -> Result<(Reply, &[u8]), Fault>
    ensures { ReadsAs (λ x. (x.0, x.1.now)) result (inner_at bytes.now) }
{
    let (kind, rest) = byte(bytes)?;
    match kind {
        1 => token(alloc, rest),
        2 => place(alloc, rest),
        _ => Err(Fault::Bad(bytes.len())),
    }
}

/// To anyone or nobody.
#[tactic(auto, unfolding(crate::specs::Decoding::reply_at))]
pub fn reply(alloc: Global, bytes: &[u8]) -> Result<(Reply, &[u8]), Fault>
    ensures { ReadsAs (λ x. (x.0, x.1.now)) result (reply_at bytes.now) }
{
    let (kind, rest) = byte(bytes)?;
    match kind {
        0 => Ok((Reply::Nobody, rest)),
        1 => token(alloc, rest),
        2 => place(alloc, rest),
        3 => {
            let (number, rest) = number_64(rest)?;
            Ok((Reply::Outside(number), rest))
        }
        _ => Err(Fault::Bad(bytes.len())),
    }
}

/// The numbers of a behaviour and a handler.
#[tactic(auto, unfolding(crate::specs::Decoding::handler_at))]
pub fn handler(bytes: &[u8]) -> Result<((u16, u16), &[u8]), Fault>
    ensures { ReadsAs (λ x. (x.0, x.1.now)) result (handler_at bytes.now) }
{
    let (behavior, rest) = number_16(bytes)?;
    let (handler, rest) = number_16(rest)?;
    Ok(((behavior, handler), rest))
}

/// A locator and a number of moves.
#[tactic(auto, unfolding(crate::specs::Decoding::moved_at))]
pub fn moved(alloc: Global, bytes: &[u8]) -> Result<((Ual, u64), &[u8]), Fault>
    ensures { ReadsAs (λ x. (x.0, x.1.now)) result (moved_at bytes.now) }
{
    let (place, rest) = locator(alloc, bytes)?;
    let (moves, rest) = number_64(rest)?;
    Ok(((place, moves), rest))
}

/// Where a name was found, or that it wasn't.
#[tactic(auto, unfolding(crate::specs::Decoding::found_at))]
pub fn found(alloc: Global, bytes: &[u8]) -> Result<(Option<(Ual, u64)>, &[u8]), Fault>
    ensures { ReadsAs (λ x. (x.0, x.1.now)) result (found_at bytes.now) }
{
    let (is_found, rest) = truth(bytes)?;
    if !is_found {
        return Ok((None, rest));
    }
    let (moved, rest) = moved(alloc, rest)?;
    Ok((Some(moved), rest))
}
