//! The fields of which names and values are made on bytes.

ghost use Rattle.std.specs.Prelude.{◌≡◌, List, length};
ghost use Rattle.std.specs.Int.{w16, w32, w64};
ghost use Rattle.sal_value.specs.Decoding.{byte_at, bytes_at, number_at, bool_at, text_at};
ghost use Rattle.sal_value.specs.code.Reads.{ReadsAs};

use crate::no_memory::NoMemory;
use crate::text::Text;
use std::alloc::Global;

/// Why a reading stops.
#[derive(Clone, Copy, Debug, PartialEq, Eq)]
pub enum Fault {
    /// The bytes end inside a field.
    Cut,
    /// A field is wrong that begins where so many bytes are left.
    Bad(usize),
    Memory,
}

impl From<NoMemory> for Fault {
    ghost use Rattle.sal_value.specs.declared.fields.Fault.TheVariants.{Memory};

    ghost from_gives = { λ _ e. e ≡ Memory };

    fn from(_: NoMemory) -> Fault {
        Fault::Memory
    }
}

pub fn byte(bytes: &[u8]) -> Result<(u8, &[u8]), Fault>
    ensures { ReadsAs (λ x. (x.0, x.1.now)) result (byte_at bytes.now) }
{
    match bytes {
        [] => Err(Fault::Cut),
        [first, rest @ ..] => Ok((*first, rest)),
    }
}

#[tactic(auto, unfolding(crate::specs::Decoding::bytes_at))]
pub fn take(bytes: &[u8], count: usize) -> Result<(&[u8], &[u8]), Fault>
    ensures { ReadsAs (λ x. (x.0.now, x.1.now)) result (bytes_at count bytes.now) }
{
    if bytes.len() < count {
        return Err(Fault::Cut);
    }
    Ok(bytes.split_at(count))
}

#[tactic(auto, unfolding(crate::specs::Decoding::bytes_at, crate::specs::Decoding::number_at))]
pub fn number_16(bytes: &[u8]) -> Result<(u16, &[u8]), Fault>
    ensures { ReadsAs (λ x. (x.0, x.1.now)) result (number_at w16 bytes.now) }
{
    if bytes.len() < 2 {
        return Err(Fault::Cut);
    }
    let (front, rest) = bytes.split_at(2);
    Ok((u16::from_be_bytes([front[0], front[1]]), rest))
}

#[tactic(auto, unfolding(crate::specs::Decoding::bytes_at, crate::specs::Decoding::number_at))]
pub fn number_32(bytes: &[u8]) -> Result<(u32, &[u8]), Fault>
    ensures { ReadsAs (λ x. (x.0, x.1.now)) result (number_at w32 bytes.now) }
{
    if bytes.len() < 4 {
        return Err(Fault::Cut);
    }
    let (front, rest) = bytes.split_at(4);
    let number = u32::from_be_bytes([front[0], front[1], front[2], front[3]]);
    Ok((number, rest))
}

#[tactic(auto, unfolding(crate::specs::Decoding::bytes_at, crate::specs::Decoding::number_at))]
pub fn number_64(bytes: &[u8]) -> Result<(u64, &[u8]), Fault>
    ensures { ReadsAs (λ x. (x.0, x.1.now)) result (number_at w64 bytes.now) }
{
    if bytes.len() < 8 {
        return Err(Fault::Cut);
    }
    let (front, rest) = bytes.split_at(8);
    let number = u64::from_be_bytes([
        front[0], front[1], front[2], front[3], front[4], front[5], front[6], front[7],
    ]);
    Ok((number, rest))
}

#[tactic(auto, unfolding(crate::specs::Decoding::bool_at))]
pub fn truth(bytes: &[u8]) -> Result<(bool, &[u8]), Fault>
    ensures { ReadsAs (λ x. (x.0, x.1.now)) result (bool_at bytes.now) }
{
    match bytes {
        [] => Err(Fault::Cut),
        [0, rest @ ..] => Ok((false, rest)),
        [1, rest @ ..] => Ok((true, rest)),
        _ => Err(Fault::Bad(bytes.len())),
    }
}

#[tactic(auto, using(crate::proofs::Utf8::utf8_true, crate::proofs::Utf8::utf8_false), unfolding(crate::specs::Decoding::text_at))]
pub fn text(alloc: Global, bytes: &[u8]) -> Result<(Text, &[u8]), Fault>
    ensures { ReadsAs (λ x. (x.0, x.1.now)) result (text_at bytes.now) }
{
    let (len, behind) = number_16(bytes)?;
    if len > 4096 {
        return Err(Fault::Bad(bytes.len()));
    }
    let (front, rest) = take(behind, len as usize)?;
    match str::from_utf8(front) {
        Ok(front) => {
            let text = Text::from_text(alloc, front)?;
            Ok((text, rest))
        }
        Err(_) => Err(Fault::Bad(behind.len())),
    }
}
