//! The fields of which envelopes are made on bytes.

ghost use Rattle.std.specs.Prelude.{◌≡◌, ◌≤◌, ◌++◌, true, length, OnOk};
ghost use Rattle.std.specs.List.{list_all, flat_map};
ghost use Rattle.sal_value.specs.Names.{is_uan, is_ual};
ghost use Rattle.sal_value.specs.Spelling.{name_is_spelled, spelling, is_spelled};
ghost use Rattle.sal_envelope.specs.Spelling.{bytes_16, bytes_32, bytes_64, uan_spelling, locator_spelling, values_spelling, made_spelling, reply_spelling, reply_is_spelled, found_spelling, found_is_spelled};

use sal_mail::Reply;
use sal_value::{CloneIn, List, Name, NoMemory, Ual, Uan, Value};
use std::alloc::Global;

/// Adds a number in 2 bytes.
#[tactic(auto, unfolding(crate::specs::Spelling::bytes_16))]
pub fn put_16(number: u16, out: &mut List<u8>) -> Result<(), NoMemory>
    ensures { OnOk result (out.new ≡ out.old ++ bytes_16 number) }
{
    out.push_slice(&number.to_be_bytes())
}

/// Adds a number in 4 bytes.
#[tactic(auto, unfolding(crate::specs::Spelling::bytes_32))]
pub fn put_32(number: u32, out: &mut List<u8>) -> Result<(), NoMemory>
    ensures { OnOk result (out.new ≡ out.old ++ bytes_32 number) }
{
    out.push_slice(&number.to_be_bytes())
}

/// Adds a number in 8 bytes.
#[tactic(auto, unfolding(crate::specs::Spelling::bytes_64))]
pub fn put_64(number: u64, out: &mut List<u8>) -> Result<(), NoMemory>
    ensures { OnOk result (out.new ≡ out.old ++ bytes_64 number) }
{
    out.push_slice(&number.to_be_bytes())
}

/// Adds a universal name.
#[tactic(auto, using(crate::proofs::Parts::uan_is_spelled))]
pub fn put_uan(alloc: Global, uan: &Uan, out: &mut List<u8>) -> Result<(), NoMemory>
    requires { is_uan uan.now ≡ true }
    ensures { OnOk result (out.new ≡ out.old ++ uan_spelling uan.now) }
{
    let name = Name::Uan(uan.clone_in(alloc)?);
    name.encode(alloc, out)
}

/// Adds the locator's text after its length.
#[tactic(auto, using(crate::proofs::Parts::two_parts, crate::proofs::Parts::ual_short), unfolding(crate::specs::Spelling::locator_spelling))]
pub fn put_ual(alloc: Global, place: &Ual, out: &mut List<u8>) -> Result<(), NoMemory>
    requires { is_ual place.now ≡ true }
    ensures { OnOk result (out.new ≡ out.old ++ locator_spelling place.now) }
{
    let text = place.text(alloc)?;
    put_16(text.len() as u16, out)?;
    out.push_slice(text.as_bytes())
}

#[tactic(auto, using(std::proofs::lemmas::Grind::common_steps, crate::proofs::Parts::value_at))]
fn put_each(alloc: Global, values: &[Value], out: &mut List<u8>) -> Result<(), NoMemory>
    requires { list_all is_spelled values.now ≡ true }
    ensures { OnOk result (out.new ≡ out.old ++ flat_map spelling values.now) }
{
    for value in values {
        value.encode(alloc, out)?;
    }
    Ok(())
}

/// Adds the values after their count.
#[tactic(auto, using(crate::proofs::Parts::tagged), unfolding(crate::specs::Spelling::values_spelling))]
pub fn put_values(alloc: Global, values: &[Value], out: &mut List<u8>) -> Result<(), NoMemory>
    requires few { length values.now ≤ 255 }
    requires spelled { list_all is_spelled values.now ≡ true }
    ensures { OnOk result (out.new ≡ out.old ++ values_spelling values.now) }
{
    out.push(values.len() as u8)?;
    put_each(alloc, values, out)
}

/// Adds a maker and a number.
#[tactic(auto, using(crate::proofs::Parts::two_parts))]
pub fn put_made(
    alloc: Global,
    maker: &Name,
    serial: u64,
    out: &mut List<u8>,
) -> Result<(), NoMemory>
    requires { name_is_spelled maker.now ≡ true }
    ensures { OnOk result (out.new ≡ out.old ++ made_spelling maker.now serial) }
{
    maker.encode(alloc, out)?;
    put_64(serial, out)
}

/// Adds to whom a reply is owed.
#[tactic(auto, using(crate::proofs::Parts::tagged, crate::proofs::Parts::tagged_two), unfolding(crate::specs::Spelling::reply_spelling, crate::specs::Spelling::reply_is_spelled))]
pub fn put_reply(alloc: Global, reply: &Reply, out: &mut List<u8>) -> Result<(), NoMemory>
    requires { reply_is_spelled reply.now ≡ true }
    ensures { OnOk result (out.new ≡ out.old ++ reply_spelling reply.now) }
{
    match reply {
        Reply::Nobody => out.push(0),
        Reply::Tok(maker, number) => {
            out.push(1)?;
            put_made(alloc, maker, *number, out)
        }
        Reply::Place(maker, join, at) => {
            out.push(2)?;
            put_made(alloc, maker, *join, out)?;
            put_32(*at, out)
        }
        Reply::Outside(number) => {
            out.push(3)?;
            put_64(*number, out)
        }
    }
}

/// Adds where a name was found, or that it wasn't.
#[tactic(auto, using(crate::proofs::Parts::tagged_two), unfolding(crate::specs::Spelling::found_spelling, crate::specs::Spelling::found_is_spelled))]
pub fn put_found(
    alloc: Global,
    found: &Option<(Ual, u64)>,
    out: &mut List<u8>,
) -> Result<(), NoMemory>
    requires { found_is_spelled found.now ≡ true }
    ensures { OnOk result (out.new ≡ out.old ++ found_spelling found.now) }
{
    match found {
        Some((place, moves)) => {
            out.push(1)?;
            put_ual(alloc, place, out)?;
            put_64(*moves, out)
        }
        None => out.push(0),
    }
}
