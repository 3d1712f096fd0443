//! Actors to bytes.

ghost use Rattle.std.specs.Prelude.{◌≡◌, ◌<◌, ◌≤◌, ◌++◌, ◌∷◌, [], true, length, if◌then◌else◌, IsTrue, OnOk};
ghost use Rattle.std.specs.List.{list_all, flat_map};
ghost use Rattle.sal_envelope.specs.Spelling.{bytes_64, handler_spelling, call_spelling, call_is_spelled};
ghost use Rattle.sal_resident.specs.Packing.{target_spelling, target_is_spelled, piece_spelling, piece_is_spelled, pieces_spelling, numbers_spelling, message_spelling, message_is_spelled, slot_spelling, slot_is_spelled, list_spelling, join_spelling, join_is_spelled, state_spelling, state_is_spelled, book_spelling, book_is_spelled, packed_actor, is_packable, Packs};

use crate::resident::{PackFault, Resident};
use sal_book::Book;
use sal_envelope::{fields, put_call};
use sal_mail::{Join, Message, Piece, Target};
use sal_value::{List, NoMemory, Value};
use std::alloc::Global;

#[tactic(auto, using(sal_envelope::proofs::Parts::tagged), unfolding(crate::specs::Packing::target_spelling, crate::specs::Packing::target_is_spelled))]
fn put_target(alloc: Global, target: &Target, out: &mut List<u8>) -> Result<(), NoMemory>
    requires { target_is_spelled target.now ≡ true }
    ensures { OnOk result (out.new ≡ out.old ++ target_spelling target.now) }
{
    match target {
        Target::Output => out.push(0),
        Target::Actor(name) => {
            out.push(1)?;
            name.encode(alloc, out)
        }
    }
}

#[tactic(auto, using(sal_envelope::proofs::Parts::tagged), unfolding(crate::specs::Packing::piece_spelling, crate::specs::Packing::piece_is_spelled))]
fn put_piece(alloc: Global, piece: &Piece, out: &mut List<u8>) -> Result<(), NoMemory>
    requires { piece_is_spelled piece.now ≡ true }
    ensures { OnOk result (out.new ≡ out.old ++ piece_spelling piece.now) }
{
    match piece {
        Piece::Known(value) => {
            out.push(0)?;
            value.encode(alloc, out)
        }
        Piece::Token(number) => {
            out.push(1)?;
            fields::put_64(*number, out)
        }
    }
}

#[tactic(auto, using(std::proofs::lemmas::Grind::common_steps, crate::proofs::Parts::piece_in))]
fn put_each_piece(alloc: Global, pieces: &[Piece], out: &mut List<u8>) -> Result<(), NoMemory>
    requires { list_all piece_is_spelled pieces.now ≡ true }
    ensures { OnOk result (out.new ≡ out.old ++ flat_map piece_spelling pieces.now) }
{
    for piece in pieces {
        put_piece(alloc, piece, out)?;
    }
    Ok(())
}

/// Adds the arguments after their count.
#[tactic(auto, using(sal_envelope::proofs::Parts::tagged), unfolding(crate::specs::Packing::pieces_spelling))]
fn put_pieces(alloc: Global, pieces: &[Piece], out: &mut List<u8>) -> Result<(), NoMemory>
    requires few { length pieces.now ≤ 255 }
    requires spelled { list_all piece_is_spelled pieces.now ≡ true }
    ensures { OnOk result (out.new ≡ out.old ++ pieces_spelling pieces.now) }
{
    out.push(pieces.len() as u8)?;
    put_each_piece(alloc, pieces, out)
}

#[tactic(auto, using(std::proofs::lemmas::Grind::common_steps))]
fn put_each_number(numbers: &[u64], out: &mut List<u8>) -> Result<(), NoMemory>
    ensures { OnOk result (out.new ≡ out.old ++ flat_map bytes_64 numbers.now) }
{
    for number in numbers {
        fields::put_64(*number, out)?;
    }
    Ok(())
}

/// Adds the numbers after their count.
#[tactic(auto, using(sal_envelope::proofs::Parts::two_parts), unfolding(crate::specs::Packing::numbers_spelling))]
fn put_numbers(numbers: &[u64], out: &mut List<u8>) -> Result<(), NoMemory>
    requires { length numbers.now ≤ 65535 }
    ensures { OnOk result (out.new ≡ out.old ++ numbers_spelling numbers.now) }
{
    fields::put_16(numbers.len() as u16, out)?;
    put_each_number(numbers, out)
}

#[tactic(auto, using(sal_envelope::proofs::Parts::two_parts))]
fn put_handler(behavior: u16, handler: u16, out: &mut List<u8>) -> Result<(), NoMemory>
    ensures { OnOk result (out.new ≡ out.old ++ handler_spelling behavior handler) }
{
    fields::put_16(behavior, out)?;
    fields::put_16(handler, out)
}

/// Adds a message that waits.
#[tactic(auto, using(crate::proofs::Parts::seven_parts), unfolding(crate::specs::Packing::message_spelling))]
fn put_message(alloc: Global, message: &Message, out: &mut List<u8>) -> Result<(), NoMemory>
    requires { message_is_spelled message.now ≡ true }
    ensures { OnOk result (out.new ≡ out.old ++ message_spelling message.now) }
{
    fields::put_made(alloc, &message.maker, message.serial, out)?;
    put_target(alloc, &message.target, out)?;
    put_handler(message.behavior, message.handler, out)?;
    put_pieces(alloc, message.args.as_slice(), out)?;
    put_numbers(message.after.as_slice(), out)?;
    fields::put_32(message.delay, out)?;
    fields::put_reply(alloc, &message.reply, out)
}

#[tactic(auto, using(std::proofs::lemmas::Grind::common_steps, crate::proofs::Parts::message_in))]
fn put_each_message(alloc: Global, messages: &[Message], out: &mut List<u8>) -> Result<(), NoMemory>
    requires { list_all message_is_spelled messages.now ≡ true }
    ensures { OnOk result (out.new ≡ out.old ++ flat_map message_spelling messages.now) }
{
    for message in messages {
        put_message(alloc, message, out)?;
    }
    Ok(())
}

/// Adds the messages after their count.
#[tactic(auto, using(sal_envelope::proofs::Parts::two_parts), unfolding(crate::specs::Packing::list_spelling))]
fn put_messages(alloc: Global, messages: &[Message], out: &mut List<u8>) -> Result<(), NoMemory>
    requires few { length messages.now < 4294967296 }
    requires spelled { list_all message_is_spelled messages.now ≡ true }
    ensures { OnOk result (out.new ≡ out.old ++ list_spelling message_spelling messages.now) }
{
    fields::put_32(messages.len() as u32, out)?;
    put_each_message(alloc, messages, out)
}

#[tactic(auto, using(sal_envelope::proofs::Parts::tagged), unfolding(crate::specs::Packing::slot_spelling, crate::specs::Packing::slot_is_spelled))]
fn put_slot(alloc: Global, slot: &Option<Value>, out: &mut List<u8>) -> Result<(), NoMemory>
    requires { slot_is_spelled slot.now ≡ true }
    ensures { OnOk result (out.new ≡ out.old ++ slot_spelling slot.now) }
{
    match slot {
        None => out.push(0),
        Some(value) => {
            out.push(1)?;
            value.encode(alloc, out)
        }
    }
}

#[tactic(auto, using(std::proofs::lemmas::Grind::common_steps, crate::proofs::Parts::slot_in))]
fn put_each_slot(alloc: Global, slots: &[Option<Value>], out: &mut List<u8>) -> Result<(), NoMemory>
    requires { list_all slot_is_spelled slots.now ≡ true }
    ensures { OnOk result (out.new ≡ out.old ++ flat_map slot_spelling slots.now) }
{
    for slot in slots {
        put_slot(alloc, slot, out)?;
    }
    Ok(())
}

/// Adds the slots after their count.
#[tactic(auto, using(sal_envelope::proofs::Parts::two_parts), unfolding(crate::specs::Packing::list_spelling))]
fn put_slots(alloc: Global, slots: &[Option<Value>], out: &mut List<u8>) -> Result<(), NoMemory>
    requires few { length slots.now < 4294967296 }
    requires spelled { list_all slot_is_spelled slots.now ≡ true }
    ensures { OnOk result (out.new ≡ out.old ++ list_spelling slot_spelling slots.now) }
{
    fields::put_32(slots.len() as u32, out)?;
    put_each_slot(alloc, slots, out)
}

/// Adds an open join.
#[tactic(auto, using(crate::proofs::Parts::join_parts), unfolding(crate::specs::Packing::join_spelling))]
fn put_join(alloc: Global, join: &Join, out: &mut List<u8>) -> Result<(), NoMemory>
    requires { join_is_spelled join.now ≡ true }
    ensures { OnOk result (out.new ≡ out.old ++ join_spelling join.now) }
{
    fields::put_64(join.number, out)?;
    out.push(u8::from(join.void))?;
    put_slots(alloc, join.places.as_slice(), out)?;
    fields::put_reply(alloc, &join.reply, out)
}

#[tactic(auto, using(std::proofs::lemmas::Grind::common_steps, crate::proofs::Parts::join_in))]
fn put_each_join(alloc: Global, joins: &[Join], out: &mut List<u8>) -> Result<(), NoMemory>
    requires { list_all join_is_spelled joins.now ≡ true }
    ensures { OnOk result (out.new ≡ out.old ++ flat_map join_spelling joins.now) }
{
    for join in joins {
        put_join(alloc, join, out)?;
    }
    Ok(())
}

/// Adds the joins after their count.
#[tactic(auto, using(sal_envelope::proofs::Parts::two_parts), unfolding(crate::specs::Packing::list_spelling))]
fn put_joins(alloc: Global, joins: &[Join], out: &mut List<u8>) -> Result<(), NoMemory>
    requires few { length joins.now < 4294967296 }
    requires spelled { list_all join_is_spelled joins.now ≡ true }
    ensures { OnOk result (out.new ≡ out.old ++ list_spelling join_spelling joins.now) }
{
    fields::put_32(joins.len() as u32, out)?;
    put_each_join(alloc, joins, out)
}

#[tactic(auto, using(std::proofs::lemmas::Grind::common_steps, crate::proofs::Parts::call_in))]
fn put_each_call(alloc: Global, calls: &[Message], out: &mut List<u8>) -> Result<(), NoMemory>
    requires { list_all call_is_spelled calls.now ≡ true }
    ensures { OnOk result (out.new ≡ out.old ++ flat_map call_spelling calls.now) }
{
    for call in calls {
        put_call(alloc, call, out)?;
    }
    Ok(())
}

/// Adds the calls after their count.
#[tactic(auto, using(sal_envelope::proofs::Parts::two_parts), unfolding(crate::specs::Packing::list_spelling))]
fn put_calls(alloc: Global, calls: &[Message], out: &mut List<u8>) -> Result<(), NoMemory>
    requires few { length calls.now < 4294967296 }
    requires spelled { list_all call_is_spelled calls.now ≡ true }
    ensures { OnOk result (out.new ≡ out.old ++ list_spelling call_spelling calls.now) }
{
    fields::put_32(calls.len() as u32, out)?;
    put_each_call(alloc, calls, out)
}

#[tactic(auto, using(sal_envelope::proofs::Parts::five_parts), unfolding(crate::specs::Packing::state_spelling))]
fn put_state(alloc: Global, actor: &Resident, out: &mut List<u8>) -> Result<(), NoMemory>
    requires { state_is_spelled actor.now ≡ true }
    ensures { OnOk result (out.new ≡ out.old ++ state_spelling actor.now) }
{
    actor.name.encode(alloc, out)?;
    fields::put_64(actor.moves, out)?;
    fields::put_16(actor.behavior, out)?;
    fields::put_values(alloc, actor.fields.as_slice(), out)?;
    fields::put_64(actor.serial, out)
}

#[tactic(auto, using(sal_envelope::proofs::Parts::two_parts), unfolding(crate::specs::Packing::book_spelling))]
fn put_book(alloc: Global, book: &Book, out: &mut List<u8>) -> Result<(), NoMemory>
    requires { book_is_spelled book.now ≡ true }
    ensures { OnOk result (out.new ≡ out.old ++ book_spelling book.now) }
{
    put_messages(alloc, book.waiting_messages(), out)?;
    put_joins(alloc, book.open_joins(), out)
}

#[tactic(auto, using(sal_envelope::proofs::Parts::three_parts), unfolding(crate::specs::Packing::packed_actor))]
fn put_actor(alloc: Global, actor: &Resident, out: &mut List<u8>) -> Result<(), NoMemory>
    requires { is_packable actor.now ≡ true }
    ensures { OnOk result (out.new ≡ out.old ++ packed_actor actor.now) }
{
    put_state(alloc, actor, out)?;
    put_book(alloc, &actor.book, out)?;
    put_calls(alloc, actor.mailbox.as_slice(), out)
}

/// The bytes of an actor that has a spelling, but for its length.
pub fn pack(alloc: Global, actor: &Resident) -> Result<List<u8>, PackFault>
    requires { IsTrue (is_packable actor.now) }
    ensures { Packs actor.now result }
{
    let mut bytes = List::new(alloc);
    put_actor(alloc, actor, &mut bytes)?;
    if bytes.len() > 16_777_215 {
        return Err(PackFault::TooLarge);
    }
    Ok(bytes)
}
