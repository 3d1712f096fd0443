//! Actors from bytes.

ghost use Rattle.std.specs.Prelude.{◌≡◌, [], true, IsTrue, IfOk};
ghost use Rattle.std.specs.Int.{w64};
ghost use Rattle.std.specs.List.{list_all};
ghost use Rattle.sal_value.specs.code.Reads.{Decodes};
ghost use Rattle.sal_envelope.specs.Decoding.{number_at, call_at};
ghost use Rattle.sal_envelope.specs.code.Reads.{ReadsAs};
ghost use Rattle.sal_book.specs.Book.{rise, message_numbers, join_numbers, is_waiting, is_open};
ghost use Rattle.sal_resident.specs.Packing.{packed_actor, is_packable};
ghost use Rattle.sal_resident.specs.Unpacking.{each_at, each_numbered_at, is_above, rising_at, made_above_at, target_at, piece_at, pieces_at, numbers_at, if_waiting, message_at, messages_at, slot_at, slots_at, if_open, join_at, joins_at, state_at, book_of, book_at, mailbox_at, with_book_and_mailbox, actor_at, whole_actor_at, unpacked_actor};

use crate::resident::Resident;
use sal_book::Book;
use sal_envelope::{Fault, call, fault_with_offset, front, if_none_left};
use sal_mail::{Join, Message, Piece, Target};
use sal_value::{DecodeFault, List, Name, NoMemory, Value};
use std::alloc::Global;

/// Whether the number is above the one before it, if there is one.
fn is_above(before: Option<u64>, number: u64) -> bool
    ensures { result ≡ is_above before number }
{
    match before {
        None => true,
        Some(before) => before < number,
    }
}

/// A number that is above the one before it.
#[tactic(auto, unfolding(crate::specs::Unpacking::rising_at))]
fn rising(before: Option<u64>, bytes: &[u8]) -> Result<(u64, &[u8]), Fault>
    ensures { ReadsAs (λ x. (x.0, x.1.now)) result (rising_at before bytes.now) }
{
    let (number, rest) = front::number_64(bytes)?;
    if !is_above(before, number) {
        return Err(Fault::Bad(bytes.len()));
    }
    Ok((number, rest))
}

#[tactic(auto, unfolding(crate::specs::Unpacking::made_above_at))]
fn made_above(
    alloc: Global,
    before: Option<u64>,
    bytes: &[u8],
) -> Result<((Name, u64), &[u8]), Fault>
    ensures { ReadsAs (λ x. (x.0, x.1.now)) result (made_above_at before bytes.now) }
{
    let (maker, rest) = front::name(alloc, bytes)?;
    let (serial, rest) = rising(before, rest)?;
    Ok(((maker, serial), rest))
}

#[tactic(auto, unfolding(crate::specs::Unpacking::target_at))]
fn target(alloc: Global, bytes: &[u8]) -> Result<(Target, &[u8]), Fault>
    ensures { ReadsAs (λ x. (x.0, x.1.now)) result (target_at bytes.now) }
{
    let (is_actor, rest) = front::truth(bytes)?;
    if !is_actor {
        return Ok((Target::Output, rest));
    }
    let (name, rest) = front::name(alloc, rest)?;
    Ok((Target::Actor(name), rest))
}

#[tactic(auto, unfolding(crate::specs::Unpacking::piece_at))]
fn piece(alloc: Global, bytes: &[u8]) -> Result<(Piece, &[u8]), Fault>
    ensures { ReadsAs (λ x. (x.0, x.1.now)) result (piece_at bytes.now) }
{
    let (is_token, rest) = front::truth(bytes)?;
    if is_token {
        let (number, rest) = front::number_64(rest)?;
        return Ok((Piece::Token(number), rest));
    }
    let (value, rest) = front::value(alloc, rest)?;
    Ok((Piece::Known(value), rest))
}

fn each_piece(alloc: Global, count: u8, bytes: &[u8]) -> Result<(List<Piece>, &[u8]), Fault>
    ensures { ReadsAs (λ x. (x.0, x.1.now)) result (each_at piece_at count bytes.now) }
{
    let mut pieces = List::new(alloc);
    let mut rest = bytes;
    for _ in 0..count {
        let (piece, after) = piece(alloc, rest)?;
        pieces.push(piece)?;
        rest = after;
    }
    Ok((pieces, rest))
}

/// Arguments, after their count.
#[tactic(auto, unfolding(crate::specs::Unpacking::pieces_at))]
fn pieces(alloc: Global, bytes: &[u8]) -> Result<(List<Piece>, &[u8]), Fault>
    ensures { ReadsAs (λ x. (x.0, x.1.now)) result (pieces_at bytes.now) }
{
    let (count, rest) = front::byte(bytes)?;
    each_piece(alloc, count, rest)
}

fn each_number(alloc: Global, count: u16, bytes: &[u8]) -> Result<(List<u64>, &[u8]), Fault>
    ensures { ReadsAs (λ x. (x.0, x.1.now)) result (each_at (number_at w64) count bytes.now) }
{
    let mut numbers = List::new(alloc);
    let mut rest = bytes;
    for _ in 0..count {
        let (number, after) = front::number_64(rest)?;
        numbers.push(number)?;
        rest = after;
    }
    Ok((numbers, rest))
}

/// Numbers, after their count.
#[tactic(auto, unfolding(crate::specs::Unpacking::numbers_at))]
fn numbers(alloc: Global, bytes: &[u8]) -> Result<(List<u64>, &[u8]), Fault>
    ensures { ReadsAs (λ x. (x.0, x.1.now)) result (numbers_at bytes.now) }
{
    let (count, rest) = front::number_16(bytes)?;
    each_number(alloc, count, rest)
}

/// The message that was read of these bytes, if it waits for something.
fn if_waiting<'a>(
    bytes: &[u8],
    message: Message,
    rest: &'a [u8],
) -> Result<(Message, &'a [u8]), Fault>
    ensures { ReadsAs (λ x. (x.0, x.1.now)) result (if_waiting bytes.now message rest.now) }
{
    if message.is_ready() {
        return Err(Fault::Bad(bytes.len()));
    }
    Ok((message, rest))
}

/// A message that waits, whose number is above the one before it.
#[tactic(auto, unfolding(crate::specs::Unpacking::message_at))]
fn message(alloc: Global, before: Option<u64>, bytes: &[u8]) -> Result<(Message, &[u8]), Fault>
    ensures { ReadsAs (λ x. (x.0, x.1.now)) result (message_at before bytes.now) }
{
    let ((maker, serial), rest) = made_above(alloc, before, bytes)?;
    let (target, rest) = target(alloc, rest)?;
    let ((behavior, handler), rest) = front::handler(rest)?;
    let (args, rest) = pieces(alloc, rest)?;
    let (after, rest) = numbers(alloc, rest)?;
    let (delay, rest) = front::number_32(rest)?;
    let (reply, rest) = front::reply(alloc, rest)?;
    let message = Message {
        maker,
        serial,
        target,
        behavior,
        handler,
        args,
        after,
        delay,
        reply,
    };
    if_waiting(bytes, message, rest)
}

fn each_message(alloc: Global, count: u32, bytes: &[u8]) -> Result<(List<Message>, &[u8]), Fault>
    ensures { ReadsAs (λ x. (x.0, x.1.now)) result (each_numbered_at (λ m. m.serial) message_at count bytes.now) }
{
    let mut messages = List::new(alloc);
    let mut before = None;
    let mut rest = bytes;
    for _ in 0..count {
        let (message, after) = message(alloc, before, rest)?;
        before = Some(message.serial);
        messages.push(message)?;
        rest = after;
    }
    Ok((messages, rest))
}

/// Messages that wait, after their count.
#[tactic(auto, unfolding(crate::specs::Unpacking::messages_at))]
fn messages(alloc: Global, bytes: &[u8]) -> Result<(List<Message>, &[u8]), Fault>
    ensures { ReadsAs (λ x. (x.0, x.1.now)) result (messages_at bytes.now) }
{
    let (count, rest) = front::number_32(bytes)?;
    each_message(alloc, count, rest)
}

#[tactic(auto, unfolding(crate::specs::Unpacking::slot_at))]
fn slot(alloc: Global, bytes: &[u8]) -> Result<(Option<Value>, &[u8]), Fault>
    ensures { ReadsAs (λ x. (x.0, x.1.now)) result (slot_at bytes.now) }
{
    let (is_filled, rest) = front::truth(bytes)?;
    if !is_filled {
        return Ok((None, rest));
    }
    let (value, rest) = front::value(alloc, rest)?;
    Ok((Some(value), rest))
}

fn each_slot(alloc: Global, count: u32, bytes: &[u8]) -> Result<(List<Option<Value>>, &[u8]), Fault>
    ensures { ReadsAs (λ x. (x.0, x.1.now)) result (each_at slot_at count bytes.now) }
{
    let mut slots = List::new(alloc);
    let mut rest = bytes;
    for _ in 0..count {
        let (slot, after) = slot(alloc, rest)?;
        slots.push(slot)?;
        rest = after;
    }
    Ok((slots, rest))
}

/// Slots, after their count.
#[tactic(auto, unfolding(crate::specs::Unpacking::slots_at))]
fn slots(alloc: Global, bytes: &[u8]) -> Result<(List<Option<Value>>, &[u8]), Fault>
    ensures { ReadsAs (λ x. (x.0, x.1.now)) result (slots_at bytes.now) }
{
    let (count, rest) = front::number_32(bytes)?;
    each_slot(alloc, count, rest)
}

/// The join that was read of these bytes, if a slot of it is empty.
fn if_open<'a>(bytes: &[u8], join: Join, rest: &'a [u8]) -> Result<(Join, &'a [u8]), Fault>
    ensures { ReadsAs (λ x. (x.0, x.1.now)) result (if_open bytes.now join rest.now) }
{
    if join.is_full() {
        return Err(Fault::Bad(bytes.len()));
    }
    Ok((join, rest))
}

/// An open join, whose number is above the one before it.
#[tactic(auto, unfolding(crate::specs::Unpacking::join_at))]
fn join(alloc: Global, before: Option<u64>, bytes: &[u8]) -> Result<(Join, &[u8]), Fault>
    ensures { ReadsAs (λ x. (x.0, x.1.now)) result (join_at before bytes.now) }
{
    let (number, rest) = rising(before, bytes)?;
    let (void, rest) = front::truth(rest)?;
    let (places, rest) = slots(alloc, rest)?;
    let (reply, rest) = front::reply(alloc, rest)?;
    let join = Join {
        number,
        places,
        void,
        reply,
    };
    if_open(bytes, join, rest)
}

fn each_join(alloc: Global, count: u32, bytes: &[u8]) -> Result<(List<Join>, &[u8]), Fault>
    ensures { ReadsAs (λ x. (x.0, x.1.now)) result (each_numbered_at (λ j. j.number) join_at count bytes.now) }
{
    let mut joins = List::new(alloc);
    let mut before = None;
    let mut rest = bytes;
    for _ in 0..count {
        let (join, after) = join(alloc, before, rest)?;
        before = Some(join.number);
        joins.push(join)?;
        rest = after;
    }
    Ok((joins, rest))
}

/// Open joins, after their count.
#[tactic(auto, unfolding(crate::specs::Unpacking::joins_at))]
fn joins(alloc: Global, bytes: &[u8]) -> Result<(List<Join>, &[u8]), Fault>
    ensures { ReadsAs (λ x. (x.0, x.1.now)) result (joins_at bytes.now) }
{
    let (count, rest) = front::number_32(bytes)?;
    each_join(alloc, count, rest)
}

/// The book that keeps these messages and joins, all of which wait.
fn book_of(alloc: Global, messages: List<Message>, joins: List<Join>) -> Result<Book, NoMemory>
    requires messages { rise (message_numbers messages) ≡ true }
    requires waiting { list_all is_waiting messages ≡ true }
    requires joins { rise (join_numbers joins) ≡ true }
    requires still_open { list_all is_open joins ≡ true }
    ensures { IfOk result (λ book. book ≡ book_of messages joins) }
{
    let mut book = Book::new(alloc);
    let _ = book.enter(alloc, messages, joins)?;
    Ok(book)
}

#[tactic(auto, unfolding(crate::specs::Unpacking::book_at))]
fn book(alloc: Global, bytes: &[u8]) -> Result<(Book, &[u8]), Fault>
    ensures { ReadsAs (λ x. (x.0, x.1.now)) result (book_at bytes.now) }
{
    let (messages, rest) = messages(alloc, bytes)?;
    let (joins, rest) = joins(alloc, rest)?;
    Ok((book_of(alloc, messages, joins)?, rest))
}

fn each_call(alloc: Global, count: u32, bytes: &[u8]) -> Result<(List<Message>, &[u8]), Fault>
    ensures { ReadsAs (λ x. (x.0, x.1.now)) result (each_at call_at count bytes.now) }
{
    let mut calls = List::new(alloc);
    let mut rest = bytes;
    for _ in 0..count {
        let (message, after) = call(alloc, rest)?;
        calls.push(message)?;
        rest = after;
    }
    Ok((calls, rest))
}

/// Calls, after their count.
#[tactic(auto, unfolding(crate::specs::Unpacking::mailbox_at))]
fn mailbox(alloc: Global, bytes: &[u8]) -> Result<(List<Message>, &[u8]), Fault>
    ensures { ReadsAs (λ x. (x.0, x.1.now)) result (mailbox_at bytes.now) }
{
    let (count, rest) = front::number_32(bytes)?;
    each_call(alloc, count, rest)
}

/// An actor with nothing in its book and its mailbox.
#[tactic(auto, unfolding(crate::specs::Unpacking::state_at))]
fn state(alloc: Global, bytes: &[u8]) -> Result<(Resident, &[u8]), Fault>
    ensures { ReadsAs (λ x. (x.0, x.1.now)) result (state_at bytes.now) }
{
    let (uan, rest) = front::uan(alloc, bytes)?;
    let (moves, rest) = front::number_64(rest)?;
    let (behavior, rest) = front::number_16(rest)?;
    let (fields, rest) = front::values(alloc, 255, rest)?;
    let (serial, rest) = front::number_64(rest)?;
    let actor = Resident {
        name: Name::Uan(uan),
        moves,
        behavior,
        fields,
        serial,
        book: Book::new(alloc),
        mailbox: List::new(alloc),
    };
    Ok((actor, rest))
}

fn with_book_and_mailbox(actor: Resident, book: Book, mailbox: List<Message>) -> Resident
    ensures { result ≡ with_book_and_mailbox actor book mailbox }
{
    Resident {
        name: actor.name,
        moves: actor.moves,
        behavior: actor.behavior,
        fields: actor.fields,
        serial: actor.serial,
        book,
        mailbox,
    }
}

#[tactic(auto, unfolding(crate::specs::Unpacking::actor_at))]
fn actor(alloc: Global, bytes: &[u8]) -> Result<(Resident, &[u8]), Fault>
    ensures { ReadsAs (λ x. (x.0, x.1.now)) result (actor_at bytes.now) }
{
    let (state, rest) = state(alloc, bytes)?;
    let (book, rest) = book(alloc, rest)?;
    let (mailbox, rest) = mailbox(alloc, rest)?;
    Ok((with_book_and_mailbox(state, book, mailbox), rest))
}

#[tactic(auto, unfolding(crate::specs::Unpacking::whole_actor_at))]
fn whole_actor(alloc: Global, bytes: &[u8]) -> Result<Resident, Fault>
    ensures { ReadsAs (λ x. (x, [])) result (whole_actor_at bytes.now) }
{
    let (actor, rest) = actor(alloc, bytes)?;
    if_none_left(actor, rest)
}

/// The actor that the bytes spell.
#[tactic(auto, unfolding(crate::specs::Unpacking::unpacked_actor))]
pub fn unpack(alloc: Global, bytes: &[u8]) -> Result<Resident, DecodeFault>
    ensures exact { Decodes result (unpacked_actor bytes.now) }
    ensures packed { IfOk result (λ r. IsTrue (is_packable r) × (bytes.now ≡ packed_actor r)) }
{
    match whole_actor(alloc, bytes) {
        Ok(actor) => Ok(actor),
        Err(fault) => Err(fault_with_offset(fault, bytes.len())),
    }
}
