//! Whether actors can be packed.

ghost use Rattle.std.specs.Prelude.{◌≡◌, nat_lt, length, map, Option};
ghost use Rattle.std.specs.List.{list_all};
ghost use Rattle.sal_envelope.specs.Spelling.{call_is_spelled};
ghost use Rattle.sal_book.specs.Book.{rise, message_numbers, join_numbers};
ghost use Rattle.sal_resident.specs.Packing.{target_is_spelled, message_is_spelled, slot_is_spelled, are_spelled, join_is_spelled, state_is_spelled, book_is_spelled, is_packable};
ghost use Rattle.sal_resident.specs.Unpacking.{is_above};

use crate::parts::{call_is_spelled, is_universal, pieces_are_spelled, reply_is_spelled};
use crate::values::{is_spelled, values_are_spelled};
use sal_book::Book;
use sal_mail::{Join, Message, Target};
use sal_resident::Resident;
use sal_value::Value;

/// Whether their number can be written.
fn are_few<T>(items: &[T]) -> bool
    ensures { result ≡ nat_lt (length items.now) 4294967296 }
{
    items.len() < 4_294_967_296
}

// ---- messages that wait

#[tactic(auto, unfolding(sal_resident::specs::Packing::target_is_spelled))]
fn target_is_spelled(target: &Target) -> bool
    ensures { result ≡ target_is_spelled target.now }
{
    match target {
        Target::Output => true,
        Target::Actor(name) => name.has_spelling(),
    }
}

#[tactic(auto, unfolding(sal_resident::specs::Packing::message_is_spelled))]
fn message_is_spelled(message: &Message) -> bool
    ensures { result ≡ message_is_spelled message.now }
{
    message.maker.has_spelling()
        && target_is_spelled(&message.target)
        && message.args.len() <= 255
        && pieces_are_spelled(message.args.as_slice())
        && message.after.len() <= 65_535
        && reply_is_spelled(&message.reply)
        && !message.is_ready()
}

fn all_messages_are_spelled(messages: &[Message]) -> bool
    ensures { result ≡ list_all message_is_spelled messages.now }
{
    messages.iter().all(message_is_spelled)
}

fn messages_are_spelled(messages: &[Message]) -> bool
    ensures { result ≡ are_spelled message_is_spelled messages.now }
{
    are_few(messages) && all_messages_are_spelled(messages)
}

// ---- joins

#[tactic(auto, unfolding(sal_resident::specs::Packing::slot_is_spelled))]
fn slot_is_spelled(slot: &Option<Value>) -> bool
    ensures { result ≡ slot_is_spelled slot.now }
{
    match slot {
        None => true,
        Some(value) => is_spelled(value),
    }
}

fn all_slots_are_spelled(slots: &[Option<Value>]) -> bool
    ensures { result ≡ list_all slot_is_spelled slots.now }
{
    slots.iter().all(slot_is_spelled)
}

#[tactic(auto, unfolding(sal_resident::specs::Packing::join_is_spelled))]
fn join_is_spelled(join: &Join) -> bool
    ensures { result ≡ join_is_spelled join.now }
{
    are_few(join.places.as_slice())
        && all_slots_are_spelled(join.places.as_slice())
        && reply_is_spelled(&join.reply)
        && !join.is_full()
}

fn all_joins_are_spelled(joins: &[Join]) -> bool
    ensures { result ≡ list_all join_is_spelled joins.now }
{
    joins.iter().all(join_is_spelled)
}

fn joins_are_spelled(joins: &[Join]) -> bool
    ensures { result ≡ are_spelled join_is_spelled joins.now }
{
    are_few(joins) && all_joins_are_spelled(joins)
}

// ---- numbers that rise

fn is_above(before: Option<u64>, number: u64) -> bool
    ensures { result ≡ is_above before number }
{
    match before {
        None => true,
        Some(before) => before < number,
    }
}

fn messages_rise(messages: &[Message]) -> bool
    ensures { result ≡ rise (message_numbers messages.now) }
{
    let mut before = None;
    for message in messages {
        if !is_above(before, message.serial) {
            return false;
        }
        before = Some(message.serial);
    }
    true
}

fn joins_rise(joins: &[Join]) -> bool
    ensures { result ≡ rise (join_numbers joins.now) }
{
    let mut before = None;
    for join in joins {
        if !is_above(before, join.number) {
            return false;
        }
        before = Some(join.number);
    }
    true
}

// ---- the actor

#[tactic(auto, unfolding(sal_resident::specs::Packing::state_is_spelled))]
fn state_is_spelled(actor: &Resident) -> bool
    ensures { result ≡ state_is_spelled actor.now }
{
    is_universal(&actor.name)
        && actor.name.has_spelling()
        && values_are_spelled(255, actor.fields.as_slice())
}

#[tactic(auto, unfolding(sal_resident::specs::Packing::book_is_spelled))]
fn book_is_spelled(book: &Book) -> bool
    ensures { result ≡ book_is_spelled book.now }
{
    let messages = book.waiting_messages();
    let joins = book.open_joins();
    messages_are_spelled(messages)
        && messages_rise(messages)
        && joins_are_spelled(joins)
        && joins_rise(joins)
}

fn all_calls_are_spelled(calls: &[Message]) -> bool
    ensures { result ≡ list_all call_is_spelled calls.now }
{
    calls.iter().all(call_is_spelled)
}

fn calls_are_spelled(calls: &[Message]) -> bool
    ensures { result ≡ are_spelled call_is_spelled calls.now }
{
    are_few(calls) && all_calls_are_spelled(calls)
}

/// Whether the actor has a spelling, but for its whole length. It takes no memory, and time linear
/// in the actor.
#[tactic(auto, unfolding(sal_resident::specs::Packing::is_packable))]
pub fn is_packable(actor: &Resident) -> bool
    ensures { result ≡ is_packable actor.now }
{
    state_is_spelled(actor)
        && book_is_spelled(&actor.book)
        && calls_are_spelled(actor.mailbox.as_slice())
}
