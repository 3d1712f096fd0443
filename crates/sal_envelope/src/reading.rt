//! Envelopes from bytes.

ghost use Rattle.std.specs.Prelude.{◌≡◌, [], map, IsTrue, IfOk};
ghost use Rattle.sal_value.specs.code.Reads.{Decodes};
ghost use Rattle.sal_mail.specs.declared.message.Piece.TheVariants.{Known};
ghost use Rattle.sal_envelope.specs.Decoding.{call_at, call_envelope_at, reply_envelope_at, create_at, move_at, put_at, put_reply_at, get_at, get_reply_at, update_at, envelope_at, if_none_left, whole_at, fault_with_offset, decoded_envelope};
ghost use Rattle.sal_envelope.specs.Spelling.{envelope_spelling, envelope_is_spelled};
ghost use Rattle.sal_envelope.specs.code.Reads.{ReadsAs};

use crate::fault::Fault;
use crate::front;
use sal_mail::{Actor, Envelope, Message, Piece, Target};
use sal_value::{DecodeFault, List, Name, NoMemory, Value};
use std::alloc::Global;

/// The values as arguments.
fn pieces(alloc: Global, values: List<Value>) -> Result<List<Piece>, NoMemory>
    ensures { IfOk result (λ pieces. pieces ≡ map Known values) }
{
    let mut pieces = List::new(alloc);
    for value in values.into_vec() {
        pieces.push(Piece::Known(value))?;
    }
    Ok(pieces)
}

/// A call, after its hops.
#[tactic(auto, unfolding(crate::specs::Decoding::call_at))]
pub fn call(alloc: Global, bytes: &[u8]) -> Result<(Message, &[u8]), Fault>
    ensures { ReadsAs (λ x. (x.0, x.1.now)) result (call_at bytes.now) }
{
    let ((maker, serial), rest) = front::made(alloc, bytes)?;
    let (callee, rest) = front::name(alloc, rest)?;
    let ((behavior, handler), rest) = front::handler(rest)?;
    let (values, rest) = front::values(alloc, 16, rest)?;
    let (reply, rest) = front::reply(alloc, rest)?;
    let message = Message {
        maker,
        serial,
        target: Target::Actor(callee),
        behavior,
        handler,
        args: pieces(alloc, values)?,
        after: List::new(alloc),
        delay: 0,
        reply,
    };
    Ok((message, rest))
}

#[tactic(auto, unfolding(crate::specs::Decoding::call_envelope_at))]
fn call_envelope(alloc: Global, bytes: &[u8]) -> Result<(Envelope, &[u8]), Fault>
    ensures { ReadsAs (λ x. (x.0, x.1.now)) result (call_envelope_at bytes.now) }
{
    let (hops, rest) = front::number_32(bytes)?;
    let (message, rest) = call(alloc, rest)?;
    Ok((Envelope::Call { hops, message }, rest))
}

#[tactic(auto, unfolding(crate::specs::Decoding::reply_envelope_at))]
fn reply_envelope(alloc: Global, bytes: &[u8]) -> Result<(Envelope, &[u8]), Fault>
    ensures { ReadsAs (λ x. (x.0, x.1.now)) result (reply_envelope_at bytes.now) }
{
    let (hops, rest) = front::number_32(bytes)?;
    let (reply, rest) = front::inner(alloc, rest)?;
    let (value, rest) = front::value(alloc, rest)?;
    Ok((Envelope::Reply { hops, reply, value }, rest))
}

#[tactic(auto, unfolding(crate::specs::Decoding::create_at))]
fn create(alloc: Global, bytes: &[u8]) -> Result<(Envelope, &[u8]), Fault>
    ensures { ReadsAs (λ x. (x.0, x.1.now)) result (create_at bytes.now) }
{
    let (uan, rest) = front::uan(alloc, bytes)?;
    let (behavior, rest) = front::number_16(rest)?;
    let (fields, rest) = front::values(alloc, 255, rest)?;
    let actor = Actor {
        name: Name::Uan(uan),
        behavior,
        fields,
    };
    Ok((Envelope::Create(actor), rest))
}

/// A packed actor, which runs to the end.
fn packed(alloc: Global, bytes: &[u8]) -> Result<(Envelope, &[u8]), Fault>
    ensures { ReadsAs (λ x. (x.0, x.1.now)) result (move_at bytes.now) }
{
    let packed = List::from_slice(alloc, bytes)?;
    Ok((Envelope::Move(packed), &[]))
}

#[tactic(auto, unfolding(crate::specs::Decoding::put_at))]
fn put(alloc: Global, bytes: &[u8]) -> Result<(Envelope, &[u8]), Fault>
    ensures { ReadsAs (λ x. (x.0, x.1.now)) result (put_at bytes.now) }
{
    let ((maker, serial), rest) = front::made(alloc, bytes)?;
    let (name, rest) = front::uan(alloc, rest)?;
    let (place, rest) = front::locator(alloc, rest)?;
    let envelope = Envelope::Put {
        maker,
        serial,
        name,
        place,
    };
    Ok((envelope, rest))
}

#[tactic(auto, unfolding(crate::specs::Decoding::put_reply_at))]
fn put_reply(alloc: Global, bytes: &[u8]) -> Result<(Envelope, &[u8]), Fault>
    ensures { ReadsAs (λ x. (x.0, x.1.now)) result (put_reply_at bytes.now) }
{
    let ((maker, serial), rest) = front::made(alloc, bytes)?;
    let (taken, rest) = front::truth(rest)?;
    let envelope = Envelope::PutReply {
        maker,
        serial,
        bound: !taken,
    };
    Ok((envelope, rest))
}

#[tactic(auto, unfolding(crate::specs::Decoding::get_at))]
fn get(alloc: Global, bytes: &[u8]) -> Result<(Envelope, &[u8]), Fault>
    ensures { ReadsAs (λ x. (x.0, x.1.now)) result (get_at bytes.now) }
{
    let (name, rest) = front::uan(alloc, bytes)?;
    Ok((Envelope::Get(name), rest))
}

#[tactic(auto, unfolding(crate::specs::Decoding::get_reply_at))]
fn get_reply(alloc: Global, bytes: &[u8]) -> Result<(Envelope, &[u8]), Fault>
    ensures { ReadsAs (λ x. (x.0, x.1.now)) result (get_reply_at bytes.now) }
{
    let (name, rest) = front::uan(alloc, bytes)?;
    let (found, rest) = front::found(alloc, rest)?;
    Ok((Envelope::GetReply { name, found }, rest))
}

#[tactic(auto, unfolding(crate::specs::Decoding::update_at))]
fn update(alloc: Global, bytes: &[u8]) -> Result<(Envelope, &[u8]), Fault>
    ensures { ReadsAs (λ x. (x.0, x.1.now)) result (update_at bytes.now) }
{
    let (name, rest) = front::uan(alloc, bytes)?;
    let ((place, moves), rest) = front::moved(alloc, rest)?;
    Ok((Envelope::Update { name, place, moves }, rest))
}

#[tactic(auto, unfolding(crate::specs::Decoding::envelope_at))]
fn envelope(alloc: Global, bytes: &[u8]) -> Result<(Envelope, &[u8]), Fault>
    ensures { ReadsAs (λ x. (x.0, x.1.now)) result (envelope_at bytes.now) }
{
    let (tag, rest) = front::byte(bytes)?;
    match tag {
        1 => call_envelope(alloc, rest),
        2 => reply_envelope(alloc, rest),
        3 => create(alloc, rest),
        4 => packed(alloc, rest),
        5 => put(alloc, rest),
        6 => put_reply(alloc, rest),
        7 => get(alloc, rest),
        8 => get_reply(alloc, rest),
        9 => update(alloc, rest),
        _ => Err(Fault::Bad(bytes.len())),
    }
}

/// What was read, where nothing is left.
pub fn if_none_left<T: Drop>(item: T, rest: &[u8]) -> Result<T, Fault>
    ensures { ReadsAs (λ x. (x, [])) result (if_none_left item rest.now) }
{
    match rest {
        [] => Ok(item),
        [_, ..] => Err(Fault::Bad(rest.len())),
    }
}

#[tactic(auto, unfolding(crate::specs::Decoding::whole_at))]
fn whole(alloc: Global, bytes: &[u8]) -> Result<Envelope, Fault>
    ensures { ReadsAs (λ x. (x, [])) result (whole_at bytes.now) }
{
    let (envelope, rest) = envelope(alloc, bytes)?;
    if_none_left(envelope, rest)
}

/// The fault with the place of the field that is wrong, where so many bytes were given.
pub fn fault_with_offset(fault: Fault, size: usize) -> DecodeFault
    ensures { result ≡ fault_with_offset fault size }
{
    match fault {
        Fault::Cut => DecodeFault::Cut,
        Fault::Bad(left) => DecodeFault::Bad(size.saturating_sub(left)),
        Fault::Memory => DecodeFault::Memory,
    }
}

/// The envelope that the bytes spell.
#[tactic(auto, unfolding(crate::specs::Decoding::decoded_envelope))]
pub fn decode(alloc: Global, bytes: &[u8]) -> Result<Envelope, DecodeFault>
    ensures exact { Decodes result (decoded_envelope bytes.now) }
    ensures spelled { IfOk result (λ e. IsTrue (envelope_is_spelled e) × (bytes.now ≡ envelope_spelling e)) }
{
    match whole(alloc, bytes) {
        Ok(envelope) => Ok(envelope),
        Err(fault) => Err(fault_with_offset(fault, bytes.len())),
    }
}
