//! Envelopes to bytes.

ghost use Rattle.std.specs.Prelude.{◌≡◌, ◌++◌, true, IsTrue, IfOk, OnOk};
ghost use Rattle.sal_envelope.specs.Spelling.{callee_spelling, callee_is_spelled, handler_spelling, call_spelling, call_is_spelled, actor_spelling, actor_is_spelled, envelope_spelling, envelope_is_spelled};

use crate::fields;
use sal_mail::{Actor, Envelope, Message, Target};
use sal_value::{List, NoMemory};
use std::alloc::Global;

#[tactic(auto, unfolding(crate::specs::Spelling::callee_spelling, crate::specs::Spelling::callee_is_spelled))]
fn put_callee(alloc: Global, target: &Target, out: &mut List<u8>) -> Result<(), NoMemory>
    requires { callee_is_spelled target.now ≡ true }
    ensures { OnOk result (out.new ≡ out.old ++ callee_spelling target.now) }
{
    match target {
        Target::Actor(name) => name.encode(alloc, out),
        Target::Output => Ok(()),
    }
}

#[tactic(auto, using(crate::proofs::Parts::two_parts))]
fn put_handler(behavior: u16, handler: u16, out: &mut List<u8>) -> Result<(), NoMemory>
    ensures { OnOk result (out.new ≡ out.old ++ handler_spelling behavior handler) }
{
    fields::put_16(behavior, out)?;
    fields::put_16(handler, out)
}

/// Adds a call, as it stands after its hops.
#[tactic(auto, using(crate::proofs::Parts::five_parts, crate::proofs::Parts::call_parts), unfolding(crate::specs::Spelling::call_spelling))]
pub fn put_call(alloc: Global, message: &Message, out: &mut List<u8>) -> Result<(), NoMemory>
    requires { call_is_spelled message.now ≡ true }
    ensures { OnOk result (out.new ≡ out.old ++ call_spelling message.now) }
{
    let values = message.known_values(alloc)?;
    fields::put_made(alloc, &message.maker, message.serial, out)?;
    put_callee(alloc, &message.target, out)?;
    put_handler(message.behavior, message.handler, out)?;
    fields::put_values(alloc, values.as_slice(), out)?;
    fields::put_reply(alloc, &message.reply, out)
}

#[tactic(auto, using(crate::proofs::Parts::three_parts, crate::proofs::Parts::actor_parts), unfolding(crate::specs::Spelling::actor_spelling))]
fn put_actor(alloc: Global, actor: &Actor, out: &mut List<u8>) -> Result<(), NoMemory>
    requires { actor_is_spelled actor.now ≡ true }
    ensures { OnOk result (out.new ≡ out.old ++ actor_spelling actor.now) }
{
    actor.name.encode(alloc, out)?;
    fields::put_16(actor.behavior, out)?;
    fields::put_values(alloc, actor.fields.as_slice(), out)
}

#[tactic(auto, using(crate::proofs::Parts::tagged, crate::proofs::Parts::tagged_two, crate::proofs::Parts::tagged_three, crate::proofs::Parts::both), unfolding(crate::specs::Spelling::envelope_spelling, crate::specs::Spelling::envelope_is_spelled))]
fn put(alloc: Global, envelope: &Envelope, out: &mut List<u8>) -> Result<(), NoMemory>
    requires { envelope_is_spelled envelope.now ≡ true }
    ensures { OnOk result (out.new ≡ out.old ++ envelope_spelling envelope.now) }
{
    match envelope {
        Envelope::Call { hops, message } => {
            out.push(1)?;
            fields::put_32(*hops, out)?;
            put_call(alloc, message, out)
        }
        Envelope::Reply { hops, reply, value } => {
            out.push(2)?;
            fields::put_32(*hops, out)?;
            fields::put_reply(alloc, reply, out)?;
            value.encode(alloc, out)
        }
        Envelope::Create(actor) => {
            out.push(3)?;
            put_actor(alloc, actor, out)
        }
        Envelope::Move(packed) => {
            out.push(4)?;
            out.push_slice(packed.as_slice())
        }
        Envelope::Put {
            maker,
            serial,
            name,
            place,
        } => {
            out.push(5)?;
            fields::put_made(alloc, maker, *serial, out)?;
            fields::put_uan(alloc, name, out)?;
            fields::put_ual(alloc, place, out)
        }
        Envelope::PutReply {
            maker,
            serial,
            bound,
        } => {
            out.push(6)?;
            fields::put_made(alloc, maker, *serial, out)?;
            out.push(u8::from(!*bound))
        }
        Envelope::Get(name) => {
            out.push(7)?;
            fields::put_uan(alloc, name, out)
        }
        Envelope::GetReply { name, found } => {
            out.push(8)?;
            fields::put_uan(alloc, name, out)?;
            fields::put_found(alloc, found, out)
        }
        Envelope::Update { name, place, moves } => {
            out.push(9)?;
            fields::put_uan(alloc, name, out)?;
            fields::put_ual(alloc, place, out)?;
            fields::put_64(*moves, out)
        }
    }
}

/// The spelling of an envelope that has one.
pub fn encode(alloc: Global, envelope: &Envelope) -> Result<List<u8>, NoMemory>
    requires { IsTrue (envelope_is_spelled envelope.now) }
    ensures { IfOk result (λ bytes. bytes ≡ envelope_spelling envelope.now) }
{
    let mut bytes = List::new(alloc);
    put(alloc, envelope, &mut bytes)?;
    Ok(bytes)
}
