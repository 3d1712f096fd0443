//! What each kind of envelope does to a naming service.

ghost use Rattle.std.specs.Prelude.{◌≡◌, true, false, IfOk, OnErr};
ghost use Rattle.sal_value.specs.Names.{is_uan, is_ual};
ghost use Rattle.sal_value.specs.Spelling.{name_is_spelled};
ghost use Rattle.sal_carriage.specs.Halves.{is_envelope};
ghost use Rattle.sal_envelope.specs.Decoding.{decoded_envelope};
ghost use Rattle.sal_envelope.specs.Spelling.{envelope_is_spelled};
ghost use Rattle.sal_naming.specs.Table.{Names, put_name};
ghost use Rattle.sal_node.specs.Links.{sender_of, take_datagram};
ghost use Rattle.sal_directory.specs.Nodes.{theatre_of};
ghost use Rattle.sal_service.specs.Service.{no_answer, is_bound, if_mine, is_mine, answer_put, serve_put, serve_get, serve_update, serve, serve_decoded, after_taking, after_datagram};
ghost use Rattle.sal_service.specs.code.Answering.{CanTake, ComesTo, Serves, after, after_envelope, undone, settled, names_settled};

use crate::answering::{answer, take_misfit, take_unanswered};
use crate::origin::Origin;
use crate::register::Register;
use crate::site::Site;
use crate::turned::{Decision, Turned, turn_without_decision};
use sal_envelope::decode;
use sal_mail::Envelope;
use sal_node::{Links, sender_of};
use sal_value::{DecodeFault, Name, NoMemory, Ual, Uan};
use std::alloc::Global;

/// Undoes the put by which this was decided.
fn undo(register: &mut Register, decision: &Decision)
    ensures { register.new ≡ undone decision.now register.old }
{
    if decision.bound {
        register.forget(&decision.name);
    }
}

/// Tells what was decided, where it was answered; else the put is undone.
fn settle(register: &mut Register, decision: Decision, done: bool) -> Turned
    ensures turned { result ≡ settled done decision }
    ensures names { register.new ≡ names_settled done decision register.old }
{
    if done {
        return Turned {
            took: true,
            decision: Some(decision),
        };
    }
    undo(register, &decision);
    turn_without_decision(false)
}

/// Puts the name and answers. Where that fails or the link is spent, the put is undone.
fn decide(
    alloc: Global,
    register: &mut Register,
    links: &mut Links,
    origin: Origin,
    decision: Decision,
    place: Ual,
) -> Result<Turned, NoMemory>
    requires maker { name_is_spelled decision.maker ≡ true }
    requires place { is_ual place ≡ true }
    requires decided { decision.bound ≡ is_bound (put_name decision.name place register.old).0 }
    requires can { CanTake origin links.old }
    ensures { Serves origin (answer_put decision.maker decision.serial decision.name decision.theatre (put_name decision.name place register.old)) register.old links.old result register.new links.new }
{
    let maker = decision.maker.clone_in(alloc)?;
    let name = decision.name.clone_in(alloc)?;
    register.put(alloc, name, place)?;
    let reply = Envelope::PutReply {
        maker,
        serial: decision.serial,
        bound: decision.bound,
    };
    match answer(alloc, links, origin, reply) {
        Ok(done) => Ok(settle(register, decision, done)),
        Err(fault) => {
            undo(register, &decision);
            Err(fault)
        }
    }
}

fn put(
    alloc: Global,
    site: &Site,
    register: &mut Register,
    links: &mut Links,
    origin: Origin,
    maker: Name,
    serial: u64,
    name: Uan,
    place: Ual,
) -> Result<Turned, NoMemory>
    requires maker { name_is_spelled maker ≡ true }
    requires place { is_ual place ≡ true }
    requires can { CanTake origin links.old }
    ensures { Serves origin (if_mine (is_mine site.now.number site.now.plan name) register.old (serve_put (theatre_of site.now.plan place) maker serial name place register.old)) register.old links.old result register.new links.new }
{
    let Some(theatre) = site.theatre_of(&name, &place) else {
        return Ok(take_unanswered(alloc, links, origin));
    };
    let bound = register.is_new(&name);
    let decision = Decision {
        maker,
        serial,
        name,
        theatre,
        bound,
    };
    decide(alloc, register, links, origin, decision, place)
}

fn get(
    alloc: Global,
    site: &Site,
    register: &Register,
    links: &mut Links,
    origin: Origin,
    name: Uan,
) -> Result<Turned, NoMemory>
    requires named { is_uan name ≡ true }
    requires can { CanTake origin links.old }
    ensures { Serves origin (if_mine (is_mine site.now.number site.now.plan name) register.now (serve_get name register.now)) register.now links.old result register.now links.new }
{
    if !site.is_mine(&name) {
        return Ok(take_unanswered(alloc, links, origin));
    }
    let found = register.find(alloc, &name)?;
    let took = answer(alloc, links, origin, Envelope::GetReply { name, found })?;
    Ok(turn_without_decision(took))
}

fn update(
    alloc: Global,
    site: &Site,
    register: &mut Register,
    links: &mut Links,
    origin: Origin,
    name: &Uan,
    place: Ual,
    moves: u64,
) -> Turned
    requires place { is_ual place ≡ true }
    requires can { CanTake origin links.old }
    ensures { after register.new links.new result ≡ after_envelope origin register.old links.old (if_mine (is_mine site.now.number site.now.plan name.now) register.old (serve_update (theatre_of site.now.plan place) name.now place moves register.old)) }
{
    if site.theatre_of(name, &place).is_some() {
        register.update(name, place, moves);
    }
    take_unanswered(alloc, links, origin)
}

/// What an envelope does that arrived from this node.
#[tactic(auto, using(crate::proofs::Requests::put_maker, crate::proofs::Requests::put_place, crate::proofs::Requests::get_name, crate::proofs::Requests::update_place), unfolding(crate::specs::Service::serve))]
fn serve(
    alloc: Global,
    site: &Site,
    register: &mut Register,
    links: &mut Links,
    origin: Origin,
    envelope: Envelope,
) -> Result<Turned, NoMemory>
    requires spelled { envelope_is_spelled envelope ≡ true }
    requires can { CanTake origin links.old }
    ensures { Serves origin (serve site.now.number site.now.plan envelope register.old) register.old links.old result register.new links.new }
{
    match envelope {
        Envelope::Put {
            maker,
            serial,
            name,
            place,
        } => put(
            alloc, site, register, links, origin, maker, serial, name, place,
        ),
        Envelope::Get(name) => get(alloc, site, register, links, origin, name),
        Envelope::Update { name, place, moves } => {
            let turned = update(alloc, site, register, links, origin, &name, place, moves);
            Ok(turned)
        }
        Envelope::Call { message, .. } => Ok(take_misfit(alloc, links, origin, message)),
        Envelope::Reply { reply, value, .. } => {
            Ok(take_misfit(alloc, links, origin, (reply, value)))
        }
        Envelope::Create(actor) => Ok(take_misfit(alloc, links, origin, actor)),
        Envelope::Move(packed) => Ok(take_misfit(alloc, links, origin, packed)),
        Envelope::PutReply { maker, .. } => Ok(take_misfit(alloc, links, origin, maker)),
        Envelope::GetReply { name, found } => {
            Ok(take_misfit(alloc, links, origin, (name, found)))
        }
    }
}

/// What some bytes do that a node sent as an envelope.
fn serve_bytes(
    alloc: Global,
    site: &Site,
    register: &mut Register,
    links: &mut Links,
    origin: Origin,
    bytes: &[u8],
) -> Result<Turned, NoMemory>
    requires { CanTake origin links.old }
    ensures { Serves origin (serve_decoded site.now.number site.now.plan (decoded_envelope bytes.now) register.old) register.old links.old result register.new links.new }
{
    match decode(alloc, bytes) {
        Ok(envelope) => serve(alloc, site, register, links, origin, envelope),
        Err(DecodeFault::Memory) => Err(NoMemory),
        Err(DecodeFault::Cut | DecodeFault::Bad(_)) => Ok(take_unanswered(alloc, links, origin)),
    }
}

/// Takes a datagram that makes no envelope whole.
fn take(alloc: Global, links: &mut Links, bytes: &[u8]) -> Result<Turned, NoMemory>
    requires { is_envelope (take_datagram bytes.now links.old).taken ≡ false }
    ensures ok { IfOk result (λ t. (names : Names) → after names links.new t ≡ after_taking (sender_of bytes.now) names links.old (take_datagram bytes.now links.old) (no_answer names)) }
    ensures err { OnErr result (links.new ≡ links.old) }
{
    let took = links.take(alloc, bytes)?;
    Ok(turn_without_decision(took.changed))
}

/// The turn in which a datagram arrived.
pub fn datagram(
    alloc: Global,
    site: &Site,
    register: &mut Register,
    links: &mut Links,
    bytes: &[u8],
) -> Result<Turned, NoMemory>
    ensures { ComesTo (after_datagram site.now.number site.now.plan bytes.now register.old links.old) register.old links.old result register.new links.new }
{
    match links.arrival(alloc, bytes)? {
        Some(arrival) => {
            let origin = Origin {
                from: sender_of(bytes),
                acknowledges: arrival.acknowledges,
            };
            let envelope = arrival.envelope.as_slice();
            serve_bytes(alloc, site, register, links, origin, envelope)
        }
        None => take(alloc, links, bytes),
    }
}
