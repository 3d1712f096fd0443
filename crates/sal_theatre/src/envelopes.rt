//! Envelopes that arrived.

ghost use Rattle.std.specs.Prelude.{◌≡◌, ◌+◌, [], ◌∷◌, true, slice_get, Some, IfOk, OnOk};
ghost use Rattle.sal_envelope.specs.Decoding.{decoded_envelope};
ghost use Rattle.sal_node.specs.Links.{has_few_nodes};
ghost use Rattle.sal_directory.specs.Nodes as nodes;
ghost use Rattle.sal_source.specs.Step.{bound_actor};
ghost use Rattle.sal_resident.specs.Unpacking.{unpacked_actor};
ghost use Rattle.sal_desk.specs.code.Desks.{on_desk};
ghost use Rattle.sal_routing.specs.State as spec;
ghost use Rattle.sal_routing.specs.Routing as routing;
ghost use Rattle.sal_routing.specs.Arrivals.{tell_service};
ghost use Rattle.sal_routing.specs.Turns as turns;
ghost use Rattle.sal_theatre.specs.code.Asked.{question};

use crate::arrivals::{arrive, learn};
use crate::creating::locator_of;
use crate::fits::{fits_arrival, fits_move, is_served};
use crate::nodes::{service_for, theatre_at};
use crate::routing::route;
use sal_book::Book;
use sal_desk::Desk;
use sal_envelope::decode;
use sal_mail::{Actor, Creation, Envelope, Fault, FaultKind};
use sal_move::Known;
use sal_node::FIRST_SERVICE;
use sal_resident::{Resident, unpack};
use sal_routing::{Asking, Item, Pending, Question};
use sal_source::Runner;
use sal_value::{CloneIn, DecodeFault, List, Name, NoMemory, Ual, Uan};
use std::alloc::Global;

// ---- answers to questions

/// A moment so long after this one.
fn moment_after(clock: u64, ms: u64) -> u64
    ensures { result ≡ spec.moment (clock + ms) }
{
    clock.saturating_add(ms)
}

/// How far a question has come after an answer that leaves it open, or doesn't.
fn asking_after(asking: Asking, is_left_open: bool, clock: u64) -> Asking
    ensures { result ≡ turns.asking_after asking is_left_open clock }
{
    match asking {
        Asking::Settled => Asking::Settled,
        Asking::Awaited | Asking::Again(_) => {
            if is_left_open {
                Asking::Again(moment_after(clock, 1000))
            } else {
                Asking::Settled
            }
        }
    }
}

/// Whether the answer leaves the question open.
fn is_left_open(
    alloc: Global,
    desk: &Desk<'_>,
    name: &Uan,
    found: Option<Known>,
) -> Result<bool, NoMemory>
    ensures { IfOk result (λ left. left ≡ turns.is_left_open name.now found desk.now.desk.theatre) }
{
    match found {
        None => Ok(true),
        Some(at) => {
            let name = Name::Uan(name.clone_in(alloc)?);
            Ok(at.theatre == desk.me() && !desk.is_here(&name))
        }
    }
}

fn learn_elsewhere<R: Runner>(
    alloc: Global,
    runner: &R,
    desk: &mut Desk<'_>,
    name: &Uan,
    found: Option<Known>,
) -> Result<(), NoMemory>
    requires { has_few_nodes desk.old.desk.theatre.plan ≡ true }
    ensures { OnOk result (desk.new ≡ on_desk (turns.learn_elsewhere (R.meaning runner.now) name.now found) desk.old) }
{
    match found {
        None => Ok(()),
        Some(at) => {
            if at.theatre == desk.me() {
                Ok(())
            } else {
                learn(alloc, runner, desk, name, at.theatre, at.moves)
            }
        }
    }
}

/// The question for the name came so far, and the name wasn't found, or was found at this theatre.
#[tactic(auto, unfolding(sal_routing::specs::Turns::answer_question))]
fn answer_question<R: Runner>(
    alloc: Global,
    runner: &R,
    desk: &mut Desk<'_>,
    name: &Uan,
    asking: Asking,
    found: Option<Known>,
) -> Result<(), NoMemory>
    requires { has_few_nodes desk.old.desk.theatre.plan ≡ true }
    ensures { OnOk result (desk.new ≡ on_desk (turns.answer_question (R.meaning runner.now) name.now asking found) desk.old) }
{
    let is_left_open = is_left_open(alloc, desk, name, found)?;
    let asking = asking_after(asking, is_left_open, desk.clock());
    let question = Question {
        name: name.clone_in(alloc)?,
        asking,
    };
    desk.put_question(alloc, question)?;
    learn_elsewhere(alloc, runner, desk, name, found)
}

/// The answer to the question for the name, which came so far.
fn answer_found<R: Runner>(
    alloc: Global,
    runner: &R,
    desk: &mut Desk<'_>,
    name: &Uan,
    asking: Asking,
    found: Option<(Ual, u64)>,
) -> Result<(), NoMemory>
    requires { has_few_nodes desk.old.desk.theatre.plan ≡ true }
    ensures { OnOk result (desk.new ≡ on_desk (turns.answer_by (R.meaning runner.now) name.now (Some (question name.now asking)) found) desk.old) }
{
    match found {
        None => answer_question(alloc, runner, desk, name, asking, None),
        Some((place, moves)) => match theatre_at(desk.plan(), &place) {
            None => Ok(()),
            Some(theatre) => {
                let at = Known { theatre, moves };
                answer_question(alloc, runner, desk, name, asking, Some(at))
            }
        },
    }
}

/// The answer of a naming service.
#[tactic(auto, using(crate::proofs::Received::not_asked, crate::proofs::Received::asked), unfolding(sal_routing::specs::Turns::take_get_reply))]
fn take_get_reply<R: Runner>(
    alloc: Global,
    runner: &R,
    desk: &mut Desk<'_>,
    name: &Uan,
    found: Option<(Ual, u64)>,
) -> Result<(), NoMemory>
    requires { has_few_nodes desk.old.desk.theatre.plan ≡ true }
    ensures { OnOk result (desk.new ≡ on_desk (turns.take_get_reply (R.meaning runner.now) name.now found) desk.old) }
{
    match desk.asking(name) {
        None => Ok(()),
        Some(asking) => answer_found(alloc, runner, desk, name, asking, found),
    }
}

// ---- new actors

fn new_resident(alloc: Global, actor: Actor) -> Resident
    ensures { result ≡ spec.newcomer actor }
{
    Resident {
        name: actor.name,
        moves: 0,
        behavior: actor.behavior,
        fields: actor.fields,
        serial: 0,
        book: Book::new(alloc),
        mailbox: List::new(alloc),
    }
}

fn bound_actor(creation: Creation) -> Actor
    ensures { result ≡ bound_actor creation }
{
    Actor {
        name: Name::Uan(creation.name),
        behavior: creation.behavior,
        fields: creation.fields,
    }
}

/// The new actor stands here, or goes to its theatre, whose place becomes known.
#[tactic(auto, using(sal_tidy::proofs::Keeping::newcomers, sal_routing::proofs::Kept::plans_kept), unfolding(sal_routing::specs::Turns::place_new))]
fn place_new<R: Runner>(
    alloc: Global,
    runner: &R,
    desk: &mut Desk<'_>,
    pending: Pending,
) -> Result<(), NoMemory>
    requires { has_few_nodes desk.old.desk.theatre.plan ≡ true }
    ensures { OnOk result (desk.new ≡ on_desk (turns.place_new (R.meaning runner.now) pending) desk.old) }
{
    let name = pending.creation.name.clone_in(alloc)?;
    let actor = bound_actor(pending.creation);
    if pending.theatre == desk.me() {
        return arrive(alloc, runner, desk, new_resident(alloc, actor));
    }
    desk.send(alloc, pending.theatre, &Envelope::Create(actor))?;
    learn(alloc, runner, desk, &name, pending.theatre, 0)
}

#[tactic(auto, unfolding(sal_routing::specs::Turns::name_taken))]
fn name_taken(desk: &mut Desk<'_>, pending: Pending) -> Result<(), NoMemory>
    ensures { OnOk result (desk.new ≡ on_desk (turns.name_taken pending) desk.old) }
{
    desk.tell_fault(Fault {
        maker: pending.maker,
        serial: pending.creation.serial,
        kind: FaultKind::NameTaken,
    })
}

/// The name of this creation is bound, or was taken.
fn decide<R: Runner>(
    alloc: Global,
    runner: &R,
    desk: &mut Desk<'_>,
    pending: Pending,
    bound: bool,
) -> Result<(), NoMemory>
    requires { has_few_nodes desk.old.desk.theatre.plan ≡ true }
    ensures { OnOk result (desk.new ≡ on_desk (turns.decide (R.meaning runner.now) pending bound) desk.old) }
{
    if bound {
        place_new(alloc, runner, desk, pending)
    } else {
        name_taken(desk, pending)
    }
}

/// The answer to a creation that was put and waits here.
#[tactic(auto, using(sal_routing::proofs::Kept::plans_kept), unfolding(sal_routing::specs::Turns::take_put_reply))]
fn take_put_reply<R: Runner>(
    alloc: Global,
    runner: &R,
    desk: &mut Desk<'_>,
    maker: Name,
    serial: u64,
    bound: bool,
) -> Result<(), NoMemory>
    requires { has_few_nodes desk.old.desk.theatre.plan ≡ true }
    ensures { OnOk result (desk.new ≡ on_desk (turns.take_put_reply (R.meaning runner.now) maker serial bound) desk.old) }
{
    match desk.pending(alloc, &maker, serial)? {
        None => Ok(()),
        Some(pending) => {
            if !is_served(desk.plan(), &pending.creation.name) {
                return Ok(());
            }
            desk.drop_pending(maker, serial)?;
            decide(alloc, runner, desk, pending, bound)
        }
    }
}

/// An actor that was made for this theatre.
#[tactic(auto, using(sal_tidy::proofs::Keeping::newcomers), unfolding(sal_routing::specs::Turns::take_create))]
fn take_create<R: Runner>(
    alloc: Global,
    runner: &R,
    desk: &mut Desk<'_>,
    actor: Actor,
) -> Result<(), NoMemory>
    requires { has_few_nodes desk.old.desk.theatre.plan ≡ true }
    ensures { OnOk result (desk.new ≡ on_desk (turns.take_create (R.meaning runner.now) (spec.newcomer actor)) desk.old) }
{
    let actor = new_resident(alloc, actor);
    if !fits_arrival(runner, desk, &actor) {
        return Ok(());
    }
    arrive(alloc, runner, desk, actor)
}

// ---- actors that move

/// The naming service of the name is told that it moved here.
fn tell_service(alloc: Global, desk: &mut Desk<'_>, name: &Uan, moves: u64) -> Result<(), NoMemory>
    requires { has_few_nodes desk.old.desk.theatre.plan ≡ true }
    ensures { OnOk result (desk.new ≡ on_desk (λ d. tell_service (nodes.service_of d.theatre.plan name.now) (slice_get d.theatre.plan.theatres d.theatre.me) name.now moves d) desk.old) }
{
    let Some(service) = service_for(desk.plan(), name) else {
        return Ok(());
    };
    let Some(place) = locator_of(alloc, desk.plan(), desk.me())? else {
        return Ok(());
    };
    let update = Envelope::Update {
        name: name.clone_in(alloc)?,
        place,
        moves,
    };
    desk.send(alloc, FIRST_SERVICE + service, &update)
}

/// The naming service of an actor that moved here is told.
fn tell_move(alloc: Global, desk: &mut Desk<'_>, name: &Name, moves: u64) -> Result<(), NoMemory>
    requires { has_few_nodes desk.old.desk.theatre.plan ≡ true }
    ensures { OnOk result (desk.new ≡ on_desk (turns.tell_move name.now moves) desk.old) }
{
    match name {
        Name::Uan(name) => tell_service(alloc, desk, name, moves),
        Name::Anon(_, _) | Name::Outside(_) => Ok(()),
    }
}

/// An actor that moved here with all that it took along.
#[tactic(auto, using(crate::proofs::Received::fits_tidy, sal_routing::proofs::Kept::plans_kept), unfolding(sal_routing::specs::Turns::take_resident))]
fn take_resident<R: Runner>(
    alloc: Global,
    runner: &R,
    desk: &mut Desk<'_>,
    actor: Resident,
) -> Result<(), NoMemory>
    requires { has_few_nodes desk.old.desk.theatre.plan ≡ true }
    ensures { OnOk result (desk.new ≡ on_desk (turns.take_resident (R.meaning runner.now) actor) desk.old) }
{
    if !fits_move(alloc, runner, desk, &actor)? {
        return Ok(());
    }
    let name = actor.name.clone_in(alloc)?;
    let moves = actor.moves;
    arrive(alloc, runner, desk, actor)?;
    tell_move(alloc, desk, &name, moves)
}

/// An actor that moved here.
fn take_move<R: Runner>(
    alloc: Global,
    runner: &R,
    desk: &mut Desk<'_>,
    packed: &[u8],
) -> Result<(), NoMemory>
    requires { has_few_nodes desk.old.desk.theatre.plan ≡ true }
    ensures { OnOk result (desk.new ≡ on_desk (turns.take_move (R.meaning runner.now) (unpacked_actor packed.now)) desk.old) }
{
    match unpack(alloc, packed) {
        Ok(actor) => take_resident(alloc, runner, desk, actor),
        Err(DecodeFault::Memory) => Err(NoMemory),
        Err(DecodeFault::Cut | DecodeFault::Bad(_)) => Ok(()),
    }
}

// ---- any envelope

fn raised(hops: u32) -> u32
    ensures { result ≡ spec.raised hops }
{
    hops.saturating_add(1)
}

/// An item that came joins the list, which is routed.
fn route_too<R: Runner>(
    alloc: Global,
    runner: &R,
    desk: &mut Desk<'_>,
    item: Item,
) -> Result<(), NoMemory>
    requires { has_few_nodes desk.old.desk.theatre.plan ≡ true }
    ensures { OnOk result (desk.new ≡ on_desk (λ d. routing.route (R.meaning runner.now) (spec.with_work (item ∷ []) d)) desk.old) }
{
    desk.push_work(item)?;
    route(alloc, runner, desk)
}

/// What an envelope does that came to a theatre. One that doesn't fit is dropped.
#[tactic(auto, unfolding(sal_routing::specs::Turns::receive))]
fn receive<R: Runner>(
    alloc: Global,
    runner: &R,
    desk: &mut Desk<'_>,
    envelope: Envelope,
) -> Result<(), NoMemory>
    requires { has_few_nodes desk.old.desk.theatre.plan ≡ true }
    ensures { OnOk result (desk.new ≡ on_desk (turns.receive (R.meaning runner.now) envelope) desk.old) }
{
    match envelope {
        Envelope::Call { hops, message } => {
            route_too(alloc, runner, desk, Item::Call(raised(hops), message))
        }
        Envelope::Reply { hops, reply, value } => {
            route_too(
                alloc,
                runner,
                desk,
                Item::Answer(raised(hops), reply, value),
            )
        }
        Envelope::Create(actor) => take_create(alloc, runner, desk, actor),
        Envelope::Move(packed) => take_move(alloc, runner, desk, packed.as_slice()),
        Envelope::PutReply {
            maker,
            serial,
            bound,
        } => take_put_reply(alloc, runner, desk, maker, serial, bound),
        Envelope::GetReply { name, found } => take_get_reply(alloc, runner, desk, &name, found),
        Envelope::Put { .. } | Envelope::Get(_) | Envelope::Update { .. } => Ok(()),
    }
}

/// The envelope that these bytes spell, if they do.
pub fn receive_bytes<R: Runner>(
    alloc: Global,
    runner: &R,
    desk: &mut Desk<'_>,
    bytes: &[u8],
) -> Result<(), NoMemory>
    requires { has_few_nodes desk.old.desk.theatre.plan ≡ true }
    ensures { OnOk result (desk.new ≡ on_desk (turns.receive_decoded (R.meaning runner.now) (decoded_envelope bytes.now)) desk.old) }
{
    match decode(alloc, bytes) {
        Ok(envelope) => receive(alloc, runner, desk, envelope),
        Err(DecodeFault::Memory) => Err(NoMemory),
        Err(DecodeFault::Cut | DecodeFault::Bad(_)) => Ok(()),
    }
}
