//! The first halves of turns: what each will do is read of the theatre, which stays as it was.

ghost use Rattle.std.specs.Prelude.{◌≡◌, ◌≤◌, true, Some, None, IfOk, OnOk};
ghost use Rattle.std.specs.FinMap as fm;
ghost use Rattle.sal_envelope.specs.Decoding.{decoded_envelope};
ghost use Rattle.sal_node.specs.Links.{has_few_nodes};
ghost use Rattle.sal_node.specs.Halves.{CanCompleteFrom, complete_from};
ghost use Rattle.sal_directory.specs.Nodes as nodes;
ghost use Rattle.sal_source.specs.Keys.{name_key};
ghost use Rattle.sal_desk.specs.code.Desks.{on_desk};
ghost use Rattle.sal_desk.specs.code.Drafts.{desk_with, CanFinish};
ghost use Rattle.sal_routing.specs.State as spec;
ghost use Rattle.sal_routing.specs.Routing as routing;
ghost use Rattle.sal_routing.specs.Handling as handling;
ghost use Rattle.sal_routing.specs.Turns as turns;
ghost use Rattle.sal_theatre.specs.code.Programs.{IsRunner};
ghost use Rattle.sal_theatre.specs.code.Turning.{turned_by, CanBeMade, Receives};

use crate::arrivals::move_to;
use crate::envelopes::receive_bytes;
use crate::handling::{handle, print_message};
use crate::holding::ask;
use crate::nodes::service_for;
use crate::outside;
use crate::routing::route;
use crate::turned::Prepared;
use sal_carriage::Arrival;
use sal_desk::{Desk, State};
use sal_mail::{Message, Target};
use sal_node::sender_of;
use sal_source::Runner;
use sal_value::{CloneIn, Name, NoMemory, Uan, Values};
use std::alloc::Global;

/// The turn that ends with this desk. No envelope begins it.
#[tactic(auto, using(crate::proofs::Finishing::unbegun))]
fn prepared(state: &State, desk: Desk<'_>) -> Prepared
    requires before { desk.before ≡ state.now }
    requires unbegun { desk.arrived ≡ None }
    ensures desk { desk_with state.now result.draft ≡ desk.entry.desk }
    ensures can { CanFinish result.draft.arrived state.now.links }
{
    Prepared {
        draft: desk.into_draft(),
    }
}

/// The turn that ends with this desk. It begins with an envelope from the peer.
fn prepared_on(state: &State, desk: Desk<'_>, peer: u8, acknowledges: usize) -> Prepared
    requires before { desk.before ≡ state.now }
    requires begun { desk.arrived ≡ Some (peer, acknowledges) }
    requires can { CanCompleteFrom peer acknowledges state.now.links }
    ensures desk { desk_with state.now result.draft ≡ desk.entry.desk }
    ensures can { CanFinish result.draft.arrived state.now.links }
{
    Prepared {
        draft: desk.into_draft(),
    }
}

/// The start.
#[tactic(auto, unfolding(sal_routing::specs::Turns::begin))]
pub fn begin<R: Runner>(
    alloc: Global,
    runner: &R,
    state: &State,
) -> Result<Option<Prepared>, NoMemory>
    ensures turn { IfOk result (λ p. turned_by state.now p ≡ turns.begin (R.meaning runner.now) state.now) }
    ensures can { IfOk result (λ p. CanBeMade p state.now) }
{
    let mut desk = Desk::new(alloc, state);
    outside::begin(alloc, runner, &mut desk)?;
    Ok(Some(prepared(state, desk)))
}

// ---- steps

/// The message at this place is handled by the actor of this name.
fn handled<R: Runner>(
    alloc: Global,
    runner: &R,
    state: &State,
    i: usize,
    message: &Message,
    name: &Name,
) -> Result<Option<Prepared>, NoMemory>
    requires runner { IsRunner (R.meaning runner.now) }
    requires fresh { state.now.next_anon ≤ 18446744073709550591 }
    requires few { has_few_nodes state.now.plan ≡ true }
    ensures turn { IfOk result (λ p. turned_by state.now p ≡ handling.step_by (R.meaning runner.now) (fm.get state.now.residents (name_key name.now)) i message.now state.now) }
    ensures can { IfOk result (λ p. CanBeMade p state.now) }
{
    let mut desk = Desk::without_ready(alloc, state, i);
    let Some(actor) = desk.resident(name) else {
        return Ok(None);
    };
    let actor = actor.clone_in(alloc)?;
    handle(alloc, runner, &mut desk, actor, message)?;
    Ok(Some(prepared(state, desk)))
}

/// The message at this place is printed.
fn printed<R: Runner>(
    alloc: Global,
    runner: &R,
    state: &State,
    i: usize,
    message: &Message,
) -> Result<Option<Prepared>, NoMemory>
    requires few { has_few_nodes state.now.plan ≡ true }
    ensures turn { IfOk result (λ p. turned_by state.now p ≡ handling.finished state.now true (handling.print_message (R.meaning runner.now) message.now (spec.desk (handling.without_ready i state.now)))) }
    ensures can { IfOk result (λ p. CanBeMade p state.now) }
{
    let mut desk = Desk::without_ready(alloc, state, i);
    print_message(alloc, runner, &mut desk, message)?;
    Ok(Some(prepared(state, desk)))
}

/// The ready message at this place is printed or handled.
#[tactic(auto, unfolding(sal_routing::specs::Handling::step))]
pub fn step<R: Runner>(
    alloc: Global,
    runner: &R,
    state: &State,
    i: usize,
) -> Result<Option<Prepared>, NoMemory>
    requires { IsRunner (R.meaning runner.now) }
    ensures turn { IfOk result (λ p. turned_by state.now p ≡ turns.step (R.meaning runner.now) i state.now) }
    ensures can { IfOk result (λ p. CanBeMade p state.now) }
{
    let _plan = state.plan();
    if state.is_used_up() {
        return Ok(None);
    }
    let Some(message) = state.message(i) else {
        return Ok(None);
    };
    match &message.target {
        Target::Output => printed(alloc, runner, state, i, message),
        Target::Actor(name) => handled(alloc, runner, state, i, message, name),
    }
}

// ---- datagrams

/// The envelope from the peer is received.
fn received<R: Runner>(
    alloc: Global,
    runner: &R,
    state: &State,
    peer: u8,
    arrival: &Arrival,
) -> Result<Prepared, NoMemory>
    requires few { has_few_nodes state.now.plan ≡ true }
    requires can { CanCompleteFrom peer arrival.now.acknowledges state.now.links }
    ensures turn { IfOk result (λ p. desk_with state.now p.draft ≡ turns.receive_decoded (R.meaning runner.now) (decoded_envelope arrival.now.envelope) (spec.desk (record state.now { links = complete_from peer arrival.now.acknowledges state.now.links }))) }
    ensures can { IfOk result (λ p. CanFinish p.draft.arrived state.now.links) }
{
    let mut desk = Desk::after_arrival(alloc, state, peer, arrival.acknowledges);
    receive_bytes(alloc, runner, &mut desk, arrival.envelope.as_slice())?;
    Ok(prepared_on(state, desk, peer, arrival.acknowledges))
}

/// The envelope that the datagram completes, if it does, is received.
#[tactic(auto, using(crate::proofs::Datagrams::received))]
pub fn datagram<R: Runner>(
    alloc: Global,
    runner: &R,
    state: &State,
    bytes: &[u8],
) -> Result<Option<Prepared>, NoMemory>
    ensures turn { IfOk result (Receives (R.meaning runner.now) bytes.now state.now) }
    ensures can { IfOk result (λ p. CanBeMade p state.now) }
{
    let _plan = state.plan();
    match state.arrival(alloc, bytes)? {
        None => Ok(None),
        Some(arrival) => {
            let prepared = received(alloc, runner, state, sender_of(bytes), &arrival)?;
            Ok(Some(prepared))
        }
    }
}

// ---- the clock

/// The naming service of the name, if the plan has it, is asked for it.
fn ask_again(alloc: Global, desk: &mut Desk<'_>, name: &Uan) -> Result<(), NoMemory>
    requires { has_few_nodes desk.old.desk.theatre.plan ≡ true }
    ensures { OnOk result (desk.new ≡ on_desk (λ d. turns.ask_by (nodes.service_of d.theatre.plan name.now) name.now d) desk.old) }
{
    match service_for(desk.plan(), name) {
        None => Ok(()),
        Some(service) => ask(alloc, desk, service, name),
    }
}

/// The names are asked for in their order.
#[tactic(auto, using(crate::proofs::Asking::one_more, crate::proofs::Asking::still_few), unfolding(sal_routing::specs::Turns::ask_all))]
fn ask_all(alloc: Global, desk: &mut Desk<'_>, names: &[Uan]) -> Result<(), NoMemory>
    requires { has_few_nodes desk.old.desk.theatre.plan ≡ true }
    ensures { OnOk result (desk.new ≡ on_desk (turns.ask_all names.now) desk.old) }
{
    for name in names {
        ask_again(alloc, desk, name)?;
    }
    Ok(())
}

/// What is due at this reading of the clock is routed, and names are asked for again.
#[tactic(auto, using(sal_routing::proofs::Kept::plans_kept), unfolding(sal_routing::specs::Turns::release_delayed))]
fn ticked<R: Runner>(
    alloc: Global,
    runner: &R,
    state: &State,
    ms: u64,
) -> Result<Prepared, NoMemory>
    requires { has_few_nodes state.now.plan ≡ true }
    ensures turn { IfOk result (λ p. desk_with state.now p.draft ≡ turns.ask_all (turns.again_due (turns.at_reading ms state.now)) (routing.route (R.meaning runner.now) (turns.release_delayed (spec.desk (turns.at_reading ms state.now))))) }
    ensures can { IfOk result (λ p. CanFinish p.draft.arrived state.now.links) }
{
    let names = state.again_due(alloc, ms)?;
    let mut desk = Desk::at_reading(alloc, state, ms)?;
    route(alloc, runner, &mut desk)?;
    ask_all(alloc, &mut desk, names.as_slice())?;
    Ok(prepared(state, desk))
}

/// A reading of the clock. A theatre for which it isn't time is left as it is.
#[tactic(auto, using(crate::proofs::Idle::idle), unfolding(sal_routing::specs::Turns::clock))]
pub fn clock<R: Runner>(
    alloc: Global,
    runner: &R,
    state: &State,
    ms: u64,
) -> Result<Option<Prepared>, NoMemory>
    ensures turn { IfOk result (λ p. turned_by state.now p ≡ turns.clock (R.meaning runner.now) ms state.now) }
    ensures can { IfOk result (λ p. CanBeMade p state.now) }
{
    let _plan = state.plan();
    if !state.is_time(ms) {
        return Ok(None);
    }
    Ok(Some(ticked(alloc, runner, state, ms)?))
}

// ---- from outside

/// The actor moves to this theatre, where it may.
#[tactic(auto, using(crate::proofs::Moving::moved, crate::proofs::Moving::stayed))]
pub fn move_actor(
    alloc: Global,
    state: &State,
    name: &Uan,
    to: u8,
) -> Result<Option<Prepared>, NoMemory>
    ensures turn { IfOk result (λ p. turned_by state.now p ≡ turns.move_actor name.now to state.now) }
    ensures can { IfOk result (λ p. CanBeMade p state.now) }
{
    let mut desk = Desk::new(alloc, state);
    let name = Name::Uan(name.clone_in(alloc)?);
    if !move_to(alloc, &mut desk, &name, to)? {
        return Ok(None);
    }
    Ok(Some(prepared(state, desk)))
}

/// A call from outside, which fits.
#[tactic(auto, unfolding(sal_routing::specs::Turns::post))]
pub fn post<R: Runner>(
    alloc: Global,
    runner: &R,
    state: &State,
    number: u64,
    target: &Uan,
    behavior: u16,
    handler: u16,
    args: &Values,
) -> Result<Option<Prepared>, NoMemory>
    ensures turn { IfOk result (λ p. turned_by state.now p ≡ turns.post (R.meaning runner.now) number target.now behavior handler args.now state.now) }
    ensures can { IfOk result (λ p. CanBeMade p state.now) }
{
    let _plan = state.plan();
    let mut desk = Desk::new(alloc, state);
    outside::post(
        alloc, runner, &mut desk, number, target, behavior, handler, args,
    )?;
    Ok(Some(prepared(state, desk)))
}
