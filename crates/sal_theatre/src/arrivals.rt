//! Actors that come, actors that leave, and places that become known.

ghost use Rattle.std.specs.Prelude.{◌≡◌, ◌<◌, ◌++◌, ◌&&◌, true, not, nat_eq, nat_lt, if◌then◌else◌, Some, None, IfOk, OnOk};
ghost use Rattle.sal_value.specs.declared.name.Name.TheVariants.{Uan as Universal};
ghost use Rattle.sal_mail.specs.declared.envelope.Envelope.TheVariants.{Move};
ghost use Rattle.sal_node.specs.Links.{has_few_nodes};
ghost use Rattle.sal_resident.specs.Packing.{packed_actor};
ghost use Rattle.sal_spelled.specs.Sending.{bytes_to_move};
ghost use Rattle.sal_tidy.specs.Tidy.{IsTidy};
ghost use Rattle.sal_desk.specs.code.Desks.{on_desk, on_theatre};
ghost use Rattle.sal_routing.specs.State.{send};
ghost use Rattle.sal_routing.specs.Arrivals as arrivals;

use crate::routing::route;
use sal_desk::{Desk, Standing};
use sal_mail::{Envelope, Message};
use sal_resident::Resident;
use sal_source::Runner;
use sal_spelled::pack_if_light;
use sal_value::{CloneIn, List, Name, NoMemory, Uan};
use std::alloc::Global;

// ---- an actor comes

fn make_all_ready(desk: &mut Desk<'_>, messages: List<Message>) -> Result<(), NoMemory>
    ensures { OnOk result (desk.new ≡ on_desk (on_theatre (λ t. record t { ready = t.ready ++ messages })) desk.old) }
{
    for message in messages.into_vec() {
        desk.make_ready(message)?;
    }
    Ok(())
}

/// The actor stands here with its calls.
#[tactic(auto, unfolding(sal_routing::specs::Arrivals::stand))]
fn stand(alloc: Global, desk: &mut Desk<'_>, actor: Resident) -> Result<(), NoMemory>
    requires { IsTidy actor }
    ensures { OnOk result (desk.new ≡ on_desk (on_theatre (arrivals.stand actor)) desk.old) }
{
    let (standing, calls) = Standing::arrive(alloc, actor);
    desk.put_resident(alloc, standing)?;
    make_all_ready(desk, calls)
}

/// The actor stands here with its calls, and what was held for its name is routed.
#[tactic(auto, unfolding(sal_routing::specs::Arrivals::arrive), using(sal_routing::proofs::Kept::plans_kept))]
pub fn arrive<R: Runner>(
    alloc: Global,
    runner: &R,
    desk: &mut Desk<'_>,
    actor: Resident,
) -> Result<(), NoMemory>
    requires tidy { IsTidy actor }
    requires few { has_few_nodes desk.old.desk.theatre.plan ≡ true }
    ensures { OnOk result (desk.new ≡ on_desk (arrivals.arrive (R.meaning runner.now) actor) desk.old) }
{
    let name = actor.name.clone_in(alloc)?;
    stand(alloc, desk, actor)?;
    desk.release_held(alloc, &name)?;
    route(alloc, runner, desk)
}

// ---- a place becomes known

/// A place that is news becomes known, and what was held for its name is routed.
#[tactic(auto, unfolding(sal_routing::specs::Arrivals::learn), using(sal_routing::proofs::Kept::plans_kept))]
pub fn learn<R: Runner>(
    alloc: Global,
    runner: &R,
    desk: &mut Desk<'_>,
    name: &Uan,
    theatre: u8,
    moves: u64,
) -> Result<(), NoMemory>
    requires { has_few_nodes desk.old.desk.theatre.plan ≡ true }
    ensures { OnOk result (desk.new ≡ on_desk (arrivals.learn (R.meaning runner.now) name.now theatre moves) desk.old) }
{
    if !desk.is_news(name, moves) {
        return Ok(());
    }
    desk.put_place(name.clone_in(alloc)?, theatre, moves)?;
    let name = Name::Uan(name.clone_in(alloc)?);
    desk.release_held(alloc, &name)?;
    route(alloc, runner, desk)
}

// ---- an actor leaves

/// Whether it would go to another theatre, and has a move left to count.
fn may_count_move(desk: &Desk<'_>, actor: &Standing, to: u8) -> bool
    ensures { result ≡ (not (nat_eq to desk.now.desk.theatre.me) && nat_lt actor.now.moves 18446744073709551615) }
{
    to != desk.me() && actor.resident().moves < u64::MAX
}

/// The bytes of the actor as it is once it moved, with the calls that are ready for it, where they are few enough.
#[tactic(auto, unfolding(sal_routing::specs::Arrivals::leaving))]
fn packed_with_calls(
    alloc: Global,
    desk: &Desk<'_>,
    actor: &Standing,
) -> Result<Option<List<u8>>, NoMemory>
    requires { actor.now.moves < 18446744073709551615 }
    ensures { IfOk result (λ packed. packed ≡ bytes_to_move (arrivals.leaving actor.now desk.now.desk.theatre)) }
{
    let calls = desk.calls_for(alloc, &actor.resident().name)?;
    let moved = actor.leaving(alloc, calls)?;
    pack_if_light(alloc, &moved)
}

/// The bytes with which the actor leaves for this theatre, if it may leave.
#[tactic(auto, unfolding(sal_routing::specs::Arrivals::may_leave))]
fn packed_if_it_leaves(
    alloc: Global,
    desk: &Desk<'_>,
    actor: &Standing,
    to: u8,
) -> Result<Option<List<u8>>, NoMemory>
    ensures { IfOk result (λ packed. packed ≡ (if arrivals.may_leave actor.now to desk.now.desk.theatre then Some (packed_actor (arrivals.leaving actor.now desk.now.desk.theatre)) else None)) }
{
    if !may_count_move(desk, actor, to) {
        return Ok(None);
    }
    packed_with_calls(alloc, desk, actor)
}

/// The packed actor goes to the other theatre.
fn send_packed(alloc: Global, desk: &mut Desk<'_>, to: u8, packed: List<u8>) -> Result<(), NoMemory>
    ensures { OnOk result (desk.new ≡ on_desk (send to (Move packed)) desk.old) }
{
    desk.send(alloc, to, &Envelope::Move(packed))
}

/// The actor goes to the other theatre on these bytes, and its new place becomes known.
#[tactic(auto, unfolding(sal_routing::specs::Arrivals::depart_as))]
fn depart_as(
    alloc: Global,
    desk: &mut Desk<'_>,
    name: &Uan,
    actor: &Standing,
    to: u8,
    packed: List<u8>,
) -> Result<(), NoMemory>
    requires packed { packed ≡ packed_actor (arrivals.leaving actor.now desk.old.desk.theatre) }
    requires moves { actor.now.moves < 18446744073709551615 }
    ensures { OnOk result (desk.new ≡ on_desk (λ d. arrivals.depart_as name.now actor.now to (arrivals.tell_moved (Universal name.now) to d)) desk.old) }
{
    desk.tell_moved(Name::Uan(name.clone_in(alloc)?), to)?;
    desk.remove_resident(alloc, actor)?;
    send_packed(alloc, desk, to, packed)?;
    desk.put_place(name.clone_in(alloc)?, to, actor.resident().moves + 1)
}

/// The actor moves where it may. Whether it does.
#[tactic(auto, using(crate::proofs::Leaving::bytes, crate::proofs::Leaving::moves, crate::proofs::Leaving::may, crate::proofs::Leaving::may_not, crate::proofs::Leaving::left, crate::proofs::Leaving::stayed))]
fn move_resident(
    alloc: Global,
    desk: &mut Desk<'_>,
    name: &Uan,
    actor: &Standing,
    to: u8,
) -> Result<bool, NoMemory>
    ensures moved { OnOk result (desk.new ≡ on_desk (λ d. if arrivals.may_leave actor.now to d.theatre then arrivals.depart_as name.now actor.now to (arrivals.tell_moved (Universal name.now) to d) else d) desk.old) }
    ensures goes { IfOk result (λ goes. goes ≡ arrivals.may_leave actor.now to desk.old.desk.theatre) }
{
    match packed_if_it_leaves(alloc, desk, actor, to)? {
        None => Ok(false),
        Some(packed) => {
            depart_as(alloc, desk, name, actor, to, packed)?;
            Ok(true)
        }
    }
}

/// The actor of this universal name moves where it may. Whether it does.
#[tactic(auto, using(crate::proofs::Leaving::some_moves, crate::proofs::Leaving::none_moves, crate::proofs::Leaving::some_goes, crate::proofs::Leaving::none_goes))]
fn move_universal(alloc: Global, desk: &mut Desk<'_>, name: &Uan, to: u8) -> Result<bool, NoMemory>
    ensures moved { OnOk result (desk.new ≡ on_desk (arrivals.move_to (Universal name.now) to) desk.old) }
    ensures goes { IfOk result (λ goes. goes ≡ arrivals.goes (Universal name.now) to desk.old.desk.theatre) }
{
    let full = Name::Uan(name.clone_in(alloc)?);
    match desk.resident(&full) {
        None => Ok(false),
        Some(actor) => {
            let actor = actor.clone_in(alloc)?;
            move_resident(alloc, desk, name, &actor, to)
        }
    }
}

/// The actor moves to another theatre, where it has a universal name and may leave. Whether it does.
#[tactic(auto, unfolding(sal_routing::specs::Arrivals::move_to, sal_routing::specs::Arrivals::goes))]
pub fn move_to(alloc: Global, desk: &mut Desk<'_>, name: &Name, to: u8) -> Result<bool, NoMemory>
    ensures moved { OnOk result (desk.new ≡ on_desk (arrivals.move_to name.now to) desk.old) }
    ensures goes { IfOk result (λ goes. goes ≡ arrivals.goes name.now to desk.old.desk.theatre) }
{
    match name {
        Name::Uan(name) => move_universal(alloc, desk, name, to),
        Name::Anon(_, _) | Name::Outside(_) => Ok(false),
    }
}
