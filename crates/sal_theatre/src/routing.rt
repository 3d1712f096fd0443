//! Routing: one list of calls and replies, from its front.

ghost use Rattle.std.specs.Prelude.{◌≡◌, true, if◌then◌else◌, map, Some, IfOk, OnOk};
ghost use Rattle.sal_value.specs.Spelling.{is_legal};
ghost use Rattle.sal_mail.specs.declared.message.Target.TheVariants.{Actor};
ghost use Rattle.sal_node.specs.Links.{has_few_nodes};
ghost use Rattle.sal_desk.specs.code.Desks.{on_desk};
ghost use Rattle.sal_routing.specs.State as spec;
ghost use Rattle.sal_routing.specs.Routing as routing;

use crate::fits::{fits_call, fits_print};
use crate::holding::send_on;
use sal_book::Released;
use sal_desk::Desk;
use sal_mail::{Message, Reply, Target};
use sal_routing::Item;
use sal_source::Runner;
use sal_value::{CloneIn, List, Name, NoMemory, Value};
use std::alloc::Global;

// ---- calls

fn make_ready_if(desk: &mut Desk<'_>, fits: bool, message: Message) -> Result<(), NoMemory>
    ensures { OnOk result (desk.new ≡ on_desk (routing.ready_if fits message) desk.old) }
{
    if !fits {
        return Ok(());
    }
    desk.make_ready(message)
}

/// A call to the actor of this name, here or elsewhere.
fn route_to_actor<R: Runner>(
    alloc: Global,
    runner: &R,
    desk: &mut Desk<'_>,
    name: &Name,
    hops: u32,
    message: Message,
) -> Result<(), NoMemory>
    requires { has_few_nodes desk.old.desk.theatre.plan ≡ true }
    ensures { OnOk result (desk.new ≡ on_desk (routing.route_to (R.meaning runner.now) (Actor name.now) hops message) desk.old) }
{
    if desk.is_here(name) {
        let fits = fits_call(alloc, runner, &message)?;
        make_ready_if(desk, fits, message)
    } else {
        send_on(alloc, desk, name, Item::Call(hops, message))
    }
}

fn name_of_target(alloc: Global, target: &Target) -> Result<Option<Name>, NoMemory>
    ensures { IfOk result (λ name. name ≡ spec.actor_of_target target.now) }
{
    match target {
        Target::Actor(name) => Ok(Some(name.clone_in(alloc)?)),
        Target::Output => Ok(None),
    }
}

#[tactic(auto, unfolding(sal_routing::specs::Routing::route_call))]
fn route_call<R: Runner>(
    alloc: Global,
    runner: &R,
    desk: &mut Desk<'_>,
    hops: u32,
    message: Message,
) -> Result<(), NoMemory>
    requires { has_few_nodes desk.old.desk.theatre.plan ≡ true }
    ensures { OnOk result (desk.new ≡ on_desk (routing.route_call (R.meaning runner.now) hops message) desk.old) }
{
    if message.delay > 0 {
        return desk.put_delayed(message);
    }
    match name_of_target(alloc, &message.target)? {
        Some(name) => route_to_actor(alloc, runner, desk, &name, hops, message),
        None => {
            let fits = fits_print(alloc, &message)?;
            make_ready_if(desk, fits, message)
        }
    }
}

// ---- replies

/// These messages join the end of the list.
fn add_messages(desk: &mut Desk<'_>, messages: List<Message>) -> Result<(), NoMemory>
    ensures { OnOk result (desk.new ≡ on_desk (spec.with_work (map routing.call_made messages)) desk.old) }
{
    for message in messages.into_vec() {
        desk.push_work(Item::Call(0, message))?;
    }
    Ok(())
}

/// These replies join the end of the list.
fn add_replies(desk: &mut Desk<'_>, replies: List<(Reply, Value)>) -> Result<(), NoMemory>
    ensures { OnOk result (desk.new ≡ on_desk (spec.with_work (map routing.answer_made replies)) desk.old) }
{
    for (reply, value) in replies.into_vec() {
        desk.push_work(Item::Answer(0, reply, value))?;
    }
    Ok(())
}

/// What was released joins the end of the list.
#[tactic(auto, unfolding(sal_routing::specs::Routing::released_items))]
pub fn add_released(desk: &mut Desk<'_>, released: Released) -> Result<(), NoMemory>
    ensures { OnOk result (desk.new ≡ on_desk (spec.with_work (routing.released_items released)) desk.old) }
{
    add_messages(desk, released.messages)?;
    add_replies(desk, released.replies)
}

/// The reply enters its owner's book, or goes on to its owner.
#[tactic(auto, unfolding(sal_routing::specs::Routing::give_owner))]
fn give_owner(
    alloc: Global,
    desk: &mut Desk<'_>,
    owner: &Name,
    hops: u32,
    reply: Reply,
    value: Value,
) -> Result<(), NoMemory>
    requires owner { spec.owner_of reply ≡ Some owner.now }
    requires few { has_few_nodes desk.old.desk.theatre.plan ≡ true }
    ensures { OnOk result (desk.new ≡ on_desk (routing.give_owner owner.now hops reply value) desk.old) }
{
    let Some(actor) = desk.resident(owner) else {
        return send_on(alloc, desk, owner, Item::Answer(hops, reply, value));
    };
    let mut actor = actor.clone_in(alloc)?;
    let released = actor.give(alloc, &reply, value)?;
    desk.put_resident(alloc, actor)?;
    add_released(desk, released)
}

fn owner_of(alloc: Global, reply: &Reply) -> Result<Option<Name>, NoMemory>
    ensures { IfOk result (λ owner. owner ≡ spec.owner_of reply.now) }
{
    match reply {
        Reply::Tok(owner, _) | Reply::Place(owner, _, _) => Ok(Some(owner.clone_in(alloc)?)),
        Reply::Nobody | Reply::Outside(_) => Ok(None),
    }
}

fn tell_answer_if_legal(desk: &mut Desk<'_>, number: u64, value: Value) -> Result<(), NoMemory>
    ensures { OnOk result (desk.new ≡ on_desk (λ d. if is_legal value then spec.tell_answer number value d else d) desk.old) }
{
    if !value.legal() {
        return Ok(());
    }
    desk.tell_answer(number, value)
}

#[tactic(auto, unfolding(sal_routing::specs::Routing::route_answer))]
fn route_answer(
    alloc: Global,
    desk: &mut Desk<'_>,
    hops: u32,
    reply: Reply,
    value: Value,
) -> Result<(), NoMemory>
    requires { has_few_nodes desk.old.desk.theatre.plan ≡ true }
    ensures { OnOk result (desk.new ≡ on_desk (routing.route_answer hops reply value) desk.old) }
{
    if let Some(owner) = owner_of(alloc, &reply)? {
        return give_owner(alloc, desk, &owner, hops, reply, value);
    }
    match reply {
        Reply::Outside(number) => tell_answer_if_legal(desk, number, value),
        Reply::Nobody | Reply::Tok(_, _) | Reply::Place(_, _, _) => Ok(()),
    }
}

// ---- the list

#[tactic(auto, unfolding(sal_routing::specs::Routing::route_item))]
fn route_item<R: Runner>(
    alloc: Global,
    runner: &R,
    desk: &mut Desk<'_>,
    item: Item,
) -> Result<(), NoMemory>
    requires { has_few_nodes desk.old.desk.theatre.plan ≡ true }
    ensures { OnOk result (desk.new ≡ on_desk (routing.route_item (R.meaning runner.now) item) desk.old) }
{
    match item {
        Item::Call(hops, message) => route_call(alloc, runner, desk, hops, message),
        Item::Answer(hops, reply, value) => route_answer(alloc, desk, hops, reply, value),
    }
}

/// Routes the list to its end.
#[tactic(auto, using(crate::proofs::Looping::taken, crate::proofs::Looping::falls, sal_routing::proofs::Kept::plans_kept))]
pub fn route<R: Runner>(alloc: Global, runner: &R, desk: &mut Desk<'_>) -> Result<(), NoMemory>
    requires { has_few_nodes desk.old.desk.theatre.plan ≡ true }
    ensures { OnOk result (desk.new ≡ on_desk (routing.route (R.meaning runner.now)) desk.old) }
{
    while let Some(item) = desk.take_work() {
        route_item(alloc, runner, desk, item)?;
    }
    Ok(())
}
