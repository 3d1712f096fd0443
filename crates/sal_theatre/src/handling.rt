//! A step: a ready message is printed or handled.

ghost use Rattle.std.specs.Prelude.{◌≡◌, [], ◌∷◌, ◌++◌, ◌≤◌, filter, true, if◌then◌else◌, Some, None, IfOk, OnOk};
ghost use Rattle.sal_value.specs.declared.value.Value.TheVariants.{Null};
ghost use Rattle.sal_mail.specs.Message.{is_ready};
ghost use Rattle.sal_handler.specs.Calls.{call};
ghost use Rattle.sal_node.specs.Links.{has_few_nodes};
ghost use Rattle.sal_source.specs.declared.state.Step.TheVariants.{Handle};
ghost use Rattle.sal_source.specs.Runners.{behavior_or_migrate};
ghost use Rattle.sal_source.specs.Step.{understands, answer_replies};
ghost use Rattle.sal_book.specs.Book.{full_replies};
ghost use Rattle.sal_tidy.specs.Tidy.{IsTidy};
ghost use Rattle.sal_desk.specs.code.Desks.{on_desk, on_theatre};
ghost use Rattle.sal_desk.specs.code.Effects.{MayTake, after_entry};
ghost use Rattle.sal_routing.specs.Routing.{put_resident};
ghost use Rattle.sal_routing.specs.State as spec;
ghost use Rattle.sal_routing.specs.Handling as handling;
ghost use Rattle.sal_theatre.specs.code.Programs.{IsRunner};

use crate::creating::{create_all, put_newcomers};
use crate::migrating::{is_migrate, migrate_after};
use crate::printing::message_text;
use crate::routing::{add_released, route};
use sal_book::Released;
use sal_desk::{Desk, Standing};
use sal_handler::{Outcome, Turn};
use sal_mail::{Actor, Answer, Effects, Fault, FaultKind, Join, MIGRATE, Message, OUTPUT, Reply};
use sal_routing::Item;
use sal_source::{Runner, Step};
use sal_value::{CloneIn, List, Name, NoMemory, Value, Values};
use std::alloc::Global;

// ---- what is told

/// The message was handled, and nothing but the fault is left of it.
#[tactic(auto, unfolding(sal_routing::specs::Handling::fail))]
fn fail(
    alloc: Global,
    desk: &mut Desk<'_>,
    message: &Message,
    kind: FaultKind,
) -> Result<(), NoMemory>
    ensures { OnOk result (desk.new ≡ on_desk (handling.fail kind message.now) desk.old) }
{
    desk.log(Step::Handle {
        maker: message.maker.clone_in(alloc)?,
        serial: message.serial,
        fresh: List::new(alloc),
    })?;
    desk.tell_fault(Fault {
        maker: message.maker.clone_in(alloc)?,
        serial: message.serial,
        kind,
    })
}

fn names_of(alloc: Global, actors: &[Actor]) -> Result<List<Name>, NoMemory>
    ensures { IfOk result (λ names. names ≡ handling.names_of actors.now) }
{
    let mut names = List::new(alloc);
    for actor in actors {
        names.push(actor.name.clone_in(alloc)?)?;
    }
    Ok(names)
}

fn tell_if_open(
    alloc: Global,
    desk: &mut Desk<'_>,
    owner: &Name,
    join: &Join,
) -> Result<(), NoMemory>
    ensures { OnOk result (desk.new ≡ on_desk (λ d. record d { told = record d.told { opened = d.told.opened ++ handling.opened_by owner.now (join.now ∷ []) } }) desk.old) }
{
    if join.is_full() {
        return Ok(());
    }
    desk.tell_opened(owner.clone_in(alloc)?, join.clone_in(alloc)?)
}

/// Each open join is told with its owner.
#[tactic(auto, using(crate::proofs::Handled::one_opened))]
fn tell_opened(
    alloc: Global,
    desk: &mut Desk<'_>,
    owner: &Name,
    joins: &[Join],
) -> Result<(), NoMemory>
    ensures { OnOk result (desk.new ≡ on_desk (λ d. record d { told = record d.told { opened = d.told.opened ++ handling.opened_by owner.now joins.now } }) desk.old) }
{
    for join in joins {
        tell_if_open(alloc, desk, owner, join)?;
    }
    Ok(())
}

/// Each new actor is told with this theatre.
fn tell_made(alloc: Global, desk: &mut Desk<'_>, actors: &[Actor]) -> Result<(), NoMemory>
    ensures { OnOk result (desk.new ≡ on_desk (λ d. record d { told = record d.told { made = d.told.made ++ handling.made_here d.theatre.me actors.now } }) desk.old) }
{
    for actor in actors {
        desk.tell_made(actor.name.clone_in(alloc)?)?;
    }
    Ok(())
}

/// The step of a message whose handler ended, with what it made.
fn tell_handled(
    alloc: Global,
    desk: &mut Desk<'_>,
    message: &Message,
    name: &Name,
    effects: &Effects,
) -> Result<(), NoMemory>
    ensures { OnOk result (desk.new ≡ on_desk (λ d. spec.log (Handle message.now.maker message.now.serial (handling.names_of effects.now.actors)) (record d { told = record d.told { made = d.told.made ++ handling.made_here d.theatre.me effects.now.actors; opened = d.told.opened ++ handling.opened_by name.now effects.now.joins } })) desk.old) }
{
    tell_made(alloc, desk, effects.actors.as_slice())?;
    tell_opened(alloc, desk, name, effects.joins.as_slice())?;
    let fresh = names_of(alloc, effects.actors.as_slice())?;
    desk.log(Step::Handle {
        maker: message.maker.clone_in(alloc)?,
        serial: message.serial,
        fresh,
    })
}

// ---- a handler's effects

/// The reply of the handler that ended, if it wasn't passed on.
fn answers_of(
    alloc: Global,
    answer: Answer,
    reply: &Reply,
) -> Result<List<(Reply, Value)>, NoMemory>
    ensures { IfOk result (λ given. given ≡ answer_replies answer reply.now) }
{
    let mut given = List::new(alloc);
    match answer {
        Answer::Passed => Ok(given),
        Answer::Value(value) => {
            given.push((reply.clone_in(alloc)?, value))?;
            Ok(given)
        }
    }
}

/// What the handler leaves enters its actor's book. What waits for nothing is given, and the answer is
/// the last of the replies.
fn enter(
    alloc: Global,
    actor: &mut Standing,
    reply: &Reply,
    answer: Answer,
    fields: Values,
    serial: u64,
    messages: List<Message>,
    joins: List<Join>,
) -> Result<Released, NoMemory>
    requires { MayTake fields serial messages joins actor.old }
    ensures ok { OnOk result (actor.new ≡ after_entry fields serial messages joins actor.old) }
    ensures released { IfOk result (λ it. it ≡ record { messages = filter is_ready messages; replies = full_replies joins ++ answer_replies answer reply.now }) }
{
    let answers = answers_of(alloc, answer, reply)?;
    let mut released = actor.take_effects(alloc, fields, serial, messages, joins)?;
    released.replies.append(answers)?;
    Ok(released)
}

/// The actor and the new ones stand here.
fn stand_all(
    alloc: Global,
    desk: &mut Desk<'_>,
    actor: Standing,
    newcomers: List<Actor>,
    fresh: u64,
) -> Result<(), NoMemory>
    ensures { OnOk result (desk.new ≡ on_desk (on_theatre (λ t. record (handling.put_newcomers newcomers (put_resident actor t)) { next_anon = fresh })) desk.old) }
{
    desk.put_resident(alloc, actor)?;
    put_newcomers(alloc, desk, newcomers)?;
    desk.set_next_anon(fresh);
    Ok(())
}

/// What the handler of the actor of this name leaves: the actor and the new ones stand here, names are
/// put, and the list is routed.
fn take_effect<R: Runner>(
    alloc: Global,
    runner: &R,
    desk: &mut Desk<'_>,
    name: &Name,
    actor: Standing,
    message: &Message,
    effects: Effects,
) -> Result<(), NoMemory>
    requires name { name.now ≡ actor.name }
    requires takes { MayTake effects.fields effects.serial effects.messages effects.joins actor }
    requires few { has_few_nodes desk.old.desk.theatre.plan ≡ true }
    ensures { OnOk result (desk.new ≡ on_desk (handling.take_effect (R.meaning runner.now) effects message.now actor) desk.old) }
{
    tell_handled(alloc, desk, message, name, &effects)?;
    let Effects {
        fields,
        answer,
        messages,
        joins,
        actors,
        creations,
        serial,
        fresh,
    } = effects;
    let mut actor = actor;
    let released = enter(
        alloc,
        &mut actor,
        &message.reply,
        answer,
        fields,
        serial,
        messages,
        joins,
    )?;
    desk.tell_given(released.replies.clone_in(alloc)?)?;
    stand_all(alloc, desk, actor, actors, fresh)?;
    create_all(alloc, desk, name, creations)?;
    add_released(desk, released)?;
    route(alloc, runner, desk)
}

// ---- handling

/// Whether the actor understands the message.
fn understands(actor: &Standing, message: &Message) -> bool
    ensures { result ≡ understands (spec.actor_of actor.now) message.now }
{
    message.behavior == actor.resident().behavior || is_migrate(message)
}

/// The number by which the runner's test knows `migrate`, or the behaviour's.
fn behavior_or_migrate(behavior: u16, handler: u16) -> u16
    ensures { result ≡ behavior_or_migrate behavior handler }
{
    if handler == MIGRATE { OUTPUT } else { behavior }
}

/// Whether the call fits.
#[tactic(auto, unfolding(sal_routing::specs::Handling::may_be_called))]
fn may_be_called<R: Runner>(runner: &R, turn: &Turn<'_>) -> bool
    ensures { result ≡ handling.may_be_called (R.meaning runner.now) (call turn.now) }
{
    runner.fits_state(turn.behavior, turn.fields)
        && runner.fits_call(
            behavior_or_migrate(turn.behavior, turn.handler),
            turn.handler,
            turn.args,
        )
}

/// What the call does, where it fits.
fn outcome_if_fits<R: Runner>(
    alloc: Global,
    runner: &R,
    turn: &Turn<'_>,
) -> Result<Option<Outcome>, NoMemory>
    requires { turn.now.fresh ≤ 18446744073709550591 }
    ensures { IfOk result (λ o. o ≡ (if handling.may_be_called (R.meaning runner.now) (call turn.now) then Some ((R.meaning runner.now).outcome (call turn.now)) else None)) }
{
    if !may_be_called(runner, turn) {
        return Ok(None);
    }
    Ok(Some(runner.handle(alloc, turn)?))
}

/// What the handler of the message does, where its call fits.
fn outcome_of<R: Runner>(
    alloc: Global,
    runner: &R,
    desk: &Desk<'_>,
    actor: &Standing,
    message: &Message,
) -> Result<Option<Outcome>, NoMemory>
    requires { desk.now.desk.theatre.next_anon ≤ 18446744073709550591 }
    ensures tidy { IsTidy actor.now }
    ensures outcome { IfOk result (λ o. o ≡ (if handling.may_be_called (R.meaning runner.now) (handling.call_at message.now actor.now desk.now.desk.theatre) then Some ((R.meaning runner.now).outcome (handling.call_at message.now actor.now desk.now.desk.theatre)) else None)) }
{
    let actor = actor.resident();
    let args = message.known_values(alloc)?;
    let turn = Turn {
        me: &actor.name,
        behavior: actor.behavior,
        fields: &actor.fields,
        handler: message.handler,
        args: &args,
        reply: &message.reply,
        serial: actor.serial,
        place: u32::from(desk.me()),
        fresh: desk.next_anon(),
    };
    outcome_if_fits(alloc, runner, &turn)
}

/// The handler ended, and then an actor that migrates moves.
#[tactic(auto, using(sal_routing::proofs::Kept::plans_kept), unfolding(sal_routing::specs::Handling::migrate_after))]
fn take_done<R: Runner>(
    alloc: Global,
    runner: &R,
    desk: &mut Desk<'_>,
    actor: Standing,
    message: &Message,
    effects: Effects,
) -> Result<(), NoMemory>
    requires takes { MayTake effects.fields effects.serial effects.messages effects.joins actor }
    requires few { has_few_nodes desk.old.desk.theatre.plan ≡ true }
    ensures { OnOk result (desk.new ≡ on_desk (λ d. handling.migrate_after message.now actor (handling.take_effect (R.meaning runner.now) effects message.now actor d)) desk.old) }
{
    let name = actor.resident().name.clone_in(alloc)?;
    take_effect(alloc, runner, desk, &name, actor, message, effects)?;
    migrate_after(alloc, desk, message, &name)
}

/// The message, which the actor understands, is handled by it.
#[tactic(auto, using(crate::proofs::Handled::not_called, crate::proofs::Handled::called))]
fn handle_understood<R: Runner>(
    alloc: Global,
    runner: &R,
    desk: &mut Desk<'_>,
    actor: Standing,
    message: &Message,
) -> Result<(), NoMemory>
    requires runner { IsRunner (R.meaning runner.now) }
    requires fresh { desk.old.desk.theatre.next_anon ≤ 18446744073709550591 }
    requires few { has_few_nodes desk.old.desk.theatre.plan ≡ true }
    ensures { OnOk result (desk.new ≡ on_desk (handling.handle_understood (R.meaning runner.now) message.now actor) desk.old) }
{
    match outcome_of(alloc, runner, desk, &actor, message)? {
        None => Ok(()),
        Some(Outcome::Trap(trap)) => fail(alloc, desk, message, FaultKind::Trap(trap)),
        Some(Outcome::Done(effects)) => take_done(alloc, runner, desk, actor, message, effects),
    }
}

/// The message is handled by the actor.
#[tactic(auto, unfolding(sal_routing::specs::Handling::handle))]
pub fn handle<R: Runner>(
    alloc: Global,
    runner: &R,
    desk: &mut Desk<'_>,
    actor: Standing,
    message: &Message,
) -> Result<(), NoMemory>
    requires runner { IsRunner (R.meaning runner.now) }
    requires fresh { desk.old.desk.theatre.next_anon ≤ 18446744073709550591 }
    requires few { has_few_nodes desk.old.desk.theatre.plan ≡ true }
    ensures { OnOk result (desk.new ≡ on_desk (handling.handle (R.meaning runner.now) message.now actor) desk.old) }
{
    if !understands(&actor, message) {
        return fail(alloc, desk, message, FaultKind::NoHandler);
    }
    handle_understood(alloc, runner, desk, actor, message)
}

// ---- prints

fn null_to(alloc: Global, reply: &Reply) -> Result<List<(Reply, Value)>, NoMemory>
    ensures { IfOk result (λ given. given ≡ (reply.now, Null) ∷ []) }
{
    let mut given = List::new(alloc);
    given.push((reply.clone_in(alloc)?, Value::Null))?;
    Ok(given)
}

/// The text is told, and null is its reply.
#[tactic(auto, unfolding(sal_routing::specs::Handling::print_message))]
pub fn print_message<R: Runner>(
    alloc: Global,
    runner: &R,
    desk: &mut Desk<'_>,
    message: &Message,
) -> Result<(), NoMemory>
    requires { has_few_nodes desk.old.desk.theatre.plan ≡ true }
    ensures { OnOk result (desk.new ≡ on_desk (handling.print_message (R.meaning runner.now) message.now) desk.old) }
{
    desk.log(Step::Print {
        maker: message.maker.clone_in(alloc)?,
        serial: message.serial,
    })?;
    desk.print(message_text(alloc, message)?)?;
    desk.tell_given(null_to(alloc, &message.reply)?)?;
    desk.push_work(Item::Answer(0, message.reply.clone_in(alloc)?, Value::Null))?;
    route(alloc, runner, desk)
}
