//! One handler as a whole.

ghost use Rattle.std.specs.Prelude.{◌≡◌, ◌≢◌, ◌≤◌, ◌+◌, Ok, Some, length, slice_get, option_map, IfOk};
ghost use Rattle.sal_ast.specs.Members.{handlers_of};
ghost use Rattle.sal_handler.specs.Calls.{call};
ghost use Rattle.sal_handler.specs.Evaluation.{Yields};
ghost use Rattle.sal_handler.specs.Handler as spec;
ghost use Rattle.sal_walk.specs.code.HandlerTrees.{handler_in};
ghost use Rattle.sal_walk.specs.Naming.{call_with};

use crate::handler_tree::HandlerTree;
use crate::members::handler_at;
use crate::start::{initial_state, parameters};
use crate::statements::exec_block;
use crate::supply::{FreshNames, ProgramActors, TheatreNames};
use sal_ast::{Behavior, Program};
use sal_handler::{Flow, LAST_SERIAL, Outcome, State, Stop, Turn};
use sal_mail::{Answer, Effects, MIGRATE, Trap};
use sal_operators::locator_of;
use sal_state::Context;
use sal_value::{List, NoMemory, Value};
use std::alloc::Global;

/// The value of `return`, null without one, or none where the reply was passed on.
fn answer_of_flow(flow: Flow) -> Answer
    ensures { result ≡ spec.answer_of_flow flow }
{
    match flow {
        Flow::Next => Answer::Value(Value::Null),
        Flow::Returned(value) => Answer::Value(value),
        Flow::Passed => Answer::Passed,
    }
}

/// What a handler leaves that ended so in this state.
fn effects_of(flow: Flow, state: State, fresh: u64) -> Effects
    requires { fresh + length state.actors ≤ 18446744073709551615 }
    ensures { result ≡ spec.effects_of flow state fresh }
{
    let State {
        fields,
        serial,
        messages,
        joins,
        actors,
        creations,
        ..
    } = state;
    let fresh = fresh + actors.len() as u64;
    Effects {
        fields,
        answer: answer_of_flow(flow),
        messages,
        joins,
        actors,
        creations,
        serial,
        fresh,
    }
}

/// What changes nothing and answers null.
fn no_effects(alloc: Global, turn: &Turn<'_>) -> Result<Effects, Stop>
    ensures { Yields (Ok (spec.no_effects (call turn.now))) result }
{
    Ok(Effects {
        fields: turn.fields.clone_in(alloc)?,
        answer: Answer::Value(Value::Null),
        messages: List::new(alloc),
        joins: List::new(alloc),
        actors: List::new(alloc),
        creations: List::new(alloc),
        serial: turn.serial,
        fresh: turn.fresh,
    })
}

/// The effects of this handler of the program, whose parameters hold the arguments.
fn run_handler<N: FreshNames>(
    alloc: Global,
    program: &Program,
    turn: &Turn<'_>,
    names: &N,
    behavior: &Behavior,
    handler: HandlerTree<'_>,
) -> Result<Effects, Stop>
    requires room { turn.now.fresh ≤ 18446744073709550591 }
    requires numbers { turn.now.serial ≤ LAST_SERIAL }
    requires plain { turn.now.handler ≢ MIGRATE }
    requires behavior { slice_get program.now.behaviors turn.now.behavior ≡ Some behavior.now }
    requires handler { slice_get (handlers_of behavior.now) turn.now.handler ≡ Some (handler_in handler) }
    ensures { Yields (spec.run_handler (Some (handler_in handler.entry)) program.now (call_with (N.names names.now) turn.now)) result }
{
    let behaviors = program.behaviors.as_slice();
    let fields = turn.fields.clone_in(alloc)?;
    let locals = parameters(alloc, behaviors, handler.params, turn.args.as_slice())?;
    let mut state = initial_state(alloc, locals, fields, turn.serial);
    let context = Context {
        me: turn.me,
        reply: turn.reply,
        behaviors,
        mine: turn.behavior,
        within: &[],
        actors: &ProgramActors { behaviors, names },
    };
    let flow = exec_block(alloc, &context, &mut state, handler.body)?;
    Ok(effects_of(flow, state, turn.fresh))
}

/// A handler that the behaviour doesn't have changes nothing.
fn run_in_behavior<N: FreshNames>(
    alloc: Global,
    program: &Program,
    turn: &Turn<'_>,
    names: &N,
    behavior: &Behavior,
) -> Result<Effects, Stop>
    requires room { turn.now.fresh ≤ 18446744073709550591 }
    requires numbers { turn.now.serial ≤ LAST_SERIAL }
    requires plain { turn.now.handler ≢ MIGRATE }
    requires behavior { slice_get program.now.behaviors turn.now.behavior ≡ Some behavior.now }
    ensures { Yields (spec.run_in_behavior (Some behavior.now) program.now (call_with (N.names names.now) turn.now)) result }
{
    match handler_at(behavior, turn.handler) {
        Some(handler) => run_handler(alloc, program, turn, names, behavior, handler),
        None => no_effects(alloc, turn),
    }
}

/// `migrate` traps on a text that is no locator.
#[tactic(auto, using(crate::proofs::Handling::migrate_is), unfolding(sal_handler::specs::Values::text_of))]
fn run_migrate(alloc: Global, turn: &Turn<'_>) -> Result<Effects, Stop>
    ensures { Yields (spec.run_migrate (call turn.now)) result }
{
    match turn.args.as_slice() {
        [value, ..] => locator_of(alloc, value)?,
        [] => locator_of(alloc, &Value::Null)?,
    };
    no_effects(alloc, turn)
}

/// A behaviour that the program doesn't have changes nothing.
fn run_called<N: FreshNames>(
    alloc: Global,
    program: &Program,
    turn: &Turn<'_>,
    names: &N,
) -> Result<Effects, Stop>
    requires room { turn.now.fresh ≤ 18446744073709550591 }
    requires numbers { turn.now.serial ≤ LAST_SERIAL }
    ensures { Yields (spec.run_called program.now (call_with (N.names names.now) turn.now)) result }
{
    if turn.handler == MIGRATE {
        return run_migrate(alloc, turn);
    }
    match program.behaviors.get(turn.behavior as usize) {
        Some(behavior) => run_in_behavior(alloc, program, turn, names, behavior),
        None => no_effects(alloc, turn),
    }
}

/// It traps where fewer than 4,096 numbers are left.
fn run_if_numbers_left<N: FreshNames>(
    alloc: Global,
    program: &Program,
    turn: &Turn<'_>,
    names: &N,
) -> Result<Effects, Stop>
    requires { turn.now.fresh ≤ 18446744073709550591 }
    ensures { Yields (spec.run_if_numbers_left program.now (call_with (N.names names.now) turn.now)) result }
{
    if turn.serial > LAST_SERIAL {
        return Err(Stop::Trap(Trap::TooManyMessages));
    }
    run_called(alloc, program, turn, names)
}

/// What one handler of the program does where its new actors take these names: its effects, or the trap
/// that undoes it.
#[tactic(auto, unfolding(sal_handler::specs::Handler::handle))]
pub fn handle_with<N: FreshNames>(
    alloc: Global,
    program: &Program,
    turn: &Turn<'_>,
    names: &N,
) -> Result<Outcome, NoMemory>
    requires { turn.now.fresh ≤ 18446744073709550591 }
    ensures { IfOk result (λ outcome. outcome ≡ spec.handle program.now (call_with (N.names names.now) turn.now)) }
{
    match run_if_numbers_left(alloc, program, turn, names) {
        Ok(effects) => Ok(Outcome::Done(effects)),
        Err(Stop::Trap(trap)) => Ok(Outcome::Trap(trap)),
        Err(Stop::NoMemory) => Err(NoMemory),
    }
}

/// What one handler of the program does: its effects, or the trap that undoes it. Its new actors take the
/// names of the turn's theatre.
pub fn handle(alloc: Global, program: &Program, turn: &Turn<'_>) -> Result<Outcome, NoMemory>
    requires { turn.now.fresh ≤ 18446744073709550591 }
    ensures { IfOk result (λ outcome. outcome ≡ spec.handle program.now (call turn.now)) }
{
    let names = TheatreNames {
        place: turn.place,
        fresh: turn.fresh,
    };
    handle_with(alloc, program, turn, &names)
}
