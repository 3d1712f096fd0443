//! What a statement does.

ghost use Rattle.std.specs.Prelude.{◌≡◌, map, None};
ghost use Rattle.sal_handler.specs.Evaluation.{Gives};
ghost use Rattle.sal_handler.specs.Scopes.{in_new_scope};
ghost use Rattle.sal_handler.specs.Statements as spec;
ghost use Rattle.sal_state.specs.Contexts.{context_of};

use crate::actions::{
    eval_for_test, eval_test, exec_assign, exec_declare, exec_for_init, exec_for_next,
    initial_value,
};
use crate::ends::{declare_reply, is_void, plain_end, stage_end, take_join_serial};
use sal_ast::{Assign, Expr, ForInit, Stage, Stmt};
use sal_handler::{End, Flow, State, Stop};
use sal_mail::{Reply, Trap};
use sal_send::{MessageStage, message, reply_of_stage};
use sal_state::{
    ActorSupply, Context, begin_turn, close_join, keep_locals, open_join, within_join,
};
use sal_value::{CloneIn, Value};
use std::alloc::Global;

/// The most tests of a loop: one more than the turns of a handler.
const LOOP_BOUND: u32 = 100_001;

/// What a statement does.
#[cycle(exec)]
#[tactic(auto, using(crate::proofs::Equations::executions))]
pub fn exec<A: ActorSupply>(
    alloc: Global,
    context: &Context<'_, A>,
    state: &mut State,
    stmt: &Stmt,
) -> Result<Flow, Stop>
    ensures { Gives (spec.exec stmt.now (context_of (A.supply context.now.actors.now) context.now) state.old) result state.new }
{
    match stmt {
        Stmt::Empty(_) => Ok(Flow::Next),
        Stmt::Block(_, list) => exec_block(alloc, context, state, list.as_slice()),
        Stmt::Declare(d) => {
            exec_declare(alloc, context, state, d)?;
            Ok(Flow::Next)
        }
        Stmt::Assign(a) => {
            exec_assign(alloc, context, state, a)?;
            Ok(Flow::Next)
        }
        Stmt::If { test, yes, no, .. } => {
            if eval_test(alloc, context, state, test)? {
                return exec_in_scope(alloc, context, state, yes.get());
            }
            match no {
                Some(no) => exec_in_scope(alloc, context, state, no.get()),
                None => Ok(Flow::Next),
            }
        }
        Stmt::While { test, body, .. } => while_loop(alloc, context, state, body.get(), test),
        Stmt::For {
            init,
            test,
            next,
            body,
            ..
        } => for_loop(alloc, context, state, body.get(), init, test, next),
        Stmt::Return { value, .. } => {
            let value = initial_value(alloc, context, state, value, Value::Null)?;
            Ok(Flow::Returned(value))
        }
        Stmt::Token { name, chain: c, .. } => {
            let number = chain(alloc, context, state, c.stages.as_slice(), End::Token)?;
            declare_reply(alloc, state, name.text.as_str(), number)?;
            Ok(Flow::Next)
        }
        Stmt::Chain { chain: c, passed } => match passed {
            None => {
                let end = plain_end(context.within);
                chain(alloc, context, state, c.stages.as_slice(), end)?;
                Ok(Flow::Next)
            }
            Some(_) => match context.within {
                [] => {
                    chain(alloc, context, state, c.stages.as_slice(), End::Caller)?;
                    Ok(Flow::Passed)
                }
                [_, ..] => {
                    chain(alloc, context, state, c.stages.as_slice(), End::Place)?;
                    Ok(Flow::Next)
                }
            },
        },
    }
}

/// What the statement declares is out of scope after it.
#[cycle(exec)]
#[tactic(auto, using(crate::proofs::Equations::executions))]
fn exec_in_scope<A: ActorSupply>(
    alloc: Global,
    context: &Context<'_, A>,
    state: &mut State,
    stmt: &Stmt,
) -> Result<Flow, Stop>
    ensures { Gives (in_new_scope (spec.exec stmt.now (context_of (A.supply context.now.actors.now) context.now)) state.old) result state.new }
{
    let count = state.locals.len();
    let flow = exec(alloc, context, state, stmt)?;
    keep_locals(state, count);
    Ok(flow)
}

/// A block: what its statements declare is out of scope after it.
#[cycle(exec)]
#[tactic(auto, using(crate::proofs::Equations::executions))]
pub fn exec_block<A: ActorSupply>(
    alloc: Global,
    context: &Context<'_, A>,
    state: &mut State,
    body: &[Stmt],
) -> Result<Flow, Stop>
    ensures { Gives (spec.exec_block body.now (context_of (A.supply context.now.actors.now) context.now) state.old) result state.new }
{
    let count = state.locals.len();
    let flow = sequence(alloc, context, state, body)?;
    keep_locals(state, count);
    Ok(flow)
}

/// One statement after another, until one of them ends the handler.
#[cycle(exec)]
#[tactic(auto, using(crate::proofs::Equations::executions))]
fn sequence<A: ActorSupply>(
    alloc: Global,
    context: &Context<'_, A>,
    state: &mut State,
    body: &[Stmt],
) -> Result<Flow, Stop>
    ensures { Gives (spec.sequence (map spec.exec body.now) (context_of (A.supply context.now.actors.now) context.now) state.old) result state.new }
{
    for stmt in body {
        match exec(alloc, context, state, stmt)? {
            Flow::Next => continue,
            flow => return Ok(flow),
        }
    }
    Ok(Flow::Next)
}

/// A `while`: what its body declares is out of scope after each turn.
#[cycle(exec)]
#[tactic(auto, using(crate::proofs::Equations::executions))]
fn while_loop<A: ActorSupply>(
    alloc: Global,
    context: &Context<'_, A>,
    state: &mut State,
    body: &Stmt,
    test: &Expr,
) -> Result<Flow, Stop>
    ensures { Gives (spec.while_loop (spec.eval_test test.now (context_of (A.supply context.now.actors.now) context.now)) (spec.exec body.now (context_of (A.supply context.now.actors.now) context.now)) state.old) result state.new }
{
    for _turn in 0..LOOP_BOUND {
        if !eval_test(alloc, context, state, test)? {
            return Ok(Flow::Next);
        }
        begin_turn(state)?;
        match exec_in_scope(alloc, context, state, body)? {
            Flow::Next => continue,
            flow => return Ok(flow),
        }
    }
    Err(Stop::Trap(Trap::TooManyTurns))
}

/// The body of a `for`, and then its last part.
#[cycle(exec)]
#[tactic(auto, using(crate::proofs::Equations::executions))]
fn for_turn<A: ActorSupply>(
    alloc: Global,
    context: &Context<'_, A>,
    state: &mut State,
    body: &Stmt,
    next: &Option<Assign>,
) -> Result<Flow, Stop>
    ensures { Gives (spec.for_turn (spec.exec body.now (context_of (A.supply context.now.actors.now) context.now)) (spec.exec_for_next next.now (context_of (A.supply context.now.actors.now) context.now)) state.old) result state.new }
{
    match exec_in_scope(alloc, context, state, body)? {
        Flow::Next => {
            exec_for_next(alloc, context, state, next)?;
            Ok(Flow::Next)
        }
        flow => Ok(flow),
    }
}

/// The turns of a `for`, as long as the test is true.
#[cycle(exec)]
#[tactic(auto, using(crate::proofs::Equations::executions))]
fn for_turns<A: ActorSupply>(
    alloc: Global,
    context: &Context<'_, A>,
    state: &mut State,
    body: &Stmt,
    test: &Option<Expr>,
    next: &Option<Assign>,
) -> Result<Flow, Stop>
    ensures { Gives (spec.bounded_loop spec.loop_bound (spec.eval_for_test test.now (context_of (A.supply context.now.actors.now) context.now)) (spec.for_turn (spec.exec body.now (context_of (A.supply context.now.actors.now) context.now)) (spec.exec_for_next next.now (context_of (A.supply context.now.actors.now) context.now))) state.old) result state.new }
{
    for _turn in 0..LOOP_BOUND {
        if !eval_for_test(alloc, context, state, test)? {
            return Ok(Flow::Next);
        }
        begin_turn(state)?;
        match for_turn(alloc, context, state, body, next)? {
            Flow::Next => continue,
            flow => return Ok(flow),
        }
    }
    Err(Stop::Trap(Trap::TooManyTurns))
}

/// The first part of a `for`, and then its turns.
#[cycle(exec)]
#[tactic(auto, unfolding(sal_handler::specs::Statements::for_loop_in_scope))]
fn for_loop_in_scope<A: ActorSupply>(
    alloc: Global,
    context: &Context<'_, A>,
    state: &mut State,
    body: &Stmt,
    init: &ForInit,
    test: &Option<Expr>,
    next: &Option<Assign>,
) -> Result<Flow, Stop>
    ensures { Gives (spec.for_loop_in_scope (spec.exec_for_init init.now (context_of (A.supply context.now.actors.now) context.now)) (spec.eval_for_test test.now (context_of (A.supply context.now.actors.now) context.now)) (spec.exec_for_next next.now (context_of (A.supply context.now.actors.now) context.now)) (spec.exec body.now (context_of (A.supply context.now.actors.now) context.now)) state.old) result state.new }
{
    exec_for_init(alloc, context, state, init)?;
    for_turns(alloc, context, state, body, test, next)
}

/// What the parentheses of a `for` declare is out of scope after it.
#[cycle(exec)]
#[tactic(auto, unfolding(sal_handler::specs::Statements::for_loop))]
fn for_loop<A: ActorSupply>(
    alloc: Global,
    context: &Context<'_, A>,
    state: &mut State,
    body: &Stmt,
    init: &ForInit,
    test: &Option<Expr>,
    next: &Option<Assign>,
) -> Result<Flow, Stop>
    ensures { Gives (spec.for_loop (spec.exec_for_init init.now (context_of (A.supply context.now.actors.now) context.now)) (spec.eval_for_test test.now (context_of (A.supply context.now.actors.now) context.now)) (spec.exec_for_next next.now (context_of (A.supply context.now.actors.now) context.now)) (spec.exec body.now (context_of (A.supply context.now.actors.now) context.now)) state.old) result state.new }
{
    let count = state.locals.len();
    let flow = for_loop_in_scope(alloc, context, state, body, init, test, next)?;
    keep_locals(state, count);
    Ok(flow)
}

/// The stages of a chain, in the order of the text; gives the serial of the last one.
#[cycle(exec)]
#[tactic(auto, using(crate::proofs::Equations::executions))]
fn chain<A: ActorSupply>(
    alloc: Global,
    context: &Context<'_, A>,
    state: &mut State,
    stages: &[Stage],
    end: End,
) -> Result<Option<u64>, Stop>
    ensures { Gives (spec.chain (map spec.exec_stage stages.now) (context_of (A.supply context.now.actors.now) context.now) None end state.old) result state.new }
{
    let mut before = None;
    let mut left = stages.len();
    for stage in stages {
        left -= 1;
        let end = stage_end(left, end);
        before = Some(exec_stage(alloc, context, state, stage, before, end)?);
    }
    Ok(before)
}

/// A stage after the one with the serial `before`; gives its own serial.
#[cycle(exec)]
#[tactic(auto, using(crate::proofs::Equations::executions))]
fn exec_stage<A: ActorSupply>(
    alloc: Global,
    context: &Context<'_, A>,
    state: &mut State,
    stage: &Stage,
    before: Option<u64>,
    end: End,
) -> Result<u64, Stop>
    ensures { Gives (spec.exec_stage stage.now (context_of (A.supply context.now.actors.now) context.now) before end state.old) result state.new }
{
    match stage {
        Stage::Message(send) => {
            let stage = MessageStage { send, before, end };
            message(alloc, context, state, &stage)
        }
        Stage::Join { body, .. } => {
            let void = is_void(alloc, context, state, body.as_slice())?;
            let number = take_join_serial(state)?;
            let reply = reply_of_stage(alloc, context, state, end, number)?;
            exec_join(
                alloc,
                context,
                state,
                body.as_slice(),
                void,
                before,
                number,
                reply,
            )
        }
    }
}

/// The join with this number: it is opened, its block is executed, and it is closed.
#[cycle(exec)]
#[tactic(auto, using(crate::proofs::Equations::executions))]
fn exec_join<A: ActorSupply>(
    alloc: Global,
    context: &Context<'_, A>,
    state: &mut State,
    body: &[Stmt],
    void: bool,
    before: Option<u64>,
    number: u64,
    reply: Reply,
) -> Result<u64, Stop>
    ensures { Gives (spec.exec_join void (spec.exec_block body.now) (context_of (A.supply context.now.actors.now) context.now) before number reply state.old) result state.new }
{
    let at = state.joins.len();
    let places = state.places;
    let within = within_join(alloc, number, before, context.within)?;
    open_join(alloc, state, number, void, reply.clone_in(alloc)?)?;
    let inner = Context {
        me: context.me,
        reply: context.reply,
        behaviors: context.behaviors,
        mine: context.mine,
        within: within.as_slice(),
        actors: context.actors,
    };
    exec_block(alloc, &inner, state, body)?;
    close_join(alloc, state, at, number, void, reply, places)?;
    Ok(number)
}
