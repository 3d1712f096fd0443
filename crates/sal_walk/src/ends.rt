//! How chains end, and joins begin.

ghost use Rattle.std.specs.Prelude.{◌≡◌, IfOk};
ghost use Rattle.sal_ast.specs.Sorts as sorts;
ghost use Rattle.sal_handler.specs.Evaluation.{Gives};
ghost use Rattle.sal_handler.specs.Scopes.{scope_of};
ghost use Rattle.sal_handler.specs.Statements as spec;
ghost use Rattle.sal_state.specs.Contexts.{context_of};
ghost use Rattle.sal_walk.specs.code.Ends.{stage_end};

use sal_ast::Stmt;
use sal_handler::{EnclosingJoin, End, State, Stop};
use sal_infer::is_void_join;
use sal_state::{ActorSupply, Context, declare_token, take_limited_serial};
use sal_value::NoMemory;
use std::alloc::Global;

/// To whom the last stage of a plain chain owes its reply.
pub fn plain_end(within: &[EnclosingJoin]) -> End
    ensures { result ≡ spec.plain_end within.now }
{
    match within {
        [] => End::Nobody,
        [_, ..] => End::Place,
    }
}

/// To whom a stage owes its reply, where so many stages come after it.
pub fn stage_end(left: usize, end: End) -> End
    ensures { result ≡ stage_end left end }
{
    if left == 0 { end } else { End::Token }
}

/// The token of this name stands for the reply of its chain's last stage.
pub fn declare_reply(
    alloc: Global,
    state: &mut State,
    name: &str,
    number: Option<u64>,
) -> Result<(), Stop>
    ensures { Gives (spec.declare_reply name.now number state.old) result state.new }
{
    match number {
        Some(number) => declare_token(alloc, state, name, number),
        None => Ok(()),
    }
}

/// The serial of one more join.
pub fn take_join_serial(state: &mut State) -> Result<u64, Stop>
    ensures { Gives (spec.take_join_serial state.old) result state.new }
{
    let count = state.joins.len();
    take_limited_serial(state, count)
}

/// Whether the join with this block is void.
pub fn is_void<A: ActorSupply>(
    alloc: Global,
    context: &Context<'_, A>,
    state: &State,
    body: &[Stmt],
) -> Result<bool, NoMemory>
    ensures { IfOk result (λ void. void ≡ sorts.is_void_join body.now (scope_of (context_of (A.supply context.now.actors.now) context.now) state.now)) }
{
    let locals = state.locals.as_slice();
    is_void_join(alloc, context.behaviors, context.mine, locals, body)
}
