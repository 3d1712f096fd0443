//! To which handler a message goes.

ghost use Rattle.std.specs.Prelude.{◌≡◌};
ghost use Rattle.sal_handler.specs.Messages as spec;
ghost use Rattle.sal_state.specs.Contexts.{context_of};

use sal_ast::Send;
use sal_handler::State;
use sal_infer::{HandlerId, Scope};
use sal_state::{ActorSupply, Context};
use std::alloc::Global;

/// To which handler a message goes, by its name and the type of its target.
pub fn handler_id_of<A: ActorSupply>(
    alloc: Global,
    context: &Context<'_, A>,
    state: &State,
    send: &Send,
) -> HandlerId
    ensures { (result.behavior ≡ (spec.handler_id_of send.now (context_of (A.supply context.now.actors.now) context.now) state.now).behavior) × (result.handler ≡ (spec.handler_id_of send.now (context_of (A.supply context.now.actors.now) context.now) state.now).handler) }
{
    let locals = state.locals.as_slice();
    let scope = Scope::new(alloc, context.behaviors, context.mine, locals);
    HandlerId::of_message(&scope, send)
}
