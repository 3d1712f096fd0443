//! To whom a reply is owed.

ghost use Rattle.std.specs.Prelude.{◌≡◌};
ghost use Rattle.sal_handler.specs.Evaluation.{Gives};
ghost use Rattle.sal_handler.specs.Messages as spec;
ghost use Rattle.sal_state.specs.Contexts.{context_of};

use sal_handler::{End, State, Stop};
use sal_mail::Reply;
use sal_state::{ActorSupply, Context, take_slot};
use sal_value::CloneIn;
use std::alloc::Global;

/// The next slot of the innermost join; outside of joins, nobody.
fn slot_reply<A: ActorSupply>(
    alloc: Global,
    context: &Context<'_, A>,
    state: &mut State,
) -> Result<Reply, Stop>
    ensures { Gives (spec.slot_reply context.now.within.now (context_of (A.supply context.now.actors.now) context.now) state.old) result state.new }
{
    match context.within {
        [] => Ok(Reply::Nobody),
        [innermost, ..] => {
            let slot = take_slot(state)?;
            let me = context.me.clone_in(alloc)?;
            Ok(Reply::Place(me, innermost.join, slot))
        }
    }
}

/// To whom the stage with this number owes its reply.
pub fn reply_of_stage<A: ActorSupply>(
    alloc: Global,
    context: &Context<'_, A>,
    state: &mut State,
    end: End,
    number: u64,
) -> Result<Reply, Stop>
    ensures { Gives (spec.reply_of_stage end (context_of (A.supply context.now.actors.now) context.now) number state.old) result state.new }
{
    match end {
        End::Nobody => Ok(Reply::Nobody),
        End::Token => Ok(Reply::Tok(context.me.clone_in(alloc)?, number)),
        End::Place => slot_reply(alloc, context, state),
        End::Caller => Ok(context.reply.clone_in(alloc)?),
    }
}
