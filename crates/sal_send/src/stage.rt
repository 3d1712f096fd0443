//! A message stage.

ghost use Rattle.std.specs.Prelude.{Ok};
ghost use Rattle.sal_handler.specs.Evaluation.{Gives, Yields};
ghost use Rattle.sal_handler.specs.Messages as spec;
ghost use Rattle.sal_state.specs.Contexts.{context_of};

use crate::after::after_of;
use crate::arguments::eval_args;
use crate::handler::handler_id_of;
use crate::reply::reply_of_stage;
use crate::target::{delay_of, eval_aim, eval_delay, target_of};
use sal_ast::Send;
use sal_handler::{End, State, Stop};
use sal_mail::{Message, Piece, Reply, Target, Trap};
use sal_state::{ActorSupply, Context, take_limited_serial};
use sal_value::List;
use std::alloc::Global;

/// A message stage in its place: the serial of the stage before it, if there is one, and to whom
/// its reply is owed.
#[derive(Drop)]
pub struct MessageStage<'a> {
    pub send: &'a Send,
    pub before: Option<u64>,
    pub end: End,
}

/// What a message carries.
#[derive(Drop)]
struct Contents {
    target: Target,
    args: List<Piece>,
    delay: u32,
}

/// The serial of one more message.
fn take_message_serial(state: &mut State) -> Result<u64, Stop>
    ensures { Gives (spec.take_message_serial state.old) result state.new }
{
    let count = state.messages.len();
    take_limited_serial(state, count)
}

/// The message of a stage.
fn message_with<A: ActorSupply>(
    alloc: Global,
    context: &Context<'_, A>,
    state: &State,
    stage: &MessageStage<'_>,
    contents: Contents,
    serial: u64,
    reply: Reply,
) -> Result<Message, Stop>
    ensures { Yields (Ok (spec.message_with stage.now.send.now (context_of (A.supply context.now.actors.now) context.now) stage.now.before contents.target contents.args contents.delay serial reply state.now)) result }
{
    let id = handler_id_of(alloc, context, state, stage.send);
    let properties = stage.send.properties.as_slice();
    let after = after_of(alloc, properties, stage.before, context.within, state)?;
    Ok(Message {
        maker: context.me.clone_in(alloc)?,
        serial,
        target: contents.target,
        behavior: id.behavior,
        handler: id.handler,
        args: contents.args,
        after,
        delay: contents.delay,
        reply,
    })
}

/// The message is the newest of those that the handler sends.
fn send_message<A: ActorSupply>(
    alloc: Global,
    context: &Context<'_, A>,
    state: &mut State,
    stage: &MessageStage<'_>,
    contents: Contents,
    serial: u64,
    reply: Reply,
) -> Result<u64, Stop>
    ensures { Gives (spec.send_message stage.now.send.now (context_of (A.supply context.now.actors.now) context.now) stage.now.before contents.target contents.args contents.delay serial reply state.old) result state.new }
{
    let message = message_with(alloc, context, state, stage, contents, serial, reply)?;
    state.messages.push(message)?;
    Ok(serial)
}

/// Null targets, bad delays and too many messages are tested in this order.
fn send_if_valid<A: ActorSupply>(
    alloc: Global,
    context: &Context<'_, A>,
    state: &mut State,
    stage: &MessageStage<'_>,
    target: Option<Target>,
    args: List<Piece>,
    delay: Option<u32>,
) -> Result<u64, Stop>
    ensures { Gives (spec.send_if_valid stage.now.send.now (context_of (A.supply context.now.actors.now) context.now) stage.now.before stage.now.end target args delay state.old) result state.new }
{
    let Some(target) = target else {
        return Err(Stop::Trap(Trap::NullTarget));
    };
    let Some(delay) = delay else {
        return Err(Stop::Trap(Trap::BadDelay));
    };
    let contents = Contents {
        target,
        args,
        delay,
    };
    let serial = take_message_serial(state)?;
    let reply = reply_of_stage(alloc, context, state, stage.end, serial)?;
    send_message(alloc, context, state, stage, contents, serial, reply)
}

/// A message stage evaluates its target, its arguments and its delay, and is sent. It gives its
/// serial.
#[tactic(auto, unfolding(sal_handler::specs::Messages::message))]
pub fn message<A: ActorSupply>(
    alloc: Global,
    context: &Context<'_, A>,
    state: &mut State,
    stage: &MessageStage<'_>,
) -> Result<u64, Stop>
    ensures { Gives (spec.message stage.now.send.now (context_of (A.supply context.now.actors.now) context.now) stage.now.before stage.now.end state.old) result state.new }
{
    let send = stage.send;
    let aim = eval_aim(alloc, context, state, &send.aim)?;
    let args = eval_args(alloc, context, state, stage.before, send.args.as_slice())?;
    let delay = eval_delay(alloc, context, state, send.properties.as_slice())?;
    let target = target_of(aim);
    send_if_valid(alloc, context, state, stage, target, args, delay_of(delay))
}
