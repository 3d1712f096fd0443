//! Target and delay.

ghost use Rattle.std.specs.Prelude.{◌≡◌, None};
ghost use Rattle.sal_handler.specs.Evaluation.{Gives};
ghost use Rattle.sal_handler.specs.Messages as spec;
ghost use Rattle.sal_state.specs.Contexts.{context_of};

use sal_ast::{Aim, Property};
use sal_evaluate::evaluate;
use sal_handler::{LONGEST_DELAY, State, Stop};
use sal_mail::Target;
use sal_state::{ActorSupply, Context};
use sal_value::Value;
use std::alloc::Global;

/// The value of the target; none stands for the output.
pub fn eval_aim<A: ActorSupply>(
    alloc: Global,
    context: &Context<'_, A>,
    state: &mut State,
    aim: &Aim,
) -> Result<Option<Value>, Stop>
    ensures { Gives (spec.eval_aim aim.now (context_of (A.supply context.now.actors.now) context.now) state.old) result state.new }
{
    match aim {
        Aim::Own => Ok(Some(Value::Ref(context.me.clone_in(alloc)?))),
        Aim::Output(_) => Ok(None),
        Aim::Actor(e) => Ok(Some(evaluate(alloc, context, state, e)?)),
    }
}

/// The actor that the value refers to, if it is a reference; without a value, the output.
pub fn target_of(value: Option<Value>) -> Option<Target>
    ensures { result ≡ spec.target_of value }
{
    match value {
        None => Some(Target::Output),
        Some(Value::Ref(name)) => Some(Target::Actor(name)),
        Some(_) => None,
    }
}

/// The value of the last `delay`, if there is one.
pub fn eval_delay<A: ActorSupply>(
    alloc: Global,
    context: &Context<'_, A>,
    state: &mut State,
    properties: &[Property],
) -> Result<Option<Value>, Stop>
    ensures { Gives (spec.eval_delay properties.now None (context_of (A.supply context.now.actors.now) context.now) state.old) result state.new }
{
    let mut last = None;
    for property in properties {
        let Property::Delay { time, .. } = property else {
            continue;
        };
        last = Some(evaluate(alloc, context, state, time)?);
    }
    Ok(last)
}

/// A delay of at most a day; without a value, none.
pub fn delay_of(value: Option<Value>) -> Option<u32>
    ensures { result ≡ spec.delay_of value }
{
    match value {
        None => Some(0),
        Some(Value::Int(time)) if time >= 0 && time as u32 <= LONGEST_DELAY => Some(time as u32),
        Some(_) => None,
    }
}
