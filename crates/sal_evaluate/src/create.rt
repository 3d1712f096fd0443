//! New actors.

ghost use Rattle.sal_handler.specs.Evaluation.{Gives};
ghost use Rattle.sal_handler.specs.Expressions as spec;
ghost use Rattle.sal_state.specs.Contexts.{context_of};
ghost use Rattle.sal_state.specs.Supplies.{field_maker};

use sal_handler::{State, Stop};
use sal_operators::{locator_of, universal_name_of};
use sal_state::{ActorSupply, Context, add_actor, add_creation, room_for_actor, take_serial};
use sal_value::{Ual, Value, Values};
use std::alloc::Global;

fn create<A: ActorSupply>(
    alloc: Global,
    context: &Context<'_, A>,
    state: &mut State,
    behavior: u16,
    args: Values,
) -> Result<Value, Stop>
    ensures { Gives (spec.create (A.supply context.now.actors.now).fields behavior args (context_of (A.supply context.now.actors.now) context.now) state.old) result state.new }
{
    room_for_actor(state)?;
    let fields = context.actors.fields(alloc, behavior, args)?;
    add_actor(alloc, context, state, behavior, fields)
}

/// `new` without `at`.
pub fn create_by<A: ActorSupply>(
    alloc: Global,
    context: &Context<'_, A>,
    state: &mut State,
    behavior: Option<u16>,
    args: Values,
) -> Result<Value, Stop>
    ensures { Gives (spec.create_by (field_maker (A.supply context.now.actors.now)) behavior args (context_of (A.supply context.now.actors.now) context.now) state.old) result state.new }
{
    if !context.actors.can_make() {
        return Ok(Value::Null);
    }
    match behavior {
        Some(behavior) => create(alloc, context, state, behavior, args),
        None => Ok(Value::Null),
    }
}

fn locator_from(alloc: Global, text: &Option<Value>, state: &State) -> Result<Option<Ual>, Stop>
    ensures { Gives (spec.locator_from text.now state.now) result state.now }
{
    match text {
        Some(text) => Ok(Some(locator_of(alloc, text)?)),
        None => Ok(None),
    }
}

fn create_at<A: ActorSupply>(
    alloc: Global,
    context: &Context<'_, A>,
    state: &mut State,
    behavior: u16,
    args: Values,
    uan: &Value,
    ual: &Option<Value>,
) -> Result<Value, Stop>
    ensures { Gives (spec.create_at (A.supply context.now.actors.now).fields behavior args uan.now ual.now state.old) result state.new }
{
    room_for_actor(state)?;
    let name = universal_name_of(alloc, uan)?;
    let place = locator_from(alloc, ual, state)?;
    let fields = context.actors.fields(alloc, behavior, args)?;
    let serial = take_serial(state)?;
    add_creation(alloc, state, behavior, name, place, fields, serial)
}

/// `new .. at`
pub fn create_at_by<A: ActorSupply>(
    alloc: Global,
    context: &Context<'_, A>,
    state: &mut State,
    behavior: Option<u16>,
    args: Values,
    uan: &Value,
    ual: &Option<Value>,
) -> Result<Value, Stop>
    ensures { Gives (spec.create_at_by (field_maker (A.supply context.now.actors.now)) behavior args uan.now ual.now state.old) result state.new }
{
    if !context.actors.can_make() {
        return Ok(Value::Null);
    }
    match behavior {
        Some(behavior) => create_at(alloc, context, state, behavior, args, uan, ual),
        None => Ok(Value::Null),
    }
}
