//! New actors.

ghost use Rattle.std.specs.Prelude.{◌≡◌, ◌<◌, length, OnOk};
ghost use Rattle.sal_handler.specs.Evaluation.{Gives};
ghost use Rattle.sal_handler.specs.Expressions as spec;
ghost use Rattle.sal_state.specs.Contexts.{context_of};

use crate::context::Context;
use crate::supply::ActorSupply;
use sal_handler::{MOST_MADE, State, Stop};
use sal_mail::{Actor, Creation, Trap};
use sal_value::{Name, Ual, Uan, Value, Values};
use std::alloc::Global;

/// Whether the handler can make one more actor.
pub fn room_for_actor(state: &State) -> Result<(), Stop>
    ensures test { Gives (spec.room_for_actor state.now) result state.now }
    ensures room { OnOk result (length state.now.actors < MOST_MADE) }
{
    let actors = state.actors.len();
    if actors >= MOST_MADE || state.creations.len() >= MOST_MADE - actors {
        return Err(Stop::Trap(Trap::TooManyMessages));
    }
    Ok(())
}

/// A new actor, under the next of the names for new actors; gives the reference to it.
pub fn add_actor<A: ActorSupply>(
    alloc: Global,
    context: &Context<'_, A>,
    state: &mut State,
    behavior: u16,
    fields: Values,
) -> Result<Value, Stop>
    requires { length state.old.actors < MOST_MADE }
    ensures { Gives (spec.add_actor behavior (context_of (A.supply context.now.actors.now) context.now) fields state.old) result state.new }
{
    let at = state.actors.len();
    let name = context.actors.name(alloc, at)?;
    let reference = context.actors.name(alloc, at)?;
    state.actors.push(Actor {
        name,
        behavior,
        fields,
    })?;
    Ok(Value::Ref(reference))
}

/// A new creation of this name; gives the reference to the name.
pub fn add_creation(
    alloc: Global,
    state: &mut State,
    behavior: u16,
    name: Uan,
    place: Option<Ual>,
    fields: Values,
    serial: u64,
) -> Result<Value, Stop>
    ensures { Gives (spec.add_creation behavior name place fields serial state.old) result state.new }
{
    let reference = name.clone_in(alloc)?;
    state.creations.push(Creation {
        serial,
        name,
        place,
        behavior,
        fields,
    })?;
    Ok(Value::Ref(Name::Uan(reference)))
}
