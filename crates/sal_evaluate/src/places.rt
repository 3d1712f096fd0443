//! Variables that are read in place, and what indexes and sizes that are values do.

ghost use Rattle.std.specs.Prelude.{◌≡◌, Ok};
ghost use Rattle.std.specs.Option.{option_copied};
ghost use Rattle.sal_handler.specs.Evaluation.{Yields};
ghost use Rattle.sal_handler.specs.Values as spec;
ghost use Rattle.sal_state.specs.Contexts.{context_of};
ghost use Rattle.sal_evaluate.specs.code.Places.{place_value};

use sal_ast::TypeName;
use sal_handler::{State, Stop};
use sal_operators::{clone_item, int_of, length_of, new_array};
use sal_state::{ActorSupply, Context, read_field, read_variable};
use sal_value::Value;
use std::alloc::Global;

/// The value of the field where `own` says so, and else of the variable.
pub fn read_place<'s, A: ActorSupply>(
    own: bool,
    name: &[u8],
    context: &Context<'_, A>,
    state: &'s State,
) -> Option<&'s Value>
    ensures { spec.value_or_null (option_copied result) ≡ place_value own name.now (context_of (A.supply context.now.actors.now) context.now) state.now }
{
    if own {
        return read_field(name, context, state);
    }
    read_variable(name, context, state)
}

/// A copy of the value, or null where there is none.
pub fn clone_place(alloc: Global, place: Option<&Value>) -> Result<Value, Stop>
    ensures { Yields (Ok (spec.value_or_null (option_copied place.entry))) result }
{
    match place {
        Some(value) => Ok(value.clone_in(alloc)?),
        None => Ok(Value::Null),
    }
}

/// A copy of the item at this index.
pub fn clone_item_at(alloc: Global, value: &Value, index: &Value) -> Result<Value, Stop>
    ensures { Yields (spec.item value.now (spec.int_of index.now)) result }
{
    clone_item(alloc, value, int_of(index))
}

/// A copy of the item at this index.
pub fn clone_place_item(alloc: Global, place: Option<&Value>, index: &Value) -> Result<Value, Stop>
    ensures { Yields (spec.item (spec.value_or_null (option_copied place.entry)) (spec.int_of index.now)) result }
{
    match place {
        Some(value) => clone_item_at(alloc, value, index),
        None => clone_item_at(alloc, &Value::Null, index),
    }
}

/// `new T[n]`
pub fn make_array(alloc: Global, sort: &TypeName, size: &Value) -> Result<Value, Stop>
    ensures { Yields (spec.new_array sort.now (spec.int_of size.now)) result }
{
    new_array(alloc, sort, int_of(size))
}

/// The number of items.
pub fn place_length(place: Option<&Value>) -> Value
    ensures { result ≡ spec.length_of (spec.value_or_null (option_copied place.entry)) }
{
    match place {
        Some(value) => length_of(value),
        None => length_of(&Value::Null),
    }
}
