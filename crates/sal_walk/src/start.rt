//! How a body starts.

ghost use Rattle.std.specs.Prelude.{◌≡◌, drop, IfOk};
ghost use Rattle.sal_handler.specs.Handler as spec;
ghost use Rattle.sal_handler.specs.Values.{item_at};

use sal_ast::{Behavior, Param};
use sal_handler::{Content, Local, State};
use sal_infer::type_sort;
use sal_value::{List, NoMemory, Value, Values};
use std::alloc::Global;

fn first_or_null(alloc: Global, args: &[Value]) -> Result<Value, NoMemory>
    ensures { IfOk result (λ value. value ≡ item_at args.now 0) }
{
    match args {
        [value, ..] => value.clone_in(alloc),
        [] => Ok(Value::Null),
    }
}

fn after_first(args: &[Value]) -> &[Value]
    ensures { result.now ≡ drop 1 args.now }
{
    match args {
        [_, rest @ ..] => rest,
        [] => &[],
    }
}

fn parameter(
    alloc: Global,
    behaviors: &[Behavior],
    param: &Param,
    value: Value,
) -> Result<Local, NoMemory>
    ensures { IfOk result (λ local. local ≡ spec.parameter behaviors.now param.now value) }
{
    Ok(Local {
        name: param.name.text.clone_in(alloc)?,
        sort: type_sort(&param.sort, behaviors),
        held: Content::Value(value),
    })
}

/// Parameters hold the arguments, and null where there are too few.
pub fn parameters(
    alloc: Global,
    behaviors: &[Behavior],
    params: &[Param],
    args: &[Value],
) -> Result<List<Local>, NoMemory>
    ensures { IfOk result (λ locals. locals ≡ spec.parameters behaviors.now params.now args.now) }
{
    let mut locals = List::new(alloc);
    let mut rest = args;
    for param in params {
        let value = first_or_null(alloc, rest)?;
        locals.push(parameter(alloc, behaviors, param, value)?)?;
        rest = after_first(rest);
    }
    Ok(locals)
}

/// The state in which a body starts.
pub fn initial_state(alloc: Global, locals: List<Local>, fields: Values, serial: u64) -> State
    ensures { result ≡ spec.initial_state locals fields serial }
{
    State {
        locals,
        fields,
        turns: 0,
        serial,
        messages: List::new(alloc),
        joins: List::new(alloc),
        places: 0,
        actors: List::new(alloc),
        creations: List::new(alloc),
    }
}
