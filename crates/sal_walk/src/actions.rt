//! Declarations, assignments and tests.

ghost use Rattle.std.specs.Prelude.{◌≡◌, map, IfOk};
ghost use Rattle.sal_handler.specs.Evaluation.{Gives};
ghost use Rattle.sal_handler.specs.Statements as spec;
ghost use Rattle.sal_handler.specs.Values.{int_of};
ghost use Rattle.sal_state.specs.Contexts.{context_of};

use sal_ast::{Assign, Declare, Expr, ForInit};
use sal_evaluate::{evaluate, evaluate_all};
use sal_handler::{State, Stop};
use sal_infer::type_sort;
use sal_operators::{default_of, int_of, is_true};
use sal_state::{ActorSupply, Context, assign_variable, declare};
use sal_value::{List, NoMemory, Value};
use std::alloc::Global;

/// The value of the expression, if there is one, or else this value.
pub fn initial_value<A: ActorSupply>(
    alloc: Global,
    context: &Context<'_, A>,
    state: &mut State,
    init: &Option<Expr>,
    start: Value,
) -> Result<Value, Stop>
    ensures { Gives (spec.initial_value init.now start (context_of (A.supply context.now.actors.now) context.now) state.old) result state.new }
{
    match init {
        Some(e) => evaluate(alloc, context, state, e),
        None => Ok(start),
    }
}

/// The new local has the value of its initialiser, or else its type's default.
pub fn exec_declare<A: ActorSupply>(
    alloc: Global,
    context: &Context<'_, A>,
    state: &mut State,
    d: &Declare,
) -> Result<(), Stop>
    ensures { Gives (spec.exec_declare d.now (context_of (A.supply context.now.actors.now) context.now) state.old) result state.new }
{
    let start = default_of(alloc, &d.sort);
    let value = initial_value(alloc, context, state, &d.init, start)?;
    let sort = type_sort(&d.sort, context.behaviors);
    declare(alloc, state, d.name.text.as_str(), sort, value)
}

fn ints(alloc: Global, values: &[Value]) -> Result<List<i32>, NoMemory>
    ensures { IfOk result (λ it. it ≡ map int_of values.now) }
{
    let mut ints = List::new(alloc);
    for value in values {
        ints.push(int_of(value))?;
    }
    Ok(ints)
}

/// The indexes, then the value, and then the indexes are tested.
pub fn exec_assign<A: ActorSupply>(
    alloc: Global,
    context: &Context<'_, A>,
    state: &mut State,
    a: &Assign,
) -> Result<(), Stop>
    ensures { Gives (spec.exec_assign a.now (context_of (A.supply context.now.actors.now) context.now) state.old) result state.new }
{
    let indexes = evaluate_all(alloc, context, state, a.indexes.as_slice())?;
    let value = evaluate(alloc, context, state, &a.value)?;
    let indexes = ints(alloc, indexes.as_slice())?;
    let name = a.name.text.as_bytes();
    assign_variable(
        alloc,
        context,
        state,
        a.own,
        name,
        indexes.as_slice(),
        value,
    )
}

/// Whether a test is true.
pub fn eval_test<A: ActorSupply>(
    alloc: Global,
    context: &Context<'_, A>,
    state: &mut State,
    test: &Expr,
) -> Result<bool, Stop>
    ensures { Gives (spec.eval_test test.now (context_of (A.supply context.now.actors.now) context.now) state.old) result state.new }
{
    let value = evaluate(alloc, context, state, test)?;
    Ok(is_true(&value))
}

/// The first part of a `for`.
pub fn exec_for_init<A: ActorSupply>(
    alloc: Global,
    context: &Context<'_, A>,
    state: &mut State,
    init: &ForInit,
) -> Result<(), Stop>
    ensures { Gives (spec.exec_for_init init.now (context_of (A.supply context.now.actors.now) context.now) state.old) result state.new }
{
    match init {
        ForInit::Nothing => Ok(()),
        ForInit::Declare(d) => exec_declare(alloc, context, state, d),
        ForInit::Assign(a) => exec_assign(alloc, context, state, a),
    }
}

/// The test of a `for`; without one it is true.
pub fn eval_for_test<A: ActorSupply>(
    alloc: Global,
    context: &Context<'_, A>,
    state: &mut State,
    test: &Option<Expr>,
) -> Result<bool, Stop>
    ensures { Gives (spec.eval_for_test test.now (context_of (A.supply context.now.actors.now) context.now) state.old) result state.new }
{
    match test {
        Some(e) => eval_test(alloc, context, state, e),
        None => Ok(true),
    }
}

/// The last part of a `for`.
pub fn exec_for_next<A: ActorSupply>(
    alloc: Global,
    context: &Context<'_, A>,
    state: &mut State,
    next: &Option<Assign>,
) -> Result<(), Stop>
    ensures { Gives (spec.exec_for_next next.now (context_of (A.supply context.now.actors.now) context.now) state.old) result state.new }
{
    match next {
        Some(a) => exec_assign(alloc, context, state, a),
        None => Ok(()),
    }
}
