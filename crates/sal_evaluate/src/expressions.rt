//! What an expression gives.

ghost use Rattle.std.specs.Prelude.{[], map, option_map};
ghost use Rattle.sal_handler.specs.Evaluation.{Gives};
ghost use Rattle.sal_handler.specs.Expressions as spec;
ghost use Rattle.sal_state.specs.Contexts.{context_of};
ghost use Rattle.sal_evaluate.specs.code.Places.{place_value, new_at};

use crate::create::{create_at_by, create_by};
use crate::places::{
    clone_item_at, clone_place, clone_place_item, make_array, place_length, read_place,
};
use sal_ast::{At, Expr, Ident, Operand, Suffix};
use sal_handler::{State, Stop};
use sal_infer::behavior_by_name;
use sal_operators::{
    is_true, length_of, literal_text, literal_value, negate_bool, negate_int, operate_owned,
    short_circuits, universal_name_of, within_limits,
};
use sal_state::{ActorSupply, Context};
use sal_value::{List, Name, Value, Values};
use std::alloc::Global;

/// The value of an expression.
#[cycle(evaluate)]
#[tactic(auto, using(crate::proofs::Equations::equations))]
pub fn evaluate<A: ActorSupply>(
    alloc: Global,
    context: &Context<'_, A>,
    state: &mut State,
    e: &Expr,
) -> Result<Value, Stop>
    ensures { Gives (spec.eval e.now (context_of (A.supply context.now.actors.now) context.now) state.old) result state.new }
{
    match e {
        Expr::Number(number, _) => Ok(literal_value(*number)),
        Expr::Str(text, _) => literal_text(alloc, text),
        Expr::Bool(truth, _) => Ok(Value::Bool(*truth)),
        Expr::Null(_) => Ok(Value::Null),
        Expr::Me(_) => Ok(Value::Ref(context.me.clone_in(alloc)?)),
        Expr::Name(name) => {
            clone_place(
                alloc,
                read_place(false, name.text.as_bytes(), context, state),
            )
        }
        Expr::Own(_, name) => {
            clone_place(
                alloc,
                read_place(true, name.text.as_bytes(), context, state),
            )
        }
        Expr::Paren(_, e) => evaluate(alloc, context, state, e.get()),
        Expr::Neg(_, e) => Ok(negate_int(&evaluate(alloc, context, state, e.get())?)),
        Expr::Not(_, e) => Ok(negate_bool(&evaluate(alloc, context, state, e.get())?)),
        Expr::Level { first, rest } => {
            let first = evaluate(alloc, context, state, first.get())?;
            apply_operators(alloc, context, state, rest.as_slice(), first)
        }
        Expr::Suffixed { first, rest } => match first.get() {
            Expr::Name(name) => {
                suffixes_of_place(alloc, context, state, false, name, rest.as_slice())
            }
            Expr::Own(_, name) => {
                suffixes_of_place(alloc, context, state, true, name, rest.as_slice())
            }
            _ => {
                let first = evaluate(alloc, context, state, first.get())?;
                apply_suffixes(alloc, context, state, rest.as_slice(), first)
            }
        },
        Expr::New {
            behavior,
            args,
            place,
            ..
        } => {
            let args = evaluate_all(alloc, context, state, args.as_slice())?;
            match place {
                Some(place) => evaluate_at(alloc, context, state, place.get(), behavior, args),
                None => {
                    let number = behavior_by_name(context.behaviors, behavior.text.as_bytes());
                    create_by(alloc, context, state, number, args)
                }
            }
        }
        Expr::Make { sort, size, .. } => {
            let size = evaluate(alloc, context, state, size.get())?;
            Ok(make_array(alloc, sort, &size)?)
        }
        Expr::ListOf { items, .. } => {
            let items = evaluate_all(alloc, context, state, items.as_slice())?;
            within_limits(Value::Array(items))
        }
        Expr::ByName { name, .. } => {
            let text = evaluate(alloc, context, state, name.get())?;
            Ok(Value::Ref(Name::Uan(universal_name_of(alloc, &text)?)))
        }
    }
}

/// The values of expressions, from left to right.
#[cycle(evaluate)]
#[tactic(auto, using(crate::proofs::Equations::equations))]
pub fn evaluate_all<A: ActorSupply>(
    alloc: Global,
    context: &Context<'_, A>,
    state: &mut State,
    list: &[Expr],
) -> Result<Values, Stop>
    ensures { Gives (spec.eval_all (spec.evals list.now) (context_of (A.supply context.now.actors.now) context.now) [] state.old) result state.new }
{
    let mut values = List::new(alloc);
    for e in list {
        values.push(evaluate(alloc, context, state, e)?)?;
    }
    Ok(values)
}

/// What an operator and its right side give after this value.
#[cycle(evaluate)]
#[tactic(auto, using(crate::proofs::Equations::equations))]
fn apply_operator<A: ActorSupply>(
    alloc: Global,
    context: &Context<'_, A>,
    state: &mut State,
    operand: &Operand,
    left: Value,
) -> Result<Value, Stop>
    ensures { Gives (spec.apply_operator (spec.operand operand.now) left (context_of (A.supply context.now.actors.now) context.now) state.old) result state.new }
{
    if short_circuits(operand.op, &left) {
        return Ok(Value::Bool(is_true(&left)));
    }
    let right = evaluate(alloc, context, state, &operand.value)?;
    operate_owned(alloc, operand.op, &left, right)
}

/// What operators of one rank give after this value, from left to right.
#[cycle(evaluate)]
#[tactic(auto, using(crate::proofs::Equations::equations))]
fn apply_operators<A: ActorSupply>(
    alloc: Global,
    context: &Context<'_, A>,
    state: &mut State,
    rest: &[Operand],
    first: Value,
) -> Result<Value, Stop>
    ensures { Gives (spec.apply_operators first (map spec.operand rest.now) (context_of (A.supply context.now.actors.now) context.now) state.old) result state.new }
{
    let mut value = first;
    for operand in rest {
        value = apply_operator(alloc, context, state, operand, value)?;
    }
    Ok(value)
}

/// What an index or `.length` gives after this value.
#[cycle(evaluate)]
#[tactic(auto, using(crate::proofs::Equations::equations))]
fn apply_suffix<A: ActorSupply>(
    alloc: Global,
    context: &Context<'_, A>,
    state: &mut State,
    suffix: &Suffix,
    value: Value,
) -> Result<Value, Stop>
    ensures { Gives (spec.apply_suffix (spec.suffix suffix.now) value (context_of (A.supply context.now.actors.now) context.now) state.old) result state.new }
{
    match suffix {
        Suffix::Index(_, e) => {
            let index = evaluate(alloc, context, state, e)?;
            Ok(clone_item_at(alloc, &value, &index)?)
        }
        Suffix::Length(_) => Ok(length_of(&value)),
    }
}

/// What indexes and `.length` give after this value, from left to right.
#[cycle(evaluate)]
#[tactic(auto, using(crate::proofs::Equations::equations))]
fn apply_suffixes<A: ActorSupply>(
    alloc: Global,
    context: &Context<'_, A>,
    state: &mut State,
    rest: &[Suffix],
    first: Value,
) -> Result<Value, Stop>
    ensures { Gives (spec.apply_suffixes first (map spec.suffix rest.now) (context_of (A.supply context.now.actors.now) context.now) state.old) result state.new }
{
    let mut value = first;
    for suffix in rest {
        value = apply_suffix(alloc, context, state, suffix, value)?;
    }
    Ok(value)
}

/// The same after a variable, which is read in place: expressions change no variable.
#[cycle(evaluate)]
#[tactic(auto, using(crate::proofs::Equations::equations))]
fn suffix_of_place<A: ActorSupply>(
    alloc: Global,
    context: &Context<'_, A>,
    state: &mut State,
    own: bool,
    name: &Ident,
    suffix: &Suffix,
) -> Result<Value, Stop>
    ensures { Gives (spec.apply_suffix (spec.suffix suffix.now) (place_value own name.now.text (context_of (A.supply context.now.actors.now) context.now) state.old) (context_of (A.supply context.now.actors.now) context.now) state.old) result state.new }
{
    let name = name.text.as_bytes();
    match suffix {
        Suffix::Index(_, e) => {
            let index = evaluate(alloc, context, state, e)?;
            clone_place_item(alloc, read_place(own, name, context, state), &index)
        }
        Suffix::Length(_) => Ok(place_length(read_place(own, name, context, state))),
    }
}

/// What indexes and `.length` give after a variable.
#[cycle(evaluate)]
#[tactic(auto, using(crate::proofs::Equations::equations))]
fn suffixes_of_place<A: ActorSupply>(
    alloc: Global,
    context: &Context<'_, A>,
    state: &mut State,
    own: bool,
    name: &Ident,
    rest: &[Suffix],
) -> Result<Value, Stop>
    ensures { Gives (spec.apply_suffixes (place_value own name.now.text (context_of (A.supply context.now.actors.now) context.now) state.old) (map spec.suffix rest.now) (context_of (A.supply context.now.actors.now) context.now) state.old) result state.new }
{
    match rest {
        [] => clone_place(alloc, read_place(own, name.text.as_bytes(), context, state)),
        [suffix, more @ ..] => {
            let mut value = suffix_of_place(alloc, context, state, own, name, suffix)?;
            for next in more {
                value = apply_suffix(alloc, context, state, next, value)?;
            }
            Ok(value)
        }
    }
}

/// The value of an expression that may be missing.
#[cycle(evaluate)]
#[tactic(auto, using(crate::proofs::Equations::equations))]
fn evaluate_option<A: ActorSupply>(
    alloc: Global,
    context: &Context<'_, A>,
    state: &mut State,
    e: &Option<Expr>,
) -> Result<Option<Value>, Stop>
    ensures { Gives (spec.eval_option (option_map spec.eval e.now) (context_of (A.supply context.now.actors.now) context.now) state.old) result state.new }
{
    match e {
        Some(e) => Ok(Some(evaluate(alloc, context, state, e)?)),
        None => Ok(None),
    }
}

/// `new .. at`, after its arguments.
#[cycle(evaluate)]
#[tactic(auto, using(crate::proofs::Equations::equations))]
fn evaluate_at<A: ActorSupply>(
    alloc: Global,
    context: &Context<'_, A>,
    state: &mut State,
    texts: &At,
    behavior: &Ident,
    args: Values,
) -> Result<Value, Stop>
    ensures { Gives (new_at behavior.now.text args (spec.location texts.now) (context_of (A.supply context.now.actors.now) context.now) state.old) result state.new }
{
    let uan = evaluate(alloc, context, state, &texts.uan)?;
    let ual = evaluate_option(alloc, context, state, &texts.ual)?;
    let number = behavior_by_name(context.behaviors, behavior.text.as_bytes());
    create_at_by(alloc, context, state, number, args, &uan, &ual)
}
