//! The fields with which a new actor starts.

ghost use Rattle.std.specs.Prelude.{◌≡◌, filter_map, option_map, slice_get, slice_set, IfOk};
ghost use Rattle.std.specs.Option.{option_copied};
ghost use Rattle.sal_ast.specs.Members.{as_field};
ghost use Rattle.sal_handler.specs.Evaluation.{Gives, Yields};
ghost use Rattle.sal_handler.specs.Handler as spec;
ghost use Rattle.sal_state.specs.Contexts.{context_of};
ghost use Rattle.sal_walk.specs.code.HandlerTrees.{handler_in};

use crate::handler_tree::HandlerTree;
use crate::members::constructor_of;
use crate::start::{initial_state, parameters};
use crate::statements::exec_block;
use sal_ast::{Behavior, Expr, Member};
use sal_evaluate::evaluate;
use sal_handler::{State, Stop};
use sal_mail::Reply;
use sal_operators::default_of;
use sal_state::{ActorSupply, Context, NoActors};
use sal_value::{List, Name, NoMemory, Value, Values};
use std::alloc::Global;

/// The fields before the initialisers.
fn default_fields(alloc: Global, members: &[Member]) -> Result<Values, NoMemory>
    ensures { IfOk result (λ fields. fields ≡ spec.default_fields (filter_map as_field members.now)) }
{
    let mut fields = List::new(alloc);
    for member in members {
        match member {
            Member::Field { sort, .. } => fields.push(default_of(alloc, sort))?,
            Member::Constructor { .. } | Member::Handler { .. } => {}
        }
    }
    Ok(fields)
}

fn set_field(fields: &mut Values, at: usize, value: Value)
    ensures { fields.new ≡ slice_set fields.old at value }
{
    if at < fields.len() {
        fields.set(at, value);
    }
}

/// The initialiser, if there is one, sets the field with this number.
fn exec_initialiser<A: ActorSupply>(
    alloc: Global,
    context: &Context<'_, A>,
    state: &mut State,
    init: &Option<Expr>,
    at: usize,
) -> Result<(), Stop>
    ensures { Gives (spec.exec_initialiser init.now at (context_of (A.supply context.now.actors.now) context.now) state.old) result state.new }
{
    match init {
        Some(e) => {
            let value = evaluate(alloc, context, state, e)?;
            set_field(&mut state.fields, at, value);
            Ok(())
        }
        None => Ok(()),
    }
}

/// The initialisers in order.
fn exec_initialisers<A: ActorSupply>(
    alloc: Global,
    context: &Context<'_, A>,
    state: &mut State,
    members: &[Member],
) -> Result<(), Stop>
    ensures { Gives (spec.exec_initialisers (filter_map as_field members.now) 0 (context_of (A.supply context.now.actors.now) context.now) state.old) result state.new }
{
    let mut at = 0;
    for member in members {
        match member {
            Member::Field { init, .. } => {
                exec_initialiser(alloc, context, state, init, at)?;
                at += 1;
            }
            Member::Constructor { .. } | Member::Handler { .. } => {}
        }
    }
    Ok(())
}

fn into_fields(state: State) -> Values
    ensures { result ≡ state.fields }
{
    let State { fields, .. } = state;
    fields
}

/// The fields after the initialisers.
#[tactic(auto, unfolding(sal_ast::specs::Members::fields_of))]
fn initial_fields<A: ActorSupply>(
    alloc: Global,
    context: &Context<'_, A>,
    behavior: &Behavior,
) -> Result<Values, Stop>
    ensures { Yields (spec.initial_fields behavior.now (context_of (A.supply context.now.actors.now) context.now)) result }
{
    let members = behavior.members.as_slice();
    let fields = default_fields(alloc, members)?;
    let mut state = initial_state(alloc, List::new(alloc), fields, 0);
    exec_initialisers(alloc, context, &mut state, members)?;
    Ok(into_fields(state))
}

/// The fields after the constructor, if there is one.
fn fields_after_constructor<A: ActorSupply>(
    alloc: Global,
    context: &Context<'_, A>,
    constructor: Option<HandlerTree<'_>>,
    args: &[Value],
    fields: Values,
) -> Result<Values, Stop>
    ensures { Yields (spec.fields_after_constructor (option_map handler_in constructor.entry) args.now (context_of (A.supply context.now.actors.now) context.now) fields) result }
{
    let Some(constructor) = constructor else {
        return Ok(fields);
    };
    let locals = parameters(alloc, context.behaviors, constructor.params, args)?;
    let mut state = initial_state(alloc, locals, fields, 0);
    exec_block(alloc, context, &mut state, constructor.body)?;
    Ok(into_fields(state))
}

fn fields_of_new<A: ActorSupply>(
    alloc: Global,
    context: &Context<'_, A>,
    behavior: Option<&Behavior>,
    args: &[Value],
) -> Result<Values, Stop>
    ensures { Yields (spec.new_fields_of (option_copied behavior.entry) args.now (context_of (A.supply context.now.actors.now) context.now)) result }
{
    let Some(behavior) = behavior else {
        return Ok(List::new(alloc));
    };
    let fields = initial_fields(alloc, context, behavior)?;
    fields_after_constructor(alloc, context, constructor_of(behavior), args, fields)
}

/// The fields of a new actor of the behaviour with this number.
#[tactic(auto, unfolding(sal_handler::specs::Handler::new_fields))]
pub fn new_fields(
    alloc: Global,
    behaviors: &[Behavior],
    number: u16,
    args: &[Value],
) -> Result<Values, Stop>
    ensures { Yields (spec.new_fields behaviors.now number args.now) result }
{
    let context = Context {
        me: &Name::Outside(0),
        reply: &Reply::Nobody,
        behaviors,
        mine: number,
        within: &[],
        actors: &NoActors,
    };
    fields_of_new(alloc, &context, behaviors.get(number as usize), args)
}

/// The constructor, where it has no parameters.
fn without_params(constructor: Option<HandlerTree<'_>>) -> Option<HandlerTree<'_>>
    ensures { option_map handler_in result ≡ spec.without_params (option_map handler_in constructor.entry) }
{
    match constructor {
        Some(constructor) if constructor.params.is_empty() => Some(constructor),
        _ => None,
    }
}

fn fields_of_start<A: ActorSupply>(
    alloc: Global,
    context: &Context<'_, A>,
    behavior: Option<&Behavior>,
) -> Result<Values, Stop>
    ensures { Yields (spec.start_fields (option_copied behavior.entry) (context_of (A.supply context.now.actors.now) context.now)) result }
{
    let Some(behavior) = behavior else {
        return Ok(List::new(alloc));
    };
    let fields = initial_fields(alloc, context, behavior)?;
    let constructor = without_params(constructor_of(behavior));
    fields_after_constructor(alloc, context, constructor, &[], fields)
}

/// The fields of the start actor, which is of the behaviour with this number.
pub fn start_fields(alloc: Global, behaviors: &[Behavior], number: u16) -> Result<Values, Stop>
    ensures { Yields (spec.start_fields (slice_get behaviors.now number) (spec.constructor_context behaviors.now number)) result }
{
    let context = Context {
        me: &Name::Outside(0),
        reply: &Reply::Nobody,
        behaviors,
        mine: number,
        within: &[],
        actors: &NoActors,
    };
    fields_of_start(alloc, &context, behaviors.get(number as usize))
}
