//! Assigning to a variable, or to an item of one.

ghost use Rattle.std.specs.Prelude.{None, Some};
ghost use Rattle.sal_handler.specs.Evaluation.{Gives, Yields};
ghost use Rattle.sal_handler.specs.Scopes as spec;
ghost use Rattle.sal_state.specs.Contexts.{context_of};

use crate::context::Context;
use crate::fields::field_named;
use crate::locals::local_named;
use crate::supply::ActorSupply;
use sal_handler::{Content, Local, State, Stop};
use sal_operators::value_after_assign;
use sal_value::{Text, Value};
use std::alloc::Global;

/// A token keeps what it holds.
fn content_after_assign(
    alloc: Global,
    content: Content,
    indexes: &[i32],
    value: Value,
) -> Result<Content, Stop>
    ensures { Yields (spec.content_after_assign content indexes.now value) result }
{
    match content {
        Content::Value(old) => Ok(Content::Value(value_after_assign(alloc, old, indexes, value)?)),
        Content::Token(number) => Ok(Content::Token(number)),
    }
}

/// A local that stands for another one, while that one is changed.
fn blank_local(alloc: Global) -> Local {
    Local {
        name: Text::new(alloc),
        sort: None,
        held: Content::Token(0),
    }
}

#[tactic(auto, using(crate::proofs::Sets::sets, std::proofs::lemmas::Grind::common_steps))]
fn assign_local(
    alloc: Global,
    state: &mut State,
    at: usize,
    indexes: &[i32],
    value: Value,
) -> Result<(), Stop>
    ensures { Gives (spec.assign_local at indexes.now value state.old) result state.new }
{
    if at >= state.locals.len() {
        return Ok(());
    }
    let Local { name, sort, held } = state.locals.replace(at, blank_local(alloc));
    let held = content_after_assign(alloc, held, indexes, value)?;
    state.locals.set(at, Local { name, sort, held });
    Ok(())
}

#[tactic(auto, using(crate::proofs::Sets::sets, std::proofs::lemmas::Grind::common_steps))]
fn assign_field_at(
    alloc: Global,
    state: &mut State,
    at: usize,
    indexes: &[i32],
    value: Value,
) -> Result<(), Stop>
    ensures { Gives (spec.assign_field (Some at) indexes.now value state.old) result state.new }
{
    if at >= state.fields.len() {
        value_after_assign(alloc, Value::Null, indexes, value)?;
        return Ok(());
    }
    let old = state.fields.replace(at, Value::Null);
    state
        .fields
        .set(at, value_after_assign(alloc, old, indexes, value)?);
    Ok(())
}

fn assign_field<A: ActorSupply>(
    alloc: Global,
    context: &Context<'_, A>,
    state: &mut State,
    name: &[u8],
    indexes: &[i32],
    value: Value,
) -> Result<(), Stop>
    ensures { Gives (spec.assign_local_or_field None name.now (context_of (A.supply context.now.actors.now) context.now) indexes.now value state.old) result state.new }
{
    match field_named(name, context) {
        Some(at) => assign_field_at(alloc, state, at, indexes, value),
        None => Ok(()),
    }
}

/// Assigns to the actor's field where `own` says so, and else to the local of this name, or to
/// the field where there is none.
pub fn assign_variable<A: ActorSupply>(
    alloc: Global,
    context: &Context<'_, A>,
    state: &mut State,
    own: bool,
    name: &[u8],
    indexes: &[i32],
    value: Value,
) -> Result<(), Stop>
    ensures { Gives (spec.assign_variable own name.now (context_of (A.supply context.now.actors.now) context.now) indexes.now value state.old) result state.new }
{
    if own {
        return assign_field(alloc, context, state, name, indexes, value);
    }
    match local_named(name, state.locals.as_slice()) {
        Some(at) => assign_local(alloc, state, at, indexes, value),
        None => assign_field(alloc, context, state, name, indexes, value),
    }
}
