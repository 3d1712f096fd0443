//! Reading a variable. What has no value gives none, which stands for null.

ghost use Rattle.std.specs.Prelude.{◌≡◌, slice_get};
ghost use Rattle.std.specs.Option.{option_copied};
ghost use Rattle.sal_handler.specs.Scopes as spec;
ghost use Rattle.sal_handler.specs.Values.{item_at, value_or_null};
ghost use Rattle.sal_state.specs.Contexts.{context_of};

use crate::context::Context;
use crate::fields::field_named;
use crate::locals::local_named;
use crate::supply::ActorSupply;
use sal_handler::{Content, Local, State};
use sal_value::Value;

/// A token has no value.
fn content_value(content: &Content) -> Option<&Value>
    ensures { value_or_null (option_copied result) ≡ spec.content_value content.now }
{
    match content {
        Content::Value(value) => Some(value),
        Content::Token(_) => None,
    }
}

/// The value of the field of this name.
pub fn read_field<'s, A: ActorSupply>(
    name: &[u8],
    context: &Context<'_, A>,
    state: &'s State,
) -> Option<&'s Value>
    ensures { value_or_null (option_copied result) ≡ spec.read_field name.now (context_of (A.supply context.now.actors.now) context.now) state.now }
{
    match field_named(name, context) {
        Some(at) => state.fields.get(at),
        None => None,
    }
}

fn local_at(locals: &[Local], at: usize) -> Option<&Value>
    ensures { value_or_null (option_copied result) ≡ spec.local_value (slice_get locals.now at) }
{
    match locals.get(at) {
        Some(local) => content_value(&local.held),
        None => None,
    }
}

/// The value of the local of this name, or else of the field.
pub fn read_variable<'s, A: ActorSupply>(
    name: &[u8],
    context: &Context<'_, A>,
    state: &'s State,
) -> Option<&'s Value>
    ensures { value_or_null (option_copied result) ≡ spec.read_variable name.now (context_of (A.supply context.now.actors.now) context.now) state.now }
{
    match local_named(name, state.locals.as_slice()) {
        Some(at) => local_at(state.locals.as_slice(), at),
        None => read_field(name, context, state),
    }
}
