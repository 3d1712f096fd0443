//! What is in scope.

ghost use Rattle.std.specs.Prelude.{◌≡◌};
ghost use Rattle.sal_handler.specs.Evaluation.{Gives};
ghost use Rattle.sal_handler.specs.Scopes as spec;

use sal_handler::{Content, Local, State, Stop};
use sal_value::{Sort, Text, Value};
use std::alloc::Global;

/// Where the local of this name stands.
#[tactic(auto, unfolding(sal_handler::specs::Scopes::local_named))]
pub fn local_named(name: &[u8], locals: &[Local]) -> Option<usize>
    ensures { result ≡ spec.local_named name.now locals.now }
{
    locals
        .iter()
        .position(|local| local.name.as_bytes() == name)
}

/// A new local comes into scope.
pub fn add_local(
    alloc: Global,
    state: &mut State,
    name: &str,
    sort: Option<Sort>,
    content: Content,
) -> Result<(), Stop>
    ensures { Gives (spec.add_local name.now sort content state.old) result state.new }
{
    let name = Text::from_text(alloc, name)?;
    state.locals.push(Local {
        name,
        sort,
        held: content,
    })?;
    Ok(())
}

/// A local with its value comes into scope.
pub fn declare(
    alloc: Global,
    state: &mut State,
    name: &str,
    sort: Option<Sort>,
    value: Value,
) -> Result<(), Stop>
    ensures { Gives (spec.declare name.now sort value state.old) result state.new }
{
    add_local(alloc, state, name, sort, Content::Value(value))
}

/// A token comes into scope, with the number of the message or join whose reply it is.
pub fn declare_token(alloc: Global, state: &mut State, name: &str, number: u64) -> Result<(), Stop>
    ensures { Gives (spec.declare_token name.now number state.old) result state.new }
{
    add_local(alloc, state, name, None, Content::Token(number))
}

/// Only this many locals, the oldest ones, stay in scope.
pub fn keep_locals(state: &mut State, count: usize)
    ensures { state.new ≡ spec.keep_locals count state.old }
{
    state.locals.truncate(count);
}

fn token_in(content: &Content) -> Option<u64>
    ensures { result ≡ spec.token_in content.now }
{
    match content {
        Content::Token(number) => Some(*number),
        Content::Value(_) => None,
    }
}

/// The number that the token of this name holds, if there is such a token.
pub fn token_named(name: &[u8], state: &State) -> Option<u64>
    ensures { result ≡ spec.token_named name.now state.now }
{
    let at = local_named(name, state.locals.as_slice())?;
    match state.locals.get(at) {
        Some(local) => token_in(&local.held),
        None => None,
    }
}
