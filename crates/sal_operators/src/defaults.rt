//! What variables and items start as.

ghost use Rattle.std.specs.Prelude.{◌≡◌, ◌-◌};
ghost use Rattle.sal_handler.specs.Values as spec;

use sal_ast::{BaseName, TypeName};
use sal_value::{List, Text, Value};
use std::alloc::Global;

fn default_base(alloc: Global, base: &BaseName) -> Value
    ensures { result ≡ spec.default_base base.now }
{
    match base {
        BaseName::Int => Value::Int(0),
        BaseName::Boolean => Value::Bool(false),
        BaseName::Str => Value::Str(Text::new(alloc)),
        BaseName::Actor(_) => Value::Null,
    }
}

fn default_with(alloc: Global, base: &BaseName, dims: u32) -> Value
    ensures { result ≡ spec.default_with base.now dims }
{
    if dims == 0 {
        return default_base(alloc, base);
    }
    Value::Array(List::new(alloc))
}

/// What a variable of this type starts as.
#[tactic(auto, unfolding(sal_handler::specs::Values::default_of))]
pub fn default_of(alloc: Global, sort: &TypeName) -> Value
    ensures { result ≡ spec.default_of sort.now }
{
    default_with(alloc, &sort.base, sort.dims)
}

/// What an item of an array of this type starts as.
#[tactic(auto, unfolding(sal_handler::specs::Values::default_item))]
pub fn default_item(alloc: Global, sort: &TypeName) -> Value
    ensures { result ≡ spec.default_item sort.now }
{
    default_with(alloc, &sort.base, sort.dims.saturating_sub(1))
}
