//! Types.

ghost use Rattle.std.specs.Prelude.{◌≡◌, ◌+◌};
ghost use Rattle.sal_ast.specs.Sorts as spec;

use crate::members::behavior_by_name;
use sal_ast::{BaseName, Behavior, Op, TypeName};
use sal_value::{Base, Sort};

/// The most pairs of brackets of a type.
const MOST_DIMS: u32 = 8;

fn with_dims(base: Base, dims: u32) -> Option<Sort>
    ensures { result ≡ spec.with_dims base dims }
{
    if dims > MOST_DIMS {
        return None;
    }
    Some(Sort {
        base,
        dims: dims as u8,
    })
}

/// A type without brackets.
pub fn plain(base: Base) -> Option<Sort>
    ensures { result ≡ spec.plain base }
{
    Some(Sort { base, dims: 0 })
}

fn actor_base(name: &[u8], behaviors: &[Behavior]) -> Option<Base>
    ensures { result ≡ spec.actor_base name.now behaviors.now }
{
    let number = behavior_by_name(behaviors, name)?;
    Some(Base::Actor(number))
}

fn base_of(name: &BaseName, behaviors: &[Behavior]) -> Option<Base>
    ensures { result ≡ spec.base_of name.now behaviors.now }
{
    match name {
        BaseName::Int => Some(Base::Int),
        BaseName::Boolean => Some(Base::Bool),
        BaseName::Str => Some(Base::Str),
        BaseName::Actor(name) => actor_base(name.as_bytes(), behaviors),
    }
}

fn sort_with(base: Option<Base>, dims: u32) -> Option<Sort>
    ensures { result ≡ spec.sort_with base dims }
{
    with_dims(base?, dims)
}

/// The type that a type's name means.
#[tactic(auto, unfolding(sal_ast::specs::Sorts::type_sort))]
pub fn type_sort(name: &TypeName, behaviors: &[Behavior]) -> Option<Sort>
    ensures { result ≡ spec.type_sort name.now behaviors.now }
{
    sort_with(base_of(&name.base, behaviors), name.dims)
}

/// The type of references to actors of the behaviour of this name.
pub fn actor_sort(name: &[u8], behaviors: &[Behavior]) -> Option<Sort>
    ensures { result ≡ spec.sort_with (spec.actor_base name.now behaviors.now) 0 }
{
    sort_with(actor_base(name, behaviors), 0)
}

/// What an array's items are.
pub fn item_sort(sort: Option<Sort>) -> Option<Sort>
    ensures { result ≡ spec.item_sort sort }
{
    let Sort { base, dims } = sort?;
    if dims == 0 {
        return None;
    }
    Some(Sort {
        base,
        dims: dims - 1,
    })
}

fn array_sort(sort: Sort) -> Option<Sort>
    ensures { result ≡ spec.with_dims sort.base (sort.dims + 1) }
{
    with_dims(sort.base, u32::from(sort.dims) + 1)
}

/// Whether values of this type are texts.
pub fn is_text_sort(sort: Option<Sort>) -> bool
    ensures { result ≡ spec.is_text_sort sort }
{
    match sort {
        Some(Sort { base, dims }) => dims == 0 && matches!(base, Base::Str),
        None => false,
    }
}

/// What an operator gives on operands of these types.
pub fn operator_sort(op: Op, left: Option<Sort>, right: Option<Sort>) -> Option<Sort>
    ensures { result ≡ spec.operator_sort op left right }
{
    match op {
        Op::Add => {
            if is_text_sort(left) || is_text_sort(right) {
                plain(Base::Str)
            } else {
                plain(Base::Int)
            }
        }
        Op::Sub | Op::Mul | Op::Div | Op::Rem => plain(Base::Int),
        Op::Or | Op::And | Op::Same | Op::Other => plain(Base::Bool),
        Op::Less | Op::LessEq | Op::Greater | Op::GreaterEq => plain(Base::Bool),
    }
}

/// The result of a join by that of its first chain.
pub fn join_result(first: Option<Option<Sort>>) -> Option<Sort>
    ensures { result ≡ spec.join_result first }
{
    let sort = first??;
    match sort.base {
        Base::Void => Some(sort),
        Base::Int | Base::Bool | Base::Str | Base::Actor(_) => array_sort(sort),
    }
}

/// Whether there is a chain whose result is `void`.
pub fn is_void_result(first: Option<Option<Sort>>) -> bool
    ensures { result ≡ spec.is_void_result first }
{
    match first {
        Some(Some(Sort { base, dims })) => dims == 0 && matches!(base, Base::Void),
        Some(None) => false,
        None => false,
    }
}

/// The behaviour of an actor's type.
pub fn behavior_of(sort: Option<Sort>) -> Option<u16>
    ensures { result ≡ spec.behavior_of sort }
{
    match sort? {
        Sort {
            base: Base::Actor(number),
            dims: 0,
        } => Some(number),
        _ => None,
    }
}

/// The result that a handler's text names; none is `void`.
pub fn result_sort(result_type: &Option<TypeName>, behaviors: &[Behavior]) -> Option<Sort>
    ensures { result ≡ spec.result_sort result_type.now behaviors.now }
{
    match result_type {
        Some(name) => type_sort(name, behaviors),
        None => plain(Base::Void),
    }
}
