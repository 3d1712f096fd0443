//! Arrays, and the limits of values.

ghost use Rattle.std.specs.Prelude.{◌≡◌, replicate, IfOk};
ghost use Rattle.sal_handler.specs.Evaluation.{Yields};
ghost use Rattle.sal_handler.specs.Values as spec;

use crate::defaults::default_item;
use crate::values::items_of;
use sal_ast::TypeName;
use sal_handler::Stop;
use sal_mail::Trap;
use sal_value::{List, NoMemory, Value, Values};
use std::alloc::Global;

/// The value, where it keeps the limits of the language.
pub fn within_limits(value: Value) -> Result<Value, Stop>
    ensures { Yields (spec.within_limits value) result }
{
    if value.legal() {
        return Ok(value);
    }
    Err(Stop::Trap(Trap::TooLarge))
}

/// The place of the item with this index, of so many.
pub fn checked_index(index: i32, len: usize) -> Result<usize, Stop>
    ensures { Yields (spec.checked_index index len) result }
{
    if index < 0 || index as usize >= len {
        return Err(Stop::Trap(Trap::Index));
    }
    Ok(index as usize)
}

/// `a[i]`
#[tactic(auto, unfolding(sal_handler::specs::Values::item))]
pub fn clone_item(alloc: Global, value: &Value, index: i32) -> Result<Value, Stop>
    ensures { Yields (spec.item value.now index) result }
{
    let items = items_of(value);
    let at = checked_index(index, items.len())?;
    Ok(items[at].clone_in(alloc)?)
}

/// `a.length`
#[tactic(auto, using(crate::proofs::Lengths::length_wraps))]
pub fn length_of(value: &Value) -> Value
    ensures { result ≡ spec.length_of value.now }
{
    let len = items_of(value).len() % 0x1_0000_0000;
    Value::Int((len as u32).cast_signed())
}

/// The items of an array; of what is no array, none.
#[tactic(auto, unfolding(sal_handler::specs::Values::items_of))]
fn into_items(alloc: Global, value: Value) -> Values
    ensures { result ≡ spec.items_of value }
{
    match value {
        Value::Array(items) => items,
        _ => List::new(alloc),
    }
}

/// The array with this value at these indexes. The items are moved, and not copied.
#[tactic(auto, unfolding(sal_handler::specs::Values::put_item))]
pub fn put_item(alloc: Global, old: Value, indexes: &[i32], new: Value) -> Result<Value, Stop>
    ensures { Yields (spec.put_item old indexes.now new) result }
{
    match indexes {
        [] => Ok(new),
        [index, rest @ ..] => {
            let mut items = into_items(alloc, old);
            let at = checked_index(*index, items.len())?;
            let item = items.replace(at, Value::Null);
            items.set(at, put_item(alloc, item, rest, new)?);
            Ok(Value::Array(items))
        }
    }
}

/// The value of a variable after an assignment at these indexes.
#[tactic(auto, unfolding(sal_handler::specs::Values::value_after_assign))]
pub fn value_after_assign(
    alloc: Global,
    old: Value,
    indexes: &[i32],
    new: Value,
) -> Result<Value, Stop>
    ensures { Yields (spec.value_after_assign old indexes.now new) result }
{
    match indexes {
        [] => Ok(new),
        [_, ..] => within_limits(put_item(alloc, old, indexes, new)?),
    }
}

fn default_items(alloc: Global, sort: &TypeName, count: usize) -> Result<Values, NoMemory>
    ensures { IfOk result (λ items. items ≡ replicate count (spec.default_item sort.now)) }
{
    let mut items = List::new(alloc);
    for _i in 0..count {
        items.push(default_item(alloc, sort))?;
    }
    Ok(items)
}

/// `new T[n]`
pub fn new_array(alloc: Global, sort: &TypeName, size: i32) -> Result<Value, Stop>
    ensures { Yields (spec.new_array sort.now size) result }
{
    if size < 0 {
        return Err(Stop::Trap(Trap::NegativeLength));
    }
    if size > 4096 {
        return Err(Stop::Trap(Trap::TooLarge));
    }
    within_limits(Value::Array(default_items(alloc, sort, size as usize)?))
}
