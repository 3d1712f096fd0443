//! Texts, and what is joined to them.

ghost use Rattle.std.specs.Prelude.{◌≡◌, ◌++◌, OnOk};
ghost use Rattle.sal_value.specs.declared.value.Value.TheVariants.{Str};
ghost use Rattle.sal_handler.specs.Evaluation.{Yields};
ghost use Rattle.sal_handler.specs.Values as spec;

use crate::arrays::within_limits;
use crate::values::{int_of, is_text_value};
use sal_handler::Stop;
use sal_value::{NoMemory, Text, Value};
use std::alloc::Global;

/// A string of the program's text.
pub fn literal_text(alloc: Global, text: &Text) -> Result<Value, Stop>
    ensures { Yields (spec.within_limits (Str text.now)) result }
{
    within_limits(Value::Str(text.clone_in(alloc)?))
}

/// Adds to the text what the value adds to one that it is joined to.
#[tactic(auto, unfolding(sal_handler::specs::Values::value_text))]
fn push_value_text(alloc: Global, text: &mut Text, value: &Value) -> Result<(), NoMemory>
    ensures { OnOk result (text.new ≡ text.old ++ spec.value_text value.now) }
{
    match value {
        Value::Int(number) => text.push_str(number.to_string(alloc)?.as_str()),
        Value::Bool(true) => text.push_str("true"),
        Value::Bool(false) => text.push_str("false"),
        Value::Str(more) => text.push_str(more.as_str()),
        Value::Array(_) | Value::Ref(_) | Value::Null => Ok(()),
    }
}

fn concat(alloc: Global, left: &Value, right: &Value) -> Result<Value, Stop>
    ensures { Yields (spec.within_limits (Str (spec.value_text left.now ++ spec.value_text right.now))) result }
{
    let mut text = Text::new(alloc);
    push_value_text(alloc, &mut text, left)?;
    push_value_text(alloc, &mut text, right)?;
    within_limits(Value::Str(text))
}

/// Adds two ints; with a text it joins the two.
#[tactic(auto, unfolding(sal_handler::specs::Values::plus))]
pub fn plus(alloc: Global, left: &Value, right: &Value) -> Result<Value, Stop>
    ensures { Yields (spec.plus left.now right.now) result }
{
    if is_text_value(left) || is_text_value(right) {
        return concat(alloc, left, right);
    }
    Ok(Value::Int(int_of(left).wrapping_add(int_of(right))))
}
