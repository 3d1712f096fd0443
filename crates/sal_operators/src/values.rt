//! What a value is, by its form; of another form, a default.

ghost use Rattle.std.specs.Prelude.{◌≡◌};
ghost use Rattle.sal_handler.specs.Values as spec;

use sal_value::Value;

/// The int that a value is; of what is no int, 0.
#[tactic(auto, unfolding(sal_handler::specs::Values::int_of))]
pub fn int_of(value: &Value) -> i32
    ensures { result ≡ spec.int_of value.now }
{
    match value {
        Value::Int(number) => *number,
        Value::Bool(_) | Value::Str(_) | Value::Array(_) | Value::Ref(_) | Value::Null => 0,
    }
}

/// Whether a value is true; what is no boolean isn't.
#[tactic(auto, unfolding(sal_handler::specs::Values::is_true))]
pub fn is_true(value: &Value) -> bool
    ensures { result ≡ spec.is_true value.now }
{
    match value {
        Value::Bool(truth) => *truth,
        Value::Int(_) | Value::Str(_) | Value::Array(_) | Value::Ref(_) | Value::Null => false,
    }
}

/// The text that a value is; of what is no text, the empty one.
#[tactic(auto, unfolding(sal_handler::specs::Values::text_of))]
pub fn text_of(value: &Value) -> &[u8]
    ensures { result.now ≡ spec.text_of value.now }
{
    match value {
        Value::Str(text) => text.as_bytes(),
        Value::Int(_) | Value::Bool(_) | Value::Array(_) | Value::Ref(_) | Value::Null => &[],
    }
}

/// The items of an array; of what is no array, none.
#[tactic(auto, unfolding(sal_handler::specs::Values::items_of))]
pub fn items_of(value: &Value) -> &[Value]
    ensures { result.now ≡ spec.items_of value.now }
{
    match value {
        Value::Array(items) => items.as_slice(),
        Value::Int(_) | Value::Bool(_) | Value::Str(_) | Value::Ref(_) | Value::Null => &[],
    }
}

/// Whether a value is a text.
pub fn is_text_value(value: &Value) -> bool
    ensures { result ≡ spec.is_text_value value.now }
{
    match value {
        Value::Str(_) => true,
        Value::Int(_) | Value::Bool(_) | Value::Array(_) | Value::Ref(_) | Value::Null => false,
    }
}

/// The value of a number in the text.
pub fn literal_value(number: u32) -> Value
    ensures { result ≡ spec.literal_value number }
{
    Value::Int(number.cast_signed())
}
