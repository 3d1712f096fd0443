//! Whether values have spellings.

ghost use Rattle.std.specs.Prelude.{◌≡◌};
ghost use Rattle.std.specs.List.{list_all};
ghost use Rattle.sal_value.specs.Spelling.{fits, is_spelled};
ghost use Rattle.sal_envelope.specs.Spelling.{values_are_spelled};

use sal_value::Value;

/// Whether the value has a spelling with at most so many arrays in one another.
#[tactic(auto, using(sal_value::proofs::Equations::fits_null, sal_value::proofs::Equations::fits_int, sal_value::proofs::Equations::fits_bool, sal_value::proofs::Equations::fits_str, sal_value::proofs::Equations::fits_ref, crate::proofs::Fitting::fits_flat, crate::proofs::Fitting::fits_long))]
fn fits(value: &Value, depth: u8) -> bool
    ensures { result ≡ fits value.now depth }
{
    match value {
        Value::Null | Value::Int(_) | Value::Bool(_) => true,
        Value::Str(text) => text.len() <= 4096,
        Value::Ref(name) => name.has_spelling(),
        Value::Array(items) => {
            if depth == 0 || items.len() > 4096 {
                return false;
            }
            for item in items.as_slice() {
                if !fits(item, depth - 1) {
                    return false;
                }
            }
            true
        }
    }
}

pub fn is_spelled(value: &Value) -> bool
    ensures { result ≡ is_spelled value.now }
{
    fits(value, 64)
}

fn all_are_spelled(values: &[Value]) -> bool
    ensures { result ≡ list_all is_spelled values.now }
{
    values.iter().all(is_spelled)
}

/// Whether there are at most so many values, each with a spelling.
pub fn values_are_spelled(most: usize, values: &[Value]) -> bool
    ensures { result ≡ values_are_spelled most values.now }
{
    values.len() <= most && all_are_spelled(values)
}
