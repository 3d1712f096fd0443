//! The words for `act`.

ghost use Rattle.std.specs.Prelude.{◌≡◌, map, if◌then◌else◌, IfOk, Some, None};
ghost use Rattle.sal_value.specs.declared.value.Value.TheVariants.{Str, Array};
ghost use Rattle.sal_value.specs.Spelling.{is_legal};
ghost use Rattle.toml.specs.View.{table_view};
ghost use Rattle.sal_plan.specs.Plans.{Answers, lowest_from};
ghost use Rattle.sal_plan.specs.Rules as spec;

use crate::fault::PlanFault;
use crate::tables::has_other_key;
use sal_value::{List, NoMemory, Text, Value, Values};
use std::alloc::Global;
use toml::Table;

fn text_values(alloc: Global, texts: List<Text>) -> Result<Values, NoMemory>
    ensures { IfOk result (λ values. values ≡ map Str texts) }
{
    let mut values = List::new(alloc);
    for text in texts.into_vec() {
        values.push(Value::Str(text))?;
    }
    Ok(values)
}

/// The values, if they make a legal array.
fn legal_array(values: Values) -> Option<Values>
    ensures { result ≡ (if is_legal (Array values) then Some values else None) }
{
    let array = Value::Array(values);
    if !array.legal() {
        return None;
    }
    match array {
        Value::Array(values) => Some(values),
        Value::Int(_) => None,
        Value::Bool(_) => None,
        Value::Str(_text) => None,
        Value::Ref(_name) => None,
        Value::Null => None,
    }
}

/// The words of these texts in this table: Q8.
pub fn read_words(
    alloc: Global,
    texts: Option<List<Text>>,
    table: &Table,
) -> Result<Values, PlanFault>
    ensures { Answers (lowest_from 8 (spec.word_rules texts (table_view table.now))) (spec.words_of texts) result }
{
    let Some(texts) = texts else {
        return Err(PlanFault::Refused(8));
    };
    let Some(words) = legal_array(text_values(alloc, texts)?) else {
        return Err(PlanFault::Refused(8));
    };
    if has_other_key(table) {
        return Err(PlanFault::Refused(8));
    }
    Ok(words)
}
