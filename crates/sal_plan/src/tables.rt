//! Lists of texts in a TOML table.

ghost use Rattle.std.specs.Prelude.{◌≡◌, option_map, IfOk};
ghost use Rattle.toml.specs.Data.{get_member};
ghost use Rattle.toml.specs.View.{view, items_view, table_view};
ghost use Rattle.sal_plan.specs.Rules as spec;

use sal_value::{List, NoMemory, Text};
use std::alloc::Global;
use toml::{Table, Value};

/// The texts, if each value is one.
#[tactic(auto, using(crate::proofs::TableTexts::texts_on, crate::proofs::TableTexts::no_text_at, crate::proofs::TableTexts::texts_end))]
fn texts_of_items(alloc: Global, items: &[Value]) -> Result<Option<List<Text>>, NoMemory>
    ensures { IfOk result (λ texts. texts ≡ spec.texts_of_items (items_view items.now)) }
{
    let mut texts = List::new(alloc);
    for item in items {
        match item.as_str() {
            Some(text) => texts.push(Text::from_text(alloc, text)?)?,
            None => return Ok(None),
        }
    }
    Ok(Some(texts))
}

/// The texts of a list of texts.
#[tactic(auto, using(crate::proofs::TableTexts::views))]
fn texts_of(alloc: Global, value: &Value) -> Result<Option<List<Text>>, NoMemory>
    ensures { IfOk result (λ texts. texts ≡ spec.texts_of (view value.now)) }
{
    match value {
        Value::Array(items) => texts_of_items(alloc, items.as_slice()),
        Value::String(_) => Ok(None),
        Value::Integer(_) => Ok(None),
        Value::Float(_) => Ok(None),
        Value::Boolean(_) => Ok(None),
        Value::Datetime(_) => Ok(None),
        Value::Table(_) => Ok(None),
    }
}

fn value_at<'a>(table: &'a Table, key: &str) -> Option<&'a Value>
    ensures { option_map (λ v. view v.now) result ≡ get_member key.now (table_view table.now) }
{
    table.get(key)
}

fn required_texts(alloc: Global, table: &Table, key: &str) -> Result<Option<List<Text>>, NoMemory>
    ensures { IfOk result (λ texts. texts ≡ spec.required_texts (get_member key.now (table_view table.now))) }
{
    match value_at(table, key) {
        Some(value) => texts_of(alloc, value),
        None => Ok(None),
    }
}

fn optional_texts(alloc: Global, table: &Table, key: &str) -> Result<Option<List<Text>>, NoMemory>
    ensures { IfOk result (λ texts. texts ≡ spec.optional_texts (get_member key.now (table_view table.now))) }
{
    match value_at(table, key) {
        Some(value) => texts_of(alloc, value),
        None => Ok(Some(List::new(alloc))),
    }
}

/// What stands at `theatres`.
#[tactic(auto, unfolding(crate::specs::Rules::theatre_texts))]
pub fn theatre_texts(alloc: Global, table: &Table) -> Result<Option<List<Text>>, NoMemory>
    ensures { IfOk result (λ texts. texts ≡ spec.theatre_texts (table_view table.now)) }
{
    required_texts(alloc, table, "theatres")
}

/// What stands at `names`.
#[tactic(auto, unfolding(crate::specs::Rules::service_texts))]
pub fn service_texts(alloc: Global, table: &Table) -> Result<Option<List<Text>>, NoMemory>
    ensures { IfOk result (λ texts. texts ≡ spec.service_texts (table_view table.now)) }
{
    optional_texts(alloc, table, "names")
}

/// What stands at `words`.
#[tactic(auto, unfolding(crate::specs::Rules::word_texts))]
pub fn word_texts(alloc: Global, table: &Table) -> Result<Option<List<Text>>, NoMemory>
    ensures { IfOk result (λ texts. texts ≡ spec.word_texts (table_view table.now)) }
{
    optional_texts(alloc, table, "words")
}

fn is_plan_key(key: &str) -> bool
    ensures { result ≡ spec.is_plan_key key.now }
{
    key == "theatres" || key == "names" || key == "words"
}

/// Whether another key than the three is there.
#[tactic(auto, using(crate::proofs::TableTexts::key_on, crate::proofs::TableTexts::other_here, crate::proofs::TableTexts::keys_end))]
pub fn has_other_key(table: &Table) -> bool
    ensures { result ≡ spec.has_other_key (table_view table.now) }
{
    for (key, _value) in table.iter() {
        if !is_plan_key(key.as_str()) {
            return true;
        }
    }
    false
}
