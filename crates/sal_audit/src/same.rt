//! Whether two things are the same, as contracts see them.

ghost use Rattle.std.specs.Prelude.{◌≡◌, ◌↔◌, IsTrue};

use sal_mail::{Actor, Fault, FaultKind};
use sal_value::{List, Name, Text, Value};

/// What can be held against another.
pub trait Same {
    fn same(&self, other: &Self) -> bool
        ensures { IsTrue result ↔ (self.now ≡ other.now) };
}

impl Same for u64 {
    fn same(&self, other: &u64) -> bool {
        *self == *other
    }
}

impl Same for Text {
    fn same(&self, other: &Text) -> bool {
        *self == *other
    }
}

impl Same for Name {
    fn same(&self, other: &Name) -> bool {
        self.is(other)
    }
}

impl Same for FaultKind {
    fn same(&self, other: &FaultKind) -> bool {
        *self == *other
    }
}

impl Same for Fault {
    fn same(&self, other: &Fault) -> bool {
        self.maker.same(&other.maker) && self.serial == other.serial && self.kind.same(&other.kind)
    }
}

impl<A: Same, B: Same> Same for (A, B) {
    fn same(&self, other: &(A, B)) -> bool {
        self.0.same(&other.0) && self.1.same(&other.1)
    }
}

impl<T: Same> Same for List<T> {
    fn same(&self, other: &List<T>) -> bool {
        same_items(self.as_slice(), other.as_slice())
    }
}

/// Whether the items are the same, each at its place.
pub fn same_items<T: Same>(items: &[T], others: &[T]) -> bool
    ensures { IsTrue result ↔ (items.now ≡ others.now) }
{
    if items.len() != others.len() {
        return false;
    }
    for (i, item) in items.iter().enumerate() {
        if !item.same(&others[i]) {
            return false;
        }
    }
    true
}

/// Whether the values are the same.
pub fn same_values(value: &Value, other: &Value) -> bool
    ensures { IsTrue result ↔ (value.now ≡ other.now) }
{
    match value {
        Value::Int(number) => is_int(*number, other),
        Value::Bool(truth) => is_bool(*truth, other),
        Value::Str(text) => is_text(text, other),
        Value::Ref(name) => is_reference(name, other),
        Value::Null => is_null(other),
        Value::Array(items) => match other {
            Value::Array(others) => {
                let items = items.as_slice();
                let others = others.as_slice();
                if items.len() != others.len() {
                    return false;
                }
                for (i, item) in items.iter().enumerate() {
                    if !same_values(item, &others[i]) {
                        return false;
                    }
                }
                true
            }
            Value::Int(_) | Value::Bool(_) | Value::Str(_) | Value::Ref(_) | Value::Null => false,
        },
    }
}

impl Same for Value {
    fn same(&self, other: &Value) -> bool {
        same_values(self, other)
    }
}

impl Same for Actor {
    fn same(&self, other: &Actor) -> bool {
        self.name.same(&other.name)
            && self.behavior == other.behavior
            && self.fields.same(&other.fields)
    }
}

fn is_int(number: i32, value: &Value) -> bool
    ensures { IsTrue result ↔ (Value.Int number ≡ value.now) }
{
    match value {
        Value::Int(other) => number == *other,
        Value::Bool(_) | Value::Str(_) | Value::Array(_) | Value::Ref(_) | Value::Null => false,
    }
}

fn is_bool(truth: bool, value: &Value) -> bool
    ensures { IsTrue result ↔ (Value.Bool truth ≡ value.now) }
{
    match value {
        Value::Bool(other) => truth == *other,
        Value::Int(_) | Value::Str(_) | Value::Array(_) | Value::Ref(_) | Value::Null => false,
    }
}

fn is_text(text: &Text, value: &Value) -> bool
    ensures { IsTrue result ↔ (Value.Str text.now ≡ value.now) }
{
    match value {
        Value::Str(other) => text.same(other),
        Value::Int(_) | Value::Bool(_) | Value::Array(_) | Value::Ref(_) | Value::Null => false,
    }
}

fn is_reference(name: &Name, value: &Value) -> bool
    ensures { IsTrue result ↔ (Value.Ref name.now ≡ value.now) }
{
    match value {
        Value::Ref(other) => name.same(other),
        Value::Int(_) | Value::Bool(_) | Value::Str(_) | Value::Array(_) | Value::Null => false,
    }
}

fn is_null(value: &Value) -> bool
    ensures { IsTrue result ↔ (Value.Null ≡ value.now) }
{
    match value {
        Value::Null => true,
        Value::Int(_) | Value::Bool(_) | Value::Str(_) | Value::Array(_) | Value::Ref(_) => false,
    }
}
