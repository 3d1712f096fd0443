ghost use Rattle.std.specs.Prelude.{◌≡◌, IfOk};

use crate::list::List;
use crate::name::Name;
use crate::no_memory::NoMemory;
use crate::text::Text;
use std::alloc::Global;
use thiserror::Error;

/// What an array's innermost elements are, or what a value is that is no array.
#[derive(Clone, Copy, Debug, PartialEq, Eq)]
pub enum Base {
    Int,
    Bool,
    Str,
    /// References to actors of the behaviour with this number.
    Actor(u16),
    Void,
}

/// A type: a base in so many pairs of brackets.
#[derive(Clone, Copy, Debug, PartialEq, Eq)]
pub struct Sort {
    pub base: Base,
    pub dims: u8,
}

pub type Values = List<Value>;

/// A value of the language. Arrays are values, and references are names.
#[derive(Debug, Drop, PartialEq, Eq)]
pub enum Value {
    Int(i32),
    Bool(bool),
    Str(Text),
    Array(Values),
    Ref(Name),
    Null,
}

/// Why bytes are no value, name or envelope.
#[derive(Clone, Copy, Debug, PartialEq, Eq, Error)]
pub enum DecodeFault {
    #[error("the bytes end inside a field")]
    Cut,
    #[error("the field at byte {0} is wrong")]
    Bad(usize),
    #[error("no memory")]
    Memory,
}

impl Value {
    ghost use Rattle.sal_value.specs.declared.value.Value.{out-Value};
    ghost use Rattle.sal_value.specs.Membership.{belongs, belongs_alone};

    pub fn clone_in(&self, alloc: Global) -> Result<Value, NoMemory>
        ensures { IfOk result (λ v. v ≡ self.now) }
    {
        match self {
            Value::Int(number) => Ok(Value::Int(*number)),
            Value::Bool(truth) => Ok(Value::Bool(*truth)),
            Value::Str(text) => Ok(Value::Str(text.clone_in(alloc)?)),
            Value::Array(items) => {
                let mut copies = List::new(alloc);
                for item in items.as_slice() {
                    copies.push(item.clone_in(alloc)?)?;
                }
                Ok(Value::Array(copies))
            }
            Value::Ref(name) => Ok(Value::Ref(name.clone_in(alloc)?)),
            Value::Null => Ok(Value::Null),
        }
    }

    fn belongs_alone(&self, base: Base) -> bool
        ensures { result ≡ belongs_alone (out-Value self.now) base }
    {
        match self {
            Value::Int(_) => matches!(base, Base::Int),
            Value::Bool(_) => matches!(base, Base::Bool),
            Value::Str(_) => matches!(base, Base::Str),
            Value::Array(_) => false,
            Value::Ref(_) => matches!(base, Base::Actor(_)),
            Value::Null => matches!(base, Base::Actor(_) | Base::Void),
        }
    }

    /// Whether the value is of the type.
    #[tactic(auto, using(crate::proofs::Equations::belongs_zero, crate::proofs::Equations::belongs_array), unfolding(crate::specs::Membership::belongs_to))]
    pub fn belongs(&self, sort: Sort) -> bool
        ensures { result ≡ belongs self.now sort }
    {
        if sort.dims == 0 {
            return self.belongs_alone(sort.base);
        }
        match self {
            Value::Array(items) => {
                let inner = Sort {
                    base: sort.base,
                    dims: sort.dims - 1,
                };
                for item in items.as_slice() {
                    if !item.belongs(inner) {
                        return false;
                    }
                }
                true
            }
            Value::Int(_) | Value::Bool(_) | Value::Str(_) | Value::Ref(_) | Value::Null => false,
        }
    }
}
