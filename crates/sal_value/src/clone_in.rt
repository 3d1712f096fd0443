//! Copies, and lists of what can be copied.

ghost use Rattle.std.specs.Prelude.{◌≡◌, IfOk};

use crate::list::List;
use crate::name::{Authority, Name, Ual, Uan};
use crate::no_memory::NoMemory;
use crate::text::Text;
use crate::value::Value;
use std::alloc::Global;

/// What has a copy in this memory.
pub trait CloneIn: Drop {
    fn clone_in(&self, alloc: Global) -> Result<Self, NoMemory>
        ensures { IfOk result (λ it. it ≡ self.now) };
}

impl CloneIn for Text {
    fn clone_in(&self, alloc: Global) -> Result<Text, NoMemory> {
        Text::clone_in(self, alloc)
    }
}

impl CloneIn for Uan {
    fn clone_in(&self, alloc: Global) -> Result<Uan, NoMemory> {
        Uan::clone_in(self, alloc)
    }
}

impl CloneIn for Ual {
    fn clone_in(&self, alloc: Global) -> Result<Ual, NoMemory> {
        Ual::clone_in(self, alloc)
    }
}

impl CloneIn for Authority {
    fn clone_in(&self, alloc: Global) -> Result<Authority, NoMemory> {
        Authority::clone_in(self, alloc)
    }
}

impl CloneIn for Name {
    fn clone_in(&self, alloc: Global) -> Result<Name, NoMemory> {
        Name::clone_in(self, alloc)
    }
}

impl CloneIn for Value {
    fn clone_in(&self, alloc: Global) -> Result<Value, NoMemory> {
        Value::clone_in(self, alloc)
    }
}

impl<T: CloneIn> CloneIn for Option<T> {
    fn clone_in(&self, alloc: Global) -> Result<Option<T>, NoMemory> {
        match self {
            Some(item) => Ok(Some(item.clone_in(alloc)?)),
            None => Ok(None),
        }
    }
}

impl<A: CloneIn, B: CloneIn> CloneIn for (A, B) {
    fn clone_in(&self, alloc: Global) -> Result<(A, B), NoMemory> {
        let first = self.0.clone_in(alloc)?;
        let second = self.1.clone_in(alloc)?;
        Ok((first, second))
    }
}

impl<T: CloneIn> List<T> {
    pub fn clone_in(&self, alloc: Global) -> Result<List<T>, NoMemory>
        ensures { IfOk result (λ copy. copy ≡ self.now) }
    {
        copies(alloc, self.as_slice())
    }
}

/// The copies of the items.
pub fn copies<T: CloneIn>(alloc: Global, items: &[T]) -> Result<List<T>, NoMemory>
    ensures { IfOk result (λ copies. copies ≡ items.now) }
{
    let mut copies = List::new(alloc);
    for item in items {
        copies.push(item.clone_in(alloc)?)?;
    }
    Ok(copies)
}
