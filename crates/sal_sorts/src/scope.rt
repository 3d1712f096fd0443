//! The names in scope, found by an index.

ghost use Rattle.std.specs.Prelude.{◌≡◌, [], ◌∷◌, ◌++◌, ◌-◌, length, take, Some, OnOk, OnErr};
ghost use Rattle.std.specs.Option.{option_copied};
ghost use Rattle.std.specs.List.{find};
ghost use Rattle.std.specs.Str.{bytes_eq};
ghost use Rattle.sal_sorts.specs.code.Indexes.{position_in, is_position};

use crate::variable::Variable;
use sal_value::{List, NoMemory, Text};
use std::alloc::Global;
use std::collections::BTreeMap;
use std::marker::Model;

/// Parameters, locals and tokens, the oldest first, with the position of the first of each name.
#[derive(Drop)]
pub struct Scope<'a> {
    variables: List<Variable<'a>>,
    index: BTreeMap<&'a [u8], usize>,
}

impl<'a> Model for Scope<'a> {
    ghost use Rattle.std.specs.Prelude.{List};
    ghost use Rattle.sal_sorts.specs.declared.variable.Variable as spec;
    ghost use Rattle.sal_sorts.specs.code.Indexes.{IsIndexOf};

    ghost Value = { List spec.Variable };

    ghost view = { λ s. s.variables };

    ghost invariant = { λ s. IsIndexOf s.index s.variables };
}

/// Whether the index has this position for the name.
fn is_at(index: &BTreeMap<&[u8], usize>, name: &[u8], position: usize) -> bool
    ensures { result ≡ is_position position (position_in name.now index.now) }
{
    match index.get(name) {
        None => false,
        Some(at) => *at == position,
    }
}

impl<'a> Scope<'a> {
    pub fn new(alloc: Global) -> Scope<'a>
        ensures { result ≡ [] }
    {
        Scope {
            variables: List::new(alloc),
            index: BTreeMap::new(alloc),
        }
    }

    pub fn len(&self) -> usize
        ensures { result ≡ length self.now }
    {
        self.variables.len()
    }

    /// The first variable of this name.
    pub fn find(&self, name: &Text) -> Option<&Variable<'a>>
        ensures { option_copied result ≡ find (λ v. bytes_eq v.name name.now) self.now }
    {
        match self.index.get(name.as_bytes()) {
            None => None,
            Some(position) => self.variables.get(*position),
        }
    }

    /// Adds the variable, the newest.
    pub fn push(&mut self, v: Variable<'a>) -> Result<(), NoMemory>
        ensures ok { OnOk result (self.new ≡ self.old ++ v.entry ∷ []) }
        ensures err { OnErr result (self.new ≡ self.old) }
    {
        let name = v.name.as_bytes();
        let position = self.variables.len();
        self.variables.push(v)?;
        if self.index.contains_key(name) {
            return Ok(());
        }
        match self.index.insert(name, position) {
            Ok(_) => Ok(()),
            Err(_) => {
                self.variables.truncate(position);
                Err(NoMemory)
            }
        }
    }

    /// Takes the newest variable away, if there is one.
    fn pop(&mut self)
        ensures { self.new ≡ take (length self.old - 1) self.old }
    {
        let Some(v) = self.variables.pop() else {
            return;
        };
        let name = v.name.as_bytes();
        if is_at(&self.index, name, self.variables.len()) {
            self.index.remove(name);
        }
    }

    /// Leaves only so many variables, the oldest.
    pub fn truncate(&mut self, most: usize)
        ensures { self.new ≡ take most self.old }
    {
        while self.len() > most {
            self.pop();
        }
    }
}
