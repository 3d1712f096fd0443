//! What is in scope.

ghost use Rattle.std.specs.Prelude.{◌≡◌, map, OnOk};
ghost use Rattle.sal_handler.specs.Scopes.{variable_of};

use crate::members::{field_type, members_at};
use crate::sorts::type_sort;
use sal_ast::{Behavior, TypeName};
use sal_handler::Local;
use sal_value::{List, NoMemory, Sort, Text};
use std::alloc::Global;

/// A local that the text declares. A token has no type.
#[derive(Drop)]
pub struct Declared {
    pub name: Text,
    pub sort: Option<Sort>,
}

/// What the types of expressions depend on.
#[derive(Drop)]
pub struct Scope<'a> {
    pub behaviors: &'a [Behavior],
    /// The number of the behaviour that is looked at.
    pub mine: u16,
    /// The locals of the handler that runs.
    pub locals: &'a [Local],
    /// What the text declares after these.
    pub declared: List<Declared>,
}

impl<'a> Scope<'a> {
    ghost use Rattle.sal_ast.specs.Sorts as spec;
    ghost use Rattle.sal_infer.specs.Scopes.{scope_in, running_scope, declared_variable};
    ghost use Rattle.sal_infer.specs.code.Finding.{sort_named, Grows};

    /// The scope of a handler that runs.
    #[tactic(auto, using(crate::proofs::Naming::append_none))]
    pub fn new(
        alloc: Global,
        behaviors: &'a [Behavior],
        mine: u16,
        locals: &'a [Local],
    ) -> Scope<'a>
        ensures { scope_in result ≡ running_scope behaviors.now mine locals.now }
    {
        Scope {
            behaviors,
            mine,
            locals,
            declared: List::new(alloc),
        }
    }

    /// One more local, the newest.
    #[tactic(auto, using(crate::proofs::Naming::declared_more))]
    pub fn declare(&mut self, name: Text, sort: Option<Sort>) -> Result<(), NoMemory>
        ensures scope { OnOk result (scope_in self.new ≡ spec.scope_with_local name sort (scope_in self.old)) }
        ensures grows { Grows self.old self.new }
    {
        self.declared.push(Declared { name, sort })
    }

    fn local_sort(locals: &[Local], name: &[u8]) -> Option<Option<Sort>>
        ensures { result ≡ sort_named name.now (map variable_of locals.now) }
    {
        for local in locals {
            if local.name.as_bytes() == name {
                return Some(local.sort);
            }
        }
        None
    }

    fn declared_sort(declared: &[Declared], name: &[u8]) -> Option<Option<Sort>>
        ensures { result ≡ sort_named name.now (map declared_variable declared.now) }
    {
        for local in declared {
            if local.name.as_bytes() == name {
                return Some(local.sort);
            }
        }
        None
    }

    /// The type of the field of this name.
    #[tactic(auto, using(crate::proofs::Naming::field_sort_is))]
    pub fn field_sort(&self, name: &[u8]) -> Option<Sort>
        ensures { result ≡ spec.field_sort name.now (scope_in self.now) }
    {
        let sort = field_type(members_at(self.behaviors, self.mine), name)?;
        type_sort(sort, self.behaviors)
    }

    /// The type of the local of this name, or else of the field.
    #[tactic(auto, using(crate::proofs::Naming::name_sort_is))]
    pub fn name_sort(&self, name: &[u8]) -> Option<Sort>
        ensures { result ≡ spec.name_sort name.now (scope_in self.now) }
    {
        if let Some(sort) = Scope::local_sort(self.locals, name) {
            return sort;
        }
        if let Some(sort) = Scope::declared_sort(self.declared.as_slice(), name) {
            return sort;
        }
        self.field_sort(name)
    }
}
