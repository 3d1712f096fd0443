//! What is known where a node stands.

ghost use Rattle.std.specs.Prelude.{◌≡◌, Some, None, is_some, option_map, length, OnOk, OnErr};
ghost use Rattle.std.specs.Option.{option_copied};
ghost use Rattle.std.specs.List.{find};
ghost use Rattle.std.specs.Str.{bytes_eq};
ghost use Rattle.sal_sorts.specs.declared.sort.Base.TheVariants.{Actor};
ghost use Rattle.sal_sorts.specs.Sorts as sorts;
ghost use Rattle.sal_sorts.specs.code.Callees.{callee_type};

use crate::identifier::{Identifier, is_identifier, is_same_text};
use crate::member::{Callee, first_field, is_migrate};
use crate::scope::Scope;
use crate::sort::{Base, Sort};
use crate::variable::{MemberKind, Variable};
use sal_ast::Behavior;
use sal_value::{NoMemory, Text};
use std::alloc::Global;
use std::marker::Model;

/// The behaviours, the member around, and the names in scope.
#[derive(Drop)]
pub struct Environment<'a> {
    behaviors: &'a [Behavior],
    own: &'a Text,
    member: MemberKind,
    result: Sort<'a>,
    in_join: bool,
    scope: Scope<'a>,
}

impl<'a> Model for Environment<'a> {
    ghost use Rattle.sal_sorts.specs.Environments as spec;
    ghost use Rattle.sal_ast.specs.contracts.program.Behavior as behavior;
    ghost use Rattle.std.specs.Coded.{codes};

    ghost Value = { spec.Environment };

    ghost coded = { Prim.hlevel (codes, behavior.the_row.coded) };

    ghost view = { λ e. record {
      behaviors = e.behaviors.now;
      own = e.own.now;
      member = e.member;
      result = e.result;
      in_join = e.in_join;
      scope = e.scope;
    } };
}

/// The first behaviour of this name.
fn find_behavior<'a>(behaviors: &'a [Behavior], name: &Text) -> Option<&'a Behavior>
    ensures { option_copied result ≡ find (λ b. bytes_eq b.name.text name.now) behaviors.now }
{
    behaviors.iter().find(|b| is_same_text(&b.name.text, name))
}

/// The first behaviour of this name.
fn behavior_of_identifier<'a>(
    behaviors: &'a [Behavior],
    name: &Identifier<'_>,
) -> Option<&'a Behavior>
    ensures { option_copied result ≡ find (λ b. bytes_eq b.name.text name.now) behaviors.now }
{
    behaviors.iter().find(|b| is_identifier(&b.name.text, name))
}

impl<'a> Environment<'a> {
    ghost use Rattle.sal_sorts.specs.Environments as spec;

    /// In a member of the behaviour of this name.
    pub fn new(
        alloc: Global,
        behaviors: &'a [Behavior],
        own: &'a Text,
        member: MemberKind,
        gives: Sort<'a>,
    ) -> Environment<'a>
        ensures { result ≡ spec.member_environment behaviors.now own.now member gives.entry }
    {
        Environment {
            behaviors,
            own,
            member,
            result: gives,
            in_join: false,
            scope: Scope::new(alloc),
        }
    }

    #[tactic(auto, unfolding(crate::specs::Environments::behavior_with_name))]
    fn behavior_of(&self, name: &Identifier<'_>) -> Option<&'a Behavior>
        ensures { option_copied result ≡ spec.behavior_with_name name.now self.now }
    {
        behavior_of_identifier(self.behaviors, name)
    }

    #[tactic(auto, unfolding(crate::specs::Environments::has_behavior))]
    fn has_identifier(&self, name: &Identifier<'_>) -> bool
        ensures { result ≡ spec.has_behavior name.now self.now }
    {
        self.behavior_of(name).is_some()
    }

    /// The first behaviour of this name.
    #[tactic(auto, unfolding(crate::specs::Environments::behavior_with_name))]
    pub fn behavior(&self, name: &Text) -> Option<&'a Behavior>
        ensures { option_copied result ≡ spec.behavior_with_name name.now self.now }
    {
        find_behavior(self.behaviors, name)
    }

    #[tactic(auto, unfolding(crate::specs::Environments::has_behavior))]
    pub fn has_behavior(&self, name: &Text) -> bool
        ensures { result ≡ spec.has_behavior name.now self.now }
    {
        self.behavior(name).is_some()
    }

    fn is_actor_base(&self, base: &Base<'_>) -> bool
        ensures { result ≡ spec.is_actor_base self.now base.now }
    {
        match base {
            Base::Int => false,
            Base::Boolean => false,
            Base::Str => false,
            Base::Actor(name) => self.has_identifier(name),
            Base::Void => false,
            Base::Null => false,
        }
    }

    /// Whether it is a behaviour's sort.
    #[tactic(auto, unfolding(crate::specs::Environments::is_actor_sort))]
    pub fn is_actor(&self, sort: &Sort<'_>) -> bool
        ensures { result ≡ spec.is_actor_sort self.now sort.now }
    {
        self.is_actor_base(&sort.base) && sort.dims == 0
    }

    #[tactic(auto, unfolding(crate::specs::Environments::is_assignable))]
    pub fn is_assignable(&self, value: &Sort<'_>, to: &Sort<'_>) -> bool
        ensures { result ≡ spec.is_assignable self.now value.now to.now }
    {
        if value.is_null() {
            return self.is_actor(to);
        }
        value.is_same(to)
    }

    /// The field of this name of the behaviour around.
    #[tactic(auto, using(crate::proofs::Lookups::fields))]
    pub fn field(&self, name: &Text) -> Option<Variable<'a>>
        ensures { result ≡ spec.field_with_name name.now self.now }
    {
        match self.behavior(self.own) {
            None => None,
            Some(b) => first_field(b.members.as_slice(), name),
        }
    }

    /// The handler of this name of a behaviour.
    #[tactic(auto, using(crate::proofs::Lookups::handlers))]
    pub fn handler(&self, behavior: &Identifier<'_>, name: &Text) -> Option<Callee<'a>>
        ensures { option_map callee_type result ≡ spec.handler_with_name name.now (spec.behavior_with_name behavior.now self.now) }
    {
        if is_migrate(name) {
            return Some(Callee::Migrate);
        }
        match self.behavior_of(behavior) {
            None => None,
            Some(b) => Callee::first(b.members.as_slice(), name),
        }
    }

    /// The parameter, local or token of this name.
    #[tactic(auto, unfolding(crate::specs::Environments::local_with_name))]
    pub fn local(&self, name: &Text) -> Option<&Variable<'a>>
        ensures { option_copied result ≡ spec.local_with_name name.now self.now }
    {
        self.scope.find(name)
    }

    fn field_in_scope(&self, name: &Text) -> Option<Variable<'a>>
        ensures { result ≡ spec.field_in_scope self.now.member name.now self.now }
    {
        match self.member {
            MemberKind::Initialiser => None,
            MemberKind::Constructor => self.field(name),
            MemberKind::Handler => self.field(name),
        }
    }

    /// What the name stands for; a local hides a field.
    #[tactic(auto, unfolding(crate::specs::Environments::variable_with_name))]
    pub fn variable(&self, name: &Text) -> Option<Variable<'a>>
        ensures { result ≡ spec.variable_with_name name.now self.now }
    {
        match self.local(name) {
            Some(v) => Some(v.copy()),
            None => self.field_in_scope(name),
        }
    }

    /// Whether no parameter, local or token has this name.
    #[tactic(auto, unfolding(crate::specs::Environments::is_free))]
    pub fn is_free(&self, name: &Text) -> bool
        ensures { result ≡ spec.is_free name.now self.now }
    {
        self.local(name).is_none()
    }

    /// Brings a name into scope.
    pub fn bring(&mut self, v: Variable<'a>) -> Result<(), NoMemory>
        ensures ok { OnOk result (self.new ≡ spec.with_variable self.old (Some v.entry)) }
        ensures err { OnErr result (self.new ≡ self.old) }
    {
        self.scope.push(v)
    }

    /// How many names are in scope.
    pub fn names(&self) -> usize
        ensures { result ≡ length self.now.scope }
    {
        self.scope.len()
    }

    /// Leaves only the oldest names in scope.
    pub fn leave(&mut self, names: usize)
        ensures { self.new ≡ spec.with_oldest names self.old }
    {
        self.scope.truncate(names);
    }

    /// The sort of the actor itself.
    pub fn own_sort(&self) -> Sort<'a>
        ensures { result ≡ sorts.plain (Actor self.now.own) }
    {
        Sort::plain(Base::Actor(Identifier::new(self.own)))
    }

    pub fn member(&self) -> MemberKind
        ensures { result ≡ self.now.member }
    {
        self.member
    }

    /// The result of the handler around.
    pub fn result(&self) -> &Sort<'a>
        ensures { result.now ≡ self.now.result }
    {
        &self.result
    }

    /// Whether a join's block is around.
    pub fn in_join(&self) -> bool
        ensures { result ≡ self.now.in_join }
    {
        self.in_join
    }

    pub fn set_in_join(&mut self, in_join: bool)
        ensures { self.new ≡ record self.old { in_join = in_join } }
    {
        self.in_join = in_join;
    }
}
