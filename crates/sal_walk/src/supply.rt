//! What new actors of a handler get: their names, and the fields of their behaviour.

ghost use Rattle.std.specs.Prelude.{◌≡◌, ◌<◌, ◌≤◌, IfOk, List};
ghost use Rattle.sal_value.specs.declared.name.Name.{Name};
ghost use Rattle.sal_handler.specs.Scopes.{fresh_name};

use crate::new_fields::new_fields;
use sal_ast::Behavior;
use sal_handler::{MOST_MADE, NO_THEATRE, Stop};
use sal_state::ActorSupply;
use sal_value::{Name, NoMemory, Values};
use std::alloc::Global;

/// The names that the new actors of one handler take, in order. Past their end names are of no theatre.
pub trait FreshNames {
    ghost names: { Self → List Name };

    /// The name of the handler's new actor with this number, counted from 0.
    fn name(&self, alloc: Global, at: usize) -> Result<Name, NoMemory>
        requires { at < MOST_MADE }
        ensures { IfOk result (λ name. name ≡ fresh_name (names self.now) at) };
}

/// Names of a theatre, counted from a number on.
#[derive(Drop)]
pub struct TheatreNames {
    pub place: u32,
    pub fresh: u64,
    ghost room: { fresh ≤ 18446744073709550591 },
}

impl FreshNames for TheatreNames {
    ghost use Rattle.sal_handler.specs.Calls.{fresh_names};

    ghost names = { λ it. fresh_names it.place it.fresh };

    #[tactic(auto, using(crate::proofs::Names::fresh_name_is))]
    fn name(&self, _alloc: Global, at: usize) -> Result<Name, NoMemory> {
        Ok(Name::Anon(self.place, self.fresh + at as u64))
    }
}

/// These names.
#[derive(Drop)]
pub struct ListedNames<'a> {
    pub names: &'a [Name],
}

impl FreshNames for ListedNames<'_> {
    ghost names = { λ it. it.names.now };

    fn name(&self, alloc: Global, at: usize) -> Result<Name, NoMemory> {
        match self.names.get(at) {
            Some(name) => name.clone_in(alloc),
            None => Ok(Name::Anon(NO_THEATRE, at as u64)),
        }
    }
}

/// What new actors of a handler of these behaviours get.
#[derive(Drop)]
pub struct ProgramActors<'a, N> {
    pub behaviors: &'a [Behavior],
    pub names: &'a N,
}

impl<N: FreshNames> ActorSupply for ProgramActors<'_, N> {
    ghost use Rattle.std.specs.Prelude.{true};
    ghost use Rattle.sal_handler.specs.Handler as spec;

    ghost supply = { λ it. record { names = N.names it.names.now; makes = true; fields = spec.new_fields it.behaviors.now } };

    fn can_make(&self) -> bool {
        true
    }

    fn name(&self, alloc: Global, at: usize) -> Result<Name, NoMemory> {
        self.names.name(alloc, at)
    }

    fn fields(&self, alloc: Global, behavior: u16, args: Values) -> Result<Values, Stop> {
        new_fields(alloc, self.behaviors, behavior, args.as_slice())
    }
}
