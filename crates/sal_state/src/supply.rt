//! What new actors get: their names, and the fields with which they start.

ghost use Rattle.std.specs.Prelude.{◌≡◌, ◌<◌, [], Ok, false, IfOk};
ghost use Rattle.sal_handler.specs.Evaluation.{Yields};
ghost use Rattle.sal_handler.specs.Scopes.{fresh_name};
ghost use Rattle.sal_state.specs.Supplies.{Supply};

use sal_handler::{MOST_MADE, NO_THEATRE, Stop};
use sal_value::{List, Name, NoMemory, Values};
use std::alloc::Global;

/// What new actors get.
pub trait ActorSupply {
    ghost supply: { Self → Supply };

    /// Whether actors can be made at all.
    fn can_make(&self) -> bool
        ensures { result ≡ (supply self.now).makes };

    /// The name of the handler's new actor with this number, counted from 0.
    fn name(&self, alloc: Global, at: usize) -> Result<Name, NoMemory>
        requires { at < MOST_MADE }
        ensures { IfOk result (λ name. name ≡ fresh_name (supply self.now).names at) };

    /// The fields of a new actor of the behaviour with this number.
    fn fields(&self, alloc: Global, behavior: u16, args: Values) -> Result<Values, Stop>
        ensures { Yields ((supply self.now).fields behavior args) result };
}

/// Initialisers and constructors make no actors.
#[derive(Clone, Copy)]
pub struct NoActors;

impl ActorSupply for NoActors {
    ghost supply = { λ it. record { names = []; makes = false; fields = λ behavior args. Ok [] } };

    fn can_make(&self) -> bool {
        false
    }

    fn name(&self, _alloc: Global, at: usize) -> Result<Name, NoMemory> {
        Ok(Name::Anon(NO_THEATRE, at as u64))
    }

    fn fields(&self, alloc: Global, _behavior: u16, _args: Values) -> Result<Values, Stop> {
        Ok(List::new(alloc))
    }
}
