//! Handlers are run by going through their trees.

ghost use Rattle.std.specs.Prelude.{◌≡◌};
ghost use Rattle.sal_handler.specs.Fits.{meaning_of};
ghost use Rattle.sal_source.specs.Runners.{StandsFor};

use sal_handler::{Began, Outcome, Turn};
use sal_source::Runner;
use sal_types::Typed;
use sal_value::{NoMemory, Values};
use std::alloc::Global;

/// Runs the handlers of a program by their trees.
#[derive(Drop)]
pub struct TreeRunner<'a> {
    program: &'a Typed,
}

impl<'a> TreeRunner<'a> {
    pub fn new(program: &'a Typed) -> TreeRunner<'a>
        ensures program { result.program.now ≡ program.now }
        ensures stands { StandsFor (meaning_of result.program.now) program.now }
    {
        TreeRunner { program }
    }
}

impl Runner for TreeRunner<'_> {
    ghost meaning = { λ it. meaning_of it.program.now };

    fn begin(&self, alloc: Global) -> Result<Began, NoMemory> {
        sal_walk::begin(alloc, self.program.program())
    }

    fn handle(&self, alloc: Global, turn: &Turn<'_>) -> Result<Outcome, NoMemory> {
        sal_walk::handle(alloc, self.program.program(), turn)
    }

    fn fits_call(&self, behavior: u16, handler: u16, args: &Values) -> bool {
        sal_walk::fits_call(self.program.program(), behavior, handler, args.as_slice())
    }

    fn fits_state(&self, behavior: u16, fields: &Values) -> bool {
        sal_walk::fits_state(self.program.program(), behavior, fields.as_slice())
    }
}
