//! What runs handlers.

ghost use Rattle.std.specs.Prelude.{◌≡◌, ◌≤◌, IfOk, IsTrue};
ghost use Rattle.sal_handler.specs.Calls.{Meaning, call};
ghost use Rattle.sal_source.specs.Runners.{behavior_or_migrate};

use sal_handler::{Began, Outcome, Turn};
use sal_value::{NoMemory, Values};
use std::alloc::Global;

/// What runs the handlers of one program.
pub trait Runner {
    /// What it means: the result of each call and of the beginning, and which calls and states fit.
    ghost meaning: { Self → Meaning };

    /// How the program begins.
    fn begin(&self, alloc: Global) -> Result<Began, NoMemory>
        ensures { IfOk result (λ began. began ≡ (meaning self.now).begin) };

    /// What one call does. Of `migrate` the number of the behaviour is the actor's, too.
    fn handle(&self, alloc: Global, turn: &Turn<'_>) -> Result<Outcome, NoMemory>
        requires state { IsTrue ((meaning self.now).fits_state turn.now.behavior turn.now.fields.now) }
        requires call { IsTrue ((meaning self.now).fits_call (behavior_or_migrate turn.now.behavior turn.now.handler) turn.now.handler turn.now.args.now) }
        requires fresh { turn.now.fresh ≤ 18446744073709550591 }
        ensures { IfOk result (λ outcome. outcome ≡ (meaning self.now).outcome (call turn.now)) };

    /// Whether these arguments fit the handler with these numbers. Takes no memory.
    fn fits_call(&self, behavior: u16, handler: u16, args: &Values) -> bool
        ensures { result ≡ (meaning self.now).fits_call behavior handler args.now };

    /// Whether the fields fit the behaviour with this number. Takes no memory.
    fn fits_state(&self, behavior: u16, fields: &Values) -> bool
        ensures { result ≡ (meaning self.now).fits_state behavior fields.now };
}

impl<R: Runner> Runner for &R {
    ghost meaning = { λ it. R.meaning it.now };

    fn begin(&self, alloc: Global) -> Result<Began, NoMemory> {
        (**self).begin(alloc)
    }

    fn handle(&self, alloc: Global, turn: &Turn<'_>) -> Result<Outcome, NoMemory> {
        (**self).handle(alloc, turn)
    }

    fn fits_call(&self, behavior: u16, handler: u16, args: &Values) -> bool {
        (**self).fits_call(behavior, handler, args)
    }

    fn fits_state(&self, behavior: u16, fields: &Values) -> bool {
        (**self).fits_state(behavior, fields)
    }
}
