//! What a turn will do, and what it did.

ghost use Rattle.std.specs.Prelude.{◌≡◌, false};
ghost use Rattle.sal_routing.specs.State.{silence};

use sal_desk::Draft;
use sal_routing::Told;
use sal_value::List;
use std::alloc::Global;

/// What a turn told, and whether it found something to do.
#[derive(Drop)]
pub struct Turned {
    pub took: bool,
    pub told: Told,
}

/// A turn that found something to do in a theatre, and isn't made yet.
#[derive(Drop)]
pub struct Prepared {
    pub(crate) draft: Draft,
}

impl Prepared {
    /// What the turn tells, unless it finds a link spent.
    pub fn told(&self) -> &Told
        ensures { result.now ≡ self.now.draft.told }
    {
        self.draft.told()
    }
}

/// A turn that tells nothing.
pub fn silent(alloc: Global, took: bool) -> Turned
    ensures { result ≡ record { took = took; told = silence } }
{
    Turned {
        took,
        told: Told {
            log: List::new(alloc),
            printed: List::new(alloc),
            faults: List::new(alloc),
            answers: List::new(alloc),
            made: List::new(alloc),
            moved: List::new(alloc),
            opened: List::new(alloc),
            given: List::new(alloc),
        },
    }
}

/// A turn that found nothing to do.
pub fn nothing(alloc: Global) -> Turned
    ensures { result ≡ record { took = false; told = silence } }
{
    silent(alloc, false)
}
