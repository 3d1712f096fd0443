use sal_value::{Authority, List, Name, NoMemory, Uan, Values};
use thiserror::Error;

/// A step of a configuration.
#[derive(Drop)]
pub enum Step {
    /// A message is handled. `fresh` are the names of the actors that its handler makes.
    Handle {
        maker: Name,
        serial: u64,
        fresh: List<Name>,
    },
    /// A message to the output is printed.
    Print {
        maker: Name,
        serial: u64,
    },
    /// A pending creation comes to its name.
    Bind {
        maker: Name,
        serial: u64,
    },
    /// A pending creation is refused, since its name was given.
    Refuse {
        maker: Name,
        serial: u64,
    },
    /// A call from outside.
    Post {
        number: u64,
        target: Uan,
        behavior: u16,
        handler: u16,
        args: Values,
    },
}

/// The naming services that there are, and the words for `act`.
#[derive(Drop)]
pub struct Setup {
    pub authorities: List<Authority>,
    pub words: Values,
}

/// Why steps have no run.
#[derive(Clone, Copy, Debug, PartialEq, Eq, Error)]
pub enum PlayFault {
    #[error("step {0} isn't possible")]
    BadStep(usize),
    #[error("no memory")]
    Memory,
}

impl From<NoMemory> for PlayFault {
    ghost use Rattle.std.specs.Prelude.{◌≡◌};
    ghost use Rattle.sal_source.specs.declared.state.PlayFault.TheVariants.{Memory};

    ghost from_gives = { λ _ e. e ≡ Memory };

    fn from(_: NoMemory) -> PlayFault {
        PlayFault::Memory
    }
}
