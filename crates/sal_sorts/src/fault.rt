//! Why a program is refused.

ghost use Rattle.std.specs.Prelude.{◌≡◌};

use sal_value::NoMemory;
use std::alloc::AllocError;
use thiserror::Error;

/// The rule that is violated, and where; or memory ran out.
#[derive(Clone, Copy, Debug, PartialEq, Eq, Error)]
pub enum TypeFault {
    #[error("Y{rule} at {at}")]
    Refused { rule: u8, at: u32 },
    #[error("no memory")]
    Memory,
}

impl From<AllocError> for TypeFault {
    ghost use Rattle.sal_sorts.specs.declared.fault.TypeFault.TheVariants.{Memory};

    ghost from_gives = { λ _ e. e ≡ Memory };

    fn from(_: AllocError) -> TypeFault {
        TypeFault::Memory
    }
}

impl From<NoMemory> for TypeFault {
    ghost use Rattle.sal_sorts.specs.declared.fault.TypeFault.TheVariants.{Memory};

    ghost from_gives = { λ _ e. e ≡ Memory };

    fn from(_: NoMemory) -> TypeFault {
        TypeFault::Memory
    }
}
