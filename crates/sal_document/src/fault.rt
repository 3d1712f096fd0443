//! Why words don't tell what is wanted.

ghost use Rattle.std.specs.Prelude.{◌≡◌};

use sal_value::NoMemory;

/// Why a reading of words stops.
#[derive(Clone, Copy, Debug, PartialEq, Eq)]
pub enum WordFault {
    /// They aren't of the form that is wanted.
    Wrong,
    Memory,
}

impl From<NoMemory> for WordFault {
    ghost use Rattle.sal_document.specs.declared.fault.WordFault.TheVariants.{Memory};

    ghost from_gives = { λ _ e. e ≡ Memory };

    fn from(_: NoMemory) -> WordFault {
        WordFault::Memory
    }
}
