ghost use Rattle.std.specs.Prelude.{◌≡◌};

use sal_value::NoMemory;

/// Why a reading stops.
#[derive(Clone, Copy, Debug, PartialEq, Eq)]
pub enum Fault {
    /// The bytes are no text of this kind.
    Wrong,
    Memory,
}

impl From<NoMemory> for Fault {
    ghost use Rattle.sal_literals.specs.declared.fault.Fault.TheVariants.{Memory};

    ghost from_gives = { λ _ e. e ≡ Memory };

    fn from(_: NoMemory) -> Fault {
        Fault::Memory
    }
}
