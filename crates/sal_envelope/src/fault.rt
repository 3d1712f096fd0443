ghost use Rattle.std.specs.Prelude.{◌≡◌};

use sal_value::NoMemory;

/// Why a reading stops.
#[derive(Clone, Copy, Debug, PartialEq, Eq)]
pub enum Fault {
    /// The bytes end inside a field.
    Cut,
    /// A field is wrong that begins where so many bytes are left.
    Bad(usize),
    Memory,
}

impl From<NoMemory> for Fault {
    ghost use Rattle.sal_envelope.specs.declared.fault.Fault.TheVariants.{Memory};

    ghost from_gives = { λ _ e. e ≡ Memory };

    fn from(_: NoMemory) -> Fault {
        Fault::Memory
    }
}
