ghost use Rattle.std.specs.Prelude.{◌≡◌};

use sal_value::NoMemory;
use thiserror::Error;

/// Why a line is no line of a schedule.
#[derive(Clone, Copy, Debug, PartialEq, Eq, Error)]
pub enum LineFault {
    /// The lowest rule that it breaks.
    #[error("line refused S{0}")]
    Refused(u8),
    #[error("no memory")]
    Memory,
}

/// Why a text is no schedule.
#[derive(Clone, Copy, Debug, PartialEq, Eq, Error)]
pub enum ScheduleFault {
    /// The first line that breaks a rule, counted from 1, and the lowest rule that it breaks.
    #[error("schedule refused S{rule} line {line}")]
    Refused { rule: u8, line: u32 },
    #[error("no memory")]
    Memory,
}

impl From<NoMemory> for LineFault {
    ghost use Rattle.sal_schedule.specs.declared.fault.LineFault.TheVariants.{Memory};

    ghost from_gives = { λ _ e. e ≡ Memory };

    fn from(_: NoMemory) -> LineFault {
        LineFault::Memory
    }
}

impl From<NoMemory> for ScheduleFault {
    ghost use Rattle.sal_schedule.specs.declared.fault.ScheduleFault.TheVariants.{Memory};

    ghost from_gives = { λ _ e. e ≡ Memory };

    fn from(_: NoMemory) -> ScheduleFault {
        ScheduleFault::Memory
    }
}
