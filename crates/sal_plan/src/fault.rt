ghost use Rattle.std.specs.Prelude.{◌≡◌};

use sal_value::NoMemory;
use thiserror::Error;

/// Why a text is no plan.
#[derive(Clone, Copy, Debug, PartialEq, Eq, Error)]
pub enum PlanFault {
    /// The lowest rule that it breaks.
    #[error("plan refused Q{0}")]
    Refused(u8),
    #[error("no memory")]
    Memory,
}

impl From<NoMemory> for PlanFault {
    ghost use Rattle.sal_plan.specs.declared.fault.PlanFault.TheVariants.{Memory};

    ghost from_gives = { λ _ e. e ≡ Memory };

    fn from(_: NoMemory) -> PlanFault {
        PlanFault::Memory
    }
}
