ghost use Rattle.std.specs.Prelude.{◌≡◌, None};

use sal_value::{Name, Uan};

/// Whether a name was bound, or was taken before, for a creation.
#[derive(Drop)]
pub struct Decision {
    /// The maker of the creation, and its number.
    pub maker: Name,
    pub serial: u64,
    pub name: Uan,
    /// Where the actor stands, or will, if the name is bound.
    pub theatre: u8,
    pub bound: bool,
}

/// What a turn of a naming service's node tells.
#[derive(Drop)]
pub struct Turned {
    /// Whether it found something to do.
    pub took: bool,
    pub decision: Option<Decision>,
}

/// A turn that decides nothing.
pub fn turn_without_decision(took: bool) -> Turned
    ensures { result ≡ record { took = took; decision = None } }
{
    Turned {
        took,
        decision: None,
    }
}
