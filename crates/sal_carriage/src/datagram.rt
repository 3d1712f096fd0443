use sal_value::{List, NoMemory};
use thiserror::Error;

/// Bytes for a node.
#[derive(Drop, PartialEq, Eq)]
pub struct Datagram {
    pub to: u8,
    pub bytes: List<u8>,
}

/// What a link made of some bytes.
#[derive(Drop, PartialEq, Eq)]
pub enum Taken {
    /// The last fragment of this envelope.
    Envelope(List<u8>),
    /// A fragment that others follow.
    Part,
    /// A fragment that was taken before.
    Old,
    /// A fragment that comes too early.
    Ahead,
    Acknowledged,
    /// Nothing that the peer sent.
    Noise,
}

/// Why an envelope isn't sent.
#[derive(Clone, Copy, Debug, PartialEq, Eq, Error)]
pub enum OfferFault {
    #[error("the link has no numbers left")]
    Spent,
    #[error("no memory")]
    Memory,
}

impl From<NoMemory> for OfferFault {
    ghost use Rattle.std.specs.Prelude.{◌≡◌};
    ghost use Rattle.sal_carriage.specs.declared.datagram.OfferFault.TheVariants.{Memory};

    ghost from_gives = { λ _ e. e ≡ Memory };

    fn from(_: NoMemory) -> OfferFault {
        OfferFault::Memory
    }
}
