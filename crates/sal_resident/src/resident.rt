use sal_book::Book;
use sal_mail::Message;
use sal_value::{List, Name, NoMemory, Values};
use thiserror::Error;

/// An actor where it stands, or on its way.
#[derive(Drop)]
pub struct Resident {
    pub name: Name,
    /// How often it moved.
    pub moves: u64,
    /// Its behaviour's number.
    pub behavior: u16,
    pub fields: Values,
    /// The number of what it makes next.
    pub serial: u64,
    pub book: Book,
    /// The calls that it takes along. Where it stands there are none: they are among its theatre's.
    pub mailbox: List<Message>,
}

/// Why an actor isn't packed.
#[derive(Clone, Copy, Debug, PartialEq, Eq, Error)]
pub enum PackFault {
    #[error("the actor is too large to move")]
    TooLarge,
    #[error("no memory")]
    Memory,
}

impl From<NoMemory> for PackFault {
    ghost use Rattle.std.specs.Prelude.{◌≡◌};
    ghost use Rattle.sal_resident.specs.declared.resident.PackFault.TheVariants.{Memory};

    ghost from_gives = { λ _ e. e ≡ Memory };

    fn from(_: NoMemory) -> PackFault {
        PackFault::Memory
    }
}
