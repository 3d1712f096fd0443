use sal_events::Report;
use sal_mail::{Actor, Fault};
use sal_source::Step;
use sal_value::{List, NoMemory, Text, Value};
use thiserror::Error;

/// How a world ended.
#[derive(Clone, Copy, Debug, PartialEq, Eq)]
pub enum End {
    AtRest,
    NotAtRest,
    PacketsFull,
}

/// What a document shows.
#[derive(Clone, Copy)]
pub struct Shown<'a> {
    /// That of the program's text.
    pub hash: &'a [u8; 32],
    pub trace: &'a [Step],
    /// The printed texts, each with its theatre.
    pub output: &'a [(u8, Text)],
    pub faults: &'a [Fault],
    pub answers: &'a [(u64, Value)],
    pub report: &'a Report,
    pub packets: usize,
    pub end: End,
}

/// What is read of a document.
#[derive(Drop)]
pub struct Replay {
    pub hash: [u8; 32],
    pub trace: List<Step>,
    pub output: List<Text>,
    pub faults: List<Fault>,
    pub answers: List<(u64, Value)>,
    /// The actors, each with its next number.
    pub actors: List<(Actor, u64)>,
    /// How many messages, creations and joins are pending.
    pub pending: (usize, usize, usize),
}

/// Why bytes are no document.
#[derive(Clone, Copy, Debug, PartialEq, Eq, Error)]
pub enum ReplayFault {
    #[error("line {line} isn't of the form that is wanted there")]
    Refused { line: u32 },
    #[error("no memory")]
    Memory,
}

impl From<NoMemory> for ReplayFault {
    ghost use Rattle.std.specs.Prelude.{◌≡◌};
    ghost use Rattle.sal_document.specs.declared.shown.ReplayFault.TheVariants.{Memory};

    ghost from_gives = { λ _ e. e ≡ Memory };

    fn from(_: NoMemory) -> ReplayFault {
        ReplayFault::Memory
    }
}
