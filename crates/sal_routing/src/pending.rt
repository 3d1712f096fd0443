use sal_mail::Creation;
use sal_value::{CloneIn, Name, NoMemory, Uan};
use std::alloc::Global;

/// A creation by an actor that stood here, which waits for its name.
#[derive(Drop)]
pub struct Pending {
    pub maker: Name,
    pub creation: Creation,
    /// Where the new actor is to stand.
    pub theatre: u8,
}

impl CloneIn for Pending {
    fn clone_in(&self, alloc: Global) -> Result<Pending, NoMemory> {
        Ok(Pending {
            maker: self.maker.clone_in(alloc)?,
            creation: self.creation.clone_in(alloc)?,
            theatre: self.theatre,
        })
    }
}

/// How far the question for a name has come.
#[derive(Clone, Copy, Debug, PartialEq, Eq)]
pub enum Asking {
    /// The answer is awaited.
    Awaited,
    /// It is asked again at this moment of the clock, or later.
    Again(u64),
    /// It has its answer for good.
    Settled,
}

/// A name for which its naming service was asked.
#[derive(Drop)]
pub struct Question {
    pub name: Uan,
    pub asking: Asking,
}
