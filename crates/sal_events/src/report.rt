use sal_mail::Actor;
use sal_value::List;

/// What is told of a world.
#[derive(Drop)]
pub struct Report {
    /// The actors in the order of names, each with its next number and its theatre.
    pub actors: List<(Actor, u64, u8)>,
    /// How many messages, creations and joins are pending.
    pub pending: (usize, usize, usize),
}
