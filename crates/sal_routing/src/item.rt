use sal_mail::{Message, Reply};
use sal_value::{CloneIn, NoMemory, Value};
use std::alloc::Global;

/// A call or a reply that looks for its actor, with the count of hops that it carries if it is sent from here: 0
/// for what was made here, and one more than it had for what arrived.
#[derive(Drop)]
pub enum Item {
    Call(u32, Message),
    Answer(u32, Reply, Value),
}

impl CloneIn for Item {
    fn clone_in(&self, alloc: Global) -> Result<Item, NoMemory> {
        match self {
            Item::Call(hops, message) => Ok(Item::Call(*hops, message.clone_in(alloc)?)),
            Item::Answer(hops, reply, value) => Ok(Item::Answer(
                *hops,
                reply.clone_in(alloc)?,
                value.clone_in(alloc)?,
            )),
        }
    }
}
