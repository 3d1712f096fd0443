use sal_value::{CloneIn, NoMemory, Uan, Values};
use std::alloc::Global;

/// One event of a schedule. Theatres are nodes 0 to 7, and naming services nodes 8 to 11.
#[derive(Debug, Drop, PartialEq, Eq)]
pub enum Event {
    /// The theatre takes the ready item at this position.
    Step {
        theatre: u8,
        position: usize,
    },
    /// The node sends what is due.
    Push(u8),
    /// The packet with this number arrives at its receiver.
    Deliver(usize),
    /// So many milliseconds pass at the node.
    Clock {
        node: u8,
        ms: u64,
    },
    /// The actor of this name moves from one theatre to another.
    Move {
        theatre: u8,
        name: Uan,
        to: u8,
    },
    /// A call from outside at the theatre.
    Post {
        theatre: u8,
        number: u64,
        target: Uan,
        behavior: u16,
        handler: u16,
        args: Values,
    },
    /// The name is withdrawn at its naming service.
    Delete(Uan),
    /// At most so many rounds of pushes, deliveries, steps and clock readings, until all rests.
    Settle(u32),
}

impl CloneIn for Event {
    fn clone_in(&self, alloc: Global) -> Result<Event, NoMemory> {
        match self {
            Event::Step { theatre, position } => Ok(Event::Step {
                theatre: *theatre,
                position: *position,
            }),
            Event::Push(node) => Ok(Event::Push(*node)),
            Event::Deliver(packet) => Ok(Event::Deliver(*packet)),
            Event::Clock { node, ms } => Ok(Event::Clock {
                node: *node,
                ms: *ms,
            }),
            Event::Move { theatre, name, to } => Ok(Event::Move {
                theatre: *theatre,
                name: name.clone_in(alloc)?,
                to: *to,
            }),
            Event::Post {
                theatre,
                number,
                target,
                behavior,
                handler,
                args,
            } => Ok(Event::Post {
                theatre: *theatre,
                number: *number,
                target: target.clone_in(alloc)?,
                behavior: *behavior,
                handler: *handler,
                args: args.clone_in(alloc)?,
            }),
            Event::Delete(name) => Ok(Event::Delete(name.clone_in(alloc)?)),
            Event::Settle(rounds) => Ok(Event::Settle(*rounds)),
        }
    }
}
