//! In which order the turns of one theatre come. Nothing is proved of the order but that it ends: what a
//! run is made of are the steps of `sal_source`, which refuse what isn't possible.

use sal_mail::{Answer, Effects, Join, Message, Piece, Reply, Target};
use sal_value::{CloneIn, Name, NoMemory, Value};
use std::alloc::Global;
use std::collections::{BTreeMap, BTreeSet, VecDeque};

/// A message, as the order of turns sees it.
#[derive(Drop)]
pub struct Entry {
    pub maker: Name,
    pub serial: u64,
    pub is_print: bool,
    pub reply: Reply,
    /// Milliseconds.
    delay: u32,
}

/// What is sent: a message that waits for nothing, or a reply.
#[derive(Drop)]
enum Item {
    Message(Entry),
    Reply(Reply, Value),
}

/// A message that waits for so many replies.
#[derive(Drop)]
struct Waiting {
    entry: Entry,
    replies: usize,
}

/// The number that a maker gave to a message, a join or a token.
type Made = (u64, Name);

/// The lists of a theatre.
#[derive(Drop)]
pub struct Order {
    /// Milliseconds.
    clock: u64,
    ready: VecDeque<Entry>,
    /// Delayed messages by their moments, and of one moment in the order in which they came.
    delayed: BTreeMap<(u64, u64), Entry>,
    /// How many messages were delayed so far.
    delays: u64,
    waiting: BTreeMap<Made, Waiting>,
    /// Which messages of its maker wait for a reply.
    awaited: BTreeMap<Made, Vec<u64>>,
    joins: BTreeMap<Made, Join>,
    /// The number of the next new actor.
    next: u64,
}

fn is_print(target: &Target) -> bool {
    match target {
        Target::Output => true,
        Target::Actor(_) => false,
    }
}

fn entry_of(alloc: Global, message: &Message) -> Result<Entry, NoMemory> {
    Ok(Entry {
        maker: message.maker.clone_in(alloc)?,
        serial: message.serial,
        is_print: is_print(&message.target),
        reply: message.reply.clone_in(alloc)?,
        delay: message.delay,
    })
}

/// The numbers of the replies for which the message waits.
fn awaited_by(alloc: Global, message: &Message) -> Result<BTreeSet<u64>, NoMemory> {
    let mut numbers = BTreeSet::new(alloc);
    for piece in message.args.as_slice() {
        if let Piece::Token(number) = piece {
            numbers.insert(*number)?;
        }
    }
    for number in message.after.as_slice() {
        numbers.insert(*number)?;
    }
    Ok(numbers)
}

impl Order {
    /// The order of a theatre whose only actor is `anon:0:0`.
    pub fn new(alloc: Global) -> Order {
        Order {
            clock: 0,
            ready: VecDeque::new(alloc),
            delayed: BTreeMap::new(alloc),
            delays: 0,
            waiting: BTreeMap::new(alloc),
            awaited: BTreeMap::new(alloc),
            joins: BTreeMap::new(alloc),
            next: 1,
        }
    }

    /// The message `act` is ready.
    pub fn begin(&mut self) -> Result<(), NoMemory> {
        self.ready.push_back(Entry {
            maker: Name::Outside(0),
            serial: 0,
            is_print: false,
            reply: Reply::Nobody,
            delay: 0,
        })?;
        Ok(())
    }

    /// How many messages are ready.
    pub fn ready(&self) -> usize {
        self.ready.len()
    }

    /// Whether no message is ready or delayed.
    pub fn is_quiet(&self) -> bool {
        self.ready.is_empty() && self.delayed.is_empty()
    }

    /// The number of the next new actor.
    pub fn next(&self) -> u64 {
        self.next
    }

    /// Takes the first ready message.
    pub fn take(&mut self) -> Option<Entry> {
        self.ready.pop_front()
    }

    /// The clock goes on by so many milliseconds, and the messages that are due are ready.
    pub fn pass(&mut self, milliseconds: u64) -> Result<(), NoMemory> {
        self.clock = self.clock.saturating_add(milliseconds);
        for _ in 0..self.delayed.len() {
            let Some((moment, _)) = self.first_delayed() else {
                return Ok(());
            };
            if moment > self.clock {
                return Ok(());
            }
            if let Some((_, entry)) = self.delayed.pop_first() {
                self.ready.push_back(entry)?;
            }
        }
        Ok(())
    }

    fn first_delayed(&self) -> Option<(u64, u64)> {
        match self.delayed.first_key_value() {
            Some((moment, _)) => Some(*moment),
            None => None,
        }
    }

    /// A handler ended well: what it made waits or is sent, and then its answer.
    pub fn handled(
        &mut self,
        alloc: Global,
        maker: &Name,
        effects: &Effects,
        reply: &Reply,
    ) -> Result<(), NoMemory> {
        self.next = self.next.saturating_add(effects.actors.len() as u64);
        let mut items = VecDeque::new(alloc);
        for message in effects.messages.as_slice() {
            self.add_message(alloc, message, &mut items)?;
        }
        for join in effects.joins.as_slice() {
            self.add_join(alloc, maker, join, &mut items)?;
        }
        if let Answer::Value(value) = &effects.answer {
            items.push_back(Item::Reply(reply.clone_in(alloc)?, value.clone_in(alloc)?))?;
        }
        self.send(alloc, items)
    }

    /// A message was printed: null is its reply.
    pub fn printed(&mut self, alloc: Global, reply: Reply) -> Result<(), NoMemory> {
        let mut items = VecDeque::new(alloc);
        items.push_back(Item::Reply(reply, Value::Null))?;
        self.send(alloc, items)
    }

    fn add_message(
        &mut self,
        alloc: Global,
        message: &Message,
        items: &mut VecDeque<Item>,
    ) -> Result<(), NoMemory> {
        let entry = entry_of(alloc, message)?;
        if message.is_ready() {
            items.push_back(Item::Message(entry))?;
            return Ok(());
        }
        let numbers = awaited_by(alloc, message)?;
        for number in numbers.iter() {
            self.add_awaited(alloc, *number, message)?;
        }
        let replies = numbers.len();
        let maker = message.maker.clone_in(alloc)?;
        self.waiting
            .insert((message.serial, maker), Waiting { entry, replies })?;
        Ok(())
    }

    fn add_awaited(
        &mut self,
        alloc: Global,
        number: u64,
        message: &Message,
    ) -> Result<(), NoMemory> {
        let key = (number, message.maker.clone_in(alloc)?);
        let serials = self.awaited.entry(key)?.or_insert(Vec::new(alloc));
        serials.push(message.serial)?;
        Ok(())
    }

    fn add_join(
        &mut self,
        alloc: Global,
        maker: &Name,
        join: &Join,
        items: &mut VecDeque<Item>,
    ) -> Result<(), NoMemory> {
        let join = join.clone_in(alloc)?;
        if join.is_full() {
            let (reply, value) = join.into_reply(alloc)?;
            items.push_back(Item::Reply(reply, value))?;
        } else {
            let key = (join.number, maker.clone_in(alloc)?);
            self.joins.insert(key, join)?;
        }
        Ok(())
    }

    /// Sends the items from the first one on. What an item releases is sent after the others.
    fn send(&mut self, alloc: Global, items: VecDeque<Item>) -> Result<(), NoMemory> {
        let mut items = items;
        for _ in 0..u64::MAX {
            match items.pop_front() {
                Some(Item::Message(entry)) => self.send_message(entry)?,
                Some(Item::Reply(reply, value)) => self.give(alloc, reply, value, &mut items)?,
                None => return Ok(()),
            }
        }
        Ok(())
    }

    fn send_message(&mut self, entry: Entry) -> Result<(), NoMemory> {
        if entry.delay == 0 {
            self.ready.push_back(entry)?;
            return Ok(());
        }
        let moment = self.clock.saturating_add(u64::from(entry.delay));
        self.delayed.insert((moment, self.delays), entry)?;
        self.delays = self.delays.saturating_add(1);
        Ok(())
    }

    fn give(
        &mut self,
        alloc: Global,
        reply: Reply,
        value: Value,
        items: &mut VecDeque<Item>,
    ) -> Result<(), NoMemory> {
        if !value.legal() {
            return Ok(());
        }
        match reply {
            Reply::Nobody | Reply::Outside(_) => Ok(()),
            Reply::Tok(maker, number) => self.give_token(alloc, maker, number, items),
            Reply::Place(maker, number, slot) => {
                self.fill(alloc, (number, maker), slot, value, items)
            }
        }
    }

    fn give_token(
        &mut self,
        alloc: Global,
        maker: Name,
        number: u64,
        items: &mut VecDeque<Item>,
    ) -> Result<(), NoMemory> {
        let key = (number, maker);
        let Some(serials) = self.awaited.remove(&key) else {
            return Ok(());
        };
        let (_, maker) = key;
        for serial in serials {
            let key = (serial, maker.clone_in(alloc)?);
            if self.is_last_reply(&key) {
                if let Some(waiting) = self.waiting.remove(&key) {
                    items.push_back(Item::Message(waiting.entry))?;
                }
            }
        }
        Ok(())
    }

    /// The message waits for one reply less. Whether that was the last one.
    fn is_last_reply(&mut self, key: &Made) -> bool {
        match self.waiting.get_mut(key) {
            Some(waiting) => {
                waiting.replies = waiting.replies.saturating_sub(1);
                waiting.replies == 0
            }
            None => false,
        }
    }

    fn fill(
        &mut self,
        alloc: Global,
        key: Made,
        slot: u32,
        value: Value,
        items: &mut VecDeque<Item>,
    ) -> Result<(), NoMemory> {
        let is_full = match self.joins.get_mut(&key) {
            Some(join) => {
                join.fill(slot, value);
                join.is_full()
            }
            None => false,
        };
        if !is_full {
            return Ok(());
        }
        if let Some(join) = self.joins.remove(&key) {
            let (reply, value) = join.into_reply(alloc)?;
            items.push_back(Item::Reply(reply, value))?;
        }
        Ok(())
    }
}
