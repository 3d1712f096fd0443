//! What waits for replies: pending messages and open joins.

ghost use Rattle.std.specs.Prelude.{◌≡◌, Some, None, reverse, IfOk, OnOk, OnErr};
ghost use Rattle.std.specs.Option.{option_copied};
ghost use Rattle.std.specs.FinMap as fm;
ghost use Rattle.sal_mail.specs.declared.message.Reply.TheVariants as reply;
ghost use Rattle.sal_mail.specs.Message.{is_full};
ghost use Rattle.sal_source.specs.Table.{write, table_map};
ghost use Rattle.sal_source.specs.Keys.{made_key, message_key};
ghost use Rattle.sal_source.specs.code.Lists.{AnyOf};
ghost use Rattle.sal_source.specs.code.Possible as possible;
ghost use Rattle.std.specs.List.{list_any};
ghost use Rattle.sal_source.specs.Give as give;
ghost use Rattle.sal_source.specs.Step as step;
ghost use Rattle.sal_source.specs.code.Changes.{option_list, GivesOne, GivesNext, Settles, Opens, OpensAll};

use crate::actors::Actors;
use crate::open_joins::OpenJoins;
use crate::{made, messages};
use sal_mail::{Join, Message, Reply, Target};
use sal_value::{List, Name, NoMemory, Value};
use std::alloc::Global;
use std::marker::Model;
use std::mem;

fn has_receiver(to: &Target, actors: &Actors) -> bool
    ensures { result ≡ possible.has_receiver actors.now to.now }
{
    match to {
        Target::Output => true,
        Target::Actor(name) => actors.contains(name),
    }
}

fn is_possible(message: &Message, actors: &Actors) -> bool
    ensures { result ≡ possible.is_possible actors.now message.now }
{
    message.is_ready() && has_receiver(&message.target, actors)
}

fn some_possible(messages: &[Message], actors: &Actors) -> bool
    ensures { result ≡ list_any (possible.is_possible actors.now) messages.now }
{
    for message in messages {
        if is_possible(message, actors) {
            return true;
        }
    }
    false
}

/// The pending messages, and the open joins with their makers.
#[derive(Drop)]
pub struct Waiting {
    messages: List<Message>,
    joins: OpenJoins,
}

impl Model for Waiting {
    ghost use Rattle.sal_source.specs.Table.{table_of};
    ghost use Rattle.sal_source.specs.Keys.{message_key};
    ghost use Rattle.sal_source.specs.code.Lists.{AreDistinct};
    ghost use Rattle.sal_source.specs.Configuration as configuration;

    ghost Value = { configuration.Waiting };

    ghost coded = { configuration.waiting_code };

    ghost view = { λ w. record { messages = table_of message_key w.messages; joins = w.joins } };

    ghost invariant = { λ w. AreDistinct message_key w.messages };
}

impl Waiting {
    pub fn new(alloc: Global) -> Waiting
        ensures { result ≡ record { messages = fm.empty; joins = fm.empty } }
    {
        Waiting {
            messages: List::new(alloc),
            joins: OpenJoins::new(alloc),
        }
    }

    /// How many messages and how many joins there are.
    pub fn counts(&self) -> (usize, usize)
        ensures { result ≡ (fm.len self.now.messages, fm.len self.now.joins) }
    {
        (self.messages.len(), self.joins.len())
    }

    /// Whether a message is ready that goes to the output or to one of these actors.
    pub fn any_possible(&self, actors: &Actors) -> bool
        ensures { AnyOf message_key (possible.is_possible actors.now) self.now.messages result }
    {
        some_possible(self.messages.as_slice(), actors)
    }

    /// The pending message with this maker and number.
    pub fn message(&self, maker: &Name, serial: u64) -> Option<&Message>
        ensures { option_copied result ≡ fm.get self.now.messages (made_key maker.now serial) }
    {
        made::get(&self.messages, maker, serial)
    }

    /// Takes out the pending message with this maker and number.
    pub fn take(&mut self, maker: &Name, serial: u64) -> Option<Message>
        ensures taken { result ≡ fm.get self.old.messages (made_key maker.now serial) }
        ensures rest { self.new ≡ record self.old { messages = write self.old.messages (made_key maker.now serial) None } }
    {
        made::take(&mut self.messages, maker, serial)
    }

    /// Puts the message, without its delay, among the pending ones.
    pub fn put_message(&mut self, message: Message) -> Result<(), NoMemory>
        ensures ok { OnOk result (self.new ≡ record self.old { messages = step.put_message message self.old.messages }) }
        ensures err { OnErr result (self.new ≡ self.old) }
    {
        made::put(&mut self.messages, message.without_delay())
    }

    /// Puts the messages, from the last one on.
    pub fn put_messages(&mut self, messages: List<Message>) -> Result<(), NoMemory>
        ensures { OnOk result (self.new ≡ record self.old { messages = step.put_messages messages self.old.messages }) }
    {
        let mut left = messages;
        while let Some(message) = left.pop() {
            self.put_message(message)?;
        }
        Ok(())
    }

    fn put_join(&mut self, maker: Name, join: Join) -> Result<(), NoMemory>
        ensures { OnOk result (self.new ≡ record self.old { joins = step.put_join maker join self.old.joins }) }
    {
        self.joins.put(maker, join)
    }

    /// Opens the join, or lists its array where it is full.
    fn open(
        &mut self,
        alloc: Global,
        maker: &Name,
        join: Join,
        left: &mut List<(Reply, Value)>,
    ) -> Result<(), NoMemory>
        ensures { OnOk result (Opens maker.now join self.old self.new left.old left.new) }
    {
        if join.is_full() {
            left.push(join.into_reply(alloc)?)
        } else {
            self.put_join(maker.clone_in(alloc)?, join)
        }
    }

    /// Opens the joins, from the last one on, and lists the arrays of those that are full.
    pub fn open_all(
        &mut self,
        alloc: Global,
        maker: &Name,
        joins: List<Join>,
        left: &mut List<(Reply, Value)>,
    ) -> Result<(), NoMemory>
        ensures { OnOk result (OpensAll maker.now joins self.old self.new left.old left.new) }
    {
        let mut more = joins;
        while let Some(join) = more.pop() {
            self.open(alloc, maker, join, left)?;
        }
        Ok(())
    }

    fn resolve(
        &mut self,
        alloc: Global,
        maker: &Name,
        number: u64,
        value: &Value,
    ) -> Result<(), NoMemory>
        ensures { OnOk result (self.new ≡ record self.old { messages = table_map (give.resolve maker.now number value.now) self.old.messages }) }
    {
        let old = mem::replace(&mut self.messages, List::new(alloc));
        self.messages = messages::resolve_all(alloc, maker, number, value, old)?;
        Ok(())
    }

    /// Fills the place of the join, and gives its array where it is full then.
    fn fill(
        &mut self,
        alloc: Global,
        maker: Name,
        number: u64,
        at: u32,
        value: Value,
    ) -> Result<Option<(Reply, Value)>, NoMemory>
        ensures waiting { OnOk result (self.new ≡ give.give_to (reply.Place maker number at) value self.old) }
        ensures gives { IfOk result (λ more. option_list more ≡ give.replies_from (reply.Place maker number at) value self.old) }
    {
        let Some((maker, mut join)) = self.joins.take(maker, number) else {
            return Ok(None);
        };
        join.fill(at, value);
        if join.is_full() {
            return Ok(Some(join.into_reply(alloc)?));
        }
        self.put_join(maker, join)?;
        Ok(None)
    }

    /// Gives one reply, and answers the reply that it makes due, if any.
    fn give_one(
        &mut self,
        alloc: Global,
        answers: &mut List<(u64, Value)>,
        reply: Reply,
        value: Value,
    ) -> Result<Option<(Reply, Value)>, NoMemory>
        ensures { IfOk result (λ more. GivesOne (reply, value) self.old self.new answers.old answers.new (option_list more)) }
    {
        if !value.legal() {
            return Ok(None);
        }
        match reply {
            Reply::Nobody => Ok(None),
            Reply::Tok(maker, number) => {
                self.resolve(alloc, &maker, number, &value)?;
                Ok(None)
            }
            Reply::Place(maker, join, at) => self.fill(alloc, maker, join, at, value),
            Reply::Outside(number) => {
                answers.push((number, value))?;
                Ok(None)
            }
        }
    }

    fn give_next(
        &mut self,
        alloc: Global,
        answers: &mut List<(u64, Value)>,
        left: &mut List<(Reply, Value)>,
        reply: Reply,
        value: Value,
    ) -> Result<(), NoMemory>
        ensures { OnOk result (GivesNext (reply, value) self.old self.new answers.old answers.new left.old left.new) }
    {
        match self.give_one(alloc, answers, reply, value)? {
            Some(more) => left.push(more),
            None => Ok(()),
        }
    }

    /// Gives the replies, from the last one of the list on.
    pub fn settle(
        &mut self,
        alloc: Global,
        answers: &mut List<(u64, Value)>,
        replies: List<(Reply, Value)>,
    ) -> Result<(), NoMemory>
        ensures { OnOk result (Settles (reverse replies) self.old self.new answers.old answers.new) }
    {
        let mut left = replies;
        while let Some((reply, value)) = left.pop() {
            self.give_next(alloc, answers, &mut left, reply, value)?;
        }
        Ok(())
    }
}
