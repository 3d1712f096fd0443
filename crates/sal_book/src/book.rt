ghost use Rattle.std.specs.Prelude.{◌≡◌, ◌+◌, ◌≤◌, [], ◌++◌, length, map, filter, filter_map, IfOk, OnOk, OnErr, IsTrue};
ghost use Rattle.std.specs.Vec.{vec_len, vec_capacity};
ghost use Rattle.sal_mail.specs.Message.{is_ready, with_reply};

use crate::released::Released;
use crate::{joins, messages};
use sal_mail::{Join, Message, Reply};
use sal_value::{CloneIn, List, NoMemory, Value, copies};
use std::alloc::Global;
use std::marker::Model;

/// The messages of an actor that wait for replies, and its open joins.
#[derive(Drop)]
pub struct Book {
    messages: Vec<Message>,
    joins: Vec<Join>,
}

impl Model for Book {
    ghost use Rattle.std.specs.Prelude.{◌≡◌, true, ◌&&◌};
    ghost use Rattle.sal_book.specs.Book as spec;

    ghost Value = { spec.Book };

    ghost coded = { spec.book_code };

    ghost view = { λ b. record { messages = b.messages.items; joins = b.joins.items } };

    ghost invariant = { λ b. (spec.rise (spec.message_numbers b.messages.items) && spec.rise (spec.join_numbers b.joins.items)) ≡ true };
}

impl Book {
    ghost use Rattle.sal_book.specs.Book as spec;

    pub fn new(alloc: Global) -> Book
        ensures { result ≡ spec.new_book }
    {
        Book {
            messages: Vec::new(alloc),
            joins: Vec::new(alloc),
        }
    }

    /// How many messages wait.
    pub fn waiting(&self) -> usize
        ensures { result ≡ length self.now.messages }
    {
        self.messages.len()
    }

    /// How many joins are open.
    pub fn joins(&self) -> usize
        ensures { result ≡ length self.now.joins }
    {
        self.joins.len()
    }

    /// The messages that wait, by rising numbers.
    pub fn waiting_messages(&self) -> &[Message]
        ensures { result.now ≡ self.now.messages }
    {
        self.messages.as_slice()
    }

    /// The open joins, by rising numbers.
    pub fn open_joins(&self) -> &[Join]
        ensures { result.now ≡ self.now.joins }
    {
        self.joins.as_slice()
    }

    /// Keeps those of the messages and joins that wait, and releases the rest.
    pub fn enter(
        &mut self,
        alloc: Global,
        messages: List<Message>,
        joins: List<Join>,
    ) -> Result<Released, NoMemory>
        requires messages { IsTrue (spec.may_follow (spec.message_numbers messages) self.old) }
        requires joins { IsTrue (spec.may_follow (spec.join_numbers joins) self.old) }
        ensures ok { OnOk result (self.new ≡ spec.book_after_entry messages joins self.old) }
        ensures released { IfOk result (λ it. it ≡ spec.released_by_entry messages joins) }
        ensures err { OnErr result (self.new ≡ self.old) }
    {
        let (messages, waiting) = messages::parted(alloc, messages)?;
        let (replies, open) = joins::parted(alloc, joins)?;
        self.messages.reserve(waiting.len())?;
        self.joins.reserve(open.len())?;
        // From here on nothing takes memory.
        push_all(&mut self.messages, waiting);
        push_all(&mut self.joins, open);
        Ok(Released { messages, replies })
    }

    fn give_token(
        &mut self,
        alloc: Global,
        number: u64,
        value: &Value,
    ) -> Result<Released, NoMemory>
        ensures ok { OnOk result (self.new ≡ record self.old { messages = filter spec.is_waiting (map (with_reply number value.now) self.old.messages) }) }
        ensures released { IfOk result (λ it. it ≡ record { messages = filter is_ready (map (with_reply number value.now) self.old.messages); replies = [] }) }
        ensures err { OnErr result (self.new ≡ self.old) }
    {
        let messages = messages::give(alloc, &mut self.messages, number, value)?;
        Ok(Released {
            messages,
            replies: List::new(alloc),
        })
    }

    fn give_place(
        &mut self,
        alloc: Global,
        number: u64,
        at: u32,
        value: Value,
    ) -> Result<Released, NoMemory>
        ensures ok { OnOk result (self.new ≡ record self.old { joins = filter_map (spec.join_after number at value) self.old.joins }) }
        ensures released { IfOk result (λ it. it ≡ record { messages = []; replies = spec.full_replies (spec.filled_joins number at value self.old.joins) }) }
        ensures err { OnErr result (self.new ≡ self.old) }
    {
        let replies = joins::give(alloc, &mut self.joins, number, at, value)?;
        Ok(Released {
            messages: List::new(alloc),
            replies,
        })
    }

    /// Gives the value to the messages that wait for it, or to the slot of the join. What waits no
    /// more is released.
    pub fn give(&mut self, alloc: Global, reply: &Reply, value: Value) -> Result<Released, NoMemory>
        requires { spec.IsOwedToBook reply.now self.old }
        ensures ok { OnOk result (self.new ≡ spec.book_after_reply reply.now value self.old) }
        ensures released { IfOk result (λ it. it ≡ spec.released_by_reply reply.now value self.old) }
        ensures err { OnErr result (self.new ≡ self.old) }
    {
        if !value.legal() {
            return Ok(Released::none(alloc));
        }
        match reply {
            Reply::Tok(_, number) => self.give_token(alloc, *number, &value),
            Reply::Place(_, join, at) => self.give_place(alloc, *join, *at, value),
            Reply::Nobody | Reply::Outside(_) => Ok(Released::none(alloc)),
        }
    }
}

impl CloneIn for Book {
    fn clone_in(&self, alloc: Global) -> Result<Book, NoMemory> {
        Ok(Book {
            messages: copies(alloc, self.messages.as_slice())?.into_vec(),
            joins: copies(alloc, self.joins.as_slice())?.into_vec(),
        })
    }
}

/// Puts the items at the end, where there is room for them.
fn push_all<T: Drop>(items: &mut Vec<T>, more: Vec<T>)
    requires { vec_len items.old + vec_len more ≤ vec_capacity items.old }
    ensures { items.new.items ≡ items.old.items ++ more.items }
{
    let mut more = more;
    items.append(&mut more).unwrap();
}
