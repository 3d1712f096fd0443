//! Actors that stand in a theatre.

ghost use Rattle.std.specs.Prelude.{◌≡◌, [], ◌<◌, ◌+◌, ◌++◌, Some, IfOk, OnOk, OnErr};
ghost use Rattle.sal_book.specs.Book.{book_after_reply, released_by_reply, released_by_entry};
ghost use Rattle.sal_tidy.specs.Tidy.{IsTidy};
ghost use Rattle.sal_routing.specs.State.{newcomer, owner_of};
ghost use Rattle.sal_routing.specs.Routing.{with_book};
ghost use Rattle.sal_desk.specs.code.Effects.{MayTake, after_entry};

use sal_book::{Book, Released};
use sal_mail::{Actor, Join, Message, Reply};
use sal_resident::Resident;
use sal_value::{CloneIn, List, NoMemory, Value, Values};
use std::alloc::Global;
use std::marker::Model;
use std::mem;

/// An actor that stands in a theatre. Its book has messages of its own alone, and all numbers in it are below its
/// next one.
#[derive(Drop)]
pub struct Standing {
    resident: Resident,
}

impl Model for Standing {
    ghost use Rattle.sal_resident.specs.declared.resident.Resident as spec;
    ghost use Rattle.sal_desk.specs.code.Codes.{resident_code};
    ghost use Rattle.sal_tidy.specs.Tidy.{IsTidy};

    ghost Value = { spec.Resident };

    ghost coded = { resident_code };

    ghost view = { λ s. s.resident };

    ghost invariant = { λ s. IsTidy s.resident };
}

fn copy_of(alloc: Global, actor: &Resident) -> Result<Resident, NoMemory>
    ensures { IfOk result (λ r. r ≡ actor.now) }
{
    Ok(Resident {
        name: actor.name.clone_in(alloc)?,
        moves: actor.moves,
        behavior: actor.behavior,
        fields: actor.fields.clone_in(alloc)?,
        serial: actor.serial,
        book: actor.book.clone_in(alloc)?,
        mailbox: actor.mailbox.clone_in(alloc)?,
    })
}

impl Standing {
    /// An actor that has done nothing yet.
    pub fn new(alloc: Global, actor: Actor) -> Standing
        ensures { result ≡ newcomer actor }
    {
        Standing {
            resident: Resident {
                name: actor.name,
                moves: 0,
                behavior: actor.behavior,
                fields: actor.fields,
                serial: 0,
                book: Book::new(alloc),
                mailbox: List::new(alloc),
            },
        }
    }

    /// An actor that moved here, and the calls that it took along.
    pub fn arrive(alloc: Global, resident: Resident) -> (Standing, List<Message>)
        requires { IsTidy resident }
        ensures standing { result.0 ≡ record resident { mailbox = [] } }
        ensures calls { result.1 ≡ resident.mailbox }
    {
        let mut resident = resident;
        let calls = mem::replace(&mut resident.mailbox, List::new(alloc));
        (Standing { resident }, calls)
    }

    pub fn resident(&self) -> &Resident
        ensures resident { result.now ≡ self.now }
        ensures tidy { IsTidy self.now }
    {
        &self.resident
    }

    /// The reply enters its book. What it releases is given.
    pub fn give(&mut self, alloc: Global, reply: &Reply, value: Value) -> Result<Released, NoMemory>
        requires { owner_of reply.now ≡ Some self.old.name }
        ensures ok { OnOk result (self.new ≡ with_book (book_after_reply reply.now value self.old.book) self.old) }
        ensures released { IfOk result (λ it. it ≡ released_by_reply reply.now value self.old.book) }
        ensures err { OnErr result (self.new ≡ self.old) }
    {
        self.resident.book.give(alloc, reply, value)
    }

    /// What a handler leaves: fields, next number, and what waits enters the book. What waits for nothing is given.
    pub fn take_effects(
        &mut self,
        alloc: Global,
        fields: Values,
        serial: u64,
        messages: List<Message>,
        joins: List<Join>,
    ) -> Result<Released, NoMemory>
        requires { MayTake fields serial messages joins self.old }
        ensures ok { OnOk result (self.new ≡ after_entry fields serial messages joins self.old) }
        ensures released { IfOk result (λ it. it ≡ released_by_entry messages joins) }
        ensures err { OnErr result (self.new ≡ self.old) }
    {
        let released = self.resident.book.enter(alloc, messages, joins)?;
        self.resident.fields = fields;
        self.resident.serial = serial;
        Ok(released)
    }

    /// The actor as it is once it moved, with these calls that were ready for it.
    pub fn leaving(&self, alloc: Global, calls: List<Message>) -> Result<Resident, NoMemory>
        requires { self.now.moves < 18446744073709551615 }
        ensures { IfOk result (λ r. r ≡ record self.now { moves = self.now.moves + 1; mailbox = self.now.mailbox ++ calls }) }
    {
        let mut actor = copy_of(alloc, &self.resident)?;
        actor.moves += 1;
        actor.mailbox.append(calls)?;
        Ok(actor)
    }
}

impl CloneIn for Standing {
    fn clone_in(&self, alloc: Global) -> Result<Standing, NoMemory> {
        let resident = copy_of(alloc, &self.resident)?;
        Ok(Standing { resident })
    }
}
