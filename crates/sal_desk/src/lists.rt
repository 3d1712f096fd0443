//! The lists of a theatre: a draft's changes take all their memory first.

ghost use Rattle.std.specs.Prelude.{◌≡◌, [], OnOk};
ghost use Rattle.std.specs.FinMap as fm;
ghost use Rattle.sal_entries.specs.Entries.{values};
ghost use Rattle.sal_queues.specs.Queues as queues;
ghost use Rattle.sal_desk.specs.code.Drafts.{without_held};

use crate::draft::Draft;
use crate::messages::{change_delayed, change_ready};
use crate::residents::Residents;
use sal_entries::Entries;
use sal_mail::Message;
use sal_move::Known;
use sal_queues::Queues;
use sal_routing::{Item, Pending, Question, Told};
use sal_value::{Name, NoMemory, Uan};
use std::alloc::Global;
use std::collections::VecDeque;

/// The lists that a turn changes.
#[derive(Drop)]
pub struct Lists {
    pub residents: Residents,
    pub ready: VecDeque<Message>,
    pub delayed: Vec<(u64, Message)>,
    pub held: Queues<Item>,
    pub pending: Entries<(u64, Name), Pending>,
    pub places: Entries<Uan, Known>,
    pub questions: Entries<Uan, Question>,
}

/// Lets go what is held for these names, and keeps the room for more.
fn empty_queues(held: &mut Queues<Item>, names: &[Name])
    ensures held { queues.filled held.new ≡ without_held names.now (queues.filled held.old) }
    ensures room { queues.KeepsRoom held.old held.new }
{
    for name in names {
        held.empty(name);
    }
}

/// Lets go what is held for the released names, and puts more at the ends of the queues.
fn change_held(held: &mut Queues<Item>, released: &[Name], more: Queues<Item>)
    requires { queues.HasRoomFor held.old more }
    ensures { queues.filled held.new ≡ queues.joined more (without_held released.now (queues.filled held.old)) }
{
    empty_queues(held, released);
    held.append(more);
}

impl Lists {
    ghost use Rattle.sal_desk.specs.code.Rooms.{HasRoom, LooksSame, AreChanged};

    pub fn new(alloc: Global) -> Lists
        ensures residents { values result.residents ≡ fm.empty }
        ensures ready { result.ready.items ≡ [] }
        ensures delayed { result.delayed.items ≡ [] }
        ensures held { queues.filled result.held ≡ fm.empty }
        ensures pending { values result.pending ≡ fm.empty }
        ensures places { values result.places ≡ fm.empty }
        ensures questions { values result.questions ≡ fm.empty }
    {
        Lists {
            residents: Residents::new(alloc),
            ready: VecDeque::new(alloc),
            delayed: Vec::new(alloc),
            held: Queues::new(alloc),
            pending: Entries::new(alloc),
            places: Entries::new(alloc),
            questions: Entries::new(alloc),
        }
    }

    /// Takes room for the changes.
    pub fn make_room_for(&mut self, alloc: Global, draft: &Draft) -> Result<(), NoMemory>
        ensures same { LooksSame self.old self.new }
        ensures room { OnOk result (HasRoom draft.now self.new) }
    {
        self.ready.reserve(draft.ready.len())?;
        self.delayed.reserve(draft.delayed.len())?;
        self.held.make_room(alloc, &draft.held)?;
        self.residents.make_room_for(alloc, &draft.residents)?;
        self.pending.make_room_for(alloc, &draft.pending)?;
        self.places.make_room_for(alloc, &draft.places)?;
        self.questions.make_room_for(alloc, &draft.questions)?;
        Ok(())
    }

    /// Makes the changes, for which there is room. Gives what is told.
    pub fn change(&mut self, draft: Draft) -> Told
        requires { HasRoom draft self.old }
        ensures lists { AreChanged draft self.old self.new }
        ensures told { result ≡ draft.told }
    {
        let Draft {
            residents,
            taken,
            left,
            ready,
            reached,
            delayed,
            released,
            held,
            pending,
            places,
            questions,
            arrived: _,
            clock: _,
            next_anon: _,
            work: _,
            sent: _,
            told,
        } = draft;
        change_ready(&mut self.ready, taken, left.as_slice(), ready);
        change_delayed(&mut self.delayed, reached, delayed);
        change_held(&mut self.held, released.as_slice(), held);
        self.residents.absorb(residents);
        self.pending.absorb(pending);
        self.places.absorb(places);
        self.questions.absorb(questions);
        told
    }
}
