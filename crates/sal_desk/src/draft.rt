//! What a turn will change.

ghost use Rattle.std.specs.Prelude.{◌≡◌};
ghost use Rattle.sal_routing.specs.State as spec;

use crate::parcels::Parcels;
use crate::residents::Residents;
use sal_entries::Entries;
use sal_mail::Message;
use sal_move::Known;
use sal_queues::Queues;
use sal_routing::{Item, Pending, Question, Told};
use sal_value::{List, Name, Uan};
use std::alloc::Global;
use std::collections::VecDeque;
use std::mem;

/// The changes of a turn, which are made all at once at its end; what is still to be routed; what will be sent; and
/// what is told.
#[derive(Drop)]
pub struct Draft {
    pub(crate) residents: Residents,
    /// The place of the ready message that is handled.
    pub(crate) taken: Option<usize>,
    /// Actors that leave with their ready calls.
    pub(crate) left: List<Name>,
    /// Messages that join the ready list.
    pub(crate) ready: List<Message>,
    /// Delayed messages whose moments are up to this one are delayed no more.
    pub(crate) reached: Option<u64>,
    /// Messages that join the delayed list.
    pub(crate) delayed: List<(u64, Message)>,
    /// Names for which nothing is held any more.
    pub(crate) released: List<Name>,
    /// What is held besides.
    pub(crate) held: Queues<Item>,
    pub(crate) pending: Entries<(u64, Name), Pending>,
    pub(crate) places: Entries<Uan, Known>,
    pub(crate) questions: Entries<Uan, Question>,
    /// The envelope that begins the turn, which is taken at its end: the node that it comes from, and how many
    /// fragments more are acknowledged.
    pub(crate) arrived: Option<(u8, usize)>,
    pub(crate) clock: u64,
    pub(crate) next_anon: u64,
    pub(crate) work: VecDeque<Item>,
    pub(crate) sent: Parcels,
    pub(crate) told: Told,
}

pub(crate) fn silence(alloc: Global) -> Told
    ensures { result ≡ spec.silence }
{
    Told {
        log: List::new(alloc),
        printed: List::new(alloc),
        faults: List::new(alloc),
        answers: List::new(alloc),
        made: List::new(alloc),
        moved: List::new(alloc),
        opened: List::new(alloc),
        given: List::new(alloc),
    }
}

impl Draft {
    ghost use Rattle.sal_desk.specs.code.Drafts.{desk_with, theatre_at};

    /// Changes that only take the ready message at this place, the delayed ones whose moments are reached, or the
    /// envelope that begins the turn.
    pub(crate) fn new(
        alloc: Global,
        clock: u64,
        next_anon: u64,
        taken: Option<usize>,
        reached: Option<u64>,
        arrived: Option<(u8, usize)>,
    ) -> Draft
        ensures arrived { result.arrived ≡ arrived }
        ensures desk { (t : spec.Theatre) → desk_with t result ≡ spec.desk (theatre_at clock next_anon taken reached arrived t) }
    {
        Draft {
            residents: Residents::new(alloc),
            taken,
            left: List::new(alloc),
            ready: List::new(alloc),
            reached,
            delayed: List::new(alloc),
            released: List::new(alloc),
            held: Queues::new(alloc),
            pending: Entries::new(alloc),
            places: Entries::new(alloc),
            questions: Entries::new(alloc),
            arrived,
            clock,
            next_anon,
            work: VecDeque::new(alloc),
            sent: Parcels::new(alloc),
            told: silence(alloc),
        }
    }

    /// What is told.
    pub fn told(&self) -> &Told
        ensures { result.now ≡ self.now.told }
    {
        &self.told
    }

    /// Takes out what is told.
    pub fn take_told(&mut self, alloc: Global) -> Told
        ensures told { result ≡ self.old.told }
        ensures rest { self.new ≡ record self.old { told = spec.silence } }
    {
        mem::replace(&mut self.told, silence(alloc))
    }
}
