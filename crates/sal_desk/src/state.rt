//! What a theatre keeps between two turns.

ghost use Rattle.std.specs.Prelude.{◌≡◌, true, nat_lt, length, slice_get, IfOk, OnOk, OnErr};
ghost use Rattle.std.specs.Option.{option_copied};
ghost use Rattle.std.specs.FinMap as fm;
ghost use Rattle.sal_entries.specs.Entries.{values};
ghost use Rattle.sal_queues.specs.Queues.{filled};
ghost use Rattle.sal_node.specs.Links.{has_few_nodes, take_datagram};
ghost use Rattle.sal_node.specs.Halves.{IsArrival, CanCompleteFrom, complete_from};
ghost use Rattle.sal_routing.specs.State as spec;
ghost use Rattle.sal_routing.specs.State.{new_theatre};
ghost use Rattle.sal_routing.specs.Handling as handling;
ghost use Rattle.sal_routing.specs.Turns as turns;
ghost use Rattle.sal_desk.specs.code.Drafts.{desk_with, CanFinish, Commits};

use crate::draft::Draft;
use crate::ending::{finish, prepare};
use crate::lists::Lists;
use crate::messages::is_any_reached;
use crate::questions::{again_due, is_any_asked_again};
use crate::residents::Residents;
use sal_carriage::{Arrival, Datagram};
use sal_entries::Entries;
use sal_mail::{Message, Plan};
use sal_move::Known;
use sal_node::{Links, Took};
use sal_queues::Queues;
use sal_routing::{Item, Pending, Question, Told};
use sal_value::{CloneIn, List, Name, NoMemory, Uan};
use std::alloc::Global;
use std::collections::VecDeque;
use std::marker::Model;

/// The lists of a theatre. Its plan has no more nodes than there are numbers for.
#[derive(Drop)]
pub struct State {
    pub(crate) me: u8,
    pub(crate) plan: Plan,
    pub(crate) lists: Lists,
    pub(crate) links: Links,
    pub(crate) clock: u64,
    pub(crate) next_anon: u64,
}

impl Model for State {
    ghost use Rattle.std.specs.Prelude.{◌≡◌, true};
    ghost use Rattle.sal_node.specs.Links.{has_few_nodes};
    ghost use Rattle.sal_entries.specs.Entries.{values};
    ghost use Rattle.sal_queues.specs.Queues.{filled};
    ghost use Rattle.sal_routing.specs.State as spec;
    ghost use Rattle.sal_desk.specs.code.Codes.{theatre_code};

    ghost Value = { spec.Theatre };

    ghost coded = { theatre_code };

    ghost view = { λ s. record {
      me = s.me;
      plan = s.plan;
      residents = values s.lists.residents;
      ready = s.lists.ready.items;
      delayed = s.lists.delayed.items;
      held = filled s.lists.held;
      pending = values s.lists.pending;
      places = values s.lists.places;
      questions = values s.lists.questions;
      links = s.links;
      clock = s.clock;
      next_anon = s.next_anon;
    } };

    ghost invariant = { λ s. has_few_nodes s.plan ≡ true };
}

fn is_none_ready(ready: &VecDeque<Message>) -> bool
    ensures { result ≡ turns.is_none ready.now.items }
{
    ready.is_empty()
}

fn is_none_delayed(delayed: &Vec<(u64, Message)>) -> bool
    ensures { result ≡ turns.is_none delayed.now.items }
{
    delayed.is_empty()
}

fn is_none_held(held: &Queues<Item>) -> bool
    ensures { result ≡ turns.is_none (fm.entries (filled held.now)) }
{
    held.is_empty()
}

fn is_none_pending(pending: &Entries<(u64, Name), Pending>) -> bool
    ensures { result ≡ turns.is_none (fm.entries (values pending.now)) }
{
    pending.is_empty()
}

/// Whether the reading is past the clock.
fn is_ahead(clock: u64, ms: u64) -> bool
    ensures { result ≡ nat_lt clock (spec.moment ms) }
{
    clock < ms
}

impl State {
    /// A theatre that has done nothing yet. The program's hash begins with these bytes.
    pub fn new(alloc: Global, me: u8, plan: &Plan, program: [u8; 8]) -> Result<State, NoMemory>
        requires { has_few_nodes plan.now ≡ true }
        ensures { IfOk result (λ s. s ≡ new_theatre me plan.now program) }
    {
        let links = Links::new(alloc, program, me, plan)?;
        let plan = plan.clone_in(alloc)?;
        Ok(State {
            me,
            plan,
            lists: Lists::new(alloc),
            links,
            clock: 0,
            next_anon: 0,
        })
    }

    // ---- what is asked of it

    /// Its number.
    pub fn me(&self) -> u8
        ensures { result ≡ self.now.me }
    {
        self.me
    }

    /// The plan.
    pub fn plan(&self) -> &Plan
        ensures plan { result.now ≡ self.now.plan }
        ensures few { has_few_nodes self.now.plan ≡ true }
    {
        &self.plan
    }

    /// How many messages are ready.
    pub fn ready(&self) -> usize
        ensures { result ≡ length self.now.ready }
    {
        self.lists.ready.len()
    }

    /// The ready message at this place.
    pub fn message(&self, i: usize) -> Option<&Message>
        ensures { option_copied result ≡ slice_get self.now.ready i }
    {
        self.lists.ready.get(i)
    }

    /// The actors that stand here, by name.
    pub fn residents(&self) -> &Residents
        ensures { values result.now ≡ self.now.residents }
    {
        &self.lists.residents
    }

    /// The delayed messages with their moments, in the order in which they joined.
    pub fn delayed(&self) -> &[(u64, Message)]
        ensures { result.now ≡ self.now.delayed }
    {
        self.lists.delayed.as_slice()
    }

    /// What is held for each name. An empty queue is only room.
    pub fn held(&self) -> &Queues<Item>
        ensures { filled result.now ≡ self.now.held }
    {
        &self.lists.held
    }

    /// The creations that wait for their names, by number and maker.
    pub fn pending(&self) -> &Entries<(u64, Name), Pending>
        ensures { values result.now ≡ self.now.pending }
    {
        &self.lists.pending
    }

    /// Where actors are known to be.
    pub fn places(&self) -> &Entries<Uan, Known>
        ensures { values result.now ≡ self.now.places }
    {
        &self.lists.places
    }

    /// The names for which a naming service was asked.
    pub fn questions(&self) -> &Entries<Uan, Question>
        ensures { values result.now ≡ self.now.questions }
    {
        &self.lists.questions
    }

    pub fn links(&self) -> &Links
        ensures { result.now ≡ self.now.links }
    {
        &self.links
    }

    /// The last reading of the clock.
    pub fn clock(&self) -> u64
        ensures { result ≡ self.now.clock }
    {
        self.clock
    }

    /// The number of the next anonymous actor.
    pub fn next_anon(&self) -> u64
        ensures { result ≡ self.now.next_anon }
    {
        self.next_anon
    }

    /// Whether too few numbers are left for anonymous actors.
    pub fn is_used_up(&self) -> bool
        ensures { result ≡ handling.is_used_up self.now }
    {
        18446744073709550591 < self.next_anon
    }

    /// Whether nothing is ready, delayed, held or creating, and all links are idle.
    #[tactic(auto, unfolding(sal_routing::specs::Turns::is_quiet))]
    pub fn quiet(&self) -> bool
        ensures { result ≡ turns.is_quiet self.now }
    {
        is_none_ready(&self.lists.ready)
            && is_none_delayed(&self.lists.delayed)
            && is_none_held(&self.lists.held)
            && is_none_pending(&self.lists.pending)
            && self.links.are_idle()
    }

    // ---- the links

    /// What is to be sent at this moment. None of it counts as sent yet.
    #[tactic(auto, unfolding(sal_routing::specs::Turns::due_datagrams))]
    pub fn due_datagrams(&self, alloc: Global) -> Result<List<Datagram>, NoMemory>
        ensures { IfOk result (λ ds. ds ≡ turns.due_datagrams self.now) }
    {
        self.links.due_datagrams(alloc, self.clock)
    }

    /// What is to be sent at this moment counts as sent. Takes no memory.
    #[tactic(auto, unfolding(sal_routing::specs::Turns::push))]
    pub fn push(&mut self)
        ensures { self.new ≡ turns.push self.old }
    {
        self.links.push(self.clock);
    }

    /// What is to be sent at this moment. It counts as sent.
    #[tactic(auto, unfolding(sal_routing::specs::Turns::due_datagrams, sal_routing::specs::Turns::push))]
    pub fn due(&mut self, alloc: Global) -> Result<List<Datagram>, NoMemory>
        ensures datagrams { IfOk result (λ ds. ds ≡ turns.due_datagrams self.old) }
        ensures ok { OnOk result (self.new ≡ turns.push self.old) }
        ensures err { OnErr result (self.new ≡ self.old) }
    {
        self.links.due(alloc, self.clock)
    }

    /// What the links make of a datagram.
    pub fn take(&mut self, alloc: Global, bytes: &[u8]) -> Result<Took, NoMemory>
        ensures taken { IfOk result (λ t. t.taken ≡ (take_datagram bytes.now self.old.links).taken) }
        ensures changed { IfOk result (λ t. t.changed ≡ (take_datagram bytes.now self.old.links).changed) }
        ensures ok { OnOk result (self.new ≡ record self.old { links = (take_datagram bytes.now self.old.links).links }) }
        ensures err { OnErr result (self.new ≡ self.old) }
    {
        self.links.take(alloc, bytes)
    }

    /// The envelope that a datagram completes, if it does. Nothing is taken yet.
    pub fn arrival(&self, alloc: Global, bytes: &[u8]) -> Result<Option<Arrival>, NoMemory>
        ensures { IfOk result (IsArrival bytes.now self.now.links) }
    {
        self.links.arrival(alloc, bytes)
    }

    /// Takes the fragment that completes an envelope of the peer, once `arrival` told of it. Takes no memory.
    pub fn complete(&mut self, alloc: Global, peer: u8, acknowledges: usize)
        requires { CanCompleteFrom peer acknowledges self.old.links }
        ensures { self.new ≡ record self.old { links = complete_from peer acknowledges self.old.links } }
    {
        self.links.complete(alloc, peer, acknowledges);
    }

    // ---- the clock

    /// The clock goes on to this reading, unless it is past it.
    pub fn read_clock(&mut self, ms: u64)
        ensures { self.new ≡ turns.at_reading ms self.old }
    {
        self.clock = self.clock.max(ms);
    }

    /// The names that are asked for again at this reading, in the order of names.
    #[tactic(auto, unfolding(sal_routing::specs::Turns::again_due))]
    pub fn again_due(&self, alloc: Global, ms: u64) -> Result<List<Uan>, NoMemory>
        ensures { IfOk result (λ names. names ≡ turns.again_due (turns.at_reading ms self.now)) }
    {
        again_due(alloc, &self.lists.questions, self.clock.max(ms))
    }

    /// Whether a turn at this reading finds something to do.
    #[tactic(auto, unfolding(sal_routing::specs::Turns::is_time, sal_routing::specs::Turns::reached, sal_routing::specs::Turns::again_due))]
    pub fn is_time(&self, ms: u64) -> bool
        ensures { result ≡ turns.is_time ms self.now }
    {
        is_ahead(self.clock, ms)
            || is_any_reached(self.lists.delayed.as_slice(), self.clock)
            || is_any_asked_again(&self.lists.questions, self.clock)
    }

    // ---- the end of a turn

    /// Makes all changes of the draft, offers what it sends, and gives what it tells. Where a link is spent, there is
    /// nothing to tell, and nothing changes.
    pub fn commit(&mut self, alloc: Global, draft: Draft) -> Result<Option<Told>, NoMemory>
        requires { CanFinish draft.arrived self.old.links }
        ensures ok { IfOk result (λ told. Commits self.old (desk_with self.old draft) told self.new) }
        ensures err { OnErr result (self.new ≡ self.old) }
    {
        match prepare(alloc, &mut self.lists, &mut self.links, &draft) {
            Ok(true) => {
                self.clock = draft.clock;
                self.next_anon = draft.next_anon;
                Ok(Some(finish(alloc, &mut self.lists, &mut self.links, draft)))
            }
            Ok(false) => {
                drop(draft);
                Ok(None)
            }
            Err(fault) => {
                drop(draft);
                Err(fault)
            }
        }
    }
}
