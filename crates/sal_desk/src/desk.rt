//! The desk on which a turn works.

ghost use Rattle.std.specs.Prelude.{◌≡◌, max, [], ◌∷◌, ◌++◌, filter, option_map, IfOk, IfSome, IfNone, OnOk};
ghost use Rattle.std.specs.Option.{option_copied, option_to_list};
ghost use Rattle.std.specs.FinMap as fm;
ghost use Rattle.sal_value.specs.Order.{uan_key};
ghost use Rattle.sal_value.specs.declared.name.Name.TheVariants.{Uan as Universal};
ghost use Rattle.sal_mail.specs.Message.{is_for, is_not_for};
ghost use Rattle.sal_source.specs.Keys.{name_key, made_key};
ghost use Rattle.sal_queues.specs.Queues.{queue_of, filled};
ghost use Rattle.sal_move.specs.Places as places;
ghost use Rattle.sal_book.specs.Book.{released_by_entry};
ghost use Rattle.sal_node.specs.Halves.{complete_from};
ghost use Rattle.sal_routing.specs.State as spec;
ghost use Rattle.sal_routing.specs.Fits as fits;
ghost use Rattle.sal_routing.specs.Routing as routing;
ghost use Rattle.sal_routing.specs.Arrivals as arrivals;
ghost use Rattle.sal_routing.specs.Handling as handling;
ghost use Rattle.sal_routing.specs.Turns as turns;
ghost use Rattle.sal_desk.specs.code.Desks.{turning, turning_on, on_desk, on_theatre};
ghost use Rattle.sal_desk.specs.code.Drafts.{desk_with, without_taken, without_held};

use crate::draft::Draft;
use crate::messages::{add_calls, add_ready_calls, is_not_for, reached_calls};
use crate::names::is_among;
use crate::parcels::Parcels;
use crate::residents::Residents;
use crate::standing::Standing;
use crate::state::State;
use sal_entries::Entries;
use sal_mail::{Envelope, Fault, Join, Message, Plan, Reply};
use sal_move::Known;
use sal_queues::Queues;
use sal_routing::{Asking, Item, Pending, Question, Told};
use sal_source::Step;
use sal_spelled::spell;
use sal_value::{CloneIn, List, Name, NoMemory, Text, Uan, Value};
use std::alloc::Global;
use std::collections::VecDeque;
use std::marker::Model;
use std::mem;

/// A theatre, as it will be after the changes of a draft.
#[derive(Drop)]
pub struct Desk<'t> {
    state: &'t State,
    draft: Draft,
}

impl<'t> Model for Desk<'t> {
    ghost use Rattle.sal_desk.specs.code.Desks.{Turning, turning_by, turning_code};
    ghost use Rattle.sal_desk.specs.code.Drafts.{desk_with};
    ghost use Rattle.sal_queues.specs.Queues.{filled};
    ghost use Rattle.std.specs.Prelude.{◌≡◌};

    ghost Value = { Turning };

    ghost coded = { turning_code };

    ghost view = { λ d. turning_by d.draft.arrived d.state.now (desk_with d.state.now d.draft) };

    // no empty list is held
    ghost invariant = { λ d. filled d.state.now.held ≡ d.state.now.held };
}

/// Those that are for others.
fn others(messages: List<Message>, name: &Name) -> List<Message>
    ensures { result ≡ filter (is_not_for name.now) messages }
{
    let mut messages = messages.into_vec();
    messages.retain(|message| is_not_for(message, name));
    List::from_vec(messages)
}

fn add_work(work: &mut VecDeque<Item>, items: List<Item>) -> Result<(), NoMemory>
    ensures { OnOk result (work.new.items ≡ work.old.items ++ items) }
{
    for item in items.into_vec() {
        work.push_back(item)?;
    }
    Ok(())
}

/// What is held for the name, unless it was released.
fn held_still(
    alloc: Global,
    held: &Queues<Item>,
    released: &[Name],
    name: &Name,
) -> Result<List<Item>, NoMemory>
    ensures { IfOk result (λ items. items ≡ queue_of (name_key name.now) (without_held released.now (filled held.now))) }
{
    if is_among(released, name) {
        return Ok(List::new(alloc));
    }
    held.copies(alloc, name)
}

/// The theatre of a known place.
fn theatre_of(place: Option<&Known>) -> Option<u8>
    ensures { result ≡ option_map (λ k. k.theatre) (option_copied place.entry) }
{
    match place {
        Some(place) => Some(place.theatre),
        None => None,
    }
}

/// The clock after this reading.
fn later(clock: u64, ms: u64) -> u64
    ensures { result ≡ max clock (spec.moment ms) }
{
    clock.max(ms)
}

impl<'t> Desk<'t> {
    // ---- a new desk

    pub fn new(alloc: Global, state: &'t State) -> Desk<'t>
        ensures { result ≡ turning state.now (spec.desk state.now) }
    {
        Desk {
            state,
            draft: Draft::new(alloc, state.clock, state.next_anon, None, None, None),
        }
    }

    /// With the ready message at this place taken, which is handled.
    pub fn without_ready(alloc: Global, state: &'t State, i: usize) -> Desk<'t>
        ensures { result ≡ turning state.now (spec.desk (handling.without_ready i state.now)) }
    {
        Desk {
            state,
            draft: Draft::new(alloc, state.clock, state.next_anon, Some(i), None, None),
        }
    }

    /// With the clock after this reading, and the delayed messages that are due as work.
    pub fn at_reading(alloc: Global, state: &'t State, ms: u64) -> Result<Desk<'t>, NoMemory>
        ensures { IfOk result (λ d. d ≡ turning state.now (turns.release_delayed (spec.desk (turns.at_reading ms state.now)))) }
    {
        let now = later(state.clock, ms);
        let work = reached_calls(alloc, state.lists.delayed.as_slice(), now)?;
        let mut draft = Draft::new(alloc, now, state.next_anon, None, Some(now), None);
        draft.work = work;
        Ok(Desk { state, draft })
    }

    /// With the envelope taken that begins the turn. At the end of the turn its link takes it.
    pub fn after_arrival(alloc: Global, state: &'t State, peer: u8, acknowledges: usize) -> Desk<'t>
        ensures { result ≡ turning_on peer acknowledges state.now (spec.desk (record state.now { links = complete_from peer acknowledges state.now.links })) }
    {
        let arrived = Some((peer, acknowledges));
        Desk {
            state,
            draft: Draft::new(alloc, state.clock, state.next_anon, None, None, arrived),
        }
    }

    // ---- what stands there

    pub fn me(&self) -> u8
        ensures { result ≡ self.now.desk.theatre.me }
    {
        let state = self.state;
        state.me
    }

    pub fn plan(&self) -> &Plan
        ensures { result.now ≡ self.now.desk.theatre.plan }
    {
        let state = self.state;
        &state.plan
    }

    pub fn clock(&self) -> u64
        ensures { result ≡ self.now.desk.theatre.clock }
    {
        self.draft.clock
    }

    /// The number of the next anonymous actor.
    pub fn next_anon(&self) -> u64
        ensures { result ≡ self.now.desk.theatre.next_anon }
    {
        self.draft.next_anon
    }

    /// The actor of the name that stands here.
    pub fn resident(&self, name: &Name) -> Option<&Standing>
        ensures resident { option_copied result ≡ fm.get self.now.desk.theatre.residents (name_key name.now) }
        ensures named { IfSome result (λ r. r.now.name ≡ name.now) }
    {
        if self.draft.residents.entry(name).is_some() {
            return self.draft.residents.get(name);
        }
        let state = self.state;
        state.lists.residents.get(name)
    }

    pub fn is_here(&self, name: &Name) -> bool
        ensures { result ≡ fits.is_here name.now self.now.desk.theatre }
    {
        self.resident(name).is_some()
    }

    fn place(&self, name: &Uan) -> Option<&Known>
        ensures { option_copied result ≡ places.place_of name.now self.now.desk.theatre.places }
    {
        if self.draft.places.contains(name) {
            return self.draft.places.get(name);
        }
        let state = self.state;
        state.lists.places.get(name)
    }

    /// The theatre where the actor of the name is known to be.
    pub fn hop(&self, name: &Uan) -> Option<u8>
        ensures { result ≡ places.hop name.now self.now.desk.theatre.places }
    {
        theatre_of(self.place(name))
    }

    /// Whether a place after so many moves is news.
    #[tactic(auto, unfolding(sal_move::specs::Places::is_news))]
    pub fn is_news(&self, name: &Uan, moves: u64) -> bool
        ensures { result ≡ places.is_news name.now moves self.now.desk.theatre.places }
    {
        match self.place(name) {
            None => true,
            Some(known) => known.moves < moves,
        }
    }

    fn question(&self, name: &Uan) -> Option<&Question>
        ensures { option_copied result ≡ fm.get self.now.desk.theatre.questions (uan_key name.now) }
    {
        if self.draft.questions.contains(name) {
            return self.draft.questions.get(name);
        }
        let state = self.state;
        state.lists.questions.get(name)
    }

    /// How far the question for the name has come, if it was asked for.
    pub fn asking(&self, name: &Uan) -> Option<Asking>
        ensures { result ≡ option_map (λ q. q.asking) (fm.get self.now.desk.theatre.questions (uan_key name.now)) }
    {
        match self.question(name) {
            Some(question) => Some(question.asking),
            None => None,
        }
    }

    pub fn was_asked(&self, name: &Uan) -> bool
        ensures { result ≡ routing.was_asked name.now self.now.desk.theatre }
    {
        self.question(name).is_some()
    }

    fn pending_at(&self, key: &(u64, Name)) -> Option<&Pending>
        ensures { option_copied result ≡ fm.get self.now.desk.theatre.pending (made_key key.now.1 key.now.0) }
    {
        if self.draft.pending.contains(key) {
            return self.draft.pending.get(key);
        }
        let state = self.state;
        state.lists.pending.get(key)
    }

    /// The creation by this maker with this number that waits here.
    pub fn pending(
        &self,
        alloc: Global,
        maker: &Name,
        serial: u64,
    ) -> Result<Option<Pending>, NoMemory>
        ensures { IfOk result (λ x. x ≡ fm.get self.now.desk.theatre.pending (made_key maker.now serial)) }
    {
        let key = (serial, maker.clone_in(alloc)?);
        match self.pending_at(&key) {
            Some(pending) => Ok(Some(pending.clone_in(alloc)?)),
            None => Ok(None),
        }
    }

    // ---- work

    /// Takes the first item that is to be routed.
    pub fn take_work(&mut self) -> Option<Item>
        ensures work { self.old.desk.work ≡ option_to_list result ++ self.new.desk.work }
        ensures rest { self.new ≡ on_desk (λ d. record d { work = self.new.desk.work }) self.old }
        ensures none { IfNone result (self.old.desk.work ≡ []) }
    {
        self.draft.work.pop_front()
    }

    pub fn push_work(&mut self, item: Item) -> Result<(), NoMemory>
        ensures { OnOk result (self.new ≡ on_desk (spec.with_work (item ∷ [])) self.old) }
    {
        self.draft.work.push_back(item)?;
        Ok(())
    }

    // ---- what is told and sent

    pub fn send(&mut self, alloc: Global, node: u8, envelope: &Envelope) -> Result<(), NoMemory>
        ensures { OnOk result (self.new ≡ on_desk (spec.send node envelope.now) self.old) }
    {
        match spell(alloc, envelope)? {
            None => Ok(()),
            Some(bytes) => self.draft.sent.push(node, bytes),
        }
    }

    pub fn log(&mut self, step: Step) -> Result<(), NoMemory>
        ensures { OnOk result (self.new ≡ on_desk (spec.log step) self.old) }
    {
        self.draft.told.log.push(step)
    }

    pub fn tell_fault(&mut self, fault: Fault) -> Result<(), NoMemory>
        ensures { OnOk result (self.new ≡ on_desk (spec.tell_fault fault) self.old) }
    {
        self.draft.told.faults.push(fault)
    }

    pub fn tell_answer(&mut self, number: u64, value: Value) -> Result<(), NoMemory>
        ensures { OnOk result (self.new ≡ on_desk (spec.tell_answer number value) self.old) }
    {
        self.draft.told.answers.push((number, value))
    }

    pub fn tell_given(&mut self, given: List<(Reply, Value)>) -> Result<(), NoMemory>
        ensures { OnOk result (self.new ≡ on_desk (spec.tell_given given) self.old) }
    {
        self.draft.told.given.append(given)
    }

    pub fn print(&mut self, text: Text) -> Result<(), NoMemory>
        ensures { OnOk result (self.new ≡ on_desk (spec.print text) self.old) }
    {
        self.draft.told.printed.push(text)
    }

    /// A new actor stands here.
    pub fn tell_made(&mut self, name: Name) -> Result<(), NoMemory>
        ensures { OnOk result (self.new ≡ on_desk (λ d. record d { told = record d.told { made = d.told.made ++ (name, d.theatre.me) ∷ [] } }) self.old) }
    {
        let state = self.state;
        self.draft.told.made.push((name, state.me))
    }

    pub fn tell_moved(&mut self, name: Name, to: u8) -> Result<(), NoMemory>
        ensures { OnOk result (self.new ≡ on_desk (arrivals.tell_moved name to) self.old) }
    {
        self.draft.told.moved.push((name, to))
    }

    pub fn tell_opened(&mut self, owner: Name, join: Join) -> Result<(), NoMemory>
        ensures { OnOk result (self.new ≡ on_desk (λ d. record d { told = record d.told { opened = d.told.opened ++ (owner, join) ∷ [] } }) self.old) }
    {
        self.draft.told.opened.push((owner, join))
    }

    // ---- messages

    pub fn make_ready(&mut self, message: Message) -> Result<(), NoMemory>
        ensures { OnOk result (self.new ≡ on_desk (spec.make_ready message) self.old) }
    {
        self.draft.ready.push(message)
    }

    #[tactic(auto, unfolding(sal_routing::specs::Routing::put_delayed))]
    pub fn put_delayed(&mut self, message: Message) -> Result<(), NoMemory>
        ensures { OnOk result (self.new ≡ on_desk (routing.put_delayed message) self.old) }
    {
        let moment = self.draft.clock.saturating_add(u64::from(message.delay));
        self.draft.delayed.push((moment, message.without_delay()))
    }

    pub fn put_held(&mut self, alloc: Global, name: Name, item: Item) -> Result<(), NoMemory>
        ensures { OnOk result (self.new ≡ on_desk (routing.put_held name item) self.old) }
    {
        self.draft.held.push(alloc, name, item)
    }

    /// What is held for the name joins the work.
    pub fn release_held(&mut self, alloc: Global, name: &Name) -> Result<(), NoMemory>
        ensures { OnOk result (self.new ≡ on_desk (routing.release_held name.now) self.old) }
    {
        let state = self.state;
        let before = held_still(
            alloc,
            &state.lists.held,
            self.draft.released.as_slice(),
            name,
        )?;
        let more = self.draft.held.copies(alloc, name)?;
        add_work(&mut self.draft.work, before)?;
        add_work(&mut self.draft.work, more)?;
        self.draft.released.push(name.clone_in(alloc)?)?;
        self.draft.held.clear(name);
        Ok(())
    }

    /// The calls that are ready for an actor of the name.
    pub fn calls_for(&self, alloc: Global, name: &Name) -> Result<List<Message>, NoMemory>
        ensures { IfOk result (λ calls. calls ≡ filter (is_for name.now) self.now.desk.theatre.ready) }
    {
        let state = self.state;
        let taken = self.draft.taken;
        let left = self.draft.left.as_slice();
        let mut calls = List::new(alloc);
        add_ready_calls(alloc, &state.lists.ready, taken, left, name, &mut calls)?;
        add_calls(alloc, self.draft.ready.as_slice(), name, &mut calls)?;
        Ok(calls)
    }

    // ---- actors

    /// The actor stands here, at its name.
    pub fn put_resident(&mut self, alloc: Global, actor: Standing) -> Result<(), NoMemory>
        ensures { OnOk result (self.new ≡ on_desk (on_theatre (routing.put_resident actor)) self.old) }
    {
        self.draft.residents.put(alloc, actor)
    }

    pub fn set_next_anon(&mut self, next: u64)
        ensures { self.new ≡ on_desk (on_theatre (λ t. record t { next_anon = next })) self.old }
    {
        self.draft.next_anon = next;
    }

    /// The actor isn't here any more, and neither are its ready calls.
    pub fn remove_resident(&mut self, alloc: Global, actor: &Standing) -> Result<(), NoMemory>
        ensures { OnOk result (self.new ≡ on_desk (on_theatre (arrivals.without_resident actor.now)) self.old) }
    {
        let name = &actor.resident().name;
        let ready = mem::replace(&mut self.draft.ready, List::new(alloc));
        self.draft.ready = others(ready, name);
        self.draft.left.push(name.clone_in(alloc)?)?;
        self.draft.residents.remove(name.clone_in(alloc)?)
    }

    // ---- places, questions, creations

    pub fn put_place(&mut self, name: Uan, theatre: u8, moves: u64) -> Result<(), NoMemory>
        ensures { OnOk result (self.new ≡ on_desk (arrivals.put_place name theatre moves) self.old) }
    {
        if !self.is_news(&name, moves) {
            return Ok(());
        }
        self.draft.places.set(name, Some(Known { theatre, moves }))
    }

    pub fn put_question(&mut self, alloc: Global, question: Question) -> Result<(), NoMemory>
        ensures { OnOk result (self.new ≡ on_desk (on_theatre (routing.put_question question)) self.old) }
    {
        let name = question.name.clone_in(alloc)?;
        self.draft.questions.set(name, Some(question))
    }

    pub fn put_pending(&mut self, alloc: Global, pending: Pending) -> Result<(), NoMemory>
        ensures { OnOk result (self.new ≡ on_desk (handling.put_pending pending) self.old) }
    {
        let key = (pending.creation.serial, pending.maker.clone_in(alloc)?);
        self.draft.pending.set(key, Some(pending))
    }

    pub fn drop_pending(&mut self, maker: Name, serial: u64) -> Result<(), NoMemory>
        ensures { OnOk result (self.new ≡ on_desk (turns.drop_pending maker serial) self.old) }
    {
        self.draft.pending.set((serial, maker), None)
    }

    // ---- the end

    /// The changes, to be made at the end of the turn.
    pub fn into_draft(self) -> Draft
        ensures desk { desk_with self.entry.before result ≡ self.entry.desk }
        ensures arrived { result.arrived ≡ self.entry.arrived }
    {
        self.draft
    }
}
