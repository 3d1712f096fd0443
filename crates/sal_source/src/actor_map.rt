//! The actors of a run, found by their names.

ghost use Rattle.std.specs.Prelude.{◌≡◌, true, Some, None, IfSome, IfOk, OnOk, OnErr, map};
ghost use Rattle.std.specs.Option.{option_map};
ghost use Rattle.std.specs.FinMap as fm;
ghost use Rattle.sal_source.specs.Table.{write};
ghost use Rattle.sal_source.specs.Keys.{name_key, actor_key};
ghost use Rattle.sal_source.specs.code.Lists.{IsSorted};
ghost use Rattle.sal_source.specs.code.Maps.{actor_of, actors_in};
ghost use Rattle.sal_source.specs.Step.{put_actors};

use crate::actors::Actors;
use sal_mail::Actor;
use sal_value::{List, Name, NoMemory, Values, keys_are_injective};
use std::alloc::Global;
use std::collections::BTreeMap;
use std::marker::Model;

/// What an actor is but for its name, with its next number.
#[derive(Drop)]
pub struct ActorState {
    pub behavior: u16,
    pub fields: Values,
    pub serial: u64,
}

/// The actor of this name and state, with its next number.
fn actor_entry(name: Name, state: ActorState) -> (Actor, u64)
    ensures { result ≡ actor_of (name, state) }
{
    let ActorState {
        behavior,
        fields,
        serial,
    } = state;
    let actor = Actor {
        name,
        behavior,
        fields,
    };
    (actor, serial)
}

/// The name and the state of the actor.
fn parts(actor: Actor, serial: u64) -> (Name, ActorState)
    ensures { actor_of result ≡ (actor, serial) }
{
    let Actor {
        name,
        behavior,
        fields,
    } = actor;
    let state = ActorState {
        behavior,
        fields,
        serial,
    };
    (name, state)
}

type States = BTreeMap<Name, ActorState>;

/// Puts the state at the name. Only a new name takes memory.
fn put(states: &mut States, name: Name, state: ActorState) -> Result<(), NoMemory>
    ensures ok { OnOk result (actors_in states.new.entries ≡ write (actors_in states.old.entries) (name_key name) (Some (actor_of (name, state)))) }
    ensures absent { OnErr result (fm.get (actors_in states.old.entries) (name_key name) ≡ None) }
{
    keys_are_injective();
    match states.insert(name, state) {
        Ok(_) => Ok(()),
        Err(_) => Err(NoMemory),
    }
}

/// Adds the actors, from the last one on, each with next number 0.
fn add_all(states: &mut States, more: List<Actor>) -> Result<(), NoMemory>
    ensures { OnOk result (actors_in states.new.entries ≡ put_actors more (actors_in states.old.entries)) }
{
    let mut left = more;
    while let Some(actor) = left.pop() {
        let (name, state) = parts(actor, 0);
        put(states, name, state)?;
    }
    Ok(())
}

/// The actors in a list in the order of their names.
fn into_actors(states: States, alloc: Global) -> Result<List<(Actor, u64)>, NoMemory>
    ensures items { IfOk result (λ items. items ≡ map actor_of states.entries) }
    ensures sorted { IfOk result (λ items. IsSorted actor_key items) }
{
    let mut items = List::new(alloc);
    for (name, state) in states {
        items.push(actor_entry(name, state))?;
    }
    Ok(items)
}

/// The actors of a run with their next numbers.
#[derive(Drop)]
pub struct ActorMap {
    states: States,
}

impl Model for ActorMap {
    ghost use Rattle.std.specs.Prelude.{ℕ};
    ghost use Rattle.sal_mail.specs.declared.effects.Actor as spec;
    ghost use Rattle.sal_source.specs.Table.{Table};
    ghost use Rattle.sal_source.specs.Configuration.{actors_code};
    ghost use Rattle.sal_source.specs.code.Maps.{actors_in};

    ghost Value = { Table (spec.Actor × ℕ) };

    ghost coded = { actors_code };

    ghost view = { λ a. actors_in a.states.entries };
}

impl ActorMap {
    pub fn new(alloc: Global) -> ActorMap
        ensures { result ≡ fm.empty }
    {
        ActorMap {
            states: BTreeMap::new(alloc),
        }
    }

    pub fn get(&self, name: &Name) -> Option<(&Name, &ActorState)>
        ensures value { option_map (λ e. actor_of (e.0.now, e.1.now)) result ≡ fm.get self.now (name_key name.now) }
        ensures keyed { IfSome result (λ e. name_key name.now ≡ name_key e.0.now) }
    {
        self.states.get_key_value(name)
    }

    pub fn contains(&self, name: &Name) -> bool
        ensures { result ≡ fm.contains_key self.now (name_key name.now) }
    {
        self.get(name).is_some()
    }

    /// Adds the actors, each with next number 0.
    pub fn add_all(&mut self, more: List<Actor>) -> Result<(), NoMemory>
        ensures { OnOk result (self.new ≡ put_actors more self.old) }
    {
        add_all(&mut self.states, more)
    }

    /// Puts the actor in the place of the one of its name.
    pub fn set(&mut self, actor: (Actor, u64))
        requires { fm.contains_key self.old (actor_key actor) ≡ true }
        ensures { self.new ≡ write self.old (actor_key actor) (Some actor) }
    {
        let (actor, serial) = actor;
        let (name, state) = parts(actor, serial);
        // The name is there, so this takes no memory and can't fail.
        let _ = put(&mut self.states, name, state);
    }

    /// The actors in a list in the order of their names.
    pub fn into_actors(self, alloc: Global) -> Result<Actors, NoMemory>
        ensures { IfOk result (λ actors. actors ≡ self) }
    {
        let items = into_actors(self.states, alloc)?;
        Ok(Actors::of_sorted(items))
    }
}
