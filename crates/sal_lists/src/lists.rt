//! What a world told so far.

ghost use Rattle.std.specs.Prelude.{◌≡◌};

use crate::settling::OpenJoins;
use sal_entries::Entries;
use sal_mail::Fault;
use sal_source::Step;
use sal_value::{Name, Text, Value};
use std::alloc::Global;

/// The lists of a world.
#[derive(Drop)]
pub struct Lists {
    pub(crate) trace: Vec<Step>,
    /// Printed texts, each with its theatre.
    pub(crate) output: Vec<(u8, Text)>,
    pub(crate) faults: Vec<Fault>,
    /// To calls from outside, each with its number.
    pub(crate) answers: Vec<(u64, Value)>,
    /// The number of the last post.
    pub(crate) posted: u64,
    /// Where each actor was made or to which theatre it last went.
    pub(crate) places: Entries<Name, u8>,
    /// How often actors moved.
    pub(crate) moves: u64,
    /// The joins that are open once each reply on its way is given.
    pub(crate) open_joins: OpenJoins,
}

impl Lists {
    ghost use Rattle.std.specs.FinMap as fm;
    ghost use Rattle.sal_source.specs.Keys.{name_key};
    ghost use Rattle.sal_world.specs.World.{no_lists};
    ghost use Rattle.sal_lists.specs.code.Listing.{lists_of};

    pub fn new(alloc: Global) -> Lists
        ensures { lists_of result ≡ no_lists }
    {
        Lists {
            trace: Vec::new(alloc),
            output: Vec::new(alloc),
            faults: Vec::new(alloc),
            answers: Vec::new(alloc),
            posted: 0,
            places: Entries::new(alloc),
            moves: 0,
            open_joins: Entries::new(alloc),
        }
    }

    /// The steps that were taken.
    pub fn trace(&self) -> &[Step]
        ensures { result.now ≡ (lists_of self.now).trace }
    {
        self.trace.as_slice()
    }

    /// The printed texts, each with its theatre.
    pub fn output(&self) -> &[(u8, Text)]
        ensures { result.now ≡ (lists_of self.now).output }
    {
        self.output.as_slice()
    }

    pub fn faults(&self) -> &[Fault]
        ensures { result.now ≡ (lists_of self.now).faults }
    {
        self.faults.as_slice()
    }

    /// The answers to calls from outside, each with its number.
    pub fn answers(&self) -> &[(u64, Value)]
        ensures { result.now ≡ (lists_of self.now).answers }
    {
        self.answers.as_slice()
    }

    /// The number of the last post, 0 before the first.
    pub fn posted(&self) -> u64
        ensures { result ≡ (lists_of self.now).posted }
    {
        self.posted
    }

    /// How often actors moved.
    pub fn moves(&self) -> u64
        ensures { result ≡ (lists_of self.now).moves }
    {
        self.moves
    }

    /// The theatre where the actor was made or to which it last went.
    pub fn theatre_of(&self, name: &Name) -> Option<u8>
        ensures { result ≡ fm.get (lists_of self.now).places (name_key name.now) }
    {
        self.places.get(name).copied()
    }
}
