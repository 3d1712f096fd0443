//! Configurations as they are shown.

ghost use Rattle.std.specs.Prelude.{◌≡◌, ◌↔◌, IsTrue};
ghost use Rattle.std.specs.FinMap as fm;
ghost use Rattle.sal_source.specs.Step as spec;

use crate::actors::Actors;
use crate::creations::Creations;
use crate::waiting::Waiting;
use sal_mail::{Actor, Fault};
use sal_value::{Authority, List, Text, Value};
use std::marker::Model;

/// A configuration: what is there after the last step of a run. It knows the naming services.
#[derive(Drop)]
pub struct Config {
    pub(crate) authorities: List<Authority>,
    pub(crate) actors: Actors,
    pub(crate) creations: Creations,
    pub(crate) waiting: Waiting,
    pub(crate) output: List<Text>,
    pub(crate) faults: List<Fault>,
    pub(crate) answers: List<(u64, Value)>,
    pub(crate) posted: u64,
}

impl Model for Config {
    ghost use Rattle.sal_source.specs.Table.{keys_of};
    ghost use Rattle.sal_source.specs.Configuration.{End, end_code};

    ghost Value = { End };

    ghost coded = { end_code };

    ghost view = { λ c. record {
      authorities = c.authorities;
      configuration = record {
        actors = c.actors;
        given = keys_of c.actors;
        creations = c.creations;
        waiting = c.waiting;
        output = c.output;
        faults = c.faults;
        answers = c.answers;
        posted = c.posted;
      };
    } };
}

impl Config {
    /// The texts that were printed, oldest first.
    pub fn output(&self) -> &List<Text>
        ensures { result.now ≡ self.now.configuration.output }
    {
        &self.output
    }

    /// The faults, oldest first.
    pub fn faults(&self) -> &List<Fault>
        ensures { result.now ≡ self.now.configuration.faults }
    {
        &self.faults
    }

    /// The answers to calls from outside, oldest first, each with the call's number.
    pub fn answers(&self) -> &List<(u64, Value)>
        ensures { result.now ≡ self.now.configuration.answers }
    {
        &self.answers
    }

    /// The actors in the order of their names, each with its next number.
    pub fn actors(&self) -> &List<(Actor, u64)>
        ensures { result.now ≡ fm.values self.now.configuration.actors }
    {
        self.actors.items()
    }

    /// How many messages, creations and joins are pending.
    pub fn pending(&self) -> (usize, usize, usize)
        ensures { result ≡ (fm.len self.now.configuration.waiting.messages, fm.len self.now.configuration.creations, fm.len self.now.configuration.waiting.joins) }
    {
        let (messages, joins) = self.waiting.counts();
        (messages, self.creations.count(), joins)
    }

    /// Whether no step but a post is possible, in the program that was played and in any other with
    /// these naming services. Where one is possible in some program, it is false.
    pub fn is_final(&self) -> bool
        ensures { IsTrue result ↔ spec.IsAtEnd self.now.authorities self.now.configuration }
    {
        if self.waiting.any_possible(&self.actors) {
            return false;
        }
        let authorities = self.authorities.as_slice();
        !self.creations.any_decided(authorities, &self.actors)
    }
}
