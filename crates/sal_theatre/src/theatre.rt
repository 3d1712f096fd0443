//! A theatre and its turns. Each is all or nothing, and also stands in two halves: the first tells what the turn will do
//! and changes nothing, the second makes it.

ghost use Rattle.std.specs.Prelude.{◌≡◌, ◌<◌, true, false, length, Some, IfOk, OnOk, OnErr};
ghost use Rattle.sal_carriage.specs.Halves.{is_envelope};
ghost use Rattle.sal_node.specs.Links.{has_few_nodes, take_datagram};
ghost use Rattle.sal_desk.specs.code.Drafts.{CanFinish};
ghost use Rattle.sal_routing.specs.State as spec;
ghost use Rattle.sal_routing.specs.Turns as turns;
ghost use Rattle.sal_theatre.specs.code.Programs.{IsRunner};
ghost use Rattle.sal_theatre.specs.code.Turning.{after, turned_by, CanBeMade, Receives, framed};

use crate::preparing;
use crate::turned::{Prepared, Turned, nothing, silent};
use sal_carriage::Datagram;
use sal_desk::State;
use sal_mail::Plan;
use sal_source::Runner;
use sal_value::{List, NoMemory, Uan, Values};
use std::alloc::Global;
use std::marker::Model;

/// A theatre.
#[derive(Drop)]
pub struct Theatre {
    pub(crate) state: State,
}

impl Model for Theatre {
    ghost use Rattle.sal_routing.specs.State as spec;
    ghost use Rattle.sal_desk.specs.code.Codes.{theatre_code};

    ghost Value = { spec.Theatre };

    ghost coded = { theatre_code };

    ghost view = { λ t. t.state };
}

impl Theatre {
    /// Theatre k of the plan. The program's hash begins with these bytes.
    pub fn new(alloc: Global, k: u8, plan: &Plan, program: [u8; 8]) -> Result<Theatre, NoMemory>
        requires theatre { k < length plan.now.theatres }
        requires plan { has_few_nodes plan.now ≡ true }
        ensures { IfOk result (λ t. t ≡ spec.new_theatre k plan.now program) }
    {
        Ok(Theatre {
            state: State::new(alloc, k, plan, program)?,
        })
    }

    // ---- the second half of a turn

    /// Makes a turn that was prepared here, with no other turn since. Where a link is spent, there was nothing to do.
    #[tactic(auto, using(crate::proofs::Finishing::made, crate::proofs::Finishing::spent))]
    pub fn commit(&mut self, alloc: Global, prepared: Prepared) -> Result<Turned, NoMemory>
        requires { CanFinish prepared.draft.arrived self.old.links }
        ensures ok { IfOk result (λ t. after self.new t ≡ turned_by self.old (Some prepared)) }
        ensures err { OnErr result (self.new ≡ self.old) }
    {
        match self.state.commit(alloc, prepared.draft)? {
            None => Ok(nothing(alloc)),
            Some(told) => Ok(Turned { took: true, told }),
        }
    }

    fn finish(&mut self, alloc: Global, prepared: Option<Prepared>) -> Result<Turned, NoMemory>
        requires { CanBeMade prepared self.old }
        ensures ok { IfOk result (λ t. after self.new t ≡ turned_by self.old prepared) }
        ensures err { OnErr result (self.new ≡ self.old) }
    {
        match prepared {
            None => Ok(nothing(alloc)),
            Some(prepared) => self.commit(alloc, prepared),
        }
    }

    // ---- the start

    pub fn prepare_begin<R: Runner>(
        &self,
        alloc: Global,
        runner: &R,
    ) -> Result<Option<Prepared>, NoMemory>
        ensures turn { IfOk result (λ p. turned_by self.now p ≡ turns.begin (R.meaning runner.now) self.now) }
        ensures can { IfOk result (λ p. CanBeMade p self.now) }
    {
        preparing::begin(alloc, runner, &self.state)
    }

    /// The start actor stands here and its message is ready, or there is only the fault of the start.
    pub fn begin<R: Runner>(&mut self, alloc: Global, runner: &R) -> Result<Turned, NoMemory>
        ensures ok { IfOk result (λ t. after self.new t ≡ turns.begin (R.meaning runner.now) self.old) }
        ensures err { OnErr result (self.new ≡ self.old) }
    {
        let prepared = self.prepare_begin(alloc, runner)?;
        self.finish(alloc, prepared)
    }

    // ---- a step

    pub fn prepare_step<R: Runner>(
        &self,
        alloc: Global,
        runner: &R,
        i: usize,
    ) -> Result<Option<Prepared>, NoMemory>
        requires { IsRunner (R.meaning runner.now) }
        ensures turn { IfOk result (λ p. turned_by self.now p ≡ turns.step (R.meaning runner.now) i self.now) }
        ensures can { IfOk result (λ p. CanBeMade p self.now) }
    {
        preparing::step(alloc, runner, &self.state, i)
    }

    /// The ready message at this place is printed or handled.
    pub fn step<R: Runner>(
        &mut self,
        alloc: Global,
        runner: &R,
        i: usize,
    ) -> Result<Turned, NoMemory>
        requires { IsRunner (R.meaning runner.now) }
        ensures ok { IfOk result (λ t. after self.new t ≡ turns.step (R.meaning runner.now) i self.old) }
        ensures err { OnErr result (self.new ≡ self.old) }
    {
        let prepared = self.prepare_step(alloc, runner, i)?;
        self.finish(alloc, prepared)
    }

    // ---- a datagram

    /// None where the bytes complete no envelope: then `take_frame` takes them.
    pub fn prepare_datagram<R: Runner>(
        &self,
        alloc: Global,
        runner: &R,
        bytes: &[u8],
    ) -> Result<Option<Prepared>, NoMemory>
        ensures turn { IfOk result (Receives (R.meaning runner.now) bytes.now self.now) }
        ensures can { IfOk result (λ p. CanBeMade p self.now) }
    {
        preparing::datagram(alloc, runner, &self.state, bytes)
    }

    /// Takes bytes that complete no envelope, which tells nothing. Whether a link is another one than before.
    pub fn take_frame(&mut self, alloc: Global, bytes: &[u8]) -> Result<bool, NoMemory>
        requires { is_envelope (take_datagram bytes.now self.old.links).taken ≡ false }
        ensures ok { IfOk result (λ took. record { theatre = self.new; told = spec.silence; took = took } ≡ framed bytes.now self.old) }
        ensures err { OnErr result (self.new ≡ self.old) }
    {
        Ok(self.state.take(alloc, bytes)?.changed)
    }

    /// A datagram arrived.
    #[tactic(auto, using(crate::proofs::Datagrams::framed_datagram))]
    pub fn datagram<R: Runner>(
        &mut self,
        alloc: Global,
        runner: &R,
        bytes: &[u8],
    ) -> Result<Turned, NoMemory>
        ensures ok { IfOk result (λ t. after self.new t ≡ turns.datagram (R.meaning runner.now) bytes.now self.old) }
        ensures err { OnErr result (self.new ≡ self.old) }
    {
        match self.prepare_datagram(alloc, runner, bytes)? {
            None => {
                let took = self.take_frame(alloc, bytes)?;
                Ok(silent(alloc, took))
            }
            Some(prepared) => self.commit(alloc, prepared),
        }
    }

    // ---- the clock

    pub fn prepare_clock<R: Runner>(
        &self,
        alloc: Global,
        runner: &R,
        ms: u64,
    ) -> Result<Option<Prepared>, NoMemory>
        ensures turn { IfOk result (λ p. turned_by self.now p ≡ turns.clock (R.meaning runner.now) ms self.now) }
        ensures can { IfOk result (λ p. CanBeMade p self.now) }
    {
        preparing::clock(alloc, runner, &self.state, ms)
    }

    /// The clock shows this many milliseconds; a reading below the last one counts as the last.
    pub fn clock<R: Runner>(
        &mut self,
        alloc: Global,
        runner: &R,
        ms: u64,
    ) -> Result<Turned, NoMemory>
        ensures ok { IfOk result (λ t. after self.new t ≡ turns.clock (R.meaning runner.now) ms self.old) }
        ensures err { OnErr result (self.new ≡ self.old) }
    {
        let prepared = self.prepare_clock(alloc, runner, ms)?;
        self.finish(alloc, prepared)
    }

    // ---- sending

    /// What is to be sent now, in the order of the nodes. None of it counts as sent yet.
    pub fn due_datagrams(&self, alloc: Global) -> Result<List<Datagram>, NoMemory>
        ensures { IfOk result (λ ds. ds ≡ turns.due_datagrams self.now) }
    {
        self.state.due_datagrams(alloc)
    }

    /// What is to be sent now counts as sent. Takes no memory.
    pub fn mark_sent(&mut self)
        ensures { self.new ≡ turns.push self.old }
    {
        self.state.push();
    }

    /// What is to be sent now, in the order of the nodes. It counts as sent.
    pub fn push(&mut self, alloc: Global) -> Result<List<Datagram>, NoMemory>
        ensures datagrams { IfOk result (λ ds. ds ≡ turns.due_datagrams self.old) }
        ensures ok { OnOk result (self.new ≡ turns.push self.old) }
        ensures err { OnErr result (self.new ≡ self.old) }
    {
        self.state.due(alloc)
    }

    // ---- from outside

    pub fn prepare_move(
        &self,
        alloc: Global,
        name: &Uan,
        to: u8,
    ) -> Result<Option<Prepared>, NoMemory>
        ensures turn { IfOk result (λ p. turned_by self.now p ≡ turns.move_actor name.now to self.now) }
        ensures can { IfOk result (λ p. CanBeMade p self.now) }
    {
        preparing::move_actor(alloc, &self.state, name, to)
    }

    /// An actor moves to this theatre of the plan, where it may.
    pub fn move_actor(&mut self, alloc: Global, name: &Uan, to: u8) -> Result<Turned, NoMemory>
        ensures ok { IfOk result (λ t. after self.new t ≡ turns.move_actor name.now to self.old) }
        ensures err { OnErr result (self.new ≡ self.old) }
    {
        let prepared = self.prepare_move(alloc, name, to)?;
        self.finish(alloc, prepared)
    }

    pub fn prepare_post<R: Runner>(
        &self,
        alloc: Global,
        runner: &R,
        number: u64,
        target: &Uan,
        behavior: u16,
        handler: u16,
        args: &Values,
    ) -> Result<Option<Prepared>, NoMemory>
        ensures turn { IfOk result (λ p. turned_by self.now p ≡ turns.post (R.meaning runner.now) number target.now behavior handler args.now self.now) }
        ensures can { IfOk result (λ p. CanBeMade p self.now) }
    {
        preparing::post(
            alloc,
            runner,
            &self.state,
            number,
            target,
            behavior,
            handler,
            args,
        )
    }

    /// A call from outside, which fits.
    pub fn post<R: Runner>(
        &mut self,
        alloc: Global,
        runner: &R,
        number: u64,
        target: Uan,
        behavior: u16,
        handler: u16,
        args: Values,
    ) -> Result<Turned, NoMemory>
        ensures ok { IfOk result (λ t. after self.new t ≡ turns.post (R.meaning runner.now) number target behavior handler args self.old) }
        ensures err { OnErr result (self.new ≡ self.old) }
    {
        let prepared = self.prepare_post(alloc, runner, number, &target, behavior, handler, &args)?;
        self.finish(alloc, prepared)
    }

    // ---- at rest

    /// How many messages are ready.
    pub fn ready(&self) -> usize
        ensures { result ≡ length self.now.ready }
    {
        self.state.ready()
    }

    /// Whether nothing is ready, delayed, held or creating, and all links are idle.
    pub fn quiet(&self) -> bool
        ensures { result ≡ turns.is_quiet self.now }
    {
        self.state.quiet()
    }
}
