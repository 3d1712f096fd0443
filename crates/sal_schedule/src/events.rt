//! Events but posts, from the words after the first.

ghost use Rattle.std.specs.Prelude.{◌≡◌};
ghost use Rattle.sal_schedule.specs.Events.{step_of, push_of, deliver_of, clock_of, move_of, delete_of, settle_of};
ghost use Rattle.sal_schedule.specs.Rules.{form_rules, lowest_from};
ghost use Rattle.sal_schedule.specs.code.Plans.{HasRoom, Tells};
ghost use Rattle.sal_schedule.specs.code.Words.{rest_words};
ghost use Rattle.sal_schedule.specs.declared.kind.Kind.TheVariants as kind;

use crate::arguments::{node, theatre, universal};
use crate::constants::MOST_ROUNDS;
use crate::fault::LineFault;
use crate::words::{one, three, two};
use sal_events::Event;
use sal_literals::read_number;
use sal_mail::Plan;
use std::alloc::Global;

/// `step k i`
#[tactic(auto, using(crate::proofs::KindRules::step_length, crate::proofs::KindRules::step_bad_1, crate::proofs::KindRules::step_bad_2, crate::proofs::KindRules::step_bad_3, crate::proofs::KindRules::step_good, crate::proofs::KindRules::step_is))]
pub fn step(plan: &Plan, rest: Option<&[u8]>) -> Result<Event, LineFault>
    requires { HasRoom plan.now }
    ensures { Tells (lowest_from 3 (form_rules plan.now kind.Step (rest_words rest.entry))) (step_of (rest_words rest.entry)) result }
{
    let Some((place, position)) = two(rest) else {
        return Err(LineFault::Refused(3));
    };
    let Some(number) = read_number(place) else {
        return Err(LineFault::Refused(4));
    };
    let Some(position) = read_number(position) else {
        return Err(LineFault::Refused(4));
    };
    match theatre(plan, number) {
        Some(theatre) => Ok(Event::Step {
            theatre,
            position: position as usize,
        }),
        None => Err(LineFault::Refused(5)),
    }
}

/// `push n`
#[tactic(auto, using(crate::proofs::KindRules::push_length, crate::proofs::KindRules::push_bad_1, crate::proofs::KindRules::push_bad_2, crate::proofs::KindRules::push_good, crate::proofs::KindRules::push_is))]
pub fn push(plan: &Plan, rest: Option<&[u8]>) -> Result<Event, LineFault>
    requires { HasRoom plan.now }
    ensures { Tells (lowest_from 3 (form_rules plan.now kind.Push (rest_words rest.entry))) (push_of (rest_words rest.entry)) result }
{
    let Some(place) = one(rest) else {
        return Err(LineFault::Refused(3));
    };
    let Some(number) = read_number(place) else {
        return Err(LineFault::Refused(4));
    };
    match node(plan, number) {
        Some(node) => Ok(Event::Push(node)),
        None => Err(LineFault::Refused(5)),
    }
}

/// `deliver p`
#[tactic(auto, using(crate::proofs::KindRules::deliver_length, crate::proofs::KindRules::deliver_bad_1, crate::proofs::KindRules::deliver_good, crate::proofs::KindRules::deliver_is))]
pub fn deliver(plan: &Plan, rest: Option<&[u8]>) -> Result<Event, LineFault>
    ensures { Tells (lowest_from 3 (form_rules plan.now kind.Deliver (rest_words rest.entry))) (deliver_of (rest_words rest.entry)) result }
{
    let Some(packet) = one(rest) else {
        return Err(LineFault::Refused(3));
    };
    match read_number(packet) {
        Some(packet) => Ok(Event::Deliver(packet as usize)),
        None => Err(LineFault::Refused(4)),
    }
}

/// `clock n ms`
#[tactic(auto, using(crate::proofs::KindRules::clock_length, crate::proofs::KindRules::clock_bad_1, crate::proofs::KindRules::clock_bad_2, crate::proofs::KindRules::clock_bad_3, crate::proofs::KindRules::clock_good, crate::proofs::KindRules::clock_is))]
pub fn clock(plan: &Plan, rest: Option<&[u8]>) -> Result<Event, LineFault>
    requires { HasRoom plan.now }
    ensures { Tells (lowest_from 3 (form_rules plan.now kind.Clock (rest_words rest.entry))) (clock_of (rest_words rest.entry)) result }
{
    let Some((place, time)) = two(rest) else {
        return Err(LineFault::Refused(3));
    };
    let Some(number) = read_number(place) else {
        return Err(LineFault::Refused(4));
    };
    let Some(ms) = read_number(time) else {
        return Err(LineFault::Refused(4));
    };
    match node(plan, number) {
        Some(node) => Ok(Event::Clock { node, ms }),
        None => Err(LineFault::Refused(5)),
    }
}

/// `move k uan j`
#[tactic(auto, using(crate::proofs::KindRules::move_length, crate::proofs::KindRules::move_bad_1, crate::proofs::KindRules::move_bad_2, crate::proofs::KindRules::move_bad_3, crate::proofs::KindRules::move_bad_4, crate::proofs::KindRules::move_bad_5, crate::proofs::KindRules::move_good, crate::proofs::KindRules::move_is))]
pub fn move_actor(alloc: Global, plan: &Plan, rest: Option<&[u8]>) -> Result<Event, LineFault>
    requires { HasRoom plan.now }
    ensures { Tells (lowest_from 3 (form_rules plan.now kind.Move (rest_words rest.entry))) (move_of (rest_words rest.entry)) result }
{
    let Some((from, name, to)) = three(rest) else {
        return Err(LineFault::Refused(3));
    };
    let Some(first) = read_number(from) else {
        return Err(LineFault::Refused(4));
    };
    let Some(second) = read_number(to) else {
        return Err(LineFault::Refused(4));
    };
    let Some(from) = theatre(plan, first) else {
        return Err(LineFault::Refused(5));
    };
    let Some(to) = theatre(plan, second) else {
        return Err(LineFault::Refused(5));
    };
    match universal(alloc, name)? {
        Some(name) => Ok(Event::Move {
            theatre: from,
            name,
            to,
        }),
        None => Err(LineFault::Refused(6)),
    }
}

/// `delete uan`
#[tactic(auto, using(crate::proofs::KindRules::delete_length, crate::proofs::KindRules::delete_bad_1, crate::proofs::KindRules::delete_good, crate::proofs::KindRules::delete_is))]
pub fn delete(alloc: Global, plan: &Plan, rest: Option<&[u8]>) -> Result<Event, LineFault>
    ensures { Tells (lowest_from 3 (form_rules plan.now kind.Delete (rest_words rest.entry))) (delete_of (rest_words rest.entry)) result }
{
    let Some(name) = one(rest) else {
        return Err(LineFault::Refused(3));
    };
    match universal(alloc, name)? {
        Some(name) => Ok(Event::Delete(name)),
        None => Err(LineFault::Refused(6)),
    }
}

/// `settle r`
#[tactic(auto, using(crate::proofs::KindRules::settle_length, crate::proofs::KindRules::settle_bad_1, crate::proofs::KindRules::settle_bad_2, crate::proofs::KindRules::settle_good, crate::proofs::KindRules::settle_is))]
pub fn settle(plan: &Plan, rest: Option<&[u8]>) -> Result<Event, LineFault>
    ensures { Tells (lowest_from 3 (form_rules plan.now kind.Settle (rest_words rest.entry))) (settle_of (rest_words rest.entry)) result }
{
    let Some(rounds) = one(rest) else {
        return Err(LineFault::Refused(3));
    };
    let Some(rounds) = read_number(rounds) else {
        return Err(LineFault::Refused(4));
    };
    if rounds > MOST_ROUNDS {
        return Err(LineFault::Refused(4));
    }
    Ok(Event::Settle(rounds as u32))
}
