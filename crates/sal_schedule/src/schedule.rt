//! Reading a schedule.

ghost use Rattle.std.specs.Prelude.{◌≡◌, ◌∷◌, ◌++◌, ◌<◌, ◌≤◌, length, take, drop, OnOk};
ghost use Rattle.std.specs.Option.{option_to_list};
ghost use Rattle.sal_value.specs.Names.{NonePass, FirstPasses};
ghost use Rattle.sal_schedule.specs.Lines.{is_line_feed, lines_of};
ghost use Rattle.sal_schedule.specs.Rules.{line_event};
ghost use Rattle.sal_schedule.specs.Schedules.{last_after, numbered_line_rule, schedule_events, ReadsLine, ReadsSchedule};
ghost use Rattle.sal_schedule.specs.code.Plans.{HasRoom};

use crate::constants::{LONGEST_SCHEDULE, MOST_LINES};
use crate::fault::{LineFault, ScheduleFault};
use crate::line::read_line;
use sal_events::Event;
use sal_mail::Plan;
use sal_types::Typed;
use sal_value::{List, NoMemory};
use std::alloc::Global;

/// How many bytes stand before the first line feed.
#[tactic(auto, using(sal_value::proofs::Cuts::none_more, sal_value::proofs::Cuts::first_here, sal_value::proofs::Cuts::first_end))]
fn line_len(text: &[u8]) -> usize
    ensures within { result ≤ length text.now }
    ensures before { NonePass is_line_feed (take result text.now) }
    ensures after { FirstPasses is_line_feed (drop result text.now) }
{
    for (at, byte) in text.iter().enumerate() {
        if *byte == b'\n' {
            return at;
        }
    }
    text.len()
}

/// The first line, and what follows its line feed.
#[tactic(auto, using(crate::proofs::Cutting::last_line, crate::proofs::Cutting::first_line))]
fn split_line(text: &[u8]) -> (&[u8], &[u8])
    requires { 0 < length text.now }
    ensures cut { lines_of text.now ≡ result.0.now ∷ lines_of result.1.now }
    ensures less { length result.1.now < length text.now }
{
    let at = line_len(text);
    if at == text.len() {
        return (text, &[]);
    }
    (&text[..at], &text[at + 1..])
}

fn last_after(last: u64, event: &Option<Event>) -> u64
    ensures { result ≡ last_after last event.now }
{
    match event {
        Some(Event::Post { number, .. }) => *number,
        Some(Event::Step { .. }) => last,
        Some(Event::Push(_)) => last,
        Some(Event::Deliver(_)) => last,
        Some(Event::Clock { .. }) => last,
        Some(Event::Move { .. }) => last,
        Some(Event::Delete(_)) => last,
        Some(Event::Settle(_)) => last,
        None => last,
    }
}

/// Reads the line with this number, counted from 1.
fn numbered_line(
    alloc: Global,
    number: u32,
    line: &[u8],
    plan: &Plan,
    program: &Typed,
    last: u64,
) -> Result<Option<Event>, ScheduleFault>
    requires { HasRoom plan.now }
    ensures { ReadsLine number (numbered_line_rule program.now plan.now number last line.now) (line_event program.now line.now) result }
{
    if number > MOST_LINES {
        return Err(ScheduleFault::Refused {
            rule: 1,
            line: number,
        });
    }
    match read_line(alloc, line, plan, program, last) {
        Ok(event) => Ok(event),
        Err(LineFault::Refused(rule)) => Err(ScheduleFault::Refused { rule, line: number }),
        Err(LineFault::Memory) => Err(ScheduleFault::Memory),
    }
}

fn push_event(events: &mut List<Event>, event: Option<Event>) -> Result<(), NoMemory>
    ensures { OnOk result (events.new ≡ events.old ++ option_to_list event) }
{
    match event {
        Some(event) => events.push(event),
        None => Ok(()),
    }
}

/// Reads a schedule, or names its first line that breaks a rule, and the lowest rule that it breaks.
#[tactic(auto, using(crate::proofs::Runs::begins, crate::proofs::Runs::on, crate::proofs::Runs::refused, crate::proofs::Runs::ends, crate::proofs::Runs::few), unfolding(crate::specs::Schedules::schedule_events))]
pub fn read_schedule(
    alloc: Global,
    bytes: &[u8],
    plan: &Plan,
    program: &Typed,
) -> Result<List<Event>, ScheduleFault>
    requires { HasRoom plan.now }
    ensures { ReadsSchedule (schedule_events program.now plan.now bytes.now) result }
{
    if bytes.len() > LONGEST_SCHEDULE {
        return Err(ScheduleFault::Refused { rule: 1, line: 1 });
    }
    let mut events = List::new(alloc);
    let mut rest = bytes;
    let mut number = 1u32;
    let mut last = 0u64;
    while !rest.is_empty() {
        let (line, more) = split_line(rest);
        let event = numbered_line(alloc, number, line, plan, program, last)?;
        last = last_after(last, &event);
        push_event(&mut events, event)?;
        rest = more;
        number += 1;
    }
    Ok(events)
}
