//! Reading one line.

ghost use Rattle.std.specs.Prelude.{◌≡◌};
ghost use Rattle.sal_schedule.specs.Events.{event_of};
ghost use Rattle.sal_schedule.specs.Lines.{is_skipped};
ghost use Rattle.sal_schedule.specs.Rules.{kind_rules, line_rules, line_event, lowest_from, Answers};
ghost use Rattle.sal_schedule.specs.code.Plans.{HasRoom, Tells};
ghost use Rattle.sal_schedule.specs.code.Words.{rest_words};

use crate::events::{clock, delete, deliver, move_actor, push, settle, step};
use crate::fault::LineFault;
use crate::kind::{Kind, kind_by_word};
use crate::post::post;
use crate::words::split_word;
use sal_events::Event;
use sal_mail::Plan;
use sal_types::Typed;
use std::alloc::Global;

fn is_skipped(line: &[u8]) -> bool
    ensures { result ≡ is_skipped line.now }
{
    match line {
        [] => true,
        [first, ..] => *first == b'#',
    }
}

/// The event of this kind that the other words tell.
fn read_event(
    alloc: Global,
    kind: Kind,
    rest: Option<&[u8]>,
    plan: &Plan,
    program: &Typed,
    last: u64,
) -> Result<Event, LineFault>
    requires { HasRoom plan.now }
    ensures { Tells (lowest_from 3 (kind_rules program.now plan.now last kind (rest_words rest.entry))) (event_of program.now kind (rest_words rest.entry)) result }
{
    match kind {
        Kind::Step => step(plan, rest),
        Kind::Push => push(plan, rest),
        Kind::Deliver => deliver(plan, rest),
        Kind::Clock => clock(plan, rest),
        Kind::Move => move_actor(alloc, plan, rest),
        Kind::Post => post(alloc, program, plan, last, rest),
        Kind::Delete => delete(alloc, plan, rest),
        Kind::Settle => settle(plan, rest),
    }
}

/// Reads one line of a schedule, or names the lowest rule that it breaks. `last` is the number of
/// the last post before it, or 0. None where the line is skipped.
#[tactic(auto, using(crate::proofs::Reading::not_text, crate::proofs::Reading::skips, crate::proofs::Reading::no_kind, crate::proofs::Reading::told_rule, crate::proofs::Reading::told_is))]
pub fn read_line(
    alloc: Global,
    line: &[u8],
    plan: &Plan,
    program: &Typed,
    last: u64,
) -> Result<Option<Event>, LineFault>
    requires { HasRoom plan.now }
    ensures { Answers (lowest_from 1 (line_rules program.now plan.now last line.now)) (line_event program.now line.now) result }
{
    let Ok(_text) = str::from_utf8(line) else {
        return Err(LineFault::Refused(1));
    };
    if is_skipped(line) {
        return Ok(None);
    }
    let (first, rest) = split_word(line);
    let Some(kind) = kind_by_word(first) else {
        return Err(LineFault::Refused(2));
    };
    let event = read_event(alloc, kind, rest, plan, program, last)?;
    Ok(Some(event))
}
