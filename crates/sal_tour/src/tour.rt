//! The tour with a number.

ghost use Rattle.std.specs.Prelude.{IfOk};
ghost use Rattle.sal_tour.specs.Tours.{IsTour};

use crate::constants::PROGRAM;
use crate::events::tour_events;
use crate::plan::tour_plan;
use sal_events::Event;
use sal_mail::Plan;
use sal_value::{List, NoMemory, Text};
use std::alloc::Global;

/// A program with what happens to it.
#[derive(Drop)]
pub struct Tour {
    pub program: Text,
    pub plan: Plan,
    pub events: List<Event>,
}

/// The tour with this number. Only the events depend on it.
pub fn make_tour(alloc: Global, number: u64) -> Result<Tour, NoMemory>
    ensures { IfOk result (IsTour number) }
{
    Ok(Tour {
        program: Text::from_text(alloc, PROGRAM)?,
        plan: tour_plan(alloc)?,
        events: tour_events(alloc, number)?,
    })
}
