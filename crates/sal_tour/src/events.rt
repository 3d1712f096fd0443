//! The events.

ghost use Rattle.std.specs.Prelude.{◌≡◌, IfOk};
ghost use Rattle.sal_tour.specs.Events.{drawn, drawn_events, tour_events};

use crate::constants::{DRAWN_EVENTS, LAST_ROUNDS};
use crate::draws::draw;
use sal_events::Event;
use sal_value::{List, NoMemory};
use std::alloc::Global;

/// Draws an event.
#[tactic(auto, unfolding(crate::specs::Events::drawn))]
fn draw_event(state: &mut u64) -> Event
    ensures { (result, state.new) ≡ drawn state.old }
{
    match draw(state, 4) {
        0 => Event::Step {
            theatre: draw(state, 8) as u8,
            position: 0,
        },
        1 => Event::Push(draw(state, 9) as u8),
        2 => Event::Deliver(draw(state, 4_096) as usize),
        _ => {
            let node = draw(state, 9) as u8;
            let ms = draw(state, 100);
            Event::Clock { node, ms }
        }
    }
}

/// So many events, drawn from this state on.
fn drawn_events(alloc: Global, count: u32, mut state: u64) -> Result<List<Event>, NoMemory>
    ensures { IfOk result (λ events. events ≡ drawn_events count state) }
{
    let mut events = Vec::with_capacity(alloc, count as usize + 1)?;
    for _turn in 0..count {
        let event = draw_event(&mut state);
        events.push(event)?;
    }
    Ok(List::from_vec(events))
}

/// The events of the tour with this number.
#[tactic(auto, unfolding(crate::specs::Events::tour_events))]
pub fn tour_events(alloc: Global, number: u64) -> Result<List<Event>, NoMemory>
    ensures { IfOk result (λ events. events ≡ tour_events number) }
{
    let mut events = drawn_events(alloc, DRAWN_EVENTS, number)?;
    events.push(Event::Settle(LAST_ROUNDS))?;
    Ok(events)
}
