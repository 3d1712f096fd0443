//! Schedules: lines of text, each an event.
#![tactic(auto)]

mod arguments;
mod constants;
mod events;
mod fault;
mod kind;
mod line;
mod post;
mod schedule;
mod words;

pub use constants::{FIRST_SERVICE, LONGEST_SCHEDULE, MOST_LINES, MOST_ROUNDS};
pub use fault::{LineFault, ScheduleFault};
pub use line::read_line;
pub use schedule::read_schedule;
pub use words::next_word;
