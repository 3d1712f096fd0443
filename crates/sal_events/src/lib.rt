//! What can happen to a world of theatres and naming services, and what is told of one.
#![tactic(auto)]

mod event;
mod report;

pub use event::Event;
pub use report::Report;
