//! The tour: a program, a plan, and events that are drawn by a number.
#![tactic(auto)]

mod constants;
mod draws;
mod events;
mod plan;
mod tour;

pub use constants::{DRAWN_EVENTS, PROGRAM};
pub use tour::{Tour, make_tour};

#[cfg(test)]
mod tests;
