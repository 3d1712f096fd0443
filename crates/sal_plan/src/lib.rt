//! Plan files: which theatres and naming services there are, and the words for `act`.
#![tactic(auto)]

mod addresses;
mod constants;
mod fault;
mod reading;
mod tables;
#[cfg(test)]
mod tests;
mod words;

pub use constants::{LONGEST_PLAN, MOST_SERVICES, MOST_THEATRES};
pub use fault::PlanFault;
pub use reading::read_plan;
