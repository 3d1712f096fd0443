//! One theatre alone: in which order its turns come, and the run that they make.
#![tactic(auto)]

mod order;
mod outcome;
mod rounds;
mod turn;

pub use rounds::{Rest, Settled, settle};
