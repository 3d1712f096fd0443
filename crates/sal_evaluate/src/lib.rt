//! What expressions give.
#![tactic(auto)]

mod create;
mod expressions;
mod places;

pub use expressions::{evaluate, evaluate_all};
