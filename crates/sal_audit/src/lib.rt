//! Audits: replay documents held against the meaning of their program.
#![tactic(auto)]

mod same;
mod verdict;

pub use same::{Same, same_items, same_values};
pub use verdict::{Verdict, audit};
