//! Typed programs keep types.
#![tactic(auto)]

mod law;

pub use law::expressions_keep_types;
