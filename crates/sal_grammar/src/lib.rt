//! The grammar of actor programs: which tokens are a program, and how they are read.
#![tactic(auto)]

mod class;
mod law;
mod reason;

pub use class::Class;
pub use law::{programs_are_read, trees_are_unique};
pub use reason::{ParseRule, Reason};
