//! What runs a program's handlers.
#![tactic(auto)]

mod tree;

pub use tree::TreeRunner;
