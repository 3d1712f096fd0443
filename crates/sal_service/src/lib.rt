//! The node of a naming service: its turns, one datagram or reading of the clock at a time.
#![tactic(auto)]

mod answering;
mod node;
mod origin;
mod register;
mod serving;
mod site;
mod turned;

pub use node::NameNode;
pub use turned::{Decision, Turned};

#[cfg(test)]
mod tests;
