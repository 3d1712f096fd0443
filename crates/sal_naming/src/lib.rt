//! The table of a naming service: each name ever given, where its actor is, and how often it moved.
#![tactic(auto)]

mod entry;
mod names;

pub use entry::{Deleted, Entry, Get, Put, Updated};
pub use names::Names;

#[cfg(test)]
mod tests;
