//! What is held for each of many names, in the order in which it came.
#![tactic(auto)]

mod queues;

pub use queues::Queues;

#[cfg(test)]
mod tests;
