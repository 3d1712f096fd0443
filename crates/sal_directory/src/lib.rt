//! To which node of a plan a locator or a name leads.
#![tactic(auto)]

mod nodes;

pub use nodes::{service_of, theatre_of};

#[cfg(test)]
mod tests;
