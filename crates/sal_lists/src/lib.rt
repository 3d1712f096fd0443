//! The lists of a world: what was told so far.
#![tactic(auto)]

mod listing;
mod lists;
mod settling;

pub use listing::{Listing, list, make_listing};
pub use lists::Lists;
pub use settling::{OpenJoins, Settling};

#[cfg(test)]
mod tests;
