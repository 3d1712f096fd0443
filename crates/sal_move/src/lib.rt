//! Moving actors: the places where they are known to be.
#![tactic(auto)]

mod places;

pub use places::{Known, Whereabouts, first_places_with_most_moves_are_kept};

#[cfg(test)]
mod tests;
