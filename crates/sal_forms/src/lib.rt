//! Whether a program names places, by `new` with `at` or by `getReferenceByName`.
#![tactic(auto)]

mod places;
#[cfg(test)]
mod tests;

pub use places::names_places;
