//! Tables whose entries may be empty: room that is taken before it is needed, and lists of changes.
#![tactic(auto)]

mod entries;
mod keyed;

pub use entries::Entries;
pub use keyed::Keyed;

#[cfg(test)]
mod tests;
