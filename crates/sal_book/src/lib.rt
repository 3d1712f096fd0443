//! The book of an actor: its messages that wait for replies, and its open joins.
#![tactic(auto)]

mod book;
mod joins;
mod laws;
mod messages;
mod released;

pub use book::Book;
pub use laws::{books_keep_their_maker, joins_resolve, joins_resolve_once, releases_are_legal};
pub use released::Released;

#[cfg(test)]
mod tests;
