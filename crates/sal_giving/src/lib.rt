//! What giving a reply does to what waits is what it does to the book of the actor to whom it is
//! owed.
#![tactic(auto)]

mod law;

pub use law::giving_is_by_books;
