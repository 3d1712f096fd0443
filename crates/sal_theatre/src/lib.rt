//! A theatre: its turns, each all or nothing.
#![tactic(auto)]

mod arrivals;
mod creating;
mod envelopes;
mod fits;
mod handling;
mod holding;
mod law;
mod migrating;
mod nodes;
mod outside;
mod preparing;
mod printing;
mod reading;
mod routing;
mod theatre;
mod turned;

pub use law::turns_keep_the_node;
pub use theatre::Theatre;
pub use turned::{Prepared, Turned};
