//! The links of a node: one to each other node of its plan.
#![tactic(auto)]

mod constants;
mod law;
mod links;
mod parcel;

pub use constants::FIRST_SERVICE;
pub use law::offers_are_made_between_halves;
pub use links::{Links, sender_of};
pub use parcel::{Parcel, Took};
