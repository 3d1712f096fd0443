//! Actors with all that they take along, and their bytes.
#![tactic(auto)]

mod law;
mod reading;
mod resident;
mod writing;

pub use law::{
    packed_actors_are_delimited, packed_actors_are_unpacked, unpacked_actors_are_packed,
};
pub use reading::unpack;
pub use resident::{PackFault, Resident};
pub use writing::pack;

#[cfg(test)]
mod tests;
