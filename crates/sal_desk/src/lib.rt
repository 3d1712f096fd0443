//! What a turn works on: a theatre, and beside it what the turn will change.
#![tactic(auto)]

mod desk;
mod draft;
mod ending;
mod lists;
mod messages;
mod names;
mod parcels;
mod questions;
mod residents;
mod standing;
mod state;

pub use desk::Desk;
pub use draft::Draft;
pub use parcels::Parcels;
pub use residents::Residents;
pub use standing::Standing;
pub use state::State;
