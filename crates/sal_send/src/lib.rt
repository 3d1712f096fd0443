//! What one message stage does.
#![tactic(auto)]

mod after;
mod arguments;
mod handler;
mod reply;
mod stage;
mod target;

pub use reply::reply_of_stage;
pub use stage::{MessageStage, message};
