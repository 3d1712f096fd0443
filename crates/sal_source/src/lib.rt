//! The meaning of actor programs, by configurations and steps.
#![tactic(auto)]

mod actor_map;
mod actors;
mod config;
mod creations;
mod fresh;
mod law;
mod made;
mod messages;
mod open_joins;
mod player;
mod posts;
mod printing;
mod run;
mod runner;
mod services;
mod state;
#[cfg(test)]
mod tests;
mod waiting;

pub use actor_map::ActorState;
pub use config::Config;
pub use law::{joins_resolve_once, messages_are_taken_once, replies_commute, steps_answer_once};
pub use player::play;
pub use run::{Receiver, Run};
pub use runner::Runner;
pub use sal_handler::{Began, Outcome, Turn};
pub use state::{PlayFault, Setup, Step};
