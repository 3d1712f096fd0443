//! What a handler reads and changes while it runs: its context, and the changes of its state.
#![tactic(auto)]

mod actors;
mod assign;
mod context;
mod counts;
mod fields;
mod joins;
mod locals;
mod supply;
mod variables;

pub use actors::{add_actor, add_creation, room_for_actor};
pub use assign::assign_variable;
pub use context::Context;
pub use counts::{begin_turn, take_limited_serial, take_serial, take_slot};
pub use fields::field_named;
pub use joins::{close_join, open_join, within_join};
pub use locals::{add_local, declare, declare_token, keep_locals, local_named, token_named};
pub use supply::{ActorSupply, NoActors};
pub use variables::{read_field, read_variable};
