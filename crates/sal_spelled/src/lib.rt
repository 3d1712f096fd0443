//! Whether envelopes and packed actors have spellings, told without memory, and the bytes of those that have one.
#![tactic(auto)]

mod actors;
mod envelopes;
mod law;
mod parts;
mod sending;
mod values;

pub use actors::is_packable;
pub use envelopes::envelope_is_spelled;
pub use law::{light_actors_may_be_sent, sent_envelopes_are_parcels};
pub use sending::{pack_if_light, spell};

#[cfg(test)]
mod tests;
