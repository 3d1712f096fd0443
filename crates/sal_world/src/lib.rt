//! The world: the nodes of a plan and the packets between them. What each event does to it, when it is at rest, and
//! which configuration is left of it once places are forgotten.
#![tactic(auto)]

mod constants;
mod packet;
mod turned;

pub use constants::{PACKET_LIMIT, ROUND_TIME};
pub use packet::Packet;
pub use turned::{Settled, Turned};
