//! Numbers of the world.

/// How many packets a world keeps.
pub const PACKET_LIMIT: usize = 200000;

/// By how much a round of settling raises each clock, in milliseconds.
pub const ROUND_TIME: u64 = 250;
