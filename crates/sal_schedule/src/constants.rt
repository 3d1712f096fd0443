//! Limits of schedules.

/// The length of a schedule in bytes.
pub const LONGEST_SCHEDULE: usize = 16_777_216;

/// How many lines a schedule has at most.
pub const MOST_LINES: u32 = 100_000;

/// How many rounds one `settle` has at most.
pub const MOST_ROUNDS: u64 = 1_000_000;

/// The node of the first naming service.
pub const FIRST_SERVICE: u64 = 8;
