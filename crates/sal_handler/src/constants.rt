//! Numbers that the language fixes for one handler.

/// The most messages that a handler sends, the most joins that it opens, and the most actors that
/// it makes.
pub const MOST_MADE: usize = 1_024;

/// The most loop turns of a handler.
pub const MOST_TURNS: u32 = 100_000;

/// The longest delay, in milliseconds.
pub const LONGEST_DELAY: u32 = 86_400_000;

/// A handler begins with at least so many of its actor's numbers left.
pub const NUMBERS_LEFT: u64 = 4_096;

/// The greatest next number with which a handler begins.
pub const LAST_SERIAL: u64 = u64::MAX - (NUMBERS_LEFT - 1);

/// The number of a behaviour or handler that the program doesn't have.
pub const NO_NUMBER: u16 = 65_534;

/// A theatre that no plan has.
pub const NO_THEATRE: u32 = u32::MAX;
