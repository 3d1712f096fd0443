//! Limits of plans.

/// The length of a plan file in bytes.
pub const LONGEST_PLAN: usize = 65_536;

/// How many theatres a plan has at most.
pub const MOST_THEATRES: usize = 8;

/// How many naming services a plan has at most.
pub const MOST_SERVICES: usize = 4;
