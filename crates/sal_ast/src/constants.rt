//! Numbers that the language fixes.

/// The most bytes of a program's text.
pub const LONGEST_PROGRAM: usize = 262_144;
