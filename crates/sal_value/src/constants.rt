//! Numbers that the language fixes.

/// The port of a name that gives none.
pub const NAME_PORT: u16 = 3030;

/// The port of a locator that gives none.
pub const LOCATOR_PORT: u16 = 4040;

/// The number that no behaviour and no handler of a program has.
pub const RESERVED: u16 = 65_535;
