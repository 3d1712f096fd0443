//! Numbers of behaviours and handlers that no program has.

use sal_value::RESERVED;

/// The behaviour of `standardOutput`, and of `migrate`.
pub const OUTPUT: u16 = RESERVED;

/// The handler `print` of the output.
pub const PRINT: u16 = 0;

/// The handler `println` of the output.
pub const PRINTLN: u16 = 1;

/// The handler `migrate`.
pub const MIGRATE: u16 = RESERVED;
