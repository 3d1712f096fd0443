//! Worked examples that tests read: texts and bytes, with what they stand for.
#![tactic(auto)]

mod bytes;
mod names;

pub use bytes::{
    ANON, ANON_LAST, ARRAY, ARRAY_EMPTY, BAD, BOOL, CUT, INT, INT_LEAST, NULL, OUTSIDE, REFERENCE,
    STR, STR_EMPTY,
};
pub use names::{
    BAD_HOSTS, BAD_LOCATOR_PATHS, BAD_LOCATOR_SCHEMES, BAD_PATHS, BAD_PORTS, BAD_SCHEMES, LOCATORS,
    NAMES,
};
