//! What a handler takes and gives.

use sal_value::{List, Sort};

/// What a handler takes, and its result.
#[derive(Debug, Drop)]
pub struct Signature {
    pub params: List<Sort>,
    pub result: Sort,
}
