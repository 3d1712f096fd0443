//! The parser of expressions, equal to the functional parser of the grammar.
#![tactic(auto)]

mod at_depth;
mod grammar;
mod nest;
mod parts;
mod rank;
mod sorts;

pub use at_depth::{after_dot, after_name, closed_postfix, expr, other_postfix, suffixes, unary};
pub use parts::{add, suffixed, unless_sees};
pub use sorts::{name, pairs, type_of};
