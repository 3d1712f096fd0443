//! The types of actor programs: which programs are typed, and why the others aren't.
#![tactic(auto)]

mod endings;
mod law;
mod members;
mod numbers;
mod program;
mod rules;
mod signature;
mod signing;
mod statement;
mod typed;

pub use law::{handlers_have_signatures, handlers_with_results_end};
pub use sal_sorts::TypeFault;
pub use signature::Signature;
pub use typed::{Typed, check};
