//! The parser of programs, exact for the grammar.
#![tactic(auto)]

mod fault;
mod for_parts;
mod messages;
mod nest;
mod parsing;
mod programs;
mod statement;
#[cfg(test)]
mod tests;
mod turn;
mod variables;

pub use fault::ParseFault;
pub use parsing::parse;
