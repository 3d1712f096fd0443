//! Cuts the text of a program into its tokens.
#![tactic(auto)]

mod bytes;
mod comments;
mod cutting;
mod laws;
mod numbers;
mod piece;
mod signs;
mod strings;
#[cfg(test)]
mod tests;
mod token;
mod words;

pub use cutting::lex;
pub use laws::{
    covered_is_not_refused, covered_or_refused, one_list_covers, one_refusal_stands,
    spans_are_inside, tokens_stand,
};
pub use token::{LexFault, LexRule, Token, Tokens};
