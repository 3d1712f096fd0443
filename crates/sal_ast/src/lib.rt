//! Syntax trees of actor programs: one variant for each form of the grammar, lists for
//! repetitions, and in `at` the byte of a form's first token.
#![tactic(auto)]

mod constants;
mod depth;
mod expression;
mod law;
mod lexeme;
mod program;
mod spell;
mod spell_program;
mod statement;
#[cfg(test)]
mod tests;

pub use constants::LONGEST_PROGRAM;
pub use expression::{At, Expr, Op, Operand, Suffix};
pub use law::{brackets_are_closed, prefix_signs_are_bounded, spellings_are_not_empty};
pub use lexeme::{Kind, Lexeme};
pub use program::{BaseName, Behavior, Ident, Member, Param, Program, TypeName};
pub use statement::{Aim, Arg, Assign, Chain, Declare, ForInit, Property, Send, Stage, Stmt};
