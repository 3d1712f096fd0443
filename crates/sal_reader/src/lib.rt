//! What the parser reads: the tokens of a text with their classes, one after another.
#![tactic(auto)]

mod brackets;
mod classes;
mod cursor;
mod law;
mod rule;
mod set;
mod source;
mod stop;
mod symbol;
mod text;

pub use brackets::{Effect, bracket_before};
pub use cursor::Cursor;
pub use law::tokens_are_lexemes;
pub use rule::rule_of;
pub use set::Set;
pub use source::symbols_of;
pub use stop::Stop;
pub use symbol::Symbol;
