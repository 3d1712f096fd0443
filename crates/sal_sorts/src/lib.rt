//! Sorts of expressions and messages, and the first rule that they violate.
#![tactic(auto)]

mod environment;
mod expression;
mod fault;
mod identifier;
mod member;
mod message;
mod rules;
mod scope;
mod sort;
mod starts;
mod variable;

pub use environment::Environment;
pub use expression::{judge, judge_exprs, judge_option, judge_type, variable_sort};
pub use fault::TypeFault;
pub use identifier::Identifier;
pub use message::judge_message;
pub use rules::{index_rule, permission_rule, require, token_rule, unknown_name};
pub use sort::{Base, Sort};
pub use starts::{arg_start, expr_start, message_start};
pub use variable::{MemberKind, Variable};
