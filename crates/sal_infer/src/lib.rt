//! Types of expressions, messages and chains, as they stand in the text: to which handler a
//! message goes, and whether a join is void.
#![tactic(auto)]

mod chains;
mod expressions;
mod members;
mod messages;
mod scope;
mod sorts;

pub use chains::is_void_join;
pub use expressions::expression_sort;
pub use members::{behavior_by_name, handler_by_name};
pub use messages::HandlerId;
pub use scope::{Declared, Scope};
pub use sorts::type_sort;
