//! What statements and handlers do, by going through their trees.
#![tactic(auto)]

mod actions;
mod beginning;
mod ends;
mod find;
mod fits;
mod handler_tree;
mod handlers;
mod members;
mod new_fields;
mod start;
mod statements;
mod supply;

pub use beginning::begin;
pub use find::find_handler;
pub use fits::{fits_call, fits_state};
pub use handlers::{handle, handle_with};
pub use statements::{exec, exec_block};
pub use supply::{FreshNames, ListedNames, TheatreNames};
