//! What a theatre keeps, and how each of its turns goes: definitions, and the laws of routing.
#![tactic(auto)]

mod item;
mod law;
mod pending;
mod told;

pub use item::Item;
pub use law::{
    idle_clocks_change_nothing, parts_keep_the_node, routing_ends, routing_goes_by_items,
    unwanted_datagrams_change_little,
};
pub use pending::{Asking, Pending, Question};
pub use told::Told;
