//! What is in transit in a world, whatever the network does: laws of its letters.
#![tactic(auto)]

mod law;

pub use law::{
    deliveries_take_letters, desks_keep_links, idle_services_keep, idle_theatres_keep,
    marks_keep_letters, new_worlds_are_silent, offers_become_letters, offers_keep_order,
    pushes_keep_letters, services_push, services_take, theatres_push, theatres_send, theatres_take,
};
