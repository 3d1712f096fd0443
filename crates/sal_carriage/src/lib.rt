//! Frames, and links that carry envelopes in fragments over a network that loses and repeats.
#![tactic(auto)]

mod arrival;
mod datagram;
mod fragment;
mod frame;
mod law;
mod link;

pub use arrival::Arrival;
pub use datagram::{Datagram, OfferFault, Taken};
pub use fragment::{Fragment, Fragments};
pub use law::{
    halves_commute, honest_frames_cross, links_keep_order, networks_stay_honest, offers_are_last,
    pushes_change_nothing, unwanted_frames_change_little,
};
pub use link::Link;

#[cfg(test)]
mod tests;
