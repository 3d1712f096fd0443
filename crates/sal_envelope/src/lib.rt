//! Envelopes on bytes.
#![tactic(auto)]

mod fault;
pub mod fields;
pub mod front;
mod law;
mod reading;
mod writing;

pub use fault::Fault;
pub use law::{
    decoded_envelopes_are_spelled, envelopes_are_delimited, spelled_envelopes_are_decoded,
};
pub use reading::{call, decode, fault_with_offset, if_none_left};
pub use writing::{encode, put_call};

#[cfg(test)]
mod tests;
