//! Replay documents: what was played and what became of it, as lines of text.
#![tactic(auto)]

mod constants;
mod fault;
mod laws;
mod lines;
mod printing;
mod reading;
mod shown;
mod shows;
mod words;

pub use constants::LONGEST_DOCUMENT;
pub use laws::{printed_documents_are_read, texts_are_read_one_way};
pub use printing::print_replay;
pub use reading::read_replay;
pub use shown::{End, Replay, ReplayFault, Shown};

#[cfg(test)]
mod tests;
