//! Values as texts, as schedules and documents write them.
#![tactic(auto)]

mod fault;
mod laws;
mod names;
mod numbers;
mod printing;
mod quoted;
mod reading;
mod words;

pub use laws::{printed_values_are_read, read_values_are_printed, values_have_own_texts};
pub use numbers::read_number;
pub use printing::{print_value, put_name, put_quoted, put_value};
pub use reading::{read_name, read_schedule_value, read_value};

#[cfg(test)]
mod tests;
