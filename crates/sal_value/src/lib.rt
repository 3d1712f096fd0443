//! Names, locators and values of actor programs, and the lists, texts and boxes that hold them.
#![tactic(auto)]

mod address;
mod boxed;
mod clone_in;
mod constants;
mod decode;
mod encode;
mod fields;
mod laws;
mod list;
mod name;
mod no_memory;
mod order;
mod reading;
mod size;
mod text;
mod value;

pub use boxed::Boxed;
pub use clone_in::{CloneIn, copies};
pub use constants::{LOCATOR_PORT, NAME_PORT, RESERVED};
pub use laws::{
    keys_are_injective, locators_are_read, names_are_decided, names_are_decoded, names_are_given,
    names_are_read, names_are_refused_once, values_are_decoded,
};
pub use list::List;
pub use name::{Authority, Name, NameFault, Ual, Uan};
pub use no_memory::NoMemory;
pub use text::Text;
pub use value::{Base, DecodeFault, Sort, Value, Values};

#[cfg(test)]
mod tests;
