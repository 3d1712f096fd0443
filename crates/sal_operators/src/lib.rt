//! What values do: operators, arrays, texts, and the values that variables start as.
#![tactic(auto)]

mod arithmetic;
mod arrays;
mod defaults;
mod names;
mod operators;
mod texts;
mod values;

pub use arrays::{
    checked_index, clone_item, length_of, new_array, put_item, value_after_assign, within_limits,
};
pub use defaults::{default_item, default_of};
pub use names::{locator_of, universal_name_of};
pub use operators::{equals, negate_bool, negate_int, operate, operate_owned, short_circuits};
pub use texts::{literal_text, plus};
pub use values::{int_of, is_text_value, is_true, items_of, literal_value, text_of};
