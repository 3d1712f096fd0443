//! Accepted programs keep types: what their handlers leave is typed, and everything fits in their runs.
#![tactic(auto)]

mod law;

pub use law::{
    bodies_that_end_return, constructors_make_fields, handlers_keep_types, messages_stay_short,
    programs_begin_typed, runs_fit,
};
