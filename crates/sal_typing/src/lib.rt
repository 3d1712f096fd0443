//! Laws of typed programs: functions without work, whose contracts are the laws.
#![tactic(auto)]

mod law;

pub use law::{
    arguments_fit, assignable_types_fit, calls_have_signatures, chains_have_their_sorts,
    constructors_take_arguments, expressions_have_parts, expressions_have_their_sorts,
    messages_have_parts, messages_have_their_sorts, operands_have_sorts, programs_have_parts,
    stages_have_parts, statements_are_typed_there, statements_have_parts, statements_keep_scopes,
    void_joins_are_void,
};
