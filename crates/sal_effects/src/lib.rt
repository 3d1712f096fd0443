//! What the effects of every handler keep, beyond the laws of `sal_handler`: functions without work,
//! whose contracts are the laws.
#![tactic(auto)]

mod law;

pub use law::{
    handlers_keep_ranges, handlers_number_in_order, handlers_serve_slots, handlers_sign_their_own,
    handlers_spell_all, handlers_stay_small, programs_begin_in_range, programs_begin_legally,
};
