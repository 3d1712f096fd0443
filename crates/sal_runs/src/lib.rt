//! Laws of runs, beyond those of `sal_source`.
#![tactic(auto)]

mod law;

pub use law::{
    bound_names_are_served, given_names_are_actors, joins_give_as_they_leave, joins_give_once,
    open_joins_lack_values, runs_owe_once, runs_stay_sound, steps_tell_more,
};
