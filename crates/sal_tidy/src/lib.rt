//! That an actor's book and its next number go together, as laws: functions without work, whose
//! contracts are the laws.
#![tactic(auto)]

mod law;

pub use law::{
    handlers_leave_actors_tidy, newcomers_are_tidy, replies_leave_actors_tidy,
    tidiness_is_of_the_book, tidiness_is_tested, tidy_actors_take_replies,
};
