//! What a configuration is made of, wherever it lies, and what each step does to it.
#![tactic(auto)]

mod law;

pub use law::{
    answers_need_joins_alone, bindings_are_steps, creations_are_decided, failures_are_steps,
    handlers_are_steps, handlers_keep_below, images_forget_order, outer_replies_change_nothing,
    pieces_are_tidy, posts_are_steps, prints_are_steps, replies_keep_below, replies_keep_once,
    replies_keep_tidy, slot_replies_enter_books, steps_keep_below, still_pieces_are_final,
    things_owe_once, token_replies_enter_books,
};
