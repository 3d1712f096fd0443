//! Whatever a theatre's turn moves or routes changes no configuration: laws of the pieces of theatres.
#![tactic(auto)]

mod law;

pub use law::{
    actors_come_whole, actors_leave_whole, arrivals_are_unseen, calls_are_only_moved,
    clock_turns_are_unseen, due_items_are_unseen, envelopes_are_sent_whole,
    failing_turns_are_steps, handler_turns_are_steps, handlers_leave_pieces, items_are_only_moved,
    letters_are_unseen, letters_become_work, migrations_are_unseen, move_turns_are_unseen,
    moves_are_unseen, new_actors_are_placed_unseen, pending_creations_are_dropped,
    places_are_unseen, post_turns_are_steps, print_turns_are_steps, programs_take_names_only,
    routed_items_are_unseen, routes_are_unseen, sending_adds_pieces, step_turns_are_steps,
    theatres_call_as_steps, what_is_legal_is_sent_whole,
};
