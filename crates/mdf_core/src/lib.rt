//! The machine as a list of events: what it holds after them, which event may come next, and the laws of such lists.
#![tactic(auto)]

mod item;
mod laws;
mod refused;
mod status;
mod worked;

pub use item::Item;
pub use laws::{
    actors_are_a_tree, actors_are_as_their_statuses_say, actors_fire_once,
    arcs_are_due_when_results_are_known, arcs_lead_from_calls, ended_logs_stay,
    frames_are_told_what_is_so, frames_that_are_out_stay, mailboxes_hold_complete_calls,
    missing_values_are_awaited, ports_have_their_arguments, results_become_known_once,
    running_actors_are_out, turns_are_those_of_the_actors, unnamed_actors_stay_out,
    values_are_awaited_once,
};
pub use refused::{
    calls_are_what_frames_stop_with, calls_arrive_once, frames_begin_where_actors_are_ready,
    frames_give_and_end_as_they_stop, machines_end_at_rest_or_spent, objects_accept_their_picks,
    objects_are_created_in_their_order, parked_frames_resume_for_known_results,
    results_are_learnt_when_they_are_known, tokens_are_matched_while_they_are_due,
};
pub use status::MachineStatus;
pub use worked::{
    a_get_waits_for_a_put, a_lonely_get_is_stuck, a_loop_beats, a_result_is_forwarded,
    a_trapped_argument_poisons, a_turn_too_few_is_spent, two_squares_are_added,
    two_squares_are_added_in_another_order,
};
