//! Why the order of events doesn't matter: logs at rest say what the direct run says.
#![tactic(auto)]

mod driving;
mod handing;
mod laws;
mod main_ends;

pub use driving::tokens_are_matched_and_actors_go_on;
pub use handing::frames_hand_out_little;
pub use laws::{
    actors_fire_where_arguments_are_known, logs_at_rest_are_the_direct_run,
    logs_over_the_budget_are_spent, orders_do_not_matter, programs_of_regular_classes_are_plain,
    results_are_answers,
};
pub use main_ends::{main_does_one_thing, main_ends_or_waits_at_rest};
