//! Machines do what programs mean: the laws of logs, for programs whose classes are regular.
#![tactic(auto)]

mod laws;

pub use laws::{
    frames_of_programs_stray_as_bodies, logs_keep_sizes, machines_at_rest_ran_directly,
    machines_over_the_budget_are_spent, orders_and_marks_do_not_matter, regular_programs_are_plain,
    starts_fit_their_declarations,
};
