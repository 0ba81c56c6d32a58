//! Worked journals: small sources with persistent objects, and what explains their runs.
#![tactic(auto)]

mod journals;

pub use journals::{
    classes_without_select_accept_all, endless_bodies_are_over, gets_wait_for_puts,
    guards_that_trap_do_not_hold, objects_have_their_classes, priorities_decide,
    trapped_arguments_never_arrive, what_waits_for_itself_is_stuck,
};
