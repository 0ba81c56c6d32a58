//! What explains a run with persistent objects: the journal, and what it means. Definitions and laws, on what
//! bodies do alone.
#![tactic(auto)]

mod bodies;
mod entry;
mod journal;
mod laws;

pub use bodies::Bodies;
pub use entry::Entry;
pub use journal::Journal;
pub use laws::{
    agreeing_meanings_explain_the_same, bodies_stay, justifications_stay,
    more_turns_change_no_journal, programs_are_lawful, starts_and_replies_fit, tests_decide,
    turns_never_fall,
};
