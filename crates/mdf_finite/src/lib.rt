//! A machine doesn't go on for ever: its turns bound the length of its log.
#![tactic(auto)]

mod laws;

pub use laws::logs_are_short;
