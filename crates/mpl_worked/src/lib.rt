//! Worked programs, from their sources to what they do.
#![tactic(auto)]

mod runs;

pub use runs::{sources_with_an_order, sources_with_calls, sources_with_loops, sources_with_traps};
