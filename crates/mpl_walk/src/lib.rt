//! Runs a body in place, the plain way: the code of its program, step by step.
#![tactic(auto)]

mod walk_body;

pub use walk_body::walk;
