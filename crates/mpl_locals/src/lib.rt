//! The variables in scope, by their names.
#![tactic(auto)]

pub mod locals;
