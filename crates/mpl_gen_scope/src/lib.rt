//! What surrounds the statements of a body whose code is written: a program's declarations by their names, and the
//! variables of the body by theirs.
#![tactic(auto)]

pub mod found;
pub mod locals;
pub mod marks;
pub mod outline;
pub mod scope;
