//! The type rules: the least failure in a program, or none.
#![tactic(auto)]

mod arguments;
mod bodies;
mod calls;
mod classes;
mod declarations;
mod expressions;
mod failure;
mod fault;
mod fields;
mod locals;
mod outlines;
mod places;
mod programs;
mod statements;

pub use fault::TypeFault;
pub use programs::{check, is_typed};
