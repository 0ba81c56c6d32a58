//! Tokens to trees, of the whole grammar.
#![tactic(auto)]

mod laws;
pub mod piece;
pub mod position;
mod worked;

pub use laws::{programs_are_taken, tokens_have_one_program};
pub use worked::{forms_are_taken, others_are_not};
