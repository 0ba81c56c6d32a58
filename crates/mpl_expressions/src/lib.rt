//! The expressions that are read of tokens.
#![tactic(auto)]

mod lead;
mod operand;
mod targets;

pub use operand::{expression, expressions, place};
pub use targets::{field, target, variable};
