//! A row of operands folded into an expression.
#![tactic(auto)]

mod fold;
mod lone;

pub use fold::{Row, whole_row};
pub use lone::lone_operand;
