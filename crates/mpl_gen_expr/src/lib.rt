//! The code of expressions, flows and calls.
#![tactic(auto)]

pub mod alone;
pub mod codes;
pub mod draft;
pub mod expressions;
pub mod flows;
pub mod kinds;
pub mod places;
