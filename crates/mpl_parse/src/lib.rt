//! Tokens to trees.
#![tactic(auto)]

mod class;
mod declaration;
mod flow;
mod head;
mod local;
mod onto;
mod parser;
mod simple;
mod statement;

pub use parser::{ParseFault, parse};
