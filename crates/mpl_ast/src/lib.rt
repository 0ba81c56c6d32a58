//! Tokens, and the trees of the whole grammar. There is a node type for each rule of the grammar and a
//! variant for each of its alternatives, with the parts in the grammar's order.
//!
//! Each node begins with its `At`. A node with an operator, a `[` or a last `}` of its own has the line
//! of that token as its `mark_line`, which is the number behind the `At`.
#![tactic(auto)]

pub mod class;
pub mod expression;
pub mod flow;
pub mod place;
pub mod program;
pub mod statement;
pub mod token;

pub use place::{At, Name, Number, Span};
