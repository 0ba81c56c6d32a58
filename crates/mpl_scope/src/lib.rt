//! What names and types stand for, in a program and in the scopes of its bodies.
#![tactic(auto)]

pub mod blocks;
pub mod earlier;
pub mod first_named;
pub mod kinds;
pub mod members;
pub mod names;
pub mod outline;
pub mod scope;
pub mod shapes;
pub mod sizes;
pub mod types;
pub mod words;
