//! What the names of types stand for in a program, how many words their values have, and where the parts of structs and
//! states lie.
#![tactic(auto)]

pub mod class;
mod classes;
pub mod layout;
pub mod members;
pub mod name;
pub mod named;
pub mod part;
pub mod parts;
pub mod words;
