//! The code of bodies, and the image of a program.
#![tactic(auto)]

mod assignments;
mod bodies;
mod classes;
mod entries;
mod functions;
pub mod image;
mod members;
mod statements;
mod variables;
