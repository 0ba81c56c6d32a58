//! The code of a body, with its names resolved, and what it does.
#![tactic(auto)]

mod code;
mod image;
mod instruction;
mod laws;

pub use code::Code;
pub use image::Image;
pub use instruction::{Base, Finish, FunctionCode, Instruction, MemberCode, Operator, Spot};
pub use laws::{code_does_what_bodies_mean, steps_run_out};
