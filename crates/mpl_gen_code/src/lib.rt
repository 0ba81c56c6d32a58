//! The code of bodies and programs, and that it does what they mean.
#![tactic(auto)]

mod laws;

pub use laws::code_does_what_bodies_mean;
