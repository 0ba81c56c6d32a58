//! The code of a program: each body with its names resolved.
#![tactic(auto)]

mod assignments;
mod expressions;
mod flows;
mod found;
mod image;
mod names;
mod outline;
mod scope;
mod sizes;
mod statements;

pub use image::{BodyCodes, image_of};
pub use sizes::formal_words;
