//! How large the numbers in the images of programs are.
#![tactic(auto)]

mod laws;

pub use laws::numbers_of_images_are_small;
