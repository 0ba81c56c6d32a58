//! What the images of programs are.
#![tactic(auto)]

mod laws;
mod worked;

pub use laws::{
    frames_of_covered_programs_stray_nowhere, guard_code_holds_as_the_language_says,
    images_of_programs_are_images, main_runs_as_its_code, needs_are_the_marked_uses,
};
pub use worked::{
    images_call, images_keep_the_order, images_trap, needs_stand_where_the_marks_are,
};
