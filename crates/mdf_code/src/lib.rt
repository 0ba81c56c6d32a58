//! The code of a program, and what it means: instructions, images, frames and their steps.
#![tactic(auto)]

mod check;
mod copy;
mod image;
mod instr;
mod laws;
mod loops;
mod raw;
mod text;
mod worked_bodies;
mod worked_steps;

pub use check::is_sound;
pub use image::Image;
pub use instr::Instr;
pub use laws::{
    code_counts_its_turns, code_has_one_yield, code_keeps_sizes, code_of_images_ends,
    frames_are_told_one_list, frames_come_through, frames_do_what_their_bodies_may,
    frames_halt_at_one_place, frames_name_results_of_their_calls, frames_of_images_halt,
    frames_step_as_they_are_seen, frames_stray_with_bodies_alone, frames_that_come_through_yield,
    more_knowledge_changes_no_step, more_replies_only_add_to_code, more_turns_change_no_yield,
    spent_code_stays_spent,
};
pub use raw::{
    CodeText, RawClass, RawClasses, RawCode, RawEntries, RawEntry, RawFunction, RawFunctions,
    RawImage, RawMember, RawMembers, Sizes,
};
pub use text::listing;
pub use worked_bodies::{
    a_frame_comes_through, code_awaits_replies, code_calls_in_place, code_ends_past_its_end,
    code_spends_turns, code_traps, frames_halt, guards_decide, images_keep_their_form,
    listings_have_lines, strays_may_go_on,
};
pub use worked_steps::{
    flows_are_passed, places_are_reached, steps_stray, steps_trap, words_are_computed,
    words_are_kept,
};
