//! The machine in code: each call is one event.
#![tactic(auto)]

mod boot;
mod children;
mod drive_list;
mod ending;
mod firing;
mod forwarding;
mod frame_laws;
mod happened;
mod knowing;
mod machine;
mod making;
mod matching;
mod out_laws;
mod parts;
mod passing;
mod quitting;
mod ran;
mod reading;
mod refusals;
mod replying;
mod rows;
mod running;
mod sending;
mod settling;
mod starting;

pub use frame_laws::{
    frames_begin_where_bodies_do, frames_run_to_where_they_halt, frames_stand_where_bodies_halt,
    frames_that_are_told_go_on,
};
pub use machine::Machine;
pub use out_laws::{
    frames_stay_out, frames_that_are_out_are_ready, frames_that_are_out_stop,
    frames_that_begin_are_out, frames_that_resume_need_as_before, frames_that_were_told_are_out,
};
pub use ran::Ran;
pub use refusals::{NotReady, Open};
