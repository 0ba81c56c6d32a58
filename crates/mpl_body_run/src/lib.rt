//! Runs the code of bodies.
#![tactic(auto)]

mod arguments;
mod calls;
mod items;
mod leaves;
mod machine;
mod operate;
mod perform;
mod places;
mod running;
mod setting;
mod stack;
mod start_machine;
mod step;
mod unwind;
mod word_list;

pub use machine::{Body, Caller, Frame, Input, Machine};
pub use running::run;
pub use setting::Setting;
pub use stack::{Holds, Slots, Stack};
pub use start_machine::{machine_of, slots_of};
