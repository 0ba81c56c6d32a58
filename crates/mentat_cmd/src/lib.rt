//! The commands of the program, over any shelf of files, input and outputs.
#![tactic(auto)]

mod command;
mod laws;
mod message;
mod output;
mod run;
mod source_words;
mod status;
mod words;

pub use command::quiet_command;
pub use laws::causes_exclude_one_another;
pub use status::{Ending, Refusal, Status};
