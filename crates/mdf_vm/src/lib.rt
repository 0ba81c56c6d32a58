//! Frames: code that runs, stops and goes on.
#![tactic(auto)]

mod arithmetic;
mod calls;
mod code;
mod flows;
mod formals;
mod frame;
mod functions;
mod guard_reads;
mod guarding;
mod guards;
mod handed;
mod held;
mod holding;
mod jumps;
mod last;
mod laws;
mod lent;
mod moves;
mod operation;
mod printing;
mod quick;
mod results;
mod running;
mod short_stack;
mod slot;
mod stack;
mod state;
mod steps;
mod stop;
mod variables;
mod word_stack;
mod words;

pub use formals::Formals;
pub use frame::{Ended, Frame};
pub use guards::holds;
pub use laws::{frames_await_results_of_their_calls, frames_that_ran_out_may_run_again};
pub use stop::{FlowArg, FlowArgs, Sent, Stop};
