//! One shared value, handed from worker to worker: who has the turn has the value, and what it appends to the value's
//! log becomes part of the shared log when it leaves.
#![tactic(auto)]

mod law;
mod logged;
mod pass;
mod steps;
mod turn;
mod view;

pub use logged::Logged;
pub use pass::{Entered, Pass};
pub use turn::Turn;
