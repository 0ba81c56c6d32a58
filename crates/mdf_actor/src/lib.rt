//! The actors of the program graph: the status of each by its serial number.
#![tactic(auto)]

mod actors;
mod node;
mod status;

pub use actors::Actors;
pub use status::ActorStatus;
