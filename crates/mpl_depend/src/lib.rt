//! Which uses of variables may find a pending or a trapped result.
#![tactic(auto)]

mod bodies;
mod expressions;
mod finding;
mod flows;
mod known;
mod making;
mod merging;
mod pend_map;
mod ranking;
mod saved;
mod scope;
mod statements;
mod tracing;
mod uses;
mod values;
mod ways;
mod wholes;
mod width;
mod writing;

pub use pend_map::{PendMap, pending};
