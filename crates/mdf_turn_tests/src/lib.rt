//! A small value that workers share by turns, and workers that append to it, for the tests of `mdf_turn`.
#![tactic(auto)]

mod entry;
mod tally;
#[cfg(test)]
mod tests;
mod workers;

pub use entry::Entry;
pub use tally::Tally;
pub use workers::{finish, visit, work};
