//! Tests of the language's crates and of the top call, together in one crate above them.
#![tactic(auto)]

#[cfg(test)]
mod faults;
#[cfg(test)]
mod inputs;
#[cfg(test)]
mod replies;
