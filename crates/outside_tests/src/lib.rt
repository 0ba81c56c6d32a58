//! Tests of the outside: the forms in memory, the adapters over the system, and the reading of an input.
#![tactic(auto)]

#[cfg(test)]
mod flaky;
#[cfg(test)]
mod inputs;
#[cfg(test)]
mod shelves;
#[cfg(test)]
mod sinks;
#[cfg(test)]
mod sources;
