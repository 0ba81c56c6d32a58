//! Tests of the journal: entries that are kept, with room taken before.
#![tactic(auto)]

#[cfg(test)]
mod entries;
