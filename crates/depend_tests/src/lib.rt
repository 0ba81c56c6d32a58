//! Tests of the uses that may find a pending result, with the lexer, the parser and the checker below them.
#![tactic(auto)]

pub mod mains;
#[cfg(test)]
mod marked;
#[cfg(test)]
mod nests;
#[cfg(test)]
mod uses;
