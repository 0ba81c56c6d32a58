//! The grammar as a machine over the kinds of tokens: which token may come where, how much each weighs, and what that
//! says of the programs that have the tokens.
#![tactic(auto)]

mod faults;
mod kinds;
mod laws;
mod pending;
mod step;
mod symbol;
mod table;
mod worked;

pub use faults::{Fault, first_fault};
pub use laws::{faults_exclude_one_another, tokens_have_a_weight_each, weights_look_back};
