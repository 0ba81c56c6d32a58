//! What the plain trees of expressions, flows and statements mean.
#![tactic(auto)]

mod laws;

pub use laws::{calls_have_their_arguments, plain_trees_mean_the_same};
