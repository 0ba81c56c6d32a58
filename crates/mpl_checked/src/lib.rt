//! The checked meaning of plain trees under a map of marks, which goes astray at a forced use that isn't marked and finds
//! no known words; and that it is the meaning where each use is marked that may find a pending result.
#![tactic(auto)]

mod laws;

pub use laws::marked_uses_suffice;
