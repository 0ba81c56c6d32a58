//! A reader of tokens, and tests of the tokens that come.
#![tactic(auto)]

pub mod ahead;
mod list;
mod reader;
mod stop;

pub use list::short_list;
pub use reader::{Joint, Reader};
pub use stop::Stop;
