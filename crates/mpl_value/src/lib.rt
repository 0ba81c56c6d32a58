//! The values that the language and the machine have in common.
#![tactic(auto)]

mod arithmetic;
mod body;
mod known;
mod listed;
mod memory;
mod numbers;
mod replies;
mod roomy;

pub use arithmetic::{add, div, mul, neg, rem, sub};
pub use body::{Arg, Args, BodyEnd, BodyResult, BodyStart, CallMade, Calls, MemberId, Yield};
pub use known::{Known, Trap, TrapKind};
pub use listed::Listed;
pub use memory::NoMemory;
pub use numbers::{Bytes, Numbers, Words};
pub use replies::Replies;
pub use roomy::RoomyWords;
