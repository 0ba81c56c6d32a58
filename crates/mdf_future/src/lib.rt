//! Futures: the results of calls, who waits for them, and what is due once they are known.
#![tactic(auto)]

mod consumer;
mod consumers;
mod future;
mod futures;
mod law;

pub use consumer::{Consumer, Due};
pub use consumers::Consumers;
pub use future::{Fate, Future, Give, ResultState};
pub use futures::Futures;
pub use law::{each_consumer_is_due_once, few_calls, ports_wait_for_what_is_passed};
