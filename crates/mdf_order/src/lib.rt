//! Which serial numbers are in, and the n-th of them in rising order.
#![tactic(auto)]

mod counts;
mod law;
mod serials;
mod spot;

pub use law::serials_are_in_order;
pub use serials::Serials;
