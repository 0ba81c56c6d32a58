//! Matching: the tokens that come to the ports of actors, and the ticket of an actor whose last port was filled.
#![tactic(auto)]

mod datum;
mod law;
mod matcher;
mod ports;
mod token;
mod worked;

pub use datum::{Datum, Seen};
pub use law::last_token_gives_the_ticket;
pub use matcher::Matcher;
pub use token::{Tag, Ticket, Token};
pub use worked::two_ports;
