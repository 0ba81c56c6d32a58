ghost use Rattle.std.specs.Prelude.{◌≡◌, ◌+◌, ◌≤◌, ◌++◌, length};
ghost use Rattle.std.specs.VecDeque.{deque_len, deque_capacity};
ghost use Rattle.mdf_future.specs.Consumers.{is_served, deliveries};

use mdf_match::Tag;
use std::collections::VecDeque;

/// Who waits for a result.
#[derive(Clone, Copy, Debug, PartialEq, Eq)]
pub enum Consumer {
    /// A port that is to get the result as a token.
    Port(Tag),
    /// An actor whose frame is parked until the result is known.
    Parked(u32),
    /// The result of an actor to which this one was forwarded.
    Result(u32),
}

/// A consumer to which a known result is to be delivered.
#[derive(Clone, Copy, Debug, PartialEq, Eq)]
pub struct Due {
    pub consumer: Consumer,
    /// The actor whose result it is.
    pub from: u32,
}

impl Consumer {
    /// Whether a result is delivered to it. A parked actor resumes by itself.
    pub(crate) fn is_served(&self) -> bool
        ensures { result ≡ is_served self.now }
    {
        !matches!(self, Consumer::Parked(_))
    }
}

/// Makes the consumers of an actor's result due, for which there is room.
pub(crate) fn deliver(due: &mut VecDeque<Due>, from: u32, consumers: &[Consumer])
    requires { deque_len due.old + length consumers.now ≤ deque_capacity due.old }
    ensures due { due.new.items ≡ due.old.items ++ deliveries from consumers.now }
    ensures len { deque_len due.new ≤ deque_len due.old + length consumers.now }
    ensures capacity { deque_capacity due.new ≡ deque_capacity due.old }
{
    for consumer in consumers {
        if consumer.is_served() {
            due.push_back_reserved(Due {
                consumer: *consumer,
                from,
            });
        }
    }
}
