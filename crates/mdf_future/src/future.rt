ghost use Rattle.std.specs.Prelude.{◌≡◌, [], ◌∷◌, ◌++◌, ◌+◌, ◌-◌, length, take, if◌then◌else◌, OnOk, OnErr};
ghost use Rattle.std.specs.Option.{option_copied};
ghost use Rattle.mdf_future.specs.Results.{is_known, known_of, state_of};

use crate::consumer::Consumer;
use crate::consumers::Consumers;
use mdf_match::Datum;
use mpl_value::{Known, NoMemory};

/// What has become of a result.
#[derive(Debug, Drop)]
pub enum Fate {
    Open,
    Known(Datum),
    /// It will be what the result of this actor becomes.
    Forwarded(u32),
}

/// The result of a call, and who waits for it.
#[derive(Debug, Drop)]
pub struct Future {
    pub fate: Fate,
    pub consumers: Consumers,
}

/// What has become of a result, without its value.
#[derive(Clone, Copy, Debug, PartialEq, Eq)]
pub enum ResultState {
    Open,
    Known,
    Forwarded(u32),
}

/// What an actor gives as its result.
#[derive(Debug, Drop)]
pub enum Give {
    Known(Known),
    /// What the result of this actor becomes.
    Result(u32),
}

impl Future {
    /// One more consumer, behind the others.
    pub(crate) fn join(&mut self, consumer: Consumer) -> Result<(), NoMemory>
        ensures ok { OnOk result (self.new ≡ record self.old { consumers = self.old.consumers ++ consumer ∷ [] }) }
        ensures err { OnErr result (self.new ≡ self.old) }
    {
        self.consumers.push(consumer)
    }

    /// Takes the newest consumer out, and answers whether there was one.
    pub(crate) fn leave(&mut self) -> bool
        ensures rest { self.new ≡ record self.old { consumers = take (length self.old.consumers - 1) self.old.consumers } }
        ensures one { length self.new.consumers + (if result then 1 else 0) ≡ length self.old.consumers }
    {
        self.consumers.pop()
    }

    pub(crate) fn forward(&mut self, other: u32)
        ensures { self.new ≡ record self.old { fate = Fate.Forwarded other } }
    {
        self.fate = Fate::Forwarded(other);
    }
}

impl Fate {
    pub(crate) fn is_known(&self) -> bool
        ensures { result ≡ is_known self.now }
    {
        matches!(self, Fate::Known(_))
    }

    pub(crate) fn known(&self) -> Option<&Datum>
        ensures { option_copied result ≡ known_of self.now }
    {
        match self {
            Fate::Known(datum) => Some(datum),
            _ => None,
        }
    }

    pub(crate) fn state(&self) -> ResultState
        ensures { result ≡ state_of self.now }
    {
        match self {
            Fate::Open => ResultState::Open,
            Fate::Known(_) => ResultState::Known,
            Fate::Forwarded(other) => ResultState::Forwarded(*other),
        }
    }
}
