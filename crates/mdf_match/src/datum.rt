ghost use Rattle.std.specs.Prelude.{◌≡◌, ◌<◌, Some, length, slice_get};
ghost use Rattle.mdf_match.specs.Data.{HasFewWords, words_of, seen_of};

use mpl_value::{Known, Trap};
use std::marker::Model;

/// What is told of a known value: how many words it has, or the trap in their place.
#[derive(Clone, Copy, Debug, PartialEq, Eq)]
pub enum Seen {
    Words(u32),
    Trapped(Trap),
}

/// A known value as it is kept. Its words are so few that a u32 counts them.
#[derive(Debug, Drop)]
pub struct Datum {
    known: Known,
}

impl Model for Datum {
    ghost use Rattle.mpl_value.specs.declared.known.Known.{Known};
    ghost use Rattle.mpl_value.specs.contracts.known.Known as known_code;

    ghost Value = { Known };

    ghost coded = { known_code.the_row.coded };

    ghost use Rattle.mdf_match.specs.Data.{HasFewWords};

    ghost view = { λ d. d.known };

    ghost invariant = { λ d. HasFewWords d.known };
}

impl Datum {
    pub fn new(known: Known) -> Datum
        requires { HasFewWords known }
        ensures { result ≡ known }
    {
        Datum { known }
    }

    pub fn seen(&self) -> Seen
        ensures { result ≡ seen_of self.now }
    {
        match &self.known {
            Known::Value(words) => Seen::Words(words.len() as u32),
            Known::Trapped(trap) => Seen::Trapped(*trap),
        }
    }

    /// One of the words.
    pub fn word(&self, at: u32) -> i64
        requires { at < length (words_of self.now) }
        ensures { slice_get (words_of self.now) at ≡ Some result }
    {
        match &self.known {
            Known::Value(words) => words.get(at as usize).unwrap(),
            Known::Trapped(_) => unreachable!(),
        }
    }
}
