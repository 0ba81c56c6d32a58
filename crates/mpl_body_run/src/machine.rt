ghost use Rattle.std.specs.Prelude.{◌≡◌, [], ◌∷◌, MatchOption};

use crate::stack::{Slots, Stack};
use mpl_body_code::Finish;
use mpl_value::{BodyResult, Bytes, Calls, Words};
use std::marker::Model;

/// Code that runs, and what it has.
#[derive(Drop)]
pub struct Frame {
    pub place: usize,
    pub stack: Stack,
    pub slots: Slots,
    pub object: i64,
    pub number: u32,
}

/// The numbers of the input, of which some were read.
#[derive(Drop)]
pub struct Input {
    words: Words,
    read: usize,
}

impl Model for Input {
    ghost use Rattle.std.specs.Prelude.{List, ℤ, drop};

    ghost Value = { List ℤ };

    ghost view = { λ i. drop i.read i.words };
}

/// `main` or a member.
#[derive(Drop)]
pub struct Body {
    pub state: Words,
    pub lines: Bytes,
    pub input: Input,
    pub calls: Calls,
    pub creations: Words,
    pub result: BodyResult,
    pub finish: Finish,
    pub answered: bool,
}

/// What goes on behind a call.
#[derive(Drop)]
pub enum Caller {
    OfPlain(Frame, u32, bool),
    OfRegular(Frame, Body),
}

/// The open bodies, and what they have come to.
#[derive(Drop)]
pub struct Machine {
    pub frame: Frame,
    pub body: Body,
    pub callers: Vec<Caller>,
    pub turns: u64,
}

impl Input {
    /// All the numbers of an input.
    pub fn new(words: Words) -> Input
        ensures { result ≡ words }
    {
        Input { words, read: 0 }
    }

    /// The next number, if one is left.
    #[tactic(auto, using(mpl_mean::proofs::Lists::next_left, mpl_mean::proofs::Lists::none_left))]
    pub fn next(&mut self) -> Option<i64>
        ensures { MatchOption result ((self.old ≡ []) × (self.new ≡ [])) (λ number. self.old ≡ number ∷ self.new) }
    {
        if self.read < self.words.len() {
            let number = self.words.as_slice()[self.read];
            self.read += 1;
            Some(number)
        } else {
            None
        }
    }
}
