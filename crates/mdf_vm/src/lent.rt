ghost use Rattle.std.specs.Prelude.{◌≡◌, IfOk};
ghost use Rattle.std.specs.Option.{option_copied};
ghost use Rattle.mdf_code.specs.Alone as alone;
ghost use Rattle.mdf_code.specs.Stacks.{known_words_of};
ghost use Rattle.mdf_vm.specs.Internal.Sights.{IsSight};
ghost use Rattle.mdf_vm.specs.Internal.Slots.{held_by};
ghost use Rattle.mdf_vm.specs.Results.{knows_of};

use crate::held::{Held, Sight, known_in, sight_of};
use crate::results::Results;
use mpl_value::{NoMemory, Words};
use std::alloc::Global;
use std::marker::Model;

/// What a variable holds, with its words where they lie.
#[derive(Drop)]
pub struct Lent<'a> {
    words: &'a [i64],
    pending: Option<u32>,
}

impl<'a> Model for Lent<'a> {
    ghost use Rattle.mdf_code.specs.Alone as alone;
    ghost use Rattle.mdf_vm.specs.Internal.Slots.{held_by};

    ghost Value = { alone.Held };

    ghost view = { λ l. held_by l.pending l.words.now };
}

impl<'a> Lent<'a> {
    #[inline(always)]
    pub fn new(words: &'a [i64], pending: Option<u32>) -> Lent<'a>
        ensures { result ≡ held_by pending words.now }
    {
        Lent { words, pending }
    }

    /// The words, where they are known.
    #[inline(always)]
    pub fn words(&self, results: &'a Results) -> Option<&'a [i64]>
        ensures { option_copied result ≡ known_words_of (alone.seen_by (knows_of results.now) self.now) }
    {
        match self.pending {
            None => Some(self.words),
            Some(number) => known_in(results, number),
        }
    }

    pub fn sight(&self, results: &Results) -> Sight
        ensures { IsSight self.now (alone.seen_by (knows_of results.now) self.now) result }
    {
        match self.pending {
            None => Sight::Known,
            Some(number) => sight_of(number, results.get(number)),
        }
    }

    /// One of its own that holds the same.
    pub fn copy(&self, alloc: Global) -> Result<Held, NoMemory>
        ensures { IfOk result (λ copy. copy ≡ self.now) }
    {
        match self.pending {
            None => Ok(Held::of_words(Words::from_slice(alloc, self.words)?)),
            Some(number) => Ok(Held::of_result(number)),
        }
    }
}
