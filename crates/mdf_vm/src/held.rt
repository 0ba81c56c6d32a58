ghost use Rattle.std.specs.Prelude.{◌≡◌, IfOk, Some};
ghost use Rattle.mpl_value.specs.Words.{zeros};
ghost use Rattle.mpl_value.specs.CallAnswers.{arg_of_reply};
ghost use Rattle.std.specs.Option.{option_copied};
ghost use Rattle.mdf_code.specs.Alone as alone;
ghost use Rattle.mdf_code.specs.Stacks.{known_words_of};
ghost use Rattle.mdf_vm.specs.FlowArgs.{flow_arg};
ghost use Rattle.mdf_vm.specs.Internal.Kinds.{held_of};
ghost use Rattle.mdf_vm.specs.Internal.Sights.{IsSight};
ghost use Rattle.mdf_vm.specs.Results.{knows_of};

use crate::results::Results;
use crate::stop::FlowArg;
use mpl_value::{Known, NoMemory, Trap, Words};
use std::alloc::Global;
use std::marker::Model;

/// What a variable holds, or a flow value is: known words, or the result of a call by its number.
#[derive(Drop)]
pub struct Held {
    kind: Kind,
}

#[derive(Drop)]
pub enum Kind {
    Words(Words),
    Pending(u32),
}

/// What is seen of a value that is needed: that its words are known, the trap in their place, or the result that it waits
/// for.
pub enum Sight {
    Known,
    Trapped(Trap),
    Unknown(u32),
}

impl Model for Held {
    ghost use Rattle.mdf_code.specs.Alone as alone;

    ghost Value = { alone.Held };

    ghost use Rattle.mdf_vm.specs.Internal.Kinds.{held_of};

    ghost view = { λ h. held_of h.kind };
}

impl Held {
    pub fn of_words(words: Words) -> Held
        ensures { result ≡ alone.Words words }
    {
        Held {
            kind: Kind::Words(words),
        }
    }

    pub fn of_result(number: u32) -> Held
        ensures { result ≡ alone.Pending number }
    {
        Held {
            kind: Kind::Pending(number),
        }
    }

    pub fn kind(&self) -> &Kind
        ensures { held_of result.now ≡ self.now }
    {
        &self.kind
    }

    /// So many zeros.
    pub fn zeros(alloc: Global, count: u32) -> Result<Held, NoMemory>
        ensures { IfOk result (λ held. held ≡ alone.Words (zeros count)) }
    {
        let mut words = Words::new(alloc);
        for _word in 0..count {
            words.push(0)?;
        }
        Ok(Held::of_words(words))
    }

    /// The words, where they are known.
    pub fn words<'a>(&'a self, results: &'a Results) -> Option<&'a [i64]>
        ensures { option_copied result ≡ known_words_of (alone.seen_by (knows_of results.now) self.now) }
    {
        match &self.kind {
            Kind::Words(words) => Some(words.as_slice()),
            Kind::Pending(result) => known_in(results, *result),
        }
    }

    pub fn sight(&self, results: &Results) -> Sight
        ensures { IsSight self.now (alone.seen_by (knows_of results.now) self.now) result }
    {
        match &self.kind {
            Kind::Words(_) => Sight::Known,
            Kind::Pending(result) => sight_of(*result, results.get(*result)),
        }
    }

    /// One of its own that holds the same.
    pub fn copy(&self) -> Result<Held, NoMemory>
        ensures { IfOk result (λ copy. copy ≡ self.now) }
    {
        match &self.kind {
            Kind::Words(words) => Ok(Held::of_words(words.copy()?)),
            Kind::Pending(result) => Ok(Held::of_result(*result)),
        }
    }

    /// What is handed out.
    pub fn flow_arg(self) -> FlowArg
        ensures { result ≡ flow_arg self }
    {
        match self.kind {
            Kind::Words(words) => FlowArg::Known(Known::Value(words)),
            Kind::Pending(result) => FlowArg::Result(result),
        }
    }
}

pub fn sight_of(number: u32, known: Option<&Known>) -> Sight
    ensures { IsSight (alone.Pending number) (arg_of_reply (option_copied known.entry)) result }
{
    match known {
        None => Sight::Unknown(number),
        Some(Known::Value(_)) => Sight::Known,
        Some(Known::Trapped(trap)) => Sight::Trapped(*trap),
    }
}

fn known_words(known: &Known) -> Option<&[i64]>
    ensures { option_copied result ≡ known_words_of (arg_of_reply (Some known.now)) }
{
    match known {
        Known::Value(words) => Some(words.as_slice()),
        Known::Trapped(_) => None,
    }
}

/// The words of a result, where they are known.
#[inline(never)]
pub fn known_in(results: &Results, number: u32) -> Option<&[i64]>
    ensures { option_copied result ≡ known_words_of (knows_of results.now number) }
{
    known_words(results.get(number)?)
}
