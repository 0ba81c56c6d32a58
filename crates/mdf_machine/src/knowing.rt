ghost use Rattle.std.specs.Prelude.{◌≡◌, length, IfOk};
ghost use Rattle.std.specs.Option.{option_and_then};
ghost use Rattle.mdf_future.specs.Results.{known_at, known_words};
ghost use Rattle.mdf_machine.specs.Internal.Rows.{child_at};

use crate::parts::Parts;
use mdf_future::Futures;
use mdf_match::Seen;
use mpl_value::{Known, NoMemory, Words};
use std::alloc::Global;

impl Parts {
    /// A copy of the result of an actor's call, if it is known.
    pub fn known_of_call(
        &self,
        alloc: Global,
        actor: u32,
        call: u32,
    ) -> Result<Option<Known>, NoMemory>
        ensures { IfOk result (λ known. known ≡ option_and_then (known_at self.now.results) (child_at self.now.rows actor call)) }
    {
        match self.rows.child(actor, call) {
            None => Ok(None),
            Some(child) => known(&self.results, alloc, child),
        }
    }
}

/// A copy of the result of an actor, if it is known.
pub fn known(results: &Futures, alloc: Global, actor: u32) -> Result<Option<Known>, NoMemory>
    ensures { IfOk result (λ known. known ≡ known_at results.now actor) }
{
    match results.seen(actor) {
        None => Ok(None),
        Some(Seen::Trapped(trap)) => Ok(Some(Known::Trapped(trap))),
        Some(Seen::Words(count)) => {
            let words = words_of(results, alloc, actor, count)?;
            Ok(Some(Known::Value(words)))
        }
    }
}

fn words_of(results: &Futures, alloc: Global, actor: u32, count: u32) -> Result<Words, NoMemory>
    requires { count ≡ length (known_words results.now actor) }
    ensures { IfOk result (λ words. words ≡ known_words results.now actor) }
{
    let mut words = Words::new(alloc);
    for at in 0..count {
        words.push(results.word(actor, at))?;
    }
    Ok(words)
}
