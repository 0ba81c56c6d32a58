ghost use Rattle.std.specs.Prelude.{◌≡◌, IfOk, [], ◌∷◌};
ghost use Rattle.mdf_match.specs.Data.{words_of};

use mpl_value::{Known, NoMemory, Words};
use std::alloc::Global;

/// A value of one word.
pub fn one_word(alloc: Global, word: i64) -> Result<Known, NoMemory>
    ensures { IfOk result (λ known. words_of known ≡ word ∷ []) }
{
    let mut words = Words::new(alloc);
    words.push(word)?;
    Ok(Known::Value(words))
}
