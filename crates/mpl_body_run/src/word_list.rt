ghost use Rattle.std.specs.Prelude.{◌≡◌, [], IfOk};
ghost use Rattle.mpl_body_code.specs.Machine.{words_item};
ghost use Rattle.mpl_body_run.specs.SeenItems.{item_seen, words_seen};

use crate::stack::Holds;
use mpl_value::{NoMemory, Words};
use std::alloc::Global;
use std::rc::Rc;

/// The words of a value that a function returns.
#[derive(Drop)]
pub enum WordList {
    One(i64),
    Many(Rc<Words>),
}

impl WordList {
    /// The words as a value.
    pub fn into_item(self, is_bool: bool) -> Holds
        ensures { item_seen result ≡ words_item (words_seen self) is_bool }
    {
        match self {
            WordList::One(word) => Holds::Word(word, is_bool),
            WordList::Many(words) => Holds::Words(words, is_bool),
        }
    }
}

/// Words that several items may share.
pub fn shared(alloc: Global, words: Words) -> Result<Rc<Words>, NoMemory>
    ensures { IfOk result (λ all. all.value ≡ words) }
{
    let all = Rc::new(alloc, words)?;
    Ok(all)
}

/// The words alone.
pub fn owned(words: Rc<Words>) -> Result<Words, NoMemory>
    ensures { IfOk result (λ all. all ≡ words.value) }
{
    match Rc::try_unwrap(words) {
        Ok(all) => Ok(all),
        Err(others) => others.as_ref().copy(),
    }
}

/// Words as a value.
pub fn as_item(alloc: Global, words: Words, is_bool: bool) -> Result<Holds, NoMemory>
    ensures { IfOk result (λ h. item_seen h ≡ words_item words is_bool) }
{
    if words.len() == 1 {
        return Ok(Holds::Word(words.as_slice()[0], is_bool));
    }
    let all = shared(alloc, words)?;
    Ok(Holds::Words(all, is_bool))
}
