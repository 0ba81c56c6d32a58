ghost use Rattle.std.specs.Prelude.{◌≡◌, [], ◌∷◌, ◌++◌, ◌+◌, ◌<◌, ◌≤◌, length, IsOk, IfOk, OnOk, OnErr};

use crate::memory::NoMemory;
use crate::numbers::Words;
use std::alloc::Global;
use std::marker::Model;

/// A list of words, and for how many more there is room.
#[derive(Debug, Drop)]
pub struct RoomyWords {
    items: Vec<i64>,
}

impl Model for RoomyWords {
    ghost use Rattle.std.specs.Prelude.{◌-◌};
    ghost use Rattle.std.specs.Vec.{vec_capacity, vec_len};
    ghost use Rattle.mpl_value.specs.Spares.{Spares, spares_code};

    ghost Value = { Spares };

    ghost coded = { spares_code };

    ghost view = { λ w. record { words = w.items.items; room = vec_capacity w.items - vec_len w.items } };
}

impl RoomyWords {
    /// No word yet, and room for so many.
    pub fn with_room(alloc: Global, words: u32) -> Result<RoomyWords, NoMemory>
        ensures { IfOk result (λ w. w ≡ record { words = []; room = words }) }
    {
        let items = Vec::with_capacity(alloc, words as usize)?;
        Ok(RoomyWords { items })
    }

    /// One more word, for which there is room. It takes no memory.
    pub fn add_within(&mut self, word: i64)
        requires { 0 < self.old.room }
        ensures words { self.new.words ≡ self.old.words ++ word ∷ [] }
        ensures room { self.new.room + 1 ≡ self.old.room }
    {
        self.items.push_reserved(word);
    }

    /// One more word, into the room that there is or into new memory.
    pub fn push(&mut self, word: i64) -> Result<(), NoMemory>
        ensures ok { OnOk result (self.new.words ≡ self.old.words ++ word ∷ []) }
        ensures err { OnErr result (self.new.words ≡ self.old.words) }
        ensures succeeds { 0 < self.old.room → IsOk result }
        ensures room { self.old.room ≤ self.new.room + 1 }
    {
        self.items.push(word)?;
        Ok(())
    }

    pub fn len(&self) -> usize
        ensures { result ≡ length self.now.words }
    {
        self.items.len()
    }

    pub fn as_slice(&self) -> &[i64]
        ensures { result.now ≡ self.now.words }
    {
        self.items.as_slice()
    }

    /// The words alone, in the memory that they have.
    pub fn into_words(self) -> Words
        ensures { result ≡ self.words }
    {
        Words::over(self.items)
    }
}
