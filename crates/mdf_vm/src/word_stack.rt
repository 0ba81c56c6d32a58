ghost use Rattle.std.specs.Prelude.{◌≡◌, ◌∷◌, [], ◌+◌, ◌≤◌, ◌<◌, length, drop, reverse, slice_get, Some, None, IfSome, MatchOption, OnOk, OnErr};
ghost use Rattle.mdf_code.specs.Stacks.{popped, popped_all, pushed};

use mpl_value::NoMemory;
use std::alloc::Global;
use std::marker::Model;

/// A stack of words, seen as a list with the top first. Behind the top there is room.
#[derive(Drop)]
pub struct WordStack {
    words: Vec<i64>,
    top: usize,
}

impl Model for WordStack {
    ghost use Rattle.std.specs.Prelude.{List, ℤ, reverse, take, length, ◌≤◌};

    ghost Value = { List ℤ };

    ghost view = { λ s. reverse (take s.top s.words.items) };

    ghost invariant = { λ s. s.top ≤ length s.words.items };
}

impl WordStack {
    pub fn new(alloc: Global) -> WordStack
        ensures { result ≡ [] }
    {
        WordStack {
            words: Vec::new(alloc),
            top: 0,
        }
    }

    #[inline(always)]
    fn live(&self) -> &[i64]
        ensures { reverse result.now ≡ self.now }
    {
        &self.words[..self.top]
    }

    #[inline(always)]
    pub fn len(&self) -> usize
        ensures { result ≡ length self.now }
    {
        self.top
    }

    #[inline(always)]
    pub fn push(&mut self, word: i64) -> Result<(), NoMemory>
        ensures ok { OnOk result (self.new ≡ word ∷ self.old) }
        ensures err { OnErr result (self.new ≡ self.old) }
    {
        if self.top < self.words.len() {
            self.words[self.top] = word;
            self.top += 1;
            return Ok(());
        }
        self.grow(word)
    }

    /// A word where no room is left.
    #[inline(never)]
    fn grow(&mut self, word: i64) -> Result<(), NoMemory>
        ensures ok { OnOk result (self.new ≡ word ∷ self.old) }
        ensures err { OnErr result (self.new ≡ self.old) }
    {
        self.words.truncate(self.top);
        self.words.push(word)?;
        self.top += 1;
        Ok(())
    }

    /// One after another, the last on top.
    #[inline(always)]
    pub fn extend(&mut self, more: &[i64]) -> Result<(), NoMemory>
        ensures ok { OnOk result (self.new ≡ pushed more.now self.old) }
        ensures err { OnErr result (self.new ≡ self.old) }
    {
        if more.len() == 1 {
            return self.push(more[0]);
        }
        self.extend_many(more)
    }

    #[inline(never)]
    fn extend_many(&mut self, more: &[i64]) -> Result<(), NoMemory>
        ensures ok { OnOk result (self.new ≡ pushed more.now self.old) }
        ensures err { OnErr result (self.new ≡ self.old) }
    {
        self.words.truncate(self.top);
        self.words.extend_from_slice(more)?;
        self.top = self.words.len();
        Ok(())
    }

    /// So many from the top, the top last.
    #[inline(always)]
    pub fn last(&self, count: usize) -> Option<&[i64]>
        ensures value { MatchOption result (popped_all count self.now ≡ None) (λ items. popped_all count self.now ≡ Some (record { items = items.now; below = drop count self.now })) }
        ensures there { IfSome result (λ _. count ≤ length self.now) }
    {
        let items = self.live();
        let from = items.len().checked_sub(count)?;
        Some(&items[from..])
    }

    /// The word below so many.
    #[inline(always)]
    pub fn below(&self, count: u32) -> Option<i64>
        ensures value { MatchOption result (popped (drop count self.now) ≡ None) (λ item. popped (drop count self.now) ≡ Some (record { items = item; below = drop (count + 1) self.now })) }
        ensures there { IfSome result (λ _. count < length self.now) }
    {
        let items = self.live();
        let place = items.len().checked_sub(count as usize + 1)?;
        word_at(items, place)
    }

    /// So many go from the top.
    #[inline(always)]
    pub fn shorten(&mut self, count: usize)
        requires { count ≤ length self.old }
        ensures { self.new ≡ drop count self.old }
    {
        self.top -= count;
    }

    /// A word in place of so many from the top.
    #[inline(always)]
    pub fn replace(&mut self, count: usize, word: i64)
        requires some { 0 < count }
        requires there { count ≤ length self.old }
        ensures { self.new ≡ word ∷ drop count self.old }
    {
        let place = self.top - count;
        self.words[place] = word;
        self.top = place + 1;
    }
}

#[inline(always)]
fn word_at(words: &[i64], place: usize) -> Option<i64>
    ensures { result ≡ slice_get words.now place }
{
    words.get(place).copied()
}
