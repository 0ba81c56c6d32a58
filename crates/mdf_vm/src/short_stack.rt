ghost use Rattle.std.specs.Prelude.{◌≡◌, ◌∷◌, [], ◌+◌, ◌≤◌, ◌<◌, length, drop, Some, None, IfSome, MatchOption};
ghost use Rattle.mdf_code.specs.Guards.{holds_at_end};
ghost use Rattle.mdf_code.specs.Stacks.{popped, pushed};

use std::marker::Model;

/// The most words on a guard's stack.
const MOST: usize = 128;

/// A stack of few words, which takes no memory, seen as a list with the top first.
#[derive(Drop)]
pub struct ShortStack {
    words: [i64; 128],
    top: usize,
}

impl Model for ShortStack {
    ghost use Rattle.std.specs.Prelude.{List, ℤ, drop, ◌≤◌};

    ghost Value = { List ℤ };

    ghost view = { λ s. drop s.top s.words };

    ghost invariant = { λ s. s.top ≤ 128 };
}

impl ShortStack {
    pub fn new() -> ShortStack
        ensures { result ≡ [] }
    {
        ShortStack {
            words: [0; 128],
            top: MOST,
        }
    }

    /// For how many more words there is room.
    pub fn room(&self) -> usize
        ensures { result + length self.now ≡ 128 }
    {
        self.top
    }

    pub fn len(&self) -> usize
        ensures value { result ≡ length self.now }
        ensures few { result ≤ 128 }
    {
        MOST - self.top
    }

    pub fn push(&mut self, word: &i64)
        requires { length self.old < 128 }
        ensures { self.new ≡ word.now ∷ self.old }
    {
        self.top -= 1;
        self.words[self.top] = *word;
    }

    /// One after another, the last on top.
    pub fn extend(&mut self, words: &[i64])
        requires { length self.old + length words.now ≤ 128 }
        ensures { self.new ≡ pushed words.now self.old }
    {
        for word in words {
            self.push(word);
        }
    }

    pub fn pop(&mut self) -> Option<i64>
        ensures value { MatchOption result (popped self.old ≡ None) (λ top. popped self.old ≡ Some (record { items = top; below = self.new })) }
        ensures few { IfSome result (λ _. length self.new < 128) }
    {
        let word = self.words.get(self.top).copied()?;
        self.top += 1;
        Some(word)
    }

    /// So many go from the top.
    pub fn shorten(&mut self, count: usize)
        requires { count ≤ length self.old }
        ensures { self.new ≡ drop count self.old }
    {
        self.top += count;
    }

    /// Whether there is one word, and it isn't 0. It goes from the stack.
    pub fn pop_true(&mut self) -> bool
        ensures { result ≡ holds_at_end self.old }
    {
        let Some(word) = self.pop() else {
            return false;
        };
        self.len() == 0 && word != 0
    }
}
