ghost use Rattle.std.specs.Prelude.{◌≡◌, ◌+◌, ◌≤◌, ◌∷◌, [], ℕ, drop, length};
ghost use Rattle.mpl_value.specs.declared.body.Arg.{Arg};
ghost use Rattle.mdf_code.specs.Frames as frames;
ghost use Rattle.mdf_code.specs.Parts.{text_at};
ghost use Rattle.mdf_code.specs.Alone.{framed};
ghost use Rattle.mdf_code.specs.Stacks.{write_words};
ghost use Rattle.mdf_code.specs.Steps.{compares, computes, on_known, stores};
ghost use Rattle.mdf_code.specs.declared.instr.Instr.TheVariants as instr;
ghost use Rattle.mdf_vm.specs.Internal.Operations.{comparison_of, operation_of};
ghost use Rattle.mdf_vm.specs.Internal.Tries.{Tried, TriedAs};
ghost use Rattle.mdf_vm.specs.Places.{code_of};
ghost use Rattle.mdf_vm.specs.Results.{knows_of};
ghost use Rattle.mdf_vm.specs.Runnings.{frame_of};

use crate::arithmetic::word_of;
use crate::moves::Quick;
use crate::operation::{Comparison, Operation};
use crate::results::Results;
use crate::running::Running;
use crate::words::{index_within, read, read_one};
use mdf_code::Instr;

/// The instructions that come often.
impl Running {
    #[inline(always)]
    pub fn try_push(&mut self, next: usize, word: &i64) -> Quick
        requires { next ≡ self.old.place + 1 }
        ensures did { (knows : ℕ → Arg) (x : frames.Around) → Tried knows x (instr.Push word.now) self.old result self.new }
        ensures code { self.new.code ≡ self.old.code }
    {
        if self.words.push(*word).is_err() {
            return Quick::Waits;
        }
        self.place = next;
        Quick::Goes
    }

    #[inline(always)]
    pub fn try_load(
        &mut self,
        next: usize,
        results: &Results,
        variable: u32,
        offset: u32,
        count: u32,
    ) -> Quick
        requires { next ≡ self.old.place + 1 }
        ensures did { (x : frames.Around) → Tried (knows_of results.now) x (instr.Load variable offset count) self.old result self.new }
        ensures code { self.new.code ≡ self.old.code }
    {
        let Some(held) = self.variables.get(variable) else {
            return Quick::Waits;
        };
        let Some(known) = held.words(results) else {
            return Quick::Waits;
        };
        let Some(words) = read(known, offset, count) else {
            return Quick::Waits;
        };
        if self.words.extend(words).is_err() {
            return Quick::Waits;
        }
        self.place = next;
        Quick::Goes
    }

    #[inline(always)]
    pub fn try_store(
        &mut self,
        next: usize,
        results: &Results,
        variable: u32,
        offset: u32,
        count: u32,
    ) -> Quick
        requires { next ≡ self.old.place + 1 }
        ensures did { (x : frames.Around) → Tried (knows_of results.now) x (instr.Store variable offset count) self.old result self.new }
        ensures code { self.new.code ≡ self.old.code }
    {
        let Some(held) = self.variables.get(variable) else {
            return Quick::Waits;
        };
        let Some(known) = held.words(results) else {
            return Quick::Waits;
        };
        let Some(words) = self.words.last(count as usize) else {
            return Quick::Waits;
        };
        if offset as usize + words.len() > known.len() {
            return Quick::Waits;
        }
        let wrote = self
            .variables
            .write(results, variable, offset as usize, words);
        if wrote.is_err() {
            return Quick::Waits;
        }
        self.words.shorten(count as usize);
        self.place = next;
        Quick::Goes
    }

    #[inline(always)]
    pub fn try_load_indexed(
        &mut self,
        next: usize,
        results: &Results,
        variable: u32,
        offset: u32,
        count: u32,
    ) -> Quick
        requires { next ≡ self.old.place + 1 }
        ensures did { (x : frames.Around) (line : ℕ) → Tried (knows_of results.now) x (instr.LoadIndexed variable offset count line) self.old result self.new }
        ensures code { self.new.code ≡ self.old.code }
    {
        let Some(held) = self.variables.get(variable) else {
            return Quick::Waits;
        };
        let Some(known) = held.words(results) else {
            return Quick::Waits;
        };
        let Some(array) = read(known, offset, count) else {
            return Quick::Waits;
        };
        let Some(index) = self.words.below(0) else {
            return Quick::Waits;
        };
        let Some(place) = index_within(count, index) else {
            return Quick::Waits;
        };
        let Some(word) = read_one(array, place) else {
            return Quick::Waits;
        };
        self.words.replace(1, word);
        self.place = next;
        Quick::Goes
    }

    #[inline(always)]
    pub fn try_store_indexed(
        &mut self,
        next: usize,
        results: &Results,
        variable: u32,
        offset: u32,
        count: u32,
    ) -> Quick
        requires { next ≡ self.old.place + 1 }
        ensures did { (x : frames.Around) (line : ℕ) → Tried (knows_of results.now) x (instr.StoreIndexed variable offset count line) self.old result self.new }
        ensures code { self.new.code ≡ self.old.code }
    {
        let Some(held) = self.variables.get(variable) else {
            return Quick::Waits;
        };
        let Some(known) = held.words(results) else {
            return Quick::Waits;
        };
        let Some(_array) = read(known, offset, count) else {
            return Quick::Waits;
        };
        let Some(index) = self.words.below(0) else {
            return Quick::Waits;
        };
        let Some(word) = self.words.below(1) else {
            return Quick::Waits;
        };
        let Some(place) = index_within(count, index) else {
            return Quick::Waits;
        };
        let at = offset as usize + place as usize;
        self.try_store_word(next, results, variable, at, word)
    }

    #[inline(always)]
    fn try_store_word(
        &mut self,
        next: usize,
        results: &Results,
        variable: u32,
        at: usize,
        word: i64,
    ) -> Quick
        requires next { next ≡ self.old.place + 1 }
        requires two { 2 ≤ length self.old.words }
        ensures did { TriedAs (on_known (framed (knows_of results.now)) variable (frame_of self.old) (λ held. stores (framed (knows_of results.now)) variable (write_words at (word ∷ []) held) (record (frame_of self.old) { words = drop 2 self.old.words }))) self.old result self.new }
        ensures code { self.new.code ≡ self.old.code }
    {
        let Some(held) = self.variables.get(variable) else {
            return Quick::Waits;
        };
        let Some(known) = held.words(results) else {
            return Quick::Waits;
        };
        if at >= known.len() {
            return Quick::Waits;
        }
        if self
            .variables
            .write(results, variable, at, &[word])
            .is_err()
        {
            return Quick::Waits;
        }
        self.words.shorten(2);
        self.place = next;
        Quick::Goes
    }

    #[inline(always)]
    pub fn try_compute(&mut self, next: usize, operation: Operation) -> Quick
        requires { next ≡ self.old.place + 1 }
        ensures did { (line : ℕ) → TriedAs (computes (operation_of operation) line (frame_of self.old)) self.old result self.new }
        ensures code { self.new.code ≡ self.old.code }
    {
        let Some(b) = self.words.below(0) else {
            return Quick::Waits;
        };
        let Some(a) = self.words.below(1) else {
            return Quick::Waits;
        };
        let Ok(word) = operation.apply(a, b) else {
            return Quick::Waits;
        };
        self.words.replace(2, word);
        self.place = next;
        Quick::Goes
    }

    #[inline(always)]
    pub fn try_compare(&mut self, next: usize, comparison: Comparison) -> Quick
        requires { next ≡ self.old.place + 1 }
        ensures did { TriedAs (compares (comparison_of comparison) (frame_of self.old)) self.old result self.new }
        ensures code { self.new.code ≡ self.old.code }
    {
        let Some(b) = self.words.below(0) else {
            return Quick::Waits;
        };
        let Some(a) = self.words.below(1) else {
            return Quick::Waits;
        };
        let holds = comparison.holds(a, b);
        self.words.replace(2, word_of(holds));
        self.place = next;
        Quick::Goes
    }

    #[inline(always)]
    pub fn try_jump(&mut self, text: &[Instr], place: u32) -> Quick
        ensures did { (knows : ℕ → Arg) (x : frames.Around) → text.now ≡ text_at x.image (code_of self.old.code) → Tried knows x (instr.Jump place) self.old result self.new }
        ensures code { self.new.code ≡ self.old.code }
    {
        if place as usize >= text.len() {
            return Quick::Waits;
        }
        self.place = place as usize;
        Quick::Goes
    }

    #[inline(always)]
    pub fn try_jump_zero(&mut self, next: usize, text: &[Instr], place: u32) -> Quick
        requires { next ≡ self.old.place + 1 }
        ensures did { (knows : ℕ → Arg) (x : frames.Around) → text.now ≡ text_at x.image (code_of self.old.code) → Tried knows x (instr.JumpZero place) self.old result self.new }
        ensures code { self.new.code ≡ self.old.code }
    {
        if place as usize >= text.len() {
            return Quick::Waits;
        }
        let Some(word) = self.words.below(0) else {
            return Quick::Waits;
        };
        self.words.shorten(1);
        if word == 0 {
            self.place = place as usize;
            return Quick::Goes;
        }
        self.place = next;
        Quick::Goes
    }
}
