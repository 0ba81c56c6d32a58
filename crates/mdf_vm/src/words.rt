ghost use Rattle.std.specs.Prelude.{◌≡◌, ◌+◌, ◌<◌, IfOk, OnErr, ℕ};
ghost use Rattle.mpl_value.specs.declared.body.Arg.{Arg};
ghost use Rattle.mdf_code.specs.Frames as frames;
ghost use Rattle.mdf_code.specs.declared.instr.Instr.TheVariants as instr;
ghost use Rattle.mdf_vm.specs.Internal.Moves.{Did};
ghost use Rattle.mdf_vm.specs.Runnings.{frame_of};
ghost use Rattle.mdf_vm.specs.Results.{knows_of};
ghost use Rattle.std.specs.Option.{option_copied};
ghost use Rattle.mdf_code.specs.Stacks.{read_words};
ghost use Rattle.mpl_value.specs.Words.{index_below};
ghost use Rattle.std.specs.Prelude.{◌∷◌, [], ◌≤◌, length, drop, IfSome, Some};
ghost use Rattle.mdf_code.specs.Alone.{framed};
ghost use Rattle.mdf_code.specs.Stacks.{write_words};
ghost use Rattle.mdf_code.specs.Steps.{on_known, or_strays, stores};
ghost use Rattle.mdf_vm.specs.Internal.Moves.{next_of};
ghost use Rattle.std.specs.Option.{option_map};

use crate::moves::{Move, STRAY, trap};
use crate::results::Results;
use crate::running::Running;
use mpl_value::{NoMemory, TrapKind};

/// So many words from an offset, where they are there.
#[inline(always)]
pub fn read(words: &[i64], offset: u32, count: u32) -> Option<&[i64]>
    ensures value { option_copied result ≡ read_words offset count words.now }
    ensures there { IfSome result (λ _. offset + count ≤ length words.now) }
{
    let from = offset as usize;
    let end = from + count as usize;
    if end > words.len() {
        return None;
    }
    Some(&words[from..end])
}

/// The word at a place.
#[inline(always)]
pub fn read_one(words: &[i64], place: u32) -> Option<i64>
    ensures { option_map (λ word. word ∷ []) result ≡ read_words place 1 words.now }
{
    words.get(place as usize).copied()
}

/// An index, where it is one of an array of so many words.
#[inline(always)]
pub fn index_within(count: u32, index: i64) -> Option<u32>
    ensures value { result ≡ index_below count index }
    ensures below { IfSome result (λ place. place < count) }
{
    if index < 0 || index >= count as i64 {
        return None;
    }
    Some(index as u32)
}

impl Running {
    pub fn push(&mut self, next: usize, word: &i64) -> Result<Move, NoMemory>
        requires { next ≡ self.old.place + 1 }
        ensures ok { IfOk result (λ move. (knows : ℕ → Arg) (x : frames.Around) → Did knows x (instr.Push word.now) self.old move self.new) }
        ensures err { OnErr result (frame_of self.new ≡ frame_of self.old) }
    {
        self.words.push(*word)?;
        self.place = next;
        Ok(Move::Goes)
    }

    pub fn drop_words(&mut self, next: usize, count: u32) -> Move
        requires { next ≡ self.old.place + 1 }
        ensures { (knows : ℕ → Arg) (x : frames.Around) → Did knows x (instr.Drop count) self.old result self.new }
    {
        let Some(_words) = self.words.last(count as usize) else {
            return STRAY;
        };
        self.words.shorten(count as usize);
        self.place = next;
        Move::Goes
    }

    pub fn load(
        &mut self,
        next: usize,
        results: &Results,
        variable: u32,
        offset: u32,
        count: u32,
    ) -> Result<Move, NoMemory>
        requires { next ≡ self.old.place + 1 }
        ensures ok { IfOk result (λ move. (x : frames.Around) → Did (knows_of results.now) x (instr.Load variable offset count) self.old move self.new) }
        ensures err { OnErr result (frame_of self.new ≡ frame_of self.old) }
    {
        let Some(held) = self.variables.get(variable) else {
            return Ok(STRAY);
        };
        let Some(known) = held.words(results) else {
            return Ok(STRAY);
        };
        let Some(words) = read(known, offset, count) else {
            return Ok(STRAY);
        };
        self.words.extend(words)?;
        self.place = next;
        Ok(Move::Goes)
    }

    pub fn store(
        &mut self,
        next: usize,
        results: &Results,
        variable: u32,
        offset: u32,
        count: u32,
    ) -> Result<Move, NoMemory>
        requires { next ≡ self.old.place + 1 }
        ensures ok { IfOk result (λ move. (x : frames.Around) → Did (knows_of results.now) x (instr.Store variable offset count) self.old move self.new) }
        ensures err { OnErr result (frame_of self.new ≡ frame_of self.old) }
    {
        let Some(held) = self.variables.get(variable) else {
            return Ok(STRAY);
        };
        let Some(known) = held.words(results) else {
            return Ok(STRAY);
        };
        let Some(words) = self.words.last(count as usize) else {
            return Ok(STRAY);
        };
        if offset as usize + words.len() > known.len() {
            return Ok(STRAY);
        }
        self.variables
            .write(results, variable, offset as usize, words)?;
        self.words.shorten(count as usize);
        self.place = next;
        Ok(Move::Goes)
    }

    pub fn load_indexed(
        &mut self,
        next: usize,
        results: &Results,
        variable: u32,
        offset: u32,
        count: u32,
        line: u32,
    ) -> Move
        requires { next ≡ self.old.place + 1 }
        ensures { (x : frames.Around) → Did (knows_of results.now) x (instr.LoadIndexed variable offset count line) self.old result self.new }
    {
        let Some(held) = self.variables.get(variable) else {
            return STRAY;
        };
        let Some(known) = held.words(results) else {
            return STRAY;
        };
        let Some(array) = read(known, offset, count) else {
            return STRAY;
        };
        let Some(index) = self.words.below(0) else {
            return STRAY;
        };
        let Some(place) = index_within(count, index) else {
            return trap(TrapKind::Index, line);
        };
        let Some(word) = read_one(array, place) else {
            return STRAY;
        };
        self.words.replace(1, word);
        self.place = next;
        Move::Goes
    }

    pub fn store_indexed(
        &mut self,
        next: usize,
        results: &Results,
        variable: u32,
        offset: u32,
        count: u32,
        line: u32,
    ) -> Result<Move, NoMemory>
        requires { next ≡ self.old.place + 1 }
        ensures ok { IfOk result (λ move. (x : frames.Around) → Did (knows_of results.now) x (instr.StoreIndexed variable offset count line) self.old move self.new) }
        ensures err { OnErr result (frame_of self.new ≡ frame_of self.old) }
    {
        let Some(held) = self.variables.get(variable) else {
            return Ok(STRAY);
        };
        let Some(known) = held.words(results) else {
            return Ok(STRAY);
        };
        let Some(_array) = read(known, offset, count) else {
            return Ok(STRAY);
        };
        let Some(index) = self.words.below(0) else {
            return Ok(STRAY);
        };
        let Some(word) = self.words.below(1) else {
            return Ok(STRAY);
        };
        let Some(place) = index_within(count, index) else {
            return Ok(trap(TrapKind::Index, line));
        };
        self.store_word(
            next,
            results,
            variable,
            offset as usize + place as usize,
            word,
        )
    }

    /// The word below an index into a variable, where both go from the stack.
    fn store_word(
        &mut self,
        next: usize,
        results: &Results,
        variable: u32,
        at: usize,
        word: i64,
    ) -> Result<Move, NoMemory>
        requires next { next ≡ self.old.place + 1 }
        requires two { 2 ≤ length self.old.words }
        ensures ok { IfOk result (λ move. or_strays (frame_of self.old) (on_known (framed (knows_of results.now)) variable (frame_of self.old) (λ held. stores (framed (knows_of results.now)) variable (write_words at (word ∷ []) held) (record (frame_of self.old) { words = drop 2 self.old.words }))) ≡ next_of move (frame_of self.new)) }
        ensures err { OnErr result (frame_of self.new ≡ frame_of self.old) }
    {
        let Some(held) = self.variables.get(variable) else {
            return Ok(STRAY);
        };
        let Some(known) = held.words(results) else {
            return Ok(STRAY);
        };
        if at >= known.len() {
            return Ok(STRAY);
        }
        self.variables.write(results, variable, at, &[word])?;
        self.words.shorten(2);
        self.place = next;
        Ok(Move::Goes)
    }
}
