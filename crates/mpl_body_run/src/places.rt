ghost use Rattle.std.specs.Prelude.{◌≡◌, ◌+◌, ◌-◌, ◌<◌, ◌^◌, ◌∷◌, [], IfOk, IfSome, OnOk};
ghost use Rattle.mpl_value.specs.Words.{index_below, with_words, words_at};
ghost use Rattle.mpl_body_code.specs.Machine.{Setting, held, put_held, words_item};
ghost use Rattle.mpl_body_run.specs.Seen.{Came, machine_seen};
ghost use Rattle.mpl_body_run.specs.SeenItems.{arg_seen, item_seen};
ghost use Rattle.mpl_value.specs.declared.body.Arg.TheVariants.{Know};
ghost use Rattle.mpl_body_code.specs.Steps.{forced, indexed, on_value, onward, performs, puts, with_slots};
ghost use Rattle.mpl_body_code.specs.declared.instruction.Base.TheVariants as base;
ghost use Rattle.mpl_body_code.specs.declared.instruction.Instruction.TheVariants as instruction;

use crate::leaves::Leaves;
use crate::machine::Machine;
use crate::perform::{first_word, trap};
use crate::stack::Holds;
use crate::word_list::shared;
use mpl_body_code::{Base, Spot};
use mpl_value::{BodyEnd, NoMemory, TrapKind, Words};
use std::alloc::Global;
use std::rc::Rc;

impl Machine {
    #[inline(always)]
    pub fn read(&mut self, alloc: Global, spot: &Spot) -> Result<(), Leaves>
        requires { self.old.frame.place < 2 ^ 64 - 1 }
        ensures { (S : Setting) → Came (performs S (instruction.Read spot.now) (machine_seen self.old)) (machine_seen self.new) result }
    {
        match spot.base {
            Base::State => {
                let item = part(alloc, self.body.state.as_slice(), spot)?;
                self.onward(item)
            }
            Base::Slot(number) => self.read_slot(alloc, number, spot),
        }
    }

    #[inline(always)]
    fn read_slot(&mut self, alloc: Global, number: usize, spot: &Spot) -> Result<(), Leaves>
        requires { self.old.frame.place < 2 ^ 64 - 1 }
        ensures { Came (forced (machine_seen self.old) (held number self.old.frame.slots) (λ words. onward (machine_seen self.old) (words_item (words_at spot.now.offset spot.now.words words) spot.now.is_bool ∷ self.old.frame.stack))) (machine_seen self.new) result }
    {
        match self.frame.slots.get(number) {
            Some(Holds::Word(word, _)) => {
                let word = *word;
                self.read_word(alloc, word, spot)
            }
            Some(Holds::Words(words, _)) => {
                let item = part_of_words(alloc, words, spot)?;
                self.onward(item)
            }
            Some(Holds::Trapped(trap)) => Err(Leaves::Ends(BodyEnd::Trap(*trap))),
            Some(Holds::Unknown) => Err(Leaves::Ends(BodyEnd::Waits)),
            None => Err(Leaves::Ends(BodyEnd::Waits)),
        }
    }

    /// A variable of one word is read.
    #[inline(always)]
    fn read_word(&mut self, alloc: Global, word: i64, spot: &Spot) -> Result<(), Leaves>
        requires { self.old.frame.place < 2 ^ 64 - 1 }
        ensures { Came (onward (machine_seen self.old) (words_item (words_at spot.now.offset spot.now.words (word ∷ [])) spot.now.is_bool ∷ self.old.frame.stack)) (machine_seen self.new) result }
    {
        if spot.offset == 0 && spot.words == 1 {
            return self.onward(Holds::Word(word, spot.is_bool));
        }
        let item = part(alloc, &[word], spot)?;
        self.onward(item)
    }

    pub fn force_spot(&mut self, spot: Spot) -> Result<(), Leaves>
        requires { self.old.frame.place < 2 ^ 64 - 1 }
        ensures { (S : Setting) → Came (performs S (instruction.ForceSpot spot) (machine_seen self.old)) (machine_seen self.new) result }
    {
        match spot.base {
            Base::State => {}
            Base::Slot(number) => match self.frame.slots.get(number) {
                Some(Holds::Word(..)) => {}
                Some(Holds::Words(..)) => {}
                Some(Holds::Trapped(trap)) => return Err(Leaves::Ends(BodyEnd::Trap(*trap))),
                Some(Holds::Unknown) => return Err(Leaves::Ends(BodyEnd::Waits)),
                None => return Err(Leaves::Ends(BodyEnd::Waits)),
            },
        }
        self.frame.place += 1;
        Ok(())
    }

    pub fn put_element(&mut self, alloc: Global, line: u32, spot: &Spot) -> Result<(), Leaves>
        requires within { self.old.frame.place < 2 ^ 64 - 1 }
        requires fits { spot.now.offset + spot.now.words < 2 ^ 64 }
        ensures { (S : Setting) → Came (performs S (instruction.PutElement line spot.now) (machine_seen self.old)) (machine_seen self.new) result }
    {
        match self.frame.stack.pop() {
            Some(Holds::Word(i, _)) => self.put_at(alloc, line, spot, i),
            Some(Holds::Words(i, _)) => {
                let i = first_word(i.as_ref());
                self.put_at(alloc, line, spot, i)
            }
            Some(Holds::Trapped(_)) => Err(Leaves::Ends(BodyEnd::Waits)),
            Some(Holds::Unknown) => Err(Leaves::Ends(BodyEnd::Waits)),
            None => Err(Leaves::Ends(BodyEnd::Waits)),
        }
    }

    /// The value lies below its index.
    fn put_at(&mut self, alloc: Global, line: u32, spot: &Spot, i: i64) -> Result<(), Leaves>
        requires within { self.old.frame.place < 2 ^ 64 - 1 }
        requires fits { spot.now.offset + spot.now.words < 2 ^ 64 }
        ensures { Came (on_value (machine_seen self.old) self.old.frame.stack (λ value below. indexed (machine_seen self.old) line (index_below spot.now.words i) (λ n. puts (machine_seen self.old) spot.now.base (spot.now.offset + n) value.words below))) (machine_seen self.new) result }
    {
        match self.frame.stack.pop() {
            Some(Holds::Word(word, _)) => match index_within(spot.words, i) {
                Some(n) => self.put_words(alloc, spot.base, spot.offset + n, &[word]),
                None => Err(trap(TrapKind::Index, line)),
            },
            Some(Holds::Words(words, _)) => match index_within(spot.words, i) {
                Some(n) => self.put_words(
                    alloc,
                    spot.base,
                    spot.offset + n,
                    words.as_ref().as_slice(),
                ),
                None => Err(trap(TrapKind::Index, line)),
            },
            Some(Holds::Trapped(_)) => Err(Leaves::Ends(BodyEnd::Waits)),
            Some(Holds::Unknown) => Err(Leaves::Ends(BodyEnd::Waits)),
            None => Err(Leaves::Ends(BodyEnd::Waits)),
        }
    }

    /// Other words from an offset on.
    #[inline(always)]
    fn put_words(
        &mut self,
        alloc: Global,
        base: Base,
        offset: usize,
        words: &[i64],
    ) -> Result<(), Leaves>
        requires { self.old.frame.place < 2 ^ 64 - 1 }
        ensures { Came (puts (machine_seen self.old) base offset words.now self.old.frame.stack) (machine_seen self.new) result }
    {
        match base {
            Base::State => {
                store(alloc, &mut self.body.state, offset, words)?;
                self.frame.place += 1;
                Ok(())
            }
            Base::Slot(number) => self.put_slot(alloc, number, offset, words),
        }
    }

    /// Other words from an offset of a variable on.
    #[inline(always)]
    #[tactic(auto, using(crate::proofs::SlotLists::put_twice))]
    fn put_slot(
        &mut self,
        alloc: Global,
        number: usize,
        offset: usize,
        words: &[i64],
    ) -> Result<(), Leaves>
        requires { self.old.frame.place < 2 ^ 64 - 1 }
        ensures { Came (puts (machine_seen self.old) (base.Slot number) offset words.now self.old.frame.stack) (machine_seen self.new) result }
    {
        match self.frame.slots.take(number) {
            Some(Holds::Word(before, _)) => {
                let after = stored_in_word(alloc, before, offset, words)?;
                self.put_back(number, after)
            }
            Some(Holds::Words(before, _)) => {
                let after = stored_in_words(alloc, before, offset, words)?;
                self.put_back(number, Holds::Words(after, false))
            }
            Some(Holds::Trapped(trap)) => Err(Leaves::Ends(BodyEnd::Trap(trap))),
            Some(Holds::Unknown) => Err(Leaves::Ends(BodyEnd::Waits)),
            None => Err(Leaves::Ends(BodyEnd::Waits)),
        }
    }

    /// A variable holds something again.
    #[inline(always)]
    fn put_back(&mut self, number: usize, item: Holds) -> Result<(), Leaves>
        requires { self.old.frame.place < 2 ^ 64 - 1 }
        ensures { Came (onward (with_slots (machine_seen self.old) (put_held number (arg_seen item) self.old.frame.slots)) self.old.frame.stack) (machine_seen self.new) result }
    {
        self.frame.slots.put(number, item);
        self.frame.place += 1;
        Ok(())
    }

    #[inline(always)]
    pub fn put(&mut self, alloc: Global, spot: &Spot) -> Result<(), Leaves>
        requires { self.old.frame.place < 2 ^ 64 - 1 }
        ensures { (S : Setting) → Came (performs S (instruction.Put spot.now) (machine_seen self.old)) (machine_seen self.new) result }
    {
        match self.frame.stack.pop() {
            Some(Holds::Word(word, _)) => self.put_words(alloc, spot.base, spot.offset, &[word]),
            Some(Holds::Words(words, _)) => {
                self.put_words(alloc, spot.base, spot.offset, words.as_ref().as_slice())
            }
            Some(Holds::Trapped(_)) => Err(Leaves::Ends(BodyEnd::Waits)),
            Some(Holds::Unknown) => Err(Leaves::Ends(BodyEnd::Waits)),
            None => Err(Leaves::Ends(BodyEnd::Waits)),
        }
    }
}

/// The place of an index, if it lies below the dimension.
#[inline(always)]
fn index_within(dimension: usize, i: i64) -> Option<usize>
    ensures is { result ≡ index_below dimension i }
    ensures below { IfSome result (λ n. n < dimension) }
{
    if i < 0 || i as usize >= dimension {
        None
    } else {
        Some(i as usize)
    }
}

/// The words of a spot, as a value.
#[tactic(auto, using(crate::proofs::WordLists::part_one, crate::proofs::WordLists::part_none, crate::proofs::WordLists::part_least))]
#[inline(never)]
fn part(alloc: Global, words: &[i64], spot: &Spot) -> Result<Holds, NoMemory>
    ensures { IfOk result (λ h. item_seen h ≡ words_item (words_at spot.now.offset spot.now.words words.now) spot.now.is_bool) }
{
    if spot.offset >= words.len() {
        return Ok(Holds::Words(shared(alloc, Words::new(alloc))?, spot.is_bool));
    }
    if spot.words == 1 {
        return Ok(Holds::Word(words[spot.offset], spot.is_bool));
    }
    let rest = &words[spot.offset..];
    let count = spot.words.min(rest.len());
    let words = Words::from_slice(alloc, &rest[..count])?;
    Ok(Holds::Words(shared(alloc, words)?, spot.is_bool))
}

/// The words of a spot, of which all are shared.
#[inline(never)]
fn part_of_words(alloc: Global, words: &Rc<Words>, spot: &Spot) -> Result<Holds, NoMemory>
    ensures { IfOk result (λ h. item_seen h ≡ words_item (words_at spot.now.offset spot.now.words words.now.value) spot.now.is_bool) }
{
    let all = words.as_ref();
    if spot.offset == 0 && spot.words >= all.len() {
        return Ok(Holds::Words(words.clone()?, spot.is_bool));
    }
    part(alloc, all.as_slice(), spot)
}

/// A variable of one word with others in its place.
#[inline(always)]
fn stored_in_word(
    alloc: Global,
    before: i64,
    offset: usize,
    words: &[i64],
) -> Result<Holds, NoMemory>
    ensures { IfOk result (λ h. arg_seen h ≡ Know (with_words offset words.now (before ∷ []))) }
{
    if offset == 0 && words.len() == 1 {
        return Ok(Holds::Word(words[0], false));
    }
    let after = stored(alloc, &[before], offset, words)?;
    Ok(Holds::Words(shared(alloc, after)?, false))
}

/// Words with others in place of as many, in place where nothing else has them.
#[inline(never)]
fn stored_in_words(
    alloc: Global,
    before: Rc<Words>,
    offset: usize,
    words: &[i64],
) -> Result<Rc<Words>, NoMemory>
    ensures { IfOk result (λ after. after.value ≡ with_words offset words.now before.value) }
{
    let mut before = before;
    if let Some(alone) = Rc::get_mut(&mut before) {
        store(alloc, alone, offset, words)?;
        return Ok(before);
    }
    let after = stored(alloc, before.as_ref().as_slice(), offset, words)?;
    shared(alloc, after)
}

/// Words in place of as many from an offset.
fn store(alloc: Global, all: &mut Words, offset: usize, words: &[i64]) -> Result<(), NoMemory>
    ensures { OnOk result (all.new ≡ with_words offset words.now all.old) }
{
    let length = all.len();
    if offset <= length && words.len() <= length - offset {
        all.write(offset, words);
    } else {
        *all = stored(alloc, all.as_slice(), offset, words)?;
    }
    Ok(())
}

/// Words in place of as many from an offset.
#[tactic(auto, using(crate::proofs::WordLists::with_least, crate::proofs::WordLists::with_past))]
#[inline(never)]
fn stored(alloc: Global, before: &[i64], offset: usize, words: &[i64]) -> Result<Words, NoMemory>
    ensures { IfOk result (λ all. all ≡ with_words offset words.now before.now) }
{
    if offset >= before.len() {
        let mut all = Words::from_slice(alloc, before)?;
        all.extend(words)?;
        return Ok(all);
    }
    let rest = &before[offset..];
    let covered = words.len().min(rest.len());
    let mut all = Words::from_slice(alloc, &before[..offset])?;
    all.extend(words)?;
    all.extend(&rest[covered..])?;
    Ok(all)
}
