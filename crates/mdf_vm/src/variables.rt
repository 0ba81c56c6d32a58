ghost use Rattle.std.specs.Prelude.{◌≡◌, ◌+◌, ◌≤◌, ◌<◌, ◌∷◌, ◌++◌, [], ℕ, ℤ, List, length, slice_get, slice_set, Some, None, map, IfOk, OnOk, OnErr, nat_lt, true};
ghost use Rattle.mpl_value.specs.Words.{with_words, words_at, zeros};
ghost use Rattle.mdf_code.specs.Parts.{split_words, variables_holding};
ghost use Rattle.mdf_code.specs.Alone as alone;
ghost use Rattle.mdf_code.specs.Stacks.{known_words_of, set_at, write_words};
ghost use Rattle.mdf_vm.specs.Internal.Pouring.{all_poured, left_by, poured};
ghost use Rattle.mdf_vm.specs.Internal.Slots.{held_by};
ghost use Rattle.mdf_vm.specs.Results.{knows_of};

use crate::held::{Held, Kind, known_in};
use crate::lent::Lent;
use crate::results::Results;
use crate::slot::Slot;
use mpl_value::{NoMemory, Words};
use std::alloc::Global;
use std::marker::Model;

/// The variables of a body or a plain function, whose words lie one after another.
#[derive(Drop)]
pub struct Variables {
    words: Vec<i64>,
    slots: Vec<Slot>,
}

impl Model for Variables {
    ghost use Rattle.std.specs.Prelude.{List, length, map};
    ghost use Rattle.mdf_code.specs.Alone as alone;
    ghost use Rattle.mdf_vm.specs.Internal.Slots.{IsLaid, held_at};

    ghost Value = { List alone.Held };

    ghost view = { λ v. map (held_at v.words.items) v.slots.items };

    ghost invariant = { λ v. IsLaid 0 v.slots.items (length v.words.items) };
}

impl Variables {
    pub fn new(alloc: Global) -> Variables
        ensures { result ≡ [] }
    {
        Variables {
            words: Vec::new(alloc),
            slots: Vec::new(alloc),
        }
    }

    /// The formals hold these words, and all other variables zeros.
    pub fn holding(
        alloc: Global,
        formals: u32,
        sizes: &[u32],
        words: &[i64],
    ) -> Result<Variables, NoMemory>
        ensures { IfOk result (λ variables. variables ≡ map alone.Words (variables_holding formals sizes.now words.now)) }
    {
        let count = (formals as usize).min(sizes.len());
        let mut variables = Variables::with_room(alloc, sizes.len())?;
        variables.add_formals(&sizes[..count], words)?;
        variables.add_zeros(&sizes[count..])?;
        Ok(variables)
    }

    /// None, and room for so many of one word.
    fn with_room(alloc: Global, count: usize) -> Result<Variables, NoMemory>
        ensures { IfOk result (λ variables. variables ≡ []) }
    {
        let words = Vec::with_capacity(alloc, count)?;
        let slots = Vec::with_capacity(alloc, count)?;
        Ok(Variables { words, slots })
    }

    fn add_formals(&mut self, sizes: &[u32], words: &[i64]) -> Result<(), NoMemory>
        ensures { OnOk result (self.new ≡ self.old ++ map alone.Words (split_words sizes.now words.now)) }
    {
        let mut rest = words;
        for size in sizes {
            let count = (*size as usize).min(rest.len());
            let (first, others) = rest.split_at(count);
            self.push(first, None)?;
            rest = others;
        }
        Ok(())
    }

    fn add_zeros(&mut self, sizes: &[u32]) -> Result<(), NoMemory>
        ensures { OnOk result (self.new ≡ self.old ++ map alone.Words (map zeros sizes.now)) }
    {
        for size in sizes {
            self.push_zeros(*size)?;
        }
        Ok(())
    }

    /// One more variable, with these words.
    fn push(&mut self, words: &[i64], pending: Option<u32>) -> Result<(), NoMemory>
        ensures { OnOk result (self.new ≡ self.old ++ held_by pending words.now ∷ []) }
    {
        let at = self.words.as_slice().len();
        let count = words.len();
        self.words.extend_from_slice(words)?;
        self.slots.push(Slot { at, count, pending })?;
        Ok(())
    }

    fn push_zeros(&mut self, size: u32) -> Result<(), NoMemory>
        ensures { OnOk result (self.new ≡ self.old ++ alone.Words (zeros size) ∷ []) }
    {
        let at = self.words.as_slice().len();
        let count = size as usize;
        extend_by_zeros(&mut self.words, size)?;
        self.slots.push(Slot {
            at,
            count,
            pending: None,
        })?;
        Ok(())
    }

    #[inline(always)]
    pub fn get(&self, variable: u32) -> Option<Lent<'_>>
        ensures { result ≡ slice_get self.now variable }
    {
        let slot = self.slots.get(variable as usize)?;
        let words = region(self.words.as_slice(), slot);
        Some(Lent::new(words, slot.pending))
    }

    pub fn has(&self, variable: u32) -> bool
        ensures { result ≡ nat_lt variable (length self.now) }
    {
        (variable as usize) < self.slots.len()
    }

    /// Another value in a variable that is there.
    pub fn put(&mut self, variable: u32, held: &Held) -> Result<(), NoMemory>
        requires { nat_lt variable (length self.old) ≡ true }
        ensures ok { OnOk result (set_at variable held.now self.old ≡ Some self.new) }
        ensures err { OnErr result (self.new ≡ self.old) }
    {
        match held.kind() {
            Kind::Words(words) => self.put_words(variable as usize, words.as_slice()),
            Kind::Pending(number) => {
                self.put_pending(variable as usize, *number);
                Ok(())
            }
        }
    }

    fn put_pending(&mut self, variable: usize, number: u32)
        requires { variable < length self.old }
        ensures { self.new ≡ slice_set self.old variable (alone.Pending number) }
    {
        self.slots[variable].pending = Some(number);
    }

    fn put_words(&mut self, variable: usize, words: &[i64]) -> Result<(), NoMemory>
        requires { variable < length self.old }
        ensures ok { OnOk result (self.new ≡ slice_set self.old variable (alone.Words words.now)) }
        ensures err { OnErr result (self.new ≡ self.old) }
    {
        let slot = self.slots[variable];
        if slot.count != words.len() {
            return self.lay_anew(variable, words);
        }
        self.slots[variable].pending = None;
        write_at(&mut self.words, slot.at, words);
        Ok(())
    }

    #[inline(never)]
    fn lay_anew(&mut self, variable: usize, words: &[i64]) -> Result<(), NoMemory>
        ensures ok { OnOk result (self.new ≡ slice_set self.old variable (alone.Words words.now)) }
        ensures err { OnErr result (self.new ≡ self.old) }
    {
        *self = self.anew(variable, words)?;
        Ok(())
    }

    /// The variables once more, one of them with another number of words.
    fn anew(&self, variable: usize, words: &[i64]) -> Result<Variables, NoMemory>
        ensures { IfOk result (λ anew. anew ≡ slice_set self.now variable (alone.Words words.now)) }
    {
        let mut anew = Variables::new(*self.words.allocator());
        let count = self.slots.as_slice().len();
        for place in 0..count {
            self.lay(place, variable, words, &mut anew)?;
        }
        Ok(anew)
    }

    /// A variable behind others, as it is or with other words.
    fn lay(
        &self,
        place: usize,
        variable: usize,
        words: &[i64],
        anew: &mut Variables,
    ) -> Result<(), NoMemory>
        requires { place < length self.now }
        ensures { OnOk result ((held : alone.Held) → slice_get (slice_set self.now variable (alone.Words words.now)) place ≡ Some held → anew.new ≡ anew.old ++ held ∷ []) }
    {
        if place == variable {
            return anew.push(words, None);
        }
        let slot = self.slots[place];
        anew.push(region(self.words.as_slice(), &slot), slot.pending)
    }

    /// Words into a variable whose words are known.
    #[inline(always)]
    pub fn write(
        &mut self,
        results: &Results,
        variable: u32,
        offset: usize,
        words: &[i64],
    ) -> Result<(), NoMemory>
        requires { (held : alone.Held) × (known : List ℤ) × (slice_get self.old variable ≡ Some held) × (known_words_of (alone.seen_by (knows_of results.now) held) ≡ Some known) × (offset + length words.now ≤ length known) }
        ensures ok { OnOk result ((held : alone.Held) (known : List ℤ) → slice_get self.old variable ≡ Some held → known_words_of (alone.seen_by (knows_of results.now) held) ≡ Some known → (write_words offset words.now known ≡ Some (with_words offset words.now known)) × (set_at variable (alone.Words (with_words offset words.now known)) self.old ≡ Some self.new)) }
        ensures err { OnErr result (self.new ≡ self.old) }
    {
        let slot = self.slots[variable as usize];
        match slot.pending {
            None => {
                write_at(&mut self.words, slot.at + offset, words);
                Ok(())
            }
            Some(number) => self.write_known(results, number, variable as usize, offset, words),
        }
    }

    /// The same of a variable that holds the result of a call.
    #[inline(never)]
    fn write_known(
        &mut self,
        results: &Results,
        number: u32,
        variable: usize,
        offset: usize,
        words: &[i64],
    ) -> Result<(), NoMemory>
        requires known { (known : List ℤ) × (known_words_of (knows_of results.now number) ≡ Some known) × (offset + length words.now ≤ length known) }
        requires there { variable < length self.old }
        ensures ok { OnOk result ((known : List ℤ) → known_words_of (knows_of results.now number) ≡ Some known → self.new ≡ slice_set self.old variable (alone.Words (with_words offset words.now known))) }
        ensures err { OnErr result (self.new ≡ self.old) }
    {
        let copy = written(results, number, offset, words)?;
        self.put_words(variable, copy.as_slice())
    }

    /// Words into the variables, one after another.
    pub fn pour(&mut self, words: &[i64])
        ensures { self.new ≡ all_poured self.old words.now }
    {
        let count = self.slots.as_slice().len();
        let mut rest = words;
        for place in 0..count {
            rest = self.pour_into(place, rest);
        }
    }

    /// As many words from the front as a variable has room for. What is left of them is answered.
    fn pour_into<'a>(&mut self, place: usize, words: &'a [i64]) -> &'a [i64]
        requires { place < length self.old }
        ensures held { (held : alone.Held) → slice_get self.old place ≡ Some held → self.new ≡ slice_set self.old place (poured held words.now) }
        ensures left { (held : alone.Held) → slice_get self.old place ≡ Some held → result.now ≡ left_by held words.now }
    {
        let slot = self.slots[place];
        if slot.pending.is_some() {
            return words;
        }
        let (first, rest) = words.split_at(slot.count.min(words.len()));
        write_at(&mut self.words, slot.at, first);
        rest
    }
}

/// The words of a variable.
#[inline(always)]
fn region<'a>(words: &'a [i64], slot: &Slot) -> &'a [i64]
    requires { slot.now.at + slot.now.count ≤ length words.now }
    ensures { result.now ≡ words_at slot.now.at slot.now.count words.now }
{
    &words[slot.at..slot.at + slot.count]
}

/// Words in place of as many from a place on.
#[inline(always)]
#[tactic(auto, using(crate::proofs::Laid::one_written))]
fn write_at(words: &mut Vec<i64>, at: usize, new: &[i64])
    requires { at + length new.now ≤ length words.old.items }
    ensures { words.new.items ≡ with_words at new.now words.old.items }
{
    if new.len() == 1 {
        words[at] = new[0];
        return;
    }
    let end = at + new.len();
    words[at..end].copy_from_slice(new);
}

fn extend_by_zeros(words: &mut Vec<i64>, count: u32) -> Result<(), NoMemory>
    ensures ok { OnOk result (words.new.items ≡ words.old.items ++ zeros count) }
    ensures err { OnErr result (words.new.items ≡ words.old.items) }
{
    let end = words.len() + count as usize;
    words.resize(end, 0)?;
    Ok(())
}

/// The words of a result that is known, with others in place of some.
fn written(results: &Results, number: u32, offset: usize, words: &[i64]) -> Result<Words, NoMemory>
    requires { (known : List ℤ) × (known_words_of (knows_of results.now number) ≡ Some known) × (offset + length words.now ≤ length known) }
    ensures { IfOk result (λ copy. (known : List ℤ) → known_words_of (knows_of results.now number) ≡ Some known → copy ≡ with_words offset words.now known) }
{
    match known_in(results, number) {
        None => unreachable!(),
        Some(known) => {
            let mut copy = Words::from_slice(results.allocator(), known)?;
            copy.write(offset, words);
            Ok(copy)
        }
    }
}
