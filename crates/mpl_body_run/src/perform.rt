ghost use Rattle.std.specs.Prelude.{◌≡◌, ◌+◌, ◌-◌, ◌<◌, ◌≤◌, ◌^◌, ◌∷◌, IfOk, if◌then◌else◌, pos, length};
ghost use Rattle.mpl_body_code.specs.Machine.{Setting, OfValue, item_of};
ghost use Rattle.mpl_body_run.specs.Seen.{Came, machine_seen};
ghost use Rattle.mpl_body_run.specs.SeenItems.{arg_seen, item_seen};
ghost use Rattle.mpl_value.specs.Words.{object_word, zeros};
ghost use Rattle.mpl_value.specs.Results.{result_of};
ghost use Rattle.mpl_value.specs.declared.body.Arg.TheVariants.{Know};
ghost use Rattle.mpl_mean.specs.Meaning.Values.{bool_value, first_word, int_value};
ghost use Rattle.std.specs.Ordering.{int_eq};
ghost use Rattle.mpl_value.specs.declared.body.BodyEnd.TheVariants as end;
ghost use Rattle.mpl_value.specs.declared.known.TrapKind.TheVariants.{Unbound};
ghost use Rattle.mpl_body_run.specs.declared.leaves.Leaves.TheVariants as leaves;
ghost use Rattle.mpl_body_code.specs.Steps.{onward, past, performs, traps};
ghost use Rattle.mpl_body_code.specs.declared.instruction.Instruction.TheVariants as instruction;

use crate::items::{print_items, take_items};
use crate::leaves::Leaves;
use crate::machine::Machine;
use crate::stack::Holds;
use crate::word_list::{WordList, owned, shared};
use mpl_value::{BodyEnd, BodyResult, Known, NoMemory, Trap, TrapKind, Words};
use std::alloc::Global;

impl Machine {
    /// One more item, and the next instruction.
    #[inline(always)]
    pub fn onward(&mut self, item: Holds) -> Result<(), Leaves>
        requires { self.old.frame.place < 2 ^ 64 - 1 }
        ensures { Came (onward (machine_seen self.old) (item_seen item ∷ self.old.frame.stack)) (machine_seen self.new) result }
    {
        self.frame.stack.push(item)?;
        self.frame.place += 1;
        Ok(())
    }

    #[inline(always)]
    pub fn number(&mut self, number: &i64) -> Result<(), Leaves>
        requires { self.old.frame.place < 2 ^ 64 - 1 }
        ensures { (S : Setting) → Came (performs S (instruction.Number number.now) (machine_seen self.old)) (machine_seen self.new) result }
    {
        self.onward(Holds::Word(*number, false))
    }

    pub fn truth(&mut self, truth: bool) -> Result<(), Leaves>
        requires { self.old.frame.place < 2 ^ 64 - 1 }
        ensures { (S : Setting) → Came (performs S (instruction.Truth truth) (machine_seen self.old)) (machine_seen self.new) result }
    {
        self.onward(Holds::Word(truth as i64, true))
    }

    pub fn own(&mut self) -> Result<(), Leaves>
        requires { self.old.frame.place < 2 ^ 64 - 1 }
        ensures { (S : Setting) → Came (performs S instruction.Own (machine_seen self.old)) (machine_seen self.new) result }
    {
        self.onward(Holds::Word(self.frame.object, false))
    }

    #[inline(always)]
    pub fn skip(&mut self, count: usize) -> Result<(), Leaves>
        requires { self.old.frame.place + 1 + count < 2 ^ 64 }
        ensures { (S : Setting) → Came (performs S (instruction.Skip count) (machine_seen self.old)) (machine_seen self.new) result }
    {
        self.frame.place += 1 + count;
        Ok(())
    }

    #[inline(always)]
    pub fn leave(&mut self, count: usize) -> Result<(), Leaves>
        requires { self.old.frame.place < 2 ^ 64 - 1 }
        ensures { (S : Setting) → Came (performs S (instruction.Leave count) (machine_seen self.old)) (machine_seen self.new) result }
    {
        self.frame.slots.leave(count);
        self.frame.place += 1;
        Ok(())
    }

    pub fn turn(&mut self, budget: u64) -> Result<(), Leaves>
        requires within { self.old.frame.place < 2 ^ 64 - 1 }
        requires turns { self.old.turns < 2 ^ 64 - 1 }
        ensures { (S : Setting) → S.turns ≡ budget → Came (performs S instruction.Turn (machine_seen self.old)) (machine_seen self.new) result }
    {
        self.turns += 1;
        if self.turns <= budget {
            self.frame.place += 1;
            Ok(())
        } else {
            Err(Leaves::Ends(BodyEnd::Spent))
        }
    }

    pub fn hold(&mut self, number: usize) -> Result<(), Leaves>
        requires { self.old.frame.place < 2 ^ 64 - 1 }
        ensures { (S : Setting) → Came (performs S (instruction.Hold number) (machine_seen self.old)) (machine_seen self.new) result }
    {
        match self.frame.stack.pop() {
            Some(item) => {
                self.frame.slots.put(number, item);
                self.frame.place += 1;
                Ok(())
            }
            None => Err(Leaves::Ends(BodyEnd::Waits)),
        }
    }

    pub fn nothing(&mut self, alloc: Global) -> Result<(), Leaves>
        requires { self.old.frame.place < 2 ^ 64 - 1 }
        ensures { (S : Setting) → Came (performs S instruction.Nothing (machine_seen self.old)) (machine_seen self.new) result }
    {
        let none = shared(alloc, Words::new(alloc))?;
        self.onward(Holds::Words(none, false))
    }

    #[inline(never)]
    pub fn declare(&mut self, alloc: Global, words: usize) -> Result<(), Leaves>
        requires { self.old.frame.place < 2 ^ 64 - 1 }
        ensures { (S : Setting) → Came (performs S (instruction.Declare words) (machine_seen self.old)) (machine_seen self.new) result }
    {
        let zeros = zeros(alloc, words)?;
        self.frame.slots.push(zeros)?;
        self.frame.place += 1;
        Ok(())
    }

    pub fn bind(&mut self) -> Result<(), Leaves>
        requires { self.old.frame.place < 2 ^ 64 - 1 }
        ensures { (S : Setting) → Came (performs S instruction.Bind (machine_seen self.old)) (machine_seen self.new) result }
    {
        match self.frame.stack.pop() {
            Some(item) => {
                self.frame.slots.push(item)?;
                self.frame.place += 1;
                Ok(())
            }
            None => Err(Leaves::Ends(BodyEnd::Waits)),
        }
    }

    pub fn drop_top(&mut self) -> Result<(), Leaves>
        requires { self.old.frame.place < 2 ^ 64 - 1 }
        ensures { (S : Setting) → Came (performs S instruction.Drop (machine_seen self.old)) (machine_seen self.new) result }
    {
        match self.frame.stack.pop() {
            Some(_) => {
                self.frame.place += 1;
                Ok(())
            }
            None => Err(Leaves::Ends(BodyEnd::Waits)),
        }
    }

    #[inline(always)]
    pub fn again(&mut self, budget: u64, count: usize) -> Result<(), Leaves>
        requires { self.old.turns < 2 ^ 64 - 1 }
        ensures { (S : Setting) → S.turns ≡ budget → Came (performs S (instruction.Again count) (machine_seen self.old)) (machine_seen self.new) result }
    {
        self.turns += 1;
        if self.turns <= budget {
            self.frame.place = self.frame.place.saturating_sub(count);
            Ok(())
        } else {
            Err(Leaves::Ends(BodyEnd::Spent))
        }
    }

    #[inline(always)]
    pub fn unless(&mut self, count: usize) -> Result<(), Leaves>
        requires { self.old.frame.place + 1 + count < 2 ^ 64 }
        ensures { (S : Setting) → Came (performs S (instruction.Unless count) (machine_seen self.old)) (machine_seen self.new) result }
    {
        match self.frame.stack.pop() {
            Some(Holds::Word(word, _)) => {
                self.frame.place += if word != 0 { 1 } else { 1 + count };
                Ok(())
            }
            Some(Holds::Words(words, _)) => {
                let word = first_word(words.as_ref());
                self.frame.place += if word != 0 { 1 } else { 1 + count };
                Ok(())
            }
            Some(Holds::Trapped(_)) => Err(Leaves::Ends(BodyEnd::Waits)),
            Some(Holds::Unknown) => Err(Leaves::Ends(BodyEnd::Waits)),
            None => Err(Leaves::Ends(BodyEnd::Waits)),
        }
    }

    pub fn or(&mut self, count: usize) -> Result<(), Leaves>
        requires { self.old.frame.place + 1 + count < 2 ^ 64 }
        ensures { (S : Setting) → Came (performs S (instruction.Or count) (machine_seen self.old)) (machine_seen self.new) result }
    {
        match self.frame.stack.pop() {
            Some(Holds::Word(word, _)) => self.decide(word != 0, true, count),
            Some(Holds::Words(words, _)) => {
                let word = first_word(words.as_ref());
                self.decide(word != 0, true, count)
            }
            Some(Holds::Trapped(_)) => Err(Leaves::Ends(BodyEnd::Waits)),
            Some(Holds::Unknown) => Err(Leaves::Ends(BodyEnd::Waits)),
            None => Err(Leaves::Ends(BodyEnd::Waits)),
        }
    }

    pub fn and(&mut self, count: usize) -> Result<(), Leaves>
        requires { self.old.frame.place + 1 + count < 2 ^ 64 }
        ensures { (S : Setting) → Came (performs S (instruction.And count) (machine_seen self.old)) (machine_seen self.new) result }
    {
        match self.frame.stack.pop() {
            Some(Holds::Word(word, _)) => self.decide(word == 0, false, count),
            Some(Holds::Words(words, _)) => {
                let word = first_word(words.as_ref());
                self.decide(word == 0, false, count)
            }
            Some(Holds::Trapped(_)) => Err(Leaves::Ends(BodyEnd::Waits)),
            Some(Holds::Unknown) => Err(Leaves::Ends(BodyEnd::Waits)),
            None => Err(Leaves::Ends(BodyEnd::Waits)),
        }
    }

    /// A truth value that decides stands for both operands.
    fn decide(&mut self, decides: bool, truth: bool, count: usize) -> Result<(), Leaves>
        requires { self.old.frame.place + 1 + count < 2 ^ 64 }
        ensures { Came (if decides then past count (machine_seen self.old) (OfValue (bool_value truth) ∷ self.old.frame.stack) else onward (machine_seen self.old) self.old.frame.stack) (machine_seen self.new) result }
    {
        if decides {
            self.frame.stack.push(Holds::Word(truth as i64, true))?;
            self.frame.place += 1 + count;
        } else {
            self.frame.place += 1;
        }
        Ok(())
    }

    pub fn receiver(&mut self, line: u32) -> Result<(), Leaves>
        requires { self.old.frame.place < 2 ^ 64 - 1 }
        ensures { (S : Setting) → Came (performs S (instruction.Receiver line) (machine_seen self.old)) (machine_seen self.new) result }
    {
        match self.frame.stack.pop() {
            Some(Holds::Word(word, _)) => self.receive(line, word),
            Some(Holds::Words(words, _)) => {
                let word = first_word(words.as_ref());
                self.receive(line, word)
            }
            Some(Holds::Trapped(_)) => Err(Leaves::Ends(BodyEnd::Waits)),
            Some(Holds::Unknown) => Err(Leaves::Ends(BodyEnd::Waits)),
            None => Err(Leaves::Ends(BodyEnd::Waits)),
        }
    }

    fn receive(&mut self, line: u32, word: i64) -> Result<(), Leaves>
        requires { self.old.frame.place < 2 ^ 64 - 1 }
        ensures { Came (if int_eq word (pos 0) then traps Unbound line (machine_seen self.old) else onward (machine_seen self.old) (OfValue (int_value word) ∷ self.old.frame.stack)) (machine_seen self.new) result }
    {
        if word == 0 {
            Err(trap(TrapKind::Unbound, line))
        } else {
            self.onward(Holds::Word(word, false))
        }
    }

    pub fn force(&mut self) -> Result<(), Leaves>
        requires { self.old.frame.place < 2 ^ 64 - 1 }
        ensures { (S : Setting) → Came (performs S instruction.Force (machine_seen self.old)) (machine_seen self.new) result }
    {
        match self.frame.stack.pop() {
            Some(Holds::Word(word, is_bool)) => self.onward(Holds::Word(word, is_bool)),
            Some(Holds::Words(words, is_bool)) => self.onward(Holds::Words(words, is_bool)),
            Some(Holds::Trapped(trap)) => Err(Leaves::Ends(BodyEnd::Trap(trap))),
            Some(Holds::Unknown) => Err(Leaves::Ends(BodyEnd::Waits)),
            None => Err(Leaves::Ends(BodyEnd::Waits)),
        }
    }

    pub fn pass(&mut self, number: usize) -> Result<(), Leaves>
        requires { self.old.frame.place < 2 ^ 64 - 1 }
        ensures { (S : Setting) → Came (performs S (instruction.Pass number) (machine_seen self.old)) (machine_seen self.new) result }
    {
        let item = match self.frame.slots.get(number) {
            Some(holds) => copied(holds)?,
            None => Holds::Unknown,
        };
        self.onward(item)
    }

    pub fn return_value(&mut self) -> Result<(), Leaves>
        ensures { (S : Setting) → Came (performs S instruction.Return (machine_seen self.old)) (machine_seen self.new) result }
    {
        match self.frame.stack.pop() {
            Some(Holds::Word(word, _)) => Err(Leaves::Returns(WordList::One(word))),
            Some(Holds::Words(words, _)) => Err(Leaves::Returns(WordList::Many(words))),
            Some(Holds::Trapped(_)) => Err(Leaves::Ends(BodyEnd::Waits)),
            Some(Holds::Unknown) => Err(Leaves::Ends(BodyEnd::Waits)),
            None => Err(Leaves::Ends(BodyEnd::Waits)),
        }
    }

    #[inline(never)]
    pub fn input(&mut self, line: u32) -> Result<(), Leaves>
        requires { self.old.frame.place < 2 ^ 64 - 1 }
        ensures { (S : Setting) → Came (performs S (instruction.Input line) (machine_seen self.old)) (machine_seen self.new) result }
    {
        match self.body.input.next() {
            Some(number) => self.onward(Holds::Word(number, false)),
            None => Err(trap(TrapKind::NoInput, line)),
        }
    }

    #[inline(never)]
    pub fn create(&mut self, budget: u64, class: &i64) -> Result<(), Leaves>
        requires within { self.old.frame.place < 2 ^ 64 - 1 }
        requires turns { self.old.turns < 2 ^ 64 - 1 }
        requires number { self.old.frame.number < 2 ^ 31 }
        requires few { length self.old.body.creations < 2 ^ 32 - 1 }
        ensures { (S : Setting) → S.turns ≡ budget → Came (performs S (instruction.New class.now) (machine_seen self.old)) (machine_seen self.new) result }
    {
        self.turns += 1;
        if self.turns <= budget {
            let word = object_word(self.frame.number, self.body.creations.len() + 1);
            self.body.creations.push(*class)?;
            self.onward(Holds::Word(word, false))
        } else {
            Err(Leaves::Ends(BodyEnd::Spent))
        }
    }

    #[inline(never)]
    pub fn give(&mut self, alloc: Global, line: u32) -> Result<(), Leaves>
        requires { self.old.frame.place < 2 ^ 64 - 1 }
        ensures { (S : Setting) → Came (performs S (instruction.Give line) (machine_seen self.old)) (machine_seen self.new) result }
    {
        match self.frame.stack.pop() {
            Some(item) => match self.body.result {
                BodyResult::Open => {
                    self.body.result = given(alloc, item)?;
                    self.frame.place += 1;
                    Ok(())
                }
                BodyResult::Known(_) => Err(trap(TrapKind::Twice, line)),
                BodyResult::Unknown => Err(trap(TrapKind::Twice, line)),
            },
            None => Err(Leaves::Ends(BodyEnd::Waits)),
        }
    }

    #[inline(never)]
    pub fn print(&mut self, alloc: Global, count: usize) -> Result<(), Leaves>
        requires { self.old.frame.place < 2 ^ 64 - 1 }
        ensures { (S : Setting) → Came (performs S (instruction.Print count) (machine_seen self.old)) (machine_seen self.new) result }
    {
        let items = take_items(alloc, &mut self.frame.stack, count)?;
        print_items(alloc, items, &mut self.body.lines)?;
        self.frame.place += 1;
        Ok(())
    }

    pub fn return_nothing(&mut self, alloc: Global) -> Result<(), Leaves>
        ensures { (S : Setting) → Came (performs S instruction.ReturnNothing (machine_seen self.old)) (machine_seen self.new) result }
    {
        let none = shared(alloc, Words::new(alloc))?;
        Err(Leaves::Returns(WordList::Many(none)))
    }

    pub fn end(&mut self) -> Result<(), Leaves>
        ensures { (S : Setting) → Came (performs S instruction.End (machine_seen self.old)) (machine_seen self.new) result }
    {
        Err(Leaves::Finishes)
    }
}

/// A trap at a line.
pub fn trap(kind: TrapKind, line: u32) -> Leaves
    ensures { result ≡ leaves.Ends (end.Trap (record { kind = kind; line = line })) }
{
    Leaves::Ends(BodyEnd::Trap(Trap { kind, line }))
}

/// The first of some words, and 0 where there is none.
pub fn first_word(words: &Words) -> i64
    ensures { result ≡ first_word words.now }
{
    match words.get(0) {
        Some(word) => word,
        None => 0,
    }
}

/// So many zeros.
fn zeros(alloc: Global, words: usize) -> Result<Holds, NoMemory>
    ensures { IfOk result (λ h. arg_seen h ≡ Know (zeros words)) }
{
    if words == 1 {
        return Ok(Holds::Word(0, false));
    }
    let mut all = Words::new(alloc);
    for done in 0..words {
        all.push(0)?;
    }
    let all = shared(alloc, all)?;
    Ok(Holds::Words(all, false))
}

/// What is passed on as it stands.
fn copied(holds: &Holds) -> Result<Holds, NoMemory>
    ensures { IfOk result (λ h. item_seen h ≡ item_of (arg_seen holds.now)) }
{
    match holds {
        Holds::Word(word, _) => Ok(Holds::Word(*word, false)),
        Holds::Words(words, _) => Ok(Holds::Words(words.clone()?, false)),
        Holds::Trapped(trap) => Ok(Holds::Trapped(*trap)),
        Holds::Unknown => Ok(Holds::Unknown),
    }
}

/// The word of an object, by its place among those that a body creates.
fn object_word(number: u32, place: usize) -> i64
    requires number { number < 2 ^ 31 }
    requires place { place < 2 ^ 32 }
    ensures { result ≡ object_word number place }
{
    number as i64 * 4294967296 + place as i64
}

/// The result that a body gives.
fn given(alloc: Global, item: Holds) -> Result<BodyResult, NoMemory>
    ensures { IfOk result (λ r. r ≡ result_of (arg_seen item)) }
{
    match item {
        Holds::Word(word, _) => {
            let mut words = Words::new(alloc);
            words.push(word)?;
            Ok(BodyResult::Known(Known::Value(words)))
        }
        Holds::Words(words, _) => Ok(BodyResult::Known(Known::Value(owned(words)?))),
        Holds::Trapped(trap) => Ok(BodyResult::Known(Known::Trapped(trap))),
        Holds::Unknown => Ok(BodyResult::Unknown),
    }
}
