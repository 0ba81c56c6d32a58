ghost use Rattle.std.specs.Prelude.{◌≡◌, ◌+◌};
ghost use Rattle.mpl_value.specs.declared.body.Arg.{Arg};
ghost use Rattle.mdf_code.specs.declared.instr.Instr.TheVariants as instr;
ghost use Rattle.mdf_code.specs.Steps.{compares, computes};
ghost use Rattle.mdf_vm.specs.Internal.Guarded.{GoesIf, GuardDid, Looks, guard_at};
ghost use Rattle.mdf_vm.specs.Internal.Operations.{comparison_of, operation_of};
ghost use Rattle.std.specs.Prelude.{ℕ};

use crate::arithmetic::word_of;
use crate::operation::{Comparison, Operation};
use crate::short_stack::ShortStack;
use mpl_value::neg;

/// A guard between two instructions. Each instruction answers whether the guard goes on.
#[derive(Drop)]
pub struct Guarding {
    pub place: usize,
    pub words: ShortStack,
}

impl Guarding {
    pub fn push(&mut self, next: usize, word: &i64) -> bool
        requires { next ≡ self.old.place + 1 }
        ensures { (looks : Looks) → GuardDid looks (instr.Push word.now) self.old result self.new }
    {
        if self.words.room() == 0 {
            return false;
        }
        self.words.push(word);
        self.place = next;
        true
    }

    pub fn drop_words(&mut self, next: usize, count: u32) -> bool
        requires { next ≡ self.old.place + 1 }
        ensures { (looks : Looks) → GuardDid looks (instr.Drop count) self.old result self.new }
    {
        if count as usize > self.words.len() {
            return false;
        }
        self.words.shorten(count as usize);
        self.place = next;
        true
    }

    pub fn compute(&mut self, next: usize, operation: Operation) -> bool
        requires { next ≡ self.old.place + 1 }
        ensures { (looks : Looks) (line : ℕ) → GoesIf result (computes (operation_of operation) line (guard_at looks self.old)) (guard_at looks self.old) (guard_at looks self.new) }
    {
        let Some(b) = self.words.pop() else {
            return false;
        };
        let Some(a) = self.words.pop() else {
            return false;
        };
        match operation.apply(a, b) {
            Err(_) => false,
            Ok(word) => {
                self.words.push(&word);
                self.place = next;
                true
            }
        }
    }

    pub fn compare(&mut self, next: usize, comparison: Comparison) -> bool
        requires { next ≡ self.old.place + 1 }
        ensures { (looks : Looks) → GoesIf result (compares (comparison_of comparison) (guard_at looks self.old)) (guard_at looks self.old) (guard_at looks self.new) }
    {
        let Some(b) = self.words.pop() else {
            return false;
        };
        let Some(a) = self.words.pop() else {
            return false;
        };
        let word = word_of(comparison.holds(a, b));
        self.words.push(&word);
        self.place = next;
        true
    }

    pub fn negate(&mut self, next: usize) -> bool
        requires { next ≡ self.old.place + 1 }
        ensures { (looks : Looks) (line : ℕ) → GuardDid looks (instr.Neg line) self.old result self.new }
    {
        let Some(a) = self.words.pop() else {
            return false;
        };
        match neg(a) {
            Err(_) => false,
            Ok(word) => {
                self.words.push(&word);
                self.place = next;
                true
            }
        }
    }

    pub fn invert(&mut self, next: usize) -> bool
        requires { next ≡ self.old.place + 1 }
        ensures { (looks : Looks) → GuardDid looks (instr.Not) self.old result self.new }
    {
        let Some(a) = self.words.pop() else {
            return false;
        };
        let word = word_of(a == 0);
        self.words.push(&word);
        self.place = next;
        true
    }
}
