ghost use Rattle.std.specs.Prelude.{◌≡◌, ◌+◌, ◌<◌, IfOk, OnErr, ℕ, ℤ};
ghost use Rattle.mpl_value.specs.declared.body.Arg.{Arg};
ghost use Rattle.mdf_code.specs.Frames as frames;
ghost use Rattle.mdf_code.specs.declared.instr.Instr.TheVariants as instr;
ghost use Rattle.mdf_vm.specs.Internal.Moves.{Did};
ghost use Rattle.mdf_vm.specs.Runnings.{frame_of};
ghost use Rattle.mdf_vm.specs.Results.{knows_of};
ghost use Rattle.mpl_value.specs.Words.{bool_word};
ghost use Rattle.mdf_code.specs.Steps.{compares, computes, or_strays};
ghost use Rattle.mdf_vm.specs.Internal.Moves.{next_of};
ghost use Rattle.mdf_vm.specs.Internal.Operations.{comparison_of, operation_of};

use crate::moves::{Move, STRAY, trap};
use crate::operation::{Comparison, Operation};
use crate::running::Running;
use mpl_value::{TrapKind, neg};

impl Running {
    pub fn compute(&mut self, next: usize, operation: Operation, line: u32) -> Move
        requires { next ≡ self.old.place + 1 }
        ensures { or_strays (frame_of self.old) (computes (operation_of operation) line (frame_of self.old)) ≡ next_of result (frame_of self.new) }
    {
        let Some(b) = self.words.below(0) else {
            return STRAY;
        };
        let Some(a) = self.words.below(1) else {
            return STRAY;
        };
        match operation.apply(a, b) {
            Err(kind) => trap(kind, line),
            Ok(word) => {
                self.words.replace(2, word);
                self.place = next;
                Move::Goes
            }
        }
    }

    pub fn compare(&mut self, next: usize, comparison: Comparison) -> Move
        requires { next ≡ self.old.place + 1 }
        ensures { or_strays (frame_of self.old) (compares (comparison_of comparison) (frame_of self.old)) ≡ next_of result (frame_of self.new) }
    {
        let Some(b) = self.words.below(0) else {
            return STRAY;
        };
        let Some(a) = self.words.below(1) else {
            return STRAY;
        };
        let holds = comparison.holds(a, b);
        self.words.replace(2, word_of(holds));
        self.place = next;
        Move::Goes
    }

    pub fn negate(&mut self, next: usize, line: u32) -> Move
        requires { next ≡ self.old.place + 1 }
        ensures { (knows : ℕ → Arg) (x : frames.Around) → Did knows x (instr.Neg line) self.old result self.new }
    {
        let Some(a) = self.words.below(0) else {
            return STRAY;
        };
        match neg(a) {
            Err(kind) => trap(kind, line),
            Ok(word) => {
                self.words.replace(1, word);
                self.place = next;
                Move::Goes
            }
        }
    }

    pub fn invert(&mut self, next: usize) -> Move
        requires { next ≡ self.old.place + 1 }
        ensures { (knows : ℕ → Arg) (x : frames.Around) → Did knows x (instr.Not) self.old result self.new }
    {
        let Some(a) = self.words.below(0) else {
            return STRAY;
        };
        self.words.replace(1, word_of(a == 0));
        self.place = next;
        Move::Goes
    }

    /// The word of an object, which is not 0.
    pub fn bound(&mut self, next: usize, line: u32) -> Move
        requires { next ≡ self.old.place + 1 }
        ensures { (knows : ℕ → Arg) (x : frames.Around) → Did knows x (instr.Bound line) self.old result self.new }
    {
        let Some(object) = self.words.below(0) else {
            return STRAY;
        };
        if object == 0 {
            return trap(TrapKind::Unbound, line);
        }
        self.place = next;
        Move::Goes
    }
}

#[inline(always)]
pub fn word_of(truth: bool) -> i64
    ensures { result ≡ bool_word truth }
{
    if truth { 1 } else { 0 }
}
