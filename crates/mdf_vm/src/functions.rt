ghost use Rattle.std.specs.Prelude.{◌≡◌, ◌+◌, ◌<◌, IfOk, OnErr, ℕ, ℤ};
ghost use Rattle.mpl_value.specs.declared.body.Arg.{Arg};
ghost use Rattle.mdf_code.specs.Frames as frames;
ghost use Rattle.mdf_code.specs.declared.instr.Instr.TheVariants as instr;
ghost use Rattle.mdf_vm.specs.Internal.Moves.{Did};
ghost use Rattle.mdf_vm.specs.Runnings.{frame_of};
ghost use Rattle.std.specs.Prelude.{◌≤◌, length, map, sum, take, drop, Some, None, MatchOption, IfSome};
ghost use Rattle.mdf_code.specs.Alone as alone;
ghost use Rattle.mdf_code.specs.Parts.{variables_holding};
ghost use Rattle.mdf_code.specs.Stacks.{popped_all};
ghost use Rattle.std.specs.Prelude.{[], ◌∷◌};
ghost use Rattle.mdf_vm.specs.Places.{code_of};

use crate::calls::first;
use crate::code::{CodeKind, function_of};
use crate::moves::{Move, STRAY};
use crate::running::{Caller, Running};
use crate::stack::Stack;
use crate::variables::Variables;
use crate::word_stack::WordStack;
use mdf_code::RawImage;
use mpl_value::NoMemory;
use std::mem;

impl Running {
    /// A plain function, with a turn.
    pub fn call(&mut self, next: usize, image: &RawImage, function: u32) -> Result<Move, NoMemory>
        requires { next ≡ self.old.place + 1 }
        ensures ok { IfOk result (λ move. (knows : ℕ → Arg) (object : ℤ) → Did knows (record { image = image.now; object = object }) (instr.Call function) self.old move self.new) }
        ensures err { OnErr result (frame_of self.new ≡ frame_of self.old) }
    {
        let Some(called) = image.functions.get(function as usize) else {
            return Ok(STRAY);
        };
        let sizes = called.body.vars.as_slice();
        let Some(words) = last_of(&self.words, first(sizes, called.formals)) else {
            return Ok(STRAY);
        };
        let variables = Variables::holding(self.alloc, called.formals, sizes, words)?;
        let count = words.len();
        self.callers.push(Caller::none(self.alloc))?;
        self.words.shorten(count);
        self.enter(next, function, variables);
        Ok(Move::Spends)
    }

    /// The frame stands in a plain function, and its caller takes the room that was made.
    fn enter(&mut self, next: usize, function: u32, variables: Variables)
        requires { 1 ≤ length self.old.callers }
        ensures { frame_of self.new ≡ record (frame_of self.old) { code = frames.InFunction function; place = 0; words = []; flows = []; variables = variables; callers = record { code = code_of self.old.code; place = next; words = self.old.words; flows = self.old.flows; variables = self.old.variables } ∷ drop 1 self.old.callers } }
    {
        let caller = Caller {
            code: self.code,
            place: next,
            words: mem::replace(&mut self.words, WordStack::new(self.alloc)),
            flows: mem::replace(&mut self.flows, Stack::new(self.alloc)),
            variables: mem::replace(&mut self.variables, variables),
        };
        self.callers.replace(1, caller);
        self.code = CodeKind::Function(function);
        self.place = 0;
    }

    /// So many words for the caller.
    pub fn hand_back(&mut self, image: &RawImage, count: u32) -> Result<Move, NoMemory>
        ensures ok { IfOk result (λ move. (knows : ℕ → Arg) (object : ℤ) → Did knows (record { image = image.now; object = object }) (instr.Return count) self.old move self.new) }
        ensures err { OnErr result (frame_of self.new ≡ frame_of self.old) }
    {
        let Some(function) = function_of(image, self.code) else {
            return Ok(STRAY);
        };
        if function.result != count {
            return Ok(STRAY);
        }
        let Some(words) = self.words.last(count as usize) else {
            return Ok(STRAY);
        };
        if !self.callers.hand(words)? {
            return Ok(STRAY);
        }
        let Some(caller) = self.callers.pop() else {
            unreachable!()
        };
        let Caller {
            code,
            place,
            words,
            flows,
            variables,
        } = caller;
        self.code = code;
        self.place = place;
        self.words = words;
        self.flows = flows;
        self.variables = variables;
        Ok(Move::Goes)
    }
}

/// As many words from the top as these sizes have together.
fn last_of<'a>(words: &'a WordStack, sizes: &[u32]) -> Option<&'a [i64]>
    ensures value { MatchOption result (popped_all (sum sizes.now) words.now ≡ None) (λ items. popped_all (sum sizes.now) words.now ≡ Some (record { items = items.now; below = drop (sum sizes.now) words.now })) }
    ensures all { IfSome result (λ items. length items.now ≡ sum sizes.now) }
    ensures there { IfSome result (λ _. sum sizes.now ≤ length words.now) }
{
    let room = words.len();
    let mut count: usize = 0;
    for size in sizes {
        if *size as usize > room - count {
            return None;
        }
        count += *size as usize;
    }
    words.last(count)
}
