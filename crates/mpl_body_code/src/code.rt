ghost use Rattle.std.specs.Prelude.{◌≡◌, [], ◌∷◌, ◌++◌, ◌<◌, ◌^◌, length, slice_get, true, IfSome, OnOk};
ghost use Rattle.std.specs.Option.{option_copied};
ghost use Rattle.mpl_body_code.specs.Runnable.{numbers_fit};

use crate::instruction::Instruction;
use mpl_value::NoMemory;
use std::alloc::Global;
use std::marker::Model;

/// Instructions, one after another.
#[derive(Drop)]
pub struct Code {
    list: Vec<Instruction>,
}

impl Model for Code {
    ghost use Rattle.std.specs.Prelude.{◌≡◌, true, List};
    ghost use Rattle.mpl_body_code.specs.Runnable.{is_runnable};
    ghost use Rattle.mpl_body_code.specs.declared.instruction.Instruction.{Instruction};

    ghost Value = { List Instruction };

    ghost view = { λ c. c.list.items };

    ghost invariant = { λ c. is_runnable c.list.items ≡ true };
}

impl Code {
    /// No instruction, which takes no memory.
    pub fn new(alloc: Global) -> Code
        ensures { result ≡ [] }
    {
        Code {
            list: Vec::new(alloc),
        }
    }

    pub fn len(&self) -> usize
        ensures is { result ≡ length self.now }
        ensures few { result < 2 ^ 63 }
    {
        self.list.len()
    }

    /// One more instruction, at the end.
    #[tactic(auto, using(crate::proofs::RunnableCode::pushed_runnable))]
    pub fn push(&mut self, instruction: Instruction) -> Result<(), NoMemory>
        requires { numbers_fit instruction ≡ true }
        ensures { OnOk result (self.new ≡ self.old ++ instruction ∷ []) }
    {
        self.list.push(instruction)?;
        Ok(())
    }

    /// More code, at the end.
    #[tactic(auto, using(crate::proofs::RunnableCode::appended_runnable))]
    pub fn append(&mut self, more: &Code) -> Result<(), NoMemory>
        ensures { OnOk result (self.new ≡ self.old ++ more.now) }
    {
        self.list.extend_from_slice(more.list.as_slice())?;
        Ok(())
    }

    #[inline(always)]
    #[tactic(auto, using(crate::proofs::RunnableCode::got_runnable))]
    pub fn get(&self, place: usize) -> Option<&Instruction>
        ensures is { option_copied result ≡ slice_get self.now place }
        ensures fits { IfSome result (λ i. (numbers_fit i.now ≡ true) × (place < 2 ^ 63)) }
    {
        self.list.get(place)
    }
}
