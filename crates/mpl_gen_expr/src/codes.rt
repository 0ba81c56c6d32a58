//! Code that is being written.

ghost use Rattle.std.specs.Prelude.{◌≡◌, [], OnOk, OnErr, IfOk};
ghost use Rattle.mdf_code.specs.declared.instr.Instr.TheVariants as instr;
ghost use Rattle.mpl_mean.specs.Laws.Sizes.{Every};
ghost use Rattle.mpl_gen_code.specs.Pieces.{one};
ghost use Rattle.mpl_gen_expr.specs.Drafts.{InstrFits, drafted};
ghost use Rattle.mpl_gen_expr.specs.Texts.{place, placed, written};

use crate::draft::{Draft, encoded};
use mdf_code::CodeText;
use mpl_value::NoMemory;
use std::alloc::Global;
use std::marker::Model;

/// The instructions of a body so far.
#[derive(Drop)]
pub struct Codes {
    list: Vec<Draft>,
}

impl Model for Codes {
    ghost use Rattle.std.specs.Prelude.{map};
    ghost use Rattle.mpl_gen_expr.specs.Drafts.{drafted};
    ghost use Rattle.mpl_gen_expr.specs.Texts.{Text, text_code};

    ghost Value = { Text };

    ghost coded = { text_code };

    ghost view = { λ c. record { base = 0; code = map drafted c.list.items } };
}

impl Codes {
    /// No instruction, which takes no memory.
    pub fn new(alloc: Global) -> Codes
        ensures { result ≡ record { base = 0; code = [] } }
    {
        Codes {
            list: Vec::new(alloc),
        }
    }

    /// The place of the next instruction.
    #[tactic(auto, unfolding(crate::specs::Texts::place))]
    pub fn place(&self) -> usize
        ensures { result ≡ place self.now }
    {
        self.list.len()
    }

    /// One more instruction, at the end.
    #[tactic(auto, unfolding(crate::specs::Texts::written))]
    pub fn push(&mut self, instruction: Draft) -> Result<(), NoMemory>
        ensures ok { OnOk result (self.new ≡ written (one (drafted instruction)) self.old) }
        ensures err { OnErr result (self.new ≡ self.old) }
    {
        self.list.push(instruction)?;
        Ok(())
    }

    /// A jump where the word is 0, whose target is still to be said. Answers its place.
    pub fn branch(&mut self) -> Result<usize, NoMemory>
        ensures place { IfOk result (λ at. at ≡ place self.old) }
        ensures code { OnOk result (self.new ≡ written (one (instr.JumpZero 0)) self.old) }
    {
        let at = self.place();
        self.push(Draft::JumpZero(0))?;
        Ok(at)
    }

    /// The end of what is passed over where the word is 0: a jump, whose target is still to be said. Answers its place.
    pub fn otherwise(&mut self, at: usize) -> Result<usize, NoMemory>
        ensures place { IfOk result (λ end. end ≡ place self.old) }
        ensures code { OnOk result (self.new ≡ placed at (instr.JumpZero (place (written (one (instr.Jump 0)) self.old))) (written (one (instr.Jump 0)) self.old)) }
    {
        let end = self.place();
        self.push(Draft::Jump(0))?;
        self.land_zero(at);
        Ok(end)
    }

    /// A jump where the word is 0 leads here.
    #[tactic(auto, using(crate::proofs::Texts::set_past, crate::proofs::Texts::set_drafted), unfolding(crate::specs::Texts::placed))]
    pub fn land_zero(&mut self, at: usize)
        ensures { self.new ≡ placed at (instr.JumpZero (place self.old)) self.old }
    {
        let here = self.place();
        if at < self.list.len() {
            put(&mut self.list[at], Draft::JumpZero(here));
        }
    }

    /// A jump leads here.
    #[tactic(auto, using(crate::proofs::Texts::set_past, crate::proofs::Texts::set_drafted), unfolding(crate::specs::Texts::placed))]
    pub fn land(&mut self, at: usize)
        ensures { self.new ≡ placed at (instr.Jump (place self.old)) self.old }
    {
        let here = self.place();
        if at < self.list.len() {
            put(&mut self.list[at], Draft::Jump(here));
        }
    }

    /// The instructions alone.
    pub fn into_text(self, alloc: Global) -> Result<CodeText, NoMemory>
        requires { Every InstrFits self.code }
        ensures { IfOk result (λ text. text ≡ self.code) }
    {
        let mut text = CodeText::new(alloc);
        let Codes { list } = self;
        for instruction in list {
            text.push(encoded(instruction))?;
        }
        Ok(text)
    }
}

fn put(slot: &mut Draft, instruction: Draft)
    ensures { slot.new ≡ instruction }
{
    *slot = instruction;
}
