ghost use Rattle.std.specs.Prelude.{◌≡◌, ◌+◌, ◌<◌, IfOk, OnErr, ℕ, ℤ};
ghost use Rattle.mpl_value.specs.declared.body.Arg.{Arg};
ghost use Rattle.mdf_code.specs.Frames as frames;
ghost use Rattle.mdf_code.specs.declared.instr.Instr.TheVariants as instr;
ghost use Rattle.mdf_vm.specs.Internal.Moves.{Did};
ghost use Rattle.mdf_vm.specs.Runnings.{frame_of};
ghost use Rattle.mdf_vm.specs.Results.{knows_of};

use crate::code::{function_of, is_place};
use crate::moves::{Halted, Move, STRAY, trap};
use crate::running::Running;
use mdf_code::RawImage;
use mpl_value::TrapKind;

impl Running {
    pub fn jump(&mut self, image: &RawImage, place: u32) -> Move
        ensures { (knows : ℕ → Arg) (object : ℤ) → Did knows (record { image = image.now; object = object }) (instr.Jump place) self.old result self.new }
    {
        if !is_place(image, self.code, place) {
            return STRAY;
        }
        self.place = place as usize;
        Move::Goes
    }

    pub fn jump_zero(&mut self, next: usize, image: &RawImage, place: u32) -> Move
        requires { next ≡ self.old.place + 1 }
        ensures { (knows : ℕ → Arg) (object : ℤ) → Did knows (record { image = image.now; object = object }) (instr.JumpZero place) self.old result self.new }
    {
        if !is_place(image, self.code, place) {
            return STRAY;
        }
        let Some(word) = self.words.below(0) else {
            return STRAY;
        };
        self.words.shorten(1);
        if word == 0 {
            self.place = place as usize;
            return Move::Goes;
        }
        self.place = next;
        Move::Goes
    }

    pub fn test(&mut self, next: usize) -> Move
        requires { next ≡ self.old.place + 1 }
        ensures { (knows : ℕ → Arg) (x : frames.Around) → Did knows x (instr.Test) self.old result self.new }
    {
        self.place = next;
        Move::Spends
    }

    pub fn end(&self, line: u32) -> Move
        ensures { (knows : ℕ → Arg) (x : frames.Around) → Did knows x (instr.End line) self.now result self.now }
    {
        Move::Stops(Halted::End(line))
    }

    pub fn fail(&self, image: &RawImage, line: u32) -> Move
        ensures { (knows : ℕ → Arg) (object : ℤ) → Did knows (record { image = image.now; object = object }) (instr.Fail line) self.now result self.now }
    {
        match function_of(image, self.code) {
            None => STRAY,
            Some(_) => trap(TrapKind::NoReply, line),
        }
    }
}
