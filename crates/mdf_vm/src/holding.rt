ghost use Rattle.std.specs.Prelude.{◌≡◌, ◌+◌, ◌<◌, IfOk, OnErr, ℕ, ℤ};
ghost use Rattle.mpl_value.specs.declared.body.Arg.{Arg};
ghost use Rattle.mdf_code.specs.Frames as frames;
ghost use Rattle.mdf_code.specs.declared.instr.Instr.TheVariants as instr;
ghost use Rattle.mdf_vm.specs.Internal.Moves.{Did};
ghost use Rattle.mdf_vm.specs.Runnings.{frame_of};
ghost use Rattle.mdf_vm.specs.Results.{knows_of};

use crate::code::size_of;
use crate::held::{Held, Sight};
use crate::moves::{Halted, Move, STRAY};
use crate::results::Results;
use crate::running::Running;
use mdf_code::RawImage;
use mpl_value::NoMemory;

impl Running {
    /// A variable of zeros.
    pub fn zero(&mut self, next: usize, image: &RawImage, variable: u32) -> Result<Move, NoMemory>
        requires { next ≡ self.old.place + 1 }
        ensures ok { IfOk result (λ move. (knows : ℕ → Arg) (object : ℤ) → Did knows (record { image = image.now; object = object }) (instr.Zero variable) self.old move self.new) }
        ensures err { OnErr result (frame_of self.new ≡ frame_of self.old) }
    {
        let Some(size) = size_of(image, self.code, variable) else {
            return Ok(STRAY);
        };
        if !self.variables.has(variable) {
            return Ok(STRAY);
        }
        let zeros = Held::zeros(self.alloc, size)?;
        self.variables.put(variable, &zeros)?;
        self.place = next;
        Ok(Move::Goes)
    }

    /// A variable holds what another holds.
    pub fn copy(
        &mut self,
        next: usize,
        image: &RawImage,
        variable: u32,
        source: u32,
    ) -> Result<Move, NoMemory>
        requires { next ≡ self.old.place + 1 }
        ensures ok { IfOk result (λ move. (knows : ℕ → Arg) (object : ℤ) → Did knows (record { image = image.now; object = object }) (instr.Copy variable source) self.old move self.new) }
        ensures err { OnErr result (frame_of self.new ≡ frame_of self.old) }
    {
        let Some(size) = size_of(image, self.code, variable) else {
            return Ok(STRAY);
        };
        let Some(same) = size_of(image, self.code, source) else {
            return Ok(STRAY);
        };
        if same != size {
            return Ok(STRAY);
        }
        let Some(held) = self.variables.get(source) else {
            return Ok(STRAY);
        };
        let copy = held.copy(self.alloc)?;
        if !self.variables.has(variable) {
            return Ok(STRAY);
        }
        self.variables.put(variable, &copy)?;
        self.place = next;
        Ok(Move::Goes)
    }

    pub fn need(&mut self, next: usize, results: &Results, variable: u32) -> Move
        requires { next ≡ self.old.place + 1 }
        ensures { (x : frames.Around) → Did (knows_of results.now) x (instr.Need variable) self.old result self.new }
    {
        let Some(held) = self.variables.get(variable) else {
            return STRAY;
        };
        match held.sight(results) {
            Sight::Known => {
                self.place = next;
                Move::Goes
            }
            Sight::Trapped(trap) => Move::Stops(Halted::Trap(trap)),
            Sight::Unknown(result) => Move::Stops(Halted::Need(result)),
        }
    }
}
