ghost use Rattle.std.specs.Prelude.{◌≡◌, ◌+◌, ◌<◌, IfOk, OnErr, ℕ, ℤ};
ghost use Rattle.mpl_value.specs.declared.body.Arg.{Arg};
ghost use Rattle.mdf_code.specs.Frames as frames;
ghost use Rattle.mdf_code.specs.declared.instr.Instr.TheVariants as instr;
ghost use Rattle.mdf_vm.specs.Internal.Moves.{Did};
ghost use Rattle.mdf_vm.specs.Runnings.{frame_of};
ghost use Rattle.mdf_vm.specs.Results.{knows_of};
ghost use Rattle.mdf_code.specs.Frames as frames;

use crate::code::has_object;
use crate::moves::{Move, STRAY, trap};
use crate::running::Running;
use crate::words::{index_within, read, read_one};
use mdf_code::RawImage;
use mpl_value::{NoMemory, TrapKind};

impl Running {
    pub fn fetch(
        &mut self,
        next: usize,
        image: &RawImage,
        offset: u32,
        count: u32,
    ) -> Result<Move, NoMemory>
        requires { next ≡ self.old.place + 1 }
        ensures ok { IfOk result (λ move. (knows : ℕ → Arg) (object : ℤ) → Did knows record { image = image.now; object = object } (instr.Fetch offset count) self.old move self.new) }
        ensures err { OnErr result (frame_of self.new ≡ frame_of self.old) }
    {
        if !has_object(image, self.code) {
            return Ok(STRAY);
        }
        let Some(words) = read(self.state.as_slice(), offset, count) else {
            return Ok(STRAY);
        };
        self.words.extend(words)?;
        self.place = next;
        Ok(Move::Goes)
    }

    pub fn keep(&mut self, next: usize, image: &RawImage, offset: u32, count: u32) -> Move
        requires { next ≡ self.old.place + 1 }
        ensures { (knows : ℕ → Arg) (object : ℤ) → Did knows record { image = image.now; object = object } (instr.Keep offset count) self.old result self.new }
    {
        if !has_object(image, self.code) {
            return STRAY;
        }
        let Some(words) = self.words.last(count as usize) else {
            return STRAY;
        };
        if offset as usize + words.len() > self.state.len() {
            return STRAY;
        }
        self.state.write(offset as usize, words);
        self.words.shorten(count as usize);
        self.place = next;
        Move::Goes
    }

    pub fn fetch_indexed(
        &mut self,
        next: usize,
        image: &RawImage,
        offset: u32,
        count: u32,
        line: u32,
    ) -> Move
        requires { next ≡ self.old.place + 1 }
        ensures { (knows : ℕ → Arg) (object : ℤ) → Did knows record { image = image.now; object = object } (instr.FetchIndexed offset count line) self.old result self.new }
    {
        if !has_object(image, self.code) {
            return STRAY;
        }
        let Some(array) = read(self.state.as_slice(), offset, count) else {
            return STRAY;
        };
        let Some(index) = self.words.below(0) else {
            return STRAY;
        };
        let Some(place) = index_within(count, index) else {
            return trap(TrapKind::Index, line);
        };
        let Some(word) = read_one(array, place) else {
            return STRAY;
        };
        self.words.replace(1, word);
        self.place = next;
        Move::Goes
    }

    pub fn keep_indexed(
        &mut self,
        next: usize,
        image: &RawImage,
        offset: u32,
        count: u32,
        line: u32,
    ) -> Move
        requires { next ≡ self.old.place + 1 }
        ensures { (knows : ℕ → Arg) (object : ℤ) → Did knows record { image = image.now; object = object } (instr.KeepIndexed offset count line) self.old result self.new }
    {
        if !has_object(image, self.code) {
            return STRAY;
        }
        let Some(_array) = read(self.state.as_slice(), offset, count) else {
            return STRAY;
        };
        let Some(index) = self.words.below(0) else {
            return STRAY;
        };
        let Some(word) = self.words.below(1) else {
            return STRAY;
        };
        let Some(place) = index_within(count, index) else {
            return trap(TrapKind::Index, line);
        };
        self.state.write(offset as usize + place as usize, &[word]);
        self.words.shorten(2);
        self.place = next;
        Move::Goes
    }
}
