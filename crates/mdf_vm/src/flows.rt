ghost use Rattle.std.specs.Prelude.{◌≡◌, ◌+◌, ◌<◌, IfOk, OnErr, ℕ, ℤ};
ghost use Rattle.mpl_value.specs.declared.body.Arg.{Arg};
ghost use Rattle.mdf_code.specs.Frames as frames;
ghost use Rattle.mdf_code.specs.declared.instr.Instr.TheVariants as instr;
ghost use Rattle.mdf_vm.specs.Internal.Moves.{Did};
ghost use Rattle.mdf_vm.specs.Runnings.{frame_of};
ghost use Rattle.mdf_vm.specs.Results.{knows_of};

use crate::code::{given_words, has_object, is_main, may_post, size_of};
use crate::held::{Held, Sight};
use crate::moves::{Halted, Move, STRAY, trap};
use crate::results::{Results, Setting};
use crate::running::{Flow, Running};
use mdf_code::RawImage;
use mpl_value::{NoMemory, TrapKind, Words};

impl Running {
    /// The word of the body's object.
    pub fn own(
        &mut self,
        next: usize,
        image: &RawImage,
        setting: &Setting,
    ) -> Result<Move, NoMemory>
        requires { next ≡ self.old.place + 1 }
        ensures ok { IfOk result (λ move. (knows : ℕ → Arg) → Did knows (record { image = image.now; object = setting.now.object }) (instr.Own) self.old move self.new) }
        ensures err { OnErr result (frame_of self.new ≡ frame_of self.old) }
    {
        if !has_object(image, self.code) {
            return Ok(STRAY);
        }
        self.words.push(setting.object)?;
        self.place = next;
        Ok(Move::Goes)
    }

    /// So many words become a flow value.
    pub fn arg_words(&mut self, next: usize, count: u32) -> Result<Move, NoMemory>
        requires { next ≡ self.old.place + 1 }
        ensures ok { IfOk result (λ move. (knows : ℕ → Arg) (x : frames.Around) → Did knows x (instr.ArgWords count) self.old move self.new) }
        ensures err { OnErr result (frame_of self.new ≡ frame_of self.old) }
    {
        let Some(words) = self.words.last(count as usize) else {
            return Ok(STRAY);
        };
        let value = Held::of_words(Words::from_slice(self.alloc, words)?);
        self.flows.push(Flow::new(value, count))?;
        self.words.shorten(count as usize);
        self.place = next;
        Ok(Move::Goes)
    }

    /// A variable's value as a flow value.
    pub fn arg_variable(
        &mut self,
        next: usize,
        image: &RawImage,
        variable: u32,
    ) -> Result<Move, NoMemory>
        requires { next ≡ self.old.place + 1 }
        ensures ok { IfOk result (λ move. (knows : ℕ → Arg) (object : ℤ) → Did knows (record { image = image.now; object = object }) (instr.ArgVariable variable) self.old move self.new) }
        ensures err { OnErr result (frame_of self.new ≡ frame_of self.old) }
    {
        let Some(size) = size_of(image, self.code, variable) else {
            return Ok(STRAY);
        };
        let Some(held) = self.variables.get(variable) else {
            return Ok(STRAY);
        };
        let value = held.copy(self.alloc)?;
        self.flows.push(Flow::new(value, size))?;
        self.place = next;
        Ok(Move::Goes)
    }

    /// A flow value into a variable.
    pub fn set_variable(
        &mut self,
        next: usize,
        image: &RawImage,
        variable: u32,
    ) -> Result<Move, NoMemory>
        requires { next ≡ self.old.place + 1 }
        ensures ok { IfOk result (λ move. (knows : ℕ → Arg) (object : ℤ) → Did knows (record { image = image.now; object = object }) (instr.SetVariable variable) self.old move self.new) }
        ensures err { OnErr result (frame_of self.new ≡ frame_of self.old) }
    {
        let Some(top) = self.flows.top() else {
            return Ok(STRAY);
        };
        let Some(size) = size_of(image, self.code, variable) else {
            return Ok(STRAY);
        };
        if top.size() != size || !self.variables.has(variable) {
            return Ok(STRAY);
        }
        self.variables.put(variable, top.value())?;
        self.flows.shorten(1);
        self.place = next;
        Ok(Move::Goes)
    }

    pub fn drop_flow(&mut self, next: usize) -> Move
        requires { next ≡ self.old.place + 1 }
        ensures { (knows : ℕ → Arg) (x : frames.Around) → Did knows x (instr.DropFlow) self.old result self.new }
    {
        let Some(_flow) = self.flows.top() else {
            return STRAY;
        };
        self.flows.shorten(1);
        self.place = next;
        Move::Goes
    }

    /// The words of a flow value, which is needed.
    pub fn force(&mut self, next: usize, results: &Results) -> Result<Move, NoMemory>
        requires { next ≡ self.old.place + 1 }
        ensures ok { IfOk result (λ move. (x : frames.Around) → Did (knows_of results.now) x (instr.Force) self.old move self.new) }
        ensures err { OnErr result (frame_of self.new ≡ frame_of self.old) }
    {
        let Some(flow) = self.flows.top() else {
            return Ok(STRAY);
        };
        let value = flow.value();
        match value.sight(results) {
            Sight::Trapped(trap) => Ok(Move::Stops(Halted::Trap(trap))),
            Sight::Unknown(result) => Ok(Move::Stops(Halted::Need(result))),
            Sight::Known => {
                let Some(words) = value.words(results) else {
                    unreachable!()
                };
                self.words.extend(words)?;
                self.flows.shorten(1);
                self.place = next;
                Ok(Move::Goes)
            }
        }
    }

    /// A new object of a class.
    pub fn create(&mut self, next: usize, image: &RawImage, class: u32) -> Move
        requires { next ≡ self.old.place + 1 }
        ensures { (knows : ℕ → Arg) (object : ℤ) → Did knows (record { image = image.now; object = object }) (instr.Create class) self.old result self.new }
    {
        if !may_post(image, self.code) {
            return STRAY;
        }
        let Some(kind) = image.classes.get(class as usize) else {
            return STRAY;
        };
        if kind.regular {
            return STRAY;
        }
        self.place = next;
        Move::Stops(Halted::Create(class))
    }

    /// The body's result.
    pub fn reply(&mut self, next: usize, image: &RawImage, line: u32) -> Move
        requires { next ≡ self.old.place + 1 }
        ensures { (knows : ℕ → Arg) (object : ℤ) → Did knows (record { image = image.now; object = object }) (instr.Reply line) self.old result self.new }
    {
        let Some(words) = given_words(image, self.code) else {
            return STRAY;
        };
        let Some(top) = self.flows.top() else {
            return STRAY;
        };
        if top.size() != words {
            return STRAY;
        }
        if self.replied {
            return trap(TrapKind::Twice, line);
        }
        let Some(flow) = self.flows.pop() else {
            unreachable!()
        };
        self.place = next;
        self.replied = true;
        Move::Stops(Halted::Reply(flow.into_value()))
    }

    /// A number of the input.
    pub fn input(&mut self, next: usize, line: u32) -> Result<Move, NoMemory>
        requires { next ≡ self.old.place + 1 }
        ensures ok { IfOk result (λ move. (knows : ℕ → Arg) (x : frames.Around) → Did knows x (instr.Input line) self.old move self.new) }
        ensures err { OnErr result (frame_of self.new ≡ frame_of self.old) }
    {
        if !is_main(self.code) {
            return Ok(STRAY);
        }
        let Some(number) = self.input.next() else {
            return Ok(trap(TrapKind::NoInput, line));
        };
        self.words.push(number)?;
        self.input.skip();
        self.place = next;
        Ok(Move::Goes)
    }
}
