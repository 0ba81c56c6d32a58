ghost use Rattle.std.specs.Prelude.{◌≡◌, ◌+◌, ◌<◌, ◌≤◌, IfOk, OnErr, ℕ, ℤ};
ghost use Rattle.mpl_value.specs.declared.body.Arg.{Arg};
ghost use Rattle.mdf_code.specs.Alone.{framed};
ghost use Rattle.mdf_code.specs.Steps as steps;
ghost use Rattle.mdf_code.specs.Frames.{Around};
ghost use Rattle.mdf_code.specs.Parts.{text_at};
ghost use Rattle.mdf_vm.specs.Internal.Moves.{Did, next_of};
ghost use Rattle.mdf_vm.specs.Internal.Tries.{Came, Tried};
ghost use Rattle.mdf_vm.specs.Places.{code_of};
ghost use Rattle.mdf_vm.specs.Runnings.{frame_of};
ghost use Rattle.mdf_vm.specs.Internal.Turns.{ComesTo, GoesOn, halt_of};
ghost use Rattle.mdf_vm.specs.Results.{knows_of};
ghost use Rattle.mdf_vm.specs.Runs.{RunsTo, Went};

use crate::code::{instruction_at, text_of};
use crate::moves::{Halted, Move, Quick, STRAY};
use crate::operation::{Comparison, Operation};
use crate::results::{Results, Setting};
use crate::running::Running;
use mdf_code::{Image, Instr, RawImage};
use mpl_value::NoMemory;

impl Running {
    /// The instruction where the frame stands, where it is one that comes often and the frame just goes on.
    #[inline(always)]
    fn quick(&mut self, text: &[Instr], results: &Results) -> Quick
        ensures came { (x : Around) → text.now ≡ text_at x.image (code_of self.old.code) → Came (steps.step (framed (knows_of results.now)) x (frame_of self.old)) self.old result self.new }
        ensures code { self.new.code ≡ self.old.code }
    {
        let Some(instruction) = text.get(self.place) else {
            return Quick::Waits;
        };
        let next = self.place + 1;
        self.try_now(next, text, results, instruction)
    }

    #[inline(always)]
    fn try_now(
        &mut self,
        next: usize,
        text: &[Instr],
        results: &Results,
        instruction: &Instr,
    ) -> Quick
        requires { next ≡ self.old.place + 1 }
        ensures did { (x : Around) → text.now ≡ text_at x.image (code_of self.old.code) → Tried (knows_of results.now) x instruction.now self.old result self.new }
        ensures code { self.new.code ≡ self.old.code }
    {
        match instruction {
            Instr::Push(word) => self.try_push(next, word),
            Instr::Load(variable, offset, count) => {
                self.try_load(next, results, *variable, *offset, *count)
            }
            Instr::Store(variable, offset, count) => {
                self.try_store(next, results, *variable, *offset, *count)
            }
            Instr::LoadIndexed(variable, offset, count, _) => self.try_load_indexed(
                next, results, *variable, *offset, *count,
            ),
            Instr::StoreIndexed(variable, offset, count, _) => self.try_store_indexed(
                next, results, *variable, *offset, *count,
            ),
            Instr::Add(_) => self.try_compute(next, Operation::Add),
            Instr::Sub(_) => self.try_compute(next, Operation::Sub),
            Instr::Mul(_) => self.try_compute(next, Operation::Mul),
            Instr::Div(_) => self.try_compute(next, Operation::Div),
            Instr::Rem(_) => self.try_compute(next, Operation::Rem),
            Instr::Equal => self.try_compare(next, Comparison::Equal),
            Instr::NotEqual => self.try_compare(next, Comparison::NotEqual),
            Instr::Less => self.try_compare(next, Comparison::Less),
            Instr::LessEqual => self.try_compare(next, Comparison::LessEqual),
            Instr::Greater => self.try_compare(next, Comparison::Greater),
            Instr::GreaterEqual => self.try_compare(next, Comparison::GreaterEqual),
            Instr::Jump(place) => self.try_jump(text, *place),
            Instr::JumpZero(place) => self.try_jump_zero(next, text, *place),
            Instr::Test => {
                self.place = next;
                Quick::Spends
            }
            _ => Quick::Waits,
        }
    }

    /// The instruction where the frame stands.
    #[inline(never)]
    pub fn step(&mut self, image: &RawImage, setting: &Setting) -> Result<Move, NoMemory>
        ensures ok { IfOk result (λ move. steps.step (framed (knows_of setting.now.results)) (record { image = image.now; object = setting.now.object }) (frame_of self.old) ≡ next_of move (frame_of self.new)) }
        ensures err { OnErr result (frame_of self.new ≡ frame_of self.old) }
    {
        let Some(instruction) = instruction_at(image, self.code, self.place) else {
            return Ok(STRAY);
        };
        let next = self.place + 1;
        self.execute(next, image, setting, instruction)
    }

    fn execute(
        &mut self,
        next: usize,
        image: &RawImage,
        setting: &Setting,
        instruction: &Instr,
    ) -> Result<Move, NoMemory>
        requires { next ≡ self.old.place + 1 }
        ensures ok { IfOk result (λ move. Did (knows_of setting.now.results) (record { image = image.now; object = setting.now.object }) instruction.now self.old move self.new) }
        ensures err { OnErr result (frame_of self.new ≡ frame_of self.old) }
    {
        match instruction {
            Instr::Push(word) => self.push(next, word),
            Instr::Drop(count) => Ok(self.drop_words(next, *count)),
            Instr::Load(variable, offset, count) => self.load(
                next,
                &setting.results,
                *variable,
                *offset,
                *count,
            ),
            Instr::Store(variable, offset, count) => self.store(
                next,
                &setting.results,
                *variable,
                *offset,
                *count,
            ),
            Instr::LoadIndexed(variable, offset, count, line) => Ok(self.load_indexed(
                next,
                &setting.results,
                *variable,
                *offset,
                *count,
                *line,
            )),
            Instr::StoreIndexed(variable, offset, count, line) => self.store_indexed(
                next,
                &setting.results,
                *variable,
                *offset,
                *count,
                *line,
            ),
            Instr::Zero(variable) => self.zero(next, image, *variable),
            Instr::Copy(variable, source) => self.copy(next, image, *variable, *source),
            Instr::Need(variable) => Ok(self.need(next, &setting.results, *variable)),
            Instr::Fetch(offset, count) => self.fetch(next, image, *offset, *count),
            Instr::Keep(offset, count) => Ok(self.keep(next, image, *offset, *count)),
            Instr::FetchIndexed(offset, count, line) => Ok(self.fetch_indexed(
                next, image, *offset, *count, *line,
            )),
            Instr::KeepIndexed(offset, count, line) => Ok(self.keep_indexed(
                next, image, *offset, *count, *line,
            )),
            Instr::Add(line) => Ok(self.compute(next, Operation::Add, *line)),
            Instr::Sub(line) => Ok(self.compute(next, Operation::Sub, *line)),
            Instr::Mul(line) => Ok(self.compute(next, Operation::Mul, *line)),
            Instr::Div(line) => Ok(self.compute(next, Operation::Div, *line)),
            Instr::Rem(line) => Ok(self.compute(next, Operation::Rem, *line)),
            Instr::Neg(line) => Ok(self.negate(next, *line)),
            Instr::Not => Ok(self.invert(next)),
            Instr::Equal => Ok(self.compare(next, Comparison::Equal)),
            Instr::NotEqual => Ok(self.compare(next, Comparison::NotEqual)),
            Instr::Less => Ok(self.compare(next, Comparison::Less)),
            Instr::LessEqual => Ok(self.compare(next, Comparison::LessEqual)),
            Instr::Greater => Ok(self.compare(next, Comparison::Greater)),
            Instr::GreaterEqual => Ok(self.compare(next, Comparison::GreaterEqual)),
            Instr::Jump(place) => Ok(self.jump(image, *place)),
            Instr::JumpZero(place) => Ok(self.jump_zero(next, image, *place)),
            Instr::Test => Ok(self.test(next)),
            Instr::Call(function) => self.call(next, image, *function),
            Instr::Return(count) => self.hand_back(image, *count),
            Instr::Own => self.own(next, image, setting),
            Instr::Bound(line) => Ok(self.bound(next, *line)),
            Instr::ArgWords(count) => self.arg_words(next, *count),
            Instr::ArgVariable(variable) => self.arg_variable(next, image, *variable),
            Instr::Send(member, count) => self.send(next, image, *member, *count),
            Instr::Post(member, count) => self.post(next, image, *member, *count),
            Instr::SetVariable(variable) => self.set_variable(next, image, *variable),
            Instr::DropFlow => Ok(self.drop_flow(next)),
            Instr::Force => self.force(next, &setting.results),
            Instr::Create(class) => Ok(self.create(next, image, *class)),
            Instr::Reply(line) => Ok(self.reply(next, image, *line)),
            Instr::Input(line) => self.input(next, *line),
            Instr::Print(letters) => self.print(next, letters),
            Instr::End(line) => Ok(self.end(*line)),
            Instr::Fail(line) => Ok(self.fail(image, *line)),
        }
    }

    /// Until a turn is spent or the frame stops.
    #[inline(always)]
    fn until_turn(&mut self, image: &Image, setting: &Setting) -> Result<Move, NoMemory>
        ensures ok { IfOk result (λ move. ComesTo (knows_of setting.now.results) (record { image = image.now; object = setting.now.object }) (frame_of self.old) move (frame_of self.new)) }
        ensures err { OnErr result (GoesOn (knows_of setting.now.results) (record { image = image.now; object = setting.now.object }) (frame_of self.old) (frame_of self.new)) }
    {
        let raw = image.raw();
        let mut text = text_of(raw, self.code);
        loop {
            match self.quick(text, &setting.results) {
                Quick::Goes => continue,
                Quick::Spends => return Ok(Move::Spends),
                Quick::Waits => {}
            }
            let going = self.step(raw, setting)?;
            if !going.goes() {
                return Ok(going);
            }
            text = text_of(raw, self.code);
        }
    }

    /// Until the frame stops or has spent so many turns, where None is.
    pub fn run(
        &mut self,
        image: &Image,
        setting: &Setting,
        quantum: u32,
        spent: &mut u32,
    ) -> Result<Option<Halted>, NoMemory>
        requires fresh { spent.old ≡ 0 }
        requires some { 1 ≤ quantum }
        ensures ok { IfOk result (λ halted. RunsTo (knows_of setting.now.results) (record { image = image.now; object = setting.now.object }) quantum (frame_of self.old) (halt_of halted) spent.new (frame_of self.new)) }
        ensures err { OnErr result (Went (knows_of setting.now.results) (record { image = image.now; object = setting.now.object }) quantum 0 (frame_of self.old) spent.new (frame_of self.new)) }
        ensures few { spent.new ≤ quantum }
        ensures left { OnErr result (spent.new < quantum) }
    {
        while *spent < quantum {
            match self.until_turn(image, setting)? {
                Move::Spends => *spent += 1,
                Move::Stops(halted) => return Ok(Some(halted)),
                Move::Goes => unreachable!(),
            }
        }
        Ok(None)
    }
}
