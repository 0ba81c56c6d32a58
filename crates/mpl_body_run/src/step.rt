ghost use Rattle.std.specs.Prelude.{◌≡◌, ◌<◌, ◌≤◌, ◌^◌, length, true, IfOk, MatchOption, Err};
ghost use Rattle.mpl_mean.specs.Limits.{greatest_budget};
ghost use Rattle.mpl_body_code.specs.Machine as machine;
ghost use Rattle.mpl_body_code.specs.Runnable.{numbers_fit};
ghost use Rattle.mpl_body_code.specs.Steps.{performs, step};
ghost use Rattle.mpl_body_run.specs.Seen.{Came, body_seen, callers_seen, machine_seen};
ghost use Rattle.mpl_body_run.specs.SeenEnds.{left, next_seen};
ghost use Rattle.mpl_body_run.specs.SeenSetting.{setting_seen};
ghost use Rattle.mpl_body_run.specs.Small.{MachineIsSmall};

use crate::calls::body_begun;
use crate::leaves::Leaves;
use crate::machine::{Body, Caller, Machine};
use crate::setting::Setting;
use crate::unwind::{Next, ended, finished, returned};
use mpl_body_code::{Finish, Instruction};
use mpl_value::{BodyEnd, NoMemory, Yield};
use std::alloc::Global;
use std::mem;

impl Machine {
    /// One instruction of a frame.
    #[inline(always)]
    pub fn perform(&mut self, setting: &Setting, instruction: &Instruction) -> Result<(), Leaves>
        requires within { self.old.frame.place < 2 ^ 63 }
        requires fits { numbers_fit instruction.now ≡ true }
        requires turns { self.old.turns ≤ setting.now.budget }
        requires budget { setting.now.budget ≤ greatest_budget }
        requires number { self.old.frame.number < 2 ^ 31 }
        requires creations { length self.old.body.creations ≤ self.old.turns }
        requires calls { length self.old.body.calls ≤ self.old.turns }
        ensures { Came (performs (setting_seen setting.now) instruction.now (machine_seen self.old)) (machine_seen self.new) result }
    {
        let alloc = setting.alloc;
        let budget = setting.budget;
        match instruction {
            Instruction::Number(number) => self.number(number),
            Instruction::Truth(truth) => self.truth(*truth),
            Instruction::Own => self.own(),
            Instruction::Nothing => self.nothing(alloc),
            Instruction::Input(line) => self.input(*line),
            Instruction::Read(spot) => self.read(alloc, spot),
            Instruction::Index(line) => self.index(*line),
            Instruction::CallPlain(function, count) => self.call_plain(setting, *function, *count),
            Instruction::Unary(line, operator) => self.unary(*line, *operator),
            Instruction::Binary(line, operator) => self.binary(*line, *operator),
            Instruction::Or(count) => self.or(*count),
            Instruction::And(count) => self.and(*count),
            Instruction::Wait => Err(Leaves::Ends(BodyEnd::Waits)),
            Instruction::Declare(words) => self.declare(alloc, *words),
            Instruction::Bind => self.bind(),
            Instruction::Pass(number) => self.pass(*number),
            Instruction::CallRegular(member, count) => self.call_regular(setting, *member, *count),
            Instruction::Receiver(line) => self.receiver(*line),
            Instruction::CallObject(member, count) => self.call_object(setting, *member, *count),
            Instruction::Hold(number) => self.hold(*number),
            Instruction::Force => self.force(),
            Instruction::Put(spot) => self.put(alloc, spot),
            Instruction::PutElement(line, spot) => self.put_element(alloc, *line, spot),
            Instruction::New(class) => self.create(budget, class),
            Instruction::ForceSpot(spot) => self.force_spot(*spot),
            Instruction::Drop => self.drop_top(),
            Instruction::Unless(count) => self.unless(*count),
            Instruction::Skip(count) => self.skip(*count),
            Instruction::Leave(count) => self.leave(*count),
            Instruction::Turn => self.turn(budget),
            Instruction::Again(count) => self.again(budget, *count),
            Instruction::Print(count) => self.print(alloc, *count),
            Instruction::Give(line) => self.give(alloc, *line),
            Instruction::Return => self.return_value(),
            Instruction::ReturnNothing => self.return_nothing(alloc),
            Instruction::End => self.end(),
        }
    }

    /// The instruction at the frame's place.
    #[inline(always)]
    pub fn performed(&mut self, setting: &Setting) -> Result<(), Leaves>
        requires turns { self.old.turns ≤ setting.now.budget }
        requires budget { setting.now.budget ≤ greatest_budget }
        requires number { self.old.frame.number < 2 ^ 31 }
        requires creations { length self.old.body.creations ≤ self.old.turns }
        requires calls { length self.old.body.calls ≤ self.old.turns }
        ensures { Came (step (setting_seen setting.now) (machine_seen self.old)) (machine_seen self.new) result }
    {
        match setting.image.code.get(self.frame.place) {
            Some(instruction) => self.perform(setting, instruction),
            None => Err(Leaves::Ends(BodyEnd::Waits)),
        }
    }

    /// The frame doesn't go on.
    #[tactic(auto, using(crate::proofs::Unwinding::went))]
    #[inline(never)]
    pub fn stop(&mut self, alloc: Global, why: Leaves) -> Result<Option<Yield>, NoMemory>
        ensures { IfOk result (λ y. (next : machine.Next) → Came next (machine_seen self.old) (Err why) → MatchOption y (next ≡ machine.Goes (machine_seen self.new)) (λ y. next ≡ machine.Stops y)) }
    {
        let body = mem::replace(&mut self.body, body_begun(alloc, Finish::Main));
        match left(alloc, &mut self.callers, why, body, self.turns)? {
            Next::Goes(frame, body) => {
                self.frame = frame;
                self.body = body;
                Ok(None)
            }
            Next::Stops(result) => Ok(Some(result)),
        }
    }
}

/// What goes on where a frame doesn't.
fn left(
    alloc: Global,
    callers: &mut Vec<Caller>,
    why: Leaves,
    body: Body,
    turns: u64,
) -> Result<Next, NoMemory>
    ensures { IfOk result (λ next. left why (callers_seen callers.old.items) (body_seen body) turns (next_seen next callers.new.items turns)) }
{
    match why {
        Leaves::Ends(at) => ended(alloc, callers, at, body, turns),
        Leaves::Finishes => finished(alloc, callers, body, turns),
        Leaves::Returns(words) => returned(alloc, words, callers, body, turns),
        Leaves::NoMemory => Err(NoMemory),
    }
}
