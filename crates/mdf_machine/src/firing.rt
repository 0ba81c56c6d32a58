ghost use Rattle.std.specs.Prelude.{◌≡◌, ◌<◌, IfOk, OnErr};
ghost use Rattle.mdf_core.specs.declared.status.MachineStatus.TheVariants.{Going};
ghost use Rattle.mdf_machine.specs.Answers.{Fires, Resumes};
ghost use Rattle.mdf_machine.specs.Courses.{world_of};

use crate::happened::Happened;
use crate::machine::Machine;
use crate::refusals::NotReady;
use mdf_actor::ActorStatus;
use mdf_future::ResultState;
use mdf_vm::Frame;
use mpl_value::NoMemory;

impl Machine {
    /// The frame of an actor that is ready, at the start of its body.
    pub fn fire(&mut self, actor: u32) -> Result<Result<Frame, NotReady>, NoMemory>
        requires going { (world_of self.old).why ≡ Going }
        requires there { actor < (world_of self.old).count }
        ensures ok { IfOk result (Fires actor self.old self.new) }
        ensures err { OnErr result (self.new ≡ self.old) }
    {
        let status = self.parts.statuses.status(actor);
        let ActorStatus::Ready = status else {
            return Ok(Err(NotReady { status }));
        };
        let start = self.parts.start(self.alloc, &self.input, actor)?;
        let frame = Frame::start(self.alloc, &self.image, &start)?;
        let turns = self.parts.turns_with(1)?;
        let fired = self.parts.fired_with_one()?;
        self.history.push(Happened::Fire(actor))?;
        self.parts.begin(actor, turns, fired);
        Ok(Ok(frame))
    }

    /// The frame of an actor that is parked on a known result, as it was put away.
    pub fn resume(&mut self, actor: u32) -> Result<Result<Frame, NotReady>, NoMemory>
        requires going { (world_of self.old).why ≡ Going }
        requires there { actor < (world_of self.old).count }
        ensures ok { IfOk result (Resumes actor self.old self.new) }
        ensures err { OnErr result (self.new ≡ self.old) }
    {
        let status = self.parts.statuses.status(actor);
        let ActorStatus::Parked(child) = status else {
            return Ok(Err(NotReady { status }));
        };
        let ResultState::Known = self.parts.results.state(child) else {
            return Ok(Err(NotReady { status }));
        };
        self.history.push(Happened::Resume(actor))?;
        let Some(frame) = self.parts.take_out(actor) else {
            unreachable!()
        };
        Ok(Ok(frame))
    }
}
