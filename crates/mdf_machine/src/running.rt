ghost use Rattle.std.specs.Prelude.{◌≡◌, IfOk, OnErr, OnOk};
ghost use Rattle.mdf_code.specs.Alone.{Pending};
ghost use Rattle.mdf_code.specs.Frames.{Needs};
ghost use Rattle.mdf_code.specs.Told.{Beats, Stands, most_turns};
ghost use Rattle.mdf_core.specs.declared.status.MachineStatus.TheVariants.{Going};
ghost use Rattle.mdf_core.specs.Enabled.{Stops};
ghost use Rattle.mdf_core.specs.Events.{Beat};
ghost use Rattle.mdf_machine.specs.Answers.{Learns, Parks};
ghost use Rattle.mdf_machine.specs.Courses.{then, world_of};
ghost use Rattle.mdf_machine.specs.Frames.{IsFrameAt};

use crate::happened::Happened;
use crate::machine::Machine;
use crate::refusals::Open;
use mdf_actor::ActorStatus;
use mdf_future::ResultState;
use mdf_vm::Frame;
use mpl_value::{Known, NoMemory};

impl Machine {
    /// Counts the turns of a frame that took as many as there may be between two events.
    pub fn beat(&mut self, actor: u32) -> Result<(), NoMemory>
        requires going { (world_of self.old).why ≡ Going }
        requires stops { Stops self.old.job (world_of self.old) actor most_turns Beats }
        ensures ok { OnOk result (self.new ≡ then (Beat actor) self.old) }
        ensures err { OnErr result (self.new ≡ self.old) }
    {
        let turns = self.parts.turns_with(256)?;
        self.history.push(Happened::Beat(actor))?;
        self.parts.turns = turns;
        Ok(())
    }

    /// The result of a call that the actor's frame needs, if it is known.
    pub fn learn(
        &mut self,
        actor: u32,
        turns: u32,
        call: u32,
    ) -> Result<Result<Known, Open>, NoMemory>
        requires going { (world_of self.old).why ≡ Going }
        requires stops { Stops self.old.job (world_of self.old) actor turns (Stands (Needs (Pending call))) }
        ensures ok { IfOk result (Learns actor turns call self.old self.new) }
        ensures err { OnErr result (self.new ≡ self.old) }
    {
        let Some(known) = self.parts.known_of_call(self.alloc, actor, call)? else {
            return Ok(Err(Open));
        };
        let all = self.parts.turns_with(turns)?;
        self.history.push(Happened::Learn(actor, turns, call))?;
        self.parts.turns = all;
        Ok(Ok(known))
    }

    /// Puts the actor's frame away until the result of a call is known, and hands it back where that is known by now.
    pub fn park(
        &mut self,
        actor: u32,
        turns: u32,
        frame: Frame,
        call: u32,
    ) -> Result<Result<(), Frame>, NoMemory>
        requires going { (world_of self.old).why ≡ Going }
        requires stops { IsFrameAt self.old.job (world_of self.old) actor turns (Stands (Needs (Pending call))) frame }
        ensures ok { IfOk result (Parks actor turns call frame self.old self.new) }
        ensures err { OnErr result (self.new ≡ self.old) }
    {
        let Some(child) = self.parts.rows.child(actor, call) else {
            unreachable!()
        };
        if let ResultState::Known = self.parts.results.state(child) {
            return Ok(Err(frame));
        }
        let all = self.parts.turns_with(turns)?;
        self.history.push(Happened::Park(actor, turns, call))?;
        self.parts.put_away(actor, child, frame, all);
        Ok(Ok(()))
    }
}
