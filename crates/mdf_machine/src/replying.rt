ghost use Rattle.std.specs.Prelude.{◌≡◌, OnErr, OnOk};
ghost use Rattle.mdf_code.specs.Alone.{Pending, Words as held};
ghost use Rattle.mdf_code.specs.Frames.{Replies};
ghost use Rattle.mdf_code.specs.Told.{Stands};
ghost use Rattle.mdf_core.specs.declared.status.MachineStatus.TheVariants.{Going};
ghost use Rattle.mdf_core.specs.Enabled.{Stops};
ghost use Rattle.mdf_core.specs.Events.{Reply};
ghost use Rattle.mdf_machine.specs.Courses.{then, world_of};
ghost use Rattle.mdf_machine.specs.Giving.{Gives, HasGiven};

use crate::happened::Happened;
use crate::machine::Machine;
use mdf_vm::FlowArg;
use mpl_value::{Known, NoMemory, Words};

impl Machine {
    /// Takes what the actor's frame gives as its result.
    pub fn reply(&mut self, actor: u32, turns: u32, give: FlowArg) -> Result<(), NoMemory>
        requires going { (world_of self.old).why ≡ Going }
        requires gives { Gives self.old.job (world_of self.old) actor turns give }
        ensures ok { OnOk result (HasGiven actor turns give self.old self.new) }
        ensures err { OnErr result (self.new ≡ self.old) }
    {
        match give {
            FlowArg::Known(Known::Value(words)) => self.give_words(actor, turns, words),
            FlowArg::Known(Known::Trapped(_)) => unreachable!(),
            FlowArg::Result(call) => self.give_result(actor, turns, call),
        }
    }

    /// The actor's frame gives these words as its result.
    fn give_words(&mut self, actor: u32, turns: u32, words: Words) -> Result<(), NoMemory>
        requires going { (world_of self.old).why ≡ Going }
        requires stops { Stops self.old.job (world_of self.old) actor turns (Stands (Replies (held words))) }
        ensures ok { OnOk result (self.new ≡ then (Reply actor turns (held words)) self.old) }
        ensures err { OnErr result (self.new ≡ self.old) }
    {
        let copy = words.copy()?;
        let all = self.parts.turns_with(turns)?;
        let event = Happened::Reply(actor, turns, FlowArg::Known(Known::Value(copy)));
        self.history.push(event)?;
        self.parts.turns = all;
        self.parts.settle(actor, Known::Value(words));
        Ok(())
    }

    /// The actor's frame gives the result of one of its calls, which may not be known yet.
    fn give_result(&mut self, actor: u32, turns: u32, call: u32) -> Result<(), NoMemory>
        requires going { (world_of self.old).why ≡ Going }
        requires stops { Stops self.old.job (world_of self.old) actor turns (Stands (Replies (Pending call))) }
        ensures ok { OnOk result (self.new ≡ then (Reply actor turns (Pending call)) self.old) }
        ensures err { OnErr result (self.new ≡ self.old) }
    {
        let Some(child) = self.parts.rows.child(actor, call) else {
            unreachable!()
        };
        let all = self.parts.turns_with(turns)?;
        let event = Happened::Reply(actor, turns, FlowArg::Result(call));
        self.history.push(event)?;
        if let Err(why) = self.parts.forward(actor, child) {
            self.history.pop();
            return Err(why);
        }
        self.parts.turns = all;
        Ok(())
    }
}
