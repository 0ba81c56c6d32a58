ghost use Rattle.std.specs.Prelude.{◌≡◌, ◌+◌, ◌≤◌, IfOk, OnErr};
ghost use Rattle.mdf_core.specs.declared.status.MachineStatus.TheVariants.{Going};
ghost use Rattle.mdf_machine.specs.Courses.{world_of};
ghost use Rattle.mdf_machine.specs.MakingCalls.{Sends, StopsAtCall};

use crate::happened::{Happened, Sending};
use crate::machine::Machine;
use crate::making::{NewCall, make_call};
use crate::parts::Parts;
use crate::passing::open_ports;
use mdf_vm::Sent;
use mpl_value::NoMemory;

impl Machine {
    /// The actor's frame makes a call. Answers the actor of the call.
    pub fn send(&mut self, actor: u32, turns: u32, sent: Sent) -> Result<u32, NoMemory>
        requires going { (world_of self.old).why ≡ Going }
        requires stops { StopsAtCall self.old.job (world_of self.old) actor turns sent }
        requires within { (world_of self.old).turns ≤ self.old.job.budget }
        ensures ok { IfOk result (Sends actor turns sent self.old self.new) }
        ensures err { OnErr result (self.new ≡ self.old) }
    {
        let callee = self.parts.count();
        let all = self.parts.turns_with_call(turns)?;
        let passed = self.parts.passed(self.alloc, actor, sent.args.as_slice())?;
        let missing = open_ports(&mut self.parts.ports, callee, sent.args.as_slice())?;
        let call = NewCall {
            caller: actor,
            callee,
            member: sent.member,
            ports: sent.args.len() as u32,
            missing,
        };
        let object = object_of(&sent);
        let event = Happened::Send(Sending {
            actor,
            turns,
            callee,
            member: sent.member.0,
            object,
            arguments: sent.args,
        });
        if let Err(why) = make_call(
            &mut self.history,
            &mut self.parts,
            event,
            &call,
            passed.as_slice(),
        ) {
            self.parts.ports.close(callee);
            return Err(why);
        }
        self.parts.turns = all;
        Ok(callee)
    }
}

impl Parts {
    /// The turns with so many more, and one for a call.
    fn turns_with_call(&self, more: u32) -> Result<u64, NoMemory>
        ensures { IfOk result (λ turns. turns ≡ self.now.turns + (more + 1)) }
    {
        self.turns.checked_add(u64::from(more) + 1).ok_or(NoMemory)
    }
}

fn object_of(sent: &Sent) -> i64
    ensures { result ≡ sent.now.object }
{
    sent.object
}
