ghost use Rattle.std.specs.Prelude.{◌≡◌, IfOk, OnErr};
ghost use Rattle.mdf_machine.specs.MachineEnds.{Quits};
ghost use Rattle.mdf_machine.specs.Internal.Quitting.{is_idle};

use crate::happened::Happened;
use crate::machine::Machine;
use crate::parts::Parts;
use mdf_core::MachineStatus;
use mpl_value::NoMemory;

impl Machine {
    /// Ends the machine where nothing is left to do, or where its turns are above its budget, and tells whether it has
    /// ended.
    pub fn quit(&mut self) -> Result<bool, NoMemory>
        ensures ok { IfOk result (Quits self.old self.new) }
        ensures err { OnErr result (self.new ≡ self.old) }
    {
        let MachineStatus::Going = self.parts.why else {
            return Ok(true);
        };
        if self.budget < self.parts.turns {
            self.history.push(Happened::Quit(MachineStatus::Spent))?;
            self.parts.why = MachineStatus::Spent;
            return Ok(true);
        }
        if !self.parts.is_idle() {
            return Ok(false);
        }
        self.history.push(Happened::Quit(MachineStatus::Rest))?;
        self.parts.why = MachineStatus::Rest;
        Ok(true)
    }
}

impl Parts {
    /// Whether no token is due, and no actor can go on.
    fn is_idle(&self) -> bool
        ensures { result ≡ is_idle self.now }
    {
        self.results.due_at(0).is_none() && self.going.len() == 0
    }
}
