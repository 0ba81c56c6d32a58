ghost use Rattle.std.specs.Prelude.{◌≡◌, ◌<◌, length, slice_get};
ghost use Rattle.mdf_core.specs.declared.status.MachineStatus.TheVariants.{Rest};
ghost use Rattle.mdf_machine.specs.Courses.{fired_in, world_of};
ghost use Rattle.mdf_machine.specs.LookUps.{Wakes, status_in};
ghost use Rattle.mdf_machine.specs.MachineEnds.{CameTo, Printed};
ghost use Rattle.mdf_machine.specs.Internal.Settling.{waits_for};

use crate::machine::Machine;
use crate::parts::Parts;
use mdf_actor::ActorStatus;
use mdf_code::Image;
use mdf_core::MachineStatus;
use mdf_future::ResultState;
use mpl_value::{BodyEnd, Bytes};

impl Machine {
    /// The code of its job.
    pub fn image(&self) -> &Image
        ensures { result.now ≡ self.now.job.image }
    {
        &self.image
    }

    pub fn status(&self) -> MachineStatus
        ensures { result ≡ (world_of self.now).why }
    {
        self.parts.why
    }

    pub fn turns(&self) -> u64
        ensures { result ≡ (world_of self.now).turns }
    {
        self.parts.turns
    }

    /// How many frames have begun.
    pub fn fired(&self) -> u64
        ensures { result ≡ fired_in self.now.log }
    {
        self.parts.fired
    }

    /// The status of an actor, if there is such an actor.
    pub fn status_of(&self, actor: u32) -> Option<ActorStatus>
        ensures { result ≡ status_in (world_of self.now) actor }
    {
        if actor < self.parts.count() {
            Some(self.parts.statuses.status(actor))
        } else {
            None
        }
    }

    /// The actor that is parked on the known result of this one, while the machine goes on.
    pub fn woken(&self, actor: u32) -> Option<u32>
        ensures { Wakes (world_of self.now) actor result }
    {
        let MachineStatus::Going = self.parts.why else {
            return None;
        };
        if self.parts.count() <= actor {
            return None;
        }
        let ResultState::Known = self.parts.results.state(actor) else {
            return None;
        };
        let caller = self.parts.rows.row(actor).caller;
        if self.parts.is_parked_on(caller, actor) {
            Some(caller)
        } else {
            None
        }
    }

    /// What `main` has printed.
    pub fn lines(&self) -> &Bytes
        requires { (world_of self.now).why ≡ Rest }
        ensures { Printed self.now result.now }
    {
        let ActorStatus::Parked(_) = self.parts.statuses.status(0) else {
            return &self.parts.lines;
        };
        let Some(frame) = &self.parts.rows.row(0).frame else {
            unreachable!()
        };
        frame.lines()
    }

    /// How `main` has ended.
    pub fn main_end(&self) -> BodyEnd
        requires { (world_of self.now).why ≡ Rest }
        ensures { CameTo self.now result }
    {
        let ActorStatus::Parked(_) = self.parts.statuses.status(0) else {
            return self.parts.main_end;
        };
        BodyEnd::Waits
    }
}

impl Parts {
    /// How many actors there are.
    pub fn count(&self) -> u32
        ensures { result ≡ length self.now.going }
    {
        self.going.total()
    }

    /// Whether an actor is parked on the result of another one.
    fn is_parked_on(&self, actor: u32, child: u32) -> bool
        requires { actor < length self.now.statuses }
        ensures { result ≡ waits_for child (slice_get self.now.statuses actor) }
    {
        match self.statuses.status(actor) {
            ActorStatus::Parked(on) => on == child,
            _ => false,
        }
    }
}
