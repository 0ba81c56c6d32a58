ghost use Rattle.std.specs.Prelude.{◌≡◌, ◌<◌, Some, length, slice_get};
ghost use Rattle.std.specs.Option.{option_map};
ghost use Rattle.mdf_core.specs.DriveList.{items};
ghost use Rattle.mdf_drive.specs.DriveOrder.{next_of};
ghost use Rattle.mdf_machine.specs.Courses.{world_of};

use crate::machine::Machine;
use crate::parts::Parts;
use mdf_actor::ActorStatus;
use mdf_core::{Item, MachineStatus};

impl Machine {
    /// How many items the drive list has.
    pub fn enabled(&self) -> u32
        ensures { result ≡ length (items self.now.job (world_of self.now)) }
    {
        let MachineStatus::Going = self.parts.why else {
            return 0;
        };
        self.parts.results.due_len() as u32 + self.parts.going.len()
    }

    /// The item of the drive list at a place.
    pub fn item(&self, place: u32) -> Option<Item>
        ensures { result ≡ slice_get (items self.now.job (world_of self.now)) place }
    {
        let MachineStatus::Going = self.parts.why else {
            return None;
        };
        let due = self.parts.results.due_len() as u32;
        if place < due {
            return Some(Item::Match(place));
        }
        let Some(actor) = self.parts.going.nth(place - due) else {
            return None;
        };
        Some(self.parts.next(actor))
    }
}

impl Parts {
    /// What an actor that can go on does next.
    fn next(&self, actor: u32) -> Item
        requires { actor < length self.now.statuses }
        ensures { option_map (next_of actor) (slice_get self.now.statuses actor) ≡ Some result }
    {
        match self.statuses.status(actor) {
            ActorStatus::Ready => Item::Fire(actor),
            ActorStatus::Parked(_) => Item::Resume(actor),
            _ => Item::Run(actor),
        }
    }
}
