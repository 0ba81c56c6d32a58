ghost use Rattle.std.specs.Prelude.{◌≡◌, ◌≢◌};
ghost use Rattle.mdf_core.specs.declared.status.MachineStatus.TheVariants.{Going};
ghost use Rattle.mdf_machine.specs.Courses.{world_of};
ghost use Rattle.mdf_machine.specs.RightCourses.{IsOver, IsRight};

use crate::happened::History;
use crate::machine::Machine;
use mdf_code::Image;
use mpl_value::Words;
use std::marker::Model;

/// What a machine that has ended did, seen as its job and the events that happened in it.
#[derive(Drop)]
pub struct Ran {
    image: Image,
    input: Words,
    budget: u64,
    history: History,
}

impl Model for Ran {
    ghost use Rattle.mdf_machine.specs.Courses.{Course};

    ghost Value = { Course };

    ghost use Rattle.mdf_machine.specs.RightCourses.{IsOver};

    ghost view = { λ r. record { job = record { image = r.image; input = r.input; budget = r.budget }; log = r.history } };

    ghost invariant = { λ r. IsOver (record { job = record { image = r.image; input = r.input; budget = r.budget }; log = r.history }) };
}

impl Machine {
    /// What an ended machine did.
    pub fn into_ran(self) -> Ran
        requires { (world_of self).why ≢ Going }
        ensures { result ≡ self }
    {
        Ran {
            image: self.image,
            input: self.input,
            budget: self.budget,
            history: self.history,
        }
    }

    /// What happened may happen in a machine with its job, one event after another.
    pub fn is_right(&self)
        ensures { IsRight self.now }
    {
        let _budget = self.budget;
    }
}

impl Ran {
    /// The code of the job.
    pub fn image(&self) -> &Image
        ensures { result.now ≡ self.now.job.image }
    {
        &self.image
    }

    /// What happened may happen in a machine with this job, one event after another, up to its end.
    pub fn is_over(&self)
        ensures { IsOver self.now }
    {
        let _budget = self.budget;
    }
}
