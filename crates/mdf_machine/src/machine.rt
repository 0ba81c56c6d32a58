ghost use Rattle.std.specs.Prelude.{◌≡◌, ◌+◌, IfOk};

use crate::happened::History;
use crate::parts::Parts;
use mdf_code::Image;
use mpl_value::Words;
use std::alloc::Global;
use std::marker::Model;

/// A machine, seen as its job and the events that happened in it.
#[derive(Drop)]
pub struct Machine {
    pub(crate) image: Image,
    pub(crate) input: Words,
    pub(crate) budget: u64,
    pub(crate) parts: Parts,
    pub(crate) history: History,
    pub(crate) alloc: Global,
}

impl Model for Machine {
    ghost use Rattle.mdf_machine.specs.Courses.{Course};

    ghost Value = { Course };

    ghost use Rattle.mdf_machine.specs.Internal.Held.{Kept};

    ghost view = { λ m. record { job = record { image = m.image; input = m.input; budget = m.budget }; log = m.history } };

    ghost invariant = { λ m. Kept (record { image = m.image; input = m.input; budget = m.budget }) m.history m.parts };
}
