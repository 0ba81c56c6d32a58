ghost use Rattle.std.specs.Prelude.{◌≡◌, ◌≤◌, ◌+◌};
ghost use Rattle.mentat_io.specs.Causes.{one_more};
ghost use Rattle.mentat_io.specs.Memory.Plan.{is_number, fails_next};

use mpl_value::Words;
use std::marker::Model;

/// Which calls of an object in memory are to fail, and how many have failed.
#[derive(Debug, Drop)]
pub struct Plan {
    failing: Words,
    calls: u64,
    faults: u64,
}

impl Model for Plan {
    ghost use Rattle.mentat_io.specs.Memory.Plan.{Plan as State};

    ghost Value = { State };

    ghost view = { λ p. record { failing = p.failing; calls = p.calls; faults = p.faults } };
}

/// Whether `number` is the number of the call that comes after `calls` others.
fn comes_next(number: i64, calls: u64) -> bool
    ensures { result ≡ is_number number (calls + 1) }
{
    number > 0 && (number - 1) as u64 == calls
}

impl Plan {
    /// The numbers of the calls that are to fail, from 1.
    pub fn new(failing: Words) -> Plan
        ensures { result ≡ record { failing = failing; calls = 0; faults = 0 } }
    {
        Plan {
            failing,
            calls: 0,
            faults: 0,
        }
    }

    /// Counts a call, and tells whether it is to fail.
    pub fn begin(&mut self) -> bool
        ensures fails { result ≡ fails_next self.old }
        ensures counted { self.new ≡ record self.old { calls = one_more self.old.calls } }
        ensures later { self.old.calls ≤ self.new.calls }
    {
        let before = self.calls;
        self.calls = before.saturating_add(1);
        self.failing
            .as_slice()
            .iter()
            .any(|number| comes_next(*number, before))
    }

    /// Counts a fault.
    pub fn fail(&mut self)
        ensures counted { self.new ≡ record self.old { faults = one_more self.old.faults } }
        ensures later { self.old.faults ≤ self.new.faults }
    {
        self.faults = self.faults.saturating_add(1);
    }
}
