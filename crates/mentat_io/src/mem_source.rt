ghost use Rattle.std.specs.Prelude.{◌≡◌, ◌≤◌, ◌<◌, [], min, length, drop, Some, IfOk, OnErr, is_err};
ghost use Rattle.mentat_io.specs.Causes.{Rose};
ghost use Rattle.mentat_io.specs.Memory.Plan.{fails_next};
ghost use Rattle.mentat_io.specs.Source.{GivesStart};
ghost use Rattle.mentat_io.specs.Memory.MemSource.{after_read};

use crate::failed::Failed;
use crate::plan::Plan;
use crate::source::Source;
use crate::unread::Unread;
use mpl_value::{Bytes, Words};
use std::marker::Model;

/// A source of given bytes, some of whose calls are to fail.
#[derive(Debug, Drop)]
pub struct MemSource {
    unread: Unread,
    most: u32,
    plan: Plan,
}

impl Model for MemSource {
    ghost use Rattle.std.specs.Prelude.{◌≤◌};
    ghost use Rattle.mentat_io.specs.Memory.MemSource.{SourceState};

    ghost Value = { SourceState };

    ghost view = { λ s. record { left = s.unread; most = s.most; plan = s.plan } };

    ghost invariant = { λ s. 1 ≤ s.most };
}

impl MemSource {
    /// A source of `left`, which gives at most `most` bytes a call. `failing` has the numbers of
    /// the calls that are to fail, from 1 and rising.
    pub fn new(left: Bytes, most: u32, failing: Words) -> MemSource
        requires { 1 ≤ most }
        ensures { result ≡ record { left = left; most = most; plan = record { failing = failing; calls = 0; faults = 0 } } }
    {
        MemSource {
            unread: Unread::new(left),
            most,
            plan: Plan::new(failing),
        }
    }
}

impl Source for MemSource {
    ghost left = { λ s. Some s.left };

    ghost faults = { λ s. s.plan.faults };

    fn read(&mut self, buf: &mut [u8]) -> Result<usize, Failed>
        requires { 0 < length buf.old }
        ensures bound { IfOk result (λ n. n ≤ length buf.new) }
        ensures moved { IfOk result (λ n. GivesStart self.old.left n buf.new) }
        ensures rest { IfOk result (λ n. self.new.left ≡ drop n self.old.left) }
        ensures end { IfOk result (λ n. n ≡ 0 → self.old.left ≡ []) }
        ensures unread { OnErr result (self.new.left ≡ self.old.left) }
        ensures later { self.old.plan.faults ≤ self.new.plan.faults }
        ensures cause { OnErr result (Rose self.old.plan.faults self.new.plan.faults) }
        ensures fails { is_err result ≡ fails_next self.old.plan }
        ensures count { IfOk result (λ n. n ≡ min self.old.most (min (length buf.new) (length self.old.left))) }
        ensures after { self.new ≡ after_read self.old result }
    {
        if self.plan.begin() {
            self.plan.fail();
            return Err(Failed);
        }
        Ok(self.unread.give(buf, self.most as usize))
    }
}
