ghost use Rattle.std.specs.Prelude.{◌≡◌, ◌≤◌, ◌<◌, ◌++◌, ◌⊎◌, [], min, length, take, Some, IfOk, IsErr, OnErr, IsTrue};
ghost use Rattle.mentat_io.specs.Causes.{Rose};
ghost use Rattle.mentat_io.specs.Memory.Plan.{fails_next};
ghost use Rattle.mentat_io.specs.Memory.MemSink.{after_write};

use crate::failed::Failed;
use crate::plan::Plan;
use crate::sink::Sink;
use mpl_value::{Bytes, Words};
use std::alloc::Global;
use std::marker::Model;

/// A sink that keeps what is written to it, and some of whose calls are to fail. A write for which
/// memory is refused fails as well.
#[derive(Debug, Drop)]
pub struct MemSink {
    written: Bytes,
    most: u32,
    plan: Plan,
    refusals: u64,
}

impl Model for MemSink {
    ghost use Rattle.std.specs.Prelude.{◌≤◌};
    ghost use Rattle.mentat_io.specs.Memory.MemSink.{SinkState};

    ghost Value = { SinkState };

    ghost view = { λ s. record { written = s.written; most = s.most; plan = s.plan; refusals = s.refusals } };

    ghost invariant = { λ s. 1 ≤ s.most };
}

impl MemSink {
    /// An empty sink, which takes at most `most` bytes a call. `failing` has the numbers of the
    /// calls that are to fail, from 1 and rising.
    pub fn new(alloc: Global, most: u32, failing: Words) -> MemSink
        requires { 1 ≤ most }
        ensures { result ≡ record { written = []; most = most; plan = record { failing = failing; calls = 0; faults = 0 }; refusals = 0 } }
    {
        MemSink {
            written: Bytes::new(alloc),
            most,
            plan: Plan::new(failing),
            refusals: 0,
        }
    }

    /// What was written so far.
    pub fn written(&self) -> &Bytes
        ensures { result.now ≡ self.now.written }
    {
        &self.written
    }
}

impl Sink for MemSink {
    ghost written = { λ s. Some s.written };

    ghost faults = { λ s. s.plan.faults };

    fn write(&mut self, bytes: &[u8]) -> Result<usize, Failed>
        requires { 0 < length bytes.now }
        ensures some { IfOk result (λ n. 1 ≤ n) }
        ensures bound { IfOk result (λ n. n ≤ length bytes.now) }
        ensures appended { IfOk result (λ n. self.new.written ≡ self.old.written ++ take n bytes.now) }
        ensures unwritten { OnErr result (self.new.written ≡ self.old.written) }
        ensures later { self.old.plan.faults ≤ self.new.plan.faults }
        ensures cause { OnErr result (Rose self.old.plan.faults self.new.plan.faults) }
        ensures fails { IsTrue (fails_next self.old.plan) → IsErr result }
        ensures only { OnErr result (IsTrue (fails_next self.old.plan) ⊎ Rose self.old.refusals self.new.refusals) }
        ensures count { IfOk result (λ n. n ≡ min self.old.most (length bytes.now)) }
        ensures after { self.new ≡ after_write self.old bytes.now result }
    {
        if self.plan.begin() {
            self.plan.fail();
            return Err(Failed);
        }
        let count = bytes.len().min(self.most as usize);
        if self.written.extend(&bytes[..count]).is_err() {
            self.refusals = self.refusals.saturating_add(1);
            self.plan.fail();
            return Err(Failed);
        }
        Ok(count)
    }
}
