ghost use Rattle.std.specs.Prelude.{◌≡◌, ◌<◌, ◌+◌, false, length, IfOk, IsSomeAnd, slice_get, slice_set};
ghost use Rattle.mdf_actor.specs.Statuses.{is_over};
ghost use Rattle.mdf_actor.specs.declared.status.ActorStatus.TheVariants as status;
ghost use Rattle.mdf_machine.specs.Internal.Rows.{changed, frame_at, with_frame, without_frame};

use crate::rows::Rows;
use mdf_actor::{ActorStatus, Actors};
use mdf_core::MachineStatus;
use mdf_future::Futures;
use mdf_match::Matcher;
use mdf_order::Serials;
use mdf_vm::Frame;
use mpl_value::{BodyEnd, Bytes, NoMemory};

/// What a machine holds, but for its job and its log.
#[derive(Drop)]
pub struct Parts {
    pub statuses: Actors,
    pub rows: Rows,
    pub ports: Matcher,
    pub results: Futures,
    /// The actors that can go on: that are ready, that run, or that are parked on a known result.
    pub going: Serials,
    pub turns: u64,
    /// How many frames have begun.
    pub fired: u64,
    pub why: MachineStatus,
    /// What `main` has printed, and its end, once it has ended.
    pub lines: Bytes,
    pub main_end: BodyEnd,
}

impl Parts {
    /// The turns with so many more.
    pub fn turns_with(&self, more: u32) -> Result<u64, NoMemory>
        ensures { IfOk result (λ turns. turns ≡ self.now.turns + more) }
    {
        self.turns.checked_add(u64::from(more)).ok_or(NoMemory)
    }

    /// The number of frames that have begun, with one more.
    pub fn fired_with_one(&self) -> Result<u64, NoMemory>
        ensures { IfOk result (λ fired. fired ≡ self.now.fired + 1) }
    {
        self.fired.checked_add(1).ok_or(NoMemory)
    }

    /// The frame of an actor is put away until the result of another one is known.
    pub fn put_away(&mut self, actor: u32, child: u32, frame: Frame, turns: u64)
        requires status { IsSomeAnd (slice_get self.old.statuses actor) (λ kept. is_over kept ≡ false) }
        requires row { actor < length self.old.rows }
        requires mark { actor < length self.old.going }
        ensures { self.new ≡ record self.old { statuses = slice_set self.old.statuses actor (status.Parked child); rows = changed (with_frame frame) actor self.old.rows; going = slice_set self.old.going actor false; turns = turns } }
    {
        self.statuses.set(actor, ActorStatus::Parked(child));
        self.rows.put_frame(actor, frame);
        self.going.remove(actor);
        self.turns = turns;
    }

    /// The frame of an actor begins.
    pub fn begin(&mut self, actor: u32, turns: u64, fired: u64)
        requires { IsSomeAnd (slice_get self.old.statuses actor) (λ kept. is_over kept ≡ false) }
        ensures { self.new ≡ record self.old { statuses = slice_set self.old.statuses actor status.Running; turns = turns; fired = fired } }
    {
        self.statuses.set(actor, ActorStatus::Running);
        self.turns = turns;
        self.fired = fired;
    }

    /// The frame of an actor, which was put away, goes out again.
    pub fn take_out(&mut self, actor: u32) -> Option<Frame>
        requires status { IsSomeAnd (slice_get self.old.statuses actor) (λ kept. is_over kept ≡ false) }
        requires row { actor < length self.old.rows }
        ensures frame { result ≡ frame_at self.old.rows actor }
        ensures rest { self.new ≡ record self.old { statuses = slice_set self.old.statuses actor status.Running; rows = changed without_frame actor self.old.rows } }
    {
        self.statuses.set(actor, ActorStatus::Running);
        self.rows.take_frame(actor)
    }
}
