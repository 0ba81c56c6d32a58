ghost use Rattle.std.specs.Prelude.{◌≡◌, ◌<◌, false, length, IfSome, IsSome, IsSomeAnd, IsTrue, OnErr, OnOk, Some, slice_get};
ghost use Rattle.std.specs.FinMap as map;
ghost use Rattle.mdf_actor.specs.Statuses.{is_over};
ghost use Rattle.mdf_code.specs.Yields.{missed_at};
ghost use Rattle.mdf_core.specs.declared.status.MachineStatus.TheVariants.{Going};
ghost use Rattle.mdf_future.specs.declared.future.Give.TheVariants as give;
ghost use Rattle.mdf_future.specs.Results.{may_give};
ghost use Rattle.mdf_match.specs.Data.{HasFewWords};
ghost use Rattle.mdf_machine.specs.Courses.{world_of};
ghost use Rattle.mdf_machine.specs.Ending.{ComesToAnEnd, HasEnded};
ghost use Rattle.mdf_machine.specs.Internal.Ending.{end_of, finished, known_in, left_at_end, with_known_if};
ghost use Rattle.mdf_machine.specs.Internal.Settling.{HasCaller};

use crate::happened::{Ending, Happened};
use crate::machine::Machine;
use crate::parts::Parts;
use mdf_actor::ActorStatus;
use mdf_code::RawImage;
use mdf_future::ResultState;
use mdf_vm::Frame;
use mpl_value::{BodyEnd, Bytes, Known, MemberId, NoMemory, Trap, TrapKind, Words};
use std::alloc::Global;

impl Machine {
    /// Takes a frame that has come to an end, or has trapped.
    pub fn end(&mut self, actor: u32, turns: u32, frame: Frame) -> Result<(), NoMemory>
        requires going { (world_of self.old).why ≡ Going }
        requires ends { ComesToAnEnd self.old.job (world_of self.old) actor turns frame }
        ensures ok { OnOk result (HasEnded actor turns self.old self.new) }
        ensures err { OnErr result (self.new ≡ self.old) }
    {
        let ended = frame.finish();
        let all = self.parts.turns_with(turns)?;
        let known = self.parts.left_at_end(
            self.alloc,
            self.image.raw(),
            actor,
            ended.trap,
            ended.line,
        );
        let ending = Ending {
            actor,
            turns,
            trap: ended.trap,
            line: ended.line,
            state: ended.state,
        };
        self.history.push(Happened::End(ending))?;
        self.parts.finish(actor, all, ended.trap, ended.lines);
        self.parts.settle_if(actor, known);
        Ok(())
    }
}

impl Parts {
    /// What the open result of an actor becomes at the end of its frame, if it becomes known then.
    fn left_at_end(
        &self,
        alloc: Global,
        image: &RawImage,
        actor: u32,
        trap: Option<Trap>,
        line: u32,
    ) -> Option<Known>
        requires there { actor < length self.now.rows }
        requires result { IsSome (map.get self.now.results.results actor) }
        ensures { result ≡ left_at_end image.now self.now actor trap line }
    {
        let ResultState::Open = self.results.state(actor) else {
            return None;
        };
        let member = self.rows.row(actor).member?;
        match trap {
            None => missed(alloc, image, member, line),
            Some(trap) => Some(Known::Trapped(trap)),
        }
    }

    /// An actor has ended. Of `main` the lines and the end are kept.
    fn finish(&mut self, actor: u32, turns: u64, trap: Option<Trap>, lines: Bytes)
        requires status { IsSomeAnd (slice_get self.old.statuses actor) (λ kept. is_over kept ≡ false) }
        requires mark { actor < length self.old.going }
        ensures { self.new ≡ finished self.old actor turns trap lines }
    {
        self.statuses.set(actor, ActorStatus::Ended);
        self.going.remove(actor);
        self.turns = turns;
        if actor == 0 {
            self.lines = lines;
            self.main_end = end_of(trap);
        }
    }

    /// The result of an actor is known from now on, if it is known at all.
    fn settle_if(&mut self, actor: u32, known: Option<Known>)
        requires may { IfSome known (λ known. IsTrue (may_give self.old.results actor (give.Known known))) }
        requires few { IfSome known HasFewWords }
        requires there { actor < length self.old.rows }
        requires caller { HasCaller self.old actor }
        ensures { self.new ≡ with_known_if self.old actor known }
    {
        if let Some(known) = known {
            self.settle(actor, known);
        }
    }
}

/// The result of a member whose frame came to its end without having given one, if it becomes known then.
fn missed(alloc: Global, image: &RawImage, member: MemberId, line: u32) -> Option<Known>
    ensures { result ≡ known_in (missed_at image.now line (Some member)) }
{
    let member = image.members.get(member.0 as usize)?;
    match member.result {
        None => Some(Known::Value(Words::new(alloc))),
        Some(_) => Some(Known::Trapped(Trap {
            kind: TrapKind::NoReply,
            line,
        })),
    }
}

fn end_of(trap: Option<Trap>) -> BodyEnd
    ensures { result ≡ end_of trap }
{
    match trap {
        None => BodyEnd::Done,
        Some(trap) => BodyEnd::Trap(trap),
    }
}
