ghost use Rattle.std.specs.Prelude.{◌≡◌, ◌<◌, Some, None, IfOk, OnErr, is_some, length};
ghost use Rattle.std.specs.Option.{option_and_then};
ghost use Rattle.mpl_value.specs.CallAnswers.{leftmost_trap};
ghost use Rattle.mdf_core.specs.declared.status.MachineStatus.TheVariants.{Going};
ghost use Rattle.mdf_core.specs.Actors.{arguments_of};
ghost use Rattle.mdf_match.specs.Ports.{known_at, row_of};
ghost use Rattle.mdf_machine.specs.Courses.{world_of};
ghost use Rattle.mdf_machine.specs.Matching.{HasMatched};
ghost use Rattle.mdf_machine.specs.Internal.Bringing.{MayBring, MayCount, MayFill, MayFollow, trap_in};
ghost use Rattle.mdf_machine.specs.Internal.Matching.{brought, completed, counted, filled_if, followed};

use crate::happened::Happened;
use crate::knowing::known;
use crate::machine::Machine;
use crate::parts::Parts;
use mdf_actor::ActorStatus;
use mdf_future::{Consumer, ResultState};
use mdf_match::{Matcher, Seen, Tag, Token};
use mpl_value::{Known, NoMemory, Trap};

impl Machine {
    /// Delivers the oldest due token, and tells where it was due.
    pub fn match_token(&mut self) -> Result<Option<Consumer>, NoMemory>
        requires going { (world_of self.old).why ≡ Going }
        ensures ok { IfOk result (HasMatched 0 self.old self.new) }
        ensures err { OnErr result (self.new ≡ self.old) }
    {
        Ok(self.match_at(0)?)
    }

    /// Delivers the due token at a place, the oldest being at 0, and tells where it was due.
    pub fn match_at(&mut self, at: usize) -> Result<Option<Consumer>, NoMemory>
        requires going { (world_of self.old).why ≡ Going }
        ensures ok { IfOk result (HasMatched at self.old self.new) }
        ensures err { OnErr result (self.new ≡ self.old) }
    {
        let Some(due) = self.parts.results.due_at(at) else {
            return Ok(None);
        };
        let Some(known) = known(&self.parts.results, self.alloc, due.from)? else {
            unreachable!()
        };
        self.history.push(Happened::Match(at))?;
        self.parts.results.take_at(at);
        self.parts.bring(known, due.consumer);
        Ok(Some(due.consumer))
    }
}

impl Parts {
    /// A known result comes where it is due.
    fn bring(&mut self, known: Known, consumer: Consumer)
        requires { MayBring self.old known consumer }
        ensures { self.new ≡ brought self.old known consumer }
    {
        match consumer {
            Consumer::Port(tag) => self.fill(tag, known),
            Consumer::Parked(_) => {}
            Consumer::Result(actor) => self.follow(actor, known),
        }
    }

    /// A result that was forwarded is known from now on.
    fn follow(&mut self, actor: u32, known: Known)
        requires { MayFollow self.old actor known }
        ensures { self.new ≡ followed self.old actor known }
    {
        if let ResultState::Forwarded(_) = self.results.state(actor) {
            self.settle(actor, known);
        }
    }

    /// An argument comes to its port. What comes to a port that is filled changes nothing.
    fn fill(&mut self, tag: Tag, known: Known)
        requires { MayFill self.old tag known }
        ensures { self.new ≡ filled_if (is_some (known_at self.old.ports tag)) self.old tag known }
    {
        if self.ports.seen(tag).is_none() {
            self.ports.arrive(Token { tag, known });
            self.count_ports(tag.actor);
        }
    }

    /// The status of an actor by what is missing of its arguments.
    fn count_ports(&mut self, actor: u32)
        requires { MayCount self.old actor }
        ensures { self.new ≡ counted self.old actor }
    {
        match self.ports.missing(actor) {
            None => unreachable!(),
            Some(0) => self.complete(actor),
            Some(missing) => self.statuses.set(actor, ActorStatus::Waiting(missing)),
        }
    }
    /// All arguments of an actor have come. With a trap among them it never begins, and has the leftmost one as its
    /// result.
    fn complete(&mut self, actor: u32)
        requires { MayCount self.old actor }
        ensures { self.new ≡ completed self.old actor (leftmost_trap (arguments_of (row_of self.old.ports actor))) }
    {
        let count = self.rows.row(actor).ports;
        match leftmost_trap(&self.ports, actor, count) {
            None => {
                self.statuses.set(actor, ActorStatus::Ready);
                self.going.insert(actor);
            }
            Some(trap) => {
                self.statuses.set(actor, ActorStatus::Poisoned);
                self.settle(actor, Known::Trapped(trap));
            }
        }
    }
}

/// The first trap that has come to the ports of an actor, of which there are so many.
fn leftmost_trap(ports: &Matcher, actor: u32, count: u32) -> Option<Trap>
    requires { count ≡ length (row_of ports.now actor) }
    ensures { result ≡ leftmost_trap (arguments_of (row_of ports.now actor)) }
{
    for port in 0..count {
        if let Some(trap) = trap_at(ports, Tag { actor, port }) {
            return Some(trap);
        }
    }
    None
}

fn trap_at(ports: &Matcher, tag: Tag) -> Option<Trap>
    ensures { result ≡ option_and_then trap_in (known_at ports.now tag) }
{
    match ports.seen(tag) {
        Some(Seen::Trapped(trap)) => Some(trap),
        _ => None,
    }
}
