ghost use Rattle.std.specs.Prelude.{◌≡◌, [], ◌∷◌, drop, OnOk, OnErr};
ghost use Rattle.mdf_machine.specs.Internal.Happened.{event_of};

use mdf_core::MachineStatus;
use mdf_vm::{FlowArg, FlowArgs};
use mpl_value::{NoMemory, Trap, Words};
use std::alloc::Global;
use std::marker::Model;

/// A call that was made.
#[derive(Drop)]
pub struct Sending {
    pub actor: u32,
    pub turns: u32,
    pub callee: u32,
    pub member: u32,
    pub object: i64,
    pub arguments: FlowArgs,
}

/// The end of a frame.
#[derive(Drop)]
pub struct Ending {
    pub actor: u32,
    pub turns: u32,
    pub trap: Option<Trap>,
    pub line: u32,
    pub state: Words,
}

/// An event as it is kept.
#[derive(Drop)]
pub enum Happened {
    Fire(u32),
    Send(Sending),
    Learn(u32, u32, u32),
    Park(u32, u32, u32),
    Resume(u32),
    Reply(u32, u32, FlowArg),
    End(Ending),
    Beat(u32),
    Match(usize),
    Quit(MachineStatus),
}

/// The events that happened, seen as a list with the newest first.
#[derive(Drop)]
pub struct History {
    events: Vec<Happened>,
}

impl Model for History {
    ghost use Rattle.mdf_core.specs.Steps.{Log};

    ghost Value = { Log };

    ghost use Rattle.mdf_machine.specs.Internal.Happened.{log_of};

    ghost view = { λ h. log_of h.events.items };
}

impl History {
    /// Nothing happened. It takes no memory.
    pub fn new(alloc: Global) -> History
        ensures { result ≡ [] }
    {
        History {
            events: Vec::new(alloc),
        }
    }

    /// One more event.
    pub fn push(&mut self, event: Happened) -> Result<(), NoMemory>
        ensures ok { OnOk result (self.new ≡ event_of event ∷ self.old) }
        ensures err { OnErr result (self.new ≡ self.old) }
    {
        self.events.push(event)?;
        Ok(())
    }

    /// Takes the newest event back.
    pub fn pop(&mut self)
        ensures { self.new ≡ drop 1 self.old }
    {
        self.events.pop();
    }
}
