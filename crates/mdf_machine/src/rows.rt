ghost use Rattle.std.specs.Prelude.{◌≡◌, ◌<◌, ◌-◌, [], ◌∷◌, ◌++◌, length, take, Some, None, OnOk, OnErr, slice_get};
ghost use Rattle.std.specs.Option.{option_and_then, option_map};
ghost use Rattle.mdf_machine.specs.Internal.Children.{child_in};
ghost use Rattle.mdf_machine.specs.Internal.Rows.{changed, child_at, frame_at, with_child, without_child, with_frame, without_frame};

use crate::children::Children;
use mdf_vm::Frame;
use mpl_value::{MemberId, NoMemory};
use std::alloc::Global;
use std::marker::Model;
use std::mem;

/// What is kept of an actor beside its status, its ports and its result.
#[derive(Drop)]
pub struct Row {
    pub caller: u32,
    pub member: Option<MemberId>,
    /// How many ports it has.
    pub ports: u32,
    pub children: Children,
    /// Its frame, where it was put away.
    pub frame: Option<Frame>,
}

/// The rows of the actors by their serial numbers.
#[derive(Drop)]
pub struct Rows {
    rows: Vec<Row>,
    alloc: Global,
}

impl Model for Rows {
    ghost use Rattle.std.specs.Prelude.{List};
    ghost use Rattle.std.specs.Coded.{coded_list};
    ghost use Rattle.mdf_machine.specs.declared.rows.Row.{Row};
    ghost use Rattle.mdf_machine.specs.contracts.rows.Row as row_code;

    ghost Value = { List Row };

    ghost coded = { coded_list row_code.the_row.coded };

    ghost view = { λ r. r.rows.items };
}

impl Rows {
    /// No actor. It takes no memory.
    pub fn new(alloc: Global) -> Rows
        ensures { result ≡ [] }
    {
        Rows {
            rows: Vec::new(alloc),
            alloc,
        }
    }

    /// One more actor, without calls.
    pub fn push(
        &mut self,
        caller: u32,
        member: Option<MemberId>,
        ports: u32,
    ) -> Result<(), NoMemory>
        ensures ok { OnOk result (self.new ≡ self.old ++ record { caller = caller; member = member; ports = ports; children = []; frame = None } ∷ []) }
        ensures err { OnErr result (self.new ≡ self.old) }
    {
        let row = Row {
            caller,
            member,
            ports,
            children: Children::new(self.alloc),
            frame: None,
        };
        self.rows.push(row)?;
        Ok(())
    }

    /// Takes the newest actor back.
    pub fn pop(&mut self)
        ensures { self.new ≡ take (length self.old - 1) self.old }
    {
        self.rows.pop();
    }

    pub fn row(&self, actor: u32) -> &Row
        requires { actor < length self.now }
        ensures { slice_get self.now actor ≡ Some result.now }
    {
        &self.rows[actor as usize]
    }

    /// The actor of a call of an actor.
    pub fn child(&self, actor: u32, call: u32) -> Option<u32>
        ensures { result ≡ child_at self.now actor call }
    {
        self.rows.get(actor as usize)?.children.of_call(call)
    }

    pub fn add_child(&mut self, actor: u32, child: u32) -> Result<(), NoMemory>
        requires { actor < length self.old }
        ensures ok { OnOk result (self.new ≡ changed (with_child child) actor self.old) }
        ensures err { OnErr result (self.new ≡ self.old) }
    {
        let row = &mut self.rows[actor as usize];
        row.children.push(child)?;
        Ok(())
    }

    pub fn drop_child(&mut self, actor: u32)
        requires { actor < length self.old }
        ensures { self.new ≡ changed without_child actor self.old }
    {
        let row = &mut self.rows[actor as usize];
        row.children.pop();
    }

    /// The frame of an actor is put away.
    pub fn put_frame(&mut self, actor: u32, frame: Frame)
        requires { actor < length self.old }
        ensures { self.new ≡ changed (with_frame frame) actor self.old }
    {
        let row = &mut self.rows[actor as usize];
        row.frame = Some(frame);
    }

    /// The frame of an actor, which was put away.
    pub fn take_frame(&mut self, actor: u32) -> Option<Frame>
        requires { actor < length self.old }
        ensures taken { result ≡ frame_at self.old actor }
        ensures rest { self.new ≡ changed without_frame actor self.old }
    {
        let row = &mut self.rows[actor as usize];
        mem::replace(&mut row.frame, None)
    }
}
