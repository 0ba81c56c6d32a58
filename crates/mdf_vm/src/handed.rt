ghost use Rattle.std.specs.Prelude.{◌≡◌, ◌∷◌, ◌++◌, [], map, OnOk, OnErr};
ghost use Rattle.mdf_vm.specs.FlowArgs.{flow_arg};

use crate::held::Held;
use crate::stop::{FlowArgs, Sent};
use mpl_value::{MemberId, NoMemory};
use std::alloc::Global;
use std::marker::Model;

/// Flow values that are handed out, seen as the frame has them.
#[derive(Drop)]
pub struct Handed {
    args: FlowArgs,
}

impl Model for Handed {
    ghost use Rattle.std.specs.Prelude.{◌≡◌, List, map};
    ghost use Rattle.mdf_code.specs.Alone as alone;

    ghost Value = { List alone.Held };

    ghost use Rattle.mdf_vm.specs.FlowArgs.{flow_arg};
    ghost use Rattle.mdf_vm.specs.Internal.HeldArgs.{held_in};

    ghost view = { λ h. map held_in h.args };

    ghost invariant = { λ h. map flow_arg (map held_in h.args) ≡ h.args };
}

impl Handed {
    pub fn new(alloc: Global) -> Handed
        ensures { result ≡ [] }
    {
        Handed {
            args: FlowArgs::new(alloc),
        }
    }

    /// One more, at the end.
    pub fn push(&mut self, value: Held) -> Result<(), NoMemory>
        ensures ok { OnOk result (self.new ≡ self.old ++ value ∷ []) }
        ensures err { OnErr result (self.new ≡ self.old) }
    {
        self.args.push(value.flow_arg())
    }

    fn into_args(self) -> FlowArgs
        ensures { result ≡ map flow_arg self }
    {
        self.args
    }
}

/// A call of a member on an object.
#[derive(Drop)]
pub struct Calling {
    pub member: MemberId,
    pub object: i64,
    pub args: Handed,
}

impl Calling {
    pub fn into_sent(self) -> Sent
        ensures { result ≡ record { member = self.member; object = self.object; args = map flow_arg self.args } }
    {
        Sent {
            member: self.member,
            object: self.object,
            args: self.args.into_args(),
        }
    }
}
