ghost use Rattle.std.specs.Prelude.{◌≡◌, ◌+◌, ◌<◌, IfOk, OnErr, ℕ, ℤ};
ghost use Rattle.mpl_value.specs.declared.body.Arg.{Arg};
ghost use Rattle.mdf_code.specs.Frames as frames;
ghost use Rattle.mdf_code.specs.declared.instr.Instr.TheVariants as instr;
ghost use Rattle.mdf_vm.specs.Internal.Moves.{Did};
ghost use Rattle.mdf_vm.specs.Runnings.{frame_of};
ghost use Rattle.std.specs.Prelude.{take};
ghost use Rattle.mdf_code.specs.Parts.{sizes_of_formals};
ghost use Rattle.mdf_code.specs.Steps.{sizes_agree, values_of};
ghost use Rattle.mdf_vm.specs.declared.moves.Move.TheVariants as move_kinds;
ghost use Rattle.mdf_vm.specs.declared.moves.Halted.TheVariants as halted;

use crate::code::{is_regular, may_post, may_send};
use crate::handed::{Calling, Handed};
use crate::moves::{Halted, Move, STRAY};
use crate::running::{Flow, Running};
use mdf_code::{RawImage, RawMember};
use mpl_value::{MemberId, NoMemory};
use std::alloc::Global;

impl Running {
    /// A call on a regular member.
    pub fn send(
        &mut self,
        next: usize,
        image: &RawImage,
        member: u32,
        count: u32,
    ) -> Result<Move, NoMemory>
        requires { next ≡ self.old.place + 1 }
        ensures ok { IfOk result (λ move. (knows : ℕ → Arg) (object : ℤ) → Did knows (record { image = image.now; object = object }) (instr.Send member count) self.old move self.new) }
        ensures err { OnErr result (frame_of self.new ≡ frame_of self.old) }
    {
        if !may_send(self.code) {
            return Ok(STRAY);
        }
        let Some(called) = image.members.get(member as usize) else {
            return Ok(STRAY);
        };
        let Some(regular) = is_regular(image, called) else {
            return Ok(STRAY);
        };
        if !regular || called.formals != count {
            return Ok(STRAY);
        }
        let Some(flows) = self.flows.last(called.formals as usize) else {
            return Ok(STRAY);
        };
        if !agree(formals(called), flows) {
            return Ok(STRAY);
        }
        let args = flow_args(self.alloc, flows)?;
        self.flows.shorten(called.formals as usize);
        self.place = next;
        Ok(call_of(member, 0, args))
    }

    /// A call on a persistent member, with its object's word on the stack.
    pub fn post(
        &mut self,
        next: usize,
        image: &RawImage,
        member: u32,
        count: u32,
    ) -> Result<Move, NoMemory>
        requires { next ≡ self.old.place + 1 }
        ensures ok { IfOk result (λ move. (knows : ℕ → Arg) (object : ℤ) → Did knows (record { image = image.now; object = object }) (instr.Post member count) self.old move self.new) }
        ensures err { OnErr result (frame_of self.new ≡ frame_of self.old) }
    {
        if !may_post(image, self.code) {
            return Ok(STRAY);
        }
        let Some(called) = image.members.get(member as usize) else {
            return Ok(STRAY);
        };
        let Some(regular) = is_regular(image, called) else {
            return Ok(STRAY);
        };
        if regular || called.formals != count {
            return Ok(STRAY);
        }
        let Some(object) = self.words.below(0) else {
            return Ok(STRAY);
        };
        let Some(flows) = self.flows.last(called.formals as usize) else {
            return Ok(STRAY);
        };
        if !agree(formals(called), flows) {
            return Ok(STRAY);
        }
        let args = flow_args(self.alloc, flows)?;
        self.words.shorten(1);
        self.flows.shorten(called.formals as usize);
        self.place = next;
        Ok(call_of(member, object, args))
    }
}

fn call_of(member: u32, object: i64, args: Handed) -> Move
    ensures { result ≡ move_kinds.Stops (halted.Call (record { member = record { 0 = member }; object = object; args = args })) }
{
    Move::Stops(Halted::Call(Calling {
        member: MemberId(member),
        object,
        args,
    }))
}

/// The words of each formal of a member.
pub fn formals(member: &RawMember) -> &[u32]
    ensures { result.now ≡ sizes_of_formals member.now }
{
    first(member.body.vars.as_slice(), member.formals)
}

/// So many from the front, if they are there.
pub fn first(sizes: &[u32], count: u32) -> &[u32]
    ensures { result.now ≡ take count sizes.now }
{
    let count = (count as usize).min(sizes.len());
    &sizes[..count]
}

/// Whether each flow value has the words of its formal.
fn agree(sizes: &[u32], flows: &[Flow]) -> bool
    ensures { result ≡ sizes_agree sizes.now flows.now }
{
    if sizes.len() != flows.len() {
        return false;
    }
    for place in 0..sizes.len() {
        if flows[place].size() != sizes[place] {
            return false;
        }
    }
    true
}

fn flow_args(alloc: Global, flows: &[Flow]) -> Result<Handed, NoMemory>
    ensures { IfOk result (λ args. args ≡ values_of flows.now) }
{
    let mut args = Handed::new(alloc);
    for flow in flows {
        let value = flow.value().copy()?;
        args.push(value)?;
    }
    Ok(args)
}
