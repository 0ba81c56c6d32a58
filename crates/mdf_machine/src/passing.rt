ghost use Rattle.std.specs.Prelude.{◌≡◌, ◌≤◌, ◌<◌, ℕ, Some, None, IfOk, OnOk, OnErr, IsSome, length, map, replicate, slice_get};
ghost use Rattle.std.specs.List.{AllByRecursion};
ghost use Rattle.std.specs.FinMap.{get, insert};
ghost use Rattle.mdf_match.specs.Ports.{missing_in, port_at};
ghost use Rattle.mdf_machine.specs.Internal.Sending.{IsShort, filled_by, passed_by, port_given};

use crate::parts::Parts;
use mdf_match::{Matcher, Tag, Token};
use mdf_vm::FlowArg;
use mpl_value::{Known, NoMemory};
use std::alloc::Global;

impl Parts {
    /// For each argument of a call the actor whose result is passed there, if it is a result.
    pub fn passed(
        &self,
        alloc: Global,
        actor: u32,
        args: &[FlowArg],
    ) -> Result<Vec<Option<u32>>, NoMemory>
        ensures { IfOk result (λ passed. passed.items ≡ map (passed_by self.now.rows actor) args.now) }
    {
        let mut passed = Vec::new(alloc);
        for arg in args {
            passed.push(self.passed_by(actor, arg))?;
        }
        Ok(passed)
    }

    fn passed_by(&self, actor: u32, arg: &FlowArg) -> Option<u32>
        ensures { result ≡ passed_by self.now.rows actor arg.now }
    {
        match arg {
            FlowArg::Known(_) => None,
            FlowArg::Result(call) => self.rows.child(actor, *call),
        }
    }
}

/// The ports of one more actor, with what comes to them at once. Answers how many are missing.
pub fn open_ports(ports: &mut Matcher, actor: u32, args: &[FlowArg]) -> Result<u32, NoMemory>
    requires new { get ports.old actor ≡ None }
    requires few { length args.now ≤ 16 }
    requires short { AllByRecursion IsShort args.now }
    ensures missing { IfOk result (λ missing. missing ≡ missing_in (map port_given args.now)) }
    ensures ok { OnOk result (ports.new ≡ insert ports.old actor (map port_given args.now)) }
    ensures err { OnErr result (ports.new ≡ ports.old) }
{
    ports.open(actor, args.len() as u32)?;
    if let Err(why) = fill_ports(ports, actor, args) {
        ports.close(actor);
        return Err(why);
    }
    let Some(missing) = ports.missing(actor) else {
        unreachable!()
    };
    Ok(missing)
}

/// What comes at once comes to the ports of an actor, which are empty.
fn fill_ports(ports: &mut Matcher, actor: u32, args: &[FlowArg]) -> Result<(), NoMemory>
    requires empty { get ports.old actor ≡ Some (replicate (length args.now) None) }
    requires few { length args.now ≤ 16 }
    requires short { AllByRecursion IsShort args.now }
    ensures ok { OnOk result (get ports.new actor ≡ Some (map port_given args.now)) }
    ensures there { IsSome (get ports.new actor) }
    ensures others { (other : ℕ) → (other ≡ actor → ⊥) → get ports.new other ≡ get ports.old other }
{
    for port in 0..args.len() as u32 {
        fill(ports, Tag { actor, port }, arg_at(args, port))?;
    }
    Ok(())
}

fn fill(ports: &mut Matcher, tag: Tag, arg: &FlowArg) -> Result<(), NoMemory>
    requires empty { port_at ports.old tag ≡ Some None }
    requires short { IsShort arg.now }
    ensures ok { OnOk result (ports.new ≡ filled_by ports.old tag arg.now) }
    ensures err { OnErr result (ports.new ≡ ports.old) }
{
    if let FlowArg::Known(known) = arg {
        let known = copied(known)?;
        ports.arrive(Token { tag, known });
    }
    Ok(())
}

fn arg_at(args: &[FlowArg], place: u32) -> &FlowArg
    requires { place < length args.now }
    ensures { slice_get args.now place ≡ Some result.now }
{
    &args[place as usize]
}

fn copied(known: &Known) -> Result<Known, NoMemory>
    ensures { IfOk result (λ copy. copy ≡ known.now) }
{
    match known {
        Known::Value(words) => Ok(Known::Value(words.copy()?)),
        Known::Trapped(trap) => Ok(Known::Trapped(*trap)),
    }
}
