ghost use Rattle.std.specs.Prelude.{◌≡◌, ◌++◌, map, option_map, Some, OnOk};
ghost use Rattle.mpl_plain.specs.Arity.{count_of};
ghost use Rattle.mpl_body_code.specs.Codes.{expression_code, flow_code, passed_code, target_code, slot_of_name};
ghost use Rattle.mpl_mean.specs.Plain.Scopes.{Slot, class_found};
ghost use Rattle.mpl_mean.specs.Plain.Expr.{expr_of, expr_of_call, expr_of_flow, listed};
ghost use Rattle.mpl_plain.specs.ExprMeaning.{tree_name};
ghost use Rattle.mpl_body_image.specs.Internal.RowCodes.{all_flows_code};
ghost use Rattle.mpl_body_image.specs.Internal.ByNumber.{object_by, own_by, regular_by};
ghost use Rattle.mpl_layout.specs.SeenClasses.{class_seen};
ghost use Rattle.mpl_body_image.specs.Internal.SeenScope.{env_seen, found_seen};

use crate::expressions::{expression, read};
use crate::found::Found;
use crate::names::whole_name;
use crate::scope::{Scope, class_found, found_at, own_member};
use mpl_ast::expression::Expression;
use mpl_ast::flow::{Call, Flow};
use mpl_body_code::{Code, Instruction};
use mpl_layout::class::Class;
use mpl_layout::members::member_id;
use mpl_value::NoMemory;

#[cycle(flow)]
pub fn flow<'o, 'a>(scope: &Scope<'o, 'a>, code: &mut Code, node: &'a Flow) -> Result<(), NoMemory>
    ensures { OnOk result (code.new ≡ code.old ++ flow_code (env_seen scope.now) (expr_of_flow node.now)) }
{
    match node {
        Flow::OfCall(_, inner) => call(scope, code, inner.get()),
        Flow::OfExpression(_, inner) => pass(scope, code, inner),
    }
}

/// A whole formal or local is passed on as it stands.
fn pass<'o, 'a>(
    scope: &Scope<'o, 'a>,
    code: &mut Code,
    node: &'a Expression,
) -> Result<(), NoMemory>
    ensures { OnOk result (code.new ≡ code.old ++ passed_code (slot_of_name (env_seen scope.now) (tree_name (expr_of node.now))) (expression_code (env_seen scope.now) (expr_of node.now))) }
{
    match whole_number(scope, whole_name(node)) {
        Some(number) => code.push(Instruction::Pass(number)),
        None => expression(scope, code, node),
    }
}

/// The number of the variable that a name is, if it is one.
fn whole_number<'o, 'a>(scope: &Scope<'o, 'a>, name: Option<&'a [u8]>) -> Option<usize>
    ensures { result ≡ option_map (λ (slot : Slot). slot.number) (slot_of_name (env_seen scope.now) (option_map (λ name. name.now) name.entry)) }
{
    match name {
        Some(name) => match scope.locals.find(name) {
            Some(slot) => Some(slot.number),
            None => None,
        },
        None => None,
    }
}

#[cycle(flow)]
#[tactic(auto, using(crate::proofs::ByNumbers::own_is))]
pub fn call<'o, 'a>(scope: &Scope<'o, 'a>, code: &mut Code, node: &'a Call) -> Result<(), NoMemory>
    ensures { OnOk result (code.new ≡ code.old ++ flow_code (env_seen scope.now) (expr_of_call node.now)) }
{
    match node {
        Call::OnOwn(_, member, list) => {
            let id = own_member(scope.object, member.text.as_slice());
            on_own(scope, code, id, list.as_slice())
        }
        Call::OnTarget(at, target, member, list) => {
            let found = found_at(scope, target)?;
            on_target(
                scope,
                code,
                at.line,
                found,
                member.text.as_slice(),
                list.as_slice(),
            )
        }
    }
}

#[cycle(flow)]
fn on_own<'o, 'a>(
    scope: &Scope<'o, 'a>,
    code: &mut Code,
    id: Option<u32>,
    list: &'a [Flow],
) -> Result<(), NoMemory>
    ensures { OnOk result (code.new ≡ code.old ++ own_by id (count_of (listed (map expr_of_flow list.now))) (all_flows_code (env_seen scope.now) list.now)) }
{
    match id {
        Some(id) => {
            code.push(Instruction::Own)?;
            flows(scope, code, list)?;
            code.push(Instruction::CallObject(id, count(list)))
        }
        None => code.push(Instruction::Wait),
    }
}

#[cycle(flow)]
fn on_target<'o, 'a>(
    scope: &Scope<'o, 'a>,
    code: &mut Code,
    line: u32,
    found: Option<Found<'a>>,
    member: &[u8],
    list: &'a [Flow],
) -> Result<(), NoMemory>
    ensures { OnOk result (code.new ≡ code.old ++ target_code line (option_map found_seen found.entry) (class_found (env_seen scope.now) (option_map found_seen found.entry)) member.now (count_of (listed (map expr_of_flow list.now))) (all_flows_code (env_seen scope.now) list.now)) }
{
    match found {
        Some(found) => match class_found(scope, found) {
            Some(class) => on_class(scope, code, line, found, class, member, list),
            None => code.push(Instruction::Wait),
        },
        None => code.push(Instruction::Wait),
    }
}

#[cycle(flow)]
#[tactic(auto, using(crate::proofs::ByNumbers::object_is, crate::proofs::ByNumbers::regular_is))]
fn on_class<'o, 'a>(
    scope: &Scope<'o, 'a>,
    code: &mut Code,
    line: u32,
    found: Found<'a>,
    class: Class<'a>,
    member: &[u8],
    list: &'a [Flow],
) -> Result<(), NoMemory>
    ensures { OnOk result (code.new ≡ code.old ++ target_code line (Some (found_seen found.entry)) (Some (class_seen class.entry)) member.now (count_of (listed (map expr_of_flow list.now))) (all_flows_code (env_seen scope.now) list.now)) }
{
    let id = member_id(class, member);
    if class.is_regular {
        on_regular(scope, code, id, list)
    } else {
        read(code, Some(found))?;
        code.push(Instruction::Receiver(line))?;
        on_object(scope, code, id, list)
    }
}

#[cycle(flow)]
fn on_regular<'o, 'a>(
    scope: &Scope<'o, 'a>,
    code: &mut Code,
    id: Option<u32>,
    list: &'a [Flow],
) -> Result<(), NoMemory>
    ensures { OnOk result (code.new ≡ code.old ++ regular_by id (count_of (listed (map expr_of_flow list.now))) (all_flows_code (env_seen scope.now) list.now)) }
{
    match id {
        Some(id) => {
            flows(scope, code, list)?;
            code.push(Instruction::CallRegular(id as usize, count(list)))
        }
        None => code.push(Instruction::Wait),
    }
}

#[cycle(flow)]
fn on_object<'o, 'a>(
    scope: &Scope<'o, 'a>,
    code: &mut Code,
    id: Option<u32>,
    list: &'a [Flow],
) -> Result<(), NoMemory>
    ensures { OnOk result (code.new ≡ code.old ++ object_by id (count_of (listed (map expr_of_flow list.now))) (all_flows_code (env_seen scope.now) list.now)) }
{
    match id {
        Some(id) => {
            flows(scope, code, list)?;
            code.push(Instruction::CallObject(id, count(list)))
        }
        None => code.push(Instruction::Wait),
    }
}

#[cycle(flow)]
fn flows<'o, 'a>(scope: &Scope<'o, 'a>, code: &mut Code, list: &'a [Flow]) -> Result<(), NoMemory>
    ensures { OnOk result (code.new ≡ code.old ++ all_flows_code (env_seen scope.now) list.now) }
{
    for argument in list {
        flow(scope, code, argument)?;
    }
    Ok(())
}

/// How many arguments there are.
#[tactic(auto, using(crate::proofs::ByNumbers::as_many_flows))]
fn count(list: &[Flow]) -> usize
    ensures { result ≡ count_of (listed (map expr_of_flow list.now)) }
{
    list.len()
}
