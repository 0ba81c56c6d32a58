//! The code of flows and calls, which leaves a flow value.

ghost use Rattle.std.specs.Prelude.{◌≡◌, length, option_map, Some, IfOk, OnOk};
ghost use Rattle.mdf_code.specs.declared.instr.Instr.TheVariants as instr;
ghost use Rattle.mpl_mean.specs.FirstForms.ExpressionLevels.{expr_of_primary};
ghost use Rattle.mpl_mean.specs.Meaning.CallMeaning.{name_of_target};
ghost use Rattle.mpl_mean.specs.Plain.Expr.{expr_of, expr_of_call, expr_of_flow, expr_of_place};
ghost use Rattle.mpl_gen_code.specs.ExpressionCode.{flow_code, target_code, value_code};
ghost use Rattle.mpl_gen_code.specs.Pieces.{followed_by};
ghost use Rattle.mpl_gen_code.specs.Scopes.{class_found, whole_slot};
ghost use Rattle.mpl_gen_expr.specs.ByNumber.{own_by, post_by, send_by};
ghost use Rattle.mpl_gen_expr.specs.RowCodes.{all_flows, codes_of_flows};
ghost use Rattle.mpl_gen_expr.specs.Texts.{written};
ghost use Rattle.mpl_layout.specs.SeenClasses.{class_seen};
ghost use Rattle.mpl_gen_scope.specs.SeenLocals.{slot_seen};
ghost use Rattle.mpl_gen_scope.specs.SeenScope.{env_seen, found_seen};

use crate::alone::{Alone, primary_alone};
use crate::codes::Codes;
use crate::draft::Draft;
use crate::expressions::{expression, place, primary};
use crate::kinds::{kind_of_call, kind_of_expression, kind_of_place};
use crate::places::read;
use mdf_code::Instr;
use mpl_ast::expression::{Expression, Place, Primary, Target};
use mpl_ast::flow::{Call, Flow};
use mpl_gen_scope::found::Found;
use mpl_gen_scope::locals::Slot;
use mpl_gen_scope::scope::{Scope, class_found, found_at, own_member};
use mpl_layout::class::Class;
use mpl_layout::members::member_id;
use mpl_value::NoMemory;

#[cycle(flow)]
pub fn flow<'o, 'a>(
    scope: &Scope<'o, 'a>,
    codes: &mut Codes,
    node: &'a Flow,
) -> Result<(), NoMemory>
    ensures { OnOk result (codes.new ≡ written (flow_code (env_seen scope.now) (expr_of_flow node.now)) codes.old) }
{
    match node {
        Flow::OfCall(_, inner) => call(scope, codes, inner.get()),
        Flow::OfExpression(_, inner) => pass(scope, codes, inner),
    }
}

/// The words of what a flow gives.
pub fn flow_value<'o, 'a>(
    scope: &Scope<'o, 'a>,
    codes: &mut Codes,
    node: &'a Flow,
) -> Result<(), NoMemory>
    ensures { OnOk result (codes.new ≡ written (value_code (env_seen scope.now) (expr_of_flow node.now)) codes.old) }
{
    match node {
        Flow::OfCall(_, inner) => call_value(scope, codes, inner.get()),
        Flow::OfExpression(_, inner) => expression(scope, codes, inner),
    }
}

// ---- expressions

/// The value of an expression, as a flow value.
#[tactic(auto, using(crate::proofs::Texts::followed_written))]
fn pass<'o, 'a>(
    scope: &Scope<'o, 'a>,
    codes: &mut Codes,
    node: &'a Expression,
) -> Result<(), NoMemory>
    ensures { OnOk result (codes.new ≡ written (flow_code (env_seen scope.now) (expr_of node.now)) codes.old) }
{
    match primary_alone(node) {
        Alone::Primary(inner) => pass_primary(scope, codes, inner),
        Alone::Computed => {
            expression(scope, codes, node)?;
            codes.push(Draft::ArgWords(1))
        }
    }
}

fn pass_primary<'o, 'a>(
    scope: &Scope<'o, 'a>,
    codes: &mut Codes,
    node: &'a Primary,
) -> Result<(), NoMemory>
    ensures { OnOk result (codes.new ≡ written (flow_code (env_seen scope.now) (expr_of_primary node.now)) codes.old) }
{
    match node {
        Primary::Read(_, inner) => pass_place(scope, codes, inner.get()),
        Primary::CallPlain(_, function, _) => {
            let kind = kind_of_call(scope.outline, function.text.as_slice());
            primary(scope, codes, node)?;
            codes.push(Draft::ArgWords(kind.words))
        }
        Primary::Parenthesized(_, inner) => {
            let kind = kind_of_expression(scope, inner.get())?;
            primary(scope, codes, node)?;
            codes.push(Draft::ArgWords(kind.words))
        }
        Primary::Number(..) => pass_word(scope, codes, node),
        Primary::True(_) => pass_word(scope, codes, node),
        Primary::False(_) => pass_word(scope, codes, node),
        Primary::Own(_) => pass_word(scope, codes, node),
        Primary::Input(_) => pass_word(scope, codes, node),
    }
}

#[tactic(auto, using(crate::proofs::Texts::followed_written))]
fn pass_word<'o, 'a>(
    scope: &Scope<'o, 'a>,
    codes: &mut Codes,
    node: &'a Primary,
) -> Result<(), NoMemory>
    ensures { OnOk result (codes.new ≡ written (followed_by (value_code (env_seen scope.now) (expr_of_primary node.now)) (instr.ArgWords 1)) codes.old) }
{
    primary(scope, codes, node)?;
    codes.push(Draft::ArgWords(1))
}

/// A whole variable is passed on as it stands.
fn pass_place<'o, 'a>(
    scope: &Scope<'o, 'a>,
    codes: &mut Codes,
    node: &'a Place,
) -> Result<(), NoMemory>
    ensures { OnOk result (codes.new ≡ written (flow_code (env_seen scope.now) (expr_of_place node.now)) codes.old) }
{
    match node {
        Place::Whole(_, target) => match whole_slot(scope, target) {
            Some(slot) => codes.push(Draft::ArgVariable(slot.number)),
            None => {
                let kind = kind_of_place(scope, node)?;
                place(scope, codes, node)?;
                codes.push(Draft::ArgWords(kind.words))
            }
        },
        Place::Element(..) => {
            place(scope, codes, node)?;
            codes.push(Draft::ArgWords(1))
        }
    }
}

/// The variable that a place is, if it is a whole one.
fn whole_slot<'o, 'a>(scope: &Scope<'o, 'a>, target: &'a Target) -> Option<Slot<'a>>
    ensures { option_map slot_seen result ≡ whole_slot (env_seen scope.now) (name_of_target target.now) }
{
    match target {
        Target::Variable(_, name) => scope.locals.find(name.text.as_slice()),
        Target::Field(..) => None,
    }
}

// ---- calls

#[cycle(flow)]
#[tactic(auto, using(crate::proofs::ByNumber::own_is))]
pub fn call<'o, 'a>(
    scope: &Scope<'o, 'a>,
    codes: &mut Codes,
    node: &'a Call,
) -> Result<(), NoMemory>
    ensures { OnOk result (codes.new ≡ written (flow_code (env_seen scope.now) (expr_of_call node.now)) codes.old) }
{
    match node {
        Call::OnOwn(_, member, list) => {
            let id = own_member(scope.class, member.text.as_slice());
            on_own(scope, codes, id, list.as_slice())
        }
        Call::OnTarget(at, target, member, list) => {
            let found = found_at(scope, target)?;
            let marked = scope.marks.has(at.id);
            on_target(
                scope,
                codes,
                marked,
                at.line,
                found,
                member.text.as_slice(),
                list.as_slice(),
            )
        }
    }
}

/// The words of what a call gives, which are needed.
fn call_value<'o, 'a>(
    scope: &Scope<'o, 'a>,
    codes: &mut Codes,
    node: &'a Call,
) -> Result<(), NoMemory>
    ensures { OnOk result (codes.new ≡ written (value_code (env_seen scope.now) (expr_of_call node.now)) codes.old) }
{
    match node {
        Call::OnOwn(..) => {
            call(scope, codes, node)?;
            codes.push(Draft::Small(Instr::Force))
        }
        Call::OnTarget(..) => {
            call(scope, codes, node)?;
            codes.push(Draft::Small(Instr::Force))
        }
    }
}

#[cycle(flow)]
#[tactic(auto, using(crate::proofs::Texts::joined_written, crate::proofs::Texts::followed_written, crate::proofs::Texts::none_written))]
fn on_own<'o, 'a>(
    scope: &Scope<'o, 'a>,
    codes: &mut Codes,
    id: Option<u32>,
    list: &'a [Flow],
) -> Result<(), NoMemory>
    ensures { OnOk result (codes.new ≡ written (own_by id (length (codes_of_flows (env_seen scope.now) list.now)) (all_flows (env_seen scope.now) list.now)) codes.old) }
{
    match id {
        Some(id) => {
            codes.push(Draft::Small(Instr::Own))?;
            flows(scope, codes, list)?;
            let count = count(scope, list);
            codes.push(Draft::Post(id, count))
        }
        None => Ok(()),
    }
}

#[cycle(flow)]
#[tactic(auto, using(crate::proofs::Texts::none_written))]
fn on_target<'o, 'a>(
    scope: &Scope<'o, 'a>,
    codes: &mut Codes,
    marked: bool,
    line: u32,
    found: Option<Found<'a>>,
    member: &[u8],
    list: &'a [Flow],
) -> Result<(), NoMemory>
    ensures { OnOk result (codes.new ≡ written (target_code marked line (option_map found_seen found.entry) (class_found (env_seen scope.now) (option_map found_seen found.entry)) member.now (length (codes_of_flows (env_seen scope.now) list.now)) (all_flows (env_seen scope.now) list.now)) codes.old) }
{
    match found {
        Some(found) => match class_found(scope, found) {
            Some(class) => on_class(scope, codes, marked, line, found, class, member, list),
            None => Ok(()),
        },
        None => Ok(()),
    }
}

#[cycle(flow)]
#[tactic(auto, using(crate::proofs::ByNumber::send_is, crate::proofs::ByNumber::post_is, crate::proofs::Texts::joined_written, crate::proofs::Texts::followed_written))]
fn on_class<'o, 'a>(
    scope: &Scope<'o, 'a>,
    codes: &mut Codes,
    marked: bool,
    line: u32,
    found: Found<'a>,
    class: Class<'a>,
    member: &[u8],
    list: &'a [Flow],
) -> Result<(), NoMemory>
    ensures { OnOk result (codes.new ≡ written (target_code marked line (Some (found_seen found.entry)) (Some (class_seen class.entry)) member.now (length (codes_of_flows (env_seen scope.now) list.now)) (all_flows (env_seen scope.now) list.now)) codes.old) }
{
    let id = member_id(class, member);
    if class.is_regular {
        on_regular(scope, codes, id, list)
    } else {
        read(codes, marked, Some(found))?;
        codes.push(Draft::Small(Instr::Bound(line)))?;
        on_object(scope, codes, id, list)
    }
}

#[cycle(flow)]
#[tactic(auto, using(crate::proofs::Texts::followed_written, crate::proofs::Texts::none_written))]
fn on_regular<'o, 'a>(
    scope: &Scope<'o, 'a>,
    codes: &mut Codes,
    id: Option<u32>,
    list: &'a [Flow],
) -> Result<(), NoMemory>
    ensures { OnOk result (codes.new ≡ written (send_by id (length (codes_of_flows (env_seen scope.now) list.now)) (all_flows (env_seen scope.now) list.now)) codes.old) }
{
    match id {
        Some(id) => {
            flows(scope, codes, list)?;
            let count = count(scope, list);
            codes.push(Draft::Send(id, count))
        }
        None => Ok(()),
    }
}

#[cycle(flow)]
#[tactic(auto, using(crate::proofs::Texts::followed_written, crate::proofs::Texts::none_written))]
fn on_object<'o, 'a>(
    scope: &Scope<'o, 'a>,
    codes: &mut Codes,
    id: Option<u32>,
    list: &'a [Flow],
) -> Result<(), NoMemory>
    ensures { OnOk result (codes.new ≡ written (post_by id (length (codes_of_flows (env_seen scope.now) list.now)) (all_flows (env_seen scope.now) list.now)) codes.old) }
{
    match id {
        Some(id) => {
            flows(scope, codes, list)?;
            let count = count(scope, list);
            codes.push(Draft::Post(id, count))
        }
        None => Ok(()),
    }
}

#[cycle(flow)]
fn flows<'o, 'a>(scope: &Scope<'o, 'a>, codes: &mut Codes, list: &'a [Flow]) -> Result<(), NoMemory>
    ensures { OnOk result (codes.new ≡ written (all_flows (env_seen scope.now) list.now) codes.old) }
{
    for argument in list {
        flow(scope, codes, argument)?;
    }
    Ok(())
}

/// How many arguments there are.
#[tactic(auto, using(crate::proofs::ByNumber::as_many_flows))]
fn count<'o, 'a>(scope: &Scope<'o, 'a>, list: &[Flow]) -> usize
    ensures { result ≡ length (codes_of_flows (env_seen scope.now) list.now) }
{
    list.len()
}
