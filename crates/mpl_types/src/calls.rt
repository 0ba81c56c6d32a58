//! Calls of members, and what may be a call or an expression.

ghost use Rattle.std.specs.Prelude.{◌≡◌, map, option_map, Some, None};
ghost use Rattle.std.specs.Option.{option_and_then};
ghost use Rattle.mpl_mean.specs.TypeRules.CallRules as rules;
ghost use Rattle.mpl_mean.specs.TypeRules.ClassRules as classes;
ghost use Rattle.mpl_mean.specs.TypeRules.Types as typing;
ghost use Rattle.mpl_mean.specs.Plain.Expr.{begins, expr_of_call, expr_of_flow, listed};
ghost use Rattle.mpl_mean.specs.TypeRules.NameRules.{has_member};
ghost use Rattle.mpl_mean.specs.TypeRules.Scopes.{is_persistent};
ghost use Rattle.mpl_mean.specs.TypeRules.Typing.{arguments_agree, formal_types, items_called, member_called, member_of, receiver_shape, type_of, type_of_call, types_of};
ghost use Rattle.mpl_types.specs.Internal.Expressions.{call_with, callee_least, expr_least, exprs_least, formals_called, statement_call_least};
ghost use Rattle.mpl_types.specs.Internal.Least.{noted};
ghost use Rattle.mpl_types.specs.Internal.Seen.{failure_of};
ghost use Rattle.mpl_scope.specs.SeenMembers.{seen_member};
ghost use Rattle.mpl_scope.specs.SeenScope.{seen_body, seen_if_any, seen_scope};
ghost use Rattle.mpl_scope.specs.SeenShapes.{seen_shapes};
ghost use Rattle.mpl_scope.specs.SeenTypes.{seen_types};

use crate::arguments::{Checked, Matched, all_agree, no_argument, one_more};
use crate::expressions::check_expression;
use crate::failure::{Failure, earlier, noted};
use crate::places::{check_own, check_target};
use mpl_ast::Name;
use mpl_ast::class::{Formal, ResultType};
use mpl_ast::expression::Target;
use mpl_ast::flow::{Call, Flow};
use mpl_scope::members::Member;
use mpl_scope::names::Role;
use mpl_scope::scope::{Body, Scope, is_persistent, member_of_shape, own_shape, shape_has_member};
use mpl_scope::shapes::{Shape, can_be_called, is_object, value_type};
use mpl_scope::types::ValueType;

/// What is called: its member, where there is one, whether that can be called at all, and the least failure in the
/// call without its arguments.
#[derive(Clone, Copy)]
pub struct Callee<'a> {
    pub member: Option<Member<'a>>,
    pub can_be_called: bool,
    pub failure: Option<Failure>,
}

#[cycle(call)]
pub fn check_flow<'a>(scope: &Scope<'a>, node: &'a Flow) -> Checked<'a>
    ensures at { result.at ≡ begins (expr_of_flow node.now) }
    ensures value { seen_types result.value ≡ type_of (seen_scope scope.now) (expr_of_flow node.now) }
    ensures failure { failure_of result.failure ≡ expr_least (seen_scope scope.now) (expr_of_flow node.now) }
{
    match node {
        Flow::OfCall(_, call) => check_call(scope, call.get()),
        Flow::OfExpression(_, expression) => check_expression(scope, expression),
    }
}

/// A call that is no whole statement.
#[tactic(auto, using(crate::proofs::ArgumentLemmas::called_is))]
#[cycle(call)]
fn check_call<'a>(scope: &Scope<'a>, node: &'a Call) -> Checked<'a>
    ensures at { result.at ≡ begins (expr_of_call node.now) }
    ensures value { seen_types result.value ≡ type_of (seen_scope scope.now) (expr_of_call node.now) }
    ensures failure { failure_of result.failure ≡ expr_least (seen_scope scope.now) (expr_of_call node.now) }
{
    match node {
        Call::OnOwn(at, member, arguments) => {
            let callee = own_callee(at.span.from, scope, member);
            let matched = check_flows(&*scope, arguments.as_slice(), formals_of_callee(callee));
            passed_on(at.span.from, scope, callee, matched)
        }
        Call::OnTarget(at, target, member, arguments) => {
            let callee = target_callee(at.span.from, scope, target, member);
            let matched = check_flows(&*scope, arguments.as_slice(), formals_of_callee(callee));
            passed_on(at.span.from, scope, callee, matched)
        }
    }
}

#[tactic(auto, using(crate::proofs::ArgumentLemmas::known_step, crate::proofs::ArgumentLemmas::agree_at_end, crate::proofs::ArgumentLemmas::least_at_end, crate::proofs::ArgumentLemmas::as_many_types))]
#[cycle(call)]
fn check_flows<'a>(scope: &Scope<'a>, arguments: &'a [Flow], formals: &'a [Formal]) -> Matched
    ensures agrees { result.agrees ≡ arguments_agree (types_of (seen_scope scope.now) (listed (map expr_of_flow arguments.now))) (formal_types scope.now.outline.now formals.now) }
    ensures failure { failure_of result.failure ≡ exprs_least (seen_scope scope.now) (listed (map expr_of_flow arguments.now)) }
{
    let mut so_far = no_argument();
    for i in 0..arguments.len() {
        let argument = check_flow(scope, &arguments[i]);
        so_far = one_more(so_far, scope.outline, &*formals, i, argument);
    }
    Matched {
        agrees: all_agree(so_far, arguments.len(), &*formals),
        failure: so_far.failure,
    }
}

/// A call that is a whole statement.
#[tactic(auto, using(crate::proofs::ArgumentLemmas::called_is))]
pub fn check_call_alone<'a>(scope: &Scope<'a>, node: &'a Call) -> Option<Failure>
    ensures { failure_of result ≡ statement_call_least (seen_scope scope.now) (expr_of_call node.now) }
{
    match node {
        Call::OnOwn(at, member, arguments) => {
            let callee = own_callee(at.span.from, scope, member);
            let matched = check_flows(&*scope, arguments.as_slice(), formals_of_callee(callee));
            called(at.span.from, callee, matched)
        }
        Call::OnTarget(at, target, member, arguments) => {
            let callee = target_callee(at.span.from, scope, target, member);
            let matched = check_flows(&*scope, arguments.as_slice(), formals_of_callee(callee));
            called(at.span.from, callee, matched)
        }
    }
}

// ---- what is called

fn own_callee<'a>(at: u32, scope: &Scope<'a>, member: &'a Name) -> Callee<'a>
    ensures member { option_map seen_member result.member ≡ member_called (seen_scope scope.now) None member.now.text }
    ensures can { result.can_be_called ≡ rules.can_be_called (receiver_shape (seen_scope scope.now) None) }
    ensures failure { failure_of result.failure ≡ callee_least at (seen_scope scope.now) None member.now }
{
    let shape = own_shape(scope);
    callee_of(at, scope, shape, member, check_own(at, scope))
}

fn target_callee<'a>(at: u32, scope: &Scope<'a>, target: &'a Target, member: &'a Name) -> Callee<'a>
    ensures member { option_map seen_member result.member ≡ member_called (seen_scope scope.now) (Some target.now) member.now.text }
    ensures can { result.can_be_called ≡ rules.can_be_called (receiver_shape (seen_scope scope.now) (Some target.now)) }
    ensures failure { failure_of result.failure ≡ callee_least at (seen_scope scope.now) (Some target.now) member.now }
{
    let target = check_target(scope, target);
    callee_of(at, scope, target.shape, member, target.failure)
}

/// A member of what has this shape.
fn callee_of<'a>(
    at: u32,
    scope: &Scope<'a>,
    shape: Option<Shape<'a>>,
    member: &'a Name,
    of_receiver: Option<Failure>,
) -> Callee<'a>
    ensures member { option_map seen_member result.member ≡ option_and_then (member_of member.now.text) (items_called scope.now.outline.now (seen_shapes shape.entry)) }
    ensures can { result.can_be_called ≡ rules.can_be_called (seen_shapes shape.entry) }
    ensures failure { failure_of result.failure ≡
        noted at 21 (rules.call_may_stand (seen_body scope.now.body) (is_persistent (seen_if_any scope.now.class)) (seen_shapes shape.entry))
        (noted member.now.from 1 (has_member member.now.text (items_called scope.now.outline.now (seen_shapes shape.entry))) (failure_of of_receiver)) }
{
    let name = member.text.as_slice();
    let has_member = shape_has_member(scope.outline, shape, name);
    let of_member = noted(member.from, 1, has_member, of_receiver);
    let may_stand = call_may_stand(scope.body, is_persistent(scope.class), shape);
    Callee {
        member: member_of_shape(scope.outline, shape, name),
        can_be_called: can_be_called(shape),
        failure: noted(at, 21, may_stand, of_member),
    }
}

fn formals_of_callee<'a>(callee: Callee<'a>) -> &'a [Formal]
    ensures { result.now ≡ formals_called (option_map seen_member callee.entry.member) }
{
    match callee.member {
        Some(member) => member.formals,
        None => &[],
    }
}

/// A call on a receiver of this shape may stand in such a body, in a persistent class or not.
fn call_may_stand(body: Body, is_persistent: bool, shape: Option<Shape>) -> bool
    ensures { result ≡ rules.call_may_stand (seen_body body.entry) is_persistent (seen_shapes shape.entry) }
{
    match body {
        Body::Main => true,
        Body::Member(_) => is_persistent || is_no_object(shape),
        Body::Function(_) | Body::Guard => false,
    }
}

fn is_no_object(shape: Option<Shape>) -> bool
    ensures { result ≡ rules.is_no_object (seen_shapes shape.entry) }
{
    match shape {
        Some(Shape::OneValue(value)) => !matches!(value, ValueType::Class(_)),
        Some(Shape::AnArray(_)) | Some(Shape::ARegular(_)) | None => true,
    }
}

// ---- a whole call

/// A call with its arguments.
fn called<'a>(at: u32, callee: Callee<'a>, matched: Matched) -> Option<Failure>
    ensures { failure_of result ≡ call_with at (option_map seen_member callee.entry.member) callee.entry.can_be_called (failure_of callee.entry.failure) matched.agrees (failure_of matched.failure) }
{
    let takes = callee.member.is_none() || matched.agrees;
    let of_call = noted(at, 19, callee.can_be_called && takes, callee.failure);
    earlier(of_call, matched.failure)
}

/// A call whose value is used.
fn passed_on<'a>(at: u32, scope: &Scope<'a>, callee: Callee<'a>, matched: Matched) -> Checked<'a>
    ensures at { result.at ≡ at }
    ensures value { seen_types result.value ≡ type_of_call scope.now.outline.now (option_map seen_member callee.entry.member) }
    ensures failure { failure_of result.failure ≡ noted at 20 (rules.member_has_value (option_map seen_member callee.entry.member))
        (call_with at (option_map seen_member callee.entry.member) callee.entry.can_be_called (failure_of callee.entry.failure) matched.agrees (failure_of matched.failure)) }
{
    let of_call = called(at, callee, matched);
    match callee.member {
        Some(member) => Checked {
            at,
            value: result_type(scope, member.result),
            fits_guard: false,
            failure: noted(at, 20, has_value(member.result), of_call),
        },
        None => Checked {
            at,
            value: None,
            fits_guard: false,
            failure: of_call,
        },
    }
}

fn result_type<'a>(scope: &Scope<'a>, declared: &'a ResultType) -> Option<ValueType<'a>>
    ensures { seen_types result ≡ typing.result_type scope.now.outline.now declared.now }
{
    match declared {
        ResultType::Void(_) => None,
        ResultType::Typed(_, type_name) => {
            value_type(Role::Result, scope.outline.meant(type_name))
        }
    }
}

pub fn has_value(declared: &ResultType) -> bool
    ensures { result ≡ classes.has_value declared.now }
{
    matches!(declared, ResultType::Typed(..))
}
