//! Statements: the least failure in each, and what is in scope behind it.

ghost use Rattle.std.specs.Prelude.{◌≡◌, map, option_map, OnOk, IfOk};
ghost use Rattle.mpl_mean.specs.TypeRules.CallRules as calls;
ghost use Rattle.mpl_mean.specs.Plain.Expr.{expr_of, expr_of_flow};
ghost use Rattle.mpl_mean.specs.TypeRules.Scopes as scopes;
ghost use Rattle.mpl_mean.specs.TypeRules.StatementNodes as nodes;
ghost use Rattle.mpl_mean.specs.Plain.Stmt.{Creates, Gives, Loops, Returns, assigns, if_any, in_turn, starts, stmt_of};
ghost use Rattle.mpl_types.specs.Internal.Seen.{failure_of};
ghost use Rattle.mpl_scope.specs.SeenScope.{seen_body, seen_scope};
ghost use Rattle.mpl_scope.specs.SeenTypes.{seen_types};
ghost use Rattle.mpl_types.specs.Internal.Statements.{after, gives, is_result, print_least, returns, stmt_least, stmts_least, test_least};

use crate::calls::{check_call_alone, check_flow};
use crate::expressions::{check_expression, check_place};
use crate::failure::{Failure, earlier, noted};
use crate::locals::check_local;
use crate::places::check_target;
use mpl_ast::At;
use mpl_ast::class::ResultType;
use mpl_ast::expression::{Expression, Target};
use mpl_ast::flow::{Assignment, Flow};
use mpl_ast::statement::{ForHead, ForStart, Statement, TypeName};
use mpl_scope::blocks::{enter, leave};
use mpl_scope::names::Role;
use mpl_scope::scope::{Body, Scope, is_in_main, is_in_member, is_persistent};
use mpl_scope::shapes::{is_no_regular, is_object, value_type};
use mpl_scope::types::{ValueType, agree, can_be_printed};
use mpl_value::NoMemory;
use std::alloc::Global;

// ---- statements without statements in them

fn check_assignment<'a>(scope: &Scope<'a>, assignment: &'a Assignment) -> Option<Failure>
    ensures { failure_of result ≡ stmt_least (assigns assignment.now) (seen_scope scope.now) }
{
    let place = check_place(scope, &assignment.place);
    let value = check_flow(scope, &assignment.value);
    let agrees = agree(place.value, value.value);
    let of_parts = earlier(place.failure, value.failure);
    noted(assignment.at.span.from, 17, agrees, of_parts)
}

fn check_create<'a>(at: At, scope: &Scope<'a>, target: &'a Target) -> Option<Failure>
    ensures { failure_of result ≡ stmt_least (Creates at target.now) (seen_scope scope.now) }
{
    let target = check_target(scope, target);
    let may_stand = create_may_stand(scope.body, is_persistent(scope.class));
    let of_place = noted(at.span.from, 21, may_stand, target.failure);
    let of_class = noted(at.span.from, 19, is_object(target.shape), of_place);
    noted(at.span.from, 15, is_no_regular(target.shape), of_class)
}

fn create_may_stand(body: Body, is_persistent: bool) -> bool
    ensures { result ≡ calls.create_may_stand (seen_body body.entry) is_persistent }
{
    match body {
        Body::Main => true,
        Body::Member(_) => is_persistent,
        Body::Function(_) | Body::Guard => false,
    }
}

fn check_test<'a>(scope: &Scope<'a>, test: &'a Expression) -> Option<Failure>
    ensures { failure_of result ≡ test_least (expr_of test.now) (seen_scope scope.now) }
{
    let test = check_expression(scope, test);
    let agrees = agree(Some(ValueType::Bool), test.value);
    noted(test.at, 12, agrees, test.failure)
}

#[tactic(auto, using(std::proofs::lemmas::Grind::common_steps, crate::proofs::LeastLemmas::earlier_assoc, crate::proofs::LeastLemmas::earlier_none, crate::proofs::LoopLemmas::printed_and_others))]
fn check_printed<'a>(scope: &Scope<'a>, arguments: &'a [Expression]) -> Option<Failure>
    ensures { failure_of result ≡ print_least (map expr_of arguments.now) (seen_scope scope.now) }
{
    let mut found = None;
    for argument in arguments {
        let argument = check_expression(scope, argument);
        let printed = can_be_printed(argument.value);
        found = earlier(found, noted(argument.at, 13, printed, argument.failure));
    }
    found
}

fn check_rtf<'a>(at: At, scope: &Scope<'a>, value: &'a Flow) -> Option<Failure>
    ensures { failure_of result ≡ stmt_least (Gives at (expr_of_flow value.now)) (seen_scope scope.now) }
{
    let value = check_flow(scope, value);
    noted(
        at.span.from,
        24,
        can_give(scope, value.value),
        value.failure,
    )
}

/// In a member with a value, of its type.
fn can_give<'a>(scope: &Scope<'a>, value: Option<ValueType<'a>>) -> bool
    ensures { result ≡ gives (seen_scope scope.now).declarations (seen_body scope.now.body) (seen_types value.entry) }
{
    match scope.body {
        Body::Member(result) => match result {
            ResultType::Typed(_, type_name) => is_result(scope, type_name, value),
            ResultType::Void(_) => false,
        },
        Body::Guard | Body::Main | Body::Function(_) => false,
    }
}

fn is_result<'a>(scope: &Scope<'a>, type_name: &'a TypeName, value: Option<ValueType<'a>>) -> bool
    ensures { result ≡ is_result (seen_scope scope.now).declarations type_name.now (seen_types value.entry) }
{
    let meant = scope.outline.meant(type_name);
    agree(value, value_type(Role::Result, meant))
}

fn check_return<'a>(at: At, scope: &Scope<'a>, value: &'a Option<Expression>) -> Option<Failure>
    ensures { failure_of result ≡ stmt_least (Returns at (option_map expr_of value.now)) (seen_scope scope.now) }
{
    match value {
        Some(value) => {
            let value = check_expression(scope, value);
            noted(
                at.span.from,
                26,
                can_return(scope, value.value),
                value.failure,
            )
        }
        None => noted(at.span.from, 26, is_in_member(scope.body), None),
    }
}

/// In a plain function, of its type, or in main a number.
fn can_return<'a>(scope: &Scope<'a>, value: Option<ValueType<'a>>) -> bool
    ensures { result ≡ returns (seen_scope scope.now).declarations (seen_body scope.now.body) (seen_types value.entry) }
{
    match scope.body {
        Body::Main => agree(value, Some(ValueType::Int)),
        Body::Function(type_name) => is_result(scope, type_name, value),
        Body::Guard | Body::Member(_) => false,
    }
}

// ---- statements

#[cycle(statement)]
pub fn check_statement<'a>(
    alloc: Global,
    scope: &mut Scope<'a>,
    node: &'a Statement,
) -> Result<Option<Failure>, NoMemory>
    ensures failure { IfOk result (λ failure. failure_of failure ≡ stmt_least (stmt_of node.now) (seen_scope scope.old)) }
    ensures scope { OnOk result (seen_scope scope.new ≡ after (stmt_of node.now) (seen_scope scope.old)) }
{
    match node {
        Statement::OfBlock(_, block) => check_block(alloc, scope, block.statements.as_slice()),
        Statement::Declare(_, local) => check_local(alloc, scope, local),
        Statement::Assign(_, assignment) => Ok(check_assignment(scope, assignment)),
        Statement::CallAlone(_, call) => Ok(check_call_alone(scope, call)),
        Statement::Create(at, target) => Ok(check_create(*at, scope, target)),
        Statement::If(_, test, then_part, else_part) => {
            let of_test = check_test(scope, test);
            let of_then = check_within(alloc, scope, then_part.get())?;
            match else_part {
                Some(statement) => {
                    let of_else = check_within(alloc, scope, statement.get())?;
                    Ok(earlier(of_test, earlier(of_then, of_else)))
                }
                None => Ok(earlier(of_test, of_then)),
            }
        }
        Statement::While(_, test, body) => {
            let of_test = check_test(scope, test);
            let of_body = check_within(alloc, scope, body.get())?;
            Ok(earlier(of_test, of_body))
        }
        Statement::For(_, head, body) => check_for(alloc, scope, head.get(), body.get()),
        Statement::Print(at, arguments) => {
            let of_arguments = check_printed(scope, arguments.as_slice());
            Ok(noted(at.span.from, 23, is_in_main(scope.body), of_arguments))
        }
        Statement::Rtf(at, value) => Ok(check_rtf(*at, scope, value)),
        Statement::Return(at, value) => Ok(check_return(*at, scope, value)),
        Statement::Empty(_) => Ok(None),
    }
}

/// A statement that is a scope of its own.
#[tactic(auto, using(crate::proofs::StatementLemmas::stmt_outer, crate::proofs::StatementLemmas::stmts_outer, crate::proofs::ScopeLemmas::outer_of_block))]
#[cycle(statement)]
fn check_within<'a>(
    alloc: Global,
    scope: &mut Scope<'a>,
    node: &'a Statement,
) -> Result<Option<Failure>, NoMemory>
    ensures failure { IfOk result (λ failure. failure_of failure ≡ stmt_least (stmt_of node.now) (scopes.in_block (seen_scope scope.old))) }
    ensures scope { OnOk result (seen_scope scope.new ≡ seen_scope scope.old) }
{
    enter(alloc, scope)?;
    let failure = check_statement(alloc, scope, node)?;
    leave(scope);
    Ok(failure)
}

#[tactic(auto, using(crate::proofs::StatementLemmas::stmt_outer, crate::proofs::StatementLemmas::stmts_outer, crate::proofs::ScopeLemmas::outer_of_block))]
#[cycle(statement)]
fn check_block<'a>(
    alloc: Global,
    scope: &mut Scope<'a>,
    statements: &'a [Statement],
) -> Result<Option<Failure>, NoMemory>
    ensures failure { IfOk result (λ failure. failure_of failure ≡ stmts_least (in_turn (map stmt_of statements.now)) (scopes.in_block (seen_scope scope.old))) }
    ensures scope { OnOk result (seen_scope scope.new ≡ seen_scope scope.old) }
{
    enter(alloc, scope)?;
    let failure = check_statements(alloc, scope, statements)?;
    leave(scope);
    Ok(failure)
}

#[tactic(auto, using(std::proofs::lemmas::Grind::common_steps, crate::proofs::LeastLemmas::earlier_assoc, crate::proofs::LeastLemmas::earlier_none))]
#[cycle(statement)]
pub fn check_statements<'a>(
    alloc: Global,
    scope: &mut Scope<'a>,
    statements: &'a [Statement],
) -> Result<Option<Failure>, NoMemory>
    ensures failure { IfOk result (λ failure. failure_of failure ≡ stmts_least (in_turn (map stmt_of statements.now)) (seen_scope scope.old)) }
    ensures scope { OnOk result (seen_scope scope.new ≡ (nodes.stmts_walk (in_turn (map stmt_of statements.now)) (seen_scope scope.old)).after) }
{
    let mut found = None;
    for statement in statements {
        found = earlier(found, check_statement(alloc, scope, statement)?);
    }
    Ok(found)
}

/// The parentheses of a `for` open a block, in which its statement is a block of its own.
#[tactic(auto, using(crate::proofs::StatementLemmas::stmt_outer, crate::proofs::StatementLemmas::stmts_outer, crate::proofs::ScopeLemmas::outer_of_block, crate::proofs::ScopeLemmas::step_after))]
#[cycle(statement)]
fn check_for<'a>(
    alloc: Global,
    scope: &mut Scope<'a>,
    head: &'a ForHead,
    body: &'a Statement,
) -> Result<Option<Failure>, NoMemory>
    ensures failure { IfOk result (λ failure. failure_of failure ≡ stmt_least (Loops (if_any (option_map starts head.now.start)) (expr_of head.now.test) (if_any (option_map assigns head.now.step)) (stmt_of body.now)) (seen_scope scope.old)) }
    ensures scope { OnOk result (seen_scope scope.new ≡ seen_scope scope.old) }
{
    enter(alloc, scope)?;
    let of_start = check_start(alloc, scope, &head.start)?;
    let of_test = check_test(scope, &head.test);
    let of_step = check_step(scope, &head.step);
    let of_body = check_within(alloc, scope, body)?;
    leave(scope);
    Ok(earlier(of_start, earlier(of_test, earlier(of_step, of_body))))
}

fn check_start<'a>(
    alloc: Global,
    scope: &mut Scope<'a>,
    start: &'a Option<ForStart>,
) -> Result<Option<Failure>, NoMemory>
    ensures failure { IfOk result (λ failure. failure_of failure ≡ stmt_least (if_any (option_map starts start.now)) (seen_scope scope.old)) }
    ensures scope { OnOk result (seen_scope scope.new ≡ after (if_any (option_map starts start.now)) (seen_scope scope.old)) }
{
    match start {
        Some(ForStart::Declare(local)) => check_local(alloc, scope, local),
        Some(ForStart::Assign(assignment)) => Ok(check_assignment(scope, assignment)),
        None => Ok(None),
    }
}

fn check_step<'a>(scope: &Scope<'a>, step: &'a Option<Assignment>) -> Option<Failure>
    ensures { failure_of result ≡ stmt_least (if_any (option_map assigns step.now)) (seen_scope scope.now) }
{
    match step {
        Some(assignment) => check_assignment(scope, assignment),
        None => None,
    }
}
