//! Expressions: the type of each, and the least failure in it.

ghost use Rattle.std.specs.Prelude.{◌≡◌, ◌&&◌, ◌||◌, false, is_none, is_some, map, option_map};
ghost use Rattle.mpl_mean.specs.FirstForms.ExpressionLevels.{expr_of_conjunction, expr_of_equality, expr_of_primary, expr_of_relation, expr_of_sum, expr_of_term, expr_of_unary};
ghost use Rattle.mpl_mean.specs.Plain.Expr.{Whole, begins, expr_of, expr_of_place, listed};
ghost use Rattle.mpl_mean.specs.TypeRules.ExpressionRules as rules;
ghost use Rattle.mpl_mean.specs.TypeRules.Typing.{arguments_agree, formal_types, target_shape, type_of, type_of_binary, type_of_unary, type_of_element, type_of_plain_call, types_of};
ghost use Rattle.mpl_types.specs.Internal.Expressions.{expr_least, exprs_least, fits_guard, formals_of_function, target_least};
ghost use Rattle.mpl_types.specs.Internal.Least.{earlier, noted};
ghost use Rattle.mpl_types.specs.Internal.Seen.{failure_of};
ghost use Rattle.mpl_scope.specs.SeenOutline.{seen_function};
ghost use Rattle.mpl_scope.specs.SeenScope.{seen_scope};
ghost use Rattle.mpl_scope.specs.SeenTypes.{seen_operation, seen_types};

use crate::arguments::{Checked, Matched, all_agree, no_argument, one_more};
use crate::failure::{earlier, noted};
use crate::places::{check_own, check_target};
use mpl_ast::class::Formal;
use mpl_ast::expression::{
    Conjunction, Equality, Expression, Place, Primary, Relation, Sum, Target, Term, Unary,
};
use mpl_ast::{At, Name};
use mpl_scope::names::Role;
use mpl_scope::outline::Function;
use mpl_scope::scope::{Scope, is_in_main, own_type, plain_function};
use mpl_scope::shapes::{
    can_be_indexed, is_no_regular, is_one_value, type_of_element, type_of_whole, value_type,
};
use mpl_scope::types::{
    Operation, ValueType, binary_agrees, type_of_binary, type_of_unary, unary_agrees,
    unary_operation,
};

// ---- operators

fn binary<'a>(at: u32, operation: Operation, left: Checked<'a>, right: Checked<'a>) -> Checked<'a>
    ensures at { result.at ≡ at }
    ensures fits { result.fits_guard ≡ (left.entry.fits_guard && right.entry.fits_guard) }
    ensures value { seen_types result.value ≡ type_of_binary (seen_operation operation) (seen_types left.entry.value) (seen_types right.entry.value) }
    ensures failure { failure_of result.failure ≡ noted at 13 (rules.binary_agrees (seen_operation operation) (seen_types left.entry.value) (seen_types right.entry.value)) (earlier (failure_of left.entry.failure) (failure_of right.entry.failure)) }
{
    let agrees = binary_agrees(operation, left.value, right.value);
    Checked {
        at,
        value: type_of_binary(operation, left.value, right.value),
        fits_guard: left.fits_guard && right.fits_guard,
        failure: noted(at, 13, agrees, earlier(left.failure, right.failure)),
    }
}

fn unary<'a>(at: u32, operation: Operation, operand: Checked<'a>) -> Checked<'a>
    ensures at { result.at ≡ at }
    ensures fits { result.fits_guard ≡ operand.entry.fits_guard }
    ensures value { seen_types result.value ≡ type_of_unary (seen_operation operation) (seen_types operand.entry.value) }
    ensures failure { failure_of result.failure ≡ noted at 13 (rules.unary_agrees (seen_operation operation) (seen_types operand.entry.value)) (failure_of operand.entry.failure) }
{
    let agrees = unary_agrees(operation, operand.value);
    Checked {
        at,
        value: type_of_unary(operation, operand.value),
        fits_guard: operand.fits_guard,
        failure: noted(at, 13, agrees, operand.failure),
    }
}

// ---- the levels of the grammar

#[cycle(expression)]
pub fn check_expression<'a>(scope: &Scope<'a>, node: &'a Expression) -> Checked<'a>
    ensures at { result.at ≡ begins (expr_of node.now) }
    ensures fits { result.fits_guard ≡ fits_guard (expr_of node.now) }
    ensures value { seen_types result.value ≡ type_of (seen_scope scope.now) (expr_of node.now) }
    ensures failure { failure_of result.failure ≡ expr_least (seen_scope scope.now) (expr_of node.now) }
{
    match node {
        Expression::OneConjunction(_, inner) => check_conjunction(scope, inner),
        Expression::Or(at, _, left, right) => binary(
            at.span.from,
            Operation::Logic,
            check_expression(scope, left.get()),
            check_conjunction(scope, right.get()),
        ),
    }
}

#[cycle(expression)]
fn check_conjunction<'a>(scope: &Scope<'a>, node: &'a Conjunction) -> Checked<'a>
    ensures at { result.at ≡ begins (expr_of_conjunction node.now) }
    ensures fits { result.fits_guard ≡ fits_guard (expr_of_conjunction node.now) }
    ensures value { seen_types result.value ≡ type_of (seen_scope scope.now) (expr_of_conjunction node.now) }
    ensures failure { failure_of result.failure ≡ expr_least (seen_scope scope.now) (expr_of_conjunction node.now) }
{
    match node {
        Conjunction::OneEquality(_, inner) => check_equality(scope, inner),
        Conjunction::And(at, _, left, right) => binary(
            at.span.from,
            Operation::Logic,
            check_conjunction(scope, left.get()),
            check_equality(scope, right.get()),
        ),
    }
}

#[cycle(expression)]
fn check_equality<'a>(scope: &Scope<'a>, node: &'a Equality) -> Checked<'a>
    ensures at { result.at ≡ begins (expr_of_equality node.now) }
    ensures fits { result.fits_guard ≡ fits_guard (expr_of_equality node.now) }
    ensures value { seen_types result.value ≡ type_of (seen_scope scope.now) (expr_of_equality node.now) }
    ensures failure { failure_of result.failure ≡ expr_least (seen_scope scope.now) (expr_of_equality node.now) }
{
    match node {
        Equality::OneRelation(_, inner) => check_relation(scope, inner),
        Equality::Equate(at, _, left, _, right) => binary(
            at.span.from,
            Operation::Equality,
            check_equality(scope, left.get()),
            check_relation(scope, right.get()),
        ),
    }
}

#[cycle(expression)]
fn check_relation<'a>(scope: &Scope<'a>, node: &'a Relation) -> Checked<'a>
    ensures at { result.at ≡ begins (expr_of_relation node.now) }
    ensures fits { result.fits_guard ≡ fits_guard (expr_of_relation node.now) }
    ensures value { seen_types result.value ≡ type_of (seen_scope scope.now) (expr_of_relation node.now) }
    ensures failure { failure_of result.failure ≡ expr_least (seen_scope scope.now) (expr_of_relation node.now) }
{
    match node {
        Relation::OneSum(_, inner) => check_sum(scope, inner),
        Relation::Compare(at, _, left, _, right) => binary(
            at.span.from,
            Operation::Comparison,
            check_relation(scope, left.get()),
            check_sum(scope, right.get()),
        ),
    }
}

#[cycle(expression)]
fn check_sum<'a>(scope: &Scope<'a>, node: &'a Sum) -> Checked<'a>
    ensures at { result.at ≡ begins (expr_of_sum node.now) }
    ensures fits { result.fits_guard ≡ fits_guard (expr_of_sum node.now) }
    ensures value { seen_types result.value ≡ type_of (seen_scope scope.now) (expr_of_sum node.now) }
    ensures failure { failure_of result.failure ≡ expr_least (seen_scope scope.now) (expr_of_sum node.now) }
{
    match node {
        Sum::OneTerm(_, inner) => check_term(scope, inner),
        Sum::Add(at, _, left, _, right) => binary(
            at.span.from,
            Operation::Arithmetic,
            check_sum(scope, left.get()),
            check_term(scope, right.get()),
        ),
    }
}

#[cycle(expression)]
fn check_term<'a>(scope: &Scope<'a>, node: &'a Term) -> Checked<'a>
    ensures at { result.at ≡ begins (expr_of_term node.now) }
    ensures fits { result.fits_guard ≡ fits_guard (expr_of_term node.now) }
    ensures value { seen_types result.value ≡ type_of (seen_scope scope.now) (expr_of_term node.now) }
    ensures failure { failure_of result.failure ≡ expr_least (seen_scope scope.now) (expr_of_term node.now) }
{
    match node {
        Term::OneUnary(_, inner) => check_unary(scope, inner),
        Term::Multiply(at, _, left, _, right) => binary(
            at.span.from,
            Operation::Arithmetic,
            check_term(scope, left.get()),
            check_unary(scope, right.get()),
        ),
    }
}

#[cycle(expression)]
fn check_unary<'a>(scope: &Scope<'a>, node: &'a Unary) -> Checked<'a>
    ensures at { result.at ≡ begins (expr_of_unary node.now) }
    ensures fits { result.fits_guard ≡ fits_guard (expr_of_unary node.now) }
    ensures value { seen_types result.value ≡ type_of (seen_scope scope.now) (expr_of_unary node.now) }
    ensures failure { failure_of result.failure ≡ expr_least (seen_scope scope.now) (expr_of_unary node.now) }
{
    match node {
        Unary::OnePrimary(_, inner) => check_primary(scope, inner),
        Unary::Apply(at, _, operator, operand) => unary(
            at.span.from,
            unary_operation(*operator),
            check_unary(scope, operand.get()),
        ),
    }
}

#[tactic(auto, using(crate::proofs::ArgumentLemmas::plain_is))]
#[cycle(expression)]
fn check_primary<'a>(scope: &Scope<'a>, node: &'a Primary) -> Checked<'a>
    ensures at { result.at ≡ begins (expr_of_primary node.now) }
    ensures fits { result.fits_guard ≡ fits_guard (expr_of_primary node.now) }
    ensures value { seen_types result.value ≡ type_of (seen_scope scope.now) (expr_of_primary node.now) }
    ensures failure { failure_of result.failure ≡ expr_least (seen_scope scope.now) (expr_of_primary node.now) }
{
    match node {
        Primary::Number(at, _) => Checked {
            at: at.span.from,
            value: Some(ValueType::Int),
            fits_guard: true,
            failure: None,
        },
        Primary::True(at) | Primary::False(at) => Checked {
            at: at.span.from,
            value: Some(ValueType::Bool),
            fits_guard: true,
            failure: None,
        },
        Primary::Own(at) => Checked {
            at: at.span.from,
            value: own_type(scope),
            fits_guard: false,
            failure: check_own(at.span.from, &*scope),
        },
        Primary::Read(_, place) => check_place(scope, place.get()),
        Primary::Input(at) => Checked {
            at: at.span.from,
            value: Some(ValueType::Int),
            fits_guard: false,
            failure: noted(at.span.from, 23, is_in_main(scope.body), None),
        },
        Primary::CallPlain(at, name, arguments) => {
            let function = plain_function(scope, name.text.as_slice());
            let formals = formals_of_function(function);
            let matched = check_arguments(&*scope, arguments.as_slice(), formals);
            plain_call(at.span.from, scope, name, function, matched)
        }
        Primary::Parenthesized(at, inner) => {
            let inner = check_expression(scope, inner.get());
            Checked {
                at: at.span.from,
                value: inner.value,
                fits_guard: inner.fits_guard,
                failure: inner.failure,
            }
        }
    }
}

/// A plain call with its arguments.
fn plain_call<'a>(
    at: u32,
    scope: &Scope<'a>,
    name: &'a Name,
    function: Option<Function<'a>>,
    matched: Matched,
) -> Checked<'a>
    ensures at { result.at ≡ at }
    ensures fits { result.fits_guard ≡ false }
    ensures value { seen_types result.value ≡ type_of_plain_call scope.now.outline.now (option_map seen_function function.entry) }
    ensures failure { failure_of result.failure ≡ noted name.now.from 1 (is_some (option_map seen_function function.entry))
        (noted at 18 (is_none (option_map seen_function function.entry) || matched.agrees) (failure_of matched.failure)) }
{
    let takes = function.is_none() || matched.agrees;
    let of_call = noted(at, 18, takes, matched.failure);
    match function {
        Some(function) => Checked {
            at,
            value: value_type(Role::Result, scope.outline.meant(function.result)),
            fits_guard: false,
            failure: noted(name.from, 1, true, of_call),
        },
        None => Checked {
            at,
            value: None,
            fits_guard: false,
            failure: noted(name.from, 1, false, of_call),
        },
    }
}

fn formals_of_function<'a>(function: Option<Function<'a>>) -> &'a [Formal]
    ensures { result.now ≡ formals_of_function (option_map seen_function function.entry) }
{
    match function {
        Some(function) => function.formals,
        None => &[],
    }
}

#[tactic(auto, using(crate::proofs::ArgumentLemmas::known_step, crate::proofs::ArgumentLemmas::agree_at_end, crate::proofs::ArgumentLemmas::least_at_end, crate::proofs::ArgumentLemmas::as_many_types))]
#[cycle(expression)]
fn check_arguments<'a>(
    scope: &Scope<'a>,
    arguments: &'a [Expression],
    formals: &'a [Formal],
) -> Matched
    ensures agrees { result.agrees ≡ arguments_agree (types_of (seen_scope scope.now) (listed (map expr_of arguments.now))) (formal_types scope.now.outline.now formals.now) }
    ensures failure { failure_of result.failure ≡ exprs_least (seen_scope scope.now) (listed (map expr_of arguments.now)) }
{
    let mut so_far = no_argument();
    for i in 0..arguments.len() {
        let argument = check_expression(scope, &arguments[i]);
        so_far = one_more(so_far, scope.outline, &*formals, i, argument);
    }
    Matched {
        agrees: all_agree(so_far, arguments.len(), &*formals),
        failure: so_far.failure,
    }
}

#[cycle(expression)]
pub fn check_place<'a>(scope: &Scope<'a>, node: &'a Place) -> Checked<'a>
    ensures at { result.at ≡ begins (expr_of_place node.now) }
    ensures fits { result.fits_guard ≡ fits_guard (expr_of_place node.now) }
    ensures value { seen_types result.value ≡ type_of (seen_scope scope.now) (expr_of_place node.now) }
    ensures failure { failure_of result.failure ≡ expr_least (seen_scope scope.now) (expr_of_place node.now) }
{
    match node {
        Place::Whole(at, target) => whole(*at, scope, target),
        Place::Element(at, _, target, index) => {
            let index = check_expression(scope, index.get());
            element(at.span.from, scope, target, index)
        }
    }
}

fn whole<'a>(at: At, scope: &Scope<'a>, target: &'a Target) -> Checked<'a>
    ensures at { result.at ≡ begins (Whole at target.now) }
    ensures fits { result.fits_guard ≡ fits_guard (Whole at target.now) }
    ensures value { seen_types result.value ≡ type_of (seen_scope scope.now) (Whole at target.now) }
    ensures failure { failure_of result.failure ≡ expr_least (seen_scope scope.now) (Whole at target.now) }
{
    let target = check_target(scope, target);
    Checked {
        at: at.span.from,
        value: type_of_whole(target.shape),
        fits_guard: true,
        failure: noted(at.span.from, 15, is_one_value(target.shape), target.failure),
    }
}

fn element<'a>(at: u32, scope: &Scope<'a>, target: &'a Target, index: Checked<'a>) -> Checked<'a>
    ensures at { result.at ≡ at }
    ensures fits { result.fits_guard ≡ index.entry.fits_guard }
    ensures value { seen_types result.value ≡ type_of_element (target_shape (seen_scope scope.now) target.now) (seen_types index.entry.value) }
    ensures failure { failure_of result.failure ≡
        noted at 14 (rules.can_be_indexed (target_shape (seen_scope scope.now) target.now) (seen_types index.entry.value))
        (noted at 15 (rules.is_no_regular (target_shape (seen_scope scope.now) target.now)) (earlier (target_least (seen_scope scope.now) target.now) (failure_of index.entry.failure))) }
{
    let target = check_target(scope, target);
    let shape = target.shape;
    let of_parts = earlier(target.failure, index.failure);
    let of_place = noted(at, 15, is_no_regular(shape), of_parts);
    Checked {
        at,
        value: type_of_element(shape, index.value),
        fits_guard: index.fits_guard,
        failure: noted(at, 14, can_be_indexed(shape, index.value), of_place),
    }
}
