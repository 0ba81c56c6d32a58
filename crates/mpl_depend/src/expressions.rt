ghost use Rattle.std.specs.Prelude.{◌≡◌, ◌++◌, map, IfOk};
ghost use Rattle.mpl_mean.specs.FirstForms.ExpressionLevels.{expr_of_conjunction, expr_of_equality, expr_of_primary, expr_of_relation, expr_of_sum, expr_of_term, expr_of_unary};
ghost use Rattle.mpl_mean.specs.Pending.BodyWays.{value_ways, values_ways};
ghost use Rattle.mpl_mean.specs.Pending.Paths.{NoEvent, Then, Either};
ghost use Rattle.mpl_mean.specs.Plain.Expr.{expr_of, expr_of_place, listed};
ghost use Rattle.mpl_depend.specs.Internal.SeenScope.{env_seen};
ghost use Rattle.mpl_depend.specs.Internal.SeenWays.{ways_seen};

use crate::making::{all, either, then};
use crate::scope::Scope;
use crate::uses::uses_target;
use crate::ways::Ways;
use mpl_ast::expression::{
    Conjunction, Equality, Expression, Place, Primary, Relation, Sum, Term, Unary,
};
use mpl_value::NoMemory;
use std::alloc::Global;

#[cycle(expression)]
pub fn expression<'a>(scope: &Scope<'a>, node: &'a Expression) -> Result<Ways, NoMemory>
    ensures { IfOk result (λ ways. ways_seen ways ≡ value_ways (env_seen scope.now) (expr_of node.now)) }
{
    match node {
        Expression::OneConjunction(_, inner) => conjunction(scope, inner),
        Expression::Or(_, _, left, right) => {
            let first = expression(scope, left.get())?;
            let second = conjunction(scope, right.get())?;
            perhaps(scope.alloc, first, second)
        }
    }
}

#[cycle(expression)]
fn conjunction<'a>(scope: &Scope<'a>, node: &'a Conjunction) -> Result<Ways, NoMemory>
    ensures { IfOk result (λ ways. ways_seen ways ≡ value_ways (env_seen scope.now) (expr_of_conjunction node.now)) }
{
    match node {
        Conjunction::OneEquality(_, inner) => equality(scope, inner),
        Conjunction::And(_, _, left, right) => {
            let first = conjunction(scope, left.get())?;
            let second = equality(scope, right.get())?;
            perhaps(scope.alloc, first, second)
        }
    }
}

/// The second is evaluated, or it isn't.
fn perhaps(alloc: Global, first: Ways, second: Ways) -> Result<Ways, NoMemory>
    ensures { IfOk result (λ ways. ways_seen ways ≡ Then (ways_seen first) (Either (ways_seen second) NoEvent)) }
{
    let second = either(alloc, second, Ways::Nothing)?;
    then(alloc, first, second)
}

#[cycle(expression)]
fn equality<'a>(scope: &Scope<'a>, node: &'a Equality) -> Result<Ways, NoMemory>
    ensures { IfOk result (λ ways. ways_seen ways ≡ value_ways (env_seen scope.now) (expr_of_equality node.now)) }
{
    match node {
        Equality::OneRelation(_, inner) => relation(scope, inner),
        Equality::Equate(_, _, left, _, right) => {
            let first = equality(scope, left.get())?;
            let second = relation(scope, right.get())?;
            then(scope.alloc, first, second)
        }
    }
}

#[cycle(expression)]
fn relation<'a>(scope: &Scope<'a>, node: &'a Relation) -> Result<Ways, NoMemory>
    ensures { IfOk result (λ ways. ways_seen ways ≡ value_ways (env_seen scope.now) (expr_of_relation node.now)) }
{
    match node {
        Relation::OneSum(_, inner) => sum(scope, inner),
        Relation::Compare(_, _, left, _, right) => {
            let first = relation(scope, left.get())?;
            let second = sum(scope, right.get())?;
            then(scope.alloc, first, second)
        }
    }
}

#[cycle(expression)]
fn sum<'a>(scope: &Scope<'a>, node: &'a Sum) -> Result<Ways, NoMemory>
    ensures { IfOk result (λ ways. ways_seen ways ≡ value_ways (env_seen scope.now) (expr_of_sum node.now)) }
{
    match node {
        Sum::OneTerm(_, inner) => term(scope, inner),
        Sum::Add(_, _, left, _, right) => {
            let first = sum(scope, left.get())?;
            let second = term(scope, right.get())?;
            then(scope.alloc, first, second)
        }
    }
}

#[cycle(expression)]
fn term<'a>(scope: &Scope<'a>, node: &'a Term) -> Result<Ways, NoMemory>
    ensures { IfOk result (λ ways. ways_seen ways ≡ value_ways (env_seen scope.now) (expr_of_term node.now)) }
{
    match node {
        Term::OneUnary(_, inner) => unary(scope, inner),
        Term::Multiply(_, _, left, _, right) => {
            let first = term(scope, left.get())?;
            let second = unary(scope, right.get())?;
            then(scope.alloc, first, second)
        }
    }
}

#[cycle(expression)]
fn unary<'a>(scope: &Scope<'a>, node: &'a Unary) -> Result<Ways, NoMemory>
    ensures { IfOk result (λ ways. ways_seen ways ≡ value_ways (env_seen scope.now) (expr_of_unary node.now)) }
{
    match node {
        Unary::OnePrimary(_, inner) => primary(scope, inner),
        Unary::Apply(_, _, _, operand) => unary(scope, operand.get()),
    }
}

#[cycle(expression)]
fn primary<'a>(scope: &Scope<'a>, node: &'a Primary) -> Result<Ways, NoMemory>
    ensures { IfOk result (λ ways. ways_seen ways ≡ value_ways (env_seen scope.now) (expr_of_primary node.now)) }
{
    match node {
        Primary::Number(..) => Ok(Ways::Nothing),
        Primary::True(_) => Ok(Ways::Nothing),
        Primary::False(_) => Ok(Ways::Nothing),
        Primary::Own(_) => Ok(Ways::Nothing),
        Primary::Read(_, inner) => place(scope, inner.get()),
        Primary::Input(_) => Ok(Ways::Nothing),
        Primary::CallPlain(_, _, list) => values(scope, list.as_slice()),
        Primary::Parenthesized(_, inner) => expression(scope, inner.get()),
    }
}

#[cycle(expression)]
fn place<'a>(scope: &Scope<'a>, node: &'a Place) -> Result<Ways, NoMemory>
    ensures { IfOk result (λ ways. ways_seen ways ≡ value_ways (env_seen scope.now) (expr_of_place node.now)) }
{
    match node {
        Place::Whole(at, target) => Ok(uses_target(scope, at.id, target)),
        Place::Element(at, _, target, index) => {
            let first = uses_target(scope, at.id, target);
            let second = expression(scope, index.get())?;
            then(scope.alloc, first, second)
        }
    }
}

#[cycle(expression)]
fn values<'a>(scope: &Scope<'a>, list: &'a [Expression]) -> Result<Ways, NoMemory>
    ensures { IfOk result (λ ways. ways_seen ways ≡ values_ways (env_seen scope.now) (listed (map expr_of list.now))) }
{
    let mut ways = Vec::new(scope.alloc);
    for node in list {
        ways.push(expression(scope, node)?)?;
    }
    Ok(all(ways))
}
