//! The primary expression that an expression is alone.

ghost use Rattle.mpl_mean.specs.FirstForms.ExpressionLevels.{expr_of_conjunction, expr_of_equality, expr_of_relation, expr_of_sum, expr_of_term, expr_of_unary};
ghost use Rattle.mpl_mean.specs.Plain.Expr.{expr_of};
ghost use Rattle.mpl_gen_expr.specs.Primaries.{IsAlone};

use mpl_ast::expression::{Conjunction, Equality, Expression, Primary, Relation, Sum, Term, Unary};

/// A primary expression, or one with an operator.
#[derive(Clone, Copy)]
pub enum Alone<'a> {
    Primary(&'a Primary),
    Computed,
}

#[tactic(auto, using(crate::proofs::Computed::binary_computed))]
pub fn primary_alone<'a>(node: &'a Expression) -> Alone<'a>
    ensures { IsAlone result (expr_of node.now) }
{
    match node {
        Expression::OneConjunction(_, inner) => in_conjunction(inner),
        Expression::Or(..) => Alone::Computed,
    }
}

#[tactic(auto, using(crate::proofs::Computed::binary_computed))]
fn in_conjunction<'a>(node: &'a Conjunction) -> Alone<'a>
    ensures { IsAlone result (expr_of_conjunction node.now) }
{
    match node {
        Conjunction::OneEquality(_, inner) => in_equality(inner),
        Conjunction::And(..) => Alone::Computed,
    }
}

#[tactic(auto, using(crate::proofs::Computed::binary_computed))]
fn in_equality<'a>(node: &'a Equality) -> Alone<'a>
    ensures { IsAlone result (expr_of_equality node.now) }
{
    match node {
        Equality::OneRelation(_, inner) => in_relation(inner),
        Equality::Equate(..) => Alone::Computed,
    }
}

#[tactic(auto, using(crate::proofs::Computed::binary_computed))]
fn in_relation<'a>(node: &'a Relation) -> Alone<'a>
    ensures { IsAlone result (expr_of_relation node.now) }
{
    match node {
        Relation::OneSum(_, inner) => in_sum(inner),
        Relation::Compare(..) => Alone::Computed,
    }
}

#[tactic(auto, using(crate::proofs::Computed::binary_computed))]
fn in_sum<'a>(node: &'a Sum) -> Alone<'a>
    ensures { IsAlone result (expr_of_sum node.now) }
{
    match node {
        Sum::OneTerm(_, inner) => in_term(inner),
        Sum::Add(..) => Alone::Computed,
    }
}

#[tactic(auto, using(crate::proofs::Computed::binary_computed))]
fn in_term<'a>(node: &'a Term) -> Alone<'a>
    ensures { IsAlone result (expr_of_term node.now) }
{
    match node {
        Term::OneUnary(_, inner) => in_unary(inner),
        Term::Multiply(..) => Alone::Computed,
    }
}

#[tactic(auto, using(crate::proofs::Computed::unary_computed))]
fn in_unary<'a>(node: &'a Unary) -> Alone<'a>
    ensures { IsAlone result (expr_of_unary node.now) }
{
    match node {
        Unary::OnePrimary(_, inner) => Alone::Primary(inner),
        Unary::Apply(..) => Alone::Computed,
    }
}
