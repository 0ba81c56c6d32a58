//! The formal or local that an expression is, if it is one.

ghost use Rattle.std.specs.Prelude.{◌≡◌, option_map};
ghost use Rattle.mpl_mean.specs.FirstForms.ExpressionLevels.{expr_of_conjunction, expr_of_equality, expr_of_primary, expr_of_relation, expr_of_sum, expr_of_term, expr_of_unary};
ghost use Rattle.mpl_mean.specs.Plain.Expr.{expr_of, expr_of_place};
ghost use Rattle.mpl_mean.specs.Plain.Scopes.{slot_of_target, whole_slot};
ghost use Rattle.mpl_locals.specs.SeenLocals.{slot_seen};
ghost use Rattle.mpl_depend.specs.Internal.SeenScope.{env_seen};

use crate::scope::Scope;
use mpl_ast::expression::{
    Conjunction, Equality, Expression, Place, Primary, Relation, Sum, Target, Term, Unary,
};
use mpl_locals::locals::Slot;

pub fn whole<'a>(scope: &Scope<'a>, node: &'a Expression) -> Option<Slot<'a>>
    ensures { option_map slot_seen result ≡ whole_slot (env_seen scope.now) (expr_of node.now) }
{
    match node {
        Expression::OneConjunction(_, inner) => whole_conjunction(scope, inner),
        Expression::Or(..) => None,
    }
}

fn whole_conjunction<'a>(scope: &Scope<'a>, node: &'a Conjunction) -> Option<Slot<'a>>
    ensures { option_map slot_seen result ≡ whole_slot (env_seen scope.now) (expr_of_conjunction node.now) }
{
    match node {
        Conjunction::OneEquality(_, inner) => whole_equality(scope, inner),
        Conjunction::And(..) => None,
    }
}

fn whole_equality<'a>(scope: &Scope<'a>, node: &'a Equality) -> Option<Slot<'a>>
    ensures { option_map slot_seen result ≡ whole_slot (env_seen scope.now) (expr_of_equality node.now) }
{
    match node {
        Equality::OneRelation(_, inner) => whole_relation(scope, inner),
        Equality::Equate(..) => None,
    }
}

fn whole_relation<'a>(scope: &Scope<'a>, node: &'a Relation) -> Option<Slot<'a>>
    ensures { option_map slot_seen result ≡ whole_slot (env_seen scope.now) (expr_of_relation node.now) }
{
    match node {
        Relation::OneSum(_, inner) => whole_sum(scope, inner),
        Relation::Compare(..) => None,
    }
}

fn whole_sum<'a>(scope: &Scope<'a>, node: &'a Sum) -> Option<Slot<'a>>
    ensures { option_map slot_seen result ≡ whole_slot (env_seen scope.now) (expr_of_sum node.now) }
{
    match node {
        Sum::OneTerm(_, inner) => whole_term(scope, inner),
        Sum::Add(..) => None,
    }
}

fn whole_term<'a>(scope: &Scope<'a>, node: &'a Term) -> Option<Slot<'a>>
    ensures { option_map slot_seen result ≡ whole_slot (env_seen scope.now) (expr_of_term node.now) }
{
    match node {
        Term::OneUnary(_, inner) => whole_unary(scope, inner),
        Term::Multiply(..) => None,
    }
}

fn whole_unary<'a>(scope: &Scope<'a>, node: &'a Unary) -> Option<Slot<'a>>
    ensures { option_map slot_seen result ≡ whole_slot (env_seen scope.now) (expr_of_unary node.now) }
{
    match node {
        Unary::OnePrimary(_, inner) => whole_primary(scope, inner),
        Unary::Apply(..) => None,
    }
}

fn whole_primary<'a>(scope: &Scope<'a>, node: &'a Primary) -> Option<Slot<'a>>
    ensures { option_map slot_seen result ≡ whole_slot (env_seen scope.now) (expr_of_primary node.now) }
{
    match node {
        Primary::Read(_, place) => whole_place(scope, place.get()),
        Primary::Number(..) => None,
        Primary::True(..) => None,
        Primary::False(..) => None,
        Primary::Own(..) => None,
        Primary::Input(..) => None,
        Primary::CallPlain(..) => None,
        Primary::Parenthesized(..) => None,
    }
}

fn whole_place<'a>(scope: &Scope<'a>, node: &'a Place) -> Option<Slot<'a>>
    ensures { option_map slot_seen result ≡ whole_slot (env_seen scope.now) (expr_of_place node.now) }
{
    match node {
        Place::Whole(_, target) => whole_target(scope, target),
        Place::Element(..) => None,
    }
}

pub fn whole_target<'a>(scope: &Scope<'a>, target: &'a Target) -> Option<Slot<'a>>
    ensures { option_map slot_seen result ≡ slot_of_target (env_seen scope.now) target.now }
{
    match target {
        Target::Variable(_, name) => scope.locals.find(name.text.as_slice()),
        Target::Field(..) => None,
    }
}
