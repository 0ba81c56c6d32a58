ghost use Rattle.std.specs.Prelude.{◌≡◌, option_map};
ghost use Rattle.mpl_mean.specs.Meaning.CallMeaning.{name_of_target};
ghost use Rattle.mpl_mean.specs.FirstForms.ExpressionLevels.{expr_of_conjunction, expr_of_equality, expr_of_primary, expr_of_relation, expr_of_sum, expr_of_term, expr_of_unary};
ghost use Rattle.mpl_mean.specs.Plain.Expr.{expr_of, expr_of_place};
ghost use Rattle.mpl_plain.specs.ExprMeaning.{tree_name};

use mpl_ast::expression::{
    Conjunction, Equality, Expression, Place, Primary, Relation, Sum, Target, Term, Unary,
};

/// The name that an expression is, if it is one.
pub fn whole_name<'a>(node: &'a Expression) -> Option<&'a [u8]>
    ensures { option_map (λ name. name.now) result ≡ tree_name (expr_of node.now) }
{
    match node {
        Expression::OneConjunction(_, inner) => conjunction_name(inner),
        Expression::Or(..) => None,
    }
}

fn conjunction_name<'a>(node: &'a Conjunction) -> Option<&'a [u8]>
    ensures { option_map (λ name. name.now) result ≡ tree_name (expr_of_conjunction node.now) }
{
    match node {
        Conjunction::OneEquality(_, inner) => equality_name(inner),
        Conjunction::And(..) => None,
    }
}

fn equality_name<'a>(node: &'a Equality) -> Option<&'a [u8]>
    ensures { option_map (λ name. name.now) result ≡ tree_name (expr_of_equality node.now) }
{
    match node {
        Equality::OneRelation(_, inner) => relation_name(inner),
        Equality::Equate(..) => None,
    }
}

fn relation_name<'a>(node: &'a Relation) -> Option<&'a [u8]>
    ensures { option_map (λ name. name.now) result ≡ tree_name (expr_of_relation node.now) }
{
    match node {
        Relation::OneSum(_, inner) => sum_name(inner),
        Relation::Compare(..) => None,
    }
}

fn sum_name<'a>(node: &'a Sum) -> Option<&'a [u8]>
    ensures { option_map (λ name. name.now) result ≡ tree_name (expr_of_sum node.now) }
{
    match node {
        Sum::OneTerm(_, inner) => term_name(inner),
        Sum::Add(..) => None,
    }
}

fn term_name<'a>(node: &'a Term) -> Option<&'a [u8]>
    ensures { option_map (λ name. name.now) result ≡ tree_name (expr_of_term node.now) }
{
    match node {
        Term::OneUnary(_, inner) => unary_name(inner),
        Term::Multiply(..) => None,
    }
}

fn unary_name<'a>(node: &'a Unary) -> Option<&'a [u8]>
    ensures { option_map (λ name. name.now) result ≡ tree_name (expr_of_unary node.now) }
{
    match node {
        Unary::OnePrimary(_, inner) => primary_name(inner),
        Unary::Apply(..) => None,
    }
}

fn primary_name<'a>(node: &'a Primary) -> Option<&'a [u8]>
    ensures { option_map (λ name. name.now) result ≡ tree_name (expr_of_primary node.now) }
{
    match node {
        Primary::Read(_, place) => place_name(place.get()),
        Primary::Number(..) => None,
        Primary::True(..) => None,
        Primary::False(..) => None,
        Primary::Own(..) => None,
        Primary::Input(..) => None,
        Primary::CallPlain(..) => None,
        Primary::Parenthesized(..) => None,
    }
}

fn place_name<'a>(node: &'a Place) -> Option<&'a [u8]>
    ensures { option_map (λ name. name.now) result ≡ tree_name (expr_of_place node.now) }
{
    match node {
        Place::Whole(_, target) => target_name(target),
        Place::Element(..) => None,
    }
}

fn target_name<'a>(target: &'a Target) -> Option<&'a [u8]>
    ensures { option_map (λ name. name.now) result ≡ name_of_target target.now }
{
    match target {
        Target::Variable(_, name) => Some(name.text.as_slice()),
        Target::Field(..) => None,
    }
}
