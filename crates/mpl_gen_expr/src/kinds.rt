//! How many words the value of an expression has, and whether it is a `bool`.

ghost use Rattle.std.specs.Prelude.{◌≡◌, option_map, IfOk};
ghost use Rattle.mpl_mean.specs.FirstForms.ExpressionLevels.{expr_of_conjunction, expr_of_equality, expr_of_primary, expr_of_relation, expr_of_sum, expr_of_term, expr_of_unary};
ghost use Rattle.mpl_mean.specs.Meaning.Layout.{function_named};
ghost use Rattle.mpl_mean.specs.Plain.Expr.{expr_of, expr_of_place};
ghost use Rattle.mpl_gen_code.specs.Words.{is_bool_expr, is_bool_found, is_bool_function, is_bool_unary, words_of_expr, words_of_found, words_of_function};
ghost use Rattle.mpl_gen_scope.specs.SeenScope.{env_seen, found_seen};

use mpl_ast::expression::{
    Conjunction, Equality, Expression, Place, Primary, Relation, Sum, Term, Unary, UnaryOperator,
};
use mpl_gen_scope::found::Found;
use mpl_gen_scope::outline::Outline;
use mpl_gen_scope::scope::{Scope, found_at, is_bool};
use mpl_layout::words::words_of_one;
use mpl_value::NoMemory;

#[derive(Clone, Copy)]
pub struct Kind {
    pub words: usize,
    pub is_bool: bool,
}

#[cycle(kind)]
pub fn kind_of_expression<'o, 'a>(
    scope: &Scope<'o, 'a>,
    node: &'a Expression,
) -> Result<Kind, NoMemory>
    ensures words { IfOk result (λ kind. kind.words ≡ words_of_expr (env_seen scope.now) (expr_of node.now)) }
    ensures bool { IfOk result (λ kind. kind.is_bool ≡ is_bool_expr (env_seen scope.now) (expr_of node.now)) }
{
    match node {
        Expression::OneConjunction(_, inner) => kind_of_conjunction(scope, inner),
        Expression::Or(..) => Ok(Kind {
            words: 1,
            is_bool: true,
        }),
    }
}

#[cycle(kind)]
fn kind_of_conjunction<'o, 'a>(
    scope: &Scope<'o, 'a>,
    node: &'a Conjunction,
) -> Result<Kind, NoMemory>
    ensures words { IfOk result (λ kind. kind.words ≡ words_of_expr (env_seen scope.now) (expr_of_conjunction node.now)) }
    ensures bool { IfOk result (λ kind. kind.is_bool ≡ is_bool_expr (env_seen scope.now) (expr_of_conjunction node.now)) }
{
    match node {
        Conjunction::OneEquality(_, inner) => kind_of_equality(scope, inner),
        Conjunction::And(..) => Ok(Kind {
            words: 1,
            is_bool: true,
        }),
    }
}

#[cycle(kind)]
fn kind_of_equality<'o, 'a>(scope: &Scope<'o, 'a>, node: &'a Equality) -> Result<Kind, NoMemory>
    ensures words { IfOk result (λ kind. kind.words ≡ words_of_expr (env_seen scope.now) (expr_of_equality node.now)) }
    ensures bool { IfOk result (λ kind. kind.is_bool ≡ is_bool_expr (env_seen scope.now) (expr_of_equality node.now)) }
{
    match node {
        Equality::OneRelation(_, inner) => kind_of_relation(scope, inner),
        Equality::Equate(..) => Ok(Kind {
            words: 1,
            is_bool: true,
        }),
    }
}

#[cycle(kind)]
fn kind_of_relation<'o, 'a>(scope: &Scope<'o, 'a>, node: &'a Relation) -> Result<Kind, NoMemory>
    ensures words { IfOk result (λ kind. kind.words ≡ words_of_expr (env_seen scope.now) (expr_of_relation node.now)) }
    ensures bool { IfOk result (λ kind. kind.is_bool ≡ is_bool_expr (env_seen scope.now) (expr_of_relation node.now)) }
{
    match node {
        Relation::OneSum(_, inner) => kind_of_sum(scope, inner),
        Relation::Compare(..) => Ok(Kind {
            words: 1,
            is_bool: true,
        }),
    }
}

#[cycle(kind)]
fn kind_of_sum<'o, 'a>(scope: &Scope<'o, 'a>, node: &'a Sum) -> Result<Kind, NoMemory>
    ensures words { IfOk result (λ kind. kind.words ≡ words_of_expr (env_seen scope.now) (expr_of_sum node.now)) }
    ensures bool { IfOk result (λ kind. kind.is_bool ≡ is_bool_expr (env_seen scope.now) (expr_of_sum node.now)) }
{
    match node {
        Sum::OneTerm(_, inner) => kind_of_term(scope, inner),
        Sum::Add(..) => Ok(Kind {
            words: 1,
            is_bool: false,
        }),
    }
}

#[cycle(kind)]
fn kind_of_term<'o, 'a>(scope: &Scope<'o, 'a>, node: &'a Term) -> Result<Kind, NoMemory>
    ensures words { IfOk result (λ kind. kind.words ≡ words_of_expr (env_seen scope.now) (expr_of_term node.now)) }
    ensures bool { IfOk result (λ kind. kind.is_bool ≡ is_bool_expr (env_seen scope.now) (expr_of_term node.now)) }
{
    match node {
        Term::OneUnary(_, inner) => kind_of_unary(scope, inner),
        Term::Multiply(..) => Ok(Kind {
            words: 1,
            is_bool: false,
        }),
    }
}

#[cycle(kind)]
fn kind_of_unary<'o, 'a>(scope: &Scope<'o, 'a>, node: &'a Unary) -> Result<Kind, NoMemory>
    ensures words { IfOk result (λ kind. kind.words ≡ words_of_expr (env_seen scope.now) (expr_of_unary node.now)) }
    ensures bool { IfOk result (λ kind. kind.is_bool ≡ is_bool_expr (env_seen scope.now) (expr_of_unary node.now)) }
{
    match node {
        Unary::OnePrimary(_, inner) => kind_of_primary(scope, inner),
        Unary::Apply(_, _, operator, _) => Ok(Kind {
            words: 1,
            is_bool: is_bool_unary(*operator),
        }),
    }
}

#[cycle(kind)]
pub fn kind_of_primary<'o, 'a>(scope: &Scope<'o, 'a>, node: &'a Primary) -> Result<Kind, NoMemory>
    ensures words { IfOk result (λ kind. kind.words ≡ words_of_expr (env_seen scope.now) (expr_of_primary node.now)) }
    ensures bool { IfOk result (λ kind. kind.is_bool ≡ is_bool_expr (env_seen scope.now) (expr_of_primary node.now)) }
{
    match node {
        Primary::Number(..) => Ok(Kind {
            words: 1,
            is_bool: false,
        }),
        Primary::True(_) => Ok(Kind {
            words: 1,
            is_bool: true,
        }),
        Primary::False(_) => Ok(Kind {
            words: 1,
            is_bool: true,
        }),
        Primary::Own(_) => Ok(Kind {
            words: 1,
            is_bool: false,
        }),
        Primary::Read(_, place) => kind_of_place(scope, place.get()),
        Primary::Input(_) => Ok(Kind {
            words: 1,
            is_bool: false,
        }),
        Primary::CallPlain(_, function, _) => {
            Ok(kind_of_call(scope.outline, function.text.as_slice()))
        }
        Primary::Parenthesized(_, inner) => kind_of_expression(scope, inner.get()),
    }
}

pub fn kind_of_place<'o, 'a>(scope: &Scope<'o, 'a>, node: &'a Place) -> Result<Kind, NoMemory>
    ensures words { IfOk result (λ kind. kind.words ≡ words_of_expr (env_seen scope.now) (expr_of_place node.now)) }
    ensures bool { IfOk result (λ kind. kind.is_bool ≡ is_bool_expr (env_seen scope.now) (expr_of_place node.now)) }
{
    match node {
        Place::Whole(_, target) => Ok(kind_of_found(found_at(scope, target)?)),
        Place::Element(_, _, target, _) => {
            let found = kind_of_found(found_at(scope, target)?);
            Ok(Kind {
                words: 1,
                is_bool: found.is_bool,
            })
        }
    }
}

fn is_bool_unary(operator: UnaryOperator) -> bool
    ensures { result ≡ is_bool_unary operator }
{
    match operator {
        UnaryOperator::Negative => false,
        UnaryOperator::Not => true,
    }
}

fn kind_of_found(found: Option<Found>) -> Kind
    ensures words { result.words ≡ words_of_found (option_map found_seen found.entry) }
    ensures bool { result.is_bool ≡ is_bool_found (option_map found_seen found.entry) }
{
    match found {
        Some(found) => Kind {
            words: found.words,
            is_bool: is_bool(found.type_name),
        },
        None => Kind {
            words: 0,
            is_bool: false,
        },
    }
}

/// What a function gives.
#[tactic(auto, using(crate::proofs::Results::words_of_given, crate::proofs::Results::words_of_none, crate::proofs::Results::bool_of_given, crate::proofs::Results::bool_of_none))]
pub fn kind_of_call<'a>(outline: &Outline<'a>, name: &'a [u8]) -> Kind
    ensures words { result.words ≡ words_of_function outline.now (function_named name.now outline.now) }
    ensures bool { result.is_bool ≡ is_bool_function (function_named name.now outline.now) }
{
    match outline.result_of(name) {
        Some(type_name) => Kind {
            words: words_of_one(outline.layout(), type_name),
            is_bool: is_bool(type_name),
        },
        None => Kind {
            words: 0,
            is_bool: false,
        },
    }
}
