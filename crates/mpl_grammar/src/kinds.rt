//! Tests of a token's kind.
ghost use Rattle.std.specs.Prelude.{◌≡◌};
ghost use Rattle.mpl_grammar.specs.Internal.Kinds as spec;
ghost use Rattle.mpl_mean.specs.Text.Reading as reading;

use mpl_ast::token::{Keyword, Mark, TokenKind};

pub fn is_mark(kind: &TokenKind, mark: Mark) -> bool
    ensures { result ≡ reading.is_mark mark kind.now }
{
    match kind {
        TokenKind::Mark(found) => *found == mark,
        _ => false,
    }
}

pub fn is_keyword(kind: &TokenKind, keyword: Keyword) -> bool
    ensures { result ≡ reading.is_keyword keyword kind.now }
{
    match kind {
        TokenKind::Keyword(found) => *found == keyword,
        _ => false,
    }
}

pub fn is_name(kind: &TokenKind) -> bool
    ensures { result ≡ spec.is_any_name kind.now }
{
    matches!(kind, TokenKind::Name(_))
}

pub fn is_number(kind: &TokenKind) -> bool
    ensures { result ≡ spec.is_any_number kind.now }
{
    matches!(kind, TokenKind::Number(value) if *value >= 0)
}

/// `int` or `bool`
pub fn is_basic_type(kind: &TokenKind) -> bool
    ensures { result ≡ spec.is_basic_type kind.now }
{
    is_keyword(kind, Keyword::Int) || is_keyword(kind, Keyword::Bool)
}

pub fn is_type(kind: &TokenKind) -> bool
    ensures { result ≡ spec.is_type kind.now }
{
    is_name(kind) || is_basic_type(kind)
}

/// `regular` or `persistent`
pub fn is_class_kind(kind: &TokenKind) -> bool
    ensures { result ≡ spec.is_kind kind.now }
{
    is_keyword(kind, Keyword::Regular) || is_keyword(kind, Keyword::Persistent)
}

/// `public` or `private`
pub fn is_access(kind: &TokenKind) -> bool
    ensures { result ≡ spec.is_access kind.now }
{
    is_keyword(kind, Keyword::Public) || is_keyword(kind, Keyword::Private)
}

/// An operand of one token that is neither a name nor `self`.
pub fn is_constant(kind: &TokenKind) -> bool
    ensures { result ≡ spec.is_constant kind.now }
{
    is_number(kind) || (is_keyword(kind, Keyword::True) || is_keyword(kind, Keyword::False))
}

pub fn is_unary(kind: &TokenKind) -> bool
    ensures { result ≡ spec.is_unary kind.now }
{
    is_mark(kind, Mark::Minus) || is_mark(kind, Mark::Not)
}

fn is_term_operator(kind: &TokenKind) -> bool
    ensures { result ≡ spec.is_term_operator kind.now }
{
    is_mark(kind, Mark::Star) || (is_mark(kind, Mark::Slash) || is_mark(kind, Mark::Percent))
}

fn is_sum_operator(kind: &TokenKind) -> bool
    ensures { result ≡ spec.is_sum_operator kind.now }
{
    is_mark(kind, Mark::Plus) || is_mark(kind, Mark::Minus)
}

fn is_relation_operator(kind: &TokenKind) -> bool
    ensures { result ≡ spec.is_relation_operator kind.now }
{
    is_mark(kind, Mark::Less)
        || (is_mark(kind, Mark::LessEqual)
            || (is_mark(kind, Mark::Greater) || is_mark(kind, Mark::GreaterEqual)))
}

fn is_equality_operator(kind: &TokenKind) -> bool
    ensures { result ≡ spec.is_equality_operator kind.now }
{
    is_mark(kind, Mark::EqualEqual) || is_mark(kind, Mark::NotEqual)
}

/// An operator between operands.
pub fn is_operator(kind: &TokenKind) -> bool
    ensures { result ≡ spec.is_operator kind.now }
{
    is_term_operator(kind)
        || (is_sum_operator(kind)
            || (is_relation_operator(kind)
                || (is_equality_operator(kind)
                    || (is_mark(kind, Mark::AndAnd) || is_mark(kind, Mark::OrOr)))))
}
