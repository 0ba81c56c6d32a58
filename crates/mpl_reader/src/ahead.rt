//! Tests of the tokens that come.

ghost use Rattle.std.specs.Prelude.{◌≡◌, ℕ, List, is_some};
ghost use Rattle.mpl_ast.specs.declared.token.Token.{Token};
ghost use Rattle.mpl_mean.specs.Text.Reading as reading;
ghost use Rattle.mpl_trees.specs.Rows.{joint_of, take_joint};
ghost use Rattle.mpl_trees.specs.Taking as spec;
ghost use Rattle.mpl_trees.specs.Ahead as spec_ahead;
ghost use Rattle.mpl_trees.specs.Expressions.{past_field, second};

use mpl_ast::token::{Keyword, Mark, Token, TokenKind};

fn has_mark(token: &Token, mark: Mark) -> bool
    ensures { result ≡ reading.is_mark mark token.now.kind }
{
    match token.kind {
        TokenKind::Mark(found) => found == mark,
        _ => false,
    }
}

fn has_keyword(token: &Token, keyword: Keyword) -> bool
    ensures { result ≡ reading.is_keyword keyword token.now.kind }
{
    match token.kind {
        TokenKind::Keyword(found) => found == keyword,
        _ => false,
    }
}

fn has_name(token: &Token) -> bool
    ensures { result ≡ spec.is_any_name token.now.kind }
{
    matches!(token.kind, TokenKind::Name(_))
}

fn has_operator(token: &Token) -> bool
    ensures { (tokens : List Token) (next : ℕ) → result ≡ is_some (joint_of token.now.kind token.now tokens next) }
{
    match token.kind {
        TokenKind::Mark(mark) => level_of(mark).is_some(),
        _ => false,
    }
}

pub fn sees_mark(tokens: &[Token], mark: Mark) -> bool
    ensures { result ≡ spec.is_ahead (reading.is_mark mark) tokens.now }
{
    match tokens {
        [token, ..] => has_mark(token, mark),
        [] => false,
    }
}

pub fn sees_keyword(tokens: &[Token], keyword: Keyword) -> bool
    ensures { result ≡ spec.is_ahead (reading.is_keyword keyword) tokens.now }
{
    match tokens {
        [token, ..] => has_keyword(token, keyword),
        [] => false,
    }
}

pub fn sees_name(tokens: &[Token]) -> bool
    ensures { result ≡ spec.is_ahead spec.is_any_name tokens.now }
{
    match tokens {
        [token, ..] => has_name(token),
        [] => false,
    }
}

/// The tokens behind the first.
pub fn second(tokens: &[Token]) -> &[Token]
    ensures { result.now ≡ second tokens.now }
{
    match tokens {
        [_, rest @ ..] => rest,
        [] => tokens,
    }
}

/// The level of an operator between operands. The levels are counted from the one that binds most.
pub fn level_of(mark: Mark) -> Option<u32>
    ensures { result ≡ spec_ahead.level_of mark }
{
    match mark {
        Mark::Star | Mark::Slash | Mark::Percent => Some(0),
        Mark::Plus | Mark::Minus => Some(1),
        Mark::Less | Mark::Greater | Mark::LessEqual | Mark::GreaterEqual => Some(2),
        Mark::EqualEqual | Mark::NotEqual => Some(3),
        Mark::AndAnd => Some(4),
        Mark::OrOr => Some(5),
        _ => None,
    }
}

/// An operator between operands comes.
pub fn sees_operator(tokens: &[Token]) -> bool
    ensures { (last next : ℕ) → result ≡ is_some (take_joint (record { tokens = tokens.now; last = last; next = next })) }
{
    match tokens {
        [token, ..] => has_operator(token),
        [] => false,
    }
}

/// The tokens behind the first three.
pub fn past_field(tokens: &[Token]) -> &[Token]
    ensures { result.now ≡ past_field tokens.now }
{
    second(second(second(tokens)))
}
