//! The words of a source that decide how it is run.
ghost use Rattle.std.specs.Prelude.{◌≡◌};
ghost use Rattle.std.specs.List.{list_any};
ghost use Rattle.mpl_ast.specs.declared.token.Token.{Token};
ghost use Rattle.mentat_cmd.specs.Program.{first_persistent, is_input_kind, persistent_word};

use mpl_ast::class::Kind;
use mpl_ast::program::Declaration;
use mpl_ast::token::{Keyword, Token, TokenKind};

/// Where the first word `persistent` stands, if a class is persistent.
pub fn first_persistent(declarations: &[Declaration]) -> Option<u32>
    ensures { result ≡ first_persistent declarations.now }
{
    for declaration in declarations {
        let word = persistent_word(declaration);
        if word.is_some() {
            return word;
        }
    }
    None
}

fn persistent_word(declaration: &Declaration) -> Option<u32>
    ensures { result ≡ persistent_word declaration.now }
{
    match declaration {
        Declaration::Class(_, _, Kind::Persistent(word), ..) => Some(word.span.from),
        Declaration::Class(_, _, Kind::Regular(_), ..)
        | Declaration::Struct(..)
        | Declaration::Function(..) => None,
    }
}

/// Whether the word `input` is among the tokens.
pub fn asks_for_input(tokens: &[Token]) -> bool
    ensures { result ≡ list_any (λ (t : Token). is_input_kind t.kind) tokens.now }
{
    tokens.iter().any(|token| is_input(&token.kind))
}

fn is_input(kind: &TokenKind) -> bool
    ensures { result ≡ is_input_kind kind.now }
{
    matches!(kind, TokenKind::Keyword(Keyword::Input))
}
