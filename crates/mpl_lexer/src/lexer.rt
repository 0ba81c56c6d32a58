ghost use Rattle.std.specs.Prelude.{◌≡◌, ◌≤◌, length, IfOk, IfErr, Ok};
ghost use Rattle.mpl_mean.specs.Text.Lexemes.{tokens_of};
ghost use Rattle.mpl_lexer.specs.Lexing.{IsFault};
ghost use Rattle.mpl_mean.specs.Limits.{most_source_bytes};

use crate::lexeme::{Lexeme, lexeme_at};
use crate::scan;
use mpl_ast::Span;
use mpl_ast::token::{Token, Tokens};
use mpl_value::{Listed, NoMemory};
use std::alloc::Global;

/// Why a source has no tokens: its first fault and the place of it.
#[derive(Clone, Copy, Debug, PartialEq, Eq)]
pub enum LexFault {
    /// No token begins with the byte there.
    BadByte(u32),
    /// The number that begins there is above 9223372036854775807.
    WideNumber(u32),
    /// The comment that begins there has no end.
    OpenComment(u32),
    NoMemory,
}

impl From<NoMemory> for LexFault {
    ghost use Rattle.mpl_lexer.specs.declared.lexer.LexFault.TheVariants.{NoMemory as OutOfMemory};

    ghost from_gives = { λ _ e. e ≡ OutOfMemory };

    fn from(_error: NoMemory) -> LexFault {
        LexFault::NoMemory
    }
}

/// The tokens of a source.
pub fn lex(alloc: Global, source: &[u8]) -> Result<Tokens, LexFault>
    requires { length source.now ≤ most_source_bytes }
    // Ok exactly where the source has tokens, and then those, with the source's length as the end.
    ensures tokens { IfOk result (λ t. (tokens_of source.now ≡ Ok t.list) × (t.end ≡ length source.now)) }
    // Each fault exactly where it is the source's first, at its place.
    ensures fault { IfErr result (λ e. IsFault e (tokens_of source.now)) }
{
    let mut list = Listed::new(alloc);
    let mut at = 0;
    let mut line = 1;
    while at < source.len() {
        let Lexeme { length, kind } = lexeme_at(alloc, source, at)?;
        let to = at + length;
        if let Some(kind) = kind {
            let span = Span {
                from: at as u32,
                to: to as u32,
            };
            list.push(Token { kind, span, line })?;
        } else {
            line += scan::line_feeds(&source[at..to]) as u32;
        }
        at = to;
    }
    Ok(Tokens {
        list,
        end: source.len() as u32,
    })
}
