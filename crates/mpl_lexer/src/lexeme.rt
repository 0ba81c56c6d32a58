ghost use Rattle.std.specs.Prelude.{◌≡◌, ◌+◌, ◌<◌, ◌≤◌, length, drop, take_while, find, nat_eq, IfOk};
ghost use Rattle.std.specs.List.{starts_with};
ghost use Rattle.mpl_mean.specs.Text.TokenTable.{marks, mark_spelling};
ghost use Rattle.mpl_mean.specs.Text.Lexemes.{Word, comment_lexeme, comment_rest, number_lexeme, mark_lexeme, word_kind, is_digit, continues_name};
ghost use Rattle.mpl_lexer.specs.Lexing.{IsFound, lexeme_of};
ghost use Rattle.mpl_mean.specs.Limits.{most_source_bytes};

use crate::lexer::LexFault;
use crate::{classes, scan, spelling};
use mpl_ast::token::TokenKind;
use mpl_value::{Bytes, NoMemory};
use std::alloc::Global;

/// What stands at the front of some bytes.
#[derive(Drop)]
pub(crate) struct Lexeme {
    pub length: usize,
    /// The token, and none for a blank or a comment.
    pub kind: Option<TokenKind>,
}

impl Lexeme {
    fn gap(length: usize) -> Lexeme
        ensures { result ≡ record { length = length; kind = None } }
    {
        Lexeme { length, kind: None }
    }

    fn word(length: usize, kind: TokenKind) -> Lexeme
        ensures { result ≡ record { length = length; kind = Some kind } }
    {
        Lexeme {
            length,
            kind: Some(kind),
        }
    }
}

/// What stands at a place of a source.
pub(crate) fn lexeme_at(alloc: Global, source: &[u8], at: usize) -> Result<Lexeme, LexFault>
    requires inside { at < length source.now }
    requires short { length source.now ≤ most_source_bytes }
    ensures exact { IsFound at result (lexeme_of (drop at source.now)) }
    ensures within { IfOk result (λ l. (0 < l.length) × (at + l.length ≤ length source.now)) }
{
    front(alloc, &source[at..], at as u32)
}

/// What stands at the front of the bytes, whose first is at a place of a source.
fn front(alloc: Global, bytes: &[u8], at: u32) -> Result<Lexeme, LexFault>
    requires { 0 < length bytes.now }
    ensures { IsFound at result (lexeme_of bytes.now) }
{
    let first = bytes[0];
    if classes::is_blank(first) {
        Ok(Lexeme::gap(1))
    } else if bytes.starts_with(b"//") {
        Ok(Lexeme::gap(scan::line_rest(bytes)))
    } else if bytes.starts_with(b"/*") {
        block_comment(bytes, at)
    } else if classes::is_letter(first) {
        word(alloc, bytes, at)
    } else if first == b'0' {
        Ok(Lexeme::word(1, TokenKind::Number(0)))
    } else if classes::is_digit(first) {
        number(bytes, at)
    } else {
        mark(bytes, at)
    }
}

/// A comment, behind its first two bytes.
fn block_comment(bytes: &[u8], at: u32) -> Result<Lexeme, LexFault>
    requires { 2 ≤ length bytes.now }
    ensures { IsFound at result (comment_lexeme (comment_rest (drop 2 bytes.now))) }
{
    let rest = scan::comment_rest(&bytes[2..]).ok_or(LexFault::OpenComment(at))?;
    Ok(Lexeme::gap(rest + 2))
}

/// A name or a keyword.
fn word(alloc: Global, bytes: &[u8], at: u32) -> Result<Lexeme, LexFault>
    ensures { let text = take_while continues_name bytes.now in
        IsFound at result (Word (length text) (word_kind text)) }
{
    let text = &bytes[..scan::name_length(bytes)];
    let kind = word_kind(alloc, text)?;
    Ok(Lexeme::word(text.len(), kind))
}

fn word_kind(alloc: Global, text: &[u8]) -> Result<TokenKind, NoMemory>
    ensures { IfOk result (λ kind. kind ≡ word_kind text.now) }
{
    match spelling::keyword(text) {
        Some(keyword) => Ok(TokenKind::Keyword(keyword)),
        None => Ok(TokenKind::Name(Bytes::from_slice(alloc, text)?)),
    }
}

fn number(bytes: &[u8], at: u32) -> Result<Lexeme, LexFault>
    ensures { IsFound at result (number_lexeme (take_while is_digit bytes.now)) }
{
    let digits = &bytes[..scan::digits_length(bytes)];
    let value = scan::number(digits).ok_or(LexFault::WideNumber(at))?;
    Ok(Lexeme::word(digits.len(), TokenKind::Number(value)))
}

fn mark(bytes: &[u8], at: u32) -> Result<Lexeme, LexFault>
    ensures { IsFound at result
        (mark_lexeme (find (λ m. starts_with nat_eq bytes.now (mark_spelling m)) marks)) }
{
    let mark = spelling::mark(bytes).ok_or(LexFault::BadByte(at))?;
    let length = spelling::mark_spelling(mark).len();
    Ok(Lexeme::word(length, TokenKind::Mark(mark)))
}
