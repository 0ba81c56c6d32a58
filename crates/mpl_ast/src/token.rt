use crate::place::Span;
use mpl_value::{Bytes, Listed};

/// The words that are no names.
#[derive(Clone, Copy, Debug, PartialEq, Eq)]
pub enum Keyword {
    Accept,
    Bool,
    Class,
    Control,
    Create,
    Else,
    False,
    For,
    Guard,
    If,
    Input,
    Int,
    Mentat,
    Persistent,
    Print,
    Priority,
    Private,
    Public,
    Regular,
    Return,
    Rtf,
    Select,
    Own,
    Struct,
    True,
    Void,
    While,
}

/// The marks between words.
#[derive(Clone, Copy, Debug, PartialEq, Eq)]
pub enum Mark {
    OpenBrace,
    CloseBrace,
    OpenParenthesis,
    CloseParenthesis,
    OpenBracket,
    CloseBracket,
    Semicolon,
    Comma,
    Dot,
    Colon,
    Assign,
    Plus,
    Minus,
    Star,
    Slash,
    Percent,
    Less,
    Greater,
    LessEqual,
    GreaterEqual,
    EqualEqual,
    NotEqual,
    AndAnd,
    OrOr,
    Not,
    PlusPlus,
    MinusMinus,
}

#[derive(Debug, Drop)]
pub enum TokenKind {
    Name(Bytes),
    Number(i64),
    Keyword(Keyword),
    Mark(Mark),
}

#[derive(Debug, Drop)]
pub struct Token {
    pub kind: TokenKind,
    pub span: Span,
    /// The line on which it begins, from 1.
    pub line: u32,
}

/// The tokens of a source.
#[derive(Debug, Drop)]
pub struct Tokens {
    pub list: Listed<Token>,
    /// How many bytes the source has.
    pub end: u32,
}
