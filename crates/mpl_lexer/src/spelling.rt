ghost use Rattle.std.specs.Prelude.{◌≡◌, ℕ, List, [], ◌∷◌, find, nat_eq, Some, if◌then◌else◌};
ghost use Rattle.std.specs.List.{starts_with};
ghost use Rattle.std.specs.Str.{bytes_eq};
ghost use Rattle.mpl_mean.specs.Text.TokenTable.{keywords, keyword_spelling, marks, mark_spelling};

use mpl_ast::token::{Keyword, Mark};

/// The keywords that begin with the byte.
fn keywords_from(first: u8) -> &'static [Keyword]
    ensures { (rest : List ℕ) → find (λ k. bytes_eq (keyword_spelling k) (first ∷ rest)) keywords ≡ find (λ k. bytes_eq (keyword_spelling k) (first ∷ rest)) result.now }
{
    match first {
        b'a' => &[Keyword::Accept],
        b'b' => &[Keyword::Bool],
        b'c' => &[Keyword::Class, Keyword::Control, Keyword::Create],
        b'e' => &[Keyword::Else],
        b'f' => &[Keyword::False, Keyword::For],
        b'g' => &[Keyword::Guard],
        b'i' => &[Keyword::If, Keyword::Input, Keyword::Int],
        b'm' => &[Keyword::Mentat],
        b'p' => &[
            Keyword::Persistent,
            Keyword::Print,
            Keyword::Priority,
            Keyword::Private,
            Keyword::Public,
        ],
        b'r' => &[Keyword::Regular, Keyword::Return, Keyword::Rtf],
        b's' => &[Keyword::Select, Keyword::Own, Keyword::Struct],
        b't' => &[Keyword::True],
        b'v' => &[Keyword::Void],
        b'w' => &[Keyword::While],
        _ => &[],
    }
}

fn keyword_spelling(keyword: Keyword) -> &'static [u8]
    ensures { result.now ≡ keyword_spelling keyword }
{
    match keyword {
        Keyword::Accept => b"accept",
        Keyword::Bool => b"bool",
        Keyword::Class => b"class",
        Keyword::Control => b"control",
        Keyword::Create => b"create",
        Keyword::Else => b"else",
        Keyword::False => b"false",
        Keyword::For => b"for",
        Keyword::Guard => b"guard",
        Keyword::If => b"if",
        Keyword::Input => b"input",
        Keyword::Int => b"int",
        Keyword::Mentat => b"mentat",
        Keyword::Persistent => b"persistent",
        Keyword::Print => b"print",
        Keyword::Priority => b"priority",
        Keyword::Private => b"private",
        Keyword::Public => b"public",
        Keyword::Regular => b"regular",
        Keyword::Return => b"return",
        Keyword::Rtf => b"rtf",
        Keyword::Select => b"select",
        Keyword::Own => b"self",
        Keyword::Struct => b"struct",
        Keyword::True => b"true",
        Keyword::Void => b"void",
        Keyword::While => b"while",
    }
}

pub(crate) fn mark_spelling(mark: Mark) -> &'static [u8]
    ensures { result.now ≡ mark_spelling mark }
{
    match mark {
        Mark::OpenBrace => b"{",
        Mark::CloseBrace => b"}",
        Mark::OpenParenthesis => b"(",
        Mark::CloseParenthesis => b")",
        Mark::OpenBracket => b"[",
        Mark::CloseBracket => b"]",
        Mark::Semicolon => b";",
        Mark::Comma => b",",
        Mark::Dot => b".",
        Mark::Colon => b":",
        Mark::Assign => b"=",
        Mark::Plus => b"+",
        Mark::Minus => b"-",
        Mark::Star => b"*",
        Mark::Slash => b"/",
        Mark::Percent => b"%",
        Mark::Less => b"<",
        Mark::Greater => b">",
        Mark::LessEqual => b"<=",
        Mark::GreaterEqual => b">=",
        Mark::EqualEqual => b"==",
        Mark::NotEqual => b"!=",
        Mark::AndAnd => b"&&",
        Mark::OrOr => b"||",
        Mark::Not => b"!",
        Mark::PlusPlus => b"++",
        Mark::MinusMinus => b"--",
    }
}

/// The keyword among these that is spelled so.
fn spelled(among: &[Keyword], text: &[u8]) -> Option<Keyword>
    ensures { result ≡ find (λ k. bytes_eq (keyword_spelling k) text.now) among.now }
{
    among
        .iter()
        .copied()
        .find(|keyword| keyword_spelling(*keyword) == text)
}

/// The keyword that is spelled so.
pub(crate) fn keyword(text: &[u8]) -> Option<Keyword>
    ensures { result ≡ find (λ k. bytes_eq (keyword_spelling k) text.now) keywords }
{
    let (first, _) = text.split_first()?;
    spelled(keywords_from(*first), text)
}

/// The longer mark where the byte comes, and else the other.
fn longer(rest: &[u8], byte: u8, long: Mark, short: Option<Mark>) -> Option<Mark>
    ensures { result ≡ (if starts_with nat_eq rest.now (byte ∷ []) then Some long else short) }
{
    if rest.starts_with(&[byte]) {
        Some(long)
    } else {
        short
    }
}

/// The longest mark that begins with the first byte, before the rest.
fn mark_from(first: u8, rest: &[u8]) -> Option<Mark>
    ensures { result ≡ find (λ m. starts_with nat_eq (first ∷ rest.now) (mark_spelling m)) marks }
{
    match first {
        b'{' => Some(Mark::OpenBrace),
        b'}' => Some(Mark::CloseBrace),
        b'(' => Some(Mark::OpenParenthesis),
        b')' => Some(Mark::CloseParenthesis),
        b'[' => Some(Mark::OpenBracket),
        b']' => Some(Mark::CloseBracket),
        b';' => Some(Mark::Semicolon),
        b',' => Some(Mark::Comma),
        b'.' => Some(Mark::Dot),
        b':' => Some(Mark::Colon),
        b'*' => Some(Mark::Star),
        b'/' => Some(Mark::Slash),
        b'%' => Some(Mark::Percent),
        b'=' => longer(rest, b'=', Mark::EqualEqual, Some(Mark::Assign)),
        b'+' => longer(rest, b'+', Mark::PlusPlus, Some(Mark::Plus)),
        b'-' => longer(rest, b'-', Mark::MinusMinus, Some(Mark::Minus)),
        b'<' => longer(rest, b'=', Mark::LessEqual, Some(Mark::Less)),
        b'>' => longer(rest, b'=', Mark::GreaterEqual, Some(Mark::Greater)),
        b'!' => longer(rest, b'=', Mark::NotEqual, Some(Mark::Not)),
        b'&' => longer(rest, b'&', Mark::AndAnd, None),
        b'|' => longer(rest, b'|', Mark::OrOr, None),
        _ => None,
    }
}

/// The longest mark at the front.
pub(crate) fn mark(bytes: &[u8]) -> Option<Mark>
    ensures { result ≡ find (λ m. starts_with nat_eq bytes.now (mark_spelling m)) marks }
{
    let (first, rest) = bytes.split_first()?;
    mark_from(*first, rest)
}
