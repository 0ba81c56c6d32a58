ghost use Rattle.std.specs.Prelude.{◌≡◌, ◌≤◌, length, not, count_by, IfSome};
ghost use Rattle.std.specs.List.{prefix_len, AllPass};
ghost use Rattle.mpl_mean.specs.Text.Lexemes.{is_line_feed, is_digit, continues_name, comment_rest};
ghost use Rattle.mpl_lexer.specs.Lexing.{word_of};

use crate::classes;

/// How many bytes at the front belong to a name.
pub(crate) fn name_length(bytes: &[u8]) -> usize
    ensures { result ≡ prefix_len continues_name bytes.now }
{
    bytes
        .iter()
        .take_while(|byte| classes::continues_name(**byte))
        .count()
}

/// How many bytes at the front are digits.
pub(crate) fn digits_length(bytes: &[u8]) -> usize
    ensures { result ≡ prefix_len is_digit bytes.now }
{
    bytes
        .iter()
        .take_while(|byte| classes::is_digit(**byte))
        .count()
}

/// How many bytes there are up to a line feed.
pub(crate) fn line_rest(bytes: &[u8]) -> usize
    ensures { result ≡ prefix_len (λ b. not (is_line_feed b)) bytes.now }
{
    bytes.iter().take_while(|byte| **byte != b'\n').count()
}

/// How many bytes there are up to the first `*/` and with it.
pub(crate) fn comment_rest(bytes: &[u8]) -> Option<usize>
    ensures exact { result ≡ comment_rest bytes.now }
    ensures within { IfSome result (λ n. n ≤ length bytes.now) }
{
    for i in 1..bytes.len() {
        if bytes[i - 1] == b'*' && bytes[i] == b'/' {
            return Some(i + 1);
        }
    }
    None
}

pub(crate) fn line_feeds(bytes: &[u8]) -> usize
    ensures { result ≡ count_by is_line_feed bytes.now }
{
    bytes.iter().filter(|byte| **byte == b'\n').count()
}

/// The number that digits spell, if 64 bits hold it.
pub(crate) fn number(digits: &[u8]) -> Option<i64>
    requires { AllPass is_digit digits.now }
    ensures { result ≡ word_of digits.now }
{
    let mut value: u64 = 0;
    for digit in digits {
        value = value
            .checked_mul(10)?
            .checked_add(u64::from(*digit - b'0'))?;
    }
    i64::try_from(value).ok()
}
