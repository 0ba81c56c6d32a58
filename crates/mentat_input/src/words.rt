//! The words of an input, and the numbers that they are.
ghost use Rattle.std.specs.Prelude.{◌≡◌, [], ◌∷◌, ◌++◌, not, true, is_some, OnOk};
ghost use Rattle.std.specs.List.{prefix_len, list_all};
ghost use Rattle.mentat_input.specs.Internal.Taken.{HasNumbers, unsigned_of};
ghost use Rattle.mentat_input.specs.Words.{at_most, is_blank, is_digit, negative, number_of, positive};
ghost use Rattle.mentat_input.specs.Words as spec;

use crate::fault::InputFault;
use mpl_value::{NoMemory, Words};
use std::alloc::Global;

/// The numbers of an input, or the place of the first word that is none.
#[tactic(auto, using(crate::proofs::WordLemmas::no_numbers, crate::proofs::WordLemmas::past_blank, crate::proofs::WordLemmas::all_words))]
pub(crate) fn numbers_of(alloc: Global, bytes: &[u8]) -> Result<Words, InputFault>
    ensures { HasNumbers bytes.now result }
{
    let mut numbers = Words::new(alloc);
    let mut at = 0;
    while at < bytes.len() {
        let rest = &bytes[at..];
        let length = word_length(rest);
        if length == 0 {
            at += 1;
        } else {
            let Some(number) = number_of(&rest[..length]) else {
                return Err(InputFault::BadInput(at as u64));
            };
            push(&mut numbers, number)?;
            at += length;
        }
    }
    Ok(numbers)
}

/// One more number, at the end.
fn push(numbers: &mut Words, number: i64) -> Result<(), NoMemory>
    ensures { OnOk result (numbers.new ≡ numbers.old ++ number ∷ []) }
{
    numbers.push(number)
}

/// How many bytes there are before the first blank.
fn word_length(bytes: &[u8]) -> usize
    ensures { result ≡ prefix_len (λ c. not (is_blank c)) bytes.now }
{
    bytes.iter().take_while(|byte| !is_blank(**byte)).count()
}

/// The number that a word is.
fn number_of(word: &[u8]) -> Option<i64>
    ensures { result ≡ number_of word.now }
{
    match word {
        [b'-', digits @ ..] => negative(digits),
        digits => positive(digits),
    }
}

fn positive(digits: &[u8]) -> Option<i64>
    ensures { result ≡ positive (spec.magnitude_of digits.now) }
{
    if !are_digits(digits) {
        return None;
    }
    i64::try_from(unsigned_of(digits)?).ok()
}

fn negative(digits: &[u8]) -> Option<i64>
    ensures { result ≡ negative (spec.magnitude_of digits.now) }
{
    if !are_digits(digits) {
        return None;
    }
    0i64.checked_sub_unsigned(unsigned_of(digits)?)
}

/// The number that one or more digits spell, where it is at most `most`.
pub fn number_within(most: u64, word: &[u8]) -> Option<u64>
    ensures { result ≡ at_most most (spec.magnitude_of word.now) }
{
    if !are_digits(word) {
        return None;
    }
    let number = unsigned_of(word)?;
    if number <= most { Some(number) } else { None }
}

/// One or more digits.
fn are_digits(bytes: &[u8]) -> bool
    ensures { result ≡ is_some (spec.magnitude_of bytes.now) }
{
    !bytes.is_empty() && all_digits(bytes)
}

fn all_digits(bytes: &[u8]) -> bool
    ensures { result ≡ list_all is_digit bytes.now }
{
    bytes.iter().all(|byte| is_digit(*byte))
}

/// The number that digits spell, if 64 bits without a sign hold it.
fn unsigned_of(digits: &[u8]) -> Option<u64>
    requires { list_all is_digit digits.now ≡ true }
    ensures { result ≡ unsigned_of digits.now }
{
    let mut value: u64 = 0;
    for digit in digits {
        value = value
            .checked_mul(10)?
            .checked_add(u64::from(*digit - b'0'))?;
    }
    Some(value)
}

fn is_blank(byte: u8) -> bool
    ensures { result ≡ is_blank byte }
{
    matches!(byte, b' ' | b'\t' | b'\n' | b'\r')
}

fn is_digit(byte: u8) -> bool
    ensures { result ≡ is_digit byte }
{
    matches!(byte, b'0'..=b'9')
}
