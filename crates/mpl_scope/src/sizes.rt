//! Sums of words, as far as a limit can tell.

ghost use Rattle.std.specs.Prelude.{◌≡◌, ◌+◌, ◌≤◌};
ghost use Rattle.mpl_mean.specs.Meaning.Layout as layout;
ghost use Rattle.mpl_scope.specs.Words.{told, words_of_field};

use mpl_ast::class::{Field, FieldName};
use mpl_ast::statement::Dimension;

/// One more than the greatest limit: from here on, counts aren't told apart.
const TOO_MANY: u64 = 1025;

/// The sum of two counts.
pub fn sum(a: u64, b: u64) -> u64
    requires left { a ≤ 1025 }
    requires right { b ≤ 1025 }
    ensures sum { result ≡ told (a + b) }
    ensures few { result ≤ 1025 }
{
    let sum = a + b;
    if sum < TOO_MANY { sum } else { TOO_MANY }
}

pub fn words_of_word(dimension: Option<Dimension>) -> u64
    ensures words { result ≡ told (layout.words_of_word (layout.dimension_of dimension)) }
    ensures few { result ≤ 1025 }
{
    match dimension {
        Some(dimension) => {
            let size = dimension.number.value;
            if size <= 0 {
                0
            } else if size < 1025 {
                size as u64
            } else {
                TOO_MANY
            }
        }
        None => 1,
    }
}

// ---- fields

fn words_of_field(names: &[FieldName]) -> u64
    ensures words { result ≡ told (words_of_field names.now) }
    ensures few { result ≤ 1025 }
{
    let mut words = 0;
    for name in names {
        words = sum(words, words_of_word(name.dimension));
    }
    words
}

pub fn words_of_fields(fields: &[Field]) -> u64
    ensures words { result ≡ told (layout.words_of_fields fields.now) }
    ensures few { result ≤ 1025 }
{
    let mut words = 0;
    for field in fields {
        words = sum(words, words_of_field(field.names.as_slice()));
    }
    words
}
