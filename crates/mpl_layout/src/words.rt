//! How many words the values of types have.

ghost use Rattle.std.specs.Prelude.{◌≡◌, ◌≤◌, ◌<◌, ◌^◌};
ghost use Rattle.mpl_mean.specs.Meaning.Layout.{dimension_of, meant, meant_by, natural, words_of, words_of_fields, words_of_one, words_of_word};
ghost use Rattle.mpl_layout.specs.Parts.{words_of_field};

use crate::layout::Layout;
use crate::named::Named;
use mpl_ast::class::{Field, FieldName};
use mpl_ast::statement::{Dimension, TypeName};

/// How many elements an array has.
fn elements(dimension: Dimension) -> usize
    ensures is { result ≡ natural dimension.number.value }
    ensures few { result < 2 ^ 63 }
{
    let value = dimension.number.value;
    if value < 0 { 0 } else { value as usize }
}

fn words_of_word(dimension: Option<Dimension>) -> usize
    ensures { result ≡ words_of_word (dimension_of dimension) }
{
    match dimension {
        Some(dimension) => elements(dimension),
        None => 1,
    }
}

/// The words of a variable of a type.
pub fn words_of<'a>(
    layout: &Layout<'a>,
    type_name: &'a TypeName,
    dimension: Option<Dimension>,
) -> usize
    ensures is { result ≡ words_of layout.now type_name.now (dimension_of dimension) }
    ensures few { result < 2 ^ 63 }
{
    match dimension {
        Some(dimension) => elements(dimension),
        None => words_of_one(layout, type_name),
    }
}

/// The words of one value of a type.
pub fn words_of_one<'a>(layout: &Layout<'a>, type_name: &'a TypeName) -> usize
    ensures is { result ≡ words_of_one (meant layout.now type_name.now) }
    ensures few { result ≤ 256 }
{
    match type_name {
        TypeName::Int(_) => 1,
        TypeName::Bool(_) => 1,
        TypeName::Named(_, name) => words_of_named(layout, name.text.as_slice()),
    }
}

fn words_of_named<'a>(layout: &Layout<'a>, name: &'a [u8]) -> usize
    ensures is { result ≡ words_of_one (meant_by name.now layout.now) }
    ensures few { result ≤ 256 }
{
    match layout.named(name) {
        Named::Struct(fields) => words_of_fields(fields),
        Named::Regular(_) => 0,
        Named::Persistent(_) => 1,
        Named::Nothing => 1,
    }
}

#[tactic(auto, using(crate::proofs::FieldWords::one_field))]
fn words_of_fields(fields: &[Field]) -> usize
    requires { words_of_fields fields.now ≤ 256 }
    ensures { result ≡ words_of_fields fields.now }
{
    let mut words = 0;
    for field in fields {
        words += words_of_field(field.names.as_slice());
    }
    words
}

#[tactic(auto, using(crate::proofs::FieldWords::one_name))]
fn words_of_field(names: &[FieldName]) -> usize
    requires { words_of_field names.now ≤ 256 }
    ensures { result ≡ words_of_field names.now }
{
    let mut words = 0;
    for name in names {
        words += words_of_word(name.dimension);
    }
    words
}
