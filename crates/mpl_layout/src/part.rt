//! A part of a struct or of a state.

ghost use Rattle.std.specs.Prelude.{◌≤◌, ◌+◌};

use mpl_ast::statement::{Dimension, TypeName};

/// A part of a struct or of a state, by its words there.
#[derive(Clone, Copy)]
pub struct Part<'a> {
    pub name: &'a [u8],
    pub type_name: &'a TypeName,
    pub dimension: Option<Dimension>,
    pub offset: usize,
    pub words: usize,
    ghost inside: { offset + words ≤ 256 },
}
