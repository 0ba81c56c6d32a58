//! What a place stands for.

ghost use Rattle.std.specs.Prelude.{◌<◌, ◌≤◌, ◌^◌};

use mpl_ast::statement::TypeName;
use mpl_locals::locals::Slot;

/// What a place stands for.
#[derive(Clone, Copy)]
pub struct Found<'a> {
    pub slot: Option<Slot<'a>>,
    pub offset: usize,
    pub words: usize,
    pub type_name: &'a TypeName,
    pub is_whole: bool,
    ghost near: { offset ≤ 512 },
    ghost few: { words < 2 ^ 63 },
}
