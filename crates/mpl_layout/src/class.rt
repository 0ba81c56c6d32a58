//! A class among those of a program.

ghost use Rattle.std.specs.Prelude.{◌<◌, ◌≤◌, ◌+◌, length};
ghost use Rattle.mpl_mean.specs.Meaning.Layout.{members_from};

use mpl_ast::class::Item;

#[derive(Clone, Copy)]
pub struct Class<'a> {
    pub number: u32,
    /// The number of its first member.
    pub first: u32,
    pub name: &'a [u8],
    pub is_regular: bool,
    pub items: &'a [Item],
    ghost few: { number < 4096 },
    ghost numbered: { first + length (members_from 0 items.now) ≤ 262144 },
}
