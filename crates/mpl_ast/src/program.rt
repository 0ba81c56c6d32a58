use crate::class::{Field, Formals, Item, Kind};
use crate::place::{At, Name};
use crate::statement::{Block, TypeName};
use sqlite_items::Items;

/// `'struct' NAME '{' field* '}' ';'`, a class `kind 'mentat' 'class' NAME '{' item* '}' ';'`, or a
/// function `type NAME '(' formals? ')' block`
#[derive(Drop)]
pub enum Declaration {
    Struct(At, u32, Name, Items<Field>),
    Class(At, u32, Kind, Name, Items<Item>),
    Function(At, TypeName, Name, Option<Formals>, Block),
}

/// `decl*`. A program of no token stands at byte 0 of line 1.
#[derive(Drop)]
pub struct Program {
    pub at: At,
    pub declarations: Items<Declaration>,
}
