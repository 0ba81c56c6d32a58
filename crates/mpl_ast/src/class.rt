use crate::expression::Expression;
use crate::place::{At, Name, Number};
use crate::statement::{Block, Dimension, TypeName};
use sqlite_items::Items;

/// `'regular' | 'persistent'`
#[derive(Clone, Copy, Debug, PartialEq, Eq)]
pub enum Kind {
    Regular(At),
    Persistent(At),
}

/// A name of a field, and its dimension.
#[derive(Drop)]
pub struct FieldName {
    pub name: Name,
    pub dimension: Option<Dimension>,
}

/// `type (NAME dim?) % ',' ';'`
#[derive(Drop)]
pub struct Field {
    pub at: At,
    pub type_name: TypeName,
    pub names: Items<FieldName>,
}

/// A type and a name of the formals.
#[derive(Drop)]
pub struct Formal {
    pub type_name: TypeName,
    pub name: Name,
}

/// `(type NAME) % ','`
#[derive(Drop)]
pub struct Formals {
    pub at: At,
    pub list: Items<Formal>,
}

/// `'void' | type`
#[derive(Drop)]
pub enum ResultType {
    Void(At),
    Typed(At, TypeName),
}

/// `'priority' NUMBER ':' ('guard' '(' expr ')')? 'accept' NAME ';'`
#[derive(Drop)]
pub struct Entry {
    pub at: At,
    pub priority: Number,
    pub guard: Option<Expression>,
    pub member: Name,
}

/// `field | result NAME '(' formals? ')' block | 'select' '{' entry* '}' | 'public' ':' | 'private' ':' | ';'`
#[derive(Drop)]
pub enum Item {
    OfField(At, Field),
    Member(At, ResultType, Name, Option<Formals>, Block),
    Select(At, u32, Items<Entry>),
    Public(At),
    Private(At),
    Empty(At),
}
