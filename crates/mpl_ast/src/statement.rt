use crate::expression::{Expression, Target};
use crate::flow::{Assignment, Call, Flow};
use crate::place::{At, Name, Number};
use sqlite_items::{Boxed, Items};

/// `'[' NUMBER ']'`
#[derive(Clone, Copy, Debug, PartialEq, Eq)]
pub struct Dimension {
    pub at: At,
    pub mark_line: u32,
    pub number: Number,
}

/// `'int' | 'bool' | NAME`
#[derive(Drop)]
pub enum TypeName {
    Int(At),
    Bool(At),
    Named(At, Name),
}

/// `NAME dim? | NAME '=' flow`
#[derive(Drop)]
pub enum Declarator {
    Plain(At, Name, Option<Dimension>),
    Initialized(At, Name, Flow),
}

/// `type dcl % ','`
#[derive(Drop)]
pub struct Local {
    pub at: At,
    pub type_name: TypeName,
    pub declarators: Items<Declarator>,
}

/// What stands first in a `for`.
#[derive(Drop)]
pub enum ForStart {
    Declare(Local),
    Assign(Assignment),
}

/// What stands in the parentheses of a `for`: what is done first, the test, and what is done after each turn.
#[derive(Drop)]
pub struct ForHead {
    pub start: Option<ForStart>,
    pub test: Expression,
    pub step: Option<Assignment>,
}

/// `'{' stmt* '}'`
#[cycle(statement)]
#[derive(Drop)]
pub struct Block {
    pub at: At,
    pub mark_line: u32,
    pub statements: Items<Statement>,
}

#[cycle(statement)]
#[derive(Drop)]
pub enum Statement {
    OfBlock(At, Block),
    Declare(At, Local),
    Assign(At, Assignment),
    CallAlone(At, Call),
    Create(At, Target),
    If(At, Expression, Boxed<Statement>, Option<Boxed<Statement>>),
    While(At, Expression, Boxed<Statement>),
    For(At, Boxed<ForHead>, Boxed<Statement>),
    Print(At, Items<Expression>),
    Rtf(At, Flow),
    Return(At, Option<Expression>),
    Empty(At),
}
