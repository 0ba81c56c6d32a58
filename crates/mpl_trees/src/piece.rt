use mpl_ast::expression::Unary;
use mpl_ast::token::Mark;

/// Where a node begins, and its number.
#[derive(Clone, Copy, Debug, PartialEq, Eq)]
pub struct Start {
    pub from: u32,
    pub line: u32,
    pub id: u32,
}

/// An operator on its line.
#[derive(Clone, Copy, Debug, PartialEq, Eq)]
pub struct Sign {
    pub line: u32,
    pub mark: Mark,
}

/// The operator of a level that has one alone.
#[derive(Clone, Copy, Debug, PartialEq, Eq)]
pub enum Sole {
    TheOperator,
}

/// An operand of a row, and the operator before it.
#[derive(Drop)]
pub struct Piece {
    pub sign: Option<Sign>,
    /// Where the first of its nodes begins.
    pub start: Start,
    pub unary: Unary,
    /// Where it ends.
    pub to: u32,
}
