use mpl_value::Bytes;

/// Bytes of the source, from the first to the one behind the last, counted from 0.
#[derive(Clone, Copy, Debug, PartialEq, Eq)]
pub struct Span {
    pub from: u32,
    pub to: u32,
}

/// Where a node stands.
#[derive(Clone, Copy, Debug, PartialEq, Eq)]
pub struct At {
    pub span: Span,
    /// The line of its first token, from 1.
    pub line: u32,
    /// Its number among the program's nodes, from 0: outer before inner, left before right.
    pub id: u32,
}

/// A name in a tree.
#[derive(Debug, Drop)]
pub struct Name {
    /// Where it begins.
    pub from: u32,
    pub text: Bytes,
}

/// A number in a tree.
#[derive(Clone, Copy, Debug, PartialEq, Eq)]
pub struct Number {
    /// Where it begins.
    pub from: u32,
    pub value: i64,
}
