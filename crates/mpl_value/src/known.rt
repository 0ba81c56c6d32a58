use crate::numbers::Words;

/// Why a body ends before its end.
#[derive(Clone, Copy, Debug, PartialEq, Eq)]
pub enum TrapKind {
    /// An exact result is no number of 64 bits.
    Overflow,
    /// A division by 0, or a remainder.
    DivZero,
    /// An index outside its array.
    Index,
    /// A call on a name of no object.
    Unbound,
    /// No number is left in the input.
    NoInput,
    /// A body with a result ends without having given it.
    NoReply,
    /// A body gives its result a second time.
    Twice,
}

/// A trap, and the line of the source, from 1, where it comes about.
#[derive(Clone, Copy, Debug, PartialEq, Eq)]
pub struct Trap {
    pub kind: TrapKind,
    pub line: u32,
}

/// A result that is known: its words, or the trap that stands for them.
#[derive(Debug, Drop)]
pub enum Known {
    Value(Words),
    Trapped(Trap),
}
