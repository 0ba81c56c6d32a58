use crate::known::{Known, Trap};
use crate::listed::Listed;
use crate::numbers::{Bytes, Words};

/// A member, by its place among all members of the program in the order of the source, from 0.
#[derive(Clone, Copy, Debug, PartialEq, Eq)]
pub struct MemberId(pub u32);

/// What a variable holds, or an argument passes on.
#[derive(Debug, Drop)]
pub enum Arg {
    Know(Words),
    Trapped(Trap),
    /// A result that isn't known.
    Unknown,
}

pub type Args = Listed<Arg>;

/// A call on a persistent object.
#[derive(Debug, Drop)]
pub struct CallMade {
    /// The number of the call among those of its body, from 1.
    pub call: u32,
    /// The word of the object.
    pub object: i64,
    pub member: MemberId,
    pub args: Args,
}

pub type Calls = Listed<CallMade>;

/// All that a body depends on, but for the replies to its calls.
#[derive(Debug, Drop)]
pub struct BodyStart {
    /// None is `main`.
    pub member: Option<MemberId>,
    /// The words of all arguments, one after another.
    pub args: Words,
    /// The words of the object's state.
    pub state: Words,
    /// The word of the object, and 0 for `main` and the members of regular classes.
    pub object: i64,
    /// The number of the body, and 0 for `main`.
    pub number: u32,
    /// The numbers of the input.
    pub input: Words,
}

#[derive(Clone, Copy, Debug, PartialEq, Eq)]
pub enum BodyEnd {
    Done,
    Trap(Trap),
    /// A value was needed that isn't known.
    Waits,
    /// The body needed more turns than it was given.
    Spent,
}

/// What has become of a body's result.
#[derive(Debug, Drop)]
pub enum BodyResult {
    Open,
    Known(Known),
    /// It was given as the result of a call that isn't known.
    Unknown,
}

/// What a body does.
#[derive(Debug, Drop)]
pub struct Yield {
    /// What `main` printed.
    pub lines: Bytes,
    /// The calls made on persistent objects, in their order.
    pub calls: Calls,
    /// The classes of the objects created, by their places in the source.
    pub creations: Words,
    pub result: BodyResult,
    /// The words of the object's state at the end.
    pub state: Words,
    pub turns: u64,
    pub end: BodyEnd,
}
