use crate::instr::Instr;
use mpl_value::{Listed, MemberId, Numbers};

/// Counts of words.
pub type Sizes = Numbers<u32>;

/// Instructions, one after another.
pub type CodeText = Listed<Instr>;

/// A body: how many words each of its variables has, the formals first, and its instructions.
#[derive(Drop)]
pub struct RawCode {
    pub vars: Sizes,
    pub code: CodeText,
}

/// A plain function.
#[derive(Drop)]
pub struct RawFunction {
    pub formals: u32,
    /// The words of its result.
    pub result: u32,
    pub body: RawCode,
}

#[derive(Clone, Copy)]
pub struct RawClass {
    pub regular: bool,
    /// The words of an object's state.
    pub words: u32,
    /// Whether the class has a `select`, also one without entries.
    pub selects: bool,
}

#[derive(Drop)]
pub struct RawMember {
    pub class: u32,
    pub formals: u32,
    /// The words of its result, and None where it has none.
    pub result: Option<u32>,
    pub body: RawCode,
}

/// A case of a `select`.
#[derive(Drop)]
pub struct RawEntry {
    pub class: u32,
    pub priority: u8,
    pub member: MemberId,
    pub guard: Option<CodeText>,
}

pub type RawFunctions = Listed<RawFunction>;

pub type RawClasses = Listed<RawClass>;

pub type RawMembers = Listed<RawMember>;

pub type RawEntries = Listed<RawEntry>;

/// The parts of an image.
#[derive(Drop)]
pub struct RawImage {
    pub functions: RawFunctions,
    pub classes: RawClasses,
    pub members: RawMembers,
    pub entries: RawEntries,
    pub main: RawCode,
}
