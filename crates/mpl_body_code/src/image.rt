use crate::code::Code;
use crate::instruction::{FunctionCode, MemberCode};

/// The code of a program.
#[derive(Drop)]
pub struct Image {
    pub code: Code,
    /// In the order of the source.
    pub functions: Vec<FunctionCode>,
    /// By the numbers of the members.
    pub members: Vec<MemberCode>,
}
