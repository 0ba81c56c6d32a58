/// Why a program is refused.
#[derive(Clone, Copy, Debug, PartialEq, Eq)]
pub enum TypeFault {
    /// This rule fails at a node that begins at this byte.
    Rule { rule: u32, at: u32 },
    NoMemory,
}
