use mpl_value::{Known, Listed, MemberId, Trap};

/// A flow value that is handed out: what it is, or the number of the call whose result it is.
#[derive(Debug, Drop)]
pub enum FlowArg {
    Known(Known),
    Result(u32),
}

pub type FlowArgs = Listed<FlowArg>;

/// A call of a member on an object.
#[derive(Debug, Drop)]
pub struct Sent {
    pub member: MemberId,
    pub object: i64,
    pub args: FlowArgs,
}

/// Why a frame stops.
#[derive(Debug, Drop)]
pub enum Stop {
    Call(Sent),
    /// A result that isn't known is needed.
    Need(u32),
    Reply(FlowArg),
    /// An object of a class.
    Create(u32),
    End,
    Trap(Trap),
    /// As many turns were spent as were given.
    Beat,
}
