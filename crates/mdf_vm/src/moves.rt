ghost use Rattle.std.specs.Prelude.{◌≡◌, ◌≢◌, MatchBool};
ghost use Rattle.mdf_vm.specs.declared.moves.Move.TheVariants as move_kinds;
ghost use Rattle.mdf_vm.specs.declared.moves.Halted.TheVariants as halted;

use crate::handed::Calling;
use crate::held::Held;
use mpl_value::{Trap, TrapKind};

/// What came of an instruction: the frame goes on, goes on with a turn, or stops.
#[derive(Drop)]
pub enum Move {
    Goes,
    Spends,
    Stops(Halted),
}

impl Move {
    pub fn goes(&self) -> bool
        ensures { MatchBool result (self.now ≡ move_kinds.Goes) (self.now ≢ move_kinds.Goes) }
    {
        matches!(self, Move::Goes)
    }
}

/// What came of an instruction that was tried: the frame went on, went on with a turn, or stands where it stood.
#[derive(Clone, Copy)]
pub enum Quick {
    Goes,
    Spends,
    Waits,
}

/// Why a frame stops.
#[derive(Drop)]
pub enum Halted {
    Call(Calling),
    Need(u32),
    Reply(Held),
    Create(u32),
    /// The end, with the line where a result was missed.
    End(u32),
    /// An instruction that can't stand there.
    Stray,
    Trap(Trap),
}

pub const STRAY: Move = Move::Stops(Halted::Stray);

pub fn trap(kind: TrapKind, line: u32) -> Move
    ensures { result ≡ move_kinds.Stops (halted.Trap (record { kind = kind; line = line })) }
{
    Move::Stops(Halted::Trap(Trap { kind, line }))
}
