ghost use Rattle.std.specs.Prelude.{◌≡◌};

use mpl_value::Trap;

/// Why a source is no program that is accepted, and the first byte at which that shows.
#[derive(Clone, Copy, Debug, PartialEq, Eq)]
pub enum Refusal {
    /// No token begins at the byte.
    BadByte(u32),
    /// The number that begins there is greater than a word holds.
    WideNumber(u32),
    /// The comment that begins there isn't closed.
    OpenComment(u32),
    /// No program has the token there, or ends there, behind those before.
    Syntax(u32),
    /// Too many constructs are open at the token there.
    TooDeep(u32),
    /// The type rule of this number fails at what begins there.
    Rule(u32, u32),
}

/// How a command ends.
#[derive(Clone, Copy, Debug, PartialEq, Eq)]
pub enum Status {
    Done,
    /// The words are not of the form of a command.
    Usage,
    /// The file holds no program that is accepted.
    Refused(Refusal),
    /// `main` ended with this trap.
    Trap(Trap),
    /// The turns of the budget ran out.
    Spent,
    /// `main` waits for a reply that doesn't come.
    Stuck,
    /// The file or the input could not be read.
    ReadFault,
    /// An output could not be written.
    WriteFault,
    /// The word of the input that begins at this byte is no number of 64 bits.
    BadInput(u64),
    NoMemory,
    /// The file is above its limit, or the input is.
    TooLong,
    /// The program has a persistent class, and none such runs yet. Its first word `persistent` begins at this byte.
    Unbuilt(u64),
}

impl Status {
    ghost use Rattle.mentat_cmd.specs.StatusNumber.{number_of};

    /// The status that the program ends with.
    pub fn number(self) -> u8
        ensures { result ≡ number_of self }
    {
        match self {
            Status::Done => 0,
            Status::Usage => 1,
            Status::Refused(_) => 2,
            Status::Trap(_) => 3,
            Status::Spent => 4,
            Status::Stuck => 5,
            Status::ReadFault => 6,
            Status::WriteFault => 7,
            Status::BadInput(_) => 8,
            Status::NoMemory => 9,
            Status::TooLong => 10,
            Status::Unbuilt(_) => 13,
        }
    }
}

/// What a command answers.
#[derive(Clone, Copy, Debug, PartialEq, Eq)]
pub struct Ending {
    pub status: Status,
    /// The turns that the run took, also where its output could not be written, and 0 where nothing ran. Where they
    /// ran out it is one more than the budget.
    pub turns: u64,
}
