ghost use Rattle.std.specs.Prelude.{◌≡◌};
ghost use Rattle.mentat_input.specs.declared.fault.InputFault.TheVariants as fault;

use mentat_io::Failed;
use mpl_value::NoMemory;

/// Why an input gives no numbers.
#[derive(Clone, Copy, Debug, PartialEq, Eq)]
pub enum InputFault {
    /// A read failed.
    ReadFault,
    /// It has too many bytes, or too many numbers.
    TooLong,
    /// The word that begins at this byte is no number of 64 bits.
    BadInput(u64),
    NoMemory,
}

impl From<NoMemory> for InputFault {
    ghost from_gives = { λ _ e. e ≡ fault.NoMemory };

    fn from(_error: NoMemory) -> InputFault {
        InputFault::NoMemory
    }
}

impl From<Failed> for InputFault {
    ghost from_gives = { λ _ e. e ≡ fault.ReadFault };

    fn from(_error: Failed) -> InputFault {
        InputFault::ReadFault
    }
}
