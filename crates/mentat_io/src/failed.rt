ghost use Rattle.std.specs.Prelude.{◌≡◌};
ghost use Rattle.mentat_io.specs.declared.failed.ShelfFault.TheVariants.{NoMemory};

use mpl_value::NoMemory;

/// A read or a write failed.
#[derive(Clone, Copy, Debug, PartialEq, Eq)]
pub struct Failed;

/// Why no file was read.
#[derive(Clone, Copy, Debug, PartialEq, Eq)]
pub enum ShelfFault {
    /// The file is missing, or reading it failed.
    Failed,
    /// No memory was left for its bytes.
    NoMemory,
}

impl From<NoMemory> for ShelfFault {
    ghost from_gives = { λ _ fault. fault ≡ NoMemory };

    fn from(_error: NoMemory) -> ShelfFault {
        ShelfFault::NoMemory
    }
}
