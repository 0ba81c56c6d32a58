use crate::word_list::WordList;
use mpl_value::{BodyEnd, NoMemory};

/// Why a frame doesn't go on.
#[derive(Drop)]
pub enum Leaves {
    Ends(BodyEnd),
    /// The code comes to its end.
    Finishes,
    Returns(WordList),
    NoMemory,
}

impl From<NoMemory> for Leaves {
    ghost use Rattle.std.specs.Prelude.{◌≡◌};
    ghost use Rattle.mpl_body_run.specs.declared.leaves.Leaves.TheVariants as variant;

    ghost from_gives = { λ error result. result ≡ variant.NoMemory };

    fn from(_error: NoMemory) -> Leaves {
        Leaves::NoMemory
    }
}
