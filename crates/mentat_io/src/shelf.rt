ghost use Rattle.std.specs.Prelude.{◌≡◌, ◌≤◌, ℕ, Bool, List, Option, length, IfOk, IfSome, IsTrue};
ghost use Rattle.mentat_io.specs.Causes.{Rose};
ghost use Rattle.mentat_io.specs.Shelf.{Files, OnFailed, IsStartOf, ReadsSurely};

use crate::failed::ShelfFault;
use crate::text::Text;
use mpl_value::Bytes;
use std::alloc::Global;

/// A place of files that are read by their names.
pub trait Shelf {
    // The files, where they are told.
    ghost files: { Self → Option Files };

    // Whether each file that is there can be read from here on.
    ghost sure: { Self → Bool };

    // How many calls have failed.
    ghost faults: { Self → ℕ };

    /// The file of that name, or its first `cap` bytes where it is longer. A missing file is a
    /// fault.
    fn read_file(&mut self, alloc: Global, name: &Text, cap: u32) -> Result<Bytes, ShelfFault>
        ensures kept { files self.new ≡ files self.old }
        ensures later { faults self.old ≤ faults self.new }
        ensures cause { OnFailed result (Rose (faults self.old) (faults self.new)) }
        ensures bound { IfOk result (λ bytes. length bytes ≤ cap) }
        ensures start { IfOk result (λ bytes. IfSome (files self.old) (λ fs. IsStartOf cap fs name.now bytes)) }
        ensures stays_sure { IsTrue (sure self.old) → IsTrue (sure self.new) }
        ensures surely { IsTrue (sure self.old) → ReadsSurely (files self.old) name.now result };
}
