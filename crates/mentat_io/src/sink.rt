ghost use Rattle.std.specs.Prelude.{◌≡◌, ◌≤◌, ◌<◌, ◌++◌, ℕ, List, Option, length, take, option_map, IfOk, OnErr};
ghost use Rattle.mentat_io.specs.Causes.{Rose};

use crate::failed::Failed;

/// A place to which bytes are written one piece after another.
pub trait Sink {
    // The bytes that it holds, where they are told.
    ghost written: { Self → Option (List ℕ) };

    // How many calls have failed.
    ghost faults: { Self → ℕ };

    /// Appends bytes from the front of `bytes`, at least one, and tells how many.
    fn write(&mut self, bytes: &[u8]) -> Result<usize, Failed>
        requires { 0 < length bytes.now }
        ensures some { IfOk result (λ n. 1 ≤ n) }
        ensures bound { IfOk result (λ n. n ≤ length bytes.now) }
        ensures appended { IfOk result (λ n. written self.new ≡ option_map (λ xs. xs ++ take n bytes.now) (written self.old)) }
        ensures unwritten { OnErr result (written self.new ≡ written self.old) }
        ensures later { faults self.old ≤ faults self.new }
        ensures cause { OnErr result (Rose (faults self.old) (faults self.new)) };
}
