ghost use Rattle.std.specs.Prelude.{◌≡◌, ◌≤◌, ◌<◌, ℕ, List, Option, length, drop, option_map, IfOk, IfSome, OnErr};
ghost use Rattle.mentat_io.specs.Causes.{Rose};
ghost use Rattle.mentat_io.specs.Source.{GivesStart, IsAtEnd};

use crate::failed::Failed;

/// Bytes that are read one piece after another.
pub trait Source {
    // The bytes that are left, where they are told.
    ghost left: { Self → Option (List ℕ) };

    // How many calls have failed.
    ghost faults: { Self → ℕ };

    /// Moves bytes to the front of `buf` and tells how many. 0 comes only at the end.
    fn read(&mut self, buf: &mut [u8]) -> Result<usize, Failed>
        requires { 0 < length buf.old }
        ensures bound { IfOk result (λ n. n ≤ length buf.new) }
        ensures moved { IfOk result (λ n. IfSome (left self.old) (λ xs. GivesStart xs n buf.new)) }
        ensures rest { IfOk result (λ n. left self.new ≡ option_map (λ xs. drop n xs) (left self.old)) }
        ensures end { IfOk result (λ n. n ≡ 0 → IsAtEnd (left self.old)) }
        ensures unread { OnErr result (left self.new ≡ left self.old) }
        ensures later { faults self.old ≤ faults self.new }
        ensures cause { OnErr result (Rose (faults self.old) (faults self.new)) };
}
