ghost use Rattle.std.specs.Prelude.{◌≡◌, ◌≤◌, ◌<◌, [], Ok, min, length, drop, Some, IfOk};
ghost use Rattle.mentat_io.specs.Source.{GivesStart};

use crate::failed::Failed;
use crate::source::Source;
use crate::unread::Unread;
use mpl_value::Bytes;
use std::marker::Model;

/// A source of given bytes that never fails, seen as the bytes that are left.
#[derive(Debug, Drop)]
pub struct SureSource {
    unread: Unread,
}

impl Model for SureSource {
    ghost use Rattle.std.specs.Prelude.{ℕ, List};

    ghost Value = { List ℕ };

    ghost view = { λ s. s.unread };
}

impl SureSource {
    /// A source of `left`.
    pub fn new(left: Bytes) -> SureSource
        ensures { result ≡ left }
    {
        SureSource {
            unread: Unread::new(left),
        }
    }
}

impl Source for SureSource {
    ghost left = { λ left. Some left };

    ghost faults = { λ _. 0 };

    fn read(&mut self, buf: &mut [u8]) -> Result<usize, Failed>
        requires { 0 < length buf.old }
        ensures count { result ≡ Ok (min (length buf.new) (length self.old)) }
        ensures moved { IfOk result (λ n. GivesStart self.old n buf.new) }
        ensures rest { IfOk result (λ n. self.new ≡ drop n self.old) }
        ensures end { IfOk result (λ n. n ≡ 0 → self.old ≡ []) }
    {
        let room = buf.len();
        Ok(self.unread.give(buf, room))
    }
}
