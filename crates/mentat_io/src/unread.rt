ghost use Rattle.std.specs.Prelude.{◌≡◌, ◌≤◌, ◌<◌, [], min, length, take, drop};
ghost use Rattle.mentat_io.specs.Source.{GivesStart};

use mpl_value::Bytes;
use std::marker::Model;

/// Bytes of which a front was given, seen as those that are left.
#[derive(Debug, Drop)]
pub struct Unread {
    bytes: Bytes,
    given: usize,
}

impl Model for Unread {
    ghost use Rattle.std.specs.Prelude.{ℕ, List, drop, length, ◌≤◌};

    ghost Value = { List ℕ };

    ghost view = { λ u. drop u.given u.bytes };

    ghost invariant = { λ u. u.given ≤ length u.bytes };
}

impl Unread {
    /// All of the bytes are left.
    pub fn new(bytes: Bytes) -> Unread
        ensures { result ≡ bytes }
    {
        Unread { bytes, given: 0 }
    }

    /// Moves at most `most` bytes to the front of `buf`, and tells how many.
    pub fn give(&mut self, buf: &mut [u8], most: usize) -> usize
        ensures count { result ≡ min most (min (length buf.new) (length self.old)) }
        ensures moved { GivesStart self.old result buf.new }
        ensures rest { self.new ≡ drop result self.old }
    {
        let rest = &self.bytes.as_slice()[self.given..];
        let count = rest.len().min(buf.len()).min(most);
        buf[..count].copy_from_slice(&rest[..count]);
        self.given += count;
        count
    }
}
