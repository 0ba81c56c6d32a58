ghost use Rattle.std.specs.Prelude.{◌≡◌, ◌≤◌, ◌<◌, None, length, IfOk, OnErr, is_err, if◌then◌else◌};
ghost use Rattle.std.specs.Io.KnownBytes.{ReadConsumes};
ghost use Rattle.mentat_io.specs.Causes.{Rose, one_more};

use crate::failed::Failed;
use crate::source::Source;
use crate::uninterrupted;
use std::io::Read;
use std::marker::Model;

/// A source over a reader of the system. It doesn't tell which bytes are left.
#[derive(Debug, Drop)]
pub struct StdSource<R> {
    reader: R,
    faults: u64,
}

impl<R> Model for StdSource<R> {
    ghost use Rattle.mentat_io.specs.System.Stream.{Stream};

    ghost Value = { Stream R };

    ghost view = { λ s. record { stream = s.reader; faults = s.faults } };
}

impl<R: Read> StdSource<R> {
    /// A source over that reader, of which no call has failed.
    pub fn new(reader: R) -> StdSource<R>
        ensures { result ≡ record { stream = reader; faults = 0 } }
    {
        StdSource { reader, faults: 0 }
    }
}

impl<R: Read> Source for StdSource<R> {
    ghost left = { λ _. None };

    ghost faults = { λ s. s.faults };

    fn read(&mut self, buf: &mut [u8]) -> Result<usize, Failed>
        requires { 0 < length buf.old }
        ensures bound { IfOk result (λ n. n ≤ length buf.new) }
        ensures later { self.old.faults ≤ self.new.faults }
        ensures cause { OnErr result (Rose self.old.faults self.new.faults) }
        ensures consumed { ReadConsumes (R.remaining self.old.stream) (R.remaining self.new.stream) result buf.new }
        ensures counted { self.new.faults ≡ (if is_err result then one_more self.old.faults else self.old.faults) }
    {
        match uninterrupted::read(&mut self.reader, buf) {
            Ok(count) => Ok(count),
            Err(_) => {
                self.faults = self.faults.saturating_add(1);
                Err(Failed)
            }
        }
    }
}
