ghost use Rattle.std.specs.Prelude.{◌≡◌, ◌≤◌, ◌<◌, None, length, IfOk, OnErr, is_err, if◌then◌else◌};
ghost use Rattle.std.specs.Io.KnownBytes.{WriteAppends};
ghost use Rattle.mentat_io.specs.Causes.{Rose, one_more};

use crate::failed::Failed;
use crate::sink::Sink;
use crate::uninterrupted;
use std::io::Write;
use std::marker::Model;

/// A sink over a writer of the system. It doesn't tell which bytes are written. A write that takes
/// no byte is a fault.
#[derive(Debug, Drop)]
pub struct StdSink<W> {
    writer: W,
    faults: u64,
}

impl<W> Model for StdSink<W> {
    ghost use Rattle.mentat_io.specs.System.Stream.{Stream};

    ghost Value = { Stream W };

    ghost view = { λ s. record { stream = s.writer; faults = s.faults } };
}

impl<W: Write> StdSink<W> {
    /// A sink over that writer, of which no call has failed.
    pub fn new(writer: W) -> StdSink<W>
        ensures { result ≡ record { stream = writer; faults = 0 } }
    {
        StdSink { writer, faults: 0 }
    }
}

impl<W: Write> Sink for StdSink<W> {
    ghost written = { λ _. None };

    ghost faults = { λ s. s.faults };

    fn write(&mut self, bytes: &[u8]) -> Result<usize, Failed>
        requires { 0 < length bytes.now }
        ensures some { IfOk result (λ n. 1 ≤ n) }
        ensures bound { IfOk result (λ n. n ≤ length bytes.now) }
        ensures later { self.old.faults ≤ self.new.faults }
        ensures cause { OnErr result (Rose self.old.faults self.new.faults) }
        ensures held { WriteAppends (W.contents self.old.stream) (W.contents self.new.stream) result bytes.now }
        ensures counted { self.new.faults ≡ (if is_err result then one_more self.old.faults else self.old.faults) }
    {
        match uninterrupted::write(&mut self.writer, bytes) {
            Ok(count) if count > 0 => Ok(count),
            _ => {
                self.faults = self.faults.saturating_add(1);
                Err(Failed)
            }
        }
    }
}
