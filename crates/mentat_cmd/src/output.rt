ghost use Rattle.std.specs.Prelude.{◌≡◌, ◌≤◌, OnOk, OnErr};
ghost use Rattle.mentat_io.specs.Causes.{Rose};
ghost use Rattle.mentat_cmd.specs.Answer.{Says, stream};
ghost use Rattle.mentat_cmd.specs.Output.{Appends, AppendsFront};

use mentat_io::{Failed, Sink};

const PIECE: usize = 4096;

/// Writes all bytes, in pieces of at most 4,096. After a fault a front of them was written.
pub fn write_all<K: Sink>(out: &mut K, bytes: &[u8]) -> Result<(), Failed>
    ensures ok { OnOk result (Appends (K.written out.old) (K.written out.new) bytes.now) }
    ensures err { OnErr result (AppendsFront (K.written out.old) (K.written out.new) bytes.now) }
    ensures cause { OnErr result (Rose (K.faults out.old) (K.faults out.new)) }
    ensures later { K.faults out.old ≤ K.faults out.new }
{
    let mut at = 0;
    while at < bytes.len() {
        let end = bytes.len().min(at + PIECE);
        at += out.write(&bytes[at..end])?;
    }
    Ok(())
}

/// Writes all bytes, as far as the sink takes them.
pub fn say<K: Sink>(out: &mut K, bytes: &[u8])
    ensures { Says (stream (K.written out.old) (K.written out.new) (K.faults out.old) (K.faults out.new)) bytes.now }
{
    match write_all(out, bytes) {
        Ok(()) | Err(Failed) => {}
    }
}
