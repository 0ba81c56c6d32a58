ghost use Rattle.std.specs.Prelude.{◌≡◌, ◌≤◌, None, false, length, IfOk};
ghost use Rattle.mentat_io.specs.Causes.{Rose};
ghost use Rattle.mentat_io.specs.Shelf.{OnFailed};
ghost use Rattle.mentat_io.specs.System.Opened.{IsStart};

use crate::failed::ShelfFault;
use crate::shelf::Shelf;
use crate::text::Text;
use crate::uninterrupted;
use mpl_value::Bytes;
use std::alloc::Global;
use std::io::Read;
use std::marker::Model;
use std::rt::Files;

/// How many bytes are read at a time.
const PIECE: usize = 8192;

/// The files of the system, by their paths. It tells nothing of them, and is seen as the number of
/// its faults.
#[derive(Debug, Drop)]
pub struct FileShelf<R> {
    rt: R,
    faults: u64,
}

impl<R> Model for FileShelf<R> {
    ghost use Rattle.std.specs.Prelude.{ℕ};

    ghost Value = { ℕ };

    ghost view = { λ s. s.faults };
}

impl<R: Files> FileShelf<R> {
    /// The files that `rt` gives, of which no call has failed.
    pub fn new(rt: R) -> FileShelf<R>
        ensures { result ≡ 0 }
    {
        FileShelf { rt, faults: 0 }
    }
}

/// The first `cap` bytes that `reader` gives, or all where it has fewer.
#[tactic(auto, using(crate::proofs::Starts::nothing_read, crate::proofs::Starts::more_read, crate::proofs::Starts::full_start, crate::proofs::Starts::whole_start))]
fn read_start<R: Read>(reader: &mut R, alloc: Global, cap: usize) -> Result<Bytes, ShelfFault>
    ensures bound { IfOk result (λ bytes. length bytes ≤ cap) }
    ensures start { IfOk result (IsStart cap (R.remaining reader.old)) }
{
    let mut bytes = Bytes::new(alloc);
    let mut piece = [0u8; PIECE];
    while bytes.len() < cap {
        let room = (cap - bytes.len()).min(PIECE);
        match uninterrupted::read(reader, &mut piece[..room]) {
            Ok(0) => return Ok(bytes),
            Ok(count) => bytes.extend(&piece[..count])?,
            Err(_) => return Err(ShelfFault::Failed),
        }
    }
    Ok(bytes)
}

/// The first `cap` bytes of a file, or all where it has fewer.
fn open_start<R: Files>(rt: &R, alloc: Global, name: &Text, cap: u32) -> Result<Bytes, ShelfFault>
    ensures bound { IfOk result (λ bytes. length bytes ≤ cap) }
    ensures start { IfOk result (λ bytes. (file : R.File) × IsStart cap (R.File.remaining file) bytes) }
{
    match uninterrupted::open(rt, name.as_str()) {
        Ok(mut file) => read_start(&mut file, alloc, cap as usize),
        Err(_) => Err(ShelfFault::Failed),
    }
}

impl<R: Files> Shelf for FileShelf<R> {
    ghost files = { λ _. None };

    ghost sure = { λ _. false };

    ghost faults = { λ faults. faults };

    fn read_file(&mut self, alloc: Global, name: &Text, cap: u32) -> Result<Bytes, ShelfFault>
        ensures later { self.old ≤ self.new }
        ensures cause { OnFailed result (Rose self.old self.new) }
        ensures bound { IfOk result (λ bytes. length bytes ≤ cap) }

        // The bytes are the first ones of a file, as far as std tells what a file has.
        ensures opened { IfOk result (λ bytes. (file : R.File) × IsStart cap (R.File.remaining file) bytes) }
    {
        let result = open_start(&self.rt, alloc, name, cap);
        if let Err(ShelfFault::Failed) = result {
            self.faults = self.faults.saturating_add(1);
        }
        result
    }
}
