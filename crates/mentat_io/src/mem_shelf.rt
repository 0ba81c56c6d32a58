ghost use Rattle.std.specs.Prelude.{◌≡◌, ◌≤◌, ◌↔◌, ◌≤ℤ◌, pos, ℕ, List, [], Some, All, length, position, IfOk, OnOk, OnErr, IsErrOf, IsTrue, option_copied, bytes_eq, if◌then◌else◌};
ghost use Rattle.mentat_io.specs.Causes.{Rose};
ghost use Rattle.mentat_io.specs.Shelf.{file_named, has_name, OnFailed, IsStartOf, ReadsSurely};
ghost use Rattle.mentat_io.specs.Memory.MemShelf.{after_read, is_sure, refuses, with_file};

use crate::failed::ShelfFault;
use crate::plan::Plan;
use crate::shelf::Shelf;
use crate::text::Text;
use mpl_value::{Bytes, NoMemory, Words};
use std::alloc::Global;
use std::marker::Model;

/// A shelf of given files, some of whose calls are to fail.
#[derive(Debug, Drop)]
pub struct MemShelf {
    files: Vec<(Text, Bytes)>,
    plan: Plan,
}

impl Model for MemShelf {
    ghost use Rattle.mentat_io.specs.Memory.MemShelf.{ShelfState};

    ghost Value = { ShelfState };

    ghost view = { λ s. record { files = s.files.items; plan = s.plan } };
}

impl MemShelf {
    /// A shelf without files, which takes no memory. `failing` has the numbers of the calls of
    /// `read_file` that are to fail, from 1 and rising.
    #[tactic(auto, using(crate::proofs::Plans::none_at_first))]
    pub fn new(alloc: Global, failing: Words) -> MemShelf
        ensures state { result ≡ record { files = []; plan = record { failing = failing; calls = 0; faults = 0 } } }
        ensures sure { All (λ z. pos 1 ≤ℤ z) failing → IsTrue (is_sure result) ↔ (failing ≡ []) }
    {
        MemShelf {
            files: Vec::new(alloc),
            plan: Plan::new(failing),
        }
    }

    /// Adds a file, or replaces the one of that name.
    #[tactic(auto, using(crate::proofs::Files::put_at, crate::proofs::Files::put_behind, crate::proofs::Files::named_after_put))]
    pub fn add_file(&mut self, name: Text, bytes: Bytes) -> Result<(), NoMemory>
        ensures ok { OnOk result (self.new ≡ record self.old { files = with_file self.old.files name bytes }) }
        ensures named { OnOk result ((n : List ℕ) → file_named self.new.files n ≡ (if bytes_eq name n then Some bytes else file_named self.old.files n)) }
        ensures err { OnErr result (self.new ≡ self.old) }
    {
        match place(self.files.as_slice(), &name) {
            Some(at) => self.files[at] = (name, bytes),
            None => self.files.push((name, bytes))?,
        }
        Ok(())
    }
}

/// The place of the file of that name.
fn place(files: &[(Text, Bytes)], name: &Text) -> Option<usize>
    ensures { result ≡ position (has_name name.now) files.now }
{
    files
        .iter()
        .position(|file| file.0.as_bytes() == name.as_bytes())
}

/// The bytes of the file of that name.
fn named<'a>(files: &'a [(Text, Bytes)], name: &Text) -> Option<&'a Bytes>
    ensures { option_copied result ≡ file_named files.now name.now }
{
    let file = files
        .iter()
        .find(|file| file.0.as_bytes() == name.as_bytes())?;
    Some(&file.1)
}

impl Shelf for MemShelf {
    ghost files = { λ s. Some s.files };

    ghost sure = { is_sure };

    ghost faults = { λ s. s.plan.faults };

    #[tactic(auto, using(crate::proofs::Plans::still_none, crate::proofs::Plans::none_listed))]
    fn read_file(&mut self, alloc: Global, name: &Text, cap: u32) -> Result<Bytes, ShelfFault>
        ensures kept { self.new.files ≡ self.old.files }
        ensures later { self.old.plan.faults ≤ self.new.plan.faults }
        ensures cause { OnFailed result (Rose self.old.plan.faults self.new.plan.faults) }
        ensures bound { IfOk result (λ bytes. length bytes ≤ cap) }
        ensures start { IfOk result (λ bytes. IsStartOf cap self.old.files name.now bytes) }
        ensures stays_sure { IsTrue (is_sure self.old) → IsTrue (is_sure self.new) }
        ensures surely { IsTrue (is_sure self.old) → ReadsSurely (Some self.old.files) name.now result }
        ensures fails { IsErrOf result ShelfFault.Failed ↔ IsTrue (refuses self.old name.now) }
        ensures after { self.new ≡ after_read self.old name.now }
    {
        if self.plan.begin() {
            self.plan.fail();
            return Err(ShelfFault::Failed);
        }
        let Some(bytes) = named(self.files.as_slice(), name) else {
            self.plan.fail();
            return Err(ShelfFault::Failed);
        };
        let count = bytes.len().min(cap as usize);
        let start = Bytes::from_slice(alloc, &bytes.as_slice()[..count])?;
        Ok(start)
    }
}
