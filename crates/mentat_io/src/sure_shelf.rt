ghost use Rattle.std.specs.Prelude.{◌≡◌, ◌≤◌, ◌↔◌, ℕ, List, [], Some, true, length, IfOk, OnOk, OnErr, IsErrOf, IsNone, bytes_eq, if◌then◌else◌};
ghost use Rattle.mentat_io.specs.Causes.{Rose};
ghost use Rattle.mentat_io.specs.Shelf.{file_named, OnFailed, IsStartOf, ReadsSurely};
ghost use Rattle.mentat_io.specs.Memory.MemShelf.{with_file};
ghost use Rattle.mentat_io.specs.Memory.SureShelf.{after_read};

use crate::failed::ShelfFault;
use crate::mem_shelf::MemShelf;
use crate::shelf::Shelf;
use crate::text::Text;
use mpl_value::{Bytes, NoMemory, Words};
use std::alloc::Global;
use std::marker::Model;

/// A shelf of given files that never fails on one of them. A missing file is a fault.
#[derive(Debug, Drop)]
pub struct SureShelf {
    shelf: MemShelf,
}

impl Model for SureShelf {
    ghost use Rattle.std.specs.Prelude.{◌≡◌, []};
    ghost use Rattle.mentat_io.specs.Memory.SureShelf.{SureState};

    ghost Value = { SureState };

    ghost view = { λ s. record { files = s.shelf.files; faults = s.shelf.plan.faults } };

    ghost invariant = { λ s. s.shelf.plan.failing ≡ [] };
}

impl SureShelf {
    /// A shelf without files, which takes no memory.
    pub fn new(alloc: Global) -> SureShelf
        ensures { result ≡ record { files = []; faults = 0 } }
    {
        SureShelf {
            shelf: MemShelf::new(alloc, Words::new(alloc)),
        }
    }

    /// Adds a file, or replaces the one of that name.
    pub fn add_file(&mut self, name: Text, bytes: Bytes) -> Result<(), NoMemory>
        ensures ok { OnOk result (self.new ≡ record self.old { files = with_file self.old.files name bytes }) }
        ensures named { OnOk result ((n : List ℕ) → file_named self.new.files n ≡ (if bytes_eq name n then Some bytes else file_named self.old.files n)) }
        ensures err { OnErr result (self.new ≡ self.old) }
    {
        self.shelf.add_file(name, bytes)
    }
}

impl Shelf for SureShelf {
    ghost files = { λ s. Some s.files };

    ghost sure = { λ _. true };

    ghost faults = { λ s. s.faults };

    fn read_file(&mut self, alloc: Global, name: &Text, cap: u32) -> Result<Bytes, ShelfFault>
        ensures kept { self.new.files ≡ self.old.files }
        ensures later { self.old.faults ≤ self.new.faults }
        ensures cause { OnFailed result (Rose self.old.faults self.new.faults) }
        ensures bound { IfOk result (λ bytes. length bytes ≤ cap) }
        ensures start { IfOk result (λ bytes. IsStartOf cap self.old.files name.now bytes) }
        ensures surely { ReadsSurely (Some self.old.files) name.now result }
        ensures fails { IsErrOf result ShelfFault.Failed ↔ IsNone (file_named self.old.files name.now) }
        ensures after { self.new ≡ after_read self.old name.now }
    {
        self.shelf.read_file(alloc, name, cap)
    }
}
