ghost use Rattle.std.specs.Prelude.{◌≡◌, ◌-◌, ◌^◌, ◌<◌, [], ◌∷◌, ◌++◌, false, true, length, IfOk, OnOk, OnErr, slice_get, slice_set, take, List, Bool};
ghost use Rattle.mdf_order.specs.InOrder.{serials_in};

use crate::counts::{BLOCK, Counts};
use crate::spot::spot_from;
use mpl_value::NoMemory;
use std::alloc::Global;
use std::marker::Model;

/// For each serial number whether it is in, seen as the list of these truth values.
#[derive(Drop)]
pub struct Serials {
    marks: Vec<bool>,
    blocks: Counts,
    count: u32,
    alloc: Global,
}

impl Model for Serials {
    ghost use Rattle.std.specs.Prelude.{List, Bool};
    ghost use Rattle.mdf_order.specs.Internal.Marks.{IsCounted};

    ghost Value = { List Bool };

    ghost view = { λ s. s.marks.items };

    ghost invariant = { λ s. IsCounted s.marks.items s.blocks s.count };
}

impl Serials {
    /// No serial. It takes no memory.
    pub fn new(alloc: Global) -> Serials
        ensures { result ≡ [] }
    {
        Serials {
            marks: Vec::new(alloc),
            blocks: Counts::new(alloc),
            count: 0,
            alloc,
        }
    }

    /// One more serial, which isn't in. Answers its number.
    pub fn add(&mut self) -> Result<u32, NoMemory>
        requires { length self.old < 2 ^ 32 - 1 }
        ensures serial { IfOk result (λ serial. serial ≡ length self.old) }
        ensures ok { OnOk result (self.new ≡ self.old ++ false ∷ []) }
        ensures err { OnErr result (self.new ≡ self.old) }
    {
        let serial = self.marks.len();
        self.marks.reserve(1)?;
        if serial % BLOCK == 0 {
            self.blocks.push(self.alloc)?;
        }
        self.marks.push_reserved(false);
        Ok(serial as u32)
    }

    /// Takes the newest serial out again, as if it hadn't been added.
    pub fn withdraw(&mut self)
        requires { 0 < length self.old }
        ensures rest { self.new ≡ take (length self.old - 1) self.old }

        // The same, where it is known what was added.
        ensures undone { (kept : List Bool) (newest : Bool) → self.old ≡ kept ++ newest ∷ [] → self.new ≡ kept }
    {
        let newest = self.total() - 1;
        self.remove(newest);
        self.marks.pop();
        if newest as usize % BLOCK == 0 {
            self.blocks.pop();
        }
    }

    pub fn insert(&mut self, serial: u32)
        requires { serial < length self.old }
        ensures { self.new ≡ slice_set self.old serial true }
    {
        let at = serial as usize;
        if !self.marks[at] {
            self.marks[at] = true;
            self.blocks.raise(at / BLOCK);
            self.count += 1;
        }
    }

    pub fn remove(&mut self, serial: u32)
        requires { serial < length self.old }
        ensures { self.new ≡ slice_set self.old serial false }
    {
        let at = serial as usize;
        if self.marks[at] {
            self.marks[at] = false;
            self.blocks.lower(at / BLOCK);
            self.count -= 1;
        }
    }

    pub fn contains(&self, serial: u32) -> bool
        requires { serial < length self.now }
        ensures { slice_get self.now serial ≡ Some result }
    {
        self.marks[serial as usize]
    }

    /// How many serials there are, whether they are in or not.
    pub fn total(&self) -> u32
        ensures { result ≡ length self.now }
    {
        self.marks.len() as u32
    }

    /// How many are in.
    pub fn len(&self) -> u32
        ensures { result ≡ length (serials_in self.now) }
    {
        self.count
    }

    /// The serial at a place among those that are in, in rising order.
    pub fn nth(&self, place: u32) -> Option<u32>
        ensures { result ≡ slice_get (serials_in self.now) place }
    {
        if place < self.count {
            let block = self.blocks.spot(place);
            let spot = spot_from(&self.marks, BLOCK * block.item, block.place);
            Some(spot.item as u32)
        } else {
            None
        }
    }
}
