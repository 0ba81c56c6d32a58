//! The first of each name.

ghost use Rattle.std.specs.Prelude.{◌≡◌, ℕ, List, None, OnOk, OnErr};
ghost use Rattle.std.specs.Option.{option_copied};
ghost use Rattle.mpl_scope.specs.First.{at, with_first};

use indexmap::IndexMap;
use mpl_value::NoMemory;
use std::alloc::Global;

/// Values by names. Of two of one name the first stays.
#[derive(Drop)]
pub struct FirstNamed<'a, V> {
    pub map: IndexMap<&'a [u8], V>,
}

impl<'a, V: Drop> FirstNamed<'a, V> {
    pub fn new(alloc: Global) -> FirstNamed<'a, V>
        ensures { (name : List ℕ) → at result name ≡ None }
    {
        FirstNamed {
            map: IndexMap::new(alloc),
        }
    }

    pub fn find(&self, name: &'a [u8]) -> Option<&V>
        ensures { option_copied result ≡ at self.now name.now }
    {
        self.map.get(&name)
    }

    pub fn add(&mut self, name: &'a [u8], value: V) -> Result<(), NoMemory>
        ensures ok { OnOk result ((q : List ℕ) → at self.new q ≡ with_first name.now value (at self.old) q) }
        ensures err { OnErr result ((q : List ℕ) → at self.new q ≡ at self.old q) }
    {
        if let Some(first) = self.map.insert(name, value)? {
            self.map.insert(name, first)?;
        }
        Ok(())
    }
}
