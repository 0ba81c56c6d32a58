ghost use Rattle.std.specs.Prelude.{◌≡◌, [], ◌∷◌, ◌++◌, ◌==◌, ◌≤◌, ◌↔◌, length, slice_get, IsNone, OnOk, OnErr};
ghost use Rattle.std.specs.Option.{option_copied};

use crate::memory::NoMemory;
use std::alloc::Global;
use std::marker::Model;

/// A list, of which items are lent.
#[derive(Debug, Drop)]
pub struct Listed<T> {
    items: Vec<T>,
}

impl<T> Model for Listed<T> {
    ghost use Rattle.std.specs.Prelude.{List};
    ghost use Rattle.std.specs.Coded.{coded_list};

    ghost Value = { List T };

    ghost coded = { coded_list T.code };

    ghost view = { λ l. l.items.items };
}

impl<T: Drop> Listed<T> {
    /// The empty list, which takes no memory.
    pub fn new(alloc: Global) -> Listed<T>
        ensures { result ≡ [] }
    {
        Listed {
            items: Vec::new(alloc),
        }
    }

    /// One more item, at the end. With an error it is dropped.
    pub fn push(&mut self, item: T) -> Result<(), NoMemory>
        ensures ok { OnOk result (self.new ≡ self.old ++ item ∷ []) }
        ensures err { OnErr result (self.new ≡ self.old) }
    {
        self.items.push(item)?;
        Ok(())
    }

    pub fn get(&self, at: usize) -> Option<&T>
        ensures value { option_copied result ≡ slice_get self.now at }
        ensures past { IsNone result ↔ (length self.now ≤ at) }
    {
        self.items.get(at)
    }

    pub fn len(&self) -> usize
        ensures { result ≡ length self.now }
    {
        self.items.len()
    }

    pub fn is_empty(&self) -> bool
        ensures { result ≡ (length self.now == 0) }
    {
        self.items.is_empty()
    }

    pub fn as_slice(&self) -> &[T]
        ensures { result.now ≡ self.now }
    {
        self.items.as_slice()
    }

    /// What gives the list its memory.
    pub fn allocator(&self) -> Global {
        *self.items.allocator()
    }
}
