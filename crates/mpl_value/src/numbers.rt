ghost use Rattle.std.specs.Prelude.{◌≡◌, [], ◌∷◌, ◌++◌, ◌+◌, ◌≤◌, ◌==◌, ◌↔◌, length, take, drop, slice_get, IsNone, IfOk, OnOk, OnErr};

use crate::memory::NoMemory;
use std::alloc::Global;
use std::marker::Model;

/// A list of numbers.
#[derive(Debug, Drop)]
pub struct Numbers<T> {
    items: Vec<T>,
}

/// A list of words of 64 bits.
pub type Words = Numbers<i64>;

/// A list of bytes.
pub type Bytes = Numbers<u8>;

impl<T> Model for Numbers<T> {
    ghost use Rattle.std.specs.Prelude.{List};
    ghost use Rattle.std.specs.Coded.{coded_list};

    ghost Value = { List T };

    ghost coded = { coded_list T.code };

    ghost view = { λ n. n.items.items };
}

impl<T: Copy> Numbers<T> {
    /// The empty list, which takes no memory.
    pub fn new(alloc: Global) -> Numbers<T>
        ensures { result ≡ [] }
    {
        Numbers {
            items: Vec::new(alloc),
        }
    }

    pub fn from_slice(alloc: Global, items: &[T]) -> Result<Numbers<T>, NoMemory>
        ensures { IfOk result (λ n. n ≡ items.now) }
    {
        let items = Vec::from_slice(alloc, items)?;
        Ok(Numbers { items })
    }

    /// The numbers of a vector, in the memory that it has.
    pub(crate) fn over(items: Vec<T>) -> Numbers<T>
        ensures { result ≡ items.items }
    {
        Numbers { items }
    }

    /// One more number, at the end.
    pub fn push(&mut self, item: T) -> Result<(), NoMemory>
        ensures ok { OnOk result (self.new ≡ self.old ++ item ∷ []) }
        ensures err { OnErr result (self.new ≡ self.old) }
    {
        self.items.push(item)?;
        Ok(())
    }

    /// The numbers of `more`, at the end.
    pub fn extend(&mut self, more: &[T]) -> Result<(), NoMemory>
        ensures ok { OnOk result (self.new ≡ self.old ++ more.now) }
        ensures err { OnErr result (self.new ≡ self.old) }
    {
        self.items.extend_from_slice(more)?;
        Ok(())
    }

    /// These numbers in place of as many from a place on.
    pub fn write(&mut self, at: usize, items: &[T])
        requires { at + length items.now ≤ length self.old }
        ensures { self.new ≡ take at self.old ++ (items.now ++ drop (at + length items.now) self.old) }
    {
        let numbers = self.items.as_mut_slice();
        let end = at + items.len();
        numbers[at..end].copy_from_slice(items);
    }

    pub fn get(&self, at: usize) -> Option<T>
        ensures value { result ≡ slice_get self.now at }
        ensures past { IsNone result ↔ (length self.now ≤ at) }
    {
        self.items.get(at).copied()
    }

    pub fn len(&self) -> usize
        ensures { result ≡ length self.now }
    {
        self.items.len()
    }

    pub fn is_empty(&self) -> bool
        ensures { result ≡ (length self.now == 0) }
    {
        self.items.is_empty()
    }

    pub fn as_slice(&self) -> &[T]
        ensures { result.now ≡ self.now }
    {
        self.items.as_slice()
    }

    /// A list of its own with the same numbers.
    pub fn copy(&self) -> Result<Numbers<T>, NoMemory>
        ensures { IfOk result (λ n. n ≡ self.now) }
    {
        Numbers::from_slice(*self.items.allocator(), self.as_slice())
    }
}
