ghost use Rattle.std.specs.Prelude.{◌≡◌, ◌∷◌, [], ◌+◌, ◌≤◌, ◌<◌, length, drop, Some, None, IfSome, IfNone, MatchOption, OnOk, OnErr};
ghost use Rattle.mdf_code.specs.Stacks.{popped, popped_all};
ghost use Rattle.std.specs.Prelude.{IfOk};
ghost use Rattle.mdf_vm.specs.Internal.Handing.{HandedIf};

use crate::running::Caller;
use mpl_value::NoMemory;
use std::alloc::Global;
use std::marker::Model;

/// A stack, seen as a list with the top first.
#[derive(Drop)]
pub struct Stack<T> {
    items: Vec<T>,
}

impl<T> Model for Stack<T> {
    ghost use Rattle.std.specs.Prelude.{List, reverse};
    ghost use Rattle.std.specs.Coded.{coded_list};

    ghost Value = { List T };

    ghost coded = { coded_list T.code };

    ghost view = { λ s. reverse s.items.items };
}

impl<T: Drop> Stack<T> {
    pub fn new(alloc: Global) -> Stack<T>
        ensures { result ≡ [] }
    {
        Stack {
            items: Vec::new(alloc),
        }
    }

    pub fn len(&self) -> usize
        ensures { result ≡ length self.now }
    {
        self.items.len()
    }

    pub fn push(&mut self, item: T) -> Result<(), NoMemory>
        ensures ok { OnOk result (self.new ≡ item ∷ self.old) }
        ensures err { OnErr result (self.new ≡ self.old) }
    {
        self.items.push(item)?;
        Ok(())
    }

    pub fn pop(&mut self) -> Option<T>
        ensures { MatchOption result ((popped self.old ≡ None) × (self.new ≡ self.old)) (λ top. popped self.old ≡ Some (record { items = top; below = self.new })) }
    {
        self.items.pop()
    }

    pub fn top(&self) -> Option<&T>
        ensures value { MatchOption result (popped self.now ≡ None) (λ top. popped self.now ≡ Some (record { items = top.now; below = drop 1 self.now })) }
        ensures there { IfSome result (λ _. 1 ≤ length self.now) }
    {
        self.items.as_slice().last()
    }

    /// So many from the top, the top last.
    pub fn last(&self, count: usize) -> Option<&[T]>
        ensures value { MatchOption result (popped_all count self.now ≡ None) (λ items. popped_all count self.now ≡ Some (record { items = items.now; below = drop count self.now })) }
        ensures there { IfSome result (λ _. count ≤ length self.now) }
    {
        let items = self.items.as_slice();
        let from = items.len().checked_sub(count)?;
        Some(&items[from..])
    }

    /// So many go from the top.
    pub fn shorten(&mut self, count: usize)
        requires { count ≤ length self.old }
        ensures { self.new ≡ drop count self.old }
    {
        let items = self.items.as_slice();
        let rest = items.len() - count;
        self.items.truncate(rest);
    }

    /// An item in place of so many from the top.
    pub fn replace(&mut self, count: usize, item: T)
        requires some { 0 < count }
        requires there { count ≤ length self.old }
        ensures { self.new ≡ item ∷ drop count self.old }
    {
        let items = self.items.as_mut_slice();
        let rest = items.len() - count;
        items[rest] = item;
        self.items.truncate(rest + 1);
    }
}

impl Stack<Caller> {
    /// Words for the caller on top, if there is one.
    pub fn hand(&mut self, words: &[i64]) -> Result<bool, NoMemory>
        ensures ok { IfOk result (λ there. HandedIf there words.now self.old self.new) }
        ensures err { OnErr result (self.new ≡ self.old) }
    {
        let count = self.items.as_slice().len();
        if count == 0 {
            return Ok(false);
        }
        let caller = &mut self.items[count - 1];
        caller.take(words)?;
        Ok(true)
    }
}
