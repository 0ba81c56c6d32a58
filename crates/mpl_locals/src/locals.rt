//! The variables of a scope, by their names.

ghost use Rattle.std.specs.Prelude.{◌≡◌, ℕ, List, [], ◌∷◌, ◌-◌, drop, length, option_map, slice_get, if◌then◌else◌, OnErr, OnOk};
ghost use Rattle.std.specs.Str.{bytes_eq};
ghost use Rattle.mpl_mean.specs.Plain.Scopes.{slot_named};
ghost use Rattle.mpl_locals.specs.SeenLocals.{numbered, shape_seen, slot_seen};

use mpl_ast::statement::{Dimension, TypeName};
use mpl_value::NoMemory;
use std::alloc::Global;
use std::collections::HashMap;
use std::marker::Model;

/// A variable, but for what it holds.
#[derive(Clone, Copy)]
pub struct Shape<'a> {
    pub name: &'a [u8],
    pub type_name: &'a TypeName,
    pub dimension: Option<Dimension>,
}

/// A variable of the scope, and the number of the one of its name that it hides.
#[derive(Clone, Copy)]
pub struct Local<'a> {
    pub shape: Shape<'a>,
    pub hides: Option<usize>,
}

/// A variable of the scope, by its number.
#[derive(Clone, Copy)]
pub struct Slot<'a> {
    pub number: usize,
    pub shape: Shape<'a>,
}

/// The number of the newest variable of each name.
#[derive(Drop)]
pub struct Newest<'a> {
    pub map: HashMap<&'a [u8], Option<usize>>,
}

/// The variables of a scope.
#[derive(Drop)]
pub struct Locals<'a> {
    /// The newest last.
    list: Vec<Local<'a>>,
    newest: Newest<'a>,
}

impl<'a> Model for Locals<'a> {
    ghost use Rattle.std.specs.Prelude.{◌≡◌, List, ℕ};
    ghost use Rattle.mpl_mean.specs.Plain.Scopes.{Shape};
    ghost use Rattle.mpl_locals.specs.SeenLocals.{Hides, newest_first, number_named, numbered, shapes_seen};

    ghost Value = { List Shape };

    ghost view = { λ l. shapes_seen (newest_first l.list.items) };

    ghost invariant = { λ l. ((name : List ℕ) → numbered l.newest name ≡ number_named name (newest_first l.list.items)) × Hides (newest_first l.list.items) };
}

impl<'a> Newest<'a> {
    pub fn new(alloc: Global) -> Newest<'a>
        ensures { (name : List ℕ) → numbered result name ≡ None }
    {
        Newest {
            map: HashMap::new(alloc),
        }
    }

    pub fn find(&self, name: &'a [u8]) -> Option<usize>
        ensures { result ≡ numbered self.now name.now }
    {
        match self.map.get(&name) {
            Some(number) => *number,
            None => None,
        }
    }

    pub fn set(&mut self, name: &'a [u8], number: Option<usize>) -> Result<(), NoMemory>
        ensures ok { OnOk result ((q : List ℕ) → numbered self.new q ≡ if bytes_eq name.now q then number else numbered self.old q) }
        ensures err { OnErr result ((q : List ℕ) → numbered self.new q ≡ numbered self.old q) }
    {
        self.map.insert(name, number)?;
        Ok(())
    }
}

impl<'a> Locals<'a> {
    pub fn new(alloc: Global) -> Locals<'a>
        ensures { result ≡ [] }
    {
        Locals {
            list: Vec::new(alloc),
            newest: Newest::new(alloc),
        }
    }

    pub fn len(&self) -> usize
        ensures { result ≡ length self.now }
    {
        self.list.len()
    }

    /// The newest of a name.
    pub fn find(&self, name: &'a [u8]) -> Option<Slot<'a>>
        ensures { option_map slot_seen result ≡ slot_named name.now self.now }
    {
        match self.newest.find(name) {
            Some(number) => match local_at(self.list.as_slice(), number) {
                Some(local) => Some(Slot {
                    number,
                    shape: local.shape,
                }),
                None => None,
            },
            None => None,
        }
    }

    pub fn declare(&mut self, shape: Shape<'a>) -> Result<(), NoMemory>
        ensures { OnOk result (self.new ≡ shape_seen shape.entry ∷ self.old) }
    {
        let number = self.list.len();
        let hides = self.newest.find(shape.name);
        self.list.push(Local { shape, hides })?;
        match self.newest.set(shape.name, Some(number)) {
            Ok(()) => Ok(()),
            Err(error) => {
                self.list.pop();
                Err(error)
            }
        }
    }

    /// Only the oldest stay.
    pub fn leave(&mut self, count: usize) -> Result<(), NoMemory>
        ensures { OnOk result (self.new ≡ drop (length self.old - count) self.old) }
    {
        while self.len() > count {
            self.forget()?;
        }
        Ok(())
    }

    /// The newest goes, and what it hides is seen again.
    fn forget(&mut self) -> Result<(), NoMemory>
        ensures { OnOk result (self.new ≡ drop 1 self.old) }
    {
        let count = self.list.len();
        if count > 0 {
            let local = self.list[count - 1];
            self.newest.set(local.shape.name, local.hides)?;
            self.list.pop();
        }
        Ok(())
    }
}

fn local_at<'a>(list: &[Local<'a>], number: usize) -> Option<Local<'a>>
    ensures { result ≡ slice_get list.now number }
{
    list.get(number).copied()
}
