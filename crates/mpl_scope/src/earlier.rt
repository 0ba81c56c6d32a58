//! The names from which a later one differs.

ghost use Rattle.std.specs.Prelude.{◌≡◌, true, not, [], ◌∷◌, ◌++◌, map, OnOk, IfOk};
ghost use Rattle.std.specs.List.{list_any};
ghost use Rattle.std.specs.Str.{bytes_eq};

use crate::first_named::FirstNamed;
use crate::types::is_same;
use mpl_value::NoMemory;
use std::alloc::Global;
use std::marker::Model;

/// So many names are compared one by one, which takes less than a table of them.
const FEW: usize = 8;

/// Names in their order.
#[derive(Drop)]
pub struct Earlier<'a> {
    few: Vec<&'a [u8]>,
    more: More<'a>,
}

impl<'a> Model for Earlier<'a> {
    ghost use Rattle.std.specs.Prelude.{List, ℕ, ◌++◌, map};

    ghost Value = { List (List ℕ) };

    ghost view = { λ e. map (λ name. name.now) e.few.items ++ e.more };
}

/// Those behind the first few.
#[derive(Drop)]
pub struct More<'a> {
    list: Vec<&'a [u8]>,
    first: FirstNamed<'a, ()>,
}

impl<'a> Model for More<'a> {
    ghost use Rattle.std.specs.Prelude.{◌≡◌, List, ℕ, is_some, map};
    ghost use Rattle.std.specs.List.{list_any};
    ghost use Rattle.std.specs.Str.{bytes_eq};
    ghost use Rattle.mpl_scope.specs.First.{at};

    ghost Value = { List (List ℕ) };

    ghost view = { λ e. map (λ name. name.now) e.list.items };

    ghost invariant = { λ e. (name : List ℕ) → is_some (at e.first name) ≡ list_any (bytes_eq name) (map (λ name. name.now) e.list.items) };
}

fn is_among(names: &[&[u8]], name: &[u8]) -> bool
    ensures { result ≡ list_any (bytes_eq name.now) (map (λ other. other.now) names.now) }
{
    for other in names {
        if is_same(name, *other) {
            return true;
        }
    }
    false
}

impl<'a> Earlier<'a> {
    pub fn new(alloc: Global) -> Earlier<'a>
        ensures { result ≡ [] }
    {
        Earlier {
            few: Vec::new(alloc),
            more: More {
                list: Vec::new(alloc),
                first: FirstNamed::new(alloc),
            },
        }
    }

    #[tactic(auto, using(std::proofs::lemmas::Grind::common_steps))]
    pub fn is_new(&self, name: &'a [u8]) -> bool
        ensures { result ≡ not (list_any (bytes_eq name.now) self.now) }
    {
        !(is_among(self.few.as_slice(), name) || self.more.has(name))
    }

    /// One more, at the end.
    #[tactic(auto, using(std::proofs::lemmas::Grind::common_steps))]
    pub fn add(&mut self, name: &'a [u8]) -> Result<(), NoMemory>
        ensures { OnOk result (self.new ≡ self.old ++ name.now ∷ []) }
    {
        if self.more.is_empty() && self.few.len() < FEW {
            self.few.push(name)?;
            Ok(())
        } else {
            self.more.add(name)
        }
    }
}

impl<'a> More<'a> {
    fn has(&self, name: &'a [u8]) -> bool
        ensures { result ≡ list_any (bytes_eq name.now) self.now }
    {
        self.first.find(name).is_some()
    }

    #[tactic(auto, using(std::proofs::lemmas::Grind::common_steps))]
    fn is_empty(&self) -> bool
        ensures { result ≡ true → self.now ≡ [] }
    {
        self.list.is_empty()
    }

    fn add(&mut self, name: &'a [u8]) -> Result<(), NoMemory>
        ensures { OnOk result (self.new ≡ self.old ++ name.now ∷ []) }
    {
        self.list.push(name)?;
        match self.first.add(name, ()) {
            Ok(()) => Ok(()),
            Err(error) => {
                self.list.pop();
                Err(error)
            }
        }
    }
}
