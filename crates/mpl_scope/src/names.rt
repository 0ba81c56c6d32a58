//! Variables and fields by their names.

ghost use Rattle.std.specs.Prelude.{◌≡◌, [], ◌∷◌, ◌++◌, map, option_map, OnOk, IfOk};
ghost use Rattle.std.specs.List.{list_any};
ghost use Rattle.std.specs.Str.{bytes_eq};
ghost use Rattle.mpl_mean.specs.Meaning.Layout.{state_of};
ghost use Rattle.mpl_mean.specs.TypeRules.Types.{InState, InStruct, declared_by, declared_fields, declared_formals, first_named, names};
ghost use Rattle.mpl_scope.specs.SeenDeclared.{seen_declared, seen_role};

use crate::first_named::FirstNamed;
use crate::types::is_same;
use mpl_ast::class::{Field, Formal, Item};
use mpl_ast::statement::{Dimension, TypeName};
use mpl_value::NoMemory;
use std::alloc::Global;
use std::marker::Model;

/// So many names are compared one by one, which takes less than a table of them.
const FEW: usize = 8;

/// Where a type is written.
#[derive(Clone, Copy)]
pub enum Role {
    State,
    Field,
    Formal,
    Result,
    Local,
}

/// A variable or a field.
#[derive(Clone, Copy)]
pub struct Declared<'a> {
    pub role: Role,
    pub name: &'a [u8],
    pub type_name: &'a TypeName,
    pub dimension: Option<Dimension>,
}

/// Variables or fields in their order.
#[derive(Drop)]
pub struct Names<'a> {
    list: Vec<Declared<'a>>,
    /// The first of each name behind the first few of the list.
    more: FirstNamed<'a, Declared<'a>>,
}

impl<'a> Model for Names<'a> {
    ghost use Rattle.std.specs.Prelude.{◌≡◌, List, ℕ, drop, map, option_map};
    ghost use Rattle.mpl_mean.specs.TypeRules.Types.{Declared, first_named};
    ghost use Rattle.mpl_scope.specs.First.{at};
    ghost use Rattle.mpl_scope.specs.SeenDeclared.{seen_declared};

    ghost Value = { List Declared };

    ghost view = { λ n. map seen_declared n.list.items };

    ghost invariant = { λ n. (name : List ℕ) → option_map seen_declared (at n.more name) ≡ first_named name (map seen_declared (drop 8 n.list.items)) };
}

fn first_among<'a>(list: &[Declared<'a>], name: &[u8]) -> Option<Declared<'a>>
    ensures { option_map seen_declared result ≡ first_named name.now (map seen_declared list.now) }
{
    for declared in list {
        if is_same(declared.name, name) {
            return Some(*declared);
        }
    }
    None
}

impl<'a> Names<'a> {
    pub fn new(alloc: Global) -> Names<'a>
        ensures { result ≡ [] }
    {
        Names {
            list: Vec::new(alloc),
            more: FirstNamed::new(alloc),
        }
    }

    pub fn list(&self) -> &[Declared<'a>]
        ensures { map seen_declared result.now ≡ self.now }
    {
        self.list.as_slice()
    }

    /// The first of a name.
    pub fn find(&self, name: &'a [u8]) -> Option<Declared<'a>>
        ensures { option_map seen_declared result ≡ first_named name.now self.now }
    {
        let few = usize::min(self.list.len(), FEW);
        let found = first_among(&self.list.as_slice()[..few], name);
        if found.is_some() || few < FEW {
            return found;
        }
        self.more.find(name).copied()
    }

    pub fn has(&self, name: &'a [u8]) -> bool
        ensures { result ≡ list_any (bytes_eq name.now) (names self.now) }
    {
        self.find(name).is_some()
    }

    /// One more, at the end.
    pub fn add(&mut self, declared: Declared<'a>) -> Result<(), NoMemory>
        ensures ok { OnOk result (self.new ≡ self.old ++ seen_declared declared.entry ∷ []) }
    {
        if self.list.len() < FEW {
            self.list.push(declared)?;
            return Ok(());
        }
        self.list.push(declared)?;
        match self.more.add(declared.name, declared) {
            Ok(()) => Ok(()),
            Err(error) => {
                self.list.pop();
                Err(error)
            }
        }
    }

    /// The names of a field or state member, at the end.
    fn add_field(&mut self, role: Role, field: &'a Field) -> Result<(), NoMemory>
        ensures { OnOk result (self.new ≡ self.old ++ declared_by (seen_role role) field.now) }
    {
        for name in field.names.as_slice() {
            self.add(Declared {
                role,
                name: name.name.text.as_slice(),
                type_name: &field.type_name,
                dimension: name.dimension,
            })?;
        }
        Ok(())
    }

    /// The fields of a struct.
    pub fn of_fields(alloc: Global, fields: &'a [Field]) -> Result<Names<'a>, NoMemory>
        ensures { IfOk result (λ names. names ≡ declared_fields InStruct fields.now) }
    {
        let mut names = Names::new(alloc);
        for field in fields {
            names.add_field(Role::Field, field)?;
        }
        Ok(names)
    }

    /// The state members of a class.
    pub fn of_state(alloc: Global, items: &'a [Item]) -> Result<Names<'a>, NoMemory>
        ensures { IfOk result (λ names. names ≡ declared_fields InState (state_of items.now)) }
    {
        let mut names = Names::new(alloc);
        for item in items {
            names.add_state(item)?;
        }
        Ok(names)
    }

    fn add_state(&mut self, item: &'a Item) -> Result<(), NoMemory>
        ensures { OnOk result (self.new ≡ self.old ++ declared_fields InState (state_of (item.now ∷ []))) }
    {
        match item {
            Item::OfField(_, field) => self.add_field(Role::State, field),
            Item::Member(..)
            | Item::Select(..)
            | Item::Public(..)
            | Item::Private(..)
            | Item::Empty(..) => Ok(()),
        }
    }

    pub fn of_formals(alloc: Global, formals: &'a [Formal]) -> Result<Names<'a>, NoMemory>
        ensures { IfOk result (λ names. names ≡ declared_formals formals.now) }
    {
        let mut names = Names::new(alloc);
        for formal in formals {
            names.add(Declared {
                role: Role::Formal,
                name: formal.name.text.as_slice(),
                type_name: &formal.type_name,
                dimension: None,
            })?;
        }
        Ok(names)
    }
}
