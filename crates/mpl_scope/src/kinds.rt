//! Structs and classes, and what a type's name stands for.

ghost use Rattle.std.specs.Prelude.{◌≡◌, ◌≤◌, option_map, map, IfOk};
ghost use Rattle.mpl_mean.specs.Meaning.Layout as layout;
ghost use Rattle.mpl_mean.specs.Meaning.Layout.{state_of};
ghost use Rattle.mpl_scope.specs.Words.{told};
ghost use Rattle.mpl_mean.specs.TypeRules.Types.{InState, InStruct, declared_fields, first_named};
ghost use Rattle.mpl_mean.specs.TypeRules.Typing.{member_of};
ghost use Rattle.mpl_scope.specs.SeenDeclared.{seen_declared};
ghost use Rattle.mpl_scope.specs.SeenMembers.{seen_member};

use crate::members::{Member, Members};
use crate::names::{Declared, Names};
use crate::sizes::words_of_fields;
use mpl_ast::class::{Field, Item};
use mpl_value::NoMemory;
use std::alloc::Global;
use std::marker::Model;

/// A struct, and its fields by their names.
#[derive(Drop)]
pub struct Struct<'a> {
    name: &'a [u8],
    fields: &'a [Field],
    names: Names<'a>,
    /// As far as a limit can tell.
    words: u64,
}

impl<'a> Model for Struct<'a> {
    ghost use Rattle.std.specs.Prelude.{◌≡◌, ◌≤◌, List, ℕ};
    ghost use Rattle.mpl_mean.specs.Meaning.Layout.{words_of_fields};
    ghost use Rattle.mpl_scope.specs.Words.{told};
    ghost use Rattle.mpl_ast.specs.declared.class.Field.{Field};
    ghost use Rattle.mpl_mean.specs.TypeRules.Types.{InStruct, declared_fields};

    ghost Value = { List ℕ × List Field };

    ghost view = { λ s. (s.name.now, s.fields.now) };

    ghost invariant = { λ s. (s.names ≡ declared_fields InStruct s.fields.now) × (s.words ≡ told (words_of_fields s.fields.now)) × (s.words ≤ 1025) };
}

impl<'a> Struct<'a> {
    pub fn of(alloc: Global, name: &'a [u8], fields: &'a [Field]) -> Result<Struct<'a>, NoMemory>
        ensures { IfOk result (λ s. s ≡ (name.now, fields.now)) }
    {
        let names = Names::of_fields(alloc, fields)?;
        Ok(Struct {
            name,
            fields,
            names,
            words: words_of_fields(fields),
        })
    }

    pub fn name(&self) -> &'a [u8]
        ensures { result.now ≡ self.now.0 }
    {
        self.name
    }

    pub fn fields(&self) -> &'a [Field]
        ensures { result.now ≡ self.now.1 }
    {
        self.fields
    }

    /// How many words it has, as far as a limit can tell.
    pub fn words(&self) -> u64
        ensures words { result ≡ told (layout.words_of_fields self.now.1) }
        ensures few { result ≤ 1025 }
    {
        self.words
    }

    /// The first field of a name.
    pub fn field(&self, name: &'a [u8]) -> Option<Declared<'a>>
        ensures { option_map seen_declared result ≡ first_named name.now (declared_fields InStruct self.now.1) }
    {
        self.names.find(name)
    }
}

/// A class, and its members and state by their names.
#[derive(Drop)]
pub struct Class<'a> {
    name: &'a [u8],
    is_regular: bool,
    members: Members<'a>,
    state: Names<'a>,
}

impl<'a> Model for Class<'a> {
    ghost use Rattle.std.specs.Prelude.{◌≡◌};
    ghost use Rattle.std.specs.Coded.{codes};
    ghost use Rattle.mpl_ast.specs.contracts.expression.Expression as expression;
    ghost use Rattle.mpl_ast.specs.contracts.flow.Flow as flow;
    ghost use Rattle.mpl_ast.specs.contracts.statement.Statement as statement;
    ghost use Rattle.mpl_mean.specs.Meaning.Layout.{state_of};
    ghost use Rattle.mpl_mean.specs.TypeRules.Scopes.{Surrounding};
    ghost use Rattle.mpl_mean.specs.TypeRules.Types.{InState, declared_fields};

    ghost Value = { Surrounding };

    ghost coded = { Prim.hlevel (codes, expression.the_row.coded, flow.the_row.coded, statement.the_row.coded) };

    ghost view = { λ c. record { name = c.name.now; is_regular = c.is_regular; items = c.members } };

    ghost invariant = { λ c. c.state ≡ declared_fields InState (state_of c.members) };
}

impl<'a> Class<'a> {
    pub fn of(
        alloc: Global,
        name: &'a [u8],
        is_regular: bool,
        items: &'a [Item],
    ) -> Result<Class<'a>, NoMemory>
        ensures { IfOk result (λ c. c ≡ record { name = name.now; is_regular = is_regular; items = items.now }) }
    {
        let members = Members::of(alloc, items)?;
        let state = Names::of_state(alloc, items)?;
        Ok(Class {
            name,
            is_regular,
            members,
            state,
        })
    }

    pub fn name(&self) -> &'a [u8]
        ensures { result.now ≡ self.now.name }
    {
        self.name
    }

    pub fn is_regular(&self) -> bool
        ensures { result ≡ self.now.is_regular }
    {
        self.is_regular
    }

    pub fn member(&self, name: &'a [u8]) -> Option<Member<'a>>
        ensures { option_map seen_member result ≡ member_of name.now self.now.items }
    {
        self.members.find(name)
    }

    /// The state members in their order.
    pub fn state_members(&self) -> &[Declared<'a>]
        ensures { map seen_declared result.now ≡ declared_fields InState (state_of self.now.items) }
    {
        self.state.list()
    }

    /// The first state member of a name.
    pub fn state(&self, name: &'a [u8]) -> Option<Declared<'a>>
        ensures { option_map seen_declared result ≡ first_named name.now (declared_fields InState (state_of self.now.items)) }
    {
        self.state.find(name)
    }
}
