//! The types and classes of a program by their names.

ghost use Rattle.std.specs.Prelude.{◌≡◌, map, option_map, IfOk};
ghost use Rattle.mpl_mean.specs.Laws.Sizes.{Every};
ghost use Rattle.mpl_mean.specs.Meaning.Layout.{class_named, classes_of, meant_by};
ghost use Rattle.mpl_layout.specs.Bounds.{Bounded, StateFits};
ghost use Rattle.mpl_layout.specs.ClassItems.{class_items};
ghost use Rattle.mpl_layout.specs.SeenClasses.{class_seen, items_seen};
ghost use Rattle.mpl_layout.specs.SeenNamed.{NamedFits, named_seen};

use crate::class::Class;
use crate::classes::{by_name, classes_of};
use crate::named::{Named, types_of};
use mpl_ast::program::Declaration;
use mpl_mean::Typed;
use mpl_scope::first_named::FirstNamed;
use mpl_value::NoMemory;
use std::alloc::Global;
use std::marker::Model;

/// The declarations of a program, and its types and classes by their names.
#[derive(Drop)]
pub struct Layout<'a> {
    declarations: &'a [Declaration],
    types: FirstNamed<'a, Named<'a>>,
    /// All of them, in their order.
    classes: Vec<Class<'a>>,
    classes_named: FirstNamed<'a, Class<'a>>,
}

impl<'a> Model for Layout<'a> {
    ghost use Rattle.std.specs.Prelude.{List};
    ghost use Rattle.std.specs.Coded.{codes};
    ghost use Rattle.mpl_ast.specs.contracts.expression.Expression as expression;
    ghost use Rattle.mpl_ast.specs.contracts.flow.Flow as flow;
    ghost use Rattle.mpl_ast.specs.contracts.statement.Statement as statement;
    ghost use Rattle.mpl_ast.specs.declared.program.Declaration.{Declaration};
    ghost use Rattle.mpl_layout.specs.SeenLayout.{Stands};

    ghost Value = { List Declaration };

    ghost coded = { Prim.hlevel (codes, expression.the_row.coded, flow.the_row.coded, statement.the_row.coded) };

    ghost view = { λ l. l.declarations.now };

    ghost invariant = { λ l. Stands l.declarations.now l.types l.classes.items l.classes_named };
}

impl<'a> Layout<'a> {
    pub fn of(alloc: Global, declarations: &'a [Declaration]) -> Result<Layout<'a>, NoMemory>
        requires { Bounded declarations.now }
        ensures { IfOk result (λ layout. layout ≡ declarations.now) }
    {
        let types = types_of(alloc, declarations)?;
        let classes = classes_of(alloc, declarations)?;
        let classes_named = by_name(alloc, classes.as_slice())?;
        Ok(Layout {
            declarations,
            types,
            classes,
            classes_named,
        })
    }

    pub fn declarations(&self) -> &'a [Declaration]
        ensures { result.now ≡ self.now }
    {
        self.declarations
    }

    /// What the name of a type stands for.
    #[tactic(auto, using(crate::proofs::Tables::named_fits))]
    pub fn named(&self, name: &'a [u8]) -> Named<'a>
        ensures is { named_seen name.now result ≡ meant_by name.now self.now }
        ensures few { NamedFits self.now result }
    {
        match self.types.find(name) {
            Some(named) => *named,
            None => Named::Nothing,
        }
    }

    pub fn classes(&self) -> &[Class<'a>]
        ensures are { map class_seen result.now ≡ classes_of self.now }
        ensures items { map items_seen result.now ≡ class_items self.now }
        ensures fit { Every (StateFits self.now) (map class_seen result.now) }
    {
        self.classes.as_slice()
    }

    pub fn class_named(&self, name: &'a [u8]) -> Option<Class<'a>>
        ensures { option_map class_seen result ≡ class_named name.now (classes_of self.now) }
    {
        self.classes_named.find(name).copied()
    }
}

/// The declarations of an accepted program.
pub fn declarations_of(typed: &Typed) -> &[Declaration]
    ensures are { result.now ≡ typed.now.declarations }
    ensures bounded { Bounded result.now }
{
    let program = typed.program();
    program.declarations.as_slice()
}
