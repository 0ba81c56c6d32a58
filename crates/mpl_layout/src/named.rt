//! What the name of a type stands for.

ghost use Rattle.std.specs.Prelude.{◌≡◌, ℕ, List, ◌∷◌, IfOk, OnOk};
ghost use Rattle.mpl_ast.specs.declared.program.Declaration.{Declaration};
ghost use Rattle.mpl_mean.specs.Meaning.Layout.{AClass, Nothing, is_regular, meant_by};
ghost use Rattle.mpl_scope.specs.First.{at};
ghost use Rattle.mpl_layout.specs.SeenNamed.{named_or, named_seen};

use mpl_ast::class::{Field, Item, Kind};
use mpl_ast::program::Declaration;
use mpl_scope::first_named::FirstNamed;
use mpl_value::NoMemory;
use std::alloc::Global;

/// The fields of a struct, or the items of a class.
#[derive(Clone, Copy)]
pub enum Named<'a> {
    Struct(&'a [Field]),
    Regular(&'a [Item]),
    Persistent(&'a [Item]),
    Nothing,
}

/// The first struct or class of each name.
pub fn types_of<'a>(
    alloc: Global,
    declarations: &'a [Declaration],
) -> Result<FirstNamed<'a, Named<'a>>, NoMemory>
    ensures { IfOk result (λ types. (name : List ℕ) → named_or name (at types name) Nothing ≡ meant_by name declarations.now) }
{
    let mut types = FirstNamed::new(alloc);
    for declaration in declarations {
        add_type(&mut types, declaration)?;
    }
    Ok(types)
}

#[tactic(auto, using(crate::proofs::Tables::chosen_named))]
fn add_type<'a>(
    types: &mut FirstNamed<'a, Named<'a>>,
    declaration: &'a Declaration,
) -> Result<(), NoMemory>
    ensures { OnOk result ((q : List ℕ) (others : List Declaration) →
        named_or q (at types.new q) (meant_by q others) ≡ named_or q (at types.old q) (meant_by q (declaration.now ∷ others))) }
{
    match declaration {
        Declaration::Struct(_, _, name, fields) => {
            types.add(name.text.as_slice(), Named::Struct(fields.as_slice()))
        }
        Declaration::Class(_, _, kind, name, items) => {
            types.add(name.text.as_slice(), named_class(kind, items.as_slice()))
        }
        Declaration::Function(..) => Ok(()),
    }
}

fn named_class<'a>(kind: &Kind, items: &'a [Item]) -> Named<'a>
    ensures { (name : List ℕ) → named_seen name result ≡ AClass name (is_regular kind.now) items.now }
{
    match kind {
        Kind::Regular(_) => Named::Regular(items),
        Kind::Persistent(_) => Named::Persistent(items),
    }
}
