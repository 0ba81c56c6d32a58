//! What is known in the whole program.

ghost use Rattle.std.specs.Prelude.{◌≡◌, ℕ, List, ◌∷◌, option_map, OnOk, IfOk};
ghost use Rattle.mpl_ast.specs.declared.program.Declaration.{Declaration};
ghost use Rattle.mpl_mean.specs.Meaning.Layout.{state_of};
ghost use Rattle.mpl_mean.specs.TypeRules.Types.{InState};
ghost use Rattle.mpl_scope.specs.First.{at, or_else};
ghost use Rattle.mpl_scope.specs.SeenDeclared.{seen_declared};
ghost use Rattle.mpl_depend.specs.Internal.Regular.{regular_among, regular_type};
ghost use Rattle.mpl_depend.specs.Internal.Sights.{type_among, type_in, type_of};
ghost use Rattle.mpl_depend.specs.Internal.SeenClass.{items_seen};

use mpl_ast::program::Declaration;
use mpl_ast::statement::TypeName;
use mpl_scope::first_named::FirstNamed;
use mpl_scope::kinds::Class;
use mpl_scope::names::Declared;
use mpl_scope::outline::{Meant, Outline, is_regular};
use mpl_value::NoMemory;
use std::alloc::Global;
use std::marker::Model;

/// The declarations of a program, what its types stand for, and whether the first class of each name is regular.
#[derive(Drop)]
pub struct Known<'a> {
    outline: Outline<'a>,
    regular: FirstNamed<'a, bool>,
}

impl<'a> Model for Known<'a> {
    ghost use Rattle.std.specs.Prelude.{◌≡◌, List, ℕ};
    ghost use Rattle.std.specs.Coded.{codes};
    ghost use Rattle.mpl_ast.specs.contracts.expression.Expression as expression;
    ghost use Rattle.mpl_ast.specs.contracts.flow.Flow as flow;
    ghost use Rattle.mpl_ast.specs.contracts.statement.Statement as statement;
    ghost use Rattle.mpl_ast.specs.declared.program.Declaration.{Declaration};
    ghost use Rattle.mpl_scope.specs.First.{at};
    ghost use Rattle.mpl_depend.specs.Internal.Regular.{regular_among};

    ghost Value = { List Declaration };

    ghost coded = { Prim.hlevel (codes, expression.the_row.coded, flow.the_row.coded, statement.the_row.coded) };

    ghost view = { λ k. k.outline };

    ghost invariant = { λ k. (name : List ℕ) → at k.regular name ≡ regular_among name k.outline };
}

impl<'a> Known<'a> {
    pub fn of(alloc: Global, declarations: &'a [Declaration]) -> Result<Known<'a>, NoMemory>
        ensures { IfOk result (λ known. known ≡ declarations.now) }
    {
        let outline = Outline::of(alloc, declarations)?;
        let regular = regular_classes(alloc, declarations)?;
        Ok(Known { outline, regular })
    }

    /// The type of a part of a value of this type.
    #[tactic(auto, using(crate::proofs::Seen::part_of_struct))]
    pub fn part_type(&'a self, type_name: &'a TypeName, name: &'a [u8]) -> Option<&'a TypeName>
        ensures { option_map (λ type. type.now) result ≡ type_in self.now type_name.now name.now }
    {
        match self.outline.meant(type_name) {
            Meant::Struct(found) => type_of(found.field(name)),
            Meant::Int => None,
            Meant::Bool => None,
            Meant::Class(_) => None,
            Meant::Nothing => None,
        }
    }

    /// Whether the class that a type is, if it is one, is regular.
    pub fn regular(&self, type_name: &'a TypeName) -> Option<bool>
        ensures { result ≡ regular_type self.now type_name.now }
    {
        match type_name {
            TypeName::Int(_) => None,
            TypeName::Bool(_) => None,
            TypeName::Named(_, name) => self.regular.find(name.text.as_slice()).copied(),
        }
    }
}

fn type_of<'a>(declared: Option<Declared<'a>>) -> Option<&'a TypeName>
    ensures { option_map (λ type. type.now) result ≡ type_of (option_map seen_declared declared.entry) }
{
    match declared {
        Some(declared) => Some(declared.type_name),
        None => None,
    }
}

/// The type of a part of the state that is seen, if one is.
pub fn state_type<'a>(object: Option<&'a Class<'a>>, name: &'a [u8]) -> Option<&'a TypeName>
    ensures { option_map (λ type. type.now) result ≡ type_among InState name.now (state_of (items_seen object.entry)) }
{
    match object {
        Some(class) => type_of(class.state(name)),
        None => None,
    }
}

/// Whether the first class of each name is regular.
fn regular_classes<'a>(
    alloc: Global,
    declarations: &'a [Declaration],
) -> Result<FirstNamed<'a, bool>, NoMemory>
    ensures { IfOk result (λ regular. (name : List ℕ) → at regular name ≡ regular_among name declarations.now) }
{
    let mut regular = FirstNamed::new(alloc);
    for declaration in declarations {
        add_class(&mut regular, declaration)?;
    }
    Ok(regular)
}

#[tactic(auto, using(crate::proofs::Seen::class_joins))]
fn add_class<'a>(
    regular: &mut FirstNamed<'a, bool>,
    declaration: &'a Declaration,
) -> Result<(), NoMemory>
    ensures { OnOk result ((name : List ℕ) (others : List Declaration) →
        or_else (at regular.new name) (regular_among name others) ≡ or_else (at regular.old name) (regular_among name (declaration.now ∷ others))) }
{
    match declaration {
        Declaration::Class(_, _, kind, name, _) => {
            regular.add(name.text.as_slice(), is_regular(kind))
        }
        Declaration::Struct(..) => Ok(()),
        Declaration::Function(..) => Ok(()),
    }
}
