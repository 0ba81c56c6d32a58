//! What is known in the whole program: structs, classes and functions by their names.

ghost use Rattle.std.specs.Prelude.{◌≡◌, ℕ, List, ◌∷◌, option_map, OnOk, IfOk};
ghost use Rattle.std.specs.Option.{option_copied};
ghost use Rattle.mpl_ast.specs.declared.program.Declaration.{Declaration};
ghost use Rattle.mpl_mean.specs.Meaning.Layout.{is_regular, function_named};
ghost use Rattle.mpl_mean.specs.TypeRules.Types.{meant, meant_by};
ghost use Rattle.mpl_scope.specs.First.{at, or_else};
ghost use Rattle.mpl_scope.specs.SeenOutline.{or_meant, seen_found, seen_function, seen_meant};

use crate::first_named::FirstNamed;
use crate::kinds::{Class, Struct};
use crate::members::formals_of;
use mpl_ast::class::{Formal, Kind};
use mpl_ast::program::Declaration;
use mpl_ast::statement::{Block, TypeName};
use mpl_value::NoMemory;
use std::alloc::Global;
use std::marker::Model;

/// A plain function, or `main`.
#[derive(Clone, Copy)]
pub struct Function<'a> {
    pub result: &'a TypeName,
    pub formals: &'a [Formal],
    pub body: &'a Block,
}

#[derive(Drop)]
pub enum Named<'a> {
    Struct(Struct<'a>),
    Class(Class<'a>),
}

/// What a type stands for.
#[derive(Clone, Copy)]
pub enum Meant<'a> {
    Int,
    Bool,
    Struct(&'a Struct<'a>),
    Class(&'a Class<'a>),
    Nothing,
}

/// The declarations of a program, and the first struct or class and the first function of each name.
#[derive(Drop)]
pub struct Outline<'a> {
    declarations: &'a [Declaration],
    types: FirstNamed<'a, Named<'a>>,
    functions: FirstNamed<'a, Function<'a>>,
}

impl<'a> Model for Outline<'a> {
    ghost use Rattle.std.specs.Prelude.{◌≡◌, List, ℕ, option_map};
    ghost use Rattle.std.specs.Coded.{codes};
    ghost use Rattle.mpl_ast.specs.contracts.expression.Expression as expression;
    ghost use Rattle.mpl_ast.specs.contracts.flow.Flow as flow;
    ghost use Rattle.mpl_ast.specs.contracts.statement.Statement as statement;
    ghost use Rattle.mpl_ast.specs.declared.program.Declaration.{Declaration};
    ghost use Rattle.mpl_mean.specs.Meaning.Layout.{function_named};
    ghost use Rattle.mpl_mean.specs.TypeRules.Types.{meant_by};
    ghost use Rattle.mpl_scope.specs.First.{at};
    ghost use Rattle.mpl_scope.specs.SeenOutline.{seen_found, seen_function, Agrees};

    ghost Value = { List Declaration };

    ghost coded = { Prim.hlevel (codes, expression.the_row.coded, flow.the_row.coded, statement.the_row.coded) };

    ghost view = { λ o. o.declarations.now };

    ghost invariant = { λ o. Agrees o.types o.functions o.declarations.now };
}

impl<'a> Outline<'a> {
    pub fn of(alloc: Global, declarations: &'a [Declaration]) -> Result<Outline<'a>, NoMemory>
        ensures { IfOk result (λ outline. outline ≡ declarations.now) }
    {
        let mut types = FirstNamed::new(alloc);
        let mut functions = FirstNamed::new(alloc);
        for declaration in declarations {
            add_type(alloc, &mut types, declaration)?;
            add_function(&mut functions, declaration)?;
        }
        Ok(Outline {
            declarations,
            types,
            functions,
        })
    }

    /// The first struct or class of a name.
    pub fn named(&'a self, name: &'a [u8]) -> Meant<'a>
        ensures { seen_meant result ≡ meant_by name.now self.now }
    {
        match self.types.find(name) {
            Some(Named::Struct(found)) => Meant::Struct(found),
            Some(Named::Class(found)) => Meant::Class(found),
            None => Meant::Nothing,
        }
    }

    pub fn meant(&'a self, type_name: &'a TypeName) -> Meant<'a>
        ensures { seen_meant result ≡ meant self.now type_name.now }
    {
        match type_name {
            TypeName::Int(_) => Meant::Int,
            TypeName::Bool(_) => Meant::Bool,
            TypeName::Named(_, name) => self.named(name.text.as_slice()),
        }
    }

    pub fn function(&self, name: &'a [u8]) -> Option<Function<'a>>
        ensures { option_map seen_function result ≡ function_named name.now self.now }
    {
        self.functions.find(name).copied()
    }
}

fn add_type<'a>(
    alloc: Global,
    types: &mut FirstNamed<'a, Named<'a>>,
    declaration: &'a Declaration,
) -> Result<(), NoMemory>
    ensures { OnOk result ((q : List ℕ) (others : List Declaration) →
        or_meant (seen_found (at types.new q)) (meant_by q others) ≡ or_meant (seen_found (at types.old q)) (meant_by q (declaration.now ∷ others))) }
{
    match declaration {
        Declaration::Struct(_, _, name, fields) => {
            let name = name.text.as_slice();
            types.add(
                name,
                Named::Struct(Struct::of(alloc, name, fields.as_slice())?),
            )
        }
        Declaration::Class(_, _, kind, name, items) => {
            let name = name.text.as_slice();
            let class = Class::of(alloc, name, is_regular(kind), items.as_slice())?;
            types.add(name, Named::Class(class))
        }
        Declaration::Function(..) => Ok(()),
    }
}

fn add_function<'a>(
    functions: &mut FirstNamed<'a, Function<'a>>,
    declaration: &'a Declaration,
) -> Result<(), NoMemory>
    ensures { OnOk result ((q : List ℕ) (others : List Declaration) →
        or_else (option_map seen_function (at functions.new q)) (function_named q others)
        ≡ or_else (option_map seen_function (at functions.old q)) (function_named q (declaration.now ∷ others))) }
{
    match declaration {
        Declaration::Function(_, result, name, formals, body) => functions.add(
            name.text.as_slice(),
            Function {
                result,
                formals: formals_of(formals),
                body,
            },
        ),
        Declaration::Struct(..) | Declaration::Class(..) => Ok(()),
    }
}

pub fn is_regular(kind: &Kind) -> bool
    ensures { result ≡ is_regular kind.now }
{
    matches!(kind, Kind::Regular(_))
}
