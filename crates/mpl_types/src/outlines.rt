//! The declarations of a program, without their bodies and guards.

ghost use Rattle.std.specs.Prelude.{◌≡◌, IfOk};
ghost use Rattle.std.specs.List.{list_any};
ghost use Rattle.mpl_mean.specs.TypeRules.NameRules as rules;
ghost use Rattle.mpl_mean.specs.TypeRules.ProgramNodes as nodes;
ghost use Rattle.mpl_mean.specs.TypeRules.SizeRules as sizes;
ghost use Rattle.mpl_types.specs.Internal.Outlines.{declaration_least, parts_least};
ghost use Rattle.mpl_types.specs.Internal.Seen.{failure_of};

use crate::classes::check_items;
use crate::declarations::check_type;
use crate::failure::{Failure, earlier, noted};
use crate::fields::{check_fields, check_formals};
use mpl_ast::Name;
use mpl_ast::class::Formal;
use mpl_ast::program::Declaration;
use mpl_ast::statement::TypeName;
use mpl_scope::earlier::Earlier;
use mpl_scope::kinds::Class;
use mpl_scope::members::formals_of;
use mpl_scope::names::Role;
use mpl_scope::outline::{Outline, is_regular};
use mpl_scope::scope::is_main;
use mpl_scope::sizes::words_of_fields;
use mpl_scope::words::words_of_state;
use mpl_value::NoMemory;
use std::alloc::Global;

/// The most declarations of a program.
const MOST_DECLARATIONS: usize = 4096;

/// The most words of a struct and of a state.
const MOST_WORDS: u64 = 256;

pub fn name_of(declaration: &Declaration) -> &Name
    ensures { result.now ≡ nodes.declared_name declaration.now }
{
    match declaration {
        Declaration::Struct(_, _, name, _) => name,
        Declaration::Class(_, _, _, name, _) => name,
        Declaration::Function(_, _, name, _, _) => name,
    }
}

fn begins_at(declaration: &Declaration) -> u32
    ensures { result ≡ nodes.declaration_at declaration.now }
{
    match declaration {
        Declaration::Struct(at, _, _, _) => at.span.from,
        Declaration::Class(at, _, _, _, _) => at.span.from,
        Declaration::Function(at, _, _, _, _) => at.span.from,
    }
}

fn is_named_main(declaration: &Declaration) -> bool
    ensures { result ≡ rules.is_named_main declaration.now }
{
    is_main(name_of(declaration).text.as_slice())
}

/// `int NAME()`
fn is_int_without_formals(declaration: &Declaration) -> bool
    ensures { result ≡ rules.is_int_without_formals declaration.now }
{
    match declaration {
        Declaration::Function(_, declared, _, formals, _) => {
            matches!(declared, TypeName::Int(_)) && formals_of(formals).is_empty()
        }
        Declaration::Struct(..) | Declaration::Class(..) => false,
    }
}

fn main_is_right(declaration: &Declaration) -> bool
    ensures { result ≡ rules.main_is_right (rules.is_named_main declaration.now) declaration.now }
{
    !is_named_main(declaration) || is_int_without_formals(declaration)
}

fn state_fits<'a>(outline: &'a Outline<'a>, class: &Class<'a>) -> bool
    ensures { result ≡ sizes.state_fits outline.now class.now.is_regular class.now.items }
{
    if class.is_regular() {
        return true;
    }
    words_of_state(outline, class.state_members()) <= MOST_WORDS
}

/// The parts of a declaration, and whether its words are as many as they may be.
fn check_parts<'a>(
    alloc: Global,
    outline: &'a Outline<'a>,
    declaration: &'a Declaration,
) -> Result<(bool, Option<Failure>), NoMemory>
    ensures fits { IfOk result (λ found. found.0 ≡ sizes.declaration_fits outline.now declaration.now) }
    ensures failure { IfOk result (λ found. failure_of found.1 ≡ parts_least outline.now declaration.now) }
{
    match declaration {
        Declaration::Struct(_, _, _, fields) => {
            let fields = fields.as_slice();
            let words = words_of_fields(fields);
            let failure = check_fields(alloc, outline, fields)?;
            Ok((1 <= words && words <= MOST_WORDS, failure))
        }
        Declaration::Class(_, _, kind, name, items) => {
            let items = items.as_slice();
            let class = Class::of(alloc, name.text.as_slice(), is_regular(kind), items)?;
            let fits = state_fits(outline, &class);
            let failure = check_items(alloc, outline, &class, items)?;
            Ok((fits, failure))
        }
        Declaration::Function(_, declared, _, formals, _) => {
            let of_result = check_type(outline, Role::Result, true, declared);
            let of_formals = check_formals(alloc, outline, formals_of(formals))?;
            Ok((true, earlier(of_result, of_formals)))
        }
    }
}

pub fn check_declaration<'a>(
    alloc: Global,
    outline: &'a Outline<'a>,
    before: usize,
    names: &Earlier<'a>,
    declaration: &'a Declaration,
) -> Result<Option<Failure>, NoMemory>
    ensures { IfOk result (λ failure. failure_of failure ≡ declaration_least outline.now before names.now declaration.now) }
{
    let at = begins_at(declaration);
    let name = name_of(declaration);
    let (fits, of_parts) = check_parts(alloc, outline, declaration)?;
    let of_name = noted(name.from, 2, names.is_new(name.text.as_slice()), of_parts);
    let of_count = noted(at, 8, before != MOST_DECLARATIONS, of_name);
    let of_size = noted(at, 6, fits, of_count);
    Ok(noted(at, 3, main_is_right(declaration), of_size))
}

pub fn has_main(declarations: &[Declaration]) -> bool
    ensures { result ≡ list_any rules.is_named_main declarations.now }
{
    declarations.iter().any(is_named_main)
}
