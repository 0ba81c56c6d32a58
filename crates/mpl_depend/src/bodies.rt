//! The uses that are marked in the bodies of a program.

ghost use Rattle.std.specs.Prelude.{◌≡◌, [], ◌∷◌, flat_map, map, IfOk, OnOk};
ghost use Rattle.mpl_mean.specs.Plain.Scopes.{formal_shape};
ghost use Rattle.mpl_depend.specs.Internal.Bodies.{Adds, body_ways, class_row, function_row, item_row, state_in};
ghost use Rattle.mpl_depend.specs.Internal.SeenClass.{items_seen};

use crate::finding::mark_ways;
use crate::known::Known;
use crate::scope::Scope;
use crate::statements::statements;
use mpl_ast::class::{Formal, Item};
use mpl_ast::program::Declaration;
use mpl_ast::statement::Statement;
use mpl_locals::locals::{Locals, Shape};
use mpl_scope::kinds::Class;
use mpl_scope::members::formals_of;
use mpl_scope::outline::is_regular;
use mpl_value::NoMemory;
use std::alloc::Global;

/// The formals as variables, the first the newest.
fn locals_of<'a>(alloc: Global, formals: &'a [Formal]) -> Result<Locals<'a>, NoMemory>
    ensures { IfOk result (λ locals. locals ≡ map formal_shape formals.now) }
{
    let mut locals = Locals::new(alloc);
    let mut left = formals.len();
    while left > 0 {
        left -= 1;
        let formal = &formals[left];
        locals.declare(Shape {
            name: formal.name.text.as_slice(),
            type_name: &formal.type_name,
            dimension: None,
        })?;
    }
    Ok(locals)
}

/// A body with these formals, which sees the state of this class, if there is one.
fn mark_body<'a>(
    alloc: Global,
    known: &'a Known<'a>,
    object: Option<&'a Class<'a>>,
    formals: &'a [Formal],
    list: &'a [Statement],
    marks: &mut Vec<u32>,
) -> Result<(), NoMemory>
    ensures { OnOk result (Adds (body_ways known.now (items_seen object.entry) formals.now list.now ∷ []) marks.old.items marks.new.items) }
{
    let mut scope = Scope {
        alloc,
        known,
        object,
        locals: locals_of(alloc, formals)?,
    };
    let ways = statements(&mut scope, list)?;
    mark_ways(alloc, &ways, marks)
}

// ---- functions

pub fn mark_functions<'a>(
    alloc: Global,
    known: &'a Known<'a>,
    declarations: &'a [Declaration],
    marks: &mut Vec<u32>,
) -> Result<(), NoMemory>
    ensures { OnOk result (Adds (flat_map (function_row known.now) declarations.now) marks.old.items marks.new.items) }
{
    for declaration in declarations {
        mark_function(alloc, known, declaration, marks)?;
    }
    Ok(())
}

#[tactic(auto, using(crate::proofs::Marking::adds_nothing))]
fn mark_function<'a>(
    alloc: Global,
    known: &'a Known<'a>,
    declaration: &'a Declaration,
    marks: &mut Vec<u32>,
) -> Result<(), NoMemory>
    ensures { OnOk result (Adds (function_row known.now declaration.now) marks.old.items marks.new.items) }
{
    match declaration {
        Declaration::Function(_, _, _, formals, block) => {
            let list = block.statements.as_slice();
            mark_body(alloc, known, None, formals_of(formals), list, marks)
        }
        Declaration::Struct(..) => Ok(()),
        Declaration::Class(..) => Ok(()),
    }
}

// ---- members

pub fn mark_classes<'a>(
    alloc: Global,
    known: &'a Known<'a>,
    declarations: &'a [Declaration],
    marks: &mut Vec<u32>,
) -> Result<(), NoMemory>
    ensures { OnOk result (Adds (flat_map (class_row known.now) declarations.now) marks.old.items marks.new.items) }
{
    for declaration in declarations {
        mark_class(alloc, known, declaration, marks)?;
    }
    Ok(())
}

#[tactic(auto, using(crate::proofs::Marking::adds_nothing))]
fn mark_class<'a>(
    alloc: Global,
    known: &'a Known<'a>,
    declaration: &'a Declaration,
    marks: &mut Vec<u32>,
) -> Result<(), NoMemory>
    ensures { OnOk result (Adds (class_row known.now declaration.now) marks.old.items marks.new.items) }
{
    match declaration {
        Declaration::Class(_, _, kind, name, items) => mark_items(
            alloc,
            known,
            is_regular(kind),
            name.text.as_slice(),
            items.as_slice(),
            marks,
        ),
        Declaration::Struct(..) => Ok(()),
        Declaration::Function(..) => Ok(()),
    }
}

/// The members of a class. Those of a regular class see no state.
fn mark_items<'a>(
    alloc: Global,
    known: &'a Known<'a>,
    is_regular: bool,
    name: &'a [u8],
    items: &'a [Item],
    marks: &mut Vec<u32>,
) -> Result<(), NoMemory>
    ensures { OnOk result (Adds (flat_map (item_row known.now (state_in is_regular items.now)) items.now) marks.old.items marks.new.items) }
{
    if is_regular {
        return mark_members(alloc, known, None, items, marks);
    }
    let class = Class::of(alloc, name, is_regular, items)?;
    mark_object(alloc, known, &class, items, marks)
}

/// The members of a class that see its state.
fn mark_object<'o, 'a>(
    alloc: Global,
    known: &'a Known<'a>,
    class: &'o Class<'a>,
    items: &'a [Item],
    marks: &mut Vec<u32>,
) -> Result<(), NoMemory>
    ensures { OnOk result (Adds (flat_map (item_row known.now class.now.items) items.now) marks.old.items marks.new.items) }
{
    mark_members(alloc, &*known, Some(&*class), &*items, marks)
}

fn mark_members<'a>(
    alloc: Global,
    known: &'a Known<'a>,
    object: Option<&'a Class<'a>>,
    items: &'a [Item],
    marks: &mut Vec<u32>,
) -> Result<(), NoMemory>
    ensures { OnOk result (Adds (flat_map (item_row known.now (items_seen object.entry)) items.now) marks.old.items marks.new.items) }
{
    for item in items {
        mark_member(alloc, known, object, item, marks)?;
    }
    Ok(())
}

#[tactic(auto, using(crate::proofs::Marking::adds_nothing))]
fn mark_member<'a>(
    alloc: Global,
    known: &'a Known<'a>,
    object: Option<&'a Class<'a>>,
    item: &'a Item,
    marks: &mut Vec<u32>,
) -> Result<(), NoMemory>
    ensures { OnOk result (Adds (item_row known.now (items_seen object.entry) item.now) marks.old.items marks.new.items) }
{
    match item {
        Item::Member(_, _, _, formals, block) => {
            let list = block.statements.as_slice();
            mark_body(alloc, known, object, formals_of(formals), list, marks)
        }
        Item::OfField(..) => Ok(()),
        Item::Select(..) => Ok(()),
        Item::Public(..) => Ok(()),
        Item::Private(..) => Ok(()),
        Item::Empty(..) => Ok(()),
    }
}
