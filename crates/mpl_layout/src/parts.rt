//! Where the parts of structs and states lie.

ghost use Rattle.std.specs.Prelude.{◌≡◌, ◌≤◌, ◌+◌, List, ◌∷◌, ◌++◌, map, option_map, IfOk};
ghost use Rattle.mpl_mean.specs.Meaning.Layout.{dimension_of, meant_by, part_named, parts_from, parts_of, parts_of_meant, parts_of_type, state_of, words_of};
ghost use Rattle.mpl_ast.specs.declared.class.Field.{Field};
ghost use Rattle.mpl_ast.specs.declared.class.FieldName.{FieldName};
ghost use Rattle.mpl_ast.specs.declared.class.Item.{Item};
ghost use Rattle.mpl_layout.specs.Bounds.{words_in, words_of_item, words_within};
ghost use Rattle.mpl_layout.specs.Parts.{parts_with};
ghost use Rattle.mpl_layout.specs.SeenParts.{part_seen};

use crate::layout::Layout;
use crate::name::is_same;
use crate::named::Named;
use crate::part::Part;
use crate::words::words_of;
use mpl_ast::class::{Field, FieldName, Item};
use mpl_ast::statement::TypeName;
use mpl_value::NoMemory;
use std::alloc::Global;

/// The parts of a struct.
#[tactic(auto, using(crate::proofs::FieldWords::field_within))]
pub fn parts_of_fields<'a>(
    alloc: Global,
    layout: &Layout<'a>,
    fields: &'a [Field],
) -> Result<Vec<Part<'a>>, NoMemory>
    requires { words_within layout.now fields.now ≤ 256 }
    ensures { IfOk result (λ parts. map part_seen parts.items ≡ parts_of layout.now fields.now) }
{
    let mut parts = Vec::new(alloc);
    let mut offset = 0;
    for field in fields {
        offset = add_field(layout, &mut parts, offset, field)?;
    }
    Ok(parts)
}

/// The parts of the state among the items of a class.
#[tactic(auto, using(crate::proofs::FieldWords::item_within))]
pub fn parts_of_items<'a>(
    alloc: Global,
    layout: &Layout<'a>,
    items: &'a [Item],
) -> Result<Vec<Part<'a>>, NoMemory>
    requires { words_within layout.now (state_of items.now) ≤ 256 }
    ensures { IfOk result (λ parts. map part_seen parts.items ≡ parts_of layout.now (state_of items.now)) }
{
    let mut parts = Vec::new(alloc);
    let mut offset = 0;
    for item in items {
        offset = add_item(layout, &mut parts, offset, item)?;
    }
    Ok(parts)
}

fn add_item<'a>(
    layout: &Layout<'a>,
    parts: &mut Vec<Part<'a>>,
    offset: usize,
    item: &'a Item,
) -> Result<usize, NoMemory>
    requires { offset + words_of_item layout.now item.now ≤ 256 }
    ensures parts { IfOk result (λ next. (others : List Item) → map part_seen parts.new.items ++ parts_from layout.now next (state_of others) ≡ map part_seen parts.old.items ++ parts_from layout.now offset (state_of (item.now ∷ others))) }
    ensures next { IfOk result (λ next. next ≡ offset + words_of_item layout.now item.now) }
{
    match item {
        Item::OfField(_, field) => add_field(layout, parts, offset, field),
        Item::Member(..) => Ok(offset),
        Item::Select(..) => Ok(offset),
        Item::Public(..) => Ok(offset),
        Item::Private(..) => Ok(offset),
        Item::Empty(..) => Ok(offset),
    }
}

/// The parts of one field, from an offset on. Answers where the next begin.
#[tactic(auto, using(crate::proofs::FieldWords::no_name_left, crate::proofs::FieldWords::field_added, crate::proofs::FieldWords::name_within))]
fn add_field<'a>(
    layout: &Layout<'a>,
    parts: &mut Vec<Part<'a>>,
    offset: usize,
    field: &'a Field,
) -> Result<usize, NoMemory>
    requires { offset + words_in layout.now field.now.type_name field.now.names ≤ 256 }
    ensures parts { IfOk result (λ next. (others : List Field) → map part_seen parts.new.items ++ parts_from layout.now next others ≡ map part_seen parts.old.items ++ parts_from layout.now offset (field.now ∷ others)) }
    ensures next { IfOk result (λ next. next ≡ offset + words_in layout.now field.now.type_name field.now.names) }
{
    let mut next = offset;
    for name in field.names.as_slice() {
        next = add_name(layout, parts, next, &field.type_name, name)?;
    }
    Ok(next)
}

/// One part more. Answers where the next begins.
#[tactic(auto, using(crate::proofs::FieldWords::name_added))]
fn add_name<'a>(
    layout: &Layout<'a>,
    parts: &mut Vec<Part<'a>>,
    offset: usize,
    type_name: &'a TypeName,
    name: &'a FieldName,
) -> Result<usize, NoMemory>
    requires { offset + words_of layout.now type_name.now (dimension_of name.now.dimension) ≤ 256 }
    ensures parts { IfOk result (λ next. (others : List FieldName) (fields : List Field) → parts_with layout.now type_name.now (map part_seen parts.new.items) next others fields ≡ parts_with layout.now type_name.now (map part_seen parts.old.items) offset (name.now ∷ others) fields) }
    ensures next { IfOk result (λ next. next ≡ offset + words_of layout.now type_name.now (dimension_of name.now.dimension)) }
{
    let words = words_of(layout, type_name, name.dimension);
    parts.push(Part {
        name: name.name.text.as_slice(),
        type_name,
        dimension: name.dimension,
        offset,
        words,
    })?;
    Ok(offset + words)
}

/// The part of a name.
pub fn part_named<'a>(parts: &[Part<'a>], name: &[u8]) -> Option<Part<'a>>
    ensures { option_map part_seen result ≡ part_named name.now (map part_seen parts.now) }
{
    for part in parts {
        if is_same(part.name, name) {
            return Some(*part);
        }
    }
    None
}

/// The parts of a type that is a struct.
pub fn parts_of_type<'a>(
    alloc: Global,
    layout: &Layout<'a>,
    type_name: &'a TypeName,
) -> Result<Vec<Part<'a>>, NoMemory>
    ensures { IfOk result (λ parts. map part_seen parts.items ≡ parts_of_type layout.now type_name.now) }
{
    match type_name {
        TypeName::Int(_) => Ok(Vec::new(alloc)),
        TypeName::Bool(_) => Ok(Vec::new(alloc)),
        TypeName::Named(_, name) => parts_of_named(alloc, layout, name.text.as_slice()),
    }
}

fn parts_of_named<'a>(
    alloc: Global,
    layout: &Layout<'a>,
    name: &'a [u8],
) -> Result<Vec<Part<'a>>, NoMemory>
    ensures { IfOk result (λ parts. map part_seen parts.items ≡ parts_of_meant layout.now (meant_by name.now layout.now)) }
{
    match layout.named(name) {
        Named::Struct(fields) => parts_of_fields(alloc, layout, fields),
        Named::Regular(_) => Ok(Vec::new(alloc)),
        Named::Persistent(_) => Ok(Vec::new(alloc)),
        Named::Nothing => Ok(Vec::new(alloc)),
    }
}
