//! What the names of a body stand for, before it runs.

ghost use Rattle.std.specs.Prelude.{◌≡◌, ◌≤◌, ◌+◌, Some, option_map, IfOk, IfSome};
ghost use Rattle.mpl_mean.specs.Meaning.Layout.{Member, member_named, part_named};
ghost use Rattle.mpl_mean.specs.Meaning.PlaceMeaning.{is_bool};
ghost use Rattle.mpl_gen_code.specs.Scopes.{class_found, found_at, found_field, found_name, found_part, slot_named};
ghost use Rattle.mpl_layout.specs.SeenClasses.{class_seen};
ghost use Rattle.mpl_gen_scope.specs.SeenLocals.{slot_seen};
ghost use Rattle.mpl_layout.specs.SeenParts.{part_seen};
ghost use Rattle.mpl_gen_scope.specs.SeenScope.{env_seen, found_seen, members_seen};

use crate::found::Found;
use crate::locals::{Locals, Slot};
use crate::marks::Marks;
use crate::outline::Outline;
use mpl_ast::expression::Target;
use mpl_ast::statement::TypeName;
use mpl_layout::class::Class;
use mpl_layout::members::member_id;
use mpl_layout::part::Part;
use mpl_layout::parts::{part_named, parts_of_type};
use mpl_layout::words::words_of;
use mpl_value::{NoMemory, Numbers};
use std::alloc::Global;

/// How a body ends: `main` or a member at the line of its last `}`, or a plain function that gives so many words.
#[derive(Clone, Copy)]
pub enum Finish {
    OfBody(u32),
    OfFunction(usize, u32),
}

/// What surrounds a statement.
#[derive(Drop)]
pub struct Scope<'o, 'a> {
    pub alloc: Global,
    pub outline: &'o Outline<'a>,
    pub marks: Marks<'o>,
    pub finish: Finish,
    /// The class whose members `self` has.
    pub class: Option<Class<'a>>,
    /// The parts of the object's state.
    pub parts: &'o [Part<'a>],
    pub locals: Locals<'a>,
    /// The words of each variable so far.
    pub sizes: Numbers<usize>,
}

// ---- places

fn found_part<'a>(
    slot: Option<Slot<'a>>,
    offset: usize,
    part: Option<Part<'a>>,
) -> Option<Found<'a>>
    requires { offset ≤ 256 }
    ensures is { option_map found_seen result ≡ found_part (option_map slot_seen slot.entry) offset (option_map part_seen part.entry) }
    ensures near { IfSome result (λ found. found.offset ≤ offset + 256) }
{
    match part {
        Some(part) => Some(Found {
            slot,
            offset: offset + part.offset,
            words: part.words,
            type_name: part.type_name,
            is_whole: false,
        }),
        None => None,
    }
}

fn found_name<'o, 'a>(scope: &Scope<'o, 'a>, name: &'a [u8]) -> Option<Found<'a>>
    ensures is { option_map found_seen result ≡ found_name (env_seen scope.now) (slot_named name.now (env_seen scope.now).scope) name.now }
    ensures near { IfSome result (λ found. found.offset ≤ 256) }
{
    match scope.locals.find(name) {
        Some(slot) => {
            let shape = slot.shape;
            Some(Found {
                slot: Some(slot),
                offset: 0,
                words: words_of(scope.outline.layout(), shape.type_name, shape.dimension),
                type_name: shape.type_name,
                is_whole: true,
            })
        }
        None => found_part(None, 0, part_named(scope.parts, name)),
    }
}

fn found_field<'o, 'a>(
    scope: &Scope<'o, 'a>,
    name: &[u8],
    found: Found<'a>,
) -> Result<Option<Found<'a>>, NoMemory>
    requires { found.offset ≤ 256 }
    ensures { IfOk result (λ field. option_map found_seen field ≡ found_field (env_seen scope.now) name.now (Some (found_seen found.entry))) }
{
    let parts = parts_of_type(scope.alloc, scope.outline.layout(), found.type_name)?;
    let part = part_named(parts.as_slice(), name);
    Ok(found_part(found.slot, found.offset, part))
}

pub fn found_at<'o, 'a>(
    scope: &Scope<'o, 'a>,
    target: &'a Target,
) -> Result<Option<Found<'a>>, NoMemory>
    ensures { IfOk result (λ found. option_map found_seen found ≡ found_at (env_seen scope.now) target.now) }
{
    match target {
        Target::Variable(_, variable) => Ok(found_name(scope, variable.text.as_slice())),
        Target::Field(_, variable, field) => match found_name(scope, variable.text.as_slice()) {
            Some(found) => found_field(scope, field.text.as_slice(), found),
            None => Ok(None),
        },
    }
}

/// The class of what a place stands for.
pub fn class_found<'o, 'a>(scope: &Scope<'o, 'a>, found: Found<'a>) -> Option<Class<'a>>
    ensures { option_map class_seen result ≡ class_found (env_seen scope.now) (Some (found_seen found.entry)) }
{
    match found.type_name {
        TypeName::Int(_) => None,
        TypeName::Bool(_) => None,
        TypeName::Named(_, name) => scope.outline.class_named(name.text.as_slice()),
    }
}

pub fn is_bool(type_name: &TypeName) -> bool
    ensures { result ≡ is_bool type_name.now }
{
    match type_name {
        TypeName::Int(_) => false,
        TypeName::Bool(_) => true,
        TypeName::Named(..) => false,
    }
}

/// The number of a member that `self` has.
pub fn own_member(class: Option<Class>, name: &[u8]) -> Option<u32>
    ensures { result ≡ option_map (λ (m : Member). m.id) (member_named name.now (members_seen class.entry)) }
{
    match class {
        Some(class) => member_id(class, name),
        None => None,
    }
}
