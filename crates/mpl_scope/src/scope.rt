//! What surrounds a node: the program, a class, a body, and the variables in scope.

ghost use Rattle.std.specs.Prelude.{◌≡◌, [], ◌∷◌, flat_map, is_some, option_map, reverse, OnOk};
ghost use Rattle.std.specs.Option.{option_and_then};
ghost use Rattle.mpl_mean.specs.Meaning.Layout.{function_named};
ghost use Rattle.mpl_mean.specs.TypeRules.NameRules.{has_member};
ghost use Rattle.mpl_mean.specs.TypeRules.Scopes as scopes;
ghost use Rattle.mpl_mean.specs.TypeRules.Types as types;
ghost use Rattle.mpl_mean.specs.TypeRules.Typing as typing;
ghost use Rattle.mpl_scope.specs.SeenDeclared.{seen_declared};
ghost use Rattle.mpl_scope.specs.SeenMembers.{seen_member};
ghost use Rattle.mpl_scope.specs.SeenOutline.{seen_function};
ghost use Rattle.mpl_scope.specs.SeenScope.{seen_body, seen_if_any, seen_scope};
ghost use Rattle.mpl_scope.specs.SeenShapes.{seen_shapes};
ghost use Rattle.mpl_scope.specs.SeenTypes.{seen_types};

use crate::kinds::Class;
use crate::members::Member;
use crate::names::{Declared, Names};
use crate::outline::{Function, Meant, Outline};
use crate::shapes::Shape;
use crate::types::{ValueType, is_same};
use mpl_ast::class::ResultType;
use mpl_ast::statement::TypeName;

/// A body, or a guard.
#[derive(Clone, Copy)]
pub enum Body<'a> {
    Guard,
    Main,
    Function(&'a TypeName),
    Member(&'a ResultType),
}

#[derive(Drop)]
pub struct Scope<'a> {
    pub outline: &'a Outline<'a>,
    pub class: Option<&'a Class<'a>>,
    pub body: Body<'a>,
    pub formals: Names<'a>,
    /// The locals so far of the blocks around, the innermost block last.
    pub blocks: Vec<Names<'a>>,
}

// ---- names

pub fn is_main(name: &[u8]) -> bool
    ensures { result ≡ scopes.is_main name.now }
{
    is_same(name, b"main".as_slice())
}

/// The innermost local of a name.
fn local<'a>(blocks: &[Names<'a>], name: &'a [u8]) -> Option<Declared<'a>>
    ensures { option_map seen_declared result ≡ types.first_named name.now (flat_map (λ block. block) (reverse blocks.now)) }
{
    let mut left = blocks.len();
    while left > 0 {
        left -= 1;
        let found = blocks[left].find(name);
        if found.is_some() {
            return found;
        }
    }
    None
}

fn state_member<'a>(class: Option<&'a Class<'a>>, name: &'a [u8]) -> Option<Declared<'a>>
    ensures { option_map seen_declared result ≡ types.first_named name.now (scopes.state_members (seen_if_any class.entry)) }
{
    match class {
        Some(class) => class.state(name),
        None => None,
    }
}

pub fn variable<'a>(scope: &Scope<'a>, name: &'a [u8]) -> Option<Declared<'a>>
    ensures { option_map seen_declared result ≡ scopes.variable_of (seen_scope scope.now) name.now }
{
    let local = local(scope.blocks.as_slice(), name);
    if local.is_some() {
        return local;
    }
    let formal = scope.formals.find(name);
    if formal.is_some() {
        return formal;
    }
    state_member(scope.class, name)
}

/// A declared function other than `main`.
pub fn plain_function<'a>(scope: &Scope<'a>, name: &'a [u8]) -> Option<Function<'a>>
    ensures { option_map seen_function result ≡ scopes.plain_function (seen_scope scope.now) name.now }
{
    if is_main(name) {
        None
    } else {
        scope.outline.function(name)
    }
}

// ---- calls

/// The type of `self`.
pub fn own_type<'a>(scope: &Scope<'a>) -> Option<ValueType<'a>>
    ensures { seen_types result ≡ typing.own_type (seen_scope scope.now) }
{
    match scope.body {
        Body::Member(_) => match scope.class {
            Some(class) => {
                if class.is_regular() {
                    None
                } else {
                    Some(ValueType::Class(class.name()))
                }
            }
            None => None,
        },
        Body::Guard | Body::Main | Body::Function(_) => None,
    }
}

pub fn own_shape<'a>(scope: &Scope<'a>) -> Option<Shape<'a>>
    ensures { seen_shapes result ≡ typing.own_shape (seen_scope scope.now) }
{
    match own_type(scope) {
        Some(value) => Some(Shape::OneValue(value)),
        None => None,
    }
}

/// The class of what is called.
fn class_called<'a>(outline: &'a Outline<'a>, shape: Option<Shape<'a>>) -> Option<&'a Class<'a>>
    ensures { option_map (λ c. c.now.items) result ≡ typing.items_called outline.now (seen_shapes shape.entry) }
{
    match shape {
        Some(Shape::ARegular(class)) => Some(class),
        Some(Shape::OneValue(ValueType::Class(name))) => class_named(outline, name),
        _ => None,
    }
}

fn class_named<'a>(outline: &'a Outline<'a>, name: &'a [u8]) -> Option<&'a Class<'a>>
    ensures { option_map (λ c. c.now.items) result ≡ typing.items_of_meant (types.meant_by name.now outline.now) }
{
    match outline.named(name) {
        Meant::Class(class) => Some(class),
        Meant::Int | Meant::Bool | Meant::Struct(_) | Meant::Nothing => None,
    }
}

pub fn member_of_shape<'a>(
    outline: &'a Outline<'a>,
    shape: Option<Shape<'a>>,
    name: &'a [u8],
) -> Option<Member<'a>>
    ensures { option_map seen_member result ≡ option_and_then (typing.member_of name.now) (typing.items_called outline.now (seen_shapes shape.entry)) }
{
    match class_called(outline, shape) {
        Some(class) => class.member(name),
        None => None,
    }
}

/// Nothing is asked of a member of what has no class.
pub fn shape_has_member<'a>(
    outline: &'a Outline<'a>,
    shape: Option<Shape<'a>>,
    name: &'a [u8],
) -> bool
    ensures { result ≡ has_member name.now (typing.items_called outline.now (seen_shapes shape.entry)) }
{
    match class_called(outline, shape) {
        Some(class) => class.member(name).is_some(),
        None => true,
    }
}

// ---- the body

pub fn is_persistent(class: Option<&Class>) -> bool
    ensures { result ≡ scopes.is_persistent (seen_if_any class.entry) }
{
    match class {
        Some(class) => !class.is_regular(),
        None => false,
    }
}

pub fn is_in_main(body: Body) -> bool
    ensures { result ≡ scopes.is_in_main (seen_body body.entry) }
{
    matches!(body, Body::Main)
}

pub fn is_in_member(body: Body) -> bool
    ensures { result ≡ scopes.is_in_member (seen_body body.entry) }
{
    matches!(body, Body::Member(_))
}
