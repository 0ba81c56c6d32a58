//! What places are.

ghost use Rattle.std.specs.Prelude.{◌≡◌, option_map, Some, None};
ghost use Rattle.mpl_mean.specs.TypeRules.CallRules as calls;
ghost use Rattle.mpl_mean.specs.TypeRules.ExpressionRules as rules;
ghost use Rattle.mpl_mean.specs.TypeRules.NameRules as names;
ghost use Rattle.mpl_mean.specs.TypeRules.Types as types;
ghost use Rattle.mpl_mean.specs.TypeRules.Typing as typing;
ghost use Rattle.mpl_scope.specs.SeenDeclared.{seen_declared, seen_role};
ghost use Rattle.mpl_scope.specs.SeenOutline.{seen_meant};
ghost use Rattle.mpl_scope.specs.SeenShapes.{seen_shape, seen_shapes};
ghost use Rattle.mpl_scope.specs.SeenTypes.{seen_type, seen_types};

use crate::kinds::Class;
use crate::names::{Declared, Role};
use crate::outline::{Meant, Outline};
use crate::types::{ValueType, agree, is_int};
use mpl_ast::statement::Dimension;

/// A value, an array of values, or a local of a regular class.
#[derive(Clone, Copy)]
pub enum Shape<'a> {
    OneValue(ValueType<'a>),
    AnArray(ValueType<'a>),
    ARegular(&'a Class<'a>),
}

/// The type of a value with a type that is written there, where that may stand there.
pub fn value_type<'a>(role: Role, meant: Meant<'a>) -> Option<ValueType<'a>>
    ensures { seen_types result ≡ types.value_type (seen_role role) (seen_meant meant.entry) }
{
    match meant {
        Meant::Int => Some(ValueType::Int),
        Meant::Bool => Some(ValueType::Bool),
        Meant::Struct(found) => {
            if matches!(role, Role::Field) {
                None
            } else {
                Some(ValueType::Struct(found.name()))
            }
        }
        Meant::Class(found) => {
            if found.is_regular() {
                None
            } else {
                Some(ValueType::Class(found.name()))
            }
        }
        Meant::Nothing => None,
    }
}

fn shape_with<'a>(dimension: Option<Dimension>, value: ValueType<'a>) -> Shape<'a>
    ensures { seen_shape result ≡ types.shape_with dimension (seen_type value.entry) }
{
    match dimension {
        Some(_) => Shape::AnArray(value),
        None => Shape::OneValue(value),
    }
}

fn shape_of_value<'a>(
    role: Role,
    dimension: Option<Dimension>,
    meant: Meant<'a>,
) -> Option<Shape<'a>>
    ensures { seen_shapes result ≡ option_map (types.shape_with dimension) (types.value_type (seen_role role) (seen_meant meant.entry)) }
{
    match value_type(role, meant) {
        Some(value) => Some(shape_with(dimension, value)),
        None => None,
    }
}

fn shape_of_meant<'a>(
    role: Role,
    dimension: Option<Dimension>,
    meant: Meant<'a>,
) -> Option<Shape<'a>>
    ensures { seen_shapes result ≡ types.shape_of_meant (seen_role role) dimension (seen_meant meant.entry) }
{
    match meant {
        Meant::Class(class) => {
            if class.is_regular() {
                if matches!(role, Role::Local) {
                    Some(Shape::ARegular(class))
                } else {
                    None
                }
            } else {
                shape_of_value(role, dimension, meant)
            }
        }
        Meant::Int | Meant::Bool | Meant::Struct(_) | Meant::Nothing => {
            shape_of_value(role, dimension, meant)
        }
    }
}

pub fn shape_of<'a>(outline: &'a Outline<'a>, declared: Option<Declared<'a>>) -> Option<Shape<'a>>
    ensures { seen_shapes result ≡ types.shape_of outline.now (option_map seen_declared declared.entry) }
{
    match declared {
        Some(d) => shape_of_meant(d.role, d.dimension, outline.meant(d.type_name)),
        None => None,
    }
}

/// What is behind the dot of a field, and whether the field is there.
#[derive(Clone, Copy)]
pub struct Behind<'a> {
    pub shape: Option<Shape<'a>>,
    pub is_there: bool,
}

fn field_of<'a>(outline: &'a Outline<'a>, field: &'a [u8], meant: Meant<'a>) -> Behind<'a>
    ensures shape { seen_shapes result.shape ≡ typing.shape_of_field outline.now field.now (seen_meant meant.entry) }
    ensures there { result.is_there ≡ names.meant_has_field field.now (seen_meant meant.entry) }
{
    match meant {
        Meant::Struct(found) => {
            let declared = found.field(field);
            Behind {
                shape: shape_of(outline, declared),
                is_there: declared.is_some(),
            }
        }
        Meant::Int | Meant::Bool | Meant::Class(_) | Meant::Nothing => Behind {
            shape: None,
            is_there: true,
        },
    }
}

/// Nothing is asked of a field of what is no struct.
pub fn behind_dot<'a>(
    outline: &'a Outline<'a>,
    field: &'a [u8],
    shape: Option<Shape<'a>>,
) -> Behind<'a>
    ensures shape { seen_shapes result.shape ≡ typing.shape_behind_dot outline.now field.now (seen_shapes shape.entry) }
    ensures there { result.is_there ≡ names.has_field outline.now field.now (seen_shapes shape.entry) }
{
    match shape {
        Some(Shape::OneValue(ValueType::Struct(name))) => {
            field_of(outline, field, outline.named(name))
        }
        _ => Behind {
            shape: None,
            is_there: true,
        },
    }
}

// ---- tests of shapes

/// A whole array has no type, nor has a variable of a regular class.
pub fn type_of_whole<'a>(shape: Option<Shape<'a>>) -> Option<ValueType<'a>>
    ensures { seen_types result ≡ typing.type_of_whole (seen_shapes shape.entry) }
{
    match shape {
        Some(Shape::OneValue(value)) => Some(value),
        Some(Shape::AnArray(_)) | Some(Shape::ARegular(_)) | None => None,
    }
}

/// The index is a number, or has no type.
pub fn type_of_element<'a>(
    shape: Option<Shape<'a>>,
    index: Option<ValueType<'a>>,
) -> Option<ValueType<'a>>
    ensures { seen_types result ≡ typing.type_of_element (seen_shapes shape.entry) (seen_types index.entry) }
{
    match shape {
        Some(Shape::AnArray(value)) => {
            if agree(Some(ValueType::Int), index) {
                Some(value)
            } else {
                None
            }
        }
        Some(Shape::OneValue(_)) | Some(Shape::ARegular(_)) | None => None,
    }
}

pub fn can_be_indexed(shape: Option<Shape>, index: Option<ValueType>) -> bool
    ensures { result ≡ rules.can_be_indexed (seen_shapes shape.entry) (seen_types index.entry) }
{
    match shape {
        Some(shape) => match index {
            Some(index) => matches!(shape, Shape::AnArray(_)) && is_int(index),
            None => true,
        },
        None => true,
    }
}

pub fn is_one_value(shape: Option<Shape>) -> bool
    ensures { result ≡ rules.is_one_value (seen_shapes shape.entry) }
{
    match shape {
        Some(Shape::OneValue(_)) | None => true,
        Some(Shape::AnArray(_)) | Some(Shape::ARegular(_)) => false,
    }
}

pub fn is_no_regular(shape: Option<Shape>) -> bool
    ensures { result ≡ rules.is_no_regular (seen_shapes shape.entry) }
{
    match shape {
        Some(Shape::ARegular(_)) => false,
        Some(Shape::OneValue(_)) | Some(Shape::AnArray(_)) | None => true,
    }
}

pub fn is_struct(shape: Option<Shape>) -> bool
    ensures { result ≡ rules.is_struct (seen_shapes shape.entry) }
{
    match shape {
        Some(Shape::OneValue(ValueType::Struct(_))) | None => true,
        _ => false,
    }
}

pub fn is_object(shape: Option<Shape>) -> bool
    ensures { result ≡ calls.is_object (seen_shapes shape.entry) }
{
    match shape {
        Some(Shape::OneValue(ValueType::Class(_))) | None => true,
        _ => false,
    }
}

pub fn can_be_called(shape: Option<Shape>) -> bool
    ensures { result ≡ calls.can_be_called (seen_shapes shape.entry) }
{
    match shape {
        Some(Shape::ARegular(_)) => true,
        _ => is_object(shape),
    }
}

pub fn initialiser_agrees(shape: Option<Shape>, value: Option<ValueType>) -> bool
    ensures { result ≡ rules.initialiser_agrees (seen_shapes shape.entry) (seen_types value.entry) }
{
    is_no_regular(shape) && agree(type_of_whole(shape), value)
}
