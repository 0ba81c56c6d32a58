//! Types and dimensions where they are written.

ghost use Rattle.std.specs.Prelude.{◌≡◌, ◌&&◌, nat_le};
ghost use Rattle.mpl_mean.specs.Meaning.Layout.{natural};
ghost use Rattle.mpl_mean.specs.TypeRules.NameRules as names;
ghost use Rattle.mpl_mean.specs.TypeRules.SizeRules as sizes;
ghost use Rattle.mpl_mean.specs.TypeRules.StatementNodes.{type_at};
ghost use Rattle.mpl_types.specs.Internal.Seen.{failure_of};
ghost use Rattle.mpl_scope.specs.SeenDeclared.{seen_role};
ghost use Rattle.mpl_scope.specs.SeenOutline.{seen_meant};
ghost use Rattle.mpl_types.specs.Internal.Statements.{dimension_least, type_least};

use crate::failure::{Failure, noted};
use mpl_ast::statement::{Dimension, TypeName};
use mpl_scope::names::Role;
use mpl_scope::outline::{Meant, Outline};

/// The most words of a struct, of an array and of a state.
pub const MOST_WORDS: i64 = 256;

pub fn type_at(type_name: &TypeName) -> u32
    ensures { result ≡ type_at type_name.now }
{
    match type_name {
        TypeName::Int(at) | TypeName::Bool(at) => at.span.from,
        TypeName::Named(_, name) => name.from,
    }
}

/// A type that is written there, without dimension and initialiser or not.
pub fn check_type<'a>(
    outline: &'a Outline<'a>,
    role: Role,
    is_bare: bool,
    type_name: &'a TypeName,
) -> Option<Failure>
    ensures { failure_of result ≡ type_least outline.now (seen_role role) is_bare type_name.now }
{
    let meant = outline.meant(type_name);
    let at = type_at(type_name);
    let of_place = noted(at, 4, may_stand(role, is_bare, meant), None);
    noted(at, 1, is_meant(meant), of_place)
}

fn is_meant(meant: Meant) -> bool
    ensures { result ≡ names.is_meant (seen_meant meant.entry) }
{
    match meant {
        Meant::Nothing => false,
        Meant::Int | Meant::Bool | Meant::Struct(_) | Meant::Class(_) => true,
    }
}

fn may_stand(role: Role, is_bare: bool, meant: Meant) -> bool
    ensures { result ≡ sizes.meant_may_stand (seen_role role) is_bare (seen_meant meant.entry) }
{
    match meant {
        Meant::Struct(_) => !matches!(role, Role::Field),
        Meant::Class(class) => {
            if class.is_regular() {
                matches!(role, Role::Local) && is_bare
            } else {
                true
            }
        }
        Meant::Int | Meant::Bool | Meant::Nothing => true,
    }
}

pub fn check_dimension(type_name: &TypeName, dimension: Option<Dimension>) -> Option<Failure>
    ensures { failure_of result ≡ dimension_least type_name.now dimension }
{
    match dimension {
        Some(dimension) => {
            let number = dimension.number;
            noted(
                number.from,
                5,
                is_size(number.value) && is_element(type_name),
                None,
            )
        }
        None => None,
    }
}

fn is_size(words: i64) -> bool
    ensures { result ≡ sizes.is_size (natural words) }
{
    1 <= words && words <= MOST_WORDS
}

fn is_element(type_name: &TypeName) -> bool
    ensures { result ≡ sizes.is_element type_name.now }
{
    match type_name {
        TypeName::Int(_) | TypeName::Bool(_) => true,
        TypeName::Named(..) => false,
    }
}
