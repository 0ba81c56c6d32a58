//! Targets and places.

ghost use Rattle.std.specs.Prelude.{◌≡◌, is_some, option_map};
ghost use Rattle.mpl_mean.specs.TypeRules.Typing.{target_shape};
ghost use Rattle.mpl_types.specs.Internal.Expressions.{own_least, target_least};
ghost use Rattle.mpl_types.specs.Internal.Seen.{failure_of};
ghost use Rattle.mpl_scope.specs.SeenDeclared.{seen_declared};
ghost use Rattle.mpl_scope.specs.SeenScope.{seen_scope};
ghost use Rattle.mpl_scope.specs.SeenShapes.{seen_shapes};

use crate::failure::{Failure, noted};
use mpl_ast::expression::Target;
use mpl_scope::names::Declared;
use mpl_scope::scope::{Scope, is_in_member, is_persistent, variable};
use mpl_scope::shapes::{Shape, behind_dot, is_no_regular, is_struct, shape_of};

/// A target, as far as it is checked.
#[derive(Clone, Copy)]
pub struct CheckedTarget<'a> {
    pub shape: Option<Shape<'a>>,
    pub failure: Option<Failure>,
}

fn is_known(declared: Option<Declared>) -> bool
    ensures { result ≡ is_some (option_map seen_declared declared.entry) }
{
    declared.is_some()
}

pub fn check_target<'a>(scope: &Scope<'a>, target: &'a Target) -> CheckedTarget<'a>
    ensures shape { seen_shapes result.shape ≡ target_shape (seen_scope scope.now) target.now }
    ensures failure { failure_of result.failure ≡ target_least (seen_scope scope.now) target.now }
{
    match target {
        Target::Variable(_, name) => {
            let declared = variable(scope, name.text.as_slice());
            CheckedTarget {
                shape: shape_of(scope.outline, declared),
                failure: noted(name.from, 1, is_known(declared), None),
            }
        }
        Target::Field(at, name, field) => {
            let declared = variable(scope, name.text.as_slice());
            let shape = shape_of(scope.outline, declared);
            let behind = behind_dot(scope.outline, field.text.as_slice(), shape);
            let of_field = noted(field.from, 1, behind.is_there, None);
            let of_struct = noted(at.span.from, 16, is_struct(shape), of_field);
            let of_variable = noted(at.span.from, 15, is_no_regular(shape), of_struct);
            CheckedTarget {
                shape: behind.shape,
                failure: noted(name.from, 1, is_known(declared), of_variable),
            }
        }
    }
}

/// A `self`.
pub fn check_own(at: u32, scope: &Scope) -> Option<Failure>
    ensures { failure_of result ≡ own_least at (seen_scope scope.now) }
{
    let may_stand = is_in_member(scope.body) && is_persistent(scope.class);
    noted(at, 22, may_stand, None)
}
