//! Arguments beside the formals that they are for.

ghost use Rattle.std.specs.Prelude.{◌≡◌, ◌||◌, ◌&&◌, ◌==◌, is_none, drop, length, true, false, None};
ghost use Rattle.mpl_mean.specs.TypeRules.Types as types;
ghost use Rattle.mpl_mean.specs.TypeRules.Typing.{formal_types};
ghost use Rattle.mpl_types.specs.Internal.Arguments.{first_agrees};
ghost use Rattle.mpl_types.specs.Internal.Least.{earlier};
ghost use Rattle.mpl_types.specs.Internal.Seen.{failure_of};
ghost use Rattle.mpl_scope.specs.SeenTypes.{seen_types};

use crate::failure::{Failure, earlier};
use mpl_ast::class::Formal;
use mpl_scope::names::Role;
use mpl_scope::outline::Outline;
use mpl_scope::shapes::value_type;
use mpl_scope::types::{ValueType, agree};
use sqlite_items::at;

/// What is known of an expression.
#[derive(Clone, Copy)]
pub struct Checked<'a> {
    /// Where it begins.
    pub at: u32,
    pub value: Option<ValueType<'a>>,
    /// Without a plain call, `input()` and `self`; of a call of a member nothing is said.
    pub fits_guard: bool,
    pub failure: Option<Failure>,
}

/// What is known of some arguments: whether one has no type, whether those that have one agree with their formals, and
/// the least failure in them.
#[derive(Clone, Copy)]
pub struct Arguments {
    pub has_untyped: bool,
    pub agrees: bool,
    pub failure: Option<Failure>,
}

/// Whether arguments have the number and the types of their formals, and the least failure in them.
#[derive(Clone, Copy)]
pub struct Matched {
    pub agrees: bool,
    pub failure: Option<Failure>,
}

pub fn no_argument() -> Arguments
    ensures { result ≡ record { has_untyped = false; agrees = true; failure = None } }
{
    Arguments {
        has_untyped: false,
        agrees: true,
        failure: None,
    }
}

#[tactic(auto, using(crate::proofs::ArgumentLemmas::none_is))]
fn formal_agrees<'a>(
    outline: &'a Outline<'a>,
    formals: &'a [Formal],
    place: usize,
    value: Option<ValueType<'a>>,
) -> bool
    ensures { result ≡ first_agrees (seen_types value.entry) (drop place (formal_types outline.now formals.now)) }
{
    match at(formals, place) {
        Some(formal) => {
            let meant = outline.meant(&formal.type_name);
            agree(value, value_type(Role::Formal, meant))
        }
        None => true,
    }
}

/// One more argument, for the formal at this place.
pub fn one_more<'a>(
    so_far: Arguments,
    outline: &'a Outline<'a>,
    formals: &'a [Formal],
    place: usize,
    argument: Checked<'a>,
) -> Arguments
    ensures untyped { result.has_untyped ≡ (so_far.has_untyped || is_none (seen_types argument.entry.value)) }
    ensures agrees { result.agrees ≡ (so_far.agrees && first_agrees (seen_types argument.entry.value) (drop place (formal_types outline.now formals.now))) }
    ensures failure { failure_of result.failure ≡ earlier (failure_of so_far.failure) (failure_of argument.entry.failure) }
{
    Arguments {
        has_untyped: so_far.has_untyped || argument.value.is_none(),
        agrees: so_far.agrees && formal_agrees(outline, formals, place, argument.value),
        failure: earlier(so_far.failure, argument.failure),
    }
}

/// As many as formals, of the same types. Where an argument has no type, no types are compared.
pub fn all_agree(arguments: Arguments, count: usize, formals: &[Formal]) -> bool
    ensures { result ≡ ((count == length formals.now) && (arguments.has_untyped || arguments.agrees)) }
{
    count == formals.len() && (arguments.has_untyped || arguments.agrees)
}
