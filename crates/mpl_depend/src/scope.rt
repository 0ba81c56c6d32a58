ghost use Rattle.std.specs.Prelude.{◌≡◌, Some, option_map};
ghost use Rattle.mpl_mean.specs.Plain.Scopes.{found_at, found_name, slot_named};
ghost use Rattle.mpl_locals.specs.SeenLocals.{slot_seen};
ghost use Rattle.mpl_depend.specs.Internal.SeenScope.{env_seen, found_seen};
ghost use Rattle.mpl_depend.specs.Internal.Sights.{sight, sight_part, type_in};

use crate::known::{Known, state_type};
use mpl_ast::expression::Target;
use mpl_ast::statement::TypeName;
use mpl_locals::locals::{Locals, Slot};
use mpl_scope::kinds::Class;
use std::alloc::Global;

/// What surrounds a statement.
#[derive(Drop)]
pub struct Scope<'a> {
    pub alloc: Global,
    pub known: &'a Known<'a>,
    /// The class whose state is seen, where one is.
    pub object: Option<&'a Class<'a>>,
    pub locals: Locals<'a>,
}

/// What a place stands for, but for its words.
#[derive(Clone, Copy)]
pub struct Found<'a> {
    pub slot: Option<Slot<'a>>,
    pub type_name: &'a TypeName,
    pub is_whole: bool,
}

fn found_part<'a>(slot: Option<Slot<'a>>, type_name: Option<&'a TypeName>) -> Option<Found<'a>>
    ensures { option_map found_seen result ≡ sight_part (option_map slot_seen slot.entry) (option_map (λ type. type.now) type_name.entry) }
{
    match type_name {
        Some(type_name) => Some(Found {
            slot,
            type_name,
            is_whole: false,
        }),
        None => None,
    }
}

#[tactic(auto, using(crate::proofs::Seen::own_part))]
fn found_name<'a>(scope: &Scope<'a>, name: &'a [u8]) -> Option<Found<'a>>
    ensures { option_map found_seen result ≡ option_map sight (found_name (env_seen scope.now) (slot_named name.now scope.now.locals) name.now) }
{
    match scope.locals.find(name) {
        Some(slot) => Some(Found {
            slot: Some(slot),
            type_name: slot.shape.type_name,
            is_whole: true,
        }),
        None => found_part(None, state_type(scope.object, name)),
    }
}

fn found_field<'a>(scope: &Scope<'a>, name: &'a [u8], found: Found<'a>) -> Option<Found<'a>>
    ensures { option_map found_seen result ≡ sight_part (found_seen found.entry).slot (type_in scope.now.known.now (found_seen found.entry).type name.now) }
{
    found_part(found.slot, scope.known.part_type(found.type_name, name))
}

#[tactic(auto, using(crate::proofs::Seen::field_of, crate::proofs::Seen::field_of_none))]
pub fn found_at<'a>(scope: &Scope<'a>, target: &'a Target) -> Option<Found<'a>>
    ensures { option_map found_seen result ≡ option_map sight (found_at (env_seen scope.now) target.now) }
{
    match target {
        Target::Variable(_, variable) => found_name(scope, variable.text.as_slice()),
        Target::Field(_, variable, field) => match found_name(scope, variable.text.as_slice()) {
            Some(found) => found_field(scope, field.text.as_slice(), found),
            None => None,
        },
    }
}
