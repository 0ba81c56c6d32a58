ghost use Rattle.std.specs.Prelude.{◌≡◌, Some, option_map};
ghost use Rattle.mpl_mean.specs.Pending.BodyWays.{create_ways, forces, receives, uses};
ghost use Rattle.mpl_mean.specs.Plain.Scopes.{class_found, found_at};
ghost use Rattle.mpl_locals.specs.SeenLocals.{slot_seen};
ghost use Rattle.mpl_depend.specs.Internal.SeenScope.{env_seen, found_seen};
ghost use Rattle.mpl_depend.specs.Internal.SeenWays.{ways_seen};
ghost use Rattle.mpl_depend.specs.Internal.Sights.{creates_sight, receives_sight, uses_sight};

use crate::known::Known;
use crate::making::only;
use crate::scope::{Found, Scope, found_at};
use crate::ways::{Event, Ways};
use mpl_ast::expression::Target;
use mpl_locals::locals::Slot;

/// A use forces a variable. The state is always known.
fn forces(node: u32, slot: Option<Slot>) -> Ways
    ensures { ways_seen result ≡ forces node (option_map slot_seen slot.entry) }
{
    match slot {
        Some(slot) => only(Event::Forces(node, slot.number)),
        None => Ways::Nothing,
    }
}

fn uses_found(node: u32, found: Option<Found>) -> Ways
    ensures { ways_seen result ≡ uses_sight node (option_map found_seen found.entry) }
{
    match found {
        Some(found) => forces(node, found.slot),
        None => Ways::Nothing,
    }
}

/// A use of what a target stands for.
#[tactic(auto, using(crate::proofs::Seen::uses_is))]
pub fn uses_target<'a>(scope: &Scope<'a>, node: u32, target: &'a Target) -> Ways
    ensures { ways_seen result ≡ uses node (found_at (env_seen scope.now) target.now) }
{
    uses_found(node, found_at(scope, target))
}

fn receives_found<'a>(known: &Known<'a>, node: u32, found: Option<Found<'a>>) -> Ways
    ensures { ways_seen result ≡ receives_sight node known.now (option_map found_seen found.entry) }
{
    match found {
        Some(found) => match known.regular(found.type_name) {
            Some(true) => Ways::Nothing,
            Some(false) => forces(node, found.slot),
            None => Ways::Nothing,
        },
        None => Ways::Nothing,
    }
}

/// The receiver of a call. A variable of a regular class isn't forced.
#[tactic(auto, using(crate::proofs::Seen::receives_is))]
pub fn receives<'a>(scope: &Scope<'a>, node: u32, target: &'a Target) -> Ways
    ensures { ways_seen result ≡ receives node (found_at (env_seen scope.now) target.now) (class_found (env_seen scope.now) (found_at (env_seen scope.now) target.now)) }
{
    receives_found(scope.known, node, found_at(scope, target))
}

fn creates_found(node: u32, found: Option<Found>) -> Ways
    ensures { ways_seen result ≡ creates_sight node (option_map found_seen found.entry) }
{
    match found {
        Some(found) => creates_in(node, found),
        None => Ways::Nothing,
    }
}

fn creates_in(node: u32, found: Found) -> Ways
    ensures { ways_seen result ≡ creates_sight node (Some (found_seen found.entry)) }
{
    match found.slot {
        Some(slot) => {
            if found.is_whole {
                only(Event::Settles(slot.number))
            } else {
                only(Event::Forces(node, slot.number))
            }
        }
        None => Ways::Nothing,
    }
}

/// An object is created in what a target stands for. A whole variable isn't forced.
#[tactic(auto, using(crate::proofs::Seen::creates_is))]
pub fn creates<'a>(scope: &Scope<'a>, node: u32, target: &'a Target) -> Ways
    ensures { ways_seen result ≡ create_ways node (found_at (env_seen scope.now) target.now) }
{
    creates_found(node, found_at(scope, target))
}
