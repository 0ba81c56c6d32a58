//! The uses of a body that may find a pending or a trapped result.

ghost use Rattle.std.specs.Prelude.{◌≡◌, ◌<◌, ◌+◌, [], ◌∷◌, ℕ, length, IfOk, OnOk};
ghost use Rattle.std.specs.List.{Contains};
ghost use Rattle.mpl_depend.specs.Internal.Bodies.{Adds};
ghost use Rattle.mpl_depend.specs.Internal.Ranks.{value_at};
ghost use Rattle.mpl_depend.specs.Internal.Reached.{Finds, Found, MarksUses};
ghost use Rattle.mpl_depend.specs.Internal.SeenWays.{ways_seen};
ghost use Rattle.mpl_depend.specs.Internal.Walking.{Within};

use crate::ranking::{entry, ranks_of};
use crate::tracing::trace;
use crate::values::{Edge, Use, Values};
use crate::ways::Ways;
use crate::width::places_of;
use mpl_value::NoMemory;
use std::alloc::Global;

/// The uses that are marked on some path through the ways of a body.
pub fn mark_ways(alloc: Global, ways: &Ways, marks: &mut Vec<u32>) -> Result<(), NoMemory>
    ensures { OnOk result (Adds (ways_seen ways.now ∷ []) marks.old.items marks.new.items) }
{
    let places = places_of(ways)?;
    let mut current = vec![in alloc; 0usize; places]?;
    let values = find(alloc, ways, current.as_mut_slice())?;
    mark_values(alloc, &values, marks)?;
    Ok(())
}

/// A body begins with no loose variable.
fn find(alloc: Global, ways: &Ways, current: &mut [usize]) -> Result<Values, NoMemory>
    requires some { 0 < length current.old }
    requires none { (place : ℕ) → value_at current.old place ≡ 0 }
    requires within { Within (length current.old) (ways_seen ways.now) }
    ensures { IfOk result (λ values. Found (ways_seen ways.now) values.count values.edges.items values.uses.items) }
{
    current[0] = 1;
    let mut values = Values {
        count: 2,
        edges: Vec::new(alloc),
        uses: Vec::new(alloc),
    };
    trace(alloc, ways, current, &mut values)?;
    Ok(values)
}

/// The uses of the values that something comes to.
fn mark_values(alloc: Global, values: &Values, marks: &mut Vec<u32>) -> Result<(), NoMemory>
    requires some { 1 < values.now.count }
    requires into { (edge : Edge) → Contains values.now.edges.items edge → edge.into < values.now.count }
    ensures { OnOk result (Finds values.now.count values.now.edges.items values.now.uses.items marks.old.items marks.new.items) }
{
    let ranks = ranks_of(alloc, values.count, values.edges.as_slice())?;
    mark_uses(values.uses.as_slice(), ranks.as_slice(), marks)?;
    Ok(())
}

fn mark_uses(uses: &[Use], ranks: &[usize], marks: &mut Vec<u32>) -> Result<(), NoMemory>
    ensures { OnOk result (MarksUses ranks.now uses.now marks.old.items marks.new.items) }
{
    for one in uses {
        if entry(ranks, one.value) > 0 {
            marks.push(one.node)?;
        }
    }
    Ok(())
}
