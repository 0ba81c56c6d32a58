ghost use Rattle.std.specs.Prelude.{◌≡◌, map, IfOk};
ghost use Rattle.mpl_mean.specs.Pending.Paths.{Then, Either, Loop, Only};
ghost use Rattle.mpl_depend.specs.Internal.SeenWays.{all_seen, event_seen, ways_seen};

use crate::ways::{Event, Ways};
use mpl_value::NoMemory;
use sqlite_items::{Boxed, Items};
use std::alloc::Global;

/// The one and then the other.
pub fn then(alloc: Global, first: Ways, second: Ways) -> Result<Ways, NoMemory>
    ensures { IfOk result (λ ways. ways_seen ways ≡ Then (ways_seen first) (ways_seen second)) }
{
    Ok(Ways::Then(Boxed::new(alloc, first)?, Boxed::new(alloc, second)?))
}

pub fn either(alloc: Global, one: Ways, other: Ways) -> Result<Ways, NoMemory>
    ensures { IfOk result (λ ways. ways_seen ways ≡ Either (ways_seen one) (ways_seen other)) }
{
    Ok(Ways::Either(Boxed::new(alloc, one)?, Boxed::new(alloc, other)?))
}

pub fn repeated(alloc: Global, test: Ways, body: Ways) -> Result<Ways, NoMemory>
    ensures { IfOk result (λ ways. ways_seen ways ≡ Loop (ways_seen test) (ways_seen body)) }
{
    Ok(Ways::Loop(Boxed::new(alloc, test)?, Boxed::new(alloc, body)?))
}

/// One after another.
pub fn all(list: Vec<Ways>) -> Ways
    ensures { ways_seen result ≡ all_seen (map ways_seen list.items) }
{
    Ways::All(Items::from_vec(list))
}

pub fn only(event: Event) -> Ways
    ensures { ways_seen result ≡ Only (event_seen event) }
{
    Ways::Only(event)
}
