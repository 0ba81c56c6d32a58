ghost use Rattle.std.specs.Prelude.{◌≤◌, ◌<◌, map, IfOk};
ghost use Rattle.mpl_mean.specs.Pending.Paths.{Only};
ghost use Rattle.mpl_depend.specs.Internal.SeenWays.{all_seen, event_seen, ways_seen};
ghost use Rattle.mpl_depend.specs.Internal.Walking.{Spans, Within};

use crate::ways::{Event, Ways};
use mpl_value::NoMemory;

/// How many places there are: one for whether a path comes, and one for each variable that the ways may speak of.
pub fn places_of(ways: &Ways) -> Result<usize, NoMemory>
    ensures some { IfOk result (λ places. 0 < places) }
    ensures within { IfOk result (λ places. Within places (ways_seen ways.now)) }
{
    let variables = width(ways)?;
    let places = above(variables)?;
    Ok(places)
}

/// A number above those of all variables.
#[cycle(width)]
#[tactic(auto, using(crate::proofs::Widths::spans_nothing, crate::proofs::Widths::spans_stop))]
fn width(ways: &Ways) -> Result<usize, NoMemory>
    ensures { IfOk result (λ count. Spans count (ways_seen ways.now)) }
{
    match ways {
        Ways::Nothing => Ok(0),
        Ways::Only(event) => width_of_event(*event),
        Ways::Then(first, second) => {
            let one = width(first.get())?;
            let other = width(second.get())?;
            Ok(greater(one, other))
        }
        Ways::All(list) => width_of_all(list.as_slice()),
        Ways::Either(first, second) => {
            let one = width(first.get())?;
            let other = width(second.get())?;
            Ok(greater(one, other))
        }
        Ways::Loop(test, body) => {
            let one = width(test.get())?;
            let other = width(body.get())?;
            Ok(greater(one, other))
        }
        Ways::Stop => Ok(0),
    }
}

#[cycle(width)]
fn width_of_all(list: &[Ways]) -> Result<usize, NoMemory>
    ensures { IfOk result (λ count. Spans count (all_seen (map ways_seen list.now))) }
{
    let mut count = 0;
    for ways in list {
        count = greater(count, width(ways)?);
    }
    Ok(count)
}

#[tactic(auto, using(crate::proofs::Widths::spans_loosens, crate::proofs::Widths::spans_settles, crate::proofs::Widths::spans_copies, crate::proofs::Widths::spans_forces))]
fn width_of_event(event: Event) -> Result<usize, NoMemory>
    ensures { IfOk result (λ count. Spans count (Only (event_seen event))) }
{
    match event {
        Event::Loosens(variable) => {
            let count = above(variable)?;
            Ok(count)
        }
        Event::Settles(variable) => {
            let count = above(variable)?;
            Ok(count)
        }
        Event::Copies(into, from) => {
            let one = above(into)?;
            let other = above(from)?;
            Ok(greater(one, other))
        }
        Event::Forces(_, variable) => {
            let count = above(variable)?;
            Ok(count)
        }
    }
}

fn above(variable: usize) -> Result<usize, NoMemory>
    ensures { IfOk result (λ count. variable < count) }
{
    match variable.checked_add(1) {
        Some(count) => Ok(count),
        None => Err(NoMemory),
    }
}

fn greater(a: usize, b: usize) -> usize
    ensures left { a ≤ result }
    ensures right { b ≤ result }
{
    if a < b { b } else { a }
}
