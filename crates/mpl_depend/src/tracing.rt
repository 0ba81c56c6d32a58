//! A walk along ways in one pass, with the value that each variable has.

ghost use Rattle.std.specs.Prelude.{◌≡◌, ◌+◌, ℕ, length, map, true, IfOk, OnOk};
ghost use Rattle.mpl_mean.specs.Pending.Paths.{Then, Either, Loop};
ghost use Rattle.mpl_depend.specs.Internal.Ranks.{Round, Stands, Traced, added, value_at, values_on};
ghost use Rattle.mpl_depend.specs.Internal.Saves.{AreWithin, EndsAt, Saves};
ghost use Rattle.mpl_depend.specs.Internal.SeenWays.{all_seen, event_seen, ways_seen};
ghost use Rattle.mpl_depend.specs.Internal.Walking.{EventWithin, Within};

use crate::merging::{close, join, open};
use crate::saved::{Saved, put_back, saved_again};
use crate::values::{Use, Values};
use crate::ways::{Event, Ways};
use crate::writing::save_written;
use mpl_value::NoMemory;
use std::alloc::Global;

/// Walks along ways, and answers whether a path comes behind them.
#[cycle(trace)]
pub fn trace(
    alloc: Global,
    ways: &Ways,
    current: &mut [usize],
    values: &mut Values,
) -> Result<bool, NoMemory>
    requires { Stands (ways_seen ways.now) values.old.count values.old.edges.items current.old }
    ensures { IfOk result (λ comes. Traced (ways_seen ways.now) comes values.old.count values.new.count values.old.edges.items values.new.edges.items values.old.uses.items values.new.uses.items current.old current.new) }
{
    match ways {
        Ways::Nothing => Ok(true),
        Ways::Only(event) => {
            note(*event, &*current, values)?;
            follow(*event, current);
            Ok(true)
        }
        Ways::Then(first, second) => {
            trace_then(alloc, first.get(), second.get(), current, values)
        }
        Ways::All(list) => trace_all(alloc, list.as_slice(), current, values),
        Ways::Either(one, other) => trace_either(alloc, one.get(), other.get(), current, values),
        Ways::Loop(test, body) => trace_loop(alloc, test.get(), body.get(), current, values),
        Ways::Stop => Ok(false),
    }
}

/// A use has the value of its variable.
fn note(event: Event, current: &[usize], values: &mut Values) -> Result<(), NoMemory>
    requires { EventWithin (length current.now) (event_seen event) }
    ensures uses { OnOk result (values.new.uses.items ≡ added (event_seen event) (value_at current.now) values.old.uses.items) }
    ensures edges { OnOk result (values.new.edges.items ≡ values.old.edges.items) }
    ensures count { OnOk result (values.new.count ≡ values.old.count) }
{
    match event {
        Event::Forces(node, variable) => {
            values.uses.push(Use {
                node,
                value: current[variable + 1],
            })?;
            Ok(())
        }
        Event::Loosens(_) => Ok(()),
        Event::Settles(_) => Ok(()),
        Event::Copies(..) => Ok(()),
    }
}

/// What an event makes of the values. At place 0 stands that of a call's result.
fn follow(event: Event, current: &mut [usize])
    requires { EventWithin (length current.old) (event_seen event) }
    ensures sized { length current.new ≡ length current.old }
    ensures set { (n : ℕ) → value_at current.new n ≡ values_on (event_seen event) (value_at current.old) n }
{
    match event {
        Event::Loosens(variable) => current[variable + 1] = current[0],
        Event::Settles(variable) => current[variable + 1] = 0,
        Event::Copies(into, from) => current[into + 1] = current[from + 1],
        Event::Forces(_, variable) => current[variable + 1] = 0,
    }
}

#[cycle(trace)]
fn trace_then(
    alloc: Global,
    first: &Ways,
    second: &Ways,
    current: &mut [usize],
    values: &mut Values,
) -> Result<bool, NoMemory>
    requires { Stands (Then (ways_seen first.now) (ways_seen second.now)) values.old.count values.old.edges.items current.old }
    ensures { IfOk result (λ comes. Traced (Then (ways_seen first.now) (ways_seen second.now)) comes values.old.count values.new.count values.old.edges.items values.new.edges.items values.old.uses.items values.new.uses.items current.old current.new) }
{
    let comes = trace(alloc, first, current, values)?;
    if !comes {
        return Ok(false);
    }
    let behind = trace(alloc, second, current, values)?;
    Ok(behind)
}

#[cycle(trace)]
fn trace_all(
    alloc: Global,
    list: &[Ways],
    current: &mut [usize],
    values: &mut Values,
) -> Result<bool, NoMemory>
    requires { Stands (all_seen (map ways_seen list.now)) values.old.count values.old.edges.items current.old }
    ensures { IfOk result (λ comes. Traced (all_seen (map ways_seen list.now)) comes values.old.count values.new.count values.old.edges.items values.new.edges.items values.old.uses.items values.new.uses.items current.old current.new) }
{
    for ways in list {
        let comes = trace(alloc, ways, current, values)?;
        if !comes {
            return Ok(false);
        }
    }
    Ok(true)
}

/// The second way begins with what stood before the first.
#[cycle(trace)]
fn trace_either(
    alloc: Global,
    one: &Ways,
    other: &Ways,
    current: &mut [usize],
    values: &mut Values,
) -> Result<bool, NoMemory>
    requires { Stands (Either (ways_seen one.now) (ways_seen other.now)) values.old.count values.old.edges.items current.old }
    ensures { IfOk result (λ comes. Traced (Either (ways_seen one.now) (ways_seen other.now)) comes values.old.count values.new.count values.old.edges.items values.new.edges.items values.old.uses.items values.new.uses.items current.old current.new) }
{
    let saved = save_written(alloc, one, other, values.count, current)?;
    let both = trace_both(alloc, one, other, saved.as_slice(), current, values)?;
    Ok(both)
}

#[cycle(trace)]
fn trace_both(
    alloc: Global,
    one: &Ways,
    other: &Ways,
    saved: &[Saved],
    current: &mut [usize],
    values: &mut Values,
) -> Result<bool, NoMemory>
    requires saved { Saves (Then (ways_seen one.now) (ways_seen other.now)) current.old saved.now }
    requires stands { Stands (Either (ways_seen one.now) (ways_seen other.now)) values.old.count values.old.edges.items current.old }
    ensures { IfOk result (λ comes. Traced (Either (ways_seen one.now) (ways_seen other.now)) comes values.old.count values.new.count values.old.edges.items values.new.edges.items values.old.uses.items values.new.uses.items current.old current.new) }
{
    let first = trace(alloc, one, current, values)?;
    let left = saved_again(alloc, saved, &*current)?;
    put_back(saved, current);
    let second = trace(alloc, other, current, values)?;
    let comes = join(first, second, left.as_slice(), current, values)?;
    Ok(comes)
}

#[cycle(trace)]
fn trace_loop(
    alloc: Global,
    test: &Ways,
    body: &Ways,
    current: &mut [usize],
    values: &mut Values,
) -> Result<bool, NoMemory>
    requires { Stands (Loop (ways_seen test.now) (ways_seen body.now)) values.old.count values.old.edges.items current.old }
    ensures { IfOk result (λ comes. Traced (Loop (ways_seen test.now) (ways_seen body.now)) comes values.old.count values.new.count values.old.edges.items values.new.edges.items values.old.uses.items values.new.uses.items current.old current.new) }
{
    let saved = save_written(alloc, test, body, values.count, current)?;
    open(saved.as_slice(), current, values)?;
    let head = saved_again(alloc, saved.as_slice(), &*current)?;
    let comes = trace_round(alloc, test, body, head.as_slice(), current, values)?;
    Ok(comes)
}

/// The test, behind which the loop is left, and then the body, behind which all comes to the head.
#[cycle(trace)]
fn trace_round(
    alloc: Global,
    test: &Ways,
    body: &Ways,
    head: &[Saved],
    current: &mut [usize],
    values: &mut Values,
) -> Result<bool, NoMemory>
    requires head { Saves (Then (ways_seen test.now) (ways_seen body.now)) current.old head.now }
    requires stands { Stands (Loop (ways_seen test.now) (ways_seen body.now)) values.old.count values.old.edges.items current.old }
    ensures { IfOk result (λ comes. Round (ways_seen test.now) (ways_seen body.now) comes values.old.count values.new.count values.old.edges.items values.new.edges.items values.old.uses.items values.new.uses.items current.old current.new) }
{
    let comes = trace(alloc, test, current, values)?;
    if !comes {
        return Ok(false);
    }
    let left = saved_again(alloc, head, &*current)?;
    trace_body(alloc, body, head, current, values)?;
    put_back(left.as_slice(), current);
    Ok(true)
}

#[cycle(trace)]
fn trace_body(
    alloc: Global,
    body: &Ways,
    head: &[Saved],
    current: &mut [usize],
    values: &mut Values,
) -> Result<(), NoMemory>
    requires head { AreWithin (length current.old) head.now }
    requires stands { Stands (ways_seen body.now) values.old.count values.old.edges.items current.old }
    ensures { OnOk result (EndsAt (ways_seen body.now) values.old.count values.new.count values.old.edges.items values.new.edges.items values.old.uses.items values.new.uses.items head.now current.old current.new) }
{
    let comes = trace(alloc, body, current, values)?;
    if comes {
        close(head, &*current, values)?;
    }
    Ok(())
}
