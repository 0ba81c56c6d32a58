//! The values of the places that ways write.

ghost use Rattle.std.specs.Prelude.{◌≡◌, ◌<◌, ◌+◌, ℕ, length, map, IfOk, OnOk};
ghost use Rattle.mpl_mean.specs.Pending.Paths.{Then, Only};
ghost use Rattle.mpl_depend.specs.Internal.Ranks.{place_of, value_at};
ghost use Rattle.mpl_depend.specs.Internal.Saves.{Saves, SavesMore, SavesPlace};
ghost use Rattle.mpl_depend.specs.Internal.SeenWays.{all_seen, event_seen, ways_seen};
ghost use Rattle.mpl_depend.specs.Internal.Walking.{EventWithin, Within};

use crate::saved::{Saved, put_back};
use crate::ways::{Event, Ways};
use mpl_value::NoMemory;
use std::alloc::Global;

/// The values of the places that two ways write, once each. The mark stands for no value.
pub fn save_written(
    alloc: Global,
    one: &Ways,
    other: &Ways,
    mark: usize,
    current: &mut [usize],
) -> Result<Vec<Saved>, NoMemory>
    requires within { Within (length current.old) (Then (ways_seen one.now) (ways_seen other.now)) }
    requires below { (place : ℕ) → value_at current.old place < mark }
    ensures same { OnOk result (current.new ≡ current.old) }
    ensures saved { IfOk result (λ saved. Saves (Then (ways_seen one.now) (ways_seen other.now)) current.old saved.items) }
{
    let mut saved = Vec::new(alloc);
    save_both(one, other, mark, current, &mut saved)?;
    put_back(saved.as_slice(), current);
    Ok(saved)
}

#[cycle(save)]
#[tactic(auto, using(crate::proofs::Savings::saves_nothing, crate::proofs::Savings::saves_stop, crate::proofs::Savings::saves_either, crate::proofs::Savings::saves_loop, crate::proofs::Savings::saves_only))]
fn save(
    ways: &Ways,
    mark: usize,
    current: &mut [usize],
    saved: &mut Vec<Saved>,
) -> Result<(), NoMemory>
    requires { Within (length current.old) (ways_seen ways.now) }
    ensures sized { OnOk result (length current.new ≡ length current.old) }
    ensures saved { OnOk result (SavesMore (ways_seen ways.now) mark current.old current.new saved.old.items saved.new.items) }
{
    match ways {
        Ways::Nothing => Ok(()),
        Ways::Only(event) => save_place(written(*event), mark, current, saved),
        Ways::Then(first, second) => save_both(first.get(), second.get(), mark, current, saved),
        Ways::All(list) => save_all(list.as_slice(), mark, current, saved),
        Ways::Either(one, other) => save_both(one.get(), other.get(), mark, current, saved),
        Ways::Loop(test, body) => save_both(test.get(), body.get(), mark, current, saved),
        Ways::Stop => Ok(()),
    }
}

/// The place that an event writes.
fn written(event: Event) -> usize
    requires { place_of (event_seen event) < 18446744073709551616 }
    ensures { result ≡ place_of (event_seen event) }
{
    match event {
        Event::Loosens(variable) => variable + 1,
        Event::Settles(variable) => variable + 1,
        Event::Copies(into, _) => into + 1,
        Event::Forces(_, variable) => variable + 1,
    }
}

/// The value of a place, if it isn't saved yet.
#[tactic(auto, using(crate::proofs::Savings::saves_again))]
fn save_place(
    place: usize,
    mark: usize,
    current: &mut [usize],
    saved: &mut Vec<Saved>,
) -> Result<(), NoMemory>
    requires { place < length current.old }
    ensures sized { OnOk result (length current.new ≡ length current.old) }
    ensures saved { OnOk result (SavesPlace place mark current.old current.new saved.old.items saved.new.items) }
{
    let value = current[place];
    if value != mark {
        saved.push(Saved { place, value })?;
        current[place] = mark;
    }
    Ok(())
}

#[cycle(save)]
#[tactic(auto, using(crate::proofs::Savings::saves_then))]
fn save_both(
    first: &Ways,
    second: &Ways,
    mark: usize,
    current: &mut [usize],
    saved: &mut Vec<Saved>,
) -> Result<(), NoMemory>
    requires { Within (length current.old) (Then (ways_seen first.now) (ways_seen second.now)) }
    ensures sized { OnOk result (length current.new ≡ length current.old) }
    ensures saved { OnOk result (SavesMore (Then (ways_seen first.now) (ways_seen second.now)) mark current.old current.new saved.old.items saved.new.items) }
{
    save(first, mark, current, saved)?;
    save(second, mark, current, saved)?;
    Ok(())
}

#[cycle(save)]
fn save_all(
    list: &[Ways],
    mark: usize,
    current: &mut [usize],
    saved: &mut Vec<Saved>,
) -> Result<(), NoMemory>
    requires { Within (length current.old) (all_seen (map ways_seen list.now)) }
    ensures sized { OnOk result (length current.new ≡ length current.old) }
    ensures saved { OnOk result (SavesMore (all_seen (map ways_seen list.now)) mark current.old current.new saved.old.items saved.new.items) }
{
    for ways in list {
        save(ways, mark, current, saved)?;
    }
    Ok(())
}
