//! Where ways meet, each variable that may have two values there has a new one.

ghost use Rattle.std.specs.Prelude.{◌≡◌, ◌≤◌, ◌<◌, List, ℕ, length, OnOk, IfOk};
ghost use Rattle.mpl_depend.specs.Internal.Ranks.{Closed, Joins, Merged, Same, value_at};
ghost use Rattle.mpl_depend.specs.Internal.Saves.{AreOf, AreWithin, IsSaved, Opened, Restores};

use crate::saved::{Saved, put_back};
use crate::values::{Edge, Values};
use mpl_value::NoMemory;

/// At the head of a loop, the variables that are written there have new values.
pub fn open(saved: &[Saved], current: &mut [usize], values: &mut Values) -> Result<(), NoMemory>
    requires within { AreWithin (length current.old) saved.now }
    requires of { AreOf current.old saved.now }
    requires below { (place : ℕ) → value_at current.old place < values.old.count }
    ensures opened { OnOk result (Opened saved.now values.old.count values.new.count values.old.edges.items values.new.edges.items current.old current.new) }
    ensures uses { OnOk result (values.new.uses.items ≡ values.old.uses.items) }
{
    let first = values.count;
    for one in saved {
        if current[one.place] < first {
            let into = values.make()?;
            values.add(one.value, into)?;
            current[one.place] = into;
        }
    }
    Ok(())
}

/// Where two ways meet, the variables that differ have new values. What is saved are the values behind the first.
fn merge(saved: &[Saved], current: &mut [usize], values: &mut Values) -> Result<(), NoMemory>
    requires within { AreWithin (length current.old) saved.now }
    requires below { (place : ℕ) → value_at current.old place < values.old.count }
    ensures merged { OnOk result ((left : List ℕ) → Restores saved.now current.old left → ((place : ℕ) → value_at left place < values.old.count) → Merged values.old.count values.new.count values.old.edges.items values.new.edges.items left current.old current.new × Same left current.old current.new) }
    ensures uses { OnOk result (values.new.uses.items ≡ values.old.uses.items) }
{
    let first = values.count;
    for one in saved {
        let value = current[one.place];
        if value < first && value != one.value {
            let into = values.make()?;
            values.add(one.value, into)?;
            values.add(value, into)?;
            current[one.place] = into;
        }
    }
    Ok(())
}

/// What stands behind two ways, where what is saved are the values behind the first. Answers whether a path comes there.
pub fn join(
    first: bool,
    second: bool,
    saved: &[Saved],
    current: &mut [usize],
    values: &mut Values,
) -> Result<bool, NoMemory>
    requires within { AreWithin (length current.old) saved.now }
    requires below { (place : ℕ) → value_at current.old place < values.old.count }
    ensures joined { IfOk result (λ comes. (left : List ℕ) → Restores saved.now current.old left → ((place : ℕ) → value_at left place < values.old.count) → Joins first second comes values.old.count values.new.count values.old.edges.items values.new.edges.items left current.old current.new) }
    ensures uses { OnOk result (values.new.uses.items ≡ values.old.uses.items) }
{
    if !second {
        put_back(saved, current);
        return Ok(first);
    }
    if first {
        merge(saved, current, values)?;
    }
    Ok(true)
}

/// What stands behind a round comes to the head of its loop, whose values are saved.
pub fn close(saved: &[Saved], current: &[usize], values: &mut Values) -> Result<(), NoMemory>
    requires { AreWithin (length current.now) saved.now }
    ensures closed { OnOk result ((head : List ℕ) → Restores saved.now current.now head → Closed values.old.edges.items values.new.edges.items head current.now) }
    ensures uses { OnOk result (values.new.uses.items ≡ values.old.uses.items) }
    ensures count { OnOk result (values.new.count ≡ values.old.count) }
{
    for one in saved {
        let value = current[one.place];
        if value != one.value {
            values.add(value, one.value)?;
        }
    }
    Ok(())
}
