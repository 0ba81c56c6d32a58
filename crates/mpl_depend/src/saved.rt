//! Values that places have, saved while something else stands there.

ghost use Rattle.std.specs.Prelude.{◌≡◌, List, ℕ, length, map, IfOk};
ghost use Rattle.mpl_depend.specs.Internal.Saves.{AreWithin, Restores, saved_of};

use mpl_value::NoMemory;
use std::alloc::Global;

#[derive(Clone, Copy)]
pub struct Saved {
    pub place: usize,
    pub value: usize,
}

/// The same places, with the values that they have now.
pub fn saved_again(
    alloc: Global,
    saved: &[Saved],
    current: &[usize],
) -> Result<Vec<Saved>, NoMemory>
    requires { AreWithin (length current.now) saved.now }
    ensures { IfOk result (λ again. again.items ≡ map (saved_of current.now) saved.now) }
{
    let mut again = Vec::new(alloc);
    for one in saved {
        again.push(Saved {
            place: one.place,
            value: current[one.place],
        })?;
    }
    Ok(again)
}

/// Each place has its saved value again.
pub fn put_back(saved: &[Saved], current: &mut [usize])
    requires { AreWithin (length current.old) saved.now }
    ensures sized { length current.new ≡ length current.old }
    ensures restored { (values : List ℕ) → Restores saved.now current.old values → current.new ≡ values }
{
    for one in saved {
        current[one.place] = one.value;
    }
}
