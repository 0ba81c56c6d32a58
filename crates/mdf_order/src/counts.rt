ghost use Rattle.std.specs.Prelude.{◌≡◌, ◌+◌, ◌-◌, ◌^◌, ◌<◌, [], ◌∷◌, ◌++◌, length, OnOk, OnErr, IfOk, slice_index, slice_set, take};
ghost use Rattle.std.specs.List.{sum};
ghost use Rattle.mdf_order.specs.Internal.Spots.{IsSpot};

use crate::spot::{Spot, spot_from};
use mpl_value::NoMemory;
use std::alloc::Global;
use std::marker::Model;

/// How many items a block of a row has.
pub const BLOCK: usize = 16;

/// A row of numbers, seen as their list. Above a row of more than one block stands the row of the sums of its blocks. So
/// a change goes to one number of each row, and the spot of a place is found by one block of each.
#[derive(Drop)]
pub struct Counts {
    numbers: Vec<u32>,
    above: Option<Box<Counts>>,
}

impl Model for Counts {
    ghost use Rattle.std.specs.Prelude.{List, ℕ, length};

    ghost Value = { List ℕ };

    ghost use Rattle.mdf_order.specs.Internal.Above.{IsAbove};

    ghost view = { λ c. c.numbers.items };

    ghost invariant = { λ c. IsAbove c.numbers.items c.above };

    ghost size = { length };

    ghost use Rattle.mdf_order.specs.Internal.Shorter.{deep-le-length};

    ghost size_decreases = { λ c above. deep-le-length c.numbers c.above above };
}

impl Counts {
    /// No number. It takes no memory.
    pub fn new(alloc: Global) -> Counts
        ensures { result ≡ [] }
    {
        Counts {
            numbers: Vec::new(alloc),
            above: None,
        }
    }

    /// One more number, which is 0.
    pub fn push(&mut self, alloc: Global) -> Result<(), NoMemory>
        requires { sum self.old < 2 ^ 32 }
        ensures ok { OnOk result (self.new ≡ self.old ++ 0 ∷ []) }
        ensures err { OnErr result (self.new ≡ self.old) }
    {
        self.numbers.reserve(1)?;
        match &mut self.above {
            Some(above) => {
                if self.numbers.len() % BLOCK == 0 {
                    above.push(alloc)?;
                }
            }
            None => {
                if self.numbers.len() == BLOCK {
                    self.above = Some(above_block(alloc, &self.numbers)?);
                }
            }
        }
        self.numbers.push_reserved(0);
        Ok(())
    }

    /// Takes the last number out, which is 0.
    pub fn pop(&mut self)
        requires some { 0 < length self.old }
        requires none { slice_index self.old (length self.old - 1) ≡ 0 }
        ensures { self.new ≡ take (length self.old - 1) self.old }
    {
        self.numbers.pop();
        if self.numbers.len() <= BLOCK {
            self.above = None;
        } else if self.numbers.len() % BLOCK == 0 {
            if let Some(above) = &mut self.above {
                above.pop();
            }
        }
    }

    /// One more for a number.
    pub fn raise(&mut self, at: usize)
        requires there { at < length self.old }
        requires fits { sum self.old < 2 ^ 32 - 1 }
        ensures { self.new ≡ slice_set self.old at (slice_index self.old at + 1) }
    {
        self.numbers[at] += 1;
        if let Some(above) = &mut self.above {
            above.raise(at / BLOCK);
        }
    }

    /// One less for a number.
    pub fn lower(&mut self, at: usize)
        requires { 0 < slice_index self.old at }
        ensures { self.new ≡ slice_set self.old at (slice_index self.old at - 1) }
    {
        self.numbers[at] -= 1;
        if let Some(above) = &mut self.above {
            above.lower(at / BLOCK);
        }
    }

    /// Where a place falls, if each number stands for so many places.
    pub fn spot(&self, place: u32) -> Spot
        requires { place < sum self.now }
        ensures { IsSpot (λ number. number) self.now place result }
    {
        match &self.above {
            Some(above) => {
                let block = above.spot(place);
                spot_from(&self.numbers, BLOCK * block.item, block.place)
            }
            None => spot_from(&self.numbers, 0, place),
        }
    }
}

/// The row above a whole block and one that is still empty.
fn above_block(alloc: Global, numbers: &[u32]) -> Result<Box<Counts>, NoMemory>
    requires whole { length numbers.now ≡ BLOCK }
    requires fits { sum numbers.now < 2 ^ 32 }
    ensures { IfOk result (λ above. above.value ≡ sum numbers.now ∷ 0 ∷ []) }
{
    let mut above = Counts::new(alloc);
    above.numbers.reserve(2)?;
    above.numbers.push_reserved(numbers.iter().sum());
    above.numbers.push_reserved(0);
    Ok(Box::new(alloc, above)?)
}
