ghost use Rattle.std.specs.Prelude.{◌≡◌, ℕ, ◌+◌, ◌<◌, take, drop};
ghost use Rattle.std.specs.List.{sum_by};
ghost use Rattle.mdf_order.specs.Internal.Marks.{mark_count};
ghost use Rattle.mdf_order.specs.Internal.Spots.{IsSpot};

/// How many serials an item of a row stands for.
pub trait Counted {
    ghost count: { Self → ℕ };

    fn count(&self) -> u32
        ensures { result ≡ count self.now };
}

impl Counted for bool {
    ghost count = { mark_count };

    fn count(&self) -> u32 {
        if *self { 1 } else { 0 }
    }
}

impl Counted for u32 {
    ghost count = { λ number. number };

    fn count(&self) -> u32 {
        *self
    }
}

/// An item of a row, and the place among the serials that it stands for.
#[derive(Clone, Copy)]
pub struct Spot {
    pub item: usize,
    pub place: u32,
}

/// The spot of a place that is counted from an item on.
pub fn spot_from<T: Counted>(row: &[T], from: usize, place: u32) -> Spot
    requires { place < sum_by T.count (drop from row.now) }
    ensures { IsSpot T.count row.now (sum_by T.count (take from row.now) + place) result }
{
    let mut left = place;
    for item in from..row.len() {
        let count = row[item].count();
        if left < count {
            return Spot { item, place: left };
        }
        left -= count;
    }
    unreachable!()
}
