ghost use Rattle.mdf_order.specs.Ranks.{SerialsRise, MarkedAreIn, EachStandsAtItsRank, AddedIsOut, InsertedAtItsRank, RemovedFromItsRank};

/// The serials that are in are those that are marked, each at the place that is its rank. One that comes in or goes
/// leaves the others in their order.
pub fn serials_are_in_order()
    ensures rising { SerialsRise }
    ensures marked { MarkedAreIn }
    ensures ranked { EachStandsAtItsRank }
    ensures added { AddedIsOut }
    ensures inserted { InsertedAtItsRank }
    ensures removed { RemovedFromItsRank }
{}
