// The laws of what queries show.
ghost use Rattle.rt_query.specs.laws.Rows.{RowsRise, RowsLieInRange, RowsAreWithinLimit};
ghost use Rattle.rt_query.specs.laws.Bounding.{
  StartsAt,
  StartsAfter,
  EndsAt,
  EndsBefore,
  Equals,
  ComparesKeys,
};
ghost use Rattle.rt_query.specs.laws.Select.{SelectHasKeysOnce, UnfilteredShowsAll};
ghost use Rattle.rt_query.specs.laws.QueryEq.{EqualityTells};
ghost use Rattle.rt_query.specs.laws.QueryOrder.{QueriesAreOrdered};
ghost use Rattle.rt_query.specs.laws.Ranges.{WiderHasAll, TakesInOnward, TakesInOneWay};
ghost use Rattle.rt_query.specs.laws.Needed.{SuppliesItself, SuppliesOnward, SuppliesOneWay};
ghost use Rattle.rt_query.specs.laws.Needed.{NeededAreFewest};

/// What a query shows: each key once, and where the query is not filtered the whole tree.
pub fn select_laws()
    ensures once { SelectHasKeysOnce }
    ensures whole { UnfilteredShowsAll }
{}

/// The rows that a query shows: they rise in its order, lie in its range, and are no more than its
/// limit.
pub fn row_laws()
    ensures rise { RowsRise }
    ensures in_range { RowsLieInRange }
    ensures within_limit { RowsAreWithinLimit }
{}

/// The tests of equality tell exactly the equal queries, and the equal views.
pub fn equality_laws()
    ensures { EqualityTells }
{}

/// The order of queries is total, and only equal queries tie.
pub fn order_laws()
    ensures { QueriesAreOrdered }
{}

/// What a bound keeps of a range: the entries on its side of what it names.
pub fn bound_laws()
    ensures start_at { StartsAt }
    ensures start_after { StartsAfter }
    ensures end_at { EndsAt }
    ensures end_before { EndsBefore }
    ensures equal_to { Equals }
    ensures keys { ComparesKeys }
{}

/// A range that takes in another has all that this one has, and takes in what this one takes in; of
/// two different queries at most one takes in the other.
pub fn range_laws()
    ensures wider { WiderHasAll }
    ensures onward { TakesInOnward }
    ensures one_way { TakesInOneWay }
{}

/// The three facts of supply on which the fewest listens stand; and that of any forms the needed ones
/// are the fewest that supply all.
pub fn supply_laws()
    ensures itself { SuppliesItself }
    ensures onward { SuppliesOnward }
    ensures one_way { SuppliesOneWay }
    ensures fewest { NeededAreFewest }
{}
