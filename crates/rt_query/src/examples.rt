// Outside examples of what queries show: trees compute here.
#![tactic(auto, unfolding(rt_tree::specs::PathTree::null, rt_tree::specs::PathTree::of_leaf, rt_tree::specs::PathTree::is_null, rt_tree::specs::PathTree::leaf_at, rt_tree::specs::PathTree::sub, rt_tree::specs::PathTree::put, rt_tree::specs::Children::children_of))]

ghost use Rattle.rt_query.specs.laws.Examples.{ByChild, StartsAtValue, StartsAfterValue};
ghost use Rattle.rt_query.specs.laws.Examples.{StartsAtKey, StartsAfterKey, EndsAtKey};
ghost use Rattle.rt_query.specs.laws.Examples.{EndsBeforeKey, EqualsKey, LastTwo, FirstTwo};
ghost use Rattle.rt_query.specs.laws.Examples.{StartsAtText, GivenTwice, BoundTwice, BadlyNamed};
ghost use Rattle.rt_query.specs.laws.Examples.{TakenIn, NotTakenIn};
ghost use Rattle.rt_query.specs.laws.Examples.{Supplied, NotSupplied, RangeSupplies, LastTwoNeeded};

/// By a child: null, false, true, numbers, texts, objects.
pub fn order_examples()
    ensures { ByChild }
{}

/// Bounds and limits among equal values.
pub fn bound_examples()
    ensures start_at { StartsAtValue }
    ensures start_after { StartsAfterValue }
    ensures start_at_key { StartsAtKey }
    ensures start_after_key { StartsAfterKey }
    ensures end_at_key { EndsAtKey }
    ensures end_before_key { EndsBeforeKey }
    ensures equal_to_key { EqualsKey }
    ensures last { LastTwo }
    ensures first { FirstTwo }
    ensures start_at_text { StartsAtText }
{}

/// Refused calls on drafts.
pub fn refusal_examples()
    ensures given_twice { GivenTwice }
    ensures bound_twice { BoundTwice }
    ensures badly_named { BadlyNamed }
{}

/// Ranges that take in others, and some that don't.
pub fn range_examples()
    ensures taken { TakenIn }
    ensures not_taken { NotTakenIn }
{}

/// Queries that supply others, some that don't, and which of four are needed.
pub fn supply_examples()
    ensures supplied { Supplied }
    ensures not_supplied { NotSupplied }
    ensures ranges { RangeSupplies }
    ensures needed { LastTwoNeeded }
{}
