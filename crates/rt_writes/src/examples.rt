//! Examples that the prover computes: trees are opened here, and nowhere else.
#![tactic(auto, unfolding(rt_tree::specs::PathTree::null, rt_tree::specs::PathTree::of_leaf, rt_tree::specs::PathTree::is_null, rt_tree::specs::PathTree::leaf_at, rt_tree::specs::PathTree::sub, rt_tree::specs::PathTree::put))]

ghost use Rattle.rt_writes.specs.laws.Examples.{ParentHides, ChildShows, ThreeSetsTwoRefused};
ghost use Rattle.rt_writes.specs.laws.Examples.{UnderLeaf};
ghost use Rattle.rt_writes.specs.laws.Examples.{PartOfEntry};

/// A child is set, and then its parent, which is refused.
pub fn child_then_parent()
    ensures both { ParentHides }
    ensures child { ChildShows }
{}

/// A path is set three times, and two of the sets are refused.
pub fn three_sets_two_refused()
    ensures { ThreeSetsTwoRefused }
{}

/// Children are set under a leaf, and one of them is refused.
pub fn under_leaf()
    ensures { UnderLeaf }
{}

/// An entry above a path gives its part, and one beside it does nothing.
pub fn part_of_entry()
    ensures { PartOfEntry }
{}
