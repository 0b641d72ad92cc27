// Outside examples of what seats are told: trees compute here.
#![tactic(auto, unfolding(rt_tree::specs::PathTree::null, rt_tree::specs::PathTree::of_leaf, rt_tree::specs::PathTree::is_null, rt_tree::specs::PathTree::leaf_at, rt_tree::specs::PathTree::sub, rt_tree::specs::PathTree::put, rt_tree::specs::PathTree::with_children, rt_tree::specs::PathTree::children_alone, rt_tree::specs::PathTree::levels, rt_tree::specs::Children::children_of, rt_tree::specs::TreeEq::tree_eq))]

ghost use Rattle.rt_client.specs.laws.Telling.{FirstIsTold, SecondIsTold, FirstIsKnown};
ghost use Rattle.rt_client.specs.laws.Telling.{SecondIsKnown, RefusedIsNotTold};
ghost use Rattle.rt_client.specs.laws.Telling.{NotUntold, NotHalfTold, NotTheOthers, NotTooEarly};
ghost use Rattle.rt_client.specs.laws.Telling.{FirstIsShown, NotShown};
ghost use Rattle.rt_client.specs.laws.Following.{NotLeftOut, NotFirstLast};

/// What two seats are told of one listener and one write, and what the core knows of them then.
pub fn telling_examples()
    ensures first { FirstIsTold }
    ensures second { SecondIsTold }
    ensures first_known { FirstIsKnown }
    ensures second_known { SecondIsKnown }
    ensures refused { RefusedIsNotTold }
{}

/// A seat is left behind where it is told nothing, where it is not told of a change, where it is told
/// what another is, and where a batch or a settlement comes before the receipt that it is about.
pub fn telling_refutations()
    ensures untold { NotUntold }
    ensures half { NotHalfTold }
    ensures others { NotTheOthers }
    ensures early { NotTooEarly }
{}

/// What snapshots show of the first seat's listener, by what it is told and by the core; and tellings after
/// which they would not.
pub fn showing_examples()
    ensures first { FirstIsShown }
    ensures refuted { NotShown }
{}

/// A mirror loses its lane where it leaves out an item that the seat took from its ring, or takes the
/// first one last.
pub fn following_refutations()
    ensures left_out { NotLeftOut }
    ensures first_last { NotFirstLast }
{}
