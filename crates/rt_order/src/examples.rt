// Outside examples of the orders: trees compute here.
#![tactic(auto, unfolding(rt_tree::specs::PathTree::null, rt_tree::specs::PathTree::of_leaf, rt_tree::specs::PathTree::is_null, rt_tree::specs::PathTree::leaf_at, rt_tree::specs::PathTree::sub, rt_tree::specs::PathTree::put))]

ghost use Rattle.rt_order.specs.laws.Examples.{IntegerKeys, OtherKeys, KeysRise, ValuesByChild};
ghost use Rattle.rt_order.specs.laws.Examples.{ValuesRise, FromFive, PastFive, FromK, PastK, ToK};
ghost use Rattle.rt_order.specs.laws.Examples.{BelowK, OnlyK, CutsRise};

/// Integer keys come first, by number, then by length.
pub fn key_examples()
    ensures integers { IntegerKeys }
    ensures others { OtherKeys }
    ensures rise { KeysRise }
{}

/// Null, false, true, numbers, texts, objects.
pub fn value_examples()
    ensures values { ValuesByChild }
    ensures rise { ValuesRise }
{}

/// Cuts among equal values.
pub fn range_examples()
    ensures start_at { FromFive }
    ensures start_after { PastFive }
    ensures start_at_key { FromK }
    ensures start_after_key { PastK }
    ensures end_at_key { ToK }
    ensures end_before_key { BelowK }
    ensures equal_to_key { OnlyK }
{}

/// Cuts of one value and of several, from below all keys to above them.
pub fn cut_examples()
    ensures rise { CutsRise }
{}
