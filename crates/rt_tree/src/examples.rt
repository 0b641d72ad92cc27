//! Examples that the prover computes: trees are opened here, and nowhere else.
#![tactic(auto, unfolding(crate::specs::Trees::null, crate::specs::Trees::of_leaf, crate::specs::Trees::is_null, crate::specs::Trees::leaf_at, crate::specs::Trees::sub, crate::specs::Trees::put, crate::specs::Trees::levels, crate::specs::Trees::children_of))]

ghost use Rattle.rt_tree.specs.laws.JsonExamples.{TextsAreRead, ValuesAreCounted, TextsAreRefused};
ghost use Rattle.rt_tree.specs.laws.JsonExamples.{FaultsComeInOrder};
ghost use Rattle.rt_tree.specs.laws.Examples.{EmptyPiecesDrop, KeysHaveFaults, FirstFaultCounts};
ghost use Rattle.rt_tree.specs.laws.Examples.{PrefixesAreAtOrAbove, LeafStaysUnderNull, EmptyObjectsGo};
ghost use Rattle.rt_tree.specs.laws.Examples.{PutReplaces, ChildrenInOrder, LastChildCounts};
ghost use Rattle.rt_tree.specs.laws.Examples.{LevelsCount};

/// Empty pieces of a path's text drop, and a slash stands before each key that is printed.
pub fn empty_pieces_drop()
    ensures { EmptyPiecesDrop }
{}

/// A key has 1 to 768 bytes, and none of the refused characters.
pub fn keys_have_faults()
    ensures { KeysHaveFaults }
{}

/// A path's text is refused by its first fault.
pub fn first_fault_counts()
    ensures { FirstFaultCounts }
{}

/// A path is a prefix of itself and of what lies under it.
pub fn prefixes_are_at_or_above()
    ensures { PrefixesAreAtOrAbove }
{}

/// Null under a leaf leaves the leaf; another tree makes it an object.
pub fn leaf_stays_under_null()
    ensures { LeafStaysUnderNull }
{}

/// An object that loses its last child is null, all the way up.
pub fn empty_objects_go()
    ensures { EmptyObjectsGo }
{}

/// What is put takes the place of all that stood there.
pub fn put_replaces()
    ensures { PutReplaces }
{}

/// Children stand in the order of their keys' bytes.
pub fn children_in_order()
    ensures { ChildrenInOrder }
{}

/// Of children in turn the last at a key counts, null too.
pub fn last_child_counts()
    ensures { LastChildCounts }
{}

/// A leaf has one level, and each key above it one more.
pub fn levels_count()
    ensures { LevelsCount }
{}

/// The elements of an array have their places as keys, nulls drop, and an empty object is null.
pub fn texts_are_read()
    ensures { TextsAreRead }
{}

/// An object counts as a value, and so does each child.
pub fn values_are_counted()
    ensures { ValuesAreCounted }
{}

/// Fractions, large numbers, bad keys and what is no JSON are refused.
pub fn texts_are_refused()
    ensures { TextsAreRefused }
{}

/// Of several faults the first on the walk is answered.
pub fn faults_come_in_order()
    ensures { FaultsComeInOrder }
{}
