// Outside examples of lanes, mirrors and snapshots: runs that the prover computes, and runs that are none.
#![tactic(auto, unfolding(rt_tree::specs::PathTree::null, rt_tree::specs::PathTree::of_leaf))]

ghost use Rattle.rt_mail.specs.laws.Examples.{SecondWaits, SecondComes, ReceiptIsLast};
ghost use Rattle.rt_mail.specs.laws.Examples.{NotOtherwise, NotTwice, CancelledGoes, SettledGoes};
ghost use Rattle.rt_mail.specs.laws.Examples.{ListenedStays, BatchIsPlayed};
ghost use Rattle.rt_mail.specs.laws.SnapshotExamples.{KnowsInTurn, KnowsItsOwn};

/// What has no room waits, and comes once there is; a receipt comes behind what waits.
pub fn lane_examples()
    ensures waits { SecondWaits }
    ensures comes { SecondComes }
    ensures receipt { ReceiptIsLast }
{}

/// No lane hands over nothing, drops what has no room, changes the order, or hands over twice.
pub fn lane_refutations()
    ensures otherwise { NotOtherwise }
    ensures twice { NotTwice }
{}

/// A listener goes when it is cancelled, a request when it is settled, and neither by the other's
/// item; a batch is played over its own listener, and a receipt clears none that is there.
pub fn mirror_examples()
    ensures cancelled { CancelledGoes }
    ensures settled { SettledGoes }
    ensures listened { ListenedStays }
    ensures batch { BatchIsPlayed }
{}

/// What is known of a listener: nothing, then that nothing is there, then a leaf, by its own batches alone;
/// and once it has ended it is gone.
pub fn snapshot_examples()
    ensures turn { KnowsInTurn }
    ensures own { KnowsItsOwn }
{}
