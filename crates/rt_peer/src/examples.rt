// Outside examples of what a peer sends: trees compute here.
#![tactic(auto, unfolding(rt_tree::specs::PathTree::null, rt_tree::specs::PathTree::of_leaf, rt_tree::specs::PathTree::is_null, rt_tree::specs::PathTree::leaf_at, rt_tree::specs::PathTree::sub, rt_tree::specs::PathTree::put, rt_tree::specs::PathTree::with_children, rt_tree::specs::PathTree::children_alone, rt_tree::specs::PathTree::levels, rt_tree::specs::Children::children_of, rt_tree::specs::TreeEq::tree_eq))]

ghost use Rattle.rt_peer.specs.laws.Examples.{RowIsSent, RowLeaves, RowDoesSomething};
ghost use Rattle.rt_peer.specs.laws.Examples.{RowDoesNoMore, WriterIsNotTold, NumberIsFreeAgain};
ghost use Rattle.rt_peer.specs.laws.Examples.{PushesParts, VersionsCount, OlderGetsNoParts};
ghost use Rattle.rt_peer.specs.laws.Examples.{NewerGetsParts, PartsStayInOrder, SingleStays};
ghost use Rattle.rt_peer.specs.laws.Examples.{TurnsAreSent, TurnsDoNoMore, TurnsLeave, WritesStayApart};
ghost use Rattle.rt_peer.specs.laws.Orders.{ActionsMayTie, BusyIsSorted, NoListenIsLeft};
ghost use Rattle.rt_peer.specs.laws.Orders.{NumbersMayHaveGaps};
ghost use Rattle.rt_peer.specs.laws.Versions.{SomeAreOlder, VersionsMayFall};

/// What two connections are sent, one that listens and one that writes.
pub fn sent_examples()
    ensures row { RowIsSent }
    ensures writer { WriterIsNotTold }
    ensures again { NumberIsFreeAgain }
{}

/// What a connection that reads version 2 is sent, and which connections do.
pub fn peer_pushes_parts()
    ensures parts { PushesParts }
    ensures versions { VersionsCount }
    ensures older { OlderGetsNoParts }
{}

/// What does not come to a connection that reads version 2: each push by itself, one push for two writes,
/// its parts in another order, a push of one part.
pub fn push_refutations()
    ensures newer { NewerGetsParts }
    ensures writes { WritesStayApart }
    ensures order { PartsStayInOrder }
    ensures single { SingleStays }
{}

/// What does not hold of versions: that every connection reads version 2, and that one which did goes on.
pub fn version_refutations()
    ensures older { SomeAreOlder }
    ensures fall { VersionsMayFall }
{}

/// What they leave in the tree, and what they do not.
pub fn run_examples()
    ensures leaves { RowLeaves }
    ensures something { RowDoesSomething }
    ensures no_more { RowDoesNoMore }
{}

/// What turns of a connection's end send and leave, where another write stands between them, and what they
/// do not.
pub fn turn_examples()
    ensures sent { TurnsAreSent }
    ensures leaves { TurnsLeave }
    ensures no_more { TurnsDoNoMore }
{}

/// In which order listens and actions stand, and what does not hold of it.
pub fn order_examples()
    ensures sorted { BusyIsSorted }
    ensures left { NoListenIsLeft }
    ensures tie { ActionsMayTie }
    ensures gaps { NumbersMayHaveGaps }
{}
