// Outside examples of the core's steps: trees compute here.
#![tactic(auto, unfolding(rt_tree::specs::PathTree::null, rt_tree::specs::PathTree::of_leaf, rt_tree::specs::PathTree::is_null, rt_tree::specs::PathTree::leaf_at, rt_tree::specs::PathTree::sub, rt_tree::specs::PathTree::put, rt_tree::specs::PathTree::with_children, rt_tree::specs::PathTree::children_alone, rt_tree::specs::PathTree::levels, rt_tree::specs::Children::children_of, rt_tree::specs::TreeEq::tree_eq))]

ghost use Rattle.rt_world.specs.laws.Children.{OneIsNamed, BelowIsSeen, AboveNamesNone, NamedOnce};
ghost use Rattle.rt_world.specs.laws.Children.{SettledNames, LeafIsBack, LostWouldShow};
ghost use Rattle.rt_world.specs.laws.Due.{SeatsAreDue, ServersAreDue, ConnectionsAreDue, FilteredAreDue};
ghost use Rattle.rt_world.specs.laws.Due.{UnreachedIsLost};
ghost use Rattle.rt_world.specs.laws.Examples.{PushOfNull, ParentTakesOverListen, WindowUnderPlainListen};
ghost use Rattle.rt_world.specs.laws.Examples.{WindowKeptWhole, LimitWithRemovals, DeepWriteUnknownChild};
ghost use Rattle.rt_world.specs.laws.Examples.{ThreeSetsTwoRefused, MovedInPlace, AddedMovedChanged};
ghost use Rattle.rt_world.specs.laws.Examples.{ReconnectResends, RevokedPlainListen, LeafAndChild};
ghost use Rattle.rt_world.specs.laws.Examples.{RootListen, WholeWindow, WritePrimes, DisconnectActions};
ghost use Rattle.rt_world.specs.laws.Examples.{MergePush, RefusalUnderLeaf, PlainCover, Refusals};
ghost use Rattle.rt_world.specs.laws.Examples.{PartsInOneStep, PartsPassedOver};
ghost use Rattle.rt_world.specs.laws.Ranges.{RangeSuppliesNarrower, RangeWindows, FirstSupplierChanges};
ghost use Rattle.rt_world.specs.laws.Ranges.{LostRegionToWider, RevokedRangeHandsOn};
ghost use Rattle.rt_world.specs.laws.False.{ListenLeavesNothing, ListenIsStale, ListenIsRefused};
ghost use Rattle.rt_world.specs.laws.False.{ListenIsNotSent, NoListenIsKept, EndIsToldToAnother};
ghost use Rattle.rt_world.specs.laws.False.{PushIsDropped, PushIsStale, PushIsNotTold, PushIsToldToAnother};
ghost use Rattle.rt_world.specs.laws.False.{PushShowsAnother, PushPrimesNobody, WriteShowsNothing};
ghost use Rattle.rt_world.specs.laws.False.{WriteIsForgotten, SettledIsPending, RefusedStillShows};
ghost use Rattle.rt_world.specs.laws.False.{RunDoesNothing, RunStopsShort, RunRegistersNobody};
ghost use Rattle.rt_world.specs.laws.False.{WriteBeginsListen, ListenGetsAnyTag, PushRestartsListen};
ghost use Rattle.rt_world.specs.laws.False.{WriteChangesTag, UnlistenSwapsTags, NextTagLags};
ghost use Rattle.rt_world.specs.laws.False.{EndPassesLastTag, WritePassesLastTag, VersionIsNotTold};
ghost use Rattle.rt_world.specs.laws.False.{VersionIsToldLate, VersionIsToldOnce};

/// A listen that is pushed null is empty, and is known.
pub fn push_of_null()
    ensures { PushOfNull }
{}

/// A listen above takes up the one below.
pub fn parent_takes_over_listen()
    ensures { ParentTakesOverListen }
{}

/// A window stays while a plain listen waits for data, and its push is stale then.
pub fn window_under_plain_listen()
    ensures { WindowUnderPlainListen }
{}

/// Where a region is lost its window is whole, and a refused write comes back into view.
pub fn window_kept_whole()
    ensures { WindowKeptWhole }
{}

/// A limit is taken over the pending writes.
pub fn limit_with_removals()
    ensures { LimitWithRemovals }
{}

/// A deep pending write does not make a child known.
pub fn deep_write_unknown_child()
    ensures { DeepWriteUnknownChild }
{}

/// A refused write does not come back over later ones.
pub fn three_sets_two_refused()
    ensures { ThreeSetsTwoRefused }
{}

/// A child whose sort value differs is moved, also in its place.
pub fn moved_in_place()
    ensures { MovedInPlace }
{}

/// Changes by value.
pub fn added_moved_changed()
    ensures { AddedMovedChanged }
{}

/// After a reconnection the kept listens and the unsettled requests are sent.
pub fn reconnect_resends()
    ensures { ReconnectResends }
{}

/// A revoked listen ends its listeners, and the covered ones get a listen of their own.
pub fn revoked_plain_listen()
    ensures { RevokedPlainListen }
{}

/// Null under a leaf leaves the leaf; another child takes its place.
pub fn leaf_and_child()
    ensures { LeafAndChild }
{}

/// A plain listen at the root, and a write.
pub fn root_listen()
    ensures { RootListen }
{}

/// Writes under a plain listen, and a whole window when it goes.
pub fn whole_window()
    ensures { WholeWindow }
{}

/// A write alone makes a listener known.
pub fn write_primes()
    ensures { WritePrimes }
{}

/// Actions at the end of the connection are asked for and dropped.
pub fn disconnect_actions()
    ensures { DisconnectActions }
{}

/// A push of several entries is one step.
pub fn merge_push()
    ensures { MergePush }
{}

/// A push of several parts is one step.
pub fn parts_in_one_step()
    ensures { PartsInOneStep }
{}

/// Parts that change nothing are passed over, and a listener is told once.
pub fn parts_passed_over()
    ensures { PartsPassedOver }
{}

/// A refused write over a leaf shows the leaf again.
pub fn refusal_under_leaf()
    ensures { RefusalUnderLeaf }
{}

/// A listen under another is taken up again when that one goes.
pub fn plain_cover()
    ensures { PlainCover }
{}

/// Refusals in their order, and stale steps.
pub fn refusals()
    ensures { Refusals }
{}

/// A write changes the view above it by the child that it names, and nothing beside it.
pub fn child_is_named()
    ensures one { OneIsNamed }
    ensures seen { BelowIsSeen }
{}

/// An entry above a path names no child of it, and may change each.
pub fn entry_above()
    ensures { AboveNamesNone }
{}

/// What is named: each child once, and of a settled write what it set.
pub fn names()
    ensures once { NamedOnce }
    ensures settled { SettledNames }
{}

/// Where a leaf comes back, the named children put back are not what is seen.
pub fn leaf_is_back()
    ensures { LeafIsBack }
{}

/// A view outlives the listen that brought it, since its data stay.
pub fn cover_goes()
    ensures { LostWouldShow }
{}

/// A step of each kind is neither refused nor stale in a real world, so that the laws of steps that are
/// made say something of each.
pub fn steps_are_due()
    ensures seats { SeatsAreDue }
    ensures servers { ServersAreDue }
    ensures connections { ConnectionsAreDue }
    ensures filtered { FilteredAreDue }
{}

/// A range supplies a narrower one, and leaves it its window.
pub fn range_supplies_narrower()
    ensures { RangeSuppliesNarrower }
{}

/// A listener sees by the window of the first range that takes in its own.
pub fn range_windows()
    ensures { RangeWindows }
{}

/// Which range is the first changes where its least-numbered listener goes, though its form stays.
pub fn first_supplier_changes()
    ensures { FirstSupplierChanges }
{}

/// Of two ranges that lose a region the wider gets the window, and the narrower sees by it.
pub fn lost_region_to_wider()
    ensures { LostRegionToWider }
{}

/// A window that is handed on keeps its mark.
pub fn revoked_range_hands_on()
    ensures { RevokedRangeHandsOn }
{}

/// What no listen reaches is lost in any step.
pub fn unreached_goes()
    ensures { UnreachedIsLost }
{}

// ---- steps and runs as they must not be, refuted: trees compute here

/// A listen that leaves nothing, comes too late, is refused, is not sent or not kept; another seat
/// that is told of an end.
pub fn false_listens()
    ensures nothing { ListenLeavesNothing }
    ensures stale { ListenIsStale }
    ensures refused { ListenIsRefused }
    ensures sent { ListenIsNotSent }
    ensures kept { NoListenIsKept }
    ensures end { EndIsToldToAnother }
{}

/// A push that is dropped, comes too late, is told to nobody or to another, shows something else, or
/// leaves its listener unprimed.
pub fn false_pushes()
    ensures dropped { PushIsDropped }
    ensures stale { PushIsStale }
    ensures nobody { PushIsNotTold }
    ensures another { PushIsToldToAnother }
    ensures shown { PushShowsAnother }
    ensures primed { PushPrimesNobody }
{}

/// A write that does not show or is forgotten; one that is settled and stays, or is refused and shows.
pub fn false_writes()
    ensures shown { WriteShowsNothing }
    ensures forgotten { WriteIsForgotten }
    ensures settled { SettledIsPending }
    ensures refused { RefusedStillShows }
{}

/// A run that does nothing, one that stops short, and one in which nobody is registered.
pub fn false_runs()
    ensures nothing { RunDoesNothing }
    ensures short { RunStopsShort }
    ensures nobody { RunRegistersNobody }
{}

/// A write that begins and ends a listen of nobody's, a listen under another tag than the next one, a
/// push that restarts a listen, a write without a connection that changes a tag, listens that begin in
/// another order than their listeners', a next tag that lags, and an end and a write that begin a
/// listen under a tag above the last number.
pub fn false_tags()
    ensures listen { WriteBeginsListen }
    ensures tag { ListenGetsAnyTag }
    ensures restart { PushRestartsListen }
    ensures changed { WriteChangesTag }
    ensures order { UnlistenSwapsTags }
    ensures next { NextTagLags }
    ensures last { EndPassesLastTag }
    ensures lost { WritePassesLastTag }
{}

/// A connection that does not tell the version, tells it behind the listens, or tells it the first time
/// alone.
pub fn false_greetings()
    ensures never { VersionIsNotTold }
    ensures late { VersionIsToldLate }
    ensures once { VersionIsToldOnce }
{}
