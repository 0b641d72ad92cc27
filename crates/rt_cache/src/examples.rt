// Outside examples of what is brought: trees compute here.
#![tactic(auto, unfolding(rt_tree::specs::PathTree::null, rt_tree::specs::PathTree::of_leaf, rt_tree::specs::PathTree::is_null, rt_tree::specs::PathTree::leaf_at, rt_tree::specs::PathTree::sub, rt_tree::specs::PathTree::put, rt_tree::specs::PathTree::children_alone))]

ghost use Rattle.rt_cache.specs.laws.Examples.{ParentTakesIn, PartsAreWhole, ChildThere};
ghost use Rattle.rt_cache.specs.laws.Examples.{ChildNotThere, PartStays, OtherIsLost, CutInOrder};
ghost use Rattle.rt_cache.specs.laws.Examples.{ListedAlike, LeafShowsNothing, TakenBelow};
ghost use Rattle.rt_cache.specs.laws.Examples.{StaleBelow, StaysWhole, WholeNoMore, TakenIn};
ghost use Rattle.rt_cache.specs.laws.Examples.{RowRuns, RowDoesSomething, NoRegionBeside};
ghost use Rattle.rt_cache.specs.laws.Examples.{EndedWindowGoes, StaleOnce, StaleLeavesNothing};
ghost use Rattle.rt_cache.specs.laws.Examples.{NarrowHasFirst, NarrowIsMoved, NarrowInherits};
ghost use Rattle.rt_cache.specs.laws.Examples.{NarrowIsMovedThough, WiderInherits, OldWindowGoes};
ghost use Rattle.rt_cache.specs.laws.False.{NothingShown, PushDropped, PushReplaces, WholeAtOnce};
ghost use Rattle.rt_cache.specs.laws.False.{RegionForgotten, NotWhole, RegionDropped, StillWhole};
ghost use Rattle.rt_cache.specs.laws.False.{StillThere, StaysAfterEnd, HidesRegion};
ghost use Rattle.rt_cache.specs.laws.False.{NarrowWaits, NarrowHolds, SecondShows, LastIsShown, EndedShows};
ghost use Rattle.rt_cache.specs.laws.False.{HandedIsLost, HandedIsWhole, SecondInherits, EndedHolds};
ghost use Rattle.rt_cache.specs.laws.False.{NarrowerInherits, WiderIsPassedOver, WiderIsPart, OldIsShown};
ghost use Rattle.rt_cache.specs.laws.False.{WiderIsShown, NarrowIsLost, OldIsHeld};

/// A region takes in those below it, its parts are whole, and another listen keeps its part alone.
pub fn region_examples()
    ensures taken_in { ParentTakesIn }
    ensures whole { PartsAreWhole }
    ensures child { ChildThere }
    ensures no_child { ChildNotThere }
    ensures part { PartStays }
    ensures lost { OtherIsLost }
{}

/// What is brought does not depend on the order in which listens or windows came.
pub fn order_examples()
    ensures regions { CutInOrder }
    ensures windows { ListedAlike }
{}

/// What ranges have of one another's windows, and what they leave to one another.
pub fn range_examples()
    ensures first { NarrowHasFirst }
    ensures moved { NarrowIsMoved }
    ensures moved_though { NarrowIsMovedThough }
    ensures inherits { NarrowInherits }
    ensures wider { WiderInherits }
    ensures old { OldWindowGoes }
{}

/// A window of a leaf, a window that a region leaves, and what a push makes of them.
pub fn window_examples()
    ensures leaf { LeafShowsNothing }
    ensures below { TakenBelow }
    ensures stale { StaleBelow }
    ensures whole { StaysWhole }
    ensures replaced { WholeNoMore }
    ensures taken_in { TakenIn }
{}

/// Runs of calls: what they leave and which of them are taken, and what they do not.
pub fn run_examples()
    ensures row { RowRuns }
    ensures nothing { RowDoesSomething }
    ensures beside { NoRegionBeside }
    ensures ended { EndedWindowGoes }
    ensures stale { StaleOnce }
    ensures leaves { StaleLeavesNothing }
{}

/// What runs must not leave for a filtered query: nothing, the wrong children, or whole where it isn't;
/// a replaced window that stays, one of a query that ended, and one in place of a region.
pub fn false_windows()
    ensures nothing { NothingShown }
    ensures dropped { PushDropped }
    ensures alone { PushReplaces }
    ensures at_once { WholeAtOnce }
    ensures forgotten { RegionForgotten }
    ensures not_whole { NotWhole }
    ensures region_dropped { RegionDropped }
    ensures still_whole { StillWhole }
    ensures still_there { StillThere }
    ensures ended { StaysAfterEnd }
    ensures hidden { HidesRegion }
{}

/// What runs must not leave for ranges of which some take in others: children that go with their holder,
/// are handed to the wrong one or with the wrong mark, or stay where a wider range is pushed.
pub fn false_ranges()
    ensures waits { NarrowWaits }
    ensures holds { NarrowHolds }
    ensures second { SecondShows }
    ensures last { LastIsShown }
    ensures ended { EndedShows }
    ensures lost { HandedIsLost }
    ensures whole { HandedIsWhole }
    ensures inherits { SecondInherits }
    ensures held { EndedHolds }
    ensures narrower { NarrowerInherits }
    ensures passed_over { WiderIsPassedOver }
    ensures part { WiderIsPart }
    ensures old { OldIsShown }
    ensures wider { WiderIsShown }
    ensures narrow { NarrowIsLost }
    ensures old_held { OldIsHeld }
{}
