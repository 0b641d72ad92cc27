// The laws of the orders.
ghost use Rattle.std.specs.Cmp.{IsTotalOrder};
ghost use Rattle.std.specs.FinMap.{IsAntisymmetric};
ghost use Rattle.rt_tree.specs.TreeEq.{Tells};
ghost use Rattle.rt_order.specs.Equality.{index_eq, cut_eq, mark_eq, place_eq, range_eq};
ghost use Rattle.rt_order.specs.KeyOrder.{key_cmp};
ghost use Rattle.rt_order.specs.Values.{value_cmp};
ghost use Rattle.rt_order.specs.Entries.{entry_cmp};
ghost use Rattle.rt_order.specs.laws.EntryOrder.{ObjectsGoByKey};
ghost use Rattle.rt_order.specs.CutOrder.{cut_cmp};
ghost use Rattle.rt_order.specs.laws.CutOrder.{EarlierCutsHaveMore};
ghost use Rattle.rt_order.specs.laws.Cuts.{AboveStaysAfter, AfterIsNextTo, BeforeIsNextTo};
ghost use Rattle.rt_order.specs.laws.Cuts.{RangesAreRuns};

/// The order of keys is total, and only equal keys are equal in it.
pub fn key_laws()
    ensures total { IsTotalOrder key_cmp }
    ensures exact { IsAntisymmetric key_cmp }
{}

/// The orders of values and of entries are total, and only equal ones are equal in them.
pub fn entry_laws()
    ensures value_total { IsTotalOrder value_cmp }
    ensures value_exact { IsAntisymmetric value_cmp }
    ensures entry_total { IsTotalOrder entry_cmp }
    ensures entry_exact { IsAntisymmetric entry_cmp }
    ensures objects { ObjectsGoByKey }
{}

/// A cut next to a key stands next to the entry of its value and that key; a range is a run of
/// entries.
pub fn cut_laws()
    ensures before { BeforeIsNextTo }
    ensures after { AfterIsNextTo }
    ensures above { AboveStaysAfter }
    ensures runs { RangesAreRuns }
{}

/// The order of cuts is total, and only equal cuts are equal in it; of two cuts the later one has no
/// entry after it that the earlier one lacks.
pub fn cut_order_laws()
    ensures total { IsTotalOrder cut_cmp }
    ensures exact { IsAntisymmetric cut_cmp }
    ensures earlier { EarlierCutsHaveMore }
{}

/// The tests of equality tell exactly the equal indexes, cuts and ranges.
pub fn equality_laws()
    ensures index { Tells index_eq }
    ensures mark { Tells mark_eq }
    ensures place { Tells place_eq }
    ensures cut { Tells cut_eq }
    ensures range { Tells range_eq }
{}
