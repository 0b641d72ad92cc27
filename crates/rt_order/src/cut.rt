// Places between entries, and ranges.
ghost use Rattle.std.specs.Prelude.{◌≡◌, IfOk};
ghost use Rattle.rt_order.specs.CutOrder.{cut_cmp, place_cmp};
ghost use Rattle.rt_order.specs.Cuts.{has, is_after, is_past, mark_value};
ghost use Rattle.rt_order.specs.Entries.{entry};
ghost use Rattle.rt_order.specs.SortRef.{value_of};

use crate::index::{Index, SortRef, sort_value, value_cmp};
use crate::key::key_cmp;
use crate::placed_ref::PlacedRef;
use rt_tree::{Key, Leaf, Tree};
use std::alloc::{AllocError, Global};
use std::cmp::Ordering;

/// The value of a cut.
#[derive(Debug, Drop)]
pub enum Mark {
    /// That of an absent child, and of every child in key order.
    Null,
    /// A truth value, a number or a text. No cut has the value of an object.
    Leaf(Leaf),
}

/// Where a cut lies among the entries of its value: before all, next to a key, or after all.
#[derive(Debug, Drop)]
pub enum Place {
    /// Before all entries of the value.
    Min,
    /// Just before the entry of that key.
    Before(Key),
    /// Just after the entry of that key.
    After(Key),
    /// After all entries of the value.
    Max,
}

/// A place between entries.
#[derive(Debug, Drop)]
pub struct Cut {
    /// The value among whose entries the cut lies.
    pub value: Mark,
    /// Where it lies among them.
    pub place: Place,
}

/// The entries after the lower and before the upper cut. An absent cut bounds nothing.
#[derive(Debug, Drop)]
pub struct Range {
    /// Below the first entry of the range.
    pub lower: Option<Cut>,
    /// Above the last entry of the range.
    pub upper: Option<Cut>,
}

impl Mark {
    /// An equal mark.
    pub fn copy(&self, alloc: Global) -> Result<Mark, AllocError>
        ensures { IfOk result (λ mark. mark ≡ self.now) }
    {
        match self {
            Mark::Null => Ok(Mark::Null),
            Mark::Leaf(leaf) => Ok(Mark::Leaf(leaf.copy(alloc)?)),
        }
    }

    // What the entries of the mark are sorted by.
    fn sort_value(&self) -> SortRef<'_>
        ensures { value_of result ≡ mark_value self.now }
    {
        match self {
            Mark::Null => SortRef::Null,
            Mark::Leaf(leaf) => SortRef::Leaf(leaf),
        }
    }
}

impl Place {
    /// An equal place.
    pub fn copy(&self, _alloc: Global) -> Result<Place, AllocError>
        ensures { IfOk result (λ place. place ≡ self.now) }
    {
        match self {
            Place::Min => Ok(Place::Min),
            Place::Before(key) => Ok(Place::Before(key.copy()?)),
            Place::After(key) => Ok(Place::After(key.copy()?)),
            Place::Max => Ok(Place::Max),
        }
    }

    // Whether a key lies after the place.
    fn is_before(&self, key: &PlacedRef<'_>) -> bool
        ensures { result ≡ is_past self.now key.now }
    {
        match self {
            Place::Min => true,
            Place::Before(bound) => PlacedRef::of(bound).cmp(key).is_le(),
            Place::After(bound) => PlacedRef::of(bound).cmp(key).is_lt(),
            Place::Max => false,
        }
    }
}

impl Cut {
    /// An equal cut.
    pub fn copy(&self, alloc: Global) -> Result<Cut, AllocError>
        ensures { IfOk result (λ cut. cut ≡ self.now) }
    {
        let value = self.value.copy(alloc)?;
        let place = self.place.copy(alloc)?;
        Ok(Cut { value, place })
    }

    // Whether an entry lies after the cut.
    fn is_before(&self, value: &SortRef<'_>, key: &PlacedRef<'_>) -> bool
        ensures { result ≡ is_after self.now (value_of value.now, key.now) }
    {
        match value_cmp(&self.value.sort_value(), value) {
            Ordering::Less => true,
            Ordering::Equal => self.place.is_before(key),
            Ordering::Greater => false,
        }
    }
}

// The order of places among the entries of one value.
fn place_cmp(a: &Place, b: &Place) -> Ordering
    ensures { result ≡ place_cmp a.now b.now }
{
    match (a, b) {
        (Place::Before(j), Place::Before(k)) | (Place::After(j), Place::After(k)) => key_cmp(j, k),
        (Place::Before(j), Place::After(k)) => key_cmp(j, k).then(Ordering::Less),
        (Place::After(j), Place::Before(k)) => key_cmp(j, k).then(Ordering::Greater),
        (Place::Min, Place::Min) | (Place::Max, Place::Max) => Ordering::Equal,
        (Place::Min, _) | (_, Place::Max) => Ordering::Less,
        (Place::Max, _) | (_, Place::Min) => Ordering::Greater,
    }
}

/// The order of cuts: by value, then from before all entries of it to after all, those next to a
/// key by key, before it first. As a lower bound the earlier cut leaves out no more than the later.
pub fn cut_cmp(a: &Cut, b: &Cut) -> Ordering
    ensures { result ≡ cut_cmp a.now b.now }
{
    let by_value = value_cmp(&a.value.sort_value(), &b.value.sort_value());
    by_value.then_with(|| place_cmp(&a.place, &b.place))
}

// An equal cut, where there is one.
fn copy_cut(cut: &Option<Cut>, alloc: Global) -> Result<Option<Cut>, AllocError>
    ensures { IfOk result (λ copy. copy ≡ cut.now) }
{
    match cut {
        None => Ok(None),
        Some(cut) => Ok(Some(cut.copy(alloc)?)),
    }
}

impl Range {
    /// An equal range.
    pub fn copy(&self, alloc: Global) -> Result<Range, AllocError>
        ensures { IfOk result (λ range. range ≡ self.now) }
    {
        let lower = copy_cut(&self.lower, alloc)?;
        let upper = copy_cut(&self.upper, alloc)?;
        Ok(Range { lower, upper })
    }

    /// Whether a child's entry lies in the range.
    pub fn has(&self, index: &Index, key: &Key, tree: &Tree) -> bool
        ensures { result ≡ has self.now (entry index.now (key.now, tree.now)) }
    {
        self.has_entry(&sort_value(index, tree), &PlacedRef::of(key))
    }

    /// Whether an entry lies in the range: what a child is sorted by, and its key.
    pub fn has_entry(&self, value: &SortRef<'_>, key: &PlacedRef<'_>) -> bool
        ensures { result ≡ has self.now (value_of value.now, key.now) }
    {
        let is_above = match &self.lower {
            Some(cut) => cut.is_before(value, key),
            None => true,
        };
        let is_below = match &self.upper {
            Some(cut) => !cut.is_before(value, key),
            None => true,
        };
        is_above && is_below
    }
}

impl PartialEq for Mark {
    ghost use Rattle.std.specs.Cmp as Cmp;
    ghost use Rattle.rt_order.specs.Equality.{mark_eq};
    ghost use Rattle.rt_order.specs.laws.Equality.{mark_eq_tells};
    ghost use Rattle.rt_tree.specs.TreeEq.{equivalence};

    ghost eq = { mark_eq };

    ghost laws = { Cmp.partial_equiv_from_equiv (equivalence mark_eq_tells) };

    fn eq(&self, other: &Mark) -> bool {
        match (self, other) {
            (Mark::Null, Mark::Null) => true,
            (Mark::Leaf(leaf), Mark::Leaf(other)) => leaf == other,
            _ => false,
        }
    }
}

impl Eq for Mark {
    ghost use Rattle.rt_order.specs.laws.Equality.{mark_eq_tells};
    ghost use Rattle.rt_tree.specs.TreeEq.{equivalence};

    ghost laws = { equivalence mark_eq_tells };
}

impl PartialEq for Place {
    ghost use Rattle.std.specs.Cmp as Cmp;
    ghost use Rattle.rt_order.specs.Equality.{place_eq};
    ghost use Rattle.rt_order.specs.laws.Equality.{place_eq_tells};
    ghost use Rattle.rt_tree.specs.TreeEq.{equivalence};

    ghost eq = { place_eq };

    ghost laws = { Cmp.partial_equiv_from_equiv (equivalence place_eq_tells) };

    fn eq(&self, other: &Place) -> bool {
        match (self, other) {
            (Place::Min, Place::Min) | (Place::Max, Place::Max) => true,
            (Place::Before(key), Place::Before(other)) => key == other,
            (Place::After(key), Place::After(other)) => key == other,
            _ => false,
        }
    }
}

impl Eq for Place {
    ghost use Rattle.rt_order.specs.laws.Equality.{place_eq_tells};
    ghost use Rattle.rt_tree.specs.TreeEq.{equivalence};

    ghost laws = { equivalence place_eq_tells };
}

impl PartialEq for Cut {
    ghost use Rattle.std.specs.Cmp as Cmp;
    ghost use Rattle.rt_order.specs.Equality.{cut_eq};
    ghost use Rattle.rt_order.specs.laws.Equality.{cut_eq_tells};
    ghost use Rattle.rt_tree.specs.TreeEq.{equivalence};

    ghost eq = { cut_eq };

    ghost laws = { Cmp.partial_equiv_from_equiv (equivalence cut_eq_tells) };

    fn eq(&self, other: &Cut) -> bool {
        self.value == other.value && self.place == other.place
    }
}

impl Eq for Cut {
    ghost use Rattle.rt_order.specs.laws.Equality.{cut_eq_tells};
    ghost use Rattle.rt_tree.specs.TreeEq.{equivalence};

    ghost laws = { equivalence cut_eq_tells };
}

impl PartialEq for Range {
    ghost use Rattle.std.specs.Cmp as Cmp;
    ghost use Rattle.rt_order.specs.Equality.{range_eq};
    ghost use Rattle.rt_order.specs.laws.Equality.{range_eq_tells};
    ghost use Rattle.rt_tree.specs.TreeEq.{equivalence};

    ghost eq = { range_eq };

    ghost laws = { Cmp.partial_equiv_from_equiv (equivalence range_eq_tells) };

    fn eq(&self, other: &Range) -> bool {
        self.lower == other.lower && self.upper == other.upper
    }
}

impl Eq for Range {
    ghost use Rattle.rt_order.specs.laws.Equality.{range_eq_tells};
    ghost use Rattle.rt_tree.specs.TreeEq.{equivalence};

    ghost laws = { equivalence range_eq_tells };
}
