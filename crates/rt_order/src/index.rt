// What the children of a path are ordered by.
ghost use Rattle.std.specs.Prelude.{◌≡◌, IfOk};
ghost use Rattle.rt_order.specs.Entries.{entry, entry_cmp, sort_value, own_sort_value};
ghost use Rattle.rt_order.specs.SortRef.{value_of};
ghost use Rattle.rt_order.specs.Values.{Plain, value_cmp};

use crate::key::key_cmp;
use rt_tree::{Key, Leaf, LeafRef, Path, Tree};
use std::alloc::{AllocError, Global};
use std::cmp::Ordering;

/// What the children of a path are ordered by.
#[derive(Debug, Drop)]
pub enum Index {
    /// Their keys (`orderByKey` of the Firebase reference).
    Key,
    /// The values at a path below each (`orderByChild`).
    Child(Path),
    /// Their own values (`orderByValue`).
    Value,
}

impl Index {
    /// An equal index.
    pub fn copy(&self, _alloc: Global) -> Result<Index, AllocError>
        ensures { IfOk result (λ index. index ≡ self.now) }
    {
        match self {
            Index::Key => Ok(Index::Key),
            Index::Child(path) => Ok(Index::Child(path.copy()?)),
            Index::Value => Ok(Index::Value),
        }
    }
}

impl PartialEq for Index {
    ghost use Rattle.std.specs.Cmp as Cmp;
    ghost use Rattle.rt_order.specs.Equality.{index_eq};
    ghost use Rattle.rt_order.specs.laws.Equality.{index_eq_tells};
    ghost use Rattle.rt_tree.specs.TreeEq.{equivalence};

    ghost eq = { index_eq };

    ghost laws = { Cmp.partial_equiv_from_equiv (equivalence index_eq_tells) };

    fn eq(&self, other: &Index) -> bool {
        match (self, other) {
            (Index::Key, Index::Key) | (Index::Value, Index::Value) => true,
            (Index::Child(path), Index::Child(other)) => path == other,
            _ => false,
        }
    }
}

impl Eq for Index {
    ghost use Rattle.rt_order.specs.laws.Equality.{index_eq_tells};
    ghost use Rattle.rt_tree.specs.TreeEq.{equivalence};

    ghost laws = { equivalence index_eq_tells };
}

/// What a child is sorted by: null in key order, its own value in value order, the value at the
/// path in child order.
pub fn sort_value<'a>(index: &Index, tree: &'a Tree) -> SortRef<'a>
    ensures { value_of result ≡ sort_value index.now tree.now }
{
    match index {
        Index::Key => SortRef::Null,
        Index::Child(path) => match tree.get(path) {
            Some(part) => own_sort_value(part),
            None => SortRef::Null,
        },
        Index::Value => own_sort_value(tree),
    }
}

/// The order of children: by sort value, then by key.
pub fn entry_cmp(index: &Index, a: (&Key, &Tree), b: (&Key, &Tree)) -> Ordering
    ensures { result ≡ entry_cmp (entry index.now (a.entry.0.now, a.entry.1.now))
        (entry index.now (b.entry.0.now, b.entry.1.now)) }
{
    let by_value = value_cmp(&sort_value(index, a.1), &sort_value(index, b.1));
    by_value.then_with(|| key_cmp(a.0, b.0))
}

// ---- the order of values

/// What a value is sorted by. Of an object only that it is one: two objects are equal here.
#[derive(Clone, Copy, Debug, PartialEq)]
pub enum SortRef<'a> {
    /// Nothing stands there, or the order is that of keys.
    Null,
    /// The leaf that stands there.
    Leaf(&'a Leaf),
    /// An object, whatever its children.
    Object,
}

/// The order of leaves: false, true, numbers ascending, texts ascending by bytes.
pub fn leaf_cmp(a: &Leaf, b: &Leaf) -> Ordering
    ensures { result ≡ value_cmp (Plain a.now) (Plain b.now) }
{
    match (a.value(), b.value()) {
        (LeafRef::Truth(p), LeafRef::Truth(q)) => p.cmp(&q),
        (LeafRef::Number(m), LeafRef::Number(n)) => m.cmp(&n),
        (LeafRef::Text(s), LeafRef::Text(t)) => s.cmp(t),
        (LeafRef::Truth(_), _) | (_, LeafRef::Text(_)) => Ordering::Less,
        (LeafRef::Text(_), _) | (_, LeafRef::Truth(_)) => Ordering::Greater,
    }
}

/// The order of sort values: null, leaves, objects.
pub fn value_cmp(a: &SortRef<'_>, b: &SortRef<'_>) -> Ordering
    ensures { result ≡ value_cmp (value_of a.now) (value_of b.now) }
{
    match (a, b) {
        (SortRef::Leaf(a), SortRef::Leaf(b)) => leaf_cmp(a, b),
        (SortRef::Null, SortRef::Null) | (SortRef::Object, SortRef::Object) => Ordering::Equal,
        (SortRef::Null, _) | (_, SortRef::Object) => Ordering::Less,
        (SortRef::Object, _) | (_, SortRef::Null) => Ordering::Greater,
    }
}

// What a whole tree is sorted by.
pub(crate) fn own_sort_value(tree: &Tree) -> SortRef<'_>
    ensures { value_of result ≡ own_sort_value tree.now }
{
    match tree.as_leaf() {
        Some(leaf) => SortRef::Leaf(leaf),
        None if tree.is_null() => SortRef::Null,
        None => SortRef::Object,
    }
}
