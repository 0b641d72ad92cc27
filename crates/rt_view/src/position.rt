// Where a child stands in a view's order: the children of a tree in order, in their places, and
// before one another.
ghost use Rattle.std.specs.Prelude.{◌≡◌, IfOk, ◌≤◌, ◌∷◌, [], false, All, IfSome, OnOk, length, true, map};
ghost use Rattle.std.specs.Prelude.{None};
ghost use Rattle.std.specs.Option.{option_copied};
ghost use Rattle.rt_order.specs.Cuts.{has};
ghost use Rattle.rt_order.specs.Entries.{entry};
ghost use Rattle.rt_order.specs.SortRef.{value_of};
ghost use Rattle.rt_view.specs.inside.Positions.{sort_of};
ghost use Rattle.rt_tree.specs.PathTree.{child_of, is_null, leaf_of, levels, null, object, put};
ghost use Rattle.rt_tree.specs.Children.{children_of};
ghost use Rattle.rt_query.specs.Select.{as_children, sorted_by, row_of};
ghost use Rattle.rt_view.specs.inside.ViewIndex.{IsWindowOf, entries_of, AreWords, CanAsk, IsOrdered, NameWords};
ghost use Rattle.rt_view.specs.inside.ViewIndex.{ordered_in};
ghost use Rattle.rt_order.specs.KeyOrder.{integer_of};
ghost use Rattle.rt_order.specs.Values.{Null};
ghost use Rattle.rt_query.specs.Queries.{is_filtered};
ghost use Rattle.rt_view.specs.inside.Windows.{before};

use crate::window::{OrderedChildren, ordered};
use rt_map::OrdMap;
use rt_order::{Index, PlacedKey, Range, SortRef, is_integer, sort_value, value_cmp};
use rt_query::{Query, Row};
use rt_tree::{Key, Leaf, MAX_KEYS, Tree};
use std::alloc::{AllocError, Global};
use std::cmp::Ordering;
use std::marker::Model;

// ---- where a child stands in a view's order

// What a child is sorted by, of its own.
#[derive(Debug, Drop)]
pub enum Sort {
    Null,
    Leaf(Leaf),
    Object,
}

impl Sort {
    // What a borrowed sort value is.
    fn of(alloc: Global, value: &SortRef<'_>) -> Result<Sort, AllocError>
        ensures { IfOk result (λ sort. sort_of sort ≡ value_of value.now) }
    {
        match value {
            SortRef::Null => Ok(Sort::Null),
            SortRef::Leaf(leaf) => Ok(Sort::Leaf(leaf.copy(alloc)?)),
            SortRef::Object => Ok(Sort::Object),
        }
    }

    fn as_ref(&self) -> SortRef<'_>
        ensures { value_of result ≡ sort_of self.now }
    {
        match self {
            Sort::Null => SortRef::Null,
            Sort::Leaf(leaf) => SortRef::Leaf(leaf),
            Sort::Object => SortRef::Object,
        }
    }
}

// The entry of a child. Positions compare as entries do; the number of a key is read once.
#[derive(Debug)]
pub struct Position {
    sort: Sort,
    key: PlacedKey,
}

impl Drop for Position {
    fn drop(self) {
        let Position { sort: _, key: _ } = self;
    }
}

impl Model for Position {
    ghost use Rattle.rt_order.specs.Entries.{Entry};
    ghost use Rattle.rt_view.specs.inside.Positions.{sort_of};

    ghost Value = { Entry };

    ghost view = { λ a. (sort_of a.sort, a.key) };
}

impl Position {
    // The entry of a child.
    pub fn of(alloc: Global, index: &Index, key: &Key, tree: &Tree) -> Result<Position, AllocError>
        ensures { IfOk result (λ position. position ≡ entry index.now (key.now, tree.now)) }
    {
        let sort = Sort::of(alloc, &sort_value(index, tree))?;
        let key = PlacedKey::of(key.copy()?);
        Ok(Position { sort, key })
    }

    pub fn key(&self) -> &Key
        ensures { result.now ≡ self.now.1 }
    {
        self.key.key()
    }

    // Whether the entry lies in a range.
    pub fn is_in(&self, range: &Range) -> bool
        ensures { result ≡ has range.now self.now }
    {
        range.has_entry(&self.sort.as_ref(), &self.key.borrowed())
    }
}

impl PartialEq for Position {
    ghost use Rattle.std.specs.Cmp as Cmp;
    ghost use Rattle.std.specs.Cmp.{eq_by_cmp_equiv};
    ghost use Rattle.std.specs.Ordering.{eq_by_cmp};
    ghost use Rattle.rt_order.specs.Entries.{entry_cmp};
    ghost use Rattle.rt_order.specs.laws.EntryOrder.{entry_cmp_total};

    ghost eq = { eq_by_cmp entry_cmp };

    ghost laws = { Cmp.partial_equiv_from_equiv (eq_by_cmp_equiv entry_cmp_total) };

    fn eq(&self, other: &Position) -> bool {
        self.cmp(other).is_eq()
    }
}

impl Eq for Position {
    ghost use Rattle.std.specs.Cmp.{eq_by_cmp_equiv};
    ghost use Rattle.rt_order.specs.laws.EntryOrder.{entry_cmp_total};

    ghost laws = { eq_by_cmp_equiv entry_cmp_total };
}

impl PartialOrd for Position {
    ghost use Rattle.std.specs.Prelude.{Some};
    ghost use Rattle.std.specs.Cmp.{partial_order_from_total};
    ghost use Rattle.rt_order.specs.Entries.{entry_cmp};
    ghost use Rattle.rt_order.specs.laws.EntryOrder.{entry_cmp_total};

    ghost partial_cmp = { λ x y. Some (entry_cmp x y) };

    ghost laws = { partial_order_from_total entry_cmp_total };

    fn partial_cmp(&self, other: &Position) -> Option<Ordering> {
        Some(self.cmp(other))
    }
}

impl Ord for Position {
    ghost use Rattle.std.proofs.Common.{rules};
    ghost use Rattle.rt_order.specs.Entries.{entry_cmp};
    ghost use Rattle.rt_order.specs.laws.EntryOrder.{entry_cmp_total};

    ghost cmp = { entry_cmp };

    ghost total = { entry_cmp_total };

    ghost matches_partial_cmp = { Prim.search rules };

    ghost matches_eq = { Prim.search rules };

    fn cmp(&self, other: &Position) -> Ordering {
        let by_value = value_cmp(&self.sort.as_ref(), &other.sort.as_ref());
        by_value.then_with(|| self.key.cmp(&other.key))
    }
}

// ---- the children of a tree: in order, in their places, and before one another

// All children, by their entries.
fn entries_of(
    alloc: Global,
    index: &Index,
    children: &OrdMap<Key, Tree>,
) -> Result<Vec<(Position, Tree)>, AllocError>
    ensures { IfOk result (λ found. found.items ≡ entries_of index.now children.now.entries) }
{
    let mut found = Vec::with_capacity(alloc, children.len())?;
    for (key, tree) in children {
        let position = Position::of(alloc, index, key, tree)?;
        let tree = tree.copy(alloc)?;
        found.push((position, tree))?;
    }
    Ok(found)
}

// The children of a tree, in order.
fn in_order(alloc: Global, index: &Index, known: &Tree) -> Result<Vec<(Position, Tree)>, AllocError>
    ensures { IfOk result (λ found. found.items ≡ sorted_by index.now (children_of known.now)) }
{
    let Some(children) = known.children() else {
        return Ok(Vec::new(alloc));
    };
    let found = entries_of(alloc, index, children)?;
    Ok(ordered(found))
}

// The window of a tree.
pub fn window_of(alloc: Global, query: &Query, known: &Tree) -> Result<OrderedChildren, AllocError>
    ensures { IfOk result (λ window. IsWindowOf query.now known.now window) }
{
    let children = in_order(alloc, query.index(), known)?;
    let window = OrderedChildren::of(alloc, query.range(), query.limit(), children)?;
    Ok(window)
}

// How many children a tree has.
pub fn count(tree: &Tree) -> u64
    ensures { result ≡ length (children_of tree.now) }
{
    match tree.children() {
        Some(children) => children.len() as u64,
        None => 0,
    }
}

// The leaf that a tree is, if it is one.
pub fn copy_leaf(alloc: Global, tree: &Tree) -> Result<Option<Leaf>, AllocError>
    ensures { IfOk result (λ leaf. leaf ≡ leaf_of tree.now) }
{
    match tree.as_leaf() {
        Some(leaf) => Ok(Some(leaf.copy(alloc)?)),
        None => Ok(None),
    }
}

// Puts a child in the place of a tree's own, and gives that one back. It fits, so only memory can refuse.
pub fn put_child(
    tree: &mut Tree,
    alloc: Global,
    key: &Key,
    child: &Tree,
) -> Result<Option<Tree>, AllocError>
    requires { levels child.now ≤ MAX_KEYS }
    ensures put { OnOk result (tree.new ≡ put tree.old (key.now ∷ []) child.now) }
    ensures old { IfOk result (λ old. old ≡ child_of (children_of tree.old) key.now) }
{
    let child = child.copy(alloc)?;
    tree.put_child(alloc, key, child)
}

// Takes out a child. Only memory can refuse.
pub fn drop_child(tree: &mut Tree, alloc: Global, key: &Key) -> Result<(), AllocError>
    ensures { OnOk result (tree.new ≡ put tree.old (key.now ∷ []) null) }
{
    put_child(tree, alloc, key, &Tree::null())?;
    Ok(())
}

// The object of the rows, each of which fits below a key.
pub fn object_of(alloc: Global, rows: &[Row]) -> Result<Tree, AllocError>
    requires { All (λ row. levels row.value ≤ MAX_KEYS) rows.now }
    ensures { IfOk result (λ tree. tree ≡ object (as_children rows.now)) }
{
    let mut tree = Tree::null();
    let mut left = rows.len();
    while left > 0 {
        let at = left - 1;
        let row = &rows[at];
        put_child(&mut tree, alloc, &row.key, &row.value)?;
        left = at;
    }
    Ok(tree)
}

// Whether none of the children has an integer key.
fn are_words(children: &OrdMap<Key, Tree>) -> bool
    ensures { result ≡ true → AreWords children.now.entries }
{
    for (key, _) in children {
        if is_integer(key) {
            return false;
        }
    }
    true
}

// Whether none of the named children comes to an integer key.
pub fn name_words(named: &[(Key, Tree)]) -> bool
    ensures { result ≡ true → NameWords named.now }
{
    for (key, child) in named {
        if !child.is_null() && is_integer(key) {
            return false;
        }
    }
    true
}

// Whether an index orders children by their keys.
fn is_by_key(index: &Index) -> bool
    ensures { result ≡ true → index.now ≡ Index.Key }
{
    match index {
        Index::Key => true,
        Index::Child(_) | Index::Value => false,
    }
}

// Whether the children of a tree stand in the order of a query that isn't filtered.
pub fn is_ordered(query: &Query, known: &Tree) -> bool
    requires { is_filtered query.now ≡ false }
    ensures { result ≡ true → IsOrdered query.now known.now }
{
    if !is_by_key(query.index()) {
        return false;
    }
    match known.children() {
        Some(children) => are_words(children),
        None => true,
    }
}

// The key of the child before one in a tree, where no key is a number.
pub fn before_in<'a>(known: &'a Tree, key: &Key) -> Option<&'a Key>
    requires word { integer_of key.now ≡ None }
    requires words { AreWords (children_of known.now) }
    ensures { option_copied result ≡ before (Null, key.now) (ordered_in known.now None) }
{
    match known.children()?.before(key) {
        Some(found) => Some(found),
        None => None,
    }
}

// The key of the child that is shown before an entry.
pub fn key_before<'a>(
    known: &'a Tree,
    window: Option<&'a OrderedChildren>,
    position: &Position,
) -> Option<&'a Key>
    requires { CanAsk known.now (option_copied window) position.now }
    ensures { option_copied result
        ≡ before position.now (ordered_in known.now (option_copied window.entry)) }
{
    match window {
        Some(window) => window.before(position),
        None => before_in(known, position.key()),
    }
}

// The children of a tree as rows, in the order of their keys' bytes. Their trees are shared.
fn rows_in(alloc: Global, children: &OrdMap<Key, Tree>) -> Result<Vec<Row>, AllocError>
    ensures { IfOk result (λ rows. rows.items ≡ map row_of (entries_of Index.Key children.now.entries)) }
{
    let mut rows = Vec::with_capacity(alloc, children.len())?;
    for (key, tree) in children {
        let key = key.copy()?;
        let value = tree.copy(alloc)?;
        rows.push(Row { key, value })?;
    }
    Ok(rows)
}

// The children that are shown, as rows.
pub fn rows_of(
    alloc: Global,
    known: &Tree,
    window: Option<&OrderedChildren>,
) -> Result<Vec<Row>, AllocError>
    ensures { IfOk result (λ rows. rows.items
        ≡ map row_of (ordered_in known.now (option_copied window.entry))) }
{
    if let Some(window) = window {
        return window.rows(alloc);
    }
    match known.children() {
        Some(children) => rows_in(alloc, children),
        None => Ok(Vec::new(alloc)),
    }
}
