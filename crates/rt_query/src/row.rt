// A child as a query shows it.
ghost use Rattle.std.specs.Prelude.{◌≡◌, IfOk, OnOk, cond, Some, map, [], OnSome};
ghost use Rattle.std.specs.List.Sorted.{IsPermutation, IsSorted};
ghost use Rattle.std.specs.Option.{option_copied};
ghost use Rattle.rt_tree.specs.Allowed.{IsAllowed};
ghost use Rattle.rt_tree.specs.PathTree.{Key as KeyValue, key_eq, child_of, object};
ghost use Rattle.rt_query.specs.Rows.{HasDistinctKeys, HasNoNull, row_at};
ghost use Rattle.rt_query.specs.Select.{as_children, row_of, tree_of};
ghost use Rattle.rt_order.specs.Cuts.{has};
ghost use Rattle.rt_order.specs.Entries.{entry};
ghost use Rattle.rt_query.specs.inside.Sorting.{seen, child_cmp};
ghost use Rattle.rt_query.specs.inside.ShownView.{IsShown};

use rt_map::OrdMap;
use rt_order::{Index, PlacedRef, Range, SortRef, sort_value, value_cmp};
use rt_tree::{Key, Leaf, Tree};
use std::alloc::{AllocError, Global};
use std::cmp::Ordering;
use std::marker::Model;

/// A child and its key, as a query shows them.
#[derive(Debug)]
pub struct Row {
    /// The child's key.
    pub key: Key,
    /// What stands at the child.
    pub value: Tree,
}

impl Drop for Row {
    fn drop(self) {
        let Row { key: _, value: _ } = self;
    }
}

impl Row {
    /// An equal row. Its tree is shared.
    pub fn copy(&self, alloc: Global) -> Result<Row, AllocError>
        ensures { IfOk result (λ row. row ≡ self.now) }
    {
        let key = self.key.copy()?;
        let value = self.value.copy(alloc)?;
        Ok(Row { key, value })
    }
}

impl PartialEq for Row {
    ghost use Rattle.std.specs.Cmp as Cmp;
    ghost use Rattle.rt_query.specs.QueryEq.{row_eq};
    ghost use Rattle.rt_query.specs.laws.QueryEq.{row_eq_tells};
    ghost use Rattle.rt_tree.specs.TreeEq.{equivalence};

    ghost eq = { row_eq };

    ghost laws = { Cmp.partial_equiv_from_equiv (equivalence row_eq_tells) };

    fn eq(&self, other: &Row) -> bool {
        self.key == other.key && self.value == other.value
    }
}

impl Eq for Row {
    ghost use Rattle.rt_query.specs.laws.QueryEq.{row_eq_tells};
    ghost use Rattle.rt_tree.specs.TreeEq.{equivalence};

    ghost laws = { equivalence row_eq_tells };
}

// Equal rows.
pub(crate) fn copy_rows(rows: &Vec<Row>) -> Result<Vec<Row>, AllocError>
    ensures { IfOk result (λ copies. copies.items ≡ rows.now.items) }
{
    let alloc = *rows.allocator();
    let mut copies = Vec::new(alloc);
    for row in rows {
        copies.push(row.copy(alloc)?)?;
    }
    Ok(copies)
}

// Puts a child in; the one that stood there goes.
fn add(
    children: &mut OrdMap<Key, Tree>,
    alloc: Global,
    key: Key,
    child: Tree,
) -> Result<(), AllocError>
    ensures { OnOk result ((k : KeyValue)
        → child_of children.new.entries k
        ≡ cond (key_eq key k) (Some child) (child_of children.old.entries k)) }
{
    children.insert(alloc, key, child)?;
    Ok(())
}

// The rows as children, in a map.
fn children_of(alloc: Global, rows: &[Row]) -> Result<OrdMap<Key, Tree>, AllocError>
    requires { HasDistinctKeys rows.now }
    ensures { IfOk result (λ children. (k : KeyValue)
        → child_of children.entries k ≡ row_at rows.now k) }
{
    let mut children = OrdMap::new(alloc)?;
    for row in rows {
        let key = row.key.copy()?;
        let child = row.value.copy(alloc)?;
        add(&mut children, alloc, key, child)?;
    }
    Ok(children)
}

// The object of the rows.
pub(crate) fn object_of(alloc: Global, rows: &[Row]) -> Result<Tree, AllocError>
    requires distinct { HasDistinctKeys rows.now }
    requires full { HasNoNull rows.now }
    requires allowed { IsAllowed (object (as_children rows.now)) }
    ensures { IfOk result (λ tree. tree ≡ object (as_children rows.now)) }
{
    let children = children_of(alloc, rows)?;
    Ok(Tree::object(children))
}

// ---- the children that a query looks at

// A child where it stands: what it is sorted by, its key, whose number is read once, and its tree.
#[derive(Drop)]
pub(crate) struct Child<'a> {
    rank: SortRef<'a>,
    key: PlacedRef<'a>,
    tree: &'a Tree,
}

impl<'a> Child<'a> {
    pub(crate) fn of(index: &Index, key: &'a Key, tree: &'a Tree) -> Child<'a>
        ensures { seen result ≡ (entry index.now (key.now, tree.now), tree.now) }
    {
        Child {
            rank: sort_value(index, tree),
            key: PlacedRef::of(key),
            tree,
        }
    }

    pub(crate) fn is_in(&self, range: &Range) -> bool
        ensures { result ≡ has range.now ((seen self.now).0) }
    {
        range.has_entry(&self.rank, &self.key)
    }
}

// The order of children: by sort value, then by key.
#[tactic(auto, unfolding(crate::specs::inside::Sorting::child_cmp))]
fn child_cmp(a: &Child<'_>, b: &Child<'_>) -> Ordering
    ensures { result ≡ child_cmp a.now b.now }
{
    match value_cmp(&a.rank, &b.rank) {
        Ordering::Equal => a.key.cmp(&b.key),
        by_value => by_value,
    }
}

// Puts children in order.
pub(crate) fn sort(children: &mut Vec<Child<'_>>)
    ensures permutation { IsPermutation children.old.items children.new.items }
    ensures sorted { IsSorted child_cmp children.new.items }
{
    children.sort_unstable_by(|a, b| child_cmp(a, b));
}

// The children as rows. Their trees are shared.
pub(crate) fn rows(alloc: Global, children: &[Child<'_>]) -> Result<Vec<Row>, AllocError>
    ensures { IfOk result (λ rows. rows.items ≡ map row_of (map seen children.now)) }
{
    let mut rows = Vec::with_capacity(alloc, children.len())?;
    for child in children {
        let key = child.key.key().copy()?;
        let value = child.tree.copy(alloc)?;
        rows.push(Row { key, value })?;
    }
    Ok(rows)
}

// ---- what a query shows of a tree

/// What a query shows of a tree: a leaf, or rows in the query's order; neither, where there is
/// nothing to show.
#[derive(Debug)]
pub struct Shown {
    leaf: Option<Leaf>,
    rows: Vec<Row>,
    tree: Tree,
}

impl Drop for Shown {
    fn drop(self) {
        let Shown {
            leaf: _,
            rows: _,
            tree: _,
        } = self;
    }
}

impl Model for Shown {
    ghost use Rattle.rt_query.specs.Select.{Shown};
    ghost use Rattle.rt_query.specs.inside.ShownView.{IsShown};

    ghost Value = { Shown };

    ghost view = { λ a. record { leaf = a.leaf; rows = a.rows.items } };

    ghost invariant = { λ a. IsShown a.leaf a.rows.items a.tree };
}

impl Shown {
    /// A leaf, or rows, with the tree that they are. Takes no memory.
    pub fn of(leaf: Option<Leaf>, rows: Vec<Row>, tree: Tree) -> Shown
        requires { IsShown leaf rows.items tree }
        ensures { result ≡ record { leaf = leaf; rows = rows.items } }
    {
        Shown { leaf, rows, tree }
    }

    /// The leaf, where the tree is one and the query shows it. There are no rows then.
    pub fn leaf(&self) -> Option<&Leaf>
        ensures leaf { option_copied result ≡ self.now.leaf }
        ensures alone { OnSome result (self.now.rows ≡ []) }
    {
        self.leaf.as_ref()
    }

    /// The rows, in the query's order. Each key stands once, and no row is null.
    pub fn rows(&self) -> &[Row]
        ensures rows { result.now ≡ self.now.rows }
        ensures distinct { HasDistinctKeys self.now.rows }
        ensures full { HasNoNull self.now.rows }
    {
        self.rows.as_slice()
    }

    /// The value of the row of that key.
    pub fn row(&self, key: &Key) -> Option<&Tree>
        ensures { option_copied result ≡ row_at self.now.rows key.now }
    {
        match self.tree.children() {
            Some(children) => children.get(key),
            None => None,
        }
    }

    /// What is shown, as one tree: the leaf, or the object of the rows.
    pub fn tree(&self) -> &Tree
        ensures { result.now ≡ tree_of self.now }
    {
        &self.tree
    }

    /// An equal view. Its trees are shared.
    pub fn copy(&self) -> Result<Shown, AllocError>
        ensures { IfOk result (λ shown. shown ≡ self.now) }
    {
        let alloc = *self.rows.allocator();
        let leaf = match &self.leaf {
            Some(leaf) => Some(leaf.copy(alloc)?),
            None => None,
        };
        let rows = copy_rows(&self.rows)?;
        let tree = self.tree.copy(alloc)?;
        Ok(Shown { leaf, rows, tree })
    }
}

impl PartialEq for Shown {
    ghost use Rattle.std.specs.Cmp as Cmp;
    ghost use Rattle.rt_query.specs.QueryEq.{shown_eq};
    ghost use Rattle.rt_query.specs.laws.QueryEq.{shown_eq_tells};
    ghost use Rattle.rt_tree.specs.TreeEq.{equivalence};

    ghost eq = { shown_eq };

    ghost laws = { Cmp.partial_equiv_from_equiv (equivalence shown_eq_tells) };

    fn eq(&self, other: &Shown) -> bool {
        self.leaf == other.leaf && self.rows == other.rows
    }
}

impl Eq for Shown {
    ghost use Rattle.rt_query.specs.laws.QueryEq.{shown_eq_tells};
    ghost use Rattle.rt_tree.specs.TreeEq.{equivalence};

    ghost laws = { equivalence shown_eq_tells };
}
