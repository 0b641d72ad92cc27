// A query.
ghost use Rattle.std.specs.Prelude.{◌≡◌, IfOk, map};
ghost use Rattle.std.specs.Ordering.{ordering_then, flip_args};
ghost use Rattle.std.specs.Option.{option_cmp};
ghost use Rattle.rt_tree.specs.Allowed.{IsAllowed};
ghost use Rattle.rt_tree.specs.PathTree.{leaf_of};
ghost use Rattle.rt_tree.specs.Children.{children_of};
ghost use Rattle.rt_query.specs.Queries.{IsQuery, is_filtered};
ghost use Rattle.rt_query.specs.Drafts.{new_draft};
ghost use Rattle.rt_query.specs.Ranges.{is_lower_within, is_upper_within, takes_in};
ghost use Rattle.rt_query.specs.Select.{select, rows_of, limited};
ghost use Rattle.rt_query.specs.inside.Sorting.{in_range, seen};
ghost use Rattle.rt_query.specs.Supply.{form, does_supply};
ghost use Rattle.rt_order.specs.CutOrder.{cut_cmp};
ghost use Rattle.rt_query.specs.QueryOrder.{index_cmp, limit_cmp, range_cmp, query_cmp, unlimited};

use crate::draft::Draft;
use crate::row::{self, Child, Row, Shown, object_of};
use rt_map::OrdMap;
use rt_order::{Cut, Index, Range, cut_cmp};
use rt_tree::{Key, Leaf, Path, Tree};
use std::alloc::{AllocError, Global};
use std::cmp::Ordering;
use std::marker::Model;

/// What a listener asks for: the children of a path in an order, of these a range, and of that a
/// limited number.
#[derive(Debug)]
pub struct Query {
    pub(crate) path: Path,
    pub(crate) index: Index,
    pub(crate) range: Range,
    pub(crate) limit: Option<Limit>,
}

impl Drop for Query {
    fn drop(self) {
        let Query {
            path: _,
            index: _,
            range: _,
            limit: _,
        } = self;
    }
}

impl Model for Query {
    ghost use Rattle.rt_query.specs.Queries.{Query, IsQuery};

    ghost Value = { Query };

    ghost view = { λ a. record { path = a.path; index = a.index; range = a.range; limit = a.limit } };

    ghost invariant = { λ a. IsQuery
        (record { path = a.path; index = a.index; range = a.range; limit = a.limit }) };
}

impl Query {
    /// Begins a query of the path, in key order, of all children.
    pub fn at(path: Path) -> Draft
        ensures { result ≡ new_draft path }
    {
        Draft::of(path)
    }

    /// The path that is asked for.
    pub fn path(&self) -> &Path
        ensures { result.now ≡ self.now.path }
    {
        &self.path
    }

    /// What the children are ordered by.
    pub fn index(&self) -> &Index
        ensures { result.now ≡ self.now.index }
    {
        &self.index
    }

    /// The range of the children that are shown. In key order its cuts have the value null.
    pub fn range(&self) -> &Range
        ensures range { result.now ≡ self.now.range }
        ensures valid { IsQuery self.now }
    {
        &self.range
    }

    /// How many are shown at most, if the query says so. It is at least 1.
    pub fn limit(&self) -> Option<Limit>
        ensures limit { result ≡ self.now.limit }
        ensures valid { IsQuery self.now }
    {
        self.limit
    }

    /// Whether the query has a start, an end or a limit. Any other shows all that is at its path.
    pub fn is_filtered(&self) -> bool
        ensures { result ≡ is_filtered self.now }
    {
        self.range.lower.is_some() || self.range.upper.is_some() || self.limit.is_some()
    }

    /// An equal query.
    pub fn copy(&self) -> Result<Query, AllocError>
        ensures { IfOk result (λ query. query ≡ self.now) }
    {
        let alloc = self.path.allocator();
        let path = self.path.copy()?;
        let index = self.index.copy(alloc)?;
        let range = self.range.copy(alloc)?;
        Ok(Query {
            path,
            index,
            range,
            limit: self.limit,
        })
    }

    /// What is listened to for this query: an unfiltered query is listened to as the plain query of
    /// its path.
    pub fn listening_form(&self) -> Result<Query, AllocError>
        ensures { IfOk result (λ query. query ≡ form self.now) }
    {
        if self.is_filtered() {
            self.copy()
        } else {
            Ok(Query::at(self.path.copy()?).done())
        }
    }

    /// Whether listening to this query brings what the other one needs: it is the other's listening
    /// form, or it is unfiltered and its path is at or above the other's, or it is a range that takes
    /// in the other's. Takes no memory.
    pub fn supplies(&self, other: &Query) -> bool
        ensures { result ≡ does_supply self.now other.now }
    {
        if self.is_filtered() {
            self == other || self.takes_in(other)
        } else {
            self.path.is_prefix_of(&other.path)
        }
    }

    /// Whether this is a range without a limit, of the other query's path and order, that takes in the
    /// other's range: what a server sends for it is then enough to show the other, whose limit doesn't
    /// matter. A query without a start, an end or a limit is no range.
    pub fn takes_in(&self, other: &Query) -> bool
        ensures { result ≡ takes_in self.now other.now }
    {
        self.is_filtered()
            && other.is_filtered()
            && self.path == other.path
            && self.index == other.index
            && self.limit.is_none()
            && is_lower_within(&self.range.lower, &other.range.lower)
            && is_upper_within(&self.range.upper, &other.range.upper)
    }

    /// What the query shows of a tree, as the Firebase reference has it: the children in the range,
    /// in order, and of these the first or the last n. Of a leaf it shows no rows, and the leaf itself
    /// only where the query is not filtered.
    ///
    /// The tree's children are shared. Each is looked at once, its key read as a number once; those
    /// in the range are sorted once where they stand, and rows are made only of those that are shown.
    pub fn select(&self, tree: &Tree) -> Result<Shown, AllocError>
        ensures { IfOk result (λ shown. shown ≡ select self.now tree.now) }
    {
        let alloc = self.path.allocator();
        let rows = self.rows(tree)?;
        if self.is_filtered() {
            let whole = object_of(alloc, rows.as_slice())?;
            return Ok(Shown::of(None, rows, whole));
        }
        let leaf = copy_leaf(alloc, tree)?;
        let whole = tree.copy(alloc)?;
        Ok(Shown::of(leaf, rows, whole))
    }

    // The rows that the query shows.
    fn rows(&self, tree: &Tree) -> Result<Vec<Row>, AllocError>
        ensures rows { IfOk result (λ rows. rows.items ≡ rows_of self.now (children_of tree.now)) }
        ensures allowed { IsAllowed tree.now }
    {
        let Some(children) = tree.children() else {
            return Ok(Vec::new(self.path.allocator()));
        };
        let mut children = self.children_in_range(children)?;
        row::sort(&mut children);
        cut(self.limit, &mut children);
        row::rows(self.path.allocator(), children.as_slice())
    }

    // The children in the range, in the order of their keys' bytes.
    fn children_in_range<'a>(
        &self,
        children: &'a OrdMap<Key, Tree>,
    ) -> Result<Vec<Child<'a>>, AllocError>
        ensures { IfOk result (λ found. map seen found.items ≡ in_range self.now children.now.entries) }
    {
        let mut found = Vec::with_capacity(self.path.allocator(), children.len())?;
        for (key, tree) in children {
            let child = Child::of(&self.index, key, tree);
            if child.is_in(&self.range) {
                found.push(child)?;
            }
        }
        Ok(found)
    }
}

impl PartialEq for Query {
    ghost use Rattle.std.specs.Cmp as Cmp;
    ghost use Rattle.rt_query.specs.QueryEq.{query_eq};
    ghost use Rattle.rt_query.specs.laws.QueryEq.{query_eq_tells};
    ghost use Rattle.rt_tree.specs.TreeEq.{equivalence};

    ghost eq = { query_eq };

    ghost laws = { Cmp.partial_equiv_from_equiv (equivalence query_eq_tells) };

    fn eq(&self, other: &Query) -> bool {
        self.path == other.path
            && self.index == other.index
            && self.range == other.range
            && self.limit == other.limit
    }
}

impl Eq for Query {
    ghost use Rattle.rt_query.specs.laws.QueryEq.{query_eq_tells};
    ghost use Rattle.rt_tree.specs.TreeEq.{equivalence};

    ghost laws = { equivalence query_eq_tells };
}

// Whether a lower cut leaves out no more than another.
fn is_lower_within(outer: &Option<Cut>, inner: &Option<Cut>) -> bool
    ensures { result ≡ is_lower_within outer.now inner.now }
{
    match (outer, inner) {
        (None, _) => true,
        (Some(_), None) => false,
        (Some(outer), Some(inner)) => cut_cmp(outer, inner).is_le(),
    }
}

// Whether an upper cut leaves out no more than another.
fn is_upper_within(outer: &Option<Cut>, inner: &Option<Cut>) -> bool
    ensures { result ≡ is_upper_within outer.now inner.now }
{
    match (outer, inner) {
        (None, _) => true,
        (Some(_), None) => false,
        (Some(outer), Some(inner)) => cut_cmp(inner, outer).is_le(),
    }
}

// The leaf that a tree is, if it is one.
fn copy_leaf(alloc: Global, tree: &Tree) -> Result<Option<Leaf>, AllocError>
    ensures { IfOk result (λ leaf. leaf ≡ leaf_of tree.now) }
{
    match tree.as_leaf() {
        Some(leaf) => Ok(Some(leaf.copy(alloc)?)),
        None => Ok(None),
    }
}

// ---- how many rows a query shows at most

/// How many rows are shown at most. Of a query's limit the number is at least 1.
#[derive(Clone, Copy, Debug, PartialEq, Eq)]
pub enum Limit {
    /// The first rows (`limitToFirst` of the Firebase reference).
    First(u32),
    /// The last rows, in the same order (`limitToLast`).
    Last(u32),
}

// Keeps the first n, or the last n, where there is a limit.
pub(crate) fn cut<T: Drop>(limit: Option<Limit>, rows: &mut Vec<T>)
    ensures { rows.new.items ≡ limited limit rows.old.items }
{
    match limit {
        Some(Limit::First(n)) => rows.truncate(n as usize),
        Some(Limit::Last(n)) => {
            let surplus = rows.len().saturating_sub(n as usize);
            drop(rows.drain(..surplus));
        }
        None => {}
    }
}

// ---- the order of queries

// By keys, then by children, then by values.
fn index_cmp(a: &Index, b: &Index) -> Ordering
    ensures { result ≡ index_cmp a.now b.now }
{
    match (a, b) {
        (Index::Child(path), Index::Child(other)) => path.cmp(other),
        (Index::Key, Index::Key) | (Index::Value, Index::Value) => Ordering::Equal,
        (Index::Key, _) | (_, Index::Value) => Ordering::Less,
        (Index::Value, _) | (_, Index::Key) => Ordering::Greater,
    }
}

// The first rows, then the last.
fn limit_cmp(a: Limit, b: Limit) -> Ordering
    ensures { result ≡ limit_cmp a b }
{
    match (a, b) {
        (Limit::First(m), Limit::First(n)) | (Limit::Last(m), Limit::Last(n)) => m.cmp(&n),
        (Limit::First(_), Limit::Last(_)) => Ordering::Less,
        (Limit::Last(_), Limit::First(_)) => Ordering::Greater,
    }
}

// The same where there may be none, which comes first.
fn limits_cmp(a: Option<Limit>, b: Option<Limit>) -> Ordering
    ensures { result ≡ option_cmp limit_cmp a b }
{
    match (a, b) {
        (Some(limit), Some(other)) => limit_cmp(limit, other),
        (None, None) => Ordering::Equal,
        (None, Some(_)) => Ordering::Less,
        (Some(_), None) => Ordering::Greater,
    }
}

// Lower cuts: the one that leaves out less comes first.
fn lower_cmp(a: &Option<Cut>, b: &Option<Cut>) -> Ordering
    ensures { result ≡ option_cmp cut_cmp a.now b.now }
{
    match (a, b) {
        (Some(cut), Some(other)) => cut_cmp(cut, other),
        (None, None) => Ordering::Equal,
        (None, Some(_)) => Ordering::Less,
        (Some(_), None) => Ordering::Greater,
    }
}

// Upper cuts, so too.
fn upper_cmp(a: &Option<Cut>, b: &Option<Cut>) -> Ordering
    ensures { result ≡ option_cmp (flip_args cut_cmp) a.now b.now }
{
    match (a, b) {
        (Some(cut), Some(other)) => cut_cmp(other, cut),
        (None, None) => Ordering::Equal,
        (None, Some(_)) => Ordering::Less,
        (Some(_), None) => Ordering::Greater,
    }
}

// By the lower cut, and of those with one the widest first.
fn range_cmp(a: &Range, b: &Range) -> Ordering
    ensures { result ≡ range_cmp a.now b.now }
{
    lower_cmp(&a.lower, &b.lower).then_with(|| upper_cmp(&a.upper, &b.upper))
}

// By limit, of which the second has this one, and then by range.
fn shown_cmp(a: &Query, b: &Query, limit: Option<Limit>) -> Ordering
    ensures { result ≡ ordering_then (option_cmp limit_cmp a.now.limit limit)
        (range_cmp a.now.range b.now.range) }
{
    limits_cmp(a.limit, limit).then_with(|| range_cmp(&a.range, &b.range))
}

// By what the children are ordered by, and then by limit and range.
fn beside_cmp(a: &Query, b: &Query, limit: Option<Limit>) -> Ordering
    ensures { result ≡ ordering_then (index_cmp a.now.index b.now.index)
        (ordering_then (option_cmp limit_cmp a.now.limit limit)
        (range_cmp a.now.range b.now.range)) }
{
    index_cmp(&a.index, &b.index).then_with(|| shown_cmp(a, b, limit))
}

/// The order of queries: by path, by what the children are ordered by, without a limit first, by the
/// lower cut, and of those with one lower cut the widest first. Only equal queries tie. Of the queries
/// of a list in this order one is found by halving, and those of a path stand together.
pub fn query_cmp(a: &Query, b: &Query) -> Ordering
    ensures { result ≡ query_cmp a.now b.now }
{
    a.path.cmp(&b.path).then_with(|| beside_cmp(a, b, b.limit))
}

/// The same, as if the second had no limit. Ranges that take in the second stand no further than it
/// would then, so that where none of a list takes in another the last of these alone is asked.
pub fn unlimited_cmp(a: &Query, b: &Query) -> Ordering
    ensures { result ≡ query_cmp a.now (unlimited b.now) }
{
    a.path.cmp(&b.path).then_with(|| beside_cmp(a, b, None))
}
