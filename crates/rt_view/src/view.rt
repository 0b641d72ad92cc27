// A view, changed child by child, and what it keeps beside its tree.
ghost use Rattle.std.specs.Prelude.{◌≡◌, ◌≤◌, ◌↔◌, true, All, IfOk, OnOk, OnErr, IsTrue, None, Some, Err};
ghost use Rattle.std.specs.Prelude.{not, length};
ghost use Rattle.rt_tree.specs.PathTree.{levels, key_eq};
ghost use Rattle.rt_query.specs.Select.{select};
ghost use Rattle.rt_view.specs.Changes.{changes};
ghost use Rattle.rt_view.specs.Errors.{code_of, name_of};
ghost use Rattle.rt_view.specs.Views.{first_view, leaves_child, renewed, shown_of, stays_object, told};
ghost use Rattle.rt_view.specs.Views.{touched, with_named};
ghost use Rattle.std.specs.Option.{option_copied};
ghost use Rattle.rt_query.specs.Queries.{is_filtered};
ghost use Rattle.rt_view.specs.declared.view.ViewIndex.TheVariants.{Ordered};
ghost use Rattle.rt_view.specs.inside.ViewIndex.{IsKept, NameWords, tree_in, window_in};
ghost use Rattle.std.specs.List.{list_any};
ghost use Rattle.std.specs.Map.{keys_of};

use crate::change::ChangeList;
use crate::difference::{changes, tell_first};
use crate::position::{copy_leaf, count, is_ordered, name_words, object_of, rows_of, window_of};
use crate::touch::{few_differing, touch_filtered, touch_ordered, touch_plain};
use crate::window::OrderedChildren;
use rt_map::OrdMap;
use rt_query::{Query, Shown};
use rt_tree::{Key, MAX_KEYS, Tree};
use std::alloc::{AllocError, Global};
use std::marker::Model;
use std::mem::replace;
use thiserror::Error;

/// Why a view gives no answer.
#[derive(Clone, Copy, Debug, PartialEq, Eq, Error)]
pub enum ViewError {
    /// An earlier call lacked memory.
    #[error("it has lacked memory before")]
    Failed,
    /// This call lacked memory.
    #[error("out of memory")]
    NoMemory,
}

impl ViewError {
    /// The number of the error, from 1 to 2.
    pub fn code(&self) -> u8
        ensures { result ≡ code_of self.now }
    {
        match self {
            ViewError::Failed => 1,
            ViewError::NoMemory => 2,
        }
    }

    /// The name of the error, as it is printed.
    pub fn name(&self) -> &'static str
        ensures { result.now ≡ name_of self.now }
    {
        match self {
            ViewError::Failed => "Failed",
            ViewError::NoMemory => "NoMemory",
        }
    }
}

impl From<AllocError> for ViewError {
    ghost use Rattle.std.specs.Prelude.{◌≡◌};
    ghost use Rattle.rt_view.specs.declared.view.ViewError.TheVariants.{NoMemory};

    ghost from_gives = { λ _ e. e ≡ NoMemory };

    fn from(_e: AllocError) -> ViewError {
        ViewError::NoMemory
    }
}

/// What a query shows of a tree that changes, kept so that a change of few children costs by these,
/// and not by all.
pub struct View {
    query: Query,
    known: Tree,
    kept: ViewIndex,
    reads: u64,
    turns: u64,
    failed: bool,
}

impl Drop for View {
    fn drop(self) {
        let View {
            query: _,
            known: _,
            kept: _,
            reads: _,
            turns: _,
            failed: _,
        } = self;
    }
}

impl Model for View {
    ghost use Rattle.std.specs.Prelude.{◌≡◌, false};
    ghost use Rattle.rt_view.specs.Views.{View};
    ghost use Rattle.rt_view.specs.inside.ViewIndex.{IsKept};

    ghost Value = { View };

    ghost view = { λ a. record {
      query = a.query;
      tree = a.known;
      reads = a.reads;
      turns = a.turns;
      failed = a.failed;
    } };

    ghost invariant = { λ a. a.failed ≡ false → IsKept a.query a.known a.kept };
}

// Whether a child is there once the named ones are put in.
fn leaves_child(tree: &Tree, named: &[(Key, Tree)]) -> bool
    ensures { result ≡ leaves_child tree.now named.now }
{
    if named.iter().any(|child| !child.1.is_null()) {
        return true;
    }
    match tree.children() {
        Some(children) => has_other(children, named),
        None => false,
    }
}

impl View {
    /// The first view of a tree, and its changes from no view.
    pub fn first(alloc: Global, query: Query, known: Tree) -> Result<(View, ChangeList), AllocError>
        ensures view { IfOk result (λ p. p.0 ≡ first_view query known) }
        ensures changes { IfOk result (λ p. p.1 ≡ changes query.index None (select query known)) }
    {
        let kept = kept_of(alloc, &query, &known)?;
        let changes = first_changes(alloc, &query, &known, &kept)?;
        let reads = count(&known);
        let view = View {
            query,
            known,
            kept,
            reads,
            turns: 1,
            failed: false,
        };
        Ok((view, changes))
    }

    /// Shows another tree in place of the one that is known, and answers the changes.
    ///
    /// After `NoMemory` the view has failed. So it has where the children of both trees together are
    /// 2^64 or more, which no memory holds.
    pub fn renew(&mut self, alloc: Global, known: Tree) -> Result<ChangeList, ViewError>
        ensures renewed { OnOk result (self.new ≡ renewed self.old known) }
        ensures changes { IfOk result (λ list. list ≡ told self.old (renewed self.old known)) }
        ensures failed { IsTrue self.old.failed ↔ (result ≡ Err ViewError.Failed) }
        ensures gives_up { OnErr result (self.new.failed ≡ true) }
    {
        if self.failed {
            return Err(ViewError::Failed);
        }
        let Some(reads) = count(&self.known).checked_add(count(&known)) else {
            self.failed = true;
            return Err(ViewError::NoMemory);
        };
        if self.known == known {
            self.reads = reads;
            self.turns = self.turns.wrapping_add(1);
            return Ok(ChangeList::of(Vec::new(alloc)));
        }
        let Ok(changes) = renew_kept(&mut self.known, &mut self.kept, alloc, &self.query, &known)
        else {
            self.failed = true;
            return Err(ViewError::NoMemory);
        };
        drop(replace(&mut self.known, known));
        self.reads = reads;
        self.turns = self.turns.wrapping_add(1);
        Ok(changes)
    }

    /// Puts the named children in the place of the tree's own, one after another, and answers the
    /// changes; null takes a child out. A named child has at most 31 keys above a leaf, as the
    /// children of any tree. Costs by the named children and by the changes, also while somebody
    /// holds a copy of the tree or of a `Value`.
    ///
    /// After `NoMemory` the view has failed.
    pub fn touch(&mut self, alloc: Global, named: Vec<(Key, Tree)>) -> Result<ChangeList, ViewError>
        requires { All (λ c. levels c.1 ≤ MAX_KEYS) named.items }
        ensures touched { OnOk result (self.new ≡ touched self.old named.items) }
        ensures changes { IfOk result (λ list. list ≡ told self.old (touched self.old named.items)) }
        ensures failed { IsTrue self.old.failed ↔ (result ≡ Err ViewError.Failed) }
        ensures gives_up { OnErr result (self.new.failed ≡ true) }
    {
        if self.failed {
            return Err(ViewError::Failed);
        }
        self.failed = true;
        let named = named.as_slice();
        let changes = touch_kept(&mut self.known, &mut self.kept, alloc, &self.query, named)?;
        self.reads = named.len() as u64;
        self.turns = self.turns.wrapping_add(1);
        self.failed = false;
        Ok(changes)
    }

    /// Whether the tree is an object before and after the named children are put into it, or comes to
    /// be one from null: no leaf stands there, and a child is there afterwards. Takes no memory, and
    /// costs by the named children alone where they are in the order of keys; one that is not is looked
    /// for among all of them.
    pub fn stays_object(&self, named: &[(Key, Tree)]) -> bool
        ensures { result ≡ stays_object self.now.tree named.now }
    {
        self.known.as_leaf().is_none() && leaves_child(&self.known, named)
    }

    /// What is shown; its trees are shared, and it costs by its rows. Nothing changes.
    pub fn shown(&self) -> Result<Shown, ViewError>
        ensures shown { IfOk result (λ shown. shown ≡ shown_of self.now) }
        ensures failed { IsTrue self.now.failed ↔ (result ≡ Err ViewError.Failed) }
    {
        if self.failed {
            return Err(ViewError::Failed);
        }
        let shown = shown_of(&self.query, &self.known, &self.kept)?;
        Ok(shown)
    }

    /// How many children the last of [`View::first`], [`View::renew`] and [`View::touch`] took anew.
    pub fn reads(&self) -> u64
        ensures { result ≡ self.now.reads }
    {
        self.reads
    }

    /// How many of these calls there were, the first included, modulo 2^64.
    pub fn turns(&self) -> u64
        ensures { result ≡ self.now.turns }
    {
        self.turns
    }
}

// What is kept of a tree beside it: nothing, where its children stand in the query's order; all of them
// in order; or with these what a filtered query shows, as a tree of its own.
#[derive(Drop)]
pub enum ViewIndex {
    Ordered,
    Plain(OrderedChildren),
    Filtered(OrderedChildren, Tree),
}

impl ViewIndex {
    // The children in order, where they are kept.
    fn window(&self) -> Option<&OrderedChildren>
        ensures { option_copied result ≡ window_in self.now }
    {
        match self {
            ViewIndex::Ordered => None,
            ViewIndex::Plain(window) | ViewIndex::Filtered(window, _) => Some(window),
        }
    }

    // What is shown as a tree: one of its own, or the known one.
    fn tree<'a>(&'a self, known: &'a Tree) -> &'a Tree
        ensures { result.now ≡ tree_in known.now self.now }
    {
        match self {
            ViewIndex::Ordered | ViewIndex::Plain(_) => known,
            ViewIndex::Filtered(_, tree) => tree,
        }
    }
}

// What is kept of a tree of which a filtered query shows a part.
fn filtered_of(alloc: Global, query: &Query, known: &Tree) -> Result<ViewIndex, AllocError>
    requires { is_filtered query.now ≡ true }
    ensures { IfOk result (λ kept. IsKept query.now known.now kept) }
{
    // For the prover: each known child fits below a key.
    let _ = known.children();
    let window = window_of(alloc, query, known)?;
    let rows = window.rows(alloc)?;
    let tree = object_of(alloc, rows.as_slice())?;
    Ok(ViewIndex::Filtered(window, tree))
}

// What is kept of a tree.
fn kept_of(alloc: Global, query: &Query, known: &Tree) -> Result<ViewIndex, AllocError>
    ensures { IfOk result (λ kept. IsKept query.now known.now kept) }
{
    if query.is_filtered() {
        return filtered_of(alloc, query, known);
    }
    if is_ordered(query, known) {
        return Ok(ViewIndex::Ordered);
    }
    let window = window_of(alloc, query, known)?;
    Ok(ViewIndex::Plain(window))
}

// What is shown, by what is kept.
pub fn shown_of(query: &Query, known: &Tree, kept: &ViewIndex) -> Result<Shown, AllocError>
    requires { IsKept query.now known.now kept.now }
    ensures { IfOk result (λ shown. shown ≡ select query.now known.now) }
{
    let alloc = query.path().allocator();
    let tree = kept.tree(known);
    let leaf = copy_leaf(alloc, tree)?;
    let rows = rows_of(alloc, known, kept.window())?;
    let whole = tree.copy(alloc)?;
    Ok(Shown::of(leaf, rows, whole))
}

// The changes from no view to the first one.
fn first_changes(
    alloc: Global,
    query: &Query,
    known: &Tree,
    kept: &ViewIndex,
) -> Result<ChangeList, AllocError>
    requires { IsKept query.now known.now kept.now }
    ensures { IfOk result (λ list. list ≡ changes query.now.index None (select query.now known.now)) }
{
    match kept {
        ViewIndex::Ordered => tell_first(alloc, query, known),
        ViewIndex::Plain(_) | ViewIndex::Filtered(_, _) => {
            let shown = shown_of(query, known, kept)?;
            changes(alloc, query.index(), None, &shown)
        }
    }
}

// Keeps the children in order, where they stood so in the tree and a named one comes to an integer key.
fn order_numbers(
    kept: &mut ViewIndex,
    alloc: Global,
    query: &Query,
    known: &Tree,
    named: &[(Key, Tree)],
) -> Result<(), AllocError>
    requires { IsKept query.now known.now kept.old }
    ensures kept { OnOk result (IsKept query.now known.now kept.new) }
    ensures words { OnOk result (kept.new ≡ Ordered → NameWords named.now) }
{
    match kept {
        ViewIndex::Ordered => {
            if name_words(named) {
                return Ok(());
            }
        }
        ViewIndex::Plain(_) | ViewIndex::Filtered(_, _) => return Ok(()),
    }
    let window = window_of(alloc, query, known)?;
    drop(replace(kept, ViewIndex::Plain(window)));
    Ok(())
}

// Puts the named children in their places, and tells what changes.
pub fn touch_kept(
    known: &mut Tree,
    kept: &mut ViewIndex,
    alloc: Global,
    query: &Query,
    named: &[(Key, Tree)],
) -> Result<ChangeList, AllocError>
    requires kept { IsKept query.now known.old kept.old }
    requires fits { All (λ c. levels c.1 ≤ MAX_KEYS) named.now }
    ensures put { OnOk result (known.new ≡ with_named known.old named.now) }
    ensures kept { OnOk result (IsKept query.now known.new kept.new) }
    ensures changes { IfOk result (λ list. list ≡ changes query.now.index
        (Some (select query.now known.old)) (select query.now known.new)) }
{
    order_numbers(kept, alloc, query, known, named)?;
    match kept {
        ViewIndex::Ordered => touch_ordered(known, alloc, query, named),
        ViewIndex::Plain(window) => touch_plain(known, window, alloc, query, named),
        ViewIndex::Filtered(window, tree) => touch_filtered(
            known, window, tree, alloc, query, named,
        ),
    }
}

// Makes what is kept of another tree anew, and tells what changes.
fn make_anew(
    known: &Tree,
    kept: &mut ViewIndex,
    alloc: Global,
    query: &Query,
    new: &Tree,
) -> Result<ChangeList, AllocError>
    requires kept { IsKept query.now known.now kept.old }
    ensures kept { OnOk result (IsKept query.now new.now kept.new) }
    ensures changes { IfOk result (λ list. list ≡ changes query.now.index
        (Some (select query.now known.now)) (select query.now new.now)) }
{
    let old = shown_of(query, known, kept)?;
    let made = kept_of(alloc, query, new)?;
    let shown = shown_of(query, new, &made)?;
    let changes = changes(alloc, query.index(), Some(&old), &shown)?;
    drop(replace(kept, made));
    Ok(changes)
}

// Turns what is kept of one tree into what is kept of another one, and tells what changes: child by
// child, where few differ.
pub fn renew_kept(
    known: &mut Tree,
    kept: &mut ViewIndex,
    alloc: Global,
    query: &Query,
    new: &Tree,
) -> Result<ChangeList, AllocError>
    requires kept { IsKept query.now known.old kept.old }
    ensures kept { OnOk result (IsKept query.now new.now kept.new) }
    ensures changes { IfOk result (λ list. list ≡ changes query.now.index
        (Some (select query.now known.old)) (select query.now new.now)) }
{
    let Some(named) = few_differing(alloc, known, new)? else {
        return make_anew(known, kept, alloc, query, new);
    };
    touch_kept(known, kept, alloc, query, named.as_slice())
}

// The first place, from one on, at which no key stands that is in front of this one.
fn place_from(named: &[(Key, Tree)], from: usize, key: &Key) -> usize
    ensures { result ≤ length named.now }
{
    for at in from..named.len() {
        if named[at].0 >= *key {
            return at;
        }
    }
    named.len()
}

// Whether the key stands at a place.
fn stands_at(named: &[(Key, Tree)], at: usize, key: &Key) -> bool
    ensures { result ≡ true → list_any (λ c. key_eq c.0 key.now) named.now ≡ true }
{
    match named.get(at) {
        Some(child) => child.0 == *key,
        None => false,
    }
}

// Whether the key is one of the named ones. Keys that are asked for in order are found from the next
// place on, where the named ones are in order too; what stands there is tested, so any order will do.
fn is_named(named: &[(Key, Tree)], next: &mut usize, key: &Key) -> bool
    ensures { result ≡ list_any (λ c. key_eq c.0 key.now) named.now }
{
    *next = place_from(named, *next, key);
    if stands_at(named, *next, key) {
        return true;
    }
    named.iter().any(|child| child.0 == *key)
}

// Whether one of the children is none of the named ones. It goes over the children until it meets one.
pub fn has_other(children: &OrdMap<Key, Tree>, named: &[(Key, Tree)]) -> bool
    ensures { result ≡ list_any (λ k. not (list_any (λ d. key_eq d.0 k) named.now))
        (keys_of children.now.entries) }
{
    let mut next = 0;
    for key in children.keys() {
        if !is_named(named, &mut next, key) {
            return true;
        }
    }
    false
}
