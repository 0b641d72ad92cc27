// The changes from one view to the next: of two whole views, of the children that are shown otherwise, and of
// one child that changes alone.
ghost use Rattle.std.specs.Prelude.{◌≡◌, IfOk, IfSome, Some, ◌==◌, ◌&&◌, ◌++◌, [], ◌∷◌, false, length};
ghost use Rattle.std.specs.Prelude.{OnOk, true, map, All, None};
ghost use Rattle.std.specs.List.Sorted.{IsStrictlySortedBy};
ghost use Rattle.std.specs.Map.{keys_of};
ghost use Rattle.std.specs.Option.{option_copied, option_eq, option_map_or};
ghost use Rattle.rt_tree.specs.PathTree.{child_of, key_cmp, PathTree, leaf_of, is_null, non_null, put};
ghost use Rattle.rt_query.specs.Rows.{HasDistinctKeys, row_at};
ghost use Rattle.rt_view.specs.declared.change.Change.TheVariants.{Added, Removed};
ghost use Rattle.rt_view.specs.Changes.{Turns, changes, is_added, placed_changes, removals, row_changes};
ghost use Rattle.rt_view.specs.Changes.{rows_in};
ghost use Rattle.rt_view.specs.inside.Given.{change_of, is_given, is_same, row_with, told_alone};
ghost use Rattle.rt_view.specs.inside.Given.{told_there};
ghost use Rattle.rt_tree.specs.Children.{children_of};
ghost use Rattle.rt_tree.specs.TreeEq.{leaf_eq};
ghost use Rattle.rt_query.specs.Queries.{is_filtered};
ghost use Rattle.rt_query.specs.Select.{row_of, select, tree_of};
ghost use Rattle.rt_view.specs.inside.Windows.{Entries, before};
ghost use Rattle.rt_view.specs.inside.ViewIndex.{IsInOrder, IsWindowOf, SetsChild, SetsNoted, changes_to};
ghost use Rattle.rt_view.specs.inside.ViewIndex.{entries_shown, removed_of, shown_by, CanAsk, ComesToWord};
ghost use Rattle.rt_view.specs.inside.ViewIndex.{IsOrdered, ordered_in};
ghost use Rattle.rt_view.specs.inside.Telling.{AreSeen, IsFit, IsNew, IsSeen, given_of, keys_in};
ghost use Rattle.rt_order.specs.Entries.{entry};

use crate::change::{
    Change, ChangeList, Kind, RowChanges, push, push_gone, push_other, push_row, stays, with_whole,
};
use crate::position::{Position, before_in, drop_child, put_child};
use crate::seen::{Seen, Told, find_all_told};
use crate::window::OrderedChildren;
use rt_map::OrdMap;
use rt_order::Index;
use rt_query::{Query, Row, Shown};
use rt_tree::{Key, Leaf, Tree};
use std::alloc::{AllocError, Global};
use std::marker::Model;

// The two places at which the next row is looked for, before it is looked for by its key: rows of two
// views stand mostly in one order. What stands at a place is tested, so any places will do.
pub struct Guess {
    near: usize,
    far: usize,
}

impl Drop for Guess {
    fn drop(self) {
        let Guess { near: _, far: _ } = self;
    }
}

impl Guess {
    // This place, and the one behind it.
    pub fn at(place: usize) -> Guess {
        Guess {
            near: place,
            far: place.wrapping_add(1),
        }
    }

    // A row was found by its key, so rows were passed over that nobody looks for: the farther place goes
    // up faster than rows do.
    fn miss(&mut self) {
        self.far = self.far.wrapping_add(2);
    }
}

// The value of the row at a place, where it is the one of that key.
fn value_there<'a>(rows: &'a [Row], place: usize, key: &Key) -> Option<&'a Tree>
    requires { HasDistinctKeys rows.now }
    ensures { IfSome result (λ value. row_at rows.now key.now ≡ Some value.now) }
{
    let row = rows.get(place)?;
    if row.key == *key {
        Some(&row.value)
    } else {
        None
    }
}

// The value of the row of that key. The guess goes on to the row behind it.
pub fn seek<'a>(view: &'a Shown, guess: &mut Guess, key: &Key) -> Option<&'a Tree>
    ensures { option_copied result ≡ row_at view.now.rows key.now }
{
    let rows = view.rows();
    if let Some(value) = value_there(rows, guess.near, key) {
        *guess = Guess::at(guess.near.wrapping_add(1));
        return Some(value);
    }
    if let Some(value) = value_there(rows, guess.far, key) {
        *guess = Guess::at(guess.far.wrapping_add(1));
        return Some(value);
    }
    let value = view.row(key)?;
    guess.miss();
    Some(value)
}

// A child of a tree, borrowed.
#[derive(Drop)]
pub struct ChildRef<'a> {
    key: &'a Key,
    tree: &'a Tree,
}

impl<'a> Model for ChildRef<'a> {
    ghost use Rattle.rt_tree.specs.PathTree.{Key as KeyValue, PathTree};

    ghost Value = { KeyValue × PathTree };

    ghost view = { λ a. (a.key.now, a.tree.now) };
}

// The children, listed.
pub fn listed<'a>(
    alloc: Global,
    children: &'a OrdMap<Key, Tree>,
) -> Result<Vec<ChildRef<'a>>, AllocError>
    ensures all { IfOk result (λ list. list.items ≡ children.now.entries) }
    ensures rises { IfOk result (λ list. IsStrictlySortedBy key_cmp (keys_of list.items)) }
{
    let mut list = Vec::with_capacity(alloc, children.len())?;
    for (key, tree) in children {
        list.push(ChildRef { key, tree })?;
    }
    Ok(list)
}

// The child at a place, where it is the one of that key.
fn child_there<'a>(list: &[ChildRef<'a>], place: usize, key: &Key) -> Option<&'a Tree>
    requires { IsStrictlySortedBy key_cmp (keys_of list.now) }
    ensures { IfSome result (λ tree. child_of list.now key.now ≡ Some tree.now) }
{
    let child = list.get(place)?;
    if *child.key == *key {
        Some(child.tree)
    } else {
        None
    }
}

// The child of that key, of those that are listed. The guess goes on to the child behind it.
pub fn seek_child<'a>(
    children: &'a OrdMap<Key, Tree>,
    list: &[ChildRef<'a>],
    guess: &mut Guess,
    key: &Key,
) -> Option<&'a Tree>
    requires listed { list.now ≡ children.now.entries }
    requires rises { IsStrictlySortedBy key_cmp (keys_of list.now) }
    ensures { option_copied result ≡ child_of children.now.entries key.now }
{
    if let Some(tree) = child_there(list, guess.near, key) {
        *guess = Guess::at(guess.near.wrapping_add(1));
        return Some(tree);
    }
    if let Some(tree) = child_there(list, guess.far, key) {
        *guess = Guess::at(guess.far.wrapping_add(1));
        return Some(tree);
    }
    let tree = children.get(key)?;
    guess.miss();
    Some(tree)
}

// The rows of a view, or none.
fn rows_in<'a>(view: Option<&'a Shown>) -> &'a [Row]
    ensures { result.now ≡ rows_in (option_copied view.entry) }
{
    match view {
        Some(shown) => shown.rows(),
        None => &[],
    }
}

// The value that a view, or none, shows under a key.
fn value_in<'a>(view: Option<&'a Shown>, guess: &mut Guess, key: &Key) -> Option<&'a Tree>
    ensures { option_copied result ≡ row_at (rows_in (option_copied view.entry)) key.now }
{
    match view {
        Some(shown) => seek(shown, guess, key),
        None => None,
    }
}

// Whether no row changed, there was a view, and it is the new one.
fn is_same(changes: &[Change], old: Option<&Shown>, new: &Shown) -> bool
    ensures { result ≡ (length changes.now == 0 && is_same (option_copied old.entry) new.now) }
{
    match old {
        Some(old) => changes.is_empty() && old == new,
        None => false,
    }
}

// The old rows whose keys are gone.
fn push_removals(
    changes: &mut Vec<Change>,
    alloc: Global,
    old: &[Row],
    new: &Shown,
) -> Result<(), AllocError>
    ensures { OnOk result (changes.new.items ≡ changes.old.items ++ removals old.now new.now.rows) }
{
    let mut guess = Guess::at(0);
    for gone in old {
        if seek(new, &mut guess, &gone.key).is_none() {
            push_gone(changes, alloc, &gone.key, &gone.value)?;
        }
    }
    Ok(())
}

// What is told of the new rows, each with the key of the row before it.
fn push_rows(
    told: &mut RowChanges,
    alloc: Global,
    index: &Index,
    old: Option<&Shown>,
    new: &[Row],
) -> Result<(), AllocError>
    ensures added { OnOk result (told.new.first.items ≡ told.old.first.items
        ++ placed_changes (is_given Kind.Added index.now) (change_of Kind.Added)
        (rows_in (option_copied old.entry)) new.now) }
    ensures moved { OnOk result (told.new.moved.items ≡ told.old.moved.items
        ++ placed_changes (is_given Kind.Moved index.now) (change_of Kind.Moved)
        (rows_in (option_copied old.entry)) new.now) }
    ensures changed { OnOk result (told.new.changed.items ≡ told.old.changed.items
        ++ placed_changes (is_given Kind.Changed index.now) (change_of Kind.Changed)
        (rows_in (option_copied old.entry)) new.now) }
{
    let mut guess = Guess::at(0);
    let mut before = None;
    for row in new {
        let was = value_in(old, &mut guess, &row.key);
        push_row(told, alloc, index, was, &row.key, &row.value, before)?;
        before = Some(&row.key);
    }
    Ok(())
}

// The changes of the rows, in the order in which they are told.
fn rows_between(
    alloc: Global,
    index: &Index,
    old: Option<&Shown>,
    new: &Shown,
) -> Result<Vec<Change>, AllocError>
    ensures changes { IfOk result (λ changes. changes.items
        ≡ row_changes index.now (rows_in (option_copied old.entry)) new.now.rows) }
    ensures distinct { OnOk result (HasDistinctKeys new.now.rows) }
{
    let mut told = RowChanges::none(alloc);
    push_removals(&mut told.first, alloc, rows_in(old), new)?;
    push_rows(&mut told, alloc, index, old, new.rows())?;
    told.joined()
}

/// The changes from the old view, or none, to the new one, in the order in which they are told: the
/// removed rows by their old places; then those added, those moved (their sort value differs) and
/// those changed (their value differs), each kind by the new places; then the whole view, where it
/// differs or is the first. Played over the old rows they give the new ones. The order of kinds is
/// that of the Firebase SDKs. Fails for want of memory alone.
pub fn changes(
    alloc: Global,
    index: &Index,
    old: Option<&Shown>,
    new: &Shown,
) -> Result<ChangeList, AllocError>
    ensures exact { IfOk result (λ list. list ≡ changes index.now (option_copied old.entry) new.now) }
    ensures turns { IfOk result (λ list. Turns (option_copied old.entry) list (Some new.now)) }
{
    let rows = rows_between(alloc, index, old, new)?;
    let same = is_same(rows.as_slice(), old, new);
    with_whole(alloc, rows, same, new.tree())
}

// What is told of the children of a tree, in the order of their keys, where there was no view: each is
// added behind the one before it.
fn added_all(alloc: Global, known: &Tree) -> Result<Vec<Change>, AllocError>
    ensures { IfOk result (λ changes. changes.items
        ≡ placed_changes is_added Added [] (map row_of (ordered_in known.now None))) }
{
    let Some(children) = known.children() else {
        return Ok(Vec::new(alloc));
    };
    let mut changes = Vec::with_capacity(alloc, children.len())?;
    let mut before = None;
    for (key, tree) in children {
        push(&mut changes, alloc, Kind::Added, key, tree, before)?;
        before = Some(key);
    }
    Ok(changes)
}

// The changes from no view to a tree in the query's order, whose rows stand in the tree.
pub fn tell_first(alloc: Global, query: &Query, known: &Tree) -> Result<ChangeList, AllocError>
    requires { IsOrdered query.now known.now }
    ensures { IfOk result (λ list. list ≡ changes query.now.index None (select query.now known.now)) }
{
    // For the prover: whose rows these are.
    let _ = query;
    let rows = added_all(alloc, known)?;
    with_whole(alloc, rows, false, known)
}

// The children that are shown no more.
fn push_removed(
    changes: &mut Vec<Change>,
    alloc: Global,
    gone: &[(Position, Tree)],
) -> Result<(), AllocError>
    ensures { OnOk result (changes.new.items ≡ changes.old.items ++ map removed_of gone.now) }
{
    for (position, old) in gone {
        push_gone(changes, alloc, position.key(), old)?;
    }
    Ok(())
}

// What is told of the children that are shown now.
fn push_told(
    told: &mut RowChanges,
    alloc: Global,
    index: &Index,
    now: &[(Position, Told)],
) -> Result<(), AllocError>
    ensures added { OnOk result (told.new.first.items
        ≡ told.old.first.items ++ given_of Kind.Added index.now now.now) }
    ensures moved { OnOk result (told.new.moved.items
        ≡ told.old.moved.items ++ given_of Kind.Moved index.now now.now) }
    ensures changed { OnOk result (told.new.changed.items
        ≡ told.old.changed.items ++ given_of Kind.Changed index.now now.now) }
{
    for (position, one) in now {
        let old = one.old.as_ref();
        let after = one.after.as_ref();
        push_row(told, alloc, index, old, position.key(), &one.new, after)?;
    }
    Ok(())
}

// The changes of the rows, from what was shown to what is shown now.
fn noted_changes(
    alloc: Global,
    query: &Query,
    known: &Tree,
    window: Option<&OrderedChildren>,
    seen: &[Seen],
) -> Result<Vec<Change>, AllocError>
    requires order { IsInOrder query.now known.now (option_copied window) }
    requires seen { All (IsNew (entries_shown query.now known.now)) seen.now }
    ensures { IfOk result (λ changes. (t : PathTree)
        → AreSeen query.now.index t (entries_shown query.now known.now) seen.now
        → changes.items ≡ changes_to query.now.index t (entries_shown query.now known.now)) }
{
    let found = find_all_told(alloc, query, known, window, seen)?;
    let mut told = RowChanges::none(alloc);
    push_removed(&mut told.first, alloc, found.gone.as_slice())?;
    push_told(&mut told, alloc, query.index(), found.now.as_slice())?;
    told.joined()
}

// Puts a child in its place in a tree of children, as it is shown now.
fn set_child(tree: &mut Tree, alloc: Global, seen: &Seen) -> Result<(), AllocError>
    requires object { leaf_of tree.old ≡ None }
    requires fits { IsFit seen.now }
    ensures object { OnOk result (leaf_of tree.new ≡ None) }
    ensures set { OnOk result (SetsChild seen.now.key seen.now.new (children_of tree.old)
        (children_of tree.new)) }
{
    let Some(child) = &seen.new else {
        drop_child(tree, alloc, &seen.key)?;
        return Ok(());
    };
    put_child(tree, alloc, &seen.key, child)?;
    Ok(())
}

// Puts the noted children in their places in a tree of children, as they are shown now.
fn set_noted(tree: &mut Tree, alloc: Global, seen: &[Seen]) -> Result<(), AllocError>
    requires object { leaf_of tree.old ≡ None }
    requires fits { All IsFit seen.now }
    ensures object { OnOk result (leaf_of tree.new ≡ None) }
    ensures set { OnOk result ((t : PathTree) (shown : Entries) → All (IsSeen t shown) seen.now
        → SetsNoted (keys_in seen.now) shown (children_of tree.old) (children_of tree.new)) }
{
    for one in seen {
        set_child(tree, alloc, one)?;
    }
    Ok(())
}

// The changes from a tree that was shown to what is shown now, and the tree of that, where the query
// is filtered: it shows children alone.
pub fn tell_filtered(
    tree: &mut Tree,
    alloc: Global,
    query: &Query,
    known: &Tree,
    window: &OrderedChildren,
    seen: &[Seen],
) -> Result<ChangeList, AllocError>
    requires filtered { is_filtered query.now ≡ true }
    requires object { leaf_of tree.old ≡ None }
    requires kept { IsWindowOf query.now known.now window.now }
    requires seen { AreSeen query.now.index tree.old (entries_shown query.now known.now) seen.now }
    ensures tree { OnOk result (tree.new ≡ tree_of (select query.now known.now)) }
    ensures changes { IfOk result (λ list. list
        ≡ changes query.now.index (Some (shown_by query.now.index tree.old))
        (select query.now known.now)) }
{
    // For the prover: each known child fits below a key.
    let _ = known.children();
    let rows = noted_changes(alloc, query, known, Some(window), seen)?;
    if rows.is_empty() {
        return Ok(ChangeList::of(rows));
    }
    set_noted(tree, alloc, seen)?;
    with_whole(alloc, rows, false, tree)
}

// Whether no row changed, and the leaf that stood in the tree's place, or none, stands there now.
fn is_same_plain(changes: &[Change], known: &Tree, leaf: Option<&Leaf>) -> bool
    ensures { result ≡ (length changes.now == 0
        && option_eq leaf_eq (option_copied leaf.entry) (leaf_of known.now)) }
{
    if !changes.is_empty() {
        return false;
    }
    match (leaf, known.as_leaf()) {
        (Some(old), Some(new)) => old == new,
        (None, None) => true,
        (Some(_), None) | (None, Some(_)) => false,
    }
}

// The changes of the rows, and then the whole view, where it differs from a tree that was shown. The
// query isn't filtered, so the known tree is shown as it is. Of the tree before there is only the leaf
// that it was, or none.
pub fn with_value(
    alloc: Global,
    query: &Query,
    known: &Tree,
    rows: Vec<Change>,
    leaf: Option<&Leaf>,
) -> Result<ChangeList, AllocError>
    requires { is_filtered query.now ≡ false }
    ensures { IfOk result (λ list. (t : PathTree)
        → rows.items ≡ changes_to query.now.index t (entries_shown query.now known.now)
        → leaf_of t ≡ option_copied leaf.entry
        → list ≡ changes query.now.index (Some (shown_by query.now.index t))
        (select query.now known.now)) }
{
    let same = is_same_plain(rows.as_slice(), known, leaf);
    with_whole(alloc, rows, same, known)
}

// The changes to what is shown now from a tree that was shown, where the query isn't filtered. Of the
// tree before there is only what was under the noted keys, and the leaf that it was, or none.
pub fn tell_plain(
    alloc: Global,
    query: &Query,
    known: &Tree,
    window: Option<&OrderedChildren>,
    seen: &[Seen],
    leaf: Option<&Leaf>,
) -> Result<ChangeList, AllocError>
    requires order { IsInOrder query.now known.now (option_copied window) }
    requires plain { is_filtered query.now ≡ false }
    requires seen { All (IsNew (entries_shown query.now known.now)) seen.now }
    ensures { IfOk result (λ list. (t : PathTree)
        → AreSeen query.now.index t (entries_shown query.now known.now) seen.now
        → leaf_of t ≡ option_copied leaf.entry
        → list ≡ changes query.now.index (Some (shown_by query.now.index t))
        (select query.now known.now)) }
{
    let rows = noted_changes(alloc, query, known, window, seen)?;
    with_value(alloc, query, known, rows, leaf)
}

// What is told of a child that isn't there now, by what stood at its key, or none.
fn gone_alone(alloc: Global, key: &Key, old: Option<&Tree>) -> Result<Vec<Change>, AllocError>
    ensures { IfOk result (λ changes. changes.items
        ≡ option_map_or (λ t. Removed key.now t ∷ []) (option_copied old.entry) []) }
{
    let mut changes = Vec::new(alloc);
    if let Some(old) = old {
        push_gone(&mut changes, alloc, key, old)?;
    }
    Ok(changes)
}

// What is told of a child that is there now, by what stood at its key, or none. The child before it is
// looked for where something is told.
fn there_alone(
    alloc: Global,
    index: &Index,
    known: &Tree,
    key: &Key,
    old: Option<&Tree>,
    new: &Tree,
) -> Result<Vec<Change>, AllocError>
    requires { CanAsk known.now None (entry index.now (key.now, new.now)) }
    ensures { IfOk result (λ changes. changes.items ≡ told_there index.now (option_copied old.entry)
        (row_with key.now new.now)
        (before (entry index.now (key.now, new.now)) (ordered_in known.now None))) }
{
    let mut told = RowChanges::none(alloc);
    if stays(old, new) {
        return told.joined();
    }
    let after = before_in(known, key);
    push_other(&mut told, alloc, index, old, key, new, after)?;
    told.joined()
}

// What is told of one key of a tree in the order of its keys, by what stood there, or none, and what
// stands there now, or null.
fn changes_alone(
    alloc: Global,
    index: &Index,
    known: &Tree,
    key: &Key,
    old: Option<&Tree>,
    new: &Tree,
) -> Result<Vec<Change>, AllocError>
    requires { is_null new.now ≡ false → CanAsk known.now None (entry index.now (key.now, new.now)) }
    ensures { IfOk result (λ changes. changes.items ≡ told_alone index.now key.now
        (option_copied old.entry) (non_null new.now) (ordered_in known.now None)) }
{
    if new.is_null() {
        return gone_alone(alloc, key, old);
    }
    there_alone(alloc, index, known, key, old, new)
}

// The changes from a tree in the query's order, of which there is only what stood at the key, and the
// leaf that it was, or none.
pub fn tell_alone(
    alloc: Global,
    query: &Query,
    known: &Tree,
    key: &Key,
    old: Option<&Tree>,
    new: &Tree,
    leaf: Option<&Leaf>,
) -> Result<ChangeList, AllocError>
    requires kept { IsOrdered query.now known.now }
    requires word { ComesToWord (key.now, new.now) }
    ensures { IfOk result (λ list. (t : PathTree)
        → known.now ≡ put t (key.now ∷ []) new.now
        → option_copied old.entry ≡ child_of (children_of t) key.now
        → leaf_of t ≡ option_copied leaf.entry
        → list ≡ changes query.now.index (Some (select query.now t)) (select query.now known.now)) }
{
    let rows = changes_alone(alloc, query.index(), known, key, old, new)?;
    with_value(alloc, query, known, rows, leaf)
}
