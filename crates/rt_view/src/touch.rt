// Named children, put into a known tree and its window, or into a tree in the query's order; and those that
// turn one tree into another.
ghost use Rattle.std.specs.Prelude.{◌≡◌, ◌≤◌, ◌∷◌, [], true, false, All, IfOk, OnOk, Some, IfSome, ◌++◌};
ghost use Rattle.std.specs.Option.{option_copied};
ghost use Rattle.rt_tree.specs.PathTree.{PathTree, child_of, levels, put, key_cmp};
ghost use Rattle.rt_tree.specs.Children.{children_of};
ghost use Rattle.rt_query.specs.Queries.{is_filtered};
ghost use Rattle.rt_query.specs.Select.{select, tree_of};
ghost use Rattle.rt_view.specs.Changes.{changes};
ghost use Rattle.rt_view.specs.Views.{with_named};
ghost use Rattle.rt_view.specs.inside.Windows.{Becomes, IsListed, IsWhole, all_of, known_in, shown_in};
ghost use Rattle.rt_view.specs.inside.Windows.{value_at};
ghost use Rattle.rt_view.specs.inside.Turns.{Comes, Leaves, Stands, Values};
ghost use Rattle.rt_view.specs.inside.ViewIndex.{ComesToWord, IsOrdered, IsWindowOf, NameWords, brought_in};
ghost use Rattle.rt_view.specs.inside.ViewIndex.{rows_in_tree, stands_in, wholly};
ghost use Rattle.rt_view.specs.inside.Telling.{AllSeen, KeepsSeen, kept_by, left_by, takes_place};
ghost use Rattle.std.specs.List.Sorted.{IsStrictlySortedBy};
ghost use Rattle.std.specs.Map.{keys_of};
ghost use Rattle.rt_view.specs.inside.Differences.{come, differing, gone};

use crate::change::{ChangeList, stays};
use crate::difference::{
    ChildRef, Guess, listed, seek_child, tell_alone, tell_filtered, tell_plain,
};
use crate::position::{Position, copy_leaf, put_child};
use crate::seen::{Seen, in_key_order, note_stands, note_turned};
use crate::window::{OrderedChildren, Turned};
use rt_map::OrdMap;
use rt_order::{Index, sort_value, value_cmp};
use rt_query::Query;
use rt_tree::{Key, MAX_KEYS, Tree};
use std::alloc::{AllocError, Global};

// Whether a child that comes takes the place of the one that stood at its key.
fn takes_place(index: &Index, old: &Tree, new: &Tree) -> bool
    ensures { result ≡ takes_place index.now old.now new.now }
{
    !new.is_null() && value_cmp(&sort_value(index, old), &sort_value(index, new)).is_eq()
}

// Takes out what stood at a key, where the child that comes doesn't take its place.
fn take_out(
    window: &mut OrderedChildren,
    alloc: Global,
    query: &Query,
    key: &Key,
    child: Option<&Tree>,
    new: &Tree,
) -> Result<Turned, AllocError>
    requires whole { IsWhole window.old }
    requires range { window.old.children.range ≡ query.now.range }
    ensures limit { window.new.limit ≡ window.old.limit }
    ensures range { window.new.children.range ≡ window.old.children.range }
    ensures known { OnOk result (known_in window.new ≡ left_by (wholly query.now) key.now
        (option_copied child.entry) new.now (known_in window.old)) }
    ensures taken { OnOk result
        (Becomes window.old window.new (left_by query.now key.now (option_copied child.entry) new.now
        (all_of window.old))) }
    ensures leaves { IfOk result (λ turned. (t : PathTree) → IsWindowOf query.now t window.old
        → child_of (children_of t) key.now ≡ option_copied child.entry
        → Leaves query.now key.now (option_copied child.entry) new.now turned.was turned.crossed
        (shown_in window.old) (shown_in window.new)) }
{
    let Some(child) = child else {
        return Ok(Turned::none());
    };
    if takes_place(query.index(), child, new) {
        return Ok(Turned::none());
    }
    let position = Position::of(alloc, query.index(), key, child)?;
    window.take(alloc, &position)
}

// Puts a child at a key, where nothing is shown, or one in whose place it comes.
fn bring_in(
    window: &mut OrderedChildren,
    alloc: Global,
    query: &Query,
    key: &Key,
    child: &Tree,
) -> Result<Turned, AllocError>
    requires whole { IsWhole window.old }
    requires range { window.old.children.range ≡ query.now.range }
    ensures limit { window.new.limit ≡ window.old.limit }
    ensures range { window.new.children.range ≡ window.old.children.range }
    ensures known { OnOk result (known_in window.new
        ≡ brought_in (wholly query.now) key.now child.now (known_in window.old)) }
    ensures put { OnOk result
        (Becomes window.old window.new (brought_in query.now key.now child.now (all_of window.old))) }
    ensures comes { IfOk result (λ turned. IsListed query.now.index (shown_in window.old)
        → Stands query.now key.now child.now (shown_in window.old)
        → Comes key.now child.now turned.was turned.is turned.crossed
        (shown_in window.old) (shown_in window.new)) }
{
    if child.is_null() {
        return Ok(Turned::none());
    }
    let position = Position::of(alloc, query.index(), key, child)?;
    let child = child.copy(alloc)?;
    window.put(alloc, position, child)
}

// Puts a child in the place of the one at its key, in the known tree and in its window. What stood at the
// key is found once; what is shown otherwise since, there and for the cut that moves, is noted. Where an
// equal child stood there, nothing is.
fn touch_child(
    known: &mut Tree,
    window: &mut OrderedChildren,
    noted: &mut Vec<Seen>,
    alloc: Global,
    query: &Query,
    key: &Key,
    child: &Tree,
) -> Result<(), AllocError>
    requires kept { IsWindowOf query.now known.old window.old }
    requires fits { levels child.now ≤ MAX_KEYS }
    ensures put { OnOk result (known.new ≡ put known.old (key.now ∷ []) child.now) }
    ensures kept { OnOk result (IsWindowOf query.now known.new window.new) }
    ensures seen { OnOk result ((first : Values)
        → KeepsSeen first (value_at (shown_in window.old)) (kept_by noted.old.items)
        → KeepsSeen first (value_at (shown_in window.new)) (kept_by noted.new.items)) }
{
    let old = put_child(known, alloc, key, child)?;
    let was = old.as_ref();
    if stays(was, child) {
        return Ok(());
    }
    let left = take_out(window, alloc, query, key, was, child)?;
    let came = bring_in(window, alloc, query, key, child)?;
    note_turned(noted, alloc, key, was, child, &left, &came)
}

// Puts the named children in their places. What was and what is shown is noted under the keys where
// that may differ, in their order.
fn touch_all(
    known: &mut Tree,
    window: &mut OrderedChildren,
    alloc: Global,
    query: &Query,
    named: &[(Key, Tree)],
) -> Result<Vec<Seen>, AllocError>
    requires kept { IsWindowOf query.now known.old window.old }
    requires fits { All (λ c. levels c.1 ≤ MAX_KEYS) named.now }
    ensures put { OnOk result (known.new ≡ with_named known.old named.now) }
    ensures kept { OnOk result (IsWindowOf query.now known.new window.new) }
    ensures seen { IfOk result (λ seen.
        AllSeen (shown_in window.old) (shown_in window.new) seen.items) }
{
    let mut noted = Vec::new(alloc);
    for (key, child) in named {
        touch_child(known, window, &mut noted, alloc, query, key, child)?;
    }
    in_key_order(alloc, noted)
}

// Puts the named children in their places, and tells what changes. The query isn't filtered, so the
// known tree is what is shown.
pub fn touch_plain(
    known: &mut Tree,
    window: &mut OrderedChildren,
    alloc: Global,
    query: &Query,
    named: &[(Key, Tree)],
) -> Result<ChangeList, AllocError>
    requires kept { IsWindowOf query.now known.old window.old }
    requires plain { is_filtered query.now ≡ false }
    requires fits { All (λ c. levels c.1 ≤ MAX_KEYS) named.now }
    ensures put { OnOk result (known.new ≡ with_named known.old named.now) }
    ensures kept { OnOk result (IsWindowOf query.now known.new window.new) }
    ensures changes { IfOk result (λ list. list ≡ changes query.now.index
        (Some (select query.now known.old)) (select query.now known.new)) }
{
    let leaf = copy_leaf(alloc, known)?;
    let seen = touch_all(known, window, alloc, query, named)?;
    let window: &OrderedChildren = window;
    tell_plain(
        alloc,
        query,
        known,
        Some(window),
        seen.as_slice(),
        leaf.as_ref(),
    )
}

// Puts the named children in their places, and tells what changes. What a filtered query shows stands
// in a tree of its own.
pub fn touch_filtered(
    known: &mut Tree,
    window: &mut OrderedChildren,
    tree: &mut Tree,
    alloc: Global,
    query: &Query,
    named: &[(Key, Tree)],
) -> Result<ChangeList, AllocError>
    requires kept { IsWindowOf query.now known.old window.old }
    requires filtered { is_filtered query.now ≡ true }
    requires tree { tree.old ≡ tree_of (select query.now known.old) }
    requires fits { All (λ c. levels c.1 ≤ MAX_KEYS) named.now }
    ensures put { OnOk result (known.new ≡ with_named known.old named.now) }
    ensures kept { OnOk result (IsWindowOf query.now known.new window.new) }
    ensures tree { OnOk result (tree.new ≡ tree_of (select query.now known.new)) }
    ensures changes { IfOk result (λ list. list ≡ changes query.now.index
        (Some (select query.now known.old)) (select query.now known.new)) }
{
    let seen = touch_all(known, window, alloc, query, named)?;
    tell_filtered(tree, alloc, query, known, window, seen.as_slice())
}

// Puts one child in the place of the one at its key, in a tree in the query's order, and tells what
// changes.
fn touch_alone(
    known: &mut Tree,
    alloc: Global,
    query: &Query,
    key: &Key,
    child: &Tree,
) -> Result<ChangeList, AllocError>
    requires kept { IsOrdered query.now known.old }
    requires word { ComesToWord (key.now, child.now) }
    requires fits { levels child.now ≤ MAX_KEYS }
    ensures put { OnOk result (known.new ≡ put known.old (key.now ∷ []) child.now) }
    ensures kept { OnOk result (IsOrdered query.now known.new) }
    ensures changes { IfOk result (λ list. list ≡ changes query.now.index
        (Some (select query.now known.old)) (select query.now known.new)) }
{
    let leaf = copy_leaf(alloc, known)?;
    let old = put_child(known, alloc, key, child)?;
    tell_alone(alloc, query, known, key, old.as_ref(), child, leaf.as_ref())
}

// Puts a child in the place of the one at its key, in a tree in the query's order. What stood there and
// what stands there now is noted, where the two differ.
fn touch_there(
    known: &mut Tree,
    noted: &mut Vec<Seen>,
    alloc: Global,
    key: &Key,
    child: &Tree,
) -> Result<(), AllocError>
    requires { levels child.now ≤ MAX_KEYS }
    ensures put { OnOk result (known.new ≡ put known.old (key.now ∷ []) child.now) }
    ensures seen { OnOk result ((first : Values)
        → KeepsSeen first (stands_in known.old) (kept_by noted.old.items)
        → KeepsSeen first (stands_in known.new) (kept_by noted.new.items)) }
{
    let old = put_child(known, alloc, key, child)?;
    let was = old.as_ref();
    if stays(was, child) {
        return Ok(());
    }
    note_stands(noted, alloc, key, was, child)
}

// Puts the named children in their places, in a tree in the query's order. What stood and what stands
// at their keys is noted, in their order.
fn touch_each(
    known: &mut Tree,
    alloc: Global,
    named: &[(Key, Tree)],
) -> Result<Vec<Seen>, AllocError>
    requires { All (λ c. levels c.1 ≤ MAX_KEYS) named.now }
    ensures put { OnOk result (known.new ≡ with_named known.old named.now) }
    ensures seen { IfOk result (λ seen.
        AllSeen (rows_in_tree Index.Key known.old) (rows_in_tree Index.Key known.new) seen.items) }
{
    let mut noted = Vec::new(alloc);
    for (key, child) in named {
        touch_there(known, &mut noted, alloc, key, child)?;
    }
    in_key_order(alloc, noted)
}

// Puts the named children in their places, in a tree in the query's order, and tells what changes.
pub fn touch_ordered(
    known: &mut Tree,
    alloc: Global,
    query: &Query,
    named: &[(Key, Tree)],
) -> Result<ChangeList, AllocError>
    requires kept { IsOrdered query.now known.old }
    requires words { NameWords named.now }
    requires fits { All (λ c. levels c.1 ≤ MAX_KEYS) named.now }
    ensures put { OnOk result (known.new ≡ with_named known.old named.now) }
    ensures kept { OnOk result (IsOrdered query.now known.new) }
    ensures changes { IfOk result (λ list. list ≡ changes query.now.index
        (Some (select query.now known.old)) (select query.now known.new)) }
{
    if let Some((first, rest)) = named.split_first() {
        if rest.is_empty() {
            return touch_alone(known, alloc, query, &first.0, &first.1);
        }
    }
    let leaf = copy_leaf(alloc, known)?;
    let seen = touch_each(known, alloc, named)?;
    tell_plain(alloc, query, known, None, seen.as_slice(), leaf.as_ref())
}

// One of so many children is named at most: where more differ, all of them are put in their places anew.
const CHILDREN_TO_ONE: usize = 4;

// Names the children that are gone: each null.
fn name_gone(
    named: &mut Vec<(Key, Tree)>,
    old: &OrdMap<Key, Tree>,
    new: &OrdMap<Key, Tree>,
    list: &[ChildRef<'_>],
) -> Result<(), AllocError>
    requires listed { list.now ≡ new.now.entries }
    requires rises { IsStrictlySortedBy key_cmp (keys_of list.now) }
    ensures { OnOk result (named.new.items
        ≡ named.old.items ++ gone old.now.entries new.now.entries) }
{
    let mut guess = Guess::at(0);
    for (key, _) in old {
        if seek_child(new, list, &mut guess, key).is_none() {
            named.push((key.copy()?, Tree::null()))?;
        }
    }
    Ok(())
}

// Names the children that come, or differ.
fn name_come(
    named: &mut Vec<(Key, Tree)>,
    alloc: Global,
    old: &OrdMap<Key, Tree>,
    new: &OrdMap<Key, Tree>,
    list: &[ChildRef<'_>],
) -> Result<(), AllocError>
    requires listed { list.now ≡ old.now.entries }
    requires rises { IsStrictlySortedBy key_cmp (keys_of list.now) }
    ensures { OnOk result (named.new.items
        ≡ named.old.items ++ come old.now.entries new.now.entries) }
{
    let mut guess = Guess::at(0);
    for (key, tree) in new {
        if !stays(seek_child(old, list, &mut guess, key), tree) {
            named.push((key.copy()?, tree.copy(alloc)?))?;
        }
    }
    Ok(())
}

// The named children that turn some children into others.
fn differing(
    alloc: Global,
    old: &OrdMap<Key, Tree>,
    new: &OrdMap<Key, Tree>,
) -> Result<Vec<(Key, Tree)>, AllocError>
    ensures { IfOk result (λ named. named.items ≡ differing old.now.entries new.now.entries) }
{
    let olds = listed(alloc, old)?;
    let news = listed(alloc, new)?;
    let mut named = Vec::new(alloc);
    name_gone(&mut named, old, new, news.as_slice())?;
    name_come(&mut named, alloc, old, new, olds.as_slice())?;
    Ok(named)
}

// The named children that turn one tree into the other, where both have children, and few of them
// differ.
pub fn few_differing(
    alloc: Global,
    old: &Tree,
    new: &Tree,
) -> Result<Option<Vec<(Key, Tree)>>, AllocError>
    ensures turns { IfOk result (λ found. IfSome found (λ named.
        with_named old.now named.items ≡ new.now)) }
    ensures fits { IfOk result (λ found. IfSome found (λ named.
        All (λ c. levels c.1 ≤ MAX_KEYS) named.items)) }
{
    let Some(olds) = old.children() else {
        return Ok(None);
    };
    let Some(news) = new.children() else {
        return Ok(None);
    };
    let named = differing(alloc, olds, news)?;
    if named.len() > news.len() / CHILDREN_TO_ONE {
        return Ok(None);
    }
    Ok(Some(named))
}
