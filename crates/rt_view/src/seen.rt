// What is shown otherwise under each key, and what is told of it, each child found once.
ghost use Rattle.std.specs.Prelude.{◌≡◌, true, All, IfOk, IfSome, OnOk};
ghost use Rattle.std.specs.Option.{option_copied, option_map_or};
ghost use Rattle.std.specs.FinMap as map_of;
ghost use Rattle.std.specs.FinMap.Entries.{find};
ghost use Rattle.std.specs.Map.{values_of};
ghost use Rattle.rt_tree.specs.PathTree.{PathTree, key_cmp, non_null};
ghost use Rattle.rt_order.specs.Entries.{entry, entry_cmp};
ghost use Rattle.rt_view.specs.inside.Windows.{before};
ghost use Rattle.rt_view.specs.inside.ViewIndex.{CanAsk, IsInOrder, entries_shown, gone_at, gone_from, noted_in};
ghost use Rattle.rt_view.specs.inside.ViewIndex.{ordered_in, rows_in_tree};
ghost use Rattle.rt_view.specs.inside.Telling.{IsNew, IsSeen, gone_too, keys_in, kept_by, put_all, seen_in};
ghost use Rattle.rt_view.specs.inside.Telling.{seen_out, seen_too, seen_turned, told_in, told_too};

use crate::change::copy_key;
use crate::position::{Position, key_before};
use crate::window::{OrderedChildren, Turned};
use rt_order::Index;
use rt_query::Query;
use rt_tree::{Key, Tree};
use std::alloc::{AllocError, Global};
use std::collections::BTreeMap;

// What was shown under a key, and what is shown there now.
pub struct Seen {
    pub key: Key,
    pub old: Option<Tree>,
    pub new: Option<Tree>,
}

impl Drop for Seen {
    fn drop(self) {
        let Seen {
            key: _,
            old: _,
            new: _,
        } = self;
    }
}

// A child that is shown now: what was shown under its key, its value, and the key of the one that is
// shown before it.
pub struct Told {
    pub old: Option<Tree>,
    pub new: Tree,
    pub after: Option<Key>,
}

impl Drop for Told {
    fn drop(self) {
        let Told {
            old: _,
            new: _,
            after: _,
        } = self;
    }
}

// The noted children in order: those that are shown no more, and those that are shown now.
pub struct Noted {
    pub gone: Vec<(Position, Tree)>,
    pub now: Vec<(Position, Told)>,
}

impl Drop for Noted {
    fn drop(self) {
        let Noted { gone: _, now: _ } = self;
    }
}

// An equal tree, where there is one.
pub fn copy_tree(alloc: Global, tree: Option<&Tree>) -> Result<Option<Tree>, AllocError>
    ensures { IfOk result (λ copy. copy ≡ option_copied tree.entry) }
{
    match tree {
        Some(tree) => Ok(Some(tree.copy(alloc)?)),
        None => Ok(None),
    }
}

// `insert`, without what was there.
fn set_seen(seen: &mut BTreeMap<Key, Seen>, key: Key, one: Seen) -> Result<(), AllocError>
    ensures { OnOk result (seen.new.entries ≡ map_of.put key_cmp key one seen.old.entries) }
{
    seen.insert(key, one)?;
    Ok(())
}

// What was shown under a key first: what is kept there, or this.
fn first_old(
    alloc: Global,
    seen: &BTreeMap<Key, Seen>,
    key: &Key,
    old: Option<&Tree>,
) -> Result<Option<Tree>, AllocError>
    ensures { IfOk result (λ first. first
        ≡ option_map_or (λ s. s.old) (find key_cmp key.now seen.now.entries)
        (option_copied old.entry)) }
{
    match seen.get(key) {
        Some(one) => copy_tree(alloc, one.old.as_ref()),
        None => copy_tree(alloc, old),
    }
}

// Keeps that a child is shown under a key now, or none, in place of the old one.
fn keep_seen(
    seen: &mut BTreeMap<Key, Seen>,
    alloc: Global,
    key: &Key,
    old: Option<&Tree>,
    new: Option<&Tree>,
) -> Result<(), AllocError>
    ensures { OnOk result (seen.new.entries
        ≡ seen_too key.now (option_copied old.entry) (option_copied new.entry) seen.old.entries) }
{
    let old = first_old(alloc, seen, key, old)?;
    let new = copy_tree(alloc, new)?;
    let one = Seen {
        key: key.copy()?,
        old,
        new,
    };
    set_seen(seen, key.copy()?, one)
}

// Notes that a child is shown under a key now, or none, in place of the old one.
fn note(
    noted: &mut Vec<Seen>,
    alloc: Global,
    key: &Key,
    old: Option<&Tree>,
    new: Option<&Tree>,
) -> Result<(), AllocError>
    ensures { OnOk result (kept_by noted.new.items
        ≡ seen_too key.now (option_copied old.entry) (option_copied new.entry)
        (kept_by noted.old.items)) }
{
    let was = copy_tree(alloc, old)?;
    let new = copy_tree(alloc, new)?;
    let key = key.copy()?;
    noted.push(Seen { key, old: was, new })?;
    Ok(())
}

// Notes the child that crossed to those that are shown.
fn note_in(noted: &mut Vec<Seen>, alloc: Global, left: &Turned) -> Result<(), AllocError>
    ensures { OnOk result (kept_by noted.new.items
        ≡ seen_in left.now.crossed (kept_by noted.old.items)) }
{
    match &left.crossed {
        Some((key, tree)) => note(noted, alloc, key, None, Some(tree)),
        None => Ok(()),
    }
}

// Notes the child that crossed from those that are shown.
fn note_out(noted: &mut Vec<Seen>, alloc: Global, came: &Turned) -> Result<(), AllocError>
    ensures { OnOk result (kept_by noted.new.items
        ≡ seen_out came.now.crossed (kept_by noted.old.items)) }
{
    match &came.crossed {
        Some((key, tree)) => note(noted, alloc, key, Some(tree), None),
        None => Ok(()),
    }
}

// Notes what is shown otherwise once a child left its place at a key and another one came there.
pub fn note_turned(
    noted: &mut Vec<Seen>,
    alloc: Global,
    key: &Key,
    old: Option<&Tree>,
    new: &Tree,
    left: &Turned,
    came: &Turned,
) -> Result<(), AllocError>
    ensures { OnOk result (kept_by noted.new.items
        ≡ seen_turned key.now (option_copied old.entry) new.now left.now came.now
        (kept_by noted.old.items)) }
{
    note_in(noted, alloc, left)?;
    let old = if left.was || came.was { old } else { None };
    let new = if came.is { Some(new) } else { None };
    note(noted, alloc, key, old, new)?;
    note_out(noted, alloc, came)
}

// Whether the keys of what is noted rise.
fn have_rising_keys(noted: &[Seen]) -> bool
    ensures { result ≡ true → values_of (kept_by noted.now) ≡ noted.now }
{
    for next in 1..noted.len() {
        if !noted[next - 1].key.cmp(&noted[next].key).is_lt() {
            return false;
        }
    }
    true
}

// What is noted, by the keys. Of what was shown under one the first counts, of what is shown the last.
fn keep_all(alloc: Global, noted: &[Seen]) -> Result<BTreeMap<Key, Seen>, AllocError>
    ensures { IfOk result (λ seen. seen.entries ≡ kept_by noted.now) }
{
    let mut seen = BTreeMap::new(alloc);
    for one in noted {
        keep_seen(
            &mut seen,
            alloc,
            &one.key,
            one.old.as_ref(),
            one.new.as_ref(),
        )?;
    }
    Ok(seen)
}

// What is kept, in the order of the keys.
fn list_seen(alloc: Global, mut seen: BTreeMap<Key, Seen>) -> Result<Vec<Seen>, AllocError>
    ensures { IfOk result (λ list. list.items ≡ values_of seen.entries) }
{
    let mut list = Vec::with_capacity(alloc, seen.len())?;
    while let Some((_, one)) = seen.pop_first() {
        list.push(one)?;
    }
    Ok(list)
}

// Sorts what is noted by the keys. What is noted under one key keeps its order.
fn sort_notes(noted: &mut Vec<Seen>) -> Result<(), AllocError>
    ensures { OnOk result (kept_by noted.new.items ≡ kept_by noted.old.items) }
{
    noted.sort_by(|one, other| one.key.cmp(&other.key))?;
    Ok(())
}

// What is noted, each key once, in their order. It is this very list, which is sorted where the keys
// don't rise already, unless a key is noted twice.
pub fn in_key_order(alloc: Global, noted: Vec<Seen>) -> Result<Vec<Seen>, AllocError>
    ensures { IfOk result (λ list. list.items ≡ values_of (kept_by noted.items)) }
{
    let mut noted = noted;
    if have_rising_keys(noted.as_slice()) {
        return Ok(noted);
    }
    sort_notes(&mut noted)?;
    if have_rising_keys(noted.as_slice()) {
        return Ok(noted);
    }
    let seen = keep_all(alloc, noted.as_slice())?;
    list_seen(alloc, seen)
}

// Notes what stood at a key, and what stands there now, where that isn't null.
pub fn note_stands(
    noted: &mut Vec<Seen>,
    alloc: Global,
    key: &Key,
    old: Option<&Tree>,
    new: &Tree,
) -> Result<(), AllocError>
    ensures { OnOk result (kept_by noted.new.items
        ≡ seen_too key.now (option_copied old.entry) (non_null new.now) (kept_by noted.old.items)) }
{
    let new = if new.is_null() { None } else { Some(new) };
    note(noted, alloc, key, old, new)
}

// Notes a child that is gone, at its place.
fn put_gone(
    gone: &mut Vec<(Position, Tree)>,
    alloc: Global,
    index: &Index,
    key: &Key,
    old: &Tree,
) -> Result<(), AllocError>
    ensures { OnOk result (put_all gone.new.items
        ≡ map_of.put entry_cmp (entry index.now (key.now, old.now)) old.now (put_all gone.old.items)) }
{
    let position = Position::of(alloc, index, key, old)?;
    let old = old.copy(alloc)?;
    gone.push((position, old))?;
    Ok(())
}

// Notes a child that is shown now, at its place.
fn put_told(
    now: &mut Vec<(Position, Told)>,
    alloc: Global,
    index: &Index,
    known: &Tree,
    window: Option<&OrderedChildren>,
    key: &Key,
    old: Option<&Tree>,
    new: &Tree,
) -> Result<(), AllocError>
    requires { CanAsk known.now (option_copied window) (entry index.now (key.now, new.now)) }
    ensures { OnOk result (put_all now.new.items
        ≡ map_of.put entry_cmp (entry index.now (key.now, new.now)) (record {
          old =
              option_copied old.entry;
          new = new.now;
          after =
              before (entry index.now (key.now, new.now))
              (ordered_in known.now (option_copied window.entry));
        }) (put_all now.old.items)) }
{
    let position = Position::of(alloc, index, key, new)?;
    let after = copy_key(key_before(known, window, &position))?;
    let old = copy_tree(alloc, old)?;
    let new = new.copy(alloc)?;
    now.push((position, Told { old, new, after }))?;
    Ok(())
}

// Finds what is told of one more noted child.
fn find_told(
    gone: &mut Vec<(Position, Tree)>,
    now: &mut Vec<(Position, Told)>,
    alloc: Global,
    index: &Index,
    known: &Tree,
    window: Option<&OrderedChildren>,
    seen: &Seen,
) -> Result<(), AllocError>
    requires { IfSome seen.now.new (λ t. CanAsk known.now (option_copied window)
        (entry index.now (seen.now.key, t))) }
    ensures gone { OnOk result (put_all gone.new.items ≡ gone_too index.now seen.now.key
        (gone_at seen.now.new seen.now.old) (put_all gone.old.items)) }
    ensures now { OnOk result (put_all now.new.items ≡ told_too index.now
        seen.now.key seen.now.old (ordered_in known.now (option_copied window.entry))
        seen.now.new (put_all now.old.items)) }
{
    let key = &seen.key;
    match (seen.old.as_ref(), seen.new.as_ref()) {
        (old, Some(new)) => put_told(now, alloc, index, known, window, key, old, new),
        (Some(old), None) => put_gone(gone, alloc, index, key, old),
        (None, None) => Ok(()),
    }
}

// What is told of the noted children of a tree that was shown.
pub fn find_all_told(
    alloc: Global,
    query: &Query,
    known: &Tree,
    window: Option<&OrderedChildren>,
    seen: &[Seen],
) -> Result<Noted, AllocError>
    requires order { IsInOrder query.now known.now (option_copied window) }
    requires seen { All (IsNew (entries_shown query.now known.now)) seen.now }
    ensures gone { IfOk result (λ noted. (t : PathTree)
        → All (IsSeen t (entries_shown query.now known.now)) seen.now
        → noted.gone.items ≡ gone_from (keys_in seen.now) (entries_shown query.now known.now)
        (rows_in_tree query.now.index t)) }
    ensures now { IfOk result (λ noted. (t : PathTree)
        → All (IsSeen t (entries_shown query.now known.now)) seen.now
        → noted.now.items ≡ told_in t (entries_shown query.now known.now)
        (noted_in (keys_in seen.now) (entries_shown query.now known.now))) }
{
    let mut gone = Vec::new(alloc);
    let mut now = Vec::new(alloc);
    for one in seen {
        find_told(
            &mut gone,
            &mut now,
            alloc,
            query.index(),
            known,
            window,
            one,
        )?;
    }
    let gone = in_order(alloc, gone)?;
    let now = in_order(alloc, now)?;
    Ok(Noted { gone, now })
}

// Whether the places rise.
fn are_rising<V>(children: &[(Position, V)]) -> bool
    ensures { result ≡ true → put_all children.now ≡ children.now }
{
    for next in 1..children.len() {
        if !children[next - 1].0.cmp(&children[next].0).is_lt() {
            return false;
        }
    }
    true
}

// Each at its place; of two at one place the last stays.
fn put_all<V: Drop>(
    alloc: Global,
    children: Vec<(Position, V)>,
) -> Result<BTreeMap<Position, V>, AllocError>
    ensures { IfOk result (λ map. map.entries ≡ put_all children.items) }
{
    let mut map = BTreeMap::new(alloc);
    for (position, value) in children {
        map.insert(position, value)?;
    }
    Ok(map)
}

// The children in the order of their places. Where these rise already, it is this very list.
pub fn in_order<V: Drop>(
    alloc: Global,
    children: Vec<(Position, V)>,
) -> Result<Vec<(Position, V)>, AllocError>
    ensures { IfOk result (λ list. list.items ≡ put_all children.items) }
{
    if are_rising(children.as_slice()) {
        return Ok(children);
    }
    let mut map = put_all(alloc, children)?;
    let mut list = Vec::with_capacity(alloc, map.len())?;
    while let Some(child) = map.pop_first() {
        list.push(child)?;
    }
    Ok(list)
}
