// One tree of the paths at which something is pending.
ghost use Rattle.std.specs.Prelude.{◌≡◌, ◌==◌, ◌↔◌, ◌++◌, ◌∷◌, [], ℕ, true, false, IsTrue, OnOk, Some, None};
ghost use Rattle.std.specs.Prelude.{if◌then◌else◌, ◌<◌, ◌≤◌, IfOk, IfSome, not, length, OnErr};
ghost use Rattle.std.specs.List.{All, fold, list_any};
ghost use Rattle.std.specs.Option.{option_copied, option_map_or};
ghost use Rattle.std.specs.Ordering.{nat_cmp};
ghost use Rattle.std.specs.BTreeMap.{get};
ghost use Rattle.rt_tree.specs.PathTree.{Path as Keys, null, is_null, levels, path_eq, put};
ghost use Rattle.rt_writes.specs.inside.Spots.{spot_at, has_here, has_under, has_full, place_at, Adds};
ghost use Rattle.rt_writes.specs.inside.Spots.{Forgets, AddsAll, ForgetsAll, IsLast, IsAbove, IsBare};
ghost use Rattle.rt_writes.specs.inside.Spots.{later_of, tree_at, AddsTrees, KeepsBut, KeepsTrees, KeepsPart};
ghost use Rattle.rt_writes.specs.inside.Spots.{IsMergedAt, AreApart, LaysAt, SetsAt, Laid, after, entry_at};
ghost use Rattle.rt_writes.specs.inside.Spots.{marked, IsShown};
ghost use Rattle.rt_writes.specs.inside.ByNumber.{writes_of};
ghost use Rattle.rt_writes.specs.Writes.{IsShallow, overlaid, overlay, sets_whole, touches};
ghost use Rattle.rt_tree.specs.Assignments.{do_overlap, is_at_or_above};
ghost use Rattle.rt_writes.specs.Kept.{IsKept};

use crate::entries::{Entries, copy_part, overlaid};
use crate::marks::{Marks, is_after};
use rt_tree::{Key, Leaf, MAX_KEYS, Path, Tree};
use std::alloc::{AllocError, Global};
use std::collections::BTreeMap;

// A path at or above which, or below which, an entry of a pending write sits: the numbers of the
// writes that set the whole of what stands there, each with the place of that entry in its write;
// those of the writes with an entry there or below, and the tree that these entries make; and the
// paths one key further down. The numbers say which write shows, and what shows again once one is
// settled.
#[derive(Drop)]
pub(crate) struct Spot {
    pub(crate) here: BTreeMap<u64, usize>,
    pub(crate) under: Marks,
    pub(crate) below: BTreeMap<Key, Spot>,
}

impl Spot {
    // Nothing is pending.
    pub(crate) fn new(alloc: Global) -> Spot
        ensures here { (q : Keys) (j : ℕ) → has_here result q j ≡ false }
        ensures place { (q : Keys) (j : ℕ) → place_at result q j ≡ None }
        ensures under { (q : Keys) (j : ℕ) → has_under result q j ≡ false }
        ensures full { (q : Keys) (j : ℕ) → has_full result q j ≡ false }
        ensures trees { (q : Keys) → tree_at result q ≡ None }
    {
        Spot {
            here: BTreeMap::new(alloc),
            under: Marks::new(alloc),
            below: BTreeMap::new(alloc),
        }
    }

    // Whether nothing is kept of any write.
    fn is_bare(&self) -> bool
        ensures { IsTrue result → IsBare self.now }
    {
        self.here.is_empty() && self.under.is_empty() && self.below.is_empty()
    }

    // Adds an entry of the write of that number, at these keys: its place among the entries, and its
    // tree.
    pub(crate) fn add(
        &mut self,
        alloc: Global,
        id: u64,
        keys: &[Key],
        place: usize,
        tree: &Tree,
    ) -> Result<(), AllocError>
        requires short { length keys.now ≤ MAX_KEYS }
        requires shallow { IsShallow (keys.now, tree.now) }
        ensures adds { OnOk result
            (Adds self.old self.new keys.now id place (not (is_null tree.now))) }
        ensures trees { OnOk result
            (AddsTrees self.old self.new ((keys.now, tree.now) ∷ [])) }
        ensures kept { OnErr result
            (KeepsBut (path_eq keys.now) (λ q. is_at_or_above q keys.now) self.old self.new id) }
    {
        self.under.note(alloc, id, keys, tree)?;
        let Some((key, rest)) = keys.split_first() else {
            return note(&mut self.here, id, place);
        };
        if let Some(child) = self.below.get_mut(key) {
            return child.add(alloc, id, rest, place, tree);
        }
        let mut child = Spot::new(alloc);
        child.add(alloc, id, rest, place, tree)?;
        let key = key.copy()?;
        drop(self.below.insert(key, child)?);
        Ok(())
    }

    // Takes the write of that number off the way to these keys, and drops what is bare then.
    pub(crate) fn forget(&mut self, id: u64, keys: &[Key])
        ensures forgets { Forgets self.old self.new keys.now id }
        ensures trees { KeepsTrees self.old self.new ((keys.now, null) ∷ []) id }
    {
        let is_hidden = self.is_set_after(id);
        self.under.strike(id, is_hidden);
        let Some((key, rest)) = keys.split_first() else {
            strike(&mut self.here, id);
            return;
        };
        let Some(child) = self.below.get_mut(key) else {
            return;
        };
        child.forget(id, rest);
        if child.is_bare() {
            drop(self.below.remove(key));
        }
    }

    // Adds the entries of a write.
    pub(crate) fn add_all(
        &mut self,
        alloc: Global,
        id: u64,
        entries: &[(Path, Tree)],
    ) -> Result<(), AllocError>
        requires { All IsShallow entries.now }
        ensures adds { OnOk result (AddsAll self.old self.new entries.now id) }
        ensures trees { OnOk result (AddsTrees self.old self.new entries.now) }
        ensures kept { OnErr result (KeepsBut (λ q. list_any (λ a. path_eq a.0 q) entries.now)
            (λ q. list_any (λ a. is_at_or_above q a.0) entries.now) self.old self.new id) }
    {
        let mut place = 0;
        for entry in entries {
            self.add(alloc, id, entry.0.keys(), place, &entry.1)?;
            place += 1;
        }
        Ok(())
    }

    // Takes a write off the ways to all its entries.
    pub(crate) fn forget_all(&mut self, id: u64, entries: &[(Path, Tree)])
        ensures forgets { ForgetsAll self.old self.new entries.now id }
        ensures trees { KeepsTrees self.old self.new entries.now id }
    {
        for entry in entries {
            self.forget(id, entry.0.keys());
        }
    }

    // The greatest number of a write with an entry at or above these keys, and the spot there.
    pub(crate) fn look(&self, keys: &[Key]) -> (Option<u64>, Option<&Spot>)
        ensures last { IsLast (IsAbove self.now keys.now) result.0 }
        ensures spot { option_copied result.1 ≡ spot_at self.now keys.now }
    {
        let here = self.last_here();
        let Some((key, rest)) = keys.split_first() else {
            return (here, Some(self));
        };
        let Some(child) = self.below.get(key) else {
            return (here, None);
        };
        let (last, spot) = child.look(rest);
        (later(here, last), spot)
    }

    // The greatest number of a write that sets the whole of what stands here.
    pub(crate) fn last_here(&self) -> Option<u64>
        ensures { IsLast (λ j. has_here self.now [] j ≡ true) result }
    {
        match self.here.last_key_value() {
            Some((number, _)) => Some(*number),
            None => None,
        }
    }

    // Whether a write with a greater number sets the whole of what stands here.
    fn is_set_after(&self, id: u64) -> bool
        ensures { IsTrue result → (j : ℕ) × (id < j) × (has_here self.now [] j ≡ true) }
    {
        match self.last_here() {
            Some(last) => id < last,
            None => false,
        }
    }

    // The tree that is kept here, where it is all that shows of what is after the last one: the last
    // write that sets the whole of what stands here is, and one that sets something.
    fn shown_after(&self, last: Option<u64>, here: Option<u64>) -> Option<&Tree>
        ensures { IfSome result (λ t. IsShown self.now last here t.now) }
    {
        let Some(number) = here else {
            return None;
        };
        if !is_after(last, number) || !self.under.has_full_after(last) {
            return None;
        }
        self.under.tree.as_ref()
    }

    // The part below these keys of the tree that is kept where that write sets the whole of what stands
    // at or above them; none where none is kept there.
    pub(crate) fn copy_kept(
        &self,
        alloc: Global,
        id: u64,
        keys: &[Key],
    ) -> Result<Option<Tree>, AllocError>
        ensures { IfOk result (λ part. IfSome part (λ t. KeepsPart self.now keys.now id t)) }
    {
        if self.here.contains_key(&id) {
            return match &self.under.tree {
                Some(tree) => Ok(Some(copy_part(alloc, tree, keys)?)),
                None => Ok(None),
            };
        }
        let Some((key, rest)) = keys.split_first() else {
            return Ok(None);
        };
        match self.below.get(key) {
            Some(child) => child.copy_kept(alloc, id, rest),
            None => Ok(None),
        }
    }

    // Whether a write sets the whole of the child of that key.
    fn is_child_set(&self, key: &Key) -> bool
        ensures { IsTrue result ↔ ((j : ℕ) × (has_here self.now (key.now ∷ []) j ≡ true)) }
    {
        match self.below.get(key) {
            Some(child) => child.last_here().is_some(),
            None => false,
        }
    }
}

// Adds a number, and a place.
fn note(numbers: &mut BTreeMap<u64, usize>, id: u64, place: usize) -> Result<(), AllocError>
    ensures added { OnOk result ((j : ℕ) → get nat_cmp numbers.new j
        ≡ if id == j then Some place else get nat_cmp numbers.old j) }
    ensures kept { OnErr result ((j : ℕ) → get nat_cmp numbers.new j ≡ get nat_cmp numbers.old j) }
{
    numbers.insert(id, place)?;
    Ok(())
}

// Takes a number out.
fn strike(numbers: &mut BTreeMap<u64, usize>, id: u64)
    ensures { (j : ℕ) → get nat_cmp numbers.new j
        ≡ if id == j then None else get nat_cmp numbers.old j }
{
    numbers.remove(&id);
}

// The greater of two numbers, where there are any.
pub(crate) fn later(left: Option<u64>, right: Option<u64>) -> Option<u64>
    ensures { result ≡ later_of left right }
{
    let Some(one) = left else {
        return right;
    };
    match right {
        Some(other) => Some(one.max(other)),
        None => Some(one),
    }
}

// Whether a write sets the whole of the child of that key, where there is a spot.
pub(crate) fn sets_child(spot: Option<&Spot>, key: &Key) -> bool
    ensures { IsTrue result ↔ ((j : ℕ)
        × (option_map_or (λ s. has_here s (key.now ∷ []) j) (option_copied spot.entry) false ≡ true)) }
{
    match spot {
        Some(spot) => spot.is_child_set(key),
        None => false,
    }
}

// ---- what the pending writes lay over a tree, child by child

// The tree at the path, whose spot this is, after the writes with later numbers, which set something
// below it.
pub(crate) fn lay_children(
    spot: &Spot,
    writes: &BTreeMap<u64, Entries>,
    last: Option<u64>,
    path: &Path,
    tree: Tree,
) -> Result<Tree, AllocError>
    requires tree { IsShallow (path.now, tree) }
    requires kept { IsKept (writes_of writes.now) }
    requires apart { AreApart (writes_of writes.now) }
    requires merged { IsMergedAt (writes_of writes.now) path.now spot.now }
    requires none { sets_whole (after last (writes_of writes.now)) path.now ≡ false }
    ensures laid { IfOk result (λ done. done ≡ overlay path.now tree (after last (writes_of writes.now))) }
    ensures shallow { IfOk result (λ done. IsShallow (path.now, done)) }
    ensures touched { OnErr result (touches (writes_of writes.now) path.now ≡ true) }
{
    if !spot.under.has_after(last) {
        return Ok(tree);
    }
    let mut done = tree;
    for (key, child) in &spot.below {
        done = lay_child(key, child, writes, last, path, done)?;
    }
    Ok(done)
}

// The tree at the path after what these writes set at or below its child. The tree that they make
// there takes the child's place, where it is kept.
fn lay_child(
    key: &Key,
    child: &Spot,
    writes: &BTreeMap<u64, Entries>,
    last: Option<u64>,
    path: &Path,
    tree: Tree,
) -> Result<Tree, AllocError>
    requires tree { IsShallow (path.now, tree) }
    requires kept { IsKept (writes_of writes.now) }
    requires apart { AreApart (writes_of writes.now) }
    requires merged { IsMergedAt (writes_of writes.now) (path.now ++ key.now ∷ []) child.now }
    requires none { sets_whole (after last (writes_of writes.now)) path.now ≡ false }
    ensures laid { IfOk result
        (Laid (LaysAt (writes_of writes.now) (path.now ++ key.now ∷ []) last) path.now tree) }
    ensures shallow { IfOk result (λ done. IsShallow (path.now, done)) }
    ensures touched { OnErr result (touches (writes_of writes.now) path.now ≡ true) }
{
    let here = child.last_here();
    if let Some(shown) = child.shown_after(last, here) {
        // For the prover: no path has more than 32 keys.
        let _is_path = path.keys();
        return put_shown(path.allocator(), key, shown, tree);
    }
    let done = lay_here(child, here, writes, last, path, tree)?;
    lay_below(child, writes, later(last, here), path, done)
}

// The tree with a copy of the other one in the place of its child. Something was set there since, so
// a leaf has gone also where the other one is null.
fn put_shown(alloc: Global, key: &Key, shown: &Tree, tree: Tree) -> Result<Tree, AllocError>
    requires { levels shown.now ≤ MAX_KEYS }
    ensures { IfOk result (λ done. (p : Keys)
        → done ≡ fold (overlaid p) tree (marked true (p ++ key.now ∷ [], shown.now))) }
{
    let mut done = tree;
    if shown.is_null() {
        set_child(&mut done, alloc, key, Tree::leaf(Leaf::truth(true)))?;
    }
    set_child(&mut done, alloc, key, shown.copy(alloc)?)?;
    Ok(done)
}

// Puts a tree in the place of a child.
fn set_child(tree: &mut Tree, alloc: Global, key: &Key, child: Tree) -> Result<(), AllocError>
    requires { levels child ≤ MAX_KEYS }
    ensures { OnOk result (tree.new ≡ put tree.old (key.now ∷ []) child) }
{
    tree.put_child(alloc, key, child)?;
    Ok(())
}

// ---- what the pending writes lay over a tree, spot by spot: of each path the last tree alone

// The tree at the path after what the writes with later numbers set below the spot: of each spot
// there the last tree alone, and of those below it what came after.
pub(crate) fn lay_below(
    spot: &Spot,
    writes: &BTreeMap<u64, Entries>,
    last: Option<u64>,
    path: &Path,
    tree: Tree,
) -> Result<Tree, AllocError>
    requires tree { IsShallow (path.now, tree) }
    requires kept { IsKept (writes_of writes.now) }
    ensures laid { IfOk result (λ done. (x : Keys) → AreApart (writes_of writes.now)
        → IsMergedAt (writes_of writes.now) x spot.now
        → sets_whole (after last (writes_of writes.now)) x ≡ false
        → Laid (LaysAt (writes_of writes.now) x last) path.now tree done) }
    ensures shallow { IfOk result (λ done. IsShallow (path.now, done)) }
    ensures touched { OnErr result (touches (writes_of writes.now) path.now ≡ true) }
{
    if !spot.under.has_after(last) {
        return Ok(tree);
    }
    let mut done = tree;
    for (_, child) in &spot.below {
        let here = child.last_here();
        done = lay_here(child, here, writes, last, path, done)?;
        done = lay_below(child, writes, later(last, here), path, done)?;
    }
    Ok(done)
}

// The tree at the path after the last write that sets the whole of what stands at the spot, if it is
// a later one.
fn lay_here(
    spot: &Spot,
    here: Option<u64>,
    writes: &BTreeMap<u64, Entries>,
    last: Option<u64>,
    path: &Path,
    tree: Tree,
) -> Result<Tree, AllocError>
    requires tree { IsShallow (path.now, tree) }
    requires kept { IsKept (writes_of writes.now) }
    requires here { IsLast (λ j. has_here spot.now [] j ≡ true) here }
    ensures laid { IfOk result (λ done. (x : Keys) → AreApart (writes_of writes.now)
        → IsMergedAt (writes_of writes.now) x spot.now
        → Laid (SetsAt (writes_of writes.now) x last here) path.now tree done) }
    ensures shallow { IfOk result (λ done. IsShallow (path.now, done)) }
    ensures touched { OnErr result (touches (writes_of writes.now) path.now ≡ true) }
{
    let Some(number) = here else {
        return Ok(tree);
    };
    if !is_after(last, number) {
        return Ok(tree);
    }
    let Some(place) = spot.here.get(&number) else {
        return Ok(tree);
    };
    match entry_of(writes, number, *place) {
        Some(entry) => lay_entry(entry, spot.under.has_full_after(last), path, tree),
        None => Ok(tree),
    }
}

// The tree at the path after an entry. Where it sets null, and something was set in between, a leaf
// above it has gone all the same.
fn lay_entry(entry: &(Path, Tree), fills: bool, path: &Path, tree: Tree) -> Result<Tree, AllocError>
    requires tree { IsShallow (path.now, tree) }
    requires entry { IsShallow entry.now }
    ensures laid { IfOk result (λ done. done ≡ fold (overlaid path.now) tree (marked fills entry.now)) }
    ensures shallow { IfOk result (λ done. IsShallow (path.now, done)) }
    ensures touched { OnErr result (do_overlap entry.now.0 path.now ≡ true) }
{
    let alloc = path.allocator();
    // For the prover: no path has more than 32 keys.
    let _is_path = entry.0.keys();
    let mut done = tree;
    if fills && entry.1.is_null() {
        done = overlaid(alloc, path, done, &entry.0, &Tree::leaf(Leaf::truth(true)))?;
    }
    overlaid(alloc, path, done, &entry.0, &entry.1)
}

// The entry at that place of the write of that number.
fn entry_of(writes: &BTreeMap<u64, Entries>, id: u64, place: usize) -> Option<&(Path, Tree)>
    ensures { option_copied result ≡ entry_at (writes_of writes.now) id place }
{
    match writes.get(&id) {
        Some(entries) => entries.as_slice().get(place),
        None => None,
    }
}
