// Numbers of writes.
ghost use Rattle.std.specs.Prelude.{◌≡◌, ◌==◌, ◌≤◌, ◌||◌, ◌&&◌, [], ℕ, not, true, ◌↔◌, IsTrue, OnOk};
ghost use Rattle.std.specs.Prelude.{IfOk, IfSome, None, OnErr, Some, false, length};
ghost use Rattle.std.specs.Ordering.{nat_cmp};
ghost use Rattle.std.specs.BTreeSet.{contains};
ghost use Rattle.rt_tree.specs.PathTree.{is_null};
ghost use Rattle.rt_writes.specs.Writes.{IsShallow};
ghost use Rattle.rt_writes.specs.inside.Spots.{is_later, IsNone, HasLater, with_put};

use crate::entries::put_copy;
use rt_tree::{Key, MAX_KEYS, Tree};
use std::alloc::{AllocError, Global};
use std::collections::BTreeSet;
use std::mem;

// The entries at a path or below it: the numbers of their writes, and of those that set something
// there and not null alone; and the tree that the entries make, one after another. It is kept from
// the time that one sits at the path itself.
#[derive(Drop)]
pub(crate) struct Marks {
    all: BTreeSet<u64>,
    full: BTreeSet<u64>,
    pub(crate) tree: Option<Tree>,
}

impl Marks {
    // No entry.
    pub(crate) fn new(alloc: Global) -> Marks
        ensures none { IsNone result }
        ensures tree { result.tree ≡ None }
    {
        Marks {
            all: BTreeSet::new(alloc),
            full: BTreeSet::new(alloc),
            tree: None,
        }
    }

    // Whether there is no number.
    pub(crate) fn is_empty(&self) -> bool
        ensures { IsTrue result → IsNone self.now }
    {
        self.all.is_empty() && self.full.is_empty()
    }

    // Adds the number of a write with an entry below these keys, and lays its tree over the one that
    // is kept.
    pub(crate) fn note(
        &mut self,
        alloc: Global,
        id: u64,
        keys: &[Key],
        tree: &Tree,
    ) -> Result<(), AllocError>
        requires short { length keys.now ≤ MAX_KEYS }
        requires shallow { IsShallow (keys.now, tree.now) }
        ensures all { OnOk result ((j : ℕ) → contains nat_cmp self.new.all j
            ≡ ((id == j) || contains nat_cmp self.old.all j)) }
        ensures full { OnOk result ((j : ℕ) → contains nat_cmp self.new.full j
            ≡ ((not (is_null tree.now) && (id == j)) || contains nat_cmp self.old.full j)) }
        ensures tree { OnOk result (self.new.tree ≡ with_put self.old.tree keys.now tree.now) }
        ensures kept_all { OnErr result ((j : ℕ) → (id == j) ≡ false
            → contains nat_cmp self.new.all j ≡ contains nat_cmp self.old.all j) }
        ensures kept_full { OnErr result ((j : ℕ) → (id == j) ≡ false
            → contains nat_cmp self.new.full j ≡ contains nat_cmp self.old.full j) }
    {
        let before = mem::replace(&mut self.tree, None);
        self.tree = with_put(before, alloc, keys, tree)?;
        if !tree.is_null() {
            note(&mut self.full, id)?;
        }
        note(&mut self.all, id)
    }

    // Takes a number out. The tree stays only where it has no part in it.
    pub(crate) fn strike(&mut self, id: u64, has_no_part: bool)
        ensures all { (j : ℕ) → contains nat_cmp self.new.all j
            ≡ (not (id == j) && contains nat_cmp self.old.all j) }
        ensures full { (j : ℕ) → contains nat_cmp self.new.full j
            ≡ (not (id == j) && contains nat_cmp self.old.full j) }
        ensures tree { IfSome self.new.tree (λ t. (self.old.tree ≡ Some t) × IsTrue has_no_part) }
    {
        strike(&mut self.all, id);
        strike(&mut self.full, id);
        if !has_no_part {
            self.tree = None;
        }
    }

    // Whether a number is after the last one.
    pub(crate) fn has_after(&self, last: Option<u64>) -> bool
        ensures { IsTrue result ↔ HasLater last self.now.all }
    {
        is_last_after(&self.all, last)
    }

    // Whether the number of a write that sets something is after the last one.
    pub(crate) fn has_full_after(&self, last: Option<u64>) -> bool
        ensures { IsTrue result ↔ HasLater last self.now.full }
    {
        is_last_after(&self.full, last)
    }
}

// The tree, if one is kept, with a copy of another put below these keys. At no keys the copy is kept
// from then on.
fn with_put(
    kept: Option<Tree>,
    alloc: Global,
    keys: &[Key],
    tree: &Tree,
) -> Result<Option<Tree>, AllocError>
    requires short { length keys.now ≤ MAX_KEYS }
    requires shallow { IsShallow (keys.now, tree.now) }
    ensures { IfOk result (λ after. after ≡ with_put kept keys.now tree.now) }
{
    if keys.is_empty() {
        return Ok(Some(tree.copy(alloc)?));
    }
    match kept {
        Some(before) => Ok(Some(put_copy(alloc, before, keys, tree)?)),
        None => Ok(None),
    }
}

// Whether the greatest number is after the last one.
fn is_last_after(numbers: &BTreeSet<u64>, last: Option<u64>) -> bool
    ensures { IsTrue result ↔ HasLater last numbers.now }
{
    match numbers.last() {
        Some(number) => is_after(last, *number),
        None => false,
    }
}

// Whether a number is after the last one; each is where there is none.
pub(crate) fn is_after(last: Option<u64>, number: u64) -> bool
    ensures { result ≡ is_later last number }
{
    match last {
        Some(last) => last < number,
        None => true,
    }
}

// Adds a number.
fn note(numbers: &mut BTreeSet<u64>, id: u64) -> Result<(), AllocError>
    ensures added { OnOk result ((j : ℕ) → contains nat_cmp numbers.new j
        ≡ ((id == j) || contains nat_cmp numbers.old j)) }
    ensures kept { OnErr result ((j : ℕ) → contains nat_cmp numbers.new j ≡ contains nat_cmp numbers.old j) }
{
    numbers.insert(id)?;
    Ok(())
}

// Takes a number out.
fn strike(numbers: &mut BTreeSet<u64>, id: u64)
    ensures { (j : ℕ) → contains nat_cmp numbers.new j
        ≡ (not (id == j) && contains nat_cmp numbers.old j) }
{
    numbers.remove(&id);
}
