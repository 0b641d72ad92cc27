// The writes that the server has not settled.
ghost use Rattle.std.specs.Prelude.{◌≡◌, ◌==◌, ◌↔◌, ◌<◌, ◌∷◌, [], ◌++◌, length, true, false, IfOk, OnErr};
ghost use Rattle.std.specs.Prelude.{OnOk, IsTrue, IsOk, Ok, Err, None, IfSome, List, Some};
ghost use Rattle.std.specs.Option.{option_map};
ghost use Rattle.std.specs.List.{All, filter};
ghost use Rattle.rt_tree.specs.Assignments.{have_overlap};
ghost use Rattle.rt_writes.specs.Kept.{IsKept};
ghost use Rattle.rt_writes.specs.Writes.{IsShallow, overlay, touches, sets_whole, sets_child_whole};
ghost use Rattle.rt_writes.specs.Writes.{entries_of, without, Write as PendingWrite};
ghost use Rattle.rt_tree.specs.PathTree.{PathTree};
ghost use Rattle.rt_writes.specs.inside.ByNumber.{writes_of};
ghost use Rattle.rt_writes.specs.inside.Spots.{IsAbove, IsLast, IsMerged, overlaid_last};

use crate::entries::Entries;
use crate::error::WriteError;
use crate::spots::{Spot, lay_children, sets_child};
use rt_tree::{Key, Path, Tree};
use std::alloc::{AllocError, Global};
use std::collections::BTreeMap;
use std::fmt;
use std::marker::Model;

/// Pending writes, in order of number. What they set shows over what the server has sent, until
/// each is settled.
///
/// The writes stand in a map by number, so a settlement in any order moves no other write. Beside it
/// stands one tree of the paths at which they set something. So a look goes by its path and by what
/// is pending at or below it, however many other writes are pending, and a settlement by the paths of
/// its write. A write for whose paths memory lacks is refused, and what was laid of it is taken back.
pub struct Pending {
    // The entries of each write, by its number.
    writes: BTreeMap<u64, Entries>,
    // Where each write sets something.
    merged: Spot,
}

impl Drop for Pending {
    fn drop(self) {
        let Pending {
            writes: _,
            merged: _,
        } = self;
    }
}

/// Prints the writes alone, which are all that a caller can tell apart.
impl fmt::Debug for Pending {
    fn fmt<W: fmt::Write>(&self, f: &mut fmt::Formatter<W>) -> fmt::Result {
        f.debug_struct("Pending")
            .field("writes", &self.writes)
            .finish()
    }
}

impl Model for Pending {
    ghost use Rattle.std.specs.Prelude.{List};
    ghost use Rattle.rt_writes.specs.Writes.{Write};
    ghost use Rattle.rt_writes.specs.inside.ByNumber.{writes_of};
    ghost use Rattle.rt_writes.specs.inside.Spots.{IsPending};

    ghost Value = { List Write };

    ghost view = { λ a. writes_of a.writes };

    ghost invariant = { λ a. IsPending (writes_of a.writes) a.merged };
}

impl Pending {
    /// No pending write.
    pub fn new(alloc: Global) -> Pending
        ensures { result ≡ [] }
    {
        Pending {
            writes: BTreeMap::new(alloc),
            merged: Spot::new(alloc),
        }
    }

    /// How many writes are pending.
    pub fn len(&self) -> usize
        ensures len { result ≡ length self.now }
        ensures kept { IsKept self.now }
    {
        self.writes.len()
    }

    /// Whether no write is pending.
    pub fn is_empty(&self) -> bool
        ensures { IsTrue result ↔ (self.now ≡ []) }
    {
        self.writes.is_empty()
    }

    /// Whether the number is above those of all pending writes, which [`Pending::add`] asks of a
    /// new one.
    pub fn is_above_all(&self, id: u64) -> bool
        ensures { IsTrue result ↔ All (λ w. w.id < id) self.now }
    {
        match self.writes.last_key_value() {
            Some((last, _)) => *last < id,
            None => true,
        }
    }

    /// Adds a write, which lies over all earlier ones. [`is_shallow`](crate::is_shallow) tests what
    /// is asked of each entry. Many entries are put in the order of their paths, and each is compared
    /// with its neighbours alone.
    ///
    /// # Errors
    ///
    /// `Overlap` where the path of one entry is at or above another's; then `EmptyUpdate` where
    /// there is none; then `NoMemory`. What is pending stays as it was.
    pub fn add(&mut self, id: u64, entries: Vec<(Path, Tree)>) -> Result<(), WriteError>
        requires above { All (λ w. w.id < id) self.old }
        requires shallow { All IsShallow entries.items }
        ensures ok { OnOk result
            (self.new ≡ self.old ++ record { id = id; entries = entries.items } ∷ []) }
        ensures unchanged { OnErr result (self.new ≡ self.old) }
        ensures overlap { (result ≡ Err WriteError.Overlap) ↔ (have_overlap entries.items ≡ true) }
        ensures empty { (result ≡ Err WriteError.EmptyUpdate) ↔ (entries.items ≡ []) }
    {
        let entries = Entries::of(entries);
        if entries.have_overlap() {
            return Err(WriteError::Overlap);
        }
        if entries.as_slice().is_empty() {
            return Err(WriteError::EmptyUpdate);
        }
        self.add_apart(id, entries)?;
        Ok(())
    }

    /// The same where it is known that no entry's path is at or above another's; looks at none of them
    /// twice.
    ///
    /// # Errors
    ///
    /// Want of memory. What is pending stays as it was.
    pub fn add_apart(&mut self, id: u64, entries: Entries) -> Result<(), AllocError>
        requires above { All (λ w. w.id < id) self.old }
        requires shallow { All IsShallow entries }
        requires apart { have_overlap entries ≡ false }
        ensures added { OnOk result (self.new ≡ self.old ++ record { id = id; entries = entries } ∷ []) }
        ensures unchanged { OnErr result (self.new ≡ self.old) }
    {
        lay(&mut self.merged, id, &entries)?;
        match self.writes.insert(id, entries) {
            Ok(_) => Ok(()),
            Err(failed) => {
                let (_, entries) = failed.value;
                self.merged.forget_all(id, entries.as_slice());
                Err(AllocError)
            }
        }
    }

    /// The entries of the write of that number; none where it is not pending.
    pub fn entries(&self, id: u64) -> Option<&[(Path, Tree)]>
        ensures { option_map (λ entries. entries.now) result ≡ entries_of id self.now }
    {
        match self.writes.get(&id) {
            Some(entries) => Some(entries.as_slice()),
            None => None,
        }
    }

    /// Takes out the write of that number, accepted or refused, and gives its entries back; none
    /// where it is not pending. Takes no memory, so it is not refused; the clauses say what would stay.
    pub fn take(&mut self, id: u64) -> Result<Option<Vec<(Path, Tree)>>, AllocError>
        ensures taken { IfOk result (λ taken.
            option_map (λ v. v.items) taken ≡ entries_of id self.old) }
        ensures rest { OnOk result (self.new ≡ without id self.old) }
        ensures unchanged { OnErr result (self.new ≡ self.old) }
        ensures absent { entries_of id self.old ≡ None → IsOk result }
    {
        let Some(entries) = self.writes.remove(&id) else {
            return Ok(None);
        };
        self.merged.forget_all(id, entries.as_slice());
        Ok(Some(entries.into_vec()))
    }

    /// The tree at the path as the pending writes make it: each entry of each write in order, one
    /// at or above the path gives its part, one below is put, others do nothing. The tree is
    /// changed in place.
    ///
    /// The last write at or above the path hides all before it: the tree that is kept where it shows
    /// has the part, else child by child what came after it below the path is laid.
    ///
    /// # Errors
    ///
    /// Want of memory, where an entry touches the path. The tree is gone then.
    pub fn overlay(&self, path: &Path, tree: Tree) -> Result<Tree, AllocError>
        requires { IsShallow (path.now, tree) }
        ensures overlay { IfOk result (λ after. after ≡ overlay path.now tree self.now) }
        ensures shallow { IfOk result (λ after. IsShallow (path.now, after)) }
        ensures touched { OnErr result (touches self.now path.now ≡ true) }
    {
        // For the prover: the numbers of the writes rise, and no leaf of an entry is too deep.
        let _is_kept = self.len();
        let root = &self.merged;
        let (last, spot) = root.look(path.keys());
        if let Some(after) = self.kept(root, last, path)? {
            return Ok(after);
        }
        let after = self.overlaid_last(last, path, tree)?;
        match spot {
            Some(spot) => lay_children(spot, &self.writes, last, path, after),
            None => Ok(after),
        }
    }

    // The same where a tree is kept in which the last write at or above the path shows; none where
    // there is no such write, or none is kept.
    fn kept(&self, root: &Spot, last: Option<u64>, path: &Path) -> Result<Option<Tree>, AllocError>
        requires merged { IsMerged self.now root.now }
        requires last { IsLast (IsAbove root.now path.now) last }
        ensures overlay { IfOk result (λ kept. IfSome kept (λ after. (tree : PathTree)
            → after ≡ overlay path.now tree self.now)) }
        ensures touched { OnErr result (touches self.now path.now ≡ true) }
    {
        // For the prover: what is so of all writes.
        let _writes = &self.writes;
        match last {
            Some(number) => root.copy_kept(path.allocator(), number, path.keys()),
            None => Ok(None),
        }
    }

    // The tree at the path after the write of that number, if there is a number.
    fn overlaid_last(&self, last: Option<u64>, path: &Path, tree: Tree) -> Result<Tree, AllocError>
        requires { IsShallow (path.now, tree) }
        ensures overlay { IfOk result (λ after. after ≡ overlaid_last path.now tree self.now last) }
        ensures shallow { IfOk result (λ after. IsShallow (path.now, after)) }
        ensures touched { OnErr result (touches self.now path.now ≡ true) }
    {
        match last {
            Some(number) => self.overlaid(number, path, tree),
            None => Ok(tree),
        }
    }

    // The tree at the path after the write of that number.
    fn overlaid(&self, id: u64, path: &Path, tree: Tree) -> Result<Tree, AllocError>
        requires { IsShallow (path.now, tree) }
        ensures overlay { IfOk result (λ after. after
            ≡ overlay path.now tree (filter (λ w. w.id == id) self.now)) }
        ensures shallow { IfOk result (λ after. IsShallow (path.now, after)) }
        ensures touched { OnErr result (touches self.now path.now ≡ true) }
    {
        match self.writes.get(&id) {
            Some(entries) => entries.overlaid(path.allocator(), path, tree),
            None => Ok(tree),
        }
    }

    /// Whether a pending write sets the whole of what stands at the path: an entry sits at or above
    /// it.
    pub fn sets_whole(&self, path: &Path) -> bool
        ensures { result ≡ sets_whole self.now path.now }
    {
        self.merged.look(path.keys()).0.is_some()
    }

    /// Whether a write sets the whole of the child of that key, also where its path would have more than
    /// 32 keys.
    pub fn sets_child_whole(&self, path: &Path, key: &Key) -> bool
        ensures { result ≡ sets_child_whole self.now path.now key.now }
    {
        let (last, spot) = self.merged.look(path.keys());
        last.is_some() || sets_child(spot, key)
    }
}

// Lays the entries of a new write, whose number is above all others. On want of memory what was laid
// of them is taken back.
fn lay(merged: &mut Spot, id: u64, entries: &Entries) -> Result<(), AllocError>
    requires { All IsShallow entries.now }
    ensures laid { OnOk result ((writes : List PendingWrite) → IsMerged writes merged.old
        → IsMerged (writes ++ record { id = id; entries = entries.now } ∷ []) merged.new) }
    ensures taken_back { OnErr result ((writes : List PendingWrite) → All (λ w. w.id < id) writes
        → IsMerged writes merged.old → IsMerged writes merged.new) }
{
    match merged.add_all(entries.allocator(), id, entries.as_slice()) {
        Ok(()) => Ok(()),
        Err(_) => {
            merged.forget_all(id, entries.as_slice());
            Err(AllocError)
        }
    }
}
