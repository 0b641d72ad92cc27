// The entries of a write.
ghost use Rattle.std.specs.Prelude.{◌≡◌, ◌↔◌, ◌+◌, ◌≤◌, ◌∷◌, [], ◌++◌, ◌||◌, length, IfOk, OnErr, IsTrue};
ghost use Rattle.std.specs.Prelude.{true, map};
ghost use Rattle.std.specs.List.{All, fold, list_any};
ghost use Rattle.rt_tree.specs.PathTree.{levels, sub, put};
ghost use Rattle.rt_tree.specs.Assignments.{is_at_or_above, do_overlap, have_overlap};
ghost use Rattle.rt_writes.specs.Writes.{IsShallow, overlaid};
ghost use Rattle.rt_writes.specs.inside.Sorted.{AreInOrder};

use rt_tree::{Key, MAX_KEYS, MAX_LEVELS, Path, Tree, TreeError};
use std::alloc::{AllocError, Global};
use std::marker::Model;

/// Trees set at paths, in order: what a write sets, or a push brings.
#[derive(Debug)]
pub struct Entries {
    items: Vec<(Path, Tree)>,
}

impl Drop for Entries {
    fn drop(self) {
        let Entries { items: _ } = self;
    }
}

impl Model for Entries {
    ghost use Rattle.std.specs.Prelude.{List};
    ghost use Rattle.rt_tree.specs.Assignments.{Assignment};

    ghost Value = { List Assignment };

    ghost view = { λ a. a.items.items };
}

impl Entries {
    /// The entries of the list, as they are.
    pub fn of(items: Vec<(Path, Tree)>) -> Entries
        ensures { result ≡ items.items }
    {
        Entries { items }
    }

    /// The entries, in order.
    pub fn as_slice(&self) -> &[(Path, Tree)]
        ensures { result.now ≡ self.now }
    {
        self.items.as_slice()
    }

    /// The list of the entries.
    pub fn into_vec(self) -> Vec<(Path, Tree)>
        ensures { result.items ≡ self }
    {
        let Entries { items } = self;
        items
    }

    /// Equal entries. Their keys and trees are shared.
    ///
    /// # Errors
    ///
    /// Want of memory.
    pub fn copy(&self) -> Result<Entries, AllocError>
        ensures { IfOk result (λ entries. entries ≡ self.now) }
    {
        let alloc = *self.items.allocator();
        let mut items = Vec::new(alloc);
        for (path, tree) in &self.items {
            items.push((path.copy()?, tree.copy(alloc)?))?;
        }
        Ok(Entries { items })
    }

    /// Whether of two entries one is at or above the other. Costs n log n for n entries; where memory
    /// lacks for putting them in order, each is compared with each.
    pub fn have_overlap(&self) -> bool
        ensures { result ≡ have_overlap self.now }
    {
        some_overlap(*self.items.allocator(), self.items.as_slice())
    }

    // What the list takes its memory of.
    pub(crate) fn allocator(&self) -> Global {
        *self.items.allocator()
    }

    // The tree at `path` after each entry, in order.
    pub(crate) fn overlaid(
        &self,
        alloc: Global,
        path: &Path,
        tree: Tree,
    ) -> Result<Tree, AllocError>
        requires tree { IsShallow (path.now, tree) }
        requires entries { All IsShallow self.now }
        ensures overlaid { IfOk result (λ after. after ≡ fold (overlaid path.now) tree self.now) }
        ensures shallow { IfOk result (λ after. IsShallow (path.now, after)) }
        ensures touched { OnErr result (list_any (λ a. do_overlap a.0 path.now) self.now ≡ true) }
    {
        let mut after = tree;
        for (at, entry) in &self.items {
            after = overlaid(alloc, path, after, at, entry)?;
        }
        Ok(after)
    }
}

/// Whether path and tree together have at most 32 levels of keys: what a write asks of each entry.
pub fn is_shallow(path: &Path, tree: &Tree) -> bool
    ensures { IsTrue result ↔ IsShallow (path.now, tree.now) }
{
    path.keys().len() + tree.levels() <= MAX_LEVELS
}

// The tree at `path` after an entry at `at`: one at or above the path gives its part, one below is
// put. No leaf is too deep, so only memory can refuse.
pub(crate) fn overlaid(
    alloc: Global,
    path: &Path,
    tree: Tree,
    at: &Path,
    entry: &Tree,
) -> Result<Tree, AllocError>
    requires tree { IsShallow (path.now, tree) }
    requires entry { IsShallow (at.now, entry.now) }
    ensures overlaid { IfOk result (λ after. after ≡ overlaid path.now tree (at.now, entry.now)) }
    ensures shallow { IfOk result (λ after. IsShallow (path.now, after)) }
    ensures touched { OnErr result (do_overlap at.now path.now ≡ true) }
{
    if let Some(rest) = path.strip_prefix(at) {
        return copy_part(alloc, entry, rest);
    }
    let Some(rest) = at.strip_prefix(path) else {
        return Ok(tree);
    };
    // For the prover: no path has more than 32 keys.
    let _is_path = at.keys();
    put_copy(alloc, tree, rest, entry)
}

// A copy of the part of the tree below these keys; null where there is none.
pub(crate) fn copy_part(alloc: Global, tree: &Tree, keys: &[Key]) -> Result<Tree, AllocError>
    ensures { IfOk result (λ copy. copy ≡ sub tree.now keys.now) }
{
    match tree.at(keys) {
        Some(part) => part.copy(alloc),
        None => Ok(Tree::null()),
    }
}

// The path of these keys.
fn path_of(alloc: Global, keys: &[Key]) -> Result<Path, AllocError>
    requires { length keys.now ≤ MAX_KEYS }
    ensures { IfOk result (λ path. path ≡ keys.now) }
{
    match Path::from_keys(alloc, keys) {
        Ok(path) => Ok(path),
        Err(TreeError::NoMemory) => Err(AllocError),
        Err(_) => unreachable!(),
    }
}

// The tree with a copy of the other one put below these keys.
pub(crate) fn put_copy(
    alloc: Global,
    tree: Tree,
    keys: &[Key],
    part: &Tree,
) -> Result<Tree, AllocError>
    requires short { length keys.now ≤ MAX_KEYS }
    requires shallow { IsShallow (keys.now, part.now) }
    ensures { IfOk result (λ after. after ≡ put tree keys.now part.now) }
{
    let path = path_of(alloc, keys)?;
    let part = part.copy(alloc)?;
    let mut after = tree;
    match after.put(alloc, &path, part) {
        Ok(()) => Ok(after),
        Err(TreeError::NoMemory) => Err(AllocError),
        Err(_) => unreachable!(),
    }
}

// ---- whether of two entries one is at or above the other

// So many entries are compared each with each: that takes no memory.
const FEW: usize = 8;

// Whether of two entries one is at or above the other: many are put in order, and where memory lacks
// for that, each is compared with each.
pub(crate) fn some_overlap(alloc: Global, entries: &[(Path, Tree)]) -> bool
    ensures { result ≡ have_overlap entries.now }
{
    if entries.len() > FEW {
        if let Ok(sorted) = by_path(alloc, entries) {
            return neighbours_overlap(sorted.as_slice());
        }
    }
    each_overlaps(entries)
}

// The same, by comparing each with each.
fn each_overlaps(entries: &[(Path, Tree)]) -> bool
    ensures { result ≡ have_overlap entries.now }
{
    let mut rest = entries;
    while let Some((first, others)) = rest.split_first() {
        if others.iter().any(|other| do_overlap(&first.0, &other.0)) {
            return true;
        }
        rest = others;
    }
    false
}

// The entries in the order of their paths.
fn by_path(alloc: Global, entries: &[(Path, Tree)]) -> Result<Vec<&(Path, Tree)>, AllocError>
    ensures same { IfOk result (λ sorted. have_overlap (map (λ e. e.now) sorted.items)
        ≡ have_overlap entries.now) }
    ensures sorted { IfOk result (λ sorted. AreInOrder sorted.items) }
{
    let mut sorted = Vec::with_capacity(alloc, entries.len())?;
    for entry in entries {
        sorted.push(entry)?;
    }
    sorted.sort_unstable_by(|left, right| left.0.cmp(&right.0));
    Ok(sorted)
}

// The same of entries in the order of their paths: all at or below a path stand right behind it.
fn neighbours_overlap(sorted: &[&(Path, Tree)]) -> bool
    requires { AreInOrder sorted.now }
    ensures { result ≡ have_overlap (map (λ e. e.now) sorted.now) }
{
    for next in 1..sorted.len() {
        if sorted[next - 1].0.is_prefix_of(&sorted[next].0) {
            return true;
        }
    }
    false
}

// Whether one of the two is at or above the other.
fn do_overlap(left: &Path, right: &Path) -> bool
    ensures { result ≡ do_overlap left.now right.now }
{
    left.is_prefix_of(right) || right.is_prefix_of(left)
}
