// What a map stands on: one chunk while it is small, a table from then on.
ghost use Rattle.std.specs.Prelude.{◌≡◌, ◌<◌, ◌-◌, [], length, IfOk, IfSome, OnOk, OnErr, slice_index_or};
ghost use Rattle.std.specs.Prelude.{◌++◌};
ghost use Rattle.std.specs.Option.{option_copied};
ghost use Rattle.std.specs.BTreeMap.{insert_entry, is_at};
ghost use Rattle.std.specs.Map.{lookup, remove_entry, keys_of};
ghost use Rattle.std.specs.List.Sorted.{IsStrictlySortedBy};
ghost use Rattle.rt_map.specs.inside.Joined.{joined, AllFilled};
ghost use Rattle.rt_map.specs.Maps.{last_below};
ghost use Rattle.rt_map.specs.inside.Roots.{root_entries};

use crate::chunk::{Chunk, MAX_ENTRIES};
use crate::iter::{Iter, iter_of, iter_of_entries};
use crate::map::Share;
use crate::row::{MAX_CHUNKS, MapRow};
use crate::table::Table;
use std::alloc::{AllocError, Global};
use std::mem;
use std::sync::Arc;

/// Where the entries of a map are.
#[derive(Drop)]
pub enum Root<K, V> {
    /// In one chunk.
    Small(Arc<Chunk<K, V>, Global>),
    /// In the chunks of a table's rows.
    Large(Arc<Table<K, V>, Global>),
}

impl<K: Drop, V: Drop> Root<K, V> {
    /// No entry.
    pub fn new(alloc: Global) -> Result<Root<K, V>, AllocError>
        ensures { IfOk result (λ root. root_entries root ≡ []) }
    {
        Ok(Root::Small(Arc::new(alloc, Chunk::new(alloc))?))
    }

    /// These entries.
    pub fn of_entries(alloc: Global, entries: Vec<(K, V)>) -> Result<Root<K, V>, AllocError>
        ensures { IfOk result (λ root. root_entries root ≡ entries.items) }
    {
        if entries.len() <= MAX_ENTRIES {
            return Ok(Root::Small(Arc::new(alloc, Chunk::of(entries))?));
        }
        let chunks = chunks_of(alloc, entries)?;
        root_of_chunks(alloc, chunks)
    }

    // The table that is to stand in the place of a full chunk, which is its first part.
    fn grown(&self, alloc: Global) -> Result<Option<Root<K, V>>, AllocError>
        ensures { IfOk result (λ grown. IfSome grown (λ root. root_entries root
            ≡ root_entries self.now)) }
    {
        match self {
            Root::Small(chunk) => {
                if chunk.len() < MAX_ENTRIES {
                    return Ok(None);
                }
                let mut chunks = Vec::with_capacity(alloc, 1)?;
                chunks.push(Arc::try_clone(chunk)?)?;
                Ok(Some(root_of_chunks(alloc, chunks)?))
            }
            Root::Large(_) => Ok(None),
        }
    }
}

// A table of these chunks.
fn root_of_chunks<K: Drop, V: Drop>(
    alloc: Global,
    chunks: Vec<Arc<Chunk<K, V>, Global>>,
) -> Result<Root<K, V>, AllocError>
    requires { AllFilled chunks.items }
    ensures { IfOk result (λ root. root_entries root ≡ joined chunks.items) }
{
    let rows = rows_of(alloc, chunks)?;
    Ok(Root::Large(Arc::new(alloc, Table::of(rows))?))
}

impl<K, V> Root<K, V> {
    /// The same parts.
    pub fn copy(&self) -> Result<Root<K, V>, AllocError>
        ensures { IfOk result (λ root. root_entries root ≡ root_entries self.now) }
    {
        match self {
            Root::Small(chunk) => Ok(Root::Small(Arc::try_clone(chunk)?)),
            Root::Large(table) => Ok(Root::Large(Arc::try_clone(table)?)),
        }
    }

    /// The entries, in order.
    pub fn iter(&self) -> Iter<'_, K, V>
        ensures { result ≡ root_entries self.now }
    {
        match self {
            Root::Small(chunk) => iter_of_entries(chunk.entries()),
            Root::Large(table) => iter_of(table.parts()),
        }
    }

    /// The last entry.
    pub fn last(&self) -> &(K, V)
        requires { 0 < length (root_entries self.now) }
        ensures { result.now ≡ slice_index_or (root_entries self.now)
            (length (root_entries self.now) - 1) result.now }
    {
        match self {
            Root::Small(chunk) => chunk.last(),
            Root::Large(table) => table.last(),
        }
    }
}

impl<K: Ord, V> Root<K, V> {
    /// The value at the key.
    pub fn get(&self, key: &K) -> Option<&V>
        requires { IsStrictlySortedBy K.cmp (keys_of (root_entries self.now)) }
        ensures { option_copied result ≡ lookup (is_at (K.cmp key.now)) (root_entries self.now) }
    {
        match self {
            Root::Small(chunk) => chunk.get(key),
            Root::Large(table) => table.get(key),
        }
    }

    /// The last key below this one.
    pub fn before(&self, key: &K) -> Option<&K>
        requires { IsStrictlySortedBy K.cmp (keys_of (root_entries self.now)) }
        ensures { option_copied result ≡ last_below (K.cmp key.now) (root_entries self.now) }
    {
        match self {
            Root::Small(chunk) => chunk.before(key),
            Root::Large(table) => table.before(key),
        }
    }
}

impl<K: Ord + Share, V: Share> Root<K, V> {
    /// Puts a value at a key, and answers the one that was there.
    pub fn insert(&mut self, alloc: Global, key: K, value: V) -> Result<Option<V>, AllocError>
        requires { IsStrictlySortedBy K.cmp (keys_of (root_entries self.old)) }
        ensures ok { OnOk result
            (root_entries self.new ≡ insert_entry K.cmp (root_entries self.old) key value) }
        ensures old { IfOk result (λ old. old
            ≡ lookup (is_at (K.cmp key)) (root_entries self.old)) }
        ensures err { OnErr result (root_entries self.new ≡ root_entries self.old) }
    {
        if let Some(grown) = self.grown(alloc)? {
            *self = grown;
        }
        self.insert_in_place(alloc, key, value)
    }

    // Puts a value at a key, in the chunk or in the table.
    fn insert_in_place(&mut self, alloc: Global, key: K, value: V) -> Result<Option<V>, AllocError>
        requires { IsStrictlySortedBy K.cmp (keys_of (root_entries self.old)) }
        ensures ok { OnOk result
            (root_entries self.new ≡ insert_entry K.cmp (root_entries self.old) key value) }
        ensures old { IfOk result (λ old. old
            ≡ lookup (is_at (K.cmp key)) (root_entries self.old)) }
        ensures err { OnErr result (root_entries self.new ≡ root_entries self.old) }
    {
        match self {
            Root::Small(chunk) => {
                let chunk = Arc::make_mut(chunk)?;
                chunk.insert(key, value)
            }
            Root::Large(table) => {
                let table = Arc::make_mut(table)?;
                table.insert(alloc, key, value)
            }
        }
    }

    /// Takes the key out, and answers its value.
    pub fn remove(&mut self, key: &K) -> Result<Option<V>, AllocError>
        requires { IsStrictlySortedBy K.cmp (keys_of (root_entries self.old)) }
        ensures ok { OnOk result (root_entries self.new
            ≡ remove_entry (is_at (K.cmp key.now)) (root_entries self.old)) }
        ensures old { IfOk result (λ old. old
            ≡ lookup (is_at (K.cmp key.now)) (root_entries self.old)) }
        ensures err { OnErr result (root_entries self.new ≡ root_entries self.old) }
    {
        match self {
            Root::Small(chunk) => {
                let chunk = Arc::make_mut(chunk)?;
                Ok(chunk.remove(key))
            }
            Root::Large(table) => {
                let table = Arc::make_mut(table)?;
                table.remove(key)
            }
        }
    }
}

// ---- a table from entries in order, part by part

// One chunk more.
fn push_chunk<K: Drop, V: Drop>(
    chunks: &mut Vec<Arc<Chunk<K, V>, Global>>,
    alloc: Global,
    entries: Vec<(K, V)>,
) -> Result<(), AllocError>
    requires some { 0 < length entries.items }
    requires filled { AllFilled chunks.old.items }
    ensures filled { AllFilled chunks.new.items }
    ensures entries { OnOk result
        (joined chunks.new.items ≡ joined chunks.old.items ++ entries.items) }
{
    let chunk = Arc::new(alloc, Chunk::of(entries))?;
    chunks.push(chunk)?;
    Ok(())
}

// One row more.
fn push_row<K: Drop, V: Drop>(
    rows: &mut Vec<Arc<MapRow<K, V>, Global>>,
    alloc: Global,
    chunks: Vec<Arc<Chunk<K, V>, Global>>,
) -> Result<(), AllocError>
    requires some { 0 < length chunks.items }
    requires parts { AllFilled chunks.items }
    requires filled { AllFilled rows.old.items }
    ensures filled { AllFilled rows.new.items }
    ensures entries { OnOk result
        (joined rows.new.items ≡ joined rows.old.items ++ joined chunks.items) }
{
    let row = Arc::new(alloc, MapRow::of(chunks))?;
    rows.push(row)?;
    Ok(())
}

/// The entries in chunks, each but the last full.
pub fn chunks_of<K: Drop, V: Drop>(
    alloc: Global,
    entries: Vec<(K, V)>,
) -> Result<Vec<Arc<Chunk<K, V>, Global>>, AllocError>
    ensures filled { IfOk result (λ chunks. AllFilled chunks.items) }
    ensures entries { IfOk result (λ chunks. joined chunks.items ≡ entries.items) }
{
    let mut left = entries.len();
    let mut chunks = Vec::new(alloc);
    let mut open = Vec::with_capacity(alloc, left.min(MAX_ENTRIES))?;
    for entry in entries {
        if open.len() >= MAX_ENTRIES {
            left = left.saturating_sub(MAX_ENTRIES);
            let next = Vec::with_capacity(alloc, left.min(MAX_ENTRIES))?;
            let full = mem::replace(&mut open, next);
            push_chunk(&mut chunks, alloc, full)?;
        }
        open.push(entry)?;
    }
    if !open.is_empty() {
        push_chunk(&mut chunks, alloc, open)?;
    }
    Ok(chunks)
}

/// The chunks in rows, each but the last full.
pub fn rows_of<K: Drop, V: Drop>(
    alloc: Global,
    chunks: Vec<Arc<Chunk<K, V>, Global>>,
) -> Result<Vec<Arc<MapRow<K, V>, Global>>, AllocError>
    requires { AllFilled chunks.items }
    ensures filled { IfOk result (λ rows. AllFilled rows.items) }
    ensures entries { IfOk result (λ rows. joined rows.items ≡ joined chunks.items) }
{
    let mut rows = Vec::new(alloc);
    let mut open = Vec::new(alloc);
    for chunk in chunks {
        if open.len() >= MAX_CHUNKS {
            let full = mem::replace(&mut open, Vec::new(alloc));
            push_row(&mut rows, alloc, full)?;
        }
        open.push(chunk)?;
    }
    if !open.is_empty() {
        push_row(&mut rows, alloc, open)?;
    }
    Ok(rows)
}
