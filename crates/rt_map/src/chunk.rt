// A run of entries in key order.
ghost use Rattle.std.specs.Prelude.{◌≡◌, [], ◌∷◌, ◌++◌, ◌<◌, ◌≤◌, ◌+◌, ◌-◌, ◌↔◌, length, take, drop};
ghost use Rattle.std.specs.Prelude.{Some, None, IfOk, IfErr, OnOk, OnErr, IsTrue, IsSome, slice_get};
ghost use Rattle.std.specs.Prelude.{slice_index_or};
ghost use Rattle.std.specs.Option.{option_copied};
ghost use Rattle.std.specs.BTreeMap.{insert_entry, is_at};
ghost use Rattle.std.specs.Map.{lookup, remove_entry, keys_of};
ghost use Rattle.std.specs.List.Sorted.{IsStrictlySortedBy};
ghost use Rattle.rt_map.specs.inside.Places.{IsAt, IsGap, IsStop};
ghost use Rattle.rt_map.specs.Maps.{last_below};
ghost use Rattle.std.specs.Borrow.{sem};
ghost use Rattle.rt_map.specs.Lent.{LendsInChunk};

use crate::map::{NoSlot, Share};
use std::alloc::{AllocError, Global};
use std::cmp::Ordering;
use std::marker::Model;
use std::mem;

/// The most entries of a chunk.
pub const MAX_ENTRIES: usize = 32;

/// A part of a map: entries whose keys rise.
#[derive(Drop)]
pub struct Chunk<K, V> {
    entries: Vec<(K, V)>,
}

impl<K, V> Model for Chunk<K, V> {
    ghost use Rattle.std.specs.Prelude.{List};
    ghost use Rattle.std.specs.Coded.{coded_list, coded×};

    ghost Value = { List (K × V) };

    ghost coded = { coded_list (coded× K.code V.code) };

    ghost view = { λ a. a.entries.items };
}

impl<K, V> Chunk<K, V> {
    /// A chunk with nothing in it.
    pub fn new(alloc: Global) -> Chunk<K, V>
        ensures { result ≡ [] }
    {
        Chunk {
            entries: Vec::new(alloc),
        }
    }

    /// A chunk of these entries.
    pub fn of(entries: Vec<(K, V)>) -> Chunk<K, V>
        ensures { result ≡ entries.items }
    {
        Chunk { entries }
    }

    /// How many entries.
    pub fn len(&self) -> usize
        ensures { result ≡ length self.now }
    {
        self.entries.len()
    }

    /// The entries, in order.
    pub fn entries(&self) -> &[(K, V)]
        ensures { result.now ≡ self.now }
    {
        self.entries.as_slice()
    }

    /// The first entry.
    pub fn first(&self) -> &(K, V)
        requires { 0 < length self.now }
        ensures { result.now ≡ slice_index_or self.now 0 result.now }
    {
        &self.entries[0]
    }

    /// The last entry.
    pub fn last(&self) -> &(K, V)
        requires { 0 < length self.now }
        ensures { result.now ≡ slice_index_or self.now (length self.now - 1) result.now }
    {
        &self.entries[self.entries.len() - 1]
    }
}

// Where the key stands, or where it would go.
pub fn find<K: Ord, V>(entries: &[(K, V)], key: &K) -> Result<usize, usize>
    requires { IsStrictlySortedBy K.cmp (keys_of entries.now) }
    ensures found { IfOk result (λ at. IsAt K.cmp key.now entries.now at) }
    ensures absent { IfErr result (λ at. IsGap K.cmp key.now entries.now at) }
{
    let mut low = 0;
    let mut high = entries.len();
    while low < high {
        let middle = low + (high - low) / 2;
        match key.cmp(&entries[middle].0) {
            Ordering::Less => high = middle,
            Ordering::Equal => return Ok(middle),
            Ordering::Greater => low = middle + 1,
        }
    }
    Err(low)
}

// How many keys are below this one.
fn count_below<K: Ord, V>(entries: &[(K, V)], key: &K) -> usize
    requires { IsStrictlySortedBy K.cmp (keys_of entries.now) }
    ensures { IsStop K.cmp key.now entries.now result }
{
    match find(entries, key) {
        Ok(at) => at,
        Err(at) => at,
    }
}

impl<K: Ord, V> Chunk<K, V> {
    /// The last key below this one.
    pub fn before(&self, key: &K) -> Option<&K>
        requires { IsStrictlySortedBy K.cmp (keys_of self.now) }
        ensures { option_copied result ≡ last_below (K.cmp key.now) self.now }
    {
        let at = count_below(self.entries.as_slice(), key);
        if at == 0 {
            return None;
        }
        Some(&self.entries[at - 1].0)
    }

    /// The value at the key.
    pub fn get(&self, key: &K) -> Option<&V>
        requires { IsStrictlySortedBy K.cmp (keys_of self.now) }
        ensures { option_copied result ≡ lookup (is_at (K.cmp key.now)) self.now }
    {
        match find(self.entries.as_slice(), key) {
            Ok(at) => Some(&self.entries[at].1),
            Err(_) => None,
        }
    }

    /// The value at the key, to write to, if it is there.
    pub fn slot(&mut self, key: &K) -> Result<&mut V, NoSlot>
        requires { IsStrictlySortedBy K.cmp (keys_of self.old) }
        ensures* writes_back { sem 𝓛 (LendsInChunk K.row V.row (K.cmp key.now) self.entry result) }
        ensures value { IfOk result (λ v. lookup (is_at (K.cmp key.now)) self.old ≡ Some v.now) }
        ensures absent { OnErr result (lookup (is_at (K.cmp key.now)) self.old ≡ None) }
    {
        match find(self.entries.as_slice(), key) {
            Ok(at) => {
                let value = &mut self.entries[at].1;
                Ok(value)
            }
            Err(_) => Err(NoSlot::Absent),
        }
    }
}

impl<K: Ord + Drop, V> Chunk<K, V> {
    /// Puts a value at a key, and answers the one that was there.
    pub fn insert(&mut self, key: K, value: V) -> Result<Option<V>, AllocError>
    where
        V: Drop,
        requires { IsStrictlySortedBy K.cmp (keys_of self.old) }
        ensures ok { OnOk result (self.new ≡ insert_entry K.cmp self.old key value) }
        ensures old { IfOk result (λ old. old ≡ lookup (is_at (K.cmp key)) self.old) }
        ensures err { OnErr result (self.new ≡ self.old) }
    {
        match find(self.entries.as_slice(), &key) {
            Ok(at) => Ok(Some(mem::replace(&mut self.entries[at].1, value))),
            Err(at) => {
                self.entries.insert(at, (key, value))?;
                Ok(None)
            }
        }
    }

    /// Takes the key out, and answers its value.
    pub fn remove(&mut self, key: &K) -> Option<V>
        requires { IsStrictlySortedBy K.cmp (keys_of self.old) }
        ensures entries { self.new ≡ remove_entry (is_at (K.cmp key.now)) self.old }
        ensures old { result ≡ lookup (is_at (K.cmp key.now)) self.old }
    {
        match find(self.entries.as_slice(), key) {
            Ok(at) => {
                let (_, value) = self.entries.remove(at);
                Some(value)
            }
            Err(_) => None,
        }
    }
}

// Copies of some entries, in a chunk of their own.
pub fn copy_entries<K: Share, V: Share>(
    alloc: Global,
    entries: &[(K, V)],
) -> Result<Chunk<K, V>, AllocError>
    ensures { IfOk result (λ chunk. chunk ≡ entries.now) }
{
    let mut copies = Vec::with_capacity(alloc, entries.len())?;
    for entry in entries {
        let key = entry.0.share()?;
        let value = entry.1.share()?;
        copies.push((key, value))?;
    }
    Ok(Chunk { entries: copies })
}

impl<K: Share, V: Share> Clone for Chunk<K, V> {
    ghost use Rattle.std.specs.Prelude.{◌≡◌};

    ghost is_clone = { λ x y. y ≡ x };

    fn clone(&self) -> Result<Chunk<K, V>, AllocError> {
        copy_entries(*self.entries.allocator(), self.entries.as_slice())
    }
}
