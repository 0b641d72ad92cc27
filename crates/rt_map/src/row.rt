// A run of chunks.
ghost use Rattle.std.specs.Prelude.{◌≡◌, [], ◌∷◌, ◌++◌, ◌<◌, ◌≤◌, ◌+◌, ◌-◌, ◌↔◌, length, take, IfOk};
ghost use Rattle.std.specs.Prelude.{IfErr, IfSome, IsSome, IsTrue, None, OnOk, OnErr, Some, slice_index_or};
ghost use Rattle.std.specs.Option.{option_copied};
ghost use Rattle.std.specs.Arc.{arc_value};
ghost use Rattle.std.specs.BTreeMap.{insert_entry, is_at};
ghost use Rattle.std.specs.Map.{lookup, remove_entry, keys_of};
ghost use Rattle.std.specs.List.Sorted.{IsStrictlySortedBy};
ghost use Rattle.rt_map.specs.Maps.{last_below, last_in};
ghost use Rattle.rt_map.specs.inside.Joined.{joined, AllFilled, IsWider};
ghost use Rattle.rt_map.specs.inside.Places.{IsPart};
ghost use Rattle.std.specs.Borrow.{sem};
ghost use Rattle.rt_map.specs.Lent.{LendsInRow};

use crate::chunk::{Chunk, MAX_ENTRIES, copy_entries};
use crate::map::{NoSlot, Share};
use std::alloc::{AllocError, Global};
use std::marker::Model;
use std::sync::Arc;

/// The most chunks of a row.
pub const MAX_CHUNKS: usize = 32;

/// A part of a table: chunks in order, none empty.
#[derive(Drop)]
pub struct MapRow<K, V> {
    chunks: Vec<Arc<Chunk<K, V>, Global>>,
}

impl<K, V> Model for MapRow<K, V> {
    ghost use Rattle.std.specs.Prelude.{List};
    ghost use Rattle.std.specs.Coded.{coded_list, coded×};
    ghost use Rattle.rt_map.specs.inside.Joined.{joined, AllFilled};

    ghost Value = { List (K × V) };

    ghost coded = { coded_list (coded× K.code V.code) };

    ghost view = { λ a. joined a.chunks.items };

    ghost invariant = { λ a. AllFilled a.chunks.items };
}

impl<K, V> MapRow<K, V> {
    /// A row with nothing in it.
    pub fn new(alloc: Global) -> MapRow<K, V>
        ensures { result ≡ [] }
    {
        MapRow {
            chunks: Vec::new(alloc),
        }
    }

    /// A row of these parts.
    pub fn of(chunks: Vec<Arc<Chunk<K, V>, Global>>) -> MapRow<K, V>
        requires { AllFilled chunks.items }
        ensures { result ≡ joined chunks.items }
    {
        MapRow { chunks }
    }

    /// The parts.
    pub fn parts(&self) -> &[Arc<Chunk<K, V>, Global>]
        ensures entries { joined result.now ≡ self.now }
        ensures filled { AllFilled result.now }
    {
        self.chunks.as_slice()
    }

    /// Whether there is no entry.
    pub fn is_empty(&self) -> bool
        ensures { IsTrue result ↔ (self.now ≡ []) }
    {
        self.chunks.is_empty()
    }

    /// The first entry.
    pub fn first(&self) -> &(K, V)
        requires { 0 < length self.now }
        ensures { result.now ≡ slice_index_or self.now 0 result.now }
    {
        first_of(self.chunks.as_slice())
    }

    /// The last entry.
    pub fn last(&self) -> &(K, V)
        requires { 0 < length self.now }
        ensures { result.now ≡ slice_index_or self.now (length self.now - 1) result.now }
    {
        last_of(self.chunks.as_slice())
    }
}

// The first entry of the first part.
fn first_of<K, V>(parts: &[Arc<Chunk<K, V>, Global>]) -> &(K, V)
    requires some { 0 < length (joined parts.now) }
    requires filled { AllFilled parts.now }
    ensures { result.now ≡ slice_index_or (joined parts.now) 0 result.now }
{
    parts[0].first()
}

// The last entry of the last part.
fn last_of<K, V>(parts: &[Arc<Chunk<K, V>, Global>]) -> &(K, V)
    requires some { 0 < length (joined parts.now) }
    requires filled { AllFilled parts.now }
    ensures { result.now
        ≡ slice_index_or (joined parts.now) (length (joined parts.now) - 1) result.now }
{
    parts[parts.len() - 1].last()
}

// The only part that may have the key.
pub fn find_part<K: Ord, V>(parts: &[Arc<Chunk<K, V>, Global>], key: &K) -> usize
    requires some { 0 < length parts.now }
    requires filled { AllFilled parts.now }
    requires sorted { IsStrictlySortedBy K.cmp (keys_of (joined parts.now)) }
    ensures { IsPart K.cmp key.now parts.now result }
{
    let mut low = 0;
    let mut high = parts.len();
    while high - low > 1 {
        let middle = low + (high - low) / 2;
        if key.cmp(&parts[middle].first().0).is_lt() {
            high = middle;
        } else {
            low = middle;
        }
    }
    low
}

// Cuts a part in two.
fn split_part<K: Share, V: Share>(
    parts: &mut Vec<Arc<Chunk<K, V>, Global>>,
    alloc: Global,
    at: usize,
    cut: usize,
) -> Result<(), AllocError>
    requires within { at < length parts.old.items }
    requires left { 0 < cut }
    requires right { IsWider parts.old.items at cut }
    requires filled { AllFilled parts.old.items }
    ensures filled { AllFilled parts.new.items }
    ensures entries { joined parts.new.items ≡ joined parts.old.items }
    ensures some { 0 < length parts.new.items }
{
    let entries = parts[at].entries();
    let left = copy_entries(alloc, &entries[..cut])?;
    let right = copy_entries(alloc, &entries[cut..])?;
    let left = Arc::new(alloc, left)?;
    let right = Arc::new(alloc, right)?;
    parts.insert(at + 1, right)?;
    parts[at] = left;
    Ok(())
}

// The only part that may have the key, with room for one more.
fn part_with_room<K: Ord + Share, V: Share>(
    parts: &mut Vec<Arc<Chunk<K, V>, Global>>,
    alloc: Global,
    key: &K,
) -> Result<usize, AllocError>
    requires some { 0 < length parts.old.items }
    requires filled { AllFilled parts.old.items }
    requires sorted { IsStrictlySortedBy K.cmp (keys_of (joined parts.old.items)) }
    ensures filled { AllFilled parts.new.items }
    ensures entries { joined parts.new.items ≡ joined parts.old.items }
    ensures ok { IfOk result (λ at. IsPart K.cmp key.now parts.new.items at) }
{
    let at = find_part(parts.as_slice(), key);
    let len = parts[at].len();
    if len < MAX_ENTRIES {
        return Ok(at);
    }
    let cut = if at + 1 == parts.len() {
        len - 1
    } else {
        len / 2
    };
    split_part(parts, alloc, at, cut)?;
    Ok(find_part(parts.as_slice(), key))
}

fn insert_in_part<K: Ord + Share, V: Share>(
    parts: &mut Vec<Arc<Chunk<K, V>, Global>>,
    at: usize,
    key: K,
    value: V,
) -> Result<Option<V>, AllocError>
    requires place { IsPart K.cmp key parts.old.items at }
    requires filled { AllFilled parts.old.items }
    requires sorted { IsStrictlySortedBy K.cmp (keys_of (joined parts.old.items)) }
    ensures filled { AllFilled parts.new.items }
    ensures ok { OnOk result
        (joined parts.new.items ≡ insert_entry K.cmp (joined parts.old.items) key value) }
    ensures old { IfOk result (λ old. old ≡ lookup (is_at (K.cmp key)) (joined parts.old.items)) }
    ensures err { OnErr result (joined parts.new.items ≡ joined parts.old.items) }
{
    let chunk = Arc::make_mut(&mut parts[at])?;
    chunk.insert(key, value)
}

// A first part of one entry.
fn insert_first<K: Ord + Share, V: Share>(
    parts: &mut Vec<Arc<Chunk<K, V>, Global>>,
    alloc: Global,
    key: K,
    value: V,
) -> Result<Option<V>, AllocError>
    requires none { parts.old.items ≡ [] }
    ensures filled { AllFilled parts.new.items }
    ensures ok { OnOk result
        (joined parts.new.items ≡ insert_entry K.cmp (joined parts.old.items) key value) }
    ensures old { IfOk result (λ old. old ≡ lookup (is_at (K.cmp key)) (joined parts.old.items)) }
    ensures err { OnErr result (joined parts.new.items ≡ joined parts.old.items) }
{
    let mut chunk = Chunk::new(alloc);
    let old = chunk.insert(key, value)?;
    let chunk = Arc::new(alloc, chunk)?;
    parts.push(chunk)?;
    Ok(old)
}

fn insert_into<K: Ord + Share, V: Share>(
    parts: &mut Vec<Arc<Chunk<K, V>, Global>>,
    alloc: Global,
    key: K,
    value: V,
) -> Result<Option<V>, AllocError>
    requires filled { AllFilled parts.old.items }
    requires sorted { IsStrictlySortedBy K.cmp (keys_of (joined parts.old.items)) }
    ensures filled { AllFilled parts.new.items }
    ensures ok { OnOk result
        (joined parts.new.items ≡ insert_entry K.cmp (joined parts.old.items) key value) }
    ensures old { IfOk result (λ old. old ≡ lookup (is_at (K.cmp key)) (joined parts.old.items)) }
    ensures err { OnErr result (joined parts.new.items ≡ joined parts.old.items) }
{
    if parts.is_empty() {
        return insert_first(parts, alloc, key, value);
    }
    let at = part_with_room(parts, alloc, &key)?;
    insert_in_part(parts, at, key, value)
}

fn remove_in_part<K: Ord + Share, V: Share>(
    parts: &mut Vec<Arc<Chunk<K, V>, Global>>,
    at: usize,
    key: &K,
) -> Result<Option<V>, AllocError>
    requires place { IsPart K.cmp key.now parts.old.items at }
    requires filled { AllFilled parts.old.items }
    requires sorted { IsStrictlySortedBy K.cmp (keys_of (joined parts.old.items)) }
    ensures filled { AllFilled parts.new.items }
    ensures ok { OnOk result
        (joined parts.new.items ≡ remove_entry (is_at (K.cmp key.now)) (joined parts.old.items)) }
    ensures old { IfOk result (λ old. old ≡ lookup (is_at (K.cmp key.now)) (joined parts.old.items)) }
    ensures err { OnErr result (joined parts.new.items ≡ joined parts.old.items) }
{
    let chunk = Arc::make_mut(&mut parts[at])?;
    let old = chunk.remove(key);
    if chunk.len() == 0 {
        drop(parts.remove(at));
    }
    Ok(old)
}

fn get_from<'a, K: Ord, V>(parts: &'a [Arc<Chunk<K, V>, Global>], key: &K) -> Option<&'a V>
    requires filled { AllFilled parts.now }
    requires sorted { IsStrictlySortedBy K.cmp (keys_of (joined parts.now)) }
    ensures { option_copied result ≡ lookup (is_at (K.cmp key.now)) (joined parts.now) }
{
    if parts.is_empty() {
        return None;
    }
    let at = find_part(parts, key);
    parts[at].get(key)
}

// The last key of the parts in front of one.
fn last_in_front<K, V>(parts: &[Arc<Chunk<K, V>, Global>], at: usize) -> Option<&K>
    requires within { at < length parts.now }
    requires filled { AllFilled parts.now }
    ensures { option_copied result ≡ last_in (keys_of (joined (take at parts.now))) }
{
    if at == 0 {
        return None;
    }
    Some(&parts[at - 1].last().0)
}

// The last key below this one.
fn before_in<'a, K: Ord, V>(parts: &'a [Arc<Chunk<K, V>, Global>], key: &K) -> Option<&'a K>
    requires filled { AllFilled parts.now }
    requires sorted { IsStrictlySortedBy K.cmp (keys_of (joined parts.now)) }
    ensures { option_copied result ≡ last_below (K.cmp key.now) (joined parts.now) }
{
    if parts.is_empty() {
        return None;
    }
    let at = find_part(parts, key);
    match parts[at].before(key) {
        Some(found) => Some(found),
        None => last_in_front(parts, at),
    }
}

fn remove_from<K: Ord + Share, V: Share>(
    parts: &mut Vec<Arc<Chunk<K, V>, Global>>,
    key: &K,
) -> Result<Option<V>, AllocError>
    requires filled { AllFilled parts.old.items }
    requires sorted { IsStrictlySortedBy K.cmp (keys_of (joined parts.old.items)) }
    ensures filled { AllFilled parts.new.items }
    ensures ok { OnOk result
        (joined parts.new.items ≡ remove_entry (is_at (K.cmp key.now)) (joined parts.old.items)) }
    ensures old { IfOk result (λ old. old ≡ lookup (is_at (K.cmp key.now)) (joined parts.old.items)) }
    ensures err { OnErr result (joined parts.new.items ≡ joined parts.old.items) }
{
    if parts.is_empty() {
        return Ok(None);
    }
    let at = find_part(parts.as_slice(), key);
    remove_in_part(parts, at, key)
}

// The same parts in a list of their own.
fn copy_parts<K: Drop, V: Drop>(
    alloc: Global,
    parts: &[Arc<Chunk<K, V>, Global>],
) -> Result<Vec<Arc<Chunk<K, V>, Global>>, AllocError>
    requires { AllFilled parts.now }
    ensures filled { IfOk result (λ copies. AllFilled copies.items) }
    ensures entries { IfOk result (λ copies. joined copies.items ≡ joined parts.now) }
{
    let mut copies = Vec::with_capacity(alloc, parts.len())?;
    for part in parts {
        let copy = Arc::try_clone(part)?;
        copies.push(copy)?;
    }
    Ok(copies)
}

// Copies of the parts before the cut, and of those after it.
fn halves_of<K: Drop, V: Drop>(
    alloc: Global,
    parts: &[Arc<Chunk<K, V>, Global>],
    cut: usize,
) -> Result<(MapRow<K, V>, MapRow<K, V>), AllocError>
    requires left { 0 < cut }
    requires right { cut < length parts.now }
    requires filled { AllFilled parts.now }
    ensures all { IfOk result (λ p. p.0 ++ p.1 ≡ joined parts.now) }
    ensures left { IfOk result (λ p. 0 < length p.0) }
    ensures right { IfOk result (λ p. 0 < length p.1) }
{
    let left = copy_parts(alloc, &parts[..cut])?;
    let right = copy_parts(alloc, &parts[cut..])?;
    Ok((MapRow { chunks: left }, MapRow { chunks: right }))
}

impl<K: Drop, V: Drop> MapRow<K, V> {
    /// The row in two halves; `None` where it can't be cut there.
    pub fn halves(
        &self,
        alloc: Global,
        cut: usize,
    ) -> Result<Option<(MapRow<K, V>, MapRow<K, V>)>, AllocError>
        ensures all { IfOk result (λ o. IfSome o (λ p. p.0 ++ p.1 ≡ self.now)) }
        ensures left { IfOk result (λ o. IfSome o (λ p. 0 < length p.0)) }
        ensures right { IfOk result (λ o. IfSome o (λ p. 0 < length p.1)) }
    {
        if cut == 0 || cut >= self.chunks.len() {
            return Ok(None);
        }
        let halves = halves_of(alloc, self.chunks.as_slice(), cut)?;
        Ok(Some(halves))
    }
}

impl<K: Drop, V: Drop> Clone for MapRow<K, V> {
    ghost use Rattle.std.specs.Prelude.{◌≡◌};

    ghost is_clone = { λ x y. y ≡ x };

    fn clone(&self) -> Result<MapRow<K, V>, AllocError> {
        let chunks = copy_parts(*self.chunks.allocator(), self.chunks.as_slice())?;
        Ok(MapRow { chunks })
    }
}

impl<K: Ord, V> MapRow<K, V> {
    /// The value at the key.
    pub fn get(&self, key: &K) -> Option<&V>
        requires { IsStrictlySortedBy K.cmp (keys_of self.now) }
        ensures { option_copied result ≡ lookup (is_at (K.cmp key.now)) self.now }
    {
        get_from(self.chunks.as_slice(), key)
    }

    /// The last key below this one.
    pub fn before(&self, key: &K) -> Option<&K>
        requires { IsStrictlySortedBy K.cmp (keys_of self.now) }
        ensures { option_copied result ≡ last_below (K.cmp key.now) self.now }
    {
        before_in(self.chunks.as_slice(), key)
    }
}

impl<K: Ord + Share, V: Share> MapRow<K, V> {
    /// Puts a value at a key, and answers the one that was there.
    pub fn insert(&mut self, alloc: Global, key: K, value: V) -> Result<Option<V>, AllocError>
        requires { IsStrictlySortedBy K.cmp (keys_of self.old) }
        ensures ok { OnOk result (self.new ≡ insert_entry K.cmp self.old key value) }
        ensures old { IfOk result (λ old. old ≡ lookup (is_at (K.cmp key)) self.old) }
        ensures err { OnErr result (self.new ≡ self.old) }
    {
        insert_into(&mut self.chunks, alloc, key, value)
    }

    /// Takes the key out, and answers its value.
    pub fn remove(&mut self, key: &K) -> Result<Option<V>, AllocError>
        requires { IsStrictlySortedBy K.cmp (keys_of self.old) }
        ensures ok { OnOk result (self.new ≡ remove_entry (is_at (K.cmp key.now)) self.old) }
        ensures old { IfOk result (λ old. old ≡ lookup (is_at (K.cmp key.now)) self.old) }
        ensures err { OnErr result (self.new ≡ self.old) }
    {
        remove_from(&mut self.chunks, key)
    }

    /// The value at the key, to write to, if it is there.
    pub fn slot(&mut self, key: &K) -> Result<&mut V, NoSlot>
        requires { IsStrictlySortedBy K.cmp (keys_of self.old) }
        ensures* writes_back { sem 𝓛 (LendsInRow K.row V.row (K.cmp key.now) self.entry result) }
        ensures value { IfOk result (λ v. lookup (is_at (K.cmp key.now)) self.old ≡ Some v.now) }
        ensures absent { IfErr result (λ e. e ≡ NoSlot.Absent
            → lookup (is_at (K.cmp key.now)) self.old ≡ None) }
    {
        if self.chunks.is_empty() {
            return Err(NoSlot::Absent);
        }
        let at = find_part(self.chunks.as_slice(), key);
        let chunk = Arc::make_mut(&mut self.chunks[at])?;
        let value = chunk.slot(key)?;
        Ok(value)
    }
}
