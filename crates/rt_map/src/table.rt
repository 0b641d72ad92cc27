// A run of rows.
ghost use Rattle.std.specs.Prelude.{◌≡◌, [], ◌∷◌, ◌++◌, ◌<◌, ◌≤◌, ◌+◌, ◌-◌, ◌↔◌, length, take, IfOk};
ghost use Rattle.std.specs.Prelude.{IfErr, IsSome, None, OnOk, OnErr, Some, slice_index_or};
ghost use Rattle.std.specs.Option.{option_copied};
ghost use Rattle.std.specs.Arc.{arc_value};
ghost use Rattle.std.specs.BTreeMap.{insert_entry, is_at};
ghost use Rattle.std.specs.Map.{lookup, remove_entry, keys_of};
ghost use Rattle.std.specs.List.Sorted.{IsStrictlySortedBy};
ghost use Rattle.rt_map.specs.Maps.{last_below, last_in};
ghost use Rattle.rt_map.specs.inside.Joined.{joined, AllFilled, IsWider};
ghost use Rattle.rt_map.specs.inside.Places.{IsPart};
ghost use Rattle.std.specs.Borrow.{sem};
ghost use Rattle.rt_map.specs.Lent.{LendsInTable};

use crate::map::{NoSlot, Share};
use crate::row::{MAX_CHUNKS, MapRow};
use std::alloc::{AllocError, Global};
use std::marker::Model;
use std::sync::Arc;

/// All parts of a large map: rows in order, none empty.
#[derive(Drop)]
pub struct Table<K, V> {
    rows: Vec<Arc<MapRow<K, V>, Global>>,
}

impl<K, V> Model for Table<K, V> {
    ghost use Rattle.std.specs.Prelude.{List};
    ghost use Rattle.std.specs.Coded.{coded_list, coded×};
    ghost use Rattle.rt_map.specs.inside.Joined.{joined, AllFilled};

    ghost Value = { List (K × V) };

    ghost coded = { coded_list (coded× K.code V.code) };

    ghost view = { λ a. joined a.rows.items };

    ghost invariant = { λ a. AllFilled a.rows.items };
}

impl<K, V> Table<K, V> {
    /// A table of these parts.
    pub fn of(rows: Vec<Arc<MapRow<K, V>, Global>>) -> Table<K, V>
        requires { AllFilled rows.items }
        ensures { result ≡ joined rows.items }
    {
        Table { rows }
    }

    /// The parts.
    pub fn parts(&self) -> &[Arc<MapRow<K, V>, Global>]
        ensures entries { joined result.now ≡ self.now }
        ensures filled { AllFilled result.now }
    {
        self.rows.as_slice()
    }

    /// The first entry.
    pub fn first(&self) -> &(K, V)
        requires { 0 < length self.now }
        ensures { result.now ≡ slice_index_or self.now 0 result.now }
    {
        first_of(self.rows.as_slice())
    }

    /// The last entry.
    pub fn last(&self) -> &(K, V)
        requires { 0 < length self.now }
        ensures { result.now ≡ slice_index_or self.now (length self.now - 1) result.now }
    {
        last_of(self.rows.as_slice())
    }
}

// The first entry of the first part.
fn first_of<K, V>(parts: &[Arc<MapRow<K, V>, Global>]) -> &(K, V)
    requires some { 0 < length (joined parts.now) }
    requires filled { AllFilled parts.now }
    ensures { result.now ≡ slice_index_or (joined parts.now) 0 result.now }
{
    parts[0].first()
}

// The last entry of the last part.
fn last_of<K, V>(parts: &[Arc<MapRow<K, V>, Global>]) -> &(K, V)
    requires some { 0 < length (joined parts.now) }
    requires filled { AllFilled parts.now }
    ensures { result.now
        ≡ slice_index_or (joined parts.now) (length (joined parts.now) - 1) result.now }
{
    parts[parts.len() - 1].last()
}

// The only part that may have the key.
pub fn find_part<K: Ord, V>(parts: &[Arc<MapRow<K, V>, Global>], key: &K) -> usize
    requires some { 0 < length parts.now }
    requires filled { AllFilled parts.now }
    requires sorted { IsStrictlySortedBy K.cmp (keys_of (joined parts.now)) }
    ensures { IsPart K.cmp key.now parts.now result }
{
    let mut low = 0;
    let mut high = parts.len();
    while high - low > 1 {
        let middle = low + (high - low) / 2;
        if key.cmp(&parts[middle].first().0).is_lt() {
            high = middle;
        } else {
            low = middle;
        }
    }
    low
}

// Cuts a part in two, where it can be cut there.
fn split_part<K: Drop, V: Drop>(
    parts: &mut Vec<Arc<MapRow<K, V>, Global>>,
    alloc: Global,
    at: usize,
    cut: usize,
) -> Result<(), AllocError>
    requires within { at < length parts.old.items }
    requires filled { AllFilled parts.old.items }
    ensures filled { AllFilled parts.new.items }
    ensures entries { joined parts.new.items ≡ joined parts.old.items }
    ensures some { 0 < length parts.new.items }
{
    let Some((left, right)) = parts[at].halves(alloc, cut)? else {
        return Ok(());
    };
    let left = Arc::new(alloc, left)?;
    let right = Arc::new(alloc, right)?;
    parts.insert(at + 1, right)?;
    parts[at] = left;
    Ok(())
}

// The only part that may have the key, with room for one more.
fn part_with_room<K: Ord + Share, V: Share>(
    parts: &mut Vec<Arc<MapRow<K, V>, Global>>,
    alloc: Global,
    key: &K,
) -> Result<usize, AllocError>
    requires some { 0 < length parts.old.items }
    requires filled { AllFilled parts.old.items }
    requires sorted { IsStrictlySortedBy K.cmp (keys_of (joined parts.old.items)) }
    ensures filled { AllFilled parts.new.items }
    ensures entries { joined parts.new.items ≡ joined parts.old.items }
    ensures ok { IfOk result (λ at. IsPart K.cmp key.now parts.new.items at) }
{
    let at = find_part(parts.as_slice(), key);
    let len = parts[at].parts().len();
    if len < MAX_CHUNKS {
        return Ok(at);
    }
    let cut = if at + 1 == parts.len() {
        len - 1
    } else {
        len / 2
    };
    split_part(parts, alloc, at, cut)?;
    Ok(find_part(parts.as_slice(), key))
}

fn insert_in_part<K: Ord + Share, V: Share>(
    parts: &mut Vec<Arc<MapRow<K, V>, Global>>,
    alloc: Global,
    at: usize,
    key: K,
    value: V,
) -> Result<Option<V>, AllocError>
    requires place { IsPart K.cmp key parts.old.items at }
    requires filled { AllFilled parts.old.items }
    requires sorted { IsStrictlySortedBy K.cmp (keys_of (joined parts.old.items)) }
    ensures filled { AllFilled parts.new.items }
    ensures ok { OnOk result
        (joined parts.new.items ≡ insert_entry K.cmp (joined parts.old.items) key value) }
    ensures old { IfOk result (λ old. old ≡ lookup (is_at (K.cmp key)) (joined parts.old.items)) }
    ensures err { OnErr result (joined parts.new.items ≡ joined parts.old.items) }
{
    let chunk = Arc::make_mut(&mut parts[at])?;
    chunk.insert(alloc, key, value)
}

// A first part of one entry.
fn insert_first<K: Ord + Share, V: Share>(
    parts: &mut Vec<Arc<MapRow<K, V>, Global>>,
    alloc: Global,
    key: K,
    value: V,
) -> Result<Option<V>, AllocError>
    requires none { parts.old.items ≡ [] }
    ensures filled { AllFilled parts.new.items }
    ensures ok { OnOk result
        (joined parts.new.items ≡ insert_entry K.cmp (joined parts.old.items) key value) }
    ensures old { IfOk result (λ old. old ≡ lookup (is_at (K.cmp key)) (joined parts.old.items)) }
    ensures err { OnErr result (joined parts.new.items ≡ joined parts.old.items) }
{
    let mut chunk = MapRow::new(alloc);
    let old = chunk.insert(alloc, key, value)?;
    let chunk = Arc::new(alloc, chunk)?;
    parts.push(chunk)?;
    Ok(old)
}

fn insert_into<K: Ord + Share, V: Share>(
    parts: &mut Vec<Arc<MapRow<K, V>, Global>>,
    alloc: Global,
    key: K,
    value: V,
) -> Result<Option<V>, AllocError>
    requires filled { AllFilled parts.old.items }
    requires sorted { IsStrictlySortedBy K.cmp (keys_of (joined parts.old.items)) }
    ensures filled { AllFilled parts.new.items }
    ensures ok { OnOk result
        (joined parts.new.items ≡ insert_entry K.cmp (joined parts.old.items) key value) }
    ensures old { IfOk result (λ old. old ≡ lookup (is_at (K.cmp key)) (joined parts.old.items)) }
    ensures err { OnErr result (joined parts.new.items ≡ joined parts.old.items) }
{
    if parts.is_empty() {
        return insert_first(parts, alloc, key, value);
    }
    let at = part_with_room(parts, alloc, &key)?;
    insert_in_part(parts, alloc, at, key, value)
}

fn remove_in_part<K: Ord + Share, V: Share>(
    parts: &mut Vec<Arc<MapRow<K, V>, Global>>,
    at: usize,
    key: &K,
) -> Result<Option<V>, AllocError>
    requires place { IsPart K.cmp key.now parts.old.items at }
    requires filled { AllFilled parts.old.items }
    requires sorted { IsStrictlySortedBy K.cmp (keys_of (joined parts.old.items)) }
    ensures filled { AllFilled parts.new.items }
    ensures ok { OnOk result
        (joined parts.new.items ≡ remove_entry (is_at (K.cmp key.now)) (joined parts.old.items)) }
    ensures old { IfOk result (λ old. old ≡ lookup (is_at (K.cmp key.now)) (joined parts.old.items)) }
    ensures err { OnErr result (joined parts.new.items ≡ joined parts.old.items) }
{
    let chunk = Arc::make_mut(&mut parts[at])?;
    let old = chunk.remove(key)?;
    if chunk.is_empty() {
        drop(parts.remove(at));
    }
    Ok(old)
}

fn get_from<'a, K: Ord, V>(parts: &'a [Arc<MapRow<K, V>, Global>], key: &K) -> Option<&'a V>
    requires filled { AllFilled parts.now }
    requires sorted { IsStrictlySortedBy K.cmp (keys_of (joined parts.now)) }
    ensures { option_copied result ≡ lookup (is_at (K.cmp key.now)) (joined parts.now) }
{
    if parts.is_empty() {
        return None;
    }
    let at = find_part(parts, key);
    parts[at].get(key)
}

// The last key of the parts in front of one.
fn last_in_front<K, V>(parts: &[Arc<MapRow<K, V>, Global>], at: usize) -> Option<&K>
    requires within { at < length parts.now }
    requires filled { AllFilled parts.now }
    ensures { option_copied result ≡ last_in (keys_of (joined (take at parts.now))) }
{
    if at == 0 {
        return None;
    }
    Some(&parts[at - 1].last().0)
}

// The last key below this one.
fn before_in<'a, K: Ord, V>(parts: &'a [Arc<MapRow<K, V>, Global>], key: &K) -> Option<&'a K>
    requires filled { AllFilled parts.now }
    requires sorted { IsStrictlySortedBy K.cmp (keys_of (joined parts.now)) }
    ensures { option_copied result ≡ last_below (K.cmp key.now) (joined parts.now) }
{
    if parts.is_empty() {
        return None;
    }
    let at = find_part(parts, key);
    match parts[at].before(key) {
        Some(found) => Some(found),
        None => last_in_front(parts, at),
    }
}

fn remove_from<K: Ord + Share, V: Share>(
    parts: &mut Vec<Arc<MapRow<K, V>, Global>>,
    key: &K,
) -> Result<Option<V>, AllocError>
    requires filled { AllFilled parts.old.items }
    requires sorted { IsStrictlySortedBy K.cmp (keys_of (joined parts.old.items)) }
    ensures filled { AllFilled parts.new.items }
    ensures ok { OnOk result
        (joined parts.new.items ≡ remove_entry (is_at (K.cmp key.now)) (joined parts.old.items)) }
    ensures old { IfOk result (λ old. old ≡ lookup (is_at (K.cmp key.now)) (joined parts.old.items)) }
    ensures err { OnErr result (joined parts.new.items ≡ joined parts.old.items) }
{
    if parts.is_empty() {
        return Ok(None);
    }
    let at = find_part(parts.as_slice(), key);
    remove_in_part(parts, at, key)
}

// The same parts in a list of their own.
fn copy_parts<K: Drop, V: Drop>(
    alloc: Global,
    parts: &[Arc<MapRow<K, V>, Global>],
) -> Result<Vec<Arc<MapRow<K, V>, Global>>, AllocError>
    requires { AllFilled parts.now }
    ensures filled { IfOk result (λ copies. AllFilled copies.items) }
    ensures entries { IfOk result (λ copies. joined copies.items ≡ joined parts.now) }
{
    let mut copies = Vec::with_capacity(alloc, parts.len())?;
    for part in parts {
        let copy = Arc::try_clone(part)?;
        copies.push(copy)?;
    }
    Ok(copies)
}

impl<K: Drop, V: Drop> Clone for Table<K, V> {
    ghost use Rattle.std.specs.Prelude.{◌≡◌};

    ghost is_clone = { λ x y. y ≡ x };

    fn clone(&self) -> Result<Table<K, V>, AllocError> {
        let rows = copy_parts(*self.rows.allocator(), self.rows.as_slice())?;
        Ok(Table { rows })
    }
}

impl<K: Ord, V> Table<K, V> {
    /// The value at the key.
    pub fn get(&self, key: &K) -> Option<&V>
        requires { IsStrictlySortedBy K.cmp (keys_of self.now) }
        ensures { option_copied result ≡ lookup (is_at (K.cmp key.now)) self.now }
    {
        get_from(self.rows.as_slice(), key)
    }

    /// The last key below this one.
    pub fn before(&self, key: &K) -> Option<&K>
        requires { IsStrictlySortedBy K.cmp (keys_of self.now) }
        ensures { option_copied result ≡ last_below (K.cmp key.now) self.now }
    {
        before_in(self.rows.as_slice(), key)
    }
}

impl<K: Ord + Share, V: Share> Table<K, V> {
    /// Puts a value at a key, and answers the one that was there.
    pub fn insert(&mut self, alloc: Global, key: K, value: V) -> Result<Option<V>, AllocError>
        requires { IsStrictlySortedBy K.cmp (keys_of self.old) }
        ensures ok { OnOk result (self.new ≡ insert_entry K.cmp self.old key value) }
        ensures old { IfOk result (λ old. old ≡ lookup (is_at (K.cmp key)) self.old) }
        ensures err { OnErr result (self.new ≡ self.old) }
    {
        insert_into(&mut self.rows, alloc, key, value)
    }

    /// Takes the key out, and answers its value.
    pub fn remove(&mut self, key: &K) -> Result<Option<V>, AllocError>
        requires { IsStrictlySortedBy K.cmp (keys_of self.old) }
        ensures ok { OnOk result (self.new ≡ remove_entry (is_at (K.cmp key.now)) self.old) }
        ensures old { IfOk result (λ old. old ≡ lookup (is_at (K.cmp key.now)) self.old) }
        ensures err { OnErr result (self.new ≡ self.old) }
    {
        remove_from(&mut self.rows, key)
    }

    /// The value at the key, to write to, if it is there.
    pub fn slot(&mut self, key: &K) -> Result<&mut V, NoSlot>
        requires { IsStrictlySortedBy K.cmp (keys_of self.old) }
        ensures* writes_back { sem 𝓛 (LendsInTable K.row V.row (K.cmp key.now) self.entry result) }
        ensures value { IfOk result (λ v. lookup (is_at (K.cmp key.now)) self.old ≡ Some v.now) }
        ensures absent { IfErr result (λ e. e ≡ NoSlot.Absent
            → lookup (is_at (K.cmp key.now)) self.old ≡ None) }
    {
        if self.rows.is_empty() {
            return Err(NoSlot::Absent);
        }
        let at = find_part(self.rows.as_slice(), key);
        let row = Arc::make_mut(&mut self.rows[at])?;
        let value = row.slot(key)?;
        Ok(value)
    }
}
