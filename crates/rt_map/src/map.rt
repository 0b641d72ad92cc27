// The map.
ghost use Rattle.std.specs.Prelude.{◌≡◌, [], ◌-◌, length, IfErr, IfOk, IfSome, OnOk, OnErr, IsSome, IsTrue};
ghost use Rattle.std.specs.Prelude.{is_some, MatchOption, None, Some, slice_get, ◌↔◌, ◌&&◌};
ghost use Rattle.std.specs.Option.{option_copied};
ghost use Rattle.std.specs.List.{IsAmong};
ghost use Rattle.std.specs.List.Sorted.{IsStrictlySortedBy};
ghost use Rattle.std.specs.BTreeMap.{insert_entry, is_at};
ghost use Rattle.std.specs.Map.{remove_entry, keys_of};
ghost use Rattle.std.specs.Borrow.{sem};
ghost use Rattle.std.specs.Cmp.Lexicographic.{pointwise};
ghost use Rattle.rt_map.specs.Maps.{values, get_by, last_below, IsOrdered};
ghost use Rattle.rt_map.specs.Lent.{LendsInMap};
ghost use Rattle.rt_map.specs.Updates.{Updates};
ghost use Rattle.rt_map.specs.declared.map.NoSlot.TheVariants.{NoMemory};

use crate::iter::{Iter, Keys, Values, keys_of_entries, values_of_entries};
use crate::root::Root;
use std::alloc::{AllocError, Global};
use std::fmt::{self, Debug, Formatter, Write};
use std::marker::Model;
use std::sync::Arc;

/// An ordered map whose copies share their parts. A copy costs the same at any size, and a change
/// of a map that somebody holds a copy of copies the parts on the way to the key alone.
///
/// Contracts see a map as its entries, whose keys rise, as they see a `BTreeMap`.
///
/// ```text
/// let mut map = OrdMap::new(alloc)?;
/// map.insert(alloc, key, value)?;
/// let held = map.copy()?;
/// map.remove(&key)?;              // `held` still has it
/// ```
pub struct OrdMap<K: Ord, V> {
    len: usize,
    root: Root<K, V>,
}

impl<K: Ord + Drop, V: Drop> Drop for OrdMap<K, V> {
    fn drop(self) {
        let OrdMap { len: _, root: _ } = self;
    }
}

impl<K: Ord, V> Model for OrdMap<K, V> {
    ghost use Rattle.std.specs.Prelude.{◌≡◌, length};
    ghost use Rattle.std.specs.Map.{keys_of};
    ghost use Rattle.std.specs.List.Sorted.{IsStrictlySortedBy};
    ghost use Rattle.rt_map.specs.Maps.{OrdMap as Seen, map_of, map_code};
    ghost use Rattle.rt_map.specs.inside.Roots.{root_entries};

    ghost Value = { Seen K V };

    ghost coded = { map_code K.code V.code };

    ghost view = { λ a. map_of (root_entries a.root) };

    ghost invariant = { λ a. (a.len ≡ length (root_entries a.root))
        × IsStrictlySortedBy K.cmp (keys_of (root_entries a.root)) };
}

impl<K: Ord + Drop, V: Drop> OrdMap<K, V> {
    /// The map with nothing in it.
    ///
    /// # Errors
    ///
    /// `AllocError` where memory is missing.
    pub fn new(alloc: Global) -> Result<OrdMap<K, V>, AllocError>
        ensures empty { IfOk result (λ map. map.entries ≡ []) }
        ensures ordered { IfOk result (λ map. IsOrdered K.cmp map) }
    {
        let root = Root::new(alloc)?;
        Ok(OrdMap { len: 0, root })
    }

    /// The map of these entries, whose keys rise. The entries are moved, and none is compared.
    ///
    /// # Errors
    ///
    /// `AllocError` where memory is missing.
    pub fn from_sorted(alloc: Global, entries: Vec<(K, V)>) -> Result<OrdMap<K, V>, AllocError>
        requires { IsStrictlySortedBy K.cmp (keys_of entries.items) }
        ensures { IfOk result (λ map. map.entries ≡ entries.items) }
    {
        let len = entries.len();
        let root = Root::of_entries(alloc, entries)?;
        Ok(OrdMap { len, root })
    }
}

impl<K: Ord, V> OrdMap<K, V> {
    /// How many entries.
    pub fn len(&self) -> usize
        ensures len { result ≡ length self.now.entries }
        ensures ordered { IsOrdered K.cmp self.now }
    {
        self.len
    }

    /// Whether there is no entry.
    pub fn is_empty(&self) -> bool
        ensures { IsTrue result ↔ (length self.now.entries ≡ 0) }
    {
        self.len == 0
    }

    /// An equal map, which shares all parts with this one.
    ///
    /// # Errors
    ///
    /// `AllocError` where a part is shared too often to be counted.
    pub fn copy(&self) -> Result<OrdMap<K, V>, AllocError>
        ensures { IfOk result (λ map. map ≡ self.now) }
    {
        let root = self.root.copy()?;
        Ok(OrdMap {
            len: self.len,
            root,
        })
    }

    /// The value at the key.
    pub fn get(&self, key: &K) -> Option<&V>
        ensures value { option_copied result ≡ get_by (K.cmp key.now) self.now }
        ensures member { IfSome result (λ x. IsAmong (values self.now) x.now) }
        ensures ordered { IsOrdered K.cmp self.now }
    {
        self.root.get(key)
    }

    /// Whether there is an entry at the key.
    pub fn contains_key(&self, key: &K) -> bool
        ensures { result ≡ is_some (get_by (K.cmp key.now) self.now) }
    {
        self.get(key).is_some()
    }

    /// The last key below this one, which need not be there.
    pub fn before(&self, key: &K) -> Option<&K>
        ensures { option_copied result ≡ last_below (K.cmp key.now) self.now.entries }
    {
        self.root.before(key)
    }

    /// The entry of the least key.
    pub fn first(&self) -> Option<(&K, &V)>
        ensures { MatchOption result (self.now.entries ≡ []) (λ e. slice_get self.now.entries 0
            ≡ Some (e.0.now, e.1.now)) }
    {
        self.iter().next()
    }

    /// The entry of the greatest key.
    pub fn last(&self) -> Option<(&K, &V)>
        ensures { MatchOption result (self.now.entries ≡ []) (λ e. slice_get self.now.entries
            (length self.now.entries - 1) ≡ Some (e.0.now, e.1.now)) }
    {
        if self.len == 0 {
            return None;
        }
        let entry = self.root.last();
        Some((&entry.0, &entry.1))
    }

    /// The entries, in the order of their keys.
    pub fn iter(&self) -> Iter<'_, K, V>
        ensures rest { result ≡ self.now.entries }
        ensures ordered { IsOrdered K.cmp self.now }
    {
        self.root.iter()
    }

    /// The keys, in their order.
    pub fn keys(&self) -> Keys<'_, K, V>
        ensures rest { result ≡ keys_of self.now.entries }
        ensures ordered { IsOrdered K.cmp self.now }
    {
        keys_of_entries(self.iter())
    }

    /// The values, in the order of their keys.
    pub fn values(&self) -> Values<'_, K, V>
        ensures rest { result ≡ values self.now }
        ensures ordered { IsOrdered K.cmp self.now }
    {
        values_of_entries(self.iter())
    }
}

impl<K: Ord + Share, V: Share> OrdMap<K, V> {
    /// Puts a value at a key, and answers the one that was there. An equal key stays.
    ///
    /// # Errors
    ///
    /// `AllocError` where memory is missing; nothing changes then.
    pub fn insert(&mut self, alloc: Global, key: K, value: V) -> Result<Option<V>, AllocError>
        ensures entries { OnOk result
            (self.new.entries ≡ insert_entry K.cmp self.old.entries key value) }
        ensures updates { OnOk result (Updates K.cmp self.old self.new key (Some value)) }
        ensures old { IfOk result (λ old. old ≡ get_by (K.cmp key) self.old) }
        ensures err { OnErr result (self.new ≡ self.old) }
        ensures ordered { IsOrdered K.cmp self.new }
        ensures was_ordered { IsOrdered K.cmp self.old }
    {
        if self.len == usize::MAX {
            return Err(AllocError);
        }
        let old = self.root.insert(alloc, key, value)?;
        if old.is_none() {
            self.len += 1;
        }
        Ok(old)
    }

    /// Takes the key out, and answers its value. An absent key needs no memory.
    ///
    /// # Errors
    ///
    /// `AllocError` where a shared part can't be copied; nothing changes then.
    pub fn remove(&mut self, key: &K) -> Result<Option<V>, AllocError>
        ensures entries { OnOk result
            (self.new.entries ≡ remove_entry (is_at (K.cmp key.now)) self.old.entries) }
        ensures updates { OnOk result (Updates K.cmp self.old self.new key.now None) }
        ensures value { IfOk result (λ old. old ≡ get_by (K.cmp key.now) self.old) }
        ensures err { OnErr result (self.new ≡ self.old) }
        ensures there { OnErr result (IsSome (get_by (K.cmp key.now) self.old)) }
        ensures ordered { IsOrdered K.cmp self.new }
        ensures was_ordered { IsOrdered K.cmp self.old }
    {
        if self.get(key).is_none() {
            return Ok(None);
        }
        let old = self.root.remove(key)?;
        if old.is_some() {
            self.len -= 1;
        }
        Ok(old)
    }

    /// The slot of a key: its value, to write to. The parts on the way are this map's own from then on.
    ///
    /// # Errors
    ///
    /// `Absent` where there is no entry at the key, `NoMemory` where a shared part can't be copied;
    /// nothing changes then.
    pub fn slot(&mut self, key: &K) -> Result<&mut V, NoSlot>
        ensures* writes_back { sem 𝓛 (LendsInMap K.row V.row K.Ord (K.cmp key.now) self.entry result) }
        ensures value { IfOk result (λ v. get_by (K.cmp key.now) self.old ≡ Some v.now) }
        ensures absent { IfErr result (λ e. e ≡ NoSlot.Absent
            → get_by (K.cmp key.now) self.old ≡ None) }
        ensures was_ordered { IsOrdered K.cmp self.old }
    {
        match &mut self.root {
            Root::Small(chunk) => {
                let chunk = Arc::make_mut(chunk)?;
                let value = chunk.slot(key)?;
                Ok(value)
            }
            Root::Large(table) => {
                let table = Arc::make_mut(table)?;
                let value = table.slot(key)?;
                Ok(value)
            }
        }
    }
}

// ---- equality of maps

// Whether the same entries are left.
fn same_entries<K: Ord, V: PartialEq>(left: Iter<'_, K, V>, right: Iter<'_, K, V>) -> bool
    ensures { result ≡ pointwise (λ p q. K.eq p.0 q.0 && V.eq p.1 q.1) left.entry right.entry }
{
    let mut left = left;
    let mut right = right;
    while let Some((key, value)) = left.next() {
        let Some((k, v)) = right.next() else {
            return false;
        };
        if !(*key == *k && *value == *v) {
            return false;
        }
    }
    right.next().is_none()
}

/// Maps are equal where their entries are.
impl<K: Ord, V: PartialEq> PartialEq for OrdMap<K, V> {
    ghost use Rattle.std.specs.Prelude.{◌&&◌};
    ghost use Rattle.std.specs.Cmp.Lexicographic.{pointwise, lists_per};
    ghost use Rattle.std.specs.Cmp.{and_per, on_per};

    ghost eq = { λ m n. pointwise (λ p q. K.eq p.0 q.0 && V.eq p.1 q.1) m.entries n.entries };

    ghost laws = { on_per (λ m. m.entries)
        (lists_per (and_per (on_per (λ p. p.0) K.PartialEq.laws) (on_per (λ p. p.1) V.laws))) };

    fn eq(&self, other: &OrdMap<K, V>) -> bool {
        same_entries(self.iter(), other.iter())
    }
}

impl<K: Ord, V: Eq> Eq for OrdMap<K, V> {
    ghost use Rattle.std.specs.Cmp.Lexicographic.{lists_equiv};
    ghost use Rattle.std.specs.Cmp.{and_equiv, on_equiv};

    ghost laws = { on_equiv (λ m. m.entries)
        (lists_equiv (and_equiv (on_equiv (λ p. p.0) K.Eq.laws) (on_equiv (λ p. p.1) V.Eq.laws))) };
}

// ---- how a map prints

/// As a map of std: `{key: value, key: value}`.
impl<K: Ord + Debug, V: Debug> Debug for OrdMap<K, V> {
    fn fmt<W: Write>(&self, f: &mut Formatter<W>) -> fmt::Result {
        f.debug_map().entries(self.iter()).finish()
    }
}

// ---- why a map hands out no slot

/// Why a map hands out no slot of a key.
#[derive(Clone, Copy, Debug, PartialEq, Eq)]
pub enum NoSlot {
    /// There is no entry at the key.
    Absent,
    /// A shared part can't be copied.
    NoMemory,
}

impl From<AllocError> for NoSlot {
    ghost from_gives = { λ _ e. e ≡ NoMemory };

    fn from(_error: AllocError) -> NoSlot {
        NoSlot::NoMemory
    }
}

// ---- what can be copied in next to no time

/// A type whose copies are equal to the original and share what it holds.
pub trait Share: Drop {
    /// An equal value.
    fn share(&self) -> Result<Self, AllocError>
        ensures { IfOk result (λ it. it ≡ self.now) };
}
