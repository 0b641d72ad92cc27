// The entries of a map, in order.
ghost use Rattle.std.specs.Prelude.{◌≡◌};
ghost use Rattle.rt_map.specs.inside.Joined.{joined, AllFilled};
ghost use Rattle.std.specs.Iterator.{YieldsFirstBy, item_count};
ghost use Rattle.std.specs.Map.{keys_of, values_of};

use crate::chunk::Chunk;
use crate::map::OrdMap;
use crate::row::MapRow;
use std::alloc::Global;
use std::marker::Model;
use std::sync::Arc;

/// The entries that are left.
#[derive(Drop)]
pub struct Iter<'a, K, V> {
    entries: &'a [(K, V)],
    chunks: &'a [Arc<Chunk<K, V>, Global>],
    rows: &'a [Arc<MapRow<K, V>, Global>],
}

impl<'a, K, V> Model for Iter<'a, K, V> {
    ghost use Rattle.std.specs.Prelude.{List, ◌++◌};
    ghost use Rattle.std.specs.Coded.{coded_list, coded×};
    ghost use Rattle.rt_map.specs.inside.Joined.{joined, AllFilled};

    ghost Value = { List (K × V) };

    ghost coded = { coded_list (coded× K.code V.code) };

    ghost view = { λ a. a.entries.now ++ (joined a.chunks.now ++ joined a.rows.now) };

    ghost invariant = { λ a. AllFilled a.chunks.now × AllFilled a.rows.now };
}

impl<'a, K, V> Iterator for Iter<'a, K, V> {
    type Item = (&'a K, &'a V);

    ghost next_gives = { YieldsFirstBy (λ p. (p.0.now, p.1.now)) (λ s. s) };

    ghost remaining = { item_count (λ s. s) };

    fn next(&mut self) -> Option<(&'a K, &'a V)> {
        if let Some((first, rest)) = self.entries.split_first() {
            self.entries = rest;
            return Some((&first.0, &first.1));
        }
        if let Some((chunk, rest)) = self.chunks.split_first() {
            let entries = chunk.entries();
            self.chunks = rest;
            self.entries = &entries[1..];
            let first = &entries[0];
            return Some((&first.0, &first.1));
        }
        if let Some((row, rest)) = self.rows.split_first() {
            let chunks = row.parts();
            let entries = chunks[0].entries();
            self.rows = rest;
            self.chunks = &chunks[1..];
            self.entries = &entries[1..];
            let first = &entries[0];
            return Some((&first.0, &first.1));
        }
        None
    }
}

/// The entries of all of these rows.
pub fn iter_of<'a, K, V>(rows: &'a [Arc<MapRow<K, V>, Global>]) -> Iter<'a, K, V>
    requires { AllFilled rows.now }
    ensures { result ≡ joined rows.now }
{
    Iter {
        entries: &[],
        chunks: &[],
        rows,
    }
}

/// These entries.
pub fn iter_of_entries<'a, K, V>(entries: &'a [(K, V)]) -> Iter<'a, K, V>
    ensures { result ≡ entries.now }
{
    Iter {
        entries,
        chunks: &[],
        rows: &[],
    }
}

impl<'a, K: Ord, V> IntoIterator for &'a OrdMap<K, V> {
    type Item = (&'a K, &'a V);

    type IntoIter = Iter<'a, K, V>;

    ghost use Rattle.std.specs.Prelude.{◌≡◌};
    ghost use Rattle.rt_map.specs.Maps.{IsOrdered};

    ghost into_iter_gives = { λ m r. (r ≡ m.now.entries) × IsOrdered K.cmp m.now };

    fn into_iter(self) -> Iter<'a, K, V> {
        self.iter()
    }
}

/// The keys that are left.
#[derive(Drop)]
pub struct Keys<'a, K, V> {
    entries: Iter<'a, K, V>,
}

impl<'a, K, V> Model for Keys<'a, K, V> {
    ghost use Rattle.std.specs.Prelude.{List};
    ghost use Rattle.std.specs.Coded.{coded_list};
    ghost use Rattle.std.specs.Map.{keys_of};

    ghost Value = { List K };

    ghost coded = { coded_list K.code };

    ghost view = { λ a. keys_of a.entries };
}

impl<'a, K, V> Iterator for Keys<'a, K, V> {
    type Item = &'a K;

    ghost next_gives = { YieldsFirstBy (λ k. k.now) (λ s. s) };

    ghost remaining = { item_count (λ s. s) };

    fn next(&mut self) -> Option<&'a K> {
        match self.entries.next() {
            Some((key, _)) => Some(key),
            None => None,
        }
    }
}

/// The keys of these entries.
pub fn keys_of_entries<'a, K, V>(entries: Iter<'a, K, V>) -> Keys<'a, K, V>
    ensures { result ≡ keys_of entries.entry }
{
    Keys { entries }
}

/// The values that are left.
#[derive(Drop)]
pub struct Values<'a, K, V> {
    entries: Iter<'a, K, V>,
}

impl<'a, K, V> Model for Values<'a, K, V> {
    ghost use Rattle.std.specs.Prelude.{List};
    ghost use Rattle.std.specs.Coded.{coded_list};
    ghost use Rattle.std.specs.Map.{values_of};

    ghost Value = { List V };

    ghost coded = { coded_list V.code };

    ghost view = { λ a. values_of a.entries };
}

impl<'a, K, V> Iterator for Values<'a, K, V> {
    type Item = &'a V;

    ghost next_gives = { YieldsFirstBy (λ v. v.now) (λ s. s) };

    ghost remaining = { item_count (λ s. s) };

    fn next(&mut self) -> Option<&'a V> {
        match self.entries.next() {
            Some((_, value)) => Some(value),
            None => None,
        }
    }
}

/// The values of these entries.
pub fn values_of_entries<'a, K, V>(entries: Iter<'a, K, V>) -> Values<'a, K, V>
    ensures { result ≡ values_of entries.entry }
{
    Values { entries }
}
