// The order of keys.
ghost use Rattle.std.specs.Prelude.{◌≡◌, is_some, length, IfOk, List, ℕ, Some};
ghost use Rattle.std.specs.Ordering.{ordering_then, nat_cmp, eq_by_cmp};
ghost use Rattle.std.specs.Cmp.{eq_by_cmp_equiv, partial_order_from_total};
ghost use Rattle.std.proofs.Common.{rules};
ghost use Rattle.rt_order.specs.KeyOrder.{bytes_cmp, integer_of, key_cmp, key_cmp_by};
ghost use Rattle.rt_order.specs.laws.KeyOrder.{key_cmp_total};
ghost use Rattle.std.specs.Cmp as Cmp;

use crate::placed_ref::PlacedRef;
use rt_tree::Key;
use std::alloc::AllocError;
use std::cmp::Ordering;
use std::marker::Model;

// The numbers of integer keys.
pub(crate) type Number = i32;

// The number of an integer key. A key may have many leading zeros, and a plus is no part of a
// number.
pub(crate) fn integer_of(key: &Key) -> Option<Number>
    ensures { result ≡ integer_of key.now }
{
    let text = key.text();
    if text.starts_with('+') {
        return None;
    }
    text.parse::<Number>().ok()
}

// Shorter keys first, and those of one length by their bytes.
fn length_cmp(a: &Key, b: &Key) -> Ordering
    ensures { result ≡ ordering_then (nat_cmp (length a.now) (length b.now)) (bytes_cmp a.now b.now) }
{
    a.text().len().cmp(&b.text().len()).then_with(|| a.cmp(b))
}

// The order of two keys whose numbers are known.
pub(crate) fn key_cmp_by(m: Option<Number>, n: Option<Number>, a: &Key, b: &Key) -> Ordering
    ensures { result ≡ key_cmp_by m n a.now b.now }
{
    match (m, n) {
        (Some(m), Some(n)) => m.cmp(&n).then_with(|| length_cmp(a, b)),
        (Some(_), None) => Ordering::Less,
        (None, Some(_)) => Ordering::Greater,
        (None, None) => a.cmp(b),
    }
}

/// The order of keys of the Firebase Realtime Database: integer keys come first, by number, and the
/// others follow.
///
/// An integer key is an optional minus and one or more digits whose number is an `i32`. Ties of
/// integer keys go by length, then by bytes; other keys go by bytes. Both keys are read as integers:
/// where one key is compared to many, read it once, as [`PlacedKey`](crate::PlacedKey) or
/// [`PlacedRef`](crate::PlacedRef).
pub fn key_cmp(a: &Key, b: &Key) -> Ordering
    ensures { result ≡ key_cmp a.now b.now }
{
    key_cmp_by(integer_of(a), integer_of(b), a, b)
}

/// Whether a key is an integer key, as [`key_cmp`] has them. Where no key is one, keys are in the order
/// of their bytes.
pub fn is_integer(key: &Key) -> bool
    ensures { result ≡ is_some (integer_of key.now) }
{
    integer_of(key).is_some()
}

// ---- keys whose numbers have been read

/// A key whose place among other keys is known: whether it is an integer key, and of which number,
/// is read once.
///
/// It is ordered as [`key_cmp`](crate::key_cmp) orders keys, so it keys a map in the order of keys. A
/// search that has the key but borrowed takes a [`PlacedRef`], or a `PlacedKey` of a copy, which
/// shares the text.
#[derive(Debug)]
pub struct PlacedKey {
    key: Key,
    number: Option<Number>,
}

impl Drop for PlacedKey {
    fn drop(self) {
        let PlacedKey { key: _, number: _ } = self;
    }
}

impl Model for PlacedKey {
    ghost Value = { List ℕ };

    ghost view = { λ a. a.key };

    ghost invariant = { λ a. a.number ≡ integer_of a.key };
}

impl PlacedKey {
    /// Reads the key's place.
    pub fn of(key: Key) -> PlacedKey
        ensures { result ≡ key }
    {
        let number = integer_of(&key);
        PlacedKey { key, number }
    }

    /// The key.
    pub fn key(&self) -> &Key
        ensures { result.now ≡ self.now }
    {
        &self.key
    }

    /// The key, borrowed, with its place.
    pub fn borrowed(&self) -> PlacedRef<'_>
        ensures { result ≡ self.now }
    {
        PlacedRef::known(&self.key, self.number)
    }

    /// An equal key that shares the text. It reads nothing anew.
    pub fn copy(&self) -> Result<PlacedKey, AllocError>
        ensures { IfOk result (λ key. key ≡ self.now) }
    {
        let key = self.key.copy()?;
        let number = self.number;
        Ok(PlacedKey { key, number })
    }
}

impl PartialEq for PlacedKey {
    ghost eq = { eq_by_cmp key_cmp };

    ghost laws = { Cmp.partial_equiv_from_equiv (eq_by_cmp_equiv key_cmp_total) };

    fn eq(&self, other: &PlacedKey) -> bool {
        self.cmp(other).is_eq()
    }
}

impl Eq for PlacedKey {
    ghost laws = { eq_by_cmp_equiv key_cmp_total };
}

impl PartialOrd for PlacedKey {
    ghost partial_cmp = { λ x y. Some (key_cmp x y) };

    ghost laws = { partial_order_from_total key_cmp_total };

    fn partial_cmp(&self, other: &PlacedKey) -> Option<Ordering> {
        Some(self.cmp(other))
    }
}

impl Ord for PlacedKey {
    ghost cmp = { key_cmp };

    ghost total = { key_cmp_total };

    ghost matches_partial_cmp = { Prim.search rules };

    ghost matches_eq = { Prim.search rules };

    fn cmp(&self, other: &PlacedKey) -> Ordering {
        key_cmp_by(self.number, other.number, &self.key, &other.key)
    }
}
