// A borrowed key whose number has been read.
ghost use Rattle.std.specs.Prelude.{◌≡◌, List, ℕ, Some};
ghost use Rattle.std.specs.Cmp as Cmp;
ghost use Rattle.std.specs.Cmp.{eq_by_cmp_equiv, partial_order_from_total};
ghost use Rattle.std.specs.Ordering.{eq_by_cmp};
ghost use Rattle.std.proofs.Common.{rules};
ghost use Rattle.rt_order.specs.KeyOrder.{integer_of, key_cmp};
ghost use Rattle.rt_order.specs.laws.KeyOrder.{key_cmp_total};

use crate::key::{Number, integer_of, key_cmp_by};
use rt_tree::Key;
use std::cmp::Ordering;
use std::marker::Model;

/// A borrowed key whose place among other keys is known, for a search or a sort: see
/// [`PlacedKey`](crate::PlacedKey).
#[derive(Debug, Drop)]
pub struct PlacedRef<'a> {
    key: &'a Key,
    number: Option<Number>,
}

impl<'a> Model for PlacedRef<'a> {
    ghost Value = { List ℕ };

    ghost view = { λ a. a.key.now };

    ghost invariant = { λ a. a.number ≡ integer_of a.key.now };
}

impl<'a> PlacedRef<'a> {
    /// Reads the key's place.
    pub fn of(key: &'a Key) -> PlacedRef<'a>
        ensures { result ≡ key.now }
    {
        let number = integer_of(key);
        PlacedRef { key, number }
    }

    // A key whose number has been read.
    pub(crate) fn known(key: &'a Key, number: Option<Number>) -> PlacedRef<'a>
        requires { number ≡ integer_of key.now }
        ensures { result ≡ key.now }
    {
        PlacedRef { key, number }
    }

    /// The key.
    pub fn key(&self) -> &'a Key
        ensures { result.now ≡ self.now }
    {
        self.key
    }
}

impl<'a> PartialEq for PlacedRef<'a> {
    ghost eq = { eq_by_cmp key_cmp };

    ghost laws = { Cmp.partial_equiv_from_equiv (eq_by_cmp_equiv key_cmp_total) };

    fn eq(&self, other: &PlacedRef<'a>) -> bool {
        self.cmp(other).is_eq()
    }
}

impl<'a> Eq for PlacedRef<'a> {
    ghost laws = { eq_by_cmp_equiv key_cmp_total };
}

impl<'a> PartialOrd for PlacedRef<'a> {
    ghost partial_cmp = { λ x y. Some (key_cmp x y) };

    ghost laws = { partial_order_from_total key_cmp_total };

    fn partial_cmp(&self, other: &PlacedRef<'a>) -> Option<Ordering> {
        Some(self.cmp(other))
    }
}

impl<'a> Ord for PlacedRef<'a> {
    ghost cmp = { key_cmp };

    ghost total = { key_cmp_total };

    ghost matches_partial_cmp = { Prim.search rules };

    ghost matches_eq = { Prim.search rules };

    fn cmp(&self, other: &PlacedRef<'a>) -> Ordering {
        key_cmp_by(self.number, other.number, self.key, other.key)
    }
}
