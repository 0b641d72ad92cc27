// Which entries meet which listeners, so that each listener is handed its own entries and no others.
ghost use Rattle.std.specs.Prelude.{◌≡◌, ◌≤◌, ◌<◌, ◌++◌, ◌==◌, ◌&&◌, ℕ, Bool, true, false, length, map, IfOk};
ghost use Rattle.std.specs.Prelude.{OnOk};
ghost use Rattle.std.specs.List.{AllPairs, list_any};
ghost use Rattle.std.specs.List.Sorted.{IsPartitionPoint};
ghost use Rattle.std.specs.Ordering.{is_le, is_lt, nat_cmp};
ghost use Rattle.rt_parts.specs.inside.Pairs.{AreUp, HaveAll, HavePairs, met_cmp};
ghost use Rattle.rt_parts.specs.inside.Placed.{AreInOrder};

use crate::places::{ListenerPlace, push_met, sort_once};
use rt_tree::{Path, Tree};
use std::alloc::{AllocError, Global};

// Adds a pair of each of these numbers with the entry.
fn push_each(pairs: &mut Vec<(u64, usize)>, numbers: &[u64], entry: usize) -> Result<(), AllocError>
    ensures { OnOk result (pairs.new.items
        ≡ pairs.old.items ++ map (λ n. (n, entry)) numbers.now) }
{
    for number in numbers {
        pairs.push((*number, entry))?;
    }
    Ok(())
}

// Sorts the pairs, each once.
fn sort_pairs(pairs: &mut Vec<(u64, usize)>)
    ensures up { AreUp pairs.new.items }
    ensures same { (p : ℕ × ℕ → Bool) → list_any p pairs.new.items ≡ list_any p pairs.old.items }
{
    pairs.sort_unstable();
    pairs.dedup();
}

// The pairs of listeners, by number, and of the entries that meet their paths, in order. Of an entry
// it looks for its path, and goes over those that stand above, at or under it.
pub(crate) fn pairs_met(
    alloc: Global,
    places: &[ListenerPlace],
    entries: &[(Path, Tree)],
) -> Result<Vec<(u64, usize)>, AllocError>
    requires { AreInOrder places.now }
    ensures up { IfOk result (λ pairs. AreUp pairs.items) }
    ensures all { IfOk result (λ pairs. HavePairs entries.now pairs.items places.now) }
{
    let mut pairs = Vec::new(alloc);
    for at in 0..entries.len() {
        let entry = &entries[at];
        push_met(&mut pairs, places, &entry.0, at)?;
    }
    sort_pairs(&mut pairs);
    Ok(pairs)
}

// The pairs of each of these numbers with each of so many entries, in order.
pub(crate) fn pairs_with(
    alloc: Global,
    numbers: &[u64],
    count: usize,
) -> Result<Vec<(u64, usize)>, AllocError>
    ensures up { IfOk result (λ pairs. AreUp pairs.items) }
    ensures all { IfOk result (λ pairs. HaveAll count numbers.now pairs.items) }
    ensures only { IfOk result (λ pairs. (n : ℕ) → list_any (λ o. n == o.0) pairs.items ≡ true
        → list_any (λ m. n == m) numbers.now ≡ true) }
{
    let mut pairs = Vec::new(alloc);
    for at in 0..count {
        push_each(&mut pairs, numbers, at)?;
    }
    sort_pairs(&mut pairs);
    Ok(pairs)
}

// Adds the numbers of the pairs.
fn push_firsts(numbers: &mut Vec<u64>, pairs: &[(u64, usize)]) -> Result<(), AllocError>
    ensures { OnOk result (numbers.new.items ≡ numbers.old.items ++ map (λ o. o.0) pairs.now) }
{
    for pair in pairs {
        numbers.push(pair.0)?;
    }
    Ok(())
}

// The numbers of the pairs, rising, each once.
pub(crate) fn numbers_in(alloc: Global, pairs: &[(u64, usize)]) -> Result<Vec<u64>, AllocError>
    ensures rise { IfOk result (λ numbers. AllPairs (λ m n. m < n) numbers.items) }
    ensures same { IfOk result (λ numbers. (p : ℕ → Bool)
        → list_any p numbers.items ≡ list_any (λ o. p o.0) pairs.now) }
{
    let mut numbers = Vec::new(alloc);
    push_firsts(&mut numbers, pairs)?;
    sort_once(&mut numbers);
    Ok(numbers)
}

// Whether the pair stands in front of all those of the number.
fn is_before(pair: &(u64, usize), number: u64) -> bool
    ensures { result ≡ is_lt (met_cmp pair.now (number, 0)) }
{
    pair.0.cmp(&number).then(pair.1.cmp(&0)).is_lt()
}

// Where the first of the number stands, by halving.
fn first_of(pairs: &[(u64, usize)], number: u64) -> usize
    requires { AreUp pairs.now }
    ensures within { result ≤ length pairs.now }
    ensures point { IsPartitionPoint (λ o. is_lt (met_cmp o (number, 0)) ≡ true)
        (λ o. is_lt (met_cmp o (number, 0)) ≡ false) pairs.now result }
{
    pairs.partition_point(|pair| is_before(pair, number))
}

// Whether the pair's number is not greater.
fn is_not_behind(pair: &(u64, usize), number: u64) -> bool
    ensures { result ≡ is_le (nat_cmp (pair.now).0 number) }
{
    pair.0.cmp(&number).is_le()
}

// The pairs of the number.
pub(crate) fn own_of<'a>(pairs: &'a [(u64, usize)], number: u64) -> &'a [(u64, usize)]
    requires { AreUp pairs.now }
    ensures { (p : ℕ × ℕ → Bool) → list_any (λ o. number == o.0 && p o) pairs.now ≡ true
        → list_any p result.now ≡ true }
{
    let first = first_of(pairs, number);
    let rest = &pairs[first..];
    let count = rest.partition_point(|pair| is_not_behind(pair, number));
    &rest[..count]
}
