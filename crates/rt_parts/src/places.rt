// Where listeners stand by path: those that entries meet are found by halving.
ghost use Rattle.std.specs.Prelude.{◌≡◌, ◌≤◌, ◌<◌, ◌++◌, ◌||◌, ℕ, Bool, true, false, not};
ghost use Rattle.std.specs.Prelude.{length, map, vec_len, vec_capacity, IfOk, OnOk, take};
ghost use Rattle.std.specs.List.{All, AllPairs, filter, list_any};
ghost use Rattle.std.specs.List.Sorted.{IsPartitionPoint};
ghost use Rattle.std.specs.Ordering.{is_eq, is_le, is_lt};
ghost use Rattle.rt_tree.specs.PathTree.{Path as Keys, path_cmp, path_eq};
ghost use Rattle.rt_tree.specs.Assignments.{do_overlap, is_at_or_above};
ghost use Rattle.rt_parts.specs.declared.places.ListenerPlace.{ListenerPlace};
ghost use Rattle.rt_parts.specs.inside.Pairs.{KeepsPairs};
ghost use Rattle.rt_parts.specs.inside.Placed.{AreInOrder, HaveFrom, HaveNumbers, Keeps, is_paired};
ghost use Rattle.rt_parts.specs.inside.Placed.{stand_cmp, stand_of};

use rt_tree::{Key, Path};
use std::alloc::AllocError;

// A listener's path, with its number and its seat.
pub(crate) struct ListenerPlace {
    pub(crate) path: Path,
    pub(crate) number: u64,
    pub(crate) seat: u64,
}

impl Drop for ListenerPlace {
    fn drop(self) {
        let ListenerPlace {
            path: _,
            number: _,
            seat: _,
        } = self;
    }
}

// Whether it stands in front of a path and a number.
fn is_before(place: &ListenerPlace, path: &[Key], number: u64) -> bool
    ensures { result ≡ is_lt (stand_cmp (stand_of place.now) (path.now, number)) }
{
    place
        .path
        .keys()
        .cmp(path)
        .then(place.number.cmp(&number))
        .is_lt()
}

// Where the first stands that is not in front of a path and a number, by halving.
fn first_from(places: &[ListenerPlace], path: &[Key], number: u64) -> usize
    requires { AreInOrder places.now }
    ensures within { result ≤ length places.now }
    ensures point { IsPartitionPoint
        (λ x. is_lt (stand_cmp (stand_of x) (path.now, number)) ≡ true)
        (λ x. is_lt (stand_cmp (stand_of x) (path.now, number)) ≡ false) places.now result }
{
    places.partition_point(|place| is_before(place, path, number))
}

// Whether its path does not stand behind this one.
fn is_not_behind(place: &ListenerPlace, path: &[Key]) -> bool
    ensures { result ≡ is_le (path_cmp place.now.path path.now) }
{
    place.path.keys().cmp(path).is_le()
}

// Adds the numbers of these.
fn push_numbers(numbers: &mut Vec<u64>, places: &[ListenerPlace]) -> Result<(), AllocError>
    ensures { OnOk result (numbers.new.items
        ≡ numbers.old.items ++ map (λ x. x.number) places.now) }
{
    for place in places {
        numbers.push(place.number)?;
    }
    Ok(())
}

// Adds the numbers of those of a path.
pub(crate) fn push_at(
    numbers: &mut Vec<u64>,
    places: &[ListenerPlace],
    path: &[Key],
) -> Result<(), AllocError>
    requires { AreInOrder places.now }
    ensures kept { OnOk result (Keeps numbers.old.items numbers.new.items) }
    ensures all { OnOk result (HaveNumbers (λ x. path_eq x.path path.now)
        numbers.new.items places.now) }
{
    let first = first_from(places, path, 0);
    let rest = &places[first..];
    let count = rest.partition_point(|place| is_not_behind(place, path));
    push_numbers(numbers, &rest[..count])
}

// How many keys both begin with.
fn shared(left: &[Key], right: &[Key]) -> usize
    ensures within { result ≤ length right.now }
    ensures most { (r : Keys) → is_at_or_above r left.now ≡ true → is_at_or_above r right.now ≡ true
        → is_at_or_above r (take result right.now) ≡ true }
{
    let Some((key, keys)) = left.split_first() else {
        return 0;
    };
    let Some((other, others)) = right.split_first() else {
        return 0;
    };
    if key != other {
        return 0;
    }
    shared(keys, others) + 1
}

// Adds the pair of the last one with the entry, if its path is at or above this one, and answers how
// many of those in front of it may stand there too: those that stand at the keys that both paths
// begin with, or in front.
fn push_last(
    pairs: &mut Vec<(u64, usize)>,
    places: &[ListenerPlace],
    path: &Path,
    entry: usize,
) -> Result<usize, AllocError>
    requires order { AreInOrder places.now }
    requires front { All (λ x. is_lt (path_cmp path.now x.path) ≡ false) places.now }
    requires some { 0 < length places.now }
    ensures fewer { IfOk result (λ left. left < length places.now) }
    ensures kept { OnOk result (KeepsPairs pairs.old.items pairs.new.items) }
    ensures all { IfOk result (λ left. HaveFrom (λ x. is_at_or_above x.path path.now)
        (is_paired entry pairs.new.items) places.now left) }
{
    let end = places.len() - 1;
    let last = &places[end];
    if last.path.is_prefix_of(path) {
        pairs.push((last.number, entry))?;
        return Ok(end);
    }
    let keys = path.keys();
    let first = &keys[..shared(last.path.keys(), keys)];
    Ok(places[..end].partition_point(|place| is_not_behind(place, first)))
}

// Adds the pairs of an entry with those at or above its path, in front of which all of these stand.
// Where the last one is not above it, the next that may be is found by halving.
fn push_above(
    pairs: &mut Vec<(u64, usize)>,
    places: &[ListenerPlace],
    path: &Path,
    entry: usize,
) -> Result<(), AllocError>
    requires order { AreInOrder places.now }
    requires front { All (λ x. is_lt (path_cmp path.now x.path) ≡ false) places.now }
    ensures kept { OnOk result (KeepsPairs pairs.old.items pairs.new.items) }
    ensures all { OnOk result (HaveFrom (λ x. is_at_or_above x.path path.now)
        (is_paired entry pairs.new.items) places.now 0) }
{
    let mut left = places.len();
    while left > 0 {
        left = push_last(pairs, &places[..left], path, entry)?;
    }
    Ok(())
}

// Whether its path is at or under this one.
fn is_under(place: &ListenerPlace, path: &Path) -> bool
    ensures { result ≡ is_at_or_above path.now place.now.path }
{
    path.is_prefix_of(&place.path)
}

// Adds a pair of each of these with the entry.
fn push_all(
    pairs: &mut Vec<(u64, usize)>,
    places: &[ListenerPlace],
    entry: usize,
) -> Result<(), AllocError>
    ensures { OnOk result (pairs.new.items
        ≡ pairs.old.items ++ map (λ x. (x.number, entry)) places.now) }
{
    for place in places {
        pairs.push((place.number, entry))?;
    }
    Ok(())
}

// Adds the pairs of an entry with those at or under its path, none of which stands in front of it.
fn push_under(
    pairs: &mut Vec<(u64, usize)>,
    places: &[ListenerPlace],
    path: &Path,
    entry: usize,
) -> Result<(), AllocError>
    requires order { AreInOrder places.now }
    requires behind { All (λ x. is_lt (path_cmp x.path path.now) ≡ false) places.now }
    ensures kept { OnOk result (KeepsPairs pairs.old.items pairs.new.items) }
    ensures all { OnOk result (HaveFrom (λ x. is_at_or_above path.now x.path)
        (is_paired entry pairs.new.items) places.now 0) }
{
    let count = places.partition_point(|place| is_under(place, path));
    push_all(pairs, &places[..count], entry)
}

// Adds the pairs of an entry with those at, above and under its path, which is found once: those
// above it stand in front, the nearest last.
pub(crate) fn push_met(
    pairs: &mut Vec<(u64, usize)>,
    places: &[ListenerPlace],
    path: &Path,
    entry: usize,
) -> Result<(), AllocError>
    requires { AreInOrder places.now }
    ensures kept { OnOk result (KeepsPairs pairs.old.items pairs.new.items) }
    ensures all { OnOk result (All (λ x. do_overlap path.now x.path ≡ true
        → is_paired entry pairs.new.items x ≡ true) places.now) }
{
    let first = first_from(places, path.keys(), 0);
    push_above(pairs, &places[..first], path, entry)?;
    push_under(pairs, &places[first..], path, entry)
}

// Sorts the numbers, each once.
pub(crate) fn sort_once(numbers: &mut Vec<u64>)
    ensures rise { AllPairs (λ m n. m < n) numbers.new.items }
    ensures same { (p : ℕ → Bool) → list_any p numbers.new.items ≡ list_any p numbers.old.items }
{
    numbers.sort_unstable();
    numbers.dedup();
}

// Puts one in its place, for which there is room.
pub(crate) fn insert_place(places: &mut Vec<ListenerPlace>, place: ListenerPlace)
    requires order { AreInOrder places.old.items }
    requires free { All (λ x. is_eq (stand_cmp (stand_of x) (stand_of place)) ≡ false)
        places.old.items }
    requires room { vec_len places.old < vec_capacity places.old }
    ensures order { AreInOrder places.new.items }
    ensures same { (p : ListenerPlace → Bool) → list_any p places.new.items
        ≡ (p place || list_any p places.old.items) }
{
    let at = first_from(places, place.path.keys(), place.number);
    let _in_reserved_room = places.insert(at, place);
}

// Whether it stands at the path, under the number.
fn is_place(place: &ListenerPlace, path: &Path, number: u64) -> bool
    ensures { result ≡ is_eq (stand_cmp (stand_of place.now) (path.now, number)) }
{
    place.path == *path && place.number == number
}

// Takes out the one of the path and the number, if it is there, by halving.
pub(crate) fn remove_place(places: &mut Vec<ListenerPlace>, path: &Path, number: u64)
    requires { AreInOrder places.old.items }
    ensures { places.new.items
        ≡ filter (λ x. not (is_eq (stand_cmp (stand_of x) (path.now, number)))) places.old.items }
{
    let at = first_from(places, path.keys(), number);
    if at == places.len() {
        return;
    }
    if is_place(&places[at], path, number) {
        drop(places.remove(at));
    }
}
