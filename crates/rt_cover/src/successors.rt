// For whom listens start once others are lost: looked for under the paths of plain ones, and at those of
// others.
ghost use Rattle.std.specs.Prelude.{◌≡◌, ◌<◌, ◌≤◌, ◌||◌, ◌&&◌, ◌==◌, true, false, not, ℕ, Bool, length, OnOk};
ghost use Rattle.std.specs.Prelude.{IfOk, slice_index_or, take, drop, Some, IfSome};
ghost use Rattle.std.specs.List.{find, list_any, All, AllPairs};
ghost use Rattle.std.specs.List.Sorted.{IsSorted};
ghost use Rattle.std.specs.Option.{option_map_or};
ghost use Rattle.rt_query.specs.Queries.{is_filtered};
ghost use Rattle.rt_query.specs.Supply.{form, does_supply};
ghost use Rattle.rt_cover.specs.Cover.{Tagged};
ghost use Rattle.rt_cover.specs.inside.Endings.{by_number, is_replaced, begins_at, begins_after};
ghost use Rattle.rt_cover.specs.inside.Endings.{has_supplied, is_range_at, IsOfBeginners};
ghost use Rattle.rt_cover.specs.inside.Index.{by_form, form_of, AreApart};
ghost use Rattle.rt_cover.specs.inside.Widest.{Entry, IsOfPath, leads, IsOfTops};

use crate::by_path::{HasForm, supply};
use crate::change::EndedListeners;
use crate::listen::Listen;
use crate::listeners::{Listener, Listeners, add_some};
use crate::listens::in_order;
use crate::supply::{Widest, has_left, is_behind, is_wider_at, places_of_widest};
use rt_forms::Filtered;
use rt_query::Query;
use rt_tree::Path;
use std::alloc::{AllocError, Global};

// Whether the listener is left, and none that is comes before it.
fn begins<E: EndedListeners>(
    listeners: &Listeners,
    ending: &E,
    widest: Option<&Widest<'_>>,
    listener: &Listener,
) -> bool
    requires forms { All (λ l. form l.1 ≡ l.1) listeners.now }
    requires own { form listener.now.1 ≡ listener.now.1 }
    requires widest { IfSome widest (λ w. IsOfPath (E.ended ending.now) listeners.now
        w.now.path.now w.now.entries.now w.now.places.now) }
    ensures { result ≡ (not (E.ended ending.now listener.now.0)
        && not (is_replaced (by_number (E.ended ending.now)) listeners.now listener.now)) }
{
    !ending.ends(listener.number()) && !is_behind(listeners, ending, widest, listener)
}

// The number again, where a listen starts for its listener, which is this one.
fn begun<E: EndedListeners>(
    listeners: &Listeners,
    ending: &E,
    widest: Option<&Widest<'_>>,
    listener: &Listener,
    number: u64,
) -> Option<u64>
    requires forms { All (λ l. form l.1 ≡ l.1) listeners.now }
    requires there { find (λ l. l.0 == number) listeners.now ≡ Some listener.now }
    requires widest { IfSome widest (λ w. IsOfPath (E.ended ending.now) listeners.now
        w.now.path.now w.now.entries.now w.now.places.now) }
    ensures { (p : ℕ → Bool) → option_map_or p result false
        ≡ begins_at (by_number (E.ended ending.now)) listeners.now p number }
{
    if begins(listeners, ending, widest, listener) {
        Some(number)
    } else {
        None
    }
}

// The same of the listener of that number, which is looked for.
fn begun_at<E: EndedListeners>(
    listeners: &Listeners,
    ending: &E,
    widest: &Widest<'_>,
    number: u64,
) -> Option<u64>
    requires rise { AllPairs (λ l m. l.0 < m.0) listeners.now }
    requires forms { All (λ l. form l.1 ≡ l.1) listeners.now }
    requires widest { IsOfPath (E.ended ending.now) listeners.now
        widest.now.path.now widest.now.entries.now widest.now.places.now }
    ensures { (p : ℕ → Bool) → option_map_or p result false
        ≡ begins_at (by_number (E.ended ending.now)) listeners.now p number }
{
    let Some(listener) = listeners.at(number) else {
        return None;
    };
    begun(listeners, ending, Some(widest), listener, number)
}

// Adds the numbers of those of some listeners that begin.
fn add_begun<E: EndedListeners>(
    numbers: &mut Vec<u64>,
    listeners: &Listeners,
    ending: &E,
    widest: &Widest<'_>,
    beside: &[u64],
) -> Result<(), AllocError>
    requires rise { AllPairs (λ l m. l.0 < m.0) listeners.now }
    requires forms { All (λ l. form l.1 ≡ l.1) listeners.now }
    requires widest { IsOfPath (E.ended ending.now) listeners.now
        widest.now.path.now widest.now.entries.now widest.now.places.now }
    ensures { OnOk result ((p : ℕ → Bool) → list_any p numbers.new.items
        ≡ (list_any p numbers.old.items
        || list_any (begins_at (by_number (E.ended ending.now)) listeners.now p) beside.now)) }
{
    for number in beside {
        add_some(numbers, begun_at(listeners, ending, widest, *number))?;
    }
    Ok(())
}

// The same, with the widest forms of the path that they mostly have.
fn add_beside<E: EndedListeners>(
    numbers: &mut Vec<u64>,
    listeners: &Listeners,
    ending: &E,
    path: &Path,
    beside: &[u64],
) -> Result<(), AllocError>
    requires rise { AllPairs (λ l m. l.0 < m.0) listeners.now }
    requires forms { All (λ l. form l.1 ≡ l.1) listeners.now }
    ensures { OnOk result ((p : ℕ → Bool) → list_any p numbers.new.items
        ≡ (list_any p numbers.old.items
        || list_any (begins_at (by_number (E.ended ending.now)) listeners.now p) beside.now)) }
{
    if !has_left(beside, ending) {
        return Ok(());
    }
    let entries = listeners.filtered_at(path.keys());
    let places = places_of_widest(listeners.alloc(), entries, ending)?;
    let widest = Widest {
        path,
        entries,
        places: &places,
    };
    add_begun(numbers, listeners, ending, &widest, beside)
}

// Whether the listener of that number has a range of the path.
fn is_at(listeners: &Listeners, path: &Path, number: u64) -> bool
    requires { AllPairs (λ l m. l.0 < m.0) listeners.now }
{
    match listeners.at(number) {
        Some(listener) => listener.form().is_filtered() && listener.form().path() == path,
        None => false,
    }
}

// How many listeners come before the first that has no range of the path.
fn count_at(listeners: &Listeners, path: &Path, numbers: &[u64]) -> usize
    requires { AllPairs (λ l m. l.0 < m.0) listeners.now }
    ensures { result ≤ length numbers.now }
{
    for count in 0..numbers.len() {
        if !is_at(listeners, path, numbers[count]) {
            return count;
        }
    }
    numbers.len()
}

// How many others stand together with the first, whose form this is: ranges of one path.
fn count_beside(listeners: &Listeners, form: &Query, others: &[u64]) -> usize
    requires { AllPairs (λ l m. l.0 < m.0) listeners.now }
    ensures { result ≤ length others.now }
{
    if !form.is_filtered() {
        return 0;
    }
    count_at(listeners, form.path(), others)
}

// Those behind the first so many.
fn behind<T>(items: &[T], count: usize) -> &[T]
    requires { count ≤ length items.now }
    ensures { result.now ≡ drop count items.now }
{
    &items[count..]
}

// Adds the numbers of the first of some listeners, and of the others that stand together with it, if they
// begin; how many listeners these are. One alone is asked at once, and of several the widest forms of their
// path.
fn add_next<E: EndedListeners>(
    numbers: &mut Vec<u64>,
    listeners: &Listeners,
    ending: &E,
    supplied: &[u64],
) -> Result<usize, AllocError>
    requires rise { AllPairs (λ l m. l.0 < m.0) listeners.now }
    requires forms { All (λ l. form l.1 ≡ l.1) listeners.now }
    requires some { 0 < length supplied.now }
    ensures some { IfOk result (λ count. 0 < count) }
    ensures within { IfOk result (λ count. count ≤ length supplied.now) }
    ensures numbers { IfOk result (λ count. (p : ℕ → Bool) → list_any p numbers.new.items
        ≡ (list_any p numbers.old.items || list_any
        (begins_at (by_number (E.ended ending.now)) listeners.now p) (take count supplied.now))) }
{
    let first = supplied[0];
    let Some(listener) = listeners.at(first) else {
        return Ok(1);
    };
    let others = count_beside(listeners, listener.form(), behind(supplied, 1));
    if others == 0 {
        add_some(numbers, begun(listeners, ending, None, listener, first))?;
        return Ok(1);
    }
    let count = others + 1;
    add_beside(
        numbers,
        listeners,
        ending,
        listener.form().path(),
        &supplied[..count],
    )?;
    Ok(count)
}

// Adds the numbers of those of some listeners that begin. Ranges of one path mostly stand together.
fn add_all<E: EndedListeners>(
    numbers: &mut Vec<u64>,
    listeners: &Listeners,
    ending: &E,
    supplied: &[u64],
) -> Result<(), AllocError>
    requires rise { AllPairs (λ l m. l.0 < m.0) listeners.now }
    requires forms { All (λ l. form l.1 ≡ l.1) listeners.now }
    ensures { OnOk result ((p : ℕ → Bool) → list_any p numbers.new.items
        ≡ (list_any p numbers.old.items
        || list_any (begins_at (by_number (E.ended ending.now)) listeners.now p) supplied.now)) }
{
    let mut rest = supplied;
    while !rest.is_empty() {
        let count = add_next(numbers, listeners, ending, rest)?;
        rest = behind(rest, count);
    }
    Ok(())
}

// ---- whom lost listens supplied

// Whether one of these ranges supplies the form. Where there is one alone, it is asked at once.
fn is_supplied(ranges: &[Listen], form: &Query) -> bool
    requires order { IsSorted (by_form form_of) ranges.now }
    requires filtered { All (λ k. is_filtered k.form ≡ true) ranges.now }
    requires apart { AreApart form_of ranges.now }
    ensures { result ≡ list_any (λ k. does_supply k.form form.now) ranges.now }
{
    if ranges.len() == 1 {
        return ranges[0].form().supplies(form);
    }
    supply(ranges, form)
}

// Whether the form at the other place, if any, is no other one that takes in the form at the place, and a
// listener of this one is left.
fn leads<E: EndedListeners>(
    entries: &[Filtered],
    ending: &E,
    place: usize,
    last: Option<usize>,
) -> bool
    requires within { place < length entries.now }
    requires among { IfSome last (λ w. w < length entries.now) }
    ensures { (d : Entry) → result ≡ leads (E.ended ending.now) entries.now d place last }
{
    !is_wider_at(entries, entries[place].form(), last) && has_left(entries[place].numbers(), ending)
}

// Whether one of the ranges supplies it besides.
fn goes_in<E: EndedListeners>(
    ranges: &[Listen],
    entries: &[Filtered],
    ending: &E,
    place: usize,
    last: Option<usize>,
) -> bool
    requires order { IsSorted (by_form form_of) ranges.now }
    requires filtered { All (λ k. is_filtered k.form ≡ true) ranges.now }
    requires apart { AreApart form_of ranges.now }
    requires within { place < length entries.now }
    requires among { IfSome last (λ w. w < length entries.now) }
    ensures { (d : Entry) → result ≡ (leads (E.ended ending.now) entries.now d place last
        && list_any (λ k. does_supply k.form (slice_index_or entries.now place d).0) ranges.now) }
{
    leads(entries, ending, place, last) && is_supplied(ranges, entries[place].form())
}

// Adds the numbers of those of these forms that one of the ranges supplies, but for some that don't begin:
// a form of which none is left, or that the last one takes in that went in.
fn add_forms<E: EndedListeners>(
    numbers: &mut Vec<u64>,
    ending: &E,
    ranges: &[Listen],
    entries: &[Filtered],
) -> Result<(), AllocError>
    requires order { IsSorted (by_form form_of) ranges.now }
    requires filtered { All (λ k. is_filtered k.form ≡ true) ranges.now }
    requires apart { AreApart form_of ranges.now }
    ensures { OnOk result ((t : ℕ → Bool) → IsOfTops (E.ended ending.now) entries.now t
        → list_any t numbers.new.items ≡ (list_any t numbers.old.items || list_any (λ e.
        list_any (λ k. does_supply k.form e.0) ranges.now && list_any t e.1) entries.now)) }
{
    let mut last = None;
    for place in 0..entries.len() {
        if goes_in(ranges, entries, ending, place, last) {
            numbers.extend_from_slice(entries[place].numbers())?;
            last = Some(place);
        }
    }
    Ok(())
}

// Adds the numbers of those whose forms the ranges of a path supply: they have its path. Goes over its forms
// once, however many ranges there are.
fn add_at<E: EndedListeners>(
    numbers: &mut Vec<u64>,
    listeners: &Listeners,
    ending: &E,
    path: &Path,
    ranges: &[Listen],
) -> Result<(), AllocError>
    requires order { IsSorted (by_form form_of) ranges.now }
    requires there { All (λ k. is_range_at path.now k ≡ true) ranges.now }
    requires apart { AreApart form_of ranges.now }
    ensures { OnOk result ((t : ℕ → Bool) → IsOfBeginners (E.ended ending.now) listeners.now t
        → list_any t numbers.new.items
        ≡ (list_any t numbers.old.items || list_any (has_supplied listeners.now t) ranges.now)) }
{
    add_forms(numbers, ending, ranges, listeners.filtered_at(path.keys()))
}

// Adds the numbers of those whose forms a plain listen supplies: they stand at and under its path.
fn add_under(
    numbers: &mut Vec<u64>,
    listeners: &Listeners,
    listen: &Listen,
) -> Result<(), AllocError>
    requires forms { All (λ l. form l.1 ≡ l.1) listeners.now }
    requires plain { is_filtered listen.now.form ≡ false }
    ensures { OnOk result ((t : ℕ → Bool) → list_any t numbers.new.items
        ≡ (list_any t numbers.old.items || has_supplied listeners.now t listen.now)) }
{
    let mut under = listeners.numbers_under(listen.form().path().keys())?;
    numbers.append(&mut under)?;
    Ok(())
}

// Whether it is one of a range of the path.
fn is_range_at(listen: &Listen, path: &Path) -> bool
    ensures { result ≡ is_range_at path.now listen.now }
{
    listen.form().is_filtered() && listen.form().path() == path
}

// How many come before the first that isn't one of a range of the path.
fn count_ranges(listens: &[Listen], path: &Path) -> usize
    ensures within { result ≤ length listens.now }
    ensures there { All (λ k. is_range_at path.now k ≡ true) (take result listens.now) }
    ensures next { (d : Tagged) → result < length listens.now
        → is_range_at path.now (slice_index_or listens.now result d) ≡ false }
{
    for count in 0..listens.len() {
        if !is_range_at(&listens[count], path) {
            return count;
        }
    }
    listens.len()
}

// Adds the numbers of those whose forms the first of the listens supplies, or it and the other ranges of its
// path that follow; how many listens these are.
fn add_first<E: EndedListeners>(
    numbers: &mut Vec<u64>,
    listeners: &Listeners,
    ending: &E,
    listens: &[Listen],
) -> Result<usize, AllocError>
    requires forms { All (λ l. form l.1 ≡ l.1) listeners.now }
    requires some { 0 < length listens.now }
    requires order { IsSorted (by_form form_of) listens.now }
    requires apart { AreApart form_of listens.now }
    ensures some { IfOk result (λ count. 0 < count) }
    ensures within { IfOk result (λ count. count ≤ length listens.now) }
    ensures numbers { IfOk result (λ count. (t : ℕ → Bool)
        → IsOfBeginners (E.ended ending.now) listeners.now t → list_any t numbers.new.items
        ≡ (list_any t numbers.old.items
        || list_any (has_supplied listeners.now t) (take count listens.now))) }
{
    let first = &listens[0];
    let path = first.form().path();
    let count = count_ranges(listens, path);
    if count == 0 {
        add_under(numbers, listeners, first)?;
        return Ok(1);
    }
    add_at(numbers, listeners, ending, path, &listens[..count])?;
    Ok(count)
}

// The numbers of those whose forms the listens supply, which stand in order: of all that may begin.
fn supplied<E: EndedListeners>(
    alloc: Global,
    listeners: &Listeners,
    ending: &E,
    listens: &[Listen],
) -> Result<Vec<u64>, AllocError>
    requires forms { All (λ l. form l.1 ≡ l.1) listeners.now }
    requires order { IsSorted (by_form form_of) listens.now }
    requires apart { AreApart form_of listens.now }
    ensures { IfOk result (λ numbers. (t : ℕ → Bool)
        → IsOfBeginners (E.ended ending.now) listeners.now t → list_any t numbers.items
        ≡ list_any (has_supplied listeners.now t) listens.now) }
{
    let mut numbers = Vec::new(alloc);
    let mut rest = listens;
    while !rest.is_empty() {
        let count = add_first(&mut numbers, listeners, ending, rest)?;
        rest = behind(rest, count);
    }
    Ok(numbers)
}

// The numbers of those that begin where the listens are lost, of whose ranges none takes in another.
pub(crate) fn numbers_begun<E: EndedListeners>(
    alloc: Global,
    listeners: &Listeners,
    ending: &E,
    lost: &[Listen],
) -> Result<Vec<u64>, AllocError>
    requires rise { AllPairs (λ l m. l.0 < m.0) listeners.now }
    requires forms { All (λ l. form l.1 ≡ l.1) listeners.now }
    requires apart { AreApart form_of lost.now }
    ensures { IfOk result (λ numbers. (p : ℕ → Bool) → list_any p numbers.items
        ≡ list_any (begins_after (by_number (E.ended ending.now)) listeners.now p) lost.now) }
{
    let ordered = in_order(alloc, lost)?;
    let candidates = supplied(alloc, listeners, ending, &ordered)?;
    let mut numbers = Vec::new(alloc);
    add_all(&mut numbers, listeners, ending, &candidates)?;
    Ok(numbers)
}
