// What comes before a listener, of those that are left, and who supplies a query: looked for at its path and
// at those above.
ghost use Rattle.std.specs.Prelude.{◌≡◌, ◌<◌, ◌&&◌, ◌||◌, true, false, not, nat_lt, length, IfSome, ◌≤◌, ◌+◌};
ghost use Rattle.std.specs.Prelude.{ℕ, Bool, IfOk};
ghost use Rattle.std.specs.List.{list_any, All, AllPairs};
ghost use Rattle.std.specs.List.Sorted.{IsPartitionPoint};
ghost use Rattle.rt_tree.specs.PathTree.{path_eq};
ghost use Rattle.rt_tree.specs.Assignments.{is_at_or_above};
ghost use Rattle.rt_query.specs.Queries.{Query, is_filtered};
ghost use Rattle.rt_query.specs.QueryEq.{query_eq};
ghost use Rattle.rt_query.specs.Ranges.{takes_in};
ghost use Rattle.rt_query.specs.Supply.{form, does_supply};
ghost use Rattle.rt_cover.specs.inside.Endings.{by_number, left, is_first, is_left_form, is_replaced};
ghost use Rattle.rt_cover.specs.inside.Widest.{IsOfPath, Entry, is_taken_in_at, is_wider_at, is_in_front};
ghost use Rattle.rt_cover.specs.inside.Widest.{IsAmong, IsWidest, AreWidest};
ghost use Rattle.rt_forms.specs.Order.{AreInOrder};
ghost use Rattle.rt_query.specs.Supply as Supply;

use crate::by_path::HasForm;
use crate::change::EndedListeners;
use crate::listeners::{Listener, Listeners};
use rt_forms::Filtered;
use rt_query::{Query, query_cmp, unlimited_cmp};
use rt_tree::{Key, Path};
use std::alloc::{AllocError, Global};

// Whether one is less than this, of numbers that rise.
fn has_lesser(numbers: &[u64], number: u64) -> bool
    requires { AllPairs (λ m n. m < n) numbers.now }
    ensures { result ≡ list_any (λ m. nat_lt m number) numbers.now }
{
    match numbers.first() {
        Some(first) => *first < number,
        None => false,
    }
}

// Whether the listener of one is left.
pub(crate) fn has_left<E: EndedListeners>(numbers: &[u64], ending: &E) -> bool
    ensures { result ≡ list_any (λ m. not (E.ended ending.now m)) numbers.now }
{
    numbers.iter().any(|number| !ending.ends(*number))
}

// Whether that of a lesser one is.
fn has_lesser_left<E: EndedListeners>(numbers: &[u64], ending: &E, number: u64) -> bool
    ensures { result ≡ list_any (λ m. nat_lt m number && not (E.ended ending.now m)) numbers.now }
{
    numbers
        .iter()
        .any(|other| *other < number && !ending.ends(*other))
}

// Whether none of a lesser number has the listener's form.
pub(crate) fn is_first(listeners: &Listeners, listener: &Listener) -> bool
    requires rise { AllPairs (λ l m. l.0 < m.0) listeners.now }
    requires own { form listener.now.1 ≡ listener.now.1 }
    ensures { result ≡ is_first listeners.now listener.now }
{
    !has_lesser(listeners.numbers(listener.form()), listener.number())
}

// Whether a listener that is left has the form.
pub(crate) fn is_left<E: EndedListeners>(listeners: &Listeners, ending: &E, form: &Query) -> bool
    requires { Supply.form form.now ≡ form.now }
    ensures { result ≡ is_left_form (by_number (E.ended ending.now)) listeners.now form.now }
{
    has_left(listeners.numbers(form), ending)
}

// Whether one of a lesser number has the listener's form, and is left.
fn is_seen<E: EndedListeners>(listeners: &Listeners, ending: &E, listener: &Listener) -> bool
    requires { form listener.now.1 ≡ listener.now.1 }
    ensures { result
        ≡ list_any (λ m. query_eq m.1 listener.now.1 && nat_lt m.0 listener.now.0)
        (left (by_number (E.ended ending.now)) listeners.now) }
{
    let numbers = listeners.numbers(listener.form());
    has_lesser_left(numbers, ending, listener.number())
}

// Whether one has the plain query of the path, and is left.
fn has_plain<E: EndedListeners>(listeners: &Listeners, ending: &E, path: &[Key]) -> bool
    requires { All (λ l. form l.1 ≡ l.1) listeners.now }
    ensures { result ≡ list_any (λ l. path_eq (l.1).path path.now && not (is_filtered l.1))
        (left (by_number (E.ended ending.now)) listeners.now) }
{
    has_left(listeners.plain_numbers(path), ending)
}

// Whether one has the plain query of a path above, and is left.
fn has_plain_above<E: EndedListeners>(listeners: &Listeners, ending: &E, path: &[Key]) -> bool
    requires { All (λ l. form l.1 ≡ l.1) listeners.now }
    ensures { result ≡ list_any (λ l. (is_at_or_above (l.1).path path.now
        && nat_lt (length (l.1).path) (length path.now)) && not (is_filtered l.1))
        (left (by_number (E.ended ending.now)) listeners.now) }
{
    for count in 0..path.len() {
        if has_plain(listeners, ending, &path[..count]) {
            return true;
        }
    }
    false
}

// Whether the form takes in the query, and a listener of it is left.
fn is_taker_left<E: EndedListeners>(entry: &Filtered, ending: &E, query: &Query) -> bool
    ensures { result ≡ (takes_in entry.now.0 query.now
        && list_any (λ m. not (E.ended ending.now m)) entry.now.1) }
{
    entry.form().takes_in(query) && has_left(entry.numbers(), ending)
}

// Whether that holds of one of these.
fn has_taker_among<E: EndedListeners>(entries: &[Filtered], ending: &E, query: &Query) -> bool
    ensures { result
        ≡ list_any (λ e. takes_in e.0 query.now
        && list_any (λ m. not (E.ended ending.now m)) e.1) entries.now }
{
    entries
        .iter()
        .any(|entry| is_taker_left(entry, ending, query))
}

// Whether one has another range of the path, which takes in the query's, and is left. Of the forms of the
// path those alone are asked that stand in front of the query's, and these are found by halving.
fn has_wider<E: EndedListeners>(listeners: &Listeners, ending: &E, query: &Query) -> bool
    ensures { result ≡ list_any (λ l. not (query_eq l.1 query.now) && takes_in l.1 query.now)
        (left (by_number (E.ended ending.now)) listeners.now) }
{
    let entries = listeners.filtered_at(query.path().keys());
    let count = count_in_front(entries, query);
    has_taker_among(&entries[..count], ending, query)
}

// The same, by the widest ones, where those of the query's path are given.
fn has_wider_beside<E: EndedListeners>(
    listeners: &Listeners,
    ending: &E,
    widest: Option<&Widest<'_>>,
    query: &Query,
) -> bool
    requires { IfSome widest (λ w. IsOfPath (E.ended ending.now) listeners.now
        w.now.path.now w.now.entries.now w.now.places.now) }
    ensures { result ≡ list_any (λ l. not (query_eq l.1 query.now) && takes_in l.1 query.now)
        (left (by_number (E.ended ending.now)) listeners.now) }
{
    let Some(widest) = widest else {
        return has_wider(listeners, ending, query);
    };
    if widest.path == query.path() {
        has_wider_in_front(widest.entries, widest.places, query)
    } else {
        has_wider(listeners, ending, query)
    }
}

// Whether one has another form at the query's path, which supplies it, and is left.
fn is_supplied_there<E: EndedListeners>(
    listeners: &Listeners,
    ending: &E,
    widest: Option<&Widest<'_>>,
    query: &Query,
) -> bool
    requires forms { All (λ l. form l.1 ≡ l.1) listeners.now }
    requires widest { IfSome widest (λ w. IsOfPath (E.ended ending.now) listeners.now
        w.now.path.now w.now.entries.now w.now.places.now) }
    ensures { result
        ≡ (list_any (λ l. path_eq (l.1).path query.now.path && not (is_filtered l.1))
        (left (by_number (E.ended ending.now)) listeners.now)
        || list_any (λ l. not (query_eq l.1 query.now) && takes_in l.1 query.now)
        (left (by_number (E.ended ending.now)) listeners.now)) }
{
    has_plain(listeners, ending, query.path().keys())
        || has_wider_beside(listeners, ending, widest, query)
}

// Whether one has another form, which supplies this one, and is left.
fn is_supplied<E: EndedListeners>(
    listeners: &Listeners,
    ending: &E,
    widest: Option<&Widest<'_>>,
    query: &Query,
) -> bool
    requires forms { All (λ l. form l.1 ≡ l.1) listeners.now }
    requires own { form query.now ≡ query.now }
    requires widest { IfSome widest (λ w. IsOfPath (E.ended ending.now) listeners.now
        w.now.path.now w.now.entries.now w.now.places.now) }
    ensures { result ≡ list_any (λ l. not (query_eq l.1 query.now) && does_supply l.1 query.now)
        (left (by_number (E.ended ending.now)) listeners.now) }
{
    has_plain_above(listeners, ending, query.path().keys())
        || query.is_filtered() && is_supplied_there(listeners, ending, widest, query)
}

// Whether one that is left comes before the listener.
pub(crate) fn is_behind<E: EndedListeners>(
    listeners: &Listeners,
    ending: &E,
    widest: Option<&Widest<'_>>,
    listener: &Listener,
) -> bool
    requires forms { All (λ l. form l.1 ≡ l.1) listeners.now }
    requires own { form listener.now.1 ≡ listener.now.1 }
    requires widest { IfSome widest (λ w. IsOfPath (E.ended ending.now) listeners.now
        w.now.path.now w.now.entries.now w.now.places.now) }
    ensures { result ≡ is_replaced (by_number (E.ended ending.now)) listeners.now listener.now }
{
    is_seen(listeners, ending, listener) || is_supplied(listeners, ending, widest, listener.form())
}

// ---- of the filtered forms of a path the widest ones that are left: whether one of them takes in
// a query is found by halving

// The filtered forms of a path, in order, and after each of them the place of the widest one so far.
#[derive(Drop)]
pub(crate) struct Widest<'a> {
    pub(crate) path: &'a Path,
    pub(crate) entries: &'a [Filtered],
    pub(crate) places: &'a [Option<usize>],
}

// The place of the widest form, once that at one place more is looked at: whoever takes it in stays.
fn wider_of<E: EndedListeners>(
    entries: &[Filtered],
    ending: &E,
    place: usize,
    widest: Option<usize>,
) -> Option<usize>
    requires order { AreInOrder entries.now }
    requires filtered { All (λ e. is_filtered e.0 ≡ true) entries.now }
    requires within { place < length entries.now }
    requires among { IfSome widest (λ w. w < place) }
    requires widest { IsWidest (E.ended ending.now) entries.now place widest }
    ensures among { IsAmong (place + 1) result }
    ensures widest { IsWidest (E.ended ending.now) entries.now (place + 1) result }
{
    if !has_left(entries[place].numbers(), ending) {
        return widest;
    }
    let Some(other) = widest else {
        return Some(place);
    };
    if entries[other].form().takes_in(entries[place].form()) {
        return Some(other);
    }
    Some(place)
}

// After each form the place of the widest one so far.
pub(crate) fn places_of_widest<E: EndedListeners>(
    alloc: Global,
    entries: &[Filtered],
    ending: &E,
) -> Result<Vec<Option<usize>>, AllocError>
    requires order { AreInOrder entries.now }
    requires filtered { All (λ e. is_filtered e.0 ≡ true) entries.now }
    ensures { IfOk result (λ places. AreWidest (E.ended ending.now) entries.now places.items) }
{
    let mut places = Vec::with_capacity(alloc, entries.len())?;
    let mut widest = None;
    for place in 0..entries.len() {
        widest = wider_of(entries, ending, place, widest);
        places.push(widest)?;
    }
    Ok(places)
}

// Whether the form stands in front of the query's, and no further than that would without its limit.
fn is_in_front(entry: &Filtered, query: &Query) -> bool
    ensures { result ≡ is_in_front query.now entry.now }
{
    if query.limit().is_some() {
        !unlimited_cmp(entry.form(), query).is_gt()
    } else {
        query_cmp(entry.form(), query).is_lt()
    }
}

// How many forms do, by halving: all other ones that take in the query are among them.
pub(crate) fn count_in_front(entries: &[Filtered], query: &Query) -> usize
    requires { AreInOrder entries.now }
    ensures within { result ≤ length entries.now }
    ensures point { IsPartitionPoint (λ e. is_in_front query.now e ≡ true)
        (λ e. is_in_front query.now e ≡ false) entries.now result }
{
    entries.partition_point(|entry| is_in_front(entry, query))
}

// Whether the form at the place takes in the query.
fn takes_in_at(entries: &[Filtered], query: &Query, widest: Option<usize>) -> bool
    requires { IfSome widest (λ w. w < length entries.now) }
    ensures { (d : Entry) → result ≡ is_taken_in_at entries.now d query.now widest }
{
    match widest {
        Some(place) => entries[place].form().takes_in(query),
        None => false,
    }
}

// Whether it is another range, which takes in the query's.
fn is_wider(form: &Query, query: &Query) -> bool
    ensures { result ≡ (takes_in form.now query.now && not (query_eq form.now query.now)) }
{
    form.takes_in(query) && form != query
}

// Whether the form at the place is another one, which takes in the query.
pub(crate) fn is_wider_at(entries: &[Filtered], query: &Query, widest: Option<usize>) -> bool
    requires { IfSome widest (λ w. w < length entries.now) }
    ensures { (d : Entry) → result ≡ is_wider_at entries.now d query.now widest }
{
    match widest {
        Some(place) => is_wider(entries[place].form(), query),
        None => false,
    }
}

// Whether another form takes in the query, and is left: the widest of those in front of it does then.
pub(crate) fn has_wider_in_front(
    entries: &[Filtered],
    places: &[Option<usize>],
    query: &Query,
) -> bool
    requires order { AreInOrder entries.now }
    requires len { length places.now ≡ length entries.now }
    requires among { All (IsAmong (length entries.now)) places.now }
    ensures { (ended : ℕ → Bool) → AreWidest ended entries.now places.now → result
        ≡ list_any (λ e. (not (query_eq e.0 query.now) && takes_in e.0 query.now)
        && list_any (λ m. not (ended m)) e.1) entries.now }
{
    let count = count_in_front(entries, query);
    if count == 0 {
        return false;
    }
    takes_in_at(entries, query, places[count - 1])
}
