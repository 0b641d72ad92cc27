// Listeners of some queries: which there are, and how they are renewed.
ghost use Rattle.std.specs.Prelude.{◌≡◌, ◌==◌, ◌+◌, ◌<◌, ◌≤◌, ◌++◌, ◌||◌, ◌&&◌, true, false, not, length};
ghost use Rattle.std.specs.Prelude.{map, take, IfOk, OnOk, ◌∷◌, []};
ghost use Rattle.std.specs.List.{All, AllPairs, filter_map, list_any, filter};
ghost use Rattle.std.specs.List.Sorted.{IsPartitionPoint, IsSorted};
ghost use Rattle.std.specs.Option.{option_to_list};
ghost use Rattle.std.specs.Ordering.{is_lt};
ghost use Rattle.rt_tree.specs.PathTree.{path_eq};
ghost use Rattle.rt_query.specs.Queries.{Query, is_filtered};
ghost use Rattle.rt_query.specs.QueryEq.{query_eq};
ghost use Rattle.rt_query.specs.QueryOrder.{query_cmp};
ghost use Rattle.rt_cache.specs.Recover.{is_among};
ghost use Rattle.rt_parts.specs.Renewed.{all_told_of, told_of};
ghost use Rattle.rt_parts.specs.Listeners.{count_if, cancelled_note};
ghost use Rattle.rt_parts.specs.inside.HeldView.{IsHeld, AreHeld, counted_of, listener_of, listeners_of};
ghost use Rattle.rt_parts.specs.inside.HeldView.{pair_of, renewal_counted, renewal_counted_at};
ghost use Rattle.rt_parts.specs.inside.HeldView.{renewal_told_at, renewed_at, renewed_pair, ended_among};
ghost use Rattle.rt_parts.specs.inside.HeldView.{ended_at, HaveForm};
ghost use Rattle.rt_parts.specs.inside.Placed.{AreInOrder, HaveAt, IsIndex};
ghost use Rattle.rt_query.specs.Supply.{form};

use crate::listeners::{BoxedListener, place_of};
use crate::places::{ListenerPlace, push_at, remove_place, sort_once};
use crate::views::renew;
use rt_cache::Brought;
use rt_order::Index;
use rt_query::{Query, query_cmp};
use rt_tree::Path;
use rt_wire::Reason;
use rt_world::{Body, Note};
use rt_writes::Pending;
use std::alloc::{AllocError, Global};

// ---- queries in order

// Whether the one stands before the other.
fn is_before(one: &Query, other: &Query) -> bool
    ensures { result ≡ is_lt (query_cmp one.now other.now) }
{
    query_cmp(one, other).is_lt()
}

// The first place before which all stand before the query, by halving.
fn first_from(queries: &[Query], query: &Query) -> usize
    requires { IsSorted query_cmp queries.now }
    ensures within { result ≤ length queries.now }
    ensures point { IsPartitionPoint (λ q. is_lt (query_cmp q query.now) ≡ true)
        (λ q. is_lt (query_cmp q query.now) ≡ false) queries.now result }
{
    queries.partition_point(|one| is_before(one, query))
}

// Whether the query is one of these, by halving.
fn is_among(queries: &[Query], query: &Query) -> bool
    requires { IsSorted query_cmp queries.now }
    ensures { result ≡ is_among queries.now query.now }
{
    let place = first_from(queries, query);
    if place == queries.len() {
        return false;
    }
    queries[place] == *query
}

// Sorts the queries.
fn sort_queries(queries: &mut Vec<Query>)
    ensures order { IsSorted query_cmp queries.new.items }
    ensures same { (q : Query) → is_among queries.new.items q ≡ is_among queries.old.items q }
{
    queries.sort_unstable_by(|one, other| query_cmp(one, other));
}

// The same queries.
fn copies(alloc: Global, queries: &[Query]) -> Result<Vec<Query>, AllocError>
    ensures { IfOk result (λ copies. copies.items ≡ queries.now) }
{
    let mut copies = Vec::with_capacity(alloc, queries.len())?;
    for query in queries {
        copies.push(query.copy()?)?;
    }
    Ok(copies)
}

// The queries in order.
pub(crate) fn in_order(alloc: Global, queries: &[Query]) -> Result<Vec<Query>, AllocError>
    ensures order { IfOk result (λ ordered. IsSorted query_cmp ordered.items) }
    ensures same { IfOk result (λ ordered. (q : Query)
        → is_among ordered.items q ≡ is_among queries.now q) }
{
    let mut ordered = copies(alloc, queries)?;
    sort_queries(&mut ordered);
    Ok(ordered)
}

// ---- the queries of a path

// Whether it is a filtered query of the path.
fn is_filtered_at(query: &Query, path: &Path) -> bool
    ensures { result ≡ (is_filtered query.now && path_eq query.now.path path.now) }
{
    query.is_filtered() && query.path() == path
}

// Adds the query of the listener of that number, where it is a filtered one of the path.
fn push_query(
    queries: &mut Vec<Query>,
    listeners: &[BoxedListener],
    number: u64,
    path: &Path,
) -> Result<(), AllocError>
    requires { AllPairs (λ l m. l.number < m.number) listeners.now }
    ensures { OnOk result ((q : Query) → is_among queries.new.items q
        ≡ (is_among queries.old.items q || (is_filtered q && path_eq q.path path.now
        && list_any (λ l. l.number == number && query_eq l.query q) listeners.now))) }
{
    let Some(at) = place_of(listeners, number) else {
        return Ok(());
    };
    let query = listeners[at].query();
    if !is_filtered_at(query, path) {
        return Ok(());
    }
    queries.push(query.copy()?)?;
    Ok(())
}

// Sorts the queries, each once.
fn sort_queries_once(queries: &mut Vec<Query>)
    ensures { (q : Query) → is_among queries.new.items q ≡ is_among queries.old.items q }
{
    sort_queries(queries);
    queries.dedup();
}

// The filtered queries of the path that the listeners of these numbers have, each once.
pub(crate) fn queries_of(
    alloc: Global,
    listeners: &[BoxedListener],
    numbers: &[u64],
    path: &Path,
) -> Result<Vec<Query>, AllocError>
    requires { AllPairs (λ l m. l.number < m.number) listeners.now }
    ensures { IfOk result (λ queries. (q : Query) → is_among queries.items q
        ≡ (is_filtered q && path_eq q.path path.now
        && list_any (λ n. list_any (λ l. l.number == n && query_eq l.query q) listeners.now)
        numbers.now)) }
{
    let mut queries = Vec::new(alloc);
    for number in numbers {
        push_query(&mut queries, listeners, *number, path)?;
    }
    sort_queries_once(&mut queries);
    Ok(queries)
}

// ---- those that are renewed

// Whether one of the queries is of the path.
fn is_at(queries: &[Query], path: &Path) -> bool
    ensures { result ≡ list_any (λ q. path_eq q.path path.now) queries.now }
{
    queries.iter().any(|query| query.path() == path)
}

// Adds the numbers of those at the path of the query at that place, if the one in front of it is not of
// the path too.
fn push_next(
    numbers: &mut Vec<u64>,
    places: &[ListenerPlace],
    queries: &[Query],
    at: usize,
) -> Result<(), AllocError>
    requires order { AreInOrder places.now }
    requires within { at < length queries.now }
    ensures { OnOk result (HaveAt (take at queries.now) numbers.old.items places.now
        → HaveAt (take (at + 1) queries.now) numbers.new.items places.now) }
{
    let path = queries[at].path();
    let front = at.saturating_sub(1);
    if is_at(&queries[front..at], path) {
        return Ok(());
    }
    push_at(numbers, places, path.keys())
}

// The numbers of those at the paths of the queries, rising. Where the queries stand in order, each path is
// looked for once.
pub(crate) fn numbers_at(
    alloc: Global,
    places: &[ListenerPlace],
    queries: &[Query],
) -> Result<Vec<u64>, AllocError>
    requires { AreInOrder places.now }
    ensures rise { IfOk result (λ numbers. AllPairs (λ m n. m < n) numbers.items) }
    ensures all { IfOk result (λ numbers. HaveAt queries.now numbers.items places.now) }
{
    let mut numbers = Vec::new(alloc);
    for at in 0..queries.len() {
        push_next(&mut numbers, places, queries, at)?;
    }
    sort_once(&mut numbers);
    Ok(numbers)
}

// Takes the view from scratch, if the listener's query is one of these.
fn renew_one(
    listener: &mut BoxedListener,
    queries: &[Query],
    brought: &Brought,
    pending: &Pending,
    notes: &mut Vec<Note>,
) -> Result<(), AllocError>
    requires held { IsHeld listener.old }
    requires order { IsSorted query_cmp queries.now }
    ensures pair { OnOk result (pair_of listener.new
        ≡ renewed_pair queries.now brought.now pending.now (pair_of listener.old)) }
    ensures count { OnOk result (listener.new.count
        ≡ count_if (is_among queries.now listener.old.query) listener.old.count
        listener.new.view) }
    ensures held { OnOk result (IsHeld listener.new) }
    ensures number { listener.new.number ≡ listener.old.number }
    ensures notes { OnOk result (notes.new.items ≡ notes.old.items ++ option_to_list
        (told_of queries.now brought.now pending.now (listener_of listener.old))) }
{
    if !is_among(queries, listener.query()) {
        return Ok(());
    }
    renew(&mut listener.held, brought, pending, notes)
}

// Takes the view of the listener of that number from scratch, if its query is one of these.
fn renew_number(
    listeners: &mut [BoxedListener],
    number: u64,
    queries: &[Query],
    brought: &Brought,
    pending: &Pending,
    notes: &mut Vec<Note>,
) -> Result<(), AllocError>
    requires held { AreHeld listeners.old }
    requires order { IsSorted query_cmp queries.now }
    ensures pairs { OnOk result (map pair_of listeners.new
        ≡ map (renewed_at number queries.now brought.now pending.now)
        (map pair_of listeners.old)) }
    ensures counts { OnOk result (map counted_of listeners.new
        ≡ map (renewal_counted_at number queries.now brought.now pending.now)
        (map counted_of listeners.old)) }
    ensures held { OnOk result (AreHeld listeners.new) }
    ensures notes { OnOk result (notes.new.items ≡ notes.old.items
        ++ filter_map (renewal_told_at number queries.now brought.now pending.now)
        (map pair_of listeners.old)) }
{
    match place_of(listeners, number) {
        Some(at) => renew_one(&mut listeners[at], queries, brought, pending, notes),
        None => Ok(()),
    }
}

// Takes the views of those listeners from scratch, by number, whose query is one of these: the numbers
// of all of them are among those that are given. No other listener is looked at.
pub(crate) fn renew_all(
    listeners: &mut [BoxedListener],
    numbers: &[u64],
    queries: &[Query],
    brought: &Brought,
    pending: &Pending,
    notes: &mut Vec<Note>,
) -> Result<(), AllocError>
    requires held { AreHeld listeners.old }
    requires order { IsSorted query_cmp queries.now }
    requires rise { AllPairs (λ m n. m < n) numbers.now }
    requires numbers { All (λ l. is_among queries.now l.query ≡ true
        → list_any (λ n. l.number == n) numbers.now ≡ true) listeners.old }
    ensures pairs { OnOk result (map pair_of listeners.new
        ≡ map (renewed_pair queries.now brought.now pending.now) (map pair_of listeners.old)) }
    ensures counts { OnOk result (map counted_of listeners.new
        ≡ map (renewal_counted queries.now brought.now pending.now)
        (map counted_of listeners.old)) }
    ensures held { OnOk result (AreHeld listeners.new) }
    ensures notes { OnOk result (notes.new.items ≡ notes.old.items
        ++ all_told_of queries.now brought.now pending.now (listeners_of listeners.old)) }
{
    for number in numbers {
        renew_number(listeners, *number, queries, brought, pending, notes)?;
    }
    Ok(())
}

// ---- listeners that end

// Takes out the listener of that number, and its place, if it is registered.
pub(crate) fn end_number(
    held: &mut Vec<BoxedListener>,
    places: &mut Vec<ListenerPlace>,
    number: u64,
)
    requires held { AreHeld held.old.items }
    requires index { IsIndex held.old.items places.old.items }
    ensures left { held.new.items ≡ filter (λ l. not (l.number == number)) held.old.items }
    ensures held { AreHeld held.new.items }
    ensures index { IsIndex held.new.items places.new.items }
{
    match place_of(held, number) {
        Some(at) => {
            remove_place(places, held[at].query().path(), number);
            drop(held.remove(at));
        }
        None => {}
    }
}

// Takes out the listeners of the seat, and their places.
pub(crate) fn end_seat(held: &mut Vec<BoxedListener>, places: &mut Vec<ListenerPlace>, seat: u64)
    requires held { AreHeld held.old.items }
    requires index { IsIndex held.old.items places.old.items }
    ensures left { held.new.items ≡ filter (λ l. not (l.seat == seat)) held.old.items }
    ensures held { AreHeld held.new.items }
    ensures index { IsIndex held.new.items places.new.items }
{
    places.retain(|place| place.seat != seat);
    held.retain(|listener| listener.seat() != seat);
}

// Whether what is listened to for the query is that form.
fn is_listened_as(query: &Query, listened: &Query) -> bool
    ensures { result ≡ query_eq (form query.now) listened.now }
{
    if query.is_filtered() {
        return query == listened;
    }
    query.path() == listened.path() && Index::Key == *listened.index() && !listened.is_filtered()
}

// Whether what the listener of that number listens to is that form.
fn has_form(listeners: &[BoxedListener], number: u64, listened: &Query) -> bool
    requires { AllPairs (λ l m. l.number < m.number) listeners.now }
    ensures { result ≡ list_any (λ l. l.number == number && query_eq (form l.query) listened.now)
        listeners.now }
{
    match place_of(listeners, number) {
        Some(at) => is_listened_as(listeners[at].query(), listened),
        None => false,
    }
}

// Whether the place is of a listener of the form: of those at its path alone the listener is looked at.
fn is_of_form(listeners: &[BoxedListener], place: &ListenerPlace, listened: &Query) -> bool
    requires { AllPairs (λ l m. l.number < m.number) listeners.now }
    ensures { result ≡ (path_eq place.now.path listened.now.path
        && list_any (λ l. l.number == place.now.number && query_eq (form l.query) listened.now)
        listeners.now) }
{
    place.path == *listened.path() && has_form(listeners, place.number, listened)
}

// Takes out the places of the listeners of the form.
fn end_places(places: &mut Vec<ListenerPlace>, listeners: &[BoxedListener], listened: &Query)
    requires { AllPairs (λ l m. l.number < m.number) listeners.now }
    ensures { places.new.items ≡ filter (λ x. not (path_eq x.path listened.now.path
        && list_any (λ l. l.number == x.number && query_eq (form l.query) listened.now)
        listeners.now)) places.old.items }
{
    places.retain(|place| !is_of_form(listeners, place, listened));
}

// Takes out the listeners of the form, and their places.
fn end_form(held: &mut Vec<BoxedListener>, places: &mut Vec<ListenerPlace>, listened: &Query)
    requires held { AreHeld held.old.items }
    requires index { IsIndex held.old.items places.old.items }
    ensures left { held.new.items
        ≡ filter (λ l. not (query_eq (form l.query) listened.now)) held.old.items }
    ensures held { AreHeld held.new.items }
    ensures index { IsIndex held.new.items places.new.items }
{
    end_places(places, held, listened);
    held.retain(|listener| !is_listened_as(listener.query(), listened));
}

// Up to so many listeners are taken out one by one, which moves a pointer of each behind them; more in one
// walk.
const FEW: usize = 4;

// Takes out the listeners of these numbers, and their places.
fn end_each(held: &mut Vec<BoxedListener>, places: &mut Vec<ListenerPlace>, numbers: &[u64])
    requires held { AreHeld held.old.items }
    requires index { IsIndex held.old.items places.old.items }
    ensures left { held.new.items
        ≡ filter (λ l. not (list_any (λ n. l.number == n) numbers.now)) held.old.items }
    ensures held { AreHeld held.new.items }
    ensures index { IsIndex held.new.items places.new.items }
{
    for number in numbers {
        end_number(held, places, *number);
    }
}

// Takes out the listeners of the form, which have these numbers, and their places.
pub(crate) fn end_listened(
    held: &mut Vec<BoxedListener>,
    places: &mut Vec<ListenerPlace>,
    numbers: &[u64],
    listened: &Query,
)
    requires held { AreHeld held.old.items }
    requires index { IsIndex held.old.items places.old.items }
    requires numbers { HaveForm listened.now numbers.now held.old.items }
    ensures left { held.new.items
        ≡ filter (λ l. not (query_eq (form l.query) listened.now)) held.old.items }
    ensures held { AreHeld held.new.items }
    ensures index { IsIndex held.new.items places.new.items }
{
    if numbers.len() > FEW {
        end_form(held, places, listened);
        return;
    }
    end_each(held, places, numbers);
}

// Leaves those of the numbers whose listeners listen to the form.
fn keep_of_form(numbers: &mut Vec<u64>, listeners: &[BoxedListener], listened: &Query)
    requires { AllPairs (λ l m. l.number < m.number) listeners.now }
    ensures { numbers.new.items ≡ filter (λ n. list_any (λ l. l.number == n
        && query_eq (form l.query) listened.now) listeners.now) numbers.old.items }
{
    numbers.retain(|number| has_form(listeners, *number, listened));
}

// The numbers of the listeners of the form, rising: of those at its path, which are found by halving.
pub(crate) fn numbers_of_form(
    alloc: Global,
    listeners: &[BoxedListener],
    places: &[ListenerPlace],
    listened: &Query,
) -> Result<Vec<u64>, AllocError>
    requires rising { AllPairs (λ l m. l.number < m.number) listeners.now }
    requires index { IsIndex listeners.now places.now }
    ensures rise { IfOk result (λ numbers. AllPairs (λ m n. m < n) numbers.items) }
    ensures those { IfOk result (λ numbers. HaveForm listened.now numbers.items listeners.now) }
{
    let mut numbers = Vec::new(alloc);
    push_at(&mut numbers, places, listened.path().keys())?;
    sort_once(&mut numbers);
    keep_of_form(&mut numbers, listeners, listened);
    Ok(numbers)
}

// Tells the listener's seat that it ends.
fn tell_end(listener: &BoxedListener, why: &Reason, notes: &mut Vec<Note>) -> Result<(), AllocError>
    ensures { OnOk result (notes.new.items ≡ notes.old.items
        ++ cancelled_note why.now (listener_of listener.now) ∷ []) }
{
    let alloc = *notes.allocator();
    notes.push(Note {
        seat: listener.seat(),
        body: Body::Cancelled {
            listener: listener.number(),
            why: why.copy(alloc)?,
        },
    })?;
    Ok(())
}

// Tells the seat of the listener of that number that it ends, if it is registered.
fn tell_number(
    listeners: &[BoxedListener],
    number: u64,
    why: &Reason,
    notes: &mut Vec<Note>,
) -> Result<(), AllocError>
    requires { AllPairs (λ l m. l.number < m.number) listeners.now }
    ensures { OnOk result (notes.new.items ≡ notes.old.items
        ++ filter_map (ended_at number why.now) (listeners_of listeners.now)) }
{
    match place_of(listeners, number) {
        Some(at) => tell_end(&listeners[at], why, notes),
        None => Ok(()),
    }
}

// Tells the seats of the listeners of these numbers that these end, by number.
pub(crate) fn tell_ends(
    listeners: &[BoxedListener],
    numbers: &[u64],
    why: &Reason,
    notes: &mut Vec<Note>,
) -> Result<(), AllocError>
    requires rising { AllPairs (λ l m. l.number < m.number) listeners.now }
    requires rise { AllPairs (λ m n. m < n) numbers.now }
    ensures { OnOk result (notes.new.items ≡ notes.old.items
        ++ filter_map (ended_among numbers.now why.now) (listeners_of listeners.now)) }
{
    for number in numbers {
        tell_number(listeners, *number, why, notes)?;
    }
    Ok(())
}
