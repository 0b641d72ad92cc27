// What has a query, in the order of the paths: those of one path stand together, and are found by
// halving. Where they stand in the order of the queries, so is one of them.
ghost use Rattle.std.specs.Prelude.{◌≡◌, ℕ, ◌+◌, ◌<◌, ◌≤◌, ◌&&◌, Bool, true, false, not, is_some, length};
ghost use Rattle.std.specs.Prelude.{map, slice_index_or, IfOk, IfSome, IfNone, ◌||◌, max, nat_le, nat_lt};
ghost use Rattle.std.specs.Prelude.{OnOk};
ghost use Rattle.std.specs.List.{list_any, All};
ghost use Rattle.std.specs.List.Sorted.{IsPartitionPoint, IsNonDecreasingBy};
ghost use Rattle.std.specs.Ordering.{is_lt, is_gt};
ghost use Rattle.rt_tree.specs.PathTree.{path_cmp};
ghost use Rattle.rt_tree.specs.Assignments.{is_at_or_above};
ghost use Rattle.rt_query.specs.Queries.{Query, is_filtered};
ghost use Rattle.rt_query.specs.QueryEq.{query_eq};
ghost use Rattle.rt_query.specs.QueryOrder.{query_cmp, unlimited};
ghost use Rattle.rt_query.specs.Supply.{does_supply};
ghost use Rattle.rt_cache.specs.Brought.{is_another_at};
ghost use Rattle.rt_cache.specs.inside.ByPath.{AreByPath, AreByQuery, AreApart, is_other_supplier};
ghost use Rattle.rt_cache.specs.inside.Spans.{has_place, have_place, AreInOrder, AreFilled, IsLastBefore};

use rt_query::{Query, query_cmp, unlimited_cmp};
use rt_tree::Path;
use std::alloc::{AllocError, Global};

// What has a query, by whose path it stands.
pub(crate) trait HasQuery {
    ghost query_of: { Self → Query };

    // The query.
    fn query(&self) -> &Query
        ensures { result.now ≡ query_of self.now };
}

impl HasQuery for Query {
    ghost query_of = { λ q. q };

    fn query(&self) -> &Query {
        self
    }
}

// Whether its path stands before this one.
pub(crate) fn is_before<T: HasQuery>(item: &T, path: &Path) -> bool
    ensures { result ≡ is_lt (path_cmp (T.query_of item.now).path path.now) }
{
    item.query().path().cmp(path).is_lt()
}

// Where the first stands that is not before the path, by halving.
pub(crate) fn first_from<T: HasQuery>(items: &[T], path: &Path) -> usize
    requires { AreByPath T.query_of items.now }
    ensures within { result ≤ length items.now }
    ensures point { IsPartitionPoint (λ x. is_lt (path_cmp (T.query_of x).path path.now) ≡ true)
        (λ x. is_lt (path_cmp (T.query_of x).path path.now) ≡ false) items.now result }
{
    items.partition_point(|item| is_before(item, path))
}

// Whether its path stands behind this one.
fn is_behind<T: HasQuery>(item: &T, path: &Path) -> bool
    ensures { result ≡ is_lt (path_cmp path.now (T.query_of item.now).path) }
{
    path.cmp(item.query().path()).is_lt()
}

// Where the first stands that is behind the path, by halving.
pub(crate) fn first_behind<T: HasQuery>(items: &[T], path: &Path) -> usize
    requires { AreByPath T.query_of items.now }
    ensures within { result ≤ length items.now }
    ensures point { IsPartitionPoint (λ x. not (is_lt (path_cmp path.now (T.query_of x).path)) ≡ true)
        (λ x. not (is_lt (path_cmp path.now (T.query_of x).path)) ≡ false) items.now result }
{
    items.partition_point(|item| !is_behind(item, path))
}

// Where those at or under the path stand, by halving: one behind another.
pub(crate) fn span_under<T: HasQuery>(items: &[T], path: &Path) -> Span
    requires { AreByPath T.query_of items.now }
    ensures ordered { result.start ≤ result.end }
    ensures within { result.end ≤ length items.now }
    ensures exact { (k : ℕ) (d : T) → k < length items.now
        → is_at_or_above path.now (T.query_of (slice_index_or items.now k d)).path ≡ has_place k result }
{
    let start = first_from(items, path);
    let (_, behind) = items.split_at(start);
    let count = behind.partition_point(|item| path.is_prefix_of(item.query().path()));
    Span {
        start,
        end: start + count,
    }
}

// Whether its query stands before this one.
fn is_before_query<T: HasQuery>(item: &T, query: &Query) -> bool
    ensures { result ≡ is_lt (query_cmp (T.query_of item.now) query.now) }
{
    query_cmp(item.query(), query).is_lt()
}

// Where the first stands that is not before the query, by halving.
pub(crate) fn first_of<T: HasQuery>(items: &[T], query: &Query) -> usize
    requires { AreByQuery T.query_of items.now }
    ensures within { result ≤ length items.now }
    ensures point { IsPartitionPoint (λ x. is_lt (query_cmp (T.query_of x) query.now) ≡ true)
        (λ x. is_lt (query_cmp (T.query_of x) query.now) ≡ false) items.now result }
{
    items.partition_point(|item| is_before_query(item, query))
}

// Whether its query doesn't stand behind this one.
fn is_not_behind<T: HasQuery>(item: &T, query: &Query) -> bool
    ensures { result ≡ not (is_gt (query_cmp (T.query_of item.now) query.now)) }
{
    !query_cmp(item.query(), query).is_gt()
}

// Where the first stands that is behind the query, by halving.
fn first_after<T: HasQuery>(items: &[T], query: &Query) -> usize
    requires { AreByQuery T.query_of items.now }
    ensures within { result ≤ length items.now }
    ensures point { IsPartitionPoint (λ x. not (is_gt (query_cmp (T.query_of x) query.now)) ≡ true)
        (λ x. not (is_gt (query_cmp (T.query_of x) query.now)) ≡ false) items.now result }
{
    items.partition_point(|item| is_not_behind(item, query))
}

// Where those of the query stand, by halving.
pub(crate) fn span_of<T: HasQuery>(items: &[T], query: &Query) -> Span
    requires { AreByQuery T.query_of items.now }
    ensures ordered { result.start ≤ result.end }
    ensures within { result.end ≤ length items.now }
    ensures exact { (k : ℕ) (d : T) → k < length items.now
        → query_eq (T.query_of (slice_index_or items.now k d)) query.now ≡ has_place k result }
{
    let start = first_of(items, query);
    Span {
        start,
        end: first_after(items, query),
    }
}

// Where the first of the query stands, by halving.
pub(crate) fn place_of<T: HasQuery>(items: &[T], query: &Query) -> Option<usize>
    requires { AreByQuery T.query_of items.now }
    ensures known { is_some result ≡ list_any (λ x. query_eq (T.query_of x) query.now) items.now }
    ensures within { IfSome result (λ n. n < length items.now) }
    ensures own { IfSome result (λ n. (d : T)
        → query_eq (T.query_of (slice_index_or items.now n d)) query.now ≡ true) }
    ensures first { IfSome result (λ n. (k : ℕ) (d : T) → k < n
        → query_eq (T.query_of (slice_index_or items.now k d)) query.now ≡ false) }
{
    let place = first_of(items, query);
    if place == items.len() {
        return None;
    }
    if items[place].query() == query {
        Some(place)
    } else {
        None
    }
}

// Whether a query is another one, and supplies this one.
pub(crate) fn is_other_supplier(other: &Query, query: &Query) -> bool
    ensures { result ≡ is_other_supplier other.now query.now }
{
    other != query && other.supplies(query)
}

// Whether it stands, in the order of queries, up to where the query would without its limit.
fn is_up_to<T: HasQuery>(item: &T, query: &Query) -> bool
    ensures { result ≡ not (is_gt (query_cmp (T.query_of item.now) (unlimited query.now))) }
{
    !unlimited_cmp(item.query(), query).is_gt()
}

// How many stand up to where the query would without its limit, by halving.
fn count_up_to<T: HasQuery>(items: &[T], query: &Query) -> usize
    requires { AreByQuery T.query_of items.now }
    ensures within { result ≤ length items.now }
    ensures point { IsPartitionPoint
        (λ x. not (is_gt (query_cmp (T.query_of x) (unlimited query.now))) ≡ true)
        (λ x. not (is_gt (query_cmp (T.query_of x) (unlimited query.now))) ≡ false) items.now result }
{
    items.partition_point(|item| is_up_to(item, query))
}

// Where the last stands of another query that supplies this one. Of these queries none supplies another:
// so where lower cuts rise, upper cuts rise too, and the last that begins no later than the query ends
// last. It alone is asked.
pub(crate) fn last_supplier<T: HasQuery>(items: &[T], query: &Query) -> Option<usize>
    requires order { AreByQuery T.query_of items.now }
    requires filtered { All (λ x. is_filtered (T.query_of x) ≡ true) items.now }
    requires apart { AreApart T.query_of items.now }
    ensures within { IfSome result (λ n. n < length items.now) }
    ensures own { IfSome result (λ n. (d : T)
        → is_other_supplier (T.query_of (slice_index_or items.now n d)) query.now ≡ true) }
    ensures last { IfSome result (λ n. (k : ℕ) (d : T) → n + 1 ≤ k → k < length items.now
        → is_other_supplier (T.query_of (slice_index_or items.now k d)) query.now ≡ false) }
    ensures none { IfNone result ((k : ℕ) (d : T) → k < length items.now
        → is_other_supplier (T.query_of (slice_index_or items.now k d)) query.now ≡ false) }
{
    let count = count_up_to(items, query);
    if count == 0 {
        return None;
    }
    let place = count - 1;
    if is_other_supplier(items[place].query(), query) {
        Some(place)
    } else {
        None
    }
}

// Whether the last that supplies the query is the only one: the one in front of it doesn't.
pub(crate) fn is_only_supplier<T: HasQuery>(items: &[T], last: usize, query: &Query) -> bool
    requires order { AreByQuery T.query_of items.now }
    requires filtered { All (λ x. is_filtered (T.query_of x) ≡ true) items.now }
    requires apart { AreApart T.query_of items.now }
    requires within { last < length items.now }
    requires own { (d : T)
        → is_other_supplier (T.query_of (slice_index_or items.now last d)) query.now ≡ true }
    ensures { result ≡ true → (k : ℕ) (d : T) → k < last
        → is_other_supplier (T.query_of (slice_index_or items.now k d)) query.now ≡ false }
{
    if last == 0 {
        return true;
    }
    let place = last - 1;
    !is_other_supplier(items[place].query(), query)
}

// Whether another query of these supplies this one. None of them supplies another.
pub(crate) fn has_other_supplier<T: HasQuery>(items: &[T], query: &Query) -> bool
    requires order { AreByQuery T.query_of items.now }
    requires filtered { All (λ x. is_filtered (T.query_of x) ≡ true) items.now }
    requires apart { AreApart T.query_of items.now }
    ensures { result ≡ list_any (λ x. is_other_supplier (T.query_of x) query.now) items.now }
{
    last_supplier(items, query).is_some()
}

// Whether the query is one of these, or one of them supplies it. None of them supplies another.
pub(crate) fn has_supplier<T: HasQuery>(items: &[T], query: &Query) -> bool
    requires order { AreByQuery T.query_of items.now }
    requires filtered { All (λ x. is_filtered (T.query_of x) ≡ true) items.now }
    requires apart { AreApart T.query_of items.now }
    ensures { result ≡ list_any (λ x. does_supply (T.query_of x) query.now) items.now }
{
    place_of(items, query).is_some() || has_other_supplier(items, query)
}

// Whether it is another query.
fn is_another(other: &Query, query: &Query) -> bool
    ensures { result ≡ not (query_eq other.now query.now) }
{
    other != query
}

// Whether another query stands at the query's path. Goes over those of its path alone.
pub(crate) fn has_another_at<T: HasQuery>(items: &[T], query: &Query) -> bool
    requires { AreByQuery T.query_of items.now }
    ensures { result ≡ list_any (λ x. is_another_at query.now (T.query_of x)) items.now }
{
    let mut place = first_from(items, query.path());
    while place < items.len() {
        let other = items[place].query();
        if other.path() != query.path() {
            return false;
        }
        if is_another(other, query) {
            return true;
        }
        place += 1;
    }
    false
}

// A query that is looked for.
#[derive(Drop)]
pub(crate) struct Lent<'a> {
    pub(crate) query: &'a Query,
}

impl HasQuery for Lent<'_> {
    ghost query_of = { λ a. a.query.now };

    fn query(&self) -> &Query {
        self.query
    }
}

// Their queries, in order.
pub(crate) fn lend<'a, T: HasQuery>(
    alloc: Global,
    items: &'a [T],
) -> Result<Vec<Lent<'a>>, AllocError>
    ensures { IfOk result (λ lent. map (λ l. l.query.now) lent.items ≡ map T.query_of items.now) }
{
    let mut lent = Vec::with_capacity(alloc, items.len())?;
    for item in items {
        lent.push(Lent {
            query: item.query(),
        })?;
    }
    Ok(lent)
}

// Their queries in order.
pub(crate) fn in_query_order<'a, T: HasQuery>(
    alloc: Global,
    items: &'a [T],
) -> Result<Vec<Lent<'a>>, AllocError>
    ensures order { IfOk result (λ lent. AreByQuery (λ l. l.query.now) lent.items) }
    ensures same { IfOk result (λ lent. (p : Query → Bool)
        → list_any (λ l. p l.query.now) lent.items ≡ list_any (λ x. p (T.query_of x)) items.now) }
{
    let mut lent = lend(alloc, items)?;
    lent.sort_unstable_by(|one, other| query_cmp(one.query, other.query));
    Ok(lent)
}

// ---- places of a list that follow one another

// From the first place up to the one in front of the end.
#[derive(Clone, Copy)]
pub(crate) struct Span {
    pub(crate) start: usize,
    pub(crate) end: usize,
}

// The places from the first up to the end, if there are any, as a span behind the others.
fn push_places(spans: &mut Vec<Span>, start: usize, end: usize) -> Result<(), AllocError>
    ensures order { OnOk result (AreInOrder 0 spans.old.items start
        → AreInOrder 0 spans.new.items (max start end)) }
    ensures filled { OnOk result (AreFilled spans.old.items → AreFilled spans.new.items) }
    ensures places { OnOk result ((k : ℕ) → have_place spans.new.items k
        ≡ (have_place spans.old.items k || (nat_le start k && nat_lt k end))) }
{
    if start < end {
        spans.push(Span { start, end })?;
    }
    Ok(())
}

// The places in front of the end that are in none of the spans, which stand by their starts.
pub(crate) fn places_between(
    alloc: Global,
    spans: &[Span],
    end: usize,
) -> Result<Vec<Span>, AllocError>
    requires rising { IsNonDecreasingBy (λ s. s.start) spans.now }
    requires within { All (λ s. (s.start ≤ s.end) × (s.end ≤ end)) spans.now }
    ensures order { IfOk result (λ gaps. AreInOrder 0 gaps.items end) }
    ensures filled { IfOk result (λ gaps. AreFilled gaps.items) }
    ensures places { IfOk result (λ gaps. (k : ℕ) → k < end
        → have_place gaps.items k ≡ not (have_place spans.now k)) }
{
    let mut gaps = Vec::new(alloc);
    let mut place = 0;
    for span in spans {
        push_places(&mut gaps, place, span.start)?;
        place = place.max(span.end);
    }
    push_places(&mut gaps, place, end)?;
    Ok(gaps)
}

// The places in front of the end that are in none of the spans, which stand anyhow.
pub(crate) fn places_beside(
    alloc: Global,
    mut spans: Vec<Span>,
    end: usize,
) -> Result<Vec<Span>, AllocError>
    requires within { All (λ s. (s.start ≤ s.end) × (s.end ≤ end)) spans.items }
    ensures order { IfOk result (λ gaps. AreInOrder 0 gaps.items end) }
    ensures filled { IfOk result (λ gaps. AreFilled gaps.items) }
    ensures places { IfOk result (λ gaps. (k : ℕ) → k < end
        → have_place gaps.items k ≡ not (have_place spans.items k)) }
{
    spans.sort_unstable_by_key(|span| span.start);
    places_between(alloc, &spans, end)
}

// Whether the place is in one of the spans. Where they stand in order, it can only be in the last
// that doesn't begin behind it.
pub(crate) fn is_within(spans: &[Span], place: usize) -> bool
    ensures { (end : ℕ) → AreInOrder 0 spans.now end → result ≡ have_place spans.now place }
{
    let count = spans.partition_point(|span| span.start <= place);
    count > 0 && place < spans[count - 1].end
}

// The last place in front of the end that is in one of the spans. Where they stand in order, it can only be in
// the last that begins in front of the end.
pub(crate) fn last_before(spans: &[Span], end: usize) -> Option<usize>
    ensures within { IfSome result (λ n. n < end) }
    ensures last { (all : ℕ) → AreInOrder 0 spans.now all → AreFilled spans.now
        → IsLastBefore spans.now end result }
{
    let count = spans.partition_point(|span| span.start < end);
    if count == 0 {
        return None;
    }
    let behind = spans[count - 1].end.min(end);
    if behind == 0 {
        return None;
    }
    Some(behind - 1)
}
