// What stays when the listens kept change.
ghost use Rattle.std.specs.Prelude.{◌≡◌, ℕ, ◌+◌, ◌<◌, ◌≤◌, ◌++◌, ◌||◌, T, vec_len, vec_capacity, [], List};
ghost use Rattle.std.specs.Prelude.{true, false, not, length, slice_index_or, IfOk, OnOk, OnErr};
ghost use Rattle.std.specs.List.{filter, filter_map, list_any, All, Contains};
ghost use Rattle.std.specs.Option.{option_map};
ghost use Rattle.rt_tree.specs.PathTree.{path_cmp};
ghost use Rattle.rt_tree.specs.Assignments.{have_overlap};
ghost use Rattle.rt_query.specs.Queries.{Query};
ghost use Rattle.rt_query.specs.QueryEq.{query_eq};
ghost use Rattle.rt_cache.specs.Recover.{reaches, with_regions, do_plains_overlap, in_query_order, recover};
ghost use Rattle.rt_cache.specs.Recover.{EndsForms};
ghost use Rattle.rt_cache.specs.inside.ByPath.{AreByQuery, query_of};
ghost use Rattle.rt_cache.specs.inside.Held.{pair_of, pairs_of, entries_of, held, AreShort};
ghost use Rattle.rt_cache.specs.inside.Sources.{HaveForms, AreBeside};
ghost use Rattle.rt_cache.specs.inside.Cuts.{part_below, IsCut};
ghost use Rattle.rt_cache.specs.inside.Spans.{have_place, AreInOrder, without, AreLost};
ghost use Rattle.rt_cache.specs.declared.regions.Region.{Region};
ghost use Rattle.std.specs.FinMap as map_of;

use crate::by_path::{HasQuery, Lent, Span, in_query_order, is_within, place_of, places_beside};
use crate::forms::Forms;
use crate::handover::{windows_handed, windows_of_ended};
use crate::regions::{
    BoxedRegion, insert, part_at, place_above, region_of, remove_span, span_under,
};
use crate::windows::{BoxedWindow, put_windows, remove_queries};
use rt_query::Query;
use std::alloc::{AllocError, Global};

// Where the regions stand that the plain listens reach, by the listens.
fn spans_kept(
    alloc: Global,
    regions: &[BoxedRegion],
    kept: &[Query],
) -> Result<Vec<Span>, AllocError>
    requires sorted { T (map_of.is_sorted path_cmp (pairs_of regions.now)) }
    ensures within { IfOk result (λ spans. All (λ s. (s.start ≤ s.end)
        × (s.end ≤ length regions.now)) spans.items) }
    ensures places { IfOk result (λ spans. (k : ℕ) (d : Region) → k < length regions.now
        → have_place spans.items k ≡ reaches kept.now (slice_index_or regions.now k d).path) }
    ensures short { OnOk result (AreShort kept.now) }
{
    let mut spans = Vec::new(alloc);
    for query in kept {
        let path = query.path();
        // For the prover: so long are paths at most.
        let _ = path.keys();
        if !query.is_filtered() {
            spans.push(span_under(regions, path))?;
        }
    }
    Ok(spans)
}

// Where the regions stand that are lost: between those that the plain listens reach.
fn spans_lost(
    alloc: Global,
    regions: &[BoxedRegion],
    kept: &[Query],
) -> Result<Vec<Span>, AllocError>
    requires sorted { T (map_of.is_sorted path_cmp (pairs_of regions.now)) }
    ensures lost { IfOk result (λ spans. AreLost kept.now regions.now spans.items) }
    ensures short { OnOk result (AreShort kept.now) }
{
    let spans = spans_kept(alloc, regions, kept)?;
    places_beside(alloc, spans, regions.len())
}

// Where the regions stand that plain forms reached which end, and none of those that begin.
fn spans_ended(
    alloc: Global,
    regions: &[BoxedRegion],
    ended: &[Query],
    begun: &[Query],
) -> Result<Vec<Span>, AllocError>
    requires sorted { T (map_of.is_sorted path_cmp (pairs_of regions.now)) }
    ensures order { IfOk result (λ spans. AreInOrder 0 spans.items (length regions.now)) }
    ensures places { IfOk result (λ spans. (k : ℕ) (d : Region) → k < length regions.now
        → have_place spans.items k
        ≡ not (not (reaches ended.now (slice_index_or regions.now k d).path)
        || reaches begun.now (slice_index_or regions.now k d).path)) }
{
    let reached = spans_kept(alloc, regions, ended)?;
    let mut staying = places_beside(alloc, reached, regions.len())?;
    let mut held = spans_kept(alloc, regions, begun)?;
    staying.append(&mut held)?;
    places_beside(alloc, staying, regions.len())
}

// The part that a lost region leaves to the query, where that is a plain listen under it.
fn part_left(
    alloc: Global,
    regions: &[BoxedRegion],
    lost: &[Span],
    query: &Query,
) -> Result<Option<BoxedRegion>, AllocError>
    requires sorted { T (map_of.is_sorted path_cmp (pairs_of regions.now)) }
    requires apart { have_overlap (pairs_of regions.now) ≡ false }
    ensures { (kept : List Query) → AreLost kept regions.now lost.now
        → IfOk result (λ part. option_map pair_of part
        ≡ part_below (filter (λ r. not (reaches kept r.0)) (pairs_of regions.now)) query.now) }
{
    if query.is_filtered() {
        return Ok(None);
    }
    let Some(place) = place_above(regions, query.path()) else {
        return Ok(None);
    };
    if !is_within(lost, place) {
        return Ok(None);
    }
    let tree = part_at(alloc, &regions[place], query.path())?;
    Ok(Some(region_of(alloc, query.path(), &tree)?))
}

// The parts of the regions that are lost at the plain listens, in the order of their paths.
pub(crate) fn parts_left(
    alloc: Global,
    regions: &[BoxedRegion],
    lost: &[Span],
    listens: &[Query],
) -> Result<Vec<BoxedRegion>, AllocError>
    requires lost { (kept : List Query) × AreLost kept regions.now lost.now }
    requires order { T (map_of.is_sorted path_cmp (pairs_of regions.now)) }
    requires apart { have_overlap (pairs_of regions.now) ≡ false }
    requires listens { do_plains_overlap listens.now ≡ false }
    ensures parts { (kept : List Query) → AreLost kept regions.now lost.now
        → IfOk result (λ parts. pairs_of parts.items ≡ with_regions [] (filter_map
        (part_below (filter (λ r. not (reaches kept r.0)) (pairs_of regions.now))) listens.now)) }
    ensures sorted { IfOk result (λ parts. T (map_of.is_sorted path_cmp (pairs_of parts.items))) }
    ensures apart { IfOk result (λ parts. have_overlap (pairs_of parts.items) ≡ false) }
{
    let mut parts = Vec::new(alloc);
    for query in listens {
        if let Some(part) = part_left(alloc, regions, lost, query)? {
            parts.push(part)?;
        }
    }
    in_order(alloc, parts)
}

// The regions without those of the spans, of which the last are taken out first.
fn remove_spans(regions: &mut Vec<BoxedRegion>, mut spans: Vec<Span>)
    requires order { AreInOrder 0 spans.items (length regions.old.items) }
    ensures left { regions.new.items ≡ without spans.items regions.old.items }
    ensures len { vec_len regions.new ≤ vec_len regions.old }
    ensures room { vec_capacity regions.new ≡ vec_capacity regions.old }
{
    while let Some(span) = spans.pop() {
        remove_span(regions, span);
    }
}

// Regions, each in its place, for which there is room.
fn insert_all(regions: &mut Vec<BoxedRegion>, more: Vec<BoxedRegion>)
    requires room { vec_len regions.old + vec_len more ≤ vec_capacity regions.old }
    requires sorted { T (map_of.is_sorted path_cmp (pairs_of regions.old.items)) }
    requires apart { have_overlap (pairs_of regions.old.items ++ pairs_of more.items) ≡ false }
    ensures { pairs_of regions.new.items
        ≡ with_regions (pairs_of regions.old.items) (pairs_of more.items) }
{
    for region in more {
        insert(regions, region);
    }
}

// The regions in the order of their paths.
fn in_order(alloc: Global, regions: Vec<BoxedRegion>) -> Result<Vec<BoxedRegion>, AllocError>
    requires apart { have_overlap (pairs_of regions.items) ≡ false }
    ensures { IfOk result (λ sorted. pairs_of sorted.items
        ≡ with_regions [] (pairs_of regions.items)) }
{
    let mut sorted = Vec::new(alloc);
    sorted.reserve(regions.len())?;
    insert_all(&mut sorted, regions);
    Ok(sorted)
}

// The windows of these queries, which stand in order.
fn retain_registered(windows: &mut Vec<BoxedWindow>, registered: &[Lent<'_>])
    requires order { AreByQuery query_of windows.old.items }
    requires registered { AreByQuery (λ l. l.query.now) registered.now }
    ensures order { AreByQuery query_of windows.new.items }
    ensures left { windows.new.items ≡ filter (λ w. list_any (λ l. query_eq l.query.now w.query)
        registered.now) windows.old.items }
    ensures len { vec_len windows.new ≤ vec_len windows.old }
    ensures room { vec_capacity windows.new ≡ vec_capacity windows.old }
{
    windows.retain(|window| place_of(registered, window.query()).is_some());
}

// What is brought after a change of the registered forms and of the listens kept. All that can be
// refused comes first.
pub(crate) fn change_cover(
    regions: &mut Vec<BoxedRegion>,
    windows: &mut Vec<BoxedWindow>,
    were: &Forms,
    registered: &[Query],
    kept: &[Query],
) -> Result<(), AllocError>
    requires sorted { T (map_of.is_sorted path_cmp (pairs_of regions.old.items)) }
    requires apart { have_overlap (pairs_of regions.old.items) ≡ false }
    requires kept { do_plains_overlap kept.now ≡ false }
    requires windows { AreByQuery query_of windows.old.items }
    requires forms { HaveForms were.now (in_query_order (entries_of windows.old.items)) }
    requires beside { AreBeside (pairs_of regions.old.items)
        (in_query_order (entries_of windows.old.items)) }
    ensures order { AreByQuery query_of windows.new.items }
    ensures ok { OnOk result (held registered.now regions.new.items windows.new.items
        ≡ recover registered.now kept.now (held were.now regions.old.items windows.old.items)) }
    ensures listens { OnOk result (AreShort kept.now) }
    ensures err { (fs : List Query) → OnErr result (held fs regions.new.items windows.new.items
        ≡ held fs regions.old.items windows.old.items) }
{
    let alloc = *regions.allocator();
    let lost = spans_lost(alloc, regions, kept)?;
    let parts = parts_left(alloc, regions, &lost, kept)?;
    let forms = in_query_order(alloc, registered)?;
    let handed = windows_handed(
        alloc, regions, &lost, &parts, windows, were, &forms, &forms, true,
    )?;
    windows.reserve(handed.len())?;
    regions.reserve(parts.len())?;
    remove_spans(regions, lost);
    insert_all(regions, parts);
    retain_registered(windows, &forms);
    put_windows(windows, handed);
    Ok(())
}

// What is brought after these forms ended and these listens began. All that can be refused comes
// first.
pub(crate) fn end_forms(
    regions: &mut Vec<BoxedRegion>,
    windows: &mut Vec<BoxedWindow>,
    were: &Forms,
    ended: &[Query],
    begun: &[Query],
) -> Result<(), AllocError>
    requires sorted { T (map_of.is_sorted path_cmp (pairs_of regions.old.items)) }
    requires apart { have_overlap (pairs_of regions.old.items) ≡ false }
    requires windows { AreByQuery query_of windows.old.items }
    requires forms { HaveForms were.now (in_query_order (entries_of windows.old.items)) }
    requires beside { AreBeside (pairs_of regions.old.items)
        (in_query_order (entries_of windows.old.items)) }
    requires ends { (registered kept : List Query) × All (Contains were.now) registered
        × EndsForms ended.now begun.now were.now registered kept (pairs_of regions.old.items) }
    ensures order { AreByQuery query_of windows.new.items }
    ensures ok { (registered kept : List Query) → All (Contains were.now) registered
        → EndsForms ended.now begun.now were.now registered kept (pairs_of regions.old.items)
        → OnOk result (held registered regions.new.items windows.new.items
        ≡ recover registered kept (held were.now regions.old.items windows.old.items)) }
    ensures err { (fs : List Query) → OnErr result (held fs regions.new.items windows.new.items
        ≡ held fs regions.old.items windows.old.items) }
{
    let alloc = *regions.allocator();
    let lost = spans_ended(alloc, regions, ended, begun)?;
    let parts = parts_left(alloc, regions, &lost, begun)?;
    let handed = windows_of_ended(alloc, regions, &lost, &parts, windows, were, ended)?;
    windows.reserve(handed.len())?;
    regions.reserve(parts.len())?;
    remove_spans(regions, lost);
    insert_all(regions, parts);
    remove_queries(windows, ended);
    put_windows(windows, handed);
    Ok(())
}
