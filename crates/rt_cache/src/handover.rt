// What a change of cover hands on: of the forms that lose what they had, those that no other of them
// supplies get it as their window.
ghost use Rattle.std.specs.Prelude.{◌≡◌, ◌&&◌, ◌||◌, T, Bool, List, [], false, true, not, is_some, ℕ, ◌<◌};
ghost use Rattle.std.specs.Prelude.{◌≤◌, length, slice_index_or, IfOk, OnOk};
ghost use Rattle.std.specs.List.{filter, list_any, slice_range, All};
ghost use Rattle.std.specs.Option.{option_map};
ghost use Rattle.std.specs.Ordering.{is_gt};
ghost use Rattle.rt_tree.specs.PathTree.{path_cmp, path_eq};
ghost use Rattle.rt_tree.specs.Assignments.{have_overlap};
ghost use Rattle.rt_query.specs.Queries.{Query, is_filtered};
ghost use Rattle.rt_query.specs.Needed.{needed};
ghost use Rattle.rt_query.specs.Supply.{does_supply};
ghost use Rattle.rt_cache.specs.Brought.{base};
ghost use Rattle.rt_cache.specs.Recover.{in_query_order, window_left, handed_on, is_among};
ghost use Rattle.rt_cache.specs.declared.forms.Form.{Form};
ghost use Rattle.rt_cache.specs.inside.ByPath.{AreByPath, AreByQuery, AreApart, query_of, is_other_supplier};
ghost use Rattle.rt_query.specs.QueryOrder.{query_cmp, unlimited};
ghost use Rattle.rt_cache.specs.declared.windows.Window.{Window};
ghost use Rattle.rt_cache.specs.inside.Cuts.{IsCut};
ghost use Rattle.rt_cache.specs.inside.Handing.{lent_queries, window_queries, is_region_lost, is_alike};
ghost use Rattle.rt_cache.specs.inside.Handing.{is_staying, staying_of, is_window_lost, is_loser};
ghost use Rattle.rt_cache.specs.inside.Handing.{is_under_one, is_under_lost_one, hands_on, is_beside_one};
ghost use Rattle.rt_cache.specs.inside.Handing.{is_supplied_by_one, AreThose, AreGathered, AreLentOf};
ghost use Rattle.rt_cache.specs.inside.Handing.{AreHanded, AreStaying};
ghost use Rattle.rt_cache.specs.inside.Held.{pairs_of, entry_of, entries_of, held};
ghost use Rattle.rt_cache.specs.inside.Listed.{form_query};
ghost use Rattle.rt_cache.specs.inside.Sources.{HaveForms, AreBeside};
ghost use Rattle.rt_cache.specs.inside.Spans.{has_place, have_place, AreInOrder};
ghost use Rattle.std.specs.FinMap as map_of;

use crate::by_path::{
    HasQuery, Lent, Span, first_behind, first_from, has_other_supplier, has_supplier,
    in_query_order, is_other_supplier, is_within, last_before, last_supplier, place_of,
    places_beside, span_of, span_under,
};
use crate::forms::{BoxedForm, Forms};
use crate::regions::{BoxedRegion, part_at, place_above};
use crate::windows::{BoxedWindow, place_of_source, place_of_window};
use rt_query::Query;
use rt_tree::Path;
use std::alloc::{AllocError, Global};

// Whether a region that is lost holds the query's path, and neither one that stays nor a part does.
fn loses_region(
    regions: &[BoxedRegion],
    lost: &[Span],
    parts: &[BoxedRegion],
    query: &Query,
) -> bool
    requires sorted { T (map_of.is_sorted path_cmp (pairs_of regions.now)) }
    requires apart { have_overlap (pairs_of regions.now) ≡ false }
    requires parts_sorted { T (map_of.is_sorted path_cmp (pairs_of parts.now)) }
    requires parts_apart { have_overlap (pairs_of parts.now) ≡ false }
    ensures { (kept : List Query) → IsCut kept regions.now lost.now parts.now
        → result ≡ is_region_lost kept (pairs_of regions.now) query.now }
{
    let Some(place) = place_above(regions, query.path()) else {
        return false;
    };
    if !is_within(lost, place) {
        return false;
    }
    place_above(parts, query.path()).is_none()
}

// Whether both hold, or neither.
fn is_alike(one: bool, other: bool) -> bool
    ensures { result ≡ is_alike one other }
{
    if one { other } else { !other }
}

// Whether a window is of one of those, or of one that is not.
fn is_staying(query: &Query, those: &[Lent<'_>], among: bool) -> bool
    requires those { AreByQuery (λ l. l.query.now) those.now }
    ensures { result ≡ is_staying (lent_queries those.now) among query.now }
{
    is_alike(place_of(those, query).is_some(), among)
}

// Where the windows of those stand.
fn spans_of(
    alloc: Global,
    windows: &[BoxedWindow],
    those: &[Lent<'_>],
) -> Result<Vec<Span>, AllocError>
    requires { AreByQuery query_of windows.now }
    ensures within { IfOk result (λ spans. All (λ s. (s.start ≤ s.end)
        × (s.end ≤ length windows.now)) spans.items) }
    ensures places { IfOk result (λ spans. (k : ℕ) (d : Window) → k < length windows.now
        → have_place spans.items k
        ≡ is_among (lent_queries those.now) (slice_index_or windows.now k d).query) }
{
    let mut spans = Vec::new(alloc);
    for one in those {
        let span = span_of(windows, one.query);
        if span.start < span.end {
            spans.push(span)?;
        }
    }
    Ok(spans)
}

// Where the windows stand that stay: those of those, or those that are of none of them.
fn spans_staying(
    alloc: Global,
    windows: &[BoxedWindow],
    those: &[Lent<'_>],
    among: bool,
) -> Result<Vec<Span>, AllocError>
    requires { AreByQuery query_of windows.now }
    ensures { IfOk result (λ spans. AreStaying (lent_queries those.now) among windows.now spans.items) }
{
    let spans = spans_of(alloc, windows, those)?;
    let others = places_beside(alloc, spans, windows.len())?;
    if among {
        places_beside(alloc, others, windows.len())
    } else {
        Ok(others)
    }
}

// How many windows stand up to the last that supplies the query as another one: none where there is none.
fn count_to_supplier(windows: &[BoxedWindow], query: &Query) -> usize
    requires order { AreByQuery query_of windows.now }
    requires filtered { All (λ w. is_filtered w.query ≡ true) windows.now }
    requires apart { AreApart query_of windows.now }
    ensures within { result ≤ length windows.now }
    ensures up_to { (k : ℕ) (d : Window) → k < result
        → is_gt (query_cmp (slice_index_or windows.now k d).query (unlimited query.now)) ≡ false }
    ensures behind { (k : ℕ) (d : Window) → result ≤ k → k < length windows.now
        → is_other_supplier (slice_index_or windows.now k d).query query.now ≡ false }
{
    match last_supplier(windows, query) {
        Some(last) => last + 1,
        None => 0,
    }
}

// Whether a window that stays is of another query that supplies this one. Those that supply it stand one
// behind another: the last of these that stays is found by halving, or one that doesn't supply it.
fn has_other_staying(windows: &[BoxedWindow], staying: &[Span], query: &Query) -> bool
    requires order { AreByQuery query_of windows.now }
    requires filtered { All (λ w. is_filtered w.query ≡ true) windows.now }
    requires apart { AreApart query_of windows.now }
    ensures { (those : List Query) (among : Bool) → AreStaying those among windows.now staying.now
        → result ≡ list_any (λ w. is_other_supplier w.query query.now && is_staying those among w.query)
        windows.now }
{
    let count = count_to_supplier(windows, query);
    let Some(place) = last_before(staying, count) else {
        return false;
    };
    is_other_supplier(windows[place].query(), query)
}

// Whether the window at the place stays, and its query, which is this one, supplies another.
fn is_staying_supplier(other: &Query, place: usize, staying: &[Span], query: &Query) -> bool
    ensures { (end : ℕ) → AreInOrder 0 staying.now end
        → result ≡ (does_supply other.now query.now && have_place staying.now place) }
{
    other.supplies(query) && is_within(staying, place)
}

// Whether a window that stays supplies the query. Where its own is there, no other one does.
fn has_staying_supplier(windows: &[BoxedWindow], staying: &[Span], query: &Query) -> bool
    requires order { AreByQuery query_of windows.now }
    requires filtered { All (λ w. is_filtered w.query ≡ true) windows.now }
    requires apart { AreApart query_of windows.now }
    ensures { (those : List Query) (among : Bool) → AreStaying those among windows.now staying.now
        → result ≡ list_any (λ f. does_supply f query.now)
        (staying_of those among (window_queries windows.now)) }
{
    match place_of(windows, query) {
        Some(place) => is_staying_supplier(windows[place].query(), place, staying, query),
        None => has_other_staying(windows, staying, query),
    }
}

// Whether a window supplies the query, and none of those that stay.
fn loses_window(windows: &[BoxedWindow], staying: &[Span], query: &Query) -> bool
    requires order { AreByQuery query_of windows.now }
    requires filtered { All (λ w. is_filtered w.query ≡ true) windows.now }
    requires apart { AreApart query_of windows.now }
    ensures { (those : List Query) (among : Bool) → AreStaying those among windows.now staying.now
        → result ≡ is_window_lost (window_queries windows.now)
        (staying_of those among (window_queries windows.now)) query.now }
{
    if !has_supplier(windows, query) {
        return false;
    }
    !has_staying_supplier(windows, staying, query)
}

// Whether a filtered form, of those or of the others, loses what it had.
fn loses(
    regions: &[BoxedRegion],
    lost: &[Span],
    parts: &[BoxedRegion],
    windows: &[BoxedWindow],
    those: &[Lent<'_>],
    among: bool,
    staying: &[Span],
    form: &Query,
) -> bool
    requires sorted { T (map_of.is_sorted path_cmp (pairs_of regions.now)) }
    requires apart { have_overlap (pairs_of regions.now) ≡ false }
    requires parts_sorted { T (map_of.is_sorted path_cmp (pairs_of parts.now)) }
    requires parts_apart { have_overlap (pairs_of parts.now) ≡ false }
    requires order { AreByQuery query_of windows.now }
    requires filtered { All (λ w. is_filtered w.query ≡ true) windows.now }
    requires windows_apart { AreApart query_of windows.now }
    requires those { AreByQuery (λ l. l.query.now) those.now }
    requires staying { AreStaying (lent_queries those.now) among windows.now staying.now }
    ensures { (kept : List Query) → IsCut kept regions.now lost.now parts.now
        → result ≡ (is_staying (lent_queries those.now) among form.now
        && is_loser kept (pairs_of regions.now) (window_queries windows.now)
        (staying_of (lent_queries those.now) among (window_queries windows.now)) form.now) }
{
    if !form.is_filtered() {
        return false;
    }
    if !is_staying(form, those, among) {
        return false;
    }
    if loses_region(regions, lost, parts, form) {
        return true;
    }
    loses_window(windows, staying, form)
}

// Of these forms, those that lose what they had.
fn losers<'a>(
    alloc: Global,
    regions: &[BoxedRegion],
    lost: &[Span],
    parts: &[BoxedRegion],
    windows: &[BoxedWindow],
    forms: &[Lent<'a>],
    those: &[Lent<'_>],
    among: bool,
    staying: &[Span],
) -> Result<Vec<Lent<'a>>, AllocError>
    requires sorted { T (map_of.is_sorted path_cmp (pairs_of regions.now)) }
    requires apart { have_overlap (pairs_of regions.now) ≡ false }
    requires parts_sorted { T (map_of.is_sorted path_cmp (pairs_of parts.now)) }
    requires parts_apart { have_overlap (pairs_of parts.now) ≡ false }
    requires order { AreByQuery query_of windows.now }
    requires filtered { All (λ w. is_filtered w.query ≡ true) windows.now }
    requires windows_apart { AreApart query_of windows.now }
    requires those { AreByQuery (λ l. l.query.now) those.now }
    requires staying { AreStaying (lent_queries those.now) among windows.now staying.now }
    ensures { (kept : List Query) → IsCut kept regions.now lost.now parts.now
        → IfOk result (λ lent. lent_queries lent.items
        ≡ filter (λ q. is_staying (lent_queries those.now) among q
        && is_loser kept (pairs_of regions.now) (window_queries windows.now)
        (staying_of (lent_queries those.now) among (window_queries windows.now)) q) (lent_queries forms.now)) }
{
    let mut lent = Vec::new(alloc);
    for form in forms {
        if loses(
            regions, lost, parts, windows, those, among, staying, form.query,
        ) {
            lent.push(Lent { query: form.query })?;
        }
    }
    Ok(lent)
}

// Of these queries, those that no other of them supplies. In their order what supplies one stands in front
// of it, and so does one that none supplies: so each is asked of those that are left so far.
fn unsupplied<'a>(alloc: Global, queries: &[Lent<'a>]) -> Result<Vec<Lent<'a>>, AllocError>
    requires order { AreByQuery (λ l. l.query.now) queries.now }
    requires filtered { All (λ l. is_filtered l.query.now ≡ true) queries.now }
    ensures { IfOk result (λ lent. lent_queries lent.items ≡ needed (lent_queries queries.now)) }
{
    let mut lent = Vec::new(alloc);
    for one in queries {
        if !has_other_supplier(&lent, one.query) {
            lent.push(Lent { query: one.query })?;
        }
    }
    Ok(lent)
}

// The window of a query of what it has.
fn window_of(
    alloc: Global,
    regions: &[BoxedRegion],
    windows: &[BoxedWindow],
    registered: &Forms,
    query: &Query,
) -> Result<Option<BoxedWindow>, AllocError>
    requires sorted { T (map_of.is_sorted path_cmp (pairs_of regions.now)) }
    requires apart { have_overlap (pairs_of regions.now) ≡ false }
    requires order { AreByQuery query_of windows.now }
    requires belongs { HaveForms registered.now (in_query_order (entries_of windows.now)) }
    ensures { IfOk result (λ left. option_map entry_of left ≡ option_map (λ w. (query.now, w))
        (window_left (base (held registered.now regions.now windows.now) query.now))) }
{
    if let Some(place) = place_above(regions, query.path()) {
        let part = part_at(alloc, &regions[place], query.path())?;
        return Ok(Some(BoxedWindow::over(alloc, query, &part, true)?));
    }
    let Some(place) = place_of_source(windows, registered, query) else {
        return Ok(None);
    };
    let window = windows[place].window();
    Ok(Some(BoxedWindow::over(alloc, query, &window.children, window.is_whole)?))
}

// The windows of the heirs.
fn hand_on(
    alloc: Global,
    regions: &[BoxedRegion],
    windows: &[BoxedWindow],
    registered: &Forms,
    heirs: &[Lent<'_>],
) -> Result<Vec<BoxedWindow>, AllocError>
    requires sorted { T (map_of.is_sorted path_cmp (pairs_of regions.now)) }
    requires apart { have_overlap (pairs_of regions.now) ≡ false }
    requires order { AreByQuery query_of windows.now }
    requires belongs { HaveForms registered.now (in_query_order (entries_of windows.now)) }
    ensures { IfOk result (λ handed. entries_of handed.items
        ≡ handed_on (held registered.now regions.now windows.now) (lent_queries heirs.now)) }
{
    let mut handed = Vec::new(alloc);
    for heir in heirs {
        if let Some(window) = window_of(alloc, regions, windows, registered, heir.query)? {
            handed.push(window)?;
        }
    }
    Ok(handed)
}

// The windows that a change of cover hands on, after which there are registered, of all forms, the filtered
// ones among those, or the ones that are not. These forms, which stand in order, are the ones of them
// that lose something, and others, if any.
pub(crate) fn windows_handed(
    alloc: Global,
    regions: &[BoxedRegion],
    lost: &[Span],
    parts: &[BoxedRegion],
    windows: &[BoxedWindow],
    were: &Forms,
    forms: &[Lent<'_>],
    those: &[Lent<'_>],
    among: bool,
) -> Result<Vec<BoxedWindow>, AllocError>
    requires sorted { T (map_of.is_sorted path_cmp (pairs_of regions.now)) }
    requires apart { have_overlap (pairs_of regions.now) ≡ false }
    requires parts_sorted { T (map_of.is_sorted path_cmp (pairs_of parts.now)) }
    requires parts_apart { have_overlap (pairs_of parts.now) ≡ false }
    requires order { AreByQuery query_of windows.now }
    requires belongs { HaveForms were.now (in_query_order (entries_of windows.now)) }
    requires beside { AreBeside (pairs_of regions.now) (in_query_order (entries_of windows.now)) }
    requires forms { AreByQuery (λ l. l.query.now) forms.now }
    requires those { AreByQuery (λ l. l.query.now) those.now }
    requires cut { (kept : List Query) × IsCut kept regions.now lost.now parts.now }
    ensures { (registered kept all : List Query) → IsCut kept regions.now lost.now parts.now
        → AreThose registered all (lent_queries those.now) among (window_queries windows.now)
        → AreGathered kept (pairs_of regions.now) all (lent_queries those.now) among
        (window_queries windows.now) (lent_queries forms.now)
        → IfOk result (λ handed. AreHanded registered kept (held were.now regions.now windows.now)
        (entries_of handed.items)) }
{
    let staying = spans_staying(alloc, windows, those, among)?;
    let losing = losers(
        alloc, regions, lost, parts, windows, forms, those, among, &staying,
    )?;
    let mut heirs = unsupplied(alloc, &losing)?;
    // Their windows are put in their places from the last on: so each is put behind those before it.
    heirs.reverse();
    hand_on(alloc, regions, windows, were, &heirs)
}

// The forms of the span, besides those that are lent.
fn lend_span<'a>(
    lent: &mut Vec<Lent<'a>>,
    forms: &'a [BoxedForm],
    span: &Span,
) -> Result<(), AllocError>
    requires ordered { span.now.start ≤ span.now.end }
    requires within { span.now.end ≤ length forms.now }
    ensures { OnOk result ((test : Query → Bool)
        → ((k : ℕ) (d : Form) → k < length forms.now → test (slice_index_or forms.now k d).query ≡ has_place k span.now)
        → AreLentOf test forms.now lent.old.items lent.new.items) }
{
    let mut place = span.start;
    while place < span.end {
        lent.push(Lent {
            query: forms[place].query(),
        })?;
        place += 1;
    }
    Ok(())
}

// The forms at or under a region of the span, besides those that are lent.
fn lend_under<'a>(
    lent: &mut Vec<Lent<'a>>,
    regions: &[BoxedRegion],
    span: &Span,
    forms: &'a [BoxedForm],
) -> Result<(), AllocError>
    requires order { AreByPath form_query forms.now }
    requires ordered { span.now.start ≤ span.now.end }
    requires within { span.now.end ≤ length regions.now }
    ensures { OnOk result (AreLentOf
        (is_under_one (slice_range regions.now span.now.start span.now.end)) forms.now lent.old.items
        lent.new.items) }
{
    let mut place = span.start;
    while place < span.end {
        lend_span(lent, forms, &span_under(forms, regions[place].path()))?;
        place += 1;
    }
    Ok(())
}

// The forms at or under a region that is lost, besides those that are lent. Looks at these alone.
fn lend_lost<'a>(
    lent: &mut Vec<Lent<'a>>,
    regions: &[BoxedRegion],
    lost: &[Span],
    forms: &'a [BoxedForm],
) -> Result<(), AllocError>
    requires order { AreByPath form_query forms.now }
    requires within { All (λ s. (s.start ≤ s.end) × (s.end ≤ length regions.now)) lost.now }
    ensures { OnOk result (AreLentOf (is_under_lost_one regions.now lost.now) forms.now lent.old.items
        lent.new.items) }
{
    for span in lost {
        lend_under(lent, regions, span, forms)?;
    }
    Ok(())
}

// Whether the window of a form that ends may be that of another: it has one, and no limit.
fn hands_on(windows: &[BoxedWindow], form: &Query) -> bool
    requires order { AreByQuery query_of windows.now }
    ensures { result ≡ hands_on windows.now form.now }
{
    form.limit().is_none() && place_of_window(windows, form).is_some()
}

// Whether the last that is lent is of the path.
fn is_last_at(lent: &[Lent<'_>], path: &Path) -> bool
    ensures { result ≡ true → list_any (λ q. path_eq q.path path.now) (lent_queries lent.now) ≡ true }
{
    match lent.last() {
        Some(last) => last.query.path() == path,
        None => false,
    }
}

// Whether the window of a form that ends may be that of another, and the last that is lent isn't of its path.
fn has_new_path(windows: &[BoxedWindow], lent: &[Lent<'_>], form: &Query) -> bool
    requires { AreByQuery query_of windows.now }
    ensures new { result ≡ true → hands_on windows.now form.now ≡ true }
    ensures old { result ≡ false → hands_on windows.now form.now ≡ true
        → list_any (λ q. path_eq q.path form.now.path) (lent_queries lent.now) ≡ true }
{
    hands_on(windows, form) && !is_last_at(lent, form.path())
}

// Where the forms of the path stand, by halving.
fn span_at(forms: &[BoxedForm], path: &Path) -> Span
    requires { AreByPath form_query forms.now }
    ensures ordered { result.start ≤ result.end }
    ensures within { result.end ≤ length forms.now }
    ensures exact { (k : ℕ) (d : Form) → k < length forms.now
        → path_eq (slice_index_or forms.now k d).query.path path.now ≡ has_place k result }
{
    let start = first_from(forms, path);
    Span {
        start,
        end: first_behind(forms, path),
    }
}

// The forms of the paths of those that end and whose windows may be others'. Those that end stand by their
// paths, so that those of a path are lent once.
fn lend_beside<'a>(
    alloc: Global,
    windows: &[BoxedWindow],
    ended: &[Lent<'_>],
    forms: &'a [BoxedForm],
) -> Result<Vec<Lent<'a>>, AllocError>
    requires windows { AreByQuery query_of windows.now }
    requires order { AreByPath form_query forms.now }
    ensures { IfOk result (λ lent. AreLentOf (is_beside_one windows.now (lent_queries ended.now)) forms.now []
        lent.items) }
{
    let mut lent = Vec::new(alloc);
    for one in ended {
        if has_new_path(windows, &lent, one.query) {
            lend_span(&mut lent, forms, &span_at(forms, one.query.path()))?;
        }
    }
    Ok(lent)
}

// Of the forms that are lent those that the form supplies that ends, where it alone does: no other of its path
// had its window. Where several end, all stay.
fn retain_supplied(lent: &mut Vec<Lent<'_>>, ended: &[Lent<'_>])
    ensures { lent_queries lent.new.items
        ≡ filter (is_supplied_by_one (lent_queries ended.now)) (lent_queries lent.old.items) }
{
    if ended.len() != 1 {
        return;
    }
    let query = ended[0].query;
    lent.retain(|one| query.supplies(one.query));
}

// The windows that are handed on where these forms end. Looks at the filtered forms at and under the regions
// that are lost, and at those of the paths of forms that end and whose windows may be others': where one alone
// ends, at each of these once, and then at those that it supplies.
pub(crate) fn windows_of_ended(
    alloc: Global,
    regions: &[BoxedRegion],
    lost: &[Span],
    parts: &[BoxedRegion],
    windows: &[BoxedWindow],
    were: &Forms,
    ended: &[Query],
) -> Result<Vec<BoxedWindow>, AllocError>
    requires sorted { T (map_of.is_sorted path_cmp (pairs_of regions.now)) }
    requires apart { have_overlap (pairs_of regions.now) ≡ false }
    requires parts_sorted { T (map_of.is_sorted path_cmp (pairs_of parts.now)) }
    requires parts_apart { have_overlap (pairs_of parts.now) ≡ false }
    requires order { AreByQuery query_of windows.now }
    requires belongs { HaveForms were.now (in_query_order (entries_of windows.now)) }
    requires beside { AreBeside (pairs_of regions.now) (in_query_order (entries_of windows.now)) }
    requires cut { (kept : List Query) × IsCut kept regions.now lost.now parts.now }
    ensures { (registered kept : List Query) → IsCut kept regions.now lost.now parts.now
        → AreThose registered were.now ended.now false (window_queries windows.now)
        → IfOk result (λ handed. AreHanded registered kept (held were.now regions.now windows.now)
        (entries_of handed.items)) }
{
    let filtered = were.filtered();
    let those = in_query_order(alloc, ended)?;
    let mut lent = lend_beside(alloc, windows, &those, filtered)?;
    retain_supplied(&mut lent, &those);
    lend_lost(&mut lent, regions, lost, filtered)?;
    let forms = in_query_order(alloc, &lent)?;
    windows_handed(
        alloc, regions, lost, parts, windows, were, &forms, &those, false,
    )
}
