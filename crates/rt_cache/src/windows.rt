// Windows of filtered queries, in the order of the queries.
ghost use Rattle.std.specs.Prelude.{◌≡◌, false, IfOk, OnOk, OnErr, ℕ, ◌+◌, ◌<◌, ◌≤◌, ◌++◌, length, IfSome};
ghost use Rattle.std.specs.Prelude.{IfNone, vec_len, vec_capacity, if◌then◌else◌, IsOk, Some, None, is_some};
ghost use Rattle.std.specs.Prelude.{not, true, slice_index_or, ◌&&◌, ◌||◌};
ghost use Rattle.std.specs.List.{filter, list_any, remove_range, All};
ghost use Rattle.std.specs.Option.{option_map_or};
ghost use Rattle.rt_tree.specs.PathTree.{put, children_alone, levels, strip};
ghost use Rattle.rt_tree.specs.Assignments.{is_at_or_above};
ghost use Rattle.rt_query.specs.QueryEq.{query_eq};
ghost use Rattle.rt_query.specs.QueryOrder.{query_cmp};
ghost use Rattle.rt_query.specs.Queries.{Query, is_filtered};
ghost use Rattle.rt_query.specs.Supply.{does_supply};
ghost use Rattle.rt_cache.specs.Recover.{in_query_order, is_among};
ghost use Rattle.rt_cache.specs.inside.ByPath.{AreByPath, AreByQuery, query_of, is_other_supplier};
ghost use Rattle.rt_cache.specs.inside.Listed.{form_query, queries_of};
ghost use Rattle.rt_cache.specs.inside.Held.{seen_window, entries_of, pushed_windows, is_taken};
ghost use Rattle.rt_cache.specs.inside.Sources.{source_among, AreAlone, HaveForms};
ghost use Rattle.rt_cache.specs.declared.windows.Window.{Window};
ghost use Rattle.std.specs.FinMap as map_of;

use crate::by_path::{
    HasQuery, Span, first_from, first_of, is_only_supplier, is_other_supplier, last_supplier,
    place_of, span_under,
};
use crate::forms::{BoxedForm, Forms};
use crate::regions::{children_alone, put_at, rest_of};
use rt_query::Query;
use rt_tree::{Key, MAX_LEVELS, Path, Tree};
use std::alloc::{AllocError, Global};
use std::marker::Model;

// ---- a window

// The known children of a filtered query; whole where they are all that its path has.
pub(crate) struct Window {
    pub(crate) query: Query,
    pub(crate) children: Tree,
    pub(crate) is_whole: bool,
}

impl Drop for Window {
    fn drop(self) {
        let Window {
            query: _,
            children: _,
            is_whole: _,
        } = self;
    }
}

// A window in memory of its own, so that a list of windows moves a pointer of each.
pub(crate) struct BoxedWindow {
    window: Box<Window>,
}

impl Drop for BoxedWindow {
    fn drop(self) {
        let BoxedWindow { window: _ } = self;
    }
}

impl Model for BoxedWindow {
    ghost use Rattle.rt_cache.specs.declared.windows.Window.{Window};

    ghost Value = { Window };

    ghost view = { λ a. a.window.value };
}

impl HasQuery for BoxedWindow {
    ghost query_of = { λ w. w.query };

    fn query(&self) -> &Query {
        &self.window.query
    }
}

impl BoxedWindow {
    // The window of a query over the children of a tree, in memory of its own.
    pub(crate) fn over(
        alloc: Global,
        query: &Query,
        tree: &Tree,
        is_whole: bool,
    ) -> Result<BoxedWindow, AllocError>
        ensures { IfOk result (λ boxed. boxed ≡ record {
          query = query.now;
          children = children_alone tree.now;
          is_whole = is_whole;
        }) }
    {
        let window = Window {
            query: query.copy()?,
            children: children_alone(alloc, tree)?,
            is_whole,
        };
        Ok(BoxedWindow {
            window: Box::new(alloc, window)?,
        })
    }

    // The window.
    pub(crate) fn window(&self) -> &Window
        ensures { result.now ≡ self.now }
    {
        &self.window
    }

    // Other children, which need not be all that the path has.
    pub(crate) fn refill(&mut self, children: Tree)
        ensures { self.new
            ≡ record { query = self.old.query; children = children; is_whole = false } }
    {
        self.window.children = children;
        self.window.is_whole = false;
    }

    // The tree put into the children, below these keys.
    pub(crate) fn set(&mut self, alloc: Global, keys: &[Key], tree: &Tree) -> Result<(), AllocError>
        ensures ok { OnOk result (self.new ≡ record {
          query = self.old.query;
          children = put self.old.children keys.now tree.now;
          is_whole = self.old.is_whole;
        }) }
        ensures err { OnErr result (self.new ≡ self.old) }
    {
        put_at(alloc, &mut self.window.children, keys, tree)
    }
}

// ---- windows of filtered queries, in the order of the queries

// Where the window of the query stands, by halving.
pub(crate) fn place_of_window(windows: &[BoxedWindow], query: &Query) -> Option<usize>
    requires { AreByQuery query_of windows.now }
    ensures known { is_some result
        ≡ is_some (map_of.find query_cmp query.now (entries_of windows.now)) }
    ensures none { IfNone result (map_of.find query_cmp query.now (entries_of windows.now) ≡ None) }
    ensures within { IfSome result (λ n. n < length windows.now) }
    ensures own { IfSome result (λ n. (d : Window)
        → query_eq (slice_index_or windows.now n d).query query.now ≡ true) }
    ensures first { IfSome result (λ n. (k : ℕ) (d : Window) → k < n
        → query_eq (slice_index_or windows.now k d).query query.now ≡ false) }
{
    place_of(windows, query)
}

// The window in its place by its query. There is room for it.
fn insert_window(windows: &mut Vec<BoxedWindow>, window: BoxedWindow)
    requires order { AreByQuery query_of windows.old.items }
    requires room { vec_len windows.old < vec_capacity windows.old }
    ensures order { AreByQuery query_of windows.new.items }
    ensures listed { in_query_order (entries_of windows.new.items)
        ≡ map_of.put query_cmp window.query (seen_window window) (in_query_order
        (entries_of windows.old.items)) }
    ensures len { vec_len windows.new ≤ vec_len windows.old + 1 }
    ensures room { vec_capacity windows.old ≤ vec_capacity windows.new }
{
    let place = first_of(windows, window.query());
    let _in_reserved_room = windows.insert(place, window);
}

// The window in place of the one of its query, if there is one. There is room for it.
fn put_window(windows: &mut Vec<BoxedWindow>, window: BoxedWindow)
    requires order { AreByQuery query_of windows.old.items }
    requires room { vec_len windows.old < vec_capacity windows.old }
    ensures order { AreByQuery query_of windows.new.items }
    ensures listed { in_query_order (entries_of windows.new.items)
        ≡ map_of.put query_cmp window.query (seen_window window) (in_query_order
        (entries_of windows.old.items)) }
    ensures len { vec_len windows.new ≤ vec_len windows.old + 1 }
    ensures room { vec_capacity windows.old ≤ vec_capacity windows.new }
{
    match place_of_window(windows, window.query()) {
        Some(place) => windows[place] = window,
        None => insert_window(windows, window),
    }
}

// Each of the windows in its place, for which there is room. Of two of one query the first stays.
pub(crate) fn put_windows(windows: &mut Vec<BoxedWindow>, mut more: Vec<BoxedWindow>)
    requires order { AreByQuery query_of windows.old.items }
    requires room { vec_len windows.old + vec_len more ≤ vec_capacity windows.old }
    ensures order { AreByQuery query_of windows.new.items }
    ensures listed { in_query_order (entries_of windows.new.items)
        ≡ in_query_order (entries_of more.items ++ entries_of windows.old.items) }
{
    while let Some(window) = more.pop() {
        put_window(windows, window);
    }
}

// The window of the query replaced by the children of the tree.
pub(crate) fn replace(
    alloc: Global,
    windows: &mut Vec<BoxedWindow>,
    query: &Query,
    tree: &Tree,
) -> Result<(), AllocError>
    requires { AreByQuery query_of windows.old.items }
    ensures order { AreByQuery query_of windows.new.items }
    ensures ok { OnOk result (in_query_order (entries_of windows.new.items)
        ≡ map_of.put query_cmp query.now
        (record { children = children_alone tree.now; is_whole = false }) (in_query_order
        (entries_of windows.old.items))) }
    ensures err { OnErr result (windows.new.items ≡ windows.old.items) }
{
    match place_of_window(windows, query) {
        Some(place) => {
            let children = children_alone(alloc, tree)?;
            let window = &mut windows[place];
            window.refill(children);
        }
        None => {
            let window = BoxedWindow::over(alloc, query, tree, false)?;
            windows.reserve(1)?;
            insert_window(windows, window);
        }
    }
    Ok(())
}

// The tree put into a window, whose query's path is at or above the path.
fn put_into_window(
    alloc: Global,
    window: &mut BoxedWindow,
    path: &Path,
    tree: &Tree,
) -> Result<(), AllocError>
    requires under { is_at_or_above window.old.query.path path.now ≡ true }
    requires levels { length path.now + levels tree.now ≤ MAX_LEVELS }
    ensures query { window.new.query ≡ window.old.query }
    ensures mark { window.new.is_whole ≡ window.old.is_whole }
    ensures ok { OnOk result (window.new.children
        ≡ option_map_or (λ rest. put window.old.children rest tree.now)
        (strip window.old.query.path path.now) window.old.children) }
    ensures err { OnErr result (window.new.children ≡ window.old.children) }
{
    let keys = rest_of(window.query().path(), path);
    window.set(alloc, keys, tree)
}

// The windows that are not in the span.
fn remove_span(windows: &mut Vec<BoxedWindow>, span: Span)
    requires ordered { span.start ≤ span.end }
    requires within { span.end ≤ length windows.old.items }
    ensures { windows.new.items ≡ remove_range windows.old.items span.start span.end }
{
    drop(windows.drain(span.start..span.end));
}

// The windows that are not at or under the path, which are found by halving.
pub(crate) fn remove_under(windows: &mut Vec<BoxedWindow>, path: &Path)
    requires { AreByQuery query_of windows.old.items }
    ensures order { AreByQuery query_of windows.new.items }
    ensures left { in_query_order (entries_of windows.new.items)
        ≡ filter (λ w. not (is_at_or_above path.now w.0.path)) (in_query_order
        (entries_of windows.old.items)) }
{
    let span = span_under(windows, path);
    remove_span(windows, span);
}

// The windows but for that of the query.
fn remove_query(windows: &mut Vec<BoxedWindow>, query: &Query)
    requires { AreByQuery query_of windows.old.items }
    ensures order { AreByQuery query_of windows.new.items }
    ensures left { (x : Query) → map_of.find query_cmp x (entries_of windows.new.items)
        ≡ (if query_eq query.now x then None
        else map_of.find query_cmp x (entries_of windows.old.items)) }
    ensures len { vec_len windows.new ≤ vec_len windows.old }
    ensures room { vec_capacity windows.new ≡ vec_capacity windows.old }
{
    while let Some(place) = place_of_window(windows, query) {
        drop(windows.remove(place));
    }
}

// The windows but for those of these queries.
pub(crate) fn remove_queries(windows: &mut Vec<BoxedWindow>, queries: &[Query])
    requires { AreByQuery query_of windows.old.items }
    ensures order { AreByQuery query_of windows.new.items }
    ensures left { in_query_order (entries_of windows.new.items)
        ≡ filter (λ w. not (is_among queries.now w.0)) (in_query_order
        (entries_of windows.old.items)) }
    ensures len { vec_len windows.new ≤ vec_len windows.old }
    ensures room { vec_capacity windows.new ≡ vec_capacity windows.old }
{
    for query in queries {
        remove_query(windows, query);
    }
}

// The windows but for those of other queries that this one supplies. What has a limit supplies none; else
// goes over those of its path alone, and of these over none in front of it: a wider one stands in front.
fn remove_supplied(windows: &mut Vec<BoxedWindow>, query: &Query)
    requires order { AreByQuery query_of windows.old.items }
    requires filtered { is_filtered query.now ≡ true }
    ensures order { AreByQuery query_of windows.new.items }
    ensures left { in_query_order (entries_of windows.new.items)
        ≡ filter (λ w. query_eq w.0 query.now || not (does_supply query.now w.0)) (in_query_order
        (entries_of windows.old.items)) }
{
    if query.limit().is_some() {
        return;
    }
    let mut place = first_of(windows, query);
    while place < windows.len() {
        let other = windows[place].query();
        if other.path() != query.path() {
            return;
        }
        if is_other_supplier(query, other) {
            drop(windows.remove(place));
        } else {
            place += 1;
        }
    }
}

// The window of the query replaced by the children of the tree, and those of other queries that it supplies
// taken out. None of them stands beside a window that the query has already.
fn put_whole(
    alloc: Global,
    windows: &mut Vec<BoxedWindow>,
    query: &Query,
    tree: &Tree,
) -> Result<(), AllocError>
    requires order { AreByQuery query_of windows.old.items }
    requires filtered { is_filtered query.now ≡ true }
    requires apart { AreAlone (in_query_order (entries_of windows.old.items)) }
    ensures order { AreByQuery query_of windows.new.items }
    ensures ok { OnOk result (in_query_order (entries_of windows.new.items)
        ≡ filter (λ w. query_eq w.0 query.now || not (does_supply query.now w.0))
        (map_of.put query_cmp query.now
        (record { children = children_alone tree.now; is_whole = false }) (in_query_order
        (entries_of windows.old.items)))) }
    ensures err { OnErr result (windows.new.items ≡ windows.old.items) }
{
    if place_of_window(windows, query).is_some() {
        return replace(alloc, windows, query, tree);
    }
    replace(alloc, windows, query, tree)?;
    remove_supplied(windows, query);
    Ok(())
}

// Where the window of the form stands, if it supplies the query.
fn place_supplying(windows: &[BoxedWindow], form: &Query, query: &Query) -> Option<usize>
    requires { AreByQuery query_of windows.now }
    ensures known { is_some result ≡ (does_supply form.now query.now
        && is_some (map_of.find query_cmp form.now (entries_of windows.now))) }
    ensures within { IfSome result (λ n. n < length windows.now) }
    ensures own { IfSome result (λ n. (d : Window)
        → query_eq (slice_index_or windows.now n d).query form.now ≡ true) }
    ensures first { IfSome result (λ n. (k : ℕ) (d : Window) → k < n
        → query_eq (slice_index_or windows.now k d).query form.now ≡ false) }
{
    if !form.supplies(query) {
        return None;
    }
    place_of_window(windows, form)
}

// Where the window stands that is brought for the query, by going over these filtered forms, of those of
// its path alone.
fn place_of_first(windows: &[BoxedWindow], forms: &[BoxedForm], query: &Query) -> Option<usize>
    requires order { AreByQuery query_of windows.now }
    requires filtered { All (λ w. is_filtered w.query ≡ true) windows.now }
    requires forms { AreByPath form_query forms.now }
    ensures within { IfSome result (λ n. n < length windows.now) }
    ensures source { IfSome result (λ n. (d : Window) → source_among (entries_of windows.now)
        (queries_of forms.now) query.now ≡ Some (slice_index_or windows.now n d).query) }
    ensures none { IfNone result (source_among (entries_of windows.now) (queries_of forms.now)
        query.now ≡ None) }
    ensures first { IfSome result (λ n. (k : ℕ) (d : Window) → k < n
        → query_eq (slice_index_or windows.now k d).query (slice_index_or windows.now n d).query ≡ false) }
{
    let mut place = first_from(forms, query.path());
    while place < forms.len() {
        let form = forms[place].query();
        if form.path() != query.path() {
            return None;
        }
        if let Some(own) = place_supplying(windows, form, query) {
            return Some(own);
        }
        place += 1;
    }
    None
}

// Where the window stands that is brought for the query: that of the first registered form that
// supplies it and has one. Its own is the only one where it has one. Found by halving, and where several
// windows supply the query by going over the filtered forms of its path.
pub(crate) fn place_of_source(
    windows: &[BoxedWindow],
    registered: &Forms,
    query: &Query,
) -> Option<usize>
    requires order { AreByQuery query_of windows.now }
    requires belongs { HaveForms registered.now (in_query_order (entries_of windows.now)) }
    ensures within { IfSome result (λ n. n < length windows.now) }
    ensures source { IfSome result (λ n. (d : Window) → source_among (entries_of windows.now) registered.now
        query.now ≡ Some (slice_index_or windows.now n d).query) }
    ensures none { IfNone result (source_among (entries_of windows.now) registered.now query.now ≡ None) }
    ensures first { IfSome result (λ n. (k : ℕ) (d : Window) → k < n
        → query_eq (slice_index_or windows.now k d).query (slice_index_or windows.now n d).query ≡ false) }
{
    if let Some(place) = place_of_window(windows, query) {
        return Some(place);
    }
    let Some(last) = last_supplier(windows, query) else {
        return None;
    };
    if is_only_supplier(windows, last, query) {
        return Some(last);
    }
    place_of_first(windows, registered.filtered(), query)
}

// The tree pushed on the query at the path; whether it was taken: below the query's path a window
// has to be there.
pub(crate) fn push(
    alloc: Global,
    windows: &mut Vec<BoxedWindow>,
    query: &Query,
    path: &Path,
    tree: &Tree,
) -> Result<bool, AllocError>
    requires under { is_at_or_above query.now.path path.now ≡ true }
    requires levels { length path.now + levels tree.now ≤ MAX_LEVELS }
    requires order { AreByQuery query_of windows.old.items }
    requires filtered { is_filtered query.now ≡ true }
    requires apart { AreAlone (in_query_order (entries_of windows.old.items)) }
    ensures order { AreByQuery query_of windows.new.items }
    ensures ok { OnOk result (in_query_order (entries_of windows.new.items)
        ≡ pushed_windows query.now (path.now, tree.now) (in_query_order
        (entries_of windows.old.items))) }
    ensures taken { IfOk result (λ taken. taken
        ≡ is_taken query.now path.now (in_query_order (entries_of windows.old.items))) }
    ensures err { OnErr result (in_query_order (entries_of windows.new.items)
        ≡ in_query_order (entries_of windows.old.items)) }
    ensures stale { is_taken query.now path.now (in_query_order (entries_of windows.old.items)) ≡ false
        → IsOk result }
{
    if path == query.path() {
        put_whole(alloc, windows, query, tree)?;
        return Ok(true);
    }
    let Some(place) = place_of_window(windows, query) else {
        return Ok(false);
    };
    put_into_window(alloc, &mut windows[place], path, tree)?;
    Ok(true)
}
