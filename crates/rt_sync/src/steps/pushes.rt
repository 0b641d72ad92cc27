// The server pushes on a kept listen.
ghost use Rattle.std.specs.Prelude.{◌≡◌, ◌↔◌, ◌==◌, ◌∷◌, [], not, true, Some, IfOk, IsTrue, OnOk, map};
ghost use Rattle.std.specs.List.{All, IsDistinct, fold, list_all, list_any};
ghost use Rattle.std.specs.List.Sorted.{IsNonDecreasing, IsPermutation};
ghost use Rattle.std.specs.Option.{option_and_then, option_copied, option_map, option_map_or};
ghost use Rattle.rt_tree.specs.PathTree.{PathTree};
ghost use Rattle.rt_tree.specs.Assignments.{is_at_or_above};
ghost use Rattle.rt_query.specs.Queries.{Query};
ghost use Rattle.rt_cache.specs.Brought.{is_without_window, may_put, push};
ghost use Rattle.rt_cover.specs.State.{listen_at};
ghost use Rattle.rt_world.specs.World.{listen_of};
ghost use Rattle.rt_world.specs.Touched.{entries_pushed};
ghost use Rattle.rt_world.specs.steps.Kind.{stands_too_deep};
ghost use Rattle.rt_world.specs.steps.Pushing.{has_tag_twice, is_bad_part, is_idle, is_no_merge, is_no_push};
ghost use Rattle.rt_world.specs.steps.Pushing.{is_within_listen};
ghost use Rattle.rt_world.specs.laws.Made.{IsPushOn};
ghost use Rattle.rt_sync.specs.inside.Pushed.{range_of};

use crate::state::{State, StepNews};
use rt_cache::Brought;
use rt_cover::Cover;
use rt_query::Query;
use rt_tree::{Path, Tree};
use rt_wire::{Part, Parts, some_stands_too_deep, stands_too_deep};
use rt_world::{CoreError, brought_law, note_law, push_law, pushed_law, stay_law, touch_law};
use rt_writes::Entries;
use std::alloc::{AllocError, Global};
use std::slice::from_ref;

// Of more parts than these the tags are sorted, where there is memory for a list of them.
const MAX_UNSORTED: usize = 64;

// Whether all these entries sit at or under the path.
fn are_under(entries: &[(Path, Tree)], path: &Path) -> bool
    ensures { result ≡ list_all (λ a. is_at_or_above path.now a.0) entries.now }
{
    entries.iter().all(|entry| path.is_prefix_of(&entry.0))
}

// Whether a push has no entries, or two of which one is at or above the other.
fn is_no_merge(entries: &Entries) -> bool
    ensures { result ≡ is_no_merge entries.now }
{
    match entries.as_slice() {
        [] => true,
        [_, ..] => entries.have_overlap(),
    }
}

// Whether the entry, pushed on the query, would want a window that is not there.
fn lacks_window(brought: &Brought, query: &Query, entry: &(Path, Tree)) -> bool
    ensures { result ≡ is_without_window brought.now query.now entry.now }
{
    brought.lacks_window(query, &entry.0)
}

// Whether each of these entries would want one.
fn lack_window(brought: &Brought, query: &Query, entries: &[(Path, Tree)]) -> bool
    ensures { result ≡ list_all (is_without_window brought.now query.now) entries.now }
{
    entries
        .iter()
        .all(|entry| lacks_window(brought, query, entry))
}

// Takes in these entries, which are pushed on the listen of the query.
fn put_all(brought: &mut Brought, query: &Query, entries: &[(Path, Tree)]) -> Result<(), AllocError>
    requires on { All (IsPushOn query.now) entries.now }
    requires kept { may_put brought.old query.now ≡ true }
    ensures pushed { OnOk result (brought.new ≡ fold (push query.now) brought.old entries.now) }
    ensures registered { OnOk result (brought.new.registered ≡ brought.old.registered) }
{
    for entry in entries {
        let _is_taken = brought.put(query, &entry.0, &entry.1)?;
    }
    Ok(())
}

// Takes these entries in on the listen with that tag, if it is kept.
fn put_on(
    brought: &mut Brought,
    cover: &Cover,
    tag: u64,
    entries: &[(Path, Tree)],
) -> Result<(), AllocError>
    requires on { (q : Query) → option_map (λ k. k.form) (listen_at cover.now tag) ≡ Some q
        → All (IsPushOn q) entries.now }
    requires kept { (q : Query) → option_map (λ k. k.form) (listen_at cover.now tag) ≡ Some q
        → may_put brought.old q ≡ true }
    ensures pushed { OnOk result (brought.new ≡ option_map_or
        (λ q. fold (push q) brought.old entries.now)
        (option_map (λ k. k.form) (listen_at cover.now tag)) brought.old) }
    ensures registered { OnOk result (brought.new.registered ≡ brought.old.registered) }
{
    match cover.form_at(tag) {
        Some(query) => put_all(brought, query, entries),
        None => Ok(()),
    }
}

// Takes each part in on the listen with its tag, if that is kept.
fn put_parts(brought: &mut Brought, cover: &Cover, parts: &[Part]) -> Result<(), AllocError>
    requires on { All (λ p. (q : Query)
        → option_map (λ k. k.form) (listen_at cover.now p.0) ≡ Some q
        → All (IsPushOn q) p.1) parts.now }
    requires kept { All (λ p. (q : Query)
        → option_map (λ k. k.form) (listen_at cover.now p.0) ≡ Some q
        → may_put brought.old q ≡ true) parts.now }
    ensures { OnOk result (brought.new ≡ fold (λ b p. option_map_or
        (λ q. fold (push q) b p.1)
        (option_map (λ k. k.form) (listen_at cover.now p.0)) b) brought.old parts.now) }
{
    for part in parts {
        put_on(brought, cover, part.tag(), part.entries().as_slice())?;
    }
    Ok(())
}

// The range that is listened to under the tag, if it is one.
fn range_at<'a>(cover: &'a Cover, tag: u64) -> Option<&'a Query>
    ensures { option_copied result ≡ option_and_then range_of
        (option_map (λ k. k.form) (listen_at cover.now tag)) }
{
    let Some(form) = cover.form_at(tag) else {
        return None;
    };
    if form.is_filtered() {
        return Some(form);
    }
    None
}

// The entries of all parts, in order.
fn entries_pushed(alloc: Global, parts: Parts) -> Result<Vec<(Path, Tree)>, AllocError>
    ensures { IfOk result (λ entries. entries.items ≡ entries_pushed parts) }
{
    let mut entries = Vec::new(alloc);
    for part in parts.into_vec() {
        let mut more = part.into_entries().into_vec();
        entries.append(&mut more)?;
    }
    Ok(entries)
}

// Whether two parts have one tag. Compares each with each.
fn has_equal_tags(parts: &[Part]) -> bool
    ensures { result ≡ has_tag_twice parts.now }
{
    let mut rest = parts;
    while let Some((first, others)) = rest.split_first() {
        if others.iter().any(|other| other.tag() == first.tag()) {
            return true;
        }
        rest = others;
    }
    false
}

// The tags of the parts, in order.
fn sorted_tags(alloc: Global, parts: &[Part]) -> Result<Vec<u64>, AllocError>
    ensures sorted { IfOk result (λ tags. IsNonDecreasing tags.items) }
    ensures same { IfOk result (λ tags. IsPermutation (map (λ p. p.0) parts.now) tags.items) }
{
    let mut tags = Vec::with_capacity(alloc, parts.len())?;
    for part in parts {
        tags.push(part.tag())?;
    }
    tags.sort_unstable();
    Ok(tags)
}

// Whether no two of the tags are equal, which are in order.
fn are_distinct(tags: &[u64]) -> bool
    requires { IsNonDecreasing tags.now }
    ensures { IsTrue result ↔ IsDistinct (λ m n. m == n) tags.now }
{
    for later in 1..tags.len() {
        if tags[later - 1] == tags[later] {
            return false;
        }
    }
    true
}

// Whether two parts have one tag. The tags of many are sorted, where there is memory for a list of them.
fn has_tag_twice(alloc: Global, parts: &[Part]) -> bool
    ensures { result ≡ has_tag_twice parts.now }
{
    if parts.len() > MAX_UNSORTED {
        if let Ok(tags) = sorted_tags(alloc, parts) {
            return !are_distinct(&tags);
        }
    }
    has_equal_tags(parts)
}

// Whether there are no parts, or two of one tag.
fn is_no_push(alloc: Global, parts: &[Part]) -> bool
    ensures { result ≡ is_no_push parts.now }
{
    match parts {
        [] => true,
        [_, ..] => has_tag_twice(alloc, parts),
    }
}

// Whether a leaf of one of these parts would stand too deep.
fn are_too_deep(parts: &[Part]) -> bool
    ensures { result ≡ list_any (λ p. list_any stands_too_deep p.1) parts.now }
{
    parts
        .iter()
        .any(|part| some_stands_too_deep(part.entries()))
}

impl State {
    ghost use Rattle.rt_world.specs.declared.step.Step.TheVariants as Step;
    ghost use Rattle.rt_world.specs.Refusals.{is_stale, refusal};
    ghost use Rattle.rt_sync.specs.inside.StateView.{world_of};
    ghost use Rattle.rt_sync.specs.inside.States.{IsReady, Makes};

    // The query of the kept listen with that tag.
    pub(crate) fn listen_of(&self, tag: u64) -> Option<&Query>
        ensures { option_copied result ≡ listen_of (world_of self.now) tag }
    {
        self.cover.form_at(tag)
    }

    // Whether a path of these entries is outside the listen's.
    fn is_outside_listen(&self, tag: u64, entries: &[(Path, Tree)]) -> bool
        ensures { result ≡ not (is_within_listen (world_of self.now) (tag, entries.now)) }
    {
        match self.listen_of(tag) {
            Some(query) => !are_under(entries, query.path()),
            None => false,
        }
    }

    // Whether the path of a pushed tree is outside the listen's.
    fn is_path_outside(&self, tag: u64, path: &Path, tree: &Tree) -> bool
        ensures { result ≡ not (is_within_listen (world_of self.now) (tag, (path.now, tree.now) ∷ [])) }
    {
        match self.listen_of(tag) {
            Some(query) => !query.path().is_prefix_of(path),
            None => false,
        }
    }

    // Why a push of a tree is refused.
    pub(crate) fn data_refusal(&self, tag: u64, path: &Path, tree: &Tree) -> Option<CoreError>
        ensures { result ≡ refusal (world_of self.now) (Step.Data tag path.now tree.now) }
    {
        if stands_too_deep(path, tree) {
            return Some(CoreError::TooDeep);
        }
        if self.is_path_outside(tag, path, tree) {
            return Some(CoreError::BadPush);
        }
        self.offline_refusal()
    }

    // Whether the entries are none that the listen with that tag can bring.
    fn is_bad_part(&self, tag: u64, entries: &Entries) -> bool
        ensures { result ≡ is_bad_part (world_of self.now) (tag, entries.now) }
    {
        self.is_outside_listen(tag, entries.as_slice()) || is_no_merge(entries)
    }

    // Why a push of several trees is refused.
    pub(crate) fn merge_refusal(&self, tag: u64, entries: &Entries) -> Option<CoreError>
        ensures { result ≡ refusal (world_of self.now) (Step.DataMerge tag entries.now) }
    {
        if some_stands_too_deep(entries) {
            return Some(CoreError::TooDeep);
        }
        if self.is_bad_part(tag, entries) {
            return Some(CoreError::BadPush);
        }
        self.offline_refusal()
    }

    // Whether one of the parts is bad.
    fn has_bad_part(&self, parts: &[Part]) -> bool
        ensures { result ≡ list_any (is_bad_part (world_of self.now)) parts.now }
    {
        parts
            .iter()
            .any(|part| self.is_bad_part(part.tag(), part.entries()))
    }

    // Why a push of parts is refused.
    pub(crate) fn push_refusal(&self, parts: &Parts) -> Option<CoreError>
        ensures { result ≡ refusal (world_of self.now) (Step.Push parts.now) }
    {
        if are_too_deep(parts.as_slice()) {
            return Some(CoreError::TooDeep);
        }
        let alloc = self.alloc();
        if is_no_push(alloc, parts.as_slice()) || self.has_bad_part(parts.as_slice()) {
            return Some(CoreError::BadPush);
        }
        self.offline_refusal()
    }

    // Whether a tree that is pushed at the path changes nothing: no listen with the tag is kept, or
    // it wants a window.
    pub(crate) fn data_is_stale(&self, tag: u64, path: &Path) -> bool
        ensures { (tree : PathTree) → result ≡ is_stale (world_of self.now) (Step.Data tag path.now tree) }
    {
        match self.listen_of(tag) {
            Some(query) => self.brought.lacks_window(query, path),
            None => true,
        }
    }

    // Whether a part changes nothing: no listen with the tag is kept, or each entry wants a window.
    fn is_idle(&self, tag: u64, entries: &Entries) -> bool
        ensures { result ≡ is_idle (world_of self.now) (tag, entries.now) }
    {
        match self.listen_of(tag) {
            Some(query) => lack_window(&self.brought, query, entries.as_slice()),
            None => true,
        }
    }

    // Whether trees that are pushed together on one listen change nothing.
    pub(crate) fn merge_is_stale(&self, tag: u64, entries: &Entries) -> bool
        ensures { result ≡ is_stale (world_of self.now) (Step.DataMerge tag entries.now) }
    {
        self.is_idle(tag, entries)
    }

    // Whether parts that are pushed together change nothing, one as the other.
    pub(crate) fn push_is_stale(&self, parts: &Parts) -> bool
        ensures { result ≡ is_stale (world_of self.now) (Step.Push parts.now) }
    {
        parts
            .as_slice()
            .iter()
            .all(|part| self.is_idle(part.tag(), part.entries()))
    }

    // Entries are pushed on the listen with that tag, as one part: they show together. What is pushed
    // on a range shows where that supplies.
    fn take_on(&mut self, tag: u64, entries: &[(Path, Tree)]) -> Result<StepNews, AllocError>
        requires { IsReady self.old (Step.Push ((tag, entries.now) ∷ [])) }
        ensures { IfOk result (λ told. Makes self.old (Step.Push ((tag, entries.now) ∷ [])) self.new told) }
    {
        // For the prover: what such a step leaves, what may be pushed, and whom nothing is told.
        push_law();
        pushed_law();
        stay_law();
        brought_law();
        touch_law();
        note_law();
        let alloc = self.alloc();
        put_on(&mut self.brought, &self.cover, tag, entries)?;
        let range = range_at(&self.cover, tag);
        let mut notes = Vec::new(alloc);
        let pending = self.requests.pending();
        self.listeners
            .refresh(range, entries, &self.brought, pending, &mut notes)?;
        Ok(StepNews { given: None, notes })
    }

    // Parts are pushed, each on the listen with its tag: they show together.
    pub(crate) fn take_push(&mut self, parts: Parts) -> Result<StepNews, AllocError>
        requires { IsReady self.old (Step.Push parts) }
        ensures { IfOk result (λ told. Makes self.old (Step.Push parts) self.new told) }
    {
        if let [part] = parts.as_slice() {
            return self.take_on(part.tag(), part.entries().as_slice());
        }
        // For the prover: what such a step leaves, what may be pushed, and whom nothing is told.
        push_law();
        pushed_law();
        stay_law();
        brought_law();
        touch_law();
        note_law();
        let alloc = self.alloc();
        put_parts(&mut self.brought, &self.cover, parts.as_slice())?;
        let entries = entries_pushed(alloc, parts)?;
        let mut notes = Vec::new(alloc);
        let pending = self.requests.pending();
        self.listeners
            .refresh(None, &entries, &self.brought, pending, &mut notes)?;
        Ok(StepNews { given: None, notes })
    }

    // Several trees are pushed on one listen, as a part alone.
    pub(crate) fn take_merge(&mut self, tag: u64, entries: Entries) -> Result<StepNews, AllocError>
        requires { IsReady self.old (Step.DataMerge tag entries) }
        ensures { IfOk result (λ told. Makes self.old (Step.DataMerge tag entries) self.new told) }
    {
        self.take_on(tag, entries.as_slice())
    }

    // A tree is pushed at a path: its entry alone is the part.
    pub(crate) fn take_data(
        &mut self,
        tag: u64,
        path: Path,
        tree: Tree,
    ) -> Result<StepNews, AllocError>
        requires { IsReady self.old (Step.Data tag path tree) }
        ensures { IfOk result (λ told. Makes self.old (Step.Data tag path tree) self.new told) }
    {
        let entry = (path, tree);
        self.take_on(tag, from_ref(&entry))
    }
}
