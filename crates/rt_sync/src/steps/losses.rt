// What was brought is lost where listeners end.
ghost use Rattle.std.specs.Prelude.{◌≡◌, map, IfOk, OnOk, ◌≤◌, ◌&&◌, ◌||◌, Bool, true, false, length, Some};
ghost use Rattle.std.specs.Prelude.{None};
ghost use Rattle.std.specs.List.{list_any};
ghost use Rattle.std.specs.List.Sorted.{IsPartitionPoint, IsSorted};
ghost use Rattle.std.specs.Ordering.{is_lt};
ghost use Rattle.std.specs.Option.{option_map};
ghost use Rattle.rt_cache.specs.Recover.{recover, is_among};
ghost use Rattle.rt_cover.specs.State.{Cover, difference, ended_by, listen_at, revoke_fault, revoked};
ghost use Rattle.rt_cover.specs.State.{without_tag};
ghost use Rattle.rt_world.specs.World.{listening};
ghost use Rattle.rt_sync.specs.inside.Losing.{forms_at, places_at, is_ended, HasLost, AreMoved};
ghost use Rattle.rt_tree.specs.PathTree.{Path, path_eq};
ghost use Rattle.rt_query.specs.Queries.{Query};
ghost use Rattle.rt_query.specs.QueryEq.{query_eq};
ghost use Rattle.rt_cache.specs.Brought.{Brought as Known, may_move};
ghost use Rattle.rt_parts.specs.Refreshed.{is_supplied_at};
ghost use Rattle.rt_parts.specs.Renewed.{is_listened_at};
ghost use Rattle.rt_sync.specs.inside.Moving.{is_of_path, has_others, is_lent, is_had, HaveSources, AreHad};
ghost use Rattle.rt_sync.specs.inside.Moving.{has_come, had_cmp, had_of, is_moved_now, is_moved_among};

use crate::state::{State, StepNews, send_change};
use rt_cache::Brought;
use rt_cover::{Cover, Delta, Kept, Revoked, apart_law};
use rt_parts::Listeners;
use rt_query::{Query, query_cmp};
use rt_tree::Path;
use rt_world::{
    CoreError, Reason, covered_law, following_law, listened_law, sound_law, stay_law, tag_law,
};
use std::alloc::{AllocError, Global};
use std::cmp::Ordering;

// The forms of these listeners.
pub(crate) fn forms_of(
    alloc: Global,
    cover: &Cover,
    numbers: &[u64],
) -> Result<Vec<Query>, AllocError>
    ensures { IfOk result (λ forms. forms.items ≡ forms_at cover.now.listeners numbers.now) }
{
    let mut forms = Vec::new(alloc);
    for number in numbers {
        if let Some(form) = cover.form_of(*number) {
            forms.push(form.copy()?)?;
        }
    }
    Ok(forms)
}

// Where these listeners stand among all.
fn places_of(
    alloc: Global,
    listeners: &Listeners,
    numbers: &[u64],
) -> Result<Vec<usize>, AllocError>
    ensures { IfOk result (λ places. places.items
        ≡ places_at listeners.now.listeners numbers.now) }
{
    let mut places = Vec::new(alloc);
    for number in numbers {
        if let Some(place) = listeners.place_of(*number) {
            places.push(place)?;
        }
    }
    Ok(places)
}

// The forms of these listens.
fn forms_kept(alloc: Global, listens: &[Kept]) -> Result<Vec<Query>, AllocError>
    ensures { IfOk result (λ forms. forms.items ≡ map (λ k. k.query) listens.now) }
{
    let mut forms = Vec::new(alloc);
    for listen in listens {
        forms.push(listen.query.copy()?)?;
    }
    Ok(forms)
}

// Whether the form ends: no listener has it, and no kept listen supplies it, if it is plain.
fn is_ended(cover: &Cover, form: &Query) -> bool
    ensures { result ≡ is_ended cover.now form.now }
{
    !cover.has_form(form) && (form.is_filtered() || cover.supplier(form).is_none())
}

// What no kept listen reaches any more is lost, where the listeners of these numbers end, whose forms
// are among the ended ones. The listeners stand as before, and the cover is the one without them.
fn lose(
    brought: &mut Brought,
    listeners: &Listeners,
    cover: &Cover,
    numbers: &[u64],
    mut ended: Vec<Query>,
    delta: &Delta,
) -> Result<(), AllocError>
    requires { (was : Cover) × HasLost was cover.now numbers.now listeners.now.listeners ended.items
        delta.now brought.old }
    ensures { OnOk result (brought.new
        ≡ recover (listening cover.now.listeners) (map (λ k. k.form) cover.now.kept) brought.old) }
{
    // For the prover: of the plain listens kept none is at or above another.
    apart_law();
    let alloc = *ended.allocator();
    ended.retain(|form| is_ended(cover, form));
    let places = places_of(alloc, listeners, numbers)?;
    let begun = forms_kept(alloc, delta.started.as_slice())?;
    brought.unregister(&places, &ended, &begun)
}

// The same, and the queries that are moved by it: those that had another form's window, and have one now
// that doesn't come from it.
pub(crate) fn lose_ended(
    brought: &mut Brought,
    listeners: &Listeners,
    cover: &Cover,
    numbers: &[u64],
    ended: Vec<Query>,
    delta: &Delta,
) -> Result<Vec<Query>, AllocError>
    requires { (was : Cover) × HasLost was cover.now numbers.now listeners.now.listeners ended.items
        delta.now brought.old }
    ensures brought { OnOk result (brought.new
        ≡ recover (listening cover.now.listeners) (map (λ k. k.form) cover.now.kept) brought.old) }
    ensures moved { IfOk result (λ moved. AreMoved cover.now brought.old brought.new moved.items) }
{
    // For the prover: of the plain listens kept none is at or above another.
    apart_law();
    let alloc = *ended.allocator();
    let had = had_beside(alloc, brought, listeners, &ended)?;
    lose(brought, listeners, cover, numbers, ended, delta)?;
    moved(alloc, brought, &had)
}

// ---- which queries a change of the cover moves: those that had another form's window, and have
// one now that doesn't come from it

// A query that had another form's window, and that form.
#[derive(Drop)]
pub(crate) struct Had {
    query: Query,
    source: Query,
}

// ---- where queries may be moved

// Adds the form, if its listener's end may move others.
fn push_mover(movers: &mut Vec<Query>, brought: &Brought, form: &Query) -> Result<(), AllocError>
    ensures { OnOk result ((t : Query → Bool) → list_any t movers.new.items
        ≡ (list_any t movers.old.items || (may_move brought.now form.now && t form.now))) }
{
    if !brought.may_move(form) {
        return Ok(());
    }
    movers.push(form.copy()?)?;
    Ok(())
}

// Of the forms whose listeners end those that may move others.
fn movers(alloc: Global, brought: &Brought, ended: &[Query]) -> Result<Vec<Query>, AllocError>
    ensures { IfOk result (λ movers. (t : Query → Bool) → list_any t movers.items
        ≡ list_any (λ f. may_move brought.now f && t f) ended.now) }
{
    let mut movers = Vec::new(alloc);
    for form in ended {
        push_mover(&mut movers, brought, form)?;
    }
    Ok(movers)
}

// Of forms of one path all but one go.
fn take_one_of_each_path(forms: &mut Vec<Query>)
    ensures { (p : Path) → is_of_path forms.new.items p ≡ is_of_path forms.old.items p }
{
    forms.sort_unstable_by(|one, other| one.path().cmp(other.path()));
    forms.dedup_by(|one, other| one.path() == other.path());
}

// ---- what queries had

// Adds the query with the form whose window it has, if that is another one.
fn push_had(had: &mut Vec<Had>, brought: &Brought, query: &Query) -> Result<(), AllocError>
    ensures those { OnOk result ((q : Query) → is_had had.new.items q
        ≡ (is_had had.old.items q || (query_eq query.now q && has_others brought.now q))) }
    ensures sources { OnOk result (HaveSources brought.now had.old.items
        → HaveSources brought.now had.new.items) }
{
    let Some(source) = brought.source(query) else {
        return Ok(());
    };
    if source == query {
        return Ok(());
    }
    let source = source.copy()?;
    let query = query.copy()?;
    had.push(Had { query, source })?;
    Ok(())
}

// Adds those of these queries.
fn push_all(had: &mut Vec<Had>, brought: &Brought, queries: &[Query]) -> Result<(), AllocError>
    ensures those { OnOk result ((q : Query) → is_had had.new.items q
        ≡ (is_had had.old.items q || (is_among queries.now q && has_others brought.now q))) }
    ensures sources { OnOk result (HaveSources brought.now had.old.items
        → HaveSources brought.now had.new.items) }
{
    for query in queries {
        push_had(had, brought, query)?;
    }
    Ok(())
}

// Adds those of the path.
fn push_path(
    alloc: Global,
    had: &mut Vec<Had>,
    brought: &Brought,
    listeners: &Listeners,
    path: &Path,
) -> Result<(), AllocError>
    ensures those { OnOk result ((q : Query) → is_had had.new.items q
        ≡ (is_had had.old.items q || (is_listened_at listeners.now.listeners path.now q
        && has_others brought.now q))) }
    ensures sources { OnOk result (HaveSources brought.now had.old.items
        → HaveSources brought.now had.new.items) }
{
    let queries = listeners.queries_at(alloc, path)?;
    push_all(had, brought, &queries)
}

// Those of the paths of these forms.
fn had_at(
    alloc: Global,
    brought: &Brought,
    listeners: &Listeners,
    forms: &[Query],
) -> Result<Vec<Had>, AllocError>
    ensures those { IfOk result (λ had. (q : Query) → is_had had.items q
        ≡ (is_of_path forms.now q.path && is_lent brought.now listeners.now.listeners q)) }
    ensures sources { IfOk result (λ had. HaveSources brought.now had.items) }
{
    let mut had = Vec::new(alloc);
    for form in forms {
        push_path(alloc, &mut had, brought, listeners, form.path())?;
    }
    Ok(had)
}

// Those that the form supplies: by the end of its listeners alone no others are moved.
fn had_supplied(
    alloc: Global,
    brought: &Brought,
    listeners: &Listeners,
    form: &Query,
) -> Result<Vec<Had>, AllocError>
    ensures those { IfOk result (λ had. (q : Query) → is_had had.items q
        ≡ (is_supplied_at form.now q && is_lent brought.now listeners.now.listeners q)) }
    ensures sources { IfOk result (λ had. HaveSources brought.now had.items) }
{
    let queries = listeners.queries_supplied(alloc, form)?;
    let mut had = Vec::new(alloc);
    push_all(&mut had, brought, &queries)?;
    Ok(had)
}

// Those that one of these forms supplies, and perhaps others of their paths: of one form alone just those that
// it supplies, and of several all of their paths, each path once.
fn had_of(
    alloc: Global,
    brought: &Brought,
    listeners: &Listeners,
    mut forms: Vec<Query>,
) -> Result<Vec<Had>, AllocError>
    ensures only { IfOk result (λ had. (q : Query) → is_had had.items q ≡ true
        → (is_of_path forms.items q.path && is_lent brought.now listeners.now.listeners q) ≡ true) }
    ensures all { IfOk result (λ had. (q : Query) → (list_any (λ f. is_supplied_at f q) forms.items
        && is_lent brought.now listeners.now.listeners q) ≡ true → is_had had.items q ≡ true) }
    ensures sources { IfOk result (λ had. HaveSources brought.now had.items) }
{
    if forms.len() == 1 {
        return had_supplied(alloc, brought, listeners, &forms[0]);
    }
    take_one_of_each_path(&mut forms);
    had_at(alloc, brought, listeners, &forms)
}

// The order of two: by query, then by source.
fn had_order(one: &Had, other: &Had) -> Ordering
    ensures { result ≡ had_cmp one.now other.now }
{
    query_cmp(&one.query, &other.query).then(query_cmp(&one.source, &other.source))
}

// Sorts them.
fn sort_had(had: &mut Vec<Had>)
    ensures order { IsSorted had_cmp had.new.items }
    ensures same { (q : Query) → is_had had.new.items q ≡ is_had had.old.items q }
    ensures sources { (b : Known) → HaveSources b had.old.items → HaveSources b had.new.items }
{
    had.sort_unstable_by(|one, other| had_order(one, other));
}

// What may be moved where listeners of these forms end, in order: queries that have another form's window, at the
// paths of those forms that may move others, and all of them that one of these supplies. No other path is
// looked at.
pub(crate) fn had_beside(
    alloc: Global,
    brought: &Brought,
    listeners: &Listeners,
    ended: &[Query],
) -> Result<Vec<Had>, AllocError>
    ensures { IfOk result (λ had. AreHad brought.now listeners.now.listeners ended.now had.items) }
{
    let movers = movers(alloc, brought, ended)?;
    let mut had = had_of(alloc, brought, listeners, movers)?;
    sort_had(&mut had);
    Ok(had)
}

// ---- what is moved

// Whether it stands before the query with that source.
fn is_before(one: &Had, query: &Query, source: &Query) -> bool
    ensures { result ≡ is_lt (had_cmp one.now (had_of query.now source.now)) }
{
    query_cmp(&one.query, query)
        .then(query_cmp(&one.source, source))
        .is_lt()
}

// The first place before which all stand before the query with that source, by halving.
fn first_from(had: &[Had], query: &Query, source: &Query) -> usize
    requires { IsSorted had_cmp had.now }
    ensures within { result ≤ length had.now }
    ensures point { IsPartitionPoint
        (λ h. is_lt (had_cmp h (had_of query.now source.now)) ≡ true)
        (λ h. is_lt (had_cmp h (had_of query.now source.now)) ≡ false) had.now result }
{
    had.partition_point(|one| is_before(one, query, source))
}

// Whether it is the query with that source.
fn is_of(one: &Had, query: &Query, source: &Query) -> bool
    ensures { result ≡ (query_eq one.now.query query.now && query_eq one.now.source source.now) }
{
    one.query == *query && one.source == *source
}

// Whether the query had the window of that form, by halving.
fn has_come(had: &[Had], query: &Query, source: &Query) -> bool
    requires { IsSorted had_cmp had.now }
    ensures { result ≡ has_come had.now query.now source.now }
{
    let place = first_from(had, query, source);
    if place == had.len() {
        return false;
    }
    is_of(&had[place], query, source)
}

// Whether it has a window now that doesn't come from the one that it had.
fn is_moved(brought: &Brought, had: &[Had], one: &Had) -> bool
    requires { IsSorted had_cmp had.now }
    ensures { result ≡ is_moved_now brought.now had.now one.now }
{
    match brought.source(&one.query) {
        Some(source) => *source != one.source && !has_come(had, source, &one.source),
        None => false,
    }
}

// Adds its query, if it is moved.
fn push_moved(
    moved: &mut Vec<Query>,
    brought: &Brought,
    had: &[Had],
    one: &Had,
) -> Result<(), AllocError>
    requires { IsSorted had_cmp had.now }
    ensures { OnOk result ((q : Query) → is_among moved.new.items q
        ≡ (is_among moved.old.items q || (query_eq one.now.query q
        && is_moved_now brought.now had.now one.now))) }
{
    if !is_moved(brought, had, one) {
        return Ok(());
    }
    moved.push(one.query.copy()?)?;
    Ok(())
}

// The queries of those that are moved.
pub(crate) fn moved(alloc: Global, brought: &Brought, had: &[Had]) -> Result<Vec<Query>, AllocError>
    requires { IsSorted had_cmp had.now }
    ensures { IfOk result (λ moved. (q : Query) → is_among moved.items q
        ≡ is_moved_among brought.now had.now q) }
{
    let mut moved = Vec::new(alloc);
    for one in had {
        push_moved(&mut moved, brought, had, one)?;
    }
    Ok(moved)
}

// ---- the server ends a listen

// The form of the kept listen with that tag.
fn form_kept(cover: &Cover, tag: u64) -> Result<Query, AllocError>
    ensures { IfOk result (λ form.
        option_map (λ k. k.form) (listen_at cover.now tag) ≡ Some form) }
{
    match cover.form_at(tag) {
        Some(form) => form.copy(),
        None => Err(AllocError),
    }
}

// The listeners whose form is that of the listen with the tag are covered no more: their numbers, and
// what becomes of the other listens. Only memory can refuse.
fn uncover_revoked(cover: &mut Cover, tag: u64) -> Result<Revoked, AllocError>
    requires { revoke_fault cover.old tag ≡ None }
    ensures cover { OnOk result (cover.new ≡ revoked cover.old tag) }
    ensures ended { IfOk result (λ done. done.ended ≡ ended_by cover.old tag) }
    ensures delta { IfOk result (λ done. done.delta
        ≡ without_tag tag (difference cover.old (revoked cover.old tag))) }
{
    match cover.revoke(tag) {
        Ok(done) => Ok(done),
        Err(_) => Err(AllocError),
    }
}

impl State {
    ghost use Rattle.rt_world.specs.declared.step.Step.TheVariants as Step;
    ghost use Rattle.rt_world.specs.World.{Reason};
    ghost use Rattle.rt_world.specs.Refusals.{is_stale, needs_tag, refusal};
    ghost use Rattle.rt_sync.specs.inside.StateView.{world_of};
    ghost use Rattle.rt_sync.specs.inside.States.{HoldsWell, IsReady, Makes};

    // Whether the end of the listen would need a tag above the last one.
    fn lacks_tag_to_revoke(&self, tag: u64) -> bool
        requires { HoldsWell self.now }
        ensures { (why : Reason) → result ≡ needs_tag (world_of self.now) (Step.Revoked tag why) }
    {
        // For the prover: when a step lacks a tag, and that no listen changes where no listener ends.
        tag_law();
        stay_law();
        self.cover.lacks_tag_to_revoke(tag)
    }

    // Why the listen can't end.
    pub(crate) fn revoke_refusal(&self, tag: u64) -> Option<CoreError>
        requires { HoldsWell self.now }
        ensures { (why : Reason) → result ≡ refusal (world_of self.now) (Step.Revoked tag why) }
    {
        if !self.is_connected {
            return Some(CoreError::NotConnected);
        }
        if self.lacks_tag_to_revoke(tag) {
            return Some(CoreError::TooManyListeners);
        }
        None
    }

    // Whether no listen with that tag is kept.
    pub(crate) fn revoke_is_stale(&self, tag: u64) -> bool
        ensures { (why : Reason) → result ≡ is_stale (world_of self.now) (Step.Revoked tag why) }
    {
        match self.listen_of(tag) {
            Some(_) => false,
            None => true,
        }
    }

    // The server ends a listen: the listeners that it is the form of end, and their seats are told. Then
    // those are told whose views change since they are moved.
    pub(crate) fn revoke(&mut self, tag: u64, why: Reason) -> Result<StepNews, AllocError>
        requires { IsReady self.old (Step.Revoked tag why) }
        ensures { IfOk result (λ told. Makes self.old (Step.Revoked tag why) self.new told) }
    {
        // For the prover: what such a step leaves, and that the cover takes it.
        listened_law();
        covered_law();
        following_law();
        sound_law();
        let alloc = self.alloc();
        let form = form_kept(&self.cover, tag)?;
        let done = uncover_revoked(&mut self.cover, tag)?;
        let mut ended = Vec::new(alloc);
        ended.push(form.copy()?)?;
        let moved = lose_ended(
            &mut self.brought,
            &self.listeners,
            &self.cover,
            done.ended.as_slice(),
            ended,
            &done.delta,
        )?;
        let mut notes = Vec::new(alloc);
        self.listeners.cancel(&form, &why, &mut notes)?;
        let pending = self.requests.pending();
        self.listeners
            .renew(&moved, &self.brought, pending, &mut notes)?;
        send_change(&mut self.outgoing, self.is_connected, done.delta)?;
        Ok(StepNews { given: None, notes })
    }
}
