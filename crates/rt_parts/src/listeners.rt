// The registered listeners.
ghost use Rattle.std.specs.Prelude.{◌≡◌, ◌≢◌, ◌==◌, ◌↔◌, ◌&&◌, ◌<◌, ◌++◌, ◌∷◌, [], not, map, ℕ, length};
ghost use Rattle.std.specs.Prelude.{IsTrue, IsOk, IfOk, OnOk, OnErr, None, Err, ◌≤◌, false, is_some, Some};
ghost use Rattle.std.specs.List.{All, filter, find, list_any, position, zip, AllPairs};
ghost use Rattle.std.specs.Option.{option_copied, option_to_list, option_map, option_map_or};
ghost use Rattle.rt_query.specs.Queries.{Query};
ghost use Rattle.rt_query.specs.QueryEq.{query_eq};
ghost use Rattle.rt_query.specs.Supply.{does_supply, form};
ghost use Rattle.rt_cache.specs.Recover.{is_among};
ghost use Rattle.rt_world.specs.Answers.{view_before};
ghost use Rattle.rt_world.specs.Met.{told, seeing};
ghost use Rattle.rt_world.specs.After.{renewed};
ghost use Rattle.rt_parts.specs.Listeners.{cancelled_note, counts_left, first_view_of, new_listener};
ghost use Rattle.rt_parts.specs.Listeners.{no_listeners, views_left, count_with};
ghost use Rattle.rt_parts.specs.Refreshed.{FollowNamed, all_told_heard, count_heard, renewed_heard};
ghost use Rattle.rt_parts.specs.Refreshed.{view_heard};
ghost use Rattle.rt_parts.specs.Renewed.{all_told_of, count_of, is_listened_at, renewed_of, view_of};
ghost use Rattle.rt_tree.specs.PathTree.{levels};
ghost use Rattle.rt_query.specs.Select.{select};
ghost use Rattle.rt_view.specs.Changes.{changes};
ghost use Rattle.rt_view.specs.Views.{stays_object, touched, told as told_of};
ghost use Rattle.rt_parts.specs.inside.HeldView.{IsHeld, listener_of, shown_in, view_over};

use crate::entries::numbers_in;
use crate::error::ShownError;
use crate::hearers::{numbers_supplied, pairs_handed};
use crate::places::{ListenerPlace, insert_place, push_at};
use crate::renewal::{
    end_listened, end_number, end_seat, in_order, numbers_at, numbers_of_form, queries_of,
    renew_all, tell_ends,
};
use crate::views::{numbers_of, refresh, renew, shown};
use rt_cache::Brought;
use rt_query::{Query, Shown};
use rt_tree::{Key, MAX_KEYS, Path, Tree};
use rt_view::{ChangeList, View};
use rt_wire::Reason;
use rt_world::Note;
use rt_writes::Pending;
use std::alloc::{AllocError, Global};
use std::marker::Model;
use std::mem::replace;

/// The registered listeners, by number. A listener gets a view once something is known for its
/// query, and keeps it. Each is in memory of its own, so that one that ends moves a pointer of each
/// behind it. Beside them stand their places, by path, so that those that a step meets are found by
/// halving.
pub struct Listeners {
    held: Vec<BoxedListener>,
    places: Vec<ListenerPlace>,
}

impl Drop for Listeners {
    fn drop(self) {
        let Listeners { held: _, places: _ } = self;
    }
}

impl Model for Listeners {
    ghost use Rattle.rt_parts.specs.Listeners as what;

    ghost Value = { what.Listeners };

    ghost use Rattle.rt_parts.specs.inside.HeldView.{all_of, AreHeld};
    ghost use Rattle.rt_parts.specs.inside.Placed.{IsIndex};

    ghost view = { λ a. all_of a.held.items };

    ghost invariant = { λ a. AreHeld a.held.items × IsIndex a.held.items a.places.items };
}

impl Listeners {
    /// No listener.
    pub fn new(alloc: Global) -> Listeners
        ensures { result ≡ no_listeners }
    {
        Listeners {
            held: Vec::new(alloc),
            places: Vec::new(alloc),
        }
    }

    /// How many listeners are registered.
    pub fn len(&self) -> usize
        ensures { result ≡ length self.now.listeners }
    {
        self.held.len()
    }

    /// Whether no listener is registered.
    pub fn is_empty(&self) -> bool
        ensures { IsTrue result ↔ (self.now ≡ no_listeners) }
    {
        self.held.is_empty()
    }

    /// Whether the seat has the listener of that number. Finds it by halving.
    pub fn is_seats(&self, seat: u64, number: u64) -> bool
        ensures { result ≡ list_any (λ l. l.number == number && l.seat == seat) self.now.listeners }
    {
        is_seats(&self.held, seat, number)
    }

    /// Where the listener of that number stands among all, which count from 0. Finds it by halving.
    pub fn place_of(&self, number: u64) -> Option<usize>
        ensures { result ≡ position (λ l. l.number == number) self.now.listeners }
    {
        place_of(&self.held, number)
    }

    /// Takes anew what the entries meet, and tells the seats what changes. A view below whose path
    /// all of them lie is touched with the children that they name, where an object stays, and costs
    /// by these; any other view that one meets is taken from scratch, and a listener without one gets
    /// its first, where something is known for it. No other listener is looked at: the path of an entry is
    /// found among theirs by halving, and those that it meets are found from there. Of each the entries
    /// that meet it are looked at, and no others.
    ///
    /// `range` is the range on whose listen all of them are pushed, if they are pushed so. Then the
    /// listeners of its path that it supplies hear of them, and no others do. Each listener of the path
    /// is asked by one comparison of ranges, and those that don't hear of the entries keep their views
    /// and their counts.
    ///
    /// # Errors
    ///
    /// Want of memory. The listeners are gone then, and some seats may be told.
    pub fn refresh(
        &mut self,
        range: Option<&Query>,
        entries: &[(Path, Tree)],
        brought: &Brought,
        pending: &Pending,
        notes: &mut Vec<Note>,
    ) -> Result<(), AllocError>
        requires follow { FollowNamed entries.now brought.now pending.now self.old }
        ensures listeners { OnOk result (self.new.listeners
            ≡ map (renewed_heard (option_copied range.entry) entries.now brought.now pending.now)
            self.old.listeners) }
        ensures views { OnOk result (self.new.views
            ≡ map (view_heard (option_copied range.entry) entries.now brought.now pending.now)
            (zip self.old.listeners self.old.views)) }
        ensures notes { OnOk result (notes.new.items ≡ notes.old.items
            ++ all_told_heard (option_copied range.entry) entries.now brought.now pending.now
            self.old.listeners) }
        ensures gives_up { OnErr result (self.new ≡ no_listeners) }
        ensures counts { OnOk result (self.new.counts
            ≡ map (count_heard (option_copied range.entry) entries.now brought.now pending.now)
            (zip (zip self.old.listeners self.old.views) self.old.counts)) }
    {
        let alloc = *self.held.allocator();
        let mut held = replace(&mut self.held, Vec::new(alloc));
        let places = replace(&mut self.places, Vec::new(alloc));
        let pairs = pairs_handed(alloc, &held, &places, range, entries)?;
        let numbers = numbers_in(alloc, &pairs)?;
        refresh(
            held.as_mut_slice(),
            &numbers,
            entries,
            &pairs,
            brought,
            pending,
            notes,
        )?;
        self.held = held;
        self.places = places;
        Ok(())
    }

    /// Takes the views of the listeners of these queries from scratch, and tells the seats what changes; a
    /// listener without a view gets its first, where something is known for it. No other listener is
    /// renewed: those at the paths of the queries are found by halving, and are alone looked at. Where
    /// there is no query it takes no memory.
    ///
    /// # Errors
    ///
    /// Want of memory. The listeners are gone then, and some seats may be told.
    pub fn renew(
        &mut self,
        queries: &[Query],
        brought: &Brought,
        pending: &Pending,
        notes: &mut Vec<Note>,
    ) -> Result<(), AllocError>
        ensures listeners { OnOk result (self.new.listeners
            ≡ map (renewed_of queries.now brought.now pending.now) self.old.listeners) }
        ensures views { OnOk result (self.new.views
            ≡ map (view_of queries.now brought.now pending.now)
            (zip self.old.listeners self.old.views)) }
        ensures notes { OnOk result (notes.new.items ≡ notes.old.items
            ++ all_told_of queries.now brought.now pending.now self.old.listeners) }
        ensures gives_up { OnErr result (self.new ≡ no_listeners) }
        ensures none { queries.now ≡ [] → IsOk result }
        ensures counts { OnOk result (self.new.counts
            ≡ map (count_of queries.now brought.now pending.now)
            (zip (zip self.old.listeners self.old.views) self.old.counts)) }
    {
        let alloc = *self.held.allocator();
        if queries.is_empty() {
            return Ok(());
        }
        let mut held = replace(&mut self.held, Vec::new(alloc));
        let places = replace(&mut self.places, Vec::new(alloc));
        let ordered = in_order(alloc, queries)?;
        let numbers = numbers_at(alloc, &places, &ordered)?;
        renew_all(
            held.as_mut_slice(),
            &numbers,
            &ordered,
            brought,
            pending,
            notes,
        )?;
        self.held = held;
        self.places = places;
        Ok(())
    }

    /// Adds a listener. It gets its first view where something is known for its query, and its seat
    /// is told.
    ///
    /// # Errors
    ///
    /// Want of memory. The listeners stay as they were; the seat may be told all the same.
    pub fn add(
        &mut self,
        number: u64,
        seat: u64,
        query: Query,
        brought: &Brought,
        pending: &Pending,
        notes: &mut Vec<Note>,
    ) -> Result<(), AllocError>
        requires above { All (λ l. l.number < number) self.old.listeners }
        ensures listeners { OnOk result (self.new.listeners ≡ self.old.listeners
            ++ renewed brought.now pending.now (new_listener number seat query) ∷ []) }
        ensures views { OnOk result (self.new.views ≡ self.old.views
            ++ first_view_of brought.now pending.now query ∷ []) }
        ensures notes { OnOk result (notes.new.items ≡ notes.old.items
            ++ option_to_list (told brought.now pending.now (new_listener number seat query))) }
        ensures unchanged { OnErr result (self.new ≡ self.old) }
        ensures counts { OnOk result
            ((count : ℕ) × (self.new.counts ≡ self.old.counts ++ count ∷ [])) }
    {
        let path = query.path().copy()?;
        let listener = first(number, seat, query, brought, pending, notes)?;
        self.places.reserve(1)?;
        self.held.push(listener)?;
        insert_place(&mut self.places, ListenerPlace { path, number, seat });
        Ok(())
    }

    /// Takes the listener of that number out, if it is registered. Finds it by halving, and takes
    /// no memory.
    pub fn remove(&mut self, number: u64)
        ensures listeners { self.new.listeners
            ≡ filter (λ l. not (l.number == number)) self.old.listeners }
        ensures views { self.new.views ≡ views_left (λ l. not (l.number == number)) self.old }
        ensures counts { self.new.counts ≡ counts_left (λ l. not (l.number == number)) self.old }
    {
        end_number(&mut self.held, &mut self.places, number);
    }

    /// Takes all listeners of the seat out. Takes no memory.
    pub fn close(&mut self, seat: u64)
        ensures listeners { self.new.listeners
            ≡ filter (λ l. not (l.seat == seat)) self.old.listeners }
        ensures views { self.new.views ≡ views_left (λ l. not (l.seat == seat)) self.old }
        ensures counts { self.new.counts ≡ counts_left (λ l. not (l.seat == seat)) self.old }
    {
        end_seat(&mut self.held, &mut self.places, seat);
    }

    /// Takes the listeners out that this form is listened to for, since it is revoked, and tells
    /// their seats why, by number. Those at the form's path are found by halving, and are alone looked
    /// at, unless many have the form.
    ///
    /// # Errors
    ///
    /// Want of memory. The listeners stay as they were; some seats may be told all the same.
    pub fn cancel(
        &mut self,
        listened: &Query,
        why: &Reason,
        notes: &mut Vec<Note>,
    ) -> Result<(), AllocError>
        ensures listeners { OnOk result (self.new.listeners
            ≡ filter (λ l. not (query_eq (form l.query) listened.now)) self.old.listeners) }
        ensures views { OnOk result (self.new.views
            ≡ views_left (λ l. not (query_eq (form l.query) listened.now)) self.old) }
        ensures notes { OnOk result (notes.new.items ≡ notes.old.items
            ++ map (cancelled_note why.now)
            (filter (λ l. query_eq (form l.query) listened.now) self.old.listeners)) }
        ensures unchanged { OnErr result (self.new ≡ self.old) }
        ensures counts { OnOk result (self.new.counts
            ≡ counts_left (λ l. not (query_eq (form l.query) listened.now)) self.old) }
    {
        let alloc = *self.held.allocator();
        let numbers = numbers_of_form(alloc, &self.held, &self.places, listened)?;
        tell_ends(&self.held, &numbers, why, notes)?;
        end_listened(&mut self.held, &mut self.places, &numbers, listened);
        Ok(())
    }

    /// The numbers of the seat's listeners, which rise. An `Err` is want of memory.
    pub fn numbers_of(&self, alloc: Global, seat: u64) -> Result<Vec<u64>, AllocError>
        ensures { IfOk result (λ numbers. numbers.items
            ≡ map (λ l. l.number) (filter (λ l. l.seat == seat) self.now.listeners)) }
    {
        numbers_of(alloc, &self.held, seat)
    }

    /// The filtered queries of the path that have listeners, each once. The listeners of the path are
    /// found by halving, and are alone looked at. An `Err` is want of memory.
    pub fn queries_at(&self, alloc: Global, path: &Path) -> Result<Vec<Query>, AllocError>
        ensures { IfOk result (λ queries. (q : Query) → is_among queries.items q
            ≡ is_listened_at self.now.listeners path.now q) }
    {
        let mut numbers = Vec::new(alloc);
        push_at(&mut numbers, &self.places, path.keys())?;
        queries_of(alloc, &self.held, &numbers, path)
    }

    /// The filtered queries of the range's path that have listeners and that the range supplies, each
    /// once. The listeners of the path are found by halving, and each of them is asked by one comparison
    /// of ranges. An `Err` is want of memory.
    pub fn queries_supplied(&self, alloc: Global, range: &Query) -> Result<Vec<Query>, AllocError>
        ensures { IfOk result (λ queries. (q : Query) → is_among queries.items q
            ≡ (is_listened_at self.now.listeners range.now.path q && does_supply range.now q)) }
    {
        let numbers = numbers_supplied(alloc, &self.held, &self.places, range)?;
        queries_of(alloc, &self.held, &numbers, range.path())
    }

    /// What the view of the listener of that number shows; `None` where it has none yet. The trees
    /// are shared, and it costs by the rows.
    ///
    /// # Errors
    ///
    /// `NoListener` where no listener has that number; `NoMemory` where it has a view.
    pub fn shown(&self, number: u64) -> Result<Option<Shown>, ShownError>
        ensures shown { IfOk result (λ shown. shown ≡ view_before self.now.listeners number) }
        ensures unknown { (result ≡ Err ShownError.NoListener)
            ↔ (find (λ l. l.number == number) self.now.listeners ≡ None) }
        ensures memory { result ≡ Err ShownError.NoMemory
            → view_before self.now.listeners number ≢ None }
    {
        shown(&self.held, number)
    }
}

// ---- registered listeners, by number, and what each keeps of its view

// A registered listener; it has a view once it is primed, and counts how many children were taken anew
// for that, modulo 2^64. Nothing but the calls of this file changes the two: none of them throws a view
// away, and each adds to the count what it takes.
pub(crate) struct HeldListener {
    pub(crate) number: u64,
    pub(crate) seat: u64,
    pub(crate) query: Query,
    view: Option<View>,
    count: u64,
}

impl Drop for HeldListener {
    fn drop(self) {
        let HeldListener {
            number: _,
            seat: _,
            query: _,
            view: _,
            count: _,
        } = self;
    }
}

// A listener in memory of its own, so that a list of listeners moves a pointer of each.
pub(crate) struct BoxedListener {
    pub(crate) held: Box<HeldListener>,
}

impl Drop for BoxedListener {
    fn drop(self) {
        let BoxedListener { held: _ } = self;
    }
}

impl Model for BoxedListener {
    ghost use Rattle.rt_parts.specs.declared.listeners.HeldListener.{HeldListener};

    ghost Value = { HeldListener };

    ghost view = { λ a. a.held.value };
}

impl BoxedListener {
    // Its number.
    pub(crate) fn number(&self) -> u64
        ensures { result ≡ self.now.number }
    {
        self.held.number
    }

    // Its seat.
    pub(crate) fn seat(&self) -> u64
        ensures { result ≡ self.now.seat }
    {
        self.held.seat
    }

    // What it listens to.
    pub(crate) fn query(&self) -> &Query
        ensures { result.now ≡ self.now.query }
    {
        &self.held.query
    }
}

// A listener with no view. Where its count begins is nowhere told: no listener that is made anew stands
// for one that is thrown away.
pub(crate) fn unprimed(
    alloc: Global,
    number: u64,
    seat: u64,
    query: Query,
) -> Result<BoxedListener, AllocError>
    ensures number { IfOk result (λ l. l.number ≡ number) }
    ensures seat { IfOk result (λ l. l.seat ≡ seat) }
    ensures query { IfOk result (λ l. l.query ≡ query) }
    ensures view { IfOk result (λ l. l.view ≡ None) }
{
    let listener = HeldListener {
        number,
        seat,
        query,
        view: None,
        count: 0,
    };
    Ok(BoxedListener {
        held: Box::new(alloc, listener)?,
    })
}

// Whether the listener has a view.
pub(crate) fn is_primed(listener: &HeldListener) -> bool
    ensures { result ≡ is_some listener.now.view }
{
    listener.view.is_some()
}

// What its view shows, if it has one.
pub(crate) fn shown_of(listener: &BoxedListener) -> Result<Option<Shown>, AllocError>
    requires { IsHeld listener.now }
    ensures shown { IfOk result (λ shown. shown ≡ shown_in listener.now.view) }
    ensures memory { OnErr result (shown_in listener.now.view ≢ None) }
{
    match &listener.held.view {
        Some(view) => match view.shown() {
            Ok(shown) => Ok(Some(shown)),
            Err(_) => Err(AllocError),
        },
        None => Ok(None),
    }
}

// Whether its view stays an object once these children are put into it; without a view it does not.
pub(crate) fn stays_object(listener: &HeldListener, named: &[(Key, Tree)]) -> bool
    ensures { result ≡ option_map_or (λ v. stays_object v.tree named.now) listener.now.view false }
{
    match &listener.view {
        Some(view) => view.stays_object(named),
        None => false,
    }
}

// The listener sees that tree from now on: the changes of its view.
pub(crate) fn show(listener: &mut HeldListener, seen: Tree) -> Result<ChangeList, AllocError>
    requires { IsHeld listener.old }
    ensures view { OnOk result (listener_of listener.new ≡ seeing seen (listener_of listener.old)) }
    ensures held { OnOk result (IsHeld listener.new) }
    ensures number { listener.new.number ≡ listener.old.number }
    ensures taken { OnOk result (listener.new.view
        ≡ Some (view_over listener.old.query seen listener.old.view)) }
    ensures changes { IfOk result (λ list. list
        ≡ changes listener.old.query.index (shown_in listener.old.view)
        (select listener.old.query seen)) }
    ensures count { OnOk result
        (listener.new.count ≡ count_with listener.old.count listener.new.view) }
{
    let alloc = listener.query.path().allocator();
    if let Some(view) = &mut listener.view {
        return match view.renew(alloc, seen) {
            Ok(changes) => {
                listener.count = listener.count.wrapping_add(view.reads());
                Ok(changes)
            }
            Err(_) => Err(AllocError),
        };
    }
    let query = listener.query.copy()?;
    let (view, changes) = View::first(alloc, query, seen)?;
    listener.count = listener.count.wrapping_add(view.reads());
    listener.view = Some(view);
    Ok(changes)
}

// Puts these children into the listener's view, which it has: the changes of the view.
pub(crate) fn touch(
    listener: &mut HeldListener,
    named: Vec<(Key, Tree)>,
) -> Result<ChangeList, AllocError>
    requires held { IsHeld listener.old }
    requires levels { All (λ c. levels c.1 ≤ MAX_KEYS) named.items }
    ensures listener { OnOk result (listener.new ≡ record listener.old {
      view =
          option_map (λ v. touched v named.items) listener.old.view;
      count =
          count_with listener.old.count
          (option_map (λ v. touched v named.items) listener.old.view);
    }) }
    ensures number { listener.new.number ≡ listener.old.number }
    ensures changes { IfOk result (λ list. (v : View) → listener.old.view ≡ Some v
        → list ≡ told_of v (touched v named.items)) }
{
    let alloc = *named.allocator();
    let Some(view) = &mut listener.view else {
        drop(named);
        return Err(AllocError);
    };
    match view.touch(alloc, named) {
        Ok(changes) => {
            listener.count = listener.count.wrapping_add(view.reads());
            Ok(changes)
        }
        Err(_) => Err(AllocError),
    }
}

// Where the listener of that number stands, if it is registered, by halving.
pub(crate) fn place_of(listeners: &[BoxedListener], number: u64) -> Option<usize>
    requires { AllPairs (λ l m. l.number < m.number) listeners.now }
    ensures { result ≡ position (λ l. l.number == number) listeners.now }
{
    let place = listeners.partition_point(|listener| listener.number() < number);
    if place == listeners.len() {
        return None;
    }
    if listeners[place].number() == number {
        Some(place)
    } else {
        None
    }
}

// Whether the listener of that number is the seat's.
pub(crate) fn is_seats(listeners: &[BoxedListener], seat: u64, number: u64) -> bool
    requires { AllPairs (λ l m. l.number < m.number) listeners.now }
    ensures { result ≡ list_any (λ l. l.number == number && l.seat == seat) listeners.now }
{
    match place_of(listeners, number) {
        Some(place) => listeners[place].seat() == seat,
        None => false,
    }
}

// ---- a listener that is added

// A new listener, with its first view where something is known for its query; its seat is told.
pub(crate) fn first(
    number: u64,
    seat: u64,
    query: Query,
    brought: &Brought,
    pending: &Pending,
    notes: &mut Vec<Note>,
) -> Result<BoxedListener, AllocError>
    ensures listener { IfOk result (λ l. listener_of l
        ≡ renewed brought.now pending.now (new_listener number seat query)) }
    ensures held { IfOk result (λ l. IsHeld l) }
    ensures number { IfOk result (λ l. l.number ≡ number) }
    ensures view { IfOk result (λ l. l.view ≡ first_view_of brought.now pending.now query) }
    ensures notes { OnOk result (notes.new.items ≡ notes.old.items
        ++ option_to_list (told brought.now pending.now (new_listener number seat query))) }
{
    let alloc = query.path().allocator();
    let mut listener = unprimed(alloc, number, seat, query)?;
    renew(&mut listener.held, brought, pending, notes)?;
    Ok(listener)
}
