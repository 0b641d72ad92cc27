// The registered listeners, by number and by form.
ghost use Rattle.std.specs.Prelude.{◌≡◌, IfOk, ◌<◌, ◌+◌, ◌^◌, [], ◌&&◌, ◌==◌, true, false, ℕ, Bool, length};
ghost use Rattle.std.specs.Prelude.{vec_len, vec_capacity, OnOk, OnErr, ◌≤◌, ◌∷◌, ◌++◌, not, map, ◌||◌};
ghost use Rattle.std.specs.List.{find, list_any, All, AllPairs, filter};
ghost use Rattle.std.specs.Option.{option_copied, option_map_or};
ghost use Rattle.rt_query.specs.Supply.{form, does_supply};
ghost use Rattle.rt_tree.specs.PathTree.{path_eq};
ghost use Rattle.rt_tree.specs.Assignments.{is_at_or_above};
ghost use Rattle.rt_query.specs.Queries.{Query as QueryValue, plain, is_filtered};
ghost use Rattle.rt_query.specs.QueryEq.{query_eq};
ghost use Rattle.rt_forms.specs.Forms.{numbers, count};
ghost use Rattle.rt_forms.specs.Order.{AreInOrder};
ghost use Rattle.rt_cover.specs.State.{is_registered, with_listener, numbers_of, shown_with};
ghost use Rattle.rt_cover.specs.inside.Held.{IsHeld};
ghost use Rattle.rt_cover.specs.inside.Endings.{by_number, left};
ghost use Rattle.rt_cover.specs.inside.Places.{place, does_stand};
ghost use Rattle.rt_cover.specs.Cover.{forms, first_listener};
ghost use Rattle.rt_query.specs.Supply as Supply;

use crate::by_path::HasForm;
use crate::change::{EndedListeners, OfNumbers, retain_left, take_one};
use crate::listen::{Kept, Listen};
use crate::listens::Listens;
use crate::supply::is_first;
use rt_forms::{Filtered, Forms};
use rt_query::Query;
use rt_tree::Key;
use std::alloc::{AllocError, Global};
use std::marker::Model;
use std::sync::Arc;

// ---- registered listeners

// A registered listener, with the form that is listened to for it, which copies share.
pub(crate) struct Listener {
    number: u64,
    form: Arc<Query>,
}

impl Drop for Listener {
    fn drop(self) {
        let Listener { number: _, form: _ } = self;
    }
}

impl Model for Listener {
    ghost use Rattle.rt_cover.specs.Cover.{Registered};

    ghost Value = { Registered };

    ghost view = { λ a. (a.number, a.form.value) };
}

impl Listener {
    // A listener with a form.
    pub(crate) fn new(alloc: Global, number: u64, form: Query) -> Result<Listener, AllocError>
        ensures { IfOk result (λ listener. listener ≡ (number, form)) }
    {
        let form = Arc::new(alloc, form)?;
        Ok(Listener { number, form })
    }

    // Its number.
    pub(crate) fn number(&self) -> u64
        ensures { result ≡ self.now.0 }
    {
        self.number
    }

    // A listen of its form, which it shares.
    pub(crate) fn listen(&self, tag: u64) -> Result<Listen, AllocError>
        ensures { IfOk result (λ listen. listen ≡ record { tag = tag; form = self.now.1 }) }
    {
        let form = Arc::try_clone(&self.form)?;
        Ok(Listen::of(tag, form))
    }

    // An equal listener, which shares the form.
    pub(crate) fn copy(&self) -> Result<Listener, AllocError>
        ensures { IfOk result (λ listener. listener ≡ self.now) }
    {
        let form = Arc::try_clone(&self.form)?;
        Ok(Listener {
            number: self.number,
            form,
        })
    }
}

impl HasForm for Listener {
    ghost form_of = { λ l. l.1 };

    fn form(&self) -> &Query {
        &self.form
    }
}

// What is listened to for a query that is given away.
pub(crate) fn into_form(query: Query) -> Result<Query, AllocError>
    ensures { IfOk result (λ f. f ≡ form query) }
{
    if query.is_filtered() {
        Ok(query)
    } else {
        query.listening_form()
    }
}

// ---- the registered listeners, by number and by form

// The listeners, by number. Their numbers stand in a tree of forms beside that, where they are looked for.
pub(crate) struct Listeners {
    by_number: Vec<Listener>,
    forms: Forms,
}

impl Drop for Listeners {
    fn drop(self) {
        let Listeners {
            by_number: _,
            forms: _,
        } = self;
    }
}

impl Model for Listeners {
    ghost use Rattle.std.specs.Prelude.{List};
    ghost use Rattle.rt_cover.specs.Cover.{Registered};
    ghost use Rattle.rt_cover.specs.inside.Held.{IsHeld};

    ghost Value = { List Registered };

    ghost view = { λ a. a.by_number.items };

    ghost invariant = { λ a. IsHeld a.by_number.items a.forms };
}

// Takes the numbers of those that end out of the tree.
fn take_ended<E: EndedListeners>(forms: &mut Forms, listeners: &[Listener], ending: &E)
    requires rise { AllPairs (λ l m. l.0 < m.0) listeners.now }
    requires own { All (λ l. form l.1 ≡ l.1) listeners.now }
    requires held { IsHeld listeners.now forms.old }
    ensures { IsHeld (left (by_number (E.ended ending.now)) listeners.now) forms.new }
{
    for listener in listeners {
        if ending.ends(listener.number()) {
            forms.remove(listener.number(), listener.form());
        }
    }
}

impl Listeners {
    // No listener.
    pub(crate) fn new(alloc: Global) -> Listeners
        ensures { result ≡ [] }
    {
        Listeners {
            by_number: Vec::new(alloc),
            forms: Forms::new(alloc),
        }
    }

    // Equal listeners, which share the forms.
    pub(crate) fn copy(&self) -> Result<Listeners, AllocError>
        requires rise { AllPairs (λ l m. l.0 < m.0) self.now }
        requires own { All (λ l. form l.1 ≡ l.1) self.now }
        ensures { IfOk result (λ listeners. listeners ≡ self.now) }
    {
        let mut copy = Listeners::new(self.alloc());
        let by_number = self.as_slice();
        for listener in by_number {
            copy.insert(listener.copy()?)?;
        }
        Ok(copy)
    }

    // The allocator of its lists.
    pub(crate) fn alloc(&self) -> Global {
        *self.by_number.allocator()
    }

    // The listeners, by number.
    pub(crate) fn as_slice(&self) -> &[Listener]
        ensures { result.now ≡ self.now }
    {
        self.by_number.as_slice()
    }

    // Whether a listener of that number is registered, by halving.
    pub(crate) fn has(&self, number: u64) -> bool
        requires { AllPairs (λ l m. l.0 < m.0) self.now }
        ensures { result ≡ is_registered self.now number }
    {
        has_number(&self.by_number, number)
    }

    // The listener of that number, by halving.
    pub(crate) fn at(&self, number: u64) -> Option<&Listener>
        requires { AllPairs (λ l m. l.0 < m.0) self.now }
        ensures { option_copied result ≡ find (λ l. l.0 == number) self.now }
    {
        listener_at(&self.by_number, number)
    }

    // The numbers of the listeners of a form, in order. Costs by its path.
    pub(crate) fn numbers(&self, form: &Query) -> &[u64]
        requires { Supply.form form.now ≡ form.now }
        ensures { result.now ≡ numbers_of self.now form.now }
    {
        // For the prover: what the tree keeps.
        let _by_number = &self.by_number;
        self.forms.numbers(form)
    }

    // Whether one has the listening form of the query. Costs by its path.
    pub(crate) fn has_form(&self, query: &Query) -> bool
        ensures { result ≡ list_any (λ l. query_eq l.1 (form query.now)) self.now }
    {
        // For the prover: what the tree keeps.
        let _by_number = &self.by_number;
        !self.forms.numbers(query).is_empty()
    }

    // The numbers of those of a path's plain form, in order. Costs by the path.
    pub(crate) fn plain_numbers(&self, path: &[Key]) -> &[u64]
        ensures { result.now ≡ numbers_of self.now (plain path.now) }
    {
        // For the prover: what the tree keeps.
        let _by_number = &self.by_number;
        self.forms.plain_numbers(path)
    }

    // The filtered forms of a path that listeners have, with the numbers of theirs, in the order of
    // queries. Costs by the path.
    pub(crate) fn filtered_at(&self, path: &[Key]) -> &[Filtered]
        ensures forms { (s : QueryValue → Bool) (t : ℕ → Bool)
            → list_any (λ e. s e.0 && list_any t e.1) result.now
            ≡ list_any (λ l. (is_filtered l.1 && path_eq (l.1).path path.now) && (s l.1 && t l.0)) self.now }
        ensures order { AreInOrder result.now }
        ensures filtered { All (λ e. is_filtered e.0 ≡ true) result.now }
    {
        // For the prover: what the tree keeps.
        let _by_number = &self.by_number;
        self.forms.filtered_at(path)
    }

    // The numbers of those whose forms are at or under a path, in no order. Costs by the path and by them.
    pub(crate) fn numbers_under(&self, path: &[Key]) -> Result<Vec<u64>, AllocError>
        requires { All (λ l. form l.1 ≡ l.1) self.now }
        ensures { IfOk result (λ v. (t : ℕ → Bool) → list_any t v.items
            ≡ list_any (λ l. is_at_or_above path.now (l.1).path && t l.0) self.now) }
    {
        // For the prover: what the tree keeps.
        let _by_number = &self.by_number;
        let numbers = self.forms.numbers_under(self.alloc(), path)?;
        Ok(numbers)
    }

    // Registers a listener.
    pub(crate) fn insert(&mut self, listener: Listener) -> Result<(), AllocError>
        requires rise { AllPairs (λ l m. l.0 < m.0) self.old }
        requires free { is_registered self.old listener.0 ≡ false }
        requires own { form listener.1 ≡ listener.1 }
        ensures items { OnOk result (self.new ≡ with_listener self.old listener.0 listener.1) }
        ensures unchanged { OnErr result (self.new ≡ self.old) }
    {
        let alloc = self.alloc();
        self.by_number.reserve(1)?;
        self.forms.add(alloc, listener.number(), listener.form())?;
        insert_listener(&mut self.by_number, listener);
        Ok(())
    }

    // Takes out the listener of that number, found by halving. Costs by its path; words of others are moved.
    fn end_one(&mut self, number: u64)
        requires rise { AllPairs (λ l m. l.0 < m.0) self.old }
        requires own { All (λ l. form l.1 ≡ l.1) self.old }
        ensures { self.new ≡ left (λ l. number == l.0) self.old }
    {
        let Some(listener) = take_one(&mut self.by_number, number) else {
            return;
        };
        self.forms.remove(listener.number(), listener.form());
    }

    // Takes out those of the numbers, one after another.
    fn end_each(&mut self, numbers: &[u64])
        requires rise { AllPairs (λ l m. l.0 < m.0) self.old }
        requires own { All (λ l. form l.1 ≡ l.1) self.old }
        ensures { self.new ≡ left (λ l. list_any (λ n. n == l.0) numbers.now) self.old }
    {
        for number in numbers {
            self.end_one(*number);
        }
    }

    // Takes out those that end, of all.
    fn end_among<E: EndedListeners>(&mut self, ending: &E)
        requires rise { AllPairs (λ l m. l.0 < m.0) self.old }
        requires own { All (λ l. form l.1 ≡ l.1) self.old }
        ensures { self.new ≡ left (by_number (E.ended ending.now)) self.old }
    {
        take_ended(&mut self.forms, &self.by_number, ending);
        retain_left(&mut self.by_number, ending);
    }

    // Takes out the listeners that end: where they are few each is found, and else all are gone over.
    pub(crate) fn retain_left<E: EndedListeners>(&mut self, ending: &E)
        requires rise { AllPairs (λ l m. l.0 < m.0) self.old }
        requires own { All (λ l. form l.1 ≡ l.1) self.old }
        ensures { self.new ≡ left (by_number (E.ended ending.now)) self.old }
    {
        match ending.few() {
            Some(numbers) => self.end_each(numbers),
            None => self.end_among(ending),
        }
    }
}

// ---- what a new listener does to the list

// The first place at which no lesser number stands, by halving.
pub(crate) fn place_of(listeners: &[Listener], number: u64) -> usize
    requires { AllPairs (λ l m. l.0 < m.0) listeners.now }
    ensures first { result ≡ place number listeners.now }
    ensures within { result ≤ length listeners.now }
{
    listeners.partition_point(|other| other.number() < number)
}

// Whether a listener of that number stands at the place.
pub(crate) fn stands_at(listeners: &[Listener], place: usize, number: u64) -> bool
    ensures { result ≡ does_stand listeners.now place number }
{
    match listeners.get(place) {
        Some(listener) => listener.number() == number,
        None => false,
    }
}

// Whether a listener of that number is registered, by halving.
pub(crate) fn has_number(listeners: &[Listener], number: u64) -> bool
    requires { AllPairs (λ l m. l.0 < m.0) listeners.now }
    ensures { result ≡ is_registered listeners.now number }
{
    stands_at(listeners, place_of(listeners, number), number)
}

// The listener of that number, by halving.
pub(crate) fn listener_at<'a>(listeners: &'a [Listener], number: u64) -> Option<&'a Listener>
    requires { AllPairs (λ l m. l.0 < m.0) listeners.now }
    ensures { option_copied result ≡ find (λ l. l.0 == number) listeners.now }
{
    let place = place_of(listeners, number);
    if !stands_at(listeners, place, number) {
        return None;
    }
    Some(&listeners[place])
}

// Registers a listener, in its place by number; there is room for it.
pub(crate) fn insert_listener(listeners: &mut Vec<Listener>, listener: Listener)
    requires rise { AllPairs (λ l m. l.0 < m.0) listeners.old.items }
    requires free { is_registered listeners.old.items listener.0 ≡ false }
    requires room { vec_len listeners.old < vec_capacity listeners.old }
    ensures { listeners.new.items ≡ with_listener listeners.old.items listener.0 listener.1 }
{
    let place = place_of(listeners, listener.number());
    let _in_reserved_room = listeners.insert(place, listener);
}

// What is told of a listen that starts alone.
pub(crate) fn started_one(
    alloc: Global,
    tag: u64,
    form: &Query,
    listener: u64,
) -> Result<Vec<Kept>, AllocError>
    ensures { IfOk result (λ v. v.items
        ≡ record { tag = tag; query = form.now; listener = listener } ∷ []) }
{
    let mut started = Vec::new(alloc);
    let query = form.copy()?;
    started.push(Kept {
        tag,
        query,
        listener,
    })?;
    Ok(started)
}

// ---- a new listener with its listen

// Registers a listener, and keeps its listen in place of those that it supplies: both or neither. The tags
// of those.
pub(crate) fn enter(
    listeners: &mut Listeners,
    kept: &mut Listens,
    listener: Listener,
    listen: Listen,
) -> Result<Vec<u64>, AllocError>
    requires rise { AllPairs (λ l m. l.0 < m.0) listeners.old }
    requires forms { All (λ l. form l.1 ≡ l.1) listeners.old }
    requires free { is_registered listeners.old listener.0 ≡ false }
    requires own { form listener.1 ≡ listener.1 }
    requires by_tag { AllPairs (λ j k. j.tag < k.tag) kept.old }
    ensures items { OnOk result
        (listeners.new ≡ with_listener listeners.old listener.0 listener.1) }
    ensures kept { OnOk result (kept.new
        ≡ filter (λ k. not (does_supply listen.form k.form)) kept.old ++ listen ∷ []) }
    ensures stopped { IfOk result (λ tags. tags.items ≡ map (λ k. k.tag)
        (filter (λ k. does_supply listen.form k.form) kept.old)) }
    ensures same_items { OnErr result (listeners.new ≡ listeners.old) }
    ensures same_kept { OnErr result (kept.new ≡ kept.old) }
{
    let number = listener.number();
    listeners.insert(listener)?;
    match kept.start(listen) {
        Ok(stopped) => Ok(stopped),
        Err(error) => {
            listeners.retain_left(&OfNumbers { numbers: &[number] });
            Err(error)
        }
    }
}

// ---- what is shown of the listens and of the forms

// The least number of a listener with that form; 0 where there is none.
fn first_listener(listeners: &Listeners, form: &Query) -> u64
    requires { Supply.form form.now ≡ form.now }
    ensures { result ≡ first_listener listeners.now form.now }
{
    match listeners.numbers(form).first() {
        Some(first) => *first,
        None => 0,
    }
}

// The listens, each with the least-numbered listener of its form.
pub(crate) fn shown(
    alloc: Global,
    listeners: &Listeners,
    kept: &[Listen],
) -> Result<Vec<Kept>, AllocError>
    requires { All (λ k. form k.form ≡ k.form) kept.now }
    ensures { IfOk result (λ v. v.items ≡ map (shown_with listeners.now) kept.now) }
{
    let mut items = Vec::with_capacity(alloc, kept.len())?;
    for listen in kept {
        let form = listen.form();
        let query = form.copy()?;
        let listener = first_listener(listeners, form);
        items.push(Kept {
            tag: listen.tag(),
            query,
            listener,
        })?;
    }
    Ok(items)
}

// The registered forms, in order of their least-numbered listeners.
pub(crate) fn forms(listeners: &Listeners) -> Result<Vec<Query>, AllocError>
    requires rise { AllPairs (λ l m. l.0 < m.0) listeners.now }
    requires own { All (λ l. form l.1 ≡ l.1) listeners.now }
    ensures { IfOk result (λ v. v.items ≡ forms listeners.now) }
{
    let mut forms = Vec::new(listeners.alloc());
    let by_number = listeners.as_slice();
    for listener in by_number {
        if is_first(listeners, listener) {
            forms.push(listener.form().copy()?)?;
        }
    }
    Ok(forms)
}

// ---- lists of numbers

// Sorts the numbers, each once.
pub(crate) fn sort_once(numbers: &mut Vec<u64>)
    ensures rise { AllPairs (λ m n. m < n) numbers.new.items }
    ensures same { (p : ℕ → Bool) → list_any p numbers.new.items ≡ list_any p numbers.old.items }
{
    numbers.sort_unstable();
    numbers.dedup();
}

// Adds a number, where there is one.
pub(crate) fn add_some(numbers: &mut Vec<u64>, number: Option<u64>) -> Result<(), AllocError>
    ensures { OnOk result ((p : ℕ → Bool) → list_any p numbers.new.items
        ≡ (list_any p numbers.old.items || option_map_or p number false)) }
{
    match number {
        Some(number) => numbers.push(number)?,
        None => {}
    }
    Ok(())
}

// Equal numbers, each once, among which one is found by halving.
pub(crate) struct Sorted {
    items: Vec<u64>,
}

impl Drop for Sorted {
    fn drop(self) {
        let Sorted { items: _ } = self;
    }
}

impl Model for Sorted {
    ghost use Rattle.std.specs.Prelude.{List, ℕ, ◌<◌};
    ghost use Rattle.std.specs.List.{AllPairs};

    ghost Value = { List ℕ };

    ghost view = { λ a. a.items.items };

    ghost invariant = { λ a. AllPairs (λ m n. m < n) a.items.items };
}

impl Sorted {
    // The numbers, sorted.
    pub(crate) fn of(alloc: Global, numbers: &[u64]) -> Result<Sorted, AllocError>
        ensures { IfOk result (λ sorted. (p : ℕ → Bool) → list_any p sorted ≡ list_any p numbers.now) }
    {
        let mut items = Vec::with_capacity(alloc, numbers.len())?;
        items.extend_from_slice(numbers)?;
        sort_once(&mut items);
        Ok(Sorted { items })
    }

    // Numbers that rise.
    pub(crate) fn rising(items: Vec<u64>) -> Sorted
        requires { AllPairs (λ m n. m < n) items.items }
        ensures { result ≡ items.items }
    {
        Sorted { items }
    }

    // The numbers, in order.
    pub(crate) fn as_slice(&self) -> &[u64]
        ensures { result.now ≡ self.now }
    {
        &self.items
    }

    // The numbers, given away.
    pub(crate) fn into_vec(self) -> Vec<u64>
        ensures { result.items ≡ self }
    {
        let Sorted { items } = self;
        items
    }

    // Whether the number is one of them, by halving.
    pub(crate) fn has(&self, number: u64) -> bool
        ensures { result ≡ list_any (λ n. n == number) self.now }
    {
        self.items.binary_search(&number).is_ok()
    }
}

/// Numbers of listeners, or tags, in rising order.
pub struct Numbers {
    items: Vec<u64>,
}

impl Drop for Numbers {
    fn drop(self) {
        let Numbers { items: _ } = self;
    }
}

impl Model for Numbers {
    ghost use Rattle.std.specs.Prelude.{List, ℕ};

    ghost Value = { List ℕ };

    ghost view = { λ a. a.items.items };
}

impl Numbers {
    pub(crate) fn of(items: Vec<u64>) -> Numbers
        ensures { result ≡ items.items }
    {
        Numbers { items }
    }

    /// The numbers, in order.
    pub fn as_slice(&self) -> &[u64]
        ensures { result.now ≡ self.now }
    {
        self.items.as_slice()
    }

    // Takes a number out.
    pub(crate) fn take_out(&mut self, number: u64)
        ensures { self.new ≡ filter (λ t. not (t == number)) self.old }
    {
        self.items.retain(|item| *item != number);
    }
}
