// What is registered at one path.
ghost use Rattle.std.specs.Prelude.{◌≡◌, ◌<◌, ◌+◌, ◌^◌, ◌==◌, ◌∷◌, ◌++◌, [], true, false, not, length, OnOk, OnErr, IfOk};
ghost use Rattle.std.specs.Prelude.{◌≤◌, None, IfSome};
ghost use Rattle.std.specs.List.{list_any};
ghost use Rattle.std.specs.List.Sorted.{IsPartitionPoint};
ghost use Rattle.std.specs.Ordering.{is_lt};
ghost use Rattle.rt_query.specs.Queries.{is_filtered};
ghost use Rattle.rt_query.specs.QueryOrder.{query_cmp};
ghost use Rattle.rt_forms.specs.Numbers.{with_number, without_number};
ghost use Rattle.rt_forms.specs.inside.Trees.{among, own, Gained, Ends, passed, empty};
ghost use Rattle.rt_forms.specs.inside.Trees.{all_filtered, all_own};
ghost use Rattle.rt_forms.specs.inside.Lists.{entry_at, IsJoined, parted};
ghost use Rattle.rt_forms.specs.Order.{AreInOrder};

use crate::numbers::Numbers;
use rt_query::{Query, query_cmp};
use std::alloc::{AllocError, Global};
use std::marker::Model;

/// A filtered form, and the numbers of its listeners.
#[derive(Debug)]
pub struct Filtered {
    form: Query,
    numbers: Numbers,
}

impl Drop for Filtered {
    fn drop(self) {
        let Filtered {
            form: _,
            numbers: _,
        } = self;
    }
}

impl Model for Filtered {
    ghost use Rattle.std.specs.Prelude.{List, ℕ};
    ghost use Rattle.rt_query.specs.Queries.{Query};

    ghost Value = { Query × List ℕ };

    ghost view = { λ a. (a.form, a.numbers) };
}

impl Filtered {
    /// The form.
    pub fn form(&self) -> &Query
        ensures { result.now ≡ self.now.0 }
    {
        &self.form
    }

    /// The numbers of its listeners, in rising order.
    pub fn numbers(&self) -> &[u64]
        ensures { result.now ≡ self.now.1 }
    {
        self.numbers.as_slice()
    }
}

// The numbers of the plain form's listeners, the filtered forms with those of theirs, in the order of
// queries, and how many listeners there are at and under the path.
#[derive(Debug)]
pub(crate) struct Standing {
    plain: Numbers,
    filtered: Vec<Filtered>,
    count: usize,
}

impl Drop for Standing {
    fn drop(self) {
        let Standing {
            plain: _,
            filtered: _,
            count: _,
        } = self;
    }
}

impl Model for Standing {
    ghost use Rattle.rt_forms.specs.inside.Trees.{Standing};

    ghost Value = { Standing };

    ghost view = { λ a. record { plain = a.plain; filtered = a.filtered.items; count = a.count } };

    ghost use Rattle.rt_forms.specs.Order.{AreInOrder};

    ghost invariant = { λ a. AreInOrder a.filtered.items };
}

// Whether a form stands before a query's.
fn is_before(entry: &Filtered, query: &Query) -> bool
    ensures { result ≡ is_lt (query_cmp entry.now.0 query.now) }
{
    query_cmp(&entry.form, query).is_lt()
}

// The first place at which no form stands before the query's, by halving.
fn first_from(filtered: &[Filtered], query: &Query) -> usize
    requires { AreInOrder filtered.now }
    ensures within { result ≤ length filtered.now }
    ensures point { IsPartitionPoint (λ e. is_lt (query_cmp e.0 query.now) ≡ true)
        (λ e. is_lt (query_cmp e.0 query.now) ≡ false) filtered.now result }
{
    filtered.partition_point(|entry| is_before(entry, query))
}

// Where a form stands, by halving.
fn place_of(filtered: &[Filtered], query: &Query) -> Option<usize>
    requires { AreInOrder filtered.now }
    ensures place { result ≡ entry_at query.now filtered.now }
    ensures within { IfSome result (λ n. n < length filtered.now) }
{
    let place = first_from(filtered, query);
    if place == filtered.len() {
        return None;
    }
    if filtered[place].form() == query {
        Some(place)
    } else {
        None
    }
}

// A form's first listener.
fn first_of(alloc: Global, number: u64, query: &Query) -> Result<Filtered, AllocError>
    ensures { IfOk result (λ entry. entry ≡ (query.now, number ∷ [])) }
{
    let mut numbers = Numbers::new(alloc);
    numbers.insert(number)?;
    let form = query.copy()?;
    Ok(Filtered { form, numbers })
}

// The numbers of a filtered form's listeners.
fn numbers_among<'a>(filtered: &'a [Filtered], query: &Query) -> &'a [u64]
    requires { AreInOrder filtered.now }
    ensures { result.now ≡ among query.now filtered.now }
{
    match place_of(filtered, query) {
        Some(place) => filtered[place].numbers(),
        None => &[],
    }
}

// Puts a form with its first listener in its place.
fn enter(
    filtered: &mut Vec<Filtered>,
    alloc: Global,
    number: u64,
    query: &Query,
) -> Result<(), AllocError>
    requires order { AreInOrder filtered.old.items }
    requires new { entry_at query.now filtered.old.items ≡ None }
    ensures ok { OnOk result (IsJoined filtered.old.items filtered.new.items query.now number) }
    ensures err { OnErr result (filtered.new.items ≡ filtered.old.items) }
    ensures order { AreInOrder filtered.new.items }
{
    let entry = first_of(alloc, number, query)?;
    let place = first_from(filtered, query);
    filtered.insert(place, entry)?;
    Ok(())
}

// Puts a listener among those of a form.
fn join_entry(entry: &mut Filtered, number: u64) -> Result<(), AllocError>
    requires { list_any (λ m. m == number) entry.old.1 ≡ false }
    ensures ok { OnOk result (entry.new ≡ (entry.old.0, with_number number entry.old.1)) }
    ensures err { OnErr result (entry.new ≡ entry.old) }
    ensures form { entry.new.0 ≡ entry.old.0 }
{
    entry.numbers.insert(number)
}

// Puts a listener among those of a filtered form.
fn join(
    filtered: &mut Vec<Filtered>,
    alloc: Global,
    number: u64,
    query: &Query,
) -> Result<(), AllocError>
    requires order { AreInOrder filtered.old.items }
    requires free { list_any (λ m. m == number) (among query.now filtered.old.items) ≡ false }
    ensures ok { OnOk result (IsJoined filtered.old.items filtered.new.items query.now number) }
    ensures err { OnErr result (filtered.new.items ≡ filtered.old.items) }
    ensures order { AreInOrder filtered.new.items }
{
    match place_of(filtered, query) {
        Some(place) => join_entry(&mut filtered[place], number),
        None => enter(filtered, alloc, number, query),
    }
}

// Takes a listener out of those of a form. The answer is whether none is left.
fn leave_entry(entry: &mut Filtered, number: u64) -> bool
    ensures entry { entry.new ≡ (entry.old.0, without_number number entry.old.1) }
    ensures less { list_any (λ m. m == number) entry.old.1 ≡ true
        → length entry.new.1 + 1 ≡ length entry.old.1 }
    ensures none { result ≡ (length entry.new.1 == 0) }
{
    entry.numbers.remove(number);
    entry.numbers.is_empty()
}

// Takes a listener out of those of a filtered form, and the form where none is left.
fn leave(filtered: &mut Vec<Filtered>, number: u64, query: &Query)
    requires order { AreInOrder filtered.old.items }
    requires there { list_any (λ m. m == number) (among query.now filtered.old.items) ≡ true }
    ensures items { filtered.new.items ≡ parted query.now number filtered.old.items }
    ensures less { length (without_number number (among query.now filtered.old.items)) + 1
        ≡ length (among query.now filtered.old.items) }
    ensures order { AreInOrder filtered.new.items }
{
    let Some(place) = place_of(filtered, query) else {
        return;
    };
    if leave_entry(&mut filtered[place], number) {
        let _left = filtered.remove(place);
    }
}

// Adds the numbers of all the forms.
fn gather(filtered: &[Filtered], numbers: &mut Vec<u64>) -> Result<(), AllocError>
    ensures { OnOk result (numbers.new.items ≡ numbers.old.items ++ all_filtered filtered.now) }
{
    for entry in filtered {
        numbers.extend_from_slice(entry.numbers.as_slice())?;
    }
    Ok(())
}

impl Standing {
    // Nothing is registered.
    pub(crate) fn new(alloc: Global) -> Standing
        ensures { result ≡ empty }
    {
        Standing {
            plain: Numbers::new(alloc),
            filtered: Vec::new(alloc),
            count: 0,
        }
    }

    // How many listeners there are at and under the path.
    pub(crate) fn count(&self) -> usize
        ensures { result ≡ self.now.count }
    {
        self.count
    }

    // Whether the plain form has a listener.
    pub(crate) fn has_plain(&self) -> bool
        ensures { result ≡ not (length self.now.plain == 0) }
    {
        !self.plain.is_empty()
    }

    // The numbers of the listeners of a query's form.
    pub(crate) fn numbers(&self, query: &Query) -> &[u64]
        ensures { result.now ≡ own query.now self.now }
    {
        if !query.is_filtered() {
            return self.plain.as_slice();
        }
        numbers_among(&self.filtered, query)
    }

    // A listener is registered under the path.
    pub(crate) fn pass(&mut self)
        requires { self.old.count + 1 < 2 ^ 64 }
        ensures { self.new ≡ passed self.old }
    {
        self.count += 1;
    }

    // Registers a listener of a filtered form.
    fn add_filtered(&mut self, alloc: Global, number: u64, query: &Query) -> Result<(), AllocError>
        requires filtered { is_filtered query.now ≡ true }
        requires free { list_any (λ m. m == number) (own query.now self.old) ≡ false }
        requires room { self.old.count + 1 < 2 ^ 64 }
        ensures ok { OnOk result (Gained self.old self.new query.now number) }
        ensures err { OnErr result (self.new ≡ self.old) }
    {
        join(&mut self.filtered, alloc, number, query)?;
        self.count += 1;
        Ok(())
    }

    // Registers a listener of a plain form.
    fn add_plain(&mut self, number: u64, query: &Query) -> Result<(), AllocError>
        requires plain { is_filtered query.now ≡ false }
        requires free { list_any (λ m. m == number) (own query.now self.old) ≡ false }
        requires room { self.old.count + 1 < 2 ^ 64 }
        ensures ok { OnOk result (Gained self.old self.new query.now number) }
        ensures err { OnErr result (self.new ≡ self.old) }
    {
        self.plain.insert(number)?;
        self.count += 1;
        Ok(())
    }

    // Registers a listener of a query's form.
    pub(crate) fn add(
        &mut self,
        alloc: Global,
        number: u64,
        query: &Query,
    ) -> Result<(), AllocError>
        requires free { list_any (λ m. m == number) (own query.now self.old) ≡ false }
        requires room { self.old.count + 1 < 2 ^ 64 }
        ensures ok { OnOk result (Gained self.old self.new query.now number) }
        ensures err { OnErr result (self.new ≡ self.old) }
    {
        if query.is_filtered() {
            self.add_filtered(alloc, number, query)
        } else {
            self.add_plain(number, query)
        }
    }

    // The numbers of the plain form's listeners.
    pub(crate) fn plain_numbers(&self) -> &[u64]
        ensures { result.now ≡ self.now.plain }
    {
        self.plain.as_slice()
    }

    // The filtered forms, with the numbers of their listeners, in the order of queries.
    pub(crate) fn filtered(&self) -> &[Filtered]
        ensures forms { result.now ≡ self.now.filtered }
        ensures order { AreInOrder result.now }
    {
        self.filtered.as_slice()
    }

    // Adds the numbers of all listeners at the path.
    pub(crate) fn gather(&self, numbers: &mut Vec<u64>) -> Result<(), AllocError>
        ensures { OnOk result (numbers.new.items ≡ numbers.old.items ++ all_own self.now) }
    {
        numbers.extend_from_slice(self.plain.as_slice())?;
        gather(&self.filtered, numbers)
    }

    // The allocator of its lists.
    pub(crate) fn alloc(&self) -> Global {
        *self.filtered.allocator()
    }

    // Counts a listener less under the path.
    pub(crate) fn fall(&mut self)
        requires { 0 < self.old.count }
        ensures { self.old ≡ passed self.new }
    {
        self.count -= 1;
    }

    // Ends a listener of a filtered form.
    fn remove_filtered(&mut self, number: u64, query: &Query)
        requires filtered { is_filtered query.now ≡ true }
        requires there { list_any (λ m. m == number) (own query.now self.old) ≡ true }
        requires some { 0 < self.old.count }
        ensures { Ends self.old self.new query.now number }
    {
        leave(&mut self.filtered, number, query);
        self.count -= 1;
    }

    // Ends a listener of a plain form.
    fn remove_plain(&mut self, number: u64, query: &Query)
        requires plain { is_filtered query.now ≡ false }
        requires there { list_any (λ m. m == number) (own query.now self.old) ≡ true }
        requires some { 0 < self.old.count }
        ensures { Ends self.old self.new query.now number }
    {
        self.plain.remove(number);
        self.count -= 1;
    }

    // Ends a listener of a query's form.
    pub(crate) fn remove(&mut self, number: u64, query: &Query)
        requires there { list_any (λ m. m == number) (own query.now self.old) ≡ true }
        requires some { 0 < self.old.count }
        ensures { Ends self.old self.new query.now number }
    {
        if query.is_filtered() {
            self.remove_filtered(number, query);
        } else {
            self.remove_plain(number, query);
        }
    }
}
