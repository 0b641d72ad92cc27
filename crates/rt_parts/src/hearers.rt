// The listeners that hear of entries: those whose paths they meet; where the entries are pushed on
// the listen of a range alone, those that this supplies.
ghost use Rattle.std.specs.Prelude.{◌≡◌, ◌==◌, ◌<◌, ◌&&◌, IfOk, Some};
ghost use Rattle.std.specs.List.{AllPairs, filter, list_any};
ghost use Rattle.std.specs.Option.{option_copied};
ghost use Rattle.rt_parts.specs.Refreshed.{is_supplied_at};
ghost use Rattle.rt_parts.specs.inside.HeldView.{HaveSupplied};
ghost use Rattle.rt_parts.specs.inside.Pairs.{AreHanded};
ghost use Rattle.rt_parts.specs.inside.Placed.{IsIndex};

use crate::entries::{pairs_met, pairs_with};
use crate::listeners::{BoxedListener, place_of};
use crate::places::{ListenerPlace, push_at, sort_once};
use rt_query::Query;
use rt_tree::{Path, Tree};
use std::alloc::{AllocError, Global};

// Whether the range is of the query's path, and supplies it.
fn supplies_at(range: &Query, query: &Query) -> bool
    ensures { result ≡ is_supplied_at range.now query.now }
{
    query.path() == range.path() && range.supplies(query)
}

// Whether it supplies the query of the listener of that number.
fn is_supplied(listeners: &[BoxedListener], number: u64, range: &Query) -> bool
    requires { AllPairs (λ l m. l.number < m.number) listeners.now }
    ensures { result ≡ list_any (λ l. l.number == number && is_supplied_at range.now l.query)
        listeners.now }
{
    match place_of(listeners, number) {
        Some(at) => supplies_at(range, listeners[at].query()),
        None => false,
    }
}

// Leaves those of the numbers whose listeners it supplies.
fn keep_supplied(numbers: &mut Vec<u64>, listeners: &[BoxedListener], range: &Query)
    requires { AllPairs (λ l m. l.number < m.number) listeners.now }
    ensures { numbers.new.items ≡ filter (λ n. list_any (λ l. l.number == n
        && is_supplied_at range.now l.query) listeners.now) numbers.old.items }
{
    numbers.retain(|number| is_supplied(listeners, *number, range));
}

// The numbers of the listeners of the range's path that it supplies, rising. Those of the path are found by
// halving, and each of them is asked by one comparison of ranges.
pub(crate) fn numbers_supplied(
    alloc: Global,
    listeners: &[BoxedListener],
    places: &[ListenerPlace],
    range: &Query,
) -> Result<Vec<u64>, AllocError>
    requires rising { AllPairs (λ l m. l.number < m.number) listeners.now }
    requires index { IsIndex listeners.now places.now }
    ensures { IfOk result (λ numbers. HaveSupplied range.now numbers.items listeners.now) }
{
    let mut numbers = Vec::new(alloc);
    push_at(&mut numbers, places, range.path().keys())?;
    sort_once(&mut numbers);
    keep_supplied(&mut numbers, listeners, range);
    Ok(numbers)
}

// The pairs of the listeners that the range supplies with each of the entries, which are pushed on its
// listen.
fn pairs_supplied(
    alloc: Global,
    listeners: &[BoxedListener],
    places: &[ListenerPlace],
    range: &Query,
    entries: &[(Path, Tree)],
) -> Result<Vec<(u64, usize)>, AllocError>
    requires rising { AllPairs (λ l m. l.number < m.number) listeners.now }
    requires index { IsIndex listeners.now places.now }
    ensures { IfOk result (λ pairs. AreHanded (Some range.now) entries.now pairs.items listeners.now) }
{
    let numbers = numbers_supplied(alloc, listeners, places, range)?;
    pairs_with(alloc, &numbers, entries.len())
}

// The pairs of listeners, by number, and of the entries that are handed to them, in order.
pub(crate) fn pairs_handed(
    alloc: Global,
    listeners: &[BoxedListener],
    places: &[ListenerPlace],
    range: Option<&Query>,
    entries: &[(Path, Tree)],
) -> Result<Vec<(u64, usize)>, AllocError>
    requires rising { AllPairs (λ l m. l.number < m.number) listeners.now }
    requires index { IsIndex listeners.now places.now }
    ensures { IfOk result (λ pairs. AreHanded (option_copied range.entry) entries.now pairs.items listeners.now) }
{
    match range {
        Some(form) => pairs_supplied(alloc, listeners, places, form, entries),
        None => pairs_met(alloc, places, entries),
    }
}
