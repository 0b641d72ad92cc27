// What a change tells.
ghost use Rattle.std.specs.Prelude.{◌≡◌, ℕ, Bool, ◌==◌, IfSome, ◌+◌, ◌<◌, ◌^◌, ◌++◌, ◌∷◌, [], map, length};
ghost use Rattle.std.specs.Prelude.{IfOk, OnOk, nat_lt, not, IfNone};
ghost use Rattle.std.specs.List.{list_any, enumerate_from, AllPairs, count_by};
ghost use Rattle.rt_cover.specs.inside.Endings.{tagged_of, told_of, by_number, comes_before, is_replaced};
ghost use Rattle.rt_cover.specs.inside.Endings.{starts, left};
ghost use Rattle.rt_cover.specs.inside.Picked.{picked};
ghost use Rattle.rt_cover.specs.inside.Places.{IsTakenOut};

use crate::by_path::HasForm;
use crate::listen::{Kept, KeptList, Listen, is_kept, tags_of};
use crate::listeners::{Listener, Numbers, Sorted, listener_at, place_of, stands_at};
use std::alloc::{AllocError, Global};

/// What a change of the listeners does to the listens kept: those that start, in the order of the
/// listeners that they are shown with, and the tags of those that stop.
#[derive(Drop)]
pub struct Delta {
    pub started: KeptList,
    pub stopped: Numbers,
}

/// What a revocation does: the listeners that end, and what becomes of the other listens. The
/// revoked one is not among those that stop, since whoever revoked it knows.
#[derive(Drop)]
pub struct Revoked {
    pub ended: Numbers,
    pub delta: Delta,
}

// ---- a choice of listeners

/// A choice of listeners by their numbers, as those of one seat: told without a list of them.
pub trait Choice {
    ghost chosen: { Self → ℕ → Bool };

    /// Whether the listener of that number is chosen.
    fn has(&self, listener: u64) -> bool
        ensures { result ≡ chosen self.now listener };
}

// ---- the listeners that a change ends

// Tells which listeners end, by their numbers.
pub(crate) trait EndedListeners {
    ghost ended: { Self → ℕ → Bool };

    // Whether the listener of that number ends.
    fn ends(&self, number: u64) -> bool
        ensures { result ≡ ended self.now number };

    // The numbers of those that end, where these are few and stand in a list.
    fn few(&self) -> Option<&[u64]>
        ensures { IfSome result (λ numbers. (n : ℕ) → ended self.now n
            ≡ list_any (λ m. m == n) numbers.now) };
}

// Up to so many are found one by one: of more, the words that each moves cost more than a look at all.
const FEW: usize = 32;

// The numbers, where they are few.
fn few_of(numbers: &[u64]) -> Option<&[u64]>
    ensures { IfSome result (λ few. (n : ℕ) → list_any (λ m. m == n) numbers.now
        ≡ list_any (λ m. m == n) few.now) }
{
    if numbers.len() > FEW {
        return None;
    }
    Some(numbers)
}

// The listeners of these numbers end.
#[derive(Drop)]
pub(crate) struct OfNumbers<'a> {
    pub(crate) numbers: &'a [u64],
}

impl EndedListeners for OfNumbers<'_> {
    ghost ended = { λ a number. list_any (λ n. n == number) a.numbers.now };

    fn ends(&self, number: u64) -> bool {
        self.numbers.contains(&number)
    }

    fn few(&self) -> Option<&[u64]> {
        few_of(self.numbers)
    }
}

// The same of sorted numbers.
impl EndedListeners for Sorted {
    ghost ended = { λ a number. list_any (λ n. n == number) a };

    fn ends(&self, number: u64) -> bool {
        self.has(number)
    }

    fn few(&self) -> Option<&[u64]> {
        few_of(self.as_slice())
    }
}

// The listeners of the choice end.
#[derive(Drop)]
pub(crate) struct OfChoice<'a, C> {
    pub(crate) choice: &'a C,
}

impl<C: Choice> EndedListeners for OfChoice<'_, C> {
    ghost ended = { λ a number. C.chosen a.choice.now number };

    fn ends(&self, number: u64) -> bool {
        self.choice.has(number)
    }

    fn few(&self) -> Option<&[u64]> {
        None
    }
}

// ---- what the end of some listeners starts and stops

// The kept listens that are lost and their tags, the listens that start and what is told of them, and
// how many tags are given then.
#[derive(Drop)]
pub(crate) struct Plan {
    pub(crate) lost: Vec<Listen>,
    pub(crate) stopped: Vec<u64>,
    pub(crate) kept: Vec<Listen>,
    pub(crate) started: Vec<Kept>,
    pub(crate) given: u64,
}

impl Plan {
    // These listens are lost, and nothing starts yet.
    pub(crate) fn of_lost(alloc: Global, lost: Vec<Listen>, given: u64) -> Result<Plan, AllocError>
        ensures lost { IfOk result (λ plan. plan.lost.items ≡ lost.items) }
        ensures stopped { IfOk result (λ plan. plan.stopped.items ≡ map (λ k. k.tag) lost.items) }
        ensures kept { IfOk result (λ plan. plan.kept.items ≡ []) }
        ensures started { IfOk result (λ plan. plan.started.items ≡ []) }
        ensures given { IfOk result (λ plan. plan.given ≡ given) }
    {
        let stopped = tags_of(alloc, &lost)?;
        Ok(Plan {
            lost,
            stopped,
            kept: Vec::new(alloc),
            started: Vec::new(alloc),
            given,
        })
    }

    // Starts a listen for the listener, under the next tag.
    fn start(&mut self, listener: &Listener) -> Result<(), AllocError>
        requires { self.old.given + 1 < 2 ^ 64 }
        ensures kept { OnOk result (self.new.kept.items ≡ self.old.kept.items
            ++ record { tag = self.old.given + 1; form = listener.now.1 } ∷ []) }
        ensures started { OnOk result (self.new.started.items ≡ self.old.started.items
            ++ record {
              tag = self.old.given + 1;
              query = listener.now.1;
              listener = listener.now.0;
            } ∷ []) }
        ensures given { OnOk result (self.new.given ≡ self.old.given + 1) }
        ensures stopped { OnOk result (self.new.stopped.items ≡ self.old.stopped.items) }
        ensures lost { OnOk result (self.new.lost.items ≡ self.old.lost.items) }
    {
        let tag = self.given + 1;
        let query = listener.form().copy()?;
        let listen = listener.listen(tag)?;
        self.started.push(Kept {
            tag,
            query,
            listener: listener.number(),
        })?;
        self.kept.push(listen)?;
        self.given = tag;
        Ok(())
    }

    // Starts a listen for each listener of these numbers.
    pub(crate) fn start_at(
        &mut self,
        listeners: &[Listener],
        numbers: &[u64],
    ) -> Result<(), AllocError>
        requires rise { AllPairs (λ l m. l.0 < m.0) listeners.now }
        requires room { self.old.given
            + length (picked (λ l. l.0) listeners.now numbers.now) < 2 ^ 64 }
        ensures kept { OnOk result (self.new.kept.items ≡ self.old.kept.items
            ++ map tagged_of (enumerate_from (self.old.given + 1)
            (picked (λ l. l.0) listeners.now numbers.now))) }
        ensures started { OnOk result (self.new.started.items ≡ self.old.started.items
            ++ map told_of (enumerate_from (self.old.given + 1)
            (picked (λ l. l.0) listeners.now numbers.now))) }
        ensures given { OnOk result (self.new.given
            ≡ self.old.given + length (picked (λ l. l.0) listeners.now numbers.now)) }
        ensures stopped { OnOk result (self.new.stopped.items ≡ self.old.stopped.items) }
        ensures lost { OnOk result (self.new.lost.items ≡ self.old.lost.items) }
    {
        for number in numbers {
            if let Some(listener) = listener_at(listeners, *number) {
                self.start(listener)?;
            }
        }
        Ok(())
    }
}

// ---- how many listens a change starts, told before it is made, and without memory

// Whether the other listener's listen does for this one too: it has the same form and a lesser
// number, or another form that supplies this one's.
pub(crate) fn comes_before(other: &Listener, listener: &Listener) -> bool
    ensures { result ≡ comes_before other.now listener.now }
{
    if other.form() == listener.form() {
        other.number() < listener.number()
    } else {
        other.form().supplies(listener.form())
    }
}

// Whether that holds of one of those that do not end.
fn is_replaced<E: EndedListeners>(listeners: &[Listener], ending: &E, listener: &Listener) -> bool
    ensures { result ≡ is_replaced (by_number (E.ended ending.now)) listeners.now listener.now }
{
    listeners.iter().any(|other| !ending.ends(other.number()) && comes_before(other, listener))
}

// Whether a listen starts for the listener: it does not end, none replaces it, and no listen of its
// form is kept.
fn starts<E: EndedListeners>(
    listeners: &[Listener],
    kept: &[Listen],
    ending: &E,
    listener: &Listener,
) -> bool
    ensures { result ≡ starts (by_number (E.ended ending.now)) kept.now listeners.now listener.now }
{
    !ending.ends(listener.number())
        && !is_kept(kept, listener.form())
        && !is_replaced(listeners, ending, listener)
}

// Whether more listens start than there is room for.
pub(crate) fn exceeds<E: EndedListeners>(
    listeners: &[Listener],
    kept: &[Listen],
    ending: &E,
    room: u64,
) -> bool
    ensures { result ≡ nat_lt room
        (count_by (starts (by_number (E.ended ending.now)) kept.now listeners.now) listeners.now) }
{
    let mut left = room;
    for listener in listeners {
        if starts(listeners, kept, ending, listener) {
            if left == 0 {
                return true;
            }
            left -= 1;
        }
    }
    false
}

// ---- what the end of some listeners does to the list

// Takes out the listeners that end.
pub(crate) fn retain_left<E: EndedListeners>(listeners: &mut Vec<Listener>, ending: &E)
    ensures { listeners.new.items ≡ left (by_number (E.ended ending.now)) listeners.old.items }
{
    listeners.retain(|listener| !ending.ends(listener.number()));
}

// Takes out the listener of that number, found by halving.
pub(crate) fn take_one(listeners: &mut Vec<Listener>, number: u64) -> Option<Listener>
    requires { AllPairs (λ l m. l.0 < m.0) listeners.old.items }
    ensures left { listeners.new.items ≡ left (λ l. number == l.0) listeners.old.items }
    ensures taken { IfSome result (IsTakenOut listeners.old.items listeners.new.items) }
    ensures none { IfNone result (listeners.new.items ≡ listeners.old.items) }
{
    let place = place_of(listeners, number);
    if !stands_at(listeners, place, number) {
        return None;
    }
    Some(listeners.remove(place))
}
