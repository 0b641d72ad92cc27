// The unsettled requests.
ghost use Rattle.std.specs.Prelude.{◌≡◌, ◌==◌, ◌<◌, ◌++◌, ◌∷◌, [], false, not, length, map};
ghost use Rattle.std.specs.Prelude.{IfOk, OnOk, OnErr, IsOk, Some, None};
ghost use Rattle.std.specs.List.{All, filter, find, list_any};
ghost use Rattle.std.specs.Option.{option_map_or};
ghost use Rattle.rt_tree.specs.Assignments.{have_overlap};
ghost use Rattle.rt_world.specs.World.{entries_of, pending};
ghost use Rattle.rt_world.specs.steps.Asking.{action_in, is_empty_action};
ghost use Rattle.rt_world.specs.steps.Kind.{stands_too_deep};
ghost use Rattle.rt_world.specs.steps.Closing.{unseated};
ghost use Rattle.rt_parts.specs.Settling.{settled};
ghost use Rattle.rt_parts.specs.inside.Writes.{entries_asked};

use rt_wire::Asked;
use rt_world::{Request, pending_law};
use rt_writes::{Entries, Pending};
use std::alloc::{AllocError, Global};
use std::collections::BTreeMap;
use std::collections::btree_map::Values;
use std::marker::Model;

/// The unsettled requests by number, and the pending writes, which are those among them.
pub struct Requests {
    alloc: Global,
    items: BTreeMap<u64, Request>,
    pending: Pending,
}

/// What is left of a request that is settled: its seat, unless that has gone, and the entries that its
/// write set, none for what was asked for the end of the connection.
pub struct Settled {
    pub seat: Option<u64>,
    pub entries: Entries,
}

impl Drop for Settled {
    fn drop(self) {
        let Settled {
            seat: _,
            entries: _,
        } = self;
    }
}

impl Drop for Requests {
    fn drop(self) {
        let Requests {
            alloc: _,
            items: _,
            pending: _,
        } = self;
    }
}

impl Model for Requests {
    ghost use Rattle.std.specs.Prelude.{List};
    ghost use Rattle.std.specs.BTreeMap.{values};
    ghost use Rattle.rt_world.specs.declared.step.Request.{Request};
    ghost use Rattle.rt_parts.specs.inside.Requests.{IsTied};

    ghost Value = { List Request };

    ghost view = { λ a. values a.items };

    ghost invariant = { λ a. IsTied a.items.entries a.pending };
}

// The paths and trees that the request's write sets, shared with it; none of what is asked for the end
// of the connection.
fn entries_asked(alloc: Global, asked: &Asked) -> Result<Option<Entries>, AllocError>
    ensures { IfOk result (λ entries. entries ≡ entries_asked asked.now) }
{
    match asked {
        Asked::Now(action) => Ok(Some(action.entries(alloc)?)),
        Asked::AtDisconnect(_) => Ok(None),
    }
}

// A request of a closed seat stays without a seat.
fn unseat(request: &mut Request, seat: u64)
    ensures { request.new ≡ unseated seat request.old }
{
    if request.seat == Some(seat) {
        request.seat = None;
    }
}

// All requests of a closed seat stay without a seat.
fn unseat_all(requests: &mut BTreeMap<u64, Request>, seat: u64)
    ensures { requests.new.entries ≡ map (λ e. (e.0, unseated seat e.1)) requests.old.entries }
{
    requests.retain(|_, request| {
        unseat(request, seat);
        true
    });
}

// Adds a request under a number above all others.
fn push(requests: &mut BTreeMap<u64, Request>, request: Request) -> Result<(), AllocError>
    requires above { All (λ e. e.0 < request.id) requests.old.entries }
    ensures added { OnOk result (requests.new.entries
        ≡ requests.old.entries ++ (request.id, request) ∷ []) }
    ensures unchanged { OnErr result (requests.new.entries ≡ requests.old.entries) }
{
    drop(requests.insert(request.id, request)?);
    Ok(())
}

impl Requests {
    /// No request.
    pub fn new(alloc: Global) -> Requests
        ensures { result ≡ [] }
    {
        Requests {
            alloc,
            items: BTreeMap::new(alloc),
            pending: Pending::new(alloc),
        }
    }

    /// How many are unsettled.
    pub fn len(&self) -> usize
        ensures { result ≡ length self.now }
    {
        self.items.len()
    }

    /// The requests, by number.
    pub fn iter(&self) -> Values<'_, u64, Request>
        ensures { result ≡ self.now }
    {
        self.items.values()
    }

    /// The writes among them, in order of number.
    pub fn pending(&self) -> &Pending
        ensures { result.now ≡ pending self.now }
    {
        &self.pending
    }

    /// Whether a request has that number.
    pub fn is_unsettled(&self, id: u64) -> bool
        ensures { result ≡ list_any (λ r. r.id == id) self.now }
    {
        self.items.contains_key(&id)
    }

    /// Adds a request of a seat, under a number above all others; a write is pending then. What is
    /// asked has no two entries of which one is at or above the other, is no update without entries,
    /// and sets no leaf under more than 32 keys.
    ///
    /// # Errors
    ///
    /// Want of memory; nothing changes then.
    pub fn add(&mut self, id: u64, seat: u64, asked: Asked) -> Result<(), AllocError>
        requires above { All (λ r. r.id < id) self.old }
        requires apart { option_map_or (λ a. have_overlap (entries_of a)) (action_in asked) false
            ≡ false }
        requires some { option_map_or is_empty_action (action_in asked) false ≡ false }
        requires shallow { option_map_or (λ a. list_any stands_too_deep (entries_of a))
            (action_in asked) false ≡ false }
        ensures added { OnOk result (self.new
            ≡ self.old ++ record { id = id; seat = Some seat; asked = asked } ∷ []) }
        ensures unchanged { OnErr result (self.new ≡ self.old) }
    {
        // For the prover: what is pending of requests.
        pending_law();
        let entries = entries_asked(self.alloc, &asked)?;
        let request = Request {
            id,
            seat: Some(seat),
            asked,
        };
        push(&mut self.items, request)?;
        let Some(entries) = entries else {
            return Ok(());
        };
        match self.pending.add_apart(id, entries) {
            Ok(()) => Ok(()),
            Err(error) => {
                drop(self.items.pop_last());
                Err(error)
            }
        }
    }

    /// Takes the request of that number out, accepted or refused, and says whose it was and which
    /// entries are pending no more; none where it is not unsettled. Whichever request it is, no other
    /// moves but the few beside it in its node of the map.
    ///
    /// # Errors
    ///
    /// Want of memory, where the request is unsettled. It stays so then.
    pub fn settle(&mut self, id: u64) -> Result<Option<Settled>, AllocError>
        ensures settled { IfOk result (λ taken. taken ≡ settled id self.old) }
        ensures left { OnOk result (self.new ≡ filter (λ r. not (r.id == id)) self.old) }
        ensures absent { find (λ r. r.id == id) self.old ≡ None → IsOk result }
        ensures unchanged { OnErr result (self.new ≡ self.old) }
    {
        // For the prover: what is pending of requests.
        pending_law();
        let entries = self.pending.take(id)?;
        let Some(request) = self.items.remove(&id) else {
            return Ok(None);
        };
        let Request { seat, asked, .. } = request;
        drop(asked);
        let entries = entries.unwrap_or(Vec::new(self.alloc));
        Ok(Some(Settled {
            seat,
            entries: Entries::of(entries),
        }))
    }

    /// A seat goes: its requests stay, without a seat, and its writes stay pending. Takes no memory.
    pub fn close(&mut self, seat: u64)
        ensures { self.new ≡ map (unseated seat) self.old }
    {
        // For the prover: what is pending of requests.
        pending_law();
        unseat_all(&mut self.items, seat);
    }
}
