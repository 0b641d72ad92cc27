// The lanes of a client's seats.
ghost use Rattle.std.specs.Prelude.{◌≡◌, ◌↔◌, OnOk, IfOk, IfErr, IsTrue, Some, None, is_some};
ghost use Rattle.std.specs.Prelude.{ℕ, ◌+◌, ◌<◌, ◌≤◌, length, replicate};
ghost use Rattle.std.specs.Option.{option_map, option_map_or};
ghost use Rattle.rt_mail.specs.Lanes.{Line, why_not, with_waiting, signed_lane};
ghost use Rattle.rt_client.specs.Seats.{item_of};
ghost use Rattle.rt_client.specs.Lanes.{new_lane, lane_of, AreQueued, StopsAt, IsChanged, HasRoom};
ghost use Rattle.rt_client.specs.Lanes.{settled, settled_ring, signed_ring};
ghost use Rattle.rt_client.specs.Opened.{AreOpenBelow};
ghost use Rattle.rt_client.specs.Waiting.{is_quiet};

use rt_mail::{Inbox, Item, Lane, MailError, Receipt, Unqueued};
use rt_world::{Body, Note, Notes};
use std::alloc::{AllocError, Global};
use std::marker::Model;

// The lanes of a client's seats, that of the first seat first; none where the seat is closed.
pub(crate) struct Lanes {
    lanes: Vec<Option<Lane>>,
}

impl Drop for Lanes {
    fn drop(self) {
        let Lanes { lanes: _ } = self;
    }
}

impl Model for Lanes {
    ghost use Rattle.std.specs.Prelude.{List, Option};
    ghost use Rattle.rt_mail.specs.Lanes.{Line};

    ghost Value = { List (Option Line) };

    ghost view = { λ a. a.lanes.items };
}

// What a note tells, as an item.
fn item_from(body: Body) -> Item
    ensures { result ≡ item_of body }
{
    match body {
        Body::Settled { id, why } => Item::Settled { id, why },
        Body::Cancelled { listener, why } => Item::Cancelled { listener, why },
        Body::Batch(batch) => Item::Batch(batch),
    }
}

// The item waits in the lane, if it is open; else it is dropped.
fn queue_in(lane: &mut Option<Lane>, item: Item) -> Result<(), MailError>
    ensures queued { OnOk result (lane.new ≡ option_map (with_waiting item) lane.old) }
    ensures refused { IfErr result (λ e. (l : Line) × (lane.old ≡ Some l) × (e ≡ why_not l)) }
    ensures unchanged { IfErr result (λ _. lane.new ≡ lane.old) }
{
    match lane {
        Some(lane) => match lane.queue(item) {
            Ok(()) => Ok(()),
            Err(Unqueued { item, why }) => {
                drop(item);
                Err(why)
            }
        },
        None => {
            drop(item);
            Ok(())
        }
    }
}

// The item waits in the seat's lane, if that is open.
fn queue(lanes: &mut Vec<Option<Lane>>, seat: u64, item: Item) -> Result<(), MailError>
    ensures queued { OnOk result (IsChanged seat
        (option_map (with_waiting item) (lane_of lanes.old.items seat)) lanes.old.items lanes.new.items) }
    ensures refused { IfErr result (λ e. (l : Line) × (lane_of lanes.old.items seat ≡ Some l)
        × (e ≡ why_not l)) }
    ensures unchanged { IfErr result (λ _. lanes.new.items ≡ lanes.old.items) }
{
    if seat == 0 || (seat - 1) as usize >= lanes.len() {
        drop(item);
        return Ok(());
    }
    queue_in(&mut lanes[(seat - 1) as usize], item)
}

// Each note waits in its seat's lane, in order.
fn queue_each(lanes: &mut Vec<Option<Lane>>, notes: Vec<Note>) -> Result<(), MailError>
    ensures queued { OnOk result (AreQueued notes.items lanes.old.items lanes.new.items) }
    ensures stops { IfErr result (λ e. StopsAt notes.items lanes.old.items e lanes.new.items) }
{
    for note in notes {
        queue(lanes, note.seat, item_from(note.body))?;
    }
    Ok(())
}

// The lane hands over what the ring has room for, if it is open.
fn flush_lane(lane: &mut Option<Lane>, inbox: &mut Inbox)
    ensures lane { lane.new ≡ option_map (settled inbox.old) lane.old }
    ensures ring { inbox.new ≡ option_map_or (settled_ring inbox.old) lane.old inbox.old }
{
    let Some(lane) = lane else {
        return;
    };
    lane.flush(inbox);
}

// The seat's lane hands over what its ring has room for, if it is open.
fn flush_at(lanes: &mut Vec<Option<Lane>>, seat: u64, inbox: &mut Inbox)
    ensures lane { IsChanged seat (option_map (settled inbox.old) (lane_of lanes.old.items seat))
        lanes.old.items lanes.new.items }
    ensures ring { inbox.new
        ≡ option_map_or (settled_ring inbox.old) (lane_of lanes.old.items seat) inbox.old }
{
    if seat == 0 || (seat - 1) as usize >= lanes.len() {
        return;
    }
    flush_lane(&mut lanes[(seat - 1) as usize], inbox);
}

// The lane hands over all that waits and then a receipt, if it is open.
fn sign_in(lane: &mut Option<Lane>, inbox: &mut Inbox, receipt: Receipt)
    requires { HasRoom inbox.old lane.old }
    ensures lane { lane.new ≡ option_map (signed_lane receipt) lane.old }
    ensures ring { inbox.new ≡ option_map_or (signed_ring receipt inbox.old) lane.old inbox.old }
{
    let Some(lane) = lane else {
        drop(receipt);
        return;
    };
    lane.sign(inbox, receipt);
}

// The seat's lane hands over all that waits and then a receipt, if it is open.
fn sign_at(lanes: &mut Vec<Option<Lane>>, seat: u64, inbox: &mut Inbox, receipt: Receipt)
    requires { HasRoom inbox.old (lane_of lanes.old.items seat) }
    ensures lane { IsChanged seat (option_map (signed_lane receipt) (lane_of lanes.old.items seat))
        lanes.old.items lanes.new.items }
    ensures ring { inbox.new
        ≡ option_map_or (signed_ring receipt inbox.old) (lane_of lanes.old.items seat) inbox.old }
{
    if seat == 0 || (seat - 1) as usize >= lanes.len() {
        drop(receipt);
        return;
    }
    sign_in(&mut lanes[(seat - 1) as usize], inbox, receipt);
}

// The seat's lane, if it is open.
fn lane_at(lanes: &[Option<Lane>], seat: u64) -> Option<&Lane>
    ensures { option_map (λ l. l.now) result ≡ lane_of lanes.now seat }
{
    if seat == 0 || (seat - 1) as usize >= lanes.len() {
        return None;
    }
    lanes[(seat - 1) as usize].as_ref()
}

// So many lanes in which nothing waits.
fn new_lanes(alloc: Global, seats: usize) -> Result<Vec<Option<Lane>>, AllocError>
    ensures { IfOk result (λ lanes. lanes.items ≡ replicate seats (Some new_lane)) }
{
    let mut lanes = Vec::with_capacity(alloc, seats)?;
    for seat in 0..seats {
        lanes.push_reserved(Some(Lane::new(alloc)));
    }
    Ok(lanes)
}

// How many lanes stand before the first place where there is none, which may be behind the last.
#[tactic(auto, using(crate::proofs::Slots::none_open, crate::proofs::Slots::open_more, crate::proofs::Slots::none_at, crate::proofs::Slots::none_behind,))]
fn free_place(lanes: &[Option<Lane>]) -> usize
    ensures within { result ≤ length lanes.now }
    ensures free { lane_of lanes.now (result + 1) ≡ None }
    ensures first { AreOpenBelow (result + 1) lanes.now }
{
    for place in 0..lanes.len() {
        if lanes[place].is_none() {
            return place;
        }
    }
    lanes.len()
}

// A new lane at a place where there is none, which may be behind the last.
#[tactic(auto, using(crate::proofs::Slots::set_at_place, crate::proofs::Slots::pushed_at_end))]
fn open_at(alloc: Global, lanes: &mut Vec<Option<Lane>>, place: usize) -> Result<(), AllocError>
    requires { place ≤ length lanes.old.items }
    ensures opened { OnOk result (IsChanged (place + 1) (Some new_lane) lanes.old.items lanes.new.items) }
    ensures unchanged { IfErr result (λ _. lanes.new.items ≡ lanes.old.items) }
{
    if place < lanes.len() {
        lanes[place] = Some(Lane::new(alloc));
        return Ok(());
    }
    lanes.push(Some(Lane::new(alloc)))?;
    Ok(())
}

// Drops the seat's lane, if it is open.
fn close_at(lanes: &mut Vec<Option<Lane>>, seat: u64)
    ensures { IsChanged seat None lanes.old.items lanes.new.items }
{
    if seat == 0 {
        return;
    }
    let place = (seat - 1) as usize;
    if place < lanes.len() {
        lanes[place] = None;
    }
}

impl Lanes {
    // A lane for each of so many seats, in which nothing waits.
    pub(crate) fn open(alloc: Global, seats: usize) -> Result<Lanes, AllocError>
        ensures { IfOk result (λ lanes. lanes ≡ replicate seats (Some new_lane)) }
    {
        let lanes = new_lanes(alloc, seats)?;
        Ok(Lanes { lanes })
    }

    // How many seats stand before the first one that is not open, which may be behind the last.
    pub(crate) fn free_place(&self) -> usize
        ensures within { result ≤ length self.now }
        ensures free { lane_of self.now (result + 1) ≡ None }
        ensures first { AreOpenBelow (result + 1) self.now }
    {
        free_place(self.lanes.as_slice())
    }

    // A new lane at a place where there is none, which may be behind the last.
    pub(crate) fn open_at(&mut self, alloc: Global, place: usize) -> Result<(), AllocError>
        requires { place ≤ length self.old }
        ensures opened { OnOk result (IsChanged (place + 1) (Some new_lane) self.old self.new) }
        ensures unchanged { IfErr result (λ _. self.new ≡ self.old) }
    {
        open_at(alloc, &mut self.lanes, place)
    }

    // Whether the seat is open.
    pub(crate) fn has_lane(&self, seat: u64) -> bool
        ensures { result ≡ is_some (lane_of self.now seat) }
    {
        lane_at(self.lanes.as_slice(), seat).is_some()
    }

    // Whether the seat is open, and nothing waits for it.
    pub(crate) fn is_quiet(&self, seat: u64) -> bool
        ensures { result ≡ is_quiet (lane_of self.now seat) }
    {
        match lane_at(self.lanes.as_slice(), seat) {
            Some(lane) => lane.len() == 0,
            None => false,
        }
    }

    // Whether the seat is open, and its ring has room for all that waits and one more.
    pub(crate) fn has_room(&self, seat: u64, inbox: &Inbox) -> bool
        ensures { IsTrue result ↔ HasRoom inbox.now (lane_of self.now seat) }
    {
        match lane_at(self.lanes.as_slice(), seat) {
            Some(lane) => lane.has_room(inbox),
            None => false,
        }
    }

    // Each note waits in its seat's lane, in order; the notes of closed seats are dropped.
    pub(crate) fn queue_all(&mut self, notes: Notes) -> Result<(), MailError>
        ensures queued { OnOk result (AreQueued notes self.old self.new) }
        ensures stops { IfErr result (λ e. StopsAt notes self.old e self.new) }
    {
        queue_each(&mut self.lanes, notes.into_vec())
    }

    // The seat's lane goes, and what waits in it; no other lane changes.
    pub(crate) fn close(&mut self, seat: u64)
        ensures { IsChanged seat None self.old self.new }
    {
        close_at(&mut self.lanes, seat)
    }

    // The seat's lane hands over what its ring has room for; without a lane nothing changes.
    pub(crate) fn settle(&mut self, seat: u64, inbox: &mut Inbox)
        ensures lane { IsChanged seat (option_map (settled inbox.old) (lane_of self.old seat))
            self.old self.new }
        ensures ring { inbox.new
            ≡ option_map_or (settled_ring inbox.old) (lane_of self.old seat) inbox.old }
    {
        flush_at(&mut self.lanes, seat, inbox);
    }

    // The seat's lane hands over all that waits and then a receipt; without a lane nothing changes.
    pub(crate) fn sign(&mut self, seat: u64, inbox: &mut Inbox, receipt: Receipt)
        requires { HasRoom inbox.old (lane_of self.old seat) }
        ensures lane { IsChanged seat (option_map (signed_lane receipt) (lane_of self.old seat))
            self.old self.new }
        ensures ring { inbox.new
            ≡ option_map_or (signed_ring receipt inbox.old) (lane_of self.old seat) inbox.old }
    {
        sign_at(&mut self.lanes, seat, inbox, receipt);
    }
}
