// A seat as C has it, and which kinds of changes its listeners are told.
ghost use Rattle.std.specs.Prelude.{◌≡◌, ◌≢◌, ◌⊎◌, ◌↔◌, ◌++◌, false, if◌then◌else◌, take, drop, string_bytes};
ghost use Rattle.std.specs.Prelude.{None, Some, IfOk, IfErr, IfSome, OnOk, Ok, IsTrue, []};
ghost use Rattle.std.specs.List.{slice_get};
ghost use Rattle.rt_client.specs.Settling as settling;
ghost use Rattle.rt_client.specs.declared.error.ClientError.TheVariants.{NoMemory};
ghost use Rattle.rt_foreign.specs.Clients.{new_place};
ghost use Rattle.rt_foreign.specs.Items.{item_text};
ghost use Rattle.rt_foreign.specs.Places.{GivesNext, looked};
ghost use Rattle.rt_foreign.specs.Room.{CanHold, IsFull, IsSeated, LacksRoom, MakesCall, RefusesCall};
ghost use Rattle.rt_foreign.specs.Room.{TakesAll, TakesOut};
ghost use Rattle.rt_foreign.specs.Wants.{after_given, ended, kinds_of, told, wanted, with_want};
ghost use Rattle.rt_mail.specs.declared.item.Item.TheVariants as kind;

use crate::item::item_text;
use crate::session::give;
use crate::status::{DONE, NO_MEMORY, NONE};
use rt_client::{Call, ClientError, Done, Seat, Shared, Uncalled, try_call, with_seat};
use rt_mail::{Item, Receipt};
use rt_view::{Batch, Kinds, of_kinds};
use std::alloc::{AllocError, Global};
use std::collections::{BTreeMap, VecDeque};
use std::marker::Model;

// ---- the items that were taken out of a ring

// Items that were taken out of a seat's ring, in order. There is a place for one from the start.
struct Taken {
    items: VecDeque<Item>,
}

impl Drop for Taken {
    fn drop(self) {
        let Taken { items: _ } = self;
    }
}

impl Model for Taken {
    ghost use Rattle.std.specs.Prelude.{List, ◌<◌};
    ghost use Rattle.std.specs.VecDeque.{deque_capacity};
    ghost use Rattle.rt_mail.specs.declared.item.Item.{Item};

    ghost Value = { List Item };

    ghost view = { λ t. t.items.items };

    ghost invariant = { λ t. 0 < deque_capacity t.items };
}

impl Taken {
    fn new(alloc: Global) -> Result<Taken, AllocError>
        ensures { IfOk result (λ taken. taken ≡ []) }
    {
        Ok(Taken {
            items: VecDeque::with_capacity(alloc, 1)?,
        })
    }

    fn is_empty(&self) -> bool
        ensures { IsTrue result ↔ (self.now ≡ []) }
    {
        self.items.is_empty()
    }

    fn first(&self) -> Option<&Item>
        ensures some { IfSome result (λ item. slice_get self.now 0 ≡ Some item.now) }
        ensures none { result ≡ None → slice_get self.now 0 ≡ None }
    {
        self.items.front()
    }

    fn drop_first(&mut self)
        ensures { self.new ≡ drop 1 self.old }
    {
        drop(self.items.pop_front());
    }

    // Takes the first item out of a ring, where nothing is taken yet: for one there is a place.
    fn take_only(&mut self, seat: &mut Seat)
        requires { self.old ≡ [] }
        ensures taken { self.new ≡ take 1 seat.old.ring.items }
        ensures rest { seat.new ≡ record (seat.old) {
          ring = record (seat.old.ring) { items = drop 1 seat.old.ring.items };
        } }
    {
        if let Some(item) = seat.next() {
            self.items.push_back_reserved(item);
        }
    }

    // Takes the first item out of a ring, behind the others; false where there is none. Room is made before it moves.
    #[tactic(auto, using(crate::proofs::Room::first_moved, crate::proofs::Room::none_moved, crate::proofs::Room::none_there))]
    fn take_next(&mut self, seat: &mut Seat) -> Result<bool, AllocError>
        ensures taken { OnOk result (self.new ≡ self.old ++ take 1 seat.old.ring.items) }
        ensures rest { OnOk result (seat.new ≡ record (seat.old) {
          ring = record (seat.old.ring) { items = drop 1 seat.old.ring.items };
        }) }
        ensures none { result ≡ Ok false → seat.old.ring.items ≡ [] }
        ensures unchanged { IfErr result (λ _. (self.new ≡ self.old) × (seat.new ≡ seat.old)) }
    {
        self.items.reserve(1)?;
        let Some(item) = seat.next() else {
            return Ok(false);
        };
        self.items.push_back_reserved(item);
        Ok(true)
    }
}

// ---- a call of a seat

// The ring gets what waits, and its first item is taken out; false where there was none.
#[tactic(auto, using(crate::proofs::Room::out_settled, crate::proofs::Room::out_first, crate::proofs::Room::out_none, crate::proofs::Room::open_settles))]
fn take_out(shared: &mut Shared, seat: &mut Seat, taken: &mut Taken) -> Result<bool, ClientError>
    requires is_open { IsSeated shared.old seat.old }
    requires can_hold { CanHold seat.old }
    ensures taken { OnOk result (TakesOut shared.old seat.old taken.old shared.new seat.new taken.new) }
    ensures all { result ≡ Ok false
        → TakesAll shared.old seat.old taken.old shared.new seat.new taken.new }
    ensures refused { IfErr result (λ e. (e ≡ NoMemory)
        × TakesOut shared.old seat.old taken.old shared.new seat.new taken.new) }
{
    shared.settle(seat)?;
    match taken.take_next(seat) {
        Ok(is_there) => Ok(is_there),
        Err(_no_memory) => Err(ClientError::NoMemory),
    }
}

// All is taken out of the ring, and all that waits. No memory holds as many items as the loop goes over.
#[tactic(auto, using(crate::proofs::Room::far_first, crate::proofs::Room::far_more, crate::proofs::Room::far_all, crate::proofs::Room::far_lacks, crate::proofs::Room::far_lacks_more))]
fn take_all_out(shared: &mut Shared, seat: &mut Seat, taken: &mut Taken) -> Result<(), ClientError>
    requires full { IsFull shared.old seat.old }
    requires can_hold { CanHold seat.old }
    ensures all { OnOk result (TakesAll shared.old seat.old taken.old shared.new seat.new taken.new) }
    ensures refused { IfErr result (λ e.
        LacksRoom shared.old seat.old taken.old e shared.new seat.new taken.new) }
{
    'items: for _ in 0..u64::MAX {
        if !take_out(shared, seat, taken)? {
            return Ok(());
        }
    }
    Err(ClientError::NoMemory)
}

// Makes a call once all is taken out of the ring, which was full.
#[tactic(auto, using(crate::proofs::Room::full_made, crate::proofs::Room::full_refused))]
fn call_when_full(
    shared: &mut Shared,
    seat: &mut Seat,
    taken: &mut Taken,
    call: Call,
) -> Result<Done, ClientError>
    requires full { IsFull shared.old seat.old }
    requires can_hold { CanHold seat.old }
    ensures made { IfOk result (λ done.
        MakesCall shared.old seat.old taken.old call done shared.new seat.new taken.new) }
    ensures refused { IfErr result (λ e.
        RefusesCall shared.old seat.old taken.old call e shared.new seat.new taken.new) }
{
    take_all_out(shared, seat, taken)?;
    with_seat(shared, seat, call)
}

// Makes a call: where the ring is full, once all is taken out of it.
#[tactic(auto, using(crate::proofs::Room::plain_made, crate::proofs::Room::plain_refused, crate::proofs::Room::full_found, crate::proofs::Room::full_made_of, crate::proofs::Room::full_refused_of, crate::proofs::Room::holds_refused))]
fn make_call(
    shared: &mut Shared,
    seat: &mut Seat,
    taken: &mut Taken,
    call: Call,
) -> Result<Done, ClientError>
    requires can_hold { CanHold seat.old }
    ensures made { IfOk result (λ done.
        MakesCall shared.old seat.old taken.old call done shared.new seat.new taken.new) }
    ensures refused { IfErr result (λ e.
        RefusesCall shared.old seat.old taken.old call e shared.new seat.new taken.new) }
{
    let (call, why) = match try_call(shared, seat, call) {
        Ok(done) => return Ok(done),
        Err(Uncalled { call, why }) => (call, why),
    };
    match why {
        ClientError::MailboxFull => match call {
            Some(call) => call_when_full(shared, seat, taken, call),
            None => unreachable!(),
        },
        ClientError::Failed
        | ClientError::WrongSeat
        | ClientError::TooManySeats
        | ClientError::Core(_)
        | ClientError::NoMemory => {
            drop(call);
            Err(why)
        }
    }
}

// ---- a seat

/// A seat, the items that were taken out of its ring and are given before those in it, and which kinds of changes its
/// listeners are told.
pub(crate) struct OpenSeat {
    seat: Seat,
    taken: Taken,
    wants: Wants,
}

impl Drop for OpenSeat {
    fn drop(self) {
        let OpenSeat {
            seat: _,
            taken: _,
            wants: _,
        } = self;
    }
}

impl Model for OpenSeat {
    ghost use Rattle.rt_foreign.specs.Places.{OpenSeat as Seen};
    ghost use Rattle.rt_foreign.specs.Room.{CanHold};

    ghost Value = { Seen };

    ghost view = { λ s. record { seat = s.seat; taken = s.taken; wants = s.wants } };

    ghost invariant = { λ s. CanHold s.seat };
}

impl OpenSeat {
    /// A seat whose listeners are told all, and of whose ring nothing was taken out.
    pub(crate) fn new(alloc: Global, seat: Seat) -> Result<OpenSeat, AllocError>
        requires { CanHold seat }
        ensures { IfOk result (λ place. place ≡ new_place seat) }
    {
        Ok(OpenSeat {
            seat,
            taken: Taken::new(alloc)?,
            wants: Wants::new(alloc),
        })
    }

    /// Makes a call. It is never refused since the ring is full: all is taken out of the ring then.
    #[tactic(auto, using(crate::proofs::Room::called_holds))]
    pub(crate) fn call(&mut self, shared: &mut Shared, call: Call) -> Result<Done, ClientError>
        ensures made { IfOk result (λ done. MakesCall shared.old self.old.seat self.old.taken call done
            shared.new self.new.seat self.new.taken) }
        ensures refused { IfErr result (λ e. RefusesCall shared.old self.old.seat self.old.taken call e
            shared.new self.new.seat self.new.taken) }
        ensures kept { self.new.wants ≡ self.old.wants }
    {
        make_call(shared, &mut self.seat, &mut self.taken, call)
    }

    /// Hands over to the ring what waits for the seat.
    #[tactic(auto, using(crate::proofs::Room::holds_either))]
    pub(crate) fn settle(&mut self, shared: &mut Shared) -> Result<(), ClientError>
        ensures settled { OnOk result (settling.Settles shared.old self.old.seat shared.new self.new.seat) }
        ensures refused { IfErr result (λ e.
            settling.RefusesSettle shared.old self.old.seat e shared.new self.new.seat) }
        ensures memory { IfErr result (λ e. e ≢ NoMemory) }
        ensures kept { self.new ≡ record (self.old) { seat = self.new.seat } }
    {
        shared.settle(&mut self.seat)
    }

    /// From then on the batches of a listener are given with these kinds of changes alone.
    pub(crate) fn want(&mut self, listener: u64, kinds: Kinds) -> Result<(), AllocError>
        ensures wanted { OnOk result (self.new
            ≡ record (self.old) { wants = with_want listener kinds self.old.wants }) }
        ensures unchanged { IfErr result (λ _. self.new ≡ self.old) }
    {
        self.wants.want(listener, kinds)
    }

    // Takes the first item out of the ring, where none was taken out before.
    #[tactic(auto, using(crate::proofs::Room::looked_empty, crate::proofs::Room::looked_there))]
    fn look(&mut self)
        ensures { self.new ≡ looked self.old }
    {
        if self.taken.is_empty() {
            self.taken.take_only(&mut self.seat);
        }
    }

    /// Gives the text of the first item, where its room is enough for it: then the item is gone.
    #[tactic(auto, using(crate::proofs::Giving::next_none, crate::proofs::Giving::next_lacks, crate::proofs::Giving::next_given, crate::proofs::Giving::next_kept))]
    pub(crate) fn next(&mut self, alloc: Global, out: &mut [u8], len: &mut usize) -> u32
        ensures { GivesNext self.old out.old result self.new out.new len.new }
    {
        *len = 0;
        self.look();
        let Some(item) = self.taken.first() else {
            return NONE;
        };
        let Ok(text) = self.wants.text(alloc, item) else {
            return NO_MEMORY;
        };
        let status = give(text.as_str().as_bytes(), out, len);
        if status == DONE {
            self.wants.forget(item);
            self.taken.drop_first();
        }
        status
    }
}

// ---- which kinds of changes the batches of a seat's listeners are given with

/// The kinds that bits ask for: of 1 removed, 2 added, 4 moved, 8 changed, 16 the value. Other bits are passed over.
pub fn kinds_of(bits: u32) -> Kinds
    ensures { result ≡ kinds_of bits }
{
    Kinds {
        removed: bits % 2 == 1,
        added: bits / 2 % 2 == 1,
        moved: bits / 4 % 2 == 1,
        changed: bits / 8 % 2 == 1,
        value: bits / 16 % 2 == 1,
    }
}

/// The kinds that listeners are told, by the numbers of the listeners. One that is not named is told all.
pub struct Wants {
    kinds: BTreeMap<u64, Kinds>,
}

impl Drop for Wants {
    fn drop(self) {
        let Wants { kinds: _ } = self;
    }
}

impl Model for Wants {
    ghost use Rattle.std.specs.BTreeMap.{IsOrdered};
    ghost use Rattle.std.specs.Ordering.{nat_cmp};
    ghost use Rattle.rt_foreign.specs.Wants.{Wants as Asked};

    ghost Value = { Asked };

    ghost view = { λ a. a.kinds.entries };

    ghost invariant = { λ a. IsOrdered nat_cmp a.kinds };
}

impl Wants {
    /// All listeners are told all kinds.
    pub fn new(alloc: Global) -> Wants
        ensures { result ≡ [] }
    {
        Wants {
            kinds: BTreeMap::new(alloc),
        }
    }

    /// A listener is told these kinds from then on.
    pub fn want(&mut self, listener: u64, kinds: Kinds) -> Result<(), AllocError>
        ensures wanted { OnOk result (self.new ≡ with_want listener kinds self.old) }
        ensures unchanged { IfErr result (λ _. self.new ≡ self.old) }
    {
        drop(self.kinds.insert(listener, kinds)?);
        Ok(())
    }

    // The kinds that a listener is told, where it is not told all.
    fn of(&self, listener: u64) -> Option<Kinds>
        ensures { result ≡ wanted listener self.now }
    {
        self.kinds.get(&listener).copied()
    }

    // What was said of a listener goes with it.
    fn end(&mut self, listener: u64)
        ensures { self.new ≡ ended listener self.old }
    {
        drop(self.kinds.remove(&listener));
    }

    // A batch with the kinds that its listener is told.
    fn batch_text(&self, alloc: Global, item: &Item, batch: &Batch) -> Result<String, AllocError>
        requires { item.now ≡ kind.Batch batch.now }
        ensures { IfOk result (λ text. string_bytes text ≡ item_text (told self.now item.now)) }
    {
        let Some(kinds) = self.of(batch.listener) else {
            return item_text(alloc, item);
        };
        let changes = of_kinds(alloc, batch, kinds)?;
        let listener = batch.listener;
        let few = Item::Batch(Batch { listener, changes });
        item_text(alloc, &few)
    }

    /// What a seat is told, as JSON, with the kinds that its listener is told.
    pub fn text(&self, alloc: Global, item: &Item) -> Result<String, AllocError>
        ensures { IfOk result (λ text. string_bytes text ≡ item_text (told self.now item.now)) }
    {
        match item {
            Item::Batch(batch) => self.batch_text(alloc, item, batch),
            Item::Receipt(_) | Item::Settled { .. } | Item::Cancelled { .. } => {
                item_text(alloc, item)
            }
        }
    }

    /// An item was given: with the last of a listener goes what was said of it.
    pub fn forget(&mut self, item: &Item)
        ensures { self.new ≡ after_given self.old item.now }
    {
        match item {
            Item::Receipt(Receipt::Unlistened { listener }) => self.end(*listener),
            Item::Cancelled { listener, .. } => self.end(*listener),
            Item::Receipt(Receipt::Listened { .. } | Receipt::Wrote { .. } | Receipt::Asked { .. })
            | Item::Batch(_)
            | Item::Settled { .. } => {}
        }
    }
}
