// What waits for a seat.
ghost use Rattle.std.specs.Prelude.{◌≡◌, ◌<◌, ◌↔◌, ◌∷◌, [], ◌++◌, IsTrue, OnOk, IfErr, Some, min, length};
ghost use Rattle.std.specs.Prelude.{◌+◌, IfOk, drop};
ghost use Rattle.std.specs.List.{slice_get};
ghost use Rattle.rt_mail.specs.Mailbox.{nothing_known};
ghost use Rattle.rt_mail.specs.Lanes.{room, with_items, with_waiting, HandsOver, signed_lane, is_working};
ghost use Rattle.rt_mail.specs.Lanes.{why_not, new_ring};
ghost use Rattle.rt_mail.specs.inside.Histories.{line_of};
ghost use Rattle.rt_mail.specs.declared.item.Item.TheVariants as item;

use crate::error::MailError;
use crate::item::{History, Item, Receipt};
use circular_buffer::HeapCircularBuffer;
use std::alloc::{AllocError, Global};
use std::collections::VecDeque;
use std::marker::Model;

/// The items that wait for a seat. Contracts see beside them the mirror of all that was handed over to
/// it, by a history that only proofs read: it takes no memory, and nothing at run time.
pub struct Lane {
    waiting: VecDeque<Item>,
    handed: History<Item>,
}

impl Drop for Lane {
    fn drop(self) {
        let Lane {
            waiting: _,
            handed: _,
        } = self;
    }
}

impl Model for Lane {
    ghost use Rattle.rt_mail.specs.Lanes.{Line};
    ghost use Rattle.rt_mail.specs.inside.Histories.{line_of};

    ghost Value = { Line };

    ghost view = { λ a. line_of a.waiting.items a.handed.items };
}

/// An item that a lane did not queue, handed back, and why.
#[derive(Drop)]
pub struct Unqueued {
    pub item: Item,
    pub why: MailError,
}

// Hands over as many items as the ring has room for, in order; the history takes just these.
fn hand_over(waiting: &mut VecDeque<Item>, handed: &mut History<Item>, inbox: &mut Inbox)
    ensures { HandsOver (min (length waiting.old.items) (room inbox.old))
        (line_of waiting.old.items handed.old.items) inbox.old
        (line_of waiting.new.items handed.new.items) inbox.new }
{
    while inbox.room() > 0 {
        let Some(item) = waiting.pop_front() else {
            return;
        };
        *handed = handed.and(&item);
        inbox.put(item);
    }
}

impl Lane {
    /// Nothing waits, and nothing was handed over.
    pub fn new(alloc: Global) -> Lane
        ensures { result ≡ record { waiting = []; mirror = Some nothing_known } }
    {
        Lane {
            waiting: VecDeque::new(alloc),
            handed: History::new(),
        }
    }

    /// The item waits, last. After a refusal it is handed back, and the lane is unchanged.
    ///
    /// # Errors
    ///
    /// Want of memory; a lane never fails.
    pub fn queue(&mut self, item: Item) -> Result<(), Unqueued>
        ensures queued { OnOk result (self.new ≡ with_waiting item self.old) }
        ensures working { OnOk result (IsTrue (is_working self.old)) }
        ensures unchanged { IfErr result (λ e. (e.item ≡ item) × (self.new ≡ self.old)) }
        ensures why { IfErr result (λ e. e.why ≡ why_not self.old) }
    {
        match self.waiting.push_back(item) {
            Ok(()) => Ok(()),
            Err(refused) => Err(Unqueued {
                item: refused.value,
                why: MailError::NoMemory,
            }),
        }
    }

    /// Whether the ring has room for all that waits and one more.
    pub fn has_room(&self, inbox: &Inbox) -> bool
        ensures { IsTrue result ↔ (length self.now.waiting < room inbox.now) }
    {
        inbox.room() > self.waiting.len()
    }

    /// How many items wait.
    pub fn len(&self) -> usize
        ensures { result ≡ length self.now.waiting }
    {
        self.waiting.len()
    }

    /// Hands over as many items as the ring has room for, in order. Items are moved, and none is
    /// copied. It takes no memory.
    pub fn flush(&mut self, inbox: &mut Inbox)
        ensures flushed { HandsOver (min (length self.old.waiting) (room inbox.old))
            self.old inbox.old self.new inbox.new }
        ensures working { IsTrue (is_working self.old) }
    {
        hand_over(&mut self.waiting, &mut self.handed, inbox);
    }

    /// Hands over all that waits and then a receipt. The caller has seen that there is room:
    /// [`Lane::has_room`]. It takes no memory.
    pub fn sign(&mut self, inbox: &mut Inbox, receipt: Receipt)
        requires room { length self.old.waiting < room inbox.old }
        ensures ring { inbox.new
            ≡ with_items (self.old.waiting ++ item.Receipt receipt ∷ []) inbox.old }
        ensures lane { self.new ≡ signed_lane receipt self.old }
        ensures working { IsTrue (is_working self.old) }
    {
        self.flush(inbox);
        let item = Item::Receipt(receipt);
        self.handed = self.handed.and(&item);
        inbox.put(item);
    }
}

// ---- a seat's ring

/// The most items that a ring has room for.
pub const MAX_CAPACITY: usize = 65_536;

/// The items that were handed over to a seat and that it has not taken: a ring, its own.
pub struct Inbox {
    ring: HeapCircularBuffer<Item>,
}

impl Drop for Inbox {
    fn drop(self) {
        let Inbox { ring: _ } = self;
    }
}

impl Model for Inbox {
    ghost use Rattle.rt_mail.specs.Lanes.{Ring};

    ghost Value = { Ring };

    ghost view = { λ a. record { items = a.ring.items; capacity = a.ring.capacity } };
}

impl Inbox {
    /// An empty ring with room for so many items; a 0 counts as 1, and more than 65,536 as that.
    ///
    /// # Errors
    ///
    /// Want of memory.
    pub fn new(alloc: Global, capacity: usize) -> Result<Inbox, AllocError>
        ensures { IfOk result (λ inbox. inbox ≡ new_ring capacity) }
    {
        let ring = HeapCircularBuffer::with_capacity(alloc, capacity.max(1).min(MAX_CAPACITY))?;
        Ok(Inbox { ring })
    }

    /// Takes the first item, if there is one. Waits for nobody, and takes no memory.
    pub fn next(&mut self) -> Option<Item>
        ensures first { result ≡ slice_get self.old.items 0 }
        ensures rest { self.new ≡ record (self.old) { items = drop 1 self.old.items } }
    {
        self.ring.pop_front()
    }

    /// How many items it holds.
    pub fn len(&self) -> usize
        ensures { result ≡ length self.now.items }
    {
        self.ring.len()
    }

    // How many items there is room for besides.
    pub(crate) fn room(&self) -> usize
        ensures room { result ≡ room self.now }
        ensures fits { length self.now.items + result ≡ self.now.capacity }
    {
        self.ring.capacity() - self.ring.len()
    }

    // Puts an item behind the others.
    pub(crate) fn put(&mut self, item: Item)
        requires { 0 < room self.old }
        ensures { self.new ≡ with_items (item ∷ []) self.old }
    {
        drop(self.ring.push_back(item));
    }
}
