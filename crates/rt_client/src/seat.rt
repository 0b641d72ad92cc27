// A seat.
ghost use Rattle.std.specs.Prelude.{◌≡◌, IsTrue, is_some, IfOk, IfErr, [], drop, not};
ghost use Rattle.std.specs.List.{fold, slice_get};
ghost use Rattle.rt_mail.specs.declared.error.MailError.TheVariants.{NoMemory};
ghost use Rattle.rt_client.specs.Waiting.{has_none};
ghost use Rattle.rt_client.specs.Delivery.{emptied, TakesAll, TakesSome, IsMirrored, RefusesMirror};
ghost use Rattle.rt_client.specs.Giving.{Gives, RefusesGiving};

use crate::client::Client;
use crate::delivery::Sink;
use crate::error::ClientError;
use rt_mail::{Inbox, Item, MailError, Mirror};
use std::marker::Model;
use std::sync::Wait;

/// A thread's own end of a client: its ring. It is shared with nobody.
pub struct Seat {
    pub(crate) client: u64,
    pub(crate) number: u64,
    pub(crate) inbox: Inbox,
}

impl Drop for Seat {
    fn drop(self) {
        let Seat {
            client: _,
            number: _,
            inbox: _,
        } = self;
    }
}

impl Model for Seat {
    ghost use Rattle.rt_client.specs.Calls.{Seated};

    ghost Value = { Seated };

    ghost view = { λ a. record { client = a.client; number = a.number; ring = a.inbox } };
}

// Gives the sink all that the ring holds, in order.
fn give_all<S: Sink>(inbox: &mut Inbox, sink: &mut S)
    ensures sink { sink.new ≡ fold S.after_item sink.old inbox.old.items }
    ensures ring { inbox.new ≡ record (inbox.old) { items = [] } }
{
    while let Some(item) = inbox.next() {
        sink.take(item);
    }
}

// Takes all that the ring holds into a mirror that has not failed, in order: how many.
fn mirror_all(inbox: &mut Inbox, mirror: &mut Mirror) -> Result<usize, MailError>
    requires { IsTrue (is_some mirror.old) }
    ensures taken { IfOk result (λ n. TakesAll inbox.old mirror.old n inbox.new mirror.new) }
    ensures refused { IfErr result (λ e. e ≡ NoMemory) }
    ensures some { IfErr result (λ _. TakesSome inbox.old mirror.old inbox.new mirror.new) }
{
    let count = inbox.len();
    while let Some(item) = inbox.next() {
        mirror.take(item)?;
    }
    Ok(count)
}

impl Seat {
    // Whether its ring holds something.
    pub(crate) fn has_items(&self) -> bool
        ensures { result ≡ not (has_none self.now.ring.items) }
    {
        self.inbox.len() > 0
    }

    /// Takes the first item that the ring holds, if there is one. Waits for nobody, and takes no
    /// memory and no lock.
    pub fn next(&mut self) -> Option<Item>
        ensures first { result ≡ slice_get self.old.ring.items 0 }
        ensures rest { self.new ≡ record (self.old) {
          ring = record (self.old.ring) { items = drop 1 self.old.ring.items };
        } }
    {
        self.inbox.next()
    }

    /// Gives the sink all that the ring holds, in order. Waits for nobody, and takes no memory and no
    /// lock.
    pub fn hand_out<S: Sink>(&mut self, sink: &mut S)
        ensures sink { sink.new ≡ fold S.after_item sink.old self.old.ring.items }
        ensures seat { self.new ≡ emptied self.old }
    {
        give_all(&mut self.inbox, sink);
    }

    /// Takes all that the ring holds into the mirror, in order, and answers how many that are.
    ///
    /// # Errors
    ///
    /// Failed where the mirror has failed, which changes nothing; else NoMemory, after which it has: the
    /// item for which memory lacked is dropped, and those behind it stay in the ring.
    pub fn mirror(&mut self, mirror: &mut Mirror) -> Result<usize, MailError>
        ensures taken { IfOk result (λ n. IsMirrored self.old mirror.old n self.new mirror.new) }
        ensures refused { IfErr result (λ e.
            RefusesMirror self.old mirror.old e self.new mirror.new) }
    {
        if mirror.has_failed() {
            return Err(MailError::Failed);
        }
        let Ok(count) = mirror_all(&mut self.inbox, mirror) else {
            return Err(MailError::NoMemory);
        };
        Ok(count)
    }
}

// ---- what a seat is told, given to a thread's work

impl Seat {
    /// Gives each item to a work, in order, as it comes, until those who wait are told to stop or the work
    /// refuses one. Answers what the work answers to the last one: that it is done, or its own fault. The items
    /// behind one that it refuses stay with the seat.
    ///
    /// ```text
    /// seat.for_each(rt, &client, |item| show(rt, item))?
    /// ```
    ///
    /// # Errors
    ///
    /// As of [`Client::wait`].
    pub fn for_each<R: Wait, E, F: FnMut(&Item) -> Result<(), E>>(
        &mut self,
        rt: &R,
        client: &Client,
        f: F,
    ) -> Result<Result<(), E>, ClientError>
        requires callable { F.IsAlwaysCallable f }
        ensures given { IfOk result (λ done. Gives F.FnMut f self.old done self.new) }
        ensures refused { IfErr result (λ e. RefusesGiving F.FnMut f self.old e self.new) }
    {
        let mut f = f;
        for _ in rt.forever() {
            client.wait(rt, self)?;
            let Some(item) = self.next() else {
                return Ok(Ok(()));
            };
            let taken = f(&item);
            drop(item);
            match taken {
                Ok(()) => {}
                Err(why) => return Ok(Err(why)),
            }
        }
        unreachable!()
    }
}
