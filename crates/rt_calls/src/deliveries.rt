// What a ring holds is handed out, at once and over turns.
ghost use Rattle.std.specs.Prelude.{[], ◌∷◌, ◌++◌};
ghost use Rattle.circular_buffer.specs.Buffer.{buffer, keep_last};

use crate::clients::refused;
use crate::fault::{Fault, Told};
use crate::line::Line;
use crate::tell::tell_next;
use circular_buffer::HeapCircularBuffer;
use rt_client::{Client, ClientError, Gate, Seat, Sink};
use rt_mail::Item;
use std::alloc::Global;
use std::marker::PhantomData;
use std::sync::Wait;
use std::sync::atomic::{AtomicU64, Ordering};

// More items than a row hands out at once.
const ROOM: usize = 64;

// The items that were taken last, as many as there is room for.
#[derive(Drop)]
struct Basket {
    items: HeapCircularBuffer<Item>,
}

impl Sink for Basket {
    ghost after_item = { λ basket item. record basket {
      items = buffer (keep_last basket.items.capacity (basket.items.items ++ item ∷ []))
          basket.items.capacity;
    } };

    fn take(&mut self, item: Item) {
        drop(self.items.push_back(item));
    }
}

// A gate that says yes so often, and then no; and how often it was asked.
#[derive(Drop)]
struct Asked {
    yes: u64,
    times: AtomicU64,
}

impl Gate for Asked {
    fn go(&self) -> bool {
        self.times.fetch_add(1, Ordering::SeqCst) < self.yes
    }
}

// Who locks the client for each item, and how often that could be done.
#[derive(Drop)]
struct Locking<'a> {
    basket: Basket,
    client: &'a Client,
    free: &'a AtomicU64,
}

impl<'a> Sink for Locking<'a> {
    ghost after_item = { λ sink item. record sink {
      basket = record (sink.basket) {
        items = buffer (keep_last sink.basket.items.capacity (sink.basket.items.items ++ item ∷ []))
            sink.basket.items.capacity;
      };
    } };

    fn take(&mut self, item: Item) {
        if let Some(shared) = self.client.shared.try_lock() {
            drop(shared);
            self.free.fetch_add(1, Ordering::SeqCst);
        }
        self.basket.take(item);
    }
}

// Who may wait as R may. It has no bytes.
#[derive(Drop)]
struct Waits<R> {
    rt: PhantomData<R>,
}

impl<R: Wait> Wait for Waits<R> {}

// What kind of an item it is.
fn tell_kind(item: &Item, line: &mut Line) {
    line.say(match item {
        Item::Receipt(_) => " receipt",
        Item::Batch(_) => " batch",
        Item::Settled { .. } => " settled",
        Item::Cancelled { .. } => " cancelled",
    });
}

fn new_basket(alloc: Global) -> Result<Basket, Fault> {
    let items = HeapCircularBuffer::with_capacity(alloc, ROOM)?;
    Ok(Basket { items })
}

fn tell_all(basket: &mut Basket, line: &mut Line) {
    for _ in 0..basket.items.len() {
        if let Some(item) = basket.items.pop_front() {
            line.say("; ");
            tell_next(Some(item), line);
        }
    }
}

// `hand_out`: what the ring holds, in order.
pub(crate) fn hand_out(seat: &mut Seat, line: &mut Line) -> Told {
    let mut basket = new_basket(line.alloc)?;
    seat.hand_out(&mut basket);
    line.say("given");
    tell_all(&mut basket, line);
    Ok(())
}

// `deliver TURNS YES`: how often the gate was asked, why it was refused, if it was, whether the lock was
// held while the sink was given something, and what that was.
pub(crate) fn deliver<R: Wait>(client: &mut Client, seat: &mut Seat, line: &mut Line) -> Told {
    let (turns, yes) = (line.number(), line.number());
    line.sound()?;
    let basket = new_basket(line.alloc)?;
    let (times, free) = (AtomicU64::new(0), AtomicU64::new(0));
    let gate = Asked { yes, times };
    let mut sink = Locking {
        basket,
        client,
        free: &free,
    };
    let rt = Waits::<R> { rt: PhantomData };
    let answer = rt_client::deliver(&rt, client, seat, &mut sink, &gate, turns);
    if let Err(ClientError::NoMemory | ClientError::Failed) = answer {
        return Err(Fault::Lost);
    }
    line.display(&gate.times.load(Ordering::SeqCst));
    if let Err(error) = answer {
        line.say(" ");
        refused(error, line)?;
    }
    if free.load(Ordering::SeqCst) != sink.basket.items.len() as u64 {
        line.say(" under the lock");
    }
    tell_all(&mut sink.basket, line);
    Ok(())
}

// `for_each TIMES`: the kinds of so many items, of which the last is refused. It waits where there are fewer.
pub(crate) fn for_each<R: Wait>(client: &Client, seat: &mut Seat, line: &mut Line) -> Told {
    let mut left: u64 = line.number();
    line.sound()?;
    let rt = Waits::<R> { rt: PhantomData };
    let given = seat.for_each(&rt, client, |item| {
        tell_kind(item, line);
        left = left.wrapping_sub(1);
        if left == 0 { Err(()) } else { Ok(()) }
    });
    match given {
        Ok(Ok(())) => line.say(" and it stops"),
        Ok(Err(())) => line.say(" is refused"),
        Err(error) => return refused(error, line),
    }
    Ok(())
}
