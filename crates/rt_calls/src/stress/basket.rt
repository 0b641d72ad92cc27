// A sink that keeps what it is given, and a gate that says yes so often.
ghost use Rattle.std.specs.Prelude.{[], ◌∷◌, ◌++◌};
ghost use Rattle.circular_buffer.specs.Buffer.{buffer, keep_last};

use circular_buffer::HeapCircularBuffer;
use rt_client::{Gate, Sink};
use rt_mail::Item;
use std::alloc::{AllocError, Global};
use std::sync::atomic::{AtomicU64, Ordering};

#[derive(Drop)]
pub(crate) struct Basket {
    items: HeapCircularBuffer<Item>,
}

impl Basket {
    // With room for so many items.
    pub(crate) fn new(alloc: Global, room: usize) -> Result<Basket, AllocError> {
        let items = HeapCircularBuffer::with_capacity(alloc, room)?;
        Ok(Basket { items })
    }

    // The first item.
    pub(crate) fn next(&mut self) -> Option<Item> {
        self.items.pop_front()
    }
}

impl Sink for Basket {
    ghost after_item = { λ basket item. record basket {
      items = buffer (keep_last basket.items.capacity (basket.items.items ++ item ∷ []))
          basket.items.capacity;
    } };

    fn take(&mut self, item: Item) {
        drop(self.items.push_back(item));
    }
}

// It says yes so often, and then no.
#[derive(Drop)]
pub(crate) struct Often {
    yes: u64,
    asked: AtomicU64,
}

impl Often {
    pub(crate) fn new(yes: u64) -> Often {
        Often {
            yes,
            asked: AtomicU64::new(0),
        }
    }
}

impl Gate for Often {
    fn go(&self) -> bool {
        self.asked.fetch_add(1, Ordering::SeqCst) < self.yes
    }
}
