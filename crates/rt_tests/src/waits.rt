// Threads that sleep over one client: a delivery ends once its gate says no and it is woken, and a wait
// once those who wait are told to stop.
use rt_client::{Client, Gate, Seat, Sink, crossing_law, deliver};
use rt_mail::Item;
use rt_world::Limits;
use std::sync::Wait;
use std::sync::atomic::{AtomicBool, Ordering};
use std::thread;
use std::thread::Threads;

// The most looks whether a gate was asked.
const LOOKS: u64 = 10_000_000;

// A gate that says yes until it is over.
#[derive(Drop)]
struct Until<'a> {
    asked: &'a AtomicBool,
    over: &'a AtomicBool,
}

impl<'a> Gate for Until<'a> {
    fn go(&self) -> bool {
        let over = self.over.load(Ordering::SeqCst);
        self.asked.store(true, Ordering::SeqCst);
        !over
    }
}

// A sink that keeps nothing.
#[derive(Drop)]
struct Nothing {}

impl Sink for Nothing {
    ghost after_item = { λ sink _. sink };

    fn take(&mut self, item: Item) {
        drop(item);
    }
}

// Whether a delivery of one turn, for which nothing comes, ends.
fn sleeps(
    rt: &impl Wait,
    client: &Client,
    seat: &mut Seat,
    asked: &AtomicBool,
    over: &AtomicBool,
) -> bool {
    deliver(rt, client, seat, &mut Nothing {}, &Until { asked, over }, 1).is_ok()
}

fn was_asked(asked: &AtomicBool) -> bool {
    for _ in 0..LOOKS {
        if asked.load(Ordering::SeqCst) {
            return true;
        }
        thread::yield_now();
    }
    false
}

// Whether a wait ends, for which nothing comes, after the gate was asked and has changed its answer.
fn wakes(
    rt: &impl Wait,
    client: &Client,
    seat: &mut Seat,
    asked: &AtomicBool,
    over: &AtomicBool,
) -> bool {
    let was_asked = was_asked(asked);
    over.store(true, Ordering::SeqCst);
    client.wake(rt);
    client.stop(rt);
    was_asked && client.wait(rt, seat) == Ok(false)
}

fn both<R: Threads + Wait + Sync>(
    rt: &R,
    client: &Client,
    first: &mut Seat,
    second: &mut Seat,
) -> (bool, bool) {
    // For the prover: what may go to another thread.
    crossing_law();
    let (asked, over) = (AtomicBool::new(false), AtomicBool::new(false));
    thread::join(
        rt,
        || sleeps(rt, client, first, &asked, &over),
        || wakes(rt, client, second, &asked, &over),
    )
}

#[test]
fn sleepers_are_woken(rt: HostRuntime) {
    let opened = Client::open(rt.alloc(), 1, &[8, 8], Limits::full());
    let (client, mut seats) = opened.expect(&rt, "a client");
    let mut second = seats.pop().expect(&rt, "a seat");
    let mut first = seats.pop().expect(&rt, "a seat");
    assert_eq!(rt; both(&rt, &client, &mut first, &mut second), (true, true));
}
