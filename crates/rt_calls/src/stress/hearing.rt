// How a seat's thread hears.

use crate::stress::basket::{Basket, Often};
use crate::stress::chance::Chance;
use crate::stress::diary::Diary;
use rt_client::{Client, Seat, Shared, deliver};
use std::sync::Wait;

// More items than are ever told at once.
pub(crate) const MOST: u64 = 1_000_000;

// Takes so many items at most from the ring: how many.
pub(crate) fn take(seat: &mut Seat, diary: &mut Diary, most: u64) -> u64 {
    for count in 0..most {
        let Some(item) = seat.next() else {
            return count;
        };
        diary.told(&item);
        drop(item);
    }
    most
}

// Settles the seat, and takes so many items at most.
pub(crate) fn settle<R: Wait>(
    rt: &R,
    client: &Client,
    seat: &mut Seat,
    diary: &mut Diary,
    most: u64,
) {
    let settled = client.shared.lock(rt).settle(seat);
    diary.need(settled.is_ok());
    let _count = take(seat, diary, most);
}

// Takes all that waits, under the lock.
pub(crate) fn take_all(shared: &mut Shared, seat: &mut Seat, diary: &mut Diary) {
    for _ in 0..MOST {
        diary.need(shared.settle(seat).is_ok());
        if take(seat, diary, MOST) == 0 {
            return;
        }
    }
    // There is always more.
    diary.need(false);
}

// A delivery of a few turns, which ends at the latest where it was woken a few times.
fn have_delivered<R: Wait>(
    rt: &R,
    client: &Client,
    seat: &mut Seat,
    diary: &mut Diary,
    room: usize,
    turns: u64,
) {
    let Ok(mut basket) = Basket::new(diary.alloc, room) else {
        return diary.need(false);
    };
    let delivered = deliver(rt, client, seat, &mut basket, &Often::new(turns), turns);
    diary.need(delivered.is_ok());
    for _ in 0..room {
        let Some(item) = basket.next() else {
            return;
        };
        diary.told(&item);
        drop(item);
    }
}

// Hears in one way or another, or not at all. A ring has that room.
pub(crate) fn hear<R: Wait>(
    rt: &R,
    client: &Client,
    seat: &mut Seat,
    diary: &mut Diary,
    chance: &mut Chance,
    room: usize,
) {
    let few = chance.below(6);
    match chance.below(8) {
        0 | 1 => settle(rt, client, seat, diary, few),
        2 => {
            let _count = take(seat, diary, few);
        }
        3 => have_delivered(rt, client, seat, diary, room.saturating_mul(3), 2),
        4 => std::thread::yield_now(),
        _ => {}
    }
}

// Sleeps until it is told to stop, and hears all.
pub(crate) fn hear_on<R: Wait>(rt: &R, client: &Client, seat: &mut Seat, diary: &mut Diary) {
    for _ in rt.forever() {
        match client.wait(rt, seat) {
            Ok(true) => {
                let _count = take(seat, diary, MOST);
            }
            Ok(false) => return,
            Err(_) => return diary.need(false),
        }
    }
    unreachable!()
}
