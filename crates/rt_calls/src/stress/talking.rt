// A thread that calls and hears.

use crate::stress::chance::Chance;
use crate::stress::choosing;
use crate::stress::diary::Diary;
use crate::stress::hearing::{MOST, hear, hear_on, settle, take_all};
use rt_client::{Call, Client, ClientError, Done, Seat, Uncalled, try_call};
use rt_lines::{Line, Order};
use rt_world::Step;
use std::alloc::Global;
use std::sync::Wait;
use std::sync::atomic::{AtomicU64, Ordering};

// A thread's own: its place, which is the number of its seat too, its seat, whose ring has that room, what
// it writes down, and the line of its next call.
#[derive(Drop)]
pub(crate) struct Worker {
    pub(crate) place: u64,
    pub(crate) room: usize,
    pub(crate) seat: Seat,
    pub(crate) chance: Chance,
    pub(crate) diary: Diary,
    pub(crate) line: String,
}

// How a thread ended: its seat is open and has heard all; it had heard all when it was closed; it had
// not; it has served to the end.
#[derive(Drop, Clone, Copy)]
pub(crate) enum End {
    Open,
    Emptied,
    Left,
    Served,
}

// What a thread leaves. One whose diary is lost gave up.
#[derive(Drop)]
pub(crate) struct Ended {
    pub(crate) place: u64,
    pub(crate) diary: Diary,
    pub(crate) end: End,
}

// The step that a line asks for; nothing where it asks for none, or memory lacks.
pub(crate) fn step_in(alloc: Global, line: &str) -> Option<Step> {
    match Line::read(alloc, line.as_bytes()) {
        Ok(Line::Step(step)) => Some(step),
        Ok(other) => {
            drop(other);
            None
        }
        Err(_) => None,
    }
}

// The call that a line asks for, in the same way.
fn call_in(alloc: Global, line: &str) -> Option<Call> {
    match Order::read(alloc, line.as_bytes()) {
        Ok(Order::Seat { call, .. }) => Some(call),
        Ok(other) => {
            drop(other);
            None
        }
        Err(_) => None,
    }
}

impl Worker {
    // Writes down what the call of the line was answered; hands it back where the mailbox is full.
    fn answered(&mut self, tickets: &AtomicU64, answer: Result<Done, Uncalled>) -> Option<Call> {
        let Uncalled { call, why } = match answer {
            Ok(done) => {
                self.diary.made(tickets, self.line.as_str(), done);
                return None;
            }
            Err(uncalled) => uncalled,
        };
        match why {
            ClientError::MailboxFull => return call,
            ClientError::Core(why) => self.diary.refused(tickets, self.line.as_str(), why),
            ClientError::Failed
            | ClientError::WrongSeat
            | ClientError::TooManySeats
            | ClientError::NoMemory => self.diary.need(false),
        }
        drop(call);
        None
    }
}

// Makes the call, and writes it down under the lock; hands it back where the mailbox is full.
fn attempt<R: Wait>(
    rt: &R,
    client: &Client,
    worker: &mut Worker,
    tickets: &AtomicU64,
    call: Call,
) -> Option<Call> {
    let mut shared = client.shared.lock(rt);
    let answer = try_call(&mut shared, &mut worker.seat, call);
    let back = worker.answered(tickets, answer);
    client.notify(shared);
    back
}

// Makes the call that the line asks for, once its mailbox has room.
fn make<R: Wait>(rt: &R, client: &Client, worker: &mut Worker, tickets: &AtomicU64) {
    let mut due = call_in(worker.diary.alloc, worker.line.as_str());
    worker.diary.need(due.is_some());
    for _ in 0..MOST {
        let Some(call) = due else {
            return;
        };
        due = attempt(rt, client, worker, tickets, call);
        if due.is_some() {
            settle(rt, client, &mut worker.seat, &mut worker.diary, MOST);
        }
    }
    // There is never room.
    worker.diary.need(false);
    drop(due);
}

// So many calls, and what is heard between them.
fn talk<R: Wait>(rt: &R, client: &Client, worker: &mut Worker, tickets: &AtomicU64, calls: u64) {
    for _ in 0..calls {
        if worker.diary.is_lost {
            return;
        }
        worker.line.clear();
        let Worker {
            place,
            chance,
            diary,
            line,
            ..
        } = worker;
        let written = choosing::write_call(line, chance, *place, diary.listeners.as_slice());
        diary.need(written.is_ok());
        make(rt, client, worker, tickets);
        let Worker {
            room,
            seat,
            chance,
            diary,
            ..
        } = worker;
        hear(rt, client, seat, diary, chance, *room);
    }
}

// Closes a seat, which has heard all before or has not, and writes that down under the lock.
fn close<R: Wait>(
    rt: &R,
    client: &Client,
    seat: Seat,
    place: u64,
    diary: &mut Diary,
    tickets: &AtomicU64,
    is_emptied: bool,
) {
    let mut seat = seat;
    let mut shared = client.shared.lock(rt);
    if is_emptied {
        take_all(&mut shared, &mut seat, diary);
    }
    let closed = shared.close_seat(seat);
    diary.need(closed.is_ok());
    diary.closed(tickets, place);
    client.notify(shared);
}

// Ends a seat in one of the three ways. Others may still talk.
fn finish<R: Wait>(
    rt: &R,
    client: &Client,
    worker: Worker,
    tickets: &AtomicU64,
    talking: &AtomicU64,
) -> Ended {
    let Worker {
        place,
        seat,
        chance,
        diary,
        ..
    } = worker;
    let (mut chance, mut diary, mut seat) = (chance, diary, seat);
    let end = match chance.below(3) {
        0 => {
            close(rt, client, seat, place, &mut diary, tickets, true);
            talking.fetch_sub(1, Ordering::SeqCst);
            End::Emptied
        }
        1 => {
            close(rt, client, seat, place, &mut diary, tickets, false);
            talking.fetch_sub(1, Ordering::SeqCst);
            End::Left
        }
        _ => {
            talking.fetch_sub(1, Ordering::SeqCst);
            hear_on(rt, client, &mut seat, &mut diary);
            End::Open
        }
    };
    Ended { place, diary, end }
}

// A thread calls so often, and then ends its seat.
pub(crate) fn work<R: Wait>(
    rt: &R,
    client: &Client,
    worker: Worker,
    tickets: &AtomicU64,
    talking: &AtomicU64,
    calls: u64,
) -> Ended {
    let mut worker = worker;
    talk(rt, client, &mut worker, tickets, calls);
    finish(rt, client, worker, tickets, talking)
}
