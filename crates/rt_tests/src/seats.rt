// Two threads on one client, each with a seat of its own, whose work really interleaves: a client
// whose threads run one after another fails.
use rt_client::{Client, Gate, Seat, Shared, Sink, crossing_law, deliver, with_core};
use rt_mail::Item;
use rt_query::Query;
use rt_tree::{Leaf, Path, Tree};
use rt_view::{Batch, Change};
use rt_world::{Limits, Step};
use std::alloc::Global;
use std::process::Abort;
use std::sync::Wait;
use std::sync::atomic::{AtomicBool, Ordering};
use std::thread;
use std::thread::Threads;

// The most turns of a delivery, and the most looks whether the first one goes on.
const TURNS: u64 = 10_000_000;

// What a thread has done: its gate was asked, its sink has seen the other's write, and its gate has
// said no for that.
#[derive(Drop)]
struct Side {
    asked: AtomicBool,
    seen: AtomicBool,
    ended: AtomicBool,
}

impl Side {
    fn new() -> Side {
        Side {
            asked: AtomicBool::new(false),
            seen: AtomicBool::new(false),
            ended: AtomicBool::new(false),
        }
    }
}

impl Gate for Side {
    fn go(&self) -> bool {
        self.asked.store(true, Ordering::SeqCst);
        let seen = self.seen.load(Ordering::SeqCst);
        if seen {
            self.ended.store(true, Ordering::SeqCst);
        }
        !seen
    }
}

// A sink that looks for a child of that key.
#[derive(Drop)]
struct Watch<'a> {
    key: &'a str,
    side: &'a Side,
}

// Whether a child of that key has come.
fn has_come(change: &Change, wanted: &str) -> bool {
    match change {
        Change::Added { key, .. } => key.text() == wanted,
        Change::Removed { .. }
        | Change::Moved { .. }
        | Change::Changed { .. }
        | Change::Value { .. } => false,
    }
}

fn shows(batch: &Batch, wanted: &str) -> bool {
    for change in batch.changes.as_slice() {
        if has_come(change, wanted) {
            return true;
        }
    }
    false
}

impl<'a> Sink for Watch<'a> {
    ghost after_item = { λ watch _. watch };

    fn take(&mut self, item: Item) {
        if let Item::Batch(batch) = &item {
            if shows(batch, self.key) {
                self.side.seen.store(true, Ordering::SeqCst);
            }
        }
        drop(item);
    }
}

// The number of a write of true.
fn write(rt: &impl Wait, client: &Client, seat: &mut Seat, path: Path) -> u64 {
    let tree = Tree::leaf(Leaf::truth(true));
    client.set(rt, seat, path, tree).unwrap_or(0)
}

// Whether a delivery ended by its gate, which has seen a child of that key.
fn ends(rt: &impl Wait, client: &Client, seat: &mut Seat, key: &str, side: &Side) -> bool {
    let mut watch = Watch { key, side };
    deliver(rt, client, seat, &mut watch, side, TURNS).is_ok() && side.ended.load(Ordering::SeqCst)
}

fn first(rt: &impl Wait, client: &Client, seat: &mut Seat, path: Path, side: &Side) -> bool {
    write(rt, client, seat, path) == 1 && ends(rt, client, seat, "2", side)
}

fn was_asked(side: &Side) -> bool {
    for _ in 0..TURNS {
        if side.asked.load(Ordering::SeqCst) {
            return true;
        }
        thread::yield_now();
    }
    false
}

// Writes only once the first thread's gate was asked.
fn second(
    rt: &impl Wait,
    client: &Client,
    seat: &mut Seat,
    path: Path,
    side: &Side,
    other: &Side,
) -> bool {
    if !was_asked(other) {
        drop(path);
        return false;
    }
    write(rt, client, seat, path) == 2 && ends(rt, client, seat, "1", side)
}

fn both<R: Threads + Wait + Sync>(
    rt: &R,
    client: &Client,
    seats: (&mut Seat, &mut Seat),
    paths: (Path, Path),
) -> (bool, bool) {
    // For the prover: what may go to another thread.
    crossing_law();
    let (one, two) = (Side::new(), Side::new());
    let (its, other) = seats;
    let (path, next) = paths;
    thread::join(
        rt,
        || first(rt, client, its, path, &one),
        || second(rt, client, other, next, &two, &one),
    )
}

// Whether a listen of a seat was made, and a message taken out: with the first the version, with the second
// the listen, which both have.
fn listens(shared: &mut Shared, seat: &mut Seat, path: Path) -> bool {
    shared.listen(seat, Query::at(path).done()).is_ok() && shared.take_outgoing().is_ok()
}

// Whether null came on the first listen.
fn pushes(shared: &mut Shared, path: Path) -> bool {
    let tree = Tree::null();
    with_core(shared, Step::Data { tag: 1, path, tree }).is_ok()
}

fn path(rt: &impl Abort, alloc: Global, text: &str) -> Path {
    Path::parse(alloc, text).expect(rt, "a path")
}

// Whether a connection is open on which both seats listen.
fn opened(shared: &mut Shared, seats: (&mut Seat, &mut Seat), paths: (Path, Path, Path)) -> bool {
    let connected = shared.connected().is_ok();
    let first = listens(shared, seats.0, paths.0);
    let second = listens(shared, seats.1, paths.1);
    connected && first && second && pushes(shared, paths.2)
}

// The text of the first message that is to be sent; empty where there is none.
fn sent(rt: &impl Abort, shared: &mut Shared, alloc: Global) -> String {
    match shared.take_outgoing().expect(rt, "a client") {
        Some(message) => {
            let text = message.text(alloc);
            drop(message);
            text.expect(rt, "memory")
        }
        None => String::new(alloc),
    }
}

// Whether both seats listen, and each thread's delivery ended by its gate.
fn meet<R: Threads + Wait + Abort + Sync>(
    rt: &R,
    alloc: Global,
    client: &Client,
    first: &mut Seat,
    second: &mut Seat,
) -> (bool, bool, bool) {
    let listens = (
        path(rt, alloc, "/g"),
        path(rt, alloc, "/g"),
        path(rt, alloc, "/g"),
    );
    let writes = (path(rt, alloc, "/g/1"), path(rt, alloc, "/g/2"));
    let opened = opened(&mut client.shared.lock(rt), (first, second), listens);
    let (one, two) = both(rt, client, (first, second), writes);
    (opened, one, two)
}

// Whether a client has just these messages to send, and then none.
fn sends(rt: &impl Abort, shared: &mut Shared, alloc: Global, texts: [&str; 2]) -> bool {
    for text in texts {
        if sent(rt, shared, alloc).as_str() != text {
            return false;
        }
    }
    sent(rt, shared, alloc).is_empty()
}

const FIRST: &str = r#"{"id":1,"k":"put","path":"/g/1","value":true}"#;

const SECOND: &str = r#"{"id":2,"k":"put","path":"/g/2","value":true}"#;

#[test]
fn two_seats_meet(rt: HostRuntime) {
    let alloc = rt.alloc();
    let opened = Client::open(alloc, 1, &[8, 8], Limits::full());
    let (client, mut seats) = opened.expect(&rt, "a client");
    let mut second = seats.pop().expect(&rt, "a seat");
    let mut first = seats.pop().expect(&rt, "a seat");
    let met = meet(&rt, alloc, &client, &mut first, &mut second);
    let is_sent = sends(&rt, &mut client.shared.lock(&rt), alloc, [FIRST, SECOND]);
    assert_eq!(rt; met, (true, true, true));
    assert!(rt; is_sent);
}
