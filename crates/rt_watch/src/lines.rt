// The lines that wait between the thread that reads them and the one that does them.
ghost use Rattle.std.specs.Prelude.{◌≡◌, map, not, false, true, Ok, IfOk, OnErr, OnOk, ◌+◌, ◌<◌, ◌≤◌, ◌^◌};
ghost use Rattle.std.specs.Prelude.{IfErr};
ghost use Rattle.std.specs.Sync.Mutex.{mutex_guard_value};
ghost use Rattle.rt_watch.specs.Queued.{empty_queue, has_room, is_open, items_of, taken_out, with_line};
ghost use Rattle.rt_watch.specs.Queued.{end_of};
ghost use Rattle.rt_input.specs.Lines.{TellsOfReads};

use rt_input::{ConsoleError, LineReader, Source};
use rt_link::Bell;
use std::alloc::{AllocError, Global};
use std::collections::VecDeque;
use std::marker::Model;
use std::sync::{Condvar, Mutex, MutexGuard, Wait};

// How many lines and bytes may wait before no more are read.
const MOST_LINES: usize = 1_024;

const MOST_BYTES: usize = 1_048_576;

// How an input has ended.
#[derive(Clone, Copy, Debug, PartialEq, Eq)]
pub(crate) enum End {
    // At its end, or nobody takes lines any more.
    Read,
    // Its reader failed, or gave too much.
    Unread,
    NoMemory,
}

// Lines that wait, in order; how the input has ended, if it has; and whether nobody takes lines any more.
#[derive(Drop)]
pub(crate) struct Queue {
    lines: VecDeque<Vec<u8>>,
    // How many bytes they have, as far as it counts.
    bytes: usize,
    end: Option<End>,
    is_left: bool,
}

impl Model for Queue {
    ghost use Rattle.std.specs.Prelude.{◌≡◌, ◌-◌, ◌^◌, map, min};
    ghost use Rattle.rt_watch.specs.Queued.{Queue, bytes_in, items_of};

    ghost Value = { Queue };

    ghost view = { λ q. record {
      lines = map items_of q.lines.items;
      ended = q.end;
      is_left = q.is_left;
    } };

    ghost invariant = { λ q. q.bytes ≡ min (bytes_in (map items_of q.lines.items)) (2 ^ 64 - 1) };
}

// What is taken of them in one go.
#[derive(Drop)]
pub(crate) struct TakenLine {
    pub(crate) lines: VecDeque<Vec<u8>>,
    pub(crate) end: Option<End>,
}

// What the two threads share.
#[derive(Drop)]
pub(crate) struct Lines {
    alloc: Global,
    queue: Mutex<Queue>,
    room: Condvar,
    bell: Bell,
}

impl Queue {
    fn new(alloc: Global) -> Queue
        ensures { result ≡ empty_queue }
    {
        Queue {
            lines: VecDeque::new(alloc),
            bytes: 0,
            end: None,
            is_left: false,
        }
    }

    // Whether more may wait.
    fn has_room(&self) -> bool
        ensures { result ≡ has_room self.now.lines }
    {
        self.lines.len() < MOST_LINES && self.bytes < MOST_BYTES
    }

    // Whether whoever reads goes on at once.
    fn is_open(&self) -> bool
        ensures { result ≡ is_open self.now }
    {
        self.is_left || self.has_room()
    }

    // A line waits behind the others, where somebody takes lines still. Answers whether it is so.
    fn put(&mut self, line: Vec<u8>) -> Result<bool, AllocError>
        ensures taken { IfOk result (λ is_taken. is_taken ≡ not self.old.is_left) }
        ensures put { OnOk result (self.new ≡ with_line line.items self.old) }
        ensures left { self.old.is_left ≡ true → result ≡ Ok false }
        ensures refused { OnErr result (self.new ≡ self.old) }
    {
        if self.is_left {
            return Ok(false);
        }
        let len = line.len();
        self.lines.push_back(line)?;
        self.bytes = self.bytes.saturating_add(len);
        Ok(true)
    }

    // All that waits is taken, and how the input has ended, if it has.
    fn take(&mut self, alloc: Global) -> TakenLine
        ensures lines { map items_of result.lines.items ≡ self.old.lines }
        ensures end { result.end ≡ self.old.ended }
        ensures left { self.new ≡ taken_out self.old }
    {
        let lines = std::mem::replace(&mut self.lines, VecDeque::new(alloc));
        self.bytes = 0;
        let end = self.end.take();
        TakenLine { lines, end }
    }
}

impl Lines {
    pub(crate) fn new(alloc: Global, bell: Bell) -> Lines {
        Lines {
            alloc,
            queue: Mutex::new(Queue::new(alloc)),
            room: Condvar::new(),
            bell,
        }
    }

    // Locks what waits once there is room.
    fn lock_with_room<'a, R: Wait>(&'a self, rt: &R) -> MutexGuard<'a, Queue> {
        let mut queue = self.queue.lock(rt);
        for _ in rt.forever() {
            if queue.is_open() {
                return queue;
            }
            queue = self.room.wait(rt, queue);
        }
        unreachable!()
    }

    // A line waits behind the others, once there is room. Answers whether somebody takes lines still.
    pub(crate) fn put<R: Wait>(&self, rt: &R, line: Vec<u8>) -> Result<bool, AllocError> {
        let put = self.lock_with_room(rt).put(line);
        self.bell.ring();
        put
    }

    // The input has ended.
    pub(crate) fn end<R: Wait>(&self, rt: &R, end: End) {
        self.queue.lock(rt).end = Some(end);
        self.bell.ring();
    }

    // Locks what waits.
    pub(crate) fn lock<'a, R: Wait>(&'a self, rt: &R) -> MutexGuard<'a, Queue> {
        self.queue.lock(rt)
    }

    // All that waits there is taken, and the lock let go.
    pub(crate) fn take(&self, queue: MutexGuard<'_, Queue>) -> TakenLine
        ensures lines { map items_of result.lines.items ≡ (mutex_guard_value queue.entry).lines }
        ensures end { result.end ≡ (mutex_guard_value queue.entry).ended }
    {
        let mut queue = queue;
        let taken = queue.take(self.alloc);
        drop(queue);
        self.room.notify_all();
        taken
    }

    // Nobody takes lines any more: whoever reads ends.
    pub(crate) fn leave<R: Wait>(&self, rt: &R) {
        self.queue.lock(rt).is_left = true;
        self.room.notify_all();
    }
}

// ---- the thread that reads lines

// A copy of a line.
fn copy(alloc: Global, line: &[u8]) -> Result<Vec<u8>, AllocError>
    ensures { IfOk result (λ bytes. bytes.items ≡ line.now) }
{
    let mut bytes = Vec::with_capacity(alloc, line.len())?;
    bytes.extend_from_slice(line)?;
    Ok(bytes)
}

// Reads lines to the end of the input, or as long as somebody takes them.
#[tactic(auto, using(crate::proofs::Telling::tells_of_all))]
fn read_all<R: Wait, I: Source>(
    rt: &R,
    alloc: Global,
    reader: &mut I,
    lines: &Lines,
) -> Result<(), ConsoleError>
    requires bytes { I.given reader.old ≤ 2 ^ 63 }
    requires reads { I.failures reader.old + 1 < 2 ^ 64 }
    ensures ok { OnOk result (I.failures reader.new ≡ I.failures reader.old) }
    ensures fault { IfErr result (λ e. TellsOfReads e 0 (I.given reader.old) (I.given reader.new)
        (I.failures reader.old) (I.failures reader.new)) }
{
    let mut read = LineReader::new(alloc)?;
    for _ in rt.forever() {
        if !read.next(reader)? {
            return Ok(());
        }
        if !lines.put(rt, copy(alloc, read.line())?)? {
            return Ok(());
        }
    }
    unreachable!()
}

// How an input has ended that was read so.
fn end_of(read: Result<(), ConsoleError>) -> End
    ensures { result ≡ end_of read }
{
    match read {
        Ok(()) => End::Read,
        Err(ConsoleError::NoMemory) => End::NoMemory,
        Err(ConsoleError::ReadFault | ConsoleError::WriteFault | ConsoleError::BadWords) => {
            End::Unread
        }
    }
}

// Reads lines, says how the input has ended, and gives the reader back.
pub(crate) fn feed<R: Wait, I: Source>(rt: &R, alloc: Global, mut reader: I, lines: &Lines) -> I
    requires bytes { I.given reader ≤ 2 ^ 63 }
    requires reads { I.failures reader + 1 < 2 ^ 64 }
{
    lines.end(rt, end_of(read_all(rt, alloc, &mut reader, lines)));
    reader
}
