// Lines are written by a thread of their own.
ghost use Rattle.std.specs.Prelude.{◌≡◌, ◌&&◌, not, None};
ghost use Rattle.std.specs.Option.{is_none, is_some};

use crate::diary::Diary;
use std::alloc::{AllocError, Global};
use std::io::Write;
use std::sync::{Arc, Condvar, Mutex, Wait};
use std::thread;
use std::thread::Threads;
use std::time::{Clock, Duration};

// For how many milliseconds the end of the lines is waited for, and how often it is looked for meanwhile.
const END_MS: u64 = 50;

const END_LOOKS: u64 = 40;

// What the two threads share.
struct Slot {
    // Lines that are to be written next.
    lines: Option<Vec<u8>>,
    is_writing: bool,
    has_ended: bool,
}

impl Drop for Slot {
    fn drop(self) {
        let Slot {
            lines: _,
            is_writing: _,
            has_ended: _,
        } = self;
    }
}

struct Desk {
    slot: Mutex<Slot>,
    news: Condvar,
}

impl Drop for Desk {
    fn drop(self) {
        let Desk { slot: _, news: _ } = self;
    }
}

impl Slot {
    // The lines that are to be written next, which are being written from now on.
    fn take(&mut self) -> Option<Vec<u8>>
        ensures taken { result ≡ self.old.lines }
        ensures left { self.new
            ≡ record (self.old) { lines = None; is_writing = is_some self.old.lines } }
    {
        let lines = self.lines.take();
        self.is_writing = lines.is_some();
        lines
    }

    // Whether all is written.
    fn is_done(&self) -> bool
        ensures { result ≡ (is_none self.now.lines && not self.now.is_writing) }
    {
        self.lines.is_none() && !self.is_writing
    }
}

impl Desk {
    fn new() -> Desk {
        Desk {
            slot: Mutex::new(Slot {
                lines: None,
                is_writing: false,
                has_ended: false,
            }),
            news: Condvar::new(),
        }
    }

    // Waits for lines that are to be written; none: no more come.
    fn next<R: Wait>(&self, rt: &R) -> Option<Vec<u8>> {
        let mut slot = self.slot.lock(rt);
        for _ in rt.forever() {
            if let Some(lines) = slot.take() {
                return Some(lines);
            }
            if slot.has_ended {
                return None;
            }
            slot = self.news.wait(rt, slot);
        }
        unreachable!()
    }

    // Hands on what a diary says, if what it said before is being written by now.
    fn hand_on<R: Wait>(&self, rt: &R, diary: &mut Diary) {
        let mut slot = self.slot.lock(rt);
        if slot.lines.is_none() {
            slot.lines = Some(diary.take());
            self.news.notify_all();
        }
    }

    // Whether all is written.
    fn is_done<R: Wait>(&self, rt: &R) -> bool {
        self.slot.lock(rt).is_done()
    }

    // No more comes.
    fn end<R: Wait>(&self, rt: &R) {
        self.slot.lock(rt).has_ended = true;
        self.news.notify_all();
    }
}

// Writes lines as they come.
fn write_all<R: Wait, W: Write + Drop>(rt: &R, desk: &Desk, mut writer: W) {
    for _ in rt.forever() {
        match desk.next(rt) {
            Some(lines) => {
                // What can't be written is lost.
                let _written = writer.write_all(lines.as_slice());
            }
            None => return,
        }
    }
}

/// A thread that writes what a diary says: nobody waits where the writer takes nothing.
pub struct Pen {
    desk: Arc<Desk, Global>,
}

impl Drop for Pen {
    fn drop(self) {
        let Pen { desk: _ } = self;
    }
}

impl Pen {
    /// Starts the thread.
    ///
    /// # Errors
    ///
    /// Where memory lacks, or no thread can be made.
    pub fn begin<R, W>(rt: &R, alloc: Global, writer: W) -> Result<Pen, AllocError>
    where
        R: Threads + Wait + Clone + Drop + Send + 'static,
        W: Write + Drop + Send + 'static,
    {
        let desk = Arc::new(alloc, Desk::new())?;
        let (theirs, theirs_rt) = (Arc::try_clone(&desk)?, rt.clone()?);
        thread::spawn(rt, move || write_all(&theirs_rt, &theirs, writer))?;
        Ok(Pen { desk })
    }

    /// Hands on what the diary says, as far as that is taken now.
    pub(crate) fn hand_on<R: Wait>(&self, rt: &R, diary: &mut Diary) {
        if !diary.is_empty() {
            self.desk.hand_on(rt, diary);
        }
    }

    /// Hands on what the diary says, and waits until all is written, for two seconds at most.
    pub fn end<R: Wait + Clock>(&self, rt: &R, diary: &mut Diary) {
        for _ in 0..END_LOOKS {
            self.hand_on(rt, diary);
            if diary.is_empty() && self.desk.is_done(rt) {
                break;
            }
            thread::sleep(rt, Duration::from_millis(END_MS));
        }
        self.desk.end(rt);
    }
}
