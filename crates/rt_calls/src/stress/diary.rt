// What a thread writes down.

use rt_client::Done;
use rt_lines::{
    write_batch, write_cancelled, write_outcome, write_refused, write_settled, write_view,
};
use rt_mail::{Item, Receipt, Snapshots};
use rt_world::{CoreError, Outcome};
use std::alloc::{AllocError, Global};
use std::fmt::Write;
use std::sync::atomic::{AtomicU64, Ordering};

// The steps that a thread made, each with its number and what it was answered; what its seat was told, a
// line for each receipt and else as the console prints it; what it knows of its listeners, and which these
// are by what it was told.
//
// Where memory lacks for a line, or a call is refused that must not be, the diary is lost: its thread
// gives up, and nothing that it holds is printed. So what writes in it has no way out.
#[derive(Drop)]
pub(crate) struct Diary {
    pub(crate) alloc: Global,
    pub(crate) steps: String,
    pub(crate) heard: String,
    pub(crate) listeners: Vec<u64>,
    pub(crate) is_lost: bool,
    snapshots: Snapshots,
}

// The number of the next step. Whoever takes one holds the client's lock since it made its step, so that
// the numbers are in the order of the steps.
fn ticket(tickets: &AtomicU64) -> u64 {
    tickets.fetch_add(1, Ordering::SeqCst)
}

impl Diary {
    pub(crate) fn new(alloc: Global) -> Diary {
        Diary {
            alloc,
            steps: String::new(alloc),
            heard: String::new(alloc),
            listeners: Vec::new(alloc),
            is_lost: false,
            snapshots: Snapshots::new(alloc),
        }
    }

    // It is lost from now on, unless all is well.
    pub(crate) fn need(&mut self, is_well: bool) {
        self.is_lost = self.is_lost || !is_well;
    }

    // Writes the number of the next step, and the line that asks for it: whether it did.
    fn begin(&mut self, tickets: &AtomicU64, line: &str) -> bool {
        write!(self.steps, "{}\t{line}\t", ticket(tickets)).is_ok()
    }

    // A step was made, which that line asks for.
    pub(crate) fn made(&mut self, tickets: &AtomicU64, line: &str, done: Done) {
        let is_written = self.begin(tickets, line)
            && write_outcome(&mut self.steps, done.outcome, done.given).is_ok();
        self.need(is_written);
    }

    // The core refused it.
    pub(crate) fn refused(&mut self, tickets: &AtomicU64, line: &str, why: CoreError) {
        let is_written = self.begin(tickets, line)
            && write_refused(&mut self.steps, "core", why.code(), why.name()).is_ok();
        self.need(is_written);
    }

    // The seat of that number was closed.
    pub(crate) fn closed(&mut self, tickets: &AtomicU64, seat: u64) {
        let is_begun = write!(self.steps, "{}\t[\"close\",{seat}]\t", ticket(tickets)).is_ok();
        let is_written = is_begun && write_outcome(&mut self.steps, Outcome::Done, None).is_ok();
        self.need(is_written);
    }

    fn forget(&mut self, listener: u64) {
        self.listeners.retain(|it| *it != listener);
    }

    fn signed(&mut self, receipt: &Receipt) -> Result<(), AllocError> {
        match receipt {
            Receipt::Listened { listener, .. } => {
                let is_kept = self.listeners.push(*listener).is_ok();
                self.need(is_kept);
                writeln!(self.heard, "listened {listener}")
            }
            Receipt::Unlistened { listener } => {
                self.forget(*listener);
                writeln!(self.heard, "unlistened {listener}")
            }
            Receipt::Wrote { id, .. } => writeln!(self.heard, "wrote {id}"),
            Receipt::Asked { id, .. } => writeln!(self.heard, "asked {id}"),
        }
    }

    // The seat was told that.
    pub(crate) fn told(&mut self, item: &Item) {
        let is_taken = self.snapshots.take(item).is_ok();
        let written = match item {
            Item::Receipt(receipt) => self.signed(receipt),
            Item::Batch(batch) => write_batch(&mut self.heard, self.alloc, batch),
            Item::Settled { id, why } => write_settled(&mut self.heard, self.alloc, *id, why),
            Item::Cancelled { listener, why } => {
                self.forget(*listener);
                write_cancelled(&mut self.heard, self.alloc, *listener, why)
            }
        };
        self.need(is_taken && written.is_ok());
    }

    // Writes what a listener shows, as the console prints a view: whether it did.
    fn write_shown(&self, out: &mut String, listener: u64) -> bool {
        let Some(snapshot) = self.snapshots.get(listener) else {
            return write_view(out, self.alloc, None).is_ok();
        };
        match snapshot.shown() {
            Ok(shown) => write_view(out, self.alloc, shown.as_ref()).is_ok(),
            Err(_) => false,
        }
    }

    // Writes what each of its listeners shows, behind a line with its number: whether it did.
    pub(crate) fn write_views(&self, out: &mut String) -> bool {
        for listener in self.listeners.as_slice() {
            if writeln!(out, "view {listener}").is_err() || !self.write_shown(out, *listener) {
                return false;
            }
        }
        true
    }
}
