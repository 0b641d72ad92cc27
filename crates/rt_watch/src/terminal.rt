// What is typed and printed: lines are done on a linked client and its seats, and what becomes of them and of
// the server's messages is printed.
ghost use Rattle.std.specs.Prelude.{◌≡◌, ◌+◌, ◌<◌, ◌^◌, ℕ, List, [], if◌then◌else◌, map, string_bytes, true};
ghost use Rattle.std.specs.Prelude.{is_some, IfOk, IfErr, OnOk};
ghost use Rattle.std.specs.Sync.Mutex.{mutex_guard_value};
ghost use Rattle.rt_lines.specs.Typing.{typed_of_bytes};
ghost use Rattle.rt_lines.specs.inside.Appending.{Appends};
ghost use Rattle.rt_connect.specs.Doing.{disconnected};
ghost use Rattle.rt_connect.specs.Run.{one_more};
ghost use Rattle.rt_watch.specs.Faults.{IsNoWriteFault, TellsWrite, after_end};
ghost use Rattle.rt_watch.specs.Queued.{items_of};
ghost use Rattle.rt_watch.specs.Rounds.{DoesLines};
ghost use Rattle.rt_watch.specs.Watching.{PrintsDone, PrintsLine, PrintsLines, PrintsNews, bad_with, counted};
ghost use Rattle.rt_watch.specs.Watching.{is_good, is_good_line, numbered};
ghost use Rattle.rt_watch.specs.Pacing.{next};
ghost use Rattle.std.specs.Io.KnownBytes as Io;

use crate::effect::{WatchFault, after_input, asked_of, do_line, tell_news, write_lost};
use crate::lines::{End, Lines, Queue, TakenLine};
use rt_connect::Seats;
use rt_input::{Drain, Log, write_printed};
use rt_lines::{WATCH_LINES, say_line};
use rt_link::{Linked, Lost, Passed};
use std::alloc::{AllocError, Global};
use std::collections::VecDeque;
use std::random::RandomSource;
use std::sync::{MutexGuard, Wait};
use std::time::{Clock, Instant};

// What is told once no more lines come.
const ENDED: &str = "\
the lines have ended: it goes on until the connection ends or, with --idle, nothing was printed for so \
long; Ctrl-C ends it at once";

// The seats that lines call, how many lines were done and how many of them were bad, whether no more come,
// what is printed and not written yet, and since when nothing was.
#[derive(Drop)]
pub(crate) struct Terminal {
    alloc: Global,
    seats: Seats,
    number: u64,
    pub(crate) bad_lines: u64,
    pub(crate) has_ended: bool,
    printed: String,
    pub(crate) quiet_since: Instant,
}

impl Terminal {
    // Nothing was typed yet, nor printed.
    pub(crate) fn new(alloc: Global, seats: Seats, now: Instant) -> Terminal
        ensures seats { result.seats.items ≡ seats.items }
        ensures number { result.number ≡ 0 }
        ensures bad_lines { result.bad_lines ≡ 0 }
        ensures printed { string_bytes result.printed ≡ [] }
    {
        Terminal {
            alloc,
            seats,
            number: 0,
            bad_lines: 0,
            has_ended: false,
            printed: String::new(alloc),
            quiet_since: now,
        }
    }

    // Does a line that isn't empty, and prints what became of it. Answers whether it is good.
    #[tactic(auto, using(crate::proofs::Typed::asks))]
    fn ask<R: Wait + Clock + RandomSource>(
        &mut self,
        rt: &R,
        linked: &Linked,
        bytes: &[u8],
    ) -> Result<bool, WatchFault>
        ensures fault { IfErr result IsNoWriteFault }
        ensures rest { self.new
            ≡ record (self.old) { printed = self.new.printed; seats = self.new.seats } }
        ensures good { IfOk result (λ good. good ≡ is_good (typed_of_bytes bytes.now)) }
        ensures printed { OnOk result ((text : List ℕ) × Appends self.old.printed self.new.printed text
            × PrintsDone bytes.now self.old.number self.old.seats.items text self.new.seats.items) }
    {
        let asked = asked_of(rt, self.alloc, linked, bytes)?;
        let mut shared = linked.client.shared.lock(rt);
        let is_good = do_line(
            &mut self.printed,
            self.alloc,
            &mut shared,
            &mut self.seats,
            self.number,
            asked,
        )?;
        Ok(is_good)
    }

    // Counts a line where it is bad, and tells what is wrong with it.
    fn count<L: Log>(&mut self, bytes: &[u8], is_good: bool, log: &mut L) -> Result<(), AllocError>
        ensures counted { self.new
            ≡ record (self.old) { bad_lines = counted is_good self.old.bad_lines } }
    {
        if !is_good {
            self.bad_lines = self.bad_lines.saturating_add(1);
        }
        say_line(self.alloc, &WATCH_LINES, self.number, bytes, is_good, log)
    }

    // Does the next line, and prints what became of it.
    #[tactic(auto, using(crate::proofs::Faulting::faults))]
    fn do_line<R: Wait + Clock + RandomSource, L: Log>(
        &mut self,
        rt: &R,
        linked: &Linked,
        bytes: &[u8],
        log: &mut L,
    ) -> Result<(), WatchFault>
        ensures fault { IfErr result IsNoWriteFault }
        ensures numbered { self.new.number ≡ one_more self.old.number }
        ensures counted { OnOk result
            (self.new.bad_lines ≡ counted (is_good_line bytes.now) self.old.bad_lines) }
        ensures printed { OnOk result ((text : List ℕ) × Appends self.old.printed self.new.printed text
            × PrintsLine bytes.now (one_more self.old.number) self.old.seats.items text
            self.new.seats.items) }
        ensures ended { self.new.has_ended ≡ self.old.has_ended }
    {
        self.number = self.number.saturating_add(1);
        if bytes.is_empty() {
            return Ok(());
        }
        let is_good = self.ask(rt, linked, bytes)?;
        self.count(bytes, is_good, log)?;
        Ok(())
    }

    // Does lines, in order.
    #[tactic(auto, using(crate::proofs::Faulting::faults))]
    fn do_all<R: Wait + Clock + RandomSource, L: Log>(
        &mut self,
        rt: &R,
        linked: &Linked,
        mut lines: VecDeque<Vec<u8>>,
        log: &mut L,
    ) -> Result<(), WatchFault>
        ensures fault { IfErr result IsNoWriteFault }
        ensures counted { OnOk result (self.new.bad_lines
            ≡ bad_with (map items_of lines.items) self.old.bad_lines) }
        ensures printed { OnOk result ((text : List ℕ) × Appends self.old.printed self.new.printed text
            × PrintsLines (map items_of lines.items) self.old.number self.old.seats.items text
            self.new.seats.items) }
        ensures numbered { OnOk result
            (self.new.number ≡ numbered (map items_of lines.items) self.old.number) }
        ensures ended { self.new.has_ended ≡ self.old.has_ended }
    {
        'lines: while let Some(line) = lines.pop_front() {
            self.do_line(rt, linked, line.as_slice(), log)?;
        }
        Ok(())
    }

    // Notes how the input has ended, if it has.
    fn note_end(&mut self, end: Option<End>) -> Result<(), WatchFault>
        ensures ended { self.new.has_ended ≡ (if is_some end then true else self.old.has_ended) }
        ensures goes_on { result ≡ after_end end }
        ensures rest { self.new ≡ record (self.old) { has_ended = self.new.has_ended } }
    {
        match end {
            None => Ok(()),
            Some(end) => {
                self.has_ended = true;
                after_input(end)
            }
        }
    }

    // Does the lines that wait, and notes how the input has ended, if it has.
    #[tactic(auto, using(crate::proofs::Faulting::faults))]
    pub(crate) fn do_lines<R: Wait + Clock + RandomSource, L: Log>(
        &mut self,
        rt: &R,
        linked: &Linked,
        lines: &Lines,
        queue: MutexGuard<'_, Queue>,
        log: &mut L,
    ) -> Result<(), WatchFault>
        ensures fault { IfErr result IsNoWriteFault }
        ensures done { OnOk result (DoesLines (mutex_guard_value queue.entry) self.old self.new) }
    {
        let TakenLine { lines, end } = lines.take(queue);
        if !lines.is_empty() || end.is_some() {
            self.quiet_since = Instant::now(rt)?;
        }
        self.do_all(rt, linked, lines, log)?;
        if end.is_some() {
            log.tell(ENDED);
        }
        self.note_end(end)
    }

    // Prints what the messages say that the client has taken, of which these were passed over.
    pub(crate) fn tell_news<R: Wait>(
        &mut self,
        rt: &R,
        linked: &Linked,
        passed: &[Passed],
    ) -> Result<(), AllocError>
        ensures printed { OnOk result ((text : List ℕ) × Appends self.old.printed self.new.printed text
            × PrintsNews passed.now self.old.seats.items text self.new.seats.items) }
        ensures rest { self.new
            ≡ record (self.old) { seats = self.new.seats; printed = self.new.printed } }
    {
        let mut shared = linked.client.shared.lock(rt);
        tell_news(
            &mut self.printed,
            self.alloc,
            &mut shared,
            &mut self.seats,
            passed,
        )
    }

    // Prints that the connection is gone, where that is to be printed, and tells why.
    pub(crate) fn tell_lost<L: Log>(
        &mut self,
        why: &Lost,
        is_printed: bool,
        log: &mut L,
    ) -> Result<(), AllocError>
        ensures printed { OnOk result (Appends self.old.printed self.new.printed
            (if is_printed then disconnected else [])) }
        ensures rest { self.new ≡ record (self.old) { printed = self.new.printed } }
    {
        if is_printed {
            write_lost(&mut self.printed)?;
        }
        if log.is_on() {
            let line = format!(in self.alloc; "{why}")?;
            log.tell(line.as_str());
        }
        Ok(())
    }

    // Writes what is printed.
    #[tactic(auto, using(crate::proofs::Faulting::faults))]
    pub(crate) fn write_out<R: Clock, D: Drain>(
        &mut self,
        rt: &R,
        writer: &mut D,
    ) -> Result<(), WatchFault>
        requires { D.failures writer.old + 1 < 2 ^ 64 }
        ensures ok { OnOk result (D.failures writer.new ≡ D.failures writer.old) }
        ensures fault { IfErr result (λ e. TellsWrite e (D.failures writer.old) (D.failures writer.new)) }
        ensures written { OnOk result (Io.Appends (D.contents writer.old) (D.contents writer.new)
            (string_bytes self.old.printed)) }
        ensures nothing_waits { OnOk result (string_bytes self.new.printed ≡ []) }
        ensures rest { self.new
            ≡ record (self.old) { printed = self.new.printed; quiet_since = self.new.quiet_since } }
    {
        if !self.printed.is_empty() {
            self.quiet_since = Instant::now(rt)?;
        }
        write_printed(&mut self.printed, writer)?;
        Ok(())
    }
}

// ---- when a run waits, and when it ends

// What a run does next.
#[derive(Clone, Copy, Debug, PartialEq, Eq)]
pub(crate) enum WatchNext {
    // It goes on at once.
    GoOn,
    // It sleeps, so many milliseconds at most.
    Sleep(u64),
    // It has ended.
    End,
}

// What a run does next that did all that it could: it waits for the connection so long, none where there is
// none; its input has ended or not; and nothing was printed for so many milliseconds, of which so many are
// enough.
pub(crate) fn next_of(
    connection: Option<u64>,
    has_ended: bool,
    quiet: u64,
    enough: Option<u64>,
) -> WatchNext
    ensures { result ≡ next connection has_ended quiet enough }
{
    match (connection, has_ended, enough) {
        (None, true, _) => WatchNext::End,
        (None, false, _) => WatchNext::Sleep(u64::MAX),
        (Some(most), false, _) | (Some(most), true, None) => WatchNext::Sleep(most),
        (Some(most), true, Some(enough)) => {
            if enough <= quiet {
                WatchNext::End
            } else {
                WatchNext::Sleep(most.min(enough - quiet))
            }
        }
    }
}
