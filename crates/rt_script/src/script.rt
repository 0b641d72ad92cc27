// A run of a script.
ghost use Rattle.std.specs.Prelude.{◌≡◌, ◌+◌, ◌<◌, ◌≤◌, ◌^◌, ◌∷◌, [], ℕ, List, Some, string_bytes, IfOk};
ghost use Rattle.std.specs.Prelude.{IfErr, OnOk, OnErr};
ghost use Rattle.std.specs.Io.KnownBytes.{Appends, IsAtEnd};
ghost use Rattle.rt_input.specs.Faults.{counts, NoneFailed, Tells, WriteTells};
ghost use Rattle.rt_input.specs.Lines.{lines_of, most_input};
ghost use Rattle.rt_input.specs.Streams.{AppendsPart};
ghost use Rattle.rt_script.specs.Run.{after_line, after_lines, RunsScript, start};
ghost use Rattle.rt_script.specs.inside.Pieces.{Begins, PrintsFirst, Runs, so_far};
ghost use Rattle.rt_world.specs.World.{limits_from};
ghost use Rattle.rt_script.specs.State.{new_state};

use crate::line::do_bytes;
use rt_input::{ConsoleError, Drain, LineReader, Log, Silent, Source, write_printed};
use rt_lines::{SCRIPT_LINES, say_line};
use rt_push::PushIds;
use rt_sync::Core;
use rt_world::Limits;
use std::alloc::{AllocError, Global};
use std::marker::Model;

// How much waits to be written before it is written, where the next line is there.
const MUCH: usize = 65_536;

// A core and its push ids, and where its script stands.
struct Script {
    alloc: Global,
    state: State,
    // How many lines were done, and how many of them were bad.
    lines: u64,
    bad_lines: u64,
    // What was printed and is not written yet.
    printed: String,
}

impl Drop for Script {
    fn drop(self) {
        let Script {
            alloc: _,
            state: _,
            lines: _,
            bad_lines: _,
            printed: _,
        } = self;
    }
}

impl Script {
    fn new(alloc: Global) -> Script
        ensures { so_far [] result ≡ start }
    {
        Script {
            alloc,
            state: State::new(alloc, Limits::full()),
            lines: 0,
            bad_lines: 0,
            printed: String::new(alloc),
        }
    }

    // Does a line, and answers whether it is good.
    fn count_line(&mut self, bytes: &[u8]) -> Result<bool, AllocError>
        ensures done { OnOk result (so_far [] self.new ≡ after_line bytes.now (so_far [] self.old)) }
        ensures stopped { OnErr result (PrintsFirst bytes.now (so_far [] self.old) self.new) }
    {
        self.lines = self.lines.saturating_add(1);
        let is_good = do_bytes(
            self.alloc,
            &mut self.state,
            self.lines,
            bytes,
            &mut self.printed,
        )?;
        if is_good {
            return Ok(true);
        }
        self.bad_lines = self.bad_lines.saturating_add(1);
        Ok(false)
    }

    // Does a line, and tells what is wrong with it.
    fn do_line<L: Log>(&mut self, bytes: &[u8], log: &mut L) -> Result<(), AllocError>
        ensures done { OnOk result (so_far [] self.new ≡ after_line bytes.now (so_far [] self.old)) }
        ensures stopped { OnErr result (PrintsFirst bytes.now (so_far [] self.old) self.new) }
    {
        let is_good = self.count_line(bytes)?;
        say_line(self.alloc, &SCRIPT_LINES, self.lines, bytes, is_good, log)
    }

    // Writes what was printed.
    fn write_out<D: Drain>(&mut self, writer: &mut D) -> Result<(), ConsoleError>
        requires { D.failures writer.old + 1 < 2 ^ 64 }
        ensures ok { OnOk result (D.failures writer.new ≡ D.failures writer.old) }
        ensures error { IfErr result (λ e. e ≡ ConsoleError.WriteFault) }
        ensures fault { OnErr result (D.failures writer.new ≡ D.failures writer.old + 1) }
        ensures written { OnOk result (Appends (D.contents writer.old) (D.contents writer.new)
            (string_bytes self.old.printed)) }
        ensures part { OnErr result (AppendsPart (D.contents writer.old) (D.contents writer.new)
            (string_bytes self.old.printed)) }
        ensures nothing_waits { string_bytes self.new.printed ≡ [] }
        ensures state { self.new.state ≡ self.old.state }
        ensures lines { self.new.lines ≡ self.old.lines }
        ensures bad_lines { self.new.bad_lines ≡ self.old.bad_lines }
    {
        write_printed(&mut self.printed, writer)
    }

    // Does a line, and writes what was printed where that is asked for, or it is much.
    fn do_line_to<D: Drain, L: Log>(
        &mut self,
        bytes: &[u8],
        is_written: bool,
        writer: &mut D,
        log: &mut L,
    ) -> Result<(), ConsoleError>
        requires { D.failures writer.old + 1 < 2 ^ 64 }
        ensures ok { OnOk result (D.failures writer.new ≡ D.failures writer.old) }
        ensures fault { IfErr result (λ e.
            WriteTells e (D.failures writer.old) (D.failures writer.new)) }
        ensures after { OnOk result (Runs (bytes.now ∷ [])
            (so_far [] self.old) (D.contents writer.old) self.new (D.contents writer.new)) }
        ensures stopped { OnErr result (Begins (bytes.now ∷ [])
            (so_far [] self.old) (D.contents writer.old) self.new (D.contents writer.new)) }
    {
        self.do_line(bytes, log)?;
        if !is_written && self.printed.len() < MUCH {
            return Ok(());
        }
        self.write_out(writer)
    }

    // Reads to the end of the input, and does its lines.
    fn read_all<S: Source, D: Drain, L: Log>(
        &mut self,
        reader: &mut S,
        writer: &mut D,
        log: &mut L,
    ) -> Result<(), ConsoleError>
        requires bytes { S.given reader.old ≤ 2 ^ 63 }
        requires reads { S.failures reader.old + 1 < 2 ^ 64 }
        requires writes { D.failures writer.old + 1 < 2 ^ 64 }
        ensures end { OnOk result (IsAtEnd (S.remaining reader.new)) }
        ensures ran { OnOk result ((text : List ℕ) → S.remaining reader.old ≡ Some text
            → Runs (lines_of text) (so_far [] self.old) (D.contents writer.old) self.new
            (D.contents writer.new)) }
        ensures stopped { OnErr result ((text : List ℕ) → S.remaining reader.old ≡ Some text
            → Begins (lines_of text) (so_far [] self.old) (D.contents writer.old) self.new
            (D.contents writer.new)) }
        ensures nothing_waits { OnOk result (string_bytes self.new.printed ≡ []) }
        ensures within { OnOk result (S.given reader.new ≤ S.given reader.old + most_input) }
        ensures fault { IfErr result (λ e. Tells e
            (counts (S.given reader.old) (S.failures reader.old) (D.failures writer.old))
            (counts (S.given reader.new) (S.failures reader.new) (D.failures writer.new))) }
        ensures ok { OnOk result (NoneFailed
            (counts (S.given reader.old) (S.failures reader.old) (D.failures writer.old))
            (counts (S.given reader.new) (S.failures reader.new) (D.failures writer.new))) }
    {
        let mut lines = LineReader::new(self.alloc)?;
        'lines: while lines.next(reader)? {
            // What was printed is written before more of the input is awaited.
            let is_written = !lines.has_line();
            self.do_line_to(lines.line(), is_written, writer, log)?;
        }
        self.write_out(writer)
    }

    // Reads to the end of the input, does its lines, and answers how many of them were bad.
    fn run<S: Source, D: Drain, L: Log>(
        &mut self,
        reader: &mut S,
        writer: &mut D,
        log: &mut L,
    ) -> Result<u64, ConsoleError>
        requires bytes { S.given reader.old ≤ 2 ^ 63 }
        requires reads { S.failures reader.old + 1 < 2 ^ 64 }
        requires writes { D.failures writer.old + 1 < 2 ^ 64 }
        ensures end { OnOk result (IsAtEnd (S.remaining reader.new)) }
        ensures ran { OnOk result ((text : List ℕ) → S.remaining reader.old ≡ Some text
            → Runs (lines_of text) (so_far [] self.old) (D.contents writer.old) self.new
            (D.contents writer.new)) }
        ensures stopped { OnErr result ((text : List ℕ) → S.remaining reader.old ≡ Some text
            → AppendsPart (D.contents writer.old) (D.contents writer.new)
            (after_lines (lines_of text) (so_far [] self.old)).printed) }
        ensures nothing_waits { OnOk result (string_bytes self.new.printed ≡ []) }
        ensures bad_lines { IfOk result (λ n. n ≡ self.new.bad_lines) }
        ensures within { OnOk result (S.given reader.new ≤ S.given reader.old + most_input) }
        ensures fault { IfErr result (λ e. Tells e
            (counts (S.given reader.old) (S.failures reader.old) (D.failures writer.old))
            (counts (S.given reader.new) (S.failures reader.new) (D.failures writer.new))) }
        ensures ok { OnOk result (NoneFailed
            (counts (S.given reader.old) (S.failures reader.old) (D.failures writer.old))
            (counts (S.given reader.new) (S.failures reader.new) (D.failures writer.new))) }
    {
        match self.read_all(reader, writer, log) {
            Ok(()) => Ok(self.bad_lines),
            Err(ConsoleError::NoMemory) => {
                // What the lines before printed is written.
                self.write_out(writer)?;
                Err(ConsoleError::NoMemory)
            }
            Err(
                error @ (ConsoleError::ReadFault
                | ConsoleError::WriteFault
                | ConsoleError::BadWords),
            ) => Err(error),
        }
    }
}

/// As [`run_script`], and tells the log what is wrong with each bad line.
///
/// # Errors
///
/// As [`run_script`].
pub fn run_logged<S: Source, D: Drain, L: Log>(
    alloc: Global,
    reader: &mut S,
    writer: &mut D,
    log: &mut L,
) -> Result<u64, ConsoleError>
    requires bytes { S.given reader.old ≤ 2 ^ 63 }
    requires reads { S.failures reader.old + 1 < 2 ^ 64 }
    requires writes { D.failures writer.old + 1 < 2 ^ 64 }
    ensures { RunsScript result
        (counts (S.given reader.old) (S.failures reader.old) (D.failures writer.old))
        (counts (S.given reader.new) (S.failures reader.new) (D.failures writer.new))
        (S.remaining reader.old) (S.remaining reader.new) (D.contents writer.old) (D.contents writer.new) }
{
    Script::new(alloc).run(reader, writer, log)
}

/// Runs the script that a reader gives over one new core and one source of push ids, and writes
/// what its lines print. Answers the number of bad lines.
///
/// # Errors
///
/// A `ReadFault` is a failure of the reader, or more than 67,108,864 bytes of input, and a
/// `WriteFault` a failure of the writer, also where memory lacked before it. `NoMemory`, where nothing
/// failed to be read or written. What is written before an error is what the whole run would have
/// written first.
pub fn run_script<S: Source, D: Drain>(
    alloc: Global,
    reader: &mut S,
    writer: &mut D,
) -> Result<u64, ConsoleError>
    requires bytes { S.given reader.old ≤ 2 ^ 63 }
    requires reads { S.failures reader.old + 1 < 2 ^ 64 }
    requires writes { D.failures writer.old + 1 < 2 ^ 64 }
    ensures { RunsScript result
        (counts (S.given reader.old) (S.failures reader.old) (D.failures writer.old))
        (counts (S.given reader.new) (S.failures reader.new) (D.failures writer.new))
        (S.remaining reader.old) (S.remaining reader.new) (D.contents writer.old) (D.contents writer.new) }
{
    run_logged(alloc, reader, writer, &mut Silent)
}

// ---- what the lines of a script act on

/// What the lines of a script act on: a core, and the source of its push ids.
pub struct State {
    pub(crate) core: Core,
    pub(crate) ids: PushIds,
}

impl Drop for State {
    fn drop(self) {
        let State { core: _, ids: _ } = self;
    }
}

impl Model for State {
    ghost use Rattle.rt_sync.specs.Core.{world_in};
    ghost use Rattle.rt_script.specs.State.{State as Seen};

    ghost Value = { Seen };

    ghost view = { λ s. record { world = world_in s.core; last_id = s.ids } };
}

impl State {
    /// A new core with these limits, and a source that has given no id yet. A limit of 0 counts as
    /// 1, and one above what a core takes as that.
    pub fn new(alloc: Global, limits: Limits) -> State
        ensures { result ≡ new_state (limits_from limits) }
    {
        State {
            core: Core::new(alloc, limits),
            ids: PushIds::new(),
        }
    }
}
