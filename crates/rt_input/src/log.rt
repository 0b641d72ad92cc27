// What a run tells of itself beside its output.
ghost use Rattle.std.specs.Prelude.{◌≡◌, ℕ, List, Option, None, Bool, true, false, OnOk};
ghost use Rattle.std.specs.Io.KnownBytes.{Appends};
ghost use Rattle.rt_input.specs.Log.{log_line};

use crate::stream::write_out;
use std::alloc::{AllocError, Global};
use std::io::Write;

/// The name of the program, as it stands before each line that is told.
pub const LOG_PREFIX: &str = "kaltewi: ";

/// What a run tells of itself beside its output, line by line.
pub trait Log {
    // Whether lines are told.
    ghost is_on: { Self → Bool };

    // The bytes that were told, where they are known.
    ghost told: { Self → Option (List ℕ) };

    // Whether a line was lost.
    ghost has_lost: { Self → Bool };

    /// Whether lines are told. Where they are not, none has to be made.
    fn is_on(&self) -> bool
        ensures { result ≡ is_on self.now };

    /// Tells a line, which has no line feed. A line that can't be told is lost, and nothing else.
    fn tell(&mut self, line: &str)
        ensures on { is_on self.new ≡ is_on self.old }
        ensures off { is_on self.old ≡ false → self.new ≡ self.old }
        ensures told { is_on self.old ≡ true → has_lost self.new ≡ false
            → Appends (told self.old) (told self.new) (log_line line.now) }
        ensures lost { has_lost self.old ≡ true → has_lost self.new ≡ true };
}

/// Tells nothing.
#[derive(Clone, Copy, Debug)]
pub struct Silent;

impl Log for Silent {
    ghost is_on = { λ _. false };

    ghost told = { λ _. None };

    ghost has_lost = { λ _. false };

    fn is_on(&self) -> bool {
        false
    }

    fn tell(&mut self, _line: &str) {}
}

/// Tells each line to a writer, behind [`LOG_PREFIX`] and with a line feed, by one write where the
/// writer takes it whole.
#[derive(Drop)]
pub struct Telling<W: Write + Drop> {
    writer: W,
    // The line that was told last, as it was written.
    line: Vec<u8>,
    has_lost: bool,
}

impl<W: Write + Drop> Telling<W> {
    /// Nothing has been told.
    pub fn new(alloc: Global, writer: W) -> Telling<W>
        ensures on { ⟦<Telling<W> as Log>⟧.is_on result ≡ true }
        ensures told { ⟦<Telling<W> as Log>⟧.told result ≡ W.contents writer }
        ensures lost { ⟦<Telling<W> as Log>⟧.has_lost result ≡ false }
    {
        Telling {
            writer,
            line: Vec::new(alloc),
            has_lost: false,
        }
    }
}

// Makes the line that is written.
fn make_line(made: &mut Vec<u8>, line: &str) -> Result<(), AllocError>
    ensures { OnOk result (made.new.items ≡ log_line line.now) }
{
    made.clear();
    made.extend_from_slice(LOG_PREFIX.as_bytes())?;
    made.extend_from_slice(line.as_bytes())?;
    made.extend_from_slice(b"\n")
}

impl<W: Write + Drop> Log for Telling<W> {
    ghost is_on = { λ _. true };

    ghost told = { λ s. W.contents s.writer };

    ghost has_lost = { λ s. s.has_lost };

    fn is_on(&self) -> bool {
        true
    }

    fn tell(&mut self, line: &str) {
        if make_line(&mut self.line, line).is_err()
            || write_out(&mut self.writer, &self.line).is_err()
        {
            self.has_lost = true;
        }
    }
}
