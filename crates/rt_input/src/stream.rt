// Readers and writers that count.
ghost use Rattle.std.specs.Prelude.{◌≡◌, ◌+◌, ◌<◌, ◌≤◌, ◌^◌, ◌↔◌, ℕ, List, Option, length, IfOk, OnOk};
ghost use Rattle.std.specs.Prelude.{IsSome, OnErr, codes, ◌==◌, ◌&&◌, ◌||◌, not, true, false, [], drop};
ghost use Rattle.std.specs.Prelude.{IsErrAnd, Ok};
ghost use Rattle.std.specs.Io.{WritesAtMost, ReadsAtMost};
ghost use Rattle.std.specs.Io.KnownBytes.{Appends, ReadConsumes, WriteAppends, Keeps};
ghost use Rattle.std.specs.Result.{is_err};
ghost use Rattle.std.specs.IoError.{error_kind};
ghost use Rattle.rt_input.specs.Streams.{AppendsPart, CountsBytes, CountsFailure};
ghost use Rattle.rt_input.specs.Counted.{awaiting, known_output, moves_nothing};

use std::io::{self, ErrorKind, Read, Write};
use std::marker::Model;
use thiserror::Error;

/// A read or a write failed.
#[derive(Clone, Copy, Debug, PartialEq, Eq, Error)]
#[error("a read or a write failed")]
pub struct Failed;

impl Failed {
    /// The number of the error, which is the only one.
    pub fn code(&self) -> u8
        ensures { result ≡ 1 }
    {
        1
    }

    /// The name of the error.
    pub fn name(&self) -> &'static str
        ensures { result.now ≡ codes "Failed" }
    {
        "Failed"
    }
}

/// A reader that counts the bytes that it gave, and its failures.
pub trait Source {
    // How many bytes were given.
    ghost given: { Self → ℕ };

    // How many reads failed.
    ghost failures: { Self → ℕ };

    // The bytes that are left, where they are known.
    ghost remaining: { Self → Option (List ℕ) };

    /// Reads into the front of the slice, and answers how many bytes it gave: none only at the end of
    /// the input, or where the slice is empty.
    fn read(&mut self, into: &mut [u8]) -> Result<usize, Failed>
        requires can_count_bytes { given self.old + length into.old < 2 ^ 64 }
        requires can_count_failures { failures self.old + 1 < 2 ^ 64 }
        ensures fits { IfOk result (λ n. n ≤ length into.old) }
        ensures given { CountsBytes result (given self.old) (given self.new) }
        ensures failures { CountsFailure result (failures self.old) (failures self.new) }
        ensures bytes { ReadConsumes (remaining self.old) (remaining self.new) result into.new };
}

/// A writer that counts its failures.
pub trait Drain {
    // How many writes failed.
    ghost failures: { Self → ℕ };

    // The bytes that it holds, where they are known.
    ghost contents: { Self → Option (List ℕ) };

    /// Writes all of the slice, so that nothing of it waits in a buffer. Where it fails, what the slice
    /// begins with may be written, and nothing else.
    fn write(&mut self, bytes: &[u8]) -> Result<(), Failed>
        requires { failures self.old + 1 < 2 ^ 64 }
        ensures failures { CountsFailure result (failures self.old) (failures self.new) }
        ensures bytes { OnOk result (Appends (contents self.old) (contents self.new) bytes.now) }
        ensures part { OnErr result
            (AppendsPart (contents self.old) (contents self.new) bytes.now) };
}

/// A [`Source`] of a reader of std.
#[derive(Drop)]
pub struct Reading<R: Read + Drop> {
    reader: R,
    given: u64,
    failures: u64,
    // Why the last failed read failed.
    cause: Option<io::Error>,
    ghost caused: { IsSome cause ↔ 0 < failures },
}

impl<R: Read + Drop> Reading<R> {
    /// Counts from 0.
    pub fn new(reader: R) -> Reading<R>
        ensures given { ⟦<Reading<R> as Source>⟧.given result ≡ 0 }
        ensures failures { ⟦<Reading<R> as Source>⟧.failures result ≡ 0 }
        ensures remaining { ⟦<Reading<R> as Source>⟧.remaining result ≡ R.remaining reader }
    {
        Reading {
            reader,
            given: 0,
            failures: 0,
            cause: None,
        }
    }

    /// Why the last failed read failed; none where no read did.
    pub fn into_cause(self) -> Option<io::Error>
        ensures { IsSome result ↔ 0 < ⟦<Reading<R> as Source>⟧.failures self }
    {
        let Reading { cause, .. } = self;
        cause
    }
}

impl<R: Read + Drop> Source for Reading<R> {
    ghost given = { λ s. s.given };

    ghost failures = { λ s. s.failures };

    ghost remaining = { λ s. R.remaining s.reader };

    fn read(&mut self, into: &mut [u8]) -> Result<usize, Failed> {
        match self.reader.read(into) {
            Ok(count) => {
                self.given += count as u64;
                Ok(count)
            }
            Err(why) => {
                self.failures += 1;
                self.cause = Some(why);
                Err(Failed)
            }
        }
    }
}

/// A [`Drain`] of a writer of std.
#[derive(Drop)]
pub struct Writing<W: Write + Drop> {
    writer: W,
    failures: u64,
    // Why the last failed write failed.
    cause: Option<io::Error>,
    ghost caused: { IsSome cause ↔ 0 < failures },
}

impl<W: Write + Drop> Writing<W> {
    /// Counts from 0.
    pub fn new(writer: W) -> Writing<W>
        ensures failures { ⟦<Writing<W> as Drain>⟧.failures result ≡ 0 }
        ensures contents { ⟦<Writing<W> as Drain>⟧.contents result ≡ W.contents writer }
    {
        Writing {
            writer,
            failures: 0,
            cause: None,
        }
    }

    /// Why the last failed write failed; none where no write did.
    pub fn into_cause(self) -> Option<io::Error>
        ensures { IsSome result ↔ 0 < ⟦<Writing<W> as Drain>⟧.failures self }
    {
        let Writing { cause, .. } = self;
        cause
    }
}

// Writes some of the bytes, and answers how many: none where the call was interrupted.
fn write_some<W: Write>(writer: &mut W, bytes: &[u8]) -> io::Result<usize>
    ensures bound { WritesAtMost result bytes.now }
    ensures bytes { WriteAppends (W.contents writer.old) (W.contents writer.new) result bytes.now }
{
    match writer.write(bytes) {
        Ok(0) => Err(io::Error::from(ErrorKind::WriteZero)),
        Ok(count) => Ok(count),
        Err(why) => {
            if why.kind() == ErrorKind::Interrupted {
                Ok(0)
            } else {
                Err(why)
            }
        }
    }
}

// Writes all of the bytes, and waits for none of them. It is std's `write_all`, which says nothing of what
// was written where it fails.
pub(crate) fn write_out<W: Write>(writer: &mut W, bytes: &[u8]) -> io::Result<()>
    ensures bytes { OnOk result (Appends (W.contents writer.old) (W.contents writer.new) bytes.now) }
    ensures part { OnErr result
        (AppendsPart (W.contents writer.old) (W.contents writer.new) bytes.now) }
{
    let mut written = 0;
    'tries: for _ in 0..u64::MAX {
        if written == bytes.len() {
            return writer.flush();
        }
        written += write_some(writer, &bytes[written..])?;
    }
    Err(io::Error::from(ErrorKind::Interrupted))
}

impl<W: Write + Drop> Drain for Writing<W> {
    ghost failures = { λ s. s.failures };

    ghost contents = { λ s. W.contents s.writer };

    fn write(&mut self, bytes: &[u8]) -> Result<(), Failed> {
        match write_out(&mut self.writer, bytes) {
            Ok(()) => Ok(()),
            Err(cause) => {
                self.failures += 1;
                self.cause = Some(cause);
                Err(Failed)
            }
        }
    }
}

// ---- a stream whose bytes are counted while a message is awaited

/// How many bytes may be read while one message is awaited. Where more are needed the socket has
/// failed.
pub const MAX_MESSAGE_BYTES: usize = 134_217_728;

/// A stream of which at most so many bytes are read for one message. A read beyond them fails.
///
/// One that can't be written to any more can be read on: see [`Counted::pass_over_writes`].
#[derive(Debug, Drop)]
pub struct Counted<S> {
    stream: S,
    most: usize,
    // How many are left for the message that is awaited.
    left: usize,
    // Whether the last read failed or found the end.
    has_ended: bool,
    // Whether the last write or flush failed, or wrote nothing.
    has_failed: bool,
    // Whether what is written goes nowhere.
    is_shut: bool,
}

impl<S> Model for Counted<S> {
    ghost use Rattle.rt_input.specs.Counted.{CountedStream};

    ghost Value = { CountedStream S };

    ghost view = { λ c. record {
      stream = c.stream;
      most = c.most;
      left = c.left;
      has_ended = c.has_ended;
      has_failed = c.has_failed;
      is_shut = c.is_shut;
    } };
}

impl<S> Counted<S> {
    /// The first message is awaited.
    pub fn new(stream: S, most: usize) -> Counted<S>
        ensures { result ≡ awaiting stream most }
    {
        Counted {
            stream,
            most,
            left: most,
            has_ended: false,
            has_failed: false,
            is_shut: false,
        }
    }

    /// The next message is awaited from here on.
    pub fn await_message(&mut self)
        ensures { self.new ≡ record (self.old) { left = self.old.most } }
    {
        self.left = self.most;
    }

    /// Whether no more can be read for the message that is awaited: the last read failed or found the
    /// end of the stream, or none of the bytes is left.
    pub fn is_over(&self) -> bool
        ensures { result ≡ (self.now.has_ended || self.now.left == 0) }
    {
        self.has_ended || self.left == 0
    }

    /// Where the last write failed, what is written from here on goes nowhere, so that what has come can
    /// be read by who answers it. Answers whether this began now.
    pub fn pass_over_writes(&mut self) -> bool
        ensures began { result ≡ (self.old.has_failed && not self.old.is_shut) }
        ensures shut { self.new
            ≡ record (self.old) { is_shut = self.old.is_shut || self.old.has_failed } }
    {
        let begins = self.has_failed && !self.is_shut;
        self.is_shut = self.is_shut || self.has_failed;
        begins
    }
}

// Whether a read or a write failed, or moved no byte.
fn moves_nothing(moved: &io::Result<usize>) -> bool
    ensures { result ≡ moves_nothing moved.now }
{
    match moved {
        Ok(count) => *count == 0,
        Err(_) => true,
    }
}

impl<S: Read> Read for Counted<S> {
    ghost remaining = { λ c. S.remaining c.stream };

    /// A read of the stream, of no more bytes than are left. Where a byte is asked for and none is left
    /// it fails with `QuotaExceeded`, and where none is asked for it gives none; neither reads anything.
    fn read(&mut self, buf: &mut [u8]) -> io::Result<usize>
        // What the stream gives, as at each reader.
        ensures bound { ReadsAtMost result buf.new }
        ensures bytes { ReadConsumes (S.remaining self.old.stream) (S.remaining self.new.stream)
            result buf.new }

        // What was left is what is left now, and the bytes that were given.
        ensures left { CountsBytes result self.new.left self.old.left }
        ensures most { self.new.most ≡ self.old.most }
        ensures beyond { drop self.old.left buf.new ≡ drop self.old.left buf.old }
        ensures spent { self.old.left ≡ 0 → 0 < length buf.old
            → IsErrAnd result (λ e. error_kind e ≡ ErrorKind.QuotaExceeded) × (self.new ≡ self.old) }
        ensures nothing { buf.old ≡ [] → (result ≡ Ok 0) × (self.new ≡ self.old) }
        ensures ended { 0 < self.old.left → 0 < length buf.old
            → self.new.has_ended ≡ moves_nothing result }
        ensures writes { (self.new.has_failed ≡ self.old.has_failed)
            × (self.new.is_shut ≡ self.old.is_shut) }
    {
        if buf.is_empty() {
            return Ok(0);
        }
        if self.left == 0 {
            return Err(io::Error::from(ErrorKind::QuotaExceeded));
        }
        let most = buf.len().min(self.left);
        let given = self.stream.read(&mut buf[..most]);
        self.has_ended = moves_nothing(&given);
        let count = given?;
        self.left -= count;
        Ok(count)
    }
}

impl<S: Write> Write for Counted<S> {
    ghost contents = { λ c. known_output S.contents c };

    /// A write to the stream, or to nowhere.
    fn write(&mut self, buf: &[u8]) -> io::Result<usize>
        ensures bound { WritesAtMost result buf.now }
        ensures bytes { WriteAppends (known_output S.contents self.old)
            (known_output S.contents self.new) result buf.now }
        ensures counts { self.new
            ≡ record (self.old) { stream = self.new.stream; has_failed = self.new.has_failed } }
        ensures failed { self.old.is_shut ≡ false → self.new.has_failed ≡ moves_nothing result }
        ensures nowhere { self.old.is_shut ≡ true
            → (result ≡ Ok (length buf.now)) × (self.new ≡ self.old) }
    {
        if self.is_shut {
            return Ok(buf.len());
        }
        let written = self.stream.write(buf);
        self.has_failed = moves_nothing(&written);
        written
    }

    fn flush(&mut self) -> io::Result<()>
        ensures bytes { Keeps (known_output S.contents self.old) (known_output S.contents self.new) }
        ensures counts { self.new
            ≡ record (self.old) { stream = self.new.stream; has_failed = self.new.has_failed } }
        ensures failed { self.old.is_shut ≡ false → self.new.has_failed ≡ is_err result }
        ensures nowhere { self.old.is_shut ≡ true → (result ≡ Ok tt) × (self.new ≡ self.old) }
    {
        if self.is_shut {
            return Ok(());
        }
        let flushed = self.stream.flush();
        self.has_failed = flushed.is_err();
        flushed
    }
}
