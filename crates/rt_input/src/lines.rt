// The lines of an input.
ghost use Rattle.std.specs.Prelude.{◌≡◌, ◌+◌, ◌<◌, ◌≤◌, ◌^◌, ◌⊎◌, ◌++◌, ◌∷◌, [], ◌==◌, ℕ, List, not};
ghost use Rattle.std.specs.Prelude.{true, false, Ok};
ghost use Rattle.std.specs.Prelude.{Some, is_some, length, position, take};
ghost use Rattle.std.specs.Prelude.{IfOk, IfErr, OnOk, OnErr};
ghost use Rattle.std.specs.Io.KnownBytes.{Consumes, IsAtEnd};
ghost use Rattle.rt_input.specs.Lines.{Gives, most_input, most_lines, new_lines, resumed_by, TellsOfReads};

use crate::fault::ConsoleError;
use crate::stream::Source;
use std::alloc::{AllocError, Global};
use std::marker::Model;

/// The most bytes of input that are taken.
pub const MOST_INPUT: usize = 67_108_864;

// How many bytes are read at once.
const CHUNK: usize = 65_536;

/// Gives the lines of an input, one after another: its pieces between line feeds, the last of them also
/// where it is empty. A line is kept until the next is asked for.
pub struct LineReader {
    line: Vec<u8>,
    // What was read last, of which the bytes from `start` to `end` are not taken yet.
    chunk: Vec<u8>,
    start: usize,
    end: usize,
    // How many bytes were read.
    count: usize,
    ended: bool,
}

impl Drop for LineReader {
    fn drop(self) {
        let LineReader {
            line: _,
            chunk: _,
            start: _,
            end: _,
            count: _,
            ended: _,
        } = self;
    }
}

impl Model for LineReader {
    ghost use Rattle.std.specs.Prelude.{◌≡◌, ◌≤◌, ◌-◌, length, take, drop};
    ghost use Rattle.rt_input.specs.Lines.{Lines, most_input};

    ghost Value = { Lines };

    ghost view = { λ a. record {
      line = a.line.items;
      rest = take (a.end - a.start) (drop a.start a.chunk.items);
      count = a.count;
      ended = a.ended;
    } };

    ghost invariant = { λ a. (a.start ≤ a.end) × (a.end ≤ length a.chunk.items)
        × (length a.chunk.items ≡ 65536) × (a.count ≤ most_input) };
}

// The place of the first line feed.
fn feed_in(bytes: &[u8]) -> Option<usize>
    ensures { result ≡ position (λ byte. byte == 10) bytes.now }
{
    bytes.iter().position(|byte| *byte == b'\n')
}

// Reads some of the input, and answers how many bytes: none only at its end.
fn read_some<S: Source>(reader: &mut S, chunk: &mut [u8]) -> Result<usize, ConsoleError>
    requires bytes { S.given reader.old + length chunk.old < 2 ^ 64 }
    requires failures { S.failures reader.old + 1 < 2 ^ 64 }
    requires room { 0 < length chunk.old }
    ensures fits { IfOk result (λ n. n ≤ length chunk.old) }
    ensures given { IfOk result (λ n. S.given reader.new ≡ S.given reader.old + n) }
    ensures none_failed { OnOk result (S.failures reader.new ≡ S.failures reader.old) }
    ensures end { IfOk result (λ n. n ≡ 0 → IsAtEnd (S.remaining reader.new)) }
    ensures bytes { IfOk result (λ n.
        Consumes (S.remaining reader.old) (S.remaining reader.new) (take n chunk.new)) }
    ensures error { IfErr result (λ e. e ≡ ConsoleError.ReadFault) }
    ensures fault { OnErr result (S.failures reader.new ≡ S.failures reader.old + 1) }
{
    match reader.read(chunk) {
        Ok(count) => Ok(count),
        Err(_) => Err(ConsoleError::ReadFault),
    }
}

impl LineReader {
    /// Nothing has been read.
    pub fn new(alloc: Global) -> Result<LineReader, AllocError>
        ensures { IfOk result (λ lines. lines ≡ new_lines) }
    {
        Ok(LineReader {
            line: Vec::new(alloc),
            chunk: vec![in alloc; 0u8; CHUNK]?,
            start: 0,
            end: 0,
            count: 0,
            ended: false,
        })
    }

    /// The line that was given last.
    pub fn line(&self) -> &[u8]
        ensures { result.now ≡ self.now.line }
    {
        self.line.as_slice()
    }

    /// Whether the next line is there, so that nothing has to be read for it.
    pub fn has_line(&self) -> bool
        ensures { result ≡ is_some (position (λ byte. byte == 10) self.now.rest) }
    {
        feed_in(&self.chunk[self.start..self.end]).is_some()
    }

    // Takes on what was read, up to its first line feed or all of it, and answers whether the line is
    // whole.
    fn take_piece(&mut self) -> Result<bool, AllocError>
        ensures whole { IfOk result (λ whole. whole ≡ true → (left : List ℕ)
            → resumed_by self.old left ≡ self.new.line ∷ resumed_by (record (self.new) { line = [] }) left) }
        ensures part { IfOk result (λ whole. whole ≡ false → (left : List ℕ)
            → resumed_by self.old left ≡ resumed_by self.new left) }
        ensures nothing { IfOk result (λ whole. whole ≡ false → self.new.rest ≡ []) }
        ensures fewer { IfOk result (λ whole. whole ≡ true
            → length self.new.rest < length self.old.rest) }
        ensures count { OnOk result (self.new.count ≡ self.old.count) }
        ensures ended { OnOk result (self.new.ended ≡ self.old.ended) }
    {
        let rest = &self.chunk[self.start..self.end];
        match feed_in(rest) {
            Some(len) => {
                self.line.extend_from_slice(&rest[..len])?;
                self.start += len + 1;
                Ok(true)
            }
            None => {
                self.line.extend_from_slice(rest)?;
                self.start = self.end;
                Ok(false)
            }
        }
    }

    // Reads more of the input behind what was taken on, and answers whether there was more.
    fn read_on<S: Source>(&mut self, reader: &mut S) -> Result<bool, ConsoleError>
        requires rest { self.old.rest ≡ [] }
        requires bytes { S.given reader.old ≤ 2 ^ 63 + self.old.count }
        requires reads { S.failures reader.old + 1 < 2 ^ 64 }
        ensures read { OnOk result
            (Consumes (S.remaining reader.old) (S.remaining reader.new) self.new.rest) }
        ensures end { IfOk result (λ more. more ≡ false
            → (self.new.rest ≡ []) × IsAtEnd (S.remaining reader.new)) }
        ensures more { IfOk result (λ more. more ≡ true → self.old.count < self.new.count) }
        ensures taken { OnOk result (length self.new.rest + self.old.count ≤ self.new.count) }
        ensures line { self.new.line ≡ self.old.line }
        ensures ended { self.new.ended ≡ self.old.ended }
        ensures within { self.new.count ≤ most_input }
        ensures given { OnOk result
            (S.given reader.new + self.old.count ≡ S.given reader.old + self.new.count) }
        ensures ok { OnOk result (S.failures reader.new ≡ S.failures reader.old) }
        ensures fault { IfErr result (λ e. TellsOfReads e self.old.count (S.given reader.old)
            (S.given reader.new) (S.failures reader.old) (S.failures reader.new)) }
    {
        let count = read_some(reader, self.chunk.as_mut_slice())?;
        if count > MOST_INPUT - self.count {
            return Err(ConsoleError::ReadFault);
        }
        self.start = 0;
        self.end = count;
        self.count += count;
        Ok(count > 0)
    }

    /// Gives the next line, and answers whether there is one.
    ///
    /// # Errors
    ///
    /// `ReadFault` where the reader fails, or gives more than [`MOST_INPUT`] bytes, and `NoMemory`. After
    /// either the line that was being read is lost.
    pub fn next<S: Source>(&mut self, reader: &mut S) -> Result<bool, ConsoleError>
        requires bytes { S.given reader.old ≤ 2 ^ 63 + self.old.count }
        requires reads { S.failures reader.old + 1 < 2 ^ 64 }
        ensures more { IfOk result (λ more. more ≡ not self.old.ended) }
        ensures gives { OnOk result ((left : List ℕ) → S.remaining reader.old ≡ Some left
            → Gives self.old left self.new (S.remaining reader.new)) }
        ensures end { OnOk result (self.old.ended ≡ false → self.new.ended ≡ true
            → IsAtEnd (S.remaining reader.new)) }
        ensures fewer { IfOk result (λ more. more ≡ true → most_lines self.new < most_lines self.old) }
        ensures nothing { self.old.ended ≡ true
            → (result ≡ Ok false) × (self.new ≡ self.old) × (reader.new ≡ reader.old) }
        ensures within { OnOk result (self.new.count ≤ most_input) }
        ensures given { OnOk result
            (S.given reader.new + self.old.count ≡ S.given reader.old + self.new.count) }
        ensures ok { OnOk result (S.failures reader.new ≡ S.failures reader.old) }
        ensures fault { IfErr result (λ e. TellsOfReads e self.old.count (S.given reader.old)
            (S.given reader.new) (S.failures reader.old) (S.failures reader.new)) }
    {
        if self.ended {
            return Ok(false);
        }
        self.line.clear();
        'pieces: loop {
            if self.take_piece()? {
                return Ok(true);
            }
            if !self.read_on(reader)? {
                self.ended = true;
                return Ok(true);
            }
        }
    }
}
