// What is printed, as a person wants it: without what a terminal obeys and, of a client that is watched, without
// whole values, or with long ones cut.
ghost use Rattle.std.specs.Prelude.{◌≡◌, ◌≤◌, ◌++◌, ◌∷◌, [], None, false, true, length, option_map, IfSome};
ghost use Rattle.std.specs.Prelude.{OnOk};
ghost use Rattle.rt_console.specs.Shown.{text_as, value_behind, value_in, value_of};

use rt_input::push_plain;
use std::alloc::{AllocError, Global};
use std::io::{self, ErrorKind, Write};

// What stands before a whole value, behind a listener's number.
const VALUE: [u8; 7] = *b" value ";

// How many bytes may be said behind a value that is cut.
const MOST_SAID: usize = 32;

/// How printed lines are shown.
#[derive(Clone, Copy)]
pub(crate) struct Shape {
    /// Whether lines with a whole value are left out.
    pub(crate) changes_only: bool,
    /// Such a line is cut where it has more than so many bytes.
    pub(crate) width: Option<u16>,
    /// Whether what a terminal obeys is shown by its number.
    pub(crate) is_escaped: bool,
}

impl Shape {
    /// All lines, and each of them whole.
    pub(crate) fn whole(is_escaped: bool) -> Shape
        ensures { result ≡ record {
          changes_only = false;
          width = None;
          is_escaped = is_escaped;
        } }
    {
        Shape {
            changes_only: false,
            width: None,
            is_escaped,
        }
    }

    // Whether all lines are shown as they are.
    fn is_whole(self) -> bool
        ensures { result ≡ true
            → (self.changes_only ≡ false) × (self.width ≡ None) × (self.is_escaped ≡ false) }
    {
        match self.width {
            None => !self.changes_only && !self.is_escaped,
            Some(_) => false,
        }
    }
}

// What stands behind the word of a whole value, where that is what begins there.
fn value_of(rest: &[u8]) -> Option<&[u8]>
    ensures { option_map (λ value. value.now) result ≡ value_of rest.now }
{
    if rest.starts_with(&VALUE) {
        Some(&rest[7..])
    } else {
        None
    }
}

// The whole value of a line, by what stands behind the letter of its listener.
fn value_behind(rest: &[u8]) -> Option<&[u8]>
    ensures { option_map (λ value. value.now) result ≡ value_behind rest.now }
{
    for at in 0..rest.len() {
        if !rest[at].is_ascii_digit() {
            return value_of(&rest[at..]);
        }
    }
    None
}

// The whole value of a line, where it has one: `L<n> value <value>`.
fn value_in(line: &[u8]) -> Option<&[u8]>
    ensures { option_map (λ value. value.now) result ≡ value_in line.now }
{
    match line.split_first() {
        Some((b'L', rest)) => value_behind(rest),
        Some(_) | None => None,
    }
}

// How many bytes of a line are kept, so many at most, so that no character is cut through.
fn whole_characters(line: &[u8], most: usize) -> usize
    ensures { result ≤ most }
{
    for back in 0..4 {
        let kept = most.saturating_sub(back);
        if line.len() <= kept || line[kept] & 0xC0 != 0x80 {
            return kept;
        }
    }
    most
}

// Shows a text of a line: as it is, or with the number of each character that a terminal obeys in its place. What
// is no UTF-8 is shown as it is.
#[tactic(auto, using(crate::proofs::Texts::is_text, crate::proofs::Texts::is_no_text))]
fn show_text(shown: &mut Vec<u8>, is_escaped: bool, text: &[u8]) -> Result<(), AllocError>
    ensures { OnOk result (shown.new.items ≡ shown.old.items ++ text_as is_escaped text.now) }
{
    if !is_escaped {
        return shown.extend_from_slice(text);
    }
    match std::str::from_utf8(text) {
        Ok(text) => push_plain(shown, text),
        Err(_) => shown.extend_from_slice(text),
    }
}

// Shows the beginning of a line, and how many bytes its value has.
fn show_cut(
    shown: &mut Vec<u8>,
    alloc: Global,
    is_escaped: bool,
    line: &[u8],
    width: u16,
    len: usize,
) -> Result<(), AllocError> {
    let room = usize::from(width).saturating_sub(MOST_SAID);
    let kept = whole_characters(line, room.min(line.len()));
    show_text(shown, is_escaped, &line[..kept])?;
    let said = format!(in alloc; " .. ({len} bytes)\n")?;
    shown.extend_from_slice(said.as_str().as_bytes())
}

// Shows a line whole.
fn show_whole(shown: &mut Vec<u8>, is_escaped: bool, line: &[u8]) -> Result<(), AllocError>
    ensures { OnOk result
        (shown.new.items ≡ shown.old.items ++ (text_as is_escaped line.now ++ 10 ∷ [])) }
{
    show_text(shown, is_escaped, line)?;
    shown.push(b'\n')?;
    Ok(())
}

// Shows a line, which has no line feed.
fn show_line(
    shown: &mut Vec<u8>,
    alloc: Global,
    shape: Shape,
    line: &[u8],
) -> Result<(), AllocError>
    ensures whole { OnOk result (value_in line.now ≡ None
        → shown.new.items ≡ shown.old.items ++ (text_as shape.is_escaped line.now ++ 10 ∷ [])) }
    ensures left_out { IfSome (value_in line.now) (λ value.
        shape.changes_only ≡ true → shown.new ≡ shown.old) }
{
    let Some(value) = value_in(line) else {
        return show_whole(shown, shape.is_escaped, line);
    };
    if shape.changes_only {
        return Ok(());
    }
    match shape.width {
        Some(width) if usize::from(width) < line.len() => {
            show_cut(shown, alloc, shape.is_escaped, line, width, value.len())
        }
        Some(_) | None => show_whole(shown, shape.is_escaped, line),
    }
}

// Shows lines, and behind the last line feed the text that stands there.
fn show_lines(
    shown: &mut Vec<u8>,
    alloc: Global,
    shape: Shape,
    lines: &[u8],
) -> Result<(), AllocError> {
    let mut begun = 0;
    for at in 0..lines.len() {
        if lines[at] == b'\n' {
            show_line(shown, alloc, shape, &lines[begun..at])?;
            begun = at + 1;
        }
    }
    show_text(shown, shape.is_escaped, &lines[begun..])
}

/// A writer that is given lines whole, and shows them.
#[derive(Drop)]
pub(crate) struct Showing<W: Write + Drop> {
    alloc: Global,
    writer: W,
    shape: Shape,
    shown: Vec<u8>,
}

impl<W: Write + Drop> Showing<W> {
    pub(crate) fn new(alloc: Global, writer: W, shape: Shape) -> Showing<W> {
        Showing {
            alloc,
            writer,
            shape,
            shown: Vec::new(alloc),
        }
    }
}

impl<W: Write + Drop> Write for Showing<W> {
    ghost contents = { λ _. None };

    fn write(&mut self, buf: &[u8]) -> io::Result<usize> {
        if self.shape.is_whole() {
            return self.writer.write(buf);
        }
        self.shown.clear();
        if show_lines(&mut self.shown, self.alloc, self.shape, buf).is_err() {
            return Err(io::Error::from(ErrorKind::OutOfMemory));
        }
        self.writer.write_all(&self.shown)?;
        Ok(buf.len())
    }

    fn flush(&mut self) -> io::Result<()> {
        self.writer.flush()
    }
}
