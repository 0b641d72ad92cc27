// The lines of a journal, as they are written.
ghost use Rattle.std.specs.Prelude.{◌≡◌, ◌++◌, None, Some, OnOk, decimal, ◌⊎◌, false, IfOk, IfErr, OnErr};
ghost use Rattle.std.specs.Prelude.{string_bytes, option_map, position};
ghost use Rattle.rt_journal.specs.Entries.{escaped, escaped_byte, line_of, as_text, entry_in, is_feed};
ghost use Rattle.rt_journal.specs.Entries.{is_space, meant, next_number, number_in, text_in, unescaped};
ghost use Rattle.rt_journal.specs.declared.line.LineFault.TheVariants.{NoMemory};

use std::alloc::{AllocError, AllocFailed, Global};

/// What a line ends with.
pub(crate) const FEED: u8 = 10;

/// What stands between a connection's number and its text.
pub(crate) const SPACE: u8 = 32;

/// What stands before a byte that no line holds.
pub(crate) const ESCAPE: u8 = 27;

/// What stands behind an escape for a line feed.
pub(crate) const LETTER: u8 = 110;

// Puts a byte of a text, so that no line feed comes of it.
fn push_byte(out: &mut Vec<u8>, byte: u8) -> Result<(), AllocError>
    ensures { OnOk result (out.new.items ≡ out.old.items ++ escaped_byte byte) }
{
    if byte == FEED {
        out.push(ESCAPE)?;
        out.push(LETTER)?;
    } else if byte == ESCAPE {
        out.push(ESCAPE)?;
        out.push(ESCAPE)?;
    } else {
        out.push(byte)?;
    }
    Ok(())
}

// Puts a text without a line feed.
fn push_text(out: &mut Vec<u8>, text: &[u8]) -> Result<(), AllocError>
    ensures { OnOk result (out.new.items ≡ out.old.items ++ escaped text.now) }
{
    for byte in text {
        push_byte(out, *byte)?;
    }
    Ok(())
}

// Puts the number of a connection.
fn push_number(alloc: Global, out: &mut Vec<u8>, connection: u64) -> Result<(), AllocError>
    ensures { OnOk result (out.new.items ≡ out.old.items ++ decimal connection) }
{
    let number = connection.to_string(alloc)?;
    out.extend_from_slice(number.as_bytes())
}

/// Puts the line of an accepted request.
pub(crate) fn push_request(
    alloc: Global,
    out: &mut Vec<u8>,
    connection: u64,
    text: &str,
) -> Result<(), AllocError>
    ensures { OnOk result (out.new.items ≡ out.old.items ++ line_of (connection, Some text.now)) }
{
    push_number(alloc, out, connection)?;
    out.push(SPACE)?;
    push_text(out, text.as_bytes())?;
    out.push(FEED)?;
    Ok(())
}

/// Puts the line of a turn of a connection's end, in which so many requests were done.
pub(crate) fn push_turn(
    alloc: Global,
    out: &mut Vec<u8>,
    connection: u64,
    count: usize,
) -> Result<(), AllocError>
    ensures { OnOk result (out.new.items ≡ out.old.items ++ line_of (connection, Some (decimal count))) }
{
    let number = count.to_string(alloc)?;
    push_request(alloc, out, connection, number.as_str())
}

/// Puts the line of a connection's end.
pub(crate) fn push_end(alloc: Global, out: &mut Vec<u8>, connection: u64) -> Result<(), AllocError>
    ensures { OnOk result (out.new.items ≡ out.old.items ++ line_of (connection, None)) }
{
    push_number(alloc, out, connection)?;
    out.push(FEED)?;
    Ok(())
}

// ---- the lines of a journal, as they are read

/// Why a line is not taken.
#[derive(Clone, Copy, Debug, PartialEq, Eq)]
pub enum LineFault {
    /// It is no line of a journal.
    BadLine,
    /// Memory is lacking.
    NoMemory,
}

impl From<AllocError> for LineFault {
    ghost from_gives = { λ _ e. e ≡ NoMemory };

    fn from(_error: AllocError) -> LineFault {
        LineFault::NoMemory
    }
}

impl<T: Drop> From<AllocFailed<T>> for LineFault {
    ghost from_gives = { λ _ e. e ≡ NoMemory };

    fn from(_error: AllocFailed<T>) -> LineFault {
        LineFault::NoMemory
    }
}

/// The place of the first line feed.
pub(crate) fn feed_in(bytes: &[u8]) -> Option<usize>
    ensures { result ≡ position is_feed bytes.now }
{
    bytes.iter().position(|byte| *byte == FEED)
}

// The place of the first space.
fn space_in(bytes: &[u8]) -> Option<usize>
    ensures { result ≡ position is_space bytes.now }
{
    bytes.iter().position(|byte| *byte == SPACE)
}

// The number that goes on with a digit.
fn next_number(number: u64, digit: u8) -> Option<u64>
    ensures { result ≡ next_number number digit }
{
    if !digit.is_ascii_digit() {
        return None;
    }
    number.checked_mul(10)?.checked_add(u64::from(digit - b'0'))
}

/// The number that the digits write.
pub(crate) fn number_in(digits: &[u8]) -> Option<u64>
    ensures { result ≡ number_in digits.now }
{
    if digits.is_empty() {
        return None;
    }
    let mut number = 0;
    for digit in digits {
        number = next_number(number, *digit)?;
    }
    Some(number)
}

// The byte that is meant behind an escape.
fn meant(byte: u8) -> Option<u8>
    ensures { result ≡ meant byte }
{
    if byte == LETTER {
        Some(FEED)
    } else if byte == ESCAPE {
        Some(ESCAPE)
    } else {
        None
    }
}

// The text that was escaped so, if one was.
fn unescape(alloc: Global, part: &[u8]) -> Result<Option<Vec<u8>>, AllocError>
    ensures { IfOk result (λ text. option_map (λ t. t.items) text ≡ unescaped false part.now) }
{
    let mut text = Vec::with_capacity(alloc, part.len())?;
    let mut is_behind = false;
    for byte in part {
        if !is_behind && *byte == ESCAPE {
            is_behind = true;
        } else {
            let byte = if is_behind { meant(*byte) } else { Some(*byte) };
            let Some(byte) = byte else {
                return Ok(None);
            };
            text.push(byte)?;
            is_behind = false;
        }
    }
    Ok(if is_behind { None } else { Some(text) })
}

// The text of these bytes.
#[tactic(auto, using(crate::proofs::Texts::text_there, crate::proofs::Texts::no_text))]
fn text_of(bytes: Vec<u8>) -> Result<String, LineFault>
    ensures ok { IfOk result (λ text. as_text bytes.items ≡ Some (string_bytes text)) }
    ensures none { OnErr result (as_text bytes.items ≡ None) }
    ensures fault { IfErr result (λ e. e ≡ LineFault.BadLine) }
{
    match String::from_utf8(bytes) {
        Ok(text) => Ok(text),
        Err(_) => Err(LineFault::BadLine),
    }
}

// The text of the part of a line behind its space.
fn text_in(alloc: Global, part: &[u8]) -> Result<String, LineFault>
    ensures ok { IfOk result (λ text. text_in (Some part.now) ≡ Some (Some (string_bytes text))) }
    ensures fault { IfErr result (λ e. ((e ≡ LineFault.BadLine) × (text_in (Some part.now) ≡ None))
        ⊎ (e ≡ LineFault.NoMemory)) }
{
    let Some(text) = unescape(alloc, part)? else {
        return Err(LineFault::BadLine);
    };
    text_of(text)
}

/// What a line says, without its line feed: of which connection, and its request's text; none where it
/// ended.
pub(crate) fn entry_in(alloc: Global, line: &[u8]) -> Result<(u64, Option<String>), LineFault>
    ensures ok { IfOk result (λ e. entry_in line.now ≡ Some (e.0, option_map string_bytes e.1)) }
    ensures fault { IfErr result (λ e. ((e ≡ LineFault.BadLine) × (entry_in line.now ≡ None))
        ⊎ (e ≡ LineFault.NoMemory)) }
{
    let Some(at) = space_in(line) else {
        return match number_in(line) {
            Some(connection) => Ok((connection, None)),
            None => Err(LineFault::BadLine),
        };
    };
    let Some(connection) = number_in(&line[..at]) else {
        return Err(LineFault::BadLine);
    };
    let text = text_in(alloc, &line[at + 1..])?;
    Ok((connection, Some(text)))
}
