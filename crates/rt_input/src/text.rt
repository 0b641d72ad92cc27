// A text as a line shows it: without what a terminal obeys.
ghost use Rattle.std.specs.Prelude.{◌≡◌, ◌<◌, ◌++◌, OnOk, OnErr, ◌+◌, ◌^◌, [], string_bytes, IfErr};
ghost use Rattle.std.specs.Char.{digit_char};
ghost use Rattle.std.specs.Io.KnownBytes.{Appends};
ghost use Rattle.rt_input.specs.Plains.{AddsPart, escaped, is_hidden, plain, plain_of};
ghost use Rattle.rt_input.specs.Streams.{AppendsPart};
ghost use Rattle.rt_input.specs.laws.Examples.{HiddenOnes, NumberedOnes, ShownOnes};

use crate::fault::ConsoleError;
use crate::stream::Drain;
use std::alloc::AllocError;

// Whether a terminal obeys a character, or turns the order of those beside it.
fn is_hidden(letter: char) -> bool
    ensures { result ≡ is_hidden letter }
{
    match letter {
        '\u{61C}' | '\u{200E}' | '\u{200F}' => true,
        '\u{2028}'..='\u{202E}' | '\u{2066}'..='\u{2069}' => true,
        letter => letter.is_control(),
    }
}

// The hexadecimal digit that is worth so much.
fn hex_digit(worth: u32) -> u8
    requires { worth < 16 }
    ensures { result ≡ digit_char worth }
{
    if worth < 10 {
        b'0' + worth as u8
    } else {
        b'a' + (worth - 10) as u8
    }
}

// A character as JSON escapes it: its number behind `\u`, in four digits.
fn escaped(letter: char) -> [u8; 6]
    ensures { result ≡ escaped letter }
{
    let number = letter as u32;
    [
        b'\\',
        b'u',
        hex_digit(number / 0x1000 % 16),
        hex_digit(number / 0x100 % 16),
        hex_digit(number / 0x10 % 16),
        hex_digit(number % 16),
    ]
}

// Puts a character behind a line, or its number.
fn push_one(line: &mut Vec<u8>, letter: char) -> Result<(), AllocError>
    ensures shown { OnOk result (line.new.items ≡ line.old.items ++ plain_of letter) }
    ensures kept { OnErr result (line.new.items ≡ line.old.items) }
{
    if is_hidden(letter) {
        return line.extend_from_slice(&escaped(letter));
    }
    let mut room = [0; 4];
    line.extend_from_slice(letter.encode_utf8(&mut room).as_bytes())
}

/// Puts a text behind a line, so that no terminal obeys it: a control character, or a mark of the order of
/// letters, stands as its number, as JSON escapes it. A JSON text with such characters in its strings is
/// still that JSON.
///
/// # Errors
///
/// Where memory lacks, the beginning of what is shown may stand behind the line.
pub fn push_plain(line: &mut Vec<u8>, text: &str) -> Result<(), AllocError>
    ensures shown { OnOk result (line.new.items ≡ line.old.items ++ plain text.now) }
    ensures part { OnErr result (AddsPart line.old.items line.new.items (plain text.now)) }
{
    for letter in text.chars() {
        push_one(line, letter)?;
    }
    Ok(())
}

// ---- what is printed and waits to be written

/// Writes a text that waits to be written, and empties it, also where the write fails.
///
/// # Errors
///
/// A `WriteFault` is a failure of the writer. It has then written what the text begins with, and nothing
/// else.
pub fn write_printed<D: Drain>(printed: &mut String, writer: &mut D) -> Result<(), ConsoleError>
    requires { D.failures writer.old + 1 < 2 ^ 64 }
    ensures ok { OnOk result (D.failures writer.new ≡ D.failures writer.old) }
    ensures error { IfErr result (λ e. e ≡ ConsoleError.WriteFault) }
    ensures fault { OnErr result (D.failures writer.new ≡ D.failures writer.old + 1) }
    ensures written { OnOk result (Appends (D.contents writer.old) (D.contents writer.new)
        (string_bytes printed.old)) }
    ensures part { OnErr result (AppendsPart (D.contents writer.old) (D.contents writer.new)
        (string_bytes printed.old)) }
    ensures nothing_waits { string_bytes printed.new ≡ [] }
{
    if printed.is_empty() {
        return Ok(());
    }
    let outcome = writer.write(printed.as_bytes());
    printed.clear();
    outcome.map_err(|_| ConsoleError::WriteFault)
}

// ---- worked rows

/// Control characters, and marks of the order of letters, stand in a line by their numbers; letters stand as
/// they are.
pub fn plain_examples()
    ensures hidden { HiddenOnes }
    ensures shown { ShownOnes }
    ensures numbered { NumberedOnes }
{}
