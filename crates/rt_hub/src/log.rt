// What is told of a connection beside what it is sent.
use rt_input::Log;
use rt_wire::WireError;
use std::alloc::{AllocError, Global};

// How many characters of a text are told.
const SHOWN: usize = 200;

// Tells a line, if there was memory for it.
fn tell<L: Log>(log: &mut L, line: Result<String, AllocError>) {
    if let Ok(line) = line {
        log.tell(&line);
    }
}

// Puts what a text begins with behind a line, each control character as a blank.
fn show(line: &mut String, text: &str) -> Result<(), AllocError> {
    for character in text.chars().take(SHOWN) {
        line.push(if character.is_control() {
            ' '
        } else {
            character
        })?;
    }
    if text.len() > SHOWN {
        line.push_str("..")?;
    }
    Ok(())
}

// The line of a text that was taken.
fn taken_line(alloc: Global, connection: u64, text: &str) -> Result<String, AllocError> {
    let mut line = format!(in alloc; "connection {connection}: ")?;
    show(&mut line, text)?;
    Ok(line)
}

// The line of a text that was passed over.
fn passed_line(
    alloc: Global,
    connection: u64,
    why: WireError,
    text: &str,
) -> Result<String, AllocError> {
    let (code, name) = (why.code(), why.name());
    let mut line = format!(in alloc;
        "connection {connection}: a text is passed over: {code} {name}: "
    )?;
    show(&mut line, text)?;
    Ok(line)
}

pub(crate) fn taken<L: Log>(alloc: Global, log: &mut L, connection: u64, text: &str) {
    if log.is_on() {
        tell(log, taken_line(alloc, connection, text));
    }
}

pub(crate) fn passed_over<L: Log>(
    alloc: Global,
    log: &mut L,
    connection: u64,
    why: WireError,
    text: &str,
) {
    if log.is_on() {
        tell(log, passed_line(alloc, connection, why, text));
    }
}
