// The lines of the calls and messages that are made by chance.

use crate::stress::chance::Chance;
use std::alloc::AllocError;
use std::fmt::Write;

const PATHS: [&str; 10] = [
    "/g/a", "/g/b", "/g/c", "/g/d/x", "/h", "/h/y", "/g", "/g/10", "/", "/k/a",
];

const VALUES: [&str; 8] = [
    "null",
    "1",
    "2",
    "\"t\"",
    "{\"x\":1,\"y\":2}",
    "{\"10\":true,\"9\":{\"y\":3}}",
    "true",
    "7",
];

// Queries, with their paths; some are ranges that others take in.
const ASKED: [&str; 13] = [
    "\"/g\",[]",
    "\"/g/a\",[]",
    "\"/g\",[[\"limitToFirst\",2]]",
    "\"/h\",[]",
    "\"/g\",[[\"orderByValue\"],[\"limitToLast\",2]]",
    "\"/\",[]",
    "\"/g/d\",[]",
    "\"/g\",[[\"orderByChild\",\"x\"],[\"startAt\",1]]",
    "\"/g\",[[\"orderByChild\",\"x\"],[\"startAt\",1],[\"endAt\",9]]",
    "\"/k\",[[\"orderByValue\"],[\"startAt\",1]]",
    "\"/k\",[[\"orderByValue\"],[\"endAt\",5]]",
    "\"/k\",[[\"orderByValue\"],[\"startAt\",1],[\"endAt\",5]]",
    "\"/k\",[[\"orderByValue\"],[\"startAt\",1],[\"endAt\",2],[\"limitToLast\",1]]",
];

const PUSHED: [&str; 7] = [
    "null",
    "{\"a\":1,\"b\":2}",
    "3",
    "{\"a\":5,\"c\":{\"x\":1},\"d\":2}",
    "{\"10\":1,\"9\":2,\"b\":\"u\"}",
    "{\"y\":true}",
    "{\"g\":{\"a\":1,\"b\":{\"x\":2}},\"h\":{\"y\":4}}",
];

// The most listeners that a seat asks for.
const LISTENERS: usize = 4;

// Writes the line of a seat's next call.
pub(crate) fn write_call(
    out: &mut String,
    chance: &mut Chance,
    place: u64,
    listeners: &[u64],
) -> Result<(), AllocError> {
    let (path, other) = (chance.of(&PATHS), chance.of(&PATHS));
    let (value, next) = (chance.of(&VALUES), chance.of(&VALUES));
    let listener = chance.number(listeners).unwrap_or(chance.below(9));
    let is_full = listeners.len() >= LISTENERS;
    match chance.below(16) {
        0..=4 => write!(out, "[\"set\",{place},\"{path}\",{value}]"),
        5 | 6 => {
            write!(
                out,
                "[\"update\",{place},{{\"{path}\":{value},\"{other}\":{next}}}]"
            )
        }
        7 => write!(out, "[\"remove\",{place},\"{path}\"]"),
        8..=10 if !is_full => write!(out, "[\"listen\",{place},{}]", chance.of(&ASKED)),
        8..=11 => write!(out, "[\"unlisten\",{place},{listener}]"),
        12 => write!(out, "[\"unlisten\",{place},{}]", chance.below(40)),
        13 => write!(out, "[\"onDisconnect\",{place},\"set\",\"{path}\",{value}]"),
        14 => write!(
            out,
            "[\"onDisconnect\",{place},\"update\",{{\"{path}\":{value},\"{other}\":{next}}}]"
        ),
        _ => write!(out, "[\"onDisconnect\",{place},\"cancel\",\"{path}\"]"),
    }
}

// What the server sends on a listen: at its path or below it, one value or two.
#[derive(Drop, Clone, Copy)]
pub(crate) struct Pushed {
    kind: u64,
    value: &'static str,
    next: &'static str,
}

impl Pushed {
    pub(crate) fn by(chance: &mut Chance) -> Pushed {
        Pushed {
            kind: chance.below(5),
            value: chance.of(&PUSHED),
            next: chance.of(&PUSHED),
        }
    }

    // Writes its line, on the listen with that tag and path.
    pub(crate) fn write(&self, out: &mut String, tag: u64, path: &str) -> Result<(), AllocError> {
        let (value, next) = (self.value, self.next);
        match self.kind {
            0 | 1 => write!(out, "[\"data\",{tag},\"{path}\",{value}]"),
            2 => write!(out, "[\"data\",{tag},\"{path}/a\",{value}]"),
            3 => write!(
                out,
                "[\"merge\",{tag},{{\"{path}/b\":{value},\"{path}/c\":{next}}}]"
            ),
            _ => write!(out, "[\"merge\",{tag},{{\"{path}\":{value}}}]"),
        }
    }

    // Writes the line of both of its values as one step, each on a listen with that tag and path.
    pub(crate) fn write_parts(
        &self,
        out: &mut String,
        (tag, path): (u64, &str),
        (other, below): (u64, &str),
    ) -> Result<(), AllocError> {
        let (value, next) = (self.value, self.next);
        write!(
            out,
            "[\"parts\",[[{tag},{{\"{path}\":{value}}}],[{other},{{\"{below}/a\":{next}}}]]]"
        )
    }
}
