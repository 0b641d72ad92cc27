// What an emulator says of itself, until it is written.
ghost use Rattle.std.specs.Prelude.{◌≡◌, [], None, false, IfOk, OnOk, OnErr};
ghost use Rattle.std.specs.Result.{result_ok};
ghost use Rattle.rt_emulate.specs.Diaries.{Adds, IsBegun, IsStamp, Says, SaysMade, has_room, is_empty};
ghost use Rattle.rt_emulate.specs.Diaries.{line_of, secs_at, without_line};
ghost use Rattle.rt_emulate.specs.Levels.{says};
ghost use Rattle.rt_emulate.specs.declared.settings.Kind.TheVariants as kinds;

use crate::ending::GuestEnd;
use crate::settings::{Kind, Level};
use crate::stamp::{Stamp, stamp};
use rt_input::{LOG_PREFIX, Log, push_plain};
use rt_wire::WireError;
use std::alloc::{AllocError, AllocGlobal, Global};
use std::fmt::Display;
use std::io;
use std::marker::Model;
use std::net::SocketAddr;
use std::rt::Clock;
use std::time::{SystemTime, UNIX_EPOCH};
use tungstenite::Error;

/// How many bytes of lines may wait to be written.
pub(crate) const MOST_BYTES: usize = 4_194_304;

/// What an emulator says of itself: lines that wait to be written, each with the time and its level. It has a
/// bound, and never waits: a line for which there is no room is left out, and counted.
pub struct Diary {
    alloc: Global,
    level: Level,
    // The clock's seconds at the start.
    start: u64,
    secs: u64,
    time: Stamp,
    lines: Vec<u8>,
    // How many lines were left out since lines were taken last.
    left_out: u64,
}

impl Drop for Diary {
    fn drop(self) {
        let Diary {
            alloc: _,
            level: _,
            start: _,
            secs: _,
            time: _,
            lines: _,
            left_out: _,
        } = self;
    }
}

impl Model for Diary {
    ghost use Rattle.rt_emulate.specs.Diaries as spec;

    ghost Value = { spec.Diary };

    ghost view = { λ d. record {
      level = d.level;
      start = d.start;
      time = d.time;
      lines = d.lines.items;
      left_out = d.left_out;
    } };

    ghost invariant = { λ d. spec.IsStamp d.secs d.time };
}

// A line as it is written.
fn line_of(alloc: Global, kind: Kind, time: &Stamp, text: &str) -> Result<Vec<u8>, AllocError>
    ensures { IfOk result (λ line. line.items ≡ line_of kind time.now text.now) }
{
    let mut line = Vec::new(alloc);
    line.extend_from_slice(LOG_PREFIX.as_bytes())?;
    line.extend_from_slice(time)?;
    line.extend_from_slice(b" [")?;
    line.extend_from_slice(kind.word().as_bytes())?;
    line.extend_from_slice(b"] ")?;
    push_plain(&mut line, text)?;
    line.extend_from_slice(b"\n")?;
    Ok(line)
}

impl Diary {
    /// Nothing is said yet. Where the clock can't be read it is 1970.
    pub fn begin<Y: Clock + AllocGlobal>(system: &Y, level: Level) -> Diary {
        let start = match SystemTime::now(system) {
            Ok(now) => match now.duration_since(UNIX_EPOCH) {
                Ok(passed) => passed.as_secs(),
                Err(_) => 0,
            },
            Err(_) => 0,
        };
        Diary::new(system.alloc(), level, start)
    }

    /// Nothing is said yet, so many seconds after 1970.
    pub fn new(alloc: Global, level: Level, start: u64) -> Diary
        ensures level { result.level ≡ level }
        ensures start { result.start ≡ start }
        ensures time { IsStamp start result.time }
        ensures lines { result.lines ≡ [] }
        ensures left_out { result.left_out ≡ 0 }
    {
        Diary {
            alloc,
            level,
            start,
            secs: start,
            time: stamp(start),
            lines: Vec::new(alloc),
            left_out: 0,
        }
    }

    /// From now on it is so many milliseconds behind the start.
    pub(crate) fn at(&mut self, now: u64)
        ensures time { IsStamp (secs_at self.old now) self.new.time }
        ensures kept { self.new ≡ record (self.old) { time = self.new.time } }
    {
        let secs = self.start.saturating_add(now / 1_000);
        if secs != self.secs {
            self.secs = secs;
            self.time = stamp(secs);
        }
    }

    // A line is left out, and counted.
    fn leave_out(&mut self)
        ensures { self.new ≡ without_line self.old }
    {
        self.left_out = self.left_out.saturating_add(1);
    }

    // A line waits behind the others, if there is room for it.
    fn add(&mut self, line: &[u8])
        ensures { Adds (has_room self.old line.now) line.now self.old self.new }
    {
        let has_room = line.len() <= MOST_BYTES.saturating_sub(self.lines.len());
        if has_room && self.lines.extend_from_slice(line).is_ok() {
            return;
        }
        self.leave_out();
    }

    /// Says a line of that kind, if such lines are said and there is room.
    pub(crate) fn say(&mut self, kind: Kind, text: &str)
        ensures { Says kind text.now self.old self.new }
    {
        if !self.level.says(kind) {
            return;
        }
        match line_of(self.alloc, kind, &self.time, text) {
            Ok(line) => self.add(line.as_slice()),
            Err(_) => self.leave_out(),
        }
    }

    /// Says a line of that kind, if there was memory for it.
    pub(crate) fn say_made(&mut self, kind: Kind, line: Result<String, AllocError>)
        ensures { SaysMade kind (result_ok line) self.old self.new }
    {
        match line {
            Ok(line) => self.say(kind, line.as_str()),
            Err(_) => self.leave_out(),
        }
    }

    /// Whether lines of that kind are said.
    pub(crate) fn says(&self, kind: Kind) -> bool
        ensures { result ≡ says self.now.level kind }
    {
        self.level.says(kind)
    }

    // Says how many lines were left out, if some were.
    #[tactic(auto, using(crate::proofs::Begun::begun_append, crate::proofs::Begun::begun_self))]
    fn say_left_out(&mut self) -> Result<(), AllocError>
        ensures begins { IsBegun self.old.lines self.new.lines }
        ensures none { self.old.left_out ≡ 0 → self.new ≡ self.old }
        ensures said { OnOk result (self.new.left_out ≡ 0) }
        ensures kept { self.new
            ≡ record (self.old) { lines = self.new.lines; left_out = self.new.left_out } }
    {
        if self.left_out == 0 {
            return Ok(());
        }
        let count = self.left_out;
        let text = format!(in self.alloc;
            "{count} lines are left out, since standard error took no more"
        )?;
        let line = line_of(self.alloc, Kind::Fault, &self.time, text.as_str())?;
        self.lines.extend_from_slice(line.as_slice())?;
        self.left_out = 0;
        Ok(())
    }

    /// Whether something is to be written.
    pub(crate) fn is_empty(&self) -> bool
        ensures { result ≡ is_empty self.now }
    {
        self.lines.is_empty() && self.left_out == 0
    }

    /// What is to be written: the lines that wait, in order, and how many were left out since, if some were.
    pub(crate) fn take(&mut self) -> Vec<u8>
        ensures lines { IsBegun self.old.lines result.items }
        ensures none { self.old.left_out ≡ 0 → result.items ≡ self.old.lines }
        ensures taken { self.new.lines ≡ [] }
        ensures kept { self.new ≡ record (self.old) { lines = self.new.lines; left_out = self.new.left_out } }
    {
        // Where memory lacks they are counted on.
        let _said = self.say_left_out();
        std::mem::replace(&mut self.lines, Vec::new(self.alloc))
    }
}

impl Log for Diary {
    ghost use Rattle.rt_emulate.specs.Levels as levels;

    ghost is_on = { λ d. levels.says d.level kinds.Message };

    ghost told = { λ _. None };

    ghost has_lost = { λ _. false };

    fn is_on(&self) -> bool {
        self.level.says(Kind::Message)
    }

    fn tell(&mut self, line: &str)
        ensures said { Says kinds.Message line.now self.old self.new }
    {
        self.say(Kind::Message, line);
    }
}

// ---- what is told of guests

pub(crate) fn listening(alloc: Global, log: &mut Diary, address: SocketAddr) {
    if log.says(Kind::Connection) {
        log.say_made(
            Kind::Connection,
            format!(in alloc; "listening on {address}"),
        );
    }
    if log.says(Kind::Fault) && !address.ip().to_canonical().is_loopback() {
        let host = address.ip();
        let line = format!(in alloc;
            "whoever reaches {host} can read and write the tree: there is no login, and no TLS"
        );
        log.say_made(Kind::Fault, line);
    }
}

// Says what a connection does, and behind that why, from where or what, if such lines are said.
fn say_of<D: Display>(
    alloc: Global,
    log: &mut Diary,
    kind: Kind,
    connection: u64,
    what: &str,
    of: &D,
) {
    if log.says(kind) {
        log.say_made(
            kind,
            format!(in alloc; "connection {connection} {what}{of}"),
        );
    }
}

pub(crate) fn begun(alloc: Global, log: &mut Diary, connection: u64, from: SocketAddr) {
    let kind = Kind::Connection;
    say_of(alloc, log, kind, connection, "begins, from ", &from);
}

// Why a stream is no WebSocket.
fn strange<D: Display>(alloc: Global, log: &mut Diary, from: SocketAddr, why: &D) {
    log.say_made(
        Kind::Connection,
        format!(in alloc; "a stream from {from} is no WebSocket: {why}"),
    );
}

// Why a handshake failed, of which memory is no cause that is told.
pub(crate) fn no_socket(alloc: Global, log: &mut Diary, from: SocketAddr, why: &Error) {
    if !log.says(Kind::Connection) {
        return;
    }
    match why {
        Error::OutOfMemory => {}
        Error::Refused(answer) => {
            let why = answer.body().as_ref();
            let why = why.map_or("its origin is refused", String::as_str);
            strange(alloc, log, from, &why);
        }
        why => strange(alloc, log, from, why),
    }
}

// Why one goes that hasn't shaken hands, unless it was told when its handshake failed.
pub(crate) fn unshaken(alloc: Global, log: &mut Diary, from: SocketAddr, why: GuestEnd) {
    if log.says(Kind::Connection) && !why.is_told() {
        strange(alloc, log, from, &why);
    }
}

pub(crate) fn ended(alloc: Global, log: &mut Diary, connection: u64, why: GuestEnd) {
    say_of(alloc, log, Kind::Connection, connection, "ends: ", &why);
}

pub(crate) fn binary_passed_over(alloc: Global, log: &mut Diary, connection: u64) {
    if log.says(Kind::Message) {
        let why = WireError::NotJson;
        let (code, name) = (why.code(), why.name());
        let line = format!(in alloc;
            "connection {connection}: a binary message is passed over: {code} {name}"
        );
        log.say_made(Kind::Message, line);
    }
}

pub(crate) fn not_sent(alloc: Global, log: &mut Diary, connection: u64) {
    let kind = Kind::Connection;
    say_of(
        alloc,
        log,
        kind,
        connection,
        "can't be sent to any more",
        &"",
    );
}

pub(crate) fn refused(alloc: Global, log: &mut Diary, connection: u64, texts: Vec<String>) {
    for text in texts.as_slice() {
        say_of(alloc, log, Kind::Message, connection, "is sent ", text);
    }
}

pub(crate) fn not_accepted(alloc: Global, log: &mut Diary, why: &io::Error) {
    if log.says(Kind::Fault) {
        log.say_made(
            Kind::Fault,
            format!(in alloc; "no connection can be accepted for now: {why}"),
        );
    }
}

// What is to be said of the tree's file.
pub(crate) fn of_file(log: &mut Diary, line: Result<String, AllocError>) {
    if log.says(Kind::Fault) {
        log.say_made(Kind::Fault, line);
    }
}
