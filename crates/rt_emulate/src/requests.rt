// One that asks by plain HTTP: its stream, its requests, and what it is answered.
ghost use Rattle.std.specs.Prelude.{◌≡◌, ◌++◌, [], None, false, nat_lt, length, codes, IfOk, OnOk};
ghost use Rattle.std.specs.Prelude.{option_map, string_bytes};
ghost use Rattle.rt_files.specs.Kinds.{media_type_of};
ghost use Rattle.rt_http.specs.Answers.{file_head};
ghost use Rattle.rt_http.specs.Incomings.{new_incoming};
ghost use Rattle.rt_emulate.specs.inside.Endings.{broken_of};
ghost use Rattle.rt_emulate.specs.inside.Requests.{IsRefused, IsUpgrade, answered, awaited_of, is_in_head};
ghost use Rattle.rt_emulate.specs.inside.Requests.{rung, settled, stopped_of, stuck_of, unheard_of};
ghost use Rattle.rt_emulate.specs.inside.Rests.{left_for};
ghost use Rattle.rt_emulate.specs.inside.Rosters.{IsVisit};
ghost use Rattle.rt_emulate.specs.inside.Sites.{is_bare};
ghost use Rattle.rt_emulate.specs.inside.Paces.{late_of, left_of, most_of};
ghost use Rattle.tungstenite.specs.declared.error.Error.TheVariants as error;
ghost use Rattle.rt_emulate.specs.declared.requests.Next.TheVariants as step;

use crate::calls::{Replay, Reply, answer_to, page_of, prepare, put_reply, wished};
use crate::edge::Keys;
use crate::ending::{GuestEnd, stream_ending};
use crate::keeper::Keeper;
use crate::page::page_at;
use crate::settings::Halt;
use crate::site::{Course, Found, Rest, Site, course_of};
use crate::socket::{Broken, TURN_BYTES};
use crate::visit::Visit;
use mio::net::TcpStream;
use rt_files::media_type;
use rt_http::{
    Fault, GO_ON, Incoming, Marks, Method, Refusal, RequestProgress, Status, handshake_len,
    put_answer, put_file_head, refusal_text,
};
use rt_hub::{Hub, MAX_WAITING_BYTES};
use std::alloc::{AllocError, Global};
use std::fs::File;
use std::io::{self, Read, Write};
use std::net::Shutdown;
use std::rt::Files;
use tungstenite::Error;

// How many bytes one read of a stream asks for.
const READ_BYTES: usize = 16_384;

// How many bytes are read on of one that is answered for the last time: until it has seen the answer it may
// go on to send, and a stream that is closed before would be reset.
const DROPPED_BYTES: usize = 16 * TURN_BYTES;

/// What is next of one that asks.
#[derive(Clone, Copy)]
pub(crate) enum Next {
    /// It goes on at once.
    Again,
    /// It goes on in its next turn.
    Pause,
    /// It waits until its stream gives or takes something.
    Idle,
    /// Its request is answered.
    Answer,
    /// It becomes a WebSocket: the head of its handshake has so many bytes.
    Upgrade(usize),
    /// It goes.
    Ends(GuestEnd),
}

/// One that asks by plain HTTP, or has said nothing yet.
pub(crate) struct Asking {
    alloc: Global,
    stream: TcpStream,
    incoming: Incoming,
    // What it is answered, and how many of these bytes are written.
    out: Vec<u8>,
    written: usize,
    // What is left of the file that it is answered with.
    rest: Option<Rest>,
    // Whether a request was answered.
    has_asked: bool,
    // How many bytes are read on, where it is answered for the last time.
    left: Option<usize>,
    // When it came on last, and whether it has come on in this turn.
    since: u64,
    has_moved: bool,
}

impl Drop for Asking {
    fn drop(self) {
        let Asking {
            alloc: _,
            stream: _,
            incoming: _,
            out: _,
            written: _,
            rest: _,
            has_asked: _,
            left: _,
            since: _,
            has_moved: _,
        } = self;
    }
}

impl Asking {
    /// One that comes now.
    pub(crate) fn new(alloc: Global, stream: TcpStream, now: u64) -> Asking
        ensures bytes { (result.incoming ≡ new_incoming MAX_WAITING_BYTES) × (result.out.items ≡ []) }
        ensures rest { result ≡ record {
          alloc = alloc;
          stream = stream;
          incoming = result.incoming;
          out = result.out;
          written = 0;
          rest = None;
          has_asked = false;
          left = None;
          since = now;
          has_moved = false;
        } }
    {
        Asking {
            alloc,
            stream,
            incoming: Incoming::new(alloc, MAX_WAITING_BYTES),
            out: Vec::new(alloc),
            written: 0,
            rest: None,
            has_asked: false,
            left: None,
            since: now,
            has_moved: false,
        }
    }

    /// What is next: what it is answered is written before anything more is read.
    pub(crate) fn next(&mut self) -> Result<Next, Halt> {
        if self.written < self.out.len() {
            return Ok(self.write_on());
        }
        if self.rest.is_some() {
            return Ok(self.read_piece());
        }
        if let Some(left) = self.left {
            return Ok(self.read_on(left));
        }
        match self.incoming.turn() {
            Ok(RequestProgress::More) => self.hear(),
            Ok(RequestProgress::GoOn) => self.go_on(),
            Ok(RequestProgress::Whole) => Ok(Next::Answer),
            Ok(RequestProgress::Upgrade) => self.upgrade(),
            Err(refusal) => self.refuse(refusal),
        }
    }

    // Writes what it is answered, as far as its stream takes it at once.
    fn write_on(&mut self) -> Next {
        let from = self.written.min(self.out.len());
        match self.stream.write(&self.out[from..]) {
            Ok(0) => Next::Ends(GuestEnd::Answered),
            Ok(count) => {
                self.has_moved = true;
                self.written = self.written.saturating_add(count);
                if self.written >= self.out.len() {
                    // What a large answer took is given back.
                    self.out = Vec::new(self.alloc);
                    self.written = 0;
                }
                Next::Again
            }
            Err(why) => stuck(why),
        }
    }

    // Reads the next piece of the file that it is answered with, which is written in its next turn: so a
    // long file holds nobody up. It goes where the file has grown shorter, since its head has said how
    // long it is.
    fn read_piece(&mut self) -> Next {
        let Some(rest) = &mut self.rest else {
            return Next::Again;
        };
        match rest.put_piece(&mut self.out) {
            Ok(0) => Next::Ends(GuestEnd::Answered),
            Ok(_) => {
                if rest.is_over() {
                    self.rest = None;
                }
                Next::Pause
            }
            Err(why) => stuck(why),
        }
    }

    // Reads on what it sends behind the last request that is answered, and drops it.
    fn read_on(&mut self, left: usize) -> Next {
        let mut bytes = [0; READ_BYTES];
        let _shut = self.stream.shutdown(Shutdown::Write);
        match self.stream.read(&mut bytes) {
            Ok(0) => Next::Ends(GuestEnd::Answered),
            Ok(count) => {
                self.left = Some(left.saturating_sub(count));
                if left <= count {
                    Next::Ends(GuestEnd::Answered)
                } else {
                    Next::Again
                }
            }
            Err(why) => stuck(why),
        }
    }

    // Takes what comes next.
    fn hear(&mut self) -> Result<Next, Halt> {
        let mut bytes = [0; READ_BYTES];
        match self.stream.read(&mut bytes) {
            Ok(0) => Ok(Next::Ends(stream_ending(self.has_asked, Broken::Unshaken))),
            Ok(count) => {
                self.has_moved = self.has_moved || !self.is_in_head();
                self.incoming.put(&bytes[..count])?;
                Ok(Next::Again)
            }
            Err(why) => Ok(self.unheard(why)),
        }
    }

    // A read of it failed so.
    fn unheard(&self, why: io::Error) -> Next
        ensures { result ≡ unheard_of self.now.has_asked (broken_of (error.Io why)) }
    {
        match stuck(why) {
            Next::Ends(GuestEnd::Failed(why)) => Next::Ends(stream_ending(self.has_asked, why)),
            next => next,
        }
    }

    // Whether a part of a head has come, and no more.
    fn is_in_head(&self) -> bool
        ensures { result ≡ is_in_head self.now.incoming }
    {
        self.incoming.request().is_none() && !self.incoming.bytes().is_empty()
    }

    // It is told to send the body of its request.
    fn go_on(&mut self) -> Result<Next, Halt>
        ensures { IfOk result (λ next. (next ≡ step.Again)
            × (self.new.out.items ≡ self.old.out.items ++ codes "HTTP/1.1 100 Continue\r\n\r\n")
            × (self.new ≡ record (self.old) { out = self.new.out })) }
    {
        self.out.extend_from_slice(GO_ON.as_bytes())?;
        Ok(Next::Again)
    }

    // Its head is to be one of a handshake.
    fn upgrade(&mut self) -> Result<Next, Halt>
        ensures { IfOk result (λ next. IsUpgrade self.old next self.new) }
    {
        match handshake_len(self.incoming.bytes()) {
            Ok(size) => Ok(Next::Upgrade(size)),
            Err(refusal) => self.refuse(refusal),
        }
    }

    /// What its handshake says of it.
    pub(crate) fn visit(&self) -> Result<Visit, AllocError>
        ensures { IfOk result (IsVisit self.now.incoming.request) }
    {
        Visit::of(self.alloc, self.incoming.request())
    }

    // What it sent is refused, and it is answered for the last time.
    fn refuse(&mut self, refusal: Refusal) -> Result<Next, Halt>
        ensures { IfOk result (λ next. (next ≡ step.Again) × IsRefused refusal self.old self.new) }
    {
        let text = refusal_text(self.alloc, refusal)?;
        put_answer(
            &mut self.out,
            Status::of(refusal),
            false,
            false,
            None,
            text.as_str(),
        )?;
        self.is_answered(false);
        Ok(Next::Again)
    }

    // It is answered, and goes on or not.
    fn is_answered(&mut self, is_kept: bool)
        ensures { self.new ≡ answered is_kept self.old }
    {
        self.has_asked = true;
        self.has_moved = true;
        if !is_kept {
            self.left = Some(DROPPED_BYTES);
        }
    }

    // The page of the address that it came to.
    fn here(&self) -> Result<String, AllocError> {
        match self.stream.local_addr() {
            Ok(address) => page_at(self.alloc, address),
            Err(_) => Ok(String::new(self.alloc)),
        }
    }

    // What its request is answered, and what is done with it.
    fn reply(
        &self,
        hub: &mut Hub,
        keeper: &mut Keeper,
        told: &mut Vec<u64>,
        keys: &mut Keys,
        allowed: &[String],
        now: u64,
    ) -> Result<Option<(Marks, Reply)>, Halt> {
        let Some(request) = self.incoming.request() else {
            return Ok(None);
        };
        let body = self.incoming.body();
        let here = self.here()?;
        let asked = wished(self.alloc, here.as_str(), allowed, request, body);
        let asked = prepare(self.alloc, asked, keys, now);
        let reply = answer_to(self.alloc, hub, keeper, told, asked, body)?;
        Ok(Some((request.marks(), reply)))
    }

    // Puts what its request is answered.
    fn put(&mut self, marks: Marks, reply: &Reply) -> Result<(), AllocError> {
        let is_bare = is_bare(marks.method);
        let origin = match self.incoming.request() {
            Some(request) => request.origin(),
            None => None,
        };
        let page = page_of(reply, origin);
        put_reply(
            self.alloc,
            &mut self.out,
            marks.is_kept,
            is_bare,
            page,
            reply,
        )
    }

    // Puts why its request isn't done.
    fn put_fault(&mut self, marks: Marks, fault: Fault) -> Result<(), AllocError> {
        let reply = Err(fault);
        self.put(marks, &reply)
    }

    // Puts the head of a file, of which it is sent the bytes behind it, where it asks for more than the
    // head.
    fn put_file(&mut self, marks: Marks, found: Found) -> Result<(), AllocError>
        ensures head { OnOk result (self.new.out.items ≡ self.old.out.items
            ++ file_head (media_type_of (string_bytes found.name)) found.size marks.is_kept) }
        ensures rest { OnOk result
            (option_map (λ rest. rest.left) self.new.rest ≡ left_for (is_bare marks.method) found.size) }
    {
        let Found { file, size, name } = found;
        put_file_head(
            &mut self.out,
            media_type(name.as_str()),
            size,
            marks.is_kept,
        )?;
        self.rest = Rest::of(file, size, is_bare(marks.method));
        Ok(())
    }

    // The file that its request names.
    fn file<Y: Files<File = File>>(&self, system: &Y, site: &Site) -> Result<Found, Fault> {
        match self.incoming.request() {
            Some(request) => site.find(system, self.alloc, request.target()),
            None => Err(Fault::NotFound),
        }
    }

    // Puts the file that its request names, or why there is none.
    fn put_named<Y: Files<File = File>>(
        &mut self,
        system: &Y,
        site: &Site,
        marks: Marks,
    ) -> Result<(), AllocError> {
        match self.file(system, site) {
            Ok(found) => self.put_file(marks, found),
            Err(fault) => self.put_fault(marks, fault),
        }
    }

    // Puts what the tree answers, or a file, or why there is none.
    fn put_of<Y: Files<File = File>>(
        &mut self,
        system: &Y,
        site: &Site,
        marks: Marks,
        reply: &Reply,
    ) -> Result<(), AllocError> {
        match course_of(site.does_serve(), marks.method, reply) {
            Course::Told => self.put(marks, reply),
            Course::File => self.put_named(system, site, marks),
            Course::ReadOnly => self.put_fault(marks, Fault::ReadOnly),
        }
    }

    /// Answers its request, which is whole. What is accepted is kept before.
    pub(crate) fn answer<Y: Files<File = File>>(
        &mut self,
        system: &Y,
        site: &Site,
        hub: &mut Hub,
        keeper: &mut Keeper,
        told: &mut Vec<u64>,
        keys: &mut Keys,
        allowed: &[String],
        now: u64,
    ) -> Result<(), Halt> {
        let Some((marks, reply)) = self.reply(hub, keeper, told, keys, allowed, now)? else {
            return Ok(());
        };
        keeper.append()?;
        self.put_of(system, site, marks, &reply)?;
        self.is_answered(marks.is_kept);
        self.incoming.end_request();
        Ok(())
    }

    /// Whether more is answered than one turn is to hold others up for.
    pub(crate) fn is_long(&self) -> bool
        ensures { result ≡ nat_lt TURN_BYTES (length self.now.out.items) }
    {
        self.out.len() > TURN_BYTES
    }

    /// Its turn is over.
    pub(crate) fn settle(&mut self, now: u64)
        ensures { self.new ≡ settled now self.old }
    {
        if self.has_moved {
            self.since = now;
            self.has_moved = false;
        }
    }

    // What it is waited for.
    fn awaited(&self) -> Awaited
        ensures { result ≡ awaited_of self.now }
    {
        if self.written < self.out.len() || self.rest.is_some() {
            Awaited::Taking
        } else if self.left.is_some() {
            Awaited::Leaving
        } else if self.has_asked && self.incoming.is_between() {
            Awaited::Next
        } else {
            Awaited::Request
        }
    }

    /// Its alarm rings. Answers when it rings next, or why it goes.
    pub(crate) fn ring(&self, now: u64) -> Result<u64, GuestEnd>
        ensures { result ≡ rung self.now now }
    {
        let awaited = self.awaited();
        match awaited.left(now.saturating_sub(self.since)) {
            Some(left) => Ok(now.saturating_add(left)),
            None => Err(awaited.ending(self.has_asked)),
        }
    }

    /// Why it goes where all are ended: one that was answered goes in silence.
    pub(crate) fn stopped(&self) -> GuestEnd
        ensures { result ≡ stopped_of self.now }
    {
        if self.has_asked {
            GuestEnd::Answered
        } else {
            GuestEnd::Stopped
        }
    }

    /// Its stream, of which what it sent is read again, from a head on that has so many bytes.
    pub(crate) fn into_replay(self, size: usize) -> Result<Replay, AllocError>
        ensures { IfOk result (λ r. (r.first.items ≡ self.incoming.bytes)
            × (r ≡ record { first = r.first; at = 0; end = size; stream = self.stream })) }
    {
        let Asking {
            alloc,
            stream,
            incoming,
            out: _,
            written: _,
            rest: _,
            has_asked: _,
            left: _,
            since: _,
            has_moved: _,
        } = self;
        let first = Vec::from_slice(alloc, incoming.bytes())?;
        Ok(Replay::new(first, size, stream))
    }
}

// Whether the head of an answer alone is asked for.
fn is_bare(method: Method) -> bool
    ensures { result ≡ is_bare method }
{
    matches!(method, Method::Head)
}

// A stream gives or takes nothing now, for that reason.
fn stuck(why: io::Error) -> Next
    ensures { result ≡ stuck_of (broken_of (error.Io why)) }
{
    let why = Broken::of(Error::Io(why));
    if why.would_block() {
        Next::Idle
    } else if why.is_interrupted() {
        Next::Again
    } else {
        Next::Ends(GuestEnd::Failed(why))
    }
}

// ---- how long one that asks is waited for

/// For how many milliseconds a request may stand still, and one that is ended may go on.
pub(crate) const ASK_MS: u64 = 10_000;

/// For how many milliseconds an answer may wait to be taken, and one that was answered for its next request.
pub(crate) const ANSWER_MS: u64 = 60_000;

/// What is waited for.
#[derive(Clone, Copy)]
pub(crate) enum Awaited {
    /// The first request, or what is left of one.
    Request,
    /// That an answer is taken.
    Taking,
    /// The next request.
    Next,
    /// That it goes, since it was answered for the last time.
    Leaving,
}

impl Awaited {
    // For how many milliseconds.
    fn most(self) -> u64
        ensures { result ≡ most_of self }
    {
        match self {
            Awaited::Request | Awaited::Leaving => ASK_MS,
            Awaited::Taking | Awaited::Next => ANSWER_MS,
        }
    }

    /// Why one goes that was waited for too long, and that has asked for something or hasn't.
    pub(crate) fn ending(self, has_asked: bool) -> GuestEnd
        ensures { result ≡ late_of self has_asked }
    {
        match self {
            Awaited::Request => {
                if has_asked {
                    GuestEnd::Stalled
                } else {
                    GuestEnd::Unshaken
                }
            }
            Awaited::Taking => GuestEnd::Stalled,
            Awaited::Next | Awaited::Leaving => GuestEnd::Answered,
        }
    }

    /// For how many milliseconds more, where it has been waited for so many; none where that is over. It is
    /// looked after as often as the shortest of these times.
    pub(crate) fn left(self, waited: u64) -> Option<u64>
        ensures { result ≡ left_of self waited }
    {
        let left = self.most().saturating_sub(waited);
        if left == 0 {
            None
        } else {
            Some(left.min(ASK_MS))
        }
    }
}
