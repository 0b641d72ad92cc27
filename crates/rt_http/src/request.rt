// A request, as its head says it.
ghost use Rattle.std.specs.Prelude.{◌≡◌, ◌⊎◌, map, IfOk, IfErr, Ok, Err, MatchResult, string_bytes, ◌≤◌};
ghost use Rattle.std.specs.Prelude.{drop, length, OnOk, OnErr};
ghost use Rattle.std.specs.Option.{option_copied, option_map};
ghost use Rattle.httparse.specs.Borrowed.{header_parts};
ghost use Rattle.rt_http.specs.Heads.{host_of, said_of, said_with};
ghost use Rattle.rt_http.specs.Incomings.{IsFirst, IsGone, IsRefusedAt, IsTaken, IsTurn, answered};
ghost use Rattle.rt_http.specs.Incomings.{new_incoming, IsRefusedBody, IsRefusedFirst, IsRefusedTurn};
ghost use Rattle.rt_http.specs.Incomings.{is_between, told_if, turn_of, with_bytes, with_length};
ghost use Rattle.rt_http.specs.inside.Begun.{IsBegun};
ghost use Rattle.rt_http.specs.Chunks.{AreRead, IsPieceAt};
ghost use Rattle.rt_http.specs.inside.Pieces.{IsDataAt, IsLastAt};

use crate::fault::{MAX_CHUNK_LINE, MAX_HEAD_BYTES, MAX_TRAILERS, Refusal};
use crate::head::{Framing, Head, Marks, marks_of, only, read, refusal_of};
use httparse::spans::{EMPTY_HEADER_SPAN, parse_headers};
use httparse::{Header, Status, parse_chunk_size};
use std::alloc::{AllocError, Global};
use std::marker::Model;
use std::mem;

/// A request, as its head says it: what is done with it, what it asks for, and who asks.
pub struct Request {
    marks: Marks,
    target: String,
    host: Option<Vec<u8>>,
    origin: Option<Vec<u8>>,
}

impl Drop for Request {
    fn drop(self) {
        let Request {
            marks: _,
            target: _,
            host: _,
            origin: _,
        } = self;
    }
}

impl Model for Request {
    ghost use Rattle.std.specs.Prelude.{string_bytes};
    ghost use Rattle.std.specs.Option.{option_map};
    ghost use Rattle.rt_http.specs.Heads.{Said};

    ghost Value = { Said };

    ghost view = { λ a. record {
      marks = a.marks;
      target = string_bytes a.target;
      host = option_map (λ v. v.items) a.host;
      origin = option_map (λ v. v.items) a.origin;
    } };
}

// The bytes, if there are any, as a list of their own.
fn copied(alloc: Global, bytes: Option<&[u8]>) -> Result<Option<Vec<u8>>, AllocError>
    ensures { IfOk result (λ copy. option_map (λ v. v.items) copy ≡ option_copied bytes.entry) }
{
    match bytes {
        Some(bytes) => Ok(Some(Vec::from_slice(alloc, bytes)?)),
        None => Ok(None),
    }
}

// The host that is asked, which a request of HTTP/1.1 has to name.
fn host(minor: u8, host: Option<&[u8]>) -> Result<Option<&[u8]>, Refusal>
    ensures { MatchResult result (λ found. host_of minor (option_copied host.entry) ≡ Ok (option_copied found))
        (λ e. host_of minor (option_copied host.entry) ≡ Err e) }
{
    if minor == 1 && host.is_none() {
        return Err(Refusal::Malformed);
    }
    Ok(host)
}

impl Request {
    fn new(
        alloc: Global,
        marks: Marks,
        target: &str,
        host: Option<&[u8]>,
        origin: Option<&[u8]>,
    ) -> Result<Request, AllocError>
        ensures { IfOk result (λ request. request
            ≡ said_with marks target.now (option_copied host.entry) (option_copied origin.entry)) }
    {
        let target = String::from_str(alloc, target)?;
        let host = copied(alloc, host)?;
        let origin = copied(alloc, origin)?;
        Ok(Request {
            marks,
            target,
            host,
            origin,
        })
    }

    /// The request of a head with that method and target, that minor number of its version and these
    /// fields. A body has at most so many bytes.
    pub(crate) fn of(
        alloc: Global,
        most: usize,
        method: &str,
        target: &str,
        minor: u8,
        fields: &[Header<'_>],
    ) -> Result<Request, Refusal>
        ensures ok { IfOk result (λ request.
            said_of most method.now target.now minor (map header_parts fields.now) ≡ Ok request) }
        ensures fault { IfErr result (λ e.
            (said_of most method.now target.now minor (map header_parts fields.now) ≡ Err e)
            ⊎ (e ≡ Refusal.NoMemory)) }
        ensures refused { IfErr (said_of most method.now target.now minor (map header_parts fields.now))
            (λ e. result ≡ Err e) }
    {
        let marks = marks_of(most, method, minor, fields)?;
        let host = host(minor, only(fields, "host")?)?;
        let origin = only(fields, "origin")?;
        Ok(Request::new(alloc, marks, target, host, origin)?)
    }

    /// What is done with it.
    pub fn marks(&self) -> Marks
        ensures { result ≡ self.now.marks }
    {
        self.marks
    }

    /// What it asks for: a path, and perhaps a query behind a `?`, with their escapes.
    pub fn target(&self) -> &str
        ensures { result.now ≡ self.now.target }
    {
        self.target.as_str()
    }

    /// The host that it asks, where it names one.
    pub fn host(&self) -> Option<&[u8]>
        ensures { option_copied result ≡ self.now.host }
    {
        match &self.host {
            Some(host) => Some(host.as_slice()),
            None => None,
        }
    }

    /// The origin of the page that asks, where it names one.
    pub fn origin(&self) -> Option<&[u8]>
        ensures { option_copied result ≡ self.now.origin }
    {
        match &self.origin {
            Some(origin) => Some(origin.as_slice()),
            None => None,
        }
    }
}

// ---- the requests of a connection, as their bytes come

/// What is to be done once bytes have come.
#[derive(Clone, Copy)]
pub enum RequestProgress {
    /// Nothing: more bytes have to come.
    More,
    /// The client is told to go on, and more bytes have to come.
    GoOn,
    /// The request is answered.
    Whole,
    /// The bytes are handed to a WebSocket, from the first of the head on. The request is what the head says, and
    /// no turn comes behind this one.
    Upgrade,
}

/// The requests of a connection, as their bytes come.
pub struct Incoming {
    alloc: Global,
    most: usize,
    bytes: Vec<u8>,
    request: Option<Request>,
    body: Vec<u8>,
    is_whole: bool,
    was_told: bool,
}

impl Drop for Incoming {
    fn drop(self) {
        let Incoming {
            alloc: _,
            most: _,
            bytes: _,
            request: _,
            body: _,
            is_whole: _,
            was_told: _,
        } = self;
    }
}

impl Model for Incoming {
    ghost use Rattle.rt_http.specs.Incomings.{Incoming};

    ghost Value = { Incoming };

    ghost view = { λ a. record {
      most = a.most;
      bytes = a.bytes.items;
      request = a.request;
      body = a.body.items;
      is_whole = a.is_whole;
      was_told = a.was_told;
    } };
}

// The bytes behind the first so many.
fn behind(alloc: Global, bytes: &[u8], count: usize) -> Result<Vec<u8>, AllocError>
    requires { count ≤ length bytes.now }
    ensures { IfOk result (λ rest. rest.items ≡ drop count bytes.now) }
{
    Vec::from_slice(alloc, &bytes[count..])
}

// What came of the look for a head.
#[derive(Clone, Copy)]
enum Begun {
    More,
    Upgrade,
    Head(Marks),
}

impl Incoming {
    /// The requests of a connection on which nothing has come, and of which a body has at most so many bytes.
    pub fn new(alloc: Global, most: usize) -> Incoming
        ensures { result ≡ new_incoming most }
    {
        Incoming {
            alloc,
            most,
            bytes: Vec::new(alloc),
            request: None,
            body: Vec::new(alloc),
            is_whole: false,
            was_told: false,
        }
    }

    /// Takes bytes that came.
    ///
    /// # Errors
    ///
    /// Want of memory, which changes nothing.
    pub fn put(&mut self, bytes: &[u8]) -> Result<(), AllocError>
        ensures put { OnOk result (self.new ≡ with_bytes self.old bytes.now) }
        ensures unchanged { OnErr result (self.new ≡ self.old) }
    {
        self.bytes.extend_from_slice(bytes)
    }

    /// The request whose head came last, if it isn't answered.
    pub fn request(&self) -> Option<&Request>
        ensures { option_copied result ≡ self.now.request }
    {
        self.request.as_ref()
    }

    /// The body of the request, as far as it was read; all of it once the request is whole.
    pub fn body(&self) -> &[u8]
        ensures { result.now ≡ self.now.body }
    {
        self.body.as_slice()
    }

    /// The bytes that came and are of no request that was read.
    pub fn bytes(&self) -> &[u8]
        ensures { result.now ≡ self.now.bytes }
    {
        self.bytes.as_slice()
    }

    /// Whether no request has begun.
    pub fn is_between(&self) -> bool
        ensures { result ≡ is_between self.now }
    {
        self.request.is_none() && self.bytes.is_empty()
    }

    /// The request was answered: the next one is read of the bytes behind it.
    pub fn end_request(&mut self)
        ensures { self.new ≡ answered self.old }
    {
        self.request = None;
        self.body.clear();
        self.is_whole = false;
        self.was_told = false;
    }

    // Looks for a head at the front of the bytes, and takes its request. The bytes of a handshake stay.
    fn begin(&mut self) -> Result<Begun, Refusal>
        ensures begun { IfOk result (λ begun. IsBegun self.old begun self.new) }
        ensures refused { IfErr result (IsRefusedAt self.old) }
        ensures unchanged { OnErr result (self.new ≡ self.old) }
    {
        let Some(head) = read(self.alloc, self.most, self.bytes.as_slice())? else {
            return Ok(Begun::More);
        };
        let Head { request, length } = head;
        let marks = request.marks();
        if marks.is_upgrade {
            self.request = Some(request);
            return Ok(Begun::Upgrade);
        }
        let rest = behind(self.alloc, self.bytes.as_slice(), length)?;
        self.bytes = rest;
        self.request = Some(request);
        Ok(Begun::Head(marks))
    }

    // Takes a body of so many bytes, once they are there.
    fn take_length(&mut self, size: usize) -> Result<(), Refusal>
        ensures taken { OnOk result (self.new ≡ with_length size self.old) }
        ensures memory { IfErr result (λ e. e ≡ Refusal.NoMemory) }
        ensures unchanged { OnErr result (self.new ≡ self.old) }
    {
        if self.bytes.len() < size {
            return Ok(());
        }
        let rest = behind(self.alloc, self.bytes.as_slice(), size)?;
        self.bytes.truncate(size);
        self.body = mem::replace(&mut self.bytes, rest);
        self.is_whole = true;
        Ok(())
    }

    // Leaves out the first so many bytes. What is none costs nothing, however much has come.
    fn pass(&mut self, count: usize) -> Result<(), AllocError>
        requires { count ≤ length self.old.bytes }
        ensures { OnOk result (self.new ≡ record (self.old) { bytes = drop count self.old.bytes }) }
    {
        if count > 0 {
            self.bytes = behind(self.alloc, self.bytes.as_slice(), count)?;
        }
        Ok(())
    }

    // Takes what is there of a body in chunks.
    fn take_chunks(&mut self) -> Result<(), Refusal>
        ensures { OnOk result (IsTaken Framing.Chunked self.old self.new) }
    {
        let read = read_chunks(self.bytes.as_slice(), self.most, &mut self.body)?;
        self.pass(read.0)?;
        self.is_whole = read.1;
        Ok(())
    }

    // Takes what is there of the body of a request.
    fn take_body(&mut self, framing: Framing) -> Result<(), Refusal>
        ensures taken { OnOk result (IsTaken framing self.old self.new) }
        ensures refused { IfErr result (IsRefusedBody framing) }
    {
        match framing {
            Framing::Length(size) => self.take_length(size),
            Framing::Chunked => self.take_chunks(),
        }
    }

    // What is to be done once what came of a body was taken, and the request waits to go on or not.
    fn awaited(&mut self, does_wait: bool) -> RequestProgress
        ensures turn { result ≡ turn_of does_wait self.old }
        ensures told { self.new ≡ told_if does_wait self.old }
    {
        if self.is_whole {
            return RequestProgress::Whole;
        }
        if does_wait && !self.was_told {
            self.was_told = true;
            return RequestProgress::GoOn;
        }
        RequestProgress::More
    }

    // Goes on with the request whose head came.
    fn go_on(&mut self, marks: Marks) -> Result<RequestProgress, Refusal>
        ensures gone { IfOk result (λ turn. IsGone marks self.old turn self.new) }
        ensures refused { IfErr result (IsRefusedBody marks.framing) }
    {
        self.take_body(marks.framing)?;
        Ok(self.awaited(marks.does_wait))
    }

    // Begins with the next request.
    fn first(&mut self) -> Result<RequestProgress, Refusal>
        ensures first { IfOk result (λ turn. IsFirst self.old turn self.new) }
        ensures refused { IfErr result (IsRefusedFirst self.old) }
    {
        match self.begin()? {
            Begun::More => Ok(RequestProgress::More),
            Begun::Upgrade => Ok(RequestProgress::Upgrade),
            Begun::Head(marks) => self.go_on(marks),
        }
    }

    /// What is to be done now.
    ///
    /// # Errors
    ///
    /// Why the bytes are no request that is taken. Nothing more is read of the connection then.
    pub fn turn(&mut self) -> Result<RequestProgress, Refusal>
        ensures turn { IfOk result (λ turn. IsTurn self.old turn self.new) }
        ensures refused { IfErr result (IsRefusedTurn self.old) }
    {
        if self.is_whole {
            return Ok(RequestProgress::Whole);
        }
        match &self.request {
            None => self.first(),
            Some(request) => {
                let marks = request.marks();
                self.go_on(marks)
            }
        }
    }
}

// ---- a body that comes in chunks

/// What stands at the front of a body in chunks.
#[derive(Clone, Copy)]
pub(crate) enum Piece {
    /// Nothing is whole yet.
    More,
    /// A chunk, whose data begin and end there; two bytes stand behind them.
    Data { start: usize, end: usize },
    /// The end of the body, and where what follows it begins.
    Last { end: usize },
}

// A chunk whose line ends at the start, and which has so many bytes.
fn data(bytes: &[u8], start: usize, size: u64, most: usize) -> Result<Piece, Refusal>
    requires { start ≤ length bytes.now }
    ensures { IfOk result (IsDataAt bytes.now start size) }
{
    if size > most as u64 {
        return Err(Refusal::TooLong);
    }
    let size = size as usize;
    let there = bytes.len() - start;
    if there < 2 || there - 2 < size {
        return Ok(Piece::More);
    }
    let end = start + size;
    if bytes[end] != b'\r' || bytes[end + 1] != b'\n' {
        return Err(Refusal::Malformed);
    }
    Ok(Piece::Data { start, end })
}

// The end of a body, whose last chunk's line ends at the start.
fn last(bytes: &[u8], start: usize) -> Result<Piece, Refusal>
    requires { start ≤ length bytes.now }
    ensures { IfOk result (IsLastAt bytes.now start) }
{
    let rest = &bytes[start..];
    let mut fields = [EMPTY_HEADER_SPAN; MAX_TRAILERS];
    match parse_headers(rest, &mut fields) {
        Ok(Status::Complete((length, _))) => {
            if length > MAX_HEAD_BYTES {
                return Err(Refusal::HeadTooLong);
            }
            Ok(Piece::Last {
                end: start + length,
            })
        }
        Ok(Status::Partial) => {
            if rest.len() > MAX_HEAD_BYTES {
                return Err(Refusal::HeadTooLong);
            }
            Ok(Piece::More)
        }
        Err(error) => Err(refusal_of(error)),
    }
}

/// What stands at the front of a body in chunks, of which one has at most so many bytes.
pub(crate) fn piece_at(bytes: &[u8], most: usize) -> Result<Piece, Refusal>
    ensures { IfOk result (IsPieceAt bytes.now) }
{
    match parse_chunk_size(bytes) {
        Ok(Status::Complete((start, size))) => {
            if start > MAX_CHUNK_LINE {
                return Err(Refusal::Malformed);
            }
            if size == 0 {
                last(bytes, start)
            } else {
                data(bytes, start, size, most)
            }
        }
        Ok(Status::Partial) => {
            if bytes.len() > MAX_CHUNK_LINE {
                return Err(Refusal::Malformed);
            }
            Ok(Piece::More)
        }
        Err(_) => Err(Refusal::Malformed),
    }
}

/// Puts the data of the chunks at the front of the bytes behind a body, which has at most so many bytes then.
/// Answers how many bytes they have, and whether the body ends there.
pub(crate) fn read_chunks(
    bytes: &[u8],
    most: usize,
    body: &mut Vec<u8>,
) -> Result<(usize, bool), Refusal>
    ensures { IfOk result (λ read. AreRead bytes.now body.old.items read.0 read.1 body.new.items) }
{
    let mut at = 0;
    while at <= bytes.len() {
        match piece_at(&bytes[at..], most.saturating_sub(body.len()))? {
            Piece::More => return Ok((at, false)),
            Piece::Data { start, end } => {
                body.extend_from_slice(&bytes[at + start..at + end])?;
                at = at + end + 2;
            }
            Piece::Last { end } => return Ok((at + end, true)),
        }
    }
    Ok((bytes.len(), false))
}
