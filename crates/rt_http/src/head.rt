// The head of a request, at the front of the bytes that came.
ghost use Rattle.std.specs.Prelude.{◌≡◌, ◌≤◌, ◌<◌, ◌⊎◌, List, ℕ, take, length, IfOk, IfErr, IfSome, IfNone};
ghost use Rattle.std.specs.Prelude.{map, MatchResult, Ok, Err, option_copied, true};
ghost use Rattle.std.specs.Str.{str_eq_ignore_ascii_case};
ghost use Rattle.std.specs.Char.{is_ascii_digit};
ghost use Rattle.std.specs.List.{list_all};
ghost use Rattle.httparse.specs.Grammar.{HasNoRequest, ReadsRequest, RequestHead};
ghost use Rattle.httparse.specs.Borrowed.{header_parts};
ghost use Rattle.httparse.specs.Spans.{IsRequestWithin};
ghost use Rattle.rt_http.specs.Readings.{IsHead, IsRefusedHead, IsSaid, head_says, refusal_of};
ghost use Rattle.rt_http.specs.Methods.{method_of};
ghost use Rattle.rt_http.specs.Fields.{does_say, is_named, is_there, only, values_of};
ghost use Rattle.rt_http.specs.Marks.{coding_of, expectation_of, framing_of, framing_with, lacking};
ghost use Rattle.rt_http.specs.Marks.{length_of, marks_of, number_of, number_within};
ghost use Rattle.rt_http.specs.Handshakes.{IsHandshakeLen, IsJudged, key_asked, refused_for};

use crate::fault::{MAX_FIELDS, MAX_HEAD_BYTES, Refusal};
use crate::request::Request;
use httparse::spans::{EMPTY_HEADER_SPAN, HeaderSpan, RequestSpans, parse_request};
use httparse::{EMPTY_HEADER, Error, Header, Status};
use std::alloc::Global;
use websocket::handshake::HandshakeError;
use websocket::handshake::server::check_request;

/// A request, and how many bytes its head has.
#[derive(Drop)]
pub(crate) struct Head {
    pub(crate) request: Request,
    pub(crate) length: usize,
}

// The bytes in which the head has to end.
fn window(bytes: &[u8]) -> &[u8]
    ensures { result.now ≡ take MAX_HEAD_BYTES bytes.now }
{
    if bytes.len() > MAX_HEAD_BYTES {
        &bytes[..MAX_HEAD_BYTES]
    } else {
        bytes
    }
}

/// How bytes are refused that the parser refuses so.
pub(crate) fn refusal_of(error: Error) -> Refusal
    ensures { result ≡ refusal_of error }
{
    match error {
        Error::TooManyHeaders => Refusal::HeadTooLong,
        Error::Version => Refusal::Version,
        Error::HeaderName | Error::HeaderValue | Error::NewLine | Error::Status | Error::Token =>
            Refusal::Malformed,
    }
}

/// The head at the front of the bytes, once it is whole. A body has at most so many bytes.
pub(crate) fn read(alloc: Global, most: usize, bytes: &[u8]) -> Result<Option<Head>, Refusal>
    ensures whole { IfOk result (λ found. IfSome found
        (λ head. IsHead most (take MAX_HEAD_BYTES bytes.now) head.length head.request)) }
    ensures more { IfOk result (λ found. IfNone found
        (HasNoRequest (take MAX_HEAD_BYTES bytes.now) × (length bytes.now < MAX_HEAD_BYTES))) }
    ensures refused { IfErr result (λ e. (e ≡ Refusal.NoMemory)
        ⊎ IsRefusedHead most (take MAX_HEAD_BYTES bytes.now) e) }
    ensures found { (h : RequestHead) (rest : List ℕ) → ReadsRequest (take MAX_HEAD_BYTES bytes.now) h rest
        → length h.fields ≤ MAX_FIELDS → IsSaid (head_says most h) result }
{
    let window = window(bytes);
    let mut fields = [EMPTY_HEADER; MAX_FIELDS];
    let mut head = httparse::Request::new(&mut fields);
    match head.parse(window) {
        Ok(Status::Complete(length)) => {
            let (Some(method), Some(target), Some(minor)) = (head.method, head.path, head.version)
            else {
                unreachable!()
            };
            let request = Request::of(alloc, most, method, target, minor, head.headers)?;
            Ok(Some(Head { request, length }))
        }
        Ok(Status::Partial) => {
            if window.len() == MAX_HEAD_BYTES {
                return Err(Refusal::HeadTooLong);
            }
            Ok(None)
        }
        Err(error) => Err(refusal_of(error)),
    }
}

// ---- what a request does

/// What a request does, by the word that it begins with.
#[derive(Clone, Copy)]
pub enum Method {
    /// `GET`: reads.
    Get,
    /// `HEAD`: reads, and is answered without the body.
    Head,
    /// `PUT`: writes in place of what is there.
    Put,
    /// `PATCH`: writes several children.
    Patch,
    /// `POST`: writes under a new key.
    Post,
    /// `DELETE`: removes.
    Delete,
    /// `OPTIONS`: asks what may be asked, as a browser does before it lets a page write.
    Options,
    /// Any other word.
    Other,
}

impl Method {
    /// The method of that word. Words have a case.
    pub fn of(word: &str) -> Method
        ensures { result ≡ method_of word.now }
    {
        match word {
            "GET" => Method::Get,
            "HEAD" => Method::Head,
            "PUT" => Method::Put,
            "PATCH" => Method::Patch,
            "POST" => Method::Post,
            "DELETE" => Method::Delete,
            "OPTIONS" => Method::Options,
            _ => Method::Other,
        }
    }
}

// ---- the fields of a head

/// Whether two texts differ in nothing but the case of their letters.
pub(crate) fn is_alike(one: &[u8], other: &[u8]) -> bool
    ensures { result ≡ str_eq_ignore_ascii_case one.now other.now }
{
    one.eq_ignore_ascii_case(other)
}

// Whether a field has that name.
fn is_named(field: &Header<'_>, name: &str) -> bool
    ensures { result ≡ is_named name.now (header_parts field.now) }
{
    is_alike(field.name.as_bytes(), name.as_bytes())
}

/// Whether there is a field of that name.
pub(crate) fn is_there(fields: &[Header<'_>], name: &str) -> bool
    ensures { result ≡ is_there name.now (map header_parts fields.now) }
{
    for field in fields {
        if is_named(field, name) {
            return true;
        }
    }
    false
}

/// Whether a field of that name has that value.
pub(crate) fn does_say(fields: &[Header<'_>], name: &str, word: &str) -> bool
    ensures { result ≡ does_say name.now word.now (map header_parts fields.now) }
{
    for field in fields {
        if is_named(field, name) && is_alike(field.value, word.as_bytes()) {
            return true;
        }
    }
    false
}

/// The value of the one field of that name, if there is any. Several are refused.
pub(crate) fn only<'b>(fields: &[Header<'b>], name: &str) -> Result<Option<&'b [u8]>, Refusal>
    ensures { MatchResult result
        (λ value. only (values_of name.now (map header_parts fields.now)) ≡ Ok (option_copied value))
        (λ e. only (values_of name.now (map header_parts fields.now)) ≡ Err e) }
{
    let mut found = None;
    for field in fields {
        if is_named(field, name) {
            if found.is_some() {
                return Err(Refusal::Malformed);
            }
            found = Some(field.value);
        }
    }
    Ok(found)
}

// ---- what is done with a request, as its head says

/// How the body of a request comes.
#[derive(Clone, Copy)]
pub enum Framing {
    /// As so many bytes; none of a request that says nothing of a body.
    Length(usize),
    /// In chunks, each behind its size.
    Chunked,
}

/// What a request wants that this server doesn't have.
#[derive(Clone, Copy, Debug)]
pub enum Unsupported {
    /// To be told of changes: `Accept: text/event-stream`.
    Events,
    /// Writes that depend on what is there: `X-Firebase-ETag` and `If-Match`.
    Etags,
    /// A login: `Authorization`.
    Login,
    /// Another method than that of the first line: `X-HTTP-Method-Override`.
    Override,
}

/// What is done with a request, as its head says.
#[derive(Clone, Copy)]
pub struct Marks {
    /// What it does.
    pub method: Method,
    /// How its body comes.
    pub framing: Framing,
    /// Whether the connection goes on behind it.
    pub is_kept: bool,
    /// Whether it waits to be told before it sends its body: `Expect: 100-continue`.
    pub does_wait: bool,
    /// Whether it is to become a WebSocket.
    pub is_upgrade: bool,
    /// What it wants that isn't there.
    pub lacks: Option<Unsupported>,
}

/// Whether there are digits alone.
pub(crate) fn are_digits(text: &[u8]) -> bool
    ensures { result ≡ list_all is_ascii_digit text.now }
{
    for byte in text {
        if !byte.is_ascii_digit() {
            return false;
        }
    }
    true
}

// The number that digits write, where it is at most the bound.
fn number_within(most: usize, digits: &[u8]) -> Result<usize, Refusal>
    requires { list_all is_ascii_digit digits.now ≡ true }
    ensures { result ≡ number_within most digits.now }
{
    let mut number: usize = 0;
    for digit in digits {
        let next = u128::from(number as u64) * 10 + u128::from(*digit - b'0');
        if next > u128::from(most as u64) {
            return Err(Refusal::TooLong);
        }
        number = next as usize;
    }
    Ok(number)
}

// The number of bytes that a text says.
fn number(most: usize, text: &[u8]) -> Result<usize, Refusal>
    ensures { result ≡ number_of most text.now }
{
    if text.is_empty() || !are_digits(text) {
        return Err(Refusal::Malformed);
    }
    number_within(most, text)
}

// A body of as many bytes as a text says.
fn length(most: usize, text: &[u8]) -> Result<Framing, Refusal>
    ensures { result ≡ length_of most text.now }
{
    let length = number(most, text)?;
    Ok(Framing::Length(length))
}

// A body that comes as a coding says.
fn coding(minor: u8, coding: &[u8]) -> Result<Framing, Refusal>
    ensures { result ≡ coding_of minor coding.now }
{
    if minor == 0 {
        return Err(Refusal::Malformed);
    }
    if is_alike(coding, b"chunked") {
        Ok(Framing::Chunked)
    } else {
        Err(Refusal::Coding)
    }
}

// How the body comes, by its coding and its length.
fn framing_with(
    most: usize,
    minor: u8,
    coded: Option<&[u8]>,
    said: Option<&[u8]>,
) -> Result<Framing, Refusal>
    ensures { result ≡ framing_with most minor (option_copied coded.entry) (option_copied said.entry) }
{
    match (coded, said) {
        (None, None) => Ok(Framing::Length(0)),
        (None, Some(text)) => length(most, text),
        (Some(text), None) => coding(minor, text),
        (Some(_), Some(_)) => Err(Refusal::Malformed),
    }
}

// How the body comes.
fn framing_of(most: usize, minor: u8, fields: &[Header<'_>]) -> Result<Framing, Refusal>
    ensures { result ≡ framing_of most minor (map header_parts fields.now) }
{
    let coded = only(fields, "transfer-encoding")?;
    let said = only(fields, "content-length")?;
    framing_with(most, minor, coded, said)
}

// Whether a request waits, by what it expects.
fn expectation(expected: Option<&[u8]>) -> Result<bool, Refusal>
    ensures { result ≡ expectation_of (option_copied expected.entry) }
{
    match expected {
        None => Ok(false),
        Some(text) => {
            if is_alike(text, b"100-continue") {
                Ok(true)
            } else {
                Err(Refusal::Expectation)
            }
        }
    }
}

// What a request wants that isn't there: the first of these.
fn lacking(fields: &[Header<'_>]) -> Option<Unsupported>
    ensures { result ≡ lacking (map header_parts fields.now) }
{
    if does_say(fields, "accept", "text/event-stream") {
        Some(Unsupported::Events)
    } else if is_there(fields, "x-firebase-etag") || is_there(fields, "if-match") {
        Some(Unsupported::Etags)
    } else if is_there(fields, "authorization") {
        Some(Unsupported::Login)
    } else if is_there(fields, "x-http-method-override") {
        Some(Unsupported::Override)
    } else {
        None
    }
}

/// What is done with a request, by its method, the minor number of its version and its fields. A body has
/// at most so many bytes.
pub(crate) fn marks_of(
    most: usize,
    method: &str,
    minor: u8,
    fields: &[Header<'_>],
) -> Result<Marks, Refusal>
    ensures { result ≡ marks_of most method.now minor (map header_parts fields.now) }
{
    let framing = framing_of(most, minor, fields)?;
    let does_wait = expectation(only(fields, "expect")?)?;
    Ok(Marks {
        method: Method::of(method),
        framing,
        is_kept: minor == 1 && !does_say(fields, "connection", "close"),
        does_wait,
        is_upgrade: does_say(fields, "upgrade", "websocket"),
        lacks: lacking(fields),
    })
}

// ---- which heads are handshakes of a WebSocket

// How a head is refused that is no handshake, for that reason.
fn refused_for(why: HandshakeError) -> Refusal
    ensures { result ≡ refused_for why }
{
    match why {
        HandshakeError::MissingSecWebSocketVersionHeader => Refusal::OtherVersion,
        HandshakeError::OutOfMemory => Refusal::NoMemory,
        HandshakeError::WrongHttpMethod
        | HandshakeError::WrongHttpVersion
        | HandshakeError::MissingConnectionUpgradeHeader
        | HandshakeError::MissingUpgradeWebSocketHeader
        | HandshakeError::MissingSecWebSocketKey
        | HandshakeError::InvalidSecWebSocketKey
        | HandshakeError::SecWebSocketAcceptKeyMismatch
        | HandshakeError::SecWebSocketSubProtocolError(_)
        | HandshakeError::UnexpectedExtension
        | HandshakeError::Http(_)
        | HandshakeError::InvalidHeader => Refusal::NoHandshake,
    }
}

// How many bytes a head has that was found there, if it is one of a handshake.
fn judged(bytes: &[u8], found: &RequestSpans, spans: &[HeaderSpan]) -> Result<usize, Refusal>
    requires { IsRequestWithin bytes.now spans.now found.now }
    ensures { IsJudged (key_asked bytes.now spans.now found.now) found.now.len result }
{
    match check_request(bytes, found, spans) {
        Ok(_) => Ok(found.len),
        Err(why) => Err(refused_for(why)),
    }
}

/// How many bytes the head at the front of the bytes has, if it is a handshake that a WebSocket takes.
///
/// # Errors
///
/// `Malformed` where no head is there, `OtherVersion` where it is of another version than 13 or of none, and
/// else `NoHandshake`.
pub fn handshake_len(bytes: &[u8]) -> Result<usize, Refusal>
    ensures { IsHandshakeLen bytes.now result }
{
    let mut spans = [EMPTY_HEADER_SPAN; MAX_FIELDS];
    match parse_request(bytes, &mut spans) {
        Ok(Status::Complete(found)) => judged(bytes, &found, &spans),
        Ok(Status::Partial) => Err(Refusal::Malformed),
        Err(_) => Err(Refusal::Malformed),
    }
}
