// Which handshakes come about: those of pages that may connect, and none of a Firebase SDK.
ghost use Rattle.std.specs.Prelude.{◌≡◌, map, string_bytes, IfOk, ◌||◌, codes};
ghost use Rattle.std.specs.Char.{is_ascii_uppercase};
ghost use Rattle.std.specs.List.{list_any, starts_with};
ghost use Rattle.std.specs.Option.{option_map};
ghost use Rattle.std.specs.Str.{bytes_eq};
ghost use Rattle.rt_socket.specs.Handshakes.{IsAnswer, IsAnswered, IsAnsweredBy};
ghost use Rattle.rt_emulate.specs.Handshakes.{handshake_of, refusal_of, sdk_refusal};
ghost use Rattle.rt_emulate.specs.Origins.{begins_path, begins_small, behind_host, behind_scheme, from};
ghost use Rattle.rt_emulate.specs.Origins.{has_no_host, is_no_host_letter, is_of_scheme, origin_fault};
ghost use Rattle.rt_emulate.specs.Origins.{place_fault, scheme_fault};
ghost use Rattle.rt_emulate.specs.Protocols.{is_of_sdk, is_same, is_sdk_parameter, is_sdk_query};

use http::{Request, Response, StatusCode};
use rt_socket::{Origins, is_port};
use std::alloc::{AllocError, Global};
use std::fmt;
use std::marker::Model;
use tungstenite::handshake::server::{Callback, ErrorResponse};

// What a Firebase SDK is answered.
const OTHER_PROTOCOL: &str =
    "a Firebase SDK speaks another protocol than this server, which speaks that of docs/FORMATS.md";

/// Who judges one handshake: the pages of other machines that may connect.
pub(crate) struct Judge {
    alloc: Global,
    origins: Origins,
}

impl Drop for Judge {
    fn drop(self) {
        let Judge {
            alloc: _,
            origins: _,
        } = self;
    }
}

impl Model for Judge {
    ghost use Rattle.std.specs.Prelude.{List, ℕ};

    ghost Value = { List (List ℕ) };

    ghost view = { λ j. j.origins };
}

impl Judge {
    /// The origins that are allowed, for one handshake more.
    pub(crate) fn of(alloc: Global, allowed: &[String]) -> Result<Judge, AllocError>
        ensures { IfOk result (λ j. j ≡ map string_bytes allowed.now) }
    {
        let origins = Origins::of(alloc, allowed)?;
        Ok(Judge { alloc, origins })
    }

    // What a Firebase SDK is answered.
    fn other_protocol(&self) -> ErrorResponse
        ensures { IsAnswer sdk_refusal result }
    {
        let why = String::from_str(self.alloc, OTHER_PROTOCOL);
        self.origins.answer(StatusCode::BAD_REQUEST, why)
    }

    // What is answered to a handshake, if it doesn't come about.
    fn refused(&self, request: &Request<()>) -> Option<ErrorResponse>
        ensures { IsAnswered (refusal_of (handshake_of request.now) self.now) result }
    {
        if is_of_sdk(request.uri().path(), request.uri().query()) {
            Some(self.other_protocol())
        } else {
            self.origins.refused(request)
        }
    }
}

impl Callback for Judge {
    fn on_request(
        self,
        request: &Request<()>,
        response: Response<()>,
    ) -> Result<Response<()>, ErrorResponse>
        ensures { IsAnsweredBy (refusal_of (handshake_of request.now) self) response result }
    {
        match self.refused(request) {
            None => Ok(response),
            Some(answer) => Err(answer),
        }
    }
}

// ---- what no browser writes as an origin

/// Why no browser writes a text as an origin, so that none of its pages could connect.
#[derive(Clone, Copy, Debug, PartialEq, Eq)]
pub enum OriginFault {
    /// It has an upper-case letter.
    UpperCase,
    /// It doesn't begin with a scheme and `://`.
    NoScheme,
    /// It has no host.
    NoHost,
    /// A slash, a path, a query or a fragment stands behind its host.
    Behind,
    /// A letter stands in it that stands in no host.
    BadLetter,
    /// What stands behind its host is no port.
    BadPort,
}

impl fmt::Display for OriginFault {
    fn fmt<W: fmt::Write>(&self, f: &mut fmt::Formatter<W>) -> fmt::Result {
        f.write_str(match self {
            OriginFault::UpperCase => "a browser writes an origin in small letters",
            OriginFault::NoScheme => "an origin begins with a scheme, such as https://",
            OriginFault::NoHost => "an origin has a host behind its scheme",
            OriginFault::Behind =>
                "nothing stands behind the host of an origin but a port: no slash and no path",
            OriginFault::BadLetter => "a letter stands in it that stands in no host",
            OriginFault::BadPort => "a port is a colon and digits",
        })
    }
}

// Whether it may stand in a scheme, behind its first letter.
fn is_of_scheme(byte: u8) -> bool
    ensures { result ≡ is_of_scheme byte }
{
    byte.is_ascii_lowercase()
        || byte.is_ascii_digit()
        || byte == b'+'
        || byte == b'-'
        || byte == b'.'
}

// What stands behind a scheme.
fn behind_scheme(text: &[u8]) -> &[u8]
    ensures { result.now ≡ behind_scheme text.now }
{
    for at in 0..text.len() {
        if !is_of_scheme(text[at]) {
            return &text[at..];
        }
    }
    &[]
}

// A text from the first such byte on.
fn from(stop: u8, text: &[u8]) -> &[u8]
    ensures { result.now ≡ from stop text.now }
{
    for at in 0..text.len() {
        if text[at] == stop {
            return &text[at..];
        }
    }
    &[]
}

// What stands behind the host: behind the brackets of an address, or from the colon on.
fn behind_host(place: &[u8]) -> &[u8]
    ensures { result.now ≡ behind_host place.now }
{
    match place.split_first() {
        Some((b'[', rest)) => match from(b']', rest).split_first() {
            Some((_, port)) => port,
            None => &[],
        },
        Some((_, _)) => from(b':', place),
        None => &[],
    }
}

fn begins_path(byte: u8) -> bool
    ensures { result ≡ begins_path byte }
{
    byte == b'/' || byte == b'?' || byte == b'#'
}

// Whether a path, a query or a fragment begins there.
fn has_path(place: &[u8]) -> bool
    ensures { result ≡ list_any begins_path place.now }
{
    for byte in place {
        if begins_path(*byte) {
            return true;
        }
    }
    false
}

fn is_no_host_letter(byte: u8) -> bool
    ensures { result ≡ is_no_host_letter byte }
{
    byte < 33
        || 126 < byte
        || byte == b'%'
        || byte == b'<'
        || byte == b'>'
        || byte == b'@'
        || byte == b'\\'
        || byte == b'^'
        || byte == b'|'
}

// Whether a letter stands there that stands in no host.
fn has_bad_letter(place: &[u8]) -> bool
    ensures { result ≡ list_any is_no_host_letter place.now }
{
    for byte in place {
        if is_no_host_letter(*byte) {
            return true;
        }
    }
    false
}

// Whether an upper-case letter stands there.
fn has_upper_case(origin: &[u8]) -> bool
    ensures { result ≡ list_any is_ascii_uppercase origin.now }
{
    for byte in origin {
        if byte.is_ascii_uppercase() {
            return true;
        }
    }
    false
}

// Whether there is no host.
fn has_no_host(place: &[u8]) -> bool
    ensures { result ≡ has_no_host place.now }
{
    match place.first() {
        Some(first) => *first == b':',
        None => true,
    }
}

// What is wrong with what stands behind the scheme.
fn place_fault(place: &[u8]) -> Option<OriginFault>
    ensures { result ≡ place_fault place.now }
{
    if has_path(place) {
        Some(OriginFault::Behind)
    } else if has_bad_letter(place) {
        Some(OriginFault::BadLetter)
    } else if has_no_host(place) {
        Some(OriginFault::NoHost)
    } else if is_port(behind_host(place)) {
        None
    } else {
        Some(OriginFault::BadPort)
    }
}

// Whether it begins with a small letter.
fn begins_small(origin: &[u8]) -> bool
    ensures { result ≡ begins_small origin.now }
{
    match origin.first() {
        Some(first) => first.is_ascii_lowercase(),
        None => false,
    }
}

// What is wrong with an origin that has no upper-case letter.
fn scheme_fault(origin: &[u8]) -> Option<OriginFault>
    ensures { result ≡ scheme_fault origin.now }
{
    if !begins_small(origin) {
        return Some(OriginFault::NoScheme);
    }
    match behind_scheme(origin).strip_prefix(b"://") {
        Some(place) => place_fault(place),
        None => Some(OriginFault::NoScheme),
    }
}

/// Why no browser writes that as an origin, if it is so. A browser writes `null`, or a scheme, a host and
/// perhaps a port, as `https://app.example:8443`: in small letters, and with nothing behind it.
pub fn origin_fault(origin: &str) -> Option<OriginFault>
    ensures { result ≡ origin_fault origin.now }
{
    if origin == "null" {
        None
    } else if has_upper_case(origin.as_bytes()) {
        Some(OriginFault::UpperCase)
    } else {
        scheme_fault(origin.as_bytes())
    }
}

// ---- which handshakes are of another protocol

// Whether a parameter of a query names a database.
fn names_database(parameter: &str) -> bool
    ensures { result ≡ starts_with is_same parameter.now (codes "ns=") }
{
    parameter.starts_with("ns=")
}

// Whether a parameter of a query is one that a Firebase SDK gives: the version of its protocol, or the name
// of a database.
fn is_sdk_parameter(parameter: &str) -> bool
    ensures { result ≡ is_sdk_parameter parameter.now }
{
    parameter == "v=5" || names_database(parameter)
}

// Whether a query has such a parameter.
fn is_sdk_query(query: &str) -> bool
    ensures { result ≡ is_sdk_query query.now }
{
    for parameter in query.split('&') {
        if is_sdk_parameter(parameter) {
            return true;
        }
    }
    false
}

/// Whether a handshake that asks for that path, with that query, is one of a Firebase SDK, which speaks
/// another protocol.
pub(crate) fn is_of_sdk(path: &str, query: Option<&str>) -> bool
    ensures { result ≡ is_of_sdk path.now (option_map (λ q. q.now) query.entry) }
{
    match query {
        Some(query) => path == "/.ws" && is_sdk_query(query),
        None => false,
    }
}
