// Which web pages may connect.
ghost use Rattle.std.specs.Prelude.{◌≡◌, ◌&&◌, [], map, string_bytes, option_copied, IfOk};
ghost use Rattle.std.specs.Char.{is_ascii_digit};
ghost use Rattle.std.specs.List.{list_all, list_any};
ghost use Rattle.std.specs.Option.{is_none, option_map};
ghost use Rattle.std.specs.Result.{result_ok};
ghost use Rattle.std.specs.Str.{bytes_eq};
ghost use Rattle.http.specs.Response.{body_of, head_of};
ghost use Rattle.rt_socket.specs.Handshakes.{IsAnswer, IsAnswered, IsAnsweredBy, origins_of, page_refusal};
ghost use Rattle.rt_socket.specs.Handshakes.{refusal_of, shown};
ghost use Rattle.rt_socket.specs.Origins.{allows, is_local, is_page_of, is_port, may_connect, visible_in};
ghost use Rattle.rt_socket.specs.laws.Examples.{AllowedOnes, LocalOnes, NotAllowedOnes, OtherOnes};

use http::{HeaderValue, Request, Response, StatusCode};
use std::alloc::{AllocError, Global};
use std::marker::Model;
use tungstenite::handshake::server::{Callback, ErrorResponse};

// Whether there are digits alone.
fn are_digits(text: &[u8]) -> bool
    ensures { result ≡ list_all is_ascii_digit text.now }
{
    for byte in text {
        if !byte.is_ascii_digit() {
            return false;
        }
    }
    true
}

/// Whether nothing or a port stands there.
pub fn is_port(text: &[u8]) -> bool
    ensures { result ≡ is_port text.now }
{
    match text.split_first() {
        Some((colon, digits)) => *colon == b':' && !digits.is_empty() && are_digits(digits),
        None => true,
    }
}

/// Whether an origin is a page of that place, at any port.
pub fn is_page_of(place: &str, origin: &str) -> bool
    ensures { result ≡ is_page_of place.now origin.now }
{
    match origin.as_bytes().strip_prefix(place.as_bytes()) {
        Some(port) => is_port(port),
        None => false,
    }
}

// Whether an origin, as a browser writes it, is a page of this machine.
fn is_local(origin: &str) -> bool
    ensures { result ≡ is_local origin.now }
{
    is_page_of("http://localhost", origin)
        || is_page_of("https://localhost", origin)
        || is_page_of("http://127.0.0.1", origin)
        || is_page_of("https://127.0.0.1", origin)
        || is_page_of("http://[::1]", origin)
        || is_page_of("https://[::1]", origin)
}

// Whether an origin is one of those that are allowed.
fn is_among(origin: &str, allowed: &[String]) -> bool
    ensures { result ≡ list_any (λ one. bytes_eq one origin.now) (map string_bytes allowed.now) }
{
    for one in allowed {
        if one.as_str() == origin {
            return true;
        }
    }
    false
}

/// Whether a page of that origin may connect: it is of this machine, or one of those that are allowed.
pub fn may_connect(origin: &str, allowed: &[String]) -> bool
    ensures { result ≡ may_connect origin.now (map string_bytes allowed.now) }
{
    is_local(origin) || is_among(origin, allowed)
}

// The text of an origin, if a browser may write it so.
fn text_of(origin: &HeaderValue) -> Option<&str>
    ensures { option_copied result ≡ visible_in origin.now.bytes }
{
    match origin.to_str() {
        Ok(text) => Some(text),
        Err(_) => None,
    }
}

// An origin as its page is told it.
fn shown(origin: Option<&HeaderValue>) -> &str
    ensures { result.now ≡ shown (option_map (λ o. o.now.bytes) origin.entry) }
{
    match origin {
        Some(origin) => match text_of(origin) {
            Some(text) => text,
            None => "that",
        },
        None => "that",
    }
}

/// The pages of other machines that may connect, for one handshake.
pub struct Origins {
    alloc: Global,
    allowed: Vec<String>,
}

impl Drop for Origins {
    fn drop(self) {
        let Origins {
            alloc: _,
            allowed: _,
        } = self;
    }
}

impl Model for Origins {
    ghost use Rattle.std.specs.Prelude.{List, ℕ, map, string_bytes};

    ghost Value = { List (List ℕ) };

    ghost view = { λ o. map string_bytes o.allowed.items };
}

impl Origins {
    /// Pages of this machine alone, for one handshake.
    pub fn local(alloc: Global) -> Origins
        ensures { result ≡ [] }
    {
        Origins {
            alloc,
            allowed: Vec::new(alloc),
        }
    }

    /// The origins that are allowed, for one handshake more.
    ///
    /// # Errors
    ///
    /// Where memory lacks.
    pub fn of(alloc: Global, allowed: &[String]) -> Result<Origins, AllocError>
        ensures { IfOk result (λ o. o ≡ map string_bytes allowed.now) }
    {
        let mut all = Vec::with_capacity(alloc, allowed.len())?;
        for one in allowed {
            all.push(String::from_str(alloc, one.as_str())?)?;
        }
        Ok(Origins {
            alloc,
            allowed: all,
        })
    }

    // Whether a handshake with that origin comes about. One that names none is of no web page.
    fn allows(&self, origin: Option<&HeaderValue>) -> bool
        ensures { result ≡ allows self.now (option_map (λ o. o.now.bytes) origin.entry) }
    {
        match origin {
            None => true,
            Some(origin) => match text_of(origin) {
                Some(text) => may_connect(text, self.allowed.as_slice()),
                None => false,
            },
        }
    }

    // Whether a handshake comes about that names this origin first, and then that one.
    fn allows_one(&self, first: Option<&HeaderValue>, second: Option<&HeaderValue>) -> bool
        ensures { result ≡ (is_none second.entry && allows self.now (option_map (λ o. o.now.bytes) first.entry)) }
    {
        match second {
            None => self.allows(first),
            Some(_) => false,
        }
    }

    /// What is answered to a handshake that doesn't come about, with that status: a text, where there was
    /// memory for it.
    pub fn answer(&self, status: StatusCode, why: Result<String, AllocError>) -> ErrorResponse
        ensures status { (head_of result).status ≡ status }
        ensures why { body_of result ≡ result_ok why }
    {
        let mut answer = Response::new(self.alloc, why.ok());
        *answer.status_mut() = status;
        answer
    }

    // What a page that is refused is answered.
    fn refusal(&self, origin: Option<&HeaderValue>) -> ErrorResponse
        ensures { IsAnswer (page_refusal (option_map (λ o. o.now.bytes) origin.entry)) result }
    {
        let origin = shown(origin);
        let why = format!(in self.alloc; "a page of {origin} may not connect");
        self.answer(StatusCode::FORBIDDEN, why)
    }

    /// What is answered to a handshake, if it doesn't come about.
    pub fn refused(&self, request: &Request<()>) -> Option<ErrorResponse>
        ensures { IsAnswered (refusal_of (origins_of request.now) self.now) result }
    {
        let mut origins = request.headers().get_all("origin").into_iter();
        let first = origins.next();
        if self.allows_one(first, origins.next()) {
            None
        } else {
            Some(self.refusal(first))
        }
    }
}

impl Callback for Origins {
    fn on_request(
        self,
        request: &Request<()>,
        response: Response<()>,
    ) -> Result<Response<()>, ErrorResponse>
        ensures { IsAnsweredBy (refusal_of (origins_of request.now) self) response result }
    {
        match self.refused(request) {
            None => Ok(response),
            Some(answer) => Err(answer),
        }
    }
}

// ---- worked rows

/// Pages of this machine may connect, at any port, and those that are allowed; no others.
pub fn origin_examples()
    ensures local { LocalOnes }
    ensures others { OtherOnes }
    ensures allowed { AllowedOnes }
    ensures not_allowed { NotAllowedOnes }
{}
