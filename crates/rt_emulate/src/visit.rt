// What a handshake says of who comes.
ghost use Rattle.std.specs.Prelude.{◌≡◌, None, false, option_copied, option_map, string_bytes, IfOk};
ghost use Rattle.std.specs.Option.{option_and_then};
ghost use Rattle.rt_emulate.specs.inside.Rosters.{IsVisit, text_if};

use rt_http::Request;
use std::alloc::{AllocError, Global};
use std::str;

// What is asked for by one that is to be told who is connected.
const CLIENTS: &str = "/?clients";

/// What a handshake says of who comes.
pub(crate) struct Visit {
    /// The origin of its page, if it is one's.
    pub(crate) origin: Option<String>,
    /// Whether it asks who is connected.
    pub(crate) asks: bool,
}

impl Drop for Visit {
    fn drop(self) {
        let Visit { origin: _, asks: _ } = self;
    }
}

// Bytes as a text; none of what is no text.
#[tactic(auto, using(crate::proofs::Texts::is_text, crate::proofs::Texts::is_no_text))]
fn text_if(alloc: Global, bytes: &[u8]) -> Result<Option<String>, AllocError>
    ensures { IfOk result (λ text. option_map string_bytes text ≡ text_if bytes.now) }
{
    match str::from_utf8(bytes) {
        Ok(text) => Ok(Some(String::from_str(alloc, text)?)),
        Err(_) => Ok(None),
    }
}

// The origin of a page as a text.
fn origin_of(alloc: Global, origin: Option<&[u8]>) -> Result<Option<String>, AllocError>
    ensures { IfOk result (λ text.
        option_map string_bytes text ≡ option_and_then text_if (option_copied origin.entry)) }
{
    match origin {
        Some(origin) => text_if(alloc, origin),
        None => Ok(None),
    }
}

impl Visit {
    /// One that says nothing yet.
    pub(crate) fn none() -> Visit
        ensures { result ≡ record { origin = None; asks = false } }
    {
        Visit {
            origin: None,
            asks: false,
        }
    }

    /// What the request of a handshake says, if there is one.
    pub(crate) fn of(alloc: Global, request: Option<&Request>) -> Result<Visit, AllocError>
        ensures { IfOk result (IsVisit (option_copied request.entry)) }
    {
        match request {
            Some(request) => {
                let origin = origin_of(alloc, request.origin())?;
                let asks = request.target() == CLIENTS;
                Ok(Visit { origin, asks })
            }
            None => Ok(Visit::none()),
        }
    }
}
