// Why a request is refused for what it asks.
ghost use Rattle.std.specs.Prelude.{◌≡◌};
ghost use Rattle.rt_http.specs.Faults.{fault_status, lack_words, tree_words, words_of};
ghost use Rattle.rt_http.specs.Refusals.{refusal_words};

use crate::answer::Status;
use crate::head::Unsupported;
use rt_tree::TreeError;
use std::alloc::{AllocError, AllocFailed};

/// Why a request is refused for what it asks.
#[derive(Clone, Copy, Debug)]
pub enum Fault {
    /// Its path is none of those that there are.
    NotFound,
    /// Its method is none of those that there are for its path.
    Method,
    /// It is no place of the tree, so it can only be read.
    ReadOnly,
    /// The file there has more bytes than are served.
    FileTooLarge,
    /// It wants what this server doesn't have.
    Lacks(Unsupported),
    /// The escapes of its path make no UTF-8.
    PathNoText,
    /// A path, in the target or as a name of an update, is none.
    Path(TreeError),
    /// A word of the query is none of those that there are.
    UnknownWord,
    /// The value of a word of the query is none that it has.
    BadWord,
    /// The query has a bound or a limit, and no order.
    NoOrder,
    /// A tree is to be cut to its children, and filtered too.
    Mixed,
    /// The body is no UTF-8.
    BodyNoText,
    /// The body, or a value of an update, is no tree.
    Body(TreeError),
    /// The body of an update is no object.
    NoObject,
    /// Its host is none of this machine: 403.
    Host,
    /// It is of a web page that may not ask: 403.
    Page,
    /// A path is denied.
    Denied,
    /// Two values of an update overlap, or one would stand too deep.
    Overlap,
    /// What is there has more values than one answer.
    TooLarge,
    /// What was sent for it answers no such request.
    NoAnswer,
    /// A growth was refused.
    NoMemory,
}

// What is wrong with a path or a tree.
fn tree_words(error: TreeError) -> &'static str
    ensures { result.now ≡ tree_words error }
{
    match error {
        TreeError::BadKey => {
            "a key must have at least one byte, and no control character and none of . $ # [ ] /"
        }
        TreeError::KeyTooLong => "a key must have at most 768 bytes",
        TreeError::TooDeep => "a path must have at most 32 keys, and no value may stand deeper",
        TreeError::NotWhole => {
            "a number must be whole, from -9007199254740991 to 9007199254740991"
        }
        TreeError::TextTooLong => "a text must have at most 65536 bytes",
        TreeError::TooManyNodes => "a tree that is read must have at most 65536 values",
        TreeError::NotJson => "Invalid data; couldn't parse JSON object, array, or value.",
        TreeError::NoMemory => "out of memory",
    }
}

// What isn't there.
fn lack_words(lack: Unsupported) -> &'static str
    ensures { result.now ≡ lack_words lack }
{
    match lack {
        Unsupported::Events => "this server streams no events: ask again, or connect a WebSocket",
        Unsupported::Etags =>
            "this server has no etags: X-Firebase-ETag and If-Match can't be used",
        Unsupported::Login => {
            "this server has no login: leave out Authorization, auth and access_token"
        }
        Unsupported::Override => "this server reads no X-HTTP-Method-Override",
    }
}

impl Fault {
    /// What becomes of the request.
    pub fn status(self) -> Status
        ensures { result ≡ fault_status self }
    {
        match self {
            Fault::NotFound => Status::NotFound,
            Fault::Method => Status::MethodNotAllowed,
            Fault::ReadOnly => Status::ReadOnly,
            Fault::FileTooLarge => Status::NotFound,
            Fault::Lacks(_) => Status::NotImplemented,
            Fault::PathNoText => Status::BadRequest,
            Fault::Path(_) => Status::BadRequest,
            Fault::UnknownWord => Status::BadRequest,
            Fault::BadWord => Status::BadRequest,
            Fault::NoOrder => Status::BadRequest,
            Fault::Mixed => Status::BadRequest,
            Fault::BodyNoText => Status::BadRequest,
            Fault::Body(_) => Status::BadRequest,
            Fault::NoObject => Status::BadRequest,
            Fault::Host => Status::Forbidden,
            Fault::Page => Status::Forbidden,
            Fault::Denied => Status::Unauthorized,
            Fault::Overlap => Status::BadRequest,
            Fault::TooLarge => Status::BadRequest,
            Fault::NoAnswer => Status::Unavailable,
            Fault::NoMemory => Status::Unavailable,
        }
    }

    /// What is wrong, for whoever asked; in Firebase's words, where it has any.
    pub fn words(self) -> &'static str
        ensures { result.now ≡ words_of self }
    {
        match self {
            Fault::NotFound => "nothing is here: a place of the tree ends with .json",
            Fault::Method => "this method can't be used here",
            Fault::ReadOnly => "what is here can only be read, by GET and HEAD",
            Fault::FileTooLarge => "the file here has more than 67108864 bytes",
            Fault::Lacks(lack) => lack_words(lack),
            Fault::PathNoText => "Invalid path: its escapes make no UTF-8",
            Fault::Path(error) => tree_words(error),
            Fault::UnknownWord => "this server doesn't know a word of the query",
            Fault::BadWord => "a word of the query has a value that it can't have",
            Fault::NoOrder => "orderBy must be defined when other query parameters are defined",
            Fault::Mixed => "Mixing 'shallow=true' with querying parameters is not supported",
            Fault::BodyNoText => "Invalid data; the body is no UTF-8",
            Fault::Body(error) => tree_words(error),
            Fault::NoObject => {
                "Invalid data; couldn't parse JSON object. Are you sending a JSON object with valid key names?"
            }
            Fault::Host => "this server isn't reached by this host name",
            Fault::Page => "a page of this origin may not ask",
            Fault::Denied => "Permission denied",
            Fault::Overlap => "two values of an update overlap, or one would stand too deep",
            Fault::TooLarge => {
                "Data requested exceeds the maximum size that can be accessed with a single request"
            }
            Fault::NoAnswer => "there was no answer",
            Fault::NoMemory => "out of memory",
        }
    }
}

impl From<AllocError> for Fault {
    ghost use Rattle.rt_http.specs.declared.fault.Fault.TheVariants.{NoMemory};

    ghost from_gives = { λ _ e. e ≡ NoMemory };

    fn from(_error: AllocError) -> Fault {
        Fault::NoMemory
    }
}

impl<T: Drop> From<AllocFailed<T>> for Fault {
    ghost use Rattle.rt_http.specs.declared.fault.Fault.TheVariants.{NoMemory};

    ghost from_gives = { λ _ e. e ≡ NoMemory };

    fn from(_error: AllocFailed<T>) -> Fault {
        Fault::NoMemory
    }
}

// ---- why a request is refused before it is looked at what it asks for

/// Why bytes are no request that is taken. What follows on the connection is not read.
#[derive(Clone, Copy, Debug)]
pub enum Refusal {
    /// The bytes are no request of HTTP/1.1, whatever may follow: 400.
    Malformed,
    /// It is to become a WebSocket, and is no handshake of one: 400.
    NoHandshake,
    /// It is a handshake of another version of WebSockets than 13: 426.
    OtherVersion,
    /// The body has more bytes than may be sent: 413.
    TooLong,
    /// It is expected to do something else than to let the body come: 417.
    Expectation,
    /// The head has more bytes or more fields than a head may have: 431.
    HeadTooLong,
    /// The body comes in a coding other than in chunks: 501.
    Coding,
    /// The version is none of HTTP/1.0 and HTTP/1.1: 505.
    Version,
    /// A growth was refused: 503.
    NoMemory,
}

impl Refusal {
    /// What is wrong, for whoever asked.
    pub fn words(self) -> &'static str
        ensures { result.now ≡ refusal_words self }
    {
        match self {
            Refusal::Malformed => "this is no request of HTTP/1.1",
            Refusal::NoHandshake => "this is no handshake of a WebSocket",
            Refusal::OtherVersion => "the version of WebSockets here is 13",
            Refusal::TooLong => "the body has more than 16777216 bytes",
            Refusal::Expectation => "nothing can be expected here but 100-continue",
            Refusal::HeadTooLong => "the head has more than 16384 bytes or 64 fields",
            Refusal::Coding => "a body comes as it is, or in chunks",
            Refusal::Version => "the version of HTTP here is 1.1",
            Refusal::NoMemory => "out of memory",
        }
    }
}

impl From<AllocError> for Refusal {
    ghost use Rattle.rt_http.specs.declared.fault.Refusal.TheVariants.{NoMemory};

    ghost from_gives = { λ _ e. e ≡ NoMemory };

    fn from(_error: AllocError) -> Refusal {
        Refusal::NoMemory
    }
}

impl<T: Drop> From<AllocFailed<T>> for Refusal {
    ghost use Rattle.rt_http.specs.declared.fault.Refusal.TheVariants.{NoMemory};

    ghost from_gives = { λ _ e. e ≡ NoMemory };

    fn from(_error: AllocFailed<T>) -> Refusal {
        Refusal::NoMemory
    }
}

// ---- what a request may have: the limits that definitions and code name alike

/// The most bytes that the head of a request has.
pub const MAX_HEAD_BYTES: usize = 16384;

/// The most fields that a head has.
pub const MAX_FIELDS: usize = 64;

/// The most bytes of the line before a chunk.
pub const MAX_CHUNK_LINE: usize = 256;

/// The most fields behind the last chunk.
pub const MAX_TRAILERS: usize = 16;

/// The most bytes of a file that is served.
pub const MAX_FILE_BYTES: usize = 67108864;
