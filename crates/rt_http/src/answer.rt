// The bytes of an answer.
ghost use Rattle.std.specs.Prelude.{◌≡◌, ◌++◌, OnOk, if◌then◌else◌, decimal, codes, option_copied, ◌≤◌, ◌⊎◌};
ghost use Rattle.std.specs.Prelude.{IfOk, IfErr, IfSome, Ok, Err, Some, None, string_bytes, ◌∷◌, [], true};
ghost use Rattle.json.specs.Layout.{pretty};
ghost use Rattle.json.specs.Lex.{tokens};
ghost use Rattle.serde_json.specs.Data.{depth};
ghost use Rattle.serde_json.specs.Read.{max_depth, read};
ghost use Rattle.serde_json.specs.View.{view};
ghost use Rattle.serde_json.specs.Written.{compact_text};
ghost use Rattle.rt_http.specs.Answers.{allowed, answer_bytes, answer_fields, answer_head, field_bytes};
ghost use Rattle.rt_http.specs.Answers.{going_on, line_bytes, file_fields, file_head, origin_fields};
ghost use Rattle.rt_http.specs.Answers.{page_fields};
ghost use Rattle.rt_http.specs.Statuses.{line_of, status_of};
ghost use Rattle.rt_tree.specs.Writing.{data_of};
ghost use Rattle.rt_http.specs.Faults.{words_of};
ghost use Rattle.rt_http.specs.Shallow.{shallow_of};
ghost use Rattle.rt_http.specs.Refusals.{refusal_words};
ghost use Rattle.rt_http.specs.Messages.{done_for, object_with, refused_for, reply_of, shown_for, child_of};
ghost use Rattle.rt_http.specs.Messages.{message_of, wanted_of, write_of};
ghost use Rattle.rt_tree.specs.Leaf.{truth};
ghost use Rattle.rt_tree.specs.Trees.{of_leaf, put};

use crate::ask::Ask;
use crate::fault::{Fault, Refusal};
use rt_query::Query;
use rt_tree::{Key, Leaf, Path, Tree, TreeError};
use rt_wire::{Action, Asked, ClientMessage, ServerMessage};
use serde_json::Value;
use std::alloc::{AllocError, Global};
use std::slice::from_ref;

/// What a request that waits to send its body is told: 100, go on.
pub const GO_ON: &str = "HTTP/1.1 100 Continue\r\n\r\n";

// The methods that are there.
const METHODS: &str = "GET, HEAD, PUT, PATCH, POST, DELETE";

// Puts a text behind the bytes.
fn put(out: &mut Vec<u8>, text: &str) -> Result<(), AllocError>
    ensures { OnOk result (out.new.items ≡ out.old.items ++ text.now) }
{
    out.extend_from_slice(text.as_bytes())
}

// Puts the first line behind them.
#[tactic(auto, unfolding(crate::specs::Answers::line_bytes))]
fn put_line(out: &mut Vec<u8>, status: Status) -> Result<(), AllocError>
    ensures { OnOk result (out.new.items ≡ out.old.items ++ line_bytes status) }
{
    put(out, "HTTP/1.1 ")?;
    put(out, status.line())?;
    put(out, "\r\n")
}

// Puts a field behind them.
#[tactic(auto, unfolding(crate::specs::Answers::field_bytes))]
fn put_value(out: &mut Vec<u8>, name: &str, value: &[u8]) -> Result<(), AllocError>
    ensures { OnOk result (out.new.items ≡ out.old.items ++ field_bytes (name.now, value.now)) }
{
    put(out, name)?;
    put(out, ": ")?;
    out.extend_from_slice(value)?;
    put(out, "\r\n")
}

// Puts a field behind them whose value is a text.
fn put_field(out: &mut Vec<u8>, name: &str, value: &str) -> Result<(), AllocError>
    ensures { OnOk result (out.new.items ≡ out.old.items ++ field_bytes (name.now, value.now)) }
{
    put_value(out, name, value.as_bytes())
}

// Puts the length of a body behind them.
fn put_length(out: &mut Vec<u8>, length: usize) -> Result<(), AllocError>
    ensures { OnOk result (out.new.items ≡ out.old.items
        ++ field_bytes (codes "Content-Length", decimal length)) }
{
    let digits = length.to_string(*out.allocator())?;
    put_field(out, "Content-Length", digits.as_str())
}

// Puts the methods or the version that there is behind them, where a request is refused for its own.
fn put_allowed(out: &mut Vec<u8>, status: Status) -> Result<(), AllocError>
    ensures { OnOk result (out.new.items ≡ out.old.items ++ allowed status) }
{
    match status {
        Status::MethodNotAllowed => put_field(out, "Allow", METHODS),
        Status::ReadOnly => put_field(out, "Allow", "GET, HEAD"),
        Status::UpgradeRequired => put_field(out, "Sec-WebSocket-Version", "13"),
        Status::Okay
        | Status::BadRequest
        | Status::Unauthorized
        | Status::Forbidden
        | Status::NotFound
        | Status::PayloadTooLarge
        | Status::ExpectationFailed
        | Status::FieldsTooLarge
        | Status::NotImplemented
        | Status::Unavailable
        | Status::VersionNotSupported => Ok(()),
    }
}

// What is said of the connection.
fn going_on(is_kept: bool) -> &'static str
    ensures { result.now ≡ going_on is_kept }
{
    if is_kept { "keep-alive" } else { "close" }
}

// Puts the fields of an answer behind them, whose body has so many bytes.
fn put_fields(out: &mut Vec<u8>, is_kept: bool, size: usize) -> Result<(), AllocError>
    ensures { OnOk result (out.new.items ≡ out.old.items ++ answer_fields is_kept size) }
{
    put_field(out, "Content-Type", "application/json; charset=utf-8")?;
    put_field(out, "Cache-Control", "no-cache")?;
    put_length(out, size)?;
    put_field(out, "Connection", going_on(is_kept))
}

// Puts what lets a script of a page of that origin ask and read the answer behind them.
fn put_origin_fields(out: &mut Vec<u8>, origin: &[u8]) -> Result<(), AllocError>
    ensures { OnOk result (out.new.items ≡ out.old.items ++ origin_fields origin.now) }
{
    put_value(out, "Access-Control-Allow-Origin", origin)?;
    put_field(out, "Access-Control-Allow-Methods", METHODS)?;
    put_field(out, "Access-Control-Allow-Headers", "Content-Type")?;
    put_field(out, "Vary", "Origin")
}

// Puts the same behind them, where a page asks.
fn put_page(out: &mut Vec<u8>, page: Option<&[u8]>) -> Result<(), AllocError>
    ensures { OnOk result (out.new.items ≡ out.old.items ++ page_fields (option_copied page.entry)) }
{
    match page {
        None => Ok(()),
        Some(origin) => put_origin_fields(out, origin),
    }
}

// Puts the head of an answer behind them, whose body has so many bytes.
fn put_head(
    out: &mut Vec<u8>,
    status: Status,
    is_kept: bool,
    page: Option<&[u8]>,
    size: usize,
) -> Result<(), AllocError>
    ensures { OnOk result (out.new.items ≡ out.old.items
        ++ answer_head status is_kept (option_copied page.entry) size) }
{
    put_line(out, status)?;
    put_fields(out, is_kept, size)?;
    put_page(out, page)?;
    put_allowed(out, status)?;
    put(out, "\r\n")
}

/// Puts an answer behind the bytes: its status, whether the connection goes on, the origin of a page whose
/// scripts may read it, and a body of JSON, which is left out where the answer is to be bare.
///
/// # Errors
///
/// Want of memory; a part of the answer may stand there then.
pub fn put_answer(
    out: &mut Vec<u8>,
    status: Status,
    is_kept: bool,
    is_bare: bool,
    page: Option<&[u8]>,
    body: &str,
) -> Result<(), AllocError>
    ensures { OnOk result (out.new.items
        ≡ out.old.items ++ answer_bytes status is_kept is_bare (option_copied page.entry) body.now) }
{
    put_head(out, status, is_kept, page, body.len())?;
    if is_bare { Ok(()) } else { put(out, body) }
}

// Puts the fields of a file behind them.
fn put_file_fields(
    out: &mut Vec<u8>,
    kind: &str,
    size: usize,
    is_kept: bool,
) -> Result<(), AllocError>
    ensures { OnOk result (out.new.items ≡ out.old.items ++ file_fields kind.now size is_kept) }
{
    put_field(out, "Content-Type", kind)?;
    put_field(out, "X-Content-Type-Options", "nosniff")?;
    put_field(out, "Cache-Control", "no-cache")?;
    put_length(out, size)?;
    put_field(out, "Connection", going_on(is_kept))
}

/// Puts the head of a file behind the bytes: its media type, how many bytes it has, and whether the
/// connection goes on. The file itself comes behind it.
///
/// # Errors
///
/// Want of memory; a part of the head may stand there then.
pub fn put_file_head(
    out: &mut Vec<u8>,
    kind: &str,
    size: usize,
    is_kept: bool,
) -> Result<(), AllocError>
    ensures { OnOk result (out.new.items ≡ out.old.items ++ file_head kind.now size is_kept) }
{
    put_line(out, Status::Okay)?;
    put_file_fields(out, kind, size, is_kept)?;
    put(out, "\r\n")
}

// ---- what became of a request, as the first line of its answer says it

/// What became of a request.
#[derive(Clone, Copy)]
pub enum Status {
    /// 200: it is done.
    Okay,
    /// 400: it says nothing that can be done.
    BadRequest,
    /// 401: the path is denied.
    Unauthorized,
    /// 403: a page of that origin, or a request to that host, is not let in.
    Forbidden,
    /// 404: nothing is there.
    NotFound,
    /// 405: it is done by another method, or by none.
    MethodNotAllowed,
    /// 405: it can only be read.
    ReadOnly,
    /// 413: its body is too long.
    PayloadTooLarge,
    /// 417: it expects what this server doesn't do.
    ExpectationFailed,
    /// 426: it is a handshake of another version of WebSockets.
    UpgradeRequired,
    /// 431: its head is too long.
    FieldsTooLarge,
    /// 501: it wants what this server doesn't have.
    NotImplemented,
    /// 503: memory lacks.
    Unavailable,
    /// 505: the version is another one.
    VersionNotSupported,
}

impl Status {
    /// The number and its words, as the first line of an answer has them.
    pub fn line(self) -> &'static str
        ensures { result.now ≡ line_of self }
    {
        match self {
            Status::Okay => "200 OK",
            Status::BadRequest => "400 Bad Request",
            Status::Unauthorized => "401 Unauthorized",
            Status::Forbidden => "403 Forbidden",
            Status::NotFound => "404 Not Found",
            Status::MethodNotAllowed => "405 Method Not Allowed",
            Status::ReadOnly => "405 Method Not Allowed",
            Status::PayloadTooLarge => "413 Content Too Large",
            Status::ExpectationFailed => "417 Expectation Failed",
            Status::UpgradeRequired => "426 Upgrade Required",
            Status::FieldsTooLarge => "431 Request Header Fields Too Large",
            Status::NotImplemented => "501 Not Implemented",
            Status::Unavailable => "503 Service Unavailable",
            Status::VersionNotSupported => "505 HTTP Version Not Supported",
        }
    }

    /// What becomes of a request that is refused so.
    pub fn of(refusal: Refusal) -> Status
        ensures { result ≡ status_of refusal }
    {
        match refusal {
            Refusal::Malformed => Status::BadRequest,
            Refusal::NoHandshake => Status::BadRequest,
            Refusal::OtherVersion => Status::UpgradeRequired,
            Refusal::TooLong => Status::PayloadTooLarge,
            Refusal::Expectation => Status::ExpectationFailed,
            Refusal::HeadTooLong => Status::FieldsTooLarge,
            Refusal::Coding => Status::NotImplemented,
            Refusal::Version => Status::VersionNotSupported,
            Refusal::NoMemory => Status::Unavailable,
        }
    }
}

// ---- what a request is answered once a peer has answered

/// What is answered to `/healthz`.
pub const HEALTHY: &str = "{\"status\":\"ok\"}";

// The object with that one text, which has nothing to escape.
fn object_with(alloc: Global, name: &str, value: &str) -> Result<String, AllocError>
    ensures { IfOk result (λ object. string_bytes object ≡ object_with name.now value.now) }
{
    let mut object = String::new(alloc);
    object.push_str("{\"")?;
    object.push_str(name)?;
    object.push_str("\":\"")?;
    object.push_str(value)?;
    object.push_str("\"}")?;
    Ok(object)
}

/// What is answered where a request is refused for what it asks.
pub fn error_text(alloc: Global, fault: Fault) -> Result<String, AllocError>
    ensures { IfOk result (λ text. string_bytes text ≡ object_with (codes "error") (words_of fault)) }
{
    object_with(alloc, "error", fault.words())
}

/// What is answered where bytes are no request that is taken.
pub fn refusal_text(alloc: Global, refusal: Refusal) -> Result<String, AllocError>
    ensures { IfOk result (λ text.
        string_bytes text ≡ object_with (codes "error") (refusal_words refusal)) }
{
    object_with(alloc, "error", refusal.words())
}

// The text of a tree cut to its children.
fn shallow_text(alloc: Global, tree: &Tree) -> Result<String, Fault>
    ensures text { IfOk result (λ text. string_bytes text ≡ compact_text (data_of (shallow_of tree.now))) }
    ensures memory { IfErr result (λ e. e ≡ Fault.NoMemory) }
{
    let shallow = shallow_of(alloc, tree)?;
    match shallow.text(alloc) {
        Ok(text) => Ok(text),
        Err(_) => Err(Fault::NoMemory),
    }
}

// What is shown.
fn shown_for(alloc: Global, wanted: Wanted, tree: &Tree) -> Result<String, Fault>
    ensures ok { IfOk result (λ text. shown_for wanted tree.now ≡ Ok (string_bytes text)) }
    ensures fault { IfErr result (λ e. (shown_for wanted tree.now ≡ Err e) ⊎ (e ≡ Fault.NoMemory)) }
{
    match wanted {
        Wanted::Tree => Ok(tree.text(alloc)?),
        Wanted::Shallow => shallow_text(alloc, tree),
        Wanted::Body | Wanted::Name | Wanted::Null => Err(Fault::NoAnswer),
    }
}

// What was done, with that body, under that key.
fn done_for(alloc: Global, wanted: Wanted, body: &str, key: &str) -> Result<String, Fault>
    ensures ok { IfOk result (λ text. done_for wanted body.now key.now ≡ Ok (string_bytes text)) }
    ensures fault { IfErr result (λ e. (done_for wanted body.now key.now ≡ Err e) ⊎ (e ≡ Fault.NoMemory)) }
{
    match wanted {
        Wanted::Tree | Wanted::Shallow => Err(Fault::NoAnswer),
        Wanted::Body => Ok(String::from_str(alloc, body)?),
        Wanted::Name => Ok(object_with(alloc, "name", key)?),
        Wanted::Null => Ok(String::from_str(alloc, "null")?),
    }
}

// Why it is refused, by the peer's word.
fn refused_for(why: &str) -> Fault
    ensures { result ≡ refused_for why.now }
{
    if why == "denied" {
        Fault::Denied
    } else {
        Fault::Overlap
    }
}

/// What is answered to a request with that body, and under that new key, once the peer has sent the message.
///
/// # Errors
///
/// `Denied` and `Overlap` as the peer refuses it, `NoAnswer` where the message answers no such request,
/// `NoMemory` where memory lacks.
pub fn reply_of(
    alloc: Global,
    wanted: Wanted,
    body: &str,
    key: &str,
    message: &ServerMessage,
) -> Result<String, Fault>
    ensures ok { IfOk result (λ text. reply_of wanted body.now key.now message.now ≡ Ok (string_bytes text)) }
    ensures fault { IfErr result (λ e. (reply_of wanted body.now key.now message.now ≡ Err e)
        ⊎ (e ≡ Fault.NoMemory)) }
{
    match message {
        ServerMessage::Data { tree, .. } => shown_for(alloc, wanted, tree),
        ServerMessage::Accepted { .. } => done_for(alloc, wanted, body, key),
        ServerMessage::Refused { why, .. } | ServerMessage::Revoked { why, .. } => {
            Err(refused_for(why.text()))
        }
        ServerMessage::DataMerge { .. } | ServerMessage::Push { .. } => Err(Fault::NoAnswer),
    }
}

// A JSON value, laid out for a reader.
fn pretty_of(alloc: Global, value: Value) -> Result<String, Fault>
    ensures layout { IfOk result (λ out. string_bytes out ≡ pretty (tokens (string_bytes out))) }
    ensures same { IfOk result (λ out. depth (view value) ≤ max_depth
        → read (string_bytes out) ≡ Some (view value)) }
    ensures memory { IfErr result (λ e. e ≡ Fault.NoMemory) }
{
    Ok(value.to_string_pretty(alloc)?)
}

/// A JSON text, laid out for a reader: it is read as the same.
///
/// # Errors
///
/// `NoMemory` where memory lacks, and `NoAnswer` where the text is no JSON.
pub fn laid_out(alloc: Global, text: &str) -> Result<String, Fault>
    ensures layout { IfOk result (λ out. string_bytes out ≡ pretty (tokens (string_bytes out))) }
    ensures same { IfOk result (λ out. IfSome (read text.now)
        (λ d. depth d ≤ max_depth → read (string_bytes out) ≡ Some d)) }
    ensures fault { IfErr result (λ e. (e ≡ Fault.NoMemory) ⊎ (read text.now ≡ None)) }
{
    match Value::from_str(alloc, text) {
        Ok(value) => pretty_of(alloc, value),
        Err(error) if error.is_memory() => Err(Fault::NoMemory),
        Err(_) => Err(Fault::NoAnswer),
    }
}

// ---- a tree cut to its children

// Puts `true` at a key of a tree.
fn put_true(alloc: Global, tree: &mut Tree, key: &Key) -> Result<(), Fault>
    ensures put { OnOk result (tree.new ≡ put tree.old (key.now ∷ []) (of_leaf (truth true))) }
    ensures memory { IfErr result (λ e. e ≡ Fault.NoMemory) }
{
    let Ok(path) = Path::from_keys(alloc, from_ref(key)) else {
        return Err(Fault::NoMemory);
    };
    match tree.put(alloc, &path, Tree::leaf(Leaf::truth(true))) {
        Ok(()) => Ok(()),
        Err(_) => Err(Fault::NoMemory),
    }
}

/// The tree with `true` for each child; a leaf as it is.
pub(crate) fn shallow_of(alloc: Global, tree: &Tree) -> Result<Tree, Fault>
    ensures shallow { IfOk result (λ shallow. shallow ≡ shallow_of tree.now) }
    ensures memory { IfErr result (λ e. e ≡ Fault.NoMemory) }
{
    let Some(children) = tree.children() else {
        return Ok(tree.copy(alloc)?);
    };
    let mut shallow = Tree::null();
    for (key, _) in children {
        put_true(alloc, &mut shallow, key)?;
    }
    Ok(shallow)
}

// ---- what a peer is asked for a request

/// The tag of a request that reads, and the number of one that writes: a connection has no other.
pub const ONLY: u64 = 1;

/// What a request is answered, once it is accepted.
#[derive(Clone, Copy)]
pub enum Wanted {
    /// What is there.
    Tree,
    /// What is there, cut to its children.
    Shallow,
    /// What it has written.
    Body,
    /// The key that it has written under.
    Name,
    /// `null`.
    Null,
}

// The message that sets a tree at a path.
fn write_of(path: Path, tree: Tree) -> ClientMessage
    ensures { result ≡ write_of path tree }
{
    ClientMessage::Ask {
        id: ONLY,
        asked: Asked::Now(Action::Put { path, tree }),
    }
}

// The path one key further down.
fn child_of(path: &Path, key: &Key) -> Result<Path, Fault>
    ensures ok { IfOk result (λ child. child_of path.now key.now ≡ Ok child) }
    ensures fault { IfErr result (λ e. (child_of path.now key.now ≡ Err e) ⊎ (e ≡ Fault.NoMemory)) }
{
    match path.child(key) {
        Ok(child) => Ok(child),
        Err(TreeError::NoMemory) => Err(Fault::NoMemory),
        Err(error) => Err(Fault::Path(error)),
    }
}

impl Ask {
    /// What it is answered once it is accepted; none where no peer is asked.
    pub fn wanted(&self) -> Option<Wanted>
        ensures { result ≡ wanted_of self.now }
    {
        match self {
            Ask::Health => None,
            Ask::Read(_) => Some(Wanted::Tree),
            Ask::Look(_) => Some(Wanted::Shallow),
            Ask::Put(_, _) => Some(Wanted::Body),
            Ask::Merge(_) => Some(Wanted::Body),
            Ask::Push(_, _) => Some(Wanted::Name),
            Ask::Remove(_) => Some(Wanted::Null),
        }
    }

    /// The message that asks a peer for it, where a new key is this one; none where no peer is asked.
    ///
    /// # Errors
    ///
    /// `Path` where a new key would stand too deep; `NoMemory` where memory lacks.
    pub fn message(self, key: &Key) -> Result<Option<ClientMessage>, Fault>
        ensures ok { IfOk result (λ message. message_of self key.now ≡ Ok message) }
        ensures fault { IfErr result (λ e. (message_of self key.now ≡ Err e) ⊎ (e ≡ Fault.NoMemory)) }
    {
        match self {
            Ask::Health => Ok(None),
            Ask::Read(query) => Ok(Some(ClientMessage::Listen { tag: ONLY, query })),
            Ask::Look(path) => Ok(Some(ClientMessage::Listen {
                tag: ONLY,
                query: Query::at(path).done(),
            })),
            Ask::Put(path, tree) => Ok(Some(write_of(path, tree))),
            Ask::Merge(entries) => Ok(Some(ClientMessage::Ask {
                id: ONLY,
                asked: Asked::Now(Action::Merge { entries }),
            })),
            Ask::Push(path, tree) => {
                let path = child_of(&path, key)?;
                Ok(Some(write_of(path, tree)))
            }
            Ask::Remove(path) => Ok(Some(write_of(path, Tree::null()))),
        }
    }
}
