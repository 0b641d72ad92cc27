// What a request is answered that can't be taken.
ghost use Rattle.std.specs.Prelude.{◌≡◌, ◌⊎◌, codes, Some, None, IfOk, IfErr, OnOk, string_bytes};
ghost use Rattle.std.specs.Option.{option_map};
ghost use Rattle.serde_json.specs.Find.{as_object, as_str, get};
ghost use Rattle.serde_json.specs.View.{view, members_view};
ghost use Rattle.rt_tree.specs.Path.{path_fault};
ghost use Rattle.rt_tree.specs.Reading.{data_fault};
ghost use Rattle.rt_wire.specs.Fields.{field, number_of};
ghost use Rattle.rt_wire.specs.declared.server.ServerMessage.TheVariants.{Refused};
ghost use Rattle.rt_hub.specs.Lines.{text_of};
ghost use Rattle.rt_hub.specs.Refusing.{asks_of, asked_answer, at, entries_wrong, fault_in, has_none};
ghost use Rattle.rt_hub.specs.Refusing.{members_wrong, names_wrong, path_wrong, place_words, reason_words};
ghost use Rattle.rt_hub.specs.Refusing.{refusal_in, refusal_of, text_wrong, tree_wrong, trees_wrong};
ghost use Rattle.rt_hub.specs.Refusing.{unfit_words, value_wrong, wrong_words};
ghost use Rattle.rt_hub.specs.Verdicts.{is_ok, says_ok, verdict_when, when_asked, when_in};
ghost use Rattle.rt_hub.specs.declared.refusal.TheConstants.{MAX_WAITING_BYTES, MAX_WAITING_MESSAGES};

use rt_peer::Sent;
use rt_tree::{Path, TreeError, tree_from_value};
use rt_wire::{Asked, ClientMessage, MAX_NUMBER, Reason, ServerMessage};
use serde_json::Value;
use std::alloc::{AllocError, Global};
use std::collections::BTreeMap;

// What a request asks for.
#[derive(Clone, Copy)]
enum Asks {
    Put,
    Merge,
    Cancel,
}

// Which member of a request is wrong.
#[derive(Clone, Copy)]
enum MemberName {
    Path,
    Value,
    Entries,
}

// What is wrong with a member.
#[derive(Clone, Copy)]
enum Wrong {
    // There is none.
    Missing,
    // It is no text.
    NoText,
    // It is no object with a member.
    NoEntries,
    // It is no path, or no tree.
    Unfit(TreeError),
}

// What is wrong with a request, and where.
#[derive(Clone, Copy)]
struct Fault {
    place: MemberName,
    wrong: Wrong,
}

// What a request of that kind asks for; none where it is no request.
fn asks_of(kind: &str) -> Option<Asks>
    ensures { result ≡ asks_of kind.now }
{
    match kind {
        "put" => Some(Asks::Put),
        "merge" => Some(Asks::Merge),
        "od-put" => Some(Asks::Put),
        "od-merge" => Some(Asks::Merge),
        "od-cancel" => Some(Asks::Cancel),
        _ => None,
    }
}

// Whether a text is a path.
fn check_path(alloc: Global, text: &str) -> Result<(), TreeError>
    ensures ok { OnOk result (path_fault text.now ≡ None) }
    ensures fault { IfErr result (λ e. (path_fault text.now ≡ Some e)
        ⊎ (e ≡ TreeError.NoMemory)) }
{
    let _path = Path::parse(alloc, text)?;
    Ok(())
}

// What is wrong with a text as a path.
fn text_wrong(alloc: Global, text: &str) -> Result<Option<Wrong>, AllocError>
    ensures { IfOk result (λ wrong. wrong ≡ text_wrong text.now) }
{
    match check_path(alloc, text) {
        Ok(()) => Ok(None),
        Err(TreeError::NoMemory) => Err(AllocError),
        Err(
            why @ (TreeError::BadKey
            | TreeError::KeyTooLong
            | TreeError::TooDeep
            | TreeError::NotWhole
            | TreeError::TextTooLong
            | TreeError::TooManyNodes
            | TreeError::NotJson),
        ) => Ok(Some(Wrong::Unfit(why))),
    }
}

// What is wrong with a value as a tree.
fn tree_wrong(alloc: Global, value: &Value) -> Result<Option<Wrong>, AllocError>
    ensures { IfOk result (λ wrong. wrong ≡ tree_wrong (view value.now)) }
{
    match tree_from_value(alloc, value) {
        Ok(_) => Ok(None),
        Err(TreeError::NoMemory) => Err(AllocError),
        Err(why) => Ok(Some(Wrong::Unfit(why))),
    }
}

// The text of the member of that name.
fn text_at<'a>(message: &'a Value, name: &str) -> Option<&'a str>
    ensures { option_map (λ text. text.now) result
        ≡ field as_str name.now (view message.entry.now) }
{
    message.get(name).and_then(Value::as_str)
}

// What is wrong with the member `path`.
fn path_wrong(alloc: Global, message: &Value) -> Result<Option<Wrong>, AllocError>
    ensures { IfOk result (λ wrong. wrong ≡ path_wrong (view message.now)) }
{
    match text_at(message, "path") {
        Some(text) => text_wrong(alloc, text),
        None => Ok(Some(Wrong::NoText)),
    }
}

// What is wrong with the member `value`.
fn value_wrong(alloc: Global, message: &Value) -> Result<Option<Wrong>, AllocError>
    ensures { IfOk result (λ wrong. wrong ≡ value_wrong (view message.now)) }
{
    match message.get("value") {
        Some(value) => tree_wrong(alloc, value),
        None => Ok(Some(Wrong::Missing)),
    }
}

// What is wrong with the first name that is no path.
fn names_wrong(
    alloc: Global,
    members: &BTreeMap<String, Value>,
) -> Result<Option<Wrong>, AllocError>
    ensures { IfOk result (λ wrong. wrong ≡ names_wrong (members_view members.now.entries)) }
{
    for (name, _) in members.iter() {
        if let Some(wrong) = text_wrong(alloc, name.as_str())? {
            return Ok(Some(wrong));
        }
    }
    Ok(None)
}

// What is wrong with the first value that is no tree.
fn trees_wrong(
    alloc: Global,
    members: &BTreeMap<String, Value>,
) -> Result<Option<Wrong>, AllocError>
    ensures { IfOk result (λ wrong. wrong ≡ trees_wrong (members_view members.now.entries)) }
{
    for (_, value) in members.iter() {
        if let Some(wrong) = tree_wrong(alloc, value)? {
            return Ok(Some(wrong));
        }
    }
    Ok(None)
}

// Whether there is no member.
fn has_none(members: &BTreeMap<String, Value>) -> bool
    ensures { result ≡ has_none (members_view members.now.entries) }
{
    members.is_empty()
}

// What is wrong with entries: all names are looked at before the values.
fn members_wrong(
    alloc: Global,
    members: &BTreeMap<String, Value>,
) -> Result<Option<Wrong>, AllocError>
    ensures { IfOk result (λ wrong. wrong ≡ members_wrong (members_view members.now.entries)) }
{
    if has_none(members) {
        return Ok(Some(Wrong::NoEntries));
    }
    match names_wrong(alloc, members)? {
        Some(wrong) => Ok(Some(wrong)),
        None => trees_wrong(alloc, members),
    }
}

// What is wrong with the member `entries`.
fn entries_wrong(alloc: Global, message: &Value) -> Result<Option<Wrong>, AllocError>
    ensures { IfOk result (λ wrong. wrong ≡ entries_wrong (view message.now)) }
{
    match message.get("entries").and_then(Value::as_object) {
        Some(members) => members_wrong(alloc, members),
        None => Ok(Some(Wrong::NoEntries)),
    }
}

// A fault at that place, if something is wrong.
fn at(place: MemberName, wrong: Option<Wrong>) -> Option<Fault>
    ensures { result ≡ at place wrong }
{
    match wrong {
        Some(wrong) => Some(Fault { place, wrong }),
        None => None,
    }
}

// What is wrong with a set.
fn put_fault(alloc: Global, message: &Value) -> Result<Option<Fault>, AllocError>
    ensures { IfOk result (λ fault. fault ≡ fault_in Asks.Put (view message.now)) }
{
    match path_wrong(alloc, message)? {
        Some(wrong) => Ok(at(MemberName::Path, Some(wrong))),
        None => Ok(at(MemberName::Value, value_wrong(alloc, message)?)),
    }
}

// What is wrong with a request that asks for that, and where.
fn fault_in(alloc: Global, asks: Asks, message: &Value) -> Result<Option<Fault>, AllocError>
    ensures { IfOk result (λ fault. fault ≡ fault_in asks (view message.now)) }
{
    match asks {
        Asks::Put => put_fault(alloc, message),
        Asks::Merge => Ok(at(MemberName::Entries, entries_wrong(alloc, message)?)),
        Asks::Cancel => Ok(at(MemberName::Path, path_wrong(alloc, message)?)),
    }
}

impl MemberName {
    // How a reason begins.
    fn words(self) -> &'static str
        ensures { result.now ≡ place_words self }
    {
        match self {
            MemberName::Path => "bad path: ",
            MemberName::Value => "bad value: ",
            MemberName::Entries => "bad entries: ",
        }
    }
}

// What a path or a tree must be.
fn unfit_words(why: TreeError) -> &'static str
    ensures { result.now ≡ unfit_words why }
{
    match why {
        TreeError::BadKey => {
            "a key must have at least one byte, and no control character and none of . $ # [ ] /"
        }
        TreeError::KeyTooLong => "a key must have at most 768 bytes",
        TreeError::TooDeep => "a path must have at most 32 keys, and no value may stand deeper",
        TreeError::NotWhole => "a number must be whole, from -9007199254740991 to 9007199254740991",
        TreeError::TextTooLong => "a text must have at most 65536 bytes",
        TreeError::TooManyNodes => "a value must have at most 65536 values in it",
        TreeError::NotJson => "it must be JSON",
        TreeError::NoMemory => "out of memory",
    }
}

impl Wrong {
    // How a reason goes on.
    fn words(self) -> &'static str
        ensures { result.now ≡ wrong_words self }
    {
        match self {
            Wrong::Missing => "there must be one",
            Wrong::NoText => "it must be a text",
            Wrong::NoEntries => "it must be an object with a member",
            Wrong::Unfit(why) => unfit_words(why),
        }
    }
}

// The reason in words.
fn reason_of(alloc: Global, fault: Option<Fault>) -> Result<String, AllocError>
    ensures { IfOk result (λ why. string_bytes why ≡ reason_words fault) }
{
    let Some(fault) = fault else {
        return String::from_str(alloc, "bad");
    };
    let mut why = String::from_str(alloc, fault.place.words())?;
    why.push_str(fault.wrong.words())?;
    Ok(why)
}

// The text that refuses a request for that.
fn text_of(alloc: Global, id: u64, fault: Option<Fault>) -> Result<String, AllocError>
    ensures { IfOk result (λ text. string_bytes text ≡ text_of (Refused id (reason_words fault))) }
{
    let why = Reason::of(reason_of(alloc, fault)?);
    ServerMessage::Refused { id, why }.text(alloc)
}

// The number of a request.
fn number_of(message: &Value) -> Option<u64>
    ensures { result ≡ field number_of (codes "id") (view message.now) }
{
    match message.get("id").and_then(Value::as_u64) {
        Some(n) if n >= 1 && n <= MAX_NUMBER => Some(n),
        _ => None,
    }
}

// What a message that asks for that is answered, where its number can be read.
fn asked_answer(alloc: Global, asks: Asks, message: &Value) -> Result<Option<String>, AllocError>
    ensures { IfOk result (λ text.
        option_map string_bytes text ≡ asked_answer (view message.now) asks) }
{
    match number_of(message) {
        Some(id) => {
            let fault = fault_in(alloc, asks, message)?;
            Ok(Some(text_of(alloc, id, fault)?))
        }
        None => Ok(None),
    }
}

// What a message is answered, where its kind and its number can be read.
fn refusal_in(alloc: Global, message: &Value) -> Result<Option<String>, AllocError>
    ensures { IfOk result (λ text. option_map string_bytes text ≡ refusal_in (view message.now)) }
{
    let Some(kind) = text_at(message, "k") else {
        return Ok(None);
    };
    match asks_of(kind) {
        Some(asks) => asked_answer(alloc, asks, message),
        None => Ok(None),
    }
}

// What a text is answered that is no message of a client: where it is a request whose number can be read,
// a `no` that says what is wrong and where.
pub(crate) fn refusal_of(alloc: Global, text: &str) -> Result<Option<String>, AllocError>
    ensures { IfOk result (λ answer. option_map string_bytes answer ≡ refusal_of text.now) }
{
    match Value::from_str(alloc, text) {
        Ok(message) => refusal_in(alloc, &message),
        Err(error) if error.is_memory() => Err(AllocError),
        Err(_) => Ok(None),
    }
}

// ---- what became of a request

/// When a request is done.
#[derive(Clone, Copy, Debug)]
pub enum When {
    /// At once: it is a write.
    Now,
    /// At the end of the connection, or it drops what was to be done then.
    AtEnd,
}

/// What became of a message, where it is a request.
#[derive(Clone, Copy, Debug)]
pub enum Verdict {
    /// It is a request, and is answered `ok`.
    Accepted(When),
    /// It is a request, and is answered `no`: it changes nothing.
    Refused,
    /// It is no request.
    NoRequest,
}

// When what is asked for is done.
fn when_asked(asked: &Asked) -> When
    ensures { result ≡ when_asked asked.now }
{
    match asked {
        Asked::Now(_) => When::Now,
        Asked::AtDisconnect(_) => When::AtEnd,
    }
}

// When a message is done, where it is a request.
pub(crate) fn when_in(message: &ClientMessage) -> Option<When>
    ensures { result ≡ when_in message.now }
{
    match message {
        ClientMessage::Ask { id: _, asked } => Some(when_asked(asked)),
        ClientMessage::Hello { .. }
        | ClientMessage::Listen { .. }
        | ClientMessage::Unlisten { .. } => None,
    }
}

// Whether a message of the server accepts a request.
fn is_ok(message: &ServerMessage) -> bool
    ensures { result ≡ is_ok message.now }
{
    match message {
        ServerMessage::Accepted { .. } => true,
        ServerMessage::Data { .. }
        | ServerMessage::DataMerge { .. }
        | ServerMessage::Push { .. }
        | ServerMessage::Refused { .. }
        | ServerMessage::Revoked { .. } => false,
    }
}

// Whether what is sent for a request accepts it: it is answered last.
fn says_ok(sent: &[Sent]) -> bool
    ensures { result ≡ says_ok sent.now }
{
    match sent.last() {
        Some(last) => is_ok(&last.message),
        None => false,
    }
}

// What became of a request that is done then, by what is sent for it; none: it is no request.
pub(crate) fn verdict_when(when: Option<When>, sent: &[Sent]) -> Verdict
    ensures { result ≡ verdict_when when sent.now }
{
    match when {
        None => Verdict::NoRequest,
        Some(when) if says_ok(sent) => Verdict::Accepted(when),
        Some(_) => Verdict::Refused,
    }
}

// ---- how much a connection may have, and how much may wait for it

/// How many messages may wait for a connection.
pub const MAX_WAITING_MESSAGES: usize = 10_000;

/// How many bytes the texts may have that wait for a connection.
pub const MAX_WAITING_BYTES: usize = 16_777_216;

/// How many bytes may wait for all connections together, also of texts that were taken and not yet sent.
pub const MAX_WAITING_IN_ALL: usize = 134_217_728;

/// How many bytes the text of a tree may have that is sent: a write that makes the tree longer is refused, and a
/// listen that shows a longer one is revoked.
pub const MAX_TREE_BYTES: usize = 67_108_864;

/// How many listens a connection may have: one with more is to be ended.
pub const MAX_LISTENS: usize = 131_072;

/// How many requests a connection may have that are done at its end: one more is refused.
pub const MAX_ACTIONS: usize = 131_072;

/// How much may wait for a connection.
#[derive(Clone, Copy, Debug, PartialEq, Eq)]
pub struct Bounds {
    /// How many messages.
    pub messages: usize,
    /// How many bytes all of them together.
    pub bytes: usize,
}

impl Bounds {
    /// As much as may wait where nothing else is asked for.
    pub fn full() -> Bounds
        ensures messages { result.messages ≡ MAX_WAITING_MESSAGES }
        ensures bytes { result.bytes ≡ MAX_WAITING_BYTES }
    {
        Bounds {
            messages: MAX_WAITING_MESSAGES,
            bytes: MAX_WAITING_BYTES,
        }
    }
}
