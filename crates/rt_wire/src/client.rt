// What the client sends.
ghost use Rattle.std.specs.Prelude.{◌≡◌, ◌⊎◌, [], true, codes, IfOk, IfErr, OnOk, Ok, Err, Some, None};
ghost use Rattle.std.specs.Prelude.{string_bytes};
ghost use Rattle.rt_query.specs.Queries.{is_filtered};
ghost use Rattle.serde_json.specs.Find.{get};
ghost use Rattle.serde_json.specs.View.{view};
ghost use Rattle.serde_json.specs.Written.{compact_text};
ghost use Rattle.rt_wire.specs.Client.{client_message, client_message_in, query_at, put_in};
ghost use Rattle.rt_wire.specs.Client.{merge_in, hello_in, listen_in, unlisten_in};
ghost use Rattle.rt_wire.specs.Client.{put_message, merge_message, od_put_message};
ghost use Rattle.rt_wire.specs.Client.{od_merge_message, od_cancel_message};
ghost use Rattle.rt_wire.specs.ClientData.{client_data, listen_data, action_data};
ghost use Rattle.rt_wire.specs.ReadBack.{IsClientMessage, IsClientText};
ghost use Rattle.rt_wire.specs.inside.StandingClient.{IsStandingListen, IsStandingAction};
ghost use Rattle.rt_wire.specs.inside.Standing.{IsStandingPath};
ghost use Rattle.rt_wire.specs.inside.StandingClient.{IsStandingRequest, IsStandingQuery};
ghost use Rattle.rt_wire.specs.inside.Writing.{PutsValue, PutsFields};
ghost use Rattle.rt_wire.specs.QueryData.{query_field};
ghost use Rattle.rt_wire.specs.declared.request.Action.TheVariants.{Put, Merge};
ghost use Rattle.rt_wire.specs.declared.request.Ending.TheVariants.{Cancel};
ghost use Rattle.rt_wire.specs.declared.request.Asked.TheVariants.{AtDisconnect};
ghost use Rattle.rt_wire.specs.declared.client.ClientMessage.TheVariants.{Hello, Unlisten, Ask};

use crate::error::WireError;
use crate::members::{
    entries, json_value, kind, new_writer, number, path, taken, text_of, tree, write_entries,
    write_number, write_path, write_text, write_value,
};
use crate::query::{query, write_query};
use crate::request::{Action, Asked, Ending};
use json::Writer;
use rt_query::Query;
use rt_tree::{Path, Tree};
use rt_writes::Entries;
use serde_json::Value;
use std::alloc::{AllocError, Global};

/// A message of the client.
#[derive(Drop)]
pub enum ClientMessage {
    /// `hello`: the version of the messages that the client reads. A connection reads version 1 where
    /// it has said none.
    Hello { version: u64 },
    /// `listen`: a listen begins under a tag.
    Listen { tag: u64, query: Query },
    /// `unlisten`: the listen with that tag ends.
    Unlisten { tag: u64 },
    /// `put`, `merge`, `od-put`, `od-merge` and `od-cancel`: a request with its number.
    Ask { id: u64, asked: Asked },
}

impl ClientMessage {
    /// Reads a message of the client. The order of its members is free, those that its kind lacks
    /// are ignored, and of members with the same name the last one counts.
    pub fn read(alloc: Global, text: &str) -> Result<ClientMessage, WireError>
        ensures ok { IfOk result (λ message. client_message text.now ≡ Ok message) }
        ensures fault { IfErr result (λ e. (client_message text.now ≡ Err e)
            ⊎ (e ≡ WireError.NoMemory)) }
    {
        message_of(alloc, json_value(alloc, text)?)
    }

    /// The message as compact JSON, with the members of each object in the order of the bytes of
    /// their names.
    pub fn text(&self, alloc: Global) -> Result<String, AllocError>
        ensures text { IfOk result (λ text. string_bytes text ≡ compact_text (client_data self.now)) }
        ensures reads_back { IfOk result (λ text. IsClientMessage self.now
            → IsClientText self.now (string_bytes text)) }
    {
        let mut out = new_writer(alloc)?;
        write_message(alloc, &mut out, self)?;
        Ok(text_of(out))
    }
}

// The message that a JSON value is.
fn message_of(alloc: Global, message: Value) -> Result<ClientMessage, WireError>
    ensures ok { IfOk result (λ m. client_message_in (view message) ≡ Ok m) }
    ensures fault { IfErr result (λ e. (client_message_in (view message) ≡ Err e)
        ⊎ (e ≡ WireError.NoMemory)) }
{
    match kind(&message)? {
        "hello" => read_hello(&message),
        "listen" => read_listen(alloc, &message),
        "unlisten" => read_unlisten(&message),
        "put" => read_put(alloc, message),
        "merge" => read_merge(alloc, message),
        "od-put" => read_od_put(alloc, message),
        "od-merge" => read_od_merge(alloc, message),
        "od-cancel" => read_od_cancel(alloc, &message),
        _ => Err(WireError::UnknownKind),
    }
}

fn read_hello(message: &Value) -> Result<ClientMessage, WireError>
    ensures { result ≡ hello_in (view message.now) }
{
    let version = number(message, "version")?;
    Ok(ClientMessage::Hello { version })
}

fn read_listen(alloc: Global, message: &Value) -> Result<ClientMessage, WireError>
    ensures ok { IfOk result (λ m. listen_in (view message.now) ≡ Ok m) }
    ensures fault { IfErr result (λ e. (listen_in (view message.now) ≡ Err e)
        ⊎ (e ≡ WireError.NoMemory)) }
{
    let tag = number(message, "tag")?;
    let path = path(alloc, message)?;
    let query = listened(alloc, path, message)?;
    Ok(ClientMessage::Listen { tag, query })
}

fn read_unlisten(message: &Value) -> Result<ClientMessage, WireError>
    ensures { result ≡ unlisten_in (view message.now) }
{
    let tag = number(message, "tag")?;
    Ok(ClientMessage::Unlisten { tag })
}

fn read_put(alloc: Global, message: Value) -> Result<ClientMessage, WireError>
    ensures ok { IfOk result (λ m. put_message (view message) ≡ Ok m) }
    ensures fault { IfErr result (λ e. (put_message (view message) ≡ Err e)
        ⊎ (e ≡ WireError.NoMemory)) }
{
    let id = number(&message, "id")?;
    let action = put_action(alloc, message)?;
    Ok(ClientMessage::Ask {
        id,
        asked: Asked::Now(action),
    })
}

fn read_merge(alloc: Global, message: Value) -> Result<ClientMessage, WireError>
    ensures ok { IfOk result (λ m. merge_message (view message) ≡ Ok m) }
    ensures fault { IfErr result (λ e. (merge_message (view message) ≡ Err e)
        ⊎ (e ≡ WireError.NoMemory)) }
{
    let id = number(&message, "id")?;
    let action = merge_action(alloc, message)?;
    Ok(ClientMessage::Ask {
        id,
        asked: Asked::Now(action),
    })
}

fn read_od_put(alloc: Global, message: Value) -> Result<ClientMessage, WireError>
    ensures ok { IfOk result (λ m. od_put_message (view message) ≡ Ok m) }
    ensures fault { IfErr result (λ e. (od_put_message (view message) ≡ Err e)
        ⊎ (e ≡ WireError.NoMemory)) }
{
    let id = number(&message, "id")?;
    let action = put_action(alloc, message)?;
    Ok(ClientMessage::Ask {
        id,
        asked: Asked::AtDisconnect(Ending::Run(action)),
    })
}

fn read_od_merge(alloc: Global, message: Value) -> Result<ClientMessage, WireError>
    ensures ok { IfOk result (λ m. od_merge_message (view message) ≡ Ok m) }
    ensures fault { IfErr result (λ e. (od_merge_message (view message) ≡ Err e)
        ⊎ (e ≡ WireError.NoMemory)) }
{
    let id = number(&message, "id")?;
    let action = merge_action(alloc, message)?;
    Ok(ClientMessage::Ask {
        id,
        asked: Asked::AtDisconnect(Ending::Run(action)),
    })
}

fn read_od_cancel(alloc: Global, message: &Value) -> Result<ClientMessage, WireError>
    ensures ok { IfOk result (λ m. od_cancel_message (view message.now) ≡ Ok m) }
    ensures fault { IfErr result (λ e. (od_cancel_message (view message.now) ≡ Err e)
        ⊎ (e ≡ WireError.NoMemory)) }
{
    let id = number(message, "id")?;
    let path = path(alloc, message)?;
    Ok(ClientMessage::Ask {
        id,
        asked: Asked::AtDisconnect(Ending::Cancel(path)),
    })
}

fn write_message(alloc: Global, out: &mut Writer, message: &ClientMessage) -> Result<(), AllocError>
    ensures put { OnOk result (PutsValue (client_data message.now) out.old out.new) }
    ensures standing { OnOk result (IsStandingRequest message.now) }
{
    match message {
        ClientMessage::Hello { version } => write_hello(out, *version),
        ClientMessage::Listen { tag, query } => write_listen(out, *tag, query),
        ClientMessage::Unlisten { tag } => write_unlisten(out, *tag),
        ClientMessage::Ask { id, asked } => match asked {
            Asked::Now(action) => write_action(alloc, out, *id, "put", "merge", action),
            Asked::AtDisconnect(Ending::Run(action)) => {
                write_action(alloc, out, *id, "od-put", "od-merge", action)
            }
            Asked::AtDisconnect(Ending::Cancel(path)) => write_cancel(out, *id, path),
        },
    }
}

// The query of a listen: of the path alone, where there is no `q`.
fn listened(alloc: Global, path: Path, message: &Value) -> Result<Query, WireError>
    ensures ok { IfOk result (λ q. query_at path (get (codes "q") (view message.now)) ≡ Some q) }
    ensures err { IfErr result (λ e. (e ≡ WireError.BadField)
        × (query_at path (get (codes "q") (view message.now)) ≡ None) ⊎ (e ≡ WireError.NoMemory)) }
{
    match message.get("q") {
        Some(q) => query(alloc, path, q),
        None => Ok(Query::at(path).done()),
    }
}

// The set of a message.
fn put_action(alloc: Global, message: Value) -> Result<Action, WireError>
    ensures ok { IfOk result (λ action. put_in (view message) ≡ Ok action) }
    ensures fault { IfErr result (λ e. (put_in (view message) ≡ Err e) ⊎ (e ≡ WireError.NoMemory)) }
{
    let path = path(alloc, &message)?;
    let tree = tree(alloc, taken(message, "value")?)?;
    Ok(Action::Put { path, tree })
}

// The update of a message.
fn merge_action(alloc: Global, message: Value) -> Result<Action, WireError>
    ensures ok { IfOk result (λ action. merge_in (view message) ≡ Ok action) }
    ensures fault { IfErr result (λ e. (merge_in (view message) ≡ Err e)
        ⊎ (e ≡ WireError.NoMemory)) }
{
    let entries = entries(alloc, message)?;
    Ok(Action::Merge { entries })
}

// The member `q`, where the query is filtered.
fn write_q(out: &mut Writer, query: &Query) -> Result<(), AllocError>
    ensures put { OnOk result (PutsFields (query_field query.now) out.old out.new) }
    ensures standing { OnOk result (is_filtered query.now ≡ true → IsStandingQuery query.now) }
{
    if !query.is_filtered() {
        return Ok(());
    }
    out.key("q")?;
    write_query(out, query)
}

fn write_hello(out: &mut Writer, version: u64) -> Result<(), AllocError>
    ensures { OnOk result (PutsValue (client_data (Hello version)) out.old out.new) }
{
    out.begin_object()?;
    write_text(out, "k", "hello")?;
    write_number(out, "version", version)?;
    out.end_object()
}

fn write_listen(out: &mut Writer, tag: u64, query: &Query) -> Result<(), AllocError>
    ensures put { OnOk result (PutsValue (listen_data tag query.now) out.old out.new) }
    ensures standing { OnOk result (IsStandingListen query.now) }
{
    out.begin_object()?;
    write_text(out, "k", "listen")?;
    write_path(out, query.path())?;
    write_q(out, query)?;
    write_number(out, "tag", tag)?;
    out.end_object()
}

fn write_unlisten(out: &mut Writer, tag: u64) -> Result<(), AllocError>
    ensures { OnOk result (PutsValue (client_data (Unlisten tag)) out.old out.new) }
{
    out.begin_object()?;
    write_text(out, "k", "unlisten")?;
    write_number(out, "tag", tag)?;
    out.end_object()
}

fn write_cancel(out: &mut Writer, id: u64, path: &Path) -> Result<(), AllocError>
    ensures put { OnOk result
        (PutsValue (client_data (Ask id (AtDisconnect (Cancel path.now)))) out.old out.new) }
    ensures standing { OnOk result (IsStandingPath path.now) }
{
    out.begin_object()?;
    write_number(out, "id", id)?;
    write_text(out, "k", "od-cancel")?;
    write_path(out, path)?;
    out.end_object()
}

// A write, by the kind of its set and of its update.
fn write_action(
    alloc: Global,
    out: &mut Writer,
    id: u64,
    put: &str,
    merge: &str,
    action: &Action,
) -> Result<(), AllocError>
    ensures put { OnOk result
        (PutsValue (action_data id put.now merge.now action.now) out.old out.new) }
    ensures standing { OnOk result (IsStandingAction action.now) }
{
    match action {
        Action::Put { path, tree } => write_put(out, id, put, path, tree),
        Action::Merge { entries } => write_merge(alloc, out, id, merge, entries),
    }
}

// A set, of that kind.
fn write_put(
    out: &mut Writer,
    id: u64,
    kind: &str,
    path: &Path,
    tree: &Tree,
) -> Result<(), AllocError>
    ensures put { OnOk result (PutsValue
        (action_data id kind.now [] (Put path.now tree.now)) out.old out.new) }
    ensures standing { OnOk result (IsStandingAction (Put path.now tree.now)) }
{
    out.begin_object()?;
    write_number(out, "id", id)?;
    write_text(out, "k", kind)?;
    write_path(out, path)?;
    write_value(out, tree)?;
    out.end_object()
}

// An update, of that kind.
fn write_merge(
    alloc: Global,
    out: &mut Writer,
    id: u64,
    kind: &str,
    entries: &Entries,
) -> Result<(), AllocError>
    ensures put { OnOk result (PutsValue
        (action_data id [] kind.now (Merge entries.now)) out.old out.new) }
    ensures standing { OnOk result (IsStandingAction (Merge entries.now)) }
{
    out.begin_object()?;
    write_entries(alloc, out, entries)?;
    write_number(out, "id", id)?;
    write_text(out, "k", kind)?;
    out.end_object()
}
