// What the server sends.
ghost use Rattle.std.specs.Prelude.{◌≡◌, ◌⊎◌, IfOk, IfErr, OnOk, Ok, Err, codes, string_bytes};
ghost use Rattle.serde_json.specs.Data.{array};
ghost use Rattle.serde_json.specs.View.{view};
ghost use Rattle.serde_json.specs.Written.{compact_text};
ghost use Rattle.rt_wire.specs.ServerData.{server_data, part_items};
ghost use Rattle.rt_wire.specs.ReadBack.{IsServerMessage, IsServerText};
ghost use Rattle.rt_wire.specs.inside.StandingServer.{IsStandingMessage};
ghost use Rattle.rt_wire.specs.inside.Writing.{PutsValue, PutsField};
ghost use Rattle.rt_wire.specs.Server.{server_message, server_message_in, data_in, data_merge_in, push_in};
ghost use Rattle.rt_wire.specs.Server.{ok_in, no_in, revoke_in};
ghost use Rattle.rt_wire.specs.declared.server.ServerMessage.TheVariants.{Data as DataMessage, DataMerge, Push};
ghost use Rattle.rt_wire.specs.declared.server.ServerMessage.TheVariants.{Accepted, Refused, Revoked};

use crate::error::WireError;
use crate::members::{
    entries, json_value, kind, new_writer, number, path, reason, taken, text_of, tree,
    write_entries, write_number, write_path, write_text, write_value,
};
use crate::parts::{Parts, parts_in, write_parts};
use crate::request::Reason;
use json::Writer;
use rt_tree::{Path, Tree};
use rt_writes::Entries;
use serde_json::Value;
use std::alloc::{AllocError, Global};

/// A message of the server.
#[derive(Debug, Drop)]
pub enum ServerMessage {
    /// `data`: a tree stands at a path, on the listen with that tag.
    Data { tag: u64, path: Path, tree: Tree },
    /// `data-merge`: several trees, each at its path, on the listen with that tag.
    DataMerge { tag: u64, entries: Entries },
    /// `push`: trees at paths on several listens, in one step.
    Push { parts: Parts },
    /// `ok`: the request is accepted.
    Accepted { id: u64 },
    /// `no`: the request is refused.
    Refused { id: u64, why: Reason },
    /// `revoke`: the listen with that tag is ended.
    Revoked { tag: u64, why: Reason },
}

impl ServerMessage {
    /// Reads a message of the server. The order of its members is free, those that its kind lacks
    /// are ignored, and of members with the same name the last one counts.
    pub fn read(alloc: Global, text: &str) -> Result<ServerMessage, WireError>
        ensures ok { IfOk result (λ message. server_message text.now ≡ Ok message) }
        ensures fault { IfErr result (λ e. (server_message text.now ≡ Err e)
            ⊎ (e ≡ WireError.NoMemory)) }
    {
        message_of(alloc, json_value(alloc, text)?)
    }

    /// The message as compact JSON, with the members of each object in the order of the bytes of
    /// their names.
    pub fn text(&self, alloc: Global) -> Result<String, AllocError>
        ensures text { IfOk result (λ text. string_bytes text ≡ compact_text (server_data self.now)) }
        ensures reads_back { IfOk result (λ text. IsServerMessage self.now
            → IsServerText self.now (string_bytes text)) }
    {
        let mut out = new_writer(alloc)?;
        write_message(alloc, &mut out, self)?;
        Ok(text_of(out))
    }
}

// The message that a JSON value is.
fn message_of(alloc: Global, message: Value) -> Result<ServerMessage, WireError>
    ensures ok { IfOk result (λ m. server_message_in (view message) ≡ Ok m) }
    ensures fault { IfErr result (λ e. (server_message_in (view message) ≡ Err e)
        ⊎ (e ≡ WireError.NoMemory)) }
{
    match kind(&message)? {
        "data" => read_data(alloc, message),
        "data-merge" => read_data_merge(alloc, message),
        "push" => read_push(alloc, message),
        "ok" => read_ok(&message),
        "no" => read_no(message),
        "revoke" => read_revoke(message),
        _ => Err(WireError::UnknownKind),
    }
}

fn read_data(alloc: Global, message: Value) -> Result<ServerMessage, WireError>
    ensures ok { IfOk result (λ m. data_in (view message) ≡ Ok m) }
    ensures fault { IfErr result (λ e. (data_in (view message) ≡ Err e)
        ⊎ (e ≡ WireError.NoMemory)) }
{
    let tag = number(&message, "tag")?;
    let path = path(alloc, &message)?;
    let tree = tree(alloc, taken(message, "value")?)?;
    Ok(ServerMessage::Data { tag, path, tree })
}

fn read_data_merge(alloc: Global, message: Value) -> Result<ServerMessage, WireError>
    ensures ok { IfOk result (λ m. data_merge_in (view message) ≡ Ok m) }
    ensures fault { IfErr result (λ e. (data_merge_in (view message) ≡ Err e)
        ⊎ (e ≡ WireError.NoMemory)) }
{
    let tag = number(&message, "tag")?;
    let entries = entries(alloc, message)?;
    Ok(ServerMessage::DataMerge { tag, entries })
}

fn read_push(alloc: Global, message: Value) -> Result<ServerMessage, WireError>
    ensures ok { IfOk result (λ m. push_in (view message) ≡ Ok m) }
    ensures fault { IfErr result (λ e. (push_in (view message) ≡ Err e)
        ⊎ (e ≡ WireError.NoMemory)) }
{
    let parts = parts_in(alloc, message)?;
    Ok(ServerMessage::Push { parts })
}

fn read_ok(message: &Value) -> Result<ServerMessage, WireError>
    ensures { result ≡ ok_in (view message.now) }
{
    let id = number(message, "id")?;
    Ok(ServerMessage::Accepted { id })
}

fn read_no(message: Value) -> Result<ServerMessage, WireError>
    ensures { result ≡ no_in (view message) }
{
    let id = number(&message, "id")?;
    let why = reason(message)?;
    Ok(ServerMessage::Refused { id, why })
}

fn read_revoke(message: Value) -> Result<ServerMessage, WireError>
    ensures { result ≡ revoke_in (view message) }
{
    let tag = number(&message, "tag")?;
    let why = reason(message)?;
    Ok(ServerMessage::Revoked { tag, why })
}

fn write_message(alloc: Global, out: &mut Writer, message: &ServerMessage) -> Result<(), AllocError>
    ensures put { OnOk result (PutsValue (server_data message.now) out.old out.new) }
    ensures standing { OnOk result (IsStandingMessage message.now) }
{
    match message {
        ServerMessage::Data { tag, path, tree } => write_data(out, *tag, path, tree),
        ServerMessage::DataMerge { tag, entries } => write_merge(alloc, out, *tag, entries),
        ServerMessage::Push { parts } => write_push(alloc, out, parts),
        ServerMessage::Accepted { id } => write_accepted(out, *id),
        ServerMessage::Refused { id, why } => write_refused(out, *id, why),
        ServerMessage::Revoked { tag, why } => write_revoked(out, *tag, why),
    }
}

// A push of a tree.
fn write_data(out: &mut Writer, tag: u64, path: &Path, tree: &Tree) -> Result<(), AllocError>
    ensures put { OnOk result
        (PutsValue (server_data (DataMessage tag path.now tree.now)) out.old out.new) }
    ensures standing { OnOk result (IsStandingMessage (DataMessage tag path.now tree.now)) }
{
    out.begin_object()?;
    write_text(out, "k", "data")?;
    write_path(out, path)?;
    write_number(out, "tag", tag)?;
    write_value(out, tree)?;
    out.end_object()
}

// A push of entries.
fn write_merge(
    alloc: Global,
    out: &mut Writer,
    tag: u64,
    entries: &Entries,
) -> Result<(), AllocError>
    ensures put { OnOk result (PutsValue (server_data (DataMerge tag entries.now)) out.old out.new) }
    ensures standing { OnOk result (IsStandingMessage (DataMerge tag entries.now)) }
{
    out.begin_object()?;
    write_entries(alloc, out, entries)?;
    write_text(out, "k", "data-merge")?;
    write_number(out, "tag", tag)?;
    out.end_object()
}

// A push of parts.
fn write_push(alloc: Global, out: &mut Writer, parts: &Parts) -> Result<(), AllocError>
    ensures put { OnOk result (PutsValue (server_data (Push parts.now)) out.old out.new) }
    ensures standing { OnOk result (IsStandingMessage (Push parts.now)) }
{
    out.begin_object()?;
    write_text(out, "k", "push")?;
    write_parts_field(alloc, out, parts)?;
    out.end_object()
}

// The member `parts`.
fn write_parts_field(alloc: Global, out: &mut Writer, parts: &Parts) -> Result<(), AllocError>
    ensures put { OnOk result (PutsField (codes "parts", array (part_items parts.now)) out.old out.new) }
    ensures standing { OnOk result (IsStandingMessage (Push parts.now)) }
{
    out.key("parts")?;
    out.begin_array()?;
    write_parts(alloc, out, parts.as_slice())?;
    out.end_array()
}

fn write_accepted(out: &mut Writer, id: u64) -> Result<(), AllocError>
    ensures { OnOk result (PutsValue (server_data (Accepted id)) out.old out.new) }
{
    out.begin_object()?;
    write_number(out, "id", id)?;
    write_text(out, "k", "ok")?;
    out.end_object()
}

fn write_refused(out: &mut Writer, id: u64, why: &Reason) -> Result<(), AllocError>
    ensures { OnOk result (PutsValue (server_data (Refused id why.now)) out.old out.new) }
{
    out.begin_object()?;
    write_number(out, "id", id)?;
    write_text(out, "k", "no")?;
    write_text(out, "why", why.text())?;
    out.end_object()
}

fn write_revoked(out: &mut Writer, tag: u64, why: &Reason) -> Result<(), AllocError>
    ensures { OnOk result (PutsValue (server_data (Revoked tag why.now)) out.old out.new) }
{
    out.begin_object()?;
    write_text(out, "k", "revoke")?;
    write_number(out, "tag", tag)?;
    write_text(out, "why", why.text())?;
    out.end_object()
}
