// The forms of lines.
ghost use Rattle.std.specs.Prelude.{◌≡◌, ◌⊎◌, IfOk, IfErr, Some, None, option_map};
ghost use Rattle.serde_json.specs.View.{view as data_of};
ghost use Rattle.rt_lines.specs.Forms.{cancel_form, close_form, data_form, ending_form, form_in};
ghost use Rattle.rt_lines.specs.Forms.{all_parts, form_named, part_in, part_words, parts_form, parts_in};
ghost use Rattle.rt_lines.specs.Forms.{listen_form, lone_form, lone_named, merge_form, no_form};
ghost use Rattle.rt_lines.specs.Forms.{ok_form, on_disconnect_form, push_form, remove_words, revoke_form};
ghost use Rattle.rt_lines.specs.Forms.{seat_named, server_form, server_named, set_words};
ghost use Rattle.rt_lines.specs.Forms.{unlisten_form, update_words, view_form, write_form};
ghost use Rattle.rt_lines.specs.Forms.{written_in};
ghost use Rattle.rt_lines.specs.inside.FormView.{as_form, as_part, as_parts, as_written, views};

use crate::call::{QueryCall, calls_in};
use crate::error::LineError;
use crate::words::{parts_of, random_of, seat_of};
use serde_json::Value;
use std::alloc::Global;
use std::collections::BTreeMap;

/// What a write sets, its words as they stand there.
#[derive(Clone, Copy)]
pub(crate) enum Written<'a> {
    /// `"set",..,path,value`
    Set {
        path: &'a str,
        value: &'a Value,
    },
    /// `"update",..,{path:value,..}`
    Update {
        entries: &'a BTreeMap<String, Value>,
    },
    /// `"remove",..,path`
    Remove {
        path: &'a str,
    },
}

/// A part of a push, its words as they stand there: `[tag,{path:value,..}]`
#[derive(Clone, Copy)]
pub(crate) struct PartWords<'a> {
    pub(crate) tag: u64,
    pub(crate) entries: &'a BTreeMap<String, Value>,
}

/// A line of one of the script's forms, its words as they stand there.
#[derive(Drop)]
pub(crate) enum LineForm<'a> {
    /// `["listen",seat,path,[call,..]]`
    Listen {
        seat: u64,
        path: &'a str,
        calls: Vec<QueryCall<'a>>,
    },
    /// `["unlisten",seat,listener]`
    Unlisten {
        seat: u64,
        listener: u64,
    },
    /// `["set",seat,path,value]`, `["update",seat,{path:value,..}]`, `["remove",seat,path]`
    Write {
        seat: u64,
        written: Written<'a>,
    },
    /// `["onDisconnect",seat,"set",path,value]` and the like
    OnDisconnect {
        seat: u64,
        written: Written<'a>,
    },
    /// `["onDisconnect",seat,"cancel",path]`
    CancelDisconnect {
        seat: u64,
        path: &'a str,
    },
    /// `["close",seat]`
    Close {
        seat: u64,
    },
    /// `["data",tag,path,value]`
    Data {
        tag: u64,
        path: &'a str,
        value: &'a Value,
    },
    /// `["merge",tag,{path:value,..}]`
    Merge {
        tag: u64,
        entries: &'a BTreeMap<String, Value>,
    },
    /// `["parts",[[tag,{path:value,..}],..]]`
    Parts {
        parts: Vec<PartWords<'a>>,
    },
    /// `["ok",id]`
    Accepted {
        id: u64,
    },
    /// `["no",id,why]`
    Refused {
        id: u64,
        why: &'a str,
    },
    /// `["revoke",tag,why]`
    Revoked {
        tag: u64,
        why: &'a str,
    },
    /// `["server",text]`
    Server {
        text: &'a str,
    },
    /// `["connected"]`
    Connected,
    /// `["disconnected"]`
    Disconnected,
    /// `["out"]`
    Out,
    /// `["cover"]`
    Cover,
    /// `["view",listener]`
    View {
        listener: u64,
    },
    /// `["push",ms,[r1,..,r12]]`
    Push {
        now_ms: u64,
        random: [u8; 12],
    },
}

fn set(words: &[Value]) -> Option<Written<'_>>
    ensures { option_map as_written result ≡ set_words (views words.now) }
{
    let [path, value] = words else {
        return None;
    };
    Some(Written::Set {
        path: path.as_str()?,
        value,
    })
}

fn update(words: &[Value]) -> Option<Written<'_>>
    ensures { option_map as_written result ≡ update_words (views words.now) }
{
    let [entries] = words else {
        return None;
    };
    Some(Written::Update {
        entries: entries.as_object()?,
    })
}

fn remove(words: &[Value]) -> Option<Written<'_>>
    ensures { option_map as_written result ≡ remove_words (views words.now) }
{
    let [path] = words else {
        return None;
    };
    Some(Written::Remove {
        path: path.as_str()?,
    })
}

// What a set, an update or a remove sets.
fn written_of<'a>(name: &str, words: &'a [Value]) -> Option<Written<'a>>
    ensures { option_map as_written result ≡ written_in name.now (views words.entry.now) }
{
    match name {
        "set" => set(words),
        "update" => update(words),
        "remove" => remove(words),
        _ => None,
    }
}

fn write<'a>(name: &str, words: &'a [Value]) -> Option<LineForm<'a>>
    ensures { option_map as_form result ≡ write_form name.now (views words.entry.now) }
{
    let [seat, words @ ..] = words else {
        return None;
    };
    Some(LineForm::Write {
        seat: seat_of(seat)?,
        written: written_of(name, words)?,
    })
}

fn unlisten(words: &[Value]) -> Option<LineForm<'_>>
    ensures { option_map as_form result ≡ unlisten_form (views words.now) }
{
    let [seat, listener] = words else {
        return None;
    };
    Some(LineForm::Unlisten {
        seat: seat_of(seat)?,
        listener: listener.as_u64()?,
    })
}

fn cancel(seat: u64, words: &[Value]) -> Option<LineForm<'_>>
    ensures { option_map as_form result ≡ cancel_form seat (views words.now) }
{
    let [path] = words else {
        return None;
    };
    Some(LineForm::CancelDisconnect {
        seat,
        path: path.as_str()?,
    })
}

// What is asked for the end of the connection.
fn ending<'a>(seat: u64, what: &str, words: &'a [Value]) -> Option<LineForm<'a>>
    ensures { option_map as_form result ≡ ending_form seat what.now (views words.entry.now) }
{
    if what == "cancel" {
        return cancel(seat, words);
    }
    Some(LineForm::OnDisconnect {
        seat,
        written: written_of(what, words)?,
    })
}

fn on_disconnect(words: &[Value]) -> Option<LineForm<'_>>
    ensures { option_map as_form result ≡ on_disconnect_form (views words.now) }
{
    let [seat, what, words @ ..] = words else {
        return None;
    };
    ending(seat_of(seat)?, what.as_str()?, words)
}

fn close(words: &[Value]) -> Option<LineForm<'_>>
    ensures { option_map as_form result ≡ close_form (views words.now) }
{
    let [seat] = words else {
        return None;
    };
    Some(LineForm::Close {
        seat: seat_of(seat)?,
    })
}

fn data(words: &[Value]) -> Option<LineForm<'_>>
    ensures { option_map as_form result ≡ data_form (views words.now) }
{
    let [tag, path, value] = words else {
        return None;
    };
    Some(LineForm::Data {
        tag: tag.as_u64()?,
        path: path.as_str()?,
        value,
    })
}

fn merge(words: &[Value]) -> Option<LineForm<'_>>
    ensures { option_map as_form result ≡ merge_form (views words.now) }
{
    let [tag, entries] = words else {
        return None;
    };
    Some(LineForm::Merge {
        tag: tag.as_u64()?,
        entries: entries.as_object()?,
    })
}

fn ok(words: &[Value]) -> Option<LineForm<'_>>
    ensures { option_map as_form result ≡ ok_form (views words.now) }
{
    let [id] = words else {
        return None;
    };
    Some(LineForm::Accepted { id: id.as_u64()? })
}

fn no(words: &[Value]) -> Option<LineForm<'_>>
    ensures { option_map as_form result ≡ no_form (views words.now) }
{
    let [id, why] = words else {
        return None;
    };
    Some(LineForm::Refused {
        id: id.as_u64()?,
        why: why.as_str()?,
    })
}

fn revoke(words: &[Value]) -> Option<LineForm<'_>>
    ensures { option_map as_form result ≡ revoke_form (views words.now) }
{
    let [tag, why] = words else {
        return None;
    };
    Some(LineForm::Revoked {
        tag: tag.as_u64()?,
        why: why.as_str()?,
    })
}

fn server(words: &[Value]) -> Option<LineForm<'_>>
    ensures { option_map as_form result ≡ server_form (views words.now) }
{
    let [text] = words else {
        return None;
    };
    Some(LineForm::Server {
        text: text.as_str()?,
    })
}

// A line without words.
fn lone<'a>(form: LineForm<'a>, words: &[Value]) -> Option<LineForm<'a>>
    ensures { option_map as_form result ≡ lone_form (as_form form.entry) (views words.now) }
{
    if words.is_empty() { Some(form) } else { None }
}

fn view(words: &[Value]) -> Option<LineForm<'_>>
    ensures { option_map as_form result ≡ view_form (views words.now) }
{
    let [listener] = words else {
        return None;
    };
    Some(LineForm::View {
        listener: listener.as_u64()?,
    })
}

fn push(words: &[Value]) -> Option<LineForm<'_>>
    ensures { option_map as_form result ≡ push_form (views words.now) }
{
    let [now_ms, random] = words else {
        return None;
    };
    Some(LineForm::Push {
        now_ms: now_ms.as_u64()?,
        random: random_of(random)?,
    })
}

// What the server sends, by that name.
fn server_named<'a>(name: &str, words: &'a [Value]) -> Option<LineForm<'a>>
    ensures { option_map as_form result ≡ server_named name.now (views words.entry.now) }
{
    match name {
        "data" => data(words),
        "merge" => merge(words),
        "ok" => ok(words),
        "no" => no(words),
        "revoke" => revoke(words),
        "server" => server(words),
        _ => None,
    }
}

// The connection, looks at the core and push ids, or what the server sends.
fn lone_named<'a>(name: &str, words: &'a [Value]) -> Option<LineForm<'a>>
    ensures { option_map as_form result ≡ lone_named name.now (views words.entry.now) }
{
    match name {
        "connected" => lone(LineForm::Connected, words),
        "disconnected" => lone(LineForm::Disconnected, words),
        "out" => lone(LineForm::Out, words),
        "cover" => lone(LineForm::Cover, words),
        "view" => view(words),
        "push" => push(words),
        _ => server_named(name, words),
    }
}

// What a seat asks for beside listens, or another line.
fn seat_named<'a>(name: &str, words: &'a [Value]) -> Option<LineForm<'a>>
    ensures { option_map as_form result ≡ seat_named name.now (views words.entry.now) }
{
    match name {
        "unlisten" => unlisten(words),
        "set" => write(name, words),
        "update" => write(name, words),
        "remove" => write(name, words),
        "onDisconnect" => on_disconnect(words),
        "close" => close(words),
        _ => lone_named(name, words),
    }
}

fn listen<'a>(alloc: Global, words: &'a [Value]) -> Result<LineForm<'a>, LineError>
    ensures ok { IfOk result (λ form. listen_form (views words.entry.now) ≡ Some (as_form form)) }
    ensures err { IfErr result (λ e. (e ≡ LineError.Bad) × (listen_form (views words.entry.now) ≡ None)
        ⊎ (e ≡ LineError.NoMemory)) }
{
    let [seat, path, calls] = words else {
        return Err(LineError::Bad);
    };
    let seat = seat_of(seat).ok_or(LineError::Bad)?;
    let path = path.as_str().ok_or(LineError::Bad)?;
    let calls = calls_in(alloc, calls)?;
    Ok(LineForm::Listen { seat, path, calls })
}

// The part of these words.
fn part_of(words: &[Value]) -> Option<PartWords<'_>>
    ensures { option_map as_part result ≡ part_words (views words.now) }
{
    let [tag, entries] = words else {
        return None;
    };
    Some(PartWords {
        tag: tag.as_u64()?,
        entries: entries.as_object()?,
    })
}

// The part that a JSON value is.
fn part(value: &Value) -> Option<PartWords<'_>>
    ensures { option_map as_part result ≡ part_in (data_of value.now) }
{
    part_of(value.as_array()?.as_slice())
}

// The parts that JSON values are, each of that form.
fn all_parts<'a>(alloc: Global, values: &'a [Value]) -> Result<Vec<PartWords<'a>>, LineError>
    ensures ok { IfOk result (λ found. all_parts (views values.entry.now)
        ≡ Some (as_parts found.items)) }
    ensures err { IfErr result (λ e. (e ≡ LineError.Bad) × (all_parts (views values.entry.now) ≡ None)
        ⊎ (e ≡ LineError.NoMemory)) }
{
    let mut found = Vec::new(alloc);
    for value in values {
        found.push(part(value).ok_or(LineError::Bad)?)?;
    }
    Ok(found)
}

// The parts of an array.
#[tactic(auto, using(crate::proofs::Lists::parts_in_array))]
fn parts_in(alloc: Global, value: &Value) -> Result<Vec<PartWords<'_>>, LineError>
    ensures ok { IfOk result (λ found. parts_in (data_of value.entry.now)
        ≡ Some (as_parts found.items)) }
    ensures err { IfErr result (λ e. (e ≡ LineError.Bad) × (parts_in (data_of value.entry.now) ≡ None)
        ⊎ (e ≡ LineError.NoMemory)) }
{
    match value.as_array() {
        Some(values) => all_parts(alloc, values.as_slice()),
        None => Err(LineError::Bad),
    }
}

// The parts that are pushed together.
fn parts<'a>(alloc: Global, words: &'a [Value]) -> Result<LineForm<'a>, LineError>
    ensures ok { IfOk result (λ form. parts_form (views words.entry.now) ≡ Some (as_form form)) }
    ensures err { IfErr result (λ e. (e ≡ LineError.Bad) × (parts_form (views words.entry.now) ≡ None)
        ⊎ (e ≡ LineError.NoMemory)) }
{
    let [value] = words else {
        return Err(LineError::Bad);
    };
    let parts = parts_in(alloc, value)?;
    Ok(LineForm::Parts { parts })
}

/// A line of that name.
pub(crate) fn named<'a>(
    alloc: Global,
    name: &str,
    words: &'a [Value],
) -> Result<LineForm<'a>, LineError>
    ensures ok { IfOk result (λ form. form_named name.now (views words.entry.now)
        ≡ Some (as_form form)) }
    ensures err { IfErr result (λ e.
        (e ≡ LineError.Bad) × (form_named name.now (views words.entry.now) ≡ None)
        ⊎ (e ≡ LineError.NoMemory)) }
{
    if name == "listen" {
        return listen(alloc, words);
    }
    if name == "parts" {
        return parts(alloc, words);
    }
    match seat_named(name, words) {
        Some(form) => Ok(form),
        None => Err(LineError::Bad),
    }
}

/// The form that a JSON value has.
pub(crate) fn form_of(alloc: Global, value: &Value) -> Result<LineForm<'_>, LineError>
    ensures ok { IfOk result (λ form. form_in (data_of value.entry.now) ≡ Some (as_form form)) }
    ensures err { IfErr result (λ e. (e ≡ LineError.Bad) × (form_in (data_of value.entry.now) ≡ None)
        ⊎ (e ≡ LineError.NoMemory)) }
{
    match parts_of(value) {
        Some((name, words)) => named(alloc, name, words),
        None => Err(LineError::Bad),
    }
}
