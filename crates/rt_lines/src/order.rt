// What a line asks of a client that is connected.
ghost use Rattle.std.specs.Prelude.{◌≡◌, ◌⊎◌, IfOk, IfErr, Some, None, Ok, Err};
ghost use Rattle.serde_json.specs.View.{view as data_of};
ghost use Rattle.rt_lines.specs.Orders.{order_in, order_named, order_of_bytes, order_of_data, times_in};
ghost use Rattle.rt_lines.specs.inside.FormView.{as_calls, as_form, as_written, views};
ghost use Rattle.rt_lines.specs.Typing.{push_in, push_of, typed_named, typed_of_bytes, typed_of_data};
ghost use Rattle.rt_lines.specs.Typing.{view_in};
ghost use Rattle.rt_lines.specs.Forms as form;

use crate::call::{QueryCall, query_of};
use crate::error::{LineError, LinesTaken};
use crate::form::{LineForm, Written, named};
use crate::line::value_of;
use crate::words::{action_of, parts_of, path_of, seat_of, tree_of};
use rt_tree::{Path, Tree};
use rt_wire::Ending;
use rt_world::Call;
use serde_json::Value;
use std::alloc::Global;

/// The most messages that one line reads.
pub const MOST_READ: u64 = 1_000;

/// What a line asks of a client that is connected.
#[derive(Drop)]
pub enum Order {
    /// A call of the seat of that number.
    Seat { seat: u64, call: Call },
    /// The end of the seat of that number.
    Close { seat: u64 },
    /// The listens that are kept.
    Cover,
    /// So many messages of the server, from 1 to 1,000.
    Read { times: u64 },
}

// How many messages are to be read: `["read",n]`.
fn times_of(words: &[Value]) -> Option<u64>
    ensures { result ≡ times_in (views words.now) }
{
    let [n] = words else {
        return None;
    };
    match n.as_u64() {
        Some(times) if 0 < times && times <= MOST_READ => Some(times),
        _ => None,
    }
}

// A listen of a seat.
fn listen(
    alloc: Global,
    seat: u64,
    path: &str,
    calls: Vec<QueryCall<'_>>,
) -> Result<Order, LineError>
    ensures ok { IfOk result (λ order. order_in (form.Listen seat path.now (as_calls calls.entry.items))
        ≡ Ok order) }
    ensures fault { IfErr result (λ e.
        (order_in (form.Listen seat path.now (as_calls calls.entry.items)) ≡ Err e)
        ⊎ (e ≡ LineError.NoMemory)) }
{
    let query = query_of(alloc, path, calls)?;
    let call = Call::Listen { query };
    Ok(Order::Seat { seat, call })
}

// A write of a seat.
fn write(alloc: Global, seat: u64, written: Written<'_>) -> Result<Order, LineError>
    ensures ok { IfOk result (λ order. order_in (form.Write seat (as_written written.entry))
        ≡ Ok order) }
    ensures fault { IfErr result (λ e.
        (order_in (form.Write seat (as_written written.entry)) ≡ Err e) ⊎ (e ≡ LineError.NoMemory)) }
{
    let action = action_of(alloc, written)?;
    let call = Call::Write { action };
    Ok(Order::Seat { seat, call })
}

// A write that a seat asks for at the end of the connection.
fn run_at_end(alloc: Global, seat: u64, written: Written<'_>) -> Result<Order, LineError>
    ensures ok { IfOk result (λ order. order_in (form.OnDisconnect seat (as_written written.entry))
        ≡ Ok order) }
    ensures fault { IfErr result (λ e.
        (order_in (form.OnDisconnect seat (as_written written.entry)) ≡ Err e)
        ⊎ (e ≡ LineError.NoMemory)) }
{
    let ending = Ending::Run(action_of(alloc, written)?);
    let call = Call::OnDisconnect { ending };
    Ok(Order::Seat { seat, call })
}

// A seat asks that nothing be done there any more at the end of the connection.
fn cancel_at_end(alloc: Global, seat: u64, path: &str) -> Result<Order, LineError>
    ensures ok { IfOk result (λ order. order_in (form.CancelDisconnect seat path.now) ≡ Ok order) }
    ensures fault { IfErr result (λ e. (order_in (form.CancelDisconnect seat path.now) ≡ Err e)
        ⊎ (e ≡ LineError.NoMemory)) }
{
    let ending = Ending::Cancel(path_of(alloc, path)?);
    let call = Call::OnDisconnect { ending };
    Ok(Order::Seat { seat, call })
}

// The order that a line of a script's form is.
fn order_of(alloc: Global, form: LineForm<'_>) -> Result<Order, LineError>
    ensures ok { IfOk result (λ order. order_in (as_form form.entry) ≡ Ok order) }
    ensures fault { IfErr result (λ e. (order_in (as_form form.entry) ≡ Err e)
        ⊎ (e ≡ LineError.NoMemory)) }
{
    match form {
        LineForm::Listen { seat, path, calls } => listen(alloc, seat, path, calls),
        LineForm::Unlisten { seat, listener } => {
            let call = Call::Unlisten { listener };
            Ok(Order::Seat { seat, call })
        }
        LineForm::Write { seat, written } => write(alloc, seat, written),
        LineForm::OnDisconnect { seat, written } => run_at_end(alloc, seat, written),
        LineForm::CancelDisconnect { seat, path } => cancel_at_end(alloc, seat, path),
        LineForm::Close { seat } => Ok(Order::Close { seat }),
        LineForm::Cover => Ok(Order::Cover),
        LineForm::Data { .. }
        | LineForm::Merge { .. }
        | LineForm::Parts { .. }
        | LineForm::Accepted { .. }
        | LineForm::Refused { .. }
        | LineForm::Revoked { .. }
        | LineForm::Server { .. }
        | LineForm::Connected
        | LineForm::Disconnected
        | LineForm::Out
        | LineForm::View { .. }
        | LineForm::Push { .. } => Err(LineError::Bad),
    }
}

// The order of that name.
pub(crate) fn order_of_name(alloc: Global, name: &str, words: &[Value]) -> Result<Order, LineError>
    ensures ok { IfOk result (λ order. order_named name.now (views words.now) ≡ Ok order) }
    ensures fault { IfErr result (λ e. (order_named name.now (views words.now) ≡ Err e)
        ⊎ (e ≡ LineError.NoMemory)) }
{
    if name == "read" {
        return match times_of(words) {
            Some(times) => Ok(Order::Read { times }),
            None => Err(LineError::Bad),
        };
    }
    order_of(alloc, named(alloc, name, words)?)
}

// The order that a JSON value is.
fn order_of_value(alloc: Global, value: &Value) -> Result<Order, LineError>
    ensures ok { IfOk result (λ order. order_of_data (data_of value.now) ≡ Ok order) }
    ensures fault { IfErr result (λ e. (order_of_data (data_of value.now) ≡ Err e)
        ⊎ (e ≡ LineError.NoMemory)) }
{
    match parts_of(value) {
        Some((name, words)) => order_of_name(alloc, name, words),
        None => Err(LineError::Bad),
    }
}

impl Order {
    /// Reads a line, without the line feed at its end. The form of the whole line is looked at
    /// first, then its words in their order.
    ///
    /// # Errors
    ///
    /// `Bad` where the line is no UTF-8, no JSON, or is no order, as a line of no bytes and a line of a
    /// script that is not one; `Refused` by the first of its words that is refused, never by the client;
    /// `NoMemory`.
    pub fn read(alloc: Global, bytes: &[u8]) -> Result<Order, LineError>
        ensures ok { IfOk result (λ order. order_of_bytes bytes.now ≡ Ok order) }
        ensures fault { IfErr result (λ e. (order_of_bytes bytes.now ≡ Err e)
            ⊎ (e ≡ LineError.NoMemory)) }
    {
        order_of_value(alloc, &value_of(alloc, bytes)?)
    }
}

// ---- what a line asks of a client that is watched

/// What a line asks of a client that is watched.
#[derive(Drop)]
pub enum Typed {
    /// What it asks of any client that is connected.
    Order(Order),
    /// What the listener of that number shows.
    View { listener: u64 },
    /// A write of the seat of that number below the path, by a push id.
    Push { seat: u64, path: Path, tree: Tree },
}

// What a listener shows: `["view",listener]`.
fn viewed(words: &[Value]) -> Result<Typed, LineError>
    ensures { result ≡ view_in (views words.now) }
{
    let [listener] = words else {
        return Err(LineError::Bad);
    };
    match listener.as_u64() {
        Some(listener) => Ok(Typed::View { listener }),
        None => Err(LineError::Bad),
    }
}

// A write below that path.
fn push_of(alloc: Global, seat: u64, path: &str, value: &Value) -> Result<Typed, LineError>
    ensures ok { IfOk result (λ typed. push_of seat path.now (data_of value.now) ≡ Ok typed) }
    ensures fault { IfErr result (λ e. (push_of seat path.now (data_of value.now) ≡ Err e)
        ⊎ (e ≡ LineError.NoMemory)) }
{
    let path = path_of(alloc, path)?;
    let tree = tree_of(alloc, value)?;
    Ok(Typed::Push { seat, path, tree })
}

// A write by a push id: `["push",seat,path,value]`.
fn pushed(alloc: Global, words: &[Value]) -> Result<Typed, LineError>
    ensures ok { IfOk result (λ typed. push_in (views words.now) ≡ Ok typed) }
    ensures fault { IfErr result (λ e. (push_in (views words.now) ≡ Err e) ⊎ (e ≡ LineError.NoMemory)) }
{
    let [seat, path, value] = words else {
        return Err(LineError::Bad);
    };
    match (seat_of(seat), path.as_str()) {
        (Some(seat), Some(path)) => push_of(alloc, seat, path, value),
        (Some(_), None) | (None, _) => Err(LineError::Bad),
    }
}

// What the line of that name asks for.
fn typed_of_name(alloc: Global, name: &str, words: &[Value]) -> Result<Typed, LineError>
    ensures ok { IfOk result (λ typed. typed_named name.now (views words.now) ≡ Ok typed) }
    ensures fault { IfErr result (λ e. (typed_named name.now (views words.now) ≡ Err e)
        ⊎ (e ≡ LineError.NoMemory)) }
{
    if name == "view" {
        return viewed(words);
    }
    if name == "push" {
        return pushed(alloc, words);
    }
    Ok(Typed::Order(order_of_name(alloc, name, words)?))
}

// What a JSON value asks for.
fn typed_of_value(alloc: Global, value: &Value) -> Result<Typed, LineError>
    ensures ok { IfOk result (λ typed. typed_of_data (data_of value.now) ≡ Ok typed) }
    ensures fault { IfErr result (λ e. (typed_of_data (data_of value.now) ≡ Err e)
        ⊎ (e ≡ LineError.NoMemory)) }
{
    match parts_of(value) {
        Some((name, words)) => typed_of_name(alloc, name, words),
        None => Err(LineError::Bad),
    }
}

impl Typed {
    /// Reads a line, without the line feed at its end. The form of the whole line is looked at
    /// first, then its words in their order.
    ///
    /// # Errors
    ///
    /// As of [`Order::read`].
    pub fn read(alloc: Global, bytes: &[u8]) -> Result<Typed, LineError>
        ensures ok { IfOk result (λ typed. typed_of_bytes bytes.now ≡ Ok typed) }
        ensures fault { IfErr result (λ e. (typed_of_bytes bytes.now ≡ Err e)
            ⊎ (e ≡ LineError.NoMemory)) }
    {
        typed_of_value(alloc, &value_of(alloc, bytes)?)
    }
}

// ---- the lines that each command takes

/// The lines of a script.
pub const SCRIPT_LINES: LinesTaken = LinesTaken {
    words: "\
connected, disconnected, listen, unlisten, set, update, remove, onDisconnect, close, data, merge, parts, \
ok, no, revoke, server, view, cover, out and push",
    forms: &[
        ("connected", "[\"connected\"]"),
        ("disconnected", "[\"disconnected\"]"),
        ("listen", "[\"listen\",SEAT,PATH,[CALL,..]]"),
        ("unlisten", "[\"unlisten\",SEAT,LISTENER]"),
        ("set", "[\"set\",SEAT,PATH,VALUE]"),
        ("update", "[\"update\",SEAT,{PATH:VALUE,..}]"),
        ("remove", "[\"remove\",SEAT,PATH]"),
        (
            "onDisconnect",
            "[\"onDisconnect\",SEAT,\"set\",PATH,VALUE], or with \"update\",{PATH:VALUE,..}, with \
\"remove\",PATH or with \"cancel\",PATH",
        ),
        ("close", "[\"close\",SEAT]"),
        ("data", "[\"data\",TAG,PATH,VALUE]"),
        ("merge", "[\"merge\",TAG,{PATH:VALUE,..}]"),
        ("parts", "[\"parts\",[[TAG,{PATH:VALUE,..}],..]]"),
        ("ok", "[\"ok\",REQUEST]"),
        ("no", "[\"no\",REQUEST,REASON]"),
        ("revoke", "[\"revoke\",TAG,REASON]"),
        ("server", "[\"server\",TEXT]"),
        ("view", "[\"view\",LISTENER]"),
        ("cover", "[\"cover\"]"),
        ("out", "[\"out\"]"),
        ("push", "[\"push\",MS,[RANDOM,..]], with twelve numbers"),
    ],
};

/// The lines of a client that is driven.
pub const CONNECT_LINES: LinesTaken = LinesTaken {
    words: "\
listen, unlisten, set, update, remove, onDisconnect, close, cover and read",
    forms: &[
        ("listen", "[\"listen\",SEAT,PATH,[CALL,..]]"),
        ("unlisten", "[\"unlisten\",SEAT,LISTENER]"),
        ("set", "[\"set\",SEAT,PATH,VALUE]"),
        ("update", "[\"update\",SEAT,{PATH:VALUE,..}]"),
        ("remove", "[\"remove\",SEAT,PATH]"),
        (
            "onDisconnect",
            "[\"onDisconnect\",SEAT,\"set\",PATH,VALUE], or with \"update\",{PATH:VALUE,..}, with \
\"remove\",PATH or with \"cancel\",PATH",
        ),
        ("close", "[\"close\",SEAT]"),
        ("cover", "[\"cover\"]"),
        ("read", "[\"read\",N], with N from 1 to 1000"),
    ],
};

/// The lines of a client that is watched.
pub const WATCH_LINES: LinesTaken = LinesTaken {
    words: "\
listen, unlisten, set, update, remove, onDisconnect, close, cover, view and push",
    forms: &[
        ("listen", "[\"listen\",SEAT,PATH,[CALL,..]]"),
        ("unlisten", "[\"unlisten\",SEAT,LISTENER]"),
        ("set", "[\"set\",SEAT,PATH,VALUE]"),
        ("update", "[\"update\",SEAT,{PATH:VALUE,..}]"),
        ("remove", "[\"remove\",SEAT,PATH]"),
        (
            "onDisconnect",
            "[\"onDisconnect\",SEAT,\"set\",PATH,VALUE], or with \"update\",{PATH:VALUE,..}, with \
\"remove\",PATH or with \"cancel\",PATH",
        ),
        ("close", "[\"close\",SEAT]"),
        ("cover", "[\"cover\"]"),
        ("view", "[\"view\",LISTENER]"),
        ("push", "[\"push\",SEAT,PATH,VALUE]"),
    ],
};
