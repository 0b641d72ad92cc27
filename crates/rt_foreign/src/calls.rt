// What a call asks for, by its texts.
ghost use Rattle.std.specs.Prelude.{◌≡◌, ◌⊎◌, ◌++◌, string_bytes, IfOk, IfErr, OnOk, Ok, Err};
ghost use Rattle.std.specs.Option.{option_copied};
ghost use Rattle.serde_json.specs.View.{view};
ghost use Rattle.rt_foreign.specs.Reading.{in_order, json_read, limited_words, order_alone, ordered_read};
ghost use Rattle.rt_foreign.specs.Reading.{at_end_words, cancel_read, filtered_read, listen_read};
ghost use Rattle.rt_foreign.specs.Reading.{listen_words, order_read, path_read, put_read, query_in};
ghost use Rattle.rt_foreign.specs.Reading.{query_read, removal_read, text_read, tree_read, update_words};
ghost use Rattle.rt_foreign.specs.Reading as reading;

use crate::item::json_of;
use rt_lines::{LineError, Order, Refusal};
use rt_order::Index;
use rt_query::Query;
use rt_tree::{Path, Tree, TreeError};
use rt_wire::{Action, ClientMessage, Ending, WireError};
use rt_world::Call;
use serde_json::Value;
use std::alloc::{AllocError, Global};

/// The text of bytes.
#[tactic(auto, using(crate::proofs::Texts::text_good, crate::proofs::Texts::text_bad))]
pub(crate) fn text_of(bytes: &[u8]) -> Result<&str, LineError>
    ensures ok { IfOk result (λ text. text_read bytes.entry.now ≡ Ok text.now) }
    ensures fault { IfErr result (λ e. text_read bytes.entry.now ≡ Err e) }
    ensures same { IfOk result (λ text. text.now ≡ bytes.entry.now) }
{
    match str::from_utf8(bytes) {
        Ok(text) => Ok(text),
        Err(_) => Err(LineError::Bad),
    }
}

// The path of bytes, in any spelling.
#[tactic(auto, using(crate::proofs::Texts::path_good, crate::proofs::Texts::path_bad))]
fn path_of(alloc: Global, bytes: &[u8]) -> Result<Path, LineError>
    ensures ok { IfOk result (λ path. path_read bytes.now ≡ Ok path) }
    ensures text { OnOk result (text_read bytes.now ≡ Ok bytes.now) }
    ensures fault { IfErr result (λ e. (path_read bytes.now ≡ Err e) ⊎ (e ≡ LineError.NoMemory)) }
{
    match Path::parse(alloc, text_of(bytes)?) {
        Ok(path) => Ok(path),
        Err(TreeError::NoMemory) => Err(LineError::NoMemory),
        Err(error) => Err(LineError::Refused(Refusal::Tree(error))),
    }
}

// The tree of bytes that are JSON.
#[tactic(auto, using(crate::proofs::Texts::tree_good, crate::proofs::Texts::tree_bad))]
fn tree_of(alloc: Global, bytes: &[u8]) -> Result<Tree, LineError>
    ensures ok { IfOk result (λ tree. tree_read bytes.now ≡ Ok tree) }
    ensures fault { IfErr result (λ e. (tree_read bytes.now ≡ Err e) ⊎ (e ≡ LineError.NoMemory)) }
{
    match Tree::read(alloc, text_of(bytes)?) {
        Ok(tree) => Ok(tree),
        Err(TreeError::NoMemory) => Err(LineError::NoMemory),
        Err(error) => Err(LineError::Refused(Refusal::Tree(error))),
    }
}

// A tree at a path.
fn put_of(alloc: Global, path: &[u8], tree: &[u8]) -> Result<Action, LineError>
    ensures ok { IfOk result (λ action. put_read path.now tree.now ≡ Ok action) }
    ensures fault { IfErr result (λ e. (put_read path.now tree.now ≡ Err e) ⊎ (e ≡ LineError.NoMemory)) }
{
    let path = path_of(alloc, path)?;
    let tree = tree_of(alloc, tree)?;
    Ok(Action::Put { path, tree })
}

/// A write that sets a tree at a path.
pub fn set_call(alloc: Global, path: &[u8], tree: &[u8]) -> Result<Call, LineError>
    ensures ok { IfOk result (λ call. reading.set_read path.now tree.now ≡ Ok call) }
    ensures fault { IfErr result (λ e.
        (reading.set_read path.now tree.now ≡ Err e) ⊎ (e ≡ LineError.NoMemory)) }
{
    let action = put_of(alloc, path, tree)?;
    Ok(Call::Write { action })
}

/// A write that removes what is at a path.
pub fn remove_call(alloc: Global, path: &[u8]) -> Result<Call, LineError>
    ensures ok { IfOk result (λ call. removal_read path.now ≡ Ok call) }
    ensures fault { IfErr result (λ e. (removal_read path.now ≡ Err e) ⊎ (e ≡ LineError.NoMemory)) }
{
    let path = path_of(alloc, path)?;
    let tree = Tree::null();
    let action = Action::Put { path, tree };
    Ok(Call::Write { action })
}

/// A request for the end of the connection: to set a tree at a path.
pub fn at_end_call(alloc: Global, path: &[u8], tree: &[u8]) -> Result<Call, LineError>
    ensures ok { IfOk result (λ call. reading.at_end_read path.now tree.now ≡ Ok call) }
    ensures fault { IfErr result (λ e.
        (reading.at_end_read path.now tree.now ≡ Err e) ⊎ (e ≡ LineError.NoMemory)) }
{
    let ending = Ending::Run(put_of(alloc, path, tree)?);
    Ok(Call::OnDisconnect { ending })
}

/// A request that nothing be done at and below a path at the end of the connection.
pub fn cancel_call(alloc: Global, path: &[u8]) -> Result<Call, LineError>
    ensures ok { IfOk result (λ call. cancel_read path.now ≡ Ok call) }
    ensures fault { IfErr result (λ e. (cancel_read path.now ≡ Err e) ⊎ (e ≡ LineError.NoMemory)) }
{
    let ending = Ending::Cancel(path_of(alloc, path)?);
    Ok(Call::OnDisconnect { ending })
}

// These bytes between two others.
fn between(alloc: Global, head: &str, words: &[u8], tail: &str) -> Result<Vec<u8>, AllocError>
    ensures { IfOk result (λ all. all.items ≡ head.now ++ words.now ++ tail.now) }
{
    let mut all = Vec::with_capacity(alloc, 64)?;
    all.extend_from_slice(head.as_bytes())?;
    all.extend_from_slice(words)?;
    all.extend_from_slice(tail.as_bytes())?;
    Ok(all)
}

// The call that a script's line asks for.
fn line_call(alloc: Global, line: &[u8]) -> Result<Call, LineError>
    ensures ok { IfOk result (λ call. order_read line.now ≡ Ok call) }
    ensures fault { IfErr result (λ e. (order_read line.now ≡ Err e) ⊎ (e ≡ LineError.NoMemory)) }
{
    match Order::read(alloc, line)? {
        Order::Seat { seat: _, call } => Ok(call),
        Order::Close { .. } | Order::Cover | Order::Read { .. } => Err(LineError::Bad),
    }
}

/// A write that sets several trees, each at its path.
pub fn update_call(alloc: Global, entries: &[u8]) -> Result<Call, LineError>
    ensures ok { IfOk result (λ call. order_read (update_words entries.now) ≡ Ok call) }
    ensures fault { IfErr result (λ e.
        (order_read (update_words entries.now) ≡ Err e) ⊎ (e ≡ LineError.NoMemory)) }
{
    let line = between(alloc, "[\"update\",1,", entries, "]")?;
    line_call(alloc, line.as_slice())
}

/// A request for the end of the connection: to set several trees, each at its path.
pub fn update_at_end_call(alloc: Global, entries: &[u8]) -> Result<Call, LineError>
    ensures ok { IfOk result (λ call. order_read (at_end_words entries.now) ≡ Ok call) }
    ensures fault { IfErr result (λ e.
        (order_read (at_end_words entries.now) ≡ Err e) ⊎ (e ≡ LineError.NoMemory)) }
{
    let line = between(alloc, "[\"onDisconnect\",1,\"update\",", entries, "]")?;
    line_call(alloc, line.as_slice())
}

// The JSON of a text.
fn json_in(alloc: Global, text: &str) -> Result<Value, LineError>
    ensures ok { IfOk result (λ value. json_read text.now ≡ Ok (view value)) }
    ensures fault { IfErr result (λ e. (json_read text.now ≡ Err e) ⊎ (e ≡ LineError.NoMemory)) }
{
    match Value::from_str(alloc, text) {
        Ok(value) => Ok(value),
        Err(error) => {
            if error.is_memory() {
                Err(LineError::NoMemory)
            } else {
                Err(LineError::Bad)
            }
        }
    }
}

// The order of a `q` that has nothing beside it.
fn order_alone(q: &Value) -> Option<&str>
    ensures { option_copied result ≡ order_alone (view q.now) }
{
    if q.get("limit").is_some() || q.get("lower").is_some() || q.get("upper").is_some() {
        return None;
    }
    match q.get("order") {
        Some(order) => order.as_str(),
        None => None,
    }
}

// The message that listens to that path with that `q`.
fn listen_text(alloc: Global, path: &str, q: &str) -> Result<String, AllocError>
    ensures { IfOk result (λ text. string_bytes text ≡ listen_words path.now q.now) }
{
    let path = json_of(alloc, path)?;
    format!(in alloc; "{{\"k\":\"listen\",\"path\":{path},\"q\":{q},\"tag\":1}}")
}

// The query of a message that listens.
fn listened(alloc: Global, text: &str) -> Result<Query, LineError>
    ensures ok { IfOk result (λ query. query_in text.now ≡ Ok query) }
    ensures fault { IfErr result (λ e. (query_in text.now ≡ Err e) ⊎ (e ≡ LineError.NoMemory)) }
{
    match ClientMessage::read(alloc, text) {
        Ok(ClientMessage::Listen { tag: _, query }) => Ok(query),
        Ok(
            message @ (ClientMessage::Hello { .. }
            | ClientMessage::Unlisten { .. }
            | ClientMessage::Ask { .. }),
        ) => {
            drop(message);
            Err(LineError::Bad)
        }
        Err(WireError::NoMemory) => Err(LineError::NoMemory),
        Err(error) => Err(LineError::Refused(Refusal::Wire(error))),
    }
}

// The query of a message that listens to that path with that `q`.
fn listened_with(alloc: Global, path: &str, q: &str) -> Result<Query, LineError>
    ensures ok { IfOk result (λ query. query_in (listen_words path.now q.now) ≡ Ok query) }
    ensures fault { IfErr result (λ e.
        (query_in (listen_words path.now q.now) ≡ Err e) ⊎ (e ≡ LineError.NoMemory)) }
{
    let text = listen_text(alloc, path, q)?;
    listened(alloc, text.as_str())
}

// A `q` with that order and a limit.
fn limited_text(alloc: Global, order: &str) -> Result<String, AllocError>
    ensures { IfOk result (λ text. string_bytes text ≡ limited_words order.now) }
{
    let order = json_of(alloc, order)?;
    format!(in alloc; "{{\"limit\":[\"first\",1],\"order\":{order}}}")
}

// All children of a query's path, in its order.
fn in_order(query: &Query) -> Result<Query, LineError>
    ensures ok { IfOk result (λ all. all ≡ in_order query.now) }
    ensures fault { IfErr result (λ e. e ≡ LineError.NoMemory) }
{
    let mut draft = Query::at(query.path().copy()?);
    let named = match query.index() {
        Index::Key => draft.order_by_key(),
        Index::Value => draft.order_by_value(),
        Index::Child(path) => draft.order_by_child(path.copy()?),
    };
    match named {
        Ok(()) => Ok(draft.done()),
        Err(_) => unreachable!(),
    }
}

// The query of a path and an order alone.
fn ordered(alloc: Global, path: &str, order: &str) -> Result<Query, LineError>
    ensures ok { IfOk result (λ query. ordered_read path.now order.now ≡ Ok query) }
    ensures fault { IfErr result (λ e. (ordered_read path.now order.now ≡ Err e) ⊎ (e ≡ LineError.NoMemory)) }
{
    let q = limited_text(alloc, order)?;
    let query = listened_with(alloc, path, q.as_str())?;
    in_order(&query)
}

// The query of a path and a `q`.
fn filtered(alloc: Global, path: &[u8], q: &[u8]) -> Result<Query, LineError>
    requires { text_read path.now ≡ Ok path.now }
    ensures ok { IfOk result (λ query. filtered_read path.now q.now ≡ Ok query) }
    ensures fault { IfErr result (λ e. (filtered_read path.now q.now ≡ Err e) ⊎ (e ≡ LineError.NoMemory)) }
{
    let path = text_of(path)?;
    let q = text_of(q)?;
    let json = json_in(alloc, q)?;
    match order_alone(&json) {
        Some(order) => ordered(alloc, path, order),
        None => listened_with(alloc, path, q),
    }
}

// The query of a path and a `q`; of no `q` it is all of the path.
fn query_of(alloc: Global, path: &[u8], q: &[u8]) -> Result<Query, LineError>
    ensures ok { IfOk result (λ query. query_read path.now q.now ≡ Ok query) }
    ensures fault { IfErr result (λ e. (query_read path.now q.now ≡ Err e) ⊎ (e ≡ LineError.NoMemory)) }
{
    let all = path_of(alloc, path)?;
    if q.is_empty() {
        return Ok(Query::at(all).done());
    }
    drop(all);
    filtered(alloc, path, q)
}

/// A listener for a path and a `q`.
pub fn listen_call(alloc: Global, path: &[u8], q: &[u8]) -> Result<Call, LineError>
    ensures ok { IfOk result (λ call. listen_read path.now q.now ≡ Ok call) }
    ensures fault { IfErr result (λ e. (listen_read path.now q.now ≡ Err e) ⊎ (e ≡ LineError.NoMemory)) }
{
    let query = query_of(alloc, path, q)?;
    Ok(Call::Listen { query })
}
