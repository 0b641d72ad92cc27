// What a request asks for.
ghost use Rattle.std.specs.Prelude.{◌≡◌, ◌⊎◌, ◌++◌, IfOk, IfErr, OnOk, Ok, Err, MatchResult};
ghost use Rattle.form_urlencoded.specs.Form.{raw_pairs};
ghost use Rattle.serde_json.specs.View.{members_view, view};
ghost use Rattle.rt_http.specs.Asks.{ask_at, asked_at, asked_of, bounded, entries_in, entry_of, filled, health_of, json_of, members_in};
ghost use Rattle.rt_http.specs.Asks.{object_of, path_with, read_at, read_entries, read_tree, spot_of, text_of, tree_in};

use crate::fault::Fault;
use crate::head::Method;
use crate::request::Request;
use crate::resource::{TargetPlace, does_query, path, place_of, query_in, split, words_of};
use rt_query::Query;
use rt_tree::{Key, Path, Tree, TreeError, tree_of_value};
use rt_wire::is_crowded;
use rt_writes::Entries;
use serde_json::{Map, Value};
use std::alloc::{AllocError, Global};
use std::str;

/// What a request asks for.
#[derive(Drop)]
pub enum Ask {
    /// Whether the server is there.
    Health,
    /// What a query shows.
    Read(Query),
    /// What is at a path, cut to its children.
    Look(Path),
    /// A tree is set at a path.
    Put(Path, Tree),
    /// Several trees are set, each at its path.
    Merge(Entries),
    /// A tree is set under a new key at a path.
    Push(Path, Tree),
    /// What is at a path is removed.
    Remove(Path),
}

/// What a request asks for, and how it is answered.
#[derive(Drop)]
pub struct Asked {
    /// What it asks for.
    pub ask: Ask,
    /// Whether the answer is laid out for a reader.
    pub is_pretty: bool,
}

// A text that holds no more than a message may.
fn bounded(text: &str) -> Result<&str, Fault>
    ensures { MatchResult result (λ kept. bounded text.now ≡ Ok kept.now) (λ e. bounded text.now ≡ Err e) }
{
    if is_crowded(text) {
        Err(Fault::Body(TreeError::TooManyNodes))
    } else {
        Ok(text)
    }
}

// A body as a text.
#[tactic(auto, using(crate::proofs::Texts::is_text, crate::proofs::Texts::is_no_text))]
fn text(body: &[u8]) -> Result<&str, Fault>
    ensures { MatchResult result (λ text. text_of body.now ≡ Ok text.now) (λ e. text_of body.now ≡ Err e) }
{
    match str::from_utf8(body) {
        Ok(text) => bounded(text),
        Err(_) => Err(Fault::BodyNoText),
    }
}

// The tree that a body is.
fn tree_of_body(alloc: Global, body: &[u8]) -> Result<Tree, Fault>
    ensures ok { IfOk result (λ tree. read_tree body.now ≡ Ok tree) }
    ensures fault { IfErr result (λ e. (read_tree body.now ≡ Err e) ⊎ (e ≡ Fault.NoMemory)) }
{
    match Tree::read(alloc, text(body)?) {
        Ok(tree) => Ok(tree),
        Err(TreeError::NoMemory) => Err(Fault::NoMemory),
        Err(error) => Err(Fault::Body(error)),
    }
}

// The JSON value that a body is.
fn json(alloc: Global, body: &[u8]) -> Result<Value, Fault>
    ensures ok { IfOk result (λ value. json_of body.now ≡ Ok (view value)) }
    ensures fault { IfErr result (λ e. (json_of body.now ≡ Err e) ⊎ (e ≡ Fault.NoMemory)) }
{
    match Value::from_str(alloc, text(body)?) {
        Ok(value) => Ok(value),
        Err(error) if error.is_memory() => Err(Fault::NoMemory),
        Err(_) => Err(Fault::NoObject),
    }
}

// The members of a value that is an object.
fn members_of(value: Value) -> Result<Map<String, Value>, Fault>
    ensures { MatchResult result (λ members. members_in (view value) ≡ Ok (members_view members.entries))
        (λ e. members_in (view value) ≡ Err e) }
{
    match value {
        Value::Object(members) => Ok(members),
        _ => Err(Fault::NoObject),
    }
}

// The object that a body is.
fn object(alloc: Global, body: &[u8]) -> Result<Map<String, Value>, Fault>
    ensures ok { IfOk result (λ members. object_of body.now ≡ Ok (members_view members.entries)) }
    ensures fault { IfErr result (λ e. (object_of body.now ≡ Err e) ⊎ (e ≡ Fault.NoMemory)) }
{
    members_of(json(alloc, body)?)
}

// Puts equal keys behind the others.
fn push_keys(keys: &mut Vec<Key>, more: &[Key]) -> Result<(), AllocError>
    ensures { OnOk result (keys.new.items ≡ keys.old.items ++ more.now) }
{
    for key in more {
        keys.push(key.copy()?)?;
    }
    Ok(())
}

// The path of some keys and then others.
fn joined(alloc: Global, base: &[Key], below: &[Key]) -> Result<Path, Fault>
    ensures ok { IfOk result (λ path. path_with (base.now ++ below.now) ≡ Ok path) }
    ensures fault { IfErr result (λ e. (path_with (base.now ++ below.now) ≡ Err e) ⊎ (e ≡ Fault.NoMemory)) }
{
    let mut keys = Vec::new(alloc);
    push_keys(&mut keys, base)?;
    push_keys(&mut keys, below)?;
    match Path::from_keys(alloc, keys.as_slice()) {
        Ok(path) => Ok(path),
        Err(TreeError::NoMemory) => Err(Fault::NoMemory),
        Err(error) => Err(Fault::Path(error)),
    }
}

// The path that a name means below another path.
fn spot(alloc: Global, base: &Path, name: &str) -> Result<Path, Fault>
    ensures ok { IfOk result (λ spot. spot_of base.now name.now ≡ Ok spot) }
    ensures fault { IfErr result (λ e. (spot_of base.now name.now ≡ Err e) ⊎ (e ≡ Fault.NoMemory)) }
{
    let below = path(alloc, name)?;
    joined(alloc, base.keys(), below.keys())
}

// The tree that a value is.
fn tree(alloc: Global, value: Value) -> Result<Tree, Fault>
    ensures ok { IfOk result (λ tree. tree_in (view value) ≡ Ok tree) }
    ensures fault { IfErr result (λ e. (tree_in (view value) ≡ Err e) ⊎ (e ≡ Fault.NoMemory)) }
{
    match tree_of_value(alloc, value) {
        Ok(tree) => Ok(tree),
        Err(TreeError::NoMemory) => Err(Fault::NoMemory),
        Err(error) => Err(Fault::Body(error)),
    }
}

// The entry that a member of an update is.
fn entry(alloc: Global, base: &Path, name: &str, value: Value) -> Result<(Path, Tree), Fault>
    ensures ok { IfOk result (λ entry. entry_of base.now name.now (view value) ≡ Ok entry) }
    ensures fault { IfErr result (λ e. (entry_of base.now name.now (view value) ≡ Err e)
        ⊎ (e ≡ Fault.NoMemory)) }
{
    let spot = spot(alloc, base, name)?;
    let tree = tree(alloc, value)?;
    Ok((spot, tree))
}

// The entries that the members of an update are.
fn entries(alloc: Global, base: &Path, members: Map<String, Value>) -> Result<Entries, Fault>
    ensures ok { IfOk result (λ entries. entries_in base.now (members_view members.entries) ≡ Ok entries) }
    ensures fault { IfErr result (λ e. (entries_in base.now (members_view members.entries) ≡ Err e)
        ⊎ (e ≡ Fault.NoMemory)) }
{
    let mut items = Vec::new(alloc);
    for (name, value) in members {
        let entry = entry(alloc, base, name.as_str(), value)?;
        items.push(entry)?;
    }
    Ok(Entries::of(items))
}

// Entries, of which an update has one at least.
fn filled(entries: Entries) -> Result<Entries, Fault>
    ensures { MatchResult result (λ kept. filled entries ≡ Ok kept) (λ e. filled entries ≡ Err e) }
{
    match entries.as_slice() {
        [] => Err(Fault::NoObject),
        [_, ..] => Ok(entries),
    }
}

// The entries that a body is, below a path.
fn entries_of_body(alloc: Global, base: &Path, body: &[u8]) -> Result<Entries, Fault>
    ensures ok { IfOk result (λ entries. read_entries base.now body.now ≡ Ok entries) }
    ensures fault { IfErr result (λ e. (read_entries base.now body.now ≡ Err e) ⊎ (e ≡ Fault.NoMemory)) }
{
    let members = object(alloc, body)?;
    filled(entries(alloc, base, members)?)
}

// What a request that reads asks for at a path.
fn read_at(alloc: Global, path: Path, is_shallow: bool, query: &str) -> Result<Ask, Fault>
    ensures ok { IfOk result (λ ask. read_at path is_shallow (raw_pairs query.now) ≡ Ok ask) }
    ensures fault { IfErr result (λ e. (read_at path is_shallow (raw_pairs query.now) ≡ Err e)
        ⊎ (e ≡ Fault.NoMemory)) }
{
    if !is_shallow {
        let query = query_in(alloc, path, query)?;
        return Ok(Ask::Read(query));
    }
    if does_query(query) {
        return Err(Fault::Mixed);
    }
    Ok(Ask::Look(path))
}

// What a method asks for at a path.
fn ask_at(
    alloc: Global,
    path: Path,
    method: Method,
    is_shallow: bool,
    query: &str,
    body: &[u8],
) -> Result<Ask, Fault>
    ensures ok { IfOk result (λ ask.
        ask_at path method is_shallow (raw_pairs query.now) body.now ≡ Ok ask) }
    ensures fault { IfErr result (λ e.
        (ask_at path method is_shallow (raw_pairs query.now) body.now ≡ Err e) ⊎ (e ≡ Fault.NoMemory)) }
{
    match method {
        Method::Get | Method::Head => read_at(alloc, path, is_shallow, query),
        Method::Put => {
            let tree = tree_of_body(alloc, body)?;
            Ok(Ask::Put(path, tree))
        }
        Method::Patch => {
            let entries = entries_of_body(alloc, &path, body)?;
            Ok(Ask::Merge(entries))
        }
        Method::Post => {
            let tree = tree_of_body(alloc, body)?;
            Ok(Ask::Push(path, tree))
        }
        Method::Delete => Ok(Ask::Remove(path)),
        Method::Options => Ok(Ask::Health),
        Method::Other => Err(Fault::Method),
    }
}

// What a method asks for of the server itself.
fn health(method: Method) -> Result<Asked, Fault>
    ensures { result ≡ health_of method }
{
    match method {
        Method::Get | Method::Head | Method::Options => Ok(Asked {
            ask: Ask::Health,
            is_pretty: false,
        }),
        Method::Put | Method::Patch | Method::Post | Method::Delete | Method::Other => {
            Err(Fault::Method)
        }
    }
}

// What a method and a query ask for at a path.
fn asked_at(
    alloc: Global,
    path: Path,
    method: Method,
    query: &str,
    body: &[u8],
) -> Result<Asked, Fault>
    ensures ok { IfOk result (λ asked. asked_at path method query.now body.now ≡ Ok asked) }
    ensures fault { IfErr result (λ e. (asked_at path method query.now body.now ≡ Err e)
        ⊎ (e ≡ Fault.NoMemory)) }
{
    let words = words_of(query)?;
    let ask = ask_at(alloc, path, method, words.is_shallow, query, body)?;
    Ok(Asked {
        ask,
        is_pretty: words.is_pretty,
    })
}

/// What a request asks for.
///
/// # Errors
///
/// What it wants that isn't there; then what is wrong with its path, with its query, with its method and
/// with its body, in this order; `NoMemory` where memory lacks.
pub fn read_ask(alloc: Global, request: &Request, body: &[u8]) -> Result<Asked, Fault>
    ensures ok { IfOk result (λ asked. asked_of request.now body.now ≡ Ok asked) }
    ensures fault { IfErr result (λ e. (asked_of request.now body.now ≡ Err e) ⊎ (e ≡ Fault.NoMemory)) }
{
    let marks = request.marks();
    if let Some(lack) = marks.lacks {
        return Err(Fault::Lacks(lack));
    }
    let (at, query) = split(request.target());
    match place_of(alloc, at)? {
        TargetPlace::Health => health(marks.method),
        TargetPlace::Tree(path) => asked_at(alloc, path, marks.method, query, body),
    }
}
