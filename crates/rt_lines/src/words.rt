// The words of a line.
ghost use Rattle.std.specs.Prelude.{◌≡◌, option_map, ◌⊎◌, IfOk, IfErr, Ok, Err};
ghost use Rattle.serde_json.specs.View.{view as data_of, members_view};
ghost use Rattle.rt_lines.specs.Words.{byte_in, count_in, parts_in, random_in, seat_in, twelve_of};
ghost use Rattle.rt_lines.specs.inside.FormView.{views, as_parts, as_written};
ghost use Rattle.rt_lines.specs.Reading.{action_in, entries_in, mark_in, parts_read, path_in, tree_in};

use crate::error::{LineError, Refusal};
use crate::form::{PartWords, Written};
use rt_order::Mark;
use rt_tree::{Path, Tree, TreeError, tree_from_value};
use rt_wire::{Action, Part, Parts};
use rt_writes::Entries;
use serde_json::Value;
use std::alloc::Global;
use std::collections::BTreeMap;

/// A seat: a whole number from 1.
pub(crate) fn seat_of(value: &Value) -> Option<u64>
    ensures { result ≡ seat_in (data_of value.now) }
{
    match value.as_u64() {
        Some(0) => None,
        seat => seat,
    }
}

/// How many rows a limit lets through: a number of 32 bits.
pub(crate) fn count_of(value: &Value) -> Option<u32>
    ensures { result ≡ count_in (data_of value.now) }
{
    match value.as_u64() {
        Some(n) if n <= 4294967295 => Some(n as u32),
        _ => None,
    }
}

// A number of 8 bits.
fn byte_of(value: &Value) -> Option<u8>
    ensures { result ≡ byte_in (data_of value.now) }
{
    match value.as_u64() {
        Some(n) if n <= 255 => Some(n as u8),
        _ => None,
    }
}

// Twelve numbers of 8 bits.
fn twelve_of(values: &[Value]) -> Option<[u8; 12]>
    ensures { result ≡ twelve_of (views values.now) }
{
    if values.len() != 12 {
        return None;
    }
    let mut random = [0; 12];
    for (place, value) in values.iter().enumerate() {
        random[place] = byte_of(value)?;
    }
    Some(random)
}

/// The random part of a push id: twelve numbers of 8 bits.
pub(crate) fn random_of(value: &Value) -> Option<[u8; 12]>
    ensures { result ≡ random_in (data_of value.now) }
{
    twelve_of(value.as_array()?.as_slice())
}

/// The name that an array begins with, and the words behind it.
pub(crate) fn parts_of(value: &Value) -> Option<(&str, &[Value])>
    ensures { option_map (λ parts. (parts.0.now, views parts.1.now)) result
        ≡ parts_in (data_of value.entry.now) }
{
    let (name, words) = value.as_array()?.as_slice().split_first()?;
    Some((name.as_str()?, words))
}

// ---- paths, trees, entries and parts of a line

/// The path of a text.
pub(crate) fn path_of(alloc: Global, text: &str) -> Result<Path, LineError>
    ensures ok { IfOk result (λ path. path_in text.now ≡ Ok path) }
    ensures fault { IfErr result (λ e. (path_in text.now ≡ Err e) ⊎ (e ≡ LineError.NoMemory)) }
{
    match Path::parse(alloc, text) {
        Ok(path) => Ok(path),
        Err(TreeError::NoMemory) => Err(LineError::NoMemory),
        Err(error) => Err(LineError::Refused(Refusal::Tree(error))),
    }
}

/// The tree of a value.
pub(crate) fn tree_of(alloc: Global, value: &Value) -> Result<Tree, LineError>
    ensures ok { IfOk result (λ tree. tree_in (data_of value.now) ≡ Ok tree) }
    ensures fault { IfErr result (λ e. (tree_in (data_of value.now) ≡ Err e)
        ⊎ (e ≡ LineError.NoMemory)) }
{
    match tree_from_value(alloc, value) {
        Ok(tree) => Ok(tree),
        Err(TreeError::NoMemory) => Err(LineError::NoMemory),
        Err(error) => Err(LineError::Refused(Refusal::Tree(error))),
    }
}

/// The value of a bound.
pub(crate) fn mark_of(alloc: Global, value: &Value) -> Result<Mark, LineError>
    ensures ok { IfOk result (λ mark. mark_in (data_of value.now) ≡ Ok mark) }
    ensures fault { IfErr result (λ e. (mark_in (data_of value.now) ≡ Err e)
        ⊎ (e ≡ LineError.NoMemory)) }
{
    let tree = tree_of(alloc, value)?;
    match tree.as_leaf() {
        Some(leaf) => Ok(Mark::Leaf(leaf.copy(alloc)?)),
        None => Ok(Mark::Null),
    }
}

/// The entries of an object: of each member the path, then the tree.
pub(crate) fn entries_of(
    alloc: Global,
    members: &BTreeMap<String, Value>,
) -> Result<Entries, LineError>
    ensures ok { IfOk result (λ entries. entries_in (members_view members.now.entries) ≡ Ok entries) }
    ensures fault { IfErr result (λ e. (entries_in (members_view members.now.entries) ≡ Err e)
        ⊎ (e ≡ LineError.NoMemory)) }
{
    let mut items = Vec::new(alloc);
    for (name, value) in members.iter() {
        let path = path_of(alloc, name.as_str())?;
        let tree = tree_of(alloc, value)?;
        items.push((path, tree))?;
    }
    Ok(Entries::of(items))
}

/// The parts of a push, in their order: of each the entries.
pub(crate) fn parts_read(alloc: Global, words: &[PartWords<'_>]) -> Result<Parts, LineError>
    ensures ok { IfOk result (λ parts. parts_read (as_parts words.now) ≡ Ok parts) }
    ensures fault { IfErr result (λ e. (parts_read (as_parts words.now) ≡ Err e)
        ⊎ (e ≡ LineError.NoMemory)) }
{
    let mut parts = Vec::new(alloc);
    for part in words {
        let entries = entries_of(alloc, part.entries)?;
        parts.push(Part::new(part.tag, entries))?;
    }
    Ok(Parts::of(parts))
}

/// What a write sets.
pub(crate) fn action_of(alloc: Global, written: Written<'_>) -> Result<Action, LineError>
    ensures ok { IfOk result (λ action. action_in (as_written written.entry) ≡ Ok action) }
    ensures fault { IfErr result (λ e. (action_in (as_written written.entry) ≡ Err e)
        ⊎ (e ≡ LineError.NoMemory)) }
{
    match written {
        Written::Set { path, value } => {
            let path = path_of(alloc, path)?;
            let tree = tree_of(alloc, value)?;
            Ok(Action::Put { path, tree })
        }
        Written::Update { entries } => {
            let entries = entries_of(alloc, entries)?;
            Ok(Action::Merge { entries })
        }
        Written::Remove { path } => {
            let path = path_of(alloc, path)?;
            let tree = Tree::null();
            Ok(Action::Put { path, tree })
        }
    }
}
