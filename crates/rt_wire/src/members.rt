// The members of a message.
ghost use Rattle.std.specs.Prelude.{◌≡◌, ◌⊎◌, codes, IfOk, IfErr, Some, None, option_map, map, Ok, Err, ◌≤◌};
ghost use Rattle.std.specs.Prelude.{[], false, OnOk, IsUtf8, string_bytes};
ghost use Rattle.std.specs.List.{AllByRecursion, fold};
ghost use Rattle.serde_json.specs.Find.{as_str, get_member, as_object};
ghost use Rattle.serde_json.specs.Read.{read, max_depth};
ghost use Rattle.serde_json.specs.View.{view, members_view};
ghost use Rattle.serde_json.specs.Data.{Data, string, no_members, put, depth};
ghost use Rattle.serde_json.specs.Written.{compact_text, has_float, WritesValue, WritesMembers};
ghost use Rattle.rt_wire.specs.Fields.{field, any_of, number_of, path_of, path_of_text as path_in, reason_of};
ghost use Rattle.rt_wire.specs.Fields.{tree_of, with};
ghost use Rattle.rt_wire.specs.EntryFields.{places_of, entries_of, trees_of};
ghost use Rattle.rt_wire.specs.inside.Places.{places};
ghost use Rattle.rt_tree.specs.Path.{path_text};
ghost use Rattle.rt_tree.specs.Writing.{data_of};
ghost use Rattle.rt_wire.specs.FieldData.{with_entry, number_field, path_field, tree_field, entries_field};
ghost use Rattle.rt_wire.specs.inside.Standing.{IsStandingPath, IsStandingTree, IsStanding};
ghost use Rattle.rt_wire.specs.inside.Writing.{PutsValue, PutsField, lent_members};

use crate::error::WireError;
use crate::limits::{MAX_NUMBER, MAX_REASON_BYTES};
use crate::request::Reason;
use json::Writer;
use rt_tree::{Path, Tree, TreeError, tree_of_value, write_tree};
use rt_writes::Entries;
use serde_json::{Map, Value};
use std::alloc::{AllocError, Global};
use std::collections::BTreeMap;

// The JSON value of a text.
pub(crate) fn json_value(alloc: Global, text: &str) -> Result<Value, WireError>
    ensures ok { IfOk result (λ value. read text.now ≡ Some (view value)) }
    ensures err { IfErr result (λ e. (e ≡ WireError.NotJson) × (read text.now ≡ None)
        ⊎ (e ≡ WireError.NoMemory)) }
{
    match Value::from_str(alloc, text) {
        Ok(value) => Ok(value),
        Err(error) if error.is_memory() => Err(WireError::NoMemory),
        Err(_) => Err(WireError::NotJson),
    }
}

// The kind of a message.
pub(crate) fn kind(message: &Value) -> Result<&str, WireError>
    ensures ok { IfOk result (λ kind. field as_str (codes "k") (view message.entry.now)
        ≡ Some kind.now) }
    ensures err { IfErr result (λ e. (e ≡ WireError.UnknownKind)
        × (field as_str (codes "k") (view message.entry.now) ≡ None)) }
{
    message
        .get("k")
        .and_then(Value::as_str)
        .ok_or(WireError::UnknownKind)
}

// Any value, as the member of that name.
pub(crate) fn member<'a>(message: &'a Value, name: &str) -> Result<&'a Value, WireError>
    ensures ok { IfOk result (λ value. field any_of name.now (view message.entry.now)
        ≡ Some (view value.now)) }
    ensures err { IfErr result (λ e. (e ≡ WireError.BadField)
        × (field any_of name.now (view message.entry.now) ≡ None)) }
{
    message.get(name).ok_or(WireError::BadField)
}

// The member of that name, taken out of the members.
fn removed(members: &mut Map<String, Value>, name: &str) -> Option<Value>
    ensures { option_map view result ≡ get_member name.now (members_view members.old.entries) }
{
    members.remove(name)
}

// Any value, as the member of that name, taken out of the message.
pub(crate) fn taken(message: Value, name: &str) -> Result<Value, WireError>
    ensures ok { IfOk result (λ value. field any_of name.now (view message) ≡ Some (view value)) }
    ensures err { IfErr result (λ e. (e ≡ WireError.BadField)
        × (field any_of name.now (view message) ≡ None)) }
{
    match message {
        Value::Object(mut members) => removed(&mut members, name).ok_or(WireError::BadField),
        _ => Err(WireError::BadField),
    }
}

// The text of the member of that name.
fn text<'a>(message: &'a Value, name: &str) -> Result<&'a str, WireError>
    ensures ok { IfOk result (λ text. field as_str name.now (view message.entry.now) ≡ Some text.now) }
    ensures err { IfErr result (λ e. (e ≡ WireError.BadField)
        × (field as_str name.now (view message.entry.now) ≡ None)) }
{
    message
        .get(name)
        .and_then(Value::as_str)
        .ok_or(WireError::BadField)
}

// A tag, or the number of a request.
pub(crate) fn number(message: &Value, name: &str) -> Result<u64, WireError>
    ensures ok { IfOk result (λ n. field number_of name.now (view message.now) ≡ Some n) }
    ensures err { IfErr result (λ e. (e ≡ WireError.BadField)
        × (field number_of name.now (view message.now) ≡ None)) }
{
    match message.get(name).and_then(Value::as_u64) {
        Some(n) if n >= 1 && n <= MAX_NUMBER => Ok(n),
        _ => Err(WireError::BadField),
    }
}

// The path of a text.
pub(crate) fn path_of_text(alloc: Global, text: &str) -> Result<Path, WireError>
    ensures ok { IfOk result (λ path. path_in text.now ≡ Some path) }
    ensures err { IfErr result (λ e. (e ≡ WireError.BadField) × (path_in text.now ≡ None)
        ⊎ (e ≡ WireError.NoMemory)) }
{
    match Path::parse(alloc, text) {
        Ok(path) => Ok(path),
        Err(TreeError::NoMemory) => Err(WireError::NoMemory),
        Err(_) => Err(WireError::BadField),
    }
}

// The member `path`.
pub(crate) fn path(alloc: Global, message: &Value) -> Result<Path, WireError>
    ensures ok { IfOk result (λ path. field path_of (codes "path") (view message.now) ≡ Some path) }
    ensures err { IfErr result (λ e. (e ≡ WireError.BadField)
        × (field path_of (codes "path") (view message.now) ≡ None) ⊎ (e ≡ WireError.NoMemory)) }
{
    path_of_text(alloc, text(message, "path")?)
}

// The member `why`, taken out of the message.
pub(crate) fn reason(message: Value) -> Result<Reason, WireError>
    ensures ok { IfOk result (λ why. field reason_of (codes "why") (view message) ≡ Some why) }
    ensures err { IfErr result (λ e. (e ≡ WireError.BadField)
        × (field reason_of (codes "why") (view message) ≡ None)) }
{
    match taken(message, "why")? {
        Value::String(text) => {
            if text.len() > MAX_REASON_BYTES {
                return Err(WireError::BadField);
            }
            Ok(Reason::of(text))
        }
        _ => Err(WireError::BadField),
    }
}

// A tree, which keeps the texts of its value.
pub(crate) fn tree(alloc: Global, value: Value) -> Result<Tree, WireError>
    ensures ok { IfOk result (λ tree. tree_of (view value) ≡ Ok tree) }
    ensures err { IfErr result (λ e. (tree_of (view value) ≡ Err e) ⊎ (e ≡ WireError.NoMemory)) }
{
    match tree_of_value(alloc, value) {
        Ok(tree) => Ok(tree),
        Err(TreeError::NoMemory) => Err(WireError::NoMemory),
        Err(_) => Err(WireError::BadTree),
    }
}

// ---- entries in a message

// The members' paths, each with its value.
fn places_of(
    alloc: Global,
    members: BTreeMap<String, Value>,
) -> Result<Vec<(Path, Value)>, WireError>
    ensures ok { IfOk result (λ found. places_of (members_view members.entries)
        ≡ Some (places found.items)) }
    ensures err { IfErr result (λ e. (e ≡ WireError.BadField)
        × (places_of (members_view members.entries) ≡ None) ⊎ (e ≡ WireError.NoMemory)) }
{
    let mut found = Vec::new(alloc);
    for (name, value) in members {
        let path = path_of_text(alloc, name.as_str())?;
        found.push((path, value))?;
    }
    Ok(found)
}

// The members of the member `entries`, taken out of the message.
fn object(message: Value) -> Result<BTreeMap<String, Value>, WireError>
    ensures ok { IfOk result (λ members. field as_object (codes "entries") (view message)
        ≡ Some (members_view members.entries)) }
    ensures err { IfErr result (λ e. (e ≡ WireError.BadField)
        × (field as_object (codes "entries") (view message) ≡ None)) }
{
    match taken(message, "entries")? {
        Value::Object(members) => Ok(members),
        _ => Err(WireError::BadField),
    }
}

// The entries at these places.
pub(crate) fn trees(alloc: Global, found: Vec<(Path, Value)>) -> Result<Entries, WireError>
    ensures ok { IfOk result (λ entries. trees_of (places found.items) ≡ Ok entries) }
    ensures err { IfErr result (λ e. (trees_of (places found.items) ≡ Err e)
        ⊎ (e ≡ WireError.NoMemory)) }
{
    let mut items = Vec::new(alloc);
    for (path, value) in found {
        let tree = tree(alloc, value)?;
        items.push((path, tree))?;
    }
    Ok(Entries::of(items))
}

// The paths of the member `entries`, an object of at least one member, each with its value.
pub(crate) fn places(alloc: Global, message: Value) -> Result<Vec<(Path, Value)>, WireError>
    ensures ok { IfOk result (λ found. field entries_of (codes "entries") (view message)
        ≡ Some (places found.items)) }
    ensures err { IfErr result (λ e. (e ≡ WireError.BadField)
        × (field entries_of (codes "entries") (view message) ≡ None) ⊎ (e ≡ WireError.NoMemory)) }
{
    let found = places_of(alloc, object(message)?)?;
    if found.is_empty() {
        return Err(WireError::BadField);
    }
    Ok(found)
}

// The member `entries`: an object of at least one member, from paths to trees. All paths are looked
// at before the trees.
pub(crate) fn entries(alloc: Global, message: Value) -> Result<Entries, WireError>
    ensures ok { IfOk result (λ entries.
        with (field entries_of (codes "entries") (view message)) trees_of ≡ Ok entries) }
    ensures err { IfErr result (λ e.
        (with (field entries_of (codes "entries") (view message)) trees_of ≡ Err e)
        ⊎ (e ≡ WireError.NoMemory)) }
{
    trees(alloc, places(alloc, message)?)
}

// ---- the members that messages are written with

// A writer with nothing in it.
pub(crate) fn new_writer(alloc: Global) -> Result<Writer, AllocError>
    ensures before { IfOk result (λ out. out.before ≡ []) }
    ensures tokens { IfOk result (λ out. out.tokens ≡ []) }
{
    Ok(Writer::new(Vec::with_capacity(alloc, 128)?))
}

// The text of the data that was written.
pub(crate) fn text_of(out: Writer) -> String
    requires { out.before ≡ [] }
    ensures text { (d : Data) → WritesValue d [] out.tokens → has_float d ≡ false
        → string_bytes result ≡ compact_text d }
    ensures reads_back { (d : Data) → WritesValue d [] out.tokens → depth d ≤ max_depth
        → read (string_bytes result) ≡ Some d }
{
    string_of(out.into_inner())
}

// These bytes, which are UTF-8, as a text.
fn string_of(bytes: Vec<u8>) -> String
    requires { IsUtf8 bytes.items }
    ensures { string_bytes result ≡ bytes.items }
{
    String::from_utf8(bytes).unwrap()
}

// A member that is a text.
pub(crate) fn write_text(out: &mut Writer, name: &str, text: &str) -> Result<(), AllocError>
    ensures { OnOk result (PutsField (name.now, string text.now) out.old out.new) }
{
    out.key(name)?;
    out.string(text)
}

// A member that is a number.
pub(crate) fn write_number(out: &mut Writer, name: &str, number: u64) -> Result<(), AllocError>
    ensures { OnOk result (PutsField (number_field name.now number) out.old out.new) }
{
    out.key(name)?;
    out.u64(number)
}

// A path's text.
pub(crate) fn write_path_text(out: &mut Writer, path: &Path) -> Result<(), AllocError>
    ensures put { OnOk result (PutsValue (string (path_text path.now)) out.old out.new) }
    ensures standing { OnOk result (IsStandingPath path.now) }
{
    // For the prover: it is a path.
    let _valid = path.keys();
    let text = path.text()?;
    out.string(text.as_str())
}

// The member `path`.
pub(crate) fn write_path(out: &mut Writer, path: &Path) -> Result<(), AllocError>
    ensures put { OnOk result (PutsField (path_field path.now) out.old out.new) }
    ensures standing { OnOk result (IsStandingPath path.now) }
{
    out.key("path")?;
    write_path_text(out, path)
}

// The member `value`.
pub(crate) fn write_value(out: &mut Writer, tree: &Tree) -> Result<(), AllocError>
    ensures put { OnOk result (PutsField (tree_field tree.now) out.old out.new) }
    ensures standing { OnOk result (IsStandingTree tree.now) }
{
    out.key("value")?;
    write_tree(tree, out)
}

// `insert`, without the old tree.
fn set_tree<'a>(
    trees: &mut BTreeMap<String, &'a Tree>,
    name: String,
    tree: &'a Tree,
) -> Result<(), AllocError>
    ensures put { OnOk result (lent_members trees.new.entries
        ≡ put (string_bytes name) (data_of tree.now) (lent_members trees.old.entries)) }
    ensures standing { OnOk result (IsStandingTree tree.now) }
{
    // For the prover: it is a tree.
    let _allowed = tree.children();
    trees.insert(name, tree)?;
    Ok(())
}

// The entries' trees by the texts of their paths.
fn by_text(alloc: Global, entries: &Entries) -> Result<BTreeMap<String, &Tree>, AllocError>
    ensures members { IfOk result (λ trees. lent_members trees.entries
        ≡ fold with_entry no_members entries.now) }
    ensures standing { IfOk result (λ _. AllByRecursion IsStanding entries.now) }
{
    let mut trees = BTreeMap::new(alloc);
    for (path, tree) in entries.as_slice() {
        // For the prover: it is a path.
        let _valid = path.keys();
        let text = path.text()?;
        set_tree(&mut trees, text, tree)?;
    }
    Ok(trees)
}

// A member for each of these trees, and the end of the object.
fn write_trees(out: &mut Writer, trees: &BTreeMap<String, &Tree>) -> Result<(), AllocError>
    ensures ok { OnOk result
        (WritesMembers (lent_members trees.now.entries) out.old.tokens out.new.tokens) }
    ensures before { out.new.before ≡ out.old.before }
{
    for (name, tree) in trees.iter() {
        out.key(name.as_str())?;
        write_tree(tree, out)?;
    }
    out.end_object()
}

// The member `entries`: a member for each entry, in the order of the bytes of the paths' texts.
pub(crate) fn write_entries(
    alloc: Global,
    out: &mut Writer,
    entries: &Entries,
) -> Result<(), AllocError>
    ensures put { OnOk result (PutsField (entries_field entries.now) out.old out.new) }
    ensures standing { OnOk result (AllByRecursion IsStanding entries.now) }
{
    let trees = by_text(alloc, entries)?;
    out.key("entries")?;
    out.begin_object()?;
    write_trees(out, &trees)
}
