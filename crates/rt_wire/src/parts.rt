// Parts of a push, each on its own listen.
ghost use Rattle.std.specs.Prelude.{◌≡◌, ◌⊎◌, codes, IfOk, IfErr, OnOk, Ok, Err, Some, None};
ghost use Rattle.std.specs.List.{AllByRecursion};
ghost use Rattle.serde_json.specs.Find.{as_array};
ghost use Rattle.serde_json.specs.View.{view, items_view};
ghost use Rattle.rt_wire.specs.Fields.{field, with};
ghost use Rattle.rt_wire.specs.PartFields.{part_of, all_parts, parts_of, part_trees};
ghost use Rattle.rt_wire.specs.ServerData.{part_data, part_items};
ghost use Rattle.rt_wire.specs.inside.Places.{unread};
ghost use Rattle.rt_wire.specs.inside.StandingServer.{IsStandingPart};
ghost use Rattle.rt_wire.specs.inside.Writing.{PutsValue, PutsItems};
ghost use Rattle.std.specs.Prelude.{map};

use crate::error::WireError;
use crate::members::{number, places, taken, trees, write_entries, write_number};
use json::Writer;
use rt_tree::Path;
use rt_writes::Entries;
use serde_json::Value;
use std::alloc::{AllocError, Global};
use std::marker::Model;

/// A part of a push: entries on the listen with that tag.
#[derive(Debug)]
pub struct Part {
    tag: u64,
    entries: Entries,
}

impl Drop for Part {
    fn drop(self) {
        let Part { tag: _, entries: _ } = self;
    }
}

impl Model for Part {
    ghost use Rattle.std.specs.Prelude.{List, ℕ};
    ghost use Rattle.rt_tree.specs.Assignments.{Assignment};

    ghost Value = { ℕ × List Assignment };

    ghost view = { λ a. (a.tag, a.entries) };
}

impl Part {
    /// These entries on the listen with that tag.
    pub fn new(tag: u64, entries: Entries) -> Part
        ensures { result ≡ (tag, entries) }
    {
        Part { tag, entries }
    }

    /// The tag of the listen.
    pub fn tag(&self) -> u64
        ensures { result ≡ self.now.0 }
    {
        self.tag
    }

    /// What is pushed on it.
    pub fn entries(&self) -> &Entries
        ensures { result.now ≡ self.now.1 }
    {
        &self.entries
    }

    /// What is pushed, without the tag.
    pub fn into_entries(self) -> Entries
        ensures { result ≡ self.1 }
    {
        let Part { tag: _, entries } = self;
        entries
    }
}

/// The parts of a push, in order.
#[derive(Debug)]
pub struct Parts {
    items: Vec<Part>,
}

impl Drop for Parts {
    fn drop(self) {
        let Parts { items: _ } = self;
    }
}

impl Model for Parts {
    ghost use Rattle.std.specs.Prelude.{List};
    ghost use Rattle.rt_wire.specs.Parts.{Part};

    ghost Value = { List Part };

    ghost view = { λ a. a.items.items };
}

impl Parts {
    /// The parts of the list, as they are.
    pub fn of(items: Vec<Part>) -> Parts
        ensures { result ≡ items.items }
    {
        Parts { items }
    }

    /// The parts, in order.
    pub fn as_slice(&self) -> &[Part]
        ensures { result.now ≡ self.now }
    {
        self.items.as_slice()
    }

    /// The list of the parts.
    pub fn into_vec(self) -> Vec<Part>
        ensures { result.items ≡ self }
    {
        let Parts { items } = self;
        items
    }
}

// A part of which no value has been looked at: its tag, and the paths of its entries, each with its
// value.
#[derive(Drop)]
struct FoundFields {
    tag: u64,
    places: Vec<(Path, Value)>,
}

// The fields of a part.
fn fields(alloc: Global, part: Value) -> Result<FoundFields, WireError>
    ensures ok { IfOk result (λ found. part_of (view part) ≡ Some (unread found)) }
    ensures err { IfErr result (λ e. (e ≡ WireError.BadField) × (part_of (view part) ≡ None)
        ⊎ (e ≡ WireError.NoMemory)) }
{
    let tag = number(&part, "tag")?;
    let places = places(alloc, part)?;
    Ok(FoundFields { tag, places })
}

// The fields of each part, in order.
fn all_found(alloc: Global, items: Vec<Value>) -> Result<Vec<FoundFields>, WireError>
    ensures ok { IfOk result (λ found. all_parts (items_view items.items)
        ≡ Some (map unread found.items)) }
    ensures err { IfErr result (λ e. (e ≡ WireError.BadField)
        × (all_parts (items_view items.items) ≡ None) ⊎ (e ≡ WireError.NoMemory)) }
{
    let mut parts = Vec::new(alloc);
    for part in items {
        parts.push(fields(alloc, part)?)?;
    }
    Ok(parts)
}

// The elements of the member `parts`, taken out of the message.
fn array(message: Value) -> Result<Vec<Value>, WireError>
    ensures ok { IfOk result (λ items. field as_array (codes "parts") (view message)
        ≡ Some (items_view items.items)) }
    ensures err { IfErr result (λ e. (e ≡ WireError.BadField)
        × (field as_array (codes "parts") (view message) ≡ None)) }
{
    match taken(message, "parts")? {
        Value::Array(items) => Ok(items),
        _ => Err(WireError::BadField),
    }
}

// The parts of these fields.
fn part_trees(alloc: Global, found: Vec<FoundFields>) -> Result<Parts, WireError>
    ensures ok { IfOk result (λ parts. part_trees (map unread found.items) ≡ Ok parts) }
    ensures err { IfErr result (λ e. (part_trees (map unread found.items) ≡ Err e)
        ⊎ (e ≡ WireError.NoMemory)) }
{
    let mut items = Vec::new(alloc);
    for part in found {
        let FoundFields { tag, places } = part;
        let entries = trees(alloc, places)?;
        items.push(Part::new(tag, entries))?;
    }
    Ok(Parts::of(items))
}

/// The member `parts`: an array of at least one object, each with a tag and entries. All fields of
/// all parts are looked at before the trees.
pub(crate) fn parts_in(alloc: Global, message: Value) -> Result<Parts, WireError>
    ensures ok { IfOk result (λ parts.
        with (field parts_of (codes "parts") (view message)) part_trees ≡ Ok parts) }
    ensures err { IfErr result (λ e.
        (with (field parts_of (codes "parts") (view message)) part_trees ≡ Err e)
        ⊎ (e ≡ WireError.NoMemory)) }
{
    let found = all_found(alloc, array(message)?)?;
    if found.is_empty() {
        return Err(WireError::BadField);
    }
    part_trees(alloc, found)
}

fn write_part(alloc: Global, out: &mut Writer, part: &Part) -> Result<(), AllocError>
    ensures put { OnOk result (PutsValue (part_data part.now) out.old out.new) }
    ensures standing { OnOk result (IsStandingPart part.now) }
{
    out.begin_object()?;
    write_entries(alloc, out, part.entries())?;
    write_number(out, "tag", part.tag())?;
    out.end_object()
}

/// The parts, one after another.
pub(crate) fn write_parts(alloc: Global, out: &mut Writer, parts: &[Part]) -> Result<(), AllocError>
    ensures put { OnOk result (PutsItems (part_items parts.now) out.old out.new) }
    ensures standing { OnOk result (AllByRecursion IsStandingPart parts.now) }
{
    for part in parts {
        write_part(alloc, out, part)?;
    }
    Ok(())
}
