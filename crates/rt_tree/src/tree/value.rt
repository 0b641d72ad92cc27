// Trees are made of JSON that is taken apart: its texts are moved, and a fault is found on the way.
ghost use Rattle.std.specs.Prelude.{OnOk, IfOk, IfErr, Ok, Err, ◌≡◌, ◌<◌, ◌≤◌, ◌⊎◌};
ghost use Rattle.std.specs.Option.{option_map};
ghost use Rattle.serde_json.specs.View.{view, items_view, members_view};
ghost use Rattle.rt_tree.specs.Trees.{object};
ghost use Rattle.rt_tree.specs.Reading.{tree_of_data, item_trees, member_trees, visits, item_visits};
ghost use Rattle.rt_tree.specs.Reading.{member_visits, walked};

use super::Tree;
use super::text::{add_child, push_child};
use crate::error::TreeError;
use crate::key::{check_key, index_key, moved_key};
use crate::leaf::{Leaf, moved_text, whole_number};
use crate::limits::{MAX_KEYS, MAX_NODES, MAX_TEXT_BYTES, MAX_WHOLE, MIN_WHOLE};
use rt_map::OrdMap;
use serde_json::Value;
use std::alloc::Global;
use std::collections::BTreeMap;

// The tree of a value that stands below `level` keys, or the first fault in it. `seen` counts the
// values.
#[cycle(taken)]
pub fn taken(
    alloc: Global,
    value: Value,
    level: usize,
    name: Option<&str>,
    seen: &mut usize,
) -> Result<Tree, TreeError>
    requires { seen.old ≤ MAX_NODES }
    ensures tree { IfOk result (λ tree. tree ≡ tree_of_data (view value)) }
    ensures walked { OnOk result
        (walked seen.old (visits level (option_map (λ s. s.now) name.entry) (view value))
        ≡ Ok seen.new) }
    ensures bound { OnOk result (seen.new ≤ MAX_NODES) }
    ensures fault { IfErr result (λ e.
        (walked seen.old (visits level (option_map (λ s. s.now) name.entry) (view value)) ≡ Err e)
        ⊎ (e ≡ TreeError.NoMemory)) }
{
    if *seen >= MAX_NODES {
        return Err(TreeError::TooManyNodes);
    }
    if level > MAX_KEYS {
        return Err(TreeError::TooDeep);
    }
    if let Some(name) = name {
        check_key(name)?;
    }
    *seen += 1;
    match value {
        Value::Null => Ok(Tree::null()),
        Value::Bool(value) => Ok(Tree::leaf(Leaf::truth(value))),
        Value::Number(number) => match number.as_i64() {
            Some(whole) if whole >= MIN_WHOLE && whole <= MAX_WHOLE => Ok(Tree::leaf(whole_number(
                whole,
            ))),
            _ => Err(TreeError::NotWhole),
        },
        Value::String(text) => {
            if text.len() > MAX_TEXT_BYTES {
                return Err(TreeError::TextTooLong);
            }
            Ok(Tree::leaf(moved_text(text)?))
        }
        Value::Array(items) => taken_items(alloc, items, level + 1, seen),
        Value::Object(members) => taken_members(alloc, members, level + 1, seen),
    }
}

// The object of the items, each at its place.
#[cycle(taken)]
fn taken_items(
    alloc: Global,
    items: Vec<Value>,
    level: usize,
    seen: &mut usize,
) -> Result<Tree, TreeError>
    requires counted { seen.old ≤ MAX_NODES }
    requires below { 0 < level }
    ensures tree { IfOk result (λ tree. tree ≡ object (item_trees 0 (items_view items.items))) }
    ensures walked { OnOk result
        (walked seen.old (item_visits level (items_view items.items)) ≡ Ok seen.new) }
    ensures bound { OnOk result (seen.new ≤ MAX_NODES) }
    ensures fault { IfErr result (λ e.
        (walked seen.old (item_visits level (items_view items.items)) ≡ Err e)
        ⊎ (e ≡ TreeError.NoMemory)) }
{
    // For the prover: so many are numbered.
    let _count = items.len();
    let mut children = OrdMap::new(alloc)?;
    let mut place: usize = 0;
    for item in items {
        let child = taken(alloc, item, level, None, seen)?;
        let key = index_key(alloc, place)?;
        add_child(&mut children, alloc, key, child)?;
        place += 1;
    }
    Ok(Tree::object(children))
}

// The object of the members, each at its name.
#[cycle(taken)]
fn taken_members(
    alloc: Global,
    members: BTreeMap<String, Value>,
    level: usize,
    seen: &mut usize,
) -> Result<Tree, TreeError>
    requires counted { seen.old ≤ MAX_NODES }
    requires below { 0 < level }
    ensures tree { IfOk result (λ tree. tree ≡ object (member_trees (members_view members.entries))) }
    ensures walked { OnOk result
        (walked seen.old (member_visits level (members_view members.entries)) ≡ Ok seen.new) }
    ensures bound { OnOk result (seen.new ≤ MAX_NODES) }
    ensures fault { IfErr result (λ e.
        (walked seen.old (member_visits level (members_view members.entries)) ≡ Err e)
        ⊎ (e ≡ TreeError.NoMemory)) }
{
    let mut row = Vec::with_capacity(alloc, members.len())?;
    for (name, member) in members {
        let child = taken(alloc, member, level, Some(name.as_str()), seen)?;
        let key = moved_key(name)?;
        push_child(&mut row, key, child)?;
    }
    Ok(Tree::object(OrdMap::from_sorted(alloc, row)?))
}
