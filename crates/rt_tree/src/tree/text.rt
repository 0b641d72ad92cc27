// Trees are read from JSON. Of data that is lent, first a walk looks for a fault, and then the tree is
// built, which only memory can stop.
ghost use Rattle.std.specs.Prelude.{None, Some, OnOk, IfOk, IfErr, IfSome, ◌≡◌, ◌<◌, ◌≤◌, ◌^◌, ◌⊎◌, ◌++◌};
ghost use Rattle.std.specs.Prelude.{length, IsUtf8, string_bytes};
ghost use Rattle.std.specs.Option.{option_map};
ghost use Rattle.serde_json.specs.Read.{read};
ghost use Rattle.serde_json.specs.View.{view, items_view, members_view};
ghost use Rattle.serde_json.specs.Data.{put};
ghost use Rattle.serde_json.specs.Written.{compact_text, WritesValue, WritesMembers};
ghost use Rattle.rt_map.specs.Maps.{IsOrdered};
ghost use Rattle.rt_tree.specs.Leaves.{key_cmp};
ghost use Rattle.rt_tree.specs.Trees.{object, IsAllowed, of_leaf};
ghost use Rattle.rt_tree.specs.inside.Puts.{AddsChild, unless_null};
ghost use Rattle.rt_tree.specs.Reading.{tree_of_data, item_trees, member_trees, visits, item_visits};
ghost use Rattle.rt_tree.specs.Reading.{member_visits, walked, data_fault, text_fault, IsTreeData};
ghost use Rattle.rt_tree.specs.Reading.{AreTreeItems, AreTreeMembers};
ghost use Rattle.rt_tree.specs.Leaf.{IsInRange};
ghost use Rattle.rt_tree.specs.Writing.{leaf_data, members_with, data_of, back_fault};

use super::value::taken;
use super::{Node, Tree, set_child};
use crate::error::TreeError;
use crate::key::{Key, check_key, index_key, valid_key};
use crate::leaf::{Leaf, LeafRef, shared_text, whole_number};
use crate::limits::{MAX_KEYS, MAX_NODES, MAX_TEXT_BYTES, MAX_WHOLE, MIN_WHOLE};
use json::Writer;
use rt_map::OrdMap;
use serde_json::{Map, Value};
use std::alloc::{AllocError, Global};
use std::collections::BTreeMap;

impl Tree {
    /// The tree that a JSON text stands for, read as RFC 8259 has it.
    ///
    /// An array is an object with the keys `"0"`, `"1"`, ..; a null and an empty object stand for
    /// nothing.
    ///
    /// # Errors
    ///
    /// `NotJson` where the text is no JSON or nests deeper than 127 levels, and what [`tree_from_value`]
    /// refuses.
    pub fn read(alloc: Global, text: &str) -> Result<Tree, TreeError>
        ensures ok { IfOk result (λ tree. option_map tree_of_data (read text.now) ≡ Some tree) }
        ensures fault { IfErr result (λ e. (text_fault text.now ≡ Some e) ⊎ (e ≡ TreeError.NoMemory)) }
        ensures fine { IfOk result (λ _. text_fault text.now ≡ None) }
    {
        match Value::from_str(alloc, text) {
            Ok(value) => tree_of_value(alloc, value),
            Err(error) if error.is_memory() => Err(TreeError::NoMemory),
            Err(_) => Err(TreeError::NotJson),
        }
    }
}

/// The tree that a JSON value stands for.
///
/// # Errors
///
/// The values are looked at depth first, elements in order, members by the bytes of their
/// names, and the first fault is answered. At each value these are looked at in order: its
/// number (`TooManyNodes` from the 65,537th on), the number of keys above it (`TooDeep` from 33
/// on), its name (`KeyTooLong`, `BadKey`), and the value itself (`NotWhole`, `TextTooLong`).
/// `NoMemory` where memory lacks.
pub fn tree_from_value(alloc: Global, value: &Value) -> Result<Tree, TreeError>
    ensures ok { IfOk result (λ tree. tree ≡ tree_of_data (view value.now)) }
    ensures first { IfSome (data_fault (view value.now)) (λ e. result ≡ Err e) }
    ensures memory { data_fault (view value.now) ≡ None
        → IfErr result (λ e. e ≡ TreeError.NoMemory) }
{
    walk(value, 0, None, 0)?;
    Ok(build(alloc, value)?)
}

/// The tree that a JSON value stands for, which keeps the value's texts.
///
/// # Errors
///
/// The fault that [`tree_from_value`] finds. `NoMemory` where memory lacks before it is found.
pub fn tree_of_value(alloc: Global, value: Value) -> Result<Tree, TreeError>
    ensures ok { IfOk result (λ tree. tree ≡ tree_of_data (view value)) }
    ensures fine { IfOk result (λ _. data_fault (view value) ≡ None) }
    ensures fault { IfErr result (λ e. (data_fault (view value) ≡ Some e)
        ⊎ (e ≡ TreeError.NoMemory)) }
{
    let mut seen = 0;
    taken(alloc, value, 0, None, &mut seen)
}

// The tree of data in which nothing is refused.
#[cycle(build)]
fn build(alloc: Global, value: &Value) -> Result<Tree, AllocError>
    requires { IsTreeData (view value.now) }
    ensures { IfOk result (λ tree. tree ≡ tree_of_data (view value.now)) }
{
    match value {
        Value::Null => Ok(Tree::null()),
        Value::Bool(value) => Ok(Tree::leaf(Leaf::truth(*value))),
        Value::Number(number) => match number.as_i64() {
            Some(whole) => Ok(Tree::leaf(whole_number(whole))),
            None => Ok(Tree::null()),
        },
        Value::String(text) => {
            let leaf = shared_text(alloc, text.as_str())?;
            Ok(Tree::leaf(leaf))
        }
        Value::Array(items) => of_items(alloc, items.as_slice()),
        Value::Object(members) => of_members(alloc, members),
    }
}

// The object of the items, each at its place.
#[cycle(build)]
fn of_items(alloc: Global, items: &[Value]) -> Result<Tree, AllocError>
    requires readable { AreTreeItems (items_view items.now) }
    requires short { length items.now < 2 ^ 64 }
    ensures { IfOk result (λ tree. tree ≡ object (item_trees 0 (items_view items.now))) }
{
    let mut children = OrdMap::new(alloc)?;
    let mut place: usize = 0;
    for item in items {
        let child = build(alloc, item)?;
        let key = index_key(alloc, place)?;
        add_child(&mut children, alloc, key, child)?;
        place += 1;
    }
    Ok(Tree::object(children))
}

// The object of the members, each at its name.
#[cycle(build)]
fn of_members(alloc: Global, members: &BTreeMap<String, Value>) -> Result<Tree, AllocError>
    requires { AreTreeMembers (members_view members.now.entries) }
    ensures { IfOk result (λ tree. tree
        ≡ object (member_trees (members_view members.now.entries))) }
{
    let mut row = Vec::with_capacity(alloc, members.len())?;
    for (name, member) in members.iter() {
        let child = build(alloc, member)?;
        let key = valid_key(alloc, name.as_str())?;
        push_child(&mut row, key, child)?;
    }
    Ok(Tree::object(OrdMap::from_sorted(alloc, row)?))
}

// Puts a child at its key, unless it is null.
pub fn add_child(
    children: &mut OrdMap<Key, Tree>,
    alloc: Global,
    key: Key,
    child: Tree,
) -> Result<(), AllocError>
    requires { IsOrdered key_cmp children.old }
    ensures added { OnOk result (AddsChild children.old.entries children.new.entries key child) }
    ensures ordered { IsOrdered key_cmp children.new }
{
    if !child.is_null() {
        set_child(children, alloc, key, child)?;
    }
    Ok(())
}

// Appends a child to a row, unless it is null.
pub fn push_child(row: &mut Vec<(Key, Tree)>, key: Key, child: Tree) -> Result<(), AllocError>
    ensures { OnOk result (row.new.items ≡ row.old.items ++ unless_null key child) }
{
    if child.is_null() {
        return Ok(());
    }
    row.push((key, child))?;
    Ok(())
}

// Walks a value that stands below `level` keys: the first fault in it, or how many values were seen
// with those in it.
#[cycle(walk)]
fn walk(value: &Value, level: usize, name: Option<&str>, seen: usize) -> Result<usize, TreeError>
    requires { seen ≤ MAX_NODES }
    ensures walked { result ≡ walked seen
        (visits level (option_map (λ s. s.now) name.entry) (view value.now)) }
    ensures bound { IfOk result (λ n. n ≤ MAX_NODES) }
{
    if seen >= MAX_NODES {
        return Err(TreeError::TooManyNodes);
    }
    if level > MAX_KEYS {
        return Err(TreeError::TooDeep);
    }
    if let Some(name) = name {
        check_key(name)?;
    }
    match value {
        Value::Null | Value::Bool(_) => Ok(seen + 1),
        Value::Number(number) => match number.as_i64() {
            Some(whole) if whole >= MIN_WHOLE && whole <= MAX_WHOLE => Ok(seen + 1),
            _ => Err(TreeError::NotWhole),
        },
        Value::String(text) => {
            if text.len() > MAX_TEXT_BYTES {
                return Err(TreeError::TextTooLong);
            }
            Ok(seen + 1)
        }
        Value::Array(items) => walk_items(items.as_slice(), level + 1, seen + 1),
        Value::Object(members) => walk_members(members, level + 1, seen + 1),
    }
}

#[cycle(walk)]
fn walk_items(items: &[Value], level: usize, seen: usize) -> Result<usize, TreeError>
    requires { seen ≤ MAX_NODES }
    ensures walked { result ≡ walked seen (item_visits level (items_view items.now)) }
    ensures bound { IfOk result (λ n. n ≤ MAX_NODES) }
{
    let mut counted = seen;
    for item in items {
        counted = walk(item, level, None, counted)?;
    }
    Ok(counted)
}

#[cycle(walk)]
fn walk_members(
    members: &BTreeMap<String, Value>,
    level: usize,
    seen: usize,
) -> Result<usize, TreeError>
    requires { seen ≤ MAX_NODES }
    ensures walked { result ≡ walked seen (member_visits level (members_view members.now.entries)) }
    ensures bound { IfOk result (λ n. n ≤ MAX_NODES) }
{
    let mut counted = seen;
    for (name, member) in members.iter() {
        counted = walk(member, level, Some(name.as_str()), counted)?;
    }
    Ok(counted)
}

// ---- trees are written as JSON

/// The JSON value that the tree is: null, a truth value, a number, a text or an object.
///
/// No array comes of it, and no empty object. It is read back as the same tree.
#[cycle(value)]
pub fn value_of_tree(alloc: Global, tree: &Tree) -> Result<Value, AllocError>
    ensures value { IfOk result (λ value. view value ≡ data_of tree.now) }
    ensures same_tree { IfOk result (λ value. tree_of_data (view value) ≡ tree.now) }
    ensures allowed { IsAllowed tree.now }
{
    match &tree.node {
        Node::Null => Ok(Value::Null),
        Node::Leaf(leaf) => leaf_value(alloc, leaf),
        Node::Object(children) => {
            let members = members_of(alloc, children)?;
            Ok(Value::Object(members))
        }
    }
}

impl Tree {
    /// The tree as compact JSON, with the keys in the order of their bytes.
    pub fn text(&self, alloc: Global) -> Result<String, AllocError>
        ensures text { IfOk result (λ text. string_bytes text ≡ compact_text (data_of self.now)) }
        ensures reads_back { IfOk result (λ text. read (string_bytes text) ≡ Some (data_of self.now)) }
        ensures same_tree { IfOk result (λ _. tree_of_data (data_of self.now) ≡ self.now) }
        ensures read_fault { IfOk result (λ text. text_fault (string_bytes text)
            ≡ back_fault self.now) }
    {
        let mut out = Writer::new(Vec::with_capacity(alloc, 128)?);
        write_tree(self, &mut out)?;
        Ok(text_of(out.into_inner()))
    }
}

/// Writes the tree as JSON behind what `out` has, with the keys in the order of their bytes.
///
/// What stands before is the caller's: a member's key, or a `[`. After an error some of the tree
/// may stand there.
#[cycle(write)]
pub fn write_tree(tree: &Tree, out: &mut Writer) -> Result<(), AllocError>
    ensures ok { OnOk result (WritesValue (data_of tree.now) out.old.tokens out.new.tokens) }
    ensures before { out.new.before ≡ out.old.before }
    ensures allowed { IsAllowed tree.now }
{
    match &tree.node {
        Node::Null => out.null(),
        Node::Leaf(leaf) => write_leaf(leaf, out),
        Node::Object(children) => {
            out.begin_object()?;
            write_children(children, out)
        }
    }
}

// The text of these bytes, which are UTF-8.
fn text_of(bytes: Vec<u8>) -> String
    requires { IsUtf8 bytes.items }
    ensures { string_bytes result ≡ bytes.items }
{
    String::from_utf8(bytes).unwrap()
}

/// Writes the leaf as JSON behind what `out` has.
///
/// What stands before is the caller's: a member's key, or a `[`.
pub fn write_leaf(leaf: &Leaf, out: &mut Writer) -> Result<(), AllocError>
    ensures ok { OnOk result (WritesValue (leaf_data leaf.now) out.old.tokens out.new.tokens) }
    ensures before { out.new.before ≡ out.old.before }
    ensures in_range { IsInRange leaf.now }
{
    match leaf.value() {
        LeafRef::Truth(value) => out.boolean(value),
        LeafRef::Number(value) => out.i64(value),
        LeafRef::Text(value) => out.string(value),
    }
}

// A member for each child, and the end of the object.
#[cycle(write)]
fn write_children(children: &OrdMap<Key, Tree>, out: &mut Writer) -> Result<(), AllocError>
    requires { IsOrdered key_cmp children.now }
    ensures ok { OnOk result
        (WritesMembers (members_with data_of children.now.entries) out.old.tokens out.new.tokens) }
    ensures before { out.new.before ≡ out.old.before }
{
    for (key, child) in children {
        out.key(key.text())?;
        write_tree(child, out)?;
    }
    out.end_object()
}

fn leaf_value(alloc: Global, leaf: &Leaf) -> Result<Value, AllocError>
    ensures value { IfOk result (λ value. view value ≡ leaf_data leaf.now) }
    ensures same_leaf { IfOk result (λ value. tree_of_data (view value) ≡ of_leaf leaf.now) }
{
    match leaf.value() {
        LeafRef::Truth(value) => Ok(Value::Bool(value)),
        LeafRef::Number(value) => Ok(Value::from(value)),
        LeafRef::Text(value) => {
            let text = String::from_str(alloc, value)?;
            Ok(Value::String(text))
        }
    }
}

// A member for each child.
#[cycle(value)]
fn members_of(alloc: Global, children: &OrdMap<Key, Tree>) -> Result<Map<String, Value>, AllocError>
    requires { IsOrdered key_cmp children.now }
    ensures members { IfOk result (λ members. members_view members.entries
        ≡ members_with data_of children.now.entries) }
    ensures same_trees { IfOk result (λ members. member_trees (members_view members.entries)
        ≡ children.now.entries) }
{
    let mut members = BTreeMap::new(alloc);
    for (key, child) in children {
        let name = String::from_str(alloc, key.text())?;
        let value = value_of_tree(alloc, child)?;
        set_member(&mut members, name, value)?;
    }
    Ok(members)
}

// `insert`, without the old value.
fn set_member(
    members: &mut Map<String, Value>,
    name: String,
    value: Value,
) -> Result<(), AllocError>
    ensures { OnOk result (members_view members.new.entries
        ≡ put (string_bytes name) (view value) (members_view members.old.entries)) }
{
    members.insert(name, value)?;
    Ok(())
}
