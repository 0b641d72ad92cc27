// The member `q` of a listen.
ghost use Rattle.std.specs.Prelude.{◌≡◌, ◌≤◌, ◌⊎◌, codes, length, true, IfOk, IfErr, Some, None, IsOk, OnOk};
ghost use Rattle.std.specs.Prelude.{IfSome, option_map, string_bytes, false, if◌then◌else◌};
ghost use Rattle.std.specs.Option.{option_and_then};
ghost use Rattle.serde_json.specs.Find.{get, as_array, as_str};
ghost use Rattle.serde_json.specs.View.{view, items_view};
ghost use Rattle.serde_json.specs.Data.{array, string, number, unsigned, item, no_items};
ghost use Rattle.serde_json.specs.Written.{compact_text};
ghost use Rattle.rt_wire.specs.QueryFields.{index_of, whole_of, text_mark_of, mark_of, edge_of, side_of};
ghost use Rattle.rt_wire.specs.QueryFields.{key_of, cut_of, cut_of_items, may_cut, range_of, count_of};
ghost use Rattle.rt_wire.specs.QueryFields.{limit_with, limit_of, limit_of_items, if_there, query_of};
ghost use Rattle.rt_wire.specs.inside.Made.{MayCut, Counts};
ghost use Rattle.rt_tree.specs.Key.{IsKey};
ghost use Rattle.rt_query.specs.Queries.{is_filtered, most_rows};
ghost use Rattle.rt_wire.specs.QueryData.{index_data, mark_data, place_items, cut_data, limit_data, field_if};
ghost use Rattle.rt_wire.specs.QueryData.{query_data};
ghost use Rattle.rt_wire.specs.inside.StandingClient.{IsStandingIndex, IsStandingMark, IsStandingPlace};
ghost use Rattle.rt_wire.specs.inside.StandingClient.{IsStandingCut, IsStandingQuery};
ghost use Rattle.rt_wire.specs.inside.Writing.{PutsValue, PutsItems, PutsField, PutsFields};

use crate::draft::made;
use crate::error::WireError;
use crate::members::{member, new_writer, path_of_text, text_of, write_path_text};
use json::Writer;
use rt_order::{Cut, Index, Mark, Place, Range};
use rt_query::{Limit, Query};
use rt_tree::{Key, Leaf, MAX_TEXT_BYTES, Path, TreeError, write_leaf};
use serde_json::Value;
use std::alloc::{AllocError, Global};

// The elements of an array.
fn items(value: &Value) -> Result<&[Value], WireError>
    ensures ok { IfOk result (λ items. as_array (view value.entry.now) ≡ Some (items_view items.now)) }
    ensures err { IfErr result (λ e. (e ≡ WireError.BadField)
        × (as_array (view value.entry.now) ≡ None)) }
{
    match value.as_array() {
        Some(items) => Ok(items.as_slice()),
        None => Err(WireError::BadField),
    }
}

// The order.
fn index(alloc: Global, value: &Value) -> Result<Index, WireError>
    ensures ok { IfOk result (λ index. index_of (view value.now) ≡ Some index) }
    ensures err { IfErr result (λ e. (e ≡ WireError.BadField) × (index_of (view value.now) ≡ None)
        ⊎ (e ≡ WireError.NoMemory)) }
{
    match value.as_str() {
        Some("key") => Ok(Index::Key),
        Some("value") => Ok(Index::Value),
        Some(text) if text.as_bytes().first() == Some(&b'/') => {
            let path = path_of_text(alloc, text)?;
            Ok(Index::Child(path))
        }
        _ => Err(WireError::BadField),
    }
}

// A number as the value of a cut.
fn whole_mark(number: i64) -> Option<Mark>
    ensures { result ≡ whole_of number }
{
    match Leaf::number(number) {
        Ok(leaf) => Some(Mark::Leaf(leaf)),
        Err(_) => None,
    }
}

// The value of a cut.
fn mark(alloc: Global, value: &Value) -> Result<Mark, WireError>
    ensures ok { IfOk result (λ mark. mark_of (view value.now) ≡ Some mark) }
    ensures err { IfErr result (λ e. (e ≡ WireError.BadField) × (mark_of (view value.now) ≡ None)
        ⊎ (e ≡ WireError.NoMemory)) }
{
    match value {
        Value::Null => Ok(Mark::Null),
        Value::Bool(value) => Ok(Mark::Leaf(Leaf::truth(*value))),
        Value::Number(number) => match number.as_i64() {
            Some(number) => whole_mark(number).ok_or(WireError::BadField),
            None => Err(WireError::BadField),
        },
        Value::String(text) => text_mark(alloc, text.as_str()),
        Value::Array(_) | Value::Object(_) => Err(WireError::BadField),
    }
}

// A text as the value of a cut.
fn text_mark(alloc: Global, text: &str) -> Result<Mark, WireError>
    ensures ok { IfOk result (λ mark. text_mark_of text.now ≡ Some mark) }
    ensures err { IfErr result (λ e. (e ≡ WireError.BadField) × (text_mark_of text.now ≡ None)
        ⊎ (e ≡ WireError.NoMemory)) }
{
    if text.len() > MAX_TEXT_BYTES {
        return Err(WireError::BadField);
    }
    match Leaf::text(String::from_str(alloc, text)?) {
        Ok(leaf) => Ok(Mark::Leaf(leaf)),
        Err(_) => Err(WireError::BadField),
    }
}

// A key.
fn key(alloc: Global, value: &Value) -> Result<Key, WireError>
    ensures ok { IfOk result (λ key. key_of (view value.now) ≡ Some key) }
    ensures err { IfErr result (λ e. (e ≡ WireError.BadField) × (key_of (view value.now) ≡ None)
        ⊎ (e ≡ WireError.NoMemory)) }
{
    let Some(text) = value.as_str() else {
        return Err(WireError::BadField);
    };
    match Key::parse(alloc, text) {
        Ok(key) => Ok(key),
        Err(TreeError::NoMemory) => Err(WireError::NoMemory),
        Err(_) => Err(WireError::BadField),
    }
}

// A place that names no key.
fn edge(word: &Value) -> Result<Place, WireError>
    ensures ok { IfOk result (λ place. option_and_then edge_of (as_str (view word.now)) ≡ Some place) }
    ensures err { IfErr result (λ e. (e ≡ WireError.BadField)
        × (option_and_then edge_of (as_str (view word.now)) ≡ None)) }
{
    match word.as_str() {
        Some("min") => Ok(Place::Min),
        Some("max") => Ok(Place::Max),
        _ => Err(WireError::BadField),
    }
}

// A place next to a key.
fn side(word: &Value, key: Key) -> Result<Place, WireError>
    ensures ok { IfOk result (λ place. option_and_then (λ w. side_of w key) (as_str (view word.now))
        ≡ Some place) }
    ensures err { IfErr result (λ e. (e ≡ WireError.BadField)
        × (option_and_then (λ w. side_of w key) (as_str (view word.now)) ≡ None)) }
{
    match word.as_str() {
        Some("before") => Ok(Place::Before(key)),
        Some("after") => Ok(Place::After(key)),
        _ => Err(WireError::BadField),
    }
}

// A cut before or after all children of a value.
fn edge_cut(alloc: Global, items: &[Value]) -> Result<Cut, WireError>
    requires { length items.now ≡ 2 }
    ensures ok { IfOk result (λ cut. cut_of_items (items_view items.now) ≡ Some cut) }
    ensures err { IfErr result (λ e. (e ≡ WireError.BadField)
        × (cut_of_items (items_view items.now) ≡ None) ⊎ (e ≡ WireError.NoMemory)) }
{
    let [value, word] = items else { unreachable!() };
    let place = edge(word)?;
    let value = mark(alloc, value)?;
    Ok(Cut { value, place })
}

// A cut next to a key.
fn key_cut(alloc: Global, items: &[Value]) -> Result<Cut, WireError>
    requires { length items.now ≡ 3 }
    ensures ok { IfOk result (λ cut. cut_of_items (items_view items.now) ≡ Some cut) }
    ensures err { IfErr result (λ e. (e ≡ WireError.BadField)
        × (cut_of_items (items_view items.now) ≡ None) ⊎ (e ≡ WireError.NoMemory)) }
{
    let [value, word, at] = items else {
        unreachable!()
    };
    let key = key(alloc, at)?;
    let place = side(word, key)?;
    let value = mark(alloc, value)?;
    Ok(Cut { value, place })
}

// A cut of some order, of its array's elements.
#[tactic(auto, using(crate::proofs::QueryItems::no_cut))]
fn any_cut(alloc: Global, items: &[Value]) -> Result<Cut, WireError>
    ensures ok { IfOk result (λ cut. cut_of_items (items_view items.now) ≡ Some cut) }
    ensures err { IfErr result (λ e. (e ≡ WireError.BadField)
        × (cut_of_items (items_view items.now) ≡ None) ⊎ (e ≡ WireError.NoMemory)) }
{
    if items.len() == 2 {
        return edge_cut(alloc, items);
    }
    if items.len() == 3 {
        return key_cut(alloc, items);
    }
    Err(WireError::BadField)
}

// Whether children in that order are cut so: in key order their values are null, and a cut is next
// to a key.
fn may_be_cut(index: &Index, cut: &Cut) -> bool
    ensures { result ≡ may_cut index.now cut.now }
{
    match index {
        Index::Key => {
            matches!(&cut.value, Mark::Null)
                && matches!(&cut.place, Place::Before(_) | Place::After(_))
        }
        Index::Child(_) | Index::Value => true,
    }
}

// A cut of children in that order.
fn cut(alloc: Global, index: &Index, value: &Value) -> Result<Cut, WireError>
    ensures ok { IfOk result (λ cut. cut_of index.now (view value.now) ≡ Some cut) }
    ensures err { IfErr result (λ e. (e ≡ WireError.BadField)
        × (cut_of index.now (view value.now) ≡ None) ⊎ (e ≡ WireError.NoMemory)) }
    ensures may { IfOk result (λ cut. may_cut index.now cut ≡ true) }
{
    let cut = any_cut(alloc, items(value)?)?;
    if !may_be_cut(index, &cut) {
        return Err(WireError::BadField);
    }
    Ok(cut)
}

// The cut of that name, where it is there.
fn bound(alloc: Global, index: &Index, q: &Value, name: &str) -> Result<Option<Cut>, WireError>
    ensures ok { IfOk result (λ cut. if_there (cut_of index.now) (get name.now (view q.now))
        ≡ Some cut) }
    ensures err { IfErr result (λ e. (e ≡ WireError.BadField)
        × (if_there (cut_of index.now) (get name.now (view q.now)) ≡ None)
        ⊎ (e ≡ WireError.NoMemory)) }
    ensures may { IfOk result (MayCut index.now) }
{
    match q.get(name) {
        Some(value) => Ok(Some(cut(alloc, index, value)?)),
        None => Ok(None),
    }
}

// The range.
fn range(alloc: Global, index: &Index, q: &Value) -> Result<Range, WireError>
    ensures ok { IfOk result (λ range. range_of index.now (view q.now) ≡ Some range) }
    ensures err { IfErr result (λ e. (e ≡ WireError.BadField)
        × (range_of index.now (view q.now) ≡ None) ⊎ (e ≡ WireError.NoMemory)) }
    ensures lower { IfOk result (λ range. MayCut index.now range.lower) }
    ensures upper { IfOk result (λ range. MayCut index.now range.upper) }
{
    let lower = bound(alloc, index, q, "lower")?;
    let upper = bound(alloc, index, q, "upper")?;
    Ok(Range { lower, upper })
}

// How many rows.
fn count(value: &Value) -> Result<u32, WireError>
    ensures ok { IfOk result (λ n. count_of (view value.now) ≡ Some n) }
    ensures err { IfErr result (λ e. (e ≡ WireError.BadField) × (count_of (view value.now) ≡ None)) }
    ensures some { IfOk result (λ n. 1 ≤ n) }
{
    match value.as_u64() {
        Some(n) if n >= 1 && n <= 4294967295 => Ok(n as u32),
        _ => Err(WireError::BadField),
    }
}

// A limit of that word.
fn limit_of_word(word: &Value, n: u32) -> Result<Limit, WireError>
    requires { 1 ≤ n }
    ensures ok { IfOk result (λ limit.
        option_and_then (λ w. limit_with w n) (as_str (view word.now)) ≡ Some limit) }
    ensures err { IfErr result (λ e. (e ≡ WireError.BadField)
        × (option_and_then (λ w. limit_with w n) (as_str (view word.now)) ≡ None)) }
    ensures counts { IfOk result (λ limit. Counts (Some limit)) }
{
    match word.as_str() {
        Some("first") => Ok(Limit::First(n)),
        Some("last") => Ok(Limit::Last(n)),
        _ => Err(WireError::BadField),
    }
}

// A limit, of its array's elements.
fn limit(items: &[Value]) -> Result<Limit, WireError>
    ensures ok { IfOk result (λ limit. limit_of_items (items_view items.now) ≡ Some limit) }
    ensures err { IfErr result (λ e. (e ≡ WireError.BadField)
        × (limit_of_items (items_view items.now) ≡ None)) }
    ensures counts { IfOk result (λ limit. Counts (Some limit)) }
{
    let [word, n] = items else {
        return Err(WireError::BadField);
    };
    limit_of_word(word, count(n)?)
}

// The limit, where it is there.
fn limit_in(q: &Value) -> Result<Option<Limit>, WireError>
    ensures ok { IfOk result (λ limit. if_there limit_of (get (codes "limit") (view q.now))
        ≡ Some limit) }
    ensures err { IfErr result (λ e. (e ≡ WireError.BadField)
        × (if_there limit_of (get (codes "limit") (view q.now)) ≡ None)) }
    ensures counts { IfOk result Counts }
{
    match q.get("limit") {
        Some(value) => Ok(Some(limit(items(value)?)?)),
        None => Ok(None),
    }
}

/// The filtered query of the path that `q` makes.
pub(crate) fn query(alloc: Global, path: Path, q: &Value) -> Result<Query, WireError>
    ensures ok { IfOk result (λ query. query_of path (view q.now) ≡ Some query) }
    ensures err { IfErr result (λ e. (e ≡ WireError.BadField) × (query_of path (view q.now) ≡ None)
        ⊎ (e ≡ WireError.NoMemory)) }
{
    let limit = limit_in(q)?;
    let index = index(alloc, member(q, "order")?)?;
    let range = range(alloc, &index, q)?;
    let query = made(alloc, path, index, range, limit)?;
    if !query.is_filtered() {
        return Err(WireError::BadField);
    }
    Ok(query)
}

// ---- the member `q` of a listen, written

// What the children are ordered by.
fn write_index(out: &mut Writer, index: &Index) -> Result<(), AllocError>
    ensures put { OnOk result (PutsValue (index_data index.now) out.old out.new) }
    ensures standing { OnOk result (IsStandingIndex index.now) }
{
    match index {
        Index::Key => out.string("key"),
        Index::Child(path) => write_path_text(out, path),
        Index::Value => out.string("value"),
    }
}

fn write_mark(out: &mut Writer, mark: &Mark) -> Result<(), AllocError>
    ensures put { OnOk result (PutsValue (mark_data mark.now) out.old out.new) }
    ensures standing { OnOk result (IsStandingMark mark.now) }
{
    match mark {
        Mark::Null => out.null(),
        Mark::Leaf(leaf) => write_leaf(leaf, out),
    }
}

// What follows the value of a cut next to a key.
fn write_side(out: &mut Writer, word: &str, key: &Key) -> Result<(), AllocError>
    ensures put { OnOk result
        (PutsItems (item (string word.now) (item (string key.now) no_items)) out.old out.new) }
    ensures key { OnOk result (IsKey key.now) }
{
    out.string(word)?;
    out.string(key.text())
}

// What follows a cut's value.
fn write_place(out: &mut Writer, place: &Place) -> Result<(), AllocError>
    ensures put { OnOk result (PutsItems (place_items place.now) out.old out.new) }
    ensures standing { OnOk result (IsStandingPlace place.now) }
{
    match place {
        Place::Min => out.string("min"),
        Place::Before(key) => write_side(out, "before", key),
        Place::After(key) => write_side(out, "after", key),
        Place::Max => out.string("max"),
    }
}

fn write_cut(out: &mut Writer, cut: &Cut) -> Result<(), AllocError>
    ensures put { OnOk result (PutsValue (cut_data cut.now) out.old out.new) }
    ensures standing { OnOk result (IsStandingCut cut.now) }
{
    out.begin_array()?;
    write_mark(out, &cut.value)?;
    write_place(out, &cut.place)?;
    out.end_array()
}

// A limit, by its word.
fn write_rows(out: &mut Writer, word: &str, rows: u32) -> Result<(), AllocError>
    ensures { OnOk result (PutsValue (array (item (string word.now)
        (item (number (unsigned rows)) no_items))) out.old out.new) }
{
    out.begin_array()?;
    out.string(word)?;
    out.u64(u64::from(rows))?;
    out.end_array()
}

// The cut of that name, where there is one.
fn write_bound(out: &mut Writer, name: &str, cut: &Option<Cut>) -> Result<(), AllocError>
    ensures put { OnOk result (PutsFields (field_if cut_data name.now cut.now) out.old out.new) }
    ensures standing { OnOk result (IfSome cut.now IsStandingCut) }
{
    match cut {
        Some(cut) => {
            out.key(name)?;
            write_cut(out, cut)
        }
        None => Ok(()),
    }
}

// The limit, where there is one.
fn write_limit(out: &mut Writer, limit: Option<Limit>) -> Result<(), AllocError>
    ensures put { OnOk result (PutsFields (field_if limit_data (codes "limit") limit) out.old out.new) }
    ensures few { IfSome limit (λ limit. most_rows limit ≤ 4294967295) }
{
    match limit {
        Some(Limit::First(rows)) => {
            out.key("limit")?;
            write_rows(out, "first", rows)
        }
        Some(Limit::Last(rows)) => {
            out.key("limit")?;
            write_rows(out, "last", rows)
        }
        None => Ok(()),
    }
}

// The member `order`.
fn write_order(out: &mut Writer, index: &Index) -> Result<(), AllocError>
    ensures put { OnOk result (PutsField (codes "order", index_data index.now) out.old out.new) }
    ensures standing { OnOk result (IsStandingIndex index.now) }
{
    out.key("order")?;
    write_index(out, index)
}

/// What `q` is for the query.
pub(crate) fn write_query(out: &mut Writer, query: &Query) -> Result<(), AllocError>
    ensures put { OnOk result (PutsValue (query_data query.now) out.old out.new) }
    ensures standing { OnOk result (IsStandingQuery query.now) }
{
    out.begin_object()?;
    write_limit(out, query.limit())?;
    write_bound(out, "lower", &query.range().lower)?;
    write_order(out, query.index())?;
    write_bound(out, "upper", &query.range().upper)?;
    out.end_object()
}

/// The text of a listen's `q` for the query; `None` for one that is not filtered, whose listen has
/// no `q`.
pub fn query_text(alloc: Global, query: &Query) -> Result<Option<String>, AllocError>
    ensures text { IfOk result (λ text. option_map (λ s. string_bytes s) text
        ≡ (if is_filtered query.now then Some (compact_text (query_data query.now)) else None)) }
    ensures absent { is_filtered query.now ≡ false → IsOk result }
{
    if !query.is_filtered() {
        return Ok(None);
    }
    let mut out = new_writer(alloc)?;
    write_query(&mut out, query)?;
    Ok(Some(text_of(out)))
}
