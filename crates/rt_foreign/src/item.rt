// What a seat is told, as JSON.
ghost use Rattle.std.specs.Prelude.{◌≡◌, ◌++◌, string_bytes, IfOk, OnOk};
ghost use Rattle.std.specs.Option.{option_copied};
ghost use Rattle.rt_lines.specs.Printing.{json_text};
ghost use Rattle.rt_lines.specs.inside.Appending.{Appends};
ghost use Rattle.rt_foreign.specs.Items.{after_text, batch_text, cancelled_text, change_text};
ghost use Rattle.rt_foreign.specs.Items.{changes_text, item_text, later_changes, receipt_text};
ghost use Rattle.rt_foreign.specs.Items.{removed_text, row_text, settled_text, value_text};

use rt_mail::{Item, Receipt};
use rt_tree::{Key, Tree};
use rt_view::{Batch, Change};
use rt_wire::Reason;
use serde_json::Value;
use std::alloc::{AllocError, Global};
use std::fmt::Write;

/// A text as JSON.
pub(crate) fn json_of(alloc: Global, text: &str) -> Result<String, AllocError>
    ensures { IfOk result (λ json. string_bytes json ≡ json_text text.now) }
{
    Value::try_from_str(alloc, text)?.to_string(alloc)
}

// The key of the row before, or null where there is none.
fn write_after(out: &mut String, alloc: Global, after: Option<&Key>) -> Result<(), AllocError>
    ensures { OnOk result (Appends out.old out.new (after_text (option_copied after.entry))) }
{
    match after {
        Some(key) => out.push_str(json_of(alloc, key.text())?.as_str()),
        None => out.push_str("null"),
    }
}

// `{"after":KEY,"k":KIND,"key":KEY,"value":TREE}`
fn write_row(
    out: &mut String,
    alloc: Global,
    kind: &str,
    key: &Key,
    tree: &Tree,
    after: Option<&Key>,
) -> Result<(), AllocError>
    ensures { OnOk result (Appends out.old out.new
        (row_text kind.now key.now tree.now (option_copied after.entry))) }
{
    let key = json_of(alloc, key.text())?;
    let tree = tree.text(alloc)?;
    out.push_str("{\"after\":")?;
    write_after(out, alloc, after)?;
    write!(out, ",\"k\":\"{kind}\",\"key\":{key},\"value\":{tree}}}")
}

// `{"k":"removed","key":KEY,"old":TREE}`
fn write_removed(out: &mut String, alloc: Global, key: &Key, old: &Tree) -> Result<(), AllocError>
    ensures { OnOk result (Appends out.old out.new (removed_text key.now old.now)) }
{
    let key = json_of(alloc, key.text())?;
    let old = old.text(alloc)?;
    write!(out, "{{\"k\":\"removed\",\"key\":{key},\"old\":{old}}}")
}

// `{"k":"value","value":TREE}`
fn write_value(out: &mut String, alloc: Global, value: &Tree) -> Result<(), AllocError>
    ensures { OnOk result (Appends out.old out.new (value_text value.now)) }
{
    let value = value.text(alloc)?;
    write!(out, "{{\"k\":\"value\",\"value\":{value}}}")
}

// A change of a view.
fn write_change(out: &mut String, alloc: Global, change: &Change) -> Result<(), AllocError>
    ensures { OnOk result (Appends out.old out.new (change_text change.now)) }
{
    match change {
        Change::Removed { key, old } => write_removed(out, alloc, key, old),
        Change::Added { key, value, after } => {
            write_row(out, alloc, "added", key, value, after.as_ref())
        }
        Change::Moved { key, value, after } => {
            write_row(out, alloc, "moved", key, value, after.as_ref())
        }
        Change::Changed { key, value, after } => {
            write_row(out, alloc, "changed", key, value, after.as_ref())
        }
        Change::Value { value } => write_value(out, alloc, value),
    }
}

// Changes, each behind a comma.
fn write_later(out: &mut String, alloc: Global, changes: &[Change]) -> Result<(), AllocError>
    ensures { OnOk result (Appends out.old out.new (later_changes changes.now)) }
{
    for change in changes {
        out.push(',')?;
        write_change(out, alloc, change)?;
    }
    Ok(())
}

// The changes, with a comma between each two.
fn write_changes(out: &mut String, alloc: Global, changes: &[Change]) -> Result<(), AllocError>
    ensures { OnOk result (Appends out.old out.new (changes_text changes.now)) }
{
    match changes {
        [] => Ok(()),
        [first, later @ ..] => {
            write_change(out, alloc, first)?;
            write_later(out, alloc, later)
        }
    }
}

// The changes of a listener's view.
fn write_batch(out: &mut String, alloc: Global, batch: &Batch) -> Result<(), AllocError>
    ensures { OnOk result (Appends out.old out.new (batch_text batch.now)) }
{
    let listener = batch.listener;
    out.push_str("{\"changes\":[")?;
    write_changes(out, alloc, batch.changes.as_slice())?;
    write!(out, "],\"k\":\"batch\",\"listener\":{listener}}}")
}

// What a call of the seat has made, by its number.
fn write_receipt(out: &mut String, receipt: &Receipt) -> Result<(), AllocError>
    ensures { OnOk result (Appends out.old out.new (receipt_text receipt.now)) }
{
    match receipt {
        Receipt::Listened { listener, .. } => {
            write!(out, "{{\"k\":\"listened\",\"listener\":{listener}}}")
        }
        Receipt::Unlistened { listener } => {
            write!(out, "{{\"k\":\"unlistened\",\"listener\":{listener}}}")
        }
        Receipt::Wrote { id, .. } => write!(out, "{{\"id\":{id},\"k\":\"wrote\"}}"),
        Receipt::Asked { id, .. } => write!(out, "{{\"id\":{id},\"k\":\"asked\"}}"),
    }
}

// That a request is accepted, or why it is refused.
fn write_settled(
    out: &mut String,
    alloc: Global,
    id: u64,
    why: &Option<Reason>,
) -> Result<(), AllocError>
    ensures { OnOk result (Appends out.old out.new (settled_text id why.now)) }
{
    match why {
        None => write!(out, "{{\"id\":{id},\"k\":\"ok\"}}"),
        Some(why) => {
            let why = json_of(alloc, why.text())?;
            write!(out, "{{\"id\":{id},\"k\":\"no\",\"why\":{why}}}")
        }
    }
}

// That a listener has ended, and why.
fn write_cancelled(
    out: &mut String,
    alloc: Global,
    listener: u64,
    why: &Reason,
) -> Result<(), AllocError>
    ensures { OnOk result (Appends out.old out.new (cancelled_text listener why.now)) }
{
    let why = json_of(alloc, why.text())?;
    write!(
        out,
        "{{\"k\":\"cancelled\",\"listener\":{listener},\"why\":{why}}}"
    )
}

// Writes what a seat is told.
fn write_item(out: &mut String, alloc: Global, item: &Item) -> Result<(), AllocError>
    ensures { OnOk result (Appends out.old out.new (item_text item.now)) }
{
    match item {
        Item::Receipt(receipt) => write_receipt(out, receipt),
        Item::Batch(batch) => write_batch(out, alloc, batch),
        Item::Settled { id, why } => write_settled(out, alloc, *id, why),
        Item::Cancelled { listener, why } => write_cancelled(out, alloc, *listener, why),
    }
}

/// What a seat is told, as JSON.
pub fn item_text(alloc: Global, item: &Item) -> Result<String, AllocError>
    ensures { IfOk result (λ text. string_bytes text ≡ item_text item.now) }
{
    let mut text = String::new(alloc);
    write_item(&mut text, alloc, item)?;
    Ok(text)
}
