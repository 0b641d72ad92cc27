// What a step answers, printed.
ghost use Rattle.std.specs.Prelude.{◌≡◌, ◌++◌, OnOk, string_bytes, IfOk};
ghost use Rattle.std.specs.Option.{option_copied};
ghost use Rattle.rt_lines.specs.Printing.{bad_line, body_text, id_line, line, note_text, outcome_text};
ghost use Rattle.rt_lines.specs.Printing.{refusal_text, refused_line, report_text, after_text, batch_text};
ghost use Rattle.rt_lines.specs.Printing.{change_line, change_text, json_text, row_text, cover_text};
ghost use Rattle.rt_lines.specs.Printing.{kept_line, message_line, messages_text, query_words, row_line};
ghost use Rattle.rt_lines.specs.Printing.{rows_text, view_text};
ghost use Rattle.rt_lines.specs.inside.Appending.{Appends};

use crate::error::Refusal;
use rt_cover::Kept;
use rt_query::{Query, Row, Shown};
use rt_tree::{Key, Tree};
use rt_view::{Batch, Change};
use rt_wire::{ClientMessage, Reason, query_text};
use rt_world::{Body, Note, Outcome, Report};
use serde_json::Value;
use std::alloc::{AllocError, Global};
use std::fmt::Write;

/// Prints that a request is accepted, `R<id> ok`, or why it is refused, `R<id> refused WHY`.
pub fn write_settled(
    out: &mut String,
    alloc: Global,
    id: u64,
    why: &Option<Reason>,
) -> Result<(), AllocError>
    ensures { OnOk result (Appends out.old out.new (body_text (Body.Settled id why.now))) }
{
    match why {
        None => writeln!(out, "R{id} ok"),
        Some(why) => {
            let why = json_of(alloc, why.text())?;
            writeln!(out, "R{id} refused {why}")
        }
    }
}

/// Prints that a listener has ended, and why: `L<n> cancelled WHY`.
pub fn write_cancelled(
    out: &mut String,
    alloc: Global,
    listener: u64,
    why: &Reason,
) -> Result<(), AllocError>
    ensures { OnOk result (Appends out.old out.new (body_text (Body.Cancelled listener why.now))) }
{
    let why = json_of(alloc, why.text())?;
    writeln!(out, "L{listener} cancelled {why}")
}

fn write_note(out: &mut String, alloc: Global, note: &Note) -> Result<(), AllocError>
    ensures { OnOk result (Appends out.old out.new (note_text note.now)) }
{
    match &note.body {
        Body::Settled { id, why } => write_settled(out, alloc, *id, why),
        Body::Cancelled { listener, why } => write_cancelled(out, alloc, *listener, why),
        Body::Batch(batch) => write_batch(out, alloc, batch),
    }
}

/// Prints what became of a step: `done`, `done N` where it was given a number, or `stale`.
pub fn write_outcome(
    out: &mut String,
    outcome: Outcome,
    given: Option<u64>,
) -> Result<(), AllocError>
    ensures { OnOk result (Appends out.old out.new (line (outcome_text outcome given))) }
{
    match (outcome, given) {
        (Outcome::Done, Some(number)) => writeln!(out, "done {number}"),
        (Outcome::Done, None) => out.push_str("done\n"),
        (Outcome::Stale, _) => out.push_str("stale\n"),
    }
}

/// Prints what a step answered: `done`, `done N` or `stale`, then a line for each note and for each
/// change of a batch. Where memory lacks, a part of it may be printed.
pub fn write_report(out: &mut String, alloc: Global, report: &Report) -> Result<(), AllocError>
    ensures { OnOk result (Appends out.old out.new (report_text report.now)) }
{
    write_outcome(out, report.outcome, report.given)?;
    for note in report.notes.as_slice() {
        write_note(out, alloc, note)?;
    }
    Ok(())
}

/// Prints that a line is refused, by which layer and why: `refused LAYER CODE NAME`. Want of memory,
/// which each layer has, ends a run and is not to be printed.
pub fn write_refusal(out: &mut String, refusal: Refusal) -> Result<(), AllocError>
    ensures { OnOk result (Appends out.old out.new (refusal_text refusal)) }
{
    write_refused(out, refusal.layer(), refusal.code(), refusal.name())
}

/// Prints the refusal of that number and name, by that layer: `refused LAYER CODE NAME`.
pub fn write_refused(out: &mut String, layer: &str, code: u8, name: &str) -> Result<(), AllocError>
    ensures { OnOk result (Appends out.old out.new (refused_line layer.now code name.now)) }
{
    writeln!(out, "refused {layer} {code} {name}")
}

/// Prints a push id, whose characters stand in a text: `id` and them.
pub fn write_id(out: &mut String, id: &str) -> Result<(), AllocError>
    ensures { OnOk result (Appends out.old out.new (id_line id.now)) }
{
    writeln!(out, "id {id}")
}

/// Prints that the line of that number has no form.
pub fn write_bad_line(out: &mut String, number: u64) -> Result<(), AllocError>
    ensures { OnOk result (Appends out.old out.new (bad_line number)) }
{
    writeln!(out, "bad line {number}")
}

// ---- what the changes of a view print

/// A text as JSON.
pub(crate) fn json_of(alloc: Global, text: &str) -> Result<String, AllocError>
    ensures { IfOk result (λ json. string_bytes json ≡ json_text text.now) }
{
    Value::try_from_str(alloc, text)?.to_string(alloc)
}

/// Prints `NAME KEY TREE`.
pub(crate) fn write_row(
    out: &mut String,
    alloc: Global,
    name: &str,
    key: &Key,
    tree: &Tree,
) -> Result<(), AllocError>
    ensures { OnOk result (Appends out.old out.new (row_text name.now key.now tree.now)) }
{
    let key = json_of(alloc, key.text())?;
    let tree = tree.text(alloc)?;
    write!(out, "{name} {key} {tree}")
}

// ` after KEY`, where the row before it has a key.
fn write_after(out: &mut String, alloc: Global, after: Option<&Key>) -> Result<(), AllocError>
    ensures { OnOk result (Appends out.old out.new (after_text (option_copied after.entry))) }
{
    match after {
        Some(key) => {
            let key = json_of(alloc, key.text())?;
            write!(out, " after {key}")
        }
        None => out.push_str(" after none"),
    }
}

// `NAME KEY TREE after KEY`
fn write_placed(
    out: &mut String,
    alloc: Global,
    name: &str,
    key: &Key,
    tree: &Tree,
    after: Option<&Key>,
) -> Result<(), AllocError>
    ensures { OnOk result (Appends out.old out.new
        (row_text name.now key.now tree.now ++ after_text (option_copied after.entry))) }
{
    write_row(out, alloc, name, key, tree)?;
    write_after(out, alloc, after)
}

// A change of a view.
fn write_change(out: &mut String, alloc: Global, change: &Change) -> Result<(), AllocError>
    ensures { OnOk result (Appends out.old out.new (change_text change.now)) }
{
    match change {
        Change::Removed { key, old } => write_row(out, alloc, "removed", key, old),
        Change::Added { key, value, after } => {
            write_placed(out, alloc, "added", key, value, after.as_ref())
        }
        Change::Moved { key, value, after } => {
            write_placed(out, alloc, "moved", key, value, after.as_ref())
        }
        Change::Changed { key, value, after } => {
            write_placed(out, alloc, "changed", key, value, after.as_ref())
        }
        Change::Value { value } => {
            let value = value.text(alloc)?;
            write!(out, "value {value}")
        }
    }
}

// The line of a change of a listener's view.
fn write_change_line(
    out: &mut String,
    alloc: Global,
    listener: u64,
    change: &Change,
) -> Result<(), AllocError>
    ensures { OnOk result (Appends out.old out.new (change_line listener change.now)) }
{
    write!(out, "L{listener} ")?;
    write_change(out, alloc, change)?;
    out.push('\n')
}

/// Prints the changes of a listener's view, a line each.
pub fn write_batch(out: &mut String, alloc: Global, batch: &Batch) -> Result<(), AllocError>
    ensures { OnOk result (Appends out.old out.new (batch_text batch.now)) }
{
    let listener = batch.listener;
    for change in batch.changes.as_slice() {
        write_change_line(out, alloc, listener, change)?;
    }
    Ok(())
}

// ---- what a look at the core shows, printed

// `row KEY VALUE`
fn write_row_line(out: &mut String, alloc: Global, row: &Row) -> Result<(), AllocError>
    ensures { OnOk result (Appends out.old out.new (row_line row.now)) }
{
    write_row(out, alloc, "row", &row.key, &row.value)?;
    out.push('\n')
}

// A line for each row, or `empty`.
fn write_rows(out: &mut String, alloc: Global, rows: &[Row]) -> Result<(), AllocError>
    ensures { OnOk result (Appends out.old out.new (rows_text rows.now)) }
{
    if rows.is_empty() {
        return out.push_str("empty\n");
    }
    for row in rows {
        write_row_line(out, alloc, row)?;
    }
    Ok(())
}

/// Prints the view of a listener: `unknown` where it isn't primed, `leaf VALUE`, a `row KEY VALUE` for
/// each row in order, or `empty`.
pub fn write_view(out: &mut String, alloc: Global, view: Option<&Shown>) -> Result<(), AllocError>
    ensures { OnOk result (Appends out.old out.new (view_text (option_copied view.entry))) }
{
    let Some(shown) = view else {
        return out.push_str("unknown\n");
    };
    match shown.leaf() {
        Some(leaf) => {
            let text = Tree::leaf(leaf.copy(alloc)?).text(alloc)?;
            writeln!(out, "leaf {text}")
        }
        None => write_rows(out, alloc, shown.rows()),
    }
}

// A space and the text of the query's `q`, where it has one.
fn write_query(out: &mut String, alloc: Global, query: &Query) -> Result<(), AllocError>
    ensures { OnOk result (Appends out.old out.new (query_words query.now)) }
{
    match query_text(alloc, query)? {
        Some(text) => write!(out, " {text}"),
        None => Ok(()),
    }
}

// `T<tag> PATH by L<n>`
fn write_kept(out: &mut String, alloc: Global, kept: &Kept) -> Result<(), AllocError>
    ensures { OnOk result (Appends out.old out.new (kept_line kept.now)) }
{
    let tag = kept.tag;
    let listener = kept.listener;
    let path = kept.query.path().text()?;
    write!(out, "T{tag} {path}")?;
    write_query(out, alloc, &kept.query)?;
    writeln!(out, " by L{listener}")
}

/// Prints the listens that are kept, a line each with the number of a listener that needs it, or
/// `T none`.
pub fn write_cover(out: &mut String, alloc: Global, cover: &[Kept]) -> Result<(), AllocError>
    ensures { OnOk result (Appends out.old out.new (cover_text cover.now)) }
{
    if cover.is_empty() {
        return out.push_str("T none\n");
    }
    for kept in cover {
        write_kept(out, alloc, kept)?;
    }
    Ok(())
}

// `> TEXT`
fn write_message(out: &mut String, alloc: Global, message: &ClientMessage) -> Result<(), AllocError>
    ensures { OnOk result (Appends out.old out.new (message_line message.now)) }
{
    let text = message.text(alloc)?;
    writeln!(out, "> {text}")
}

/// Prints the messages that were waiting to be sent, a line each, or `> none`.
pub fn write_messages(
    out: &mut String,
    alloc: Global,
    messages: &[ClientMessage],
) -> Result<(), AllocError>
    ensures { OnOk result (Appends out.old out.new (messages_text messages.now)) }
{
    if messages.is_empty() {
        return out.push_str("> none\n");
    }
    for message in messages {
        write_message(out, alloc, message)?;
    }
    Ok(())
}
