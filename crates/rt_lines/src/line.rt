// What a line asks for.
ghost use Rattle.std.specs.Prelude.{◌≡◌, ◌⊎◌, ◌≤◌, length, true, IfOk, IfErr, Ok, Err, Some, None};
ghost use Rattle.serde_json.specs.View.{members_view, view as data_of};
ghost use Rattle.rt_lines.specs.Lines.{data_of_bytes, has_mark, line_in, line_of_bytes, line_of_data};
ghost use Rattle.rt_lines.specs.Lines.{unmarked};
ghost use Rattle.rt_lines.specs.Forms as form;
ghost use Rattle.rt_lines.specs.inside.FormView.{as_calls, as_form, as_parts, as_written};

use crate::call::{QueryCall, query_of};
use crate::error::{LineError, Refusal};
use crate::form::{LineForm, PartWords, Written, form_of};
use crate::words::{action_of, entries_of, parts_read, path_of, tree_of};
use rt_wire::{Ending, Reason, ServerMessage, WireError};
use rt_world::Step;
use serde_json::Value;
use std::alloc::Global;
use std::collections::BTreeMap;

/// What a line asks for.
#[derive(Drop)]
pub enum Line {
    /// A step of the core.
    Step(Step),
    /// The messages that wait to be sent, which are taken.
    Out,
    /// The listens that are kept.
    Cover,
    /// What the listener of that number shows.
    View(u64),
    /// The next push id, for the moment now in milliseconds since 1970 and twelve random digits.
    Push { now_ms: u64, random: [u8; 12] },
}

// What the server sends as a text.
fn served(alloc: Global, text: &str) -> Result<Line, LineError>
    ensures ok { IfOk result (λ line. line_in (form.Server text.now) ≡ Ok line) }
    ensures fault { IfErr result (λ e. (line_in (form.Server text.now) ≡ Err e)
        ⊎ (e ≡ LineError.NoMemory)) }
{
    match ServerMessage::read(alloc, text) {
        Ok(message) => Ok(Line::Step(Step::from(message))),
        Err(WireError::NoMemory) => Err(LineError::NoMemory),
        Err(error) => Err(LineError::Refused(Refusal::Wire(error))),
    }
}

// A reason, which has no bound in a script.
fn reason_of(alloc: Global, why: &str) -> Result<Reason, LineError>
    ensures ok { IfOk result (λ reason. reason ≡ why.now) }
    ensures fault { IfErr result (λ e. e ≡ LineError.NoMemory) }
{
    Ok(Reason::of(String::from_str(alloc, why)?))
}

// A listen of a seat.
fn listen(
    alloc: Global,
    seat: u64,
    path: &str,
    calls: Vec<QueryCall<'_>>,
) -> Result<Line, LineError>
    ensures ok { IfOk result (λ line. line_in (form.Listen seat path.now (as_calls calls.entry.items))
        ≡ Ok line) }
    ensures fault { IfErr result (λ e.
        (line_in (form.Listen seat path.now (as_calls calls.entry.items)) ≡ Err e)
        ⊎ (e ≡ LineError.NoMemory)) }
{
    let query = query_of(alloc, path, calls)?;
    Ok(Line::Step(Step::Listen { seat, query }))
}

// A write of a seat.
fn write(alloc: Global, seat: u64, written: Written<'_>) -> Result<Line, LineError>
    ensures ok { IfOk result (λ line. line_in (form.Write seat (as_written written.entry)) ≡ Ok line) }
    ensures fault { IfErr result (λ e.
        (line_in (form.Write seat (as_written written.entry)) ≡ Err e) ⊎ (e ≡ LineError.NoMemory)) }
{
    let action = action_of(alloc, written)?;
    Ok(Line::Step(Step::Write { seat, action }))
}

// A write that a seat asks for at the end of the connection.
fn run_at_end(alloc: Global, seat: u64, written: Written<'_>) -> Result<Line, LineError>
    ensures ok { IfOk result (λ line. line_in (form.OnDisconnect seat (as_written written.entry))
        ≡ Ok line) }
    ensures fault { IfErr result (λ e.
        (line_in (form.OnDisconnect seat (as_written written.entry)) ≡ Err e)
        ⊎ (e ≡ LineError.NoMemory)) }
{
    let ending = Ending::Run(action_of(alloc, written)?);
    Ok(Line::Step(Step::OnDisconnect { seat, ending }))
}

// A seat asks that nothing be done there any more at the end of the connection.
fn cancel_at_end(alloc: Global, seat: u64, path: &str) -> Result<Line, LineError>
    ensures ok { IfOk result (λ line. line_in (form.CancelDisconnect seat path.now) ≡ Ok line) }
    ensures fault { IfErr result (λ e. (line_in (form.CancelDisconnect seat path.now) ≡ Err e)
        ⊎ (e ≡ LineError.NoMemory)) }
{
    let ending = Ending::Cancel(path_of(alloc, path)?);
    Ok(Line::Step(Step::OnDisconnect { seat, ending }))
}

// A value that the server sends at a path.
fn data(alloc: Global, tag: u64, path: &str, value: &Value) -> Result<Line, LineError>
    ensures ok { IfOk result (λ line. line_in (form.Data tag path.now (data_of value.now))
        ≡ Ok line) }
    ensures fault { IfErr result (λ e. (line_in (form.Data tag path.now (data_of value.now)) ≡ Err e)
        ⊎ (e ≡ LineError.NoMemory)) }
{
    let path = path_of(alloc, path)?;
    let tree = tree_of(alloc, value)?;
    Ok(Line::Step(Step::Data { tag, path, tree }))
}

// Values that the server sends at several paths.
fn merge(alloc: Global, tag: u64, entries: &BTreeMap<String, Value>) -> Result<Line, LineError>
    ensures ok { IfOk result (λ line. line_in (form.Merge tag (members_view entries.now.entries))
        ≡ Ok line) }
    ensures fault { IfErr result (λ e.
        (line_in (form.Merge tag (members_view entries.now.entries)) ≡ Err e)
        ⊎ (e ≡ LineError.NoMemory)) }
{
    let entries = entries_of(alloc, entries)?;
    Ok(Line::Step(Step::DataMerge { tag, entries }))
}

// Values that the server sends on several listens.
fn parts(alloc: Global, words: &[PartWords<'_>]) -> Result<Line, LineError>
    ensures ok { IfOk result (λ line. line_in (form.Parts (as_parts words.now)) ≡ Ok line) }
    ensures fault { IfErr result (λ e. (line_in (form.Parts (as_parts words.now)) ≡ Err e)
        ⊎ (e ≡ LineError.NoMemory)) }
{
    let parts = parts_read(alloc, words)?;
    Ok(Line::Step(Step::Push { parts }))
}

// A request that the server refuses.
fn refused(alloc: Global, id: u64, why: &str) -> Result<Line, LineError>
    ensures ok { IfOk result (λ line. line_in (form.Refused id why.now) ≡ Ok line) }
    ensures fault { IfErr result (λ e. e ≡ LineError.NoMemory) }
{
    let why = reason_of(alloc, why)?;
    Ok(Line::Step(Step::Refused { id, why }))
}

// A listen that the server ends.
fn revoked(alloc: Global, tag: u64, why: &str) -> Result<Line, LineError>
    ensures ok { IfOk result (λ line. line_in (form.Revoked tag why.now) ≡ Ok line) }
    ensures fault { IfErr result (λ e. e ≡ LineError.NoMemory) }
{
    let why = reason_of(alloc, why)?;
    Ok(Line::Step(Step::Revoked { tag, why }))
}

// What a line of a form asks for. Its words are looked at in their order, so that a line with several
// faults is refused by the first.
fn line_of(alloc: Global, form: LineForm<'_>) -> Result<Line, LineError>
    ensures ok { IfOk result (λ line. line_in (as_form form.entry) ≡ Ok line) }
    ensures fault { IfErr result (λ e. (line_in (as_form form.entry) ≡ Err e)
        ⊎ (e ≡ LineError.NoMemory)) }
{
    match form {
        LineForm::Listen { seat, path, calls } => listen(alloc, seat, path, calls),
        LineForm::Unlisten { seat, listener } => Ok(Line::Step(Step::Unlisten { seat, listener })),
        LineForm::Write { seat, written } => write(alloc, seat, written),
        LineForm::OnDisconnect { seat, written } => run_at_end(alloc, seat, written),
        LineForm::CancelDisconnect { seat, path } => cancel_at_end(alloc, seat, path),
        LineForm::Close { seat } => Ok(Line::Step(Step::CloseSeat { seat })),
        LineForm::Data { tag, path, value } => data(alloc, tag, path, value),
        LineForm::Merge { tag, entries } => merge(alloc, tag, entries),
        LineForm::Parts { parts: words } => parts(alloc, &words),
        LineForm::Accepted { id } => Ok(Line::Step(Step::Accepted { id })),
        LineForm::Refused { id, why } => refused(alloc, id, why),
        LineForm::Revoked { tag, why } => revoked(alloc, tag, why),
        LineForm::Server { text } => served(alloc, text),
        LineForm::Connected => Ok(Line::Step(Step::Connected)),
        LineForm::Disconnected => Ok(Line::Step(Step::Disconnected)),
        LineForm::Out => Ok(Line::Out),
        LineForm::Cover => Ok(Line::Cover),
        LineForm::View { listener } => Ok(Line::View(listener)),
        LineForm::Push { now_ms, random } => Ok(Line::Push { now_ms, random }),
    }
}

// The line that a JSON value is.
fn line_of_value(alloc: Global, value: &Value) -> Result<Line, LineError>
    ensures ok { IfOk result (λ line. line_of_data (data_of value.now) ≡ Ok line) }
    ensures fault { IfErr result (λ e. (line_of_data (data_of value.now) ≡ Err e)
        ⊎ (e ≡ LineError.NoMemory)) }
{
    line_of(alloc, form_of(alloc, value)?)
}

// The mark of a text's byte order, as UTF-8 has it.
const MARK: [u8; 3] = [0xEF, 0xBB, 0xBF];

/// Whether bytes begin with a byte order mark.
pub(crate) fn has_mark(bytes: &[u8]) -> bool
    ensures mark { result ≡ has_mark bytes.now }
    ensures room { result ≡ true → 3 ≤ length bytes.now }
{
    bytes.starts_with(&MARK)
}

// Bytes without that mark.
fn unmarked(bytes: &[u8]) -> &[u8]
    ensures { result.now ≡ unmarked bytes.now }
{
    if has_mark(bytes) { &bytes[3..] } else { bytes }
}

/// The JSON value of bytes, perhaps behind a byte order mark.
pub(crate) fn value_of(alloc: Global, bytes: &[u8]) -> Result<Value, LineError>
    ensures ok { IfOk result (λ value. data_of_bytes bytes.now ≡ Some (data_of value)) }
    ensures err { IfErr result (λ e. (e ≡ LineError.Bad) × (data_of_bytes bytes.now ≡ None)
        ⊎ (e ≡ LineError.NoMemory)) }
{
    match Value::from_slice(alloc, unmarked(bytes)) {
        Ok(value) => Ok(value),
        Err(error) if error.is_memory() => Err(LineError::NoMemory),
        Err(_) => Err(LineError::Bad),
    }
}

impl Line {
    /// Reads a line, without the line feed at its end. The form of the whole line is looked at
    /// first, then its words in their order.
    ///
    /// # Errors
    ///
    /// `Bad` where the line is no UTF-8, no JSON, or has none of the forms, as a line of no bytes;
    /// `Refused` by the first of its words that is refused, never by the core; `NoMemory`.
    pub fn read(alloc: Global, bytes: &[u8]) -> Result<Line, LineError>
        ensures ok { IfOk result (λ line. line_of_bytes bytes.now ≡ Ok line) }
        ensures fault { IfErr result (λ e. (line_of_bytes bytes.now ≡ Err e)
            ⊎ (e ≡ LineError.NoMemory)) }
    {
        line_of_value(alloc, &value_of(alloc, bytes)?)
    }
}
