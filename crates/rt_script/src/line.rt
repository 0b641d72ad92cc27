// What a line does to a core and to the source of push ids, and what it prints.
ghost use Rattle.std.specs.Prelude.{◌≡◌, ◌≢◌, ◌++◌, [], string_bytes, IfOk, IsOk, OnOk, OnErr};
ghost use Rattle.rt_sync.specs.Core.{world_in};
ghost use Rattle.rt_script.specs.Doing.{AskedLacks, LineLacks, OutLacks, StepLacks, asked_done, bytes_done};
ghost use Rattle.rt_script.specs.Doing.{has_form, is_good, kept_text, last_after, line_done, listener_text};
ghost use Rattle.rt_script.specs.Doing.{push_text, step_text, stepped, waiting, without_messages};
ghost use Rattle.rt_lines.specs.Lines.{line_of_bytes};
ghost use Rattle.rt_lines.specs.Printing.{messages_text, refusal_text};
ghost use Rattle.rt_lines.specs.inside.Appending.{Appends};

use crate::script::State;
use rt_lines::{
    Line, LineError, Refusal, write_bad_line, write_cover, write_id, write_messages, write_refusal,
    write_report, write_view,
};
use rt_push::PushIds;
use rt_sync::Core;
use rt_wire::ClientMessage;
use rt_world::{CoreError, Step};
use std::alloc::{AllocError, Global};

// Prints why a core refuses. Want of memory, which ends a run, is not printed.
fn refuse(out: &mut String, error: CoreError) -> Result<(), AllocError>
    ensures printed { OnOk result (Appends out.old out.new (refusal_text (Refusal.Core error))) }
    ensures memory { OnOk result (error ≢ CoreError.NoMemory) }
{
    match error {
        CoreError::NoMemory => Err(AllocError),
        refusal => write_refusal(out, Refusal::Core(refusal)),
    }
}

// Makes a step, and prints what the core answers.
fn make_step(out: &mut String, alloc: Global, core: &mut Core, step: Step) -> Result<(), AllocError>
    ensures world { OnOk result (world_in core.new ≡ stepped step (world_in core.old)) }
    ensures printed { OnOk result (Appends out.old out.new (step_text step (world_in core.old))) }
    ensures lacking { OnErr result (StepLacks step (world_in core.old) (world_in core.new)) }
{
    match core.apply(step) {
        Ok(report) => write_report(out, alloc, &report),
        Err(error) => refuse(out, error),
    }
}

// Takes out the messages that wait to be sent.
fn take_messages(alloc: Global, core: &mut Core) -> Result<Vec<ClientMessage>, AllocError>
    ensures world { OnOk result (world_in core.new ≡ without_messages (world_in core.old)) }
    ensures messages { IfOk result (λ messages. messages.items ≡ waiting (world_in core.old)) }
    ensures lacking { OnErr result (OutLacks (world_in core.old) (world_in core.new)) }
{
    let mut messages = Vec::new(alloc);
    while let Some(message) = core.take_outgoing() {
        messages.push(message)?;
    }
    Ok(messages)
}

// Takes out the messages that wait to be sent, and prints them.
fn show_messages(out: &mut String, alloc: Global, core: &mut Core) -> Result<(), AllocError>
    ensures world { OnOk result (world_in core.new ≡ without_messages (world_in core.old)) }
    ensures printed { OnOk result (Appends out.old out.new
        (messages_text (waiting (world_in core.old)))) }
    ensures lacking { OnErr result (OutLacks (world_in core.old) (world_in core.new)) }
{
    let messages = take_messages(alloc, core)?;
    write_messages(out, alloc, messages.as_slice())
}

// Prints the listens that are kept.
fn show_cover(out: &mut String, alloc: Global, core: &Core) -> Result<(), AllocError>
    ensures { OnOk result (Appends out.old out.new (kept_text (world_in core.now))) }
{
    match core.cover() {
        Ok(cover) => write_cover(out, alloc, cover.as_slice()),
        Err(error) => refuse(out, error),
    }
}

// Prints what the listener of that number shows.
fn show_view(out: &mut String, alloc: Global, core: &Core, listener: u64) -> Result<(), AllocError>
    ensures { OnOk result (Appends out.old out.new (listener_text listener (world_in core.now))) }
{
    match core.view(listener) {
        Ok(view) => write_view(out, alloc, view.as_ref()),
        Err(error) => refuse(out, error),
    }
}

// Makes a push id, and prints it, or why there is none.
fn make_id(
    out: &mut String,
    ids: &mut PushIds,
    now_ms: u64,
    random: [u8; 12],
) -> Result<(), AllocError>
    ensures last { ids.new ≡ last_after now_ms random ids.old }
    ensures printed { OnOk result (Appends out.old out.new (push_text now_ms random ids.old)) }
{
    match ids.next(now_ms, random) {
        Ok(id) => write_id(out, str::from_utf8(&id).unwrap()),
        Err(error) => write_refusal(out, Refusal::Push(error)),
    }
}

// Does what a line asks for, and prints it.
fn print_line(
    out: &mut String,
    alloc: Global,
    state: &mut State,
    line: Line,
) -> Result<(), AllocError>
    ensures state { OnOk result (state.new ≡ (line_done line state.old).state) }
    ensures printed { OnOk result (Appends out.old out.new (line_done line state.old).printed) }
    ensures lacking { OnErr result (LineLacks line state.old state.new) }
{
    match line {
        Line::Step(step) => make_step(out, alloc, &mut state.core, step),
        Line::Out => show_messages(out, alloc, &mut state.core),
        Line::Cover => show_cover(out, alloc, &state.core),
        Line::View(listener) => show_view(out, alloc, &state.core, listener),
        Line::Push { now_ms, random } => make_id(out, &mut state.ids, now_ms, random),
    }
}

// Does what bytes that are not empty ask for, and prints it; answers whether they have a form.
fn print_bytes(
    out: &mut String,
    alloc: Global,
    state: &mut State,
    number: u64,
    bytes: &[u8],
) -> Result<bool, AllocError>
    ensures good { IfOk result (λ good. good ≡ has_form (line_of_bytes bytes.now)) }
    ensures state { OnOk result
        (state.new ≡ (asked_done number (line_of_bytes bytes.now) state.old).state) }
    ensures printed { OnOk result (Appends out.old out.new
        (asked_done number (line_of_bytes bytes.now) state.old).printed) }
    ensures lacking { OnErr result (AskedLacks (line_of_bytes bytes.now) state.old state.new) }
{
    match Line::read(alloc, bytes) {
        Ok(line) => {
            print_line(out, alloc, state, line)?;
            Ok(true)
        }
        Err(LineError::Bad) => {
            write_bad_line(out, number)?;
            Ok(false)
        }
        Err(LineError::Refused(refusal)) => {
            write_refusal(out, refusal)?;
            Ok(true)
        }
        Err(LineError::NoMemory) => Err(AllocError),
    }
}

/// Does what a line asks for: makes its step, looks at the core, or makes a push id. Appends what is
/// printed for it: the step's report, what the core shows, the id, or why it is refused.
///
/// # Errors
///
/// Memory lacked, which ends a run: nothing is appended then. The step may be made and untold, or
/// not made, and the core has failed; messages that were taken out and an id that was made are lost.
pub fn do_line(
    alloc: Global,
    state: &mut State,
    line: Line,
    text: &mut String,
) -> Result<(), AllocError>
    ensures state { OnOk result (state.new ≡ (line_done line state.old).state) }
    ensures printed { OnOk result (Appends text.old text.new (line_done line state.old).printed) }
    ensures silent { OnErr result (string_bytes text.new ≡ string_bytes text.old) }
    ensures lacking { OnErr result (LineLacks line state.old state.new) }
{
    let mut told = String::new(alloc);
    print_line(&mut told, alloc, state, line)?;
    text.push_str(told.as_str())
}

/// Does what the line of that number asks for, by its bytes, without the line feed at their end, and
/// answers whether it is good: empty, or of one of the forms, though it may be refused. Appends what
/// is printed for it: as [`do_line`] does, why a word of it is refused, or that it is a bad line;
/// nothing for an empty one.
///
/// ```text
/// let mut state = State::new(alloc, Limits::full());
/// do_bytes(alloc, &mut state, 1, b"[\"connected\"]", &mut text)?;    // text has "done\n" more
/// do_bytes(alloc, &mut state, 2, b"[\"connect\"]", &mut text)?;      // false, and "bad line 2\n"
/// ```
///
/// # Errors
///
/// Memory lacked, which ends a run: nothing is appended then. The line may not be read, or as
/// [`do_line`] leaves it.
pub fn do_bytes(
    alloc: Global,
    state: &mut State,
    number: u64,
    bytes: &[u8],
    text: &mut String,
) -> Result<bool, AllocError>
    ensures good { IfOk result (λ good. good ≡ is_good bytes.now) }
    ensures state { OnOk result (state.new ≡ (bytes_done number bytes.now state.old).state) }
    ensures printed { OnOk result (Appends text.old text.new
        (bytes_done number bytes.now state.old).printed) }
    ensures silent { OnErr result (string_bytes text.new ≡ string_bytes text.old) }
    ensures lacking { OnErr result (AskedLacks (line_of_bytes bytes.now) state.old state.new) }
    ensures empty { bytes.now ≡ [] → IsOk result }
{
    if bytes.is_empty() {
        return Ok(true);
    }
    let mut printed = String::new(alloc);
    let good = print_bytes(&mut printed, alloc, state, number, bytes)?;
    text.push_str(printed.as_str())?;
    Ok(good)
}
