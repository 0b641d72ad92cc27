// Cores: steps, each as the line of a script that asks for it.
use crate::fault::{Fault, Told};
use crate::line::Line;
use crate::tell::{tell_changes, tell_reason};
use rt_sync::{Answers, Core};
use rt_world::{Body, CoreError, Limits, Note, Report, Step};
use std::alloc::{AllocError, Global};

// Those of a core: `full`, or `limits` and three numbers.
pub(crate) fn limits(line: &mut Line) -> Limits {
    if line.next() == "full" {
        return Limits::full();
    }
    Limits {
        listeners: line.number(),
        requests: line.number(),
        last_number: line.number(),
    }
}

// Makes a run. It promises nothing, so that what a world is stays out of its callers' proofs.
fn apply_all(alloc: Global, core: &mut Core, steps: Vec<Step>) -> Result<Answers, AllocError> {
    Ok(rt_sync::run(alloc, core, steps)?)
}

fn lacked_memory(answer: &Result<Report, CoreError>) -> bool {
    match answer {
        Err(error) => *error == CoreError::NoMemory || *error == CoreError::Failed,
        Ok(_) => false,
    }
}

// Makes a run of the steps to the end of the line, and says what each answers. Where memory lacks, the
// first of them stay made.
fn run(core: &mut Core, line: &mut Line) -> Told {
    let steps: Vec<Step> = line.all();
    let answers = apply_all(line.alloc, core, line.given(steps)?)?;
    if answers.as_slice().iter().any(lacked_memory) {
        return Err(Fault::Lost);
    }
    for answer in answers.as_slice() {
        say_answer(answer, line);
    }
    Ok(())
}

// `Done` or `Stale`, the number that is given, and what each seat is told; or the name of a
// refusal.
fn say_answer(answer: &Result<Report, CoreError>, line: &mut Line) {
    match answer {
        Ok(report) => {
            line.debug((report.outcome, report.given));
            for note in report.notes.as_slice() {
                say_note(note, line);
            }
        }
        Err(error) => line.say(error.name()),
    }
    line.say(".");
}

// The seat, and the number of its request or listener; then how the request or the listener ended,
// or the changes.
fn say_note(note: &Note, line: &mut Line) {
    match &note.body {
        Body::Settled { id, why } => {
            line.debug((note.seat, *id));
            line.say(" settled");
            tell_reason(why.as_ref(), line);
        }
        Body::Cancelled { listener, why } => {
            line.debug((note.seat, *listener));
            line.say(" cancelled");
            tell_reason(Some(why), line);
        }
        Body::Batch(batch) => {
            line.debug((note.seat, batch.listener));
            tell_changes(batch.changes.as_slice(), line);
        }
    }
}

// A new core with limits, or a run of steps.
pub(crate) fn call(core: &mut Core, line: &mut Line) -> Told {
    match line.next() {
        "new" => {
            let limits = limits(line);
            *core = Core::new(line.alloc, line.given(limits)?);
            Ok(())
        }
        "run" => run(core, line),
        _ => Err(Fault::NoSuchCall),
    }
}
