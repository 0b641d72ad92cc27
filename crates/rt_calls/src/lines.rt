// The lines, one after another.
use crate::fault::{Fault, Told};
use crate::line::Line;
use std::alloc::Global;
use std::io::{Read, Write};
use std::sync::Wait;

// What the lines call.
pub(crate) trait Called: Drop + Sized {
    // What there is before the first line.
    fn new(alloc: Global) -> Self;

    // Makes the call of a line, of which the first word is the library, and says what it answers. Where
    // it lacks memory it has changed nothing, or else has Failed. A delivery may wait, as R may.
    fn call<R: Wait>(&mut self, line: &mut Line) -> Told;
}

fn is_passed_over(text: &str) -> bool {
    text.is_empty() || text.starts_with('#')
}

// Makes the call of a line. Why the line failed counts above what the call answers, but for a word
// that stands for nothing, beside which memory may have lacked.
fn call<C: Called, R: Wait>(called: &mut C, text: &str, line: &mut Line) -> Told {
    line.begin(text);
    let answer = called.call::<R>(line);
    match (line.end(), answer) {
        (Err(Fault::NoSuchCall), Err(fault)) => Err(fault),
        (Err(fault), _) => Err(fault),
        (Ok(()), answer) => answer,
    }
}

// Makes the first lines anew, unsaid.
fn make_anew<C: Called, R: Wait>(called: &mut C, texts: &str, count: usize, line: &mut Line) {
    *called = C::new(line.alloc);
    line.is_quiet = true;
    for text in texts.lines().take(count) {
        if !is_passed_over(text) {
            let _ = call::<C, R>(called, text, line);
        }
    }
    line.is_quiet = false;
}

// Makes the call of a line, behind so many, and says it and what it answers. Where memory was lacking it
// is made once more, and where what is called has failed, these lines and then it are.
fn make_line<C: Called, R: Wait>(
    called: &mut C,
    texts: &str,
    count: usize,
    text: &str,
    line: &mut Line,
) -> Told {
    line.say(text);
    line.say(" => ");
    let mut answer = call::<C, R>(called, text, line);
    if let Err(Fault::NoMemory | Fault::Lost) = answer {
        line.say("NoMemory\n");
    }
    if let Err(Fault::NoMemory) = answer {
        answer = call::<C, R>(called, text, line);
    }
    if let Err(Fault::Lost | Fault::Failed) = answer {
        make_anew::<C, R>(called, texts, count, line);
        answer = call::<C, R>(called, text, line);
    }
    match answer {
        Ok(()) => line.say("\n"),
        Err(Fault::NoSuchCall) => line.say("NoSuchCall\n"),
        Err(fault) => return Err(fault),
    }
    Ok(())
}

fn make_lines<C: Called, R: Wait>(texts: &str, line: &mut Line) -> Told {
    let mut called = C::new(line.alloc);
    for (count, text) in texts.lines().enumerate() {
        if !is_passed_over(text) {
            make_line::<C, R>(&mut called, texts, count, text, line)?;
        }
    }
    Ok(())
}

// Makes the calls of the input's lines, and then writes what was said of them. Answers nothing where a
// stream failed, or memory was lacking before the first call or for good.
pub(crate) fn run<C: Called, R: Wait>(
    alloc: Global,
    input: &mut impl Read,
    output: &mut impl Write,
) -> Option<()> {
    let mut texts = String::new(alloc);
    input.read_to_string(&mut texts).ok()?;
    let mut line = Line::new(alloc, texts.len()).ok()?;
    let made = make_lines::<C, R>(texts.as_str(), &mut line);
    output.write_all(line.said().as_bytes()).ok()?;
    made.ok()
}
