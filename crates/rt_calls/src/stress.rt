// Threads that make steps by chance over one client, each on a seat of its own, beside one that is the
// server. Each writes down what it did, with a number that it takes under the lock, and what its seat was
// told; all that is printed. `tools/stress.py` makes the same steps, in the order of these numbers, of one
// core that no thread shares, and compares.
mod basket;
mod chance;
mod choosing;
mod diary;
mod hearing;
mod playing;
mod serving;
mod talking;

use anyhow::Error;
use std::alloc::{AllocError, Global};
use std::env;
use std::io::Print;
use std::sync::Wait;
use std::thread::Threads;

/// So many runs, of the seeds from the first one on; each thread makes so many calls in each.
#[derive(Clone, Copy)]
pub(crate) struct Runs {
    first: u64,
    count: u64,
    calls: u64,
}

// The number that a word is, if it is one.
fn number(word: Option<String>) -> Option<u64> {
    word?.as_str().parse().ok()
}

// The runs that three words ask for, if they are numbers.
fn runs_of(first: Option<String>, count: Option<String>, calls: Option<String>) -> Option<Runs> {
    Some(Runs {
        first: number(first)?,
        count: number(count)?,
        calls: number(calls)?,
    })
}

/// The runs that the words of the command line ask for: three numbers.
///
/// # Errors
///
/// Want of memory.
pub(crate) fn asked(rt: &HostRuntime) -> Result<Option<Runs>, AllocError> {
    let Ok(mut words) = env::args(rt) else {
        return Err(AllocError);
    };
    drop(words.next());
    Ok(runs_of(words.next(), words.next(), words.next()))
}

/// Makes runs.
pub(crate) fn play<R: Threads + Wait + Print + Sync>(
    rt: &R,
    alloc: Global,
    runs: Runs,
) -> Result<(), Error> {
    for turn in 0..runs.count {
        playing::play(rt, alloc, runs.first.wrapping_add(turn), runs.calls)?;
    }
    Ok(())
}
