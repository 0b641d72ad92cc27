//! The console: runs a script of lines over one core, serves a peer to one client after another or to many
//! at once, drives a client by lines, or watches one.
#![tactic(auto)]

mod arguments;
mod display;

use crate::display::{Shape, Showing};
use rt_commands::{
    Asked, ConnectFault, PROGRAM, Serving, Work, connect, explain, read_words, run_logged, serve,
};
use rt_emulate::{Diary, EmulateFault, Emulating, Emulator, Level, Pen, Stopper};
use rt_input::{ConsoleError, Fault, Log, Reading, Silent, Telling, Writing};
use rt_watch::{WatchFault, Watching, watch};
use std::alloc::Global;
use std::fmt::Display;
use std::io;
use std::net::{Ipv4Addr, Net, SocketAddr};
use std::process::ExitCode;
use std::random::RandomSource;
use std::sync::Wait;
use std::thread::{self, Threads};
use std::time::Clock;

// Says why the program ends, and answers the exit status of a fault.
fn say_fault<E: Display>(rt: &HostRuntime, fault: &E) -> u8 {
    let _ = eprintln!(rt; "{PROGRAM}: {fault}");
    1
}

// Runs the script of the standard input, and answers the exit status: 1 where a fault or a bad line was
// printed.
fn status_of_script<L: Log>(rt: &HostRuntime, shape: Shape, log: &mut L) -> u8 {
    let mut reader = Reading::new(rt.stdin());
    let mut writer = Writing::new(Showing::new(rt.alloc(), rt.stdout(), shape));
    match run_logged(rt.alloc(), &mut reader, &mut writer, log) {
        Ok(0) => 0,
        Ok(_) => 1,
        Err(error) => say_fault(rt, &Fault::of(error, reader, writer)),
    }
}

// Serves a peer, and answers the exit status.
fn status_of_serving<R: Net + Wait, L: Log>(
    rt: &R,
    system: &HostRuntime,
    serving: Serving,
    log: &mut L,
) -> u8 {
    match serve(rt, system.alloc(), serving, log) {
        Ok(_) => 0,
        Err(fault) => say_fault(system, &fault),
    }
}

// Starts a thread that reads the standard input to its end, and then stops the emulator.
fn stop_at_end<R: Threads>(
    rt: &R,
    system: &HostRuntime,
    stopper: Stopper,
) -> Result<(), EmulateFault> {
    let system = *system;
    let reading = thread::spawn(rt, move || {
        let mut input = system.stdin();
        let _passed_over = io::copy(&mut input, &mut io::sink());
        let _woken = stopper.stop();
    });
    match reading {
        Ok(_) => Ok(()),
        Err(_) => Err(EmulateFault::NoMemory),
    }
}

// Serves a tree to many clients at once. What it says stands in the diary, and is written by the pen.
fn emulate<R: Net + Wait + Threads>(
    rt: &R,
    system: &HostRuntime,
    emulating: Emulating,
    ends_with_input: bool,
    diary: &mut Diary,
    pen: &Pen,
) -> Result<(), EmulateFault> {
    let emulator = Emulator::open(rt, system, emulating, diary)?;
    if ends_with_input {
        stop_at_end(rt, system, emulator.stopper()?)?;
    }
    emulator.run(rt, system, diary, pen)
}

// Serves a tree to many clients at once, and answers the exit status.
fn status_of_emulating<R: Net + Wait + Threads + Clock + Clone + Drop + Send + 'static>(
    rt: &R,
    system: &HostRuntime,
    emulating: Emulating,
    ends_with_input: bool,
    level: Level,
) -> u8 {
    let Ok(pen) = Pen::begin(rt, system.alloc(), system.stderr()) else {
        return say_fault(system, &EmulateFault::NoMemory);
    };
    let mut diary = Diary::begin(system, level);
    let served = emulate(rt, system, emulating, ends_with_input, &mut diary, &pen);
    pen.end(rt, &mut diary);
    match served {
        Ok(()) => 0,
        Err(fault) => say_fault(system, &fault),
    }
}

// Connects a client that the lines of the standard input drive, and answers the exit status: 1 where a
// fault or a bad line was printed. It takes the system twice, since only `main` has it as one that waits.
fn status_of_connection<R: Net + Wait + RandomSource, L: Log>(
    rt: &R,
    system: &HostRuntime,
    port: u16,
    shape: Shape,
    log: &mut L,
) -> u8 {
    let mut reader = Reading::new(system.stdin());
    let mut writer = Writing::new(Showing::new(system.alloc(), system.stdout(), shape));
    match connect(rt, system.alloc(), port, &mut reader, &mut writer, log) {
        Ok(0) => 0,
        Ok(_) => 1,
        Err(ConnectFault::Ended(error)) => say_fault(system, &Fault::of(error, reader, writer)),
        Err(fault) => say_fault(system, &fault),
    }
}

// Connects a client that does the lines of the standard input as they come while what the server sends is
// printed, and answers the exit status: 1 where a fault or a bad line was printed.
fn status_of_watching<
    R: Net + Wait + Threads + Clock + RandomSource + Clone + Drop + Send + 'static,
    L: Log,
>(rt: &R, system: &HostRuntime, watching: Watching, shape: Shape, log: &mut L) -> u8 {
    let reader = Reading::new(system.stdin());
    let mut writer = Writing::new(Showing::new(system.alloc(), system.stdout(), shape));
    let (watched, reader) = watch(rt, system.alloc(), watching, reader, &mut writer, log);
    match watched {
        Ok(0) => 0,
        Ok(_) => 1,
        Err(WatchFault::Ended(error)) => {
            // Where the reader is in a thread still, it has not failed.
            let reader = reader.unwrap_or(Reading::new(system.stdin()));
            say_fault(system, &Fault::of(error, reader, writer))
        }
        Err(fault) => say_fault(system, &fault),
    }
}

// Does the work, and answers the exit status.
fn status_of_work<
    R: Net + Wait + Threads + Clock + RandomSource + Clone + Drop + Send + 'static,
    L: Log,
>(rt: &R, system: &HostRuntime, work: Work, shape: Shape, log: &mut L) -> u8 {
    match work {
        Work::Script => status_of_script(system, shape, log),
        Work::Serve(serving) => status_of_serving(rt, system, serving, log),
        Work::Emulate {
            emulating,
            ends_with_input,
            level,
        } => status_of_emulating(rt, system, emulating, ends_with_input, level),
        Work::Connect { port } => status_of_connection(rt, system, port, shape, log),
        Work::Watch {
            port,
            idle,
            is_once,
            changes_only,
            width,
        } => {
            let watching = Watching {
                address: SocketAddr::from((Ipv4Addr::LOCALHOST, port)),
                idle_ms: idle.map(u64::from),
                is_once,
            };
            let shape = Shape {
                changes_only,
                width,
                ..shape
            };
            status_of_watching(rt, system, watching, shape, log)
        }
    }
}

// Does what is asked for, and answers the exit status.
fn status_of_asked<R: Net + Wait + Threads + Clock + RandomSource + Clone + Drop + Send + 'static>(
    rt: &R,
    system: &HostRuntime,
    asked: Asked,
) -> u8 {
    let Asked {
        work,
        is_escaped,
        verbose,
    } = asked;
    let shape = Shape::whole(is_escaped);
    if verbose {
        let mut log = Telling::new(system.alloc(), system.stderr());
        status_of_work(rt, system, work, shape, &mut log)
    } else {
        status_of_work(rt, system, work, shape, &mut Silent)
    }
}

// Does what the words ask for, and answers the exit status.
fn status_of_words<R: Net + Wait + Threads + Clock + RandomSource + Clone + Drop + Send + 'static>(
    rt: &R,
    system: &HostRuntime,
    words: &[String],
) -> u8 {
    match read_words(system.alloc(), words) {
        Ok(asked) => status_of_asked(rt, system, asked),
        Err(ConsoleError::BadWords) => explain(system, system.alloc(), words),
        Err(error) => say_fault(system, &error),
    }
}

fn main(rt: HostRuntime) -> ExitCode {
    let status = match arguments::words_of(&rt, rt.alloc()) {
        Ok(words) => status_of_words(&rt, &rt, words.as_slice()),
        Err(error) => {
            let _ = eprintln!(&rt; "{PROGRAM}: {error}");
            error.status()
        }
    };
    ExitCode::from(status)
}
