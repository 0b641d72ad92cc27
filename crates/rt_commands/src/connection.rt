// A client that connects to a port, and is driven by lines.
ghost use Rattle.std.specs.Prelude.{◌≡◌, ◌+◌, ◌<◌, ◌≤◌, ◌^◌, ℕ, List, Some, IfOk, IfErr, OnOk};
ghost use Rattle.std.specs.Io.KnownBytes.{IsAtEnd};
ghost use Rattle.rt_input.specs.Faults.{counts};
ghost use Rattle.rt_input.specs.Lines.{lines_of};
ghost use Rattle.rt_connect.specs.Run.{bad_among};
ghost use Rattle.rt_commands.specs.Connections.{EndsBy};
ghost use Rattle.rt_commands.specs.Errors.{connect_code, connect_name};

use rt_client::{Client, ClientError, Seat};
use rt_connect::drive_logged;
use rt_input::{ConsoleError, Drain, Log, Source};
use rt_world::Limits;
use std::alloc::Global;
use std::net::{Ipv4Addr, Net, TcpStream};
use std::random::RandomSource;
use std::sync::Wait;
use std::{fmt, io};
use thiserror::Error;

// The client's number, and how many items each of its seats holds.
const NUMBER: u64 = 1;

const CAPACITIES: [usize; 8] = [1_024; 8];

/// Why a client ends early, or does not begin.
#[derive(Drop, Error)]
pub enum ConnectFault {
    #[error("no connection to port {port} of 127.0.0.1 can be made: {why}")]
    NotConnected { port: u16, why: io::Error },
    #[error("{0}")]
    Ended(ConsoleError),
}

impl fmt::Debug for ConnectFault {
    // In its words.
    fn fmt<W: fmt::Write>(&self, f: &mut fmt::Formatter<W>) -> fmt::Result {
        fmt::Display::fmt(self, f)
    }
}

impl ConnectFault {
    /// The number of the fault, from 1 to 2. That of what ended a run is its own.
    pub fn code(&self) -> u8
        ensures { result ≡ connect_code self.now }
    {
        match self {
            ConnectFault::NotConnected { .. } => 1,
            ConnectFault::Ended(_) => 2,
        }
    }

    /// The name of the fault.
    pub fn name(&self) -> &'static str
        ensures { result.now ≡ connect_name self.now }
    {
        match self {
            ConnectFault::NotConnected { .. } => "NotConnected",
            ConnectFault::Ended(_) => "Ended",
        }
    }
}

// The client, and its eight seats.
fn new_client(alloc: Global) -> Result<(Client, Vec<Seat>), ConsoleError>
    ensures { IfErr result (λ e. e ≡ ConsoleError.NoMemory) }
{
    match Client::open(alloc, NUMBER, &CAPACITIES, Limits::full()) {
        Ok(opened) => Ok(opened),
        Err(_) => Err(ConsoleError::NoMemory),
    }
}

/// Connects a new client to the port of 127.0.0.1, drives it by the lines that a reader gives, and answers
/// how many of them were bad. Tells the log why the connection ended or did not come about, and what is
/// wrong with each bad line.
///
/// # Errors
///
/// `NotConnected` where no connection is made, with the system's reason, and `Ended` where the run ends
/// early, as that of [`drive_logged`].
pub fn connect<R: Net + Wait + RandomSource, I: Source, D: Drain, L: Log>(
    rt: &R,
    alloc: Global,
    port: u16,
    reader: &mut I,
    writer: &mut D,
    log: &mut L,
) -> Result<u64, ConnectFault>
    requires bytes { I.given reader.old ≤ 2 ^ 63 }
    requires reads { I.failures reader.old + 1 < 2 ^ 64 }
    requires writes { D.failures writer.old + 1 < 2 ^ 64 }
    ensures end { OnOk result (IsAtEnd (I.remaining reader.new)) }
    ensures counted { IfOk result (λ bad_lines. (text : List ℕ) → I.remaining reader.old ≡ Some text
        → bad_lines ≡ bad_among (lines_of text)) }
    ensures fault { IfErr result (λ e. EndsBy port e
        (counts (I.given reader.old) (I.failures reader.old) (D.failures writer.old))
        (counts (I.given reader.new) (I.failures reader.new) (D.failures writer.new))) }
{
    let (client, seats) = match new_client(alloc) {
        Ok(opened) => opened,
        Err(why) => return Err(ConnectFault::Ended(why)),
    };
    let stream = match TcpStream::connect(rt, (Ipv4Addr::LOCALHOST, port)) {
        Ok(stream) => stream,
        Err(why) => return Err(ConnectFault::NotConnected { port, why }),
    };
    match drive_logged(
        rt, alloc, &client, seats, rt, port, stream, reader, writer, log,
    ) {
        Ok(bad_lines) => Ok(bad_lines),
        Err(why) => Err(ConnectFault::Ended(why)),
    }
}
