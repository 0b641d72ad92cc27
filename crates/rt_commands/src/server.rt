// The peer at a port: clients come, are served, and go.
ghost use Rattle.std.specs.Prelude.{◌≡◌, ◌⊎◌, ◌++◌, codes, decimal, Bool, true, false, None, Some, IfOk};
ghost use Rattle.std.specs.Prelude.{IfErr, IfSome, OnOk, OnErr};
ghost use Rattle.std.specs.Io.KnownBytes.{Appends};
ghost use Rattle.rt_input.specs.Log.{log_line};
ghost use Rattle.rt_lines.specs.inside.Appending.{Appends as Written};
ghost use Rattle.rt_peer.specs.Peers.{new_peer};
ghost use Rattle.rt_serve.specs.Sessions.{HasServed, ServedIf};
ghost use Rattle.rt_commands.specs.Connections.{Fails, listed, NamesPort, Serves, ServesSome, Stops};
ghost use Rattle.rt_commands.specs.Errors.{serve_code, serve_name};
ghost use Rattle.rt_commands.specs.declared.server.ServeFault.TheVariants.{NoMemory};

use crate::words::Serving;
use rt_input::Log;
use rt_peer::Peer;
use rt_serve::{ServeError, serve_logged};
use rt_socket::{HANDSHAKE_MS, SILENCE_MS};
use rt_tree::{Path, Tree};
use std::alloc::{AllocError, AllocFailed, Global};
use std::fmt::{self, Write};
use std::io;
use std::net::{Ipv4Addr, Net, OpenListener, OpenStream, TcpListener};
use std::sync::Wait;
use std::time::Duration;
use thiserror::Error;

/// Why serving ends early, or does not begin.
#[derive(Drop, Error)]
pub enum ServeFault {
    #[error("port {port} can't be bound: {why}")]
    NotBound { port: u16, why: io::Error },
    #[error("no client can be accepted at port {port}: {why}")]
    NotAccepted { port: u16, why: io::Error },
    #[error("out of memory")]
    NoMemory,
}

impl fmt::Debug for ServeFault {
    // In its words.
    fn fmt<W: fmt::Write>(&self, f: &mut fmt::Formatter<W>) -> fmt::Result {
        fmt::Display::fmt(self, f)
    }
}

impl ServeFault {
    /// The number of the fault, from 1 to 3.
    pub fn code(&self) -> u8
        ensures { result ≡ serve_code self.now }
    {
        match self {
            ServeFault::NotBound { .. } => 1,
            ServeFault::NotAccepted { .. } => 2,
            ServeFault::NoMemory => 3,
        }
    }

    /// The name of the fault.
    pub fn name(&self) -> &'static str
        ensures { result.now ≡ serve_name self.now }
    {
        match self {
            ServeFault::NotBound { .. } => "NotBound",
            ServeFault::NotAccepted { .. } => "NotAccepted",
            ServeFault::NoMemory => "NoMemory",
        }
    }
}

impl From<AllocError> for ServeFault {
    ghost from_gives = { λ _ e. e ≡ NoMemory };

    fn from(_error: AllocError) -> ServeFault {
        ServeFault::NoMemory
    }
}

impl<T: Drop> From<AllocFailed<T>> for ServeFault {
    ghost from_gives = { λ _ e. e ≡ NoMemory };

    fn from(_error: AllocFailed<T>) -> ServeFault {
        ServeFault::NoMemory
    }
}

impl From<ServeError> for ServeFault {
    ghost from_gives = { λ _ e. e ≡ NoMemory };

    fn from(error: ServeError) -> ServeFault {
        match error {
            ServeError::Failed | ServeError::NoMemory => ServeFault::NoMemory,
        }
    }
}

/// What gives streams, one after another.
pub trait Streams {
    /// What it gives.
    type Stream: io::Read + io::Write + Drop;

    // Whether it has failed to give one.
    ghost has_failed: { Self → Bool };

    /// The next stream.
    fn next_stream(&mut self) -> io::Result<Self::Stream>
        ensures { Fails result (has_failed self.old) (has_failed self.new) };
}

// From here on a read of the stream is given up after as long as a handshake may take, and a write after as
// long as the other side may be silent, where the system knows of such limits.
fn limit_waits<S: OpenStream>(stream: &S) {
    let _reads = stream.set_read_timeout(Some(Duration::from_millis(HANDSHAKE_MS)));
    let _writes = stream.set_write_timeout(Some(Duration::from_millis(SILENCE_MS)));
}

/// The clients that connect to a listener. One that says nothing for `HANDSHAKE_MS` of `rt_socket` shakes no
/// hands, and one that takes nothing for its `SILENCE_MS` is sent nothing more.
#[derive(Drop)]
pub struct Visitors<L: OpenListener + Drop> {
    listener: L,
    has_failed: bool,
}

impl<L: OpenListener + Drop> Visitors<L>
where
    L::Stream: io::Read + io::Write + OpenStream + Drop,
{
    /// No connection has come yet.
    pub fn new(listener: L) -> Visitors<L>
        ensures { ⟦<Visitors<L> as Streams>⟧.has_failed result ≡ false }
    {
        Visitors {
            listener,
            has_failed: false,
        }
    }
}

impl<L: OpenListener + Drop> Streams for Visitors<L>
where
    L::Stream: io::Read + io::Write + OpenStream + Drop,
{
    type Stream = L::Stream;

    ghost has_failed = { λ s. s.has_failed };

    fn next_stream(&mut self) -> io::Result<L::Stream> {
        match self.listener.accept() {
            Ok((stream, _)) => {
                limit_waits(&stream);
                Ok(stream)
            }
            Err(why) => {
                self.has_failed = true;
                Err(why)
            }
        }
    }
}

// A peer of the tree, with no connection yet, and with that path denied.
fn peer_of(alloc: Global, tree: Tree, denied: Option<Path>) -> Result<Peer, ServeFault>
    ensures peer { IfOk result (λ peer. peer ≡ Some (new_peer tree (listed denied))) }
    ensures fault { IfErr result (λ e. e ≡ ServeFault.NoMemory) }
{
    let mut paths = Vec::new(alloc);
    if let Some(path) = denied {
        paths.push(path)?;
    }
    Ok(Peer::new(tree, paths))
}

// Those that connect to the port of 127.0.0.1.
fn visitors_of<R: Net>(rt: &R, port: u16) -> Result<Visitors<R::Listener>, ServeFault>
    ensures { IfErr result (λ e. NamesPort port e) }
{
    match TcpListener::bind(rt, (Ipv4Addr::LOCALHOST, port)) {
        Ok(listener) => Ok(Visitors::new(listener)),
        Err(why) => Err(ServeFault::NotBound { port, why }),
    }
}

// Writes where clients are awaited.
fn write_listening(out: &mut String, port: u16) -> Result<(), AllocError>
    ensures { OnOk result (Written out.old out.new (codes "listening on 127.0.0.1:" ++ decimal port)) }
{
    write!(out, "listening on 127.0.0.1:{port}")
}

// Tells where clients are awaited.
fn say_listening<L: Log>(alloc: Global, port: u16, log: &mut L) -> Result<(), AllocError>
    ensures on { L.is_on log.new ≡ L.is_on log.old }
    ensures off { L.is_on log.old ≡ false → log.new ≡ log.old }
    ensures told { OnOk result (L.is_on log.old ≡ true → L.has_lost log.new ≡ false
        → Appends (L.told log.old) (L.told log.new)
        (log_line (codes "listening on 127.0.0.1:" ++ decimal port))) }
{
    if !log.is_on() {
        return Ok(());
    }
    let mut line = String::new(alloc);
    write_listening(&mut line, port)?;
    log.tell(&line);
    Ok(())
}

// Serves the next stream, which comes to that port, and says whether a handshake came about.
fn serve_next<S: Streams, L: Log>(
    alloc: Global,
    peer: &mut Peer,
    streams: &mut S,
    port: u16,
    log: &mut L,
) -> Result<bool, ServeFault>
    ensures served { IfSome peer.old (λ p. IfOk result (λ shook. ServedIf shook p peer.new)) }
    ensures lost { peer.old ≡ None → (peer.new ≡ None) × IfOk result (λ shook. shook ≡ false) }
    ensures none_failed { OnOk result (S.has_failed streams.new ≡ S.has_failed streams.old) }
    ensures fault { IfErr result
        (λ e. Stops port e (S.has_failed streams.old) (S.has_failed streams.new)) }
    ensures stopped { IfSome peer.old (λ p.
        OnErr result ((peer.new ≡ None) ⊎ (peer.new ≡ peer.old) ⊎ HasServed p peer.new)) }
{
    match streams.next_stream() {
        Ok(stream) => Ok(serve_logged(alloc, peer, stream, log)?),
        Err(why) => Err(ServeFault::NotAccepted { port, why }),
    }
}

// Serves one stream after another, which come to that port, until a handshake came about with so many.
fn serve_all<R: Wait, S: Streams, L: Log>(
    rt: &R,
    alloc: Global,
    peer: &mut Peer,
    streams: &mut S,
    port: u16,
    count: u16,
    log: &mut L,
) -> Result<(), ServeFault>
    ensures served { IfSome peer.old (λ p. OnOk result (Serves count p peer.new)) }
    ensures none_failed { OnOk result (S.has_failed streams.new ≡ S.has_failed streams.old) }
    ensures fault { IfErr result
        (λ e. Stops port e (S.has_failed streams.old) (S.has_failed streams.new)) }
    ensures stopped { IfSome peer.old (λ p.
        OnErr result ((peer.new ≡ None) ⊎ ServesSome count p peer.new)) }
{
    let mut left = count;
    'streams: for _ in rt.forever() {
        if left == 0 {
            return Ok(());
        }
        if serve_next(alloc, peer, streams, port, log)? {
            left -= 1;
        }
    }
    unreachable!()
}

/// Serves a new peer of the tree at the port of 127.0.0.1, to so many clients, one after another, and
/// answers the peer that they leave. Who speaks no WebSocket is none of them. Tells the log where clients
/// are awaited, and what becomes of each that comes.
///
/// # Errors
///
/// `NotBound` where the port can't be bound, and `NotAccepted` where no client can be accepted, each
/// with the system's reason; `NoMemory` where memory is lacking.
pub fn serve<R: Net + Wait, L: Log>(
    rt: &R,
    alloc: Global,
    serving: Serving,
    log: &mut L,
) -> Result<Peer, ServeFault>
    ensures served { IfOk result (λ peer.
        Serves serving.count (new_peer serving.tree (listed serving.denied)) peer) }
    ensures fault { IfErr result (λ e. NamesPort serving.port e) }
{
    let Serving {
        port,
        count,
        tree,
        denied,
    } = serving;
    let mut peer = peer_of(alloc, tree, denied)?;
    let mut visitors = visitors_of(rt, port)?;
    say_listening(alloc, port, log)?;
    serve_all(rt, alloc, &mut peer, &mut visitors, port, count, log)?;
    Ok(peer)
}
