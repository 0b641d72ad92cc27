// A stream from its handshake to its end.
ghost use Rattle.std.specs.Prelude.{◌≡◌, ◌⊎◌, ◌↔◌, None, Some, Ok, Err, IfOk, IfErr, IfSome, OnOk, OnErr};
ghost use Rattle.std.specs.Prelude.{true, false};
ghost use Rattle.rt_wire.specs.Client.{client_message};
ghost use Rattle.rt_peer.specs.Peers.{least_free};
ghost use Rattle.rt_peer.specs.Calls.{connected, fault};
ghost use Rattle.rt_peer.specs.Runs.{after_all};
ghost use Rattle.rt_input.specs.Counted.{known_output};
ghost use Rattle.rt_serve.specs.Answers.{Tells, told, IsAnswer, own};
ghost use Rattle.rt_serve.specs.Reads.{calls_of, ended_by, is_over};
ghost use Rattle.rt_serve.specs.Sessions.{call_of, HasServed, HasTaken, ServedIf, ServedOrNot, ServesStream};
ghost use Rattle.rt_serve.specs.Handshakes.{is_done};
ghost use Rattle.rt_serve.specs.laws.Sessions.{SessionsLeaveConnections};
ghost use Rattle.rt_serve.specs.Errors.{code_of, name_of};

use crate::socket::{Handshake, ServeEnd, Socket, SocketRead, close, hear, send_all, shake_hands};
use rt_input::{Log, MAX_MESSAGE_BYTES, Silent};
use rt_peer::{Peer, PeerError, Sent};
use rt_socket::{SocketFault, or_unknown};
use rt_wire::{ClientMessage, MAX_MARKS, WireError, is_crowded};
use std::alloc::{AllocError, Global};
use std::fmt;
use std::io::{Read, Write};
use thiserror::Error;

/// After how many messages of any kind, pings and pongs among them, a connection is ended.
pub const MAX_MESSAGES: usize = 1_000_000;

// Takes a text of the connection, and says whether all was sent that the peer sends to it.
fn take<S: Read + Write + Drop, L: Log>(
    alloc: Global,
    peer: &mut Peer,
    socket: &mut Socket<S>,
    connection: u64,
    words: &str,
    log: &mut L,
) -> Result<bool, ServeError>
    requires { fault peer.old connection ≡ None }
    ensures taken { IfSome peer.old (λ p. OnOk result (peer.new
        ≡ Some (after_all p (call_of connection (client_message words.now))))) }
    ensures told { IfSome peer.old (λ p. IfOk result (λ all. all ≡ true
        → Tells (known_output S.contents) socket.old
        (told connection p (client_message words.now)) socket.new)) }
    ensures failed { IfSome peer.old (λ p. OnErr result ((peer.new ≡ None) ⊎ (peer.new ≡ peer.old)
        ⊎ (peer.new ≡ Some (after_all p (call_of connection (client_message words.now)))))) }
    ensures memory { IfErr result (λ e. e ≡ ServeError.NoMemory) }
{
    match take_text(alloc, peer, connection, words)? {
        TextAnswer::Sends(mut sent) => {
            keep_own(&mut sent, connection);
            send_all(alloc, socket, &sent)
        }
        TextAnswer::PassedOver(why) => {
            text_passed_over(alloc, log, connection, why);
            Ok(true)
        }
    }
}

// Takes what was heard of the connection, and says why it ends, if it does. A message that is no text
// is passed over.
fn take_heard<S: Read + Write + Drop, L: Log>(
    alloc: Global,
    peer: &mut Peer,
    socket: &mut Socket<S>,
    connection: u64,
    heard: &SocketRead,
    log: &mut L,
) -> Result<Option<ServeEnd>, ServeError>
    requires { fault peer.old connection ≡ None }
    ensures taken { IfSome peer.old (λ p. OnOk result (peer.new
        ≡ Some (after_all p (calls_of connection heard.now)))) }
    ensures failed { IfSome peer.old (λ p. OnErr result ((peer.new ≡ None) ⊎ (peer.new ≡ peer.old)
        ⊎ (peer.new ≡ Some (after_all p (calls_of connection heard.now))))) }
    ensures ends { IfOk result (λ end. end ≡ ended_by heard.now) }
    ensures still { IfSome (ended_by heard.now) (λ _. socket.new ≡ socket.old) }
    ensures memory { IfErr result (λ e. e ≡ ServeError.NoMemory) }
{
    match heard {
        SocketRead::Text(words) => {
            if is_crowded(words.as_str()) {
                return Ok(Some(ServeEnd::Crowded));
            }
            if !take(alloc, peer, socket, connection, words.as_str(), log)? {
                not_sent(alloc, log, connection);
            }
            Ok(None)
        }
        SocketRead::Binary => {
            binary_passed_over(alloc, log, connection);
            Ok(None)
        }
        SocketRead::Nothing => Ok(None),
        SocketRead::Ended(end) => Ok(Some(*end)),
    }
}

// Takes the next message of the connection, and says why it ends, if it does.
fn take_next<S: Read + Write + Drop, L: Log>(
    alloc: Global,
    peer: &mut Peer,
    socket: &mut Socket<S>,
    connection: u64,
    log: &mut L,
) -> Result<Option<ServeEnd>, ServeError>
    requires { fault peer.old connection ≡ None }
    ensures taken { IfSome peer.old (λ p. OnOk result (HasTaken 1 connection p peer.new)) }
    ensures failed { IfSome peer.old (λ p.
        OnErr result ((peer.new ≡ None) ⊎ HasTaken 1 connection p peer.new)) }
    ensures over { IfOk result (λ end. IfSome end (λ e.
        (e ≡ ServeEnd.Crowded) ⊎ (is_over socket.new ≡ true))) }
    ensures memory { IfErr result (λ e. e ≡ ServeError.NoMemory) }
{
    let heard = hear(socket)?;
    take_heard(alloc, peer, socket, connection, &heard, log)
}

// Takes message after message of the connection, until nothing more can be read or as many have come
// as are taken, and says why it ends.
fn take_all<S: Read + Write + Drop, L: Log>(
    alloc: Global,
    peer: &mut Peer,
    socket: &mut Socket<S>,
    connection: u64,
    log: &mut L,
) -> Result<ServeEnd, ServeError>
    requires { fault peer.old connection ≡ None }
    ensures taken { IfSome peer.old (λ p. OnOk result (HasTaken MAX_MESSAGES connection p peer.new)) }
    ensures failed { IfSome peer.old (λ p.
        OnErr result ((peer.new ≡ None) ⊎ HasTaken MAX_MESSAGES connection p peer.new)) }
    ensures over { IfOk result (λ end.
        (end ≡ ServeEnd.TooMany) ⊎ (end ≡ ServeEnd.Crowded) ⊎ (is_over socket.new ≡ true)) }
    ensures memory { IfErr result (λ e. e ≡ ServeError.NoMemory) }
{
    for _ in 0..MAX_MESSAGES {
        if let Some(end) = take_next(alloc, peer, socket, connection, log)? {
            return Ok(end);
        }
    }
    Ok(ServeEnd::TooMany)
}

// Begins a connection of the peer.
fn connect(peer: &mut Peer) -> Result<u64, ServeError>
    ensures connected { IfOk result (λ n. IfSome peer.old
        (λ p. (n ≡ least_free p.connections) × (peer.new ≡ Some (connected p)))) }
    ensures failed { (result ≡ Err ServeError.Failed) ↔ (peer.old ≡ None) }
    ensures gives_up { OnErr result (peer.new ≡ None) }
{
    match peer.connect() {
        Ok(connection) => Ok(connection),
        Err(PeerError::Failed) => Err(ServeError::Failed),
        Err(PeerError::NoMemory) => Err(ServeError::NoMemory),
        Err(PeerError::UnknownConnection) => unreachable!(),
    }
}

// Takes the messages of the connection to its end, and closes the socket.
fn take_to_end<S: Read + Write + Drop, L: Log>(
    alloc: Global,
    peer: &mut Peer,
    socket: &mut Socket<S>,
    connection: u64,
    log: &mut L,
) -> Result<(), ServeError>
    requires { fault peer.old connection ≡ None }
    ensures taken { IfSome peer.old (λ p. OnOk result (HasTaken MAX_MESSAGES connection p peer.new)) }
    ensures failed { IfSome peer.old (λ p.
        OnErr result ((peer.new ≡ None) ⊎ HasTaken MAX_MESSAGES connection p peer.new)) }
    ensures memory { IfErr result (λ e. e ≡ ServeError.NoMemory) }
{
    let end = take_all(alloc, peer, socket, connection, log)?;
    close(socket, end.close_code());
    ended(alloc, log, connection, &end);
    Ok(())
}

// Serves a socket as one connection, which is ended however the socket ends.
fn serve_socket<S: Read + Write + Drop, L: Log>(
    alloc: Global,
    peer: &mut Peer,
    socket: &mut Socket<S>,
    log: &mut L,
) -> Result<(), ServeError>
    ensures served { IfSome peer.old (λ p. OnOk result (HasServed p peer.new)) }
    ensures failed { IfSome peer.old (λ p. OnErr result ((peer.new ≡ None) ⊎ HasServed p peer.new)) }
    ensures lost { peer.old ≡ None → (result ≡ Err ServeError.Failed) × (peer.new ≡ None) }
    ensures memory { IfErr result (λ e. IfSome peer.old (λ _. e ≡ ServeError.NoMemory)) }
{
    let connection = connect(peer)?;
    begun(alloc, log, connection);
    let taken = take_to_end(alloc, peer, socket, connection, log);
    // What the end of the connection changes is told to others, and none is served beside it.
    match peer.disconnect(connection) {
        Ok(_) => {}
        Err(_) => return Err(ServeError::NoMemory),
    }
    taken
}

// Serves what came of a handshake, and says whether it came about.
fn serve_handshake<S: Read + Write + Drop, L: Log>(
    alloc: Global,
    peer: &mut Peer,
    handshake: Handshake<S>,
    log: &mut L,
) -> Result<bool, ServeError>
    ensures shook { IfOk result (λ shook. shook ≡ is_done handshake) }
    ensures served { IfSome peer.old (λ p. OnOk result (ServedIf (is_done handshake) p peer.new)) }
    ensures failed { IfSome peer.old (λ p. OnErr result ((peer.new ≡ None) ⊎ HasServed p peer.new)) }
    ensures unshaken { is_done handshake ≡ false → (result ≡ Ok false) × (peer.new ≡ peer.old) }
    ensures lost { peer.old ≡ None → peer.new ≡ None }
    ensures refused { peer.old ≡ None → is_done handshake ≡ true → result ≡ Err ServeError.Failed }
    ensures memory { IfErr result (λ e. IfSome peer.old (λ _. e ≡ ServeError.NoMemory)) }
{
    match handshake {
        Handshake::Done(mut held) => {
            serve_socket(alloc, peer, &mut held.socket, log)?;
            Ok(true)
        }
        Handshake::Failed(why) => {
            no_handshake(alloc, log, why);
            Ok(false)
        }
    }
}

/// As [`serve_stream`], and tells the log when the connection begins and how it ends, which messages are
/// passed over, and why there is no handshake. It answers whether there was one: else the peer is as it
/// was.
///
/// # Errors
///
/// As [`serve_stream`].
pub fn serve_logged<S: Read + Write + Drop, L: Log>(
    alloc: Global,
    peer: &mut Peer,
    stream: S,
    log: &mut L,
) -> Result<bool, ServeError>
    ensures leaves { ServesStream ServedIf result peer.old peer.new }
    ensures lost { peer.old ≡ None → IfOk result (λ shook. shook ≡ false) }
{
    let handshake = shake_hands(alloc, stream, MAX_MESSAGE_BYTES)?;
    serve_handshake(alloc, peer, handshake, log)
}

/// Serves a stream: accepts a WebSocket on it, begins a connection of the peer, takes one message
/// after another, sends what the peer then sends to this connection, and ends the connection.
///
/// A text that is no message of a client, and a message that is no text, are passed over. The
/// connection ends with the socket, where nothing more can be read of it, or after [`MAX_MESSAGES`]
/// messages of any kind; it has failed too where more than [`MAX_MESSAGE_BYTES`] bytes are needed for
/// one message, and ends where a text has more than [`rt_wire::MAX_MARKS`] commas and
/// opening brackets, which is not read. Where it can't be written to any more, what has come is still taken. A client that
/// breaks the protocol, or sends too much, is told why by the code of a close. What the peer sends to
/// other connections is not sent: one is served at a time.
///
/// It answers `Ok` however the socket ends, and where no handshake comes about, for another cause than
/// memory; then the peer is as it was.
///
/// # Errors
///
/// `Failed` where the peer has lacked memory before; else `NoMemory`: the connection is ended, unless
/// the peer itself lacked memory and has failed.
pub fn serve_stream<S: Read + Write + Drop>(
    alloc: Global,
    peer: &mut Peer,
    stream: S,
) -> Result<(), ServeError>
    ensures { ServesStream ServedOrNot result peer.old peer.new }
{
    serve_logged(alloc, peer, stream, &mut Silent)?;
    Ok(())
}

// ---- what a text of a connection comes to

// What a text comes to: what the peer then sends, or why it is passed over.
#[derive(Drop)]
pub(crate) enum TextAnswer {
    Sends(Vec<Sent>),
    PassedOver(WireError),
}

// Takes a text of the connection. One that is no message of a client is passed over.
pub(crate) fn take_text(
    alloc: Global,
    peer: &mut Peer,
    connection: u64,
    words: &str,
) -> Result<TextAnswer, ServeError>
    requires { fault peer.old connection ≡ None }
    ensures taken { IfSome peer.old (λ p. OnOk result (peer.new
        ≡ Some (after_all p (call_of connection (client_message words.now))))) }
    ensures answered { IfSome peer.old (λ p. IfOk result (λ answer.
        IsAnswer connection p (client_message words.now) answer)) }
    ensures failed { IfSome peer.old (λ p.
        OnErr result ((peer.new ≡ None) ⊎ (peer.new ≡ peer.old))) }
    ensures memory { IfErr result (λ e. e ≡ ServeError.NoMemory) }
{
    match ClientMessage::read(alloc, words) {
        Ok(message) => match peer.message(connection, message) {
            Ok(sent) => Ok(TextAnswer::Sends(sent)),
            Err(_) => Err(ServeError::NoMemory),
        },
        Err(WireError::NoMemory) => Err(ServeError::NoMemory),
        Err(
            why @ (WireError::NotJson
            | WireError::UnknownKind
            | WireError::BadField
            | WireError::BadTree),
        ) => Ok(TextAnswer::PassedOver(why)),
    }
}

// Keeps what goes to the connection, in order.
pub(crate) fn keep_own(sent: &mut Vec<Sent>, connection: u64)
    ensures { sent.new.items ≡ own connection sent.old.items }
{
    sent.retain(|one| one.to == connection);
}

// ---- what is told of a connection beside what it is sent

// Tells a line, if there was memory for it.
fn tell<L: Log>(log: &mut L, line: Result<String, AllocError>) {
    if let Ok(line) = line {
        log.tell(&line);
    }
}

pub(crate) fn no_handshake<L: Log>(alloc: Global, log: &mut L, why: SocketFault) {
    if log.is_on() {
        tell(log, format!(in alloc; "a stream is no WebSocket: {why}"));
    }
}

pub(crate) fn begun<L: Log>(alloc: Global, log: &mut L, connection: u64) {
    if log.is_on() {
        tell(log, format!(in alloc; "connection {connection} begins"));
    }
}

pub(crate) fn text_passed_over<L: Log>(
    alloc: Global,
    log: &mut L,
    connection: u64,
    why: WireError,
) {
    if log.is_on() {
        let (code, name) = (why.code(), why.name());
        let line = format!(in alloc;
            "connection {connection}: a text is passed over: {code} {name}"
        );
        tell(log, line);
    }
}

pub(crate) fn binary_passed_over<L: Log>(alloc: Global, log: &mut L, connection: u64) {
    if log.is_on() {
        let why = WireError::NotJson;
        let (code, name) = (why.code(), why.name());
        let line = format!(in alloc;
            "connection {connection}: a binary message is passed over: {code} {name}"
        );
        tell(log, line);
    }
}

pub(crate) fn not_sent<L: Log>(alloc: Global, log: &mut L, connection: u64) {
    if log.is_on() {
        let line = format!(in alloc; "connection {connection} can't be sent to any more");
        tell(log, line);
    }
}

pub(crate) fn ended<L: Log>(alloc: Global, log: &mut L, connection: u64, end: &ServeEnd) {
    if log.is_on() {
        tell(
            log,
            format!(in alloc; "connection {connection} ends: {end}"),
        );
    }
}

impl fmt::Display for ServeEnd {
    ghost use Rattle.rt_serve.specs.Endings.{ended_text};

    ghost output = { λ end. ended_text end };

    fn fmt<W: fmt::Write>(&self, f: &mut fmt::Formatter<W>) -> fmt::Result {
        match self {
            ServeEnd::Closed(None) => f.write_str("the client closed it"),
            ServeEnd::Closed(Some(code)) => {
                write!(f, "the client closed it with {code}{}", or_unknown(*code))
            }
            ServeEnd::Failed(why) => match self.close_code() {
                Some(code) => write!(f, "{why}; it is closed with {code}"),
                None => write!(f, "{why}"),
            },
            ServeEnd::TooMany => write!(
                f,
                "{MAX_MESSAGES} messages have come; it is closed with 1008"
            ),
            ServeEnd::Crowded => write!(
                f,
                "a text has more than {MAX_MARKS} commas and brackets; it is closed with 1009"
            ),
        }
    }
}

// ---- what serving leaves as it was

/// A connection that is served leaves the connections of the peer as they were, where their numbers
/// rise and a new one gets a free number; so it is after any calls on a new peer (`connections_law` of
/// `rt_peer`).
pub fn session_law()
    ensures { SessionsLeaveConnections }
{}

// ---- why serving is given up

/// Why a stream is not served, or no longer.
#[derive(Clone, Copy, Debug, PartialEq, Eq, Error)]
pub enum ServeError {
    /// The peer has lacked memory before.
    #[error("the peer has lacked memory before")]
    Failed,
    /// A growth was refused.
    #[error("out of memory")]
    NoMemory,
}

impl ServeError {
    /// The number of the error, from 1 to 2.
    pub fn code(&self) -> u8
        ensures { result ≡ code_of self.now }
    {
        match self {
            ServeError::Failed => 1,
            ServeError::NoMemory => 2,
        }
    }

    /// The name of the error, as it is printed.
    pub fn name(&self) -> &'static str
        ensures { result.now ≡ name_of self.now }
    {
        match self {
            ServeError::Failed => "Failed",
            ServeError::NoMemory => "NoMemory",
        }
    }
}
