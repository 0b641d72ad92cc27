// A server's socket: its handshake, its messages, and what is sent to it.
ghost use Rattle.std.specs.Prelude.{◌≡◌, [], true, false, IfOk, IfErr, IfSome, OnOk};
ghost use Rattle.std.specs.Io.KnownBytes.{Appends};
ghost use Rattle.websocket.specs.Connection.{write_step};
ghost use Rattle.websocket.specs.Content.{text};
ghost use Rattle.tungstenite.specs.Socket.{Writes, content_of};
ghost use Rattle.rt_input.specs.Counted.{known_output};
ghost use Rattle.rt_serve.specs.Answers.{Tells, text_of, texts_of};
ghost use Rattle.rt_serve.specs.Closing.{close_frame};
ghost use Rattle.rt_serve.specs.Reads.{end_of, is_over, close_code_of, heard_fault, heard_message, heard_of};
ghost use Rattle.rt_serve.specs.Codes.{fault_code, protocol_code, stream_code};

use crate::serve::ServeError;
use rt_input::Counted;
use rt_peer::Sent;
use rt_socket::{Origins, SocketFault, fault_of};
use rt_wire::ServerMessage;
use std::alloc::{AllocError, Global};
use std::io::{self, ErrorKind, Read, Write};
use tungstenite::{Error, HandshakeError, Message, NoMask, Utf8Bytes, WebSocket, WebSocketConfig};
use websocket::error::ProtocolError;

// A server's WebSocket over a stream whose bytes are counted.
pub(crate) type Socket<S> = WebSocket<Counted<S>, NoMask>;

// A socket that is held: it ends by a call.
pub(crate) struct OwnedSocket<S> {
    pub(crate) socket: Socket<S>,
}

impl<S: Drop> Drop for OwnedSocket<S> {
    fn drop(self) {
        let OwnedSocket { socket: _ } = self;
    }
}

// What came of a handshake: a socket, or why there is none.
#[derive(Drop)]
pub(crate) enum Handshake<S> {
    Done(OwnedSocket<S>),
    Failed(SocketFault),
}

// A socket of which a message may have so many bytes.
fn limited<S: Read + Write + Drop>(mut socket: Socket<S>, most: usize) -> OwnedSocket<S> {
    let limits = WebSocketConfig::default()
        .max_message_size(Some(most))
        .max_frame_size(Some(most));
    socket.set_config(limits);
    OwnedSocket { socket }
}

// A handshake that failed so: for another cause than memory it is none.
fn failed<S: Read + Write + Drop>(why: SocketFault) -> Result<Handshake<S>, ServeError>
    ensures { IfErr result (λ e. e ≡ ServeError.NoMemory) }
{
    match why {
        SocketFault::OutOfMemory => Err(ServeError::NoMemory),
        why => Ok(Handshake::Failed(why)),
    }
}

// Shakes hands on a stream, with a page of this machine or one who is no page. At most so many bytes are
// read for one message, which may be as long. One for whom a read is given up speaks no WebSocket.
pub(crate) fn shake_hands<S: Read + Write + Drop>(
    alloc: Global,
    stream: S,
    most: usize,
) -> Result<Handshake<S>, ServeError>
    ensures { IfErr result (λ e. e ≡ ServeError.NoMemory) }
{
    match tungstenite::accept_hdr(alloc, Counted::new(stream, most), Origins::local(alloc)) {
        Ok(socket) => Ok(Handshake::Done(limited(socket, most))),
        Err(HandshakeError::Failure(error)) => failed(fault_of(error)),
        Err(HandshakeError::Interrupted(_)) => {
            let late = io::Error::from(ErrorKind::TimedOut);
            Ok(Handshake::Failed(SocketFault::Io(late)))
        }
    }
}

// Whether nothing more can be read of the socket.
fn is_over<S: Read + Write + Drop>(socket: &Socket<S>) -> bool
    ensures { result ≡ is_over socket.now }
{
    !socket.can_read() || socket.get_ref().is_over()
}

// What the next message of the socket says, also where what it has to answer by itself can't be written.
fn read_on<S: Read + Write + Drop>(socket: &mut Socket<S>) -> Result<SocketRead, ServeError>
    ensures { IfErr result (λ e. e ≡ ServeError.NoMemory) }
{
    let heard = heard_from(socket.read())?;
    if heard.has_lost_stream() && socket.get_mut().pass_over_writes() {
        heard_from(socket.read())
    } else {
        Ok(heard)
    }
}

// What the socket says next. It has ended only where nothing more can be read.
pub(crate) fn hear<S: Read + Write + Drop>(socket: &mut Socket<S>) -> Result<SocketRead, ServeError>
    ensures memory { IfErr result (λ e. e ≡ ServeError.NoMemory) }
    ensures ended { IfOk result (λ heard. IfSome (end_of heard) (λ _. is_over socket.new ≡ true)) }
{
    socket.get_mut().await_message();
    let heard = read_on(socket)?;
    if heard.end().is_some() && !is_over(socket) {
        return Ok(SocketRead::Nothing);
    }
    Ok(heard)
}

// A message as it is sent.
fn message_of(alloc: Global, message: &ServerMessage) -> Result<Message, AllocError>
    ensures { IfOk result (λ m. content_of m ≡ text (text_of message.now)) }
{
    let words = message.text(alloc)?;
    Message::text(alloc, &words)
}

// A message was not sent for that cause: what is sent from here on goes nowhere.
fn not_sent<S: Read + Write + Drop>(
    socket: &mut Socket<S>,
    why: SocketFault,
) -> Result<bool, ServeError>
    ensures memory { IfErr result (λ e. e ≡ ServeError.NoMemory) }
    ensures none { IfOk result (λ is_sent. is_sent ≡ false) }
{
    if let SocketFault::OutOfMemory = why {
        return Err(ServeError::NoMemory);
    }
    // It ends where no message comes any more.
    let _begins_now = socket.get_mut().pass_over_writes();
    Ok(false)
}

// Sends a message, and says whether it was sent. Where a write fails, those behind it are passed over,
// so that what has come can still be heard.
fn send<S: Read + Write + Drop>(
    alloc: Global,
    socket: &mut Socket<S>,
    message: &ServerMessage,
) -> Result<bool, ServeError>
    ensures memory { IfErr result (λ e. e ≡ ServeError.NoMemory) }
    ensures wrote { IfOk result (λ is_sent. is_sent ≡ true
        → Writes (known_output S.contents) socket.old socket.new
        (write_step socket.old.conn (text (text_of message.now)))) }
    ensures empty { IfOk result (λ is_sent. is_sent ≡ true → socket.new.output ≡ []) }
{
    let Ok(message) = message_of(alloc, message) else {
        return Err(ServeError::NoMemory);
    };
    match socket.send(message) {
        Ok(()) => Ok(true),
        Err(error) => not_sent(socket, fault_of(error)),
    }
}

// Sends these messages, in order, and says whether all were sent.
pub(crate) fn send_all<S: Read + Write + Drop>(
    alloc: Global,
    socket: &mut Socket<S>,
    sent: &[Sent],
) -> Result<bool, ServeError>
    ensures memory { IfErr result (λ e. e ≡ ServeError.NoMemory) }
    ensures told { IfOk result (λ all. all ≡ true
        → Tells (known_output S.contents) socket.old (texts_of sent.now) socket.new) }
{
    for one in sent {
        if !send(alloc, socket, &one.message)? {
            return Ok(false);
        }
    }
    Ok(true)
}

// Writes a close with that code, by itself, as a server does.
fn write_close<W: Write>(stream: &mut W, code: u16) -> io::Result<()>
    ensures { OnOk result (Appends (W.contents stream.old) (W.contents stream.new) (close_frame code)) }
{
    stream.write_all(&[0x88, 2, (code / 256) as u8, (code % 256) as u8])?;
    stream.flush()
}

// Sends what waits to be sent, and a close with that code, if there is one. A socket that has failed
// takes no close, so it is written behind its back; where that fails the client is not told.
pub(crate) fn close<S: Read + Write + Drop>(socket: &mut Socket<S>, code: Option<u16>) {
    if let Err(error) = socket.flush() {
        let _passed_over = fault_of(error);
    }
    if let Some(code) = code {
        let _closed = write_close(socket.get_mut(), code);
    }
}

// ---- what a read of the socket says

// Why a connection ends.
#[derive(Clone, Copy)]
pub(crate) enum ServeEnd {
    // The client closed it, with that code or with none.
    Closed(Option<u16>),
    // A read of the socket failed, or found its end.
    Failed(SocketFault),
    // There were as many messages as are taken.
    TooMany,
    // A text has more commas and brackets than a message may have.
    Crowded,
}

// What a read of the socket says.
pub(crate) enum SocketRead {
    Text(Utf8Bytes),
    Binary,
    // A ping, which the socket answers by itself, or a pong.
    Nothing,
    Ended(ServeEnd),
}

impl Drop for SocketRead {
    fn drop(self) {
        match self {
            SocketRead::Text(_) | SocketRead::Binary | SocketRead::Nothing | SocketRead::Ended(_) =>
                {}
        }
    }
}

impl SocketRead {
    // Why the connection has ended by itself, where it has.
    pub(crate) fn end(&self) -> Option<ServeEnd>
        ensures { result ≡ end_of self.now }
    {
        match self {
            SocketRead::Ended(end) => Some(*end),
            SocketRead::Text(_) | SocketRead::Binary | SocketRead::Nothing => None,
        }
    }

    // Whether the stream has failed.
    pub(crate) fn has_lost_stream(&self) -> bool {
        matches!(
            self,
            SocketRead::Ended(ServeEnd::Failed(SocketFault::Io(_)))
        )
    }
}

// What a message says.
fn heard_message(message: Message) -> SocketRead
    ensures { result ≡ heard_message message }
{
    match message {
        Message::Text(words) => SocketRead::Text(words),
        Message::Binary(_) => SocketRead::Binary,
        Message::Ping(_) | Message::Pong(_) => SocketRead::Nothing,
        Message::Close(None) => SocketRead::Ended(ServeEnd::Closed(None)),
        Message::Close(Some(frame)) => SocketRead::Ended(ServeEnd::Closed(Some(u16::from(
            frame.code,
        )))),
    }
}

// What a fault of a read says. A read that is given up says nothing.
fn heard_fault(why: SocketFault) -> Result<SocketRead, ServeError>
    ensures heard { result ≡ heard_fault why }
    ensures memory { IfErr result (λ e. e ≡ ServeError.NoMemory) }
{
    match why {
        SocketFault::OutOfMemory => Err(ServeError::NoMemory),
        why if why.is_blocked() => Ok(SocketRead::Nothing),
        why => Ok(SocketRead::Ended(ServeEnd::Failed(why))),
    }
}

// What a message or an error of the socket says.
pub(crate) fn heard_from(read: Result<Message, Error>) -> Result<SocketRead, ServeError>
    ensures heard { result ≡ heard_of read }
    ensures memory { IfErr result (λ e. e ≡ ServeError.NoMemory) }
{
    match read {
        Ok(message) => Ok(heard_message(message)),
        Err(error) => heard_fault(fault_of(error)),
    }
}

// The code of a breach of the protocol; a reset is none.
fn protocol_code(why: ProtocolError) -> Option<u16>
    ensures { result ≡ protocol_code why }
{
    match why {
        ProtocolError::ResetWithoutClosingHandshake => None,
        _ => Some(1002),
    }
}

// The code of a stream that failed: more bytes came than are read for a message.
fn stream_code(why: &io::Error) -> Option<u16>
    ensures { result ≡ stream_code why.now }
{
    if why.kind() == ErrorKind::QuotaExceeded {
        Some(1009)
    } else {
        None
    }
}

// The code that RFC 6455 (section 7.4.1) has for the client, where it is told why: it broke the protocol, a
// text is no UTF-8, or a message has too many bytes.
fn fault_code(why: &SocketFault) -> Option<u16>
    ensures { result ≡ fault_code why.now }
{
    match why {
        SocketFault::Protocol(why) => protocol_code(*why),
        SocketFault::Io(why) => stream_code(why),
        SocketFault::Utf8 => Some(1007),
        SocketFault::Capacity(_) => Some(1009),
        SocketFault::ConnectionClosed
        | SocketFault::AlreadyClosed
        | SocketFault::WriteBufferFull
        | SocketFault::AttackAttempt
        | SocketFault::Handshake(_)
        | SocketFault::HandshakeIncomplete
        | SocketFault::JunkAfterRequest
        | SocketFault::CustomResponseSuccessful
        | SocketFault::Url
        | SocketFault::Status(_)
        | SocketFault::OutOfMemory => None,
    }
}

impl ServeEnd {
    // The code for the client, where it is told why: a failure's own, or there were too many messages, or
    // too many values in one.
    pub(crate) fn close_code(&self) -> Option<u16>
        ensures { result ≡ close_code_of self.now }
    {
        match self {
            ServeEnd::Closed(_) => None,
            ServeEnd::Failed(why) => fault_code(why),
            ServeEnd::TooMany => Some(1008),
            ServeEnd::Crowded => Some(1009),
        }
    }
}
