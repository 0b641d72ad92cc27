// A WebSocket as a wire.
ghost use Rattle.std.specs.Prelude.{◌≡◌, [], None, Some, IfOk, IfSome, drop, length, min, IsErrAnd, ◌==◌, ℕ};
ghost use Rattle.std.specs.Prelude.{List, Option, Ok};
ghost use Rattle.std.specs.Io.{ReadsAtMost, WritesAtMost};
ghost use Rattle.std.specs.Io.KnownBytes.{Keeps, ReadConsumes, WriteAppends};
ghost use Rattle.std.specs.IoError.{error_kind};
ghost use Rattle.tungstenite.specs.Connection.{close_step, write_step};
ghost use Rattle.tungstenite.specs.Content.{ping, text as text_content};
ghost use Rattle.tungstenite.specs.Socket.{Writes, Flushed as Flushes, close_of, content_of};
ghost use Rattle.rt_socket.specs.Hearing.{fault_in, flushed_by, heard_fault, heard_from, heard_of, taken_by};
ghost use Rattle.rt_socket.specs.Hearing.{fault_of, is_blocked};
ghost use Rattle.rt_socket.specs.Sockets.{GoesBehind, Hears, IsSent, limits_for, Spends};
ghost use Rattle.rt_socket.specs.Wires.{said_by};
ghost use Rattle.rt_socket.specs.declared.wire.Said.TheVariants.{Nothing};
ghost use Rattle.rt_input.specs.Counted.{known_output};
ghost use Rattle.rt_socket.specs.Awaiting.{AsksIf, Awaits, Pushes, is_something, known_input, sent_by};
ghost use Rattle.rt_socket.specs.Awaiting.{unsent_by};
ghost use Rattle.rt_socket.specs.declared.wire.Lost.{Lost};
ghost use Rattle.rt_socket.specs.declared.patience.TheConstants.{ASKING_TICK};
ghost use Rattle.rt_socket.specs.declared.wire.Heard.{Heard};

use crate::patience::{ASKING_TICK, SILENT_TICKS};
use crate::wire::{Flushed, Heard, Lost, Said, Wire, closed_by};
use http::StatusCode;
use rt_input::Counted;
use std::alloc::{AllocError, Global};
use std::fmt;
use std::io::{self, ErrorKind, Read, Write};
use std::marker::Model;
use thiserror::Error;
use tungstenite::{
    Bytes, CloseFrame, Error as SocketError, MaskKeys, Message, WebSocket, WebSocketConfig,
};
use websocket::error::{CapacityError, ProtocolError};
use websocket::handshake::HandshakeError;

// How many bytes a read of the stream takes.
const READ_BYTES: usize = 16_384;

// More bytes than wait to be sent: what is given to a socket goes on its way by `flush` alone.
const NO_BOUND: usize = 1 << 40;

/// A WebSocket that stands, over a stream that doesn't wait, as a wire. The keys are a client's or a
/// server's.
#[derive(Drop)]
pub struct Socket<S, K> {
    pub(crate) alloc: Global,
    pub(crate) socket: WebSocket<S, K>,
    // What kind of thing it gave last.
    said: Said,
}

impl<S, K> Model for Socket<S, K> {
    ghost use Rattle.rt_socket.specs.Sockets.{WireSocket};

    ghost Value = { WireSocket S };

    ghost view = { λ s. record { socket = s.socket; said = s.said } };
}

/// What is asked of a WebSocket whose messages have at most so many bytes. A message that waits to be sent
/// is sent by a flush: a write that would send might answer that it blocks, where it has taken the message.
pub fn limits(message_bytes: usize) -> WebSocketConfig
    ensures { result ≡ limits_for message_bytes }
{
    WebSocketConfig {
        read_buffer_size: READ_BYTES,
        write_buffer_size: NO_BOUND,
        max_write_buffer_size: NO_BOUND,
        max_message_size: Some(message_bytes),
        max_frame_size: Some(message_bytes),
        accept_unmasked_frames: false,
    }
}

// What a message says.
fn heard_of(message: Message) -> Heard
    ensures { result ≡ heard_of message }
{
    match message {
        Message::Text(words) => Heard::Text(words),
        Message::Binary(_) => Heard::Binary,
        Message::Ping(_) | Message::Pong(_) => Heard::Sign,
        Message::Close(frame) => Heard::Ended(closed_by(frame)),
    }
}

// What a fault says that a read of a socket gives.
fn heard_fault(why: SocketFault) -> Result<Heard, AllocError>
    ensures { result ≡ heard_fault why }
{
    match why {
        SocketFault::OutOfMemory => Err(AllocError),
        why if why.is_blocked() => Ok(Heard::Nothing),
        why => Ok(Heard::Ended(Lost::Failed(why))),
    }
}

// What a read of a socket says.
fn heard_from(read: Result<Message, SocketError>) -> Result<Heard, AllocError>
    ensures { result ≡ heard_from read }
{
    match read {
        Ok(message) => Ok(heard_of(message)),
        Err(why) => heard_fault(fault_of(why)),
    }
}

// Why a write or a flush failed, if it did.
pub(crate) fn fault_in(answer: Result<(), SocketError>) -> Option<SocketFault>
    ensures { result ≡ fault_in answer }
{
    match answer {
        Ok(()) => None,
        Err(why) => Some(fault_of(why)),
    }
}

// What became of what a socket has taken, by the answer of its flush.
fn flushed_by(answer: Result<(), SocketError>) -> Flushed
    ensures { result ≡ flushed_by answer }
{
    match fault_in(answer) {
        None => Flushed::Done,
        Some(why) if why.is_blocked() => Flushed::Blocked,
        Some(why) => Flushed::Failed(Lost::Failed(why)),
    }
}

// What became of a message that a socket was given. None of it is sent, so that it doesn't block.
fn taken_by(answer: Result<(), SocketError>) -> Result<Option<Lost>, AllocError>
    ensures { result ≡ taken_by answer }
{
    match fault_in(answer) {
        None => Ok(None),
        Some(SocketFault::OutOfMemory) => Err(AllocError),
        Some(why) => Ok(Some(Lost::Failed(why))),
    }
}

impl<S, K> Socket<S, K> {
    /// A WebSocket that stands.
    pub fn new(alloc: Global, socket: WebSocket<S, K>) -> Socket<S, K>
        ensures { result ≡ record { socket = socket; said = Nothing } }
    {
        Socket {
            alloc,
            socket,
            said: Said::Nothing,
        }
    }
}

impl<S: Read + Write + Drop, K: MaskKeys + Drop> Socket<Paced<S>, K> {
    /// So many bytes may be read from now on.
    pub fn allow(&mut self, most: usize)
        ensures { self.new.said ≡ self.old.said }
    {
        self.socket.get_mut().allow(most);
    }

    /// How many bytes may still be read.
    pub fn left(&self) -> usize
        ensures { result ≡ self.now.socket.stream.left }
    {
        self.socket.get_ref().left()
    }
}

impl<S: Read + Write + Drop, K: MaskKeys + Drop> Socket<S, K> {
    // Writes a message, which is sent by a flush.
    fn write(&mut self, message: Message) -> Result<Option<Lost>, AllocError>
        ensures wrote { IfOk result (λ lost. lost ≡ None → Writes S.contents self.old.socket
            self.new.socket (write_step self.old.socket.conn (content_of message))) }
        ensures said { self.new.said ≡ self.old.said }
    {
        taken_by(self.socket.write(message))
    }

    // A close that was heard is answered by one, which waits to be sent.
    fn send_behind(&mut self, heard: &Heard)
        ensures sent { GoesBehind S.contents heard.now self.old.socket self.new.socket }
        ensures said { self.new.said ≡ self.old.said }
    {
        if let Heard::Ended(_) = heard {
            let _answered = fault_in(self.socket.flush());
        }
    }

    /// Asks the other side whether it is there.
    ///
    /// # Errors
    ///
    /// Where memory lacks.
    pub fn ping(&mut self) -> Result<Option<Lost>, AllocError>
        ensures asked { IfOk result (λ lost. lost ≡ None → Writes S.contents self.old.socket
            self.new.socket (write_step self.old.socket.conn (ping []))) }
    {
        self.write(Message::Ping(Bytes::new()))
    }

    /// Says that this side goes, with a code and a reason or without. What is not sent of it is sent by a
    /// flush.
    pub fn close(&mut self, frame: Option<CloseFrame>) -> Flushed
        ensures said { IsSent result → Writes S.contents self.old.socket self.new.socket
            (close_step self.old.socket.conn (close_of frame)) }
    {
        flushed_by(self.socket.close(frame))
    }
}

impl<S: Read + Write + Drop, K: MaskKeys + Drop> Wire for Socket<S, K> {
    // What a socket gives and takes is not known.
    ghost remaining = { λ _. None };

    ghost contents = { λ _. None };

    ghost said = { λ s. s.said };

    /// What a read of the socket gives. At its end what waits to be sent is sent, as far as that goes.
    fn hear(&mut self) -> Result<Heard, AllocError>
        ensures said { IfOk result (λ heard. self.new.said ≡ said_by heard) }
        ensures heard { Hears S.remaining S.contents self.old.socket result self.new.socket }
    {
        let heard = heard_from(self.socket.read())?;
        self.said = heard.said();
        self.send_behind(&heard);
        Ok(heard)
    }

    /// A text is written, and sent by a flush.
    fn put(&mut self, text: &str) -> Result<Option<Lost>, AllocError>
        ensures wrote { IfOk result (λ lost. lost ≡ None → Writes S.contents self.old.socket
            self.new.socket (write_step self.old.socket.conn (text_content text.now))) }
        ensures said { self.new.said ≡ self.old.said }
    {
        let message = Message::text(self.alloc, text)?;
        self.write(message)
    }

    /// What waits to be sent is sent, as far as that goes.
    fn flush(&mut self) -> Flushed
        ensures sent { Flushes S.contents self.old.socket self.new.socket }
        ensures done { result ≡ Flushed.Done → self.new.socket.output ≡ [] }
        ensures said { self.new.said ≡ self.old.said }
    {
        flushed_by(self.socket.flush())
    }
}

// ---- a stream of which only so much is read in one go

/// A stream of which at most so many bytes are read in one go. A read beyond them fails as one of a stream
/// that would have to wait.
#[derive(Drop)]
pub struct Paced<S> {
    stream: S,
    left: usize,
}

impl<S> Model for Paced<S> {
    ghost use Rattle.rt_socket.specs.Sockets.{PacedStream};

    ghost Value = { PacedStream S };

    ghost view = { λ p. record { stream = p.stream; left = p.left } };
}

impl<S> Paced<S> {
    /// Of which nothing may be read yet.
    pub fn new(stream: S) -> Paced<S>
        ensures { result ≡ record { stream = stream; left = 0 } }
    {
        Paced { stream, left: 0 }
    }

    /// So many bytes may be read from now on.
    pub fn allow(&mut self, most: usize)
        ensures { self.new ≡ record (self.old) { left = most } }
    {
        self.left = most;
    }

    /// How many bytes may still be read.
    pub fn left(&self) -> usize
        ensures { result ≡ self.now.left }
    {
        self.left
    }
}

impl<S: Read> Read for Paced<S> {
    ghost remaining = { λ p. S.remaining p.stream };

    /// A read of the stream, of no more bytes than are left. Where none is left, or none is asked for, it
    /// fails as a read that would have to wait, and reads nothing.
    fn read(&mut self, into: &mut [u8]) -> io::Result<usize>
        // What the stream gives, as at each reader.
        ensures bound { ReadsAtMost result into.new }
        ensures bytes { ReadConsumes (S.remaining self.old.stream) (S.remaining self.new.stream)
            result into.new }

        // What was left is what was given, and what is left now.
        ensures left { Spends result self.old.left self.new.left }
        ensures beyond { drop self.old.left into.new ≡ drop self.old.left into.old }
        ensures spent { min (length into.old) self.old.left ≡ 0
            → IsErrAnd result (λ e. error_kind e ≡ ErrorKind.WouldBlock) × (self.new ≡ self.old) }
    {
        let most = into.len().min(self.left);
        if most == 0 {
            return Err(io::Error::from(ErrorKind::WouldBlock));
        }
        let count = self.stream.read(&mut into[..most])?;
        self.left = self.left.saturating_sub(count);
        Ok(count)
    }
}

impl<S: Write> Write for Paced<S> {
    ghost contents = { λ p. S.contents p.stream };

    /// A write to the stream.
    fn write(&mut self, bytes: &[u8]) -> io::Result<usize>
        ensures bound { WritesAtMost result bytes.now }
        ensures bytes { WriteAppends (S.contents self.old.stream) (S.contents self.new.stream) result
            bytes.now }
        ensures left { self.new.left ≡ self.old.left }
    {
        self.stream.write(bytes)
    }

    fn flush(&mut self) -> io::Result<()>
        ensures bytes { Keeps (S.contents self.old.stream) (S.contents self.new.stream) }
        ensures left { self.new.left ≡ self.old.left }
    {
        self.stream.flush()
    }
}

// ---- why a WebSocket failed, as a small value

/// Why a WebSocket failed: what `tungstenite` says, and of a response its status alone.
#[derive(Clone, Copy, Error)]
pub enum SocketFault {
    /// The closing handshake is done.
    #[error("Connection closed normally")]
    ConnectionClosed,
    /// It was used after that, or after it had failed.
    #[error("Trying to work with closed connection")]
    AlreadyClosed,
    /// The stream failed, or would have to wait.
    #[error("IO error: {0}")]
    Io(io::Error),
    /// A frame or a message has more bytes than may come.
    #[error("Space limit exceeded: {0}")]
    Capacity(CapacityError),
    /// RFC 6455 was broken.
    #[error("WebSocket protocol error: {0}")]
    Protocol(ProtocolError),
    /// More waits to be sent than may wait.
    #[error("Write buffer is full")]
    WriteBufferFull,
    /// A text or the reason of a close is no UTF-8.
    #[error("UTF-8 encoding error")]
    Utf8,
    /// A handshake came in too many small parts.
    #[error("Attack attempt detected")]
    AttackAttempt,
    /// A head is no handshake.
    #[error("Handshake error: {0}")]
    Handshake(HandshakeError),
    /// The stream ended within a handshake.
    #[error("Handshake not finished")]
    HandshakeIncomplete,
    /// A client's request was followed by more at once.
    #[error("Junk after client request")]
    JunkAfterRequest,
    /// A refusal of a request had the status of a success.
    #[error("Custom response must not be successful")]
    CustomResponseSuccessful,
    /// What was to be connected to is no `ws` or `wss` URI.
    #[error("URL error")]
    Url,
    /// The answer to a handshake has another status than it should.
    #[error("HTTP error: {0}")]
    Status(StatusCode),
    /// A growth was refused.
    #[error("Out of memory")]
    OutOfMemory,
}

impl fmt::Debug for SocketFault {
    // In its words.
    fn fmt<W: fmt::Write>(&self, f: &mut fmt::Formatter<W>) -> fmt::Result {
        fmt::Display::fmt(self, f)
    }
}

impl SocketFault {
    /// Whether the stream would have to wait.
    pub fn is_blocked(&self) -> bool
        ensures { result ≡ is_blocked self.now }
    {
        match self {
            SocketFault::Io(why) => matches!(why.kind(), ErrorKind::WouldBlock),
            _ => false,
        }
    }
}

// What an error of a WebSocket says, which stays.
fn seen(error: &SocketError) -> SocketFault
    ensures { result ≡ fault_of error.now }
{
    match error {
        SocketError::ConnectionClosed => SocketFault::ConnectionClosed,
        SocketError::AlreadyClosed => SocketFault::AlreadyClosed,
        SocketError::Io(why) => SocketFault::Io(*why),
        SocketError::Capacity(why) => SocketFault::Capacity(*why),
        SocketError::Protocol(why) => SocketFault::Protocol(*why),
        SocketError::WriteBufferFull => SocketFault::WriteBufferFull,
        SocketError::Utf8 => SocketFault::Utf8,
        SocketError::AttackAttempt => SocketFault::AttackAttempt,
        SocketError::Handshake(why) => SocketFault::Handshake(*why),
        SocketError::HandshakeIncomplete => SocketFault::HandshakeIncomplete,
        SocketError::JunkAfterRequest => SocketFault::JunkAfterRequest,
        SocketError::CustomResponseSuccessful => SocketFault::CustomResponseSuccessful,
        SocketError::Url => SocketFault::Url,
        SocketError::Http(response) => SocketFault::Status(response.status()),
        SocketError::Refused(response) => SocketFault::Status(response.status()),
        SocketError::OutOfMemory => SocketFault::OutOfMemory,
    }
}

/// What an error of a WebSocket says. The error ends here, and nothing else does.
pub fn fault_of(error: SocketError) -> SocketFault
    ensures { result ≡ fault_of error }
{
    let fault = seen(&error);
    drop(error);
    fault
}

// ---- a connection whose other side is waited for

/// A connection whose other side is waited for: a call comes back once something came, or nothing will.
pub trait Awaited {
    // That is heard, once it is waited for.
    ghost hears: { Self → Heard → Self → Type 0 };

    // A text is sent, or that is why it is not.
    ghost sends: { Self → List ℕ → Option Lost → Self → Type 0 };

    // This side says that it goes, or that is why it can't.
    ghost leaves: { Self → Option Lost → Self → Type 0 };

    // That is heard behind it.
    ghost ends: { Self → Heard → Self → Type 0 };

    /// The next message is awaited from here on: as much may be read for it as for any.
    fn await_message(&mut self);

    /// What comes next. The other side is asked whether it is there where it is silent, and given up where
    /// it stays so: the end comes then, and never nothing.
    ///
    /// # Errors
    ///
    /// Where memory lacks.
    fn hear_next(&mut self) -> Result<Heard, AllocError>
        ensures { IfOk result (λ heard. hears self.old heard self.new) };

    /// Sends a text, and answers why it could not be sent, if it could not.
    ///
    /// # Errors
    ///
    /// Where memory lacks.
    fn send(&mut self, text: &str) -> Result<Option<Lost>, AllocError>
        ensures { IfOk result (λ lost. sends self.old text.now lost self.new) };

    /// Says that this side goes, and answers why that could not be said, if it could not.
    ///
    /// # Errors
    ///
    /// Where memory lacks.
    fn leave(&mut self) -> Result<Option<Lost>, AllocError>
        ensures { IfOk result (λ lost. leaves self.old lost self.new) };

    /// What comes next behind that. Where nothing comes for a moment, that is said.
    ///
    /// # Errors
    ///
    /// Where memory lacks.
    fn hear_last(&mut self) -> Result<Heard, AllocError>
        ensures { IfOk result (λ heard. ends self.old heard self.new) };
}

// Why a message was not sent, of which nothing may wait.
fn unsent_by(why: SocketFault) -> Result<Lost, AllocError>
    ensures { result ≡ unsent_by why }
{
    match why {
        SocketFault::OutOfMemory => Err(AllocError),
        why if why.is_blocked() => Ok(Lost::Silent),
        why => Ok(Lost::Failed(why)),
    }
}

// Whether it was sent, or why it was not.
fn sent_by(answer: Result<(), SocketError>) -> Result<Option<Lost>, AllocError>
    ensures { result ≡ sent_by answer }
{
    match fault_in(answer) {
        None => Ok(None),
        Some(why) => match unsent_by(why) {
            Ok(lost) => Ok(Some(lost)),
            Err(lacking) => Err(lacking),
        },
    }
}

// Whether anything was heard.
fn is_something(heard: &Heard) -> bool
    ensures { result ≡ is_something heard.now }
{
    match heard {
        Heard::Text(_) | Heard::Binary | Heard::Sign | Heard::Ended(_) => true,
        Heard::Nothing => false,
    }
}

impl<S: Read + Write + Drop, K: MaskKeys + Drop> Socket<Counted<S>, K> {
    // Asks the other side behind that tick whether it is there, if that is the one for it, and answers why
    // it could not be asked, if it could not.
    fn ask_at(&mut self, tick: u64) -> Result<Option<Lost>, AllocError>
        ensures { IfOk result (λ lost. AsksIf (known_output S.contents) (tick == ASKING_TICK)
            self.old.socket lost self.new.socket) }
    {
        if tick == ASKING_TICK {
            sent_by(self.socket.send(Message::Ping(Bytes::new())))
        } else {
            Ok(None)
        }
    }
}

impl<S: Read + Write + Drop, K: MaskKeys + Drop> Awaited for Socket<Counted<S>, K> {
    ghost hears = { λ old heard new. Awaits (known_input S.remaining) (known_output S.contents) old.socket
        heard new.socket };

    ghost sends = { λ old words lost new. Pushes (known_output S.contents)
        (write_step old.socket.conn (text_content words)) old.socket lost new.socket };

    ghost leaves = { λ old lost new. Pushes (known_output S.contents) (close_step old.socket.conn None)
        old.socket lost new.socket };

    ghost ends = { λ old heard new. Hears (known_input S.remaining) (known_output S.contents) old.socket
        (Ok heard) new.socket };

    fn await_message(&mut self) {
        self.socket.get_mut().await_message();
    }

    fn hear_next(&mut self) -> Result<Heard, AllocError> {
        for tick in 0..SILENT_TICKS {
            let heard = self.hear()?;
            if is_something(&heard) {
                return Ok(heard);
            }
            drop(heard);
            if let Some(why) = self.ask_at(tick)? {
                return Ok(Heard::Ended(why));
            }
        }
        Ok(Heard::Ended(Lost::Silent))
    }

    fn send(&mut self, text: &str) -> Result<Option<Lost>, AllocError> {
        let message = Message::text(self.alloc, text)?;
        sent_by(self.socket.send(message))
    }

    fn leave(&mut self) -> Result<Option<Lost>, AllocError> {
        sent_by(self.socket.close(None))
    }

    fn hear_last(&mut self) -> Result<Heard, AllocError> {
        self.hear()
    }
}
