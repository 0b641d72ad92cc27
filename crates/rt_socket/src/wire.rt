// What gives texts of a server, and takes texts for it.
ghost use Rattle.std.specs.Prelude.{◌≡◌, ◌∷◌, [], ℕ, List, Option, None, IfOk, ◌++◌, Some, length, OnOk};
ghost use Rattle.rt_socket.specs.Wires.{Gives, Takes, given_by, said_by};
ghost use Rattle.rt_socket.specs.declared.wire.Heard.{Heard};
ghost use Rattle.rt_socket.specs.declared.wire.Said.{Said};
ghost use Rattle.rt_wire.specs.Server.{server_message};
ghost use Rattle.rt_socket.specs.Reading.{ReadsMost, read_of, texts_of};
ghost use Rattle.rt_socket.specs.inside.Rounds.{PausesBy, given_count};
ghost use Rattle.rt_socket.specs.Hearing.{closed_by, or_unknown, unopened};

use crate::patience::{HANDSHAKE_MS, SILENCE_MS};
use crate::socket::{SocketFault, fault_of};
use rt_wire::{ClientMessage, ServerMessage, WireError};
use std::alloc::{AllocError, Global};
use std::{fmt, io};
use thiserror::Error;
use tungstenite::{CloseFrame, Error as SocketError, Utf8Bytes};

/// What a wire gives when it is asked for a message.
#[derive(Debug, Drop)]
pub enum Heard {
    /// A text.
    Text(Utf8Bytes),
    /// A message that is no text.
    Binary,
    /// A ping or a pong, which is no message.
    Sign,
    /// Nothing more is there now.
    Nothing,
    /// Nothing more will come.
    Ended(Lost),
}

/// What kind of thing that is.
#[derive(Clone, Copy, Debug, PartialEq, Eq)]
pub enum Said {
    /// Something was given.
    Given,
    /// Nothing more is there now.
    Nothing,
    /// Nothing more will come.
    Ended,
}

/// What became of what a wire has taken.
#[derive(Debug, Drop)]
pub enum Flushed {
    /// All of it is on its way.
    Done,
    /// Not all of it: the wire has to be asked again later.
    Blocked,
    /// The wire takes nothing any more.
    Failed(Lost),
}

/// What gives texts of a server, and takes texts for it. None of its calls waits.
pub trait Wire {
    // What it is to give, in order, where that is known.
    ghost remaining: { Self → Option (List Heard) };

    // The texts that it has taken, in order, where they are known.
    ghost contents: { Self → Option (List (List ℕ)) };

    // What it said last when it was asked for a message.
    ghost said: { Self → Said };

    /// The next message.
    ///
    /// # Errors
    ///
    /// Where memory lacks.
    fn hear(&mut self) -> Result<Heard, AllocError>
        ensures said { IfOk result (λ heard. said self.new ≡ said_by heard) }
        ensures gives { IfOk result (λ heard.
            Gives (remaining self.old) (remaining self.new) (given_by heard)) }
        ensures contents { contents self.new ≡ contents self.old };

    /// Gives it a text, and answers why it did not take it, if it did not. It takes nothing any more then.
    ///
    /// # Errors
    ///
    /// Where memory lacks.
    fn put(&mut self, text: &str) -> Result<Option<Lost>, AllocError>
        ensures takes { IfOk result (λ lost. lost ≡ None
            → Takes (contents self.old) (contents self.new) (text.now ∷ [])) }
        ensures remaining { remaining self.new ≡ remaining self.old };

    /// Sends what it has taken on its way, as far as that goes.
    fn flush(&mut self) -> Flushed
        ensures contents { contents self.new ≡ contents self.old }
        ensures remaining { remaining self.new ≡ remaining self.old };
}

impl Heard {
    /// What kind of thing it is.
    pub fn said(&self) -> Said
        ensures { result ≡ said_by self.now }
    {
        match self {
            Heard::Text(_) | Heard::Binary | Heard::Sign => Said::Given,
            Heard::Nothing => Said::Nothing,
            Heard::Ended(_) => Said::Ended,
        }
    }
}

// ---- what a wire gives is read, and what a client has to send is given to it

/// Why no more of a wire is read now.
#[derive(Debug, Drop)]
pub enum Pause {
    /// Nothing more is there now.
    Idle,
    /// As much came as is read in one go; there may be more.
    More,
    /// Nothing more will come.
    Ended(Lost),
}

/// What a wire gave in one go: messages of the server, in order, each as it is read.
#[derive(Drop)]
pub struct Batch {
    pub messages: Vec<Result<ServerMessage, WireError>>,
    pub pause: Pause,
}

// A text as it is read: a message, or why it is none.
fn read_text(alloc: Global, words: &str) -> Result<Result<ServerMessage, WireError>, AllocError>
    ensures { IfOk result (λ read. read ≡ server_message words.now) }
{
    match ServerMessage::read(alloc, words) {
        Ok(message) => Ok(Ok(message)),
        Err(WireError::NoMemory) => Err(AllocError),
        Err(
            why @ (WireError::NotJson
            | WireError::UnknownKind
            | WireError::BadField
            | WireError::BadTree),
        ) => Ok(Err(why)),
    }
}

// Adds what the wire gave to what was read, and answers why no more is read now, if it is so.
fn add(
    alloc: Global,
    heard: Heard,
    messages: &mut Vec<Result<ServerMessage, WireError>>,
) -> Result<Option<Pause>, AllocError>
    ensures read { OnOk result (messages.new.items ≡ messages.old.items ++ read_of heard) }
    ensures pauses { IfOk result (λ end. PausesBy end (said_by heard)) }
    ensures count { IfOk result (λ end. length (given_by heard) ≡ given_count end) }
{
    match heard {
        Heard::Text(words) => messages.push(read_text(alloc, words.as_str())?)?,
        Heard::Binary => messages.push(Err(WireError::NotJson))?,
        Heard::Sign => {}
        Heard::Nothing => return Ok(Some(Pause::Idle)),
        Heard::Ended(why) => return Ok(Some(Pause::Ended(why))),
    }
    Ok(None)
}

/// Reads what a wire gives, at most so many messages.
///
/// # Errors
///
/// Where memory lacks: what was read is lost.
pub fn hear_all<W: Wire>(alloc: Global, wire: &mut W, most: usize) -> Result<Batch, AllocError>
    ensures read { IfOk result (λ batch. ReadsMost batch.pause most (W.said wire.new)
        (W.remaining wire.old) (W.remaining wire.new) batch.messages.items) }
    ensures contents { W.contents wire.new ≡ W.contents wire.old }
{
    let mut messages = Vec::new(alloc);
    for _ in 0..most {
        let heard = wire.hear()?;
        if let Some(pause) = add(alloc, heard, &mut messages)? {
            return Ok(Batch { messages, pause });
        }
    }
    let pause = Pause::More;
    Ok(Batch { messages, pause })
}

/// Gives the texts of messages to a wire, in order, and answers why it did not take one, if it did not.
///
/// # Errors
///
/// Where memory lacks.
pub fn say_all<W: Wire>(
    alloc: Global,
    wire: &mut W,
    messages: &[ClientMessage],
) -> Result<Option<Lost>, AllocError>
    ensures took { IfOk result (λ lost. lost ≡ None
        → Takes (W.contents wire.old) (W.contents wire.new) (texts_of messages.now)) }
    ensures remaining { W.remaining wire.new ≡ W.remaining wire.old }
{
    for message in messages {
        let text = message.text(alloc)?;
        if let Some(why) = wire.put(text.as_str())? {
            return Ok(Some(why));
        }
    }
    Ok(None)
}

// ---- why a connection does not come about, or has ended

/// Why a connection does not come about, or has ended.
#[derive(Drop, Error)]
pub enum Lost {
    /// Nothing listens there, or the stream failed before the handshake was done.
    #[error("no connection can be made: {0}")]
    Unreachable(io::Error),
    /// The other side speaks no WebSocket.
    #[error("the handshake failed: {0}")]
    NoHandshake(SocketFault),
    /// The other side is slow with the handshake.
    #[error("the handshake was not done within {HANDSHAKE_MS} ms")]
    Late,
    /// The stream failed, or what came breaks the protocol.
    #[error("the connection failed: {0}")]
    Failed(SocketFault),
    /// The server closed it, and gave no code.
    #[error("the server closed the connection, without a code")]
    Closed,
    /// The server closed it with a code, and perhaps a reason.
    #[error("the server closed the connection with code {}{}: {:?}", .0.code, or_unknown(.0.code.into()), .0.reason.as_str())]
    ClosedWith(CloseFrame),
    /// Nothing came for long, not even the answer to a ping.
    #[error("the server was silent for {SILENCE_MS} ms")]
    Silent,
}

impl fmt::Debug for Lost {
    // In its words.
    fn fmt<W: fmt::Write>(&self, f: &mut fmt::Formatter<W>) -> fmt::Result {
        fmt::Display::fmt(self, f)
    }
}

/// What else a close may have been that is read with this code: 1014, and a code that none may send, are read
/// as 1002.
pub fn or_unknown(code: u16) -> &'static str
    ensures { result.now ≡ or_unknown code }
{
    if code == 1002 {
        " or an unknown one"
    } else {
        ""
    }
}

/// How a connection ends that the other side closes.
pub fn closed_by(frame: Option<CloseFrame>) -> Lost
    ensures { result ≡ closed_by frame }
{
    match frame {
        Some(frame) => Lost::ClosedWith(frame),
        None => Lost::Closed,
    }
}

/// Why a connection does not come about whose handshake fails so.
///
/// # Errors
///
/// Where memory lacks.
pub fn unopened(error: SocketError) -> Result<Lost, AllocError>
    ensures { result ≡ unopened error }
{
    match fault_of(error) {
        SocketFault::OutOfMemory => Err(AllocError),
        SocketFault::Io(why) => Ok(Lost::Unreachable(why)),
        why => Ok(Lost::NoHandshake(why)),
    }
}
