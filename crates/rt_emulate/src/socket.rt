// A WebSocket as a door.
ghost use Rattle.std.specs.Prelude.{◌≡◌, [], true, false, None, IfOk, OnOk, Ok};
ghost use Rattle.tungstenite.specs.Content.{text as Text};
ghost use Rattle.rt_hub.specs.declared.door.Flushed.{Flushed};
ghost use Rattle.rt_emulate.specs.inside.Endings.{ending_of, broken_code, broken_of, done_of, is_interrupted};
ghost use Rattle.rt_emulate.specs.inside.Endings.{is_spent, lacks_memory, of_stream, would_block};
ghost use Rattle.rt_emulate.specs.inside.Sockets.{Hears, IsSaid, Puts, ReadsOn, ReadsOne, Sends, broken_by};
ghost use Rattle.rt_emulate.specs.inside.Sockets.{code_in, judged, heard_of, kept, passes, said_of, takes};
ghost use Rattle.rt_emulate.specs.inside.Sockets.{unsent_by, unsent_with};

use crate::calls::Replay;
use crate::ending::GuestEnd;
use rt_hub::{Door, DoorRead, Flushed, MAX_WAITING_BYTES};
use rt_input::Counted;
use rt_wire::is_crowded;
use std::alloc::{AllocError, Global};
use std::fmt;
use std::io::{self, ErrorKind, Write};
use tungstenite::{
    Bytes, CloseFrame, Error, Message, NoMask, Utf8Bytes, WebSocket, WebSocketConfig,
};
use websocket::error::{CapacityError, ProtocolError};

/// How many bytes are read of a guest in one turn.
pub(crate) const TURN_BYTES: usize = 65_536;

// How many bytes one read of a stream asks for.
const READ_BYTES: usize = 16_384;

// How many bytes may wait in a socket, pongs among them: more than may wait for a connection.
const OUTPUT_BYTES: usize = 2 * MAX_WAITING_BYTES;

/// The limits of a guest's socket. A message has at most as many bytes as may wait for a connection.
pub(crate) fn limits() -> WebSocketConfig {
    WebSocketConfig::default()
        .read_buffer_size(READ_BYTES)
        .max_write_buffer_size(OUTPUT_BYTES)
        .max_message_size(Some(MAX_WAITING_BYTES))
        .max_frame_size(Some(MAX_WAITING_BYTES))
}

/// A WebSocket as a door.
pub(crate) struct Socket {
    alloc: Global,
    socket: WebSocket<Counted<Replay>, NoMask>,
    text: Utf8Bytes,
    /// Whether what was heard last was binary.
    pub(crate) was_binary: bool,
    said: DoorRead,
    flushed: Flushed,
    /// How many bytes the texts have that it has taken since all that it had taken was sent.
    pub(crate) unsent: usize,
    /// Whether as many bytes were read in the turn as are read in one, so that there may be more.
    pub(crate) is_spent: bool,
    // The code of the client's close, where it has closed.
    closed: Option<Option<u16>>,
    // Why it has ended, where that was no close.
    why: Option<Broken>,
    // Whether refusals are kept to be told.
    is_telling: bool,
    refusals: Vec<String>,
}

impl Drop for Socket {
    fn drop(self) {
        let Socket {
            alloc: _,
            socket: _,
            text: _,
            was_binary: _,
            said: _,
            flushed: _,
            unsent: _,
            is_spent: _,
            closed: _,
            why: _,
            is_telling: _,
            refusals: _,
        } = self;
    }
}

impl Socket {
    pub(crate) fn new(
        alloc: Global,
        socket: WebSocket<Counted<Replay>, NoMask>,
        is_telling: bool,
    ) -> Socket
        ensures none { result.refusals.items ≡ [] }
        ensures rest { result ≡ record {
          alloc = alloc;
          socket = socket;
          text = result.text;
          was_binary = false;
          said = result.said;
          flushed = result.flushed;
          unsent = 0;
          is_spent = false;
          closed = None;
          why = None;
          is_telling = is_telling;
          refusals = result.refusals;
        } }
    {
        Socket {
            alloc,
            socket,
            text: Utf8Bytes::new(),
            was_binary: false,
            said: DoorRead::Nothing,
            flushed: Flushed::Done,
            unsent: 0,
            is_spent: false,
            closed: None,
            why: None,
            is_telling,
            refusals: Vec::new(alloc),
        }
    }

    /// A turn begins.
    pub(crate) fn begin_turn(&mut self)
        ensures { self.new ≡ record (self.old) { socket = self.new.socket; is_spent = false } }
    {
        self.is_spent = false;
        self.socket.get_mut().await_message();
    }

    /// What is sent from here on goes nowhere, since the stream takes nothing any more. Answers whether
    /// that began now.
    pub(crate) fn pass_over_writes(&mut self) -> bool
        ensures { self.new ≡ record (self.old) { socket = self.new.socket } }
    {
        self.socket.get_mut().pass_over_writes()
    }

    /// Why it has ended.
    pub(crate) fn ending(&self) -> GuestEnd
        ensures { result ≡ ending_of self.now.closed self.now.why }
    {
        match (self.closed, self.why) {
            (Some(code), _) => GuestEnd::Closed(code),
            (None, Some(why)) => GuestEnd::Failed(why),
            (None, None) => GuestEnd::Failed(Broken::Closed),
        }
    }

    /// The refusals that were sent since this was asked last.
    pub(crate) fn take_refusals(&mut self) -> Vec<String>
        ensures taken { result ≡ self.old.refusals }
        ensures kept { self.new ≡ record (self.old) { refusals = self.new.refusals } }
        ensures none { self.new.refusals.items ≡ [] }
    {
        std::mem::replace(&mut self.refusals, Vec::new(self.alloc))
    }

    /// Sends a ping.
    pub(crate) fn ping(&mut self)
        ensures { self.new ≡ record (self.old) { socket = self.new.socket } }
    {
        // A stream that takes none is found out by its silence.
        let _pinged = done(self.socket.send(Message::Ping(Bytes::new())));
    }

    /// Sends what waits, as far as it goes, and a close with that code and that reason, which has 123 bytes
    /// at most. A socket that has failed takes no close, so it is written behind its back.
    pub(crate) fn close(&mut self, code: u16, reason: &str)
        ensures { self.new ≡ record (self.old) { socket = self.new.socket } }
    {
        if done(self.socket.flush()).is_ok() {
            let len = reason.len().min(123);
            let head = [0x88, 2 + len as u8, (code / 256) as u8, (code % 256) as u8];
            let _written = self.socket.get_mut().write(&head);
            let _written = self.socket.get_mut().write(&reason.as_bytes()[..len]);
        }
    }

    // Keeps what a message says.
    fn keep(&mut self, message: Message) -> DoorRead
        ensures heard { result ≡ heard_of message }
        ensures kept { self.new ≡ kept message self.old }
    {
        self.was_binary = message.is_binary();
        match message {
            Message::Text(text) => {
                self.text = text;
                DoorRead::Text
            }
            Message::Binary(bytes) | Message::Ping(bytes) | Message::Pong(bytes) => {
                drop(bytes);
                DoorRead::Other
            }
            Message::Close(frame) => {
                self.closed = Some(code_in(frame));
                DoorRead::Other
            }
        }
    }

    // The next message.
    fn read(&mut self) -> Result<DoorRead, Broken>
        ensures { ReadsOne self.old self.new result }
    {
        match self.socket.read() {
            Ok(message) => Ok(self.keep(message)),
            Err(error) => Err(Broken::of(error)),
        }
    }

    // Whether a read failed because what the socket has to answer by itself can't be written any more.
    // From then on it goes nowhere.
    fn passes_over(&mut self, why: Broken) -> bool
        ensures passes { result ≡ true → passes why ≡ true }
        ensures kept { self.new ≡ record (self.old) { socket = self.new.socket } }
        ensures stays { result ≡ false → passes why ≡ false → self.new ≡ self.old }
    {
        why.of_stream().is_some()
            && !why.would_block()
            && !why.is_spent()
            && self.pass_over_writes()
    }

    // The next message, also where what the socket has to answer by itself can't be written any more.
    fn read_on(&mut self) -> Result<DoorRead, Broken>
        ensures { ReadsOn self.old self.new result }
    {
        match self.read() {
            Ok(heard) => Ok(heard),
            Err(why) => {
                if self.passes_over(why) {
                    self.read()
                } else {
                    Err(why)
                }
            }
        }
    }

    // Says what was heard.
    fn say(&mut self, heard: DoorRead) -> DoorRead
        ensures said { result ≡ heard }
        ensures kept { self.new ≡ record (self.old) { said = heard } }
    {
        self.said = heard;
        heard
    }

    // Says what is heard where a read failed so: nothing is there now, or it has ended.
    fn say_broken(&mut self, why: Broken) -> DoorRead
        ensures said { result ≡ said_of why }
        ensures kept { self.new ≡ record (broken_by why self.old) { said = said_of why } }
    {
        self.is_spent = why.is_spent();
        if self.is_spent || why.would_block() {
            self.say(DoorRead::Nothing)
        } else {
            self.why = Some(why);
            self.say(DoorRead::Ended)
        }
    }

    // Says what was heard. A text that holds more than a message may is as a read that failed.
    fn say_heard(&mut self, heard: DoorRead) -> DoorRead
        ensures { IsSaid (judged (Ok heard) self.old.text) self.old result self.new }
    {
        match heard {
            DoorRead::Text => {
                if is_crowded(self.text.as_str()) {
                    self.say_broken(Broken::Crowded)
                } else {
                    self.say(DoorRead::Text)
                }
            }
            DoorRead::Other | DoorRead::Nothing | DoorRead::Ended => self.say(heard),
        }
    }

    // Writes a text, as far as the stream takes it, and answers what came between.
    fn write(&mut self, text: &str) -> Result<Option<Broken>, AllocError>
        ensures puts { IfOk result (λ broken. takes broken ≡ true
            → Puts (Text text.now) self.old.socket self.new.socket) }
        ensures unsent { OnOk result (self.new.unsent ≡ unsent_with text.now self.old.unsent) }
    {
        if self.is_telling && is_refusal(text) {
            self.keep_refusal(text)?;
        }
        self.unsent = self.unsent.saturating_add(text.len());
        let message = Message::text(self.alloc, text)?;
        match done(self.socket.write(message)) {
            Ok(()) => Ok(None),
            Err(Broken::NoMemory) => Err(AllocError),
            Err(why) => Ok(Some(why)),
        }
    }

    /// Sends these texts, as far as the stream takes them, and answers whether there was room for what it
    /// doesn't take for now.
    pub(crate) fn answer(&mut self, texts: &[String]) -> Result<bool, AllocError> {
        for text in texts {
            if let Some(Broken::Full) = self.write(text.as_str())? {
                return Ok(false);
            }
        }
        Ok(true)
    }

    // Keeps a refusal, to be told.
    fn keep_refusal(&mut self, text: &str) -> Result<(), AllocError>
        ensures { self.new ≡ record (self.old) { refusals = self.new.refusals } }
    {
        let text = String::from_str(self.alloc, text)?;
        Ok(self.refusals.push(text)?)
    }
}

impl Door for Socket {
    ghost remaining = { λ _. None };

    ghost contents = { λ _. None };

    ghost given = { λ s. s.text };

    ghost said = { λ s. s.said };

    ghost flushed = { λ s. s.flushed };

    fn hear(&mut self) -> Result<DoorRead, AllocError>
        ensures said { IfOk result (λ heard. self.new.said ≡ heard) }
        // What it says is what was read of it.
        ensures heard { IfOk result (λ heard. Hears self.old self.new heard) }
    {
        match self.read_on() {
            Ok(heard) => Ok(self.say_heard(heard)),
            Err(Broken::NoMemory) => Err(AllocError),
            Err(why) => Ok(self.say_broken(why)),
        }
    }

    fn text(&self) -> &str {
        self.text.as_str()
    }

    fn put(&mut self, text: &str) -> Result<bool, AllocError>
        // What it takes waits to be sent, or is.
        ensures put { IfOk result (λ took. took ≡ true
            → Puts (Text text.now) self.old.socket self.new.socket) }
        // Its bytes are not sent yet.
        ensures unsent { OnOk result (self.new.unsent ≡ unsent_with text.now self.old.unsent) }
    {
        match self.write(text)? {
            None => Ok(true),
            // What would block is taken all the same.
            Some(why) => Ok(why.would_block()),
        }
    }

    fn flush(&mut self) -> Flushed
        ensures flushed { self.new.flushed ≡ result }
        // What it has taken is sent, as far as it goes: all of it, where it says so.
        ensures sends { Sends self.old.socket self.new.socket }
        ensures done { result ≡ Flushed.Done → self.new.socket.output ≡ [] }
        // Then none of its bytes are unsent.
        ensures unsent { self.new.unsent ≡ unsent_by result self.old.unsent }
    {
        self.flushed = match done(self.socket.flush()) {
            Ok(()) => {
                self.unsent = 0;
                Flushed::Done
            }
            Err(why) => {
                if why.would_block() {
                    Flushed::Blocked
                } else {
                    Flushed::Failed
                }
            }
        };
        self.flushed
    }
}

// The code of a client's close, where it has one.
fn code_in(frame: Option<CloseFrame>) -> Option<u16>
    ensures { result ≡ code_in frame }
{
    match frame {
        Some(frame) => Some(u16::from(frame.code)),
        None => None,
    }
}

/// Whether a text of the server refuses a request or a listen.
pub(crate) fn is_refusal(text: &str) -> bool {
    if text.starts_with("{\"k\":\"revoke\"") {
        return true;
    }
    match text.strip_prefix("{\"id\":") {
        Some(rest) => rest
            .trim_start_matches(|letter: char| letter.is_ascii_digit())
            .starts_with(",\"k\":\"no\""),
        None => false,
    }
}

// ---- why a socket failed

/// Why a guest's socket failed: what its error says, in a value that owns nothing.
#[derive(Clone, Copy)]
pub(crate) enum Broken {
    /// Its stream failed, or would block: how, and the system's number for it, where it has one.
    Stream(ErrorKind, Option<i32>),
    /// The guest broke the protocol.
    Protocol(ProtocolError),
    /// A text is no UTF-8.
    Utf8,
    /// A message has too many bytes.
    Capacity(CapacityError),
    /// The connection is closed.
    Closed,
    /// It was used after it was closed or failed.
    Used,
    /// More waits in it than may.
    Full,
    /// What a handshake alone fails by.
    Unshaken,
    /// A text holds more than a message may.
    Crowded,
    /// Memory lacks.
    NoMemory,
}

impl Broken {
    /// What an error of a socket says. The error ends here, and nowhere else.
    pub(crate) fn of(error: Error) -> Broken
        ensures { result ≡ broken_of error }
    {
        match error {
            Error::Io(why) => Broken::Stream(why.kind(), why.raw_os_error()),
            Error::Protocol(why) => Broken::Protocol(why),
            Error::Utf8 => Broken::Utf8,
            Error::Capacity(why) => Broken::Capacity(why),
            Error::ConnectionClosed => Broken::Closed,
            Error::AlreadyClosed => Broken::Used,
            Error::WriteBufferFull => Broken::Full,
            Error::AttackAttempt
            | Error::Handshake(_)
            | Error::HandshakeIncomplete
            | Error::JunkAfterRequest
            | Error::CustomResponseSuccessful
            | Error::Url
            | Error::Http(_)
            | Error::Refused(_) => Broken::Unshaken,
            Error::OutOfMemory => Broken::NoMemory,
        }
    }

    /// How its stream failed, if that is why.
    pub(crate) fn of_stream(self) -> Option<ErrorKind>
        ensures { result ≡ of_stream self }
    {
        match self {
            Broken::Stream(kind, _) => Some(kind),
            Broken::Protocol(_)
            | Broken::Utf8
            | Broken::Capacity(_)
            | Broken::Closed
            | Broken::Used
            | Broken::Full
            | Broken::Unshaken
            | Broken::Crowded
            | Broken::NoMemory => None,
        }
    }

    /// Whether memory lacks.
    pub(crate) fn lacks_memory(self) -> bool
        ensures { result ≡ lacks_memory self }
    {
        matches!(self, Broken::NoMemory)
    }

    /// Whether its stream would block.
    pub(crate) fn would_block(self) -> bool
        ensures { result ≡ would_block self }
    {
        matches!(self, Broken::Stream(ErrorKind::WouldBlock, _))
    }

    /// Whether a signal came between.
    pub(crate) fn is_interrupted(self) -> bool
        ensures { result ≡ is_interrupted self }
    {
        matches!(self, Broken::Stream(ErrorKind::Interrupted, _))
    }

    /// Whether as many bytes were read as are read in one turn.
    pub(crate) fn is_spent(self) -> bool
        ensures { result ≡ is_spent self }
    {
        matches!(self, Broken::Stream(ErrorKind::QuotaExceeded, _))
    }

    /// The code that RFC 6455 (section 7.4.1) has for the client, where it is told why: it broke the
    /// protocol, a text is no UTF-8, or a message has too many bytes or holds too much.
    pub(crate) fn close_code(self) -> Option<u16>
        ensures { result ≡ broken_code self }
    {
        match self {
            Broken::Protocol(ProtocolError::ResetWithoutClosingHandshake) => None,
            Broken::Protocol(_) => Some(1002),
            Broken::Utf8 => Some(1007),
            Broken::Capacity(_) | Broken::Crowded => Some(1009),
            Broken::Stream(_, _)
            | Broken::Closed
            | Broken::Used
            | Broken::Full
            | Broken::Unshaken
            | Broken::NoMemory => None,
        }
    }
}

/// What came of a call of a socket that answers nothing.
pub(crate) fn done(called: Result<(), Error>) -> Result<(), Broken>
    ensures { result ≡ done_of called }
{
    match called {
        Ok(()) => Ok(()),
        Err(error) => Err(Broken::of(error)),
    }
}

// An error of a stream, as the system or the library says it.
fn stream_error(kind: ErrorKind, number: Option<i32>) -> io::Error {
    match number {
        Some(number) => io::Error::from_raw_os_error(number),
        None => io::Error::from(kind),
    }
}

impl fmt::Display for Broken {
    fn fmt<W: fmt::Write>(&self, f: &mut fmt::Formatter<W>) -> fmt::Result {
        let words = match self {
            Broken::Stream(kind, number) => {
                return write!(f, "IO error: {}", stream_error(*kind, *number));
            }
            Broken::Protocol(why) => return write!(f, "WebSocket protocol error: {why}"),
            Broken::Utf8 => "UTF-8 encoding error",
            Broken::Capacity(why) => return write!(f, "Space limit exceeded: {why}"),
            Broken::Closed => "Connection closed normally",
            Broken::Used => "Trying to work with closed connection",
            Broken::Full => "Write buffer is full",
            Broken::Unshaken => "Handshake not finished",
            Broken::Crowded => "A text has more than 262144 commas and brackets",
            Broken::NoMemory => "Out of memory",
        };
        f.write_str(words)
    }
}
