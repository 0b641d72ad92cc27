// A connection: its wire, how far the server is behind, and what was read ahead.
ghost use Rattle.std.specs.Prelude.{◌≡◌, [], None, Ok, true, false, IfOk, IfSome, OnOk, map, ℕ, List, IfErr};
ghost use Rattle.std.specs.List.{slice_get};
ghost use Rattle.tungstenite.specs.Heads.{Connected};
ghost use Rattle.rt_input.specs.declared.stream.TheConstants.{MAX_MESSAGE_BYTES};
ghost use Rattle.rt_wire.specs.Server.{server_message};
ghost use Rattle.rt_connect.specs.Ahead.{has_way, heard_by, noted, noted_of, nothing_ahead, with_kept};
ghost use Rattle.rt_connect.specs.Ahead.{without_first, all_answered, answered, fits, is_due, is_same, up_to};
ghost use Rattle.rt_connect.specs.Ahead.{with_sent, byte_count};
ghost use Rattle.rt_connect.specs.Ending.{Ends, PassesOver, end_of, is_unclosed};
ghost use Rattle.rt_connect.specs.Sending.{MakesWay, Sends, SendsAll, linked};
ghost use Rattle.rt_connect.specs.Answers.{answer_to, answered_by};
ghost use Rattle.rt_connect.specs.declared.link.Name.TheVariants.{Listen};
ghost use Rattle.rt_connect.specs.Hearing.{HearsAfter, told_of};
ghost use Rattle.rt_connect.specs.Opening.{IsOpened, is_end, unopened};

use rt_input::{Counted, Log, MAX_MESSAGE_BYTES};
use rt_socket::{
    Awaited, HANDSHAKE_TICKS, Heard, Lost as SocketLost, Socket, SocketFault, TICK_MS, fault_of,
    limits,
};
use rt_wire::{ClientMessage, Part, ServerMessage, WireError};
use std::alloc::{AllocError, Global};
use std::collections::VecDeque;
use std::fmt;
use std::io::{Read, Write};
use std::marker::Model;
use std::random::RandomSource;
use tungstenite::handshake::client::{ClientError, ClientResponse, request_of};
use tungstenite::{Error, HandshakeError, RandomKeys, Utf8Bytes, WebSocket};

// A connection that stands.
pub(crate) struct ServerLink<W> {
    alloc: Global,
    wire: W,
    ahead: Ahead,
}

impl<W: Drop> Drop for ServerLink<W> {
    fn drop(self) {
        let ServerLink {
            alloc: _,
            wire: _,
            ahead: _,
        } = self;
    }
}

// Notes what a text answers. One that is no message answers nothing.
fn note(alloc: Global, ahead: &mut Ahead, words: &str) -> Result<(), AllocError>
    ensures { OnOk result (ahead.new ≡ noted (server_message words.now) ahead.old) }
{
    match ServerMessage::read(alloc, words) {
        Ok(message) => ahead.note_message(&message),
        Err(WireError::NoMemory) => return Err(AllocError),
        Err(
            WireError::NotJson | WireError::UnknownKind | WireError::BadField | WireError::BadTree,
        ) => {}
    }
    Ok(())
}

// Notes what was heard of the server.
fn note_heard(alloc: Global, ahead: &mut Ahead, heard: &ServerEvent) -> Result<(), AllocError>
    ensures { OnOk result (ahead.new ≡ heard_by heard.now ahead.old) }
{
    match heard {
        ServerEvent::Told(ServerFrame::Text(words)) => note(alloc, ahead, words.as_str()),
        ServerEvent::Told(ServerFrame::Binary) | ServerEvent::Ended(_) => Ok(()),
    }
}

impl<W: Awaited + Drop> ServerLink<W> {
    pub(crate) fn new(alloc: Global, wire: W) -> ServerLink<W>
        ensures wire { result.wire ≡ wire }
        ensures ahead { result.ahead ≡ nothing_ahead }
    {
        ServerLink {
            alloc,
            wire,
            ahead: Ahead::new(alloc),
        }
    }

    // The next message of the server, of the wire, for which as much may be read as for any.
    fn hear(&mut self, pings: &mut u32) -> Result<ServerEvent, AllocError>
        ensures { IfOk result (λ heard. self.new.ahead ≡ heard_by heard self.old.ahead) }
    {
        self.wire.await_message();
        let heard = hear(&mut self.wire, pings)?;
        match note_heard(self.alloc, &mut self.ahead, &heard) {
            Ok(()) => Ok(heard),
            Err(lacking) => {
                drop(heard);
                Err(lacking)
            }
        }
    }

    // The next message of the server: one that was read ahead, if there is one.
    pub(crate) fn next(&mut self, pings: &mut u32) -> Result<ServerEvent, AllocError>
        ensures kept { IfSome (slice_get self.old.ahead.kept 0) (λ told. (result ≡ Ok (ServerEvent.Told told))
            × (self.new ≡ record (self.old) { ahead = without_first self.old.ahead })
            × (pings.new ≡ pings.old)) }
        ensures heard { self.old.ahead.kept ≡ [] → IfOk result (λ heard.
            self.new.ahead ≡ heard_by heard self.old.ahead) }
    {
        match self.ahead.next() {
            Some(told) => Ok(ServerEvent::Told(told)),
            None => self.hear(pings),
        }
    }

    // Reads one message ahead, and keeps it; answers why the connection has ended, if it has.
    fn keep_next(&mut self, pings: &mut u32) -> Result<Option<Lost>, AllocError>
        ensures { IfOk result (λ lost. lost ≡ None → (told : ServerFrame)
            × (self.new.ahead ≡ with_kept told (noted_of told self.old.ahead))) }
    {
        match self.hear(pings)? {
            ServerEvent::Told(told) => {
                if self.ahead.keep(told)? {
                    Ok(None)
                } else {
                    Ok(Some(Lost::Kept))
                }
            }
            ServerEvent::Ended(why) => Ok(Some(why)),
        }
    }

    // Reads ahead, until so many bytes may be sent; answers why the connection has ended, if it has.
    fn read_ahead(&mut self, len: usize, pings: &mut u32) -> Result<Option<Lost>, AllocError>
        requires { has_way len self.old.ahead ≡ false }
        ensures { IfOk result (λ lost. lost ≡ None → MakesWay len
            (linked self.old.wire self.old.ahead) (linked self.new.wire self.new.ahead)) }
    {
        // What is kept has a bound, which ends this loop before the number does.
        for _ in 0..u64::MAX {
            if let Some(why) = self.keep_next(pings)? {
                return Ok(Some(why));
            }
            if self.ahead.has_way(len) {
                return Ok(None);
            }
        }
        Ok(Some(Lost::Kept))
    }

    // Makes way for so many bytes; answers why the connection has ended, if it has.
    fn make_way(&mut self, len: usize, pings: &mut u32) -> Result<Option<Lost>, AllocError>
        ensures way { IfOk result (λ lost. lost ≡ None → MakesWay len
            (linked self.old.wire self.old.ahead) (linked self.new.wire self.new.ahead)) }
        ensures at_once { has_way len self.old.ahead ≡ true → (result ≡ Ok None)
            × (self.new ≡ self.old) × (pings.new ≡ pings.old) }
    {
        if self.ahead.has_way(len) {
            return Ok(None);
        }
        self.read_ahead(len, pings)
    }

    // Sends a message, once the server has read enough of those before.
    fn send(&mut self, message: &ClientMessage, pings: &mut u32) -> Result<Option<Lost>, AllocError>
        ensures { IfOk result (λ lost. lost ≡ None → Sends W.sends
            (linked self.old.wire self.old.ahead) message.now
            (linked self.new.wire self.new.ahead)) }
    {
        let text = message.text(self.alloc)?;
        let words = text.as_str();
        let size = words.len();
        if let Some(why) = self.make_way(size, pings)? {
            return Ok(Some(why));
        }
        if let Some(why) = self.wire.send(words)? {
            return Ok(Some(Lost::Socket(why)));
        }
        self.ahead.note_sent(message, size)?;
        Ok(None)
    }

    // Sends messages, in order; answers why the connection has ended, if it has.
    pub(crate) fn send_all(
        &mut self,
        messages: &[ClientMessage],
        pings: &mut u32,
    ) -> Result<Option<Lost>, AllocError>
        ensures { IfOk result (λ lost. lost ≡ None → SendsAll W.sends
            (linked self.old.wire self.old.ahead) messages.now
            (linked self.new.wire self.new.ahead)) }
    {
        for message in messages {
            if let Some(why) = self.send(message, pings)? {
                return Ok(Some(why));
            }
        }
        Ok(None)
    }

    // Ends the connection, and answers how it ended. As much is read as for one message.
    pub(crate) fn close(mut self) -> Result<Lost, AllocError>
        ensures { IfOk result (λ why. (had left : W) × Ends W.leaves W.ends MAX_MESSAGE_BYTES had why left) }
    {
        self.wire.await_message();
        leave(&mut self.wire)
    }
}

// ---- what a server was sent and may not have read yet, and what was read of it before a line
// asked for it

/// How many bytes may be on their way to the server while it owes an answer: where more are to be sent,
/// what it sends is read first.
pub const MAX_UNANSWERED_BYTES: u64 = 65_536;

/// How many bytes the messages may take that are read before a line asks for them.
pub const MAX_KEPT_BYTES: usize = 268_435_456;

// How much more than its bytes a message takes.
const COST: usize = 64;

/// What an answer names: a request, or a listen by its tag.
#[derive(Clone, Copy)]
pub(crate) enum Name {
    Request(u64),
    Listen(u64),
}

// Whether they are one name.
fn is_same(one: Name, other: Name) -> bool
    ensures { result ≡ is_same one other }
{
    match (one, other) {
        (Name::Request(id), Name::Request(other)) => id == other,
        (Name::Listen(tag), Name::Listen(other)) => tag == other,
        (Name::Request(_), Name::Listen(_)) | (Name::Listen(_), Name::Request(_)) => false,
    }
}

// The name that the answer to a message will have; none where it is not answered.
pub(crate) fn answer_to(message: &ClientMessage) -> Option<Name>
    ensures { result ≡ answer_to message.now }
{
    match message {
        ClientMessage::Hello { .. } => None,
        ClientMessage::Listen { tag, .. } => Some(Name::Listen(*tag)),
        ClientMessage::Unlisten { .. } => None,
        ClientMessage::Ask { id, .. } => Some(Name::Request(*id)),
    }
}

// A message that is to be answered, and how many bytes were sent up to its end.
#[derive(Clone, Copy)]
pub(crate) struct DueAnswer {
    name: Name,
    sent: u64,
}

// Whether an answer of that name is due.
fn is_due(due: &VecDeque<DueAnswer>, name: Name) -> bool
    ensures { result ≡ is_due name due.now.items }
{
    for place in 0..due.len() {
        if is_same(due[place].name, name) {
            return true;
        }
    }
    false
}

// Takes out what is due up to the first of that name, and says how many bytes were sent up to there.
fn take_up_to(due: &mut VecDeque<DueAnswer>, name: Name) -> Option<u64>
    ensures { up_to name due.old.items ≡ (result, due.new.items) }
{
    'due: while let Some(first) = due.pop_front() {
        if is_same(first.name, name) {
            return Some(first.sent);
        }
    }
    None
}

// How far the server is behind what it was sent, and what was read ahead.
#[derive(Drop)]
pub(crate) struct Ahead {
    due: VecDeque<DueAnswer>,
    // How many bytes were sent, and how many of them the server has read as far as its answers say.
    sent: u64,
    read: u64,
    kept: VecDeque<ServerFrame>,
    // How many bytes what is kept takes.
    cost: usize,
}

impl Model for Ahead {
    ghost use Rattle.std.specs.Prelude.{◌≡◌};
    ghost use Rattle.rt_connect.specs.Ahead.{ReadAhead, cost_of};

    ghost Value = { ReadAhead };

    ghost view = { λ a. record {
      due = a.due.items;
      sent = a.sent;
      read = a.read;
      kept = a.kept.items;
    } };

    ghost invariant = { λ a. a.cost ≡ cost_of a.kept.items };
}

impl Ahead {
    pub(crate) fn new(alloc: Global) -> Ahead
        ensures { result ≡ nothing_ahead }
    {
        Ahead {
            due: VecDeque::new(alloc),
            sent: 0,
            read: 0,
            kept: VecDeque::new(alloc),
            cost: 0,
        }
    }

    // Whether so many bytes may be sent before more is read.
    pub(crate) fn has_way(&self, len: usize) -> bool
        ensures { result ≡ has_way len self.now }
    {
        if self.due.is_empty() {
            return true;
        }
        let behind = self.sent.saturating_sub(self.read);
        behind.saturating_add(len as u64) <= MAX_UNANSWERED_BYTES
    }

    // Notes a message that was sent, of so many bytes.
    pub(crate) fn note_sent(
        &mut self,
        message: &ClientMessage,
        len: usize,
    ) -> Result<(), AllocError>
        ensures { OnOk result (self.new ≡ with_sent message.now len self.old) }
    {
        self.sent = self.sent.saturating_add(len as u64);
        if let Some(name) = answer_to(message) {
            let sent = self.sent;
            self.due.push_back(DueAnswer { name, sent })?;
        }
        Ok(())
    }

    // Notes what a message of that name says: what was sent up to what it answers was read.
    fn note_answer(&mut self, name: Name)
        ensures { self.new ≡ answered name self.old }
    {
        if !is_due(&self.due, name) {
            return;
        }
        if let Some(sent) = take_up_to(&mut self.due, name) {
            self.read = sent;
        }
    }

    // Notes that the listens of these parts are answered, if it is the first that is sent for them.
    fn note_parts(&mut self, parts: &[Part])
        ensures { self.new ≡ all_answered (map (λ p. Listen p.0) parts.now) self.old }
    {
        for part in parts {
            self.note_answer(Name::Listen(part.tag()));
        }
    }

    // Notes what a message answers, if it is the first of its name.
    pub(crate) fn note_message(&mut self, message: &ServerMessage)
        ensures { self.new ≡ all_answered (answered_by message.now) self.old }
    {
        match message {
            ServerMessage::Data { tag, .. }
            | ServerMessage::DataMerge { tag, .. }
            | ServerMessage::Revoked { tag, .. } => self.note_answer(Name::Listen(*tag)),
            ServerMessage::Push { parts } => self.note_parts(parts.as_slice()),
            ServerMessage::Accepted { id } | ServerMessage::Refused { id, .. } => {
                self.note_answer(Name::Request(*id));
            }
        }
    }

    // Keeps a message that was read ahead, and answers whether there is room for it.
    pub(crate) fn keep(&mut self, told: ServerFrame) -> Result<bool, AllocError>
        ensures room { IfOk result (λ is_kept. is_kept ≡ fits told self.old) }
        ensures kept { IfOk result (λ is_kept. is_kept ≡ true → self.new ≡ with_kept told self.old) }
        ensures full { IfOk result (λ is_kept. is_kept ≡ false → self.new ≡ self.old) }
    {
        let cost = self.cost.saturating_add(told.len()).saturating_add(COST);
        if cost > MAX_KEPT_BYTES {
            return Ok(false);
        }
        self.kept.push_back(told)?;
        self.cost = cost;
        Ok(true)
    }

    // The first message that was read ahead.
    pub(crate) fn next(&mut self) -> Option<ServerFrame>
        ensures first { result ≡ slice_get self.old.kept 0 }
        ensures rest { self.new ≡ without_first self.old }
    {
        let told = self.kept.pop_front()?;
        self.cost -= COST + told.len();
        Some(told)
    }
}

// ---- what is heard of a server: message by message, and then its end

/// How many pings and pongs are too many while one line is done.
pub const MAX_PINGS: u32 = 100_000;

// A message of the server, which a line reads.
#[derive(Drop)]
pub(crate) enum ServerFrame {
    Text(Utf8Bytes),
    Binary,
}

impl ServerFrame {
    // How many bytes of it are kept.
    pub(crate) fn len(&self) -> usize
        ensures { result ≡ byte_count self.now }
    {
        match self {
            ServerFrame::Text(words) => words.len(),
            ServerFrame::Binary => 0,
        }
    }
}

// What came of a server.
#[derive(Drop)]
pub(crate) enum ServerEvent {
    Told(ServerFrame),
    // The connection has ended or failed.
    Ended(Lost),
}

// What was heard of a socket says; none for a ping or a pong.
fn told_by(heard: Heard) -> Option<ServerEvent>
    ensures { result ≡ told_of heard }
{
    match heard {
        Heard::Text(words) => Some(ServerEvent::Told(ServerFrame::Text(words))),
        Heard::Binary => Some(ServerEvent::Told(ServerFrame::Binary)),
        Heard::Sign => None,
        Heard::Nothing => Some(ServerEvent::Ended(Lost::Socket(SocketLost::Silent))),
        Heard::Ended(why) => Some(ServerEvent::Ended(Lost::Socket(why))),
    }
}

// The next message of the server. Pings and pongs are passed over, so many of them: with the last the
// connection has failed.
pub(crate) fn hear<W: Awaited>(wire: &mut W, pings: &mut u32) -> Result<ServerEvent, AllocError>
    ensures { IfOk result (λ heard.
        HearsAfter W.hears pings.old wire.old heard pings.new wire.new) }
{
    'pings: while *pings > 0 {
        let given = wire.hear_next()?;
        if let Some(heard) = told_by(given) {
            return Ok(heard);
        }
        *pings -= 1;
    }
    Ok(ServerEvent::Ended(Lost::Pings))
}

// How the connection ended, where that was heard.
fn end_of(heard: Heard) -> Option<Lost>
    ensures { result ≡ end_of heard }
{
    match heard {
        Heard::Text(_) | Heard::Binary | Heard::Sign => None,
        Heard::Nothing => Some(Lost::Unclosed),
        Heard::Ended(why) => Some(Lost::Socket(why)),
    }
}

// Passes over what the server still sends, up to its close or the end of the stream, and answers how the
// connection ended.
fn pass_over<W: Awaited>(wire: &mut W) -> Result<Lost, AllocError>
    ensures { IfOk result (λ why. PassesOver W.ends MAX_MESSAGE_BYTES wire.old why wire.new) }
{
    // A message has more than a byte: what may be read ends this loop before the number does.
    for _ in 0..MAX_MESSAGE_BYTES {
        let given = wire.hear_last()?;
        if let Some(why) = end_of(given) {
            return Ok(why);
        }
    }
    Ok(Lost::Kept)
}

// Says that the client goes, and passes over what the server still sends: a server that was left while it
// sent would lose what it had not read. Answers how the connection ended.
pub(crate) fn leave<W: Awaited>(wire: &mut W) -> Result<Lost, AllocError>
    ensures { IfOk result (λ why.
        Ends W.leaves W.ends MAX_MESSAGE_BYTES wire.old why wire.new) }
{
    match wire.leave()? {
        Some(why) => Ok(Lost::Socket(why)),
        None => pass_over(wire),
    }
}

// ---- a client's handshake

// A client's socket over a stream whose bytes are counted.
pub(crate) type ClientSocket<S, N> = Socket<Counted<S>, RandomKeys<N>>;

// What comes of a handshake.
type Shaken<S, N> = Result<
    (WebSocket<Counted<S>, RandomKeys<N>>, ClientResponse),
    ClientError<Counted<S>, RandomKeys<N>>,
>;

// Goes on with a handshake for which a tick has passed, up to as many as it may take.
fn shake_on<S: Read + Write + Drop, N: RandomSource + Drop>(begun: Shaken<S, N>) -> Shaken<S, N>
    requires { IfOk begun (λ f. (key : List ℕ) × Connected key f.0) }
    ensures { IfOk result (λ f. (key : List ℕ) × Connected key f.0) }
{
    let mut shaken = begun;
    for _ in 1..HANDSHAKE_TICKS {
        shaken = match shaken {
            Err(HandshakeError::Interrupted(mid)) => mid.handshake(),
            done @ (Ok(_) | Err(HandshakeError::Failure(_))) => return done,
        };
    }
    shaken
}

// Why a handshake does not come about; want of memory ends a run.
fn unopened(why: Error) -> Result<Lost, AllocError>
    ensures why { result ≡ unopened why }
    ensures end { IfOk result (λ lost. is_end lost ≡ false) }
{
    match fault_of(why) {
        SocketFault::OutOfMemory => Err(AllocError),
        why => Ok(Lost::Socket(SocketLost::NoHandshake(why))),
    }
}

// The socket of a handshake that has ended, or why it does not come about.
fn socket_of<S: Read + Write + Drop, N: RandomSource + Drop>(
    alloc: Global,
    shaken: Shaken<S, N>,
) -> Result<Result<ClientSocket<S, N>, Lost>, AllocError>
    requires { IfOk shaken (λ f. (key : List ℕ) × Connected key f.0) }
    ensures opened { IfOk result (λ opened. IfOk opened (λ s. IsOpened MAX_MESSAGE_BYTES s.socket)) }
    ensures why { IfOk result (λ opened. IfErr opened (λ why. is_end why ≡ false)) }
{
    match shaken {
        Ok((mut socket, response)) => {
            drop(response);
            socket.set_config(limits(MAX_MESSAGE_BYTES));
            Ok(Ok(Socket::new(alloc, socket)))
        }
        Err(HandshakeError::Failure(why)) => Ok(Err(unopened(why)?)),
        Err(HandshakeError::Interrupted(handshake)) => {
            drop(handshake);
            Ok(Err(Lost::Socket(SocketLost::Late)))
        }
    }
}

// The socket of a stream, or why the handshake does not come about: it names this address, as
// `ws://127.0.0.1/`; the stream is connected already. At most MAX_MESSAGE_BYTES are read for one message, which
// may be as long.
pub(crate) fn opened<S: Read + Write + Drop, N: RandomSource + Drop>(
    alloc: Global,
    random: N,
    address: &str,
    stream: S,
) -> Result<Result<ClientSocket<S, N>, Lost>, AllocError>
    ensures opened { IfOk result (λ opened. IfOk opened (λ s. IsOpened MAX_MESSAGE_BYTES s.socket)) }
    ensures why { IfOk result (λ opened. IfErr opened (λ why. is_end why ≡ false)) }
{
    // Whoever calls has an address, so that only memory can lack.
    let request = match request_of(alloc, address) {
        Ok(request) => request,
        Err(why) => {
            drop(why);
            return Err(AllocError);
        }
    };
    let stream = Counted::new(stream, MAX_MESSAGE_BYTES);
    socket_of(
        alloc,
        shake_on(tungstenite::client(alloc, random, request, stream)),
    )
}

// ---- why a connection does not come about, or ends

/// Why a connection does not come about, or has ended.
pub(crate) enum Lost {
    /// As its socket says.
    Socket(SocketLost),
    /// Too many pings and pongs.
    Pings,
    /// Too much that no line has asked for.
    Kept,
    /// The client closed it, and the server did not.
    Unclosed,
}

impl Drop for Lost {
    fn drop(self) {
        match self {
            Lost::Socket(_) | Lost::Pings | Lost::Kept | Lost::Unclosed => {}
        }
    }
}

impl Lost {
    // Whether the server did not close it.
    pub(crate) fn is_unclosed(&self) -> bool
        ensures { result ≡ is_unclosed self.now }
    {
        match self {
            Lost::Unclosed => true,
            Lost::Socket(_) | Lost::Pings | Lost::Kept => false,
        }
    }
}

impl fmt::Display for Lost {
    fn fmt<W: fmt::Write>(&self, f: &mut fmt::Formatter<W>) -> fmt::Result {
        match self {
            Lost::Socket(why) => write!(f, "{why}"),
            Lost::Pings => write!(
                f,
                "{MAX_PINGS} pings and pongs came while one line was done"
            ),
            Lost::Kept => {
                write!(
                    f,
                    "messages of more than {MAX_KEPT_BYTES} bytes came that no line has read"
                )
            }
            Lost::Unclosed => {
                write!(
                    f,
                    "the server did not close the connection, and said nothing for {TICK_MS} ms"
                )
            }
        }
    }
}

// ---- what a run tells of itself beside its output

// Tells why a connection does not come about, or has ended.
pub(crate) fn say_lost<L: Log>(alloc: Global, why: &Lost, log: &mut L) -> Result<(), AllocError>
    ensures on { L.is_on log.new ≡ L.is_on log.old }
    ensures off { L.is_on log.old ≡ false → log.new ≡ log.old }
{
    if !log.is_on() {
        return Ok(());
    }
    let line = format!(in alloc; "{why}")?;
    log.tell(&line);
    Ok(())
}
