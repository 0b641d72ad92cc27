// What a request by plain HTTP is answered.
ghost use Rattle.std.specs.Prelude.{◌≡◌, ◌⊎◌, ◌++◌, map, string_bytes, Ok, Err, IfOk, IfErr, OnOk, ◌≤◌, []};
ghost use Rattle.std.specs.Prelude.{ℕ, length, IfSome, take};
ghost use Rattle.std.specs.Option.{option_copied, option_map};
ghost use Rattle.std.specs.Io.{ReadsAtMost};
ghost use Rattle.rt_http.specs.Messages.{message_of};
ghost use Rattle.rt_emulate.specs.Asked.{wished};
ghost use Rattle.rt_emulate.specs.inside.Asking.{Answers, AsksHub, Exchanges, IsNoted, IsPrepared};
ghost use Rattle.rt_emulate.specs.inside.Asking.{IsQuestion, IsReply, IsShown, lets_in, noted_as, page_of};
ghost use Rattle.rt_emulate.specs.inside.Asking.{reply_bytes, reply_to, text_in};
ghost use Rattle.rt_hub.specs.Hubs.{count_of, waits_in};
ghost use Rattle.rt_emulate.specs.inside.Crowds.{Counts, IsCrowder, is_too_much};
ghost use Rattle.rt_emulate.specs.inside.Replays.{ReadsRun, first_run, fits};

use crate::edge::Keys;
use crate::keeper::Keeper;
use crate::page::judge;
use crate::settings::Halt;
use mio::net::TcpStream;
use rt_http::{
    Ask, Asked, Fault, HEALTHY, Request, Status, Wanted, error_text, laid_out, put_answer,
    read_ask, reply_of,
};
use rt_hub::{Hub, MAX_WAITING_IN_ALL, Taken, Verdict, leave};
use rt_tree::Key;
use rt_wire::{ServerMessage, WireError};
use std::alloc::{AllocError, Global};
use std::io::{self, Read, Write};
use std::marker::Model;
use std::str;

/// What a request is answered: a text, or why it isn't done.
pub(crate) type Reply = Result<String, Fault>;

/// What the hub is asked for a request, and how the request is answered then.
pub(crate) struct Question {
    wanted: Wanted,
    text: String,
    key: Key,
}

impl Drop for Question {
    fn drop(self) {
        let Question {
            wanted: _,
            text: _,
            key: _,
        } = self;
    }
}

/// What the hub is asked for a request, where it is asked, and whether the answer is laid out; or why it
/// isn't done.
pub(crate) type Prepared = Result<(Option<Question>, bool), Fault>;

// What the hub is asked, where a new key is this one; none where it isn't asked.
fn question_of(alloc: Global, ask: Ask, key: Key) -> Result<Option<Question>, Fault>
    ensures asked { IfOk result (IsQuestion ask key) }
    ensures fault { IfErr result (λ e. (message_of ask key ≡ Err e) ⊎ (e ≡ Fault.NoMemory)) }
{
    let Some(wanted) = ask.wanted() else {
        return Ok(None);
    };
    match ask.message(&key)? {
        Some(message) => {
            let text = message.text(alloc)?;
            Ok(Some(Question { wanted, text, key }))
        }
        None => Ok(None),
    }
}

// Notes a request of the connection, where it was accepted.
fn note_verdict(
    keeper: &mut Keeper,
    connection: u64,
    verdict: Verdict,
    text: &str,
) -> Result<(), Halt>
    ensures { OnOk result (keeper.new.journal
        ≡ noted_as connection verdict text.now keeper.old.journal) }
{
    match verdict {
        Verdict::Accepted(when) => keeper.note_one(connection, when, text),
        Verdict::Refused | Verdict::NoRequest => Ok(()),
    }
}

// Notes what came of a text of the connection.
fn note(
    keeper: &mut Keeper,
    told: &mut Vec<u64>,
    connection: u64,
    taken: Taken,
    text: &str,
) -> Result<(), Halt>
    ensures { OnOk result (IsNoted connection taken text.now keeper.old.journal told.old.items
        keeper.new.journal told.new.items) }
{
    match taken {
        Taken::Message(verdict, receivers) => {
            told.extend_from_slice(receivers.as_slice())?;
            note_verdict(keeper, connection, verdict, text)
        }
        Taken::PassedOver(_) => Ok(()),
    }
}

// Asks the hub by a connection that begins and ends with it, and answers what this one is sent. Notes what
// was accepted, and to whom something is sent.
fn ask_hub(
    hub: &mut Hub,
    keeper: &mut Keeper,
    told: &mut Vec<u64>,
    text: &str,
) -> Result<Option<String>, Halt>
    ensures { IfOk result (λ sent. AsksHub text.now sent hub.old hub.new keeper.old.journal
        keeper.new.journal told.old.items told.new.items) }
{
    let connection = hub.connect()?;
    let taken = hub.take(connection, text)?;
    note(keeper, told, connection, taken, text)?;
    let sent = hub.next(connection);
    let _was_last = leave(hub, connection, told)?;
    Ok(sent)
}

// What is answered once the hub has sent that.
fn reply_to(alloc: Global, asked: &Question, body: &str, sent: Option<String>) -> Reply
    ensures { IsReply (reply_to asked.now body.now (option_map string_bytes sent)) result }
{
    let Some(text) = sent else {
        return Err(Fault::NoAnswer);
    };
    match ServerMessage::read(alloc, text.as_str()) {
        Ok(message) => reply_of(alloc, asked.wanted, body, asked.key.text(), &message),
        Err(WireError::NoMemory) => Err(Fault::NoMemory),
        Err(WireError::BadTree) => Err(Fault::TooLarge),
        Err(WireError::NotJson | WireError::UnknownKind | WireError::BadField) => {
            Err(Fault::NoAnswer)
        }
    }
}

// A body as a text; none of what is no text.
#[tactic(auto, using(crate::proofs::Texts::is_text, crate::proofs::Texts::is_no_text))]
fn text_in(body: &[u8]) -> &str
    ensures { result.now ≡ text_in body.now }
{
    match str::from_utf8(body) {
        Ok(text) => text,
        Err(_) => "",
    }
}

// Asks the hub for a request with that body, and answers what this one is answered.
fn exchange(
    alloc: Global,
    hub: &mut Hub,
    keeper: &mut Keeper,
    told: &mut Vec<u64>,
    asked: &Question,
    body: &[u8],
) -> Result<Reply, Halt>
    ensures { IfOk result (λ reply. Exchanges asked.now body.now reply hub.old hub.new
        keeper.old.journal keeper.new.journal told.old.items told.new.items) }
{
    let sent = ask_hub(hub, keeper, told, asked.text.as_str())?;
    // A body that is read for a tree is a text.
    let body = text_in(body);
    Ok(reply_to(alloc, asked, body, sent))
}

// An answer, laid out for a reader where that is asked for.
fn shown(alloc: Global, reply: Reply, is_pretty: bool) -> Reply
    ensures { IsShown is_pretty reply result }
{
    match reply {
        Ok(text) => {
            if is_pretty {
                laid_out(alloc, text.as_str())
            } else {
                Ok(text)
            }
        }
        Err(fault) => Err(fault),
    }
}

/// What a request that came to `here` asks for, with that body, where it is let in.
pub(crate) fn wished(
    alloc: Global,
    here: &str,
    allowed: &[String],
    request: &Request,
    body: &[u8],
) -> Result<Asked, Fault>
    ensures ok { IfOk result (λ asked.
        wished here.now (map string_bytes allowed.now) request.now body.now ≡ Ok asked) }
    ensures fault { IfErr result (λ e.
        (wished here.now (map string_bytes allowed.now) request.now body.now ≡ Err e)
        ⊎ (e ≡ Fault.NoMemory)) }
{
    judge(alloc, here, allowed, request.host(), request.origin())?;
    read_ask(alloc, request, body)
}

/// What the hub is asked for it, where a new key is the next one, and whether the answer is laid out.
pub(crate) fn prepare(
    alloc: Global,
    asked: Result<Asked, Fault>,
    keys: &mut Keys,
    now: u64,
) -> Prepared
    ensures prepared { IfOk result (λ p. IsPrepared asked keys.old now p keys.new) }
    ensures refused { IfErr asked (λ e. result ≡ Err e) }
{
    let Asked { ask, is_pretty } = asked?;
    let key = keys.next(alloc, now)?;
    let question = question_of(alloc, ask, key)?;
    Ok((question, is_pretty))
}

/// What a request is answered that asks for this, with that body: it is one call of the hub.
pub(crate) fn answer_to(
    alloc: Global,
    hub: &mut Hub,
    keeper: &mut Keeper,
    told: &mut Vec<u64>,
    prepared: Prepared,
    body: &[u8],
) -> Result<Reply, Halt>
    ensures { IfOk result (λ reply. Answers prepared body.now reply hub.old hub.new
        keeper.old.journal keeper.new.journal told.old.items told.new.items) }
{
    let (question, is_pretty) = match prepared {
        Ok(prepared) => prepared,
        Err(fault) => return Ok(Err(fault)),
    };
    match question {
        Some(asked) => {
            let reply = exchange(alloc, hub, keeper, told, &asked, body)?;
            Ok(shown(alloc, reply, is_pretty))
        }
        None => Ok(Ok(String::from_str(alloc, HEALTHY)?)),
    }
}

// Whether whoever is refused so is let in.
fn lets_in(fault: Fault) -> bool
    ensures { result ≡ lets_in fault }
{
    match fault {
        Fault::Host | Fault::Page => false,
        Fault::NotFound
        | Fault::Method
        | Fault::ReadOnly
        | Fault::FileTooLarge
        | Fault::Lacks(_)
        | Fault::PathNoText
        | Fault::Path(_)
        | Fault::UnknownWord
        | Fault::BadWord
        | Fault::NoOrder
        | Fault::Mixed
        | Fault::BodyNoText
        | Fault::Body(_)
        | Fault::NoObject
        | Fault::Denied
        | Fault::Overlap
        | Fault::TooLarge
        | Fault::NoAnswer
        | Fault::NoMemory => true,
    }
}

/// The origin whose pages may read an answer, where a page asks that is let in.
pub(crate) fn page_of<'a>(reply: &Reply, origin: Option<&'a [u8]>) -> Option<&'a [u8]>
    ensures { option_copied result ≡ page_of reply.now (option_copied origin.entry) }
{
    match reply {
        Ok(_) => origin,
        Err(fault) => { if lets_in(*fault) { origin } else { None } }
    }
}

/// Puts an answer behind the bytes: whether the connection goes on, bare where it is one of a head, and to a
/// page of that origin.
pub(crate) fn put_reply(
    alloc: Global,
    out: &mut Vec<u8>,
    is_kept: bool,
    is_bare: bool,
    page: Option<&[u8]>,
    reply: &Reply,
) -> Result<(), AllocError>
    ensures { OnOk result (out.new.items ≡ out.old.items
        ++ reply_bytes is_kept is_bare (option_copied page.entry) reply.now) }
{
    match reply {
        Ok(text) => put_answer(out, Status::Okay, is_kept, is_bare, page, text.as_str()),
        Err(fault) => {
            let text = error_text(alloc, *fault)?;
            put_answer(out, fault.status(), is_kept, is_bare, page, text.as_str())
        }
    }
}

// ---- what sockets have taken and not sent, and for whom the most waits

/// How many bytes sockets have taken and not sent, by the numbers of their connections, from 1.
pub(crate) struct OnWay {
    each: Vec<usize>,
    all: usize,
}

impl Drop for OnWay {
    fn drop(self) {
        let OnWay { each: _, all: _ } = self;
    }
}

impl Model for OnWay {
    ghost use Rattle.std.specs.Prelude.{◌≡◌, List, ℕ, sum};

    ghost Value = { List ℕ };

    ghost view = { λ w. w.each.items };

    ghost invariant = { λ w. w.all ≡ sum w.each.items };
}

impl OnWay {
    /// Nothing is on its way. Takes no memory.
    pub(crate) fn new(alloc: Global) -> OnWay
        ensures { result ≡ [] }
    {
        OnWay {
            each: Vec::new(alloc),
            all: 0,
        }
    }

    // There is a place for each connection up to that number.
    fn reach(&mut self, count: usize) -> Result<(), AllocError>
        ensures counts { OnOk result ((n : ℕ) → count_of self.new n ≡ count_of self.old n) }
        ensures reach { OnOk result (count ≤ length self.new) }
    {
        if self.each.len() < count {
            self.each.resize(count, 0)?;
        }
        Ok(())
    }

    /// From now on so many bytes are on their way to the connection.
    pub(crate) fn set(&mut self, connection: u64, bytes: usize) -> Result<(), AllocError>
        ensures { OnOk result (Counts connection bytes self.old self.new) }
    {
        if connection == 0 {
            return Ok(());
        }
        let index = (connection - 1) as usize;
        self.reach(index + 1)?;
        let others = self.all - self.each[index];
        let Some(all) = others.checked_add(bytes) else {
            return Err(AllocError);
        };
        self.all = all;
        self.each[index] = bytes;
        Ok(())
    }

    /// Whether more bytes wait for all connections than may: in the hub, or on their way.
    pub(crate) fn is_crowded(&self, hub: &Hub) -> bool
        ensures { result ≡ is_too_much (waits_in hub.now) self.now }
    {
        match hub.waits().checked_add(self.all) {
            Some(waits) => waits > MAX_WAITING_IN_ALL,
            None => true,
        }
    }

    /// The connection that is to be ended since more bytes wait for all than may: for no other more wait.
    #[tactic(auto, using(crate::proofs::CrowdLaws::crowds, crate::proofs::CrowdLaws::calm))]
    pub(crate) fn crowder(&self, hub: &Hub) -> Option<u64>
        ensures { IfSome hub.now (λ h. IsCrowder h self.now result) }
    {
        if self.is_crowded(hub) {
            Some(hub.slowest(self.each.as_slice()))
        } else {
            None
        }
    }
}

// ---- a stream whose first bytes were read before

/// A stream whose first bytes were read before: they are read again, those of a head first, and none behind
/// it together with it.
pub(crate) struct Replay {
    first: Vec<u8>,
    // How many of them have been read again.
    at: usize,
    // Where the head ends.
    end: usize,
    stream: TcpStream,
}

impl Drop for Replay {
    fn drop(self) {
        let Replay {
            first: _,
            at: _,
            end: _,
            stream: _,
        } = self;
    }
}

// Puts the front of the bytes at the front of the room, as far as there is room. Answers how many these are.
fn give(bytes: &[u8], room: &mut [u8]) -> usize
    ensures count { result ≡ fits bytes.now room.old }
    ensures given { take result room.new ≡ take result bytes.now }
    ensures room { length room.new ≡ length room.old }
{
    let count = bytes.len().min(room.len());
    room[..count].copy_from_slice(&bytes[..count]);
    count
}

impl Replay {
    /// The stream, of which these bytes were read before; so many of them are of a head.
    pub(crate) fn new(first: Vec<u8>, end: usize, stream: TcpStream) -> Replay
        ensures { result ≡ record { first = first; at = 0; end = end; stream = stream } }
    {
        Replay {
            first,
            at: 0,
            end,
            stream,
        }
    }

    // The bytes that are read again next, up to the end of the head or of all.
    fn run(&self) -> &[u8]
        ensures { result.now ≡ first_run self.now }
    {
        let end = if self.at < self.end {
            self.end.min(self.first.len())
        } else {
            self.first.len()
        };
        if self.at < end {
            &self.first[self.at..end]
        } else {
            &[]
        }
    }
}

impl Read for Replay {
    fn read(&mut self, buf: &mut [u8]) -> io::Result<usize>
        ensures bound { ReadsAtMost result buf.new }
        ensures first { ReadsRun (first_run self.old) buf.old result buf.new self.old self.new }
    {
        if self.run().is_empty() {
            return self.stream.read(buf);
        }
        let count = give(self.run(), buf);
        self.at += count;
        Ok(count)
    }
}

impl Write for Replay {
    fn write(&mut self, buf: &[u8]) -> io::Result<usize> {
        self.stream.write(buf)
    }

    fn flush(&mut self) -> io::Result<()> {
        self.stream.flush()
    }
}
