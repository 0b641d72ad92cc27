// What a turn of a connection reads, and what it sends.
ghost use Rattle.std.specs.Prelude.{◌≡◌, ◌++◌, List, IfOk, IfErr, OnOk, ◌⊎◌, false, Some};
ghost use Rattle.std.specs.Sync.Mutex.{mutex_guard_value};
ghost use Rattle.std.specs.Str.{IsUtf8};
ghost use Rattle.rt_link.specs.Turning.{is_there_more, paced};
ghost use Rattle.rt_link.specs.declared.turn.Passed.{Passed};
ghost use Rattle.rt_link.specs.inside.Rounds.{held_up, AnswersTurn, HearsTurn, RefusesAnswer, RefusesNext};
ghost use Rattle.rt_link.specs.inside.Rounds.{RefusesTurn, SaysAll, SaysNext, SaysRound, SaysTurn};
ghost use Rattle.rt_client.specs.Calls.{HasFailed};
ghost use Rattle.rt_client.specs.declared.error.ClientError.TheVariants.{Failed, NoMemory};
ghost use Rattle.rt_link.specs.Taking.{FailsAt, TakesAll, TakesBatch, TakesOne, noted};
ghost use Rattle.rt_push.specs.Digits.{number};
ghost use Rattle.rt_push.specs.PushIds.{push_id, used};
ghost use Rattle.rt_link.specs.Pushing.{IsPushKey, IsPushed, IsUnpushed, is_client_fault};

use crate::error::LinkFault;
use crate::linked::Linked;
use rt_client::{Client, ClientError, Seat, Shared};
use rt_push::PushError;
use rt_socket::{Batch, Flushed, Lost, Pause, Wire, hear_all, say_all};
use rt_tree::{Key, Path, Tree, TreeError};
use rt_wire::{ClientMessage, ServerMessage, WireError};
use rt_world::CoreError;
use std::alloc::{AllocError, Global};
use std::random::RandomSource;
use std::sync::{MutexGuard, Wait};
use std::time::{Clock, SystemTime, UNIX_EPOCH};
use std::{fmt, str};
use thiserror::Error;

// How many messages are read, or taken out of the client, in one go.
pub(crate) const BATCH: usize = 64;

// How often messages are taken out of the client in one turn.
const ROUNDS: usize = 16;

// What became of what a client has to send.
#[derive(Drop)]
pub(crate) enum SentOff {
    // All of it is on its way, or the wire blocks.
    Done,
    // There may be more.
    More,
    // The wire takes nothing any more.
    Lost(Lost),
}

// Why no more is read now of a stream of which so many bytes may still be read: where there are none left
// it is not known that nothing more is there.
pub(crate) fn paced(pause: Pause, left: usize) -> Pause
    ensures { result ≡ paced left pause }
{
    match pause {
        Pause::Idle if left == 0 => Pause::More,
        Pause::Idle => Pause::Idle,
        Pause::More => Pause::More,
        Pause::Ended(why) => Pause::Ended(why),
    }
}

// The same, where more is to be read: it is not waited for anything then.
fn is_there_more(sent: SentOff) -> SentOff
    ensures { result ≡ is_there_more sent }
{
    match sent {
        SentOff::Done | SentOff::More => SentOff::More,
        SentOff::Lost(why) => SentOff::Lost(why),
    }
}

// Gives what the wire has to the client, and wakes whoever waits. Answers why no more is read now.
#[tactic(auto, using(crate::proofs::Rounds::all_heard))]
pub(crate) fn hear_turn<R: Wait, W: Wire>(
    rt: &R,
    alloc: Global,
    client: &Client,
    wire: &mut W,
    passed: &mut Vec<Passed>,
) -> Result<Pause, LinkFault>
    ensures heard { IfOk result (λ pause. HearsTurn pause (W.said wire.new)
        (W.remaining wire.old) (W.remaining wire.new) passed.old.items passed.new.items) }
    ensures noted { OnOk result ((more : List Passed)
        × (passed.new.items ≡ passed.old.items ++ more)) }
    ensures refused { IfErr result (λ e. RefusesTurn e) }
    ensures contents { W.contents wire.new ≡ W.contents wire.old }
{
    let Batch { messages, pause } = hear_all(alloc, wire, BATCH)?;
    if !messages.is_empty() {
        let mut shared = client.shared.lock(rt);
        let taken = take_all(&mut shared, messages, passed);
        client.notify(shared);
        taken?;
    }
    Ok(pause)
}

// What is left to be done for a wire, by what became of what it has taken; none where it can be given more.
fn held_up(flushed: Flushed) -> Option<SentOff>
    ensures { result ≡ held_up flushed }
{
    match flushed {
        Flushed::Done => None,
        Flushed::Blocked => Some(SentOff::Done),
        Flushed::Failed(why) => Some(SentOff::Lost(why)),
    }
}

// Gives messages to the wire.
fn say_batch<W: Wire>(
    alloc: Global,
    messages: Vec<ClientMessage>,
    wire: &mut W,
) -> Result<SentOff, AllocError>
    ensures said { IfOk result (λ sent.
        SaysAll messages.items sent (W.contents wire.old) (W.contents wire.new)) }
    ensures remaining { W.remaining wire.new ≡ W.remaining wire.old }
{
    if messages.is_empty() {
        return Ok(SentOff::Done);
    }
    let said = say_all(alloc, wire, messages.as_slice());
    drop(messages);
    match said? {
        Some(why) => Ok(SentOff::Lost(why)),
        None => Ok(SentOff::More),
    }
}

// Takes the next messages out of the locked client, lets it go, and gives them to the wire.
#[tactic(auto, using(crate::proofs::Rounds::all_next))]
fn say_next<W: Wire>(
    alloc: Global,
    shared: MutexGuard<'_, Shared>,
    wire: &mut W,
) -> Result<SentOff, LinkFault>
    ensures said { IfOk result (λ sent. SaysNext
        (mutex_guard_value shared.entry) sent (W.contents wire.old) (W.contents wire.new)) }
    ensures refused { IfErr result (λ e. RefusesNext (mutex_guard_value shared.entry) e) }
    ensures remaining { W.remaining wire.new ≡ W.remaining wire.old }
{
    let mut shared = shared;
    let messages = take_batch(alloc, &mut shared, BATCH);
    drop(shared);
    Ok(say_batch(alloc, messages?, wire)?)
}

// Gives the wire the next messages that the client has to send, where all that it has taken is on its way.
#[tactic(auto, using(crate::proofs::Rounds::all_round))]
fn say_round<R: Wait, W: Wire>(
    rt: &R,
    alloc: Global,
    client: &Client,
    wire: &mut W,
) -> Result<SentOff, LinkFault>
    ensures said { IfOk result (λ sent. SaysRound sent (W.contents wire.old) (W.contents wire.new)) }
    ensures refused { IfErr result (λ e. RefusesTurn e) }
    ensures remaining { W.remaining wire.new ≡ W.remaining wire.old }
{
    match held_up(wire.flush()) {
        Some(sent) => Ok(sent),
        None => say_next(alloc, client.shared.lock(rt), wire),
    }
}

// Sends what the client has to send, as far as the wire takes it.
#[tactic(auto, using(crate::proofs::Rounds::all_turn))]
fn say_turn<R: Wait, W: Wire>(
    rt: &R,
    alloc: Global,
    client: &Client,
    wire: &mut W,
) -> Result<SentOff, LinkFault>
    ensures said { IfOk result (λ sent. SaysTurn sent (W.contents wire.old) (W.contents wire.new)) }
    ensures refused { IfErr result (λ e. RefusesTurn e) }
    ensures remaining { W.remaining wire.new ≡ W.remaining wire.old }
{
    for _ in 0..ROUNDS {
        match say_round(rt, alloc, client, wire)? {
            SentOff::More => {}
            SentOff::Done => return Ok(SentOff::Done),
            SentOff::Lost(why) => return Ok(SentOff::Lost(why)),
        }
    }
    Ok(SentOff::More)
}

// Sends what the client has to send, where the wire still gives something, and answers whether there may be
// more of either.
#[tactic(auto, using(crate::proofs::Rounds::more_answered))]
pub(crate) fn answer_turn<R: Wait, W: Wire>(
    rt: &R,
    alloc: Global,
    client: &Client,
    wire: &mut W,
    pause: Pause,
) -> Result<SentOff, LinkFault>
    ensures said { IfOk result (λ sent.
        AnswersTurn pause sent (W.contents wire.old) (W.contents wire.new)) }
    ensures refused { IfErr result (λ e. RefusesAnswer pause e) }
    ensures remaining { W.remaining wire.new ≡ W.remaining wire.old }
{
    match pause {
        Pause::Ended(why) => Ok(SentOff::Lost(why)),
        Pause::Idle => say_turn(rt, alloc, client, wire),
        Pause::More => Ok(is_there_more(say_turn(rt, alloc, client, wire)?)),
    }
}

// ---- what the server sent is given to a client's locked value, and what it has to send is taken
// out

/// Why a message of the server was passed over. It changed nothing.
#[derive(Clone, Copy, Debug, PartialEq, Eq)]
pub enum Passed {
    /// It can't be read.
    Wire(WireError),
    /// The core refuses it.
    Core(CoreError),
}

// Gives a message to the client, and answers why it is passed over, if it is.
fn take_one(
    shared: &mut Shared,
    read: Result<ServerMessage, WireError>,
) -> Result<Option<Passed>, ClientError>
    ensures taken { IfOk result (λ passed. TakesOne read shared.old passed shared.new) }
    ensures failed { IfErr result (λ e. FailsAt read shared.old e shared.new) }
{
    let message = match read {
        Ok(message) => message,
        Err(why) => return Ok(Some(Passed::Wire(why))),
    };
    match shared.server_message(message) {
        Ok(_outcome) => Ok(None),
        Err(ClientError::Core(why)) => Ok(Some(Passed::Core(why))),
        Err(
            why @ (ClientError::Failed
            | ClientError::WrongSeat
            | ClientError::MailboxFull
            | ClientError::TooManySeats
            | ClientError::NoMemory),
        ) => Err(why),
    }
}

// Notes why a message was passed over, if it was.
fn note(passed: &mut Vec<Passed>, one: Option<Passed>) -> Result<(), AllocError>
    ensures { OnOk result (passed.new.items ≡ passed.old.items ++ noted one) }
{
    if let Some(why) = one {
        passed.push(why)?;
    }
    Ok(())
}

/// Gives messages of the server to a client, in order, and notes which were passed over.
///
/// # Errors
///
/// At a message: Failed, and NoMemory, after which the client has failed. NoMemory also where there is
/// none for the note.
pub fn take_all(
    shared: &mut Shared,
    messages: Vec<Result<ServerMessage, WireError>>,
    passed: &mut Vec<Passed>,
) -> Result<(), ClientError>
    ensures taken { OnOk result ((new : List Passed)
        × TakesAll messages.items shared.old new shared.new
        × (passed.new.items ≡ passed.old.items ++ new)) }
    ensures failed { IfErr result (λ e. ((e ≡ Failed) × HasFailed shared.old) ⊎ (e ≡ NoMemory)) }
{
    for read in messages {
        let one = take_one(shared, read)?;
        note(passed, one)?;
    }
    Ok(())
}

/// Takes out the first messages that a client has to send, at most so many.
///
/// # Errors
///
/// Failed, and NoMemory, after which the client goes on without those that were taken out.
pub fn take_batch(
    alloc: Global,
    shared: &mut Shared,
    most: usize,
) -> Result<Vec<ClientMessage>, ClientError>
    ensures taken { IfOk result (λ messages.
        TakesBatch most shared.old messages.items shared.new) }
    ensures failed { IfErr result (λ e. ((e ≡ Failed) × HasFailed shared.old) ⊎ (e ≡ NoMemory)) }
{
    let mut messages = Vec::new(alloc);
    for _ in 0..most {
        let Some(message) = shared.take_outgoing()? else {
            return Ok(messages);
        };
        if messages.push(message).is_err() {
            return Err(ClientError::NoMemory);
        }
    }
    Ok(messages)
}

// ---- a write by a push id

/// A write by a push id.
#[derive(Drop)]
pub struct Pushed {
    /// The push id, which is above those that this client gave before.
    pub key: Key,
    /// The number of the request.
    pub request: u64,
}

/// Why nothing was pushed. Nothing was written then.
#[derive(Clone, Copy, Error)]
pub enum Unpushed {
    /// The system's clock gives no time since 1970.
    #[error("the system's clock gives no time since 1970")]
    Clock,
    /// The system gives no random bytes.
    #[error("the system gives no random bytes")]
    Random,
    /// The push ids of the client are used up.
    #[error("{0}")]
    Ids(PushError),
    /// The path has no room for one more key, or memory lacks.
    #[error("{0}")]
    Path(TreeError),
    /// The client refuses the write.
    #[error("{0}")]
    Client(ClientError),
}

impl fmt::Debug for Unpushed {
    // In its words.
    fn fmt<W: fmt::Write>(&self, f: &mut fmt::Formatter<W>) -> fmt::Result {
        fmt::Display::fmt(self, f)
    }
}

// Twelve digits of 64 each.
fn digits<R: RandomSource>(rt: &R) -> Result<[u8; 12], Unpushed>
    ensures { IfErr result (λ e. e ≡ Unpushed.Random) }
{
    let mut random = [0u8; 12];
    match rt.fill_bytes(&mut random) {
        Ok(()) => Ok(random.map(|byte| byte % 64)),
        Err(_) => Err(Unpushed::Random),
    }
}

// The milliseconds since 1970.
fn now_ms<R: Clock>(rt: &R) -> Result<u64, Unpushed>
    ensures { IfErr result (λ e. e ≡ Unpushed.Clock) }
{
    let Ok(now) = SystemTime::now(rt) else {
        return Err(Unpushed::Clock);
    };
    let Ok(since) = now.duration_since(UNIX_EPOCH) else {
        return Err(Unpushed::Clock);
    };
    match u64::try_from(since.as_millis()) {
        Ok(now) => Ok(now),
        Err(_) => Err(Unpushed::Clock),
    }
}

// An id as a key.
fn key_of(alloc: Global, id: [u8; 20]) -> Result<Key, Unpushed>
    requires { IsUtf8 id }
    ensures key { IfOk result (λ key. key ≡ id) }
    ensures fault { IfErr result (λ why. is_client_fault why ≡ false) }
{
    let Ok(text) = str::from_utf8(&id) else {
        unreachable!();
    };
    match Key::parse(alloc, text) {
        Ok(key) => Ok(key),
        Err(why) => Err(Unpushed::Path(why)),
    }
}

// The next push id of a client, for that moment and those digits, as a key.
fn next_key(
    shared: &mut Shared,
    alloc: Global,
    now_ms: u64,
    random: [u8; 12],
) -> Result<Key, Unpushed>
    ensures key { IfOk result (λ key. key ≡ push_id (used shared.old.ids now_ms (number random))) }
    ensures used { OnOk result (shared.new ≡ record (shared.old) {
      ids = Some (used shared.old.ids now_ms (number random));
    }) }
    ensures fault { IfErr result (λ why. is_client_fault why ≡ false) }
{
    match shared.push_key(now_ms, random) {
        Ok(id) => key_of(alloc, id),
        Err(why) => Err(Unpushed::Ids(why)),
    }
}

impl Linked {
    /// The client's next push id as a key, by the system's clock and its randomness: it is above those that
    /// this client gave before, so what is written by such keys stands in the order of their making.
    ///
    /// # Errors
    ///
    /// The clock, the randomness or the push ids refuse, or memory lacks.
    pub fn push_key<R: Wait + Clock + RandomSource>(
        &self,
        rt: &R,
        alloc: Global,
    ) -> Result<Key, Unpushed>
        ensures key { IfOk result IsPushKey }
        ensures fault { IfErr result (λ why. is_client_fault why ≡ false) }
    {
        let (now_ms, random) = (now_ms(rt)?, digits(rt)?);
        let mut shared = self.client.shared.lock(rt);
        next_key(&mut shared, alloc, now_ms, random)
    }

    /// Writes a tree below the path by a push id. Answers the id as a key, and the number of the request.
    ///
    /// # Errors
    ///
    /// The clock, the randomness or the push ids refuse, the path has 32 keys already, or the client refuses
    /// the write as at [`Linked::ask`].
    pub fn push<R: Wait + Clock + RandomSource>(
        &self,
        rt: &R,
        alloc: Global,
        seat: &mut Seat,
        path: &Path,
        tree: Tree,
    ) -> Result<Pushed, Unpushed>
        ensures pushed { IfOk result (λ pushed. IsPushed seat.old path.now tree pushed seat.new) }
        ensures refused { IfErr result (λ why. IsUnpushed seat.old path.now tree why seat.new) }
    {
        let key = self.push_key(rt, alloc)?;
        let path = match path.child(&key) {
            Ok(path) => path,
            Err(why) => return Err(Unpushed::Path(why)),
        };
        let answer = self.client.set(rt, seat, path, tree);
        self.ring();
        match answer {
            Ok(request) => Ok(Pushed { key, request }),
            Err(why) => Err(Unpushed::Client(why)),
        }
    }
}
