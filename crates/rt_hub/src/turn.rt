// A turn: what a connection has to say is taken.
ghost use Rattle.std.specs.Prelude.{◌≡◌, ◌⊎◌, ◌++◌, ◌∷◌, [], map, string_bytes, Some, IfOk, IfErr, IfSome};
ghost use Rattle.std.specs.Prelude.{OnOk};
ghost use Rattle.rt_wire.specs.Client.{client_message};
ghost use Rattle.rt_hub.specs.Bounded.{sent_bounded};
ghost use Rattle.rt_hub.specs.Hubs.{receivers, refused_as};
ghost use Rattle.rt_hub.specs.Refusing.{listed, refusal_of, text_answers};
ghost use Rattle.rt_hub.specs.Turns.{AreMade, Hears, HearsTurn, IsNext, IsTurn, accepted_as, next_count};
ghost use Rattle.rt_hub.specs.Turns.{request_of, text_accepted, text_call};
ghost use Rattle.rt_hub.specs.Handing.{Fewer, Hands, IsPassed, PassesFewer, handed_by};
ghost use Rattle.rt_hub.specs.declared.turn.TheConstants.{ROUNDS};

use crate::door::{Door, DoorRead, Flushed};
use crate::hub::{Accepted, Hub, Notes, Taken};
use crate::log;
use crate::refusal::{Verdict, When, refusal_of};
use rt_input::Log;
use rt_peer::PeerError;
use std::alloc::{AllocError, Global};

/// How a turn ended.
#[derive(Clone, Copy, Debug, PartialEq, Eq)]
pub enum Turn {
    /// Nothing more is there now.
    Idle,
    /// As many messages came as are taken in one turn; there may be more.
    More,
    /// Nothing more will come.
    Ended,
}

// Puts what a text is answered that is no message of a client behind what its connection is answered.
fn refuse(alloc: Global, text: &str, notes: &mut Notes) -> Result<(), PeerError>
    ensures told { OnOk result (notes.new.told ≡ notes.old.told) }
    ensures answered { OnOk result (map string_bytes notes.new.answers.items
        ≡ map string_bytes notes.old.answers.items ++ listed (refusal_of text.now)) }
    ensures accepted { OnOk result (notes.new.accepted ≡ notes.old.accepted) }
    ensures memory { IfErr result (λ e. e ≡ PeerError.NoMemory) }
{
    let Ok(refusal) = refusal_of(alloc, text) else {
        return Err(PeerError::NoMemory);
    };
    let Some(answer) = refusal else {
        return Ok(());
    };
    match notes.answers.push(answer) {
        Ok(()) => Ok(()),
        Err(_) => Err(PeerError::NoMemory),
    }
}

// Puts a request that is done then behind those that were accepted.
fn accept(alloc: Global, when: When, text: &str, all: &mut Vec<Accepted>) -> Result<(), AllocError>
    ensures { OnOk result (map request_of all.new.items
        ≡ map request_of all.old.items ++ (when, text.now) ∷ []) }
{
    let text = String::from_str(alloc, text)?;
    Ok(all.push(Accepted { when, text })?)
}

// Puts a text behind those of requests that were accepted, where it is one.
fn judge(
    alloc: Global,
    verdict: Verdict,
    text: &str,
    all: &mut Vec<Accepted>,
) -> Result<(), AllocError>
    ensures { OnOk result (map request_of all.new.items
        ≡ map request_of all.old.items ++ accepted_as verdict text.now) }
{
    match verdict {
        Verdict::Accepted(when) => accept(alloc, when, text, all),
        Verdict::Refused | Verdict::NoRequest => Ok(()),
    }
}

// Notes what came of a message: to whom something is sent for it, and its text, where it is a request that
// was accepted.
fn note(
    alloc: Global,
    verdict: Verdict,
    text: &str,
    receivers: &[u64],
    notes: &mut Notes,
) -> Result<(), PeerError>
    ensures told { OnOk result (notes.new.told.items ≡ notes.old.told.items ++ receivers.now) }
    ensures answered { OnOk result (notes.new.answers ≡ notes.old.answers) }
    ensures accepted { OnOk result (map request_of notes.new.accepted.items
        ≡ map request_of notes.old.accepted.items ++ accepted_as verdict text.now) }
    ensures memory { IfErr result (λ e. e ≡ PeerError.NoMemory) }
{
    let Ok(()) = notes.told.extend_from_slice(receivers) else {
        return Err(PeerError::NoMemory);
    };
    match judge(alloc, verdict, text, &mut notes.accepted) {
        Ok(()) => Ok(()),
        Err(_) => Err(PeerError::NoMemory),
    }
}

// Takes a text of the connection, and notes what came of it.
fn take_text<L: Log>(
    alloc: Global,
    hub: &mut Hub,
    connection: u64,
    text: &str,
    notes: &mut Notes,
    log: &mut L,
) -> Result<(), PeerError>
    ensures made { OnOk result
        (AreMade hub.old (text_call connection (client_message text.now)) hub.new) }
    ensures told { OnOk result (IfSome hub.old (λ h. notes.new.told.items ≡ notes.old.told.items
        ++ receivers (sent_bounded h.peer (text_call connection (client_message text.now))))) }
    ensures answered { OnOk result (map string_bytes notes.new.answers.items
        ≡ map string_bytes notes.old.answers.items ++ text_answers text.now (client_message text.now)) }
    ensures accepted { OnOk result (IfSome hub.old (λ h. map request_of notes.new.accepted.items
        ≡ map request_of notes.old.accepted.items
        ++ text_accepted connection h.peer text.now (client_message text.now))) }
    ensures fault { IfErr result (λ e. (refused_as hub.old connection ≡ Some e)
        ⊎ (e ≡ PeerError.NoMemory)) }
{
    let taken = hub.take(connection, text)?;
    match taken {
        Taken::Message(verdict, receivers) => {
            log::taken(alloc, log, connection, text);
            note(alloc, verdict, text, receivers.as_slice(), notes)
        }
        Taken::PassedOver(why) => {
            log::passed_over(alloc, log, connection, why, text);
            refuse(alloc, text, notes)
        }
    }
}

// Takes what the connection says next, if it says something, and notes what came of it. Answers how the
// turn ends, if it does.
fn take_next<D: Door, L: Log>(
    alloc: Global,
    hub: &mut Hub,
    door: &mut D,
    connection: u64,
    notes: &mut Notes,
    log: &mut L,
) -> Result<Option<Turn>, PeerError>
    ensures heard { IfOk result (λ end. Hears (next_count end) connection hub.old hub.new
        (D.remaining door.old) (D.remaining door.new) notes.old notes.new) }
    ensures said { IfOk result (λ end. IsNext end (D.said door.new)) }
    ensures contents { D.contents door.new ≡ D.contents door.old }
    ensures fault { IfErr result (λ e. (refused_as hub.old connection ≡ Some e)
        ⊎ (e ≡ PeerError.NoMemory)) }
{
    match door.hear() {
        Ok(DoorRead::Text) => {
            take_text(alloc, hub, connection, door.text(), notes, log)?;
            Ok(None)
        }
        Ok(DoorRead::Other) => Ok(None),
        Ok(DoorRead::Nothing) => Ok(Some(Turn::Idle)),
        Ok(DoorRead::Ended) => Ok(Some(Turn::Ended)),
        Err(_) => Err(PeerError::NoMemory),
    }
}

/// Takes what the connection has to say, at most so many messages, and notes what came of them, in order:
/// to whom something is sent, and which requests were accepted. A message that is no text of a client's
/// message is passed over. For a text whose `k` and `id` are those of a request the connection is to be
/// answered `no`, with a reason that says what is wrong with it and where: that is noted too.
///
/// # Errors
///
/// At a text: `Failed` where the hub has lacked memory before, and `UnknownConnection`. Else `NoMemory`.
pub fn take_turn<D: Door, L: Log>(
    alloc: Global,
    hub: &mut Hub,
    door: &mut D,
    connection: u64,
    most: usize,
    notes: &mut Notes,
    log: &mut L,
) -> Result<Turn, PeerError>
    ensures heard { IfOk result (λ turn. HearsTurn turn most connection hub.old hub.new
        (D.remaining door.old) (D.remaining door.new) notes.old notes.new) }
    ensures turn { IfOk result (λ turn. IsTurn turn (D.said door.new)) }
    ensures contents { D.contents door.new ≡ D.contents door.old }
{
    for _ in 0..most {
        if let Some(turn) = take_next(alloc, hub, door, connection, notes, log)? {
            return Ok(turn);
        }
    }
    Ok(Turn::More)
}

// ---- what waits for a connection is handed over

// How many bytes a door takes before it is flushed.
const BATCH_BYTES: usize = 65_536;

// How many texts a door takes before it is flushed.
const BATCH_TEXTS: usize = 1_024;

/// How often a door is flushed in one go.
pub const ROUNDS: usize = 64;

/// How far a door took what waits.
#[derive(Clone, Copy, Debug, PartialEq, Eq)]
pub enum Handed {
    /// Nothing waits any more, and all is on its way.
    Drained,
    /// The door blocks.
    Blocked,
    /// As much was handed over as is in one go, [`ROUNDS`] texts at least; more may wait.
    More,
    /// The door takes nothing any more.
    Failed,
}

// What became of texts that wait.
enum Passed {
    // None waits any more.
    Nothing,
    // The door took some, and how many bytes they have; more may wait.
    Texts(usize),
    // The door takes nothing any more.
    Failed,
}

// Hands over the oldest text that waits for the connection, if one does.
fn hand_one<D: Door>(hub: &mut Hub, door: &mut D, connection: u64) -> Result<Passed, AllocError>
    ensures passed { IfOk result (λ passed. IsPassed passed connection
        (D.contents door.old) (D.contents door.new) hub.old hub.new) }
    ensures fewer { IfOk result (λ passed. PassesFewer passed connection hub.old hub.new) }
    ensures remaining { D.remaining door.new ≡ D.remaining door.old }
{
    let Some(text) = hub.next(connection) else {
        return Ok(Passed::Nothing);
    };
    if door.put(text.as_str())? {
        Ok(Passed::Texts(text.len()))
    } else {
        Ok(Passed::Failed)
    }
}

// Hands over what waits for the connection, until that is enough for one flush.
fn hand_batch<D: Door>(hub: &mut Hub, door: &mut D, connection: u64) -> Result<Passed, AllocError>
    ensures passed { IfOk result (λ passed. IsPassed passed connection
        (D.contents door.old) (D.contents door.new) hub.old hub.new) }
    ensures fewer { IfOk result (λ passed. PassesFewer passed connection hub.old hub.new) }
    ensures remaining { D.remaining door.new ≡ D.remaining door.old }
{
    let mut bytes = 0usize;
    for _ in 0..BATCH_TEXTS {
        if bytes >= BATCH_BYTES {
            return Ok(Passed::Texts(bytes));
        }
        match hand_one(hub, door, connection)? {
            Passed::Texts(len) => bytes = bytes.saturating_add(len),
            Passed::Nothing => return Ok(Passed::Nothing),
            Passed::Failed => return Ok(Passed::Failed),
        }
    }
    Ok(Passed::Texts(bytes))
}

// How far it went, where nothing waits any more: the door may not have sent it on its way.
fn drained<D: Door>(door: &mut D) -> Handed
    ensures handed { result ≡ handed_by (D.flushed door.new) }
    ensures contents { D.contents door.new ≡ D.contents door.old }
    ensures remaining { D.remaining door.new ≡ D.remaining door.old }
{
    match door.flush() {
        Flushed::Done => Handed::Drained,
        Flushed::Blocked => Handed::Blocked,
        Flushed::Failed => Handed::Failed,
    }
}

// Hands over what waits for the connection, as much as for one flush, where the door has sent on its way
// what it took before.
fn hand_round<D: Door>(hub: &mut Hub, door: &mut D, connection: u64) -> Result<Handed, AllocError>
    ensures handed { IfOk result (λ handed. Hands handed connection (D.contents door.old)
        (D.contents door.new) (D.flushed door.new) hub.old hub.new) }
    ensures fewer { IfOk result (λ handed. handed ≡ Handed.More
        → Fewer 1 connection hub.old hub.new) }
    ensures remaining { D.remaining door.new ≡ D.remaining door.old }
{
    match door.flush() {
        Flushed::Done => {}
        Flushed::Blocked => return Ok(Handed::Blocked),
        Flushed::Failed => return Ok(Handed::Failed),
    }
    match hand_batch(hub, door, connection)? {
        Passed::Nothing => Ok(drained(door)),
        Passed::Texts(_) => Ok(Handed::More),
        Passed::Failed => Ok(Handed::Failed),
    }
}

/// Hands over what waits for the connection, oldest first, until nothing waits, the door blocks or fails,
/// or it was much. The door is given a text only where it has sent on its way what it took before, but for
/// some 64 KiB.
///
/// # Errors
///
/// Where memory lacks: a text may be lost.
pub fn hand_over<D: Door>(
    hub: &mut Hub,
    door: &mut D,
    connection: u64,
) -> Result<Handed, AllocError>
    ensures handed { IfOk result (λ handed. Hands handed connection (D.contents door.old)
        (D.contents door.new) (D.flushed door.new) hub.old hub.new) }
    ensures more { IfOk result (λ handed. handed ≡ Handed.More
        → Fewer ROUNDS connection hub.old hub.new) }
    ensures remaining { D.remaining door.new ≡ D.remaining door.old }
{
    for _ in 0..ROUNDS {
        match hand_round(hub, door, connection)? {
            Handed::More => {}
            Handed::Drained => return Ok(Handed::Drained),
            Handed::Blocked => return Ok(Handed::Blocked),
            Handed::Failed => return Ok(Handed::Failed),
        }
    }
    Ok(Handed::More)
}
