// What gives texts of a client, and takes texts for it.
ghost use Rattle.std.specs.Prelude.{◌≡◌, ◌∷◌, [], ℕ, List, Option, true, IfOk, Some, None, IfSome};
ghost use Rattle.std.specs.Prelude.{if◌then◌else◌};
ghost use Rattle.rt_hub.specs.Doors.{Gives, Takes, given_by};
ghost use Rattle.rt_hub.specs.declared.door.Flushed.{Flushed};
ghost use Rattle.rt_hub.specs.declared.door.DoorRead.{DoorRead};
ghost use Rattle.rt_peer.specs.Calls.{one};
ghost use Rattle.rt_hub.specs.Bounded.{answer_of, asked_bar, bar_of, grows_too_long, reason_of, said_by};
ghost use Rattle.rt_hub.specs.Bounded.{shows_too_long};
ghost use Rattle.rt_wire.specs.Actions.{entries_of};
ghost use Rattle.rt_wire.specs.declared.request.Asked.TheVariants.{AtDisconnect};

use crate::lines::{grows_too_long, shows_too_long};
use crate::refusal::MAX_ACTIONS;
use rt_peer::{Peer, Sent};
use rt_query::Query;
use rt_wire::{Action, Asked, ClientMessage, Ending, Reason, ServerMessage};
use std::alloc::{AllocError, Global};

/// What a door says when it is asked for a text.
#[derive(Clone, Copy, Debug, PartialEq, Eq)]
pub enum DoorRead {
    /// There is one.
    Text,
    /// There is a message that is no text.
    Other,
    /// Nothing more is there now.
    Nothing,
    /// Nothing more will come.
    Ended,
}

/// What became of what a door has taken.
#[derive(Clone, Copy, Debug, PartialEq, Eq)]
pub enum Flushed {
    /// All of it is on its way.
    Done,
    /// Not all of it: the door has to be asked again later.
    Blocked,
    /// The door takes nothing any more.
    Failed,
}

/// What gives texts of a client, and takes texts for it.
pub trait Door {
    // What it is to give, in order, where that is known: texts, and none for a message that is no text.
    ghost remaining: { Self → Option (List (Option (List ℕ))) };

    // The texts that it has taken, in order, where they are known.
    ghost contents: { Self → Option (List (List ℕ)) };

    // The text that it gave last.
    ghost given: { Self → List ℕ };

    // What it said last when it was asked for a text.
    ghost said: { Self → DoorRead };

    // How its last flush went.
    ghost flushed: { Self → Flushed };

    /// Asks for the next text, which is then [`Door::text`].
    ///
    /// # Errors
    ///
    /// Where memory lacks.
    fn hear(&mut self) -> Result<DoorRead, AllocError>
        ensures said { IfOk result (λ heard. said self.new ≡ heard) }
        ensures gives { IfOk result (λ heard.
            Gives (remaining self.old) (remaining self.new) (given_by heard (given self.new))) }
        ensures contents { contents self.new ≡ contents self.old };

    /// The text that it gave last.
    fn text(&self) -> &str
        ensures { result.now ≡ given self.now };

    /// Gives it a text, and answers whether it took it. One that did not takes nothing any more.
    ///
    /// # Errors
    ///
    /// Where memory lacks.
    fn put(&mut self, text: &str) -> Result<bool, AllocError>
        ensures takes { IfOk result (λ took. took ≡ true
            → Takes (contents self.old) (contents self.new) (text.now ∷ [])) }
        ensures remaining { remaining self.new ≡ remaining self.old };

    /// Sends what it has taken on its way, as far as that goes.
    fn flush(&mut self) -> Flushed
        ensures flushed { flushed self.new ≡ result }
        ensures contents { contents self.new ≡ contents self.old }
        ensures remaining { remaining self.new ≡ remaining self.old };
}

// ---- messages that a hub answers itself

/// Why a hub answers a message itself.
#[derive(Clone, Copy, Debug, PartialEq, Eq)]
pub enum Bar {
    /// The request of that number is one too many for its connection's end.
    TooMany(u64),
    /// The write of that number would make the tree longer than one that is sent.
    TooLong(u64),
    /// The listen of that tag shows a tree that is longer than one that is sent.
    Unsendable(u64),
}

// Why a write is refused, if it is.
fn write_bar(
    alloc: Global,
    peer: &Peer,
    id: u64,
    action: &Action,
) -> Result<Option<Bar>, AllocError>
    ensures { IfOk result (λ bar. IfSome peer.now (λ p.
        bar ≡ (if grows_too_long p.tree (entries_of action.now) then Some (Bar.TooLong id) else None))) }
{
    if grows_too_long(alloc, peer, action)? {
        Ok(Some(Bar::TooLong(id)))
    } else {
        Ok(None)
    }
}

// Why a request for the end of its connection is refused, if it is.
fn ending_bar(peer: &Peer, connection: u64, id: u64, asked: &Ending) -> Option<Bar>
    ensures { IfSome peer.now (λ p. result ≡ asked_bar p connection id (AtDisconnect asked.now)) }
{
    match asked {
        Ending::Run(_) => {
            if peer.held(connection).actions >= MAX_ACTIONS {
                Some(Bar::TooMany(id))
            } else {
                None
            }
        }
        Ending::Cancel(_) => None,
    }
}

// Why a request is refused, if the hub refuses it.
fn asked_bar(
    alloc: Global,
    peer: &Peer,
    connection: u64,
    id: u64,
    asked: &Asked,
) -> Result<Option<Bar>, AllocError>
    ensures { IfOk result (λ bar. IfSome peer.now (λ p. bar ≡ asked_bar p connection id asked.now)) }
{
    match asked {
        Asked::Now(action) => write_bar(alloc, peer, id, action),
        Asked::AtDisconnect(ending) => Ok(ending_bar(peer, connection, id, ending)),
    }
}

// Why a listen is revoked, if it is.
fn listen_bar(peer: &Peer, tag: u64, query: &Query) -> Result<Option<Bar>, AllocError>
    ensures { IfOk result (λ bar. IfSome peer.now (λ p.
        bar ≡ (if shows_too_long p.tree query.now then Some (Bar.Unsendable tag) else None))) }
{
    if shows_too_long(peer, query)? {
        Ok(Some(Bar::Unsendable(tag)))
    } else {
        Ok(None)
    }
}

// Why the hub answers the message itself, if it does.
pub(crate) fn bar_of(
    alloc: Global,
    peer: &Peer,
    connection: u64,
    message: &ClientMessage,
) -> Result<Option<Bar>, AllocError>
    ensures { IfOk result (λ bar. IfSome peer.now (λ p. bar ≡ bar_of p connection message.now)) }
{
    match message {
        ClientMessage::Ask { id, asked } => asked_bar(alloc, peer, connection, *id, asked),
        ClientMessage::Listen { tag, query } => listen_bar(peer, *tag, query),
        ClientMessage::Hello { .. } | ClientMessage::Unlisten { .. } => Ok(None),
    }
}

// The reason that it says.
fn reason_of(bar: Bar) -> &'static str
    ensures { result.now ≡ reason_of bar }
{
    match bar {
        Bar::TooMany(_) => "too many requests for the end of a connection",
        Bar::TooLong(_) | Bar::Unsendable(_) => "a tree of more than 67108864 bytes",
    }
}

// What it answers, with that reason.
fn answer_of(bar: Bar, why: Reason) -> ServerMessage
    ensures { result ≡ answer_of bar why }
{
    match bar {
        Bar::TooMany(id) | Bar::TooLong(id) => ServerMessage::Refused { id, why },
        Bar::Unsendable(tag) => ServerMessage::Revoked { tag, why },
    }
}

// What it answers.
pub(crate) fn refusal(alloc: Global, connection: u64, bar: Bar) -> Result<Sent, AllocError>
    ensures { IfOk result (λ sent. sent ∷ [] ≡ one connection (said_by bar)) }
{
    let why = Reason::of(String::from_str(alloc, reason_of(bar))?);
    Ok(Sent {
        to: connection,
        message: answer_of(bar, why),
    })
}
