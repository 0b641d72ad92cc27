// The hub.
ghost use Rattle.std.specs.Prelude.{◌≡◌, ◌⊎◌, ◌↔◌, Some, None, Ok, Err, IfOk, IfErr, IfSome, OnOk, OnErr};
ghost use Rattle.std.specs.Prelude.{false, string_bytes, ◌++◌, [], map};
ghost use Rattle.std.specs.Option.{option_map, option_map_or};
ghost use Rattle.std.specs.Result.{result_err};
ghost use Rattle.serde_json.specs.Written.{compact_text};
ghost use Rattle.rt_wire.specs.Client.{client_message};
ghost use Rattle.rt_wire.specs.ClientData.{listen_data};
ghost use Rattle.rt_peer.specs.Peers.{least_free};
ghost use Rattle.rt_peer.specs.Runs.{Connect, Message, EndSome};
ghost use Rattle.rt_peer.specs.Turns.{is_last_turn};
ghost use Rattle.rt_hub.specs.Bounded.{bounded};
ghost use Rattle.rt_hub.specs.Hubs.{IsHanded, IsMade, IsTaken, TakesText, first_of, line_in, new_hub};
ghost use Rattle.rt_hub.specs.Hubs.{IsNextListen, IsSlowest, has_too_many_in, receivers, refused_as};
ghost use Rattle.rt_hub.specs.Hubs.{waits_in};
ghost use Rattle.rt_hub.specs.Verdicts.{verdict_of};
ghost use Rattle.rt_hub.specs.declared.hub.TheConstants.{TURN_ACTIONS};
ghost use Rattle.rt_hub.specs.laws.Queues.{IsServedAll, SeesItsOwn};
ghost use Rattle.rt_hub.specs.laws.Verdicts.{RefusedChangesNothing, RequestsAreJudged};

use crate::calls::{answer, begin, end_some};
use crate::lines::Waiting;
use crate::refusal::{Bounds, MAX_LISTENS, Verdict, When};
use rt_peer::{Peer, PeerError};
use rt_query::Query;
use rt_tree::{Path, Tree};
use rt_wire::{ClientMessage, WireError};
use std::alloc::{AllocError, Global};
use std::marker::Model;

/// What came of a text.
#[derive(Debug, Drop)]
pub enum Taken {
    /// It is a message: what became of it, and to whom something was sent for it, in order, a connection
    /// as often as it was sent something.
    Message(Verdict, Vec<u64>),
    /// It is no message of a client, and why.
    PassedOver(WireError),
}

// The text of the message that asks for a listen.
fn listen_text(alloc: Global, tag: u64, query: &Query) -> Result<String, AllocError>
    ensures { IfOk result (λ text. string_bytes text ≡ compact_text (listen_data tag query.now)) }
{
    let query = query.copy()?;
    let message = ClientMessage::Listen { tag, query };
    message.text(alloc)
}

/// A peer, and for each of its connections the texts that wait for it.
///
/// A contract sees what it holds; none once it has lacked memory.
pub struct Hub {
    alloc: Global,
    peer: Peer,
    bounds: Bounds,
    lines: Waiting,
    has_failed: bool,
}

impl Drop for Hub {
    fn drop(self) {
        let Hub {
            alloc: _,
            peer: _,
            bounds: _,
            lines: _,
            has_failed: _,
        } = self;
    }
}

impl Model for Hub {
    ghost use Rattle.std.specs.Prelude.{◌≡◌, false, Option};
    ghost use Rattle.rt_hub.specs.Hubs.{Hub};
    ghost use Rattle.rt_hub.specs.inside.Lined.{AreLinedOf, hub_of};

    ghost Value = { Option Hub };

    ghost view = { λ a. hub_of a.has_failed a.peer a.bounds a.lines };

    ghost invariant = { λ a. a.has_failed ≡ false → AreLinedOf a.peer a.lines };
}

impl Hub {
    /// A hub of the tree, with no connection. Which paths are denied is as at [`Peer::new`].
    ///
    /// Takes no memory.
    pub fn new(alloc: Global, tree: Tree, denied: Vec<Path>, bounds: Bounds) -> Hub
        ensures { result ≡ Some (new_hub tree denied.items bounds) }
    {
        Hub {
            alloc,
            peer: Peer::new(tree, denied),
            bounds,
            lines: Waiting::new(alloc),
            has_failed: false,
        }
    }

    /// The tree as it is. Of a hub that has lacked memory it may hold a part of a write.
    pub fn tree(&self) -> &Tree
        ensures { IfSome self.now (λ h. result.now ≡ h.peer.tree) }
    {
        self.peer.tree()
    }

    /// Begins a connection, with the least number from 1 that no known connection has. Nothing waits for
    /// it.
    ///
    /// # Errors
    ///
    /// `Failed` where the hub has lacked memory before; else `NoMemory`, and `Failed` from then on.
    pub fn connect(&mut self) -> Result<u64, PeerError>
        ensures number { IfOk result (λ n. IfSome self.old (λ h. n ≡ least_free h.peer.connections)) }
        ensures connected { OnOk result (IsMade self.old Connect self.new) }
        ensures failed { (result ≡ Err PeerError.Failed) ↔ (self.old ≡ None) }
        ensures fault { IfErr result (λ e. (e ≡ PeerError.Failed) ⊎ (e ≡ PeerError.NoMemory)) }
        ensures gives_up { OnErr result (self.new ≡ None) }
    {
        if self.has_failed {
            return Err(PeerError::Failed);
        }
        match begin(&mut self.peer, &mut self.lines, self.alloc, self.bounds) {
            Ok(connection) => Ok(connection),
            Err(_) => {
                self.has_failed = true;
                Err(PeerError::NoMemory)
            }
        }
    }

    // Whether a call on the connection is refused before memory is looked for.
    fn check(&self, connection: u64) -> Result<(), PeerError>
        ensures { result_err result ≡ refused_as self.now connection }
    {
        if self.has_failed {
            return Err(PeerError::Failed);
        }
        if !self.lines.has_line(connection) {
            return Err(PeerError::UnknownConnection);
        }
        Ok(())
    }

    // Takes a message of a known connection, and answers what became of it, and to whom something was sent.
    fn answer(
        &mut self,
        connection: u64,
        message: ClientMessage,
    ) -> Result<(Verdict, Vec<u64>), PeerError>
        requires { refused_as self.old connection ≡ None }
        ensures made { OnOk result (IsMade self.old (Message connection message) self.new) }
        ensures judged { IfOk result (λ answer. IfSome self.old (λ h.
            answer.0 ≡ verdict_of message (bounded h.peer (Message connection message)).1)) }
        ensures told { IfOk result (λ answer. IfSome self.old (λ h.
            answer.1.items ≡ receivers (bounded h.peer (Message connection message)).1)) }
        ensures gives_up { OnErr result (self.new ≡ None) }
        ensures memory { IfErr result (λ e. e ≡ PeerError.NoMemory) }
    {
        let answer = answer(
            &mut self.peer,
            &mut self.lines,
            self.alloc,
            self.bounds,
            connection,
            message,
        );
        match answer {
            Ok(answer) => Ok(answer),
            Err(_) => {
                self.has_failed = true;
                Err(PeerError::NoMemory)
            }
        }
    }

    /// Takes a text of the connection. Where it is a message of a client, what the peer sends for it is put
    /// behind what waits for those that it is sent to, and whether it is a request that was accepted is
    /// answered; where it is none, nothing changes.
    ///
    /// A request for the end of a connection that has as many as it may is refused, and so is a write that would
    /// make the tree's text longer than `MAX_TREE_BYTES`. A listen that shows a longer tree is revoked.
    ///
    /// # Errors
    ///
    /// `Failed` where the hub has lacked memory before; then `UnknownConnection`; both change nothing. Else
    /// `NoMemory`: the text was not read, which changes nothing, or the hub has failed.
    pub fn take(&mut self, connection: u64, words: &str) -> Result<Taken, PeerError>
        ensures taken { OnOk result
            (TakesText self.old connection (client_message words.now) self.new) }
        ensures answer { IfOk result (λ taken. IfSome self.old (λ h.
            IsTaken h.peer connection (client_message words.now) taken)) }
        ensures refused { IfSome (refused_as self.old connection)
            (λ e. (result ≡ Err e) × (self.new ≡ self.old)) }
        ensures fault { IfErr result (λ e. (refused_as self.old connection ≡ Some e)
            ⊎ (e ≡ PeerError.NoMemory)) }
        ensures gives_up { OnErr result ((self.new ≡ self.old) ⊎ (self.new ≡ None)) }
    {
        self.check(connection)?;
        match ClientMessage::read(self.alloc, words) {
            Ok(message) => {
                let (verdict, told) = self.answer(connection, message)?;
                Ok(Taken::Message(verdict, told))
            }
            Err(WireError::NoMemory) => Err(PeerError::NoMemory),
            Err(
                why @ (WireError::NotJson
                | WireError::UnknownKind
                | WireError::BadField
                | WireError::BadTree),
            ) => Ok(Taken::PassedOver(why)),
        }
    }

    /// Takes the oldest text that waits for the connection, if one does. Takes no memory.
    pub fn next(&mut self, connection: u64) -> Option<String>
        ensures first { option_map string_bytes result ≡ first_of (line_in self.old connection) }
        ensures rest { IsHanded self.old connection self.new }
    {
        if self.has_failed {
            return None;
        }
        self.lines.next_of(connection)
    }

    /// Whether more came to the connection where as much waited as may: it has lost something, and is to be
    /// ended. However much one call sends to it, it is over only for what waited before.
    pub fn is_over(&self, connection: u64) -> bool
        ensures { result ≡ option_map_or (λ l. l.is_over) (line_in self.now connection) false }
    {
        !self.has_failed && self.lines.is_over(connection)
    }

    /// How many bytes wait for all connections together. A hub that has lacked memory says 0.
    pub fn waits(&self) -> usize
        ensures { result ≡ waits_in self.now }
    {
        if self.has_failed {
            0
        } else {
            self.lines.bytes()
        }
    }

    /// The number of a connection for which as many bytes wait as for any, with those that are elsewhere: so
    /// many for each connection by its number, from 1, and none for the others. Where none wait the number may
    /// be 0. Costs by the number of connections.
    #[tactic(auto, using(crate::proofs::Slowest::in_hub))]
    pub fn slowest(&self, elsewhere: &[usize]) -> u64
        ensures { IfSome self.now (λ h. IsSlowest h.lines elsewhere.now result) }
    {
        self.lines.slowest(elsewhere)
    }

    /// Whether the connection has more listens than it may: it is to be ended. Costs by a logarithm.
    pub fn has_too_many_listens(&self, connection: u64) -> bool
        ensures { result ≡ has_too_many_in self.now connection }
    {
        !self.has_failed && self.peer.held(connection).listens > MAX_LISTENS
    }

    /// The connection's listen with the least tag above that one, or with the least tag of all: its tag, and the
    /// text of the message that asks for it. None where there is no such listen, or the hub has lacked memory.
    ///
    /// Costs by a logarithm, and by the query.
    ///
    /// # Errors
    ///
    /// A want of memory, which changes nothing.
    #[tactic(auto, using(crate::proofs::Listened::next_there, crate::proofs::Listened::none_there))]
    pub fn next_listen(
        &self,
        connection: u64,
        above: Option<u64>,
    ) -> Result<Option<(u64, String)>, AllocError>
        ensures { IfOk result (λ next. IsNextListen self.now connection above next) }
    {
        if self.has_failed {
            return Ok(None);
        }
        match self.peer.next_listen(connection, above) {
            Some((tag, query)) => {
                let text = listen_text(self.alloc, tag, query)?;
                Ok(Some((tag, text)))
            }
            None => Ok(None),
        }
    }

    /// A turn of the connection's end: what waits for it goes, nothing more is sent to it, and the first of
    /// what it asked for at its end is run, so many requests at most. Answers to whom something was sent, and
    /// whether it was the last turn: the number is free then. Until then this is called again; others may be
    /// served before.
    ///
    /// # Errors
    ///
    /// `Failed` where the hub has lacked memory before; then `UnknownConnection`; both change nothing. Else
    /// `NoMemory`, and `Failed` from then on.
    pub fn end_some(&mut self, connection: u64, most: usize) -> Result<(Vec<u64>, bool), PeerError>
        ensures made { OnOk result (IsMade self.old (EndSome connection most) self.new) }
        ensures told { IfOk result (λ turn. IfSome self.old (λ h.
            turn.0.items ≡ receivers (bounded h.peer (EndSome connection most)).1)) }
        ensures last { IfOk result (λ turn. IfSome self.old (λ h.
            turn.1 ≡ is_last_turn h.peer connection most)) }
        ensures refused { IfSome (refused_as self.old connection)
            (λ e. (result ≡ Err e) × (self.new ≡ self.old)) }
        ensures fault { IfErr result (λ e. (refused_as self.old connection ≡ Some e)
            ⊎ (e ≡ PeerError.NoMemory)) }
        ensures gives_up { result ≡ Err PeerError.NoMemory → self.new ≡ None }
    {
        self.check(connection)?;
        let turn = end_some(
            &mut self.peer,
            &mut self.lines,
            self.alloc,
            self.bounds,
            connection,
            most,
        );
        match turn {
            Ok(turn) => Ok(turn),
            Err(_) => {
                self.has_failed = true;
                Err(PeerError::NoMemory)
            }
        }
    }
}

// ---- a connection ends, in turns

/// How many requests of those that are done at the end of a connection are done in one turn.
pub const TURN_ACTIONS: usize = 256;

/// A turn of the connection's end: notes to whom something is sent then, in order, and answers whether it was
/// the last turn. Until then it is called again; others may have their turns before.
///
/// # Errors
///
/// `Failed` where the hub has lacked memory before; then `UnknownConnection`; else `NoMemory`.
pub fn leave(hub: &mut Hub, connection: u64, told: &mut Vec<u64>) -> Result<bool, PeerError>
    ensures made { OnOk result (IsMade hub.old (EndSome connection TURN_ACTIONS) hub.new) }
    ensures told { OnOk result (IfSome hub.old (λ h. told.new.items
        ≡ told.old.items ++ receivers (bounded h.peer (EndSome connection TURN_ACTIONS)).1)) }
    ensures last { IfOk result (λ last. IfSome hub.old (λ h.
        last ≡ is_last_turn h.peer connection TURN_ACTIONS)) }
    ensures fault { IfErr result (λ e. (refused_as hub.old connection ≡ Some e)
        ⊎ (e ≡ PeerError.NoMemory)) }
{
    let (receivers, is_last) = hub.end_some(connection, TURN_ACTIONS)?;
    match told.extend_from_slice(receivers.as_slice()) {
        Ok(()) => Ok(is_last),
        Err(_) => Err(PeerError::NoMemory),
    }
}

// ---- what turns leave to be done

/// A request that was accepted.
pub struct Accepted {
    /// When it is done.
    pub when: When,
    /// Its text, as it came.
    pub text: String,
}

impl Drop for Accepted {
    fn drop(self) {
        let Accepted { when: _, text: _ } = self;
    }
}

/// What turns leave to be done, each in the order in which it came.
pub struct Notes {
    /// The connections to which something was sent, each as often as that.
    pub told: Vec<u64>,
    /// What a connection is answered for requests that can't be taken.
    pub answers: Vec<String>,
    /// Its requests that were accepted.
    pub accepted: Vec<Accepted>,
}

impl Drop for Notes {
    fn drop(self) {
        let Notes {
            told: _,
            answers: _,
            accepted: _,
        } = self;
    }
}

impl Notes {
    /// Nothing is to be done. Takes no memory.
    pub fn new(alloc: Global) -> Notes
        ensures told { result.told.items ≡ [] }
        ensures answers { result.answers.items ≡ [] }
        ensures accepted { result.accepted.items ≡ [] }
    {
        Notes {
            told: Vec::new(alloc),
            answers: Vec::new(alloc),
            accepted: Vec::new(alloc),
        }
    }
}

// ---- the laws of the hub

/// Of any calls, each connection sees the peer, its own line, and nothing else of the hub; and what a
/// connection was given begins what waited at first and all that the peer sent it since, in order, as long
/// as it lasts. Where its line isn't over, what still waits is the rest: nothing is lost, and nothing told
/// twice.
#[tactic(auto, using(crate::proofs::Served::laws))]
pub fn queue_law()
    ensures sees { SeesItsOwn }
    ensures served { IsServedAll }
{}

/// Of a known connection just the requests have a verdict: a write and what is to be done at the end are
/// refused where their entries are, and what is to be dropped where its path is denied. What is to be done at
/// the end is refused too where the connection has as much of that as it may, and a write where it would make
/// the tree too long. What is refused changes nothing.
#[tactic(auto, using(crate::proofs::Judged::laws))]
pub fn verdict_law()
    ensures judged { RequestsAreJudged }
    ensures unchanged { RefusedChangesNothing }
{}
