// The peer.
ghost use Rattle.std.specs.Prelude.{◌≡◌, ◌==◌, ◌<◌, ◌≤◌, ◌⊎◌, ◌↔◌, ◌∷◌, [], ℕ, length, true, false};
ghost use Rattle.std.specs.Prelude.{IfOk, IfErr, IfNone, IfSome, OnErr, Some, None, Ok, Err};
ghost use Rattle.std.specs.Result.{result_err};
ghost use Rattle.rt_peer.specs.Peers.{is_known, least_free, listens_behind, new_peer};
ghost use Rattle.std.specs.List.{All, filter};
ghost use Rattle.rt_writes.specs.Writes.{IsShallow};
ghost use Rattle.rt_peer.specs.Lengths.{capped, text_length};
ghost use Rattle.rt_peer.specs.Pushes.{seen, written};
ghost use Rattle.rt_peer.specs.Calls.{actions_of, answered, connected, disconnected, fault};
ghost use Rattle.rt_peer.specs.Turns.{is_last_turn, turned};

use crate::connections::ConnectionLoad;
use crate::error::PeerError;
use crate::pushes::Sent;
use crate::state::State;
use rt_query::Query;
use rt_tree::{Path, Tree};
use rt_wire::ClientMessage;
use std::alloc::AllocError;
use std::marker::Model;

/// A server of one tree: it keeps the listens of its connections, takes their writes, and tells each
/// listen what changes.
///
/// A contract sees what it holds; none once it has lacked memory.
pub struct Peer {
    state: State,
    has_failed: bool,
}

impl Drop for Peer {
    fn drop(self) {
        let Peer {
            state: _,
            has_failed: _,
        } = self;
    }
}

impl Model for Peer {
    ghost use Rattle.std.specs.Prelude.{Option, Some, None, if◌then◌else◌};
    ghost use Rattle.rt_peer.specs.Peers.{Peer};

    ghost Value = { Option Peer };

    ghost view = { λ a. if a.has_failed then None else Some a.state };
}

impl Peer {
    /// A peer of the tree, with no connection. A path is denied where one of the denied ones is a
    /// prefix of it, or it is a prefix of one of them: it can't be listened to, nor written.
    ///
    /// Takes no memory.
    pub fn new(tree: Tree, denied: Vec<Path>) -> Peer
        ensures { result ≡ Some (new_peer tree denied.items) }
    {
        Peer {
            state: State::new(tree, denied),
            has_failed: false,
        }
    }

    /// The tree as it is. Of a peer that has lacked memory it may hold a part of a write.
    pub fn tree(&self) -> &Tree
        ensures { IfSome self.now (λ p. result.now ≡ p.tree) }
    {
        self.state.tree()
    }

    /// How many bytes the tree has as JSON; the largest number of this type where it has more.
    ///
    /// The number is kept beside the tree. So a server may ask before each message, and bound the tree.
    pub fn text_len(&self) -> usize
        ensures { IfSome self.now (λ p. result ≡ capped (text_length p.tree)) }
    {
        self.state.text_len()
    }

    /// How many bytes the tree would have as JSON with these entries, put one after another; the largest number
    /// of this type where it would have more.
    ///
    /// Costs by the entries' paths, by what they write and by what stands there.
    ///
    /// # Errors
    ///
    /// A want of memory. The peer stays as it is.
    pub fn text_len_with(&self, entries: &[(Path, Tree)]) -> Result<usize, AllocError>
        requires { All IsShallow entries.now }
        ensures { IfOk result (λ len. IfSome self.now
            (λ p. len ≡ capped (text_length (written p.tree entries.now)))) }
    {
        self.state.text_len_with(entries)
    }

    /// How many bytes has as JSON what the query shows of the tree; the largest number of this type where it has
    /// more.
    ///
    /// Walks what it shows.
    ///
    /// # Errors
    ///
    /// A want of memory. The peer stays as it is.
    pub fn seen_len(&self, query: &Query) -> Result<usize, AllocError>
        ensures { IfOk result (λ len. IfSome self.now
            (λ p. len ≡ capped (text_length (seen query.now p.tree)))) }
    {
        self.state.seen_len(query)
    }

    /// How many listens and actions the connection has: none where it is not known.
    ///
    /// Costs by a logarithm. So a server may ask before each message, and bound what one connection holds.
    pub fn held(&self, connection: u64) -> ConnectionLoad
        ensures listens { IfSome self.now
            (λ p. result.listens ≡ length (filter (λ l. l.connection == connection) p.listens)) }
        ensures actions { IfSome self.now (λ p. result.actions ≡ length (actions_of p connection)) }
    {
        self.state.held(connection)
    }

    /// The connection's listen with the least tag above that one, or with the least tag of all: its tag, and what
    /// it listens to. None where there is no such listen.
    ///
    /// Costs by a logarithm. So a server may show what a connection listens to, one listen after another.
    pub fn next_listen(&self, connection: u64, above: Option<u64>) -> Option<(u64, &Query)>
        ensures some { IfSome result (λ next. IfSome self.now
            (λ p. listens_behind connection above p.listens
            ≡ record { connection = connection; tag = next.0; query = next.1.now }
            ∷ listens_behind connection (Some next.0) p.listens)) }
        ensures none { IfNone result
            (IfSome self.now (λ p. listens_behind connection above p.listens ≡ [])) }
    {
        self.state.next_listen(connection, above)
    }

    /// Begins a connection, with the least number from 1 that no known connection has.
    ///
    /// # Errors
    ///
    /// `Failed` where the peer has lacked memory before; else `NoMemory`, and `Failed` from then on.
    pub fn connect(&mut self) -> Result<u64, PeerError>
        ensures number { IfOk result (λ n. IfSome self.old (λ p. n ≡ least_free p.connections)) }
        ensures fresh { IfOk result
            (λ n. IfSome self.old (λ p. is_known p.connections n ≡ false)) }
        ensures least { IfOk result (λ m. IfSome self.old
            (λ p. (n : ℕ) → 1 ≤ n → n < m → is_known p.connections n ≡ true)) }
        ensures connected { IfOk result (λ _. IfSome self.old (λ p. self.new ≡ Some (connected p))) }
        ensures failed { (result ≡ Err PeerError.Failed) ↔ (self.old ≡ None) }
        ensures fault { IfErr result (λ e. (e ≡ PeerError.Failed) ⊎ (e ≡ PeerError.NoMemory)) }
        ensures gives_up { OnErr result (self.new ≡ None) }
    {
        if self.has_failed {
            return Err(PeerError::Failed);
        }
        match self.state.connect() {
            Ok(number) => Ok(number),
            Err(_) => {
                self.has_failed = true;
                Err(PeerError::NoMemory)
            }
        }
    }

    // Whether a call on the connection is refused before memory is looked for.
    fn check(&self, connection: u64) -> Result<(), PeerError>
        ensures { result_err result ≡ fault self.now connection }
    {
        if self.has_failed {
            return Err(PeerError::Failed);
        }
        if !self.state.knows(connection) {
            return Err(PeerError::UnknownConnection);
        }
        Ok(())
    }

    // Takes a message of the connection.
    fn answer(&mut self, connection: u64, message: &ClientMessage) -> Result<Vec<Sent>, PeerError>
        ensures answered { IfOk result (λ sent. IfSome self.old
            (λ p. sent.items ≡ (answered p connection message.now).1)) }
        ensures kept { IfOk result (λ _. IfSome self.old
            (λ p. self.new ≡ Some (answered p connection message.now).0)) }
        ensures refused { IfSome (fault self.old connection)
            (λ e. (result ≡ Err e) × (self.new ≡ self.old)) }
        ensures fault { IfErr result (λ e. (fault self.old connection ≡ Some e)
            ⊎ (e ≡ PeerError.NoMemory)) }
        ensures gives_up { result ≡ Err PeerError.NoMemory → self.new ≡ None }
    {
        self.check(connection)?;
        match self.state.message(connection, message) {
            Ok(sent) => Ok(sent),
            Err(_) => {
                self.has_failed = true;
                Err(PeerError::NoMemory)
            }
        }
    }

    /// Takes a message of the connection, and gives what is to be sent, in order.
    ///
    /// A connection that tells version 2 or above is sent several pushes of one write as one, from then
    /// on. A listen is sent what it shows, or revoked as denied. A write is put into the tree, told to each
    /// listen that then shows something else, the writer's own among them, and answered. What is to be
    /// done at the end of the connection is kept. A request is refused as bad where its entries overlap
    /// or stand too deep, and as denied where one of its paths is denied.
    ///
    /// # Errors
    ///
    /// `Failed` where the peer has lacked memory before; then `UnknownConnection`, which changes
    /// nothing; else `NoMemory`, and `Failed` from then on.
    pub fn message(
        &mut self,
        connection: u64,
        message: ClientMessage,
    ) -> Result<Vec<Sent>, PeerError>
        ensures answered { IfOk result (λ sent. IfSome self.old
            (λ p. sent.items ≡ (answered p connection message).1)) }
        ensures kept { IfOk result (λ _. IfSome self.old
            (λ p. self.new ≡ Some (answered p connection message).0)) }
        ensures refused { IfSome (fault self.old connection)
            (λ e. (result ≡ Err e) × (self.new ≡ self.old)) }
        ensures fault { IfErr result (λ e. (fault self.old connection ≡ Some e)
            ⊎ (e ≡ PeerError.NoMemory)) }
        ensures gives_up { result ≡ Err PeerError.NoMemory → self.new ≡ None }
    {
        self.answer(connection, &message)
    }

    /// Ends the connection: its listens are dropped, and what it asked for at its end is run, each
    /// told to the other listens as a write is. Gives what is to be sent, in order. The number is then
    /// free.
    ///
    /// # Errors
    ///
    /// As [`Peer::message`].
    pub fn disconnect(&mut self, connection: u64) -> Result<Vec<Sent>, PeerError>
        ensures sent { IfOk result (λ sent. IfSome self.old
            (λ p. sent.items ≡ (disconnected p connection).1)) }
        ensures kept { IfOk result (λ _. IfSome self.old
            (λ p. self.new ≡ Some (disconnected p connection).0)) }
        ensures refused { IfSome (fault self.old connection)
            (λ e. (result ≡ Err e) × (self.new ≡ self.old)) }
        ensures fault { IfErr result (λ e. (fault self.old connection ≡ Some e)
            ⊎ (e ≡ PeerError.NoMemory)) }
        ensures gives_up { result ≡ Err PeerError.NoMemory → self.new ≡ None }
    {
        self.check(connection)?;
        match self.state.disconnect(connection) {
            Ok(sent) => Ok(sent),
            Err(_) => {
                self.has_failed = true;
                Err(PeerError::NoMemory)
            }
        }
    }

    /// A turn of the connection's end, for a server that has others to serve meanwhile.
    ///
    /// The connection's listens are dropped. The first of what it asked for at its end is run as at
    /// [`Peer::disconnect`], so many requests at most. Gives what is to be sent, in order, and whether it
    /// was the last turn: then the connection has ended, and its number is free. Until then this is called
    /// again, or [`Peer::disconnect`] is.
    ///
    /// # Errors
    ///
    /// As [`Peer::message`].
    pub fn end_some(&mut self, connection: u64, most: usize) -> Result<(Vec<Sent>, bool), PeerError>
        ensures sent { IfOk result (λ turn. IfSome self.old
            (λ p. turn.0.items ≡ (turned p connection most).1)) }
        ensures last { IfOk result (λ turn. IfSome self.old
            (λ p. turn.1 ≡ is_last_turn p connection most)) }
        ensures kept { IfOk result (λ _. IfSome self.old
            (λ p. self.new ≡ Some (turned p connection most).0)) }
        ensures refused { IfSome (fault self.old connection)
            (λ e. (result ≡ Err e) × (self.new ≡ self.old)) }
        ensures fault { IfErr result (λ e. (fault self.old connection ≡ Some e)
            ⊎ (e ≡ PeerError.NoMemory)) }
        ensures gives_up { result ≡ Err PeerError.NoMemory → self.new ≡ None }
    {
        self.check(connection)?;
        match self.state.end_some(connection, most) {
            Ok(turn) => Ok(turn),
            Err(_) => {
                self.has_failed = true;
                Err(PeerError::NoMemory)
            }
        }
    }
}
