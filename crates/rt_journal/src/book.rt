// What is noted of a journal, and not written yet.
ghost use Rattle.std.specs.Prelude.{◌≡◌, ◌==◌, ◌+◌, ◌++◌, [], None, Some, IfOk, OnOk, length, ◌⊎◌, ◌∷◌};
ghost use Rattle.std.specs.Prelude.{IfErr, IfSome, IsSome, ◌<◌, drop, position};
ghost use Rattle.std.specs.BTreeMap.{insert_entry, is_at};
ghost use Rattle.std.specs.List.{flat_map};
ghost use Rattle.std.specs.Map.{remove_entry, keys_of};
ghost use Rattle.std.specs.Option.{option_map, unwrap_or, option_and_then};
ghost use Rattle.std.specs.Ordering.{nat_cmp};
ghost use Rattle.rt_journal.specs.Books.{anew, is_ending, is_resting, kept_of, keeping, new_book, with_end};
ghost use Rattle.rt_journal.specs.Books.{with_request, with_turn};
ghost use Rattle.rt_journal.specs.Entries.{line_of, is_feed, pieces_of};
ghost use Rattle.rt_peer.specs.Peers.{least_free};
ghost use Rattle.rt_peer.specs.Runs.{Disconnect, EndSome, Message, after_all, outcome};
ghost use Rattle.rt_journal.specs.Replays.{after_entry, after_line, after_pieces, asked, begun, called};
ghost use Rattle.rt_journal.specs.Replays.{closed, ends_of, has_ended, left, new_replay, replay_of, told};
ghost use Rattle.rt_journal.specs.Replays.{torn_length, turned};
ghost use Rattle.rt_journal.specs.laws.Reading.{ReadsBack};

use crate::line::{LineFault, entry_in, feed_in, number_in, push_end, push_request, push_turn};
use rt_peer::{Peer, PeerError};
use rt_tree::Tree;
use rt_wire::{ClientMessage, WireError};
use std::alloc::{AllocError, Global};
use std::collections::BTreeMap;
use std::marker::Model;

/// Which kind of request is noted.
#[derive(Clone, Copy, Debug, PartialEq, Eq)]
pub enum Noted {
    /// It was done: `put` or `merge`.
    Write,
    /// It is of what is done at the end of its connection: `od-put`, `od-merge` or `od-cancel`.
    AtEnd,
}

// The lines that are not written yet, and by connection the lines of what was asked for at its end.
pub(crate) struct Book {
    alloc: Global,
    lines: Vec<u8>,
    kept: BTreeMap<u64, Vec<u8>>,
    // How many connections' ends are under way: no lines of these are kept.
    ending: usize,
}

impl Drop for Book {
    fn drop(self) {
        let Book {
            alloc: _,
            lines: _,
            kept: _,
            ending: _,
        } = self;
    }
}

impl Model for Book {
    ghost use Rattle.std.specs.Prelude.{map};
    ghost use Rattle.rt_journal.specs.Books.{Book};

    ghost Value = { Book };

    ghost view = { λ a. record {
      lines = a.lines.items;
      kept = map (λ e. (e.0, e.1.items)) a.kept.entries;
      ending = a.ending;
    } };
}

impl Book {
    /// Nothing is noted.
    pub(crate) fn new(alloc: Global) -> Book
        ensures { result ≡ new_book }
    {
        Book {
            alloc,
            lines: Vec::new(alloc),
            kept: BTreeMap::new(alloc),
            ending: 0,
        }
    }

    // Takes out the lines of what a connection asked for at its end.
    fn take_kept(&mut self, connection: u64) -> Option<Vec<u8>>
        ensures value { option_map (λ v. v.items) result ≡ kept_of self.old connection }
        ensures lines { self.new.lines ≡ self.old.lines }
        ensures rest { self.new.kept ≡ remove_entry (is_at (nat_cmp connection)) self.old.kept }
        ensures ending { self.new.ending ≡ self.old.ending }
        ensures none { result ≡ None → self.new ≡ self.old }
    {
        self.kept.remove(&connection)
    }

    // Puts lines of what a connection asked for at its end.
    fn put_kept(&mut self, connection: u64, lines: Vec<u8>) -> Result<(), AllocError>
        ensures lines { OnOk result (self.new.lines ≡ self.old.lines) }
        ensures kept { OnOk result
            (self.new.kept ≡ insert_entry nat_cmp self.old.kept connection lines.items) }
        ensures ending { OnOk result (self.new.ending ≡ self.old.ending) }
    {
        self.kept.insert(connection, lines)?;
        Ok(())
    }

    // The lines that a connection has already, which are taken out.
    fn taken(&mut self, connection: u64) -> Vec<u8>
        ensures value { result.items ≡ unwrap_or (kept_of self.old connection) [] }
        ensures lines { self.new.lines ≡ self.old.lines }
        ensures rest { self.new.kept ≡ remove_entry (is_at (nat_cmp connection)) self.old.kept }
        ensures ending { self.new.ending ≡ self.old.ending }
    {
        match self.take_kept(connection) {
            Some(lines) => lines,
            None => Vec::new(self.alloc),
        }
    }

    // Keeps the line of what a connection asked for at its end.
    fn keep(&mut self, connection: u64, text: &str) -> Result<(), AllocError>
        ensures lines { OnOk result (self.new.lines ≡ self.old.lines) }
        ensures kept { OnOk result (self.new.kept
            ≡ keeping self.old connection (line_of (connection, Some text.now))) }
        ensures ending { OnOk result (self.new.ending ≡ self.old.ending) }
    {
        let mut lines = self.taken(connection);
        push_request(self.alloc, &mut lines, connection, text)?;
        self.put_kept(connection, lines)
    }

    /// An accepted request of a connection is noted.
    pub(crate) fn note(
        &mut self,
        connection: u64,
        noted: Noted,
        text: &str,
    ) -> Result<(), AllocError>
        ensures { OnOk result (self.new ≡ with_request self.old connection noted text.now) }
    {
        push_request(self.alloc, &mut self.lines, connection, text)?;
        match noted {
            Noted::Write => Ok(()),
            Noted::AtEnd => self.keep(connection, text),
        }
    }

    // Takes out the lines of what a connection asked for at its end. Answers whether its end is under way,
    // where it asked for something.
    fn take_ending(&mut self, connection: u64) -> Option<bool>
        ensures value { result ≡ is_ending self.old connection }
        ensures lines { self.new.lines ≡ self.old.lines }
        ensures rest { self.new.kept ≡ remove_entry (is_at (nat_cmp connection)) self.old.kept }
        ensures ending { self.new.ending ≡ self.old.ending }
        ensures none { result ≡ None → self.new ≡ self.old }
    {
        match self.take_kept(connection) {
            Some(lines) => Some(lines.is_empty()),
            None => None,
        }
    }

    // One end more is under way.
    fn begin_end(&mut self) -> Result<(), AllocError>
        ensures { OnOk result (self.new ≡ record (self.old) { ending = self.old.ending + 1 }) }
    {
        match self.ending.checked_add(1) {
            Some(ending) => {
                self.ending = ending;
                Ok(())
            }
            None => Err(AllocError),
        }
    }

    /// So many requests were done of those that a connection had for its end, which goes on. Where nothing
    /// was to be done at its end, nothing is noted.
    pub(crate) fn note_turn(&mut self, connection: u64, count: usize) -> Result<(), AllocError>
        ensures { OnOk result (self.new ≡ with_turn self.old connection count) }
    {
        let Some(has_begun) = self.take_ending(connection) else {
            return Ok(());
        };
        if !has_begun {
            self.begin_end()?;
        }
        push_turn(self.alloc, &mut self.lines, connection, count)?;
        self.put_kept(connection, Vec::new(self.alloc))
    }

    /// A connection ended. Where nothing was to be done at its end, nothing is noted.
    pub(crate) fn note_end(&mut self, connection: u64) -> Result<(), AllocError>
        ensures { OnOk result (self.new ≡ with_end self.old connection) }
    {
        let Some(has_begun) = self.take_ending(connection) else {
            return Ok(());
        };
        if has_begun {
            self.ending = self.ending.saturating_sub(1);
        }
        push_end(self.alloc, &mut self.lines, connection)
    }

    /// Whether no end is under way: only then is a journal begun anew.
    pub(crate) fn is_resting(&self) -> bool
        ensures { result ≡ is_resting self.now }
    {
        self.ending == 0
    }

    /// Connections ended that an earlier run left.
    pub(crate) fn note_left(&mut self, left: &[u64]) -> Result<(), AllocError>
        ensures lines { OnOk result (self.new.lines
            ≡ self.old.lines ++ flat_map (λ n. line_of (n, None)) left.now) }
        ensures kept { self.new.kept ≡ self.old.kept }
        ensures ending { self.new.ending ≡ self.old.ending }
    {
        for connection in left {
            push_end(self.alloc, &mut self.lines, *connection)?;
        }
        Ok(())
    }

    /// Whether no line waits to be written.
    pub(crate) fn is_empty(&self) -> bool
        ensures { result ≡ (length self.now.lines == 0) }
    {
        self.lines.is_empty()
    }

    /// The lines that are not written yet.
    pub(crate) fn lines(&self) -> &[u8]
        ensures { result.now ≡ self.now.lines }
    {
        self.lines.as_slice()
    }

    /// They are written.
    pub(crate) fn clear(&mut self)
        ensures { self.new ≡ record (self.old) { lines = [] } }
    {
        self.lines.clear();
    }

    /// What a journal begins with that is begun anew.
    pub(crate) fn anew(&self) -> Result<Vec<u8>, AllocError>
        ensures { IfOk result (λ all. all.items ≡ anew self.now) }
    {
        let mut all = Vec::new(self.alloc);
        for (_, lines) in self.kept.iter() {
            all.extend_from_slice(lines.as_slice())?;
        }
        Ok(all)
    }
}

// ---- the replay of a journal over a tree

/// What a journal comes to.
pub struct Replayed {
    /// The tree once all connections have ended.
    pub tree: Tree,
    /// The connections whose ends stand in no line, in the order of their numbers.
    pub left: Vec<u64>,
    /// How many bytes stand behind the last line feed: a line that was torn.
    pub torn: usize,
}

impl Drop for Replayed {
    fn drop(self) {
        let Replayed {
            tree: _,
            left: _,
            torn: _,
        } = self;
    }
}

impl Replayed {
    // The tree.
    pub(crate) fn into_tree(self) -> Tree
        ensures { result ≡ self.tree }
    {
        let Replayed {
            tree: whole,
            left: _,
            torn: _,
        } = self;
        whole
    }
}

// A peer, and by the journal's number of each connection that is there the peer's. What it holds is none
// once the peer has lacked memory.
struct Replaying {
    alloc: Global,
    peer: Peer,
    names: BTreeMap<u64, u64>,
}

impl Drop for Replaying {
    fn drop(self) {
        let Replaying {
            alloc: _,
            peer: _,
            names: _,
        } = self;
    }
}

impl Model for Replaying {
    ghost use Rattle.std.specs.Prelude.{Option};
    ghost use Rattle.std.specs.Option.{option_map};
    ghost use Rattle.rt_journal.specs.Replays.{Replay};

    ghost Value = { Option Replay };

    ghost view = { λ a. option_map (λ p. record { peer = p; names = a.names.entries }) a.peer };
}

impl Replaying {
    fn new(alloc: Global, tree: Tree) -> Replaying
        ensures { result ≡ Some (new_replay tree) }
    {
        Replaying {
            alloc,
            peer: Peer::new(tree, Vec::new(alloc)),
            names: BTreeMap::new(alloc),
        }
    }

    // A connection begins. Answers the peer's number of it.
    fn begin(&mut self, connection: u64) -> Result<u64, LineFault>
        ensures begun { OnOk result (IfSome self.old (λ r. self.new ≡ Some (begun r connection))) }
        ensures number { IfOk result (λ m. IfSome self.old (λ r. m ≡ least_free r.peer.connections)) }
        ensures some { OnOk result (IsSome self.old) }
        ensures fault { IfErr result (λ e. e ≡ LineFault.NoMemory) }
    {
        match self.peer.connect() {
            Ok(name) => {
                self.names.insert(connection, name)?;
                Ok(name)
            }
            Err(_) => Err(LineFault::NoMemory),
        }
    }

    // The peer takes a message.
    fn call(&mut self, name: u64, message: ClientMessage) -> Result<(), LineFault>
        ensures called { OnOk result
            (IfSome self.old (λ r. self.new ≡ Some (called r (Message name message ∷ [])))) }
        ensures some { OnOk result (IsSome self.old) }
        ensures fault { IfErr result (λ e. e ≡ LineFault.NoMemory) }
    {
        match self.peer.message(name, message) {
            Ok(_) | Err(PeerError::UnknownConnection) => Ok(()),
            Err(PeerError::Failed | PeerError::NoMemory) => Err(LineFault::NoMemory),
        }
    }

    // A connection asks for something.
    fn ask(&mut self, connection: u64, message: ClientMessage) -> Result<(), LineFault>
        ensures asked { OnOk result
            (IfSome self.old (λ r. self.new ≡ Some (asked r connection message))) }
        ensures some { OnOk result (IsSome self.old) }
        ensures fault { IfErr result (λ e. e ≡ LineFault.NoMemory) }
    {
        let name = match self.names.get(&connection) {
            Some(name) => *name,
            None => self.begin(connection)?,
        };
        self.call(name, message)
    }

    // A connection ends.
    fn leave(&mut self, connection: u64) -> Result<(), LineFault>
        ensures left { OnOk result (IfSome self.old (λ r. self.new ≡ Some (left r connection))) }
        ensures fault { IfErr result (λ e. e ≡ LineFault.NoMemory) }
    {
        match self.names.remove(&connection) {
            Some(name) => end_one(&mut self.peer, name),
            None => Ok(()),
        }
    }

    // A turn of a connection's end, in which so many requests are done.
    fn turn(&mut self, connection: u64, count: usize) -> Result<(), LineFault>
        ensures turned { OnOk result
            (IfSome self.old (λ r. self.new ≡ Some (turned r connection count))) }
        ensures fault { IfErr result (λ e. e ≡ LineFault.NoMemory) }
    {
        let name = match self.names.get(&connection) {
            Some(name) => *name,
            None => return Ok(()),
        };
        if turn_one(&mut self.peer, name, count)? {
            let _gone = self.names.remove(&connection);
        }
        Ok(())
    }

    // Takes a message of a connection.
    fn take_message(&mut self, connection: u64, text: &str) -> Result<(), LineFault>
        ensures ok { OnOk result
            (IfSome self.old (λ r. IsSome self.new × (told r connection text.now ≡ self.new))) }
        ensures fault { IfErr result (λ e. ((e ≡ LineFault.BadLine)
            × IfSome self.old (λ r. told r connection text.now ≡ None))
            ⊎ (e ≡ LineFault.NoMemory)) }
    {
        match ClientMessage::read(self.alloc, text) {
            Ok(message) => self.ask(connection, message),
            Err(WireError::NoMemory) => Err(LineFault::NoMemory),
            Err(
                WireError::NotJson
                | WireError::UnknownKind
                | WireError::BadField
                | WireError::BadTree,
            ) => Err(LineFault::BadLine),
        }
    }

    // Takes what a line says of a connection that has not ended.
    fn take_text(&mut self, connection: u64, text: &str) -> Result<(), LineFault>
        ensures ok { OnOk result
            (IfSome self.old (λ r. IsSome self.new × (after_entry r (connection, Some text.now) ≡ self.new))) }
        ensures fault { IfErr result (λ e. ((e ≡ LineFault.BadLine)
            × IfSome self.old (λ r. after_entry r (connection, Some text.now) ≡ None))
            ⊎ (e ≡ LineFault.NoMemory)) }
    {
        match number_in(text.as_bytes()) {
            Some(count) => self.turn(connection, count as usize),
            None => self.take_message(connection, text),
        }
    }

    // Takes a line, without its line feed.
    fn take_line(&mut self, line: &[u8]) -> Result<(), LineFault>
        ensures ok { OnOk result
            (IfSome self.old (λ r. IsSome self.new × (after_line r line.now ≡ self.new))) }
        ensures fault { IfErr result (λ e. ((e ≡ LineFault.BadLine)
            × IfSome self.old (λ r. after_line r line.now ≡ None)) ⊎ (e ≡ LineFault.NoMemory)) }
    {
        let (connection, text) = entry_in(self.alloc, line)?;
        match text {
            Some(text) => self.take_text(connection, text.as_str()),
            None => self.leave(connection),
        }
    }

    // Takes the line that ends at that place.
    fn take_first(&mut self, rest: &[u8], at: usize) -> Result<(), LineFault>
        requires { position is_feed rest.now ≡ Some at }
        ensures ok { OnOk result (IfSome self.old (λ r. IsSome self.new
            × (after_pieces r (pieces_of rest.now)
            ≡ option_and_then (λ s. after_pieces s (pieces_of (drop (at + 1) rest.now))) self.new))) }
        ensures fault { IfErr result (λ e. ((e ≡ LineFault.BadLine)
            × IfSome self.old (λ r. after_pieces r (pieces_of rest.now) ≡ None))
            ⊎ (e ≡ LineFault.NoMemory)) }
    {
        self.take_line(&rest[..at])
    }

    // Takes the lines of a journal. Answers how many bytes stand behind the last line feed.
    fn take_lines(&mut self, journal: &[u8]) -> Result<usize, LineFault>
        ensures ok { OnOk result (IfSome self.old (λ r. IsSome self.new
            × (after_pieces r (pieces_of journal.now) ≡ self.new))) }
        ensures torn { IfOk result (λ n. n ≡ torn_length (pieces_of journal.now)) }
        ensures fault { IfErr result (λ e. ((e ≡ LineFault.BadLine)
            × IfSome self.old (λ r. after_pieces r (pieces_of journal.now) ≡ None))
            ⊎ (e ≡ LineFault.NoMemory)) }
    {
        let mut rest = journal;
        'lines: while let Some(at) = feed_in(rest) {
            self.take_first(rest, at)?;
            rest = behind(rest, at);
        }
        Ok(rest.len())
    }
}

// What stands behind the line that ends at that place.
#[tactic(auto, using(crate::proofs::Pieces::from_place, crate::proofs::Pieces::first_torn))]
fn behind(rest: &[u8], at: usize) -> &[u8]
    requires { position is_feed rest.now ≡ Some at }
    ensures value { result.now ≡ drop (at + 1) rest.now }
    ensures torn { torn_length (pieces_of rest.now) ≡ torn_length (pieces_of result.now) }
    ensures shorter { length result.now < length rest.now }
{
    &rest[at + 1..]
}

// A connection of the peer ends.
fn end_one(peer: &mut Peer, name: u64) -> Result<(), LineFault>
    ensures ended { OnOk result
        (IfSome peer.old (λ p. peer.new ≡ Some (outcome p (Disconnect name)).0)) }
    ensures fault { IfErr result (λ e. e ≡ LineFault.NoMemory) }
{
    match peer.disconnect(name) {
        Ok(_) | Err(PeerError::UnknownConnection) => Ok(()),
        Err(PeerError::Failed | PeerError::NoMemory) => Err(LineFault::NoMemory),
    }
}

// A turn of the end of a connection of the peer. Answers whether nothing of it is left.
fn turn_one(peer: &mut Peer, name: u64, count: usize) -> Result<bool, LineFault>
    ensures turned { OnOk result
        (IfSome peer.old (λ p. peer.new ≡ Some (outcome p (EndSome name count)).0)) }
    ensures last { IfOk result (λ last. IfSome peer.old (λ p. last ≡ has_ended p name count)) }
    ensures fault { IfErr result (λ e. e ≡ LineFault.NoMemory) }
{
    match peer.end_some(name, count) {
        Ok((_, is_last)) => Ok(is_last),
        Err(PeerError::UnknownConnection) => Ok(false),
        Err(PeerError::Failed | PeerError::NoMemory) => Err(LineFault::NoMemory),
    }
}

// The numbers of the connections that are there.
fn numbers_of(alloc: Global, names: &BTreeMap<u64, u64>) -> Result<Vec<u64>, AllocError>
    ensures { IfOk result (λ all. all.items ≡ keys_of names.now.entries) }
{
    let mut all = Vec::with_capacity(alloc, names.len())?;
    for (number, _) in names.iter() {
        all.push(*number)?;
    }
    Ok(all)
}

// All connections that are there end.
fn end_all(peer: &mut Peer, names: &BTreeMap<u64, u64>) -> Result<(), LineFault>
    ensures ended { OnOk result
        (IfSome peer.old (λ p. peer.new ≡ Some (after_all p (ends_of names.now.entries)))) }
    ensures fault { IfErr result (λ e. e ≡ LineFault.NoMemory) }
{
    for (_, name) in names.iter() {
        end_one(peer, *name)?;
    }
    Ok(())
}

/// Does what a journal says over a tree, as a peer does at which nothing is denied: each request in the
/// order of the lines, and what a connection asked for at its end where its end stands, or else at the
/// journal's end. What stands behind the last line feed is passed over.
///
/// # Errors
///
/// `BadLine` where a line is none of a journal, and `NoMemory`.
pub fn replay_over(alloc: Global, tree: Tree, journal: &[u8]) -> Result<Replayed, LineFault>
    ensures tree { IfOk result (λ a. option_map (λ r. (closed r).tree) (replay_of tree journal.now)
        ≡ Some a.tree) }
    ensures left { IfOk result (λ a. option_map (λ r. keys_of r.names) (replay_of tree journal.now)
        ≡ Some a.left.items) }
    ensures torn { IfOk result (λ a. a.torn ≡ torn_length (pieces_of journal.now)) }
    ensures fault { IfErr result (λ e. ((e ≡ LineFault.BadLine) × (replay_of tree journal.now ≡ None))
        ⊎ (e ≡ LineFault.NoMemory)) }
{
    let mut replaying = Replaying::new(alloc, tree);
    let torn = replaying.take_lines(journal)?;
    let left = numbers_of(alloc, &replaying.names)?;
    end_all(&mut replaying.peer, &replaying.names)?;
    let tree = replaying.peer.tree().copy(alloc)?;
    Ok(Replayed { tree, left, torn })
}

// ---- what holds of journals

/// What was written to a journal is done again, and no more of it than its whole lines: the replay of the
/// lines of entries, whatever stands behind the last line feed, does these entries.
pub fn reading_law()
    ensures { ReadsBack }
{}
