// What a peer holds.
ghost use Rattle.std.specs.Prelude.{◌≡◌, ◌++◌, ◌∷◌, [], ◌==◌, ◌<◌, ◌≤◌, ℕ, true, false, length, not};
ghost use Rattle.std.specs.Prelude.{if◌then◌else◌, Some, IfNone, IfOk, IfSome, OnOk};
ghost use Rattle.std.specs.List.{All, filter, list_any};
ghost use Rattle.std.specs.Option.{option_copied};
ghost use Rattle.rt_writes.specs.Writes.{IsShallow};
ghost use Rattle.rt_peer.specs.Lengths.{capped, text_length};
ghost use Rattle.rt_peer.specs.Peers.{is_denied, is_known, least_free, listens_behind, new_peer, in_place};
ghost use Rattle.rt_peer.specs.Peers.{is_at, is_before};
ghost use Rattle.rt_peer.specs.Pushes.{bundled, pushes, pushes_after, seen as shown, tree_after, written};
ghost use Rattle.rt_peer.specs.Calls.{actions_of, answered, asked as outcome, cancelled, connected, deferred};
ghost use Rattle.rt_peer.specs.Calls.{disconnected, ended, greeted, is_bad, kept, listened, one, refusal};
ghost use Rattle.rt_peer.specs.Calls.{unlistened, wrote};
ghost use Rattle.rt_peer.specs.Turns.{first_actions, is_last_turn, turn_begun, turned};
ghost use Rattle.rt_peer.specs.inside.Spots.{listen_of};
ghost use Rattle.rt_wire.specs.declared.server.ServerMessage.TheVariants as ServerMessage;
ghost use Rattle.rt_wire.specs.declared.request.Asked.TheVariants as Asked;
ghost use Rattle.rt_wire.specs.declared.request.Ending.TheVariants as Ending;

use crate::actions::{Actions, Deferred};
use crate::connections::{ConnectionLoad, Connections, Rising};
use crate::listens::{ListenQuery, Listens, Owner};
use crate::pushes::{Sent, bundle, push_all};
use crate::views::{Views, seen};
use crate::write::{Measured, Write, text_len};
use rt_query::Query;
use rt_tree::{Path, Tree};
use rt_wire::{Action, Asked, ClientMessage, Ending, Reason, ServerMessage, some_stands_too_deep};
use rt_writes::Entries;
use std::alloc::{AllocError, Global};
use std::marker::Model;
use std::mem::replace;

// The tree with the listens to it, the denied paths, the known connections and those that read version 2, and what
// is to be done when they end, by connection and number.
pub(crate) struct State {
    board: Board,
    denied: Vec<Path>,
    connections: Connections,
    newer: Rising,
    actions: Actions,
}

impl Drop for State {
    fn drop(self) {
        let State {
            board: _,
            denied: _,
            connections: _,
            newer: _,
            actions: _,
        } = self;
    }
}

impl Model for State {
    ghost use Rattle.rt_peer.specs.Peers.{Peer};

    ghost Value = { Peer };

    ghost view = { λ a. record {
      tree = a.board.tree;
      denied = a.denied.items;
      connections = a.connections;
      newer = a.newer;
      listens = a.board.listens;
      actions = a.actions;
    } };
}

impl State {
    pub(crate) fn new(tree: Tree, denied: Vec<Path>) -> State
        ensures { result ≡ new_peer tree denied.items }
    {
        let alloc = *denied.allocator();
        State {
            board: Board::new(alloc, tree),
            denied,
            connections: Connections::new(alloc),
            newer: Rising::new(alloc),
            actions: Actions::new(alloc),
        }
    }

    // The allocator of its lists.
    fn alloc(&self) -> Global {
        *self.denied.allocator()
    }

    pub(crate) fn tree(&self) -> &Tree
        ensures { result.now ≡ self.now.tree }
    {
        self.board.tree()
    }

    // How many bytes the tree has as JSON; the largest number where it has more.
    pub(crate) fn text_len(&self) -> usize
        ensures { result ≡ capped (text_length self.now.tree) }
    {
        self.board.text_len()
    }

    // How many it would have with the entries.
    pub(crate) fn text_len_with(&self, entries: &[(Path, Tree)]) -> Result<usize, AllocError>
        requires { All IsShallow entries.now }
        ensures { IfOk result (λ len. len ≡ capped (text_length (written self.now.tree entries.now))) }
    {
        self.board.text_len_with(self.alloc(), entries)
    }

    // How many bytes has as JSON what the query shows; the largest number where it has more.
    pub(crate) fn seen_len(&self, query: &Query) -> Result<usize, AllocError>
        ensures { IfOk result (λ len. len ≡ capped (text_length (shown query.now self.now.tree))) }
    {
        let shown = seen(self.alloc(), query, self.board.tree())?;
        Ok(text_len(&shown))
    }

    pub(crate) fn knows(&self, connection: u64) -> bool
        ensures { result ≡ is_known self.now.connections connection }
    {
        self.connections.contains(connection)
    }

    // How many listens and actions the connection has.
    pub(crate) fn held(&self, connection: u64) -> ConnectionLoad
        ensures listens { result.listens
            ≡ length (filter (λ l. l.connection == connection) self.now.listens) }
        ensures actions { result.actions ≡ length (actions_of self.now connection) }
    {
        ConnectionLoad {
            listens: self.board.count_of(connection),
            actions: self.actions.count_of(connection),
        }
    }

    // The connection's next listen behind that tag: its tag, and its query.
    pub(crate) fn next_listen(&self, connection: u64, above: Option<u64>) -> Option<(u64, &Query)>
        ensures some { IfSome result (λ next. listens_behind connection above self.now.listens
            ≡ record { connection = connection; tag = next.0; query = next.1.now }
            ∷ listens_behind connection (Some next.0) self.now.listens) }
        ensures none { IfNone result (listens_behind connection above self.now.listens ≡ []) }
    {
        self.board.next_of(connection, above)
    }

    // A new connection, with the least free number.
    pub(crate) fn connect(&mut self) -> Result<u64, AllocError>
        ensures number { IfOk result (λ n. n ≡ least_free self.old.connections) }
        ensures fresh { IfOk result (λ n. is_known self.old.connections n ≡ false) }
        ensures least { IfOk result (λ m. (n : ℕ) → 1 ≤ n → n < m
            → is_known self.old.connections n ≡ true) }
        ensures connected { OnOk result (self.new ≡ connected self.old) }
    {
        self.connections.add()
    }

    fn is_denied(&self, path: &Path) -> bool
        ensures { result ≡ is_denied self.now.denied path.now }
    {
        self.denied.iter().any(|denied| denied.is_prefix_of(path) || path.is_prefix_of(denied))
    }

    fn is_any_denied(&self, entries: &[(Path, Tree)]) -> bool
        ensures { result ≡ list_any (λ a. is_denied self.now.denied a.0) entries.now }
    {
        entries.iter().any(|entry| self.is_denied(&entry.0))
    }

    // Why a request with these entries is refused, if it is.
    fn refusal(&self, entries: &Entries) -> Option<&'static str>
        ensures { option_copied result ≡ refusal self.now.denied entries.now }
    {
        if is_bad(entries) {
            Some("bad")
        } else if self.is_any_denied(entries.as_slice()) {
            Some("denied")
        } else {
            None
        }
    }

    // From now on the connection reads version 2, or version 1.
    fn greet(&mut self, connection: u64, version: u64) -> Result<Vec<Sent>, AllocError>
        ensures peer { OnOk result (self.new ≡ (greeted self.old connection version).0) }
        ensures sent { IfOk result (λ sent. sent.items ≡ (greeted self.old connection version).1) }
    {
        self.newer.mark(connection, version >= 2)?;
        Ok(Vec::new(self.alloc()))
    }

    // Keeps a listen, in the place of an older one with its tag.
    fn keep(&mut self, connection: u64, tag: u64, query: &Query) -> Result<(), AllocError>
        ensures { OnOk result (self.new ≡ kept self.old connection tag query.now) }
    {
        let alloc = self.alloc();
        let query = ListenQuery::new(query.copy()?);
        self.board.keep(alloc, Owner { connection, tag }, query)
    }

    // A listen begins, or is revoked.
    fn listen(&mut self, connection: u64, tag: u64, query: &Query) -> Result<Vec<Sent>, AllocError>
        ensures peer { OnOk result (self.new ≡ (listened self.old connection tag query.now).0) }
        ensures sent { IfOk result
            (λ sent. sent.items ≡ (listened self.old connection tag query.now).1) }
    {
        let alloc = self.alloc();
        if self.is_denied(query.path()) {
            return revoke(alloc, connection, tag, "denied");
        }
        self.keep(connection, tag, query)?;
        let path = query.path().copy()?;
        let tree = seen(alloc, query, self.board.tree())?;
        one(alloc, connection, ServerMessage::Data { tag, path, tree })
    }

    // A listen ends, if there is one with that tag.
    fn unlisten(&mut self, connection: u64, tag: u64)
        ensures { self.new ≡ (unlistened self.old connection tag).0 }
    {
        self.board.remove(Owner { connection, tag });
    }

    // Puts the entries into the tree, and adds what the listens are sent.
    fn run(&mut self, sent: &mut Vec<Sent>, entries: &[(Path, Tree)]) -> Result<(), AllocError>
        requires { All IsShallow entries.now }
        ensures peer { OnOk result
            (self.new ≡ record self.old { tree = written self.old.tree entries.now }) }
        ensures sent { OnOk result (sent.new.items ≡ sent.old.items
            ++ bundled self.old.newer
            (pushes self.old.tree (written self.old.tree entries.now) entries.now self.old.listens)) }
    {
        let alloc = self.alloc();
        let pushes = self.board.put(alloc, entries)?;
        let mut told = bundle(alloc, &self.newer, pushes)?;
        sent.append(&mut told)?;
        Ok(())
    }

    // A write that is not refused.
    fn accept(
        &mut self,
        connection: u64,
        id: u64,
        entries: &[(Path, Tree)],
    ) -> Result<Vec<Sent>, AllocError>
        requires { All IsShallow entries.now }
        ensures peer { OnOk result (self.new ≡ (wrote self.old connection id entries.now).0) }
        ensures sent { IfOk result
            (λ sent. sent.items ≡ (wrote self.old connection id entries.now).1) }
    {
        let mut sent = Vec::new(self.alloc());
        self.run(&mut sent, entries)?;
        sent.push(Sent {
            to: connection,
            message: ServerMessage::Accepted { id },
        })?;
        Ok(sent)
    }

    // An action that is not refused.
    fn defer(&mut self, connection: u64, id: u64, entries: Entries) -> Result<Vec<Sent>, AllocError>
        requires { All IsShallow entries }
        ensures peer { OnOk result (self.new ≡ (deferred self.old connection id entries).0) }
        ensures sent { IfOk result (λ sent. sent.items ≡ (deferred self.old connection id entries).1) }
    {
        self.actions.add(connection, id, entries)?;
        one(self.alloc(), connection, ServerMessage::Accepted { id })
    }

    // What is to be done at and below the path is dropped.
    fn cancel(&mut self, connection: u64, id: u64, path: &Path) -> Result<Vec<Sent>, AllocError>
        ensures peer { OnOk result (self.new ≡ (cancelled self.old connection id path.now).0) }
        ensures sent { IfOk result (λ sent. sent.items ≡ (cancelled self.old connection id path.now).1) }
    {
        let alloc = self.alloc();
        if self.is_denied(path) {
            return refuse(alloc, connection, id, "denied");
        }
        self.actions.drop_below(alloc, connection, path)?;
        one(alloc, connection, ServerMessage::Accepted { id })
    }

    // Does what a request asks for, or refuses it.
    fn ask(&mut self, connection: u64, id: u64, asked: &Asked) -> Result<Vec<Sent>, AllocError>
        ensures peer { OnOk result (self.new ≡ (outcome self.old connection id asked.now).0) }
        ensures sent { IfOk result
            (λ sent. sent.items ≡ (outcome self.old connection id asked.now).1) }
    {
        match asked {
            Asked::Now(action) => self.write(connection, id, action),
            Asked::AtDisconnect(Ending::Run(action)) => self.run_later(connection, id, action),
            Asked::AtDisconnect(Ending::Cancel(path)) => self.cancel(connection, id, path),
        }
    }

    // Makes a write, or refuses it.
    fn write(&mut self, connection: u64, id: u64, action: &Action) -> Result<Vec<Sent>, AllocError>
        ensures peer { OnOk result
            (self.new ≡ (outcome self.old connection id (Asked.Now action.now)).0) }
        ensures sent { IfOk result
            (λ sent. sent.items ≡ (outcome self.old connection id (Asked.Now action.now)).1) }
    {
        let alloc = self.alloc();
        let entries = action.entries(alloc)?;
        match self.refusal(&entries) {
            Some(why) => refuse(alloc, connection, id, why),
            None => self.accept(connection, id, entries.as_slice()),
        }
    }

    // Keeps an action, or refuses it.
    fn run_later(
        &mut self,
        connection: u64,
        id: u64,
        action: &Action,
    ) -> Result<Vec<Sent>, AllocError>
        ensures peer { OnOk result (self.new
            ≡ (outcome self.old connection id (Asked.AtDisconnect (Ending.Run action.now))).0) }
        ensures sent { IfOk result (λ sent. sent.items
            ≡ (outcome self.old connection id (Asked.AtDisconnect (Ending.Run action.now))).1) }
    {
        let alloc = self.alloc();
        let entries = action.entries(alloc)?;
        match self.refusal(&entries) {
            Some(why) => refuse(alloc, connection, id, why),
            None => self.defer(connection, id, entries),
        }
    }

    // Answers a message.
    pub(crate) fn message(
        &mut self,
        connection: u64,
        message: &ClientMessage,
    ) -> Result<Vec<Sent>, AllocError>
        ensures peer { OnOk result (self.new ≡ (answered self.old connection message.now).0) }
        ensures sent { IfOk result (λ sent. sent.items ≡ (answered self.old connection message.now).1) }
    {
        match message {
            ClientMessage::Hello { version } => self.greet(connection, *version),
            ClientMessage::Listen { tag, query } => self.listen(connection, *tag, query),
            ClientMessage::Unlisten { tag } => {
                self.unlisten(connection, *tag);
                Ok(Vec::new(self.alloc()))
            }
            ClientMessage::Ask { id, asked } => self.ask(connection, *id, asked),
        }
    }

    // Runs the actions, in order, and adds what the listens are sent.
    fn run_all(&mut self, sent: &mut Vec<Sent>, actions: &[Deferred]) -> Result<(), AllocError>
        ensures peer { OnOk result
            (self.new ≡ record self.old { tree = tree_after self.old.tree actions.now }) }
        ensures sent { OnOk result (sent.new.items
            ≡ sent.old.items ++ pushes_after self.old.newer self.old.listens self.old.tree actions.now) }
    {
        for action in actions {
            self.run(sent, action.entries().as_slice())?;
        }
        Ok(())
    }

    // A connection that ends reads nothing any more, and has no listens.
    fn leave(&mut self, connection: u64)
        ensures { self.new ≡ record self.old {
          newer = filter (λ m. not (m == connection)) self.old.newer;
          listens = filter (λ l. not (l.connection == connection)) self.old.listens;
        } }
    {
        self.newer.remove(connection);
        self.board.remove_of(connection);
    }

    // Forgets a connection and its listens, and gives its actions.
    fn forget(&mut self, connection: u64) -> Result<Vec<Deferred>, AllocError>
        ensures peer { OnOk result (self.new ≡ ended self.old connection) }
        ensures actions { IfOk result (λ own. own.items ≡ actions_of self.old connection) }
    {
        self.leave(connection);
        self.free_at_last(connection, true);
        let alloc = self.alloc();
        self.actions.take_of(alloc, connection)
    }

    // Its number is free where its last turn begins.
    fn free_at_last(&mut self, connection: u64, is_last: bool)
        ensures { self.new ≡ record self.old {
          connections = if is_last then filter (λ m. not (m == connection)) self.old.connections
              else self.old.connections;
        } }
    {
        if is_last {
            self.connections.remove(connection);
        }
    }

    // A turn begins: gives the first actions, so many at most, and whether it is the last turn.
    fn begin_turn(
        &mut self,
        connection: u64,
        most: usize,
    ) -> Result<(Vec<Deferred>, bool), AllocError>
        ensures peer { OnOk result (self.new ≡ turn_begun self.old connection most) }
        ensures first { IfOk result (λ turn. turn.0.items ≡ first_actions self.old connection most) }
        ensures last { IfOk result (λ turn. turn.1 ≡ is_last_turn self.old connection most) }
    {
        self.leave(connection);
        let alloc = self.alloc();
        let (first, is_last) = self.actions.take_some(alloc, connection, most)?;
        self.free_at_last(connection, is_last);
        Ok((first, is_last))
    }

    // A turn of a connection's end: runs so many of its actions at most, and answers whether it was the last.
    pub(crate) fn end_some(
        &mut self,
        connection: u64,
        most: usize,
    ) -> Result<(Vec<Sent>, bool), AllocError>
        ensures peer { OnOk result (self.new ≡ (turned self.old connection most).0) }
        ensures sent { IfOk result (λ turn. turn.0.items ≡ (turned self.old connection most).1) }
        ensures last { IfOk result (λ turn. turn.1 ≡ is_last_turn self.old connection most) }
    {
        let (first, is_last) = self.begin_turn(connection, most)?;
        let mut sent = Vec::new(self.alloc());
        self.run_all(&mut sent, &first)?;
        Ok((sent, is_last))
    }

    // Ends a connection, and runs its actions.
    pub(crate) fn disconnect(&mut self, connection: u64) -> Result<Vec<Sent>, AllocError>
        ensures peer { OnOk result (self.new ≡ (disconnected self.old connection).0) }
        ensures sent { IfOk result (λ sent. sent.items ≡ (disconnected self.old connection).1) }
    {
        let own = self.forget(connection)?;
        let mut sent = Vec::new(self.alloc());
        self.run_all(&mut sent, &own)?;
        Ok(sent)
    }
}

// Whether the entries overlap or stand too deep.
fn is_bad(entries: &Entries) -> bool
    ensures { result ≡ is_bad entries.now }
{
    entries.have_overlap() || some_stands_too_deep(entries)
}

// A reason of these words.
fn reason(alloc: Global, why: &str) -> Result<Reason, AllocError>
    ensures { IfOk result (λ reason. reason ≡ why.now) }
{
    Ok(Reason::of(String::from_str(alloc, why)?))
}

// One message for one connection.
fn one(alloc: Global, to: u64, message: ServerMessage) -> Result<Vec<Sent>, AllocError>
    ensures { IfOk result (λ sent. sent.items ≡ one to message) }
{
    let mut sent = Vec::new(alloc);
    sent.push(Sent { to, message })?;
    Ok(sent)
}

// A listen is revoked.
fn revoke(alloc: Global, to: u64, tag: u64, why: &str) -> Result<Vec<Sent>, AllocError>
    ensures { IfOk result (λ sent. sent.items ≡ one to (ServerMessage.Revoked tag why.now)) }
{
    let why = reason(alloc, why)?;
    one(alloc, to, ServerMessage::Revoked { tag, why })
}

// A request is refused.
fn refuse(alloc: Global, to: u64, id: u64, why: &str) -> Result<Vec<Sent>, AllocError>
    ensures { IfOk result (λ sent. sent.items ≡ one to (ServerMessage.Refused id why.now)) }
{
    let why = reason(alloc, why)?;
    one(alloc, to, ServerMessage::Refused { id, why })
}

// ---- the tree, and who listens to what of it

// The tree with its length, the listens, and a view for each filtered query that a write has met since somebody came to listen to
// it, or left.
pub(crate) struct Board {
    tree: Measured,
    listens: Listens,
    views: Views,
}

impl Drop for Board {
    fn drop(self) {
        let Board {
            tree: _,
            listens: _,
            views: _,
        } = self;
    }
}

impl Model for Board {
    ghost use Rattle.rt_peer.specs.inside.Boards.{Board};
    ghost use Rattle.rt_peer.specs.inside.Watched.{AreHeard, AreOf};

    ghost Value = { Board };

    ghost view = { λ a. record { tree = a.tree; listens = a.listens } };

    ghost invariant = { λ a. AreOf a.tree a.views × AreHeard a.listens a.views };
}

impl Board {
    pub(crate) fn new(alloc: Global, tree: Tree) -> Board
        ensures { result ≡ record { tree = tree; listens = [] } }
    {
        Board {
            tree: Measured::of(tree),
            listens: Listens::new(alloc),
            views: Views::new(alloc),
        }
    }

    pub(crate) fn tree(&self) -> &Tree
        ensures { result.now ≡ self.now.tree }
    {
        self.tree.tree()
    }

    // How many bytes the tree has as JSON; the largest number where it has more.
    pub(crate) fn text_len(&self) -> usize
        ensures { result ≡ capped (text_length self.now.tree) }
    {
        self.tree.text_len()
    }

    // How many it would have with the entries.
    pub(crate) fn text_len_with(
        &self,
        alloc: Global,
        entries: &[(Path, Tree)],
    ) -> Result<usize, AllocError>
        requires { All IsShallow entries.now }
        ensures { IfOk result (λ len. len ≡ capped (text_length (written self.now.tree entries.now))) }
    {
        let mut after = self.tree.copy(alloc)?;
        after.put_all(alloc, entries)?;
        Ok(after.text_len())
    }

    // How many listens the connection has.
    pub(crate) fn count_of(&self, connection: u64) -> usize
        ensures { result ≡ length (filter (λ l. l.connection == connection) self.now.listens) }
    {
        self.listens.count_of(connection)
    }

    // The connection's next listen behind that tag: its tag, and its query.
    pub(crate) fn next_of(&self, connection: u64, above: Option<u64>) -> Option<(u64, &Query)>
        ensures some { IfSome result (λ next. listens_behind connection above self.now.listens
            ≡ record { connection = connection; tag = next.0; query = next.1.now }
            ∷ listens_behind connection (Some next.0) self.now.listens) }
        ensures none { IfNone result (listens_behind connection above self.now.listens ≡ []) }
    {
        self.listens.next_of(connection, above)
    }

    // Takes out the owner's listen, if there is one. The view of its query is made anew where another one listens
    // to that.
    pub(crate) fn remove(&mut self, owner: Owner)
        ensures { self.new ≡ record self.old {
          listens = filter (λ l. not (is_at owner.connection owner.tag l)) self.old.listens;
        } }
    {
        match self.listens.remove(owner) {
            Some(heard) => self.views.forget(&heard),
            None => {}
        }
    }

    // Keeps a listen, in the place of the connection's older one with its tag.
    pub(crate) fn keep(
        &mut self,
        alloc: Global,
        owner: Owner,
        query: ListenQuery,
    ) -> Result<(), AllocError>
        ensures { OnOk result (self.new ≡ record self.old {
          listens = in_place is_before (listen_of (owner, query))
              (filter (λ l. not (is_at owner.connection owner.tag l)) self.old.listens);
        }) }
    {
        self.remove(owner);
        match self.listens.keep(owner, query) {
            Ok(()) => Ok(()),
            Err(_) => {
                self.views = Views::new(alloc);
                Err(AllocError)
            }
        }
    }

    // Takes out the connection's listens. Costs by these.
    pub(crate) fn remove_of(&mut self, connection: u64)
        ensures { self.new ≡ record self.old {
          listens = filter (λ l. not (l.connection == connection)) self.old.listens;
        } }
    {
        while let Some(first) = self.listens.first_of(connection) {
            self.remove(first);
        }
    }

    // Puts the entries into the tree, and gives what the listens are sent.
    pub(crate) fn put(
        &mut self,
        alloc: Global,
        entries: &[(Path, Tree)],
    ) -> Result<Vec<Sent>, AllocError>
        requires { All IsShallow entries.now }
        ensures board { OnOk result
            (self.new ≡ record self.old { tree = written self.old.tree entries.now }) }
        ensures sent { IfOk result (λ sent. sent.items ≡ pushes self.old.tree
            (written self.old.tree entries.now) entries.now self.old.listens) }
    {
        let views = replace(&mut self.views, Views::new(alloc));
        let write = Write::of(alloc, &mut self.tree, entries)?;
        let (views, sent) = push_all(alloc, &write, entries, &self.listens, views)?;
        self.views = views;
        Ok(sent)
    }
}
