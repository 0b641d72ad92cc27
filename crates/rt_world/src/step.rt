// One event of the core.
ghost use Rattle.std.specs.Prelude.{◌≡◌, IfOk};
ghost use Rattle.rt_tree.specs.PathTree.{null};
ghost use Rattle.rt_wire.specs.declared.request.Action.TheVariants.{Put, Merge};
ghost use Rattle.rt_wire.specs.declared.request.Ending.TheVariants.{Run, Cancel};
ghost use Rattle.rt_world.specs.Calls.{step_of, step_of_message};
ghost use Rattle.rt_world.specs.declared.step.Call.TheVariants as call;

use rt_query::Query;
use rt_tree::{Path, Tree};
use rt_wire::{Action, Asked, Ending, Parts, Reason, ServerMessage};
use rt_writes::Entries;
use std::alloc::{AllocError, Global};

/// One event of the core: a seat's call, a message of the server, or a change of the connection.
#[derive(Drop)]
pub enum Step {
    /// A seat registers a listener.
    Listen { seat: u64, query: Query },
    /// A seat ends a listener of its own.
    Unlisten { seat: u64, listener: u64 },
    /// A seat writes: the write shows at once, and is pending until the server settles it.
    Write { seat: u64, action: Action },
    /// A seat asks for what is to be done when the connection ends.
    OnDisconnect { seat: u64, ending: Ending },
    /// The server pushes a tree at a path, on the listen with that tag.
    Data { tag: u64, path: Path, tree: Tree },
    /// The server pushes several trees, each at its path, on the listen with that tag.
    DataMerge { tag: u64, entries: Entries },
    /// The server pushes several parts, each on the listen with its tag: they show together.
    Push { parts: Parts },
    /// The server accepts a request.
    Accepted { id: u64 },
    /// The server refuses a request.
    Refused { id: u64, why: Reason },
    /// The server ends a listen.
    Revoked { tag: u64, why: Reason },
    /// A connection is opened.
    Connected,
    /// The connection ends.
    Disconnected,
    /// A seat goes: its listeners end, and its requests stay.
    CloseSeat { seat: u64 },
}

// ---- a seat's own call, and the step of each call and of each message of the server

/// A seat's own call, which is answered with a receipt.
#[derive(Drop)]
pub enum Call {
    /// Registers a listener.
    Listen { query: Query },
    /// Ends a listener of the seat.
    Unlisten { listener: u64 },
    /// Writes.
    Write { action: Action },
    /// Asks for what is to be done when the connection ends.
    OnDisconnect { ending: Ending },
}

impl Call {
    /// Registers a listener, which the seat is told of from then on.
    pub fn listen(query: Query) -> Call
        ensures { result ≡ call.Listen query }
    {
        Call::Listen { query }
    }

    /// Ends a listener of the seat.
    pub fn unlisten(listener: u64) -> Call
        ensures { result ≡ call.Unlisten listener }
    {
        Call::Unlisten { listener }
    }

    /// Sets a tree at a path; null removes.
    pub fn set(path: Path, tree: Tree) -> Call
        ensures { result ≡ call.Write (Put path tree) }
    {
        let action = Action::Put { path, tree };
        Call::Write { action }
    }

    /// Sets several trees, each at its path, in one write.
    pub fn update(entries: Vec<(Path, Tree)>) -> Call
        ensures { result ≡ call.Write (Merge entries.items) }
    {
        let entries = Entries::of(entries);
        let action = Action::Merge { entries };
        Call::Write { action }
    }

    /// Removes what is at a path: sets null there.
    pub fn remove(path: Path) -> Call
        ensures { result ≡ call.Write (Put path null) }
    {
        Call::set(path, Tree::null())
    }

    /// Asks the server for a write, which it makes when the connection ends.
    pub fn on_disconnect(action: Action) -> Call
        ensures { result ≡ call.OnDisconnect (Run action) }
    {
        let ending = Ending::Run(action);
        Call::OnDisconnect { ending }
    }

    /// Drops what was to be written at and below a path when the connection ends.
    pub fn cancel_disconnect(path: Path) -> Call
        ensures { result ≡ call.OnDisconnect (Cancel path) }
    {
        let ending = Ending::Cancel(path);
        Call::OnDisconnect { ending }
    }

    /// The call as a step of that seat. Keys and trees are shared.
    ///
    /// # Errors
    ///
    /// Want of memory.
    pub fn step(&self, alloc: Global, seat: u64) -> Result<Step, AllocError>
        ensures { IfOk result (λ step. step ≡ step_of seat self.now) }
    {
        Ok(match self {
            Call::Listen { query } => Step::Listen {
                seat,
                query: query.copy()?,
            },
            Call::Unlisten { listener } => Step::Unlisten {
                seat,
                listener: *listener,
            },
            Call::Write { action } => Step::Write {
                seat,
                action: action.copy(alloc)?,
            },
            Call::OnDisconnect { ending } => Step::OnDisconnect {
                seat,
                ending: ending.copy(alloc)?,
            },
        })
    }

    /// The call as a step of that seat.
    pub fn into_step(self, seat: u64) -> Step
        ensures { result ≡ step_of seat self }
    {
        match self {
            Call::Listen { query } => Step::Listen { seat, query },
            Call::Unlisten { listener } => Step::Unlisten { seat, listener },
            Call::Write { action } => Step::Write { seat, action },
            Call::OnDisconnect { ending } => Step::OnDisconnect { seat, ending },
        }
    }
}

impl From<ServerMessage> for Step {
    ghost from_gives = { λ message step. step ≡ step_of_message message };

    /// The step of a message of the server.
    fn from(message: ServerMessage) -> Step {
        match message {
            ServerMessage::Data { tag, path, tree } => Step::Data { tag, path, tree },
            ServerMessage::DataMerge { tag, entries } => Step::DataMerge { tag, entries },
            ServerMessage::Push { parts } => Step::Push { parts },
            ServerMessage::Accepted { id } => Step::Accepted { id },
            ServerMessage::Refused { id, why } => Step::Refused { id, why },
            ServerMessage::Revoked { tag, why } => Step::Revoked { tag, why },
        }
    }
}

// ---- what the server is asked for and has not settled

/// An unsettled request, and the seat that is told of its end, unless that has gone.
#[derive(Drop)]
pub struct Request {
    pub id: u64,
    pub seat: Option<u64>,
    pub asked: Asked,
}
