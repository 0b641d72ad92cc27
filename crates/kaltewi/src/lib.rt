//! A client library for the Firebase Realtime Database, proved: one door to what an application calls.
//!
//! A line of your `crates.txt` names this crate alone:
//!
//! ```text
//! my_app: kaltewi anyhow
//! ```
//!
//! One JSON tree lives on a server. A listener asks for a part of it by a query, and is told the exact list
//! of changes of its view; what the client itself writes shows at once.
//!
//! | What you want | Where it begins |
//! |---|---|
//! | paths and trees, read from JSON and written | [`Path::parse`], [`Tree::read`], [`Tree::text`] |
//! | a query: an order, a range, a limit | [`Query::at`], [`Draft`] |
//! | a client that threads share, a seat for each | [`Client::open`], [`Shared`], [`Seat`], [`deliver`] |
//! | to know what a seat was told | [`Seat::for_each`], [`Mirror`], [`Item`], [`Batch`], [`Change`] |
//! | to show it | [`Snapshots::shown`], [`Snapshot`], `Shared::view` |
//! | the messages of one server connection | [`ServerMessage::read`], [`ClientMessage::text`] |
//! | the core alone, with no thread and no lock | [`Core`], [`Step`], [`run`] |
//! | its connection over a WebSocket, in a thread of its own | [`Linked::connect_while`], [`Linked::both`], [`Link::open`] |
//! | to write and wait for the answer, and by a push id | [`Linked::answer`], [`Linked::push`] |
//! | a small server in the same process, for tests | [`Peer`] |
//!
//! A client in threads:
//!
//! ```text
//! let (client, mut seats) = Client::open(alloc, 1, &[64], Limits::full())?;
//! let query = Query::at(Path::parse(alloc, "/chat")?).done();
//! let listener = client.listen(rt, &mut seats[0], query)?;
//! client.server_message(rt, ServerMessage::read(alloc, text)?)?;   // in the connection's thread
//! while client.wait(rt, &mut seats[0])? {                          // sleeps until something is there
//!     while let Some(item) = seats[0].next() {                     // with no lock
//!         snapshots.take(&item)?;                                  // what each listener shows
//!     }
//! }
//! ```
//!
//! Each name has an example above the line that hands it on, in the module of its topic: `trees`, `queries`,
//! `steps`, `client`, `link`, `told`, `messages`, `ids`, `errors`. They are quoted from the programs
//! `examples/calls` and `examples/link`. There `rt` is the runtime that `main` is given, and `alloc` its
//! allocator.
//!
//! `examples/chat` and `examples/threads` are whole programs over this crate. Each call's contract, which says
//! all that it does, stands in the crate that it comes from; `docs/PROOFS.md` has them by crate.
#![tactic(auto)]

mod client;
mod errors;
mod ids;
mod link;
mod messages;
mod queries;
mod steps;
mod told;
mod trees;

pub use client::{
    Call, Client, ClientNumbers, Done, Gate, MAX_SEATS, Seat, Shared, Sink, Uncalled, Unclosed,
    crossing_law, deliver, try_call, turn, with_core, with_seat,
};
pub use errors::{
    ClientError, CoreError, MailError, PeerError, PushError, QueryError, TreeError, WireError,
};
pub use ids::{PushIds, ids_are_keys, keys_rise};
pub use link::{
    Answer, Answered, Bell, Connection, Link, LinkEnd, LinkFault, LinkTurn, Linked, Lost, Passed,
    Pushed, Unpushed, link_crossing_law,
};
pub use messages::{
    Asked, ClientMessage, ConnectionLoad, Part, Parts, Peer, Reason, Sent, ServerMessage,
};
pub use queries::{Draft, Index, Limit, Mark, Query, Row, Shown, query_text};
pub use steps::{
    Action, Answers, Body, Core, Ending, Kept, KeptList, Limits, NoRoom, Note, Notes, Outcome,
    Report, Room, Step, run, run_in,
};
pub use told::{
    Batch, Change, Inbox, Item, Kinds, Mirror, Receipt, Snapshot, Snapshots, apply_changes,
    of_kinds,
};
pub use trees::{
    Entries, Key, Leaf, LeafRef, NoSlot, OrdMap, Path, Tree, tree_from_value, tree_of_value,
    value_of_tree, write_leaf, write_tree,
};
