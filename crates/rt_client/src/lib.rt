//! The client that threads share: one lock round its core and a lane per seat; each thread has a seat
//! of its own. Here it also stands which keys push ids are.
//!
//! ```text
//! let (client, mut seats) = Client::open(alloc, 1, &[8, 8], Limits::full())?;
//! let mut shared = client.shared.lock(rt);
//! shared.connected()?;
//! let listener = shared.listen(&mut seats[0], query)?;                // the listener's number
//! seats[0].next()                                                     // the receipt; waits for nobody
//! client.notify(shared);                                              // lets the lock go, wakes who waits
//! deliver(rt, &client, &mut seats[0], &mut sink, &gate, 100)?;        // settles and hands out
//! ```
//!
//! [`Client`] has the same calls, each of which locks it and notifies. A thread sleeps until there is
//! something to do, and is told to stop where there will be nothing more:
//!
//! ```text
//! client.set(rt, &mut seats[0], path, tree)?;                         // locks, calls, notifies
//! while client.wait(rt, &mut seats[0])? { .. }                        // until its ring holds an item
//! seats[0].for_each(rt, &client, |item| show(rt, item))??;            // each item as it comes, until told to stop
//! while let Some(message) = client.wait_outgoing(rt)? { .. }          // until one is to be sent
//! client.stop(rt);                                                    // both end; `wake` asks gates again
//! ```
//!
//! What the lock keeps, as the invariant of [`Shared`]: the client has failed, or its world holds what
//! holds between steps, and what waits for each open seat, taken on from what was handed over to it, is
//! just what the core knows of the seat. Whoever has locked a client learns that by
//! [`Shared::has_failed`], and so can use the laws of seats and of steps behind the lock.
//!
//! ```text
//! let id = ids.next(now_ms, digits)?;                       // Ok(*b"-NjEtLV-------------")
//! let key = Key::parse(alloc, str::from_utf8(&id)?)?;       // a key, by the law `ids_are_keys`
//! ```
//!
//! From December 1993 to May 2109 the keys that one `PushIds` gives rise in key order, by the law
//! `keys_rise`.
//!
//! Threads may share a client, and each may be handed a seat, by the law `crossing_law`. A call for which
//! a seat's mailbox is full is handed back by [`try_call`].
//!
//! A seat is told of each step its own call's receipt and then its notes. One who takes all of that,
//! in order, knows after any steps just what the core knows of the seat: its listeners with the rows
//! of their views, and its unsettled requests, by the law `mirror_law`. Snapshots that take it show of each
//! of the seat's listeners the query and the view that the core has, by the law `showing_law`.
#![tactic(auto)]

mod client;
mod delivery;
mod error;
pub mod examples;
mod held;
mod lanes;
mod laws;
mod seat;
mod shared;

pub use client::{Client, ClientNumbers};
pub use delivery::{Gate, Sink, deliver, turn};
pub use error::ClientError;
pub use laws::{
    answering_law, crossing_law, following_law, ids_are_keys, keeping_law, keys_rise, mirror_law,
    push_key_examples, reflection_law, showing_law,
};
pub use rt_wire::Action;
pub use rt_world::Call;
pub use seat::Seat;
pub use shared::{Done, MAX_SEATS, Shared, Uncalled, Unclosed, try_call, with_core, with_seat};
