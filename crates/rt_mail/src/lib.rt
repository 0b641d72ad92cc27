//! Mailboxes: what a seat is told, in order, each item once, and what one who takes it all knows.
//!
//! A [`Lane`] stays with the one who tells, an [`Inbox`] with the seat. What the ring has no room for
//! waits in the lane, and nothing is dropped. A contract sees a lane as its waiting items and its
//! mirror, and a ring as its items and its capacity (`specs/Lanes.antt`).
//!
//! ```
//! let mut inbox = Inbox::new(alloc, 2)?;
//! let mut lane = Lane::new(alloc);
//! lane.queue(Item::Settled { id: 1, why: None })?;     // it waits
//! lane.flush(&mut inbox);                              // the ring holds it, as far as there is room
//! while let Some(item) = inbox.next() {                // the seat takes it, and waits for nobody
//!     mirror.take(item)?;                              // listeners, their children, requests
//! }
//! ```
//!
//! [`Snapshots`] are what a seat's thread shows: of each of its listeners the query, and what it shows as a
//! tree and as rows in the query's order. They take the same items by reference. Beside a [`Mirror`], which
//! keeps children alone, they tell a path of which nothing is known yet from one where nothing is, and from
//! one where a leaf is.
//!
//! ```text
//! let mut snapshots = Snapshots::new(alloc);
//! while let Some(item) = seat.next() {
//!     snapshots.take(&item)?;                          // where memory lacks, it can be taken again
//! }
//! if let Some(shown) = snapshots.shown(listener)? {    // none while nothing is known
//!     for row in shown.rows() { .. }                   // in the query's order
//! }
//! ```
#![tactic(auto)]

mod error;
pub mod examples;
mod item;
mod lane;
mod laws;
mod mirror;

pub use error::MailError;
pub use item::{Item, Receipt};
pub use lane::{Inbox, Lane, MAX_CAPACITY, Unqueued};
pub use laws::{order_law, replay_law, snapshot_law};
pub use mirror::{Mirror, Snapshot, Snapshots};
