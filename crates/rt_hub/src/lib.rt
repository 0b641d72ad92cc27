//! The hub: a peer, and for each of its connections the texts that wait for it. It reads and sends nothing
//! itself: whoever carries the texts gives it those that came, and takes those that wait.
//!
//! ```text
//! let mut hub = Hub::new(alloc, Tree::null(), Vec::new(alloc), Bounds::full());
//! let connection = hub.connect()?;                                  // 1
//! hub.take(connection, "{\"k\":\"listen\",\"path\":\"/a\",\"tag\":1}")?; // something was sent to 1
//! hub.next(connection)                                              // data of tag 1 at /a
//! let (told, is_last) = hub.end_some(connection, 256)?;             // to whom something was sent then
//! ```
//!
//! More may be sent to a connection than it takes. What waits for it is bounded: where as much waits as may,
//! and a call has something more for it, its line is over. Nothing waits any more then, and nothing will: it
//! has lost something, and is to be ended. So is a connection that has more listens than one may have. A
//! request for the end of one that has as many as it may is refused. So is a write that would make the tree's
//! text longer than one that is sent; a listen to such a tree is revoked.
//!
//! A turn carries texts between a hub and a door, which gives and takes them, for one connection:
//!
//! ```text
//! let mut notes = Notes::new(alloc);
//! take_turn(alloc, &mut hub, &mut door, connection, 64, &mut notes, log)?; // takes 64 messages
//! hand_over(&mut hub, &mut door, connection)?;                             // gives it what waits
//! leave(&mut hub, connection, &mut notes.told)?;                           // a turn of its end
//! ```
//!
//! The notes then have the connections to which something was sent, what this one is answered for requests
//! that can't be taken, and those that were accepted. What a door gives and takes is seen by contracts where
//! it is known, as the bytes of std's readers and writers are (`specs/Doors.antt`).
//!
//! A contract sees a hub as what it holds (`specs/Hubs.antt`), none once it has lacked memory.
#![tactic(auto)]

mod calls;
mod door;
mod examples;
mod hub;
mod lines;
mod log;
mod refusal;
mod turn;

pub use door::{Door, DoorRead, Flushed};
pub use examples::{line_examples, others_are_not_answered, refusals_say_why};
pub use hub::{Accepted, Hub, Notes, TURN_ACTIONS, Taken, leave, queue_law, verdict_law};
pub use refusal::{
    Bounds, MAX_ACTIONS, MAX_LISTENS, MAX_TREE_BYTES, MAX_WAITING_BYTES, MAX_WAITING_IN_ALL,
    MAX_WAITING_MESSAGES, Verdict, When,
};
pub use turn::{Handed, ROUNDS, Turn, hand_over, take_turn};
