//! The link: a client's connection over a WebSocket, carried both ways by one thread, which sleeps while
//! there is nothing to do.
//!
//! ```text
//! let (client, mut seats) = Client::open(alloc, 1, &[64, 64], Limits::full())?;
//! let (mut link, linked) = Link::open(rt, alloc, client)?;
//! linked.ask(rt, &mut seats[0], Call::set(path, tree))?;   // in any thread: calls, and wakes the link
//! linked.client.wait(rt, &mut seats[0])?;                  // sleeps until the seat is told something
//! linked.answer(rt, &mut seats[0], request, most)?;        // waits until the request is answered
//! linked.keep_while(rt, alloc, &mut link, address, ends, work)     // connects, until the work is done
//! Linked::connect_while(rt, alloc, address, ends, work)?           // opens all of that for a work
//! ```
//!
//! [`Link::run`] connects, tells the client that it is connected, carries messages, and tells it that it is
//! disconnected. It can be run again: the client then makes its listens and its unanswered requests anew.
//! [`Link::keep`] is such a run behind a wait, which grows as long as no connection lasts, and
//! [`Linked::keep_while`] keeps a client connected while a work is done in a thread of its own.
//! So a write whose answer was lost reaches the server twice. One write is done then in the place of
//! the other where nobody else has written in between; else it is the last one again.
//!
//! [`Link::connect`] and [`Connection::turn`] are the parts that `run` is made of, for a loop of one's own.
#![tactic(auto)]

mod answers;
mod connection;
mod error;
mod laws;
mod link;
mod linked;
mod turn;

pub use answers::{Answer, Answered};
pub use connection::{Connection, LinkTurn};
pub use error::LinkFault;
pub use laws::link_crossing_law;
pub use link::{Link, LinkEnd};
pub use linked::{Bell, Linked};
pub use rt_socket::{
    Batch, Flushed, Heard, Lost, Pause, Said, SocketFault, Wire, hear_all, say_all,
};
pub use turn::{Passed, Pushed, Unpushed, take_all, take_batch};
