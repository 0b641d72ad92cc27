//! A client behind a WebSocket, driven by the lines of an input.
//!
//! ```text
//! let (client, seats) = Client::open(alloc, 1, &[1024, 1024], Limits::full())?;
//! drive(rt, alloc, &client, seats, rt, stream, &mut reader, &mut writer)?  // how many lines were bad
//! ```
//!
//! Handshakes, frames and masks are `tungstenite`'s, a socket is `rt_socket`'s, what lines ask for is `rt_lines`', and what calls do is
//! `rt_client`'s.
#![tactic(auto)]

mod link;
mod seats;
mod session;

pub use link::{MAX_KEPT_BYTES, MAX_PINGS, MAX_UNANSWERED_BYTES};
pub use seats::{Seats, obey, open_seats, settle_all, write_why};
pub use session::{drive, drive_logged};
