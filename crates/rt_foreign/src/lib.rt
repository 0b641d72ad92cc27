//! What programs that are not written in Rattle hold, and what is done to it; `rt_ffi` has the calls themselves.
//!
//! A [`Handle`] is open or closed. A call takes out what is open ([`Handle::take`]), a [`Client`] with its seats or a
//! [`Session`] that lines drive, works on it, and puts it back:
//!
//! ```text
//! let asked = set_call(alloc, b"/a/b", b"[1,2]");           // the write, or why a text is bad or refused
//! client.ask(1, asked, &mut request)                        // DONE, and the number of the request
//! client.next(1, &mut out, &mut len)                        // the seat's next item as JSON, or TOO_SMALL
//! ```
//!
//! No call requires anything. Each ends with a status, a number that `include/kaltewi.h` names.
#![tactic(auto)]

mod calls;
mod client;
pub mod examples;
mod handle;
mod item;
mod seat;
mod session;
mod status;

pub use calls::{
    at_end_call, cancel_call, listen_call, remove_call, set_call, update_at_end_call, update_call,
};
pub use client::{Client, Event, message_of};
pub use handle::{Handle, HandleContent};
pub use item::item_text;
pub use seat::{Wants, kinds_of};
pub use session::{Session, give};
pub use status::{
    BAD_TEXT, CLOSED, DONE, FAILED, MAILBOX_FULL, NO_MEMORY, NONE, REFUSED, STALE, TOO_MANY_SEATS,
    TOO_SMALL, WRONG_SEAT, status_of,
};
