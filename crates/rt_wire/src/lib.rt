//! The messages between client and server: each is one JSON object in one text.
//!
//! ```text
//! let message = ServerMessage::read(alloc, "{\"id\":1,\"k\":\"ok\"}")?;
//! message.text(alloc)?                                // {"id":1,"k":"ok"}
//! ```
//!
//! [`ServerMessage::read`] and [`ClientMessage::read`] accept exactly the texts of which
//! `specs/Server.antt` and `specs/Client.antt` make messages, and otherwise answer the first fault.
#![tactic(auto)]

mod client;
mod draft;
mod error;
pub mod laws;
mod limits;
mod members;
mod parts;
mod query;
mod request;
mod server;

pub use client::ClientMessage;
pub use error::WireError;
pub use limits::{MAX_MARKS, MAX_NUMBER, MAX_REASON_BYTES, VERSION, is_crowded};
pub use parts::{Part, Parts};
pub use query::query_text;
pub use request::{Action, Asked, Ending, Reason, some_stands_too_deep, stands_too_deep};
pub use server::ServerMessage;
