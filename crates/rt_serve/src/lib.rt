//! The peer behind a WebSocket: one stream is served from its handshake to its end.
//!
//! ```text
//! let mut peer = Peer::new(Tree::null(), Vec::new(alloc));
//! for stream in listener.incoming() {
//!     serve_stream(alloc, &mut peer, stream?)?;        // a client comes, is served, and goes
//! }
//! ```
//!
//! Handshakes, frames and masks are `tungstenite`'s, which pages may connect is `rt_socket`'s, and what messages mean is `rt_peer`'s. A contract
//! sees the peer alone: what any texts leave of it (`specs/Sessions.antt`).
#![tactic(auto)]

mod serve;
mod socket;

pub use serve::{MAX_MESSAGES, ServeError, serve_logged, serve_stream, session_law};
