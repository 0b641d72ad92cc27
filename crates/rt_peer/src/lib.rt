//! The peer: a small server of one tree, for tests and demonstrations of the client.
//!
//! ```text
//! let mut peer = Peer::new(Tree::null(), Vec::new(alloc));
//! let connection = peer.connect()?;                    // 1
//! let message = ClientMessage::read(alloc, "{\"k\":\"listen\",\"path\":\"/a\",\"tag\":1}")?;
//! peer.message(connection, message)?                   // to 1: data of tag 1 at /a
//! peer.disconnect(connection)?                         // what its actions change, to the others
//! ```
//!
//! A contract sees a peer as what it holds (`specs/Peers.antt`), none once it has lacked memory.
#![tactic(auto)]

mod actions;
mod connections;
mod error;
mod examples;
mod laws;
mod listens;
mod peer;
mod pushes;
mod state;
mod views;
mod write;

pub use connections::ConnectionLoad;
pub use error::PeerError;
pub use examples::{
    order_examples, peer_pushes_parts, push_refutations, run_examples, sent_examples,
    turn_examples, version_refutations,
};
pub use laws::{connections_law, orders_law, pushes_law, run_law, turns_law, versions_law};
pub use peer::Peer;
pub use pushes::Sent;
