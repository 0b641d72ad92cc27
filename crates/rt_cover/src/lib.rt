//! The listens kept: the fewest registered queries that together supply every listener, with their
//! tags.
//!
//! A contract sees a [`Cover`] as its listeners, its listens and its tags (`specs/State.antt`).
//!
//! ```
//! let mut cover = Cover::new(alloc, last_tag);
//! let delta = cover.add(1, query)?;     // the listens that start, and the tags of those that stop
//! let all = cover.open()?;              // every listen, to be sent on a new connection
//! let revoked = cover.revoke(tag)?;     // the server refuses a listen: who ends, and what starts
//! ```
#![tactic(auto)]

mod by_path;
mod change;
mod cover;
mod error;
mod laws;
mod listen;
mod listeners;
mod listens;
mod successors;
mod supply;

pub use change::{Choice, Delta, Revoked};
pub use cover::Cover;
pub use error::CoverError;
pub use laws::{
    apart_law, change_examples, kept_law, needed_law, range_examples, run_law, supply_law,
};
pub use listen::{Kept, KeptList};
pub use listeners::Numbers;
