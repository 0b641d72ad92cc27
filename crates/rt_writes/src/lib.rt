//! Pending writes: sets, updates and removals that show before the server has settled them.
//!
//! A contract sees [`Pending`] as the list of its writes, each a number and its entries in order
//! (`specs/Writes.antt`).
//!
//! ```
//! let mut pending = Pending::new(alloc);
//! pending.add(1, entries)?;                     // trees, each at a path
//! let after = pending.overlay(&path, before)?;  // what the writes make of the server's tree
//! let settled = pending.take(1)?;               // the server has accepted or refused it
//! ```
#![tactic(auto)]

mod entries;
mod error;
pub mod examples;
mod laws;
mod marks;
mod pending;
mod spots;

pub use entries::{Entries, is_shallow};
pub use error::WriteError;
pub use laws::{depth_law, overlay_law, shallow_law, touch_law};
pub use pending::Pending;
