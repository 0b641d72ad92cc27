//! The parts of a core that change in a step: the registered listeners, and the unsettled requests with
//! the writes among them.
//!
//! [`Listeners`] stand by number, each with its view once something is known for it; contracts see
//! them as the world of `rt_world` has them, with the views that they hold beside them
//! (`specs/Listeners.antt`). [`Requests`] are what the client has asked the server for and has no
//! answer to, by number; contracts see them as their list, and the pending writes are `pending` of it.
//!
//! ```text
//! let mut requests = Requests::new(alloc);
//! requests.add(1, seat, Asked::Now(action))?;        // pending, and to be sent
//! let settled = requests.settle(1)?;                 // whose it was, and the entries that show no more
//! let pending = requests.pending();
//! listeners.refresh(None, settled.entries.as_slice(), &brought, pending, &mut notes)?;
//! ```
#![tactic(auto)]

mod entries;
mod error;
mod hearers;
mod listeners;
mod places;
mod renewal;
mod requests;
mod views;

pub use error::ShownError;
pub use listeners::Listeners;
pub use requests::{Requests, Settled};
