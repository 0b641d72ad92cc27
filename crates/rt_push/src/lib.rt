//! Push ids: keys of 20 characters that rise with the time at which they are made, as Firebase's
//! `push` makes them.
//!
//! ```text
//! let mut ids = PushIds::new();
//! ids.next(1_700_000_000_000, [0; 12])        // Ok(*b"-NjEtLV-------------")
//! ids.next(1_700_000_000_000, [0; 12])        // Ok(*b"-NjEtLV------------0"): counted up
//! ```
#![tactic(auto)]

mod error;
mod push_ids;

pub use error::PushError;
pub use push_ids::{PushIds, digits_stand, examples, ids_rise};
