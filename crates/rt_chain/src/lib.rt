//! Values in the order of their keys, linked in a slab: each knows the slots beside it, and an ordered
//! map from keys to slots stands beside the links, so that nothing is walked. A cut parts them in two.
//!
//! ```text
//! let mut chain = Chain::new(alloc);
//! let five = chain.put(5, "five", Half::Front)?;
//! let nine = chain.put(9, "nine", Half::Behind)?;
//! chain.next(five.slot)                 // the slot of 9
//! chain.cross_ahead();                  // 9 stands in front of the cut too
//! chain.remove(&9);
//! ```
#![tactic(auto)]

mod chain;

pub use chain::{Chain, Half, Placed};
