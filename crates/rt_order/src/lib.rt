//! The orders of keys, values and entries, and the ranges between two cuts.
//!
//! The children of a path are ordered by an [`Index`]; a [`Range`] holds those between two places:
//!
//! ```text
//! let five = Mark::Leaf(Leaf::number(5)?);
//! let lower = Some(Cut { value: five, place: Place::Max });
//! let above_five = Range { lower, upper: None };
//! if above_five.has(&Index::Value, &key, &tree) { .. }
//! ```
#![tactic(auto)]

mod cut;
mod examples;
mod index;
mod key;
mod laws;
mod placed_ref;

pub use cut::{Cut, Mark, Place, Range, cut_cmp};
pub use examples::{cut_examples, key_examples, range_examples, value_examples};
pub use index::{Index, SortRef, entry_cmp, leaf_cmp, sort_value, value_cmp};
pub use key::{PlacedKey, is_integer, key_cmp};
pub use laws::{cut_laws, cut_order_laws, entry_laws, equality_laws, key_laws};
pub use placed_ref::PlacedRef;
