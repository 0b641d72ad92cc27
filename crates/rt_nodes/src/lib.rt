//! Nodes of trees, linked in a slab: each has its key, its parent, its first child, the siblings
//! beside it, and a value of the crate above.
//!
//! A contract sees the nodes as the slab that they stand in, and a row of siblings, with all below
//! it, as a forest (`specs/Forest.antt`).
#![tactic(auto)]

mod children;
mod nodes;

pub use nodes::{Linked, SeekResult, Siblings, Slot};
