//! A tree kept as linked nodes: each has its key, its parent, its first child, the siblings beside
//! it, and the leaf that it is, where it is one.
//!
//! ```text
//! let mut store = Store::new(alloc);
//! store.set(alloc, &Path::parse(alloc, "/a")?, &Tree::read(alloc, "{\"b\":1}")?)?;
//! store.get(alloc, &Path::parse(alloc, "/a/b")?)?     // 1
//! ```
//!
//! A contract sees a store as its tree (`rt_tree`'s) and what can be walked to from each node
//! (`specs/Stored.antt`).
#![tactic(auto)]

mod error;
mod nodes;
mod store;

pub use error::StoreError;
pub use store::{Change, Node, Store, walk_law};
