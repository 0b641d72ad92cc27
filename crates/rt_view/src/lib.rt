//! The changes from one view to the next, their replay, and views that are changed child by child.
//!
//! ```text
//! let (mut view, changes) = View::first(alloc, query, tree)?;
//! let changes = view.touch(alloc, named)?;            // what these children change
//! view.shown()?.rows()
//! ```
#![tactic(auto)]

mod change;
mod difference;
mod examples;
mod position;
mod seen;
mod touch;
mod view;
mod window;

pub use change::{
    Batch, Change, ChangeList, Kinds, apply_changes, of_kinds, replay_laws, run_laws, turn_laws,
};
pub use difference::changes;
pub use examples::{kind_examples, order_examples, plain_examples, view_examples, window_examples};
pub use view::{View, ViewError};
