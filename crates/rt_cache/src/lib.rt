//! What the listens brought: regions under plain listens, windows of filtered ones.
//!
//! ```text
//! let mut brought = Brought::new(alloc);
//! let chat = Query::at(Path::parse(alloc, "/chat")?).done();
//! brought.register(&chat)?;
//! brought.put(&chat, chat.path(), &tree)?;            // true: it was not stale
//! brought.base(&chat)?                                // the tree, whole
//! ```
#![tactic(auto)]

mod brought;
mod by_path;
mod examples;
mod forms;
mod handover;
mod laws;
mod recovery;
mod regions;
mod run;
mod windows;

pub use brought::{Base, Brought};
pub use examples::{
    false_ranges, false_windows, order_examples, range_examples, region_examples, run_examples,
    window_examples,
};
pub use laws::{run_law, window_law};
pub use run::{BroughtCall, QueryList};
