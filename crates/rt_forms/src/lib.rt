//! The forms that are listened to, in a tree of paths: each node has the numbers of the listeners of
//! the plain form of its path, its filtered forms with those of theirs, and how many listeners there
//! are at and under it.
//!
//! A contract sees the tree as the numbers of the listeners of each form (`specs/Forms.antt`).
#![tactic(auto)]

mod forms;
mod growth;
mod numbers;
mod standing;

pub use forms::Forms;
pub use standing::Filtered;
