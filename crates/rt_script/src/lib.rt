//! What the lines of a script do: each to a core or to a source of push ids, with what is printed for it,
//! and all of an input, one after another.
//!
//! ```text
//! do_bytes(alloc, &mut state, 1, b"[\"set\",1,\"/a\",5]", &mut text)?;      // does it, and prints
//!
//! let bad_lines = run_script(alloc, &mut reader, &mut writer)?;   // a script over one new core
//! ```
//!
//! Which bytes are which line is `rt_lines`', and what a step does is `rt_sync`'s.
#![tactic(auto)]

pub mod examples;
mod line;
mod script;

pub use line::{do_bytes, do_line};
pub use script::{State, run_logged, run_script};
