//! A tree's file, and the journal beside it: what was accepted outlives a kill.
//!
//! ```text
//! let Opened { mut journal, tree, notice } = Journal::open(system, file, Tree::null(), false)?;
//! journal.note(1, Noted::Write, "{\"id\":1,\"k\":\"put\",\"path\":\"/a\",\"value\":1}")?;
//! journal.append()?;                               // now the connection may hear of it
//! journal.turn(rt, system, hub.tree(), now);       // from time to time the file is made anew
//! journal.close(rt, system, hub.tree())?;          // at the end
//! ```
//!
//! `FILE.log` has a line for each request that was accepted since the file was made: `N TEXT`, and `N` where
//! connection N ended that had asked for something at its end (`specs/Entries.antt`). `N COUNT` says that so
//! many of what it had asked for were done, and that its end goes on. What it says is done over the file's tree
//! by a peer (`specs/Replays.antt`). Sets are absolute, so a journal over a newer file
//! gives the same tree.
#![tactic(auto)]

mod book;
mod fault;
mod file;
mod journal;
mod line;
mod log;

pub use book::{Noted, Replayed, reading_law, replay_over};
pub use fault::{JournalFault, Notice, Trouble};
pub use file::{BYTES_A_MS, LEAST_PAUSE_MS, crossing_law, tree_in};
pub use journal::{Journal, Opened};
pub use line::LineFault;
