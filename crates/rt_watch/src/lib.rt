//! The run of `kaltewi watch`: a client behind a WebSocket, driven by the lines of an input while what the
//! server sends is printed as it comes.
//!
//! ```text
//! let watching = Watching { address, idle_ms: Some(1_000), is_once: false };
//! let (watched, reader) = watch(rt, alloc, watching, reader, &mut writer, &mut log);
//! watched?      // how many lines were bad
//! ```
//!
//! The link is `rt_link`'s, what lines ask for is `rt_lines`', what they do to a client and its seats is
//! `rt_connect`'s, and what calls do is `rt_client`'s.
#![tactic(auto)]

mod effect;
mod lines;
mod terminal;
mod watched;

pub use effect::WatchFault;
pub use watched::{Watching, watch};
