//! The lines of a script: which bytes are which line, what a line asks for, and what is printed for it.
//!
//! ```text
//! match Line::read(alloc, b"[\"set\",1,\"/a\",5]")? {
//!     Line::Step(step) => ..,               // Write {seat: 1, action: Put {path: /a, tree: 5}}
//!     Line::Out | Line::Cover | Line::View(_) | Line::Push { .. } => ..,
//! }
//! ```
//!
//! What a line does to a core is `rt_script`'s, and what it asks of a client `rt_connect`'s.
#![tactic(auto)]

mod call;
mod error;
pub mod examples;
mod form;
mod line;
mod order;
mod report;
mod words;

pub use error::{LineError, LinesTaken, Refusal, say_line};
pub use line::Line;
pub use order::{CONNECT_LINES, MOST_READ, Order, SCRIPT_LINES, Typed, WATCH_LINES};
pub use report::{
    write_bad_line, write_batch, write_cancelled, write_cover, write_id, write_messages,
    write_outcome, write_refusal, write_refused, write_report, write_settled, write_view,
};
