//! The input and the output of the console: readers and writers that count, the lines of an input, one
//! after another, a stream of which only so much is read for one message, what is told beside the
//! output, and a text without what a terminal obeys.
//!
//! ```text
//! let mut lines = LineReader::new(alloc)?;
//! while lines.next(&mut reader)? {
//!     do_line(lines.line());                       // without the line feed at its end
//! }
//! ```
#![tactic(auto)]

mod fault;
mod lines;
mod log;
mod stream;
mod text;

pub use fault::{ConsoleError, Fault};
pub use lines::{LineReader, MOST_INPUT};
pub use log::{LOG_PREFIX, Log, Silent, Telling};
pub use stream::{Counted, Drain, Failed, MAX_MESSAGE_BYTES, Reading, Source, Writing};
pub use text::{plain_examples, push_plain, write_printed};
