//! The console's commands, without the program that they are in: a script is run over one core, a peer is
//! served, a client is driven by lines, and the words of a command line are read.
//!
//! Reader and writer are whatever gives and takes bytes ([`Source`], [`Drain`]), and streams whatever
//! reads and writes. `rt_console` is the program: these over the system's own streams.
//!
//! ```
//! let bad_lines = run_script(alloc, &mut reader, &mut writer)?;   // a script over one new core
//! let Asked { work, .. } = read_words(alloc, &words)?;            // what a command line asks for
//! ```
//!
//! The words are read by `clap`, and a tree or a path among them by `rt_tree`.
//!
//! What stands below is handed on: a script ([`run_script`]), the peer and how it serves a stream ([`Peer`],
//! [`serve_stream`]), and how lines drive a client ([`drive`]).
#![tactic(auto)]

mod commands;
mod connection;
mod server;
mod words;

pub use commands::PROGRAM;
pub use connection::{ConnectFault, connect};
pub use rt_connect::{drive, drive_logged};
pub use rt_input::{ConsoleError, Drain, Source};
pub use rt_peer::Peer;
pub use rt_script::{run_logged, run_script};
pub use rt_serve::serve_stream;
pub use server::{ServeFault, Streams, Visitors, serve};
pub use words::{Asked, Serving, Work, explain, read_words};
