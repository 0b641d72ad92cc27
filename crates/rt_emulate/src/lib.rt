//! The emulator: a tree is served to any number of clients at once, over WebSockets at a port of this
//! machine, in one thread that sleeps while nothing happens.
//!
//! ```text
//! let pen = Pen::begin(rt, alloc, system.stderr())?;                // a thread writes
//! let mut diary = Diary::begin(system, Level::All);                 // what is said here
//! let emulator = Emulator::open(rt, system, emulating, &mut diary)?; // clients can connect
//! let stopper = emulator.stopper()?;                                // for another thread
//! emulator.run(rt, system, &mut diary, &pen)?;                      // until stopper.stop()
//! pen.end(rt, &mut diary);
//! ```
//!
//! What a message does, and how texts are taken and handed over, is decided by `rt_hub`. This
//! crate is the edge: streams, handshakes, turns, what is due of a silent client, the tree's file, the files
//! that are served beside the tree, and who is connected, for those that ask.
#![tactic(auto)]

mod calls;
mod diary;
mod draft;
mod edge;
mod emulator;
mod ending;
mod examples;
mod fault;
mod guest;
mod guests;
mod keeper;
mod origins;
mod page;
mod pen;
mod place;
mod present;
mod requests;
mod roster;
mod settings;
mod site;
mod socket;
mod stamp;
mod visit;

pub use diary::Diary;
pub use edge::Stopper;
pub use emulator::Emulator;
pub use examples::{origin_examples, protocol_examples};
pub use fault::EmulateFault;
pub use guest::{HANDSHAKE_MS, SILENCE_MS};
pub use origins::{OriginFault, origin_fault};
pub use pen::Pen;
pub use settings::{Emulating, Level};
