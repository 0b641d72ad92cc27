//! A WebSocket as a wire: what gives texts of the other side, and takes texts for it, where no call waits.
//! How long the other side is waited for, and what is read of a wire in one go. The same for one who does
//! nothing else while it waits. Which web pages may connect.
#![tactic(auto)]

mod origin;
mod patience;
mod socket;
mod wire;

pub use origin::{Origins, is_page_of, is_port, may_connect, origin_examples};
pub use patience::{
    CLOSING_MS, FIRST_WAIT_MS, HANDSHAKE_MS, HANDSHAKE_TICKS, LASTING_MS, MOST_WAIT_MS, PING_MS,
    Patience, SILENCE_MS, TICK_MS, for_end, for_handshake, for_silence, up_to, wait_after,
};
pub use socket::{Awaited, Paced, Socket, SocketFault, fault_of, limits};
pub use wire::{
    Batch, Flushed, Heard, Lost, Pause, Said, Wire, closed_by, hear_all, or_unknown, say_all,
    unopened,
};
