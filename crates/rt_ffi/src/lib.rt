//! Kaltewi for programs that are not written in Rattle: what `include/kaltewi.h` declares.
//!
//! A handle is open or closed, and each call takes out what is open, works on it, and puts it back. No call
//! requires anything of what comes from C; that pointers and lengths are right is C's to see to.
#![tactic(auto)]

mod client_calls;
mod core_calls;
mod seat_calls;

pub use client_calls::{
    kw_client_close, kw_client_connected, kw_client_cover, kw_client_disconnected, kw_client_error,
    kw_client_open, kw_client_push_key, kw_client_server_message, kw_client_take_outgoing,
};
pub use core_calls::{kw_core_close, kw_core_line, kw_core_open, kw_core_text};
pub use rt_foreign::Handle;
pub use seat_calls::{
    kw_client_cancel_disconnect, kw_client_listen, kw_client_next, kw_client_on_disconnect,
    kw_client_on_disconnect_update, kw_client_remove, kw_client_set, kw_client_settle,
    kw_client_unlisten, kw_client_update, kw_client_want,
};
