//! HTTP/1.1 and Firebase's REST interface for a server of one tree, with no socket: bytes go in, and bytes
//! come out.
//!
//! ```text
//! incoming.put(bytes)?;                                        // as they come
//! while let RequestProgress::Whole = incoming.turn()? {
//!     let asked = read_ask(alloc, request, incoming.body())?;  // or a fault, which has a status and words
//!     asked.ask.message(&key)?                                 // what a peer is asked
//!     reply_of(alloc, wanted, body, key, &message)?            // once the peer has answered
//!     put_answer(&mut out, Status::Okay, is_kept, false, page, text)?;
//!     incoming.end_request();
//! }
//! ```
#![tactic(auto)]

mod answer;
mod ask;
mod fault;
mod head;
mod request;
mod resource;

pub use answer::{
    GO_ON, HEALTHY, ONLY, Status, Wanted, error_text, laid_out, put_answer, put_file_head,
    refusal_text, reply_of,
};
pub use ask::{Ask, Asked, read_ask};
pub use fault::{
    Fault, MAX_CHUNK_LINE, MAX_FIELDS, MAX_FILE_BYTES, MAX_HEAD_BYTES, MAX_TRAILERS, Refusal,
};
pub use head::{Framing, Marks, Method, Unsupported, handshake_len};
pub use request::{Incoming, Request, RequestProgress};
pub use resource::named_path;
