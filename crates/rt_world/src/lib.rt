//! The world of the core: all steps, what each answers, leaves and sends, and what follows from that
//! for every list of steps.
//!
//! Definitions, laws and worked rows, and the types of steps, reports and limits; no code that makes a
//! step, which is `rt_sync`'s.
//!
//! A law is a function without code; whoever calls it has its clauses as facts. `headline_law`,
//! `cover_law`, `named_law`, `message_law`, `limit_law` and `plain_law` say what follows of any steps,
//! the others what one step leaves, for whoever keeps a world.
#![tactic(auto)]

mod error;
pub mod examples;
mod laws;
mod limits;
mod report;
mod step;

pub use error::CoreError;
pub use laws::{
    answer_law, asked_law, brought_law, connection_law, cover_law, covered_law, following_law,
    headline_law, holding_law, kind_law, limit_law, listened_law, message_law, named_law, note_law,
    pending_law, plain_law, push_law, pushed_law, refusal_law, sending_law, settled_law, sound_law,
    stay_law, steady_law, still_law, tag_law, touch_law,
};
pub use limits::{Limits, MAX_LISTENERS, MAX_NUMBER, MAX_REQUESTS};
pub use report::{Body, Note, Notes, Outcome, Report};
pub use rt_wire::{Action, Asked, ClientMessage, Ending, Part, Parts, Reason};
pub use step::{Call, Request, Step};
