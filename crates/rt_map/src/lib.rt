//! An ordered map whose copies share their parts: up to 32 entries stand in one chunk; more stand in
//! chunks of up to 32, these in rows of up to 32, and the rows in one table.
//!
//! Each part is behind an `Arc`. A copy of the map is a copy of one `Arc`, and a change copies of the
//! parts on its way those that somebody else holds too.
#![tactic(auto)]

mod chunk;
mod iter;
mod map;
mod root;
mod row;
mod table;

pub use iter::{Iter, Keys, Values};
pub use map::{NoSlot, OrdMap, Share};
