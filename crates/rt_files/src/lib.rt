//! Which file of a folder a path names, where it stands, and of which media type it is. No file is looked at.
//!
//! ```text
//! file_named(alloc, "/app/")                      // Ok(Some("app/index.html"))
//! file_named(alloc, "/app/../../secret")          // Ok(None): nothing leads out
//! place_of(alloc, "/home/ann/site", "app/a.js")   // Ok("/home/ann/site/app/a.js")
//! is_below("/home/ann/site", "/home/ann/b.js")    // false: where a link leads out
//! media_type("app/a.js")                          // "text/javascript; charset=utf-8"
//! ```
#![tactic(auto)]

mod name;

pub use name::{INDEX, examples, file_named, is_below, media_type, names_stay, place_of};
