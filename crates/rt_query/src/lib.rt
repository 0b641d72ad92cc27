//! Queries: a path, an order, a range and a limit; what a query shows of a tree; and the form in which
//! it is listened to.
//!
//! The three children of `/scores` whose value is highest:
//!
//! ```text
//! let mut draft = Query::at(Path::parse(alloc, "/scores")?);
//! draft.order_by_value()?;
//! draft.limit_to_last(3)?;
//! let highest = draft.done();
//! for row in highest.select(&scores)?.rows() { .. }
//! ```
#![tactic(auto)]

mod draft;
mod error;
mod examples;
mod laws;
mod query;
mod row;

pub use draft::Draft;
pub use error::QueryError;
pub use examples::{
    bound_examples, order_examples, range_examples, refusal_examples, supply_examples,
};
pub use laws::{
    bound_laws, equality_laws, order_laws, range_laws, row_laws, select_laws, supply_laws,
};
pub use query::{Limit, Query, query_cmp, unlimited_cmp};
pub use row::{Row, Shown};
