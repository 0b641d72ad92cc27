// Runs of calls.
ghost use Rattle.std.specs.Prelude.{◌≡◌, ℕ, ◌≤◌, [], length, take, IfOk, IsOk, OnOk, OnErr};
ghost use Rattle.rt_cache.specs.Runs.{IsAllowed, IsKept, AreAllowed, after, after_all, takes, taken_all};

use crate::brought::Brought;
use rt_query::Query;
use rt_tree::{Path, Tree};
use std::alloc::AllocError;
use std::marker::Model;

/// Queries of a call.
pub struct QueryList {
    items: Vec<Query>,
}

impl Drop for QueryList {
    fn drop(self) {
        let QueryList { items: _ } = self;
    }
}

impl Model for QueryList {
    ghost use Rattle.std.specs.Prelude.{List};
    ghost use Rattle.rt_query.specs.Queries.{Query};

    ghost Value = { List Query };

    ghost view = { λ a. a.items.items };
}

impl QueryList {
    /// A list of these queries. It takes no memory.
    pub fn of(items: Vec<Query>) -> QueryList
        ensures { result ≡ items.items }
    {
        QueryList { items }
    }

    /// The queries, in order.
    pub fn as_slice(&self) -> &[Query]
        ensures { result.now ≡ self.now }
    {
        self.items.as_slice()
    }
}

/// A call that changes what is brought.
#[derive(Drop)]
pub enum BroughtCall {
    /// A tree that was pushed on the listen of the query, at the path: [`Brought::put`].
    Put(Query, Path, Tree),
    /// The registered forms, and the listens kept: [`Brought::recover`].
    Recover(QueryList, QueryList),
}

impl Brought {
    /// Makes each call in turn, and tells of each whether it was taken: all are but the stale pushes.
    ///
    /// Costs what its calls cost. Where memory is lacking, some of the first calls stay made, and
    /// none of those behind them. No calls take no memory.
    pub fn run(&mut self, calls: &[BroughtCall]) -> Result<Vec<bool>, AllocError>
        requires { AreAllowed self.old calls.now }
        ensures ok { OnOk result (self.new ≡ after_all self.old calls.now) }
        ensures taken { IfOk result (λ taken. taken.items ≡ taken_all self.old calls.now) }
        ensures err { OnErr result ((n : ℕ) × (n ≤ length calls.now) × (self.new
            ≡ after_all self.old (take n calls.now))) }
        ensures none { calls.now ≡ [] → IsOk result }
    {
        let mut taken = Vec::new(self.allocator());
        for call in calls {
            let is_taken = self.make(call)?;
            taken.push(is_taken)?;
        }
        Ok(taken)
    }

    // Makes a call; whether it was taken.
    fn make(&mut self, call: &BroughtCall) -> Result<bool, AllocError>
        requires allowed { IsAllowed call.now }
        requires kept { IsKept self.old call.now }
        ensures ok { OnOk result (self.new ≡ after self.old call.now) }
        ensures taken { IfOk result (λ taken. taken ≡ takes self.old call.now) }
        ensures err { OnErr result (self.new ≡ self.old) }
    {
        match call {
            BroughtCall::Put(query, path, tree) => self.put(query, path, tree),
            BroughtCall::Recover(registered, kept) => {
                self.recover(registered.as_slice(), kept.as_slice())?;
                Ok(true)
            }
        }
    }
}
