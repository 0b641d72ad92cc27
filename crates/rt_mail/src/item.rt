// What a seat is told.
ghost use Rattle.std.specs.Prelude.{◌≡◌, IfOk, List, [], ◌∷◌, ◌++◌};
ghost use Rattle.std.specs.Option.{option_copied};
ghost use Rattle.std.specs.Borrow.{ftrue};

use rt_query::Query;
use rt_view::Batch;
use rt_wire::{Action, Ending, Reason};
use std::alloc::{AllocError, Global};
use std::marker::{Model, PhantomData};

/// What a seat is told.
#[derive(Drop)]
pub enum Item {
    /// Its own call is made.
    Receipt(Receipt),
    /// A listener's view has changed.
    Batch(Batch),
    /// A request is settled; `why` it is refused, if it is.
    Settled { id: u64, why: Option<Reason> },
    /// A listener has ended, for a reason.
    Cancelled { listener: u64, why: Reason },
}

impl Item {
    /// An equal item. Its keys and trees are shared.
    ///
    /// # Errors
    ///
    /// Want of memory.
    pub fn copy(&self, alloc: Global) -> Result<Item, AllocError>
        ensures { IfOk result (λ item. item ≡ self.now) }
    {
        Ok(match self {
            Item::Receipt(receipt) => Item::Receipt(receipt.copy(alloc)?),
            Item::Batch(batch) => Item::Batch(batch.copy()?),
            Item::Settled { id, why } => Item::Settled {
                id: *id,
                why: copy_reason(alloc, why.as_ref())?,
            },
            Item::Cancelled { listener, why } => Item::Cancelled {
                listener: *listener,
                why: why.copy(alloc)?,
            },
        })
    }
}

// An equal reason, where there is one.
fn copy_reason(alloc: Global, why: Option<&Reason>) -> Result<Option<Reason>, AllocError>
    ensures { IfOk result (λ copy. copy ≡ option_copied why.entry) }
{
    match why {
        Some(why) => Ok(Some(why.copy(alloc)?)),
        None => Ok(None),
    }
}

// ---- what a seat's own call is answered with

/// What a seat's own call has made.
#[derive(Drop)]
pub enum Receipt {
    /// A listener, with its query.
    Listened { listener: u64, query: Query },
    /// The end of a listener.
    Unlistened { listener: u64 },
    /// A write, with what it sets.
    Wrote { id: u64, what: Action },
    /// A request for the end of the connection, with what is to be done then.
    Asked { id: u64, what: Ending },
}

impl Receipt {
    /// An equal receipt. Its keys and trees are shared.
    ///
    /// # Errors
    ///
    /// Want of memory.
    pub fn copy(&self, alloc: Global) -> Result<Receipt, AllocError>
        ensures { IfOk result (λ receipt. receipt ≡ self.now) }
    {
        Ok(match self {
            Receipt::Listened { listener, query } => Receipt::Listened {
                listener: *listener,
                query: query.copy()?,
            },
            Receipt::Unlistened { listener } => Receipt::Unlistened {
                listener: *listener,
            },
            Receipt::Wrote { id, what } => Receipt::Wrote {
                id: *id,
                what: copy_action(alloc, what)?,
            },
            Receipt::Asked { id, what } => Receipt::Asked {
                id: *id,
                what: copy_ending(alloc, what)?,
            },
        })
    }
}

// An equal action.
fn copy_action(alloc: Global, action: &Action) -> Result<Action, AllocError>
    ensures { IfOk result (λ copy. copy ≡ action.now) }
{
    Ok(match action {
        Action::Put { path, tree } => Action::Put {
            path: path.copy()?,
            tree: tree.copy(alloc)?,
        },
        Action::Merge { entries } => Action::Merge {
            entries: entries.copy()?,
        },
    })
}

// An equal ending.
fn copy_ending(alloc: Global, ending: &Ending) -> Result<Ending, AllocError>
    ensures { IfOk result (λ copy. copy ≡ ending.now) }
{
    Ok(match ending {
        Ending::Run(action) => Ending::Run(copy_action(alloc, action)?),
        Ending::Cancel(path) => Ending::Cancel(path.copy()?),
    })
}

// ---- what was done before, for proofs alone

/// Values in order, which clauses read as `items`. It has no bytes, takes no memory and owns nothing.
#[derive(Drop)]
pub struct History<T> {
    of: PhantomData<T>,
    pub ghost items: { List T },
}

impl<T> Model for History<T> {
    ghost also_owns = { λ _. ftrue };
}

// It owns nothing.
unsafe impl<T: Send> Send for History<T> {}

impl<T> History<T> {
    /// Of nothing.
    pub fn new() -> History<T>
        ensures { result.items ≡ [] }
    {
        History { of: PhantomData }
    }

    /// With one more value, last.
    pub fn and(&self, next: &T) -> History<T>
        ensures { result.items ≡ self.now.items ++ next.now ∷ [] }
    {
        History { of: PhantomData }
    }
}
