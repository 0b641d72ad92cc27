// A query that is being made.
ghost use Rattle.std.specs.Prelude.{◌≡◌, ◌⊎◌, IfOk, IfErr, IfSome, OnOk, OnErr, IsSome, Some, None, is_some};
ghost use Rattle.std.specs.Prelude.{option_copied};
ghost use Rattle.std.specs.Result.{result_err};
ghost use Rattle.rt_query.specs.Bounds.{start_at, start_after, end_at, end_before, equal_to, named, text_of};
ghost use Rattle.rt_query.specs.Bounds.{Below, Above, cut_of};
ghost use Rattle.rt_query.specs.Calls.{ordered_by, order_refusal, limited_to, limit_refusal, order_of};
ghost use Rattle.rt_query.specs.Calls.{bounded_by, bound_refusal, first_refusal, naming_conditions};
ghost use Rattle.rt_query.specs.Drafts.{new_draft, finished};
ghost use Rattle.rt_query.specs.declared.query.Limit.TheVariants.{First, Last};
ghost use Rattle.rt_tree.specs.Key.{key_fault};
ghost use Rattle.rt_order.specs.declared.index.Index.TheVariants as index;

use crate::error::QueryError;
use crate::query::{Limit, Query};
use rt_order::{Cut, Index, Mark, Place, Range};
use rt_tree::{Key, Leaf, LeafRef, Path, TreeError};
use std::alloc::{AllocError, Global};
use std::marker::Model;

/// A query that is being made: `Query::at` begins one, its calls say what is asked for, and `done`
/// ends it.
///
/// An order is named before a bound. A start is set by `start_at`, `start_after` or `equal_to`, an end
/// by `end_at`, `end_before` or `equal_to`, each once; and so is a limit. A refused call changes
/// nothing.
///
/// A bound names a value, and perhaps a key among the children of that value. In key order it is
/// given a text and no key, and names the child of that key.
#[derive(Debug)]
pub struct Draft {
    path: Path,
    index: Option<Index>,
    range: Range,
    limit: Option<Limit>,
}

impl Drop for Draft {
    fn drop(self) {
        let Draft {
            path: _,
            index: _,
            range: _,
            limit: _,
        } = self;
    }
}

impl Model for Draft {
    ghost use Rattle.rt_query.specs.Drafts.{Draft, IsDraft};

    ghost Value = { Draft };

    ghost view = { λ a. record { path = a.path; index = a.index; range = a.range; limit = a.limit } };

    ghost invariant = { λ a. IsDraft
        (record { path = a.path; index = a.index; range = a.range; limit = a.limit }) };
}

impl Draft {
    pub(crate) fn of(path: Path) -> Draft
        ensures { result ≡ new_draft path }
    {
        Draft {
            path,
            index: None,
            range: Range {
                lower: None,
                upper: None,
            },
            limit: None,
        }
    }

    /// In the order of the children's keys.
    ///
    /// # Errors
    /// `OrderTwice` where an order is named already.
    pub fn order_by_key(&mut self) -> Result<(), QueryError>
        ensures made { OnOk result (self.new ≡ ordered_by index.Key self.old) }
        ensures refused { result_err result ≡ order_refusal self.old }
        ensures unchanged { OnErr result (self.new ≡ self.old) }
    {
        self.order_by(Index::Key)
    }

    /// In the order of what stands at a path below each child; of a child's own value at the root
    /// path.
    ///
    /// # Errors
    /// `OrderTwice` where an order is named already.
    pub fn order_by_child(&mut self, path: Path) -> Result<(), QueryError>
        ensures made { OnOk result (self.new ≡ ordered_by (index.Child path) self.old) }
        ensures refused { result_err result ≡ order_refusal self.old }
        ensures unchanged { OnErr result (self.new ≡ self.old) }
    {
        self.order_by(Index::Child(path))
    }

    /// In the order of the children's values.
    ///
    /// # Errors
    /// `OrderTwice` where an order is named already.
    pub fn order_by_value(&mut self) -> Result<(), QueryError>
        ensures made { OnOk result (self.new ≡ ordered_by index.Value self.old) }
        ensures refused { result_err result ≡ order_refusal self.old }
        ensures unchanged { OnErr result (self.new ≡ self.old) }
    {
        self.order_by(Index::Value)
    }

    fn order_by(&mut self, index: Index) -> Result<(), QueryError>
        ensures made { OnOk result (self.new ≡ ordered_by index self.old) }
        ensures refused { result_err result ≡ order_refusal self.old }
        ensures unchanged { OnErr result (self.new ≡ self.old) }
    {
        if self.index.is_some() {
            return Err(QueryError::OrderTwice);
        }
        self.index = Some(index);
        Ok(())
    }

    /// From the value on; with a key, from that key among the children of the value on.
    ///
    /// # Errors
    /// `NoOrder`, `StartTwice`, `NeedsText`, `KeyNotAllowed` or `BadBoundKey`, looked at in this
    /// order; `NoMemory`, where a key is named.
    pub fn start_at(&mut self, value: Mark, key: Option<&str>) -> Result<(), QueryError>
        ensures made { OnOk result (self.new
            ≡ bounded_by start_at value (option_copied key.entry) self.old) }
        ensures refused { IfSome (bound_refusal start_at value (option_copied key.entry) self.old)
            (λ e. result ≡ Err e) }
        ensures errors { IfErr result (λ e.
            (bound_refusal start_at value (option_copied key.entry) self.old ≡ Some e)
            ⊎ (e ≡ QueryError.NoMemory)
            × IsSome (named (order_of self.old) value (option_copied key.entry)).key) }
        ensures unchanged { OnErr result (self.new ≡ self.old) }
    {
        let named = self.new_start(value, key)?;
        self.range.lower = Some(named.below());
        Ok(())
    }

    /// After the value; with a key, after that key among the children of the value.
    ///
    /// # Errors
    /// Those of [`Draft::start_at`].
    pub fn start_after(&mut self, value: Mark, key: Option<&str>) -> Result<(), QueryError>
        ensures made { OnOk result (self.new
            ≡ bounded_by start_after value (option_copied key.entry) self.old) }
        ensures refused { IfSome (bound_refusal start_after value
            (option_copied key.entry) self.old) (λ e. result ≡ Err e) }
        ensures errors { IfErr result (λ e.
            (bound_refusal start_after value (option_copied key.entry) self.old ≡ Some e)
            ⊎ (e ≡ QueryError.NoMemory)
            × IsSome (named (order_of self.old) value (option_copied key.entry)).key) }
        ensures unchanged { OnErr result (self.new ≡ self.old) }
    {
        let named = self.new_start(value, key)?;
        self.range.lower = Some(named.above());
        Ok(())
    }

    /// To the value; with a key, to that key among the children of the value.
    ///
    /// # Errors
    /// `NoOrder`, `EndTwice`, `NeedsText`, `KeyNotAllowed` or `BadBoundKey`, looked at in this order;
    /// `NoMemory`, where a key is named.
    pub fn end_at(&mut self, value: Mark, key: Option<&str>) -> Result<(), QueryError>
        ensures made { OnOk result (self.new
            ≡ bounded_by end_at value (option_copied key.entry) self.old) }
        ensures refused { IfSome (bound_refusal end_at value (option_copied key.entry) self.old)
            (λ e. result ≡ Err e) }
        ensures errors { IfErr result (λ e.
            (bound_refusal end_at value (option_copied key.entry) self.old ≡ Some e)
            ⊎ (e ≡ QueryError.NoMemory)
            × IsSome (named (order_of self.old) value (option_copied key.entry)).key) }
        ensures unchanged { OnErr result (self.new ≡ self.old) }
    {
        let named = self.new_end(value, key)?;
        self.range.upper = Some(named.above());
        Ok(())
    }

    /// To before the value; with a key, to before that key among the children of the value.
    ///
    /// # Errors
    /// Those of [`Draft::end_at`].
    pub fn end_before(&mut self, value: Mark, key: Option<&str>) -> Result<(), QueryError>
        ensures made { OnOk result (self.new
            ≡ bounded_by end_before value (option_copied key.entry) self.old) }
        ensures refused { IfSome (bound_refusal end_before value
            (option_copied key.entry) self.old) (λ e. result ≡ Err e) }
        ensures errors { IfErr result (λ e.
            (bound_refusal end_before value (option_copied key.entry) self.old ≡ Some e)
            ⊎ (e ≡ QueryError.NoMemory)
            × IsSome (named (order_of self.old) value (option_copied key.entry)).key) }
        ensures unchanged { OnErr result (self.new ≡ self.old) }
    {
        let named = self.new_end(value, key)?;
        self.range.upper = Some(named.below());
        Ok(())
    }

    /// The children of the value alone; with a key, of these the one of that key. Sets the start
    /// and the end.
    ///
    /// # Errors
    /// `NoOrder`, `StartTwice`, `EndTwice`, `NeedsText`, `KeyNotAllowed` or `BadBoundKey`, looked at in
    /// this order; `NoMemory`, where a key is named or the value is a text, which stands in both cuts.
    pub fn equal_to(&mut self, value: Mark, key: Option<&str>) -> Result<(), QueryError>
        ensures made { OnOk result (self.new
            ≡ bounded_by equal_to value (option_copied key.entry) self.old) }
        ensures refused { IfSome (bound_refusal equal_to value (option_copied key.entry) self.old)
            (λ e. result ≡ Err e) }
        ensures errors { IfErr result (λ e.
            (bound_refusal equal_to value (option_copied key.entry) self.old ≡ Some e)
            ⊎ (e ≡ QueryError.NoMemory)
            × (IsSome (named (order_of self.old) value (option_copied key.entry)).key
            ⊎ IsSome (text_of value))) }
        ensures unchanged { OnErr result (self.new ≡ self.old) }
    {
        let alloc = self.path.allocator();
        let index = self.order()?;
        if self.range.lower.is_some() {
            return Err(QueryError::StartTwice);
        }
        if self.range.upper.is_some() {
            return Err(QueryError::EndTwice);
        }
        let named = Named::read(alloc, index, value, key)?;
        let lower = named.copy(alloc)?.below();
        self.range = Range {
            lower: Some(lower),
            upper: Some(named.above()),
        };
        Ok(())
    }

    /// At most the first `n` children.
    ///
    /// # Errors
    /// `LimitTwice` where there is a limit already, then `LimitZero` for 0.
    pub fn limit_to_first(&mut self, n: u32) -> Result<(), QueryError>
        ensures made { OnOk result (self.new ≡ limited_to (First n) self.old) }
        ensures refused { result_err result ≡ limit_refusal n self.old }
        ensures unchanged { OnErr result (self.new ≡ self.old) }
    {
        self.check_limit(n)?;
        self.limit = Some(Limit::First(n));
        Ok(())
    }

    /// At most the last `n` children, in the same order.
    ///
    /// # Errors
    /// Those of [`Draft::limit_to_first`].
    pub fn limit_to_last(&mut self, n: u32) -> Result<(), QueryError>
        ensures made { OnOk result (self.new ≡ limited_to (Last n) self.old) }
        ensures refused { result_err result ≡ limit_refusal n self.old }
        ensures unchanged { OnErr result (self.new ≡ self.old) }
    {
        self.check_limit(n)?;
        self.limit = Some(Limit::Last(n));
        Ok(())
    }

    /// The query; in key order, where no order was named.
    pub fn done(self) -> Query
        ensures { result ≡ finished self }
    {
        let Draft {
            path,
            index,
            range,
            limit,
        } = self;
        Query {
            path,
            index: index.unwrap_or(Index::Key),
            range,
            limit,
        }
    }

    // The order, which a bound wants.
    fn order(&self) -> Result<&Index, QueryError>
        ensures ok { IfOk result (λ index. self.now.index ≡ Some index.now) }
        ensures err { IfErr result (λ e. (e ≡ QueryError.NoOrder) × (self.now.index ≡ None)) }
    {
        self.index.as_ref().ok_or(QueryError::NoOrder)
    }

    // What a start names, where there is none yet.
    fn new_start(&self, value: Mark, key: Option<&str>) -> Result<Named, QueryError>
        ensures ok { IfOk result (λ n. n ≡ named (order_of self.now) value (option_copied key.entry)) }
        ensures refused { IfSome (bound_refusal start_at value (option_copied key.entry) self.now)
            (λ e. result ≡ Err e) }
        ensures errors { IfErr result (λ e.
            (bound_refusal start_at value (option_copied key.entry) self.now ≡ Some e)
            ⊎ (e ≡ QueryError.NoMemory)
            × IsSome (named (order_of self.now) value (option_copied key.entry)).key) }
    {
        let index = self.order()?;
        if self.range.lower.is_some() {
            return Err(QueryError::StartTwice);
        }
        Named::read(self.path.allocator(), index, value, key)
    }

    // What an end names, where there is none yet.
    fn new_end(&self, value: Mark, key: Option<&str>) -> Result<Named, QueryError>
        ensures ok { IfOk result (λ n. n ≡ named (order_of self.now) value (option_copied key.entry)) }
        ensures refused { IfSome (bound_refusal end_at value (option_copied key.entry) self.now)
            (λ e. result ≡ Err e) }
        ensures errors { IfErr result (λ e.
            (bound_refusal end_at value (option_copied key.entry) self.now ≡ Some e)
            ⊎ (e ≡ QueryError.NoMemory)
            × IsSome (named (order_of self.now) value (option_copied key.entry)).key) }
    {
        let index = self.order()?;
        if self.range.upper.is_some() {
            return Err(QueryError::EndTwice);
        }
        Named::read(self.path.allocator(), index, value, key)
    }

    // A limit is given once, and not 0.
    fn check_limit(&self, n: u32) -> Result<(), QueryError>
        ensures { result_err result ≡ limit_refusal n self.now }
    {
        if self.limit.is_some() {
            return Err(QueryError::LimitTwice);
        }
        if n == 0 {
            return Err(QueryError::LimitZero);
        }
        Ok(())
    }
}

// ---- what a bound of a query names

// A value, and perhaps a key.
#[derive(Drop)]
pub(crate) struct Named {
    value: Mark,
    key: Option<Key>,
}

impl Named {
    // What a bound names: in key order the key of a text.
    pub(crate) fn read(
        alloc: Global,
        index: &Index,
        value: Mark,
        key: Option<&str>,
    ) -> Result<Named, QueryError>
        ensures ok { IfOk result (λ n. n ≡ named index.now value (option_copied key.entry)) }
        ensures refused { IfSome (first_refusal
            (naming_conditions index.now value (option_copied key.entry))) (λ e. result ≡ Err e) }
        ensures errors { IfErr result (λ e.
            (first_refusal (naming_conditions index.now value (option_copied key.entry)) ≡ Some e)
            ⊎ (e ≡ QueryError.NoMemory)
            × IsSome (named index.now value (option_copied key.entry)).key) }
    {
        match index {
            Index::Key => Named::of_text(alloc, &value, key),
            Index::Child(_) | Index::Value => Named::of_value(alloc, value, key),
        }
    }

    // In key order: the key of the text.
    fn of_text(alloc: Global, value: &Mark, key: Option<&str>) -> Result<Named, QueryError>
        ensures ok { IfOk result (λ n. n ≡ named index.Key value.now (option_copied key.entry)) }
        ensures refused { IfSome (first_refusal
            (naming_conditions index.Key value.now (option_copied key.entry))) (λ e. result ≡ Err e) }
        ensures errors { IfErr result (λ e.
            (first_refusal (naming_conditions index.Key value.now (option_copied key.entry)) ≡ Some e)
            ⊎ (e ≡ QueryError.NoMemory) × IsSome (text_of value.now)) }
    {
        let Some(text) = text_of(value) else {
            return Err(QueryError::NeedsText);
        };
        if key.is_some() {
            return Err(QueryError::KeyNotAllowed);
        }
        Ok(Named {
            value: Mark::Null,
            key: Some(read_key(alloc, text)?),
        })
    }

    // In any other order: the value, and the key where one is given.
    fn of_value(alloc: Global, value: Mark, key: Option<&str>) -> Result<Named, QueryError>
        ensures ok { IfOk result (λ n. n ≡ named index.Value value (option_copied key.entry)) }
        ensures refused { IfSome (first_refusal
            (naming_conditions index.Value value (option_copied key.entry))) (λ e. result ≡ Err e) }
        ensures errors { IfErr result (λ e.
            (first_refusal (naming_conditions index.Value value (option_copied key.entry)) ≡ Some e)
            ⊎ (e ≡ QueryError.NoMemory) × IsSome (option_copied key.entry)) }
    {
        let key = match key {
            Some(text) => Some(read_key(alloc, text)?),
            None => None,
        };
        Ok(Named { value, key })
    }

    // An equal name. Takes memory for a key and for a text.
    pub(crate) fn copy(&self, alloc: Global) -> Result<Named, AllocError>
        ensures same { IfOk result (λ n. n ≡ self.now) }
        ensures memory { OnErr result (IsSome self.now.key ⊎ IsSome (text_of self.now.value)) }
    {
        let value = copy_value(alloc, &self.value)?;
        let key = match &self.key {
            Some(key) => Some(key.copy()?),
            None => None,
        };
        Ok(Named { value, key })
    }

    // The cut just below it.
    pub(crate) fn below(self) -> Cut
        ensures { result ≡ cut_of self Below }
    {
        let Named { value, key } = self;
        let place = match key {
            Some(key) => Place::Before(key),
            None => Place::Min,
        };
        Cut { value, place }
    }

    // The cut just above it.
    pub(crate) fn above(self) -> Cut
        ensures { result ≡ cut_of self Above }
    {
        let Named { value, key } = self;
        let place = match key {
            Some(key) => Place::After(key),
            None => Place::Max,
        };
        Cut { value, place }
    }
}

// The text of a value that is one.
fn text_of(value: &Mark) -> Option<&str>
    ensures { option_copied result ≡ text_of value.now }
{
    match value {
        Mark::Null => None,
        Mark::Leaf(leaf) => match leaf.value() {
            LeafRef::Text(text) => Some(text),
            LeafRef::Truth(_) | LeafRef::Number(_) => None,
        },
    }
}

// An equal value. Takes memory for a text alone.
fn copy_value(alloc: Global, value: &Mark) -> Result<Mark, AllocError>
    ensures same { IfOk result (λ copy. copy ≡ value.now) }
    ensures memory { OnErr result (IsSome (text_of value.now)) }
{
    let Mark::Leaf(leaf) = value else {
        return Ok(Mark::Null);
    };
    match leaf.value() {
        LeafRef::Truth(truth) => Ok(Mark::Leaf(Leaf::truth(truth))),
        LeafRef::Number(number) => match Leaf::number(number) {
            Ok(leaf) => Ok(Mark::Leaf(leaf)),
            // What a leaf holds is in range.
            Err(_) => Err(AllocError),
        },
        LeafRef::Text(_) => Ok(Mark::Leaf(leaf.copy(alloc)?)),
    }
}

// The key of a bound.
fn read_key(alloc: Global, text: &str) -> Result<Key, QueryError>
    ensures ok { IfOk result (λ key. key ≡ text.now) }
    ensures refused { IfSome (key_fault text.now) (λ _. result ≡ Err QueryError.BadBoundKey) }
    ensures errors { IfErr result (λ e. (e ≡ QueryError.BadBoundKey) × IsSome (key_fault text.now)
        ⊎ (e ≡ QueryError.NoMemory)) }
{
    match Key::parse(alloc, text) {
        Ok(key) => Ok(key),
        Err(TreeError::NoMemory) => Err(QueryError::NoMemory),
        Err(_) => Err(QueryError::BadBoundKey),
    }
}
