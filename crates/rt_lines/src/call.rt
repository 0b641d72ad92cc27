// The calls that a listen makes on its query.
ghost use Rattle.std.specs.Prelude.{◌≡◌, ◌⊎◌, IfOk, IfErr, Some, None, option_map, option_and_then, IfSome};
ghost use Rattle.std.specs.Prelude.{OnOk, Ok, Err};
ghost use Rattle.std.specs.Option.{option_copied};
ghost use Rattle.serde_json.specs.View.{view as data_of};
ghost use Rattle.rt_lines.specs.Calls.{bound_call, bound_named, call_in, calls_in, calls_of, child_call};
ghost use Rattle.rt_lines.specs.Calls.{limit_call, lone_call, named_call, scalar};
ghost use Rattle.rt_lines.specs.inside.FormView.{as_call, as_calls, views};
ghost use Rattle.rt_query.specs.Calls.{bound_refusal, bounded_by};
ghost use Rattle.rt_lines.specs.Drafts.{bound_of, called, drafted, query_in};
ghost use Rattle.rt_lines.specs.Calls as calls;

use crate::error::LineError;
use crate::words::{count_of, mark_of, parts_of, path_of};
use rt_order::Mark;
use rt_query::{Draft, Query, QueryError};
use serde_json::Value;
use std::alloc::Global;

/// Which bound a call sets.
#[derive(Clone, Copy)]
pub(crate) enum BoundCall {
    StartAt,
    StartAfter,
    EndAt,
    EndBefore,
    EqualTo,
}

/// A call of one of the forms, its words as they stand there.
#[derive(Clone, Copy)]
pub(crate) enum QueryCall<'a> {
    /// `["orderByKey"]`
    OrderByKey,
    /// `["orderByValue"]`
    OrderByValue,
    /// `["orderByChild",path]`
    OrderByChild {
        path: &'a str,
    },
    /// `["limitToFirst",n]`
    LimitToFirst {
        n: u32,
    },
    /// `["limitToLast",n]`
    LimitToLast {
        n: u32,
    },
    /// `["startAt",value]`, `["startAt",value,key]` and the like
    Bound {
        bound: BoundCall,
        value: &'a Value,
        key: Option<&'a str>,
    },
}

// A call without words.
fn lone<'a>(call: QueryCall<'a>, words: &[Value]) -> Option<QueryCall<'a>>
    ensures { option_map as_call result ≡ lone_call (as_call call.entry) (views words.now) }
{
    if words.is_empty() { Some(call) } else { None }
}

fn child(words: &[Value]) -> Option<QueryCall<'_>>
    ensures { option_map as_call result ≡ child_call (views words.now) }
{
    let [path] = words else {
        return None;
    };
    Some(QueryCall::OrderByChild {
        path: path.as_str()?,
    })
}

fn first(words: &[Value]) -> Option<QueryCall<'_>>
    ensures { option_map as_call result ≡ limit_call calls.LimitToFirst (views words.now) }
{
    let [n] = words else {
        return None;
    };
    Some(QueryCall::LimitToFirst { n: count_of(n)? })
}

fn last(words: &[Value]) -> Option<QueryCall<'_>>
    ensures { option_map as_call result ≡ limit_call calls.LimitToLast (views words.now) }
{
    let [n] = words else {
        return None;
    };
    Some(QueryCall::LimitToLast { n: count_of(n)? })
}

// A value that may be in a cut: null, a truth value, a number or a text.
fn scalar_of(value: &Value) -> Option<&Value>
    ensures { option_map (λ v. data_of v.now) result ≡ scalar (data_of value.now) }
{
    match value {
        Value::Null | Value::Bool(_) | Value::Number(_) | Value::String(_) => Some(value),
        Value::Array(_) | Value::Object(_) => None,
    }
}

fn bound(bound: BoundCall, words: &[Value]) -> Option<QueryCall<'_>>
    ensures { option_map as_call result ≡ bound_call bound (views words.now) }
{
    match words {
        [value] => Some(QueryCall::Bound {
            bound,
            value: scalar_of(value)?,
            key: None,
        }),
        [value, key] => Some(QueryCall::Bound {
            bound,
            value: scalar_of(value)?,
            key: Some(key.as_str()?),
        }),
        _ => None,
    }
}

// The bound of that name.
fn bound_of_name(name: &str) -> Option<BoundCall>
    ensures { result ≡ bound_named name.now }
{
    match name {
        "startAt" => Some(BoundCall::StartAt),
        "startAfter" => Some(BoundCall::StartAfter),
        "endAt" => Some(BoundCall::EndAt),
        "endBefore" => Some(BoundCall::EndBefore),
        "equalTo" => Some(BoundCall::EqualTo),
        _ => None,
    }
}

// A call of that name.
fn named<'a>(name: &str, words: &'a [Value]) -> Option<QueryCall<'a>>
    ensures { option_map as_call result ≡ named_call name.now (views words.entry.now) }
{
    match name {
        "orderByKey" => lone(QueryCall::OrderByKey, words),
        "orderByValue" => lone(QueryCall::OrderByValue, words),
        "orderByChild" => child(words),
        "limitToFirst" => first(words),
        "limitToLast" => last(words),
        _ => bound(bound_of_name(name)?, words),
    }
}

// The call that a JSON value is, or none where it has none of the forms.
fn call_of(value: &Value) -> Option<QueryCall<'_>>
    ensures { option_map as_call result ≡ call_in (data_of value.now) }
{
    let (name, words) = parts_of(value)?;
    named(name, words)
}

// The calls that JSON values are, each of one of the forms.
fn calls_of<'a>(alloc: Global, values: &'a [Value]) -> Result<Vec<QueryCall<'a>>, LineError>
    ensures ok { IfOk result (λ found. calls_of (views values.entry.now)
        ≡ Some (as_calls found.items)) }
    ensures err { IfErr result (λ e. (e ≡ LineError.Bad) × (calls_of (views values.entry.now) ≡ None)
        ⊎ (e ≡ LineError.NoMemory)) }
{
    let mut found = Vec::new(alloc);
    for value in values {
        found.push(call_of(value).ok_or(LineError::Bad)?)?;
    }
    Ok(found)
}

/// The calls of an array.
#[tactic(auto, using(crate::proofs::Lists::calls_in_array))]
pub(crate) fn calls_in(alloc: Global, value: &Value) -> Result<Vec<QueryCall<'_>>, LineError>
    ensures ok { IfOk result (λ found. calls_in (data_of value.entry.now)
        ≡ Some (as_calls found.items)) }
    ensures err { IfErr result (λ e. (e ≡ LineError.Bad) × (calls_in (data_of value.entry.now) ≡ None)
        ⊎ (e ≡ LineError.NoMemory)) }
{
    match value.as_array() {
        Some(values) => calls_of(alloc, values.as_slice()),
        None => Err(LineError::Bad),
    }
}

// ---- the query that calls make

// Sets a bound.
fn set_bound(
    draft: &mut Draft,
    bound: BoundCall,
    value: Mark,
    key: Option<&str>,
) -> Result<(), QueryError>
    ensures made { OnOk result (draft.new
        ≡ bounded_by (bound_of bound) value (option_copied key.entry) draft.old) }
    ensures refused { IfSome (bound_refusal (bound_of bound) value
        (option_copied key.entry) draft.old) (λ e. result ≡ Err e) }
    ensures errors { IfErr result (λ e.
        (bound_refusal (bound_of bound) value (option_copied key.entry) draft.old ≡ Some e)
        ⊎ (e ≡ QueryError.NoMemory)) }
{
    match bound {
        BoundCall::StartAt => draft.start_at(value, key),
        BoundCall::StartAfter => draft.start_after(value, key),
        BoundCall::EndAt => draft.end_at(value, key),
        BoundCall::EndBefore => draft.end_before(value, key),
        BoundCall::EqualTo => draft.equal_to(value, key),
    }
}

// Makes a call: its own words are looked at first, then the draft.
#[tactic(auto, using(crate::proofs::Faults::query_fault, crate::proofs::Faults::allowed_ok))]
fn make(alloc: Global, draft: &mut Draft, call: QueryCall<'_>) -> Result<(), LineError>
    ensures ok { OnOk result (called (as_call call.entry) draft.old ≡ Ok draft.new) }
    ensures fault { IfErr result (λ e. (called (as_call call.entry) draft.old ≡ Err e)
        ⊎ (e ≡ LineError.NoMemory)) }
{
    match call {
        QueryCall::OrderByKey => draft.order_by_key()?,
        QueryCall::OrderByValue => draft.order_by_value()?,
        QueryCall::OrderByChild { path } => draft.order_by_child(path_of(alloc, path)?)?,
        QueryCall::LimitToFirst { n } => draft.limit_to_first(n)?,
        QueryCall::LimitToLast { n } => draft.limit_to_last(n)?,
        QueryCall::Bound { bound, value, key } => {
            set_bound(draft, bound, mark_of(alloc, value)?, key)?;
        }
    }
    Ok(())
}

// Makes calls, one after another.
fn make_all(alloc: Global, draft: Draft, calls: Vec<QueryCall<'_>>) -> Result<Draft, LineError>
    ensures ok { IfOk result (λ made. drafted (as_calls calls.entry.items) draft ≡ Ok made) }
    ensures fault { IfErr result (λ e. (drafted (as_calls calls.entry.items) draft ≡ Err e)
        ⊎ (e ≡ LineError.NoMemory)) }
{
    let mut draft = draft;
    for call in calls {
        make(alloc, &mut draft, call)?;
    }
    Ok(draft)
}

/// The query of a path and calls.
pub(crate) fn query_of(
    alloc: Global,
    path: &str,
    calls: Vec<QueryCall<'_>>,
) -> Result<Query, LineError>
    ensures ok { IfOk result (λ query. query_in path.now (as_calls calls.entry.items) ≡ Ok query) }
    ensures fault { IfErr result (λ e. (query_in path.now (as_calls calls.entry.items) ≡ Err e)
        ⊎ (e ≡ LineError.NoMemory)) }
{
    let draft = Query::at(path_of(alloc, path)?);
    Ok(make_all(alloc, draft, calls)?.done())
}
