// What the listens brought, changed by runs of pushes and of changes of cover.
ghost use Rattle.std.specs.Prelude.{◌≡◌, true, false, IfOk, OnOk};
ghost use Rattle.std.specs.List.{All, list_all};
ghost use Rattle.rt_cache.specs.Brought.{may_put};
ghost use Rattle.rt_cache.specs.Recover.{do_plains_overlap, is_among};
ghost use Rattle.rt_cache.specs.Runs.{IsAllowed, IsKept};

use crate::fault::{Fault, Told};
use crate::line::Line;
use rt_cache::{Brought, BroughtCall, QueryList};
use rt_query::Query;
use rt_tree::MAX_LEVELS;

// So many queries.
fn queries(line: &mut Line) -> Result<Vec<Query>, Fault> {
    let mut queries = Vec::new(line.alloc);
    for _ in 0..line.number::<u64>() {
        queries.push(line.query())?;
    }
    Ok(queries)
}

// The listens kept: none, or one.
fn kept(line: &mut Line) -> Result<Vec<Query>, Fault>
    ensures { IfOk result (λ kept. do_plains_overlap kept.items ≡ false) }
{
    let mut kept = Vec::new(line.alloc);
    match line.number() {
        0 => {}
        1 => kept.push(line.query())?,
        _ => return Err(Fault::NoSuchCall),
    }
    Ok(kept)
}

// A push on the listen of a query, at a path, of a tree.
fn push(line: &mut Line) -> Result<BroughtCall, Fault>
    ensures { IfOk result (λ call. IsAllowed call) }
{
    let query = line.query();
    let (path, tree) = line.entry();
    if !query.path().is_prefix_of(&path) || path.keys().len() + tree.levels() > MAX_LEVELS {
        return Err(Fault::NoSuchCall);
    }
    Ok(BroughtCall::Put(query, path, tree))
}

// A push, or a change of cover.
fn call_of(line: &mut Line) -> Result<BroughtCall, Fault>
    ensures { IfOk result (λ call. IsAllowed call) }
{
    if line.next() == "put" {
        return push(line);
    }
    let registered = queries(line)?;
    let kept = kept(line)?;
    Ok(BroughtCall::Recover(QueryList::of(registered), QueryList::of(kept)))
}

// The calls to the end of the line.
fn calls(line: &mut Line) -> Result<Vec<BroughtCall>, Fault>
    ensures { IfOk result (λ calls. All IsAllowed calls.items) }
{
    let mut calls = Vec::new(line.alloc);
    for _ in 0..line.len() {
        if line.is_empty() {
            break;
        }
        calls.push(call_of(line)?)?;
    }
    Ok(calls)
}

// Whether the query is one of those.
fn is_among(those: &[Query], query: &Query) -> bool
    ensures { result ≡ is_among those.now query.now }
{
    those.iter().any(|other| other == query)
}

// Whether each of these queries is one of those.
fn are_among(those: &[Query], queries: &[Query]) -> bool
    ensures { result ≡ list_all (is_among those.now) queries.now }
{
    queries.iter().all(|query| is_among(those, query))
}

// The listen of the query is kept: where it isn't yet, its form is registered.
fn keep(brought: &mut Brought, query: &Query) -> Told
    ensures { OnOk result (may_put brought.new query.now ≡ true) }
{
    if !brought.may_put(query) {
        brought.register(query)?;
    }
    if brought.may_put(query) {
        Ok(())
    } else {
        Err(Fault::NoSuchCall)
    }
}

// The call is one that may be made: a push is on a listen that is kept, and the listens kept are
// registered.
fn admit(brought: &mut Brought, call: &BroughtCall) -> Told
    ensures { OnOk result (IsKept brought.new call.now) }
{
    match call {
        BroughtCall::Put(query, _, _) => keep(brought, query),
        BroughtCall::Recover(registered, kept) => {
            if are_among(registered.as_slice(), kept.as_slice()) {
                Ok(())
            } else {
                Err(Fault::NoSuchCall)
            }
        }
    }
}

// Makes the call; whether it was taken.
fn make(brought: &mut Brought, call: BroughtCall) -> Result<bool, Fault>
    requires { IsAllowed call }
{
    admit(brought, &call)?;
    let taken = brought.run(&[call])?;
    Ok(taken.first() == Some(&true))
}

// Makes calls, one after another, and says of each whether it was taken. Where memory lacks, the
// first of them stay made.
fn run(brought: &mut Brought, line: &mut Line) -> Told {
    let calls = calls(line)?;
    line.sound()?;
    let mut taken = Vec::with_capacity(line.alloc, calls.len())?;
    for call in calls {
        let is_taken = make(brought, call).map_err(|fault| match fault {
            Fault::NoMemory => Fault::Lost,
            other => other,
        })?;
        taken.push(is_taken)?;
    }
    line.debug(taken);
    Ok(())
}

// What is brought for a query, or for a child of it where a key is given: its tree, and whether that
// is whole.
fn base(brought: &Brought, line: &mut Line) -> Told {
    let query = line.query();
    let found = if line.is_empty() {
        brought.base(&query)?
    } else {
        brought.base_child(&query, &line.key()?)?
    };
    match found {
        None => line.say("-"),
        Some(base) => {
            line.say(if base.whole { "whole " } else { "part " });
            line.say_tree(&base.tree);
        }
    }
    Ok(())
}

pub(crate) fn call(brought: &mut Brought, line: &mut Line) -> Told {
    match line.next() {
        "new" => *brought = Brought::new(line.alloc),
        "run" => return run(brought, line),
        "base" => return base(brought, line),
        _ => return Err(Fault::NoSuchCall),
    }
    Ok(())
}
