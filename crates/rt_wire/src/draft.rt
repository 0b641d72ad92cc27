// A query that is made of its parts, by the calls of a draft. Only memory can refuse it.
ghost use Rattle.std.specs.Prelude.{◌≡◌, true, IfOk, OnOk, IsSome, None, option_map};
ghost use Rattle.rt_tree.specs.Key.{IsKey};
ghost use Rattle.rt_tree.specs.Leaf.{text};
ghost use Rattle.rt_query.specs.Calls.{ordered_by, order_of};
ghost use Rattle.rt_wire.specs.inside.Made.{cut_named, AreNamed, IsNamed, MayCut, Counts, with_lower};
ghost use Rattle.rt_wire.specs.inside.Made.{with_upper, with_limit};
ghost use Rattle.rt_wire.specs.QueryFields.{may_cut};

use rt_order::{Cut, Index, Mark, Place, Range};
use rt_query::{Draft, Limit, Query, QueryError};
use rt_tree::{Key, Leaf, Path};
use std::alloc::{AllocError, Global};

// A cut in the words of a draft's bounds.
#[derive(Drop)]
pub(crate) struct Bound {
    value: Mark,
    key: Option<Key>,
    is_above: bool,
}

// A key as the text that a bound in key order is given.
fn text_of(alloc: Global, key: &Key) -> Result<Mark, AllocError>
    ensures text { IfOk result (λ mark. mark ≡ Mark.Leaf (text key.now)) }
    ensures valid { IfOk result (λ _. IsKey key.now) }
{
    let text = String::from_str(alloc, key.text())?;
    match Leaf::text(text) {
        Ok(leaf) => Ok(Mark::Leaf(leaf)),
        Err(_) => unreachable!(),
    }
}

// A cut of children in key order.
fn key_bound(alloc: Global, cut: Cut) -> Result<Bound, AllocError>
    requires { may_cut Index.Key cut ≡ true }
    ensures cut { IfOk result (λ bound. cut_named Index.Key bound ≡ cut) }
    ensures named { IfOk result (IsNamed Index.Key) }
{
    let Cut { value, place } = cut;
    drop(value);
    let (key, is_above) = match place {
        Place::Before(key) => (key, false),
        Place::After(key) => (key, true),
        Place::Min | Place::Max => unreachable!(),
    };
    let value = text_of(alloc, &key)?;
    Ok(Bound {
        value,
        key: None,
        is_above,
    })
}

// A cut of children in another order.
fn value_bound(cut: Cut) -> Bound
    ensures cut { cut_named Index.Value result ≡ cut }
    ensures named { IsNamed Index.Value result }
{
    let Cut { value, place } = cut;
    let (key, is_above) = match place {
        Place::Min => (None, false),
        Place::Before(key) => {
            // For the prover: it is a key.
            let _valid = key.text();
            (Some(key), false)
        }
        Place::After(key) => {
            // For the prover: it is a key.
            let _valid = key.text();
            (Some(key), true)
        }
        Place::Max => (None, true),
    };
    Bound {
        value,
        key,
        is_above,
    }
}

// The cut of children in that order, where there is one.
fn bound_of(alloc: Global, index: &Index, cut: Option<Cut>) -> Result<Option<Bound>, AllocError>
    requires { MayCut index.now cut }
    ensures cut { IfOk result (λ bound. option_map (cut_named index.now) bound ≡ cut) }
    ensures named { IfOk result (AreNamed index.now) }
{
    let Some(cut) = cut else {
        return Ok(None);
    };
    match index {
        Index::Key => Ok(Some(key_bound(alloc, cut)?)),
        Index::Child(_) | Index::Value => Ok(Some(value_bound(cut))),
    }
}

// Names the order.
fn order(draft: &mut Draft, index: Index)
    requires { draft.old.index ≡ None }
    ensures { draft.new ≡ ordered_by index draft.old }
{
    let named = match index {
        Index::Key => draft.order_by_key(),
        Index::Child(path) => draft.order_by_child(path),
        Index::Value => draft.order_by_value(),
    };
    match named {
        Ok(()) => {}
        Err(_) => unreachable!(),
    }
}

// Sets the start.
fn start(draft: &mut Draft, bound: Option<Bound>) -> Result<(), AllocError>
    requires index { IsSome draft.old.index }
    requires free { draft.old.range.lower ≡ None }
    requires named { AreNamed (order_of draft.old) bound }
    ensures { OnOk result (draft.new
        ≡ with_lower (option_map (cut_named (order_of draft.old)) bound) draft.old) }
{
    let Some(bound) = bound else {
        return Ok(());
    };
    let Bound {
        value,
        key,
        is_above,
    } = bound;
    let key = key.as_ref().map(Key::text);
    let set = if is_above {
        draft.start_after(value, key)
    } else {
        draft.start_at(value, key)
    };
    match set {
        Ok(()) => Ok(()),
        Err(QueryError::NoMemory) => Err(AllocError),
        Err(_) => unreachable!(),
    }
}

// Sets the end.
fn end(draft: &mut Draft, bound: Option<Bound>) -> Result<(), AllocError>
    requires index { IsSome draft.old.index }
    requires free { draft.old.range.upper ≡ None }
    requires named { AreNamed (order_of draft.old) bound }
    ensures { OnOk result (draft.new
        ≡ with_upper (option_map (cut_named (order_of draft.old)) bound) draft.old) }
{
    let Some(bound) = bound else {
        return Ok(());
    };
    let Bound {
        value,
        key,
        is_above,
    } = bound;
    let key = key.as_ref().map(Key::text);
    let set = if is_above {
        draft.end_at(value, key)
    } else {
        draft.end_before(value, key)
    };
    match set {
        Ok(()) => Ok(()),
        Err(QueryError::NoMemory) => Err(AllocError),
        Err(_) => unreachable!(),
    }
}

// Sets the limit.
fn limit_to(draft: &mut Draft, limit: Option<Limit>)
    requires free { draft.old.limit ≡ None }
    requires counts { Counts limit }
    ensures { draft.new ≡ with_limit limit draft.old }
{
    let set = match limit {
        None => Ok(()),
        Some(Limit::First(n)) => draft.limit_to_first(n),
        Some(Limit::Last(n)) => draft.limit_to_last(n),
    };
    match set {
        Ok(()) => {}
        Err(_) => unreachable!(),
    }
}

/// The query with that path, order, range and limit.
pub(crate) fn made(
    alloc: Global,
    path: Path,
    index: Index,
    range: Range,
    limit: Option<Limit>,
) -> Result<Query, AllocError>
    requires lower { MayCut index range.lower }
    requires upper { MayCut index range.upper }
    requires counts { Counts limit }
    ensures { IfOk result (λ query. query ≡ record {
      path = path;
      index = index;
      range = range;
      limit = limit;
    }) }
{
    let lower = bound_of(alloc, &index, range.lower)?;
    let upper = bound_of(alloc, &index, range.upper)?;
    let mut draft = Query::at(path);
    order(&mut draft, index);
    start(&mut draft, lower)?;
    end(&mut draft, upper)?;
    limit_to(&mut draft, limit);
    Ok(draft.done())
}
