// What a target names: a place of the tree, and the words of a query.
ghost use Rattle.std.specs.Prelude.{◌≡◌, ◌⊎◌, IfOk, IfErr, Ok, Err, string_bytes, option_copied, IfSome};
ghost use Rattle.std.specs.Prelude.{OnOk, Some, None, map};
ghost use Rattle.std.specs.List.{before_first, after_first, list_all, list_any};
ghost use Rattle.std.specs.Option.{option_map};
ghost use Rattle.std.specs.Result.{result_err};
ghost use Rattle.form_urlencoded.specs.Form.{raw_pairs, plus_to_space};
ghost use Rattle.rt_http.specs.Targets.{is_known, is_login, is_mark, path_named, path_of, place_of};
ghost use Rattle.rt_http.specs.Targets.{pretty_of, shallow_said, stem_of, unescaped, value_of, words_in};
ghost use Rattle.rt_http.specs.Targets.{is_filter};
ghost use Rattle.rt_query.specs.Calls.{bound_refusal, bounded_by, limit_refusal, limited_to, order_refusal};
ghost use Rattle.rt_query.specs.Calls.{ordered_by};
ghost use Rattle.rt_http.specs.Filters.{bound_of, bounded, bounds, child_named, count_in, does_query};
ghost use Rattle.rt_http.specs.Filters.{filtered, if_said, index_in, index_named, limit_of, limited, limits};
ghost use Rattle.rt_http.specs.Filters.{mark_in, ordered, query_in, refused_draft, tree_of_text};
ghost use Rattle.rt_http.specs.Filters.{tree_of_word};

use crate::fault::Fault;
use crate::head::Unsupported;
use form_urlencoded::raw_pairs;
use percent_encoding::percent_decode;
use rt_order::{Index, Mark};
use rt_query::{Draft, Query, QueryError};
use rt_tree::{Path, Tree, TreeError};
use std::alloc::{AllocError, Global};
use std::str;

/// What stands at a path of a server.
#[derive(Drop)]
pub(crate) enum TargetPlace {
    /// `/healthz`: whether the server is there.
    Health,
    /// `/PATH.json`: a place of the tree.
    Tree(Path),
}

/// What the words of a query say.
#[derive(Clone, Copy)]
pub(crate) struct Words {
    /// Whether the answer is to be laid out for a reader: `print=pretty`.
    pub(crate) is_pretty: bool,
    /// Whether a tree is cut to its children: `shallow=true`.
    pub(crate) is_shallow: bool,
}

/// The path of a target, and the query behind its `?`.
pub(crate) fn split(target: &str) -> (&str, &str)
    ensures path { result.0.now ≡ before_first is_mark target.now }
    ensures query { result.1.now ≡ after_first is_mark target.now }
{
    target.split_once('?').unwrap_or((target, ""))
}

// The bytes before `.json`, where a path ends so.
fn stem(path: &[u8]) -> Option<&[u8]>
    ensures { option_copied result ≡ stem_of path.now }
{
    path.strip_suffix(b".json")
}

/// The text that bytes with escapes stand for, if it is one.
#[tactic(auto, using(crate::proofs::Texts::is_text, crate::proofs::Texts::is_no_text))]
pub(crate) fn unescaped(alloc: Global, bytes: &[u8]) -> Result<Option<String>, AllocError>
    ensures { IfOk result (λ text. option_map string_bytes text ≡ unescaped bytes.now) }
{
    let mut plain = Vec::new(alloc);
    percent_decode(bytes).append_to(&mut plain)?;
    match str::from_utf8(plain.as_slice()) {
        Ok(text) => Ok(Some(String::from_str(alloc, text)?)),
        Err(_) => Ok(None),
    }
}

/// The path that a target names without its query, as a text without escapes; none where these make no
/// UTF-8.
///
/// # Errors
///
/// Want of memory.
pub fn named_path(alloc: Global, target: &str) -> Result<Option<String>, AllocError>
    ensures { IfOk result (λ path. option_map string_bytes path ≡ path_named target.now) }
{
    let (at, _) = split(target);
    unescaped(alloc, at.as_bytes())
}

// The path of a text, as keys between slashes.
pub(crate) fn path(alloc: Global, text: &str) -> Result<Path, Fault>
    ensures ok { IfOk result (λ path. path_of text.now ≡ Ok path) }
    ensures fault { IfErr result (λ e. (path_of text.now ≡ Err e) ⊎ (e ≡ Fault.NoMemory)) }
{
    match Path::parse(alloc, text) {
        Ok(path) => Ok(path),
        Err(TreeError::NoMemory) => Err(Fault::NoMemory),
        Err(error) => Err(Fault::Path(error)),
    }
}

/// What stands at a path, which is written with escapes.
pub(crate) fn place_of(alloc: Global, at: &str) -> Result<TargetPlace, Fault>
    ensures ok { IfOk result (λ place. place_of at.now ≡ Ok place) }
    ensures fault { IfErr result (λ e. (place_of at.now ≡ Err e) ⊎ (e ≡ Fault.NoMemory)) }
{
    if at == "/healthz" {
        return Ok(TargetPlace::Health);
    }
    let Some(stem) = stem(at.as_bytes()) else {
        return Err(Fault::NotFound);
    };
    match unescaped(alloc, stem)? {
        Some(text) => Ok(TargetPlace::Tree(path(alloc, text.as_str())?)),
        None => Err(Fault::PathNoText),
    }
}

/// The value of the first word of that name.
pub(crate) fn value<'a>(query: &'a str, name: &str) -> Option<&'a [u8]>
    ensures { option_copied result ≡ value_of name.now (raw_pairs query.now) }
{
    for (word, value) in raw_pairs(query.as_bytes()) {
        if word == name.as_bytes() {
            return Some(value);
        }
    }
    None
}

// Whether a word of a query is one of a login.
fn is_login(word: &[u8]) -> bool
    ensures { result ≡ is_login word.now }
{
    word == b"auth".as_slice() || word == b"access_token".as_slice()
}

// Whether a word of a query is one that there is.
fn is_known(word: &[u8]) -> bool
    ensures { result ≡ is_known word.now }
{
    word == b"print".as_slice()
        || word == b"shallow".as_slice()
        || word == b"orderBy".as_slice()
        || is_filter(word)
}

// Whether the query logs in.
fn does_log_in(query: &str) -> bool
    ensures { result ≡ list_any (λ pair. is_login pair.0) (raw_pairs query.now) }
{
    for (word, _) in raw_pairs(query.as_bytes()) {
        if is_login(word) {
            return true;
        }
    }
    false
}

// Whether all words of a query are known.
fn are_known(query: &str) -> bool
    ensures { result ≡ list_all (λ pair. is_known pair.0) (raw_pairs query.now) }
{
    for (word, _) in raw_pairs(query.as_bytes()) {
        if !is_known(word) {
            return false;
        }
    }
    true
}

// Whether an answer is laid out, by the value of `print`.
fn is_pretty(print: Option<&[u8]>) -> Result<bool, Fault>
    ensures { result ≡ pretty_of (option_copied print.entry) }
{
    match print {
        None => Ok(false),
        Some(value) => {
            if value == b"pretty".as_slice() {
                Ok(true)
            } else {
                Err(Fault::BadWord)
            }
        }
    }
}

// Whether a tree is cut to its children, by the value of `shallow`.
fn is_shallow(shallow: Option<&[u8]>) -> Result<bool, Fault>
    ensures { result ≡ shallow_said (option_copied shallow.entry) }
{
    match shallow {
        None => Ok(false),
        Some(value) => {
            if value == b"true".as_slice() {
                Ok(true)
            } else if value == b"false".as_slice() {
                Ok(false)
            } else {
                Err(Fault::BadWord)
            }
        }
    }
}

/// What the words of a query say.
pub(crate) fn words_of(query: &str) -> Result<Words, Fault>
    ensures { result ≡ words_in (raw_pairs query.now) }
{
    if does_log_in(query) {
        return Err(Fault::Lacks(Unsupported::Login));
    }
    if !are_known(query) {
        return Err(Fault::UnknownWord);
    }
    let is_pretty = is_pretty(value(query, "print"))?;
    let is_shallow = is_shallow(value(query, "shallow"))?;
    Ok(Words {
        is_pretty,
        is_shallow,
    })
}

// ---- the words of a query that make a filter

/// A bound of a query.
#[derive(Clone, Copy)]
pub(crate) enum Bound {
    Start,
    End,
    Equal,
}

// The bytes with a space for each `+`, as forms have it.
fn spaced(alloc: Global, bytes: &[u8]) -> Result<Vec<u8>, AllocError>
    ensures { IfOk result (λ spaced. spaced.items ≡ map plus_to_space bytes.now) }
{
    let mut spaced = Vec::new(alloc);
    for byte in bytes {
        spaced.push(if *byte == b'+' { b' ' } else { *byte })?;
    }
    Ok(spaced)
}

// The tree that a text of JSON is; any other text is none that a word has.
fn tree_of_text(alloc: Global, text: &str) -> Result<Tree, Fault>
    ensures ok { IfOk result (λ tree. tree_of_text text.now ≡ Ok tree) }
    ensures fault { IfErr result (λ e. (tree_of_text text.now ≡ Err e) ⊎ (e ≡ Fault.NoMemory)) }
{
    match Tree::read(alloc, text) {
        Ok(tree) => Ok(tree),
        Err(TreeError::NoMemory) => Err(Fault::NoMemory),
        Err(_) => Err(Fault::BadWord),
    }
}

// The JSON value of a word, as a tree.
fn tree_of_word(alloc: Global, word: &[u8]) -> Result<Tree, Fault>
    ensures ok { IfOk result (λ tree. tree_of_word word.now ≡ Ok tree) }
    ensures fault { IfErr result (λ e. (tree_of_word word.now ≡ Err e) ⊎ (e ≡ Fault.NoMemory)) }
{
    let bytes = spaced(alloc, word)?;
    match unescaped(alloc, bytes.as_slice())? {
        Some(text) => tree_of_text(alloc, text.as_str()),
        None => Err(Fault::BadWord),
    }
}

// The order by what stands at a path below each child.
fn child_named(alloc: Global, name: &str) -> Result<Index, Fault>
    ensures ok { IfOk result (λ index. child_named name.now ≡ Ok index) }
    ensures fault { IfErr result (λ e. (child_named name.now ≡ Err e) ⊎ (e ≡ Fault.NoMemory)) }
{
    let path = path(alloc, name)?;
    Ok(Index::Child(path))
}

// The order of that name.
fn index_named(alloc: Global, name: &str) -> Result<Index, Fault>
    ensures ok { IfOk result (λ index. index_named name.now ≡ Ok index) }
    ensures fault { IfErr result (λ e. (index_named name.now ≡ Err e) ⊎ (e ≡ Fault.NoMemory)) }
{
    match name {
        "$key" => Ok(Index::Key),
        "$value" => Ok(Index::Value),
        _ => child_named(alloc, name),
    }
}

// The order that a value of `orderBy` names.
fn index_in(alloc: Global, tree: &Tree) -> Result<Index, Fault>
    ensures ok { IfOk result (λ index. index_in tree.now ≡ Ok index) }
    ensures fault { IfErr result (λ e. (index_in tree.now ≡ Err e) ⊎ (e ≡ Fault.NoMemory)) }
{
    let Some(leaf) = tree.as_leaf() else {
        return Err(Fault::BadWord);
    };
    match leaf.as_str() {
        Some(name) => index_named(alloc, name),
        None => Err(Fault::BadWord),
    }
}

// The value of a bound.
fn mark_in(alloc: Global, tree: &Tree) -> Result<Mark, Fault>
    ensures ok { IfOk result (λ mark. mark_in tree.now ≡ Ok mark) }
    ensures fault { IfErr result (λ e. (mark_in tree.now ≡ Err e) ⊎ (e ≡ Fault.NoMemory)) }
{
    if tree.is_null() {
        return Ok(Mark::Null);
    }
    match tree.as_leaf() {
        Some(leaf) => Ok(Mark::Leaf(leaf.copy(alloc)?)),
        None => Err(Fault::BadWord),
    }
}

// The number of rows of a limit.
fn count_in(tree: &Tree) -> Result<u32, Fault>
    ensures { result ≡ count_in tree.now }
{
    let Some(leaf) = tree.as_leaf() else {
        return Err(Fault::BadWord);
    };
    match leaf.as_i64() {
        Some(n) if n >= 1 && n <= 4294967295 => Ok(n as u32),
        _ => Err(Fault::BadWord),
    }
}

// The fault of a word for which a draft is refused.
fn refused_draft(error: QueryError) -> Fault
    ensures { result ≡ refused_draft error }
{
    match error {
        QueryError::NoMemory => Fault::NoMemory,
        QueryError::NoOrder => Fault::NoOrder,
        QueryError::OrderTwice
        | QueryError::StartTwice
        | QueryError::EndTwice
        | QueryError::LimitTwice
        | QueryError::LimitZero
        | QueryError::NeedsText
        | QueryError::KeyNotAllowed
        | QueryError::BadBoundKey => Fault::BadWord,
    }
}

// Puts a draft in that order.
fn put_order(draft: &mut Draft, index: Index) -> Result<(), QueryError>
    ensures made { OnOk result (draft.new ≡ ordered_by index draft.old) }
    ensures refused { result_err result ≡ order_refusal draft.old }
{
    match index {
        Index::Key => draft.order_by_key(),
        Index::Value => draft.order_by_value(),
        Index::Child(path) => draft.order_by_child(path),
    }
}

// Puts a draft in the order that a tree names.
fn order_in(alloc: Global, draft: &mut Draft, tree: &Tree) -> Result<(), Fault>
    ensures ok { OnOk result (ordered tree.now draft.old ≡ Ok draft.new) }
    ensures fault { IfErr result (λ e. (ordered tree.now draft.old ≡ Err e) ⊎ (e ≡ Fault.NoMemory)) }
{
    let index = index_in(alloc, tree)?;
    match put_order(draft, index) {
        Ok(()) => Ok(()),
        Err(error) => Err(refused_draft(error)),
    }
}

// Puts a draft in the order of a word, if there is one.
fn set_order(alloc: Global, draft: &mut Draft, word: Option<&[u8]>) -> Result<(), Fault>
    ensures ok { OnOk result (if_said (option_copied word.entry) ordered draft.old ≡ Ok draft.new) }
    ensures fault { IfErr result (λ e. (if_said (option_copied word.entry) ordered draft.old ≡ Err e)
        ⊎ (e ≡ Fault.NoMemory)) }
{
    match word {
        None => Ok(()),
        Some(word) => {
            let tree = tree_of_word(alloc, word)?;
            order_in(alloc, draft, &tree)
        }
    }
}

// Sets a bound of a draft.
fn put_bound(draft: &mut Draft, bound: Bound, mark: Mark) -> Result<(), QueryError>
    ensures made { OnOk result (draft.new ≡ bounded_by (bound_of bound) mark None draft.old) }
    ensures refused { IfSome (bound_refusal (bound_of bound) mark None draft.old) (λ e. result ≡ Err e) }
    ensures errors { IfErr result (λ e. (bound_refusal (bound_of bound) mark None draft.old ≡ Some e)
        ⊎ (e ≡ QueryError.NoMemory)) }
{
    match bound {
        Bound::Start => draft.start_at(mark, None),
        Bound::End => draft.end_at(mark, None),
        Bound::Equal => draft.equal_to(mark, None),
    }
}

// Sets a bound of a draft at a tree.
fn bound_in(alloc: Global, draft: &mut Draft, bound: Bound, tree: &Tree) -> Result<(), Fault>
    ensures ok { OnOk result (bounded bound tree.now draft.old ≡ Ok draft.new) }
    ensures fault { IfErr result (λ e. (bounded bound tree.now draft.old ≡ Err e) ⊎ (e ≡ Fault.NoMemory)) }
{
    let mark = mark_in(alloc, tree)?;
    match put_bound(draft, bound, mark) {
        Ok(()) => Ok(()),
        Err(error) => Err(refused_draft(error)),
    }
}

// Sets a bound of a draft by a word, if there is one.
fn set_bound(
    alloc: Global,
    draft: &mut Draft,
    which: Bound,
    word: Option<&[u8]>,
) -> Result<(), Fault>
    ensures ok { OnOk result (if_said (option_copied word.entry) (bounded which) draft.old ≡ Ok draft.new) }
    ensures fault { IfErr result (λ e. (if_said (option_copied word.entry) (bounded which) draft.old ≡ Err e)
        ⊎ (e ≡ Fault.NoMemory)) }
{
    match word {
        None => Ok(()),
        Some(word) => {
            let tree = tree_of_word(alloc, word)?;
            bound_in(alloc, draft, which, &tree)
        }
    }
}

// Sets a limit of a draft, of the first or of the last rows.
fn put_limit(draft: &mut Draft, is_first: bool, rows: u32) -> Result<(), QueryError>
    ensures made { OnOk result (draft.new ≡ limited_to (limit_of is_first rows) draft.old) }
    ensures refused { result_err result ≡ limit_refusal rows draft.old }
{
    if is_first {
        draft.limit_to_first(rows)
    } else {
        draft.limit_to_last(rows)
    }
}

// Sets a limit of a draft at a tree.
fn limit_in(draft: &mut Draft, is_first: bool, tree: &Tree) -> Result<(), Fault>
    ensures ok { OnOk result (limited is_first tree.now draft.old ≡ Ok draft.new) }
    ensures fault { IfErr result (λ e. (limited is_first tree.now draft.old ≡ Err e) ⊎ (e ≡ Fault.NoMemory)) }
{
    let rows = count_in(tree)?;
    match put_limit(draft, is_first, rows) {
        Ok(()) => Ok(()),
        Err(error) => Err(refused_draft(error)),
    }
}

// Sets a limit of a draft by a word, if there is one.
fn set_limit(
    alloc: Global,
    draft: &mut Draft,
    is_first: bool,
    word: Option<&[u8]>,
) -> Result<(), Fault>
    ensures ok { OnOk result (if_said (option_copied word.entry) (limited is_first) draft.old ≡ Ok draft.new) }
    ensures fault { IfErr result (λ e. (if_said (option_copied word.entry) (limited is_first) draft.old ≡ Err e)
        ⊎ (e ≡ Fault.NoMemory)) }
{
    match word {
        None => Ok(()),
        Some(word) => {
            let tree = tree_of_word(alloc, word)?;
            limit_in(draft, is_first, &tree)
        }
    }
}

// Sets the bounds of a draft that a query names.
fn set_bounds(alloc: Global, draft: &mut Draft, query: &str) -> Result<(), Fault>
    ensures ok { OnOk result (bounds (raw_pairs query.now) draft.old ≡ Ok draft.new) }
    ensures fault { IfErr result (λ e. (bounds (raw_pairs query.now) draft.old ≡ Err e) ⊎ (e ≡ Fault.NoMemory)) }
{
    set_bound(alloc, draft, Bound::Start, value(query, "startAt"))?;
    set_bound(alloc, draft, Bound::End, value(query, "endAt"))?;
    set_bound(alloc, draft, Bound::Equal, value(query, "equalTo"))
}

// Sets the limits of a draft that a query names.
fn set_limits(alloc: Global, draft: &mut Draft, query: &str) -> Result<(), Fault>
    ensures ok { OnOk result (limits (raw_pairs query.now) draft.old ≡ Ok draft.new) }
    ensures fault { IfErr result (λ e. (limits (raw_pairs query.now) draft.old ≡ Err e) ⊎ (e ≡ Fault.NoMemory)) }
{
    set_limit(alloc, draft, true, value(query, "limitToFirst"))?;
    set_limit(alloc, draft, false, value(query, "limitToLast"))
}

// Sets the order, the bounds and the limits of a draft that a query names.
fn set_all(alloc: Global, draft: &mut Draft, query: &str) -> Result<(), Fault>
    ensures ok { OnOk result (filtered (raw_pairs query.now) draft.old ≡ Ok draft.new) }
    ensures fault { IfErr result (λ e. (filtered (raw_pairs query.now) draft.old ≡ Err e) ⊎ (e ≡ Fault.NoMemory)) }
{
    set_order(alloc, draft, value(query, "orderBy"))?;
    set_bounds(alloc, draft, query)?;
    set_limits(alloc, draft, query)
}

/// Whether a word is one of a bound or a limit, which come after an order.
pub(crate) fn is_filter(word: &[u8]) -> bool
    ensures { result ≡ is_filter word.now }
{
    word == b"startAt".as_slice()
        || word == b"endAt".as_slice()
        || word == b"equalTo".as_slice()
        || word == b"limitToFirst".as_slice()
        || word == b"limitToLast".as_slice()
}

// Whether a query has such a word.
fn does_filter(query: &str) -> bool
    ensures { result ≡ list_any (λ pair. is_filter pair.0) (raw_pairs query.now) }
{
    for (word, _) in raw_pairs(query.as_bytes()) {
        if is_filter(word) {
            return true;
        }
    }
    false
}

/// Whether a query has an order, a bound or a limit.
pub(crate) fn does_query(query: &str) -> bool
    ensures { result ≡ does_query (raw_pairs query.now) }
{
    value(query, "orderBy").is_some() || does_filter(query)
}

/// The query of a path that the words of a query make.
pub(crate) fn query_in(alloc: Global, path: Path, query: &str) -> Result<Query, Fault>
    ensures ok { IfOk result (λ made. query_in path (raw_pairs query.now) ≡ Ok made) }
    ensures fault { IfErr result (λ e. (query_in path (raw_pairs query.now) ≡ Err e) ⊎ (e ≡ Fault.NoMemory)) }
{
    if value(query, "orderBy").is_none() && does_filter(query) {
        return Err(Fault::NoOrder);
    }
    let mut draft = Query::at(path);
    set_all(alloc, &mut draft, query)?;
    Ok(draft.done())
}
