// Listens in the order of their forms: those of one path stand together. Each is found by halving.
ghost use Rattle.std.specs.Prelude.{◌≡◌, ◌≤◌, true, false, not, length, ◌<◌, ◌+◌, ◌++◌, ◌∷◌, [], vec_len};
ghost use Rattle.std.specs.Prelude.{vec_capacity};
ghost use Rattle.std.specs.List.{filter, list_any, All};
ghost use Rattle.std.specs.List.Sorted.{IsPartitionPoint, IsSorted};
ghost use Rattle.std.specs.Ordering.{is_lt, is_le, is_gt};
ghost use Rattle.rt_tree.specs.PathTree.{path_cmp, path_eq};
ghost use Rattle.rt_tree.specs.Assignments.{is_at_or_above};
ghost use Rattle.rt_query.specs.Queries.{Query, is_filtered};
ghost use Rattle.rt_query.specs.QueryEq.{query_eq};
ghost use Rattle.rt_query.specs.QueryOrder.{query_cmp, unlimited};
ghost use Rattle.rt_query.specs.Ranges.{takes_in};
ghost use Rattle.rt_query.specs.Supply.{does_supply};
ghost use Rattle.rt_cover.specs.inside.Index.{by_form, AreApart, SameCounts};

use rt_query::{Query, query_cmp, unlimited_cmp};
use rt_tree::{Key, Path};

// What has a form, by whose path it stands.
pub(crate) trait HasForm {
    ghost form_of: { Self → Query };

    // The form.
    fn form(&self) -> &Query
        ensures { result.now ≡ form_of self.now };
}

// Whether its path stands before this one.
fn is_before<T: HasForm>(item: &T, path: &[Key]) -> bool
    ensures { result ≡ is_lt (path_cmp (T.form_of item.now).path path.now) }
{
    item.form().path().keys().cmp(path).is_lt()
}

// Whether it does not stand behind it.
fn is_not_behind<T: HasForm>(item: &T, path: &[Key]) -> bool
    ensures { result ≡ is_le (path_cmp (T.form_of item.now).path path.now) }
{
    item.form().path().keys().cmp(path).is_le()
}

// Where the first stands that is not before the path, by halving.
fn first_from<T: HasForm>(by_path: &[T], path: &[Key]) -> usize
    requires { IsSorted (by_form T.form_of) by_path.now }
    ensures within { result ≤ length by_path.now }
    ensures point { IsPartitionPoint (λ x. is_lt (path_cmp (T.form_of x).path path.now) ≡ true)
        (λ x. is_lt (path_cmp (T.form_of x).path path.now) ≡ false) by_path.now result }
{
    by_path.partition_point(|item| is_before(item, path))
}

// Whether its form stands before this one.
fn is_lesser<T: HasForm>(item: &T, form: &Query) -> bool
    ensures { result ≡ is_lt (query_cmp (T.form_of item.now) form.now) }
{
    query_cmp(item.form(), form).is_lt()
}

// Where the first stands whose form is not before this one, by halving.
pub(crate) fn place_of_form<T: HasForm>(by_path: &[T], form: &Query) -> usize
    requires { IsSorted (by_form T.form_of) by_path.now }
    ensures within { result ≤ length by_path.now }
    ensures point { IsPartitionPoint (λ x. is_lt (query_cmp (T.form_of x) form.now) ≡ true)
        (λ x. is_lt (query_cmp (T.form_of x) form.now) ≡ false) by_path.now result }
{
    by_path.partition_point(|item| is_lesser(item, form))
}

// Those of a path.
pub(crate) fn at_path<'a, T: HasForm>(by_path: &'a [T], path: &[Key]) -> &'a [T]
    requires { IsSorted (by_form T.form_of) by_path.now }
    ensures { result.now ≡ filter (λ x. path_eq (T.form_of x).path path.now) by_path.now }
{
    let first = first_from(by_path, path);
    let rest = &by_path[first..];
    let count = rest.partition_point(|item| is_not_behind(item, path));
    &rest[..count]
}

// Whether its path is at or under this one.
fn is_under<T: HasForm>(item: &T, path: &Path) -> bool
    ensures { result ≡ is_at_or_above path.now (T.form_of item.now).path }
{
    path.is_prefix_of(item.form().path())
}

// Those at or under a path.
pub(crate) fn under<'a, T: HasForm>(by_path: &'a [T], path: &Path) -> &'a [T]
    requires { IsSorted (by_form T.form_of) by_path.now }
    ensures { result.now ≡ filter (λ x. is_at_or_above path.now (T.form_of x).path) by_path.now }
{
    let first = first_from(by_path, path.keys());
    let rest = &by_path[first..];
    let count = rest.partition_point(|item| is_under(item, path));
    &rest[..count]
}

// Whether one of them is of the form, by halving.
fn has_form<T: HasForm>(by_path: &[T], form: &Query) -> bool
    requires { IsSorted (by_form T.form_of) by_path.now }
    ensures { result ≡ list_any (λ x. query_eq (T.form_of x) form.now) by_path.now }
{
    let place = place_of_form(by_path, form);
    if place == by_path.len() {
        return false;
    }
    by_path[place].form() == form
}

// Whether its form stands no further than the query would without its limit.
fn is_up_to<T: HasForm>(item: &T, query: &Query) -> bool
    ensures { result ≡ not (is_gt (query_cmp (T.form_of item.now) (unlimited query.now))) }
{
    !unlimited_cmp(item.form(), query).is_gt()
}

// How many do, by halving.
fn count_up_to<T: HasForm>(by_path: &[T], query: &Query) -> usize
    requires { IsSorted (by_form T.form_of) by_path.now }
    ensures within { result ≤ length by_path.now }
    ensures point { IsPartitionPoint
        (λ x. not (is_gt (query_cmp (T.form_of x) (unlimited query.now))) ≡ true)
        (λ x. not (is_gt (query_cmp (T.form_of x) (unlimited query.now))) ≡ false) by_path.now result }
{
    by_path.partition_point(|item| is_up_to(item, query))
}

// Whether one of these ranges takes in the query's. None of them takes in another: so where lower cuts rise,
// upper cuts rise too, and the last that begins no later than the query reaches furthest. It alone is asked.
fn take_in<T: HasForm>(by_path: &[T], query: &Query) -> bool
    requires order { IsSorted (by_form T.form_of) by_path.now }
    requires filtered { All (λ x. is_filtered (T.form_of x) ≡ true) by_path.now }
    requires apart { AreApart T.form_of by_path.now }
    ensures { result ≡ list_any (λ x. takes_in (T.form_of x) query.now) by_path.now }
{
    let count = count_up_to(by_path, query);
    if count == 0 {
        return false;
    }
    let last = count - 1;
    by_path[last].form().takes_in(query)
}

// Whether one of these ranges supplies the query, by halving.
pub(crate) fn supply<T: HasForm>(by_path: &[T], query: &Query) -> bool
    requires order { IsSorted (by_form T.form_of) by_path.now }
    requires filtered { All (λ x. is_filtered (T.form_of x) ≡ true) by_path.now }
    requires apart { AreApart T.form_of by_path.now }
    ensures { result ≡ list_any (λ x. does_supply (T.form_of x) query.now) by_path.now }
{
    has_form(by_path, query) || take_in(by_path, query)
}

// ---- one more in a list in the order of forms

// Puts it in its place; there is room for it.
pub(crate) fn place<T: HasForm + Drop>(by_path: &mut Vec<T>, item: T)
    requires sorted { IsSorted (by_form T.form_of) by_path.old.items }
    requires room { vec_len by_path.old < vec_capacity by_path.old }
    ensures sorted { IsSorted (by_form T.form_of) by_path.new.items }
    ensures same { SameCounts by_path.new.items (by_path.old.items ++ item ∷ []) }
    ensures len { vec_len by_path.new ≡ vec_len by_path.old + 1 }
    ensures room { vec_capacity by_path.old ≤ vec_capacity by_path.new }
{
    let at = place_of_form(by_path, item.form());
    let _in_reserved_room = by_path.insert(at, item);
}
