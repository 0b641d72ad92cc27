// The listens kept, by tag and by path.
ghost use Rattle.std.specs.Prelude.{◌≡◌, ◌<◌, ◌≤◌, ◌==◌, ◌+◌, ◌++◌, ◌∷◌, [], ◌&&◌, true, false, not};
ghost use Rattle.std.specs.Prelude.{map, length, nat_lt, slice_index_or, vec_len, vec_capacity};
ghost use Rattle.std.specs.Prelude.{None, IfOk, IfSome, IfNone, OnOk, OnErr};
ghost use Rattle.std.specs.List.{count_by, filter, find, list_any, AllPairs};
ghost use Rattle.std.specs.List.Sorted.{IsSorted};
ghost use Rattle.std.specs.Option.{option_map};
ghost use Rattle.rt_tree.specs.PathTree.{path_eq};
ghost use Rattle.rt_tree.specs.Assignments.{is_at_or_above};
ghost use Rattle.rt_query.specs.Queries.{is_filtered};
ghost use Rattle.rt_query.specs.QueryEq.{query_eq};
ghost use Rattle.rt_query.specs.Supply.{does_supply};
ghost use Rattle.rt_cover.specs.Cover.{Tagged};
ghost use Rattle.rt_cover.specs.inside.Index.{by_form, form_of, AreApart, ArePlainsAlone, SameCounts};
ghost use Rattle.rt_cover.specs.inside.Least.{lesser, least_from, IsPlainOrLeast};

use crate::by_path::{HasForm, at_path, place, place_of_form, supply, under};
use crate::listen::{Listen, copies, have_tag, place_of, tags_of};
use rt_query::{Query, query_cmp};
use rt_tree::Key;
use std::alloc::{AllocError, Global};
use std::cmp::Ordering;
use std::marker::Model;

// The listens kept, by tag. The same stand by path beside that, where they are looked for.
pub(crate) struct Listens {
    by_tag: Vec<Listen>,
    by_path: Vec<Listen>,
}

impl Drop for Listens {
    fn drop(self) {
        let Listens {
            by_tag: _,
            by_path: _,
        } = self;
    }
}

impl Model for Listens {
    ghost use Rattle.std.specs.Prelude.{List};
    ghost use Rattle.rt_cover.specs.Cover.{Tagged};
    ghost use Rattle.rt_cover.specs.inside.Index.{form_of, IsIndex};

    ghost Value = { List Tagged };

    ghost view = { λ a. a.by_tag.items };

    ghost invariant = { λ a. IsIndex form_of a.by_tag.items a.by_path.items };
}

// The tag of the first plain one, where all are ranges if the first is: no other one is looked at.
fn plain_among(listens: &[Listen]) -> Option<u64>
    requires { (d : Tagged) → is_filtered (slice_index_or listens.now 0 d).form ≡ true
        → list_any (λ k. not (is_filtered k.form)) listens.now ≡ false }
    ensures { result ≡ option_map (λ k. k.tag) (find (λ k. not (is_filtered k.form)) listens.now) }
{
    let Some(first) = listens.first() else {
        return None;
    };
    if first.form().is_filtered() {
        return None;
    }
    Some(first.tag())
}

// The tag of a plain one at the path, which stands alone there.
fn plain_at(by_path: &[Listen], path: &[Key]) -> Option<u64>
    requires order { IsSorted (by_form form_of) by_path.now }
    requires alone { ArePlainsAlone form_of by_path.now }
    ensures some { IfSome result (λ tag. list_any (λ k. path_eq k.form.path path.now
        && (not (is_filtered k.form) && k.tag == tag)) by_path.now ≡ true) }
    ensures none { IfNone result (list_any (λ k. path_eq k.form.path path.now
        && not (is_filtered k.form)) by_path.now ≡ false) }
{
    plain_among(at_path(by_path, path))
}

// The tag of a plain one at the path or above it.
fn plain_above(by_path: &[Listen], path: &[Key]) -> Option<u64>
    requires order { IsSorted (by_form form_of) by_path.now }
    requires alone { ArePlainsAlone form_of by_path.now }
    ensures some { IfSome result (λ tag. list_any (λ k. is_at_or_above k.form.path path.now
        && (not (is_filtered k.form) && k.tag == tag)) by_path.now ≡ true) }
    ensures none { IfNone result (list_any (λ k. (is_at_or_above k.form.path path.now
        && nat_lt (length k.form.path) (length path.now + 1))
        && not (is_filtered k.form)) by_path.now ≡ false) }
{
    for count in 0..path.len() + 1 {
        if let Some(tag) = plain_at(by_path, &path[..count]) {
            return Some(tag);
        }
    }
    None
}

// The tag of one of that form, by halving.
fn equal_at(by_path: &[Listen], form: &Query) -> Option<u64>
    requires { IsSorted (by_form form_of) by_path.now }
    ensures some { IfSome result (λ tag.
        list_any (λ k. query_eq k.form form.now && k.tag == tag) by_path.now ≡ true) }
    ensures none { IfNone result (list_any (λ k. query_eq k.form form.now) by_path.now ≡ false) }
{
    let place = place_of_form(by_path, form);
    if place == by_path.len() {
        return None;
    }
    if by_path[place].form() == form {
        Some(by_path[place].tag())
    } else {
        None
    }
}

// The lesser of two tags, of which the first may be none.
fn lesser(least: Option<u64>, tag: u64) -> u64
    ensures { result ≡ lesser least tag }
{
    match least {
        Some(other) if other < tag => other,
        Some(_) => tag,
        None => tag,
    }
}

// The least tag of those that supply the query.
fn least_among(listens: &[Listen], query: &Query) -> Option<u64>
    ensures { result ≡ least_from (λ k. does_supply k.form query.now) None listens.now }
{
    let mut least = None;
    for listen in listens {
        if listen.form().supplies(query) {
            least = Some(lesser(least, listen.tag()));
        }
    }
    least
}

// The least tag of those at the query's path that supply it.
fn least_at(by_path: &[Listen], query: &Query) -> Option<u64>
    requires { IsSorted (by_form form_of) by_path.now }
    ensures { result ≡ least_from (λ k. does_supply k.form query.now) None
        (filter (λ k. path_eq k.form.path query.now.path) by_path.now) }
{
    least_among(at_path(by_path, query.path().keys()), query)
}

// The tag of one that supplies the query: of a plain one, or of all that do the least.
fn supplier(by_path: &[Listen], query: &Query) -> Option<u64>
    requires order { IsSorted (by_form form_of) by_path.now }
    requires alone { ArePlainsAlone form_of by_path.now }
    ensures some { IfSome result (λ tag.
        list_any (λ k. does_supply k.form query.now && k.tag == tag) by_path.now ≡ true) }
    ensures none { IfNone result
        (list_any (λ k. does_supply k.form query.now) by_path.now ≡ false) }
    ensures least { IfSome result (IsPlainOrLeast by_path.now query.now) }
{
    match plain_above(by_path, query.path().keys()) {
        Some(tag) => Some(tag),
        None if query.is_filtered() => least_at(by_path, query),
        None => None,
    }
}

// Whether a range supplies the query, where no plain one does: it has the query's path.
fn have_range(by_path: &[Listen], query: &Query) -> bool
    requires order { IsSorted (by_form form_of) by_path.now }
    requires apart { AreApart form_of by_path.now }
    requires none { list_any (λ k. (is_at_or_above k.form.path query.now.path
        && nat_lt (length k.form.path) (length query.now.path + 1))
        && not (is_filtered k.form)) by_path.now ≡ false }
    ensures { result ≡ list_any (λ k. does_supply k.form query.now) by_path.now }
{
    query.is_filtered() && supply(at_path(by_path, query.path().keys()), query)
}

// Whether one supplies the query: a plain one at its path or above it, or a range at its path, by halving.
fn have_supplier(by_path: &[Listen], query: &Query) -> bool
    requires order { IsSorted (by_form form_of) by_path.now }
    requires apart { AreApart form_of by_path.now }
    requires alone { ArePlainsAlone form_of by_path.now }
    ensures { result ≡ list_any (λ k. does_supply k.form query.now) by_path.now }
{
    match plain_above(by_path, query.path().keys()) {
        Some(_) => true,
        None => have_range(by_path, query),
    }
}

// The tags of those that the form supplies.
fn tags_among(alloc: Global, listens: &[Listen], form: &Query) -> Result<Vec<u64>, AllocError>
    ensures { IfOk result (λ tags. tags.items
        ≡ map (λ k. k.tag) (filter (λ k. does_supply form.now k.form) listens.now)) }
{
    let mut tags = Vec::new(alloc);
    for listen in listens {
        if form.supplies(listen.form()) {
            tags.push(listen.tag())?;
        }
    }
    Ok(tags)
}

// The tags of those that the form supplies: of a filtered one they stand at its path, of a plain one at or
// under it.
fn tags_by_path(alloc: Global, by_path: &[Listen], form: &Query) -> Result<Vec<u64>, AllocError>
    requires { IsSorted (by_form form_of) by_path.now }
    ensures { IfOk result (λ tags. tags.items
        ≡ map (λ k. k.tag) (filter (λ k. does_supply form.now k.form) by_path.now)) }
{
    if form.is_filtered() {
        tags_among(alloc, at_path(by_path, form.path().keys()), form)
    } else {
        tags_of(alloc, under(by_path, form.path()))
    }
}

// The same in order.
fn tags_supplied(alloc: Global, by_path: &[Listen], form: &Query) -> Result<Vec<u64>, AllocError>
    requires { IsSorted (by_form form_of) by_path.now }
    ensures same { IfOk result (λ tags. SameCounts tags.items
        (map (λ k. k.tag) (filter (λ k. does_supply form.now k.form) by_path.now))) }
    ensures rise { IfOk result (λ tags. AllPairs (λ s t. s ≤ t) tags.items) }
{
    let mut tags = tags_by_path(alloc, by_path, form)?;
    tags.sort_unstable_by_key(|tag| *tag);
    Ok(tags)
}

// Whether one alone is stopped, and the form supplies the listen at the place.
fn is_stopped_at(listens: &[Listen], place: usize, form: &Query, stopped: &[u64]) -> bool
    ensures one { result ≡ true → length stopped.now ≡ 1 }
    ensures within { result ≡ true → place < length listens.now }
    ensures stopped { result ≡ true → (d : Tagged)
        → does_supply form.now (slice_index_or listens.now place d).form ≡ true }
{
    if stopped.len() != 1 {
        return false;
    }
    if place >= listens.len() {
        return false;
    }
    form.supplies(listens[place].form())
}

// Takes out those that the form supplies, which have as many tags. Where it is one it mostly stands at the
// place, and else all are gone over.
fn take_stopped(listens: &mut Vec<Listen>, place: usize, form: &Query, stopped: &[u64])
    requires { length stopped.now ≡ count_by (λ k. does_supply form.now k.form) listens.old.items }
    ensures left { listens.new.items
        ≡ filter (λ k. not (does_supply form.now k.form)) listens.old.items }
    ensures len { vec_len listens.new ≤ vec_len listens.old }
    ensures room { vec_capacity listens.new ≡ vec_capacity listens.old }
{
    if stopped.is_empty() {
        return;
    }
    if is_stopped_at(listens, place, form, stopped) {
        let _stopped = listens.remove(place);
        return;
    }
    listens.retain(|listen| !form.supplies(listen.form()));
}

// The same of those by path: the first from the form on, which what it supplies stands behind, is found by
// halving.
fn take_stopped_by_path(by_path: &mut Vec<Listen>, form: &Query, stopped: &[u64])
    requires sorted { IsSorted (by_form form_of) by_path.old.items }
    requires count { length stopped.now
        ≡ count_by (λ k. does_supply form.now k.form) by_path.old.items }
    ensures left { by_path.new.items
        ≡ filter (λ k. not (does_supply form.now k.form)) by_path.old.items }
    ensures len { vec_len by_path.new ≤ vec_len by_path.old }
    ensures room { vec_capacity by_path.new ≡ vec_capacity by_path.old }
{
    let place = place_of_form(by_path, form);
    take_stopped(by_path, place, form, stopped);
}

// Where the first of the tags stands, by halving.
fn place_of_first(by_tag: &[Listen], tags: &[u64]) -> usize
    requires { AllPairs (λ j k. j.tag < k.tag) by_tag.now }
    ensures { result ≤ length by_tag.now }
{
    match tags.first() {
        Some(tag) => place_of(by_tag, *tag),
        None => 0,
    }
}

// The same of those by tag.
fn take_stopped_by_tag(by_tag: &mut Vec<Listen>, form: &Query, stopped: &[u64])
    requires rise { AllPairs (λ j k. j.tag < k.tag) by_tag.old.items }
    requires count { length stopped.now
        ≡ count_by (λ k. does_supply form.now k.form) by_tag.old.items }
    ensures left { by_tag.new.items
        ≡ filter (λ k. not (does_supply form.now k.form)) by_tag.old.items }
    ensures len { vec_len by_tag.new ≤ vec_len by_tag.old }
    ensures room { vec_capacity by_tag.new ≡ vec_capacity by_tag.old }
{
    let place = place_of_first(by_tag, stopped);
    take_stopped(by_tag, place, form, stopped);
}

// From so many on, new listens are put behind the others and all are sorted: the words that each of them
// would move are more then.
const MANY: usize = 512;

// The order of two listens' forms.
fn form_order(listen: &Listen, other: &Listen) -> Ordering
    ensures { result ≡ by_form form_of listen.now other.now }
{
    query_cmp(listen.form(), other.form())
}

// Sorts them by form.
fn sort_by_form(listens: &mut Vec<Listen>)
    ensures sorted { IsSorted (by_form form_of) listens.new.items }
    ensures same { SameCounts listens.new.items listens.old.items }
{
    listens.sort_unstable_by(|listen, other| form_order(listen, other));
}

// Equal listens, in the order of their forms.
pub(crate) fn in_order(alloc: Global, listens: &[Listen]) -> Result<Vec<Listen>, AllocError>
    ensures sorted { IfOk result (λ ordered. IsSorted (by_form form_of) ordered.items) }
    ensures same { IfOk result (λ ordered. SameCounts ordered.items listens.now) }
{
    let mut ordered = copies(alloc, listens)?;
    sort_by_form(&mut ordered);
    Ok(ordered)
}

// Puts them behind the others, and sorts all by form; there is room for them.
fn sort_all(by_path: &mut Vec<Listen>, mut new: Vec<Listen>)
    requires room { vec_len by_path.old + vec_len new ≤ vec_capacity by_path.old }
    ensures sorted { IsSorted (by_form form_of) by_path.new.items }
    ensures same { SameCounts by_path.new.items (by_path.old.items ++ new.items) }
{
    let _in_reserved_room = by_path.append(&mut new);
    sort_by_form(by_path);
}

// Puts each of them in its place; there is room for them.
fn place_each(by_path: &mut Vec<Listen>, new: Vec<Listen>)
    requires sorted { IsSorted (by_form form_of) by_path.old.items }
    requires room { vec_len by_path.old + vec_len new ≤ vec_capacity by_path.old }
    ensures sorted { IsSorted (by_form form_of) by_path.new.items }
    ensures same { SameCounts by_path.new.items (by_path.old.items ++ new.items) }
{
    for listen in new {
        place(by_path, listen);
    }
}

// Puts them in their places; there is room for them.
fn place_all(by_path: &mut Vec<Listen>, new: Vec<Listen>)
    requires sorted { IsSorted (by_form form_of) by_path.old.items }
    requires room { vec_len by_path.old + vec_len new ≤ vec_capacity by_path.old }
    ensures sorted { IsSorted (by_form form_of) by_path.new.items }
    ensures same { SameCounts by_path.new.items (by_path.old.items ++ new.items) }
{
    if new.len() < MANY {
        place_each(by_path, new);
    } else {
        sort_all(by_path, new);
    }
}

// Whether one alone is lost, and it is the listen at the place.
fn is_lost_at(listens: &[Listen], place: usize, lost: &[Listen]) -> bool
    requires { AllPairs (λ j k. j.tag < k.tag) lost.now }
    ensures one { result ≡ true → length lost.now ≡ 1 }
    ensures within { result ≡ true → place < length listens.now }
    ensures lost { result ≡ true → (d : Tagged)
        → list_any (λ j. j.tag == (slice_index_or listens.now place d).tag) lost.now ≡ true }
{
    if lost.len() != 1 {
        return false;
    }
    if place >= listens.len() {
        return false;
    }
    have_tag(lost, listens[place].tag())
}

// Takes those out that are lost. Where it is one it mostly stands at the place, and else all are gone over.
fn take_lost(listens: &mut Vec<Listen>, place: usize, lost: &[Listen])
    requires rise { AllPairs (λ j k. j.tag < k.tag) lost.now }
    requires once { length lost.now ≡ 1
        → count_by (λ k. list_any (λ j. j.tag == k.tag) lost.now) listens.old.items ≤ 1 }
    ensures left { listens.new.items
        ≡ filter (λ k. not (list_any (λ j. j.tag == k.tag) lost.now)) listens.old.items }
    ensures len { vec_len listens.new ≤ vec_len listens.old }
    ensures room { vec_capacity listens.new ≡ vec_capacity listens.old }
{
    if lost.is_empty() {
        return;
    }
    if is_lost_at(listens, place, lost) {
        let _lost = listens.remove(place);
        return;
    }
    listens.retain(|listen| !have_tag(lost, listen.tag()));
}

// Where the first stands from the form of the first of the lost on, by halving.
fn place_of_lost_form(by_path: &[Listen], lost: &[Listen]) -> usize
    requires { IsSorted (by_form form_of) by_path.now }
    ensures { result ≤ length by_path.now }
{
    match lost.first() {
        Some(listen) => place_of_form(by_path, listen.form()),
        None => 0,
    }
}

// The same of those by path.
fn take_lost_by_path(by_path: &mut Vec<Listen>, lost: &[Listen])
    requires sorted { IsSorted (by_form form_of) by_path.old.items }
    requires rise { AllPairs (λ j k. j.tag < k.tag) lost.now }
    requires once { length lost.now ≡ 1
        → count_by (λ k. list_any (λ j. j.tag == k.tag) lost.now) by_path.old.items ≤ 1 }
    ensures left { by_path.new.items
        ≡ filter (λ k. not (list_any (λ j. j.tag == k.tag) lost.now)) by_path.old.items }
    ensures len { vec_len by_path.new ≤ vec_len by_path.old }
    ensures room { vec_capacity by_path.new ≡ vec_capacity by_path.old }
{
    let place = place_of_lost_form(by_path, lost);
    take_lost(by_path, place, lost);
}

// Where the first of the lost stands, by halving.
fn place_of_lost(by_tag: &[Listen], lost: &[Listen]) -> usize
    requires { AllPairs (λ j k. j.tag < k.tag) by_tag.now }
    ensures { result ≤ length by_tag.now }
{
    match lost.first() {
        Some(listen) => place_of(by_tag, listen.tag()),
        None => 0,
    }
}

// The same of those by tag.
fn take_lost_by_tag(by_tag: &mut Vec<Listen>, lost: &[Listen])
    requires tags { AllPairs (λ j k. j.tag < k.tag) by_tag.old.items }
    requires rise { AllPairs (λ j k. j.tag < k.tag) lost.now }
    requires once { length lost.now ≡ 1
        → count_by (λ k. list_any (λ j. j.tag == k.tag) lost.now) by_tag.old.items ≤ 1 }
    ensures left { by_tag.new.items
        ≡ filter (λ k. not (list_any (λ j. j.tag == k.tag) lost.now)) by_tag.old.items }
    ensures len { vec_len by_tag.new ≤ vec_len by_tag.old }
    ensures room { vec_capacity by_tag.new ≡ vec_capacity by_tag.old }
{
    let place = place_of_lost(by_tag, lost);
    take_lost(by_tag, place, lost);
}

impl Listens {
    // No listen.
    pub(crate) fn new(alloc: Global) -> Listens
        ensures { result ≡ [] }
    {
        Listens {
            by_tag: Vec::new(alloc),
            by_path: Vec::new(alloc),
        }
    }

    // Equal listens, which share the forms.
    pub(crate) fn copy(&self) -> Result<Listens, AllocError>
        ensures { IfOk result (λ listens. listens ≡ self.now) }
    {
        let alloc = *self.by_tag.allocator();
        let by_tag = copies(alloc, &self.by_tag)?;
        let by_path = copies(alloc, &self.by_path)?;
        Ok(Listens { by_tag, by_path })
    }

    // The listens, by tag.
    pub(crate) fn as_slice(&self) -> &[Listen]
        ensures { result.now ≡ self.now }
    {
        self.by_tag.as_slice()
    }

    // The tag of one that supplies the query: of a plain one, or of all that do the least. Looks at those
    // of the paths at and above it.
    pub(crate) fn supplier(&self, query: &Query) -> Option<u64>
        requires { ArePlainsAlone form_of self.now }
        ensures some { IfSome result (λ tag.
            list_any (λ k. does_supply k.form query.now && k.tag == tag) self.now ≡ true) }
        ensures none { IfNone result (list_any (λ k. does_supply k.form query.now) self.now ≡ false) }
        ensures least { IfSome result (IsPlainOrLeast self.now query.now) }
    {
        supplier(&self.by_path, query)
    }

    // Whether one supplies the query. Of the paths at and above it looks for a plain one, and of the ranges
    // of its path, of which none takes in another, for one by halving.
    pub(crate) fn supply(&self, query: &Query) -> bool
        requires apart { AreApart form_of self.now }
        requires alone { ArePlainsAlone form_of self.now }
        ensures { result ≡ list_any (λ k. does_supply k.form query.now) self.now }
    {
        have_supplier(&self.by_path, query)
    }

    // The tag of one of that form, by halving.
    pub(crate) fn tag_of(&self, form: &Query) -> Option<u64>
        ensures some { IfSome result (λ tag.
            list_any (λ k. query_eq k.form form.now && k.tag == tag) self.now ≡ true) }
        ensures none { IfNone result (list_any (λ k. query_eq k.form form.now) self.now ≡ false) }
    {
        equal_at(&self.by_path, form)
    }

    // Keeps a listen in place of those that it supplies; their tags.
    pub(crate) fn start(&mut self, listen: Listen) -> Result<Vec<u64>, AllocError>
        requires { AllPairs (λ j k. j.tag < k.tag) self.old }
        ensures kept { OnOk result (self.new
            ≡ filter (λ k. not (does_supply listen.form k.form)) self.old ++ listen ∷ []) }
        ensures stopped { IfOk result (λ tags. tags.items ≡ map (λ k. k.tag)
            (filter (λ k. does_supply listen.form k.form) self.old)) }
        ensures unchanged { OnErr result (self.new ≡ self.old) }
    {
        let alloc = *self.by_tag.allocator();
        let stopped = tags_supplied(alloc, &self.by_path, listen.form())?;
        let copy = listen.copy()?;
        self.by_tag.reserve(1)?;
        self.by_path.reserve(1)?;
        take_stopped_by_path(&mut self.by_path, listen.form(), &stopped);
        place(&mut self.by_path, copy);
        take_stopped_by_tag(&mut self.by_tag, listen.form(), &stopped);
        self.by_tag.push_reserved(listen);
        Ok(stopped)
    }

    // Keeps new listens in place of those that are lost.
    pub(crate) fn replace(
        &mut self,
        lost: &[Listen],
        mut new: Vec<Listen>,
    ) -> Result<(), AllocError>
        requires lost { AllPairs (λ j k. j.tag < k.tag) lost.now }
        requires tags { AllPairs (λ j k. j.tag < k.tag) self.old }
        ensures kept { OnOk result (self.new
            ≡ filter (λ k. not (list_any (λ j. j.tag == k.tag) lost.now)) self.old ++ new.items) }
        ensures unchanged { OnErr result (self.new ≡ self.old) }
    {
        let alloc = *self.by_tag.allocator();
        let copies = copies(alloc, &new)?;
        self.by_tag.reserve(new.len())?;
        self.by_path.reserve(new.len())?;
        take_lost_by_path(&mut self.by_path, lost);
        place_all(&mut self.by_path, copies);
        take_lost_by_tag(&mut self.by_tag, lost);
        let _in_reserved_room = self.by_tag.append(&mut new);
        Ok(())
    }
}
