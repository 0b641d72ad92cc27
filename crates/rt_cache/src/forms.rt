// The forms of registered listeners.
ghost use Rattle.std.specs.Prelude.{◌≡◌, ℕ, ◌+◌, ◌<◌, ◌≤◌, ◌&&◌, ◌++◌, ◌∷◌, [], Bool, true, not, length};
ghost use Rattle.std.specs.Prelude.{vec_len, vec_capacity, IfOk, IfSome, OnOk, OnErr, is_some};
ghost use Rattle.std.specs.Prelude.{slice_index_or};
ghost use Rattle.std.specs.List.{filter, find, list_any, remove, All, AllPairs};
ghost use Rattle.rt_tree.specs.PathTree.{Path, path_eq};
ghost use Rattle.rt_query.specs.Queries.{Query, is_filtered};
ghost use Rattle.rt_query.specs.QueryEq.{query_eq};
ghost use Rattle.rt_query.specs.Supply.{does_supply};
ghost use Rattle.rt_cache.specs.Recover.{is_among, without_places};
ghost use Rattle.rt_cache.specs.declared.forms.Form.{Form};
ghost use Rattle.rt_cache.specs.inside.ByPath.{AreByPath};
ghost use Rattle.rt_cache.specs.inside.Held.{AreShort};
ghost use Rattle.rt_cache.specs.inside.Listed.{form_query, queries_of, stands_at, is_same_form};
ghost use Rattle.rt_cache.specs.inside.Listed.{is_form_before, AreFilteredOf};

use crate::by_path::{HasQuery, first_behind, is_before};
use rt_query::Query;
use std::alloc::{AllocError, Global};
use std::marker::Model;

// A form, and the stamp by which it is told from its equals: what is registered later has a higher one.
pub(crate) struct Form {
    pub(crate) query: Query,
    pub(crate) stamp: u64,
}

impl Drop for Form {
    fn drop(self) {
        let Form { query: _, stamp: _ } = self;
    }
}

// A form in memory of its own, so that a list of forms moves a pointer of each.
pub(crate) struct BoxedForm {
    form: Box<Form>,
}

impl Drop for BoxedForm {
    fn drop(self) {
        let BoxedForm { form: _ } = self;
    }
}

impl Model for BoxedForm {
    ghost use Rattle.rt_cache.specs.declared.forms.Form.{Form};

    ghost Value = { Form };

    ghost view = { λ a. a.form.value };
}

impl HasQuery for BoxedForm {
    ghost query_of = { λ f. f.query };

    fn query(&self) -> &Query {
        &self.form.query
    }
}

impl BoxedForm {
    // The query with its stamp, in memory of their own.
    fn new(alloc: Global, query: Query, stamp: u64) -> Result<BoxedForm, AllocError>
        ensures { IfOk result (λ boxed. boxed ≡ record { query = query; stamp = stamp }) }
    {
        Ok(BoxedForm {
            form: Box::new(alloc, Form { query, stamp })?,
        })
    }

    // The stamp.
    fn stamp(&self) -> u64
        ensures { result ≡ self.now.stamp }
    {
        self.form.stamp
    }
}

// A stamp above those of all of these, whose stamps rise: the last has the highest.
fn stamp_above(forms: &[BoxedForm]) -> Result<u64, AllocError>
    requires rising { AllPairs (λ f g. f.stamp < g.stamp) forms.now }
    ensures { IfOk result (λ stamp. All (λ f. f.stamp < stamp) forms.now) }
{
    let Some(last) = forms.last() else {
        return Ok(0);
    };
    let Some(stamp) = last.stamp().checked_add(1) else {
        return Err(AllocError);
    };
    Ok(stamp)
}

// The filtered form in its place, behind the others of its path. There is room for it.
fn insert_form(filtered: &mut Vec<BoxedForm>, form: BoxedForm)
    requires order { AreByPath form_query filtered.old.items }
    requires room { vec_len filtered.old < vec_capacity filtered.old }
    ensures order { AreByPath form_query filtered.new.items }
    ensures behind { (p : Path) → filter (stands_at p) filtered.new.items
        ≡ filter (stands_at p) (filtered.old.items ++ form ∷ []) }
{
    let place = first_behind(filtered, form.query().path());
    let _in_reserved_room = filtered.insert(place, form);
}

// One more form, behind the others; if it is filtered, in its place among those that are, too.
fn add_form(
    alloc: Global,
    forms: &mut Vec<BoxedForm>,
    filtered: &mut Vec<BoxedForm>,
    query: Query,
) -> Result<(), AllocError>
    requires { AreFilteredOf forms.old.items filtered.old.items }
    ensures listed { AreFilteredOf forms.new.items filtered.new.items }
    ensures ok { OnOk result (queries_of forms.new.items ≡ queries_of forms.old.items ++ query ∷ []) }
    ensures err { OnErr result (queries_of forms.new.items ≡ queries_of forms.old.items) }
{
    let stamp = stamp_above(forms)?;
    if !query.is_filtered() {
        forms.push(BoxedForm::new(alloc, query, stamp)?)?;
        return Ok(());
    }
    let own = BoxedForm::new(alloc, query.copy()?, stamp)?;
    filtered.reserve(1)?;
    forms.push(BoxedForm::new(alloc, query, stamp)?)?;
    insert_form(filtered, own);
    Ok(())
}

// Whether it stands before the form: by its path, and at one path by its stamp.
fn is_before_form(other: &BoxedForm, form: &BoxedForm) -> bool
    ensures { result ≡ is_form_before form.now other.now }
{
    let path = form.query().path();
    is_before(other, path) || (other.query().path() == path && other.stamp() < form.stamp())
}

// Whether it is of the form's path and stamp.
fn is_same_form(other: &BoxedForm, form: &BoxedForm) -> bool
    ensures { result ≡ is_same_form form.now other.now }
{
    other.query().path() == form.query().path() && other.stamp() == form.stamp()
}

// Where the form of this path and stamp stands, by halving.
fn place_of_form(filtered: &[BoxedForm], form: &BoxedForm) -> Option<usize>
    requires order { AreByPath form_query filtered.now }
    requires rising { (p : Path) → AllPairs (λ f g. f.stamp < g.stamp) (filter (stands_at p) filtered.now) }
    ensures known { is_some result ≡ list_any (is_same_form form.now) filtered.now }
    ensures within { IfSome result (λ n. n < length filtered.now) }
    ensures own { IfSome result (λ n. (d : Form)
        → is_same_form form.now (slice_index_or filtered.now n d) ≡ true) }
{
    let place = filtered.partition_point(|other| is_before_form(other, form));
    if place == filtered.len() {
        return None;
    }
    if is_same_form(&filtered[place], form) {
        Some(place)
    } else {
        None
    }
}

// The forms but for that at this place.
fn remove_form(forms: &mut Vec<BoxedForm>, filtered: &mut Vec<BoxedForm>, place: usize)
    requires within { place < length forms.old.items }
    requires listed { AreFilteredOf forms.old.items filtered.old.items }
    ensures left { forms.new.items ≡ remove forms.old.items place }
    ensures listed { AreFilteredOf forms.new.items filtered.new.items }
{
    let form = forms.remove(place);
    if !form.query().is_filtered() {
        return;
    }
    if let Some(own) = place_of_form(filtered, &form) {
        drop(filtered.remove(own));
    }
}

// The forms but for those at these places, which rise: the last is taken out first.
fn remove_places(forms: &mut Vec<BoxedForm>, filtered: &mut Vec<BoxedForm>, places: &[usize])
    requires rising { AllPairs (λ p q. p < q) places.now }
    requires within { All (λ p. p < length forms.old.items) places.now }
    requires listed { AreFilteredOf forms.old.items filtered.old.items }
    ensures left { queries_of forms.new.items ≡ without_places places.now (queries_of forms.old.items) }
    ensures listed { AreFilteredOf forms.new.items filtered.new.items }
{
    let mut count = places.len();
    while count > 0 {
        count -= 1;
        remove_form(forms, filtered, places[count]);
    }
}

// Forms in order, and beside them the filtered ones in the order of their paths, those of one path in the
// order of all.
pub(crate) struct Forms {
    items: Vec<BoxedForm>,
    filtered: Vec<BoxedForm>,
}

impl Drop for Forms {
    fn drop(self) {
        let Forms {
            items: _,
            filtered: _,
        } = self;
    }
}

impl Model for Forms {
    ghost use Rattle.std.specs.Prelude.{List};
    ghost use Rattle.rt_query.specs.Queries.{Query};
    ghost use Rattle.rt_cache.specs.inside.Listed.{queries_of, AreFilteredOf};

    ghost Value = { List Query };

    ghost view = { λ a. queries_of a.items.items };

    ghost invariant = { λ a. AreFilteredOf a.items.items a.filtered.items };
}

impl Forms {
    // None.
    pub(crate) fn new(alloc: Global) -> Forms
        ensures { result ≡ [] }
    {
        Forms {
            items: Vec::new(alloc),
            filtered: Vec::new(alloc),
        }
    }

    // Equal queries, in order.
    pub(crate) fn copies(alloc: Global, queries: &[Query]) -> Result<Forms, AllocError>
        ensures same { IfOk result (λ forms. forms ≡ queries.now) }
        ensures short { OnOk result (AreShort queries.now) }
    {
        let mut forms = Forms::new(alloc);
        for query in queries {
            // For the prover: so long are paths at most.
            let _ = query.path().keys();
            forms.push(alloc, query.copy()?)?;
        }
        Ok(forms)
    }

    // In order.
    pub(crate) fn as_slice(&self) -> &[BoxedForm]
        ensures { queries_of result.now ≡ self.now }
    {
        self.items.as_slice()
    }

    // The filtered ones, in the order of their paths, those of one path in the order of all.
    pub(crate) fn filtered(&self) -> &[BoxedForm]
        ensures order { AreByPath form_query result.now }
        ensures same { (p : Query → Bool)
            → list_any p (queries_of result.now) ≡ list_any (λ f. is_filtered f && p f) self.now }
        ensures first { (p : Query → Bool) (path : Path)
            → ((f : Query) → p f ≡ true → (is_filtered f && path_eq f.path path) ≡ true)
            → find p (queries_of result.now) ≡ find p self.now }
    {
        self.filtered.as_slice()
    }

    // One more, behind the others.
    pub(crate) fn push(&mut self, alloc: Global, form: Query) -> Result<(), AllocError>
        ensures ok { OnOk result (self.new ≡ self.old ++ form ∷ []) }
        ensures err { OnErr result (self.new ≡ self.old) }
    {
        add_form(alloc, &mut self.items, &mut self.filtered, form)
    }

    // All but those at these places, which rise.
    pub(crate) fn remove_places(&mut self, places: &[usize])
        requires rising { AllPairs (λ p q. p < q) places.now }
        requires within { All (λ p. p < length self.old) places.now }
        ensures { self.new ≡ without_places places.now self.old }
    {
        remove_places(&mut self.items, &mut self.filtered, places);
    }

    // Whether the query is one of them.
    pub(crate) fn contains(&self, query: &Query) -> bool
        ensures { result ≡ is_among self.now query.now }
    {
        self.as_slice().iter().any(|other| other.query() == query)
    }

    // Whether another of them supplies the query.
    pub(crate) fn supplies(&self, query: &Query) -> bool
        ensures { result ≡ list_any (λ f. not (query_eq f query.now) && does_supply f query.now)
            self.now }
    {
        self.as_slice().iter().any(|other| other.query() != query && other.query().supplies(query))
    }
}
