// Kept listens.
ghost use Rattle.std.specs.Prelude.{◌≡◌, ◌<◌, ◌≤◌, ◌==◌, map, length, IfOk};
ghost use Rattle.std.specs.List.{find, list_any, AllPairs};
ghost use Rattle.std.specs.Option.{option_copied};
ghost use Rattle.rt_cover.specs.Cover.{is_kept};
ghost use Rattle.rt_cover.specs.inside.Picked.{picked};
ghost use Rattle.rt_cover.specs.inside.Places.{tag_place, does_stand_kept};

use crate::by_path::HasForm;
use rt_query::Query;
use std::alloc::{AllocError, Global};
use std::marker::Model;
use std::sync::Arc;

// A kept form, which copies of the listen share, and its tag.
pub(crate) struct Listen {
    tag: u64,
    form: Arc<Query>,
}

impl Drop for Listen {
    fn drop(self) {
        let Listen { tag: _, form: _ } = self;
    }
}

impl Model for Listen {
    ghost use Rattle.rt_cover.specs.Cover.{Tagged};

    ghost Value = { Tagged };

    ghost view = { λ a. record { tag = a.tag; form = a.form.value } };
}

impl HasForm for Listen {
    ghost form_of = { λ k. k.form };

    fn form(&self) -> &Query {
        &self.form
    }
}

impl Listen {
    // A listen of the form.
    pub(crate) fn of(tag: u64, form: Arc<Query>) -> Listen
        ensures { result ≡ record { tag = tag; form = form.value } }
    {
        Listen { tag, form }
    }

    // Its tag.
    pub(crate) fn tag(&self) -> u64
        ensures { result ≡ self.now.tag }
    {
        self.tag
    }

    // An equal listen, which shares the form.
    pub(crate) fn copy(&self) -> Result<Listen, AllocError>
        ensures { IfOk result (λ listen. listen ≡ self.now) }
    {
        let form = Arc::try_clone(&self.form)?;
        Ok(Listen {
            tag: self.tag,
            form,
        })
    }
}

// Whether a listen of the form is kept.
pub(crate) fn is_kept(kept: &[Listen], form: &Query) -> bool
    ensures { result ≡ is_kept kept.now form.now }
{
    kept.iter().any(|listen| listen.form() == form)
}

// Equal listens.
pub(crate) fn copies(alloc: Global, kept: &[Listen]) -> Result<Vec<Listen>, AllocError>
    ensures { IfOk result (λ v. v.items ≡ kept.now) }
{
    let mut copies = Vec::with_capacity(alloc, kept.len())?;
    for listen in kept {
        copies.push(listen.copy()?)?;
    }
    Ok(copies)
}

// The forms of listens.
pub(crate) fn forms_of(alloc: Global, kept: &[Listen]) -> Result<Vec<Query>, AllocError>
    ensures { IfOk result (λ v. v.items ≡ map (λ k. k.form) kept.now) }
{
    let mut forms = Vec::with_capacity(alloc, kept.len())?;
    for listen in kept {
        forms.push(listen.form().copy()?)?;
    }
    Ok(forms)
}

// The tags of listens.
pub(crate) fn tags_of(alloc: Global, kept: &[Listen]) -> Result<Vec<u64>, AllocError>
    ensures { IfOk result (λ v. v.items ≡ map (λ k. k.tag) kept.now) }
{
    let mut tags = Vec::with_capacity(alloc, kept.len())?;
    for listen in kept {
        tags.push(listen.tag())?;
    }
    Ok(tags)
}

// The first place at which no lesser tag stands, by halving.
pub(crate) fn place_of(kept: &[Listen], tag: u64) -> usize
    requires { AllPairs (λ j k. j.tag < k.tag) kept.now }
    ensures first { result ≡ tag_place tag kept.now }
    ensures within { result ≤ length kept.now }
{
    kept.partition_point(|other| other.tag() < tag)
}

// Whether the listen with that tag stands at the place.
fn stands_at(kept: &[Listen], place: usize, tag: u64) -> bool
    ensures { result ≡ does_stand_kept kept.now place tag }
{
    match kept.get(place) {
        Some(listen) => listen.tag() == tag,
        None => false,
    }
}

// Whether one of them has the tag, by halving.
pub(crate) fn have_tag(kept: &[Listen], tag: u64) -> bool
    requires { AllPairs (λ j k. j.tag < k.tag) kept.now }
    ensures { result ≡ list_any (λ k. k.tag == tag) kept.now }
{
    stands_at(kept, place_of(kept, tag), tag)
}

// The listen with that tag, by halving.
pub(crate) fn listen_at<'a>(kept: &'a [Listen], tag: u64) -> Option<&'a Listen>
    requires { AllPairs (λ j k. j.tag < k.tag) kept.now }
    ensures { option_copied result ≡ find (λ k. k.tag == tag) kept.now }
{
    let place = place_of(kept, tag);
    if !stands_at(kept, place, tag) {
        return None;
    }
    Some(&kept[place])
}

// The listens with these tags, by halving.
pub(crate) fn listens_at(
    alloc: Global,
    kept: &[Listen],
    tags: &[u64],
) -> Result<Vec<Listen>, AllocError>
    requires { AllPairs (λ j k. j.tag < k.tag) kept.now }
    ensures { IfOk result (λ v. v.items ≡ picked (λ k. k.tag) kept.now tags.now) }
{
    let mut listens = Vec::with_capacity(alloc, tags.len())?;
    for tag in tags {
        if let Some(listen) = listen_at(kept, *tag) {
            listens.push(listen.copy()?)?;
        }
    }
    Ok(listens)
}

// ---- the listens kept, as they are shown

/// A kept listen: its tag, the query that is listened to, and the number of a listener that needs
/// it.
#[derive(Drop)]
pub struct Kept {
    pub tag: u64,
    pub query: Query,
    pub listener: u64,
}

/// Kept listens, in the order in which they are told.
pub struct KeptList {
    items: Vec<Kept>,
}

impl Drop for KeptList {
    fn drop(self) {
        let KeptList { items: _ } = self;
    }
}

impl Model for KeptList {
    ghost use Rattle.std.specs.Prelude.{List};
    ghost use Rattle.rt_cover.specs.declared.listen.Kept.{Kept};

    ghost Value = { List Kept };

    ghost view = { λ a. a.items.items };
}

impl KeptList {
    pub(crate) fn of(items: Vec<Kept>) -> KeptList
        ensures { result ≡ items.items }
    {
        KeptList { items }
    }

    /// The listens, in order.
    pub fn as_slice(&self) -> &[Kept]
        ensures { result.now ≡ self.now }
    {
        self.items.as_slice()
    }

    /// The listens, given away.
    pub fn into_vec(self) -> Vec<Kept>
        ensures { result.items ≡ self }
    {
        let KeptList { items } = self;
        items
    }
}
