// The cover.
ghost use Rattle.std.specs.Prelude.{◌≡◌, ◌∷◌, [], ◌<◌, ◌+◌, ◌⊎◌, ◌==◌, false, true, not, map, length};
ghost use Rattle.std.specs.Prelude.{IfOk, IfErr, OnOk, OnErr, IfSome, IfNone, is_some, ℕ, Bool, List};
ghost use Rattle.std.specs.Prelude.{if◌then◌else◌};
ghost use Rattle.std.specs.List.{find, list_any, All, enumerate_from};
ghost use Rattle.std.specs.Option.{option_copied, option_map, option_map_or};

use crate::by_path::HasForm;
use crate::change::{self, Choice, Delta, EndedListeners, OfChoice, OfNumbers, Plan, Revoked};
use crate::error::CoverError;
use crate::listen::{self, KeptList, Listen, listens_at};
use crate::listeners::{
    Listener, Listeners, Numbers, Sorted, add_some, enter, forms, into_form, shown, sort_once,
    started_one,
};
use crate::listens::Listens;
use crate::successors::numbers_begun;
use crate::supply::{is_first, is_left};
use rt_query::Query;
use std::alloc::{AllocError, Global};
use std::marker::Model;

/// The registered listeners, and the listens kept for them: the fewest registered queries that
/// together supply every listener. Each kept listen has a tag, which no other listen ever gets.
pub struct Cover {
    listeners: Listeners,
    kept: Listens,
    given: u64,
    last_tag: u64,
}

impl Drop for Cover {
    fn drop(self) {
        let Cover {
            listeners: _,
            kept: _,
            given: _,
            last_tag: _,
        } = self;
    }
}

impl Model for Cover {
    ghost use Rattle.std.specs.Prelude.{◌+◌};
    ghost use Rattle.rt_cover.specs.State.{Cover};
    ghost use Rattle.rt_cover.specs.inside.Sound.{IsSound};

    ghost Value = { Cover };

    ghost view = { λ a. record {
      listeners = a.listeners;
      kept = a.kept;
      next_tag = a.given + 1;
      last_tag = a.last_tag;
    } };

    ghost invariant = { λ a. IsSound (record {
      listeners = a.listeners;
      kept = a.kept;
      next_tag = a.given + 1;
      last_tag = a.last_tag;
    }) };
}

impl Cover {
    ghost use Rattle.rt_query.specs.Supply.{form, does_supply};
    ghost use Rattle.rt_query.specs.Supply as Supply;
    ghost use Rattle.rt_query.specs.QueryEq.{query_eq};
    ghost use Rattle.rt_cover.specs.Cover.{forms};
    ghost use Rattle.rt_cover.specs.Apart.{do_plains_overlap};
    ghost use Rattle.rt_cover.specs.State.{empty_cover, is_registered};
    ghost use Rattle.rt_cover.specs.State.{with_listener, without_listeners, without_chosen};
    ghost use Rattle.rt_cover.specs.State.{shown_with, shown, listen_at, supplier};
    ghost use Rattle.rt_cover.specs.State.{with_listeners, lacks_tag, difference};
    ghost use Rattle.rt_cover.specs.State.{added, removed, revoked};
    ghost use Rattle.rt_cover.specs.State.{left_after, ended_by, without_tag};
    ghost use Rattle.rt_cover.specs.State.{fault_of, add_fault, remove_fault, revoke_fault};
    ghost use Rattle.rt_cover.specs.State.{has_unknown, AreChosen, FailsBy};
    ghost use Rattle.rt_cover.specs.Shown.{AreFewest, IsCertified, IsLeastSupplier, IsTold};
    ghost use Rattle.rt_cover.specs.inside.Endings.{by_number, left, lost, is_lost_by, beginners};
    ghost use Rattle.rt_cover.specs.inside.Endings.{tagged_of, told_of};
    ghost use Rattle.rt_cover.specs.inside.Sound.{IsSound};

    /// The cover of no listener. Tags count from 1, and none is above the last one.
    pub fn new(alloc: Global, last_tag: u64) -> Cover
        ensures { result ≡ empty_cover last_tag }
    {
        Cover {
            listeners: Listeners::new(alloc),
            kept: Listens::new(alloc),
            given: 0,
            last_tag,
        }
    }

    /// An equal cover: a change that is to be made only together with others can be made of the
    /// copy, which takes the cover's place once they are made too.
    ///
    /// Copies each listener's form and each listen's, as a change does.
    ///
    /// # Errors
    ///
    /// `NoMemory` alone.
    pub fn copy(&self) -> Result<Cover, CoverError>
        ensures same { IfOk result (λ copy. copy ≡ self.now) }
        ensures fault { IfErr result (λ e. e ≡ CoverError.NoMemory) }
    {
        let listeners = self.listeners.copy()?;
        let kept = self.kept.copy()?;
        Ok(Cover {
            listeners,
            kept,
            given: self.given,
            last_tag: self.last_tag,
        })
    }

    // The allocator of its lists.
    fn alloc(&self) -> Global {
        self.listeners.alloc()
    }

    /// Whether a listener of that number is registered, found by halving.
    pub fn is_registered(&self, listener: u64) -> bool
        ensures { result ≡ is_registered self.now.listeners listener }
    {
        self.listeners.has(listener)
    }

    /// The form of the registered listener with that number, found by halving.
    pub fn form_of(&self, listener: u64) -> Option<&Query>
        ensures { option_copied result
            ≡ option_map (λ l. l.1) (find (λ l. l.0 == listener) self.now.listeners) }
    {
        match self.listeners.at(listener) {
            Some(registered) => Some(registered.form()),
            None => None,
        }
    }

    /// Whether the query's listening form is registered: whether a listener has it.
    ///
    /// Takes no memory. Costs by the path, the logarithm of the number of siblings at each of its
    /// keys, and the filtered forms at it.
    pub fn has_form(&self, query: &Query) -> bool
        ensures { result ≡ list_any (λ f. query_eq f (form query.now)) (forms self.now.listeners) }
    {
        self.listeners.has_form(query)
    }

    // The kept listens, each with the least-numbered listener of its form.
    fn shown(&self) -> Result<KeptList, AllocError>
        ensures listens { IfOk result (λ list. list ≡ shown self.now) }
        ensures sound { IsSound self.now }
    {
        let items = shown(self.alloc(), &self.listeners, self.kept.as_slice())?;
        Ok(KeptList::of(items))
    }

    /// The kept listens by tag. They supply every listener, and each of them is in every list of
    /// registered forms that does.
    ///
    /// # Errors
    ///
    /// `NoMemory` alone.
    pub fn open(&self) -> Result<KeptList, CoverError>
        ensures listens { IfOk result (λ list. list ≡ shown self.now) }
        ensures fewest { IfOk result (λ list. AreFewest self.now.listeners list) }
        ensures fault { IfErr result (λ e. e ≡ CoverError.NoMemory) }
    {
        Ok(self.shown()?)
    }

    /// The kept listens by tag, each with the least-numbered listener of its form, whom no other
    /// registered query supplies.
    ///
    /// # Errors
    ///
    /// `NoMemory` alone.
    pub fn certificate(&self) -> Result<KeptList, CoverError>
        ensures listens { IfOk result (λ list. list ≡ shown self.now) }
        ensures certified { IfOk result (λ list. All (IsCertified self.now.listeners) list) }
        ensures fault { IfErr result (λ e. e ≡ CoverError.NoMemory) }
    {
        Ok(self.shown()?)
    }

    /// The registered forms, each once, in order of their least-numbered listeners.
    ///
    /// Copies each form, and looks at its path for the first listener of each.
    ///
    /// # Errors
    ///
    /// `NoMemory` alone.
    pub fn forms(&self) -> Result<Vec<Query>, CoverError>
        ensures forms { IfOk result (λ v. v.items ≡ forms self.now.listeners) }
        ensures fault { IfErr result (λ e. e ≡ CoverError.NoMemory) }
    {
        Ok(forms(&self.listeners)?)
    }

    /// The forms of the kept listens, by tag. Of those that are plain queries none is at or above
    /// another.
    ///
    /// Copies each form.
    ///
    /// # Errors
    ///
    /// `NoMemory` alone.
    pub fn kept_forms(&self) -> Result<Vec<Query>, CoverError>
        ensures forms { IfOk result (λ v. v.items ≡ map (λ k. k.form) self.now.kept) }
        ensures apart { IfOk result (λ v. do_plains_overlap v.items ≡ false) }
        ensures fault { IfErr result (λ e. e ≡ CoverError.NoMemory) }
    {
        Ok(listen::forms_of(self.alloc(), self.kept.as_slice())?)
    }

    /// The form of the kept listen with that tag.
    pub fn form_at(&self, tag: u64) -> Option<&Query>
        ensures { option_copied result ≡ option_map (λ k. k.form) (listen_at self.now tag) }
    {
        match listen::listen_at(self.kept.as_slice(), tag) {
            Some(listen) => Some(listen.form()),
            None => None,
        }
    }

    /// The least tag of a kept listen that supplies the query.
    ///
    /// Looks at the listens of the query's path and of the paths above it, found by halving. More than
    /// one supplies it only where they are ranges.
    pub fn supplier(&self, query: &Query) -> Option<u64>
        ensures exact { result ≡ supplier self.now query.now }
        ensures least { IfSome result (λ tag. IsLeastSupplier self.now.kept query.now tag) }
        ensures none { IfNone result
            (All (λ k. does_supply k.form query.now ≡ false) self.now.kept) }
    {
        self.kept.supplier(query)
    }

    /// Whether a new listener of the query, of whatever number, would need a tag above the last one,
    /// so that [`Cover::add`] would answer `NoTag`.
    ///
    /// Takes no memory. Asks for a supplier only once the last tag is given.
    pub fn lacks_tag_to_add(&self, query: &Query) -> bool
        ensures { (listener : ℕ) → is_registered self.now.listeners listener ≡ false
            → result
            ≡ lacks_tag self.now (with_listener self.now.listeners listener (form query.now)) }
    {
        self.given == self.last_tag && self.supplier(query).is_none()
    }

    // Whether a change that ends these listeners would need a tag above the last one. No more listens
    // start than there are listeners.
    fn lacks_tag_to_end<E: EndedListeners>(&self, ending: &E) -> bool
        ensures { result ≡ lacks_tag self.now (left (by_number (E.ended ending.now)) self.now.listeners) }
    {
        let room = self.last_tag - self.given;
        let listeners = self.listeners.as_slice();
        if listeners.len() as u64 <= room {
            return false;
        }
        change::exceeds(listeners, self.kept.as_slice(), ending, room)
    }

    /// Whether the end of these listeners would need a tag above the last one, so that
    /// [`Cover::remove`] would answer `NoTag`. A number that is not registered changes nothing.
    ///
    /// Takes no memory. Compares the listeners with one another only where fewer tags are left than
    /// there are listeners.
    pub fn lacks_tag_to_remove(&self, listeners: &[u64]) -> bool
        ensures { result
            ≡ lacks_tag self.now (without_listeners self.now.listeners listeners.now) }
    {
        self.lacks_tag_to_end(&OfNumbers { numbers: listeners })
    }

    /// The same of the listeners of a choice, so that [`Cover::remove`] of just their numbers would
    /// answer `NoTag`: for whoever ends many listeners and has no list of their numbers yet.
    ///
    /// Costs what [`Cover::lacks_tag_to_remove`] does; the choice is asked of a listener once for each
    /// one that it is compared with.
    pub fn lacks_tag_to_remove_chosen<C: Choice>(&self, choice: &C) -> bool
        ensures exact { result
            ≡ lacks_tag self.now (without_chosen (C.chosen choice.now) self.now.listeners) }
        ensures removal { (numbers : List ℕ)
            → AreChosen self.now (C.chosen choice.now) numbers
            → remove_fault self.now numbers
            ≡ (if result then Some CoverError.NoTag else None) }
    {
        self.lacks_tag_to_end(&OfChoice { choice })
    }

    /// Whether a revocation of the tag would need a tag above the last one, so that
    /// [`Cover::revoke`] would answer `NoTag`. False where no listen with the tag is kept.
    ///
    /// Costs what [`Cover::lacks_tag_to_remove`] does.
    pub fn lacks_tag_to_revoke(&self, tag: u64) -> bool
        ensures { result ≡ option_map_or (λ _. lacks_tag self.now (left_after self.now tag))
            (listen_at self.now tag) false }
    {
        match listen::listen_at(self.kept.as_slice(), tag) {
            Some(listen) => self.lacks_tag_to_end(&OfNumbers {
                numbers: self.listeners.numbers(listen.form()),
            }),
            None => false,
        }
    }

    // The tag of the listen that the end of these listeners loses for that number's: its form's, where it
    // is the first of the form and none is left.
    fn lost_tag<E: EndedListeners>(&self, number: u64, ending: &E) -> Option<u64>
        ensures { (p : ℕ → Bool) → option_map_or p result false
            ≡ list_any (is_lost_by (by_number (E.ended ending.now)) self.now.listeners p number)
            self.now.kept }
    {
        let Some(listener) = self.listeners.at(number) else {
            return None;
        };
        let form = listener.form();
        if !is_first(&self.listeners, listener) {
            return None;
        }
        if is_left(&self.listeners, ending, form) {
            return None;
        }
        self.kept.tag_of(form)
    }

    // The tags of the listens that the end of these listeners loses for these numbers.
    fn tags_lost<E: EndedListeners>(
        &self,
        numbers: &[u64],
        ending: &E,
    ) -> Result<Vec<u64>, AllocError>
        ensures { IfOk result (λ tags. (p : ℕ → Bool) → list_any p tags.items
            ≡ list_any (λ n. list_any (is_lost_by (by_number (E.ended ending.now)) self.now.listeners p n)
            self.now.kept) numbers.now) }
    {
        let mut tags = Vec::new(self.alloc());
        for number in numbers {
            add_some(&mut tags, self.lost_tag(*number, ending))?;
        }
        Ok(tags)
    }

    // The tags of the listens that the end of the listeners of these numbers loses.
    fn lost_tags(&self, numbers: &Sorted) -> Result<Vec<u64>, AllocError>
        ensures { IfOk result (λ tags. tags.items ≡ map (λ k. k.tag)
            (lost (λ l. list_any (λ n. n == l.0) numbers.now) self.now.kept
            self.now.listeners)) }
    {
        // For the prover: the cover is sound.
        let _last_tag = self.last_tag;
        let mut tags = self.tags_lost(numbers.as_slice(), numbers)?;
        sort_once(&mut tags);
        Ok(tags)
    }

    // The numbers of those for whom a listen starts once these are lost.
    fn begun<E: EndedListeners>(&self, ending: &E, gone: &[Listen]) -> Result<Vec<u64>, AllocError>
        requires { gone.now ≡ lost (by_number (E.ended ending.now)) self.now.kept self.now.listeners }
        ensures { IfOk result (λ numbers. numbers.items ≡ map (λ l. l.0)
            (beginners (by_number (E.ended ending.now)) self.now.kept self.now.listeners)) }
    {
        let mut numbers = numbers_begun(self.alloc(), &self.listeners, ending, gone)?;
        sort_once(&mut numbers);
        Ok(numbers)
    }

    // What the end of these listeners starts and stops, where the listens of these tags are lost.
    fn plan<E: EndedListeners>(&self, ending: &E, tags: &[u64]) -> Result<Plan, AllocError>
        requires tags { tags.now ≡ map (λ k. k.tag)
            (lost (by_number (E.ended ending.now)) self.now.kept self.now.listeners) }
        requires room { lacks_tag self.now
            (left (by_number (E.ended ending.now)) self.now.listeners) ≡ false }
        ensures lost { IfOk result (λ plan. plan.lost.items
            ≡ lost (by_number (E.ended ending.now)) self.now.kept self.now.listeners) }
        ensures stopped { IfOk result (λ plan. plan.stopped.items ≡ map (λ k. k.tag)
            (lost (by_number (E.ended ending.now)) self.now.kept self.now.listeners)) }
        ensures kept { IfOk result (λ plan. plan.kept.items
            ≡ map tagged_of (enumerate_from self.now.next_tag
            (beginners (by_number (E.ended ending.now)) self.now.kept self.now.listeners))) }
        ensures started { IfOk result (λ plan. plan.started.items
            ≡ map told_of (enumerate_from self.now.next_tag
            (beginners (by_number (E.ended ending.now)) self.now.kept self.now.listeners))) }
        ensures given { IfOk result (λ plan. plan.given + 1 ≡ self.now.next_tag
            + length (beginners (by_number (E.ended ending.now)) self.now.kept self.now.listeners)) }
    {
        let alloc = self.alloc();
        let lost = listens_at(alloc, self.kept.as_slice(), tags)?;
        let numbers = self.begun(ending, &lost)?;
        // For the prover: no tag is above the last one.
        let _last_tag = self.last_tag;
        let mut plan = Plan::of_lost(alloc, lost, self.given)?;
        plan.start_at(self.listeners.as_slice(), &numbers)?;
        Ok(plan)
    }

    // Ends these listeners, where no tag is lacking, and the listens of these tags are lost.
    fn end<E: EndedListeners>(&mut self, ending: &E, tags: &[u64]) -> Result<Delta, CoverError>
        requires tags { tags.now ≡ map (λ k. k.tag)
            (lost (by_number (E.ended ending.now)) self.old.kept self.old.listeners) }
        requires room { lacks_tag self.old
            (left (by_number (E.ended ending.now)) self.old.listeners) ≡ false }
        ensures cover { OnOk result (self.new
            ≡ with_listeners self.old (left (by_number (E.ended ending.now)) self.old.listeners)) }
        ensures delta { IfOk result (λ delta. delta ≡ difference self.old
            (with_listeners self.old (left (by_number (E.ended ending.now)) self.old.listeners))) }
        ensures told { IfOk result (λ delta. IsTold self.old.next_tag delta) }
        ensures fault { IfErr result (λ e. e ≡ CoverError.NoMemory) }
        ensures unchanged { OnErr result (self.new ≡ self.old) }
    {
        let Plan {
            lost,
            stopped,
            kept,
            started,
            given,
        } = self.plan(ending, tags)?;
        self.kept.replace(&lost, kept)?;
        self.listeners.retain_left(ending);
        self.given = given;
        Ok(Delta {
            started: KeptList::of(started),
            stopped: Numbers::of(stopped),
        })
    }

    // Registers a listener whose form a kept listen supplies: nothing starts, and nothing stops.
    fn admit(&mut self, listener: u64, form: Query) -> Result<Delta, CoverError>
        requires free { is_registered self.old.listeners listener ≡ false }
        requires own { Supply.form form ≡ form }
        requires supplied { is_some (supplier self.old form) ≡ true }
        requires room { lacks_tag self.old (with_listener self.old.listeners listener form)
            ≡ false }
        ensures cover { OnOk result
            (self.new ≡ with_listeners self.old (with_listener self.old.listeners listener form)) }
        ensures delta { IfOk result (λ delta. delta ≡ difference self.old
            (with_listeners self.old (with_listener self.old.listeners listener form))) }
        ensures told { IfOk result (λ delta. IsTold self.old.next_tag delta) }
        ensures fault { IfErr result (λ e. e ≡ CoverError.NoMemory) }
        ensures unchanged { OnErr result (self.new ≡ self.old) }
    {
        let alloc = self.alloc();
        let registered = Listener::new(alloc, listener, form)?;
        self.listeners.insert(registered)?;
        Ok(Delta {
            started: KeptList::of(Vec::new(alloc)),
            stopped: Numbers::of(Vec::new(alloc)),
        })
    }

    // Registers a listener whose form no kept listen supplies: a listen of it starts, in place of
    // those that it supplies.
    fn begin(&mut self, listener: u64, form: Query) -> Result<Delta, CoverError>
        requires free { is_registered self.old.listeners listener ≡ false }
        requires own { Supply.form form ≡ form }
        requires unsupplied { supplier self.old form ≡ None }
        requires room { lacks_tag self.old (with_listener self.old.listeners listener form)
            ≡ false }
        ensures cover { OnOk result
            (self.new ≡ with_listeners self.old (with_listener self.old.listeners listener form)) }
        ensures delta { IfOk result (λ delta. delta ≡ difference self.old
            (with_listeners self.old (with_listener self.old.listeners listener form))) }
        ensures told { IfOk result (λ delta. IsTold self.old.next_tag delta) }
        ensures fault { IfErr result (λ e. e ≡ CoverError.NoMemory) }
        ensures unchanged { OnErr result (self.new ≡ self.old) }
    {
        let alloc = self.alloc();
        // For the prover: no tag is above the last one.
        let _last_tag = self.last_tag;
        let tag = self.given + 1;
        let started = started_one(alloc, tag, &form, listener)?;
        let registered = Listener::new(alloc, listener, form)?;
        let listen = registered.listen(tag)?;
        let stopped = enter(&mut self.listeners, &mut self.kept, registered, listen)?;
        self.given = tag;
        Ok(Delta {
            started: KeptList::of(started),
            stopped: Numbers::of(stopped),
        })
    }

    // Whether a kept listen supplies the form.
    fn is_supplied(&self, form: &Query) -> bool
        ensures { result ≡ is_some (supplier self.now form.now) }
    {
        // For the prover: the cover is sound.
        let _last_tag = self.last_tag;
        self.kept.supply(form)
    }

    // Registers a listener, where no tag is lacking.
    fn register(&mut self, listener: u64, query: Query) -> Result<Delta, CoverError>
        requires free { is_registered self.old.listeners listener ≡ false }
        requires room { lacks_tag self.old (with_listener self.old.listeners listener (form query))
            ≡ false }
        ensures cover { OnOk result (self.new ≡ added self.old listener query) }
        ensures delta { IfOk result (λ delta. delta
            ≡ difference self.old (added self.old listener query)) }
        ensures told { IfOk result (λ delta. IsTold self.old.next_tag delta) }
        ensures fault { IfErr result (λ e. e ≡ CoverError.NoMemory) }
        ensures unchanged { OnErr result (self.new ≡ self.old) }
    {
        let form = into_form(query)?;
        if self.is_supplied(&form) {
            self.admit(listener, form)
        } else {
            self.begin(listener, form)
        }
    }

    /// Registers a listener, under a number that no registered one has.
    ///
    /// Costs by the path, the filtered forms at it, and the listens that stop: where none does, no
    /// other listen is looked at but by halving, and the words of those behind it are moved.
    ///
    /// # Errors
    ///
    /// `NoTag` where a new listen would need a tag above the last one; else `NoMemory`. The cover
    /// stays as it was.
    pub fn add(&mut self, listener: u64, query: Query) -> Result<Delta, CoverError>
        requires { is_registered self.old.listeners listener ≡ false }
        ensures cover { OnOk result (self.new ≡ added self.old listener query) }
        ensures delta { IfOk result (λ delta. delta
            ≡ difference self.old (added self.old listener query)) }
        ensures told { IfOk result (λ delta. IsTold self.old.next_tag delta) }
        ensures taken { OnOk result (add_fault self.old listener query ≡ None) }
        ensures fault { IfErr result (FailsBy (add_fault self.old listener query)) }
        ensures no_tag { add_fault self.old listener query ≡ Some CoverError.NoTag
            → result ≡ Err CoverError.NoTag }
        ensures unchanged { OnErr result (self.new ≡ self.old) }
    {
        if self.lacks_tag_to_add(&query) {
            return Err(CoverError::NoTag);
        }
        self.register(listener, query)
    }

    // Whether one of the numbers is not registered.
    fn has_unknown(&self, numbers: &[u64]) -> bool
        ensures { result ≡ has_unknown self.now numbers.now }
    {
        numbers.iter().any(|number| !self.is_registered(*number))
    }

    /// Ends all these listeners, in one change; a repeated number counts once.
    ///
    /// # Errors
    ///
    /// `UnknownListener` where one of them is not registered; then `NoTag` where a new listen would
    /// need a tag above the last one; else `NoMemory`. The cover stays as it was.
    pub fn remove(&mut self, listeners: &[u64]) -> Result<Delta, CoverError>
        ensures cover { OnOk result (self.new ≡ removed self.old listeners.now) }
        ensures delta { IfOk result (λ delta. delta
            ≡ difference self.old (removed self.old listeners.now)) }
        ensures told { IfOk result (λ delta. IsTold self.old.next_tag delta) }
        ensures taken { OnOk result (remove_fault self.old listeners.now ≡ None) }
        ensures fault { IfErr result (FailsBy (remove_fault self.old listeners.now)) }
        ensures unknown { has_unknown self.old listeners.now ≡ true
            → result ≡ Err CoverError.UnknownListener }
        ensures no_tag { remove_fault self.old listeners.now ≡ Some CoverError.NoTag
            → result ≡ Err CoverError.NoTag }
        ensures unchanged { OnErr result (self.new ≡ self.old) }
    {
        if self.has_unknown(listeners) {
            return Err(CoverError::UnknownListener);
        }
        if self.lacks_tag_to_remove(listeners) {
            return Err(CoverError::NoTag);
        }
        let numbers = Sorted::of(self.alloc(), listeners)?;
        let tags = self.lost_tags(&numbers)?;
        self.end(&numbers, &tags)
    }

    // The numbers of the listeners whose form the listen with this tag is.
    fn named(&self, tag: u64) -> Result<Sorted, CoverError>
        ensures ended { IfOk result (λ ended. ended ≡ ended_by self.now tag) }
        ensures known { IfOk result (λ _. is_some (listen_at self.now tag) ≡ true) }
        ensures unknown { listen_at self.now tag ≡ None → result ≡ Err CoverError.UnknownTag }
        ensures fault { IfErr result (λ e.
            ((e ≡ CoverError.UnknownTag) × (listen_at self.now tag ≡ None))
            ⊎ (e ≡ CoverError.NoMemory)) }
    {
        let Some(listen) = listen::listen_at(self.kept.as_slice(), tag) else {
            return Err(CoverError::UnknownTag);
        };
        let numbers = self.listeners.numbers(listen.form());
        let mut ended = Vec::with_capacity(self.alloc(), numbers.len())?;
        ended.extend_from_slice(numbers)?;
        Ok(Sorted::rising(ended))
    }

    /// Ends the listeners whose listening form the listen with this tag is; the others are covered
    /// anew.
    ///
    /// # Errors
    ///
    /// `UnknownTag` where no listen with the tag is kept; then `NoTag` where a new listen would
    /// need a tag above the last one; else `NoMemory`. The cover stays as it was.
    pub fn revoke(&mut self, tag: u64) -> Result<Revoked, CoverError>
        ensures cover { OnOk result (self.new ≡ revoked self.old tag) }
        ensures ended { IfOk result (λ revoked. revoked.ended ≡ ended_by self.old tag) }
        ensures delta { IfOk result (λ done. done.delta
            ≡ without_tag tag (difference self.old (revoked self.old tag))) }
        ensures told { IfOk result (λ done. IsTold self.old.next_tag done.delta) }
        ensures taken { OnOk result (revoke_fault self.old tag ≡ None) }
        ensures fault { IfErr result (FailsBy (revoke_fault self.old tag)) }
        ensures unknown { listen_at self.old tag ≡ None → result ≡ Err CoverError.UnknownTag }
        ensures no_tag { revoke_fault self.old tag ≡ Some CoverError.NoTag
            → result ≡ Err CoverError.NoTag }
        ensures unchanged { OnErr result (self.new ≡ self.old) }
    {
        // For the prover: the cover is sound.
        let _last_tag = self.last_tag;
        if self.lacks_tag_to_revoke(tag) {
            return Err(CoverError::NoTag);
        }
        let ended = self.named(tag)?;
        let Delta {
            started,
            mut stopped,
        } = self.end(&ended, &[tag])?;
        stopped.take_out(tag);
        Ok(Revoked {
            ended: Numbers::of(ended.into_vec()),
            delta: Delta { started, stopped },
        })
    }
}
