// Listeners begin and end.
ghost use Rattle.std.specs.Prelude.{◌≡◌, ◌||◌, ◌+◌, ℕ, false, length, nat_le, nat_lt, None, IfOk, OnOk};
ghost use Rattle.rt_query.specs.Supply.{form};
ghost use Rattle.rt_cover.specs.State.{added, add_fault, difference, is_registered, remove_fault, removed};

use super::losses::{forms_of, lose_ended};
use crate::state::{State, StepNews, send_change};
use rt_cover::{Cover, Delta};
use rt_query::Query;
use rt_world::{
    CoreError, covered_law, following_law, listened_law, refusal_law, sound_law, tag_law,
};
use std::alloc::AllocError;

// A listener is covered. Only memory can refuse: whether a tag is lacking was looked at.
fn cover_new(cover: &mut Cover, number: u64, query: Query) -> Result<Delta, AllocError>
    requires new { is_registered cover.old.listeners number ≡ false }
    requires fault { add_fault cover.old number query ≡ None }
    ensures cover { OnOk result (cover.new ≡ added cover.old number query) }
    ensures delta { IfOk result (λ delta. delta
        ≡ difference cover.old (added cover.old number query)) }
{
    match cover.add(number, query) {
        Ok(delta) => Ok(delta),
        Err(_) => Err(AllocError),
    }
}

// These listeners are covered no more. Only memory can refuse.
pub(crate) fn uncover(cover: &mut Cover, numbers: &[u64]) -> Result<Delta, AllocError>
    requires { remove_fault cover.old numbers.now ≡ None }
    ensures cover { OnOk result (cover.new ≡ removed cover.old numbers.now) }
    ensures delta { IfOk result (λ delta. delta
        ≡ difference cover.old (removed cover.old numbers.now)) }
{
    match cover.remove(numbers) {
        Ok(delta) => Ok(delta),
        Err(_) => Err(AllocError),
    }
}

impl State {
    ghost use Rattle.rt_world.specs.declared.step.Step.TheVariants as Step;
    ghost use Rattle.rt_world.specs.Refusals.{needs_tag, refusal};
    ghost use Rattle.rt_sync.specs.inside.StateView.{world_of};
    ghost use Rattle.rt_sync.specs.inside.States.{HoldsWell, IsReady, Makes};

    // Whether the limit of listeners is reached, or the last number.
    fn is_full(&self) -> bool
        ensures { result ≡ (nat_le self.now.limits.listeners (length self.now.listeners.listeners)
            || nat_lt self.now.limits.last_number (self.now.given_listeners + 1)) }
    {
        self.listeners.len() as u64 >= u64::from(self.limits.listeners)
            || self.given_listeners >= self.limits.last_number
    }

    // Whether a new listener of the query would need a tag above the last one.
    fn lacks_tag_to_add(&self, query: &Query) -> bool
        requires { HoldsWell self.now }
        ensures { (seat : ℕ) → result ≡ needs_tag (world_of self.now) (Step.Listen seat query.now) }
    {
        // For the prover: when a step lacks a tag.
        tag_law();
        self.cover.lacks_tag_to_add(query)
    }

    // Why a listener of the query can't be registered.
    pub(crate) fn listen_refusal(&self, query: &Query) -> Option<CoreError>
        requires { HoldsWell self.now }
        ensures { (seat : ℕ) → result ≡ refusal (world_of self.now) (Step.Listen seat query.now) }
    {
        if self.is_full() || self.lacks_tag_to_add(query) {
            return Some(CoreError::TooManyListeners);
        }
        None
    }

    // A seat registers a listener: it has the next number, and is told at once where something is
    // known for its query.
    pub(crate) fn listen(&mut self, seat: u64, query: Query) -> Result<StepNews, AllocError>
        requires { IsReady self.old (Step.Listen seat query) }
        ensures { IfOk result (λ told. Makes self.old (Step.Listen seat query) self.new told) }
    {
        // For the prover: what such a step leaves, that the cover takes it, and that a number is left.
        listened_law();
        covered_law();
        following_law();
        refusal_law();
        // For the prover: the last number is one of its type.
        let _last_number = self.limits.last_number;
        let alloc = self.alloc();
        let number = self.given_listeners + 1;
        let covered = query.copy()?;
        self.brought.register(&query)?;
        let delta = cover_new(&mut self.cover, number, covered)?;
        let mut notes = Vec::new(alloc);
        let pending = self.requests.pending();
        self.listeners
            .add(number, seat, query, &self.brought, pending, &mut notes)?;
        send_change(&mut self.outgoing, self.is_connected, delta)?;
        self.given_listeners = number;
        Ok(StepNews {
            given: Some(number),
            notes,
        })
    }

    // Whether the end of the listener would need a tag above the last one.
    fn lacks_tag_to_remove(&self, listener: u64) -> bool
        requires { HoldsWell self.now }
        ensures { (seat : ℕ) → result ≡ needs_tag (world_of self.now) (Step.Unlisten seat listener) }
    {
        // For the prover: when a step lacks a tag.
        tag_law();
        self.cover.lacks_tag_to_remove(&[listener])
    }

    // Why the seat can't end the listener.
    pub(crate) fn unlisten_refusal(&self, seat: u64, listener: u64) -> Option<CoreError>
        requires { HoldsWell self.now }
        ensures { result ≡ refusal (world_of self.now) (Step.Unlisten seat listener) }
    {
        if !self.listeners.is_seats(seat, listener) {
            return Some(CoreError::UnknownListener);
        }
        if self.lacks_tag_to_remove(listener) {
            return Some(CoreError::TooManyListeners);
        }
        None
    }

    // A seat ends a listener of its own: those are told whose views change since they are moved.
    pub(crate) fn unlisten(&mut self, seat: u64, listener: u64) -> Result<StepNews, AllocError>
        requires { IsReady self.old (Step.Unlisten seat listener) }
        ensures { IfOk result (λ told. Makes self.old (Step.Unlisten seat listener) self.new told) }
    {
        // For the prover: what such a step leaves, and that the cover takes it.
        listened_law();
        covered_law();
        following_law();
        sound_law();
        let alloc = self.alloc();
        let ended = forms_of(alloc, &self.cover, &[listener])?;
        let delta = uncover(&mut self.cover, &[listener])?;
        let moved = lose_ended(
            &mut self.brought,
            &self.listeners,
            &self.cover,
            &[listener],
            ended,
            &delta,
        )?;
        self.listeners.remove(listener);
        let mut notes = Vec::new(alloc);
        let pending = self.requests.pending();
        self.listeners
            .renew(&moved, &self.brought, pending, &mut notes)?;
        send_change(&mut self.outgoing, self.is_connected, delta)?;
        Ok(StepNews { given: None, notes })
    }
}
