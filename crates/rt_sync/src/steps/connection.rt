// Connections begin and end.
ghost use Rattle.std.specs.Prelude.{◌≡◌, ◌∷◌, [], not, IfOk, ◌==◌, ◌&&◌};
ghost use Rattle.std.specs.List.{list_any};
ghost use Rattle.rt_cover.specs.State.{shown};
ghost use Rattle.rt_world.specs.laws.Refused.{first_of};
ghost use Rattle.rt_world.specs.declared.error.CoreError.TheVariants as CoreError;

use super::listens::uncover;
use super::losses::{forms_of, lose_ended};
use crate::state::{State, StepNews, greeted, send_change, send_listens, send_requests};
use rt_cover::{Choice, Cover, Kept};
use rt_parts::Listeners;
use rt_world::{
    CoreError, connection_law, covered_law, following_law, listened_law, pending_law, sound_law,
    tag_law,
};
use std::alloc::AllocError;
use std::collections::VecDeque;

// The kept listens, by tag.
fn kept_listens(cover: &Cover) -> Result<Vec<Kept>, AllocError>
    ensures { IfOk result (λ kept. kept.items ≡ shown cover.now) }
{
    match cover.open() {
        Ok(list) => Ok(list.into_vec()),
        Err(_) => Err(AllocError),
    }
}

impl State {
    ghost use Rattle.rt_world.specs.declared.step.Step.TheVariants as Step;
    ghost use Rattle.rt_world.specs.Refusals.{refusal};
    ghost use Rattle.rt_sync.specs.inside.StateView.{world_of};
    ghost use Rattle.rt_sync.specs.inside.States.{IsReady, Makes};

    // Why no connection can be opened.
    pub(crate) fn connect_refusal(&self) -> Option<CoreError>
        ensures { result ≡ refusal (world_of self.now) Step.Connected }
    {
        if self.is_connected {
            return Some(CoreError::AlreadyConnected);
        }
        None
    }

    // Why nothing can come from a connection.
    pub(crate) fn offline_refusal(&self) -> Option<CoreError>
        ensures { result ≡ first_of ((not self.now.is_connected, CoreError.NotConnected) ∷ []) }
    {
        if self.is_connected {
            return None;
        }
        Some(CoreError::NotConnected)
    }

    // Why no connection can end.
    pub(crate) fn disconnect_refusal(&self) -> Option<CoreError>
        ensures { result ≡ refusal (world_of self.now) Step.Disconnected }
    {
        self.offline_refusal()
    }

    // A connection is opened: the version is to be told, then all kept listens, and then all unsettled
    // requests.
    pub(crate) fn connect(&mut self) -> Result<StepNews, AllocError>
        requires { IsReady self.old Step.Connected }
        ensures { IfOk result (λ told. Makes self.old Step.Connected self.new told) }
    {
        // For the prover: what such a step leaves.
        connection_law();
        let alloc = self.alloc();
        let mut outgoing = greeted(alloc)?;
        send_listens(&mut outgoing, kept_listens(&self.cover)?)?;
        send_requests(alloc, &mut outgoing, &self.requests)?;
        self.outgoing = outgoing;
        self.is_connected = true;
        let notes = Vec::new(alloc);
        Ok(StepNews { given: None, notes })
    }

    // The connection ends: what was to be sent is dropped.
    pub(crate) fn disconnect(&mut self) -> StepNews
        requires { IsReady self.old Step.Disconnected }
        ensures { Makes self.old Step.Disconnected self.new result }
    {
        // For the prover: what such a step leaves.
        connection_law();
        let alloc = self.alloc();
        self.outgoing.clear();
        self.is_connected = false;
        let notes = Vec::new(alloc);
        StepNews { given: None, notes }
    }
}

// ---- a seat goes

// The listeners of a seat.
#[derive(Drop)]
struct OfSeat<'a> {
    listeners: &'a Listeners,
    seat: u64,
}

impl Choice for OfSeat<'_> {
    ghost chosen = { λ a number. list_any (λ l. l.number == number && l.seat == a.seat)
        a.listeners.now.listeners };

    fn has(&self, listener: u64) -> bool {
        self.listeners.is_seats(self.seat, listener)
    }
}

impl State {
    ghost use Rattle.rt_world.specs.declared.step.Step.TheVariants as Step;
    ghost use Rattle.rt_world.specs.Refusals.{needs_tag, refusal};
    ghost use Rattle.rt_sync.specs.inside.StateView.{world_of};
    ghost use Rattle.rt_sync.specs.inside.States.{HoldsWell, IsReady, Makes};

    // Whether the end of all listeners of the seat would need a tag above the last one.
    fn lacks_tag_to_close(&self, seat: u64) -> bool
        requires { HoldsWell self.now }
        ensures { result ≡ needs_tag (world_of self.now) (Step.CloseSeat seat) }
    {
        // For the prover: when a step lacks a tag.
        tag_law();
        self.cover.lacks_tag_to_remove_chosen(&OfSeat {
            listeners: &self.listeners,
            seat,
        })
    }

    // Why a seat can't go.
    pub(crate) fn close_seat_refusal(&self, seat: u64) -> Option<CoreError>
        requires { HoldsWell self.now }
        ensures { result ≡ refusal (world_of self.now) (Step.CloseSeat seat) }
    {
        if self.lacks_tag_to_close(seat) {
            return Some(CoreError::TooManyListeners);
        }
        None
    }

    // A seat goes: its listeners end, and its requests stay, without a seat. Other seats are told where
    // their listeners' views change since these are moved.
    pub(crate) fn close_seat(&mut self, seat: u64) -> Result<StepNews, AllocError>
        requires { IsReady self.old (Step.CloseSeat seat) }
        ensures { IfOk result (λ told. Makes self.old (Step.CloseSeat seat) self.new told) }
    {
        // For the prover: what such a step leaves, that the cover takes it, and that what is pending stays.
        listened_law();
        covered_law();
        following_law();
        sound_law();
        pending_law();
        let alloc = self.alloc();
        let numbers = self.listeners.numbers_of(alloc, seat)?;
        let ended = forms_of(alloc, &self.cover, &numbers)?;
        let delta = uncover(&mut self.cover, &numbers)?;
        let moved = lose_ended(
            &mut self.brought,
            &self.listeners,
            &self.cover,
            &numbers,
            ended,
            &delta,
        )?;
        self.listeners.close(seat);
        self.requests.close(seat);
        let mut notes = Vec::new(alloc);
        let pending = self.requests.pending();
        self.listeners
            .renew(&moved, &self.brought, pending, &mut notes)?;
        send_change(&mut self.outgoing, self.is_connected, delta)?;
        Ok(StepNews { given: None, notes })
    }
}
