// A seat asks the server for something: a write, or what is to be done when the connection ends.
ghost use Rattle.std.specs.Prelude.{◌≡◌, ◌∷◌, ◌||◌, ◌+◌, [], ℕ, length, nat_le, nat_lt, IfOk, ◌++◌, OnOk};
ghost use Rattle.std.specs.List.{list_any};
ghost use Rattle.std.specs.Option.{option_and_then, option_map, option_map_or, option_to_list};
ghost use Rattle.rt_tree.specs.Assignments.{have_overlap};
ghost use Rattle.rt_world.specs.World.{entries_of};
ghost use Rattle.rt_world.specs.steps.Asking.{is_empty_action};
ghost use Rattle.rt_world.specs.steps.Kind.{stands_too_deep};
ghost use Rattle.rt_world.specs.laws.Refused.{first_of};
ghost use Rattle.rt_world.specs.declared.error.CoreError.TheVariants as CoreError;
ghost use Rattle.rt_world.specs.declared.report.Body.TheVariants as Body;

use crate::state::{State, StepNews, send_asked};
use rt_parts::Settled;
use rt_world::{
    Action, Asked, Body, CoreError, Ending, Note, Reason, asked_law, brought_law, pending_law,
    refusal_law, settled_law, stay_law, touch_law,
};
use rt_writes::Entries;
use std::alloc::{AllocError, Global};

// Why an action can't be asked for, whoever asks.
fn action_refusal(action: &Action) -> Option<CoreError>
    ensures { result ≡ first_of ((have_overlap (entries_of action.now), CoreError.Overlap)
        ∷ (is_empty_action action.now, CoreError.EmptyUpdate)
        ∷ (list_any stands_too_deep (entries_of action.now), CoreError.TooDeep) ∷ []) }
{
    if action.has_overlap() {
        return Some(CoreError::Overlap);
    }
    if action.is_empty() {
        return Some(CoreError::EmptyUpdate);
    }
    if action.is_too_deep() {
        return Some(CoreError::TooDeep);
    }
    None
}

impl State {
    ghost use Rattle.rt_wire.specs.declared.request.Asked.TheVariants as Asked;
    ghost use Rattle.rt_world.specs.declared.step.Step.TheVariants as Step;
    ghost use Rattle.rt_world.specs.Refusals.{refusal};
    ghost use Rattle.rt_sync.specs.inside.StateView.{world_of};
    ghost use Rattle.rt_sync.specs.inside.States.{IsReady, Makes};

    // Whether the limit of unsettled requests is reached, or the last number.
    fn has_too_many_requests(&self) -> bool
        ensures { result ≡ (nat_le self.now.limits.requests (length self.now.requests)
            || nat_lt self.now.limits.last_number (self.now.given_requests + 1)) }
    {
        self.requests.len() as u64 >= u64::from(self.limits.requests)
            || self.given_requests >= self.limits.last_number
    }

    // Why a write is refused.
    pub(crate) fn write_refusal(&self, action: &Action) -> Option<CoreError>
        ensures { (seat : ℕ) → result ≡ refusal (world_of self.now) (Step.Write seat action.now) }
    {
        if self.has_too_many_requests() {
            return Some(CoreError::TooManyRequests);
        }
        action_refusal(action)
    }

    // Why what is asked for the end of the connection is refused.
    pub(crate) fn on_disconnect_refusal(&self, ending: &Ending) -> Option<CoreError>
        ensures { (seat : ℕ) → result ≡ refusal (world_of self.now) (Step.OnDisconnect seat ending.now) }
    {
        if self.has_too_many_requests() {
            return Some(CoreError::TooManyRequests);
        }
        match ending {
            Ending::Run(action) => action_refusal(action),
            Ending::Cancel(_) => None,
        }
    }

    // A seat writes: the write shows at once, and is asked for.
    pub(crate) fn write(&mut self, seat: u64, action: Action) -> Result<StepNews, AllocError>
        requires { IsReady self.old (Step.Write seat action) }
        ensures { IfOk result (λ told. Makes self.old (Step.Write seat action) self.new told) }
    {
        // For the prover: what such a step leaves, and what may be asked.
        asked_law();
        pending_law();
        refusal_law();
        stay_law();
        brought_law();
        touch_law();
        // For the prover: the last number is one of its type.
        let _last_number = self.limits.last_number;
        let alloc = self.alloc();
        let id = self.given_requests + 1;
        let asked = Asked::Now(action);
        send_asked(alloc, &mut self.outgoing, self.is_connected, id, &asked)?;
        self.requests.add(id, seat, asked)?;
        let mut notes = Vec::new(alloc);
        let pending = self.requests.pending();
        let Some(written) = pending.entries(id) else {
            unreachable!()
        };
        self.listeners
            .refresh(None, written, &self.brought, pending, &mut notes)?;
        self.given_requests = id;
        Ok(StepNews {
            given: Some(id),
            notes,
        })
    }

    // A seat asks for what is to be done when the connection ends; nothing shows.
    pub(crate) fn ask_at_disconnect(
        &mut self,
        seat: u64,
        ending: Ending,
    ) -> Result<StepNews, AllocError>
        requires { IsReady self.old (Step.OnDisconnect seat ending) }
        ensures { IfOk result (λ told. Makes self.old (Step.OnDisconnect seat ending) self.new told) }
    {
        // For the prover: what such a step leaves, and what may be asked.
        asked_law();
        refusal_law();
        // For the prover: the last number is one of its type.
        let _last_number = self.limits.last_number;
        let alloc = self.alloc();
        let id = self.given_requests + 1;
        let asked = Asked::AtDisconnect(ending);
        send_asked(alloc, &mut self.outgoing, self.is_connected, id, &asked)?;
        self.requests.add(id, seat, asked)?;
        self.given_requests = id;
        let notes = Vec::new(alloc);
        Ok(StepNews {
            given: Some(id),
            notes,
        })
    }
}

// ---- the server settles a request: it accepts or refuses it

// What is left of the request; nothing of one that is not unsettled.
fn left_of(alloc: Global, settled: Option<Settled>) -> Settled
    ensures seat { result.seat ≡ option_and_then (λ s. s.seat) settled }
    ensures entries { result.entries ≡ option_map_or (λ s. s.entries) settled [] }
{
    match settled {
        Some(settled) => settled,
        None => Settled {
            seat: None,
            entries: Entries::of(Vec::new(alloc)),
        },
    }
}

// Tells the seat that its request is settled.
fn tell_settled(
    notes: &mut Vec<Note>,
    seat: Option<u64>,
    id: u64,
    why: Option<Reason>,
) -> Result<(), AllocError>
    ensures { OnOk result (notes.new.items ≡ notes.old.items
        ++ option_to_list (option_map (λ s. record { seat = s; body = Body.Settled id why }) seat)) }
{
    if let Some(seat) = seat {
        notes.push(Note {
            seat,
            body: Body::Settled { id, why },
        })?;
    }
    Ok(())
}

impl State {
    ghost use Rattle.rt_world.specs.declared.step.Step.TheVariants as Step;
    ghost use Rattle.rt_world.specs.World.{Reason};
    ghost use Rattle.rt_world.specs.Refusals.{is_stale, refusal};
    ghost use Rattle.rt_sync.specs.inside.Due.{settling};
    ghost use Rattle.rt_sync.specs.inside.StateView.{world_of};
    ghost use Rattle.rt_sync.specs.inside.States.{IsReady, Makes};

    // Why nothing can be settled.
    pub(crate) fn settle_refusal(&self) -> Option<CoreError>
        ensures accepted { (id : ℕ) → result ≡ refusal (world_of self.now) (Step.Accepted id) }
        ensures refused { (id : ℕ) (why : Reason) → result ≡ refusal (world_of self.now) (Step.Refused id why) }
    {
        self.offline_refusal()
    }

    // Whether no unsettled request has the number.
    pub(crate) fn settle_is_stale(&self, id: u64) -> bool
        ensures accepted { result ≡ is_stale (world_of self.now) (Step.Accepted id) }
        ensures refused { (why : Reason) → result ≡ is_stale (world_of self.now) (Step.Refused id why) }
    {
        !self.requests.is_unsettled(id)
    }

    // A request is accepted, or refused for a reason: what it wrote is pending no more, and its seat
    // is told first.
    pub(crate) fn settle(&mut self, id: u64, why: Option<Reason>) -> Result<StepNews, AllocError>
        requires { IsReady self.old (settling id why) }
        ensures { IfOk result (λ told. Makes self.old (settling id why) self.new told) }
    {
        // For the prover: what such a step leaves.
        settled_law();
        pending_law();
        stay_law();
        brought_law();
        touch_law();
        let alloc = self.alloc();
        let taken = self.requests.settle(id)?;
        let settled = left_of(alloc, taken);
        let mut notes = Vec::new(alloc);
        tell_settled(&mut notes, settled.seat, id, why)?;
        let pending = self.requests.pending();
        let entries = settled.entries.as_slice();
        self.listeners
            .refresh(None, entries, &self.brought, pending, &mut notes)?;
        Ok(StepNews { given: None, notes })
    }
}
