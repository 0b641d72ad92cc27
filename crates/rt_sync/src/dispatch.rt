// One step, and its answer.
ghost use Rattle.std.specs.Prelude.{◌≡◌, false, None, Ok, IfOk, OnErr};
ghost use Rattle.rt_world.specs.declared.report.Outcome.TheVariants.{Done};
ghost use Rattle.rt_world.specs.Answers.{stale_report};

use crate::state::{State, StepNews};
use rt_world::{
    CoreError, Notes, Outcome, Report, Step, answer_law, brought_law, sound_law, stay_law,
    touch_law,
};
use std::alloc::{AllocError, Global};

// The report of what a step tells that is done.
fn done_report(told: StepNews) -> Report
    ensures { result ≡ record { outcome = Done; given = told.given; notes = told.notes.items } }
{
    Report {
        outcome: Outcome::Done,
        given: told.given,
        notes: Notes::of(told.notes),
    }
}

// The report of a step that is stale.
fn stale_report(alloc: Global) -> Report
    ensures { result ≡ stale_report }
{
    Report {
        outcome: Outcome::Stale,
        given: None,
        notes: Notes::of(Vec::new(alloc)),
    }
}

impl State {
    ghost use Rattle.rt_world.specs.After.{kind};
    ghost use Rattle.rt_world.specs.Refusals.{refusal, is_stale};
    ghost use Rattle.rt_sync.specs.inside.StateView.{world_of};
    ghost use Rattle.rt_sync.specs.inside.States.{HoldsWell, IsReady, Makes, Takes};

    // The step, which is neither refused nor stale.
    fn next(&mut self, step: Step) -> Result<StepNews, AllocError>
        requires { IsReady self.old step }
        ensures made { IfOk result (λ told. Makes self.old step self.new told) }
        ensures not_closing { OnErr result ((kind step).closes ≡ false) }
    {
        match step {
            Step::Write { seat, action } => self.write(seat, action),
            Step::OnDisconnect { seat, ending } => self.ask_at_disconnect(seat, ending),
            Step::Connected => self.connect(),
            Step::Disconnected => Ok(self.disconnect()),
            Step::Data { tag, path, tree } => self.take_data(tag, path, tree),
            Step::DataMerge { tag, entries } => self.take_merge(tag, entries),
            Step::Push { parts } => self.take_push(parts),
            Step::Accepted { id } => self.settle(id, None),
            Step::Refused { id, why } => self.settle(id, Some(why)),
            Step::Listen { seat, query } => self.listen(seat, query),
            Step::Unlisten { seat, listener } => self.unlisten(seat, listener),
            Step::Revoked { tag, why } => self.revoke(tag, why),
            Step::CloseSeat { seat } => self.close_seat(seat),
        }
    }

    // The step, and its report, where it is not refused.
    fn make(&mut self, step: Step) -> Result<Report, AllocError>
        requires well { HoldsWell self.old }
        requires not_refused { refusal (world_of self.old) step ≡ None }
        ensures made { IfOk result (λ report. Takes self.old step self.new (Ok report)) }
        ensures not_stale { OnErr result (is_stale (world_of self.old) step ≡ false) }
        ensures not_closing { OnErr result ((kind step).closes ≡ false) }
    {
        // For the prover: what a step answers that is not refused, what it brings, which listeners stay, and
        // which children it changes.
        answer_law();
        brought_law();
        sound_law();
        stay_law();
        touch_law();
        if self.is_stale(&step) {
            return Ok(stale_report(self.alloc()));
        }
        let told = self.next(step)?;
        Ok(done_report(told))
    }

    // The step, and its answer.
    pub(crate) fn after(&mut self, step: Step) -> Result<Result<Report, CoreError>, AllocError>
        requires { HoldsWell self.old }
        ensures made { IfOk result (λ answer. Takes self.old step self.new answer) }
        ensures not_refused { OnErr result (refusal (world_of self.old) step ≡ None) }
        ensures not_stale { OnErr result (is_stale (world_of self.old) step ≡ false) }
        ensures not_closing { OnErr result ((kind step).closes ≡ false) }
    {
        // For the prover: what a refused step answers.
        answer_law();
        if let Some(error) = self.refusal(&step) {
            return Ok(Err(error));
        }
        let report = self.make(step)?;
        Ok(Ok(report))
    }
}

// ---- when a step is refused, and when it is stale: each kind says it in its file of steps/
// None needs memory.

impl State {
    ghost use Rattle.rt_world.specs.Refusals.{is_stale, refusal};
    ghost use Rattle.rt_sync.specs.inside.StateView.{world_of};
    ghost use Rattle.rt_sync.specs.inside.States.{HoldsWell};

    // The first refusal whose condition holds.
    pub(crate) fn refusal(&self, step: &Step) -> Option<CoreError>
        requires { HoldsWell self.now }
        ensures { result ≡ refusal (world_of self.now) step.now }
    {
        match step {
            Step::Listen { query, .. } => self.listen_refusal(query),
            Step::Unlisten { seat, listener } => self.unlisten_refusal(*seat, *listener),
            Step::Write { action, .. } => self.write_refusal(action),
            Step::OnDisconnect { ending, .. } => self.on_disconnect_refusal(ending),
            Step::Data { tag, path, tree } => self.data_refusal(*tag, path, tree),
            Step::DataMerge { tag, entries } => self.merge_refusal(*tag, entries),
            Step::Push { parts } => self.push_refusal(parts),
            Step::Accepted { .. } => self.settle_refusal(),
            Step::Refused { .. } => self.settle_refusal(),
            Step::Revoked { tag, .. } => self.revoke_refusal(*tag),
            Step::Connected => self.connect_refusal(),
            Step::Disconnected => self.disconnect_refusal(),
            Step::CloseSeat { seat } => self.close_seat_refusal(*seat),
        }
    }

    // Whether the step comes too late: only what the server sends can.
    pub(crate) fn is_stale(&self, step: &Step) -> bool
        ensures { result ≡ is_stale (world_of self.now) step.now }
    {
        match step {
            Step::Data { tag, path, .. } => self.data_is_stale(*tag, path),
            Step::DataMerge { tag, entries } => self.merge_is_stale(*tag, entries),
            Step::Push { parts } => self.push_is_stale(parts),
            Step::Accepted { id } => self.settle_is_stale(*id),
            Step::Refused { id, .. } => self.settle_is_stale(*id),
            Step::Revoked { tag, .. } => self.revoke_is_stale(*tag),
            Step::Listen { .. }
            | Step::Unlisten { .. }
            | Step::Write { .. }
            | Step::OnDisconnect { .. }
            | Step::Connected
            | Step::Disconnected
            | Step::CloseSeat { .. } => false,
        }
    }
}
