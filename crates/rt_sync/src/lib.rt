//! The core over its parts: listeners, pending writes, what the listens brought, and the listens kept.
//!
//! A [`Core`] takes every step, and answers as the world of `rt_world` does, whose types it hands on. What
//! any steps lead to is the headline of [`run`].
//!
//! ```text
//! let mut core = Core::new(alloc, Limits::full());
//! let answers = run(alloc, &mut core, steps)?;       // each step's report, or why it is refused
//! while let Some(message) = core.take_outgoing() { .. }
//! let shown = core.view(listener)?;                  // none while nothing is known of its path
//! ```
#![tactic(auto)]

ghost use Rattle.std.specs.Prelude.{◌≡◌, ◌↔◌, IsTrue, None, Some};
ghost use Rattle.std.specs.Option.{IfSome};
ghost use Rattle.rt_world.specs.Limited.{IsWithin};
ghost use Rattle.rt_world.specs.World.{limits_from};
ghost use Rattle.rt_world.specs.laws.Holds.{IsSteady};
ghost use Rattle.rt_sync.specs.Core.{Applies, Covers, TakesOut, Views, empty_held};
ghost use Rattle.rt_sync.specs.Core.{counts_in, refusal_in, views_in, world_in};
ghost use Rattle.rt_sync.specs.Reads.{Counts, Reads};

mod dispatch;
mod runs;
mod state;
mod steps;

use rt_cover::KeptList;
use rt_query::Shown;
pub use rt_world::{
    Action, Asked, Body, Call, ClientMessage, CoreError, Ending, Limits, Note, Notes, Outcome,
    Reason, Report, Step,
};
use rt_world::{answer_law, holding_law, sending_law, steady_law};
pub use runs::{Answers, counting_law, run, run_in, run_law};
use state::State;
pub use state::{NoRoom, Room};
use std::alloc::Global;
use std::marker::Model;

/// The core of a client: takes one step after another. Once a step has lacked memory the core has
/// failed, and answers nothing else from then on.
pub struct Core {
    state: Option<State>,
}

impl Drop for Core {
    fn drop(self) {
        let Core { state: _ } = self;
    }
}

impl Model for Core {
    ghost use Rattle.std.specs.Prelude.{Option, IfSome};
    ghost use Rattle.std.specs.Option.{option_map};
    ghost use Rattle.rt_sync.specs.Core.{Held};

    ghost Value = { Option Held };

    ghost use Rattle.rt_sync.specs.inside.StateView.{held_of};
    ghost use Rattle.rt_sync.specs.inside.States.{HoldsWell};

    ghost view = { λ a. option_map held_of a.state };

    ghost invariant = { λ a. IfSome a.state HoldsWell };
}

// Drops the state of a core that fails. It is a function of its own: its locals have room for a state.
fn fail(state: &mut Option<State>)
    ensures { state.new ≡ None }
{
    *state = None;
}

impl Core {
    /// A core with no listener, no request and no connection. A limit of 0 counts as 1, and one
    /// above what a core takes as that.
    pub fn new(alloc: Global, limits: Limits) -> Core
        ensures { result ≡ Some (empty_held (limits_from limits)) }
    {
        // For the prover: what holds before any step.
        steady_law();
        holding_law();
        Core {
            state: Some(State::new(alloc, limits.within_full())),
        }
    }

    /// Whether a step has lacked memory: the core answers nothing else from then on. Where none has, its
    /// world is one between steps, as the laws of `rt_world` ask of theirs: steady, which says that it is
    /// sound, and within its limits. Takes no memory.
    pub fn has_failed(&self) -> bool
        ensures failed { IsTrue result ↔ (self.now ≡ None) }
        ensures steady { IfSome (world_in self.now) IsSteady }
        ensures within { IfSome (world_in self.now) IsWithin }
    {
        self.state.is_none()
    }

    /// Makes one step. Refused and stale steps change nothing; a step that lacks memory is not
    /// made, and the core has failed then. The end of a connection takes no memory, and lacks none.
    ///
    /// # Errors
    ///
    /// The first of the causes that [`CoreError`] lists in its order, and `NoMemory`.
    pub fn apply(&mut self, step: Step) -> Result<Report, CoreError>
        ensures made { Applies (world_in self.old) step result (world_in self.new) }
        ensures reads { Reads self.old step self.new }
        ensures counts { Counts self.old self.new }
    {
        // For the prover: what holds after a step.
        steady_law();
        holding_law();
        answer_law();
        let Some(state) = &mut self.state else {
            return Err(CoreError::Failed);
        };
        if let Ok(answer) = state.after(step) {
            return answer;
        }
        fail(&mut self.state);
        Err(CoreError::NoMemory)
    }

    /// Why [`Core::apply`] refuses such a step; none where the step is due, or is stale. Takes no
    /// memory.
    pub fn refusal(&self, step: &Step) -> Option<CoreError>
        ensures { result ≡ refusal_in (world_in self.now) step.now }
    {
        match &self.state {
            Some(state) => state.refusal(step),
            None => Some(CoreError::Failed),
        }
    }

    /// The kept listens, by tag, each with the least-numbered listener of its form.
    ///
    /// # Errors
    ///
    /// Failed, and NoMemory where there is no memory for the list: the core goes on then.
    pub fn cover(&self) -> Result<KeptList, CoreError>
        ensures { Covers (world_in self.now) result }
    {
        match &self.state {
            Some(state) => state.cover(),
            None => Err(CoreError::Failed),
        }
    }

    /// What the listener of that number shows; none where nothing is known of its path yet. The trees
    /// are shared, and it costs by the rows.
    ///
    /// # Errors
    ///
    /// Failed, UnknownListener where no listener has that number, and NoMemory where there is no
    /// memory for the rows: the core goes on then.
    pub fn view(&self, listener: u64) -> Result<Option<Shown>, CoreError>
        ensures { Views (world_in self.now) listener result }
    {
        match &self.state {
            Some(state) => state.view(listener),
            None => Err(CoreError::Failed),
        }
    }

    /// Takes out the first message that is to be sent; none where nothing is to be sent, or the core
    /// has failed.
    pub fn take_outgoing(&mut self) -> Option<ClientMessage>
        ensures sent { TakesOut (world_in self.old) result (world_in self.new) }
        ensures views { views_in self.new ≡ views_in self.old }
        ensures counts { counts_in self.new ≡ counts_in self.old }
    {
        // For the prover: what holds between steps holds without the message.
        sending_law();
        let Some(state) = &mut self.state else {
            return None;
        };
        state.take_outgoing()
    }
}
