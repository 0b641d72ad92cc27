// Many steps, one after another.
ghost use Rattle.std.specs.Prelude.{◌≡◌, ◌≤◌, [], length, Some, IfErr, IfOk, IsOk, OnErr};
ghost use Rattle.rt_world.specs.World.{World};
ghost use Rattle.rt_world.specs.Headline.{Headline};
ghost use Rattle.rt_sync.specs.Core.{AppliesAll, world_in};
ghost use Rattle.rt_sync.specs.laws.Counting.{NotThrownAway, OneIsCounted};
ghost use Rattle.rt_sync.specs.laws.Runs.{AnsweredIsMade};

use crate::Core;
use crate::state::{NoRoom, Room};
use rt_world::{CoreError, Report, Step, holding_law};
use std::alloc::Global;
use std::marker::Model;

/// The answers to steps, in order.
pub struct Answers {
    items: Vec<Result<Report, CoreError>>,
}

impl Drop for Answers {
    fn drop(self) {
        let Answers { items: _ } = self;
    }
}

impl Model for Answers {
    ghost use Rattle.std.specs.Prelude.{List};
    ghost use Rattle.rt_world.specs.Answers.{Answer};

    ghost Value = { List Answer };

    ghost view = { λ a. a.items.items };
}

impl Answers {
    /// The answers, in order.
    pub fn as_slice(&self) -> &[Result<Report, CoreError>]
        ensures { result.now ≡ self.now }
    {
        self.items.as_slice()
    }
}

/// Makes the steps, one after another, and answers each in order. Where none lacked memory, the
/// fewest listens are kept at each of them, and each listener's view is its query over what they
/// brought, overlaid by the pending writes, and turns from the one before by what it is told.
///
/// # Errors
///
/// Only room for as many answers as there are steps can be refused, and then no step is made.
pub fn run(alloc: Global, core: &mut Core, steps: Vec<Step>) -> Result<Answers, NoRoom>
    ensures unchanged { OnErr result (core.new ≡ core.old) }
    ensures refused { IfErr result (λ answers. answers ≡ length steps.items) }
    ensures nothing { steps.items ≡ [] → IsOk result }
    ensures answered { IfOk result (λ answers.
        AppliesAll (world_in core.old) steps.items answers (world_in core.new)) }
    ensures headline { IfOk result (λ answers. (w v : World) → world_in core.old ≡ Some w
        → world_in core.new ≡ Some v → Headline w steps.items answers v) }
{
    let room = Room::new(alloc, steps.len())?;
    Ok(run_in(room, core, steps))
}

/// The same with room for the answers: nothing is refused then, and every step is made or answered.
pub fn run_in(room: Room, core: &mut Core, steps: Vec<Step>) -> Answers
    requires { length steps.items ≤ room }
    ensures answered { AppliesAll (world_in core.old) steps.items result (world_in core.new) }
    ensures headline { (w v : World) → world_in core.old ≡ Some w
        → world_in core.new ≡ Some v → Headline w steps.items result v }
{
    // For the prover: what any steps lead to from a core between steps.
    holding_law();
    let _has_failed = core.has_failed();
    let Room { mut items } = room;
    for step in steps {
        items.push_reserved(core.apply(step));
    }
    Answers { items }
}

// ---- laws of the core, for whoever calls them: each is a function without code

/// Where no step lacked memory, a run that is answered step by step makes and answers the world's
/// steps, one after another.
pub fn run_law()
    ensures { AnsweredIsMade }
{}

/// What a listener's count tells: a view that is touched with one child counts that one, and no view
/// that is made anew and touched with nothing stands for the one that was thrown away.
pub fn counting_law()
    ensures one { OneIsCounted }
    ensures anew { NotThrownAway }
{}
