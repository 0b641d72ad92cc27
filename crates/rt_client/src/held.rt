// What a client holds as long as it has not failed.
ghost use Rattle.std.specs.Prelude.{◌≡◌, Some, None, IfOk, OnOk, IfErr, IsTrue, is_some};
ghost use Rattle.std.specs.Option.{option_map_or};
ghost use Rattle.rt_world.specs.World.{World};
ghost use Rattle.rt_client.specs.Seats.{caller_of, closed_by, receipt_with};
ghost use Rattle.rt_client.specs.Lanes.{lane_of, HasRoom, signed_ring};
ghost use Rattle.rt_client.specs.inside.Receipts.{AreSigned};
ghost use Rattle.rt_world.specs.Calls.{step_of};
ghost use Rattle.rt_client.specs.Calls.{Made, Refuses, Called, RefusesCalled};
ghost use Rattle.rt_client.specs.Settling.{HandsDue, TakesFirst, HasCover};
ghost use Rattle.rt_client.specs.Viewing.{HasShown, RefusesShown};
ghost use Rattle.rt_world.specs.declared.step.Step.TheVariants as step;

use crate::error::ClientError;
use crate::lanes::Lanes;
use crate::shared::Done;
use rt_cover::Kept;
use rt_mail::{Inbox, Receipt};
use rt_query::Shown;
use rt_sync::Core;
use rt_world::{Call, ClientMessage, Notes, Report, Step};
use std::alloc::{AllocError, Global};
use std::marker::Model;

// The receipt of the call, to which its step gave that number.
pub(crate) fn receipt_of(call: Call, number: u64) -> Receipt
    ensures { result ≡ receipt_with number call }
{
    match call {
        Call::Listen { query } => Receipt::Listened {
            listener: number,
            query,
        },
        Call::Unlisten { listener } => Receipt::Unlistened { listener },
        Call::Write { action } => Receipt::Wrote {
            id: number,
            what: action,
        },
        Call::OnDisconnect { ending } => Receipt::Asked {
            id: number,
            what: ending,
        },
    }
}

// The core, and a lane per open seat.
pub(crate) struct Held {
    pub(crate) core: Core,
    pub(crate) lanes: Lanes,
}

impl Drop for Held {
    fn drop(self) {
        let Held { core: _, lanes: _ } = self;
    }
}

impl Model for Held {
    ghost use Rattle.rt_sync.specs.Core.{world_in};
    ghost use Rattle.rt_client.specs.Shared.{Held};

    ghost Value = { Held };

    ghost view = { λ a. record { core = world_in a.core; lanes = a.lanes } };
}

// The seat's lane hands over all that waits and then the receipt, which is never refused, and each note
// waits in its seat's lane, in order. No open lane has failed, so want of memory is all that can be
// answered.
fn tell(
    lanes: &mut Lanes,
    seat: u64,
    inbox: &mut Inbox,
    receipt: Receipt,
    notes: Notes,
) -> Result<(), AllocError>
    requires { HasRoom inbox.old (lane_of lanes.old seat) }
    ensures lanes { OnOk result (AreSigned seat receipt notes lanes.old lanes.new) }
    ensures ring { inbox.new
        ≡ option_map_or (signed_ring receipt inbox.old) (lane_of lanes.old seat) inbox.old }
{
    lanes.sign(seat, inbox, receipt);
    match lanes.queue_all(notes) {
        Ok(()) => Ok(()),
        Err(_why) => Err(AllocError),
    }
}

impl Held {
    // One step of the core that is neither a seat's call nor its end: its notes wait in their lanes. After
    // want of memory what is held is given up.
    pub(crate) fn after(&mut self, step: Step) -> Result<Done, ClientError>
        requires world { (w : World) × (self.old.core ≡ Some w) }
        requires no_call { caller_of step ≡ None }
        requires no_end { closed_by step ≡ None }
        ensures made { IfOk result (λ done. Made self.old step done self.new) }
        ensures refused { IfErr result (λ e. Refuses self.old step e self.new) }
    {
        match self.core.apply(step) {
            Ok(
                Report {
                    outcome,
                    given,
                    notes,
                },
            ) => {
                // No open lane has failed, so want of memory is all that can be answered.
                if self.lanes.queue_all(notes).is_err() {
                    return Err(ClientError::NoMemory);
                }
                Ok(Done { outcome, given })
            }
            Err(error) => Err(ClientError::from(error)),
        }
    }

    // The step that the end of a seat is: its notes wait in their lanes, and its own lane goes. After want of
    // memory what is held is given up.
    pub(crate) fn close(&mut self, seat: u64) -> Result<Done, ClientError>
        requires world { (w : World) × (self.old.core ≡ Some w) }
        ensures made { IfOk result (λ done. Made self.old (step.CloseSeat seat) done self.new) }
        ensures refused { IfErr result (λ e. Refuses self.old (step.CloseSeat seat) e self.new) }
    {
        match self.core.apply(Step::CloseSeat { seat }) {
            Ok(
                Report {
                    outcome,
                    given,
                    notes,
                },
            ) => {
                // No open lane has failed, so want of memory is all that can be answered.
                if self.lanes.queue_all(notes).is_err() {
                    return Err(ClientError::NoMemory);
                }
                self.lanes.close(seat);
                Ok(Done { outcome, given })
            }
            Err(error) => Err(ClientError::from(error)),
        }
    }

    // Why a call is refused for whose copy memory lacks: what the core refuses is refused so also then.
    fn why_uncopied(&self, seat: u64, call: Call) -> ClientError
        requires { (w : World) × (self.now.core ≡ Some w) }
        ensures { Refuses self.now (step_of seat call) result self.now }
    {
        let step = call.into_step(seat);
        let refusal = self.core.refusal(&step);
        drop(step);
        match refusal {
            Some(error) => ClientError::from(error),
            None => ClientError::NoMemory,
        }
    }

    // One step of the core that is an open seat's call: all that waited in its lane is handed over, and
    // then the receipt, and the step's notes wait in their lanes. After want of memory what is held
    // is given up.
    pub(crate) fn called(
        &mut self,
        alloc: Global,
        seat: u64,
        inbox: &mut Inbox,
        call: Call,
    ) -> Result<Done, ClientError>
        requires world { (w : World) × (self.old.core ≡ Some w) }
        requires room { HasRoom inbox.old (lane_of self.old.lanes seat) }
        ensures made { IfOk result (λ done. Called self.old seat inbox.old call done self.new inbox.new) }
        ensures refused { IfErr result (λ e.
            RefusesCalled self.old seat inbox.old call e self.new inbox.new) }
    {
        let Ok(step) = call.step(alloc, seat) else {
            return Err(self.why_uncopied(seat, call));
        };
        match self.core.apply(step) {
            Ok(
                Report {
                    outcome,
                    given,
                    notes,
                },
            ) => {
                // The end of a listener is given no number.
                let receipt = receipt_of(call, given.unwrap_or(0));
                tell(&mut self.lanes, seat, inbox, receipt, notes)?;
                Ok(Done { outcome, given })
            }
            Err(error) => {
                drop(call);
                Err(ClientError::from(error))
            }
        }
    }

    // The seat's lane hands over what its ring has room for, which is never refused.
    pub(crate) fn settle(&mut self, seat: u64, inbox: &mut Inbox)
        requires { IsTrue (is_some (lane_of self.old.lanes seat)) }
        ensures { HandsDue self.old seat inbox.old self.new inbox.new }
    {
        self.lanes.settle(seat, inbox);
    }

    // Takes out the first message that is to be sent.
    pub(crate) fn take_outgoing(&mut self) -> Option<ClientMessage>
        requires { (w : World) × (self.old.core ≡ Some w) }
        ensures { TakesFirst self.old result self.new }
    {
        self.core.take_outgoing()
    }

    // The listens that are kept, by tag. The core has not failed, so want of memory is all that can be
    // answered.
    pub(crate) fn cover(&self) -> Result<Vec<Kept>, AllocError>
        requires { (w : World) × (self.now.core ≡ Some w) }
        ensures { IfOk result (λ kept. HasCover self.now kept.items) }
    {
        match self.core.cover() {
            Ok(kept) => Ok(kept.into_vec()),
            Err(_why) => Err(AllocError),
        }
    }

    // What a listener shows, if it is primed.
    #[tactic(auto, using(crate::proofs::Viewed::has_shown, crate::proofs::Viewed::shows_none))]
    pub(crate) fn view(&self, listener: u64) -> Result<Option<Shown>, ClientError>
        requires { (w : World) × (self.now.core ≡ Some w) }
        ensures shown { IfOk result (λ shown. HasShown self.now listener shown) }
        ensures refused { IfErr result (λ e. RefusesShown self.now listener e) }
    {
        match self.core.view(listener) {
            Ok(shown) => Ok(shown),
            Err(error) => Err(ClientError::from(error)),
        }
    }
}
