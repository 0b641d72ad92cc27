// What a core holds.
ghost use Rattle.std.specs.Prelude.{◌≡◌, ◌≤◌, IfErr, IfOk, IsOk, ◌⊎◌, drop, Ok, Err, ◌∷◌, [], ◌++◌, map};
ghost use Rattle.std.specs.Prelude.{OnOk};
ghost use Rattle.rt_world.specs.Codes.{code_of, name_of};
ghost use Rattle.rt_world.specs.declared.error.CoreError.TheVariants.{NoMemory};
ghost use Rattle.rt_world.specs.World.{cover};
ghost use Rattle.rt_sync.specs.Core.{HasView, first_message, view_in};
ghost use Rattle.rt_sync.specs.inside.StateView.{world_of};
ghost use Rattle.rt_sync.specs.inside.States.{HoldsWell};
ghost use Rattle.rt_wire.specs.declared.limits.TheConstants.{VERSION};
ghost use Rattle.rt_world.specs.Messages.{request_message};
ghost use Rattle.rt_world.specs.laws.Made.{asked_sent};
ghost use Rattle.rt_sync.specs.inside.Parts.{changing, listens_shown, unlistens_of};
ghost use Rattle.rt_wire.specs.declared.client.ClientMessage.TheVariants as ClientMessage;

use rt_cache::Brought;
use rt_cover::{Cover, Delta, Kept, KeptList};
use rt_parts::{Listeners, Requests, ShownError};
use rt_query::Shown;
use rt_wire::{Asked, VERSION};
use rt_world::{ClientMessage, CoreError, Limits, Note, Report};
use std::alloc::{AllocError, Global};
use std::collections::VecDeque;
use std::marker::Model;
use thiserror::Error;

// Listeners and unsettled requests by number, what the listens brought, the listens kept, the
// messages to be sent, and the numbers given last. It has no model: a step that lacks memory leaves it
// as it may be, and nothing is said of it then.
#[derive(Drop)]
pub(crate) struct State {
    pub(crate) limits: Limits,
    pub(crate) listeners: Listeners,
    pub(crate) requests: Requests,
    pub(crate) brought: Brought,
    pub(crate) cover: Cover,
    pub(crate) is_connected: bool,
    pub(crate) outgoing: VecDeque<ClientMessage>,
    pub(crate) given_listeners: u64,
    pub(crate) given_requests: u64,
}

impl State {
    ghost use Rattle.rt_sync.specs.Core.{empty_held};
    ghost use Rattle.rt_sync.specs.inside.StateView.{held_of, world_of, IsTied};

    // No listener, no request, no connection.
    pub(crate) fn new(alloc: Global, limits: Limits) -> State
        ensures held { held_of result ≡ empty_held limits }
        ensures tied { IsTied result.cover (world_of result) }
    {
        let last_tag = limits.last_number;
        State {
            limits,
            listeners: Listeners::new(alloc),
            requests: Requests::new(alloc),
            brought: Brought::new(alloc),
            cover: Cover::new(alloc, last_tag),
            is_connected: false,
            outgoing: VecDeque::new(alloc),
            given_listeners: 0,
            given_requests: 0,
        }
    }

    // The allocator of its lists.
    pub(crate) fn alloc(&self) -> Global {
        *self.outgoing.allocator()
    }
}

// ---- what a step tells

// The number of the new listener or request, and what the seats are told.
#[derive(Drop)]
pub(crate) struct StepNews {
    pub(crate) given: Option<u64>,
    pub(crate) notes: Vec<Note>,
}

// ---- room for the answers of a run

/// Room for answers: what a run reserves before its first step.
#[derive(Drop)]
pub struct Room {
    pub(crate) items: Vec<Result<Report, CoreError>>,
}

impl Model for Room {
    ghost use Rattle.std.specs.Prelude.{◌≡◌, ℕ, [], vec_capacity};

    ghost Value = { ℕ };

    ghost view = { λ a. vec_capacity a.items };

    ghost invariant = { λ a. a.items.items ≡ [] };
}

/// That room for so many answers was refused. Nothing but [`Room::new`] makes one.
#[derive(Debug, Drop, Error)]
#[error("no room for the answers of {answers} steps")]
pub struct NoRoom {
    answers: usize,
}

impl Model for NoRoom {
    ghost use Rattle.std.specs.Prelude.{ℕ};

    ghost Value = { ℕ };

    ghost view = { λ a. a.answers };
}

impl NoRoom {
    /// For how many answers room was refused.
    pub fn answers(&self) -> usize
        ensures { result ≡ self.now }
    {
        self.answers
    }

    /// The number of the refusal: that of want of memory among a core's.
    pub fn code(&self) -> u8
        ensures { result ≡ code_of NoMemory }
    {
        CoreError::NoMemory.code()
    }

    /// The word of the refusal.
    pub fn name(&self) -> &'static str
        ensures { result.now ≡ name_of NoMemory }
    {
        CoreError::NoMemory.name()
    }
}

impl From<NoRoom> for AllocError {
    fn from(_error: NoRoom) -> AllocError {
        AllocError
    }
}

impl Room {
    /// Room for the answers to so many steps.
    ///
    /// # Errors
    ///
    /// Want of memory, where there is a step.
    pub fn new(alloc: Global, steps: usize) -> Result<Room, NoRoom>
        ensures room { IfOk result (λ room. steps ≤ room) }
        ensures refused { IfErr result (λ answers. answers ≡ steps) }
        ensures none { steps ≡ 0 → IsOk result }
    {
        match Vec::with_capacity(alloc, steps) {
            Ok(items) => Ok(Room { items }),
            Err(_) => Err(NoRoom { answers: steps }),
        }
    }
}

// ---- what a core shows of itself

impl State {
    ghost use Rattle.rt_world.specs.declared.error.CoreError.TheVariants as CoreError;

    // The kept listens, by tag.
    pub(crate) fn cover(&self) -> Result<KeptList, CoreError>
        requires { HoldsWell self.now }
        ensures { (result ≡ Ok (cover (world_of self.now))) ⊎ (result ≡ Err CoreError.NoMemory) }
    {
        match self.cover.open() {
            Ok(list) => Ok(list),
            Err(_) => Err(CoreError::NoMemory),
        }
    }

    // What the listener of that number shows.
    pub(crate) fn view(&self, listener: u64) -> Result<Option<Shown>, CoreError>
        ensures { (result ≡ view_in (world_of self.now) listener)
            ⊎ ((result ≡ Err CoreError.NoMemory) × HasView (world_of self.now) listener) }
    {
        match self.listeners.shown(listener) {
            Ok(shown) => Ok(shown),
            Err(ShownError::NoListener) => Err(CoreError::UnknownListener),
            Err(ShownError::NoMemory) => Err(CoreError::NoMemory),
        }
    }

    // Takes the first message out.
    pub(crate) fn take_outgoing(&mut self) -> Option<ClientMessage>
        ensures message { result ≡ first_message self.old.outgoing.items }
        ensures rest { self.new.outgoing.items ≡ drop 1 self.old.outgoing.items }
        ensures kept { self.new ≡ record (self.old) { outgoing = self.new.outgoing } }
    {
        self.outgoing.pop_front()
    }
}

// ---- the messages to be sent

// What a connection begins with: the version is told.
pub(crate) fn greeted(alloc: Global) -> Result<VecDeque<ClientMessage>, AllocError>
    ensures { IfOk result (λ outgoing. outgoing.items ≡ ClientMessage.Hello VERSION ∷ []) }
{
    let mut outgoing = VecDeque::new(alloc);
    outgoing.push_back(ClientMessage::Hello { version: VERSION })?;
    Ok(outgoing)
}

// Begins these listens.
pub(crate) fn send_listens(
    outgoing: &mut VecDeque<ClientMessage>,
    kept: Vec<Kept>,
) -> Result<(), AllocError>
    ensures { OnOk result (outgoing.new.items ≡ outgoing.old.items ++ listens_shown kept.items) }
{
    for listen in kept {
        let message = ClientMessage::Listen {
            tag: listen.tag,
            query: listen.query,
        };
        outgoing.push_back(message)?;
    }
    Ok(())
}

// Ends the listens with these tags.
fn send_unlistens(outgoing: &mut VecDeque<ClientMessage>, tags: &[u64]) -> Result<(), AllocError>
    ensures { OnOk result (outgoing.new.items ≡ outgoing.old.items ++ unlistens_of tags.now) }
{
    for tag in tags {
        outgoing.push_back(ClientMessage::Unlisten { tag: *tag })?;
    }
    Ok(())
}

// Begins and ends listens, while there is a connection.
pub(crate) fn send_change(
    outgoing: &mut VecDeque<ClientMessage>,
    is_connected: bool,
    delta: Delta,
) -> Result<(), AllocError>
    ensures { OnOk result (outgoing.new.items ≡ outgoing.old.items ++ changing is_connected delta) }
{
    if is_connected {
        send_listens(outgoing, delta.started.into_vec())?;
        send_unlistens(outgoing, delta.stopped.as_slice())?;
    }
    Ok(())
}

// Asks for the request of that number, while there is a connection.
pub(crate) fn send_asked(
    alloc: Global,
    outgoing: &mut VecDeque<ClientMessage>,
    is_connected: bool,
    id: u64,
    asked: &Asked,
) -> Result<(), AllocError>
    ensures { OnOk result
        (outgoing.new.items ≡ outgoing.old.items ++ asked_sent is_connected id asked.now) }
{
    if is_connected {
        let asked = asked.copy(alloc)?;
        outgoing.push_back(ClientMessage::Ask { id, asked })?;
    }
    Ok(())
}

// Asks for all unsettled requests.
pub(crate) fn send_requests(
    alloc: Global,
    outgoing: &mut VecDeque<ClientMessage>,
    requests: &Requests,
) -> Result<(), AllocError>
    ensures { OnOk result
        (outgoing.new.items ≡ outgoing.old.items ++ map request_message requests.now) }
{
    for request in requests.iter() {
        send_asked(alloc, outgoing, true, request.id, &request.asked)?;
    }
    Ok(())
}
