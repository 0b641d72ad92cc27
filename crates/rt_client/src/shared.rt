// What a client's lock keeps, and the steps on it.
ghost use Rattle.std.specs.Prelude.{◌≡◌, ◌↔◌, None, IsTrue, IfOk, IfErr, ◌<◌, ◌≤◌, ◌⊎◌, length, Some, OnOk};
ghost use Rattle.std.specs.Prelude.{OnErr, ◌≢◌};
ghost use Rattle.std.specs.Result.{result_err};
ghost use Rattle.std.specs.Str.{IsUtf8};
ghost use Rattle.rt_client.specs.Seats.{caller_of, closed_by};
ghost use Rattle.rt_client.specs.Opened.{new_locked, seats_from, OpensSeat, RefusesSeat};
ghost use Rattle.rt_client.specs.Calls.{HasFailed, Keeps, MakesOn, RefusesOn, MakesCall, RefusesCall};
ghost use Rattle.rt_client.specs.Calls.{handed_back, Numbers, Comes};
ghost use Rattle.rt_client.specs.declared.error.ClientError.TheVariants.{TooManySeats, NoMemory, Failed};
ghost use Rattle.rt_tree.specs.PathTree.{null};
ghost use Rattle.rt_push.specs.Digits.{number};
ghost use Rattle.rt_push.specs.PushIds.{push_fault, push_id, used};
ghost use Rattle.rt_wire.specs.declared.request.Action.TheVariants.{Put, Merge};
ghost use Rattle.rt_wire.specs.declared.request.Ending.TheVariants.{Run, Cancel};
ghost use Rattle.rt_client.specs.declared.shared.Done.{Done};
ghost use Rattle.rt_world.specs.Calls.{step_of_message};
ghost use Rattle.rt_client.specs.inside.Receipts.{gives_number};
ghost use Rattle.rt_client.specs.Settling.{Settles, RefusesSettle, Closes, RefusesClose, TakesMessage};
ghost use Rattle.rt_client.specs.Settling.{ShowsCover, RefusesCover};
ghost use Rattle.rt_client.specs.Viewing.{ShowsView, RefusesView};
ghost use Rattle.rt_world.specs.declared.step.Step.TheVariants as step;
ghost use Rattle.rt_world.specs.declared.step.Call.TheVariants as call;

use crate::error::ClientError;
use crate::held::Held;
use crate::lanes::Lanes;
use crate::laws::keeping_law;
use crate::seat::Seat;
use rt_cover::Kept;
use rt_mail::Inbox;
use rt_push::{PushError, PushIds};
use rt_query::{Query, Shown};
use rt_sync::Core;
use rt_tree::{Path, Tree};
use rt_wire::{Action, ServerMessage};
use rt_world::{Call, ClientMessage, Limits, Outcome, Step};
use std::alloc::{AllocError, Global};
use std::marker::Model;

/// What a client's lock keeps: its core, its push ids, a lane per open seat, and whether those who wait
/// were told to stop. Once a call has lacked memory the client has failed, and its calls answer nothing
/// else from then on.
pub struct Shared {
    pub(crate) alloc: Global,
    pub(crate) number: u64,
    pub(crate) ids: PushIds,
    pub(crate) held: Option<Held>,
    pub(crate) stopped: bool,
}

impl Drop for Shared {
    fn drop(self) {
        let Shared {
            alloc: _,
            number: _,
            ids: _,
            held: _,
            stopped: _,
        } = self;
    }
}

impl Model for Shared {
    ghost use Rattle.std.specs.Option.{IfSome};
    ghost use Rattle.rt_client.specs.Shared.{IsWhole};
    ghost use Rattle.rt_client.specs.Calls.{Locked};

    ghost Value = { Locked };

    ghost view = { λ a. record {
      number = a.number;
      ids = a.ids;
      held = a.held;
      stopped = a.stopped;
    } };

    ghost invariant = { λ a. IfSome a.held IsWhole };
}

impl Shared {
    // A client with so many open seats, whose core is new.
    #[tactic(auto, using(crate::proofs::Unknown::opened_is_whole))]
    pub(crate) fn new(
        alloc: Global,
        number: u64,
        seats: usize,
        limits: Limits,
    ) -> Result<Shared, AllocError>
        ensures { IfOk result (λ shared. shared ≡ new_locked number seats limits) }
    {
        // For the prover: what the lock keeps holds at first.
        keeping_law();
        let lanes = Lanes::open(alloc, seats)?;
        let core = Core::new(alloc, limits);
        Ok(Shared {
            alloc,
            number,
            ids: PushIds::new(),
            held: Some(Held { core, lanes }),
            stopped: false,
        })
    }

    /// Whether the client has lacked memory, and so answers nothing else from then on. Whoever has just
    /// locked a client learns here what the lock keeps; it takes no memory.
    pub fn has_failed(&self) -> bool
        ensures failed { IsTrue result ↔ HasFailed self.now }
        ensures kept { Keeps self.now }
    {
        self.held.is_none()
    }
}

/// Makes one step of the core that is neither a seat's call nor its end: each note waits in its seat's
/// lane, in order. A step that is refused changes nothing. A seat is ended by [`Shared::close_seat`],
/// which takes it.
///
/// # Errors
///
/// Failed, a refusal of the core, and NoMemory, after which the client has failed.
pub fn with_core(shared: &mut Shared, step: Step) -> Result<Done, ClientError>
    requires no_call { caller_of step ≡ None }
    requires no_end { closed_by step ≡ None }
    ensures made { IfOk result (λ done. MakesOn shared.old step done shared.new) }
    ensures refused { IfErr result (λ e. RefusesOn shared.old step e shared.new) }
{
    // For the prover: a step keeps what the lock keeps.
    keeping_law();
    let Some(held) = &mut shared.held else {
        drop(step);
        return Err(ClientError::Failed);
    };
    match held.after(step) {
        Ok(done) => Ok(done),
        Err(ClientError::NoMemory) => {
            drop(shared.held.take());
            Err(ClientError::NoMemory)
        }
        Err(ClientError::Core(refused)) => Err(ClientError::Core(refused)),
        Err(
            ClientError::Failed
            | ClientError::WrongSeat
            | ClientError::MailboxFull
            | ClientError::TooManySeats,
        ) => unreachable!(),
    }
}

/// A call that was refused: the call, where it was not looked at, and why.
#[derive(Drop)]
pub struct Uncalled {
    /// Handed back where the client has failed, the seat is wrong or its mailbox is full.
    pub call: Option<Call>,
    pub why: ClientError,
}

/// Makes the step of the core that a seat's call is: the ring gets all that waited and then the
/// receipt, and each note waits in its seat's lane, in order. A call that is refused changes nothing.
/// One that found a full mailbox is handed back, to be made again once the seat has taken its items.
///
/// # Errors
///
/// Failed, WrongSeat, MailboxFull, a refusal of the core, and NoMemory, after which the client has
/// failed; the ring keeps what it holds.
pub fn try_call(shared: &mut Shared, seat: &mut Seat, call: Call) -> Result<Done, Uncalled>
    ensures made { IfOk result (λ done. MakesCall shared.old seat.old call done shared.new seat.new) }
    ensures refused { IfErr result (λ u.
        RefusesCall shared.old seat.old call u.why shared.new seat.new) }
    ensures back { IfErr result (λ u. u.call ≡ handed_back u.why call) }
{
    // For the prover: a step keeps what the lock keeps.
    keeping_law();
    let alloc = shared.alloc;
    let Some(held) = &mut shared.held else {
        let (call, why) = (Some(call), ClientError::Failed);
        return Err(Uncalled { call, why });
    };
    if seat.client != shared.number || !held.lanes.has_lane(seat.number) {
        let (call, why) = (Some(call), ClientError::WrongSeat);
        return Err(Uncalled { call, why });
    }
    if !held.lanes.has_room(seat.number, &seat.inbox) {
        let (call, why) = (Some(call), ClientError::MailboxFull);
        return Err(Uncalled { call, why });
    }
    let done = match held.called(alloc, seat.number, &mut seat.inbox, call) {
        Ok(done) => done,
        Err(ClientError::NoMemory) => {
            drop(shared.held.take());
            let (call, why) = (None, ClientError::NoMemory);
            return Err(Uncalled { call, why });
        }
        Err(ClientError::Core(refused)) => {
            let (call, why) = (None, ClientError::Core(refused));
            return Err(Uncalled { call, why });
        }
        Err(
            ClientError::Failed
            | ClientError::WrongSeat
            | ClientError::MailboxFull
            | ClientError::TooManySeats,
        ) => unreachable!(),
    };
    Ok(done)
}

/// Makes a seat's call as [`try_call`] does, and drops it on a refusal.
///
/// # Errors
///
/// As of [`try_call`].
pub fn with_seat(shared: &mut Shared, seat: &mut Seat, call: Call) -> Result<Done, ClientError>
    ensures made { IfOk result (λ done. MakesCall shared.old seat.old call done shared.new seat.new) }
    ensures refused { IfErr result (λ e. RefusesCall shared.old seat.old call e shared.new seat.new) }
{
    match try_call(shared, seat, call) {
        Ok(made) => Ok(made),
        Err(Uncalled { call, why }) => {
            drop(call);
            Err(why)
        }
    }
}

// ---- what a step that is made answers

/// What a step that is made answers: whether it is done or stale, and the number of the new listener
/// or request.
#[derive(Clone, Copy, Debug, PartialEq, Eq)]
pub struct Done {
    pub outcome: Outcome,
    pub given: Option<u64>,
}

// ---- a client's locked value as it is opened, and its seats

/// The most seats that a client has open.
pub const MAX_SEATS: usize = 64;

// A seat for each capacity, with numbers from 1.
fn new_seats(alloc: Global, client: u64, capacities: &[usize]) -> Result<Vec<Seat>, AllocError>
    requires { length capacities.now ≤ 64 }
    ensures { IfOk result (λ seats. seats.items ≡ seats_from client 1 capacities.now) }
{
    let mut seats = Vec::with_capacity(alloc, capacities.len())?;
    let mut number = 1u64;
    for capacity in capacities {
        let inbox = Inbox::new(alloc, *capacity)?;
        seats.push_reserved(Seat {
            client,
            number,
            inbox,
        });
        number += 1;
    }
    Ok(seats)
}

impl Shared {
    /// What the lock of a new client of that number keeps, and a seat for each capacity of a ring: the
    /// first has the number 1. Of a capacity a 0 counts as 1, and more than 65,536 as that.
    ///
    /// # Errors
    ///
    /// TooManySeats above [`MAX_SEATS`], and NoMemory.
    pub fn open(
        alloc: Global,
        number: u64,
        capacities: &[usize],
        limits: Limits,
    ) -> Result<(Shared, Vec<Seat>), ClientError>
        ensures few { IfOk result (λ opened. length capacities.now ≤ 64) }
        ensures locked { IfOk result (λ opened.
            opened.0 ≡ new_locked number (length capacities.now) limits) }
        ensures seats { IfOk result (λ opened. opened.1.items ≡ seats_from number 1 capacities.now) }
        ensures refused { IfErr result (λ e. ((e ≡ TooManySeats) × (64 < length capacities.now))
            ⊎ (e ≡ NoMemory)) }
    {
        if capacities.len() > MAX_SEATS {
            return Err(ClientError::TooManySeats);
        }
        let seats = new_seats(alloc, number, capacities)?;
        let shared = Shared::new(alloc, number, capacities.len(), limits)?;
        Ok((shared, seats))
    }
}

impl Shared {
    /// Opens one more seat, with a ring of that capacity, of which a 0 counts as 1, and more than 65,536
    /// as that. It gets the first number from 1 whose seat is not open, also that of a seat that was
    /// closed. Makes no step.
    ///
    /// # Errors
    ///
    /// Failed; TooManySeats where [`MAX_SEATS`] are open; and NoMemory, after which the client goes on. A
    /// refusal changes nothing.
    pub fn open_seat(&mut self, capacity: usize) -> Result<Seat, ClientError>
        ensures opened { IfOk result (λ seat. OpensSeat self.old capacity self.new seat) }
        ensures refused { IfErr result (λ e. RefusesSeat self.old e) }
        ensures unchanged { IfErr result (λ _. self.new ≡ self.old) }
    {
        // For the prover: what the lock keeps is kept.
        keeping_law();
        let (alloc, client) = (self.alloc, self.number);
        let Some(held) = &mut self.held else {
            return Err(ClientError::Failed);
        };
        let place = held.lanes.free_place();
        if place >= MAX_SEATS {
            return Err(ClientError::TooManySeats);
        }
        let inbox = Inbox::new(alloc, capacity)?;
        held.lanes.open_at(alloc, place)?;
        let number = place as u64 + 1;
        Ok(Seat {
            client,
            number,
            inbox,
        })
    }
}

// ---- the calls on a client's locked value

// A call whose step makes a listener or a request: the number that it is given.
#[tactic(auto, using(crate::proofs::Seated::number_there))]
fn number_of(shared: &mut Shared, seat: &mut Seat, call: Call) -> Result<u64, ClientError>
    requires { IsTrue (gives_number call) }
    ensures made { IfOk result (λ n. Numbers shared.old seat.old call n shared.new seat.new) }
    ensures refused { IfErr result (λ e. RefusesCall shared.old seat.old call e shared.new seat.new) }
{
    let done = with_seat(shared, seat, call)?;
    match done.given {
        Some(number) => Ok(number),
        None => unreachable!(),
    }
}

// A step that is neither a seat's call nor its end: its outcome.
fn outcome_of(shared: &mut Shared, step: Step) -> Result<Outcome, ClientError>
    requires no_call { caller_of step ≡ None }
    requires no_end { closed_by step ≡ None }
    ensures made { IfOk result (λ outcome. Comes shared.old step outcome shared.new) }
    ensures refused { IfErr result (λ e. RefusesOn shared.old step e shared.new) }
{
    let done = with_core(shared, step)?;
    Ok(done.outcome)
}

/// The calls of threads, each on its own seat. Each makes one step, as [`with_seat`] does, and is
/// refused as it is; a new listener or request is answered by its number.
impl Shared {
    /// Registers a listener, which the seat is told of from then on.
    pub fn listen(&mut self, seat: &mut Seat, query: Query) -> Result<u64, ClientError>
        ensures made { IfOk result (λ n. Numbers self.old seat.old (call.Listen query) n self.new seat.new) }
        ensures refused { IfErr result (λ e.
            RefusesCall self.old seat.old (call.Listen query) e self.new seat.new) }
    {
        number_of(self, seat, Call::listen(query))
    }

    /// Ends a listener of the seat.
    pub fn unlisten(&mut self, seat: &mut Seat, listener: u64) -> Result<(), ClientError>
        ensures made { OnOk result ((done : Done)
            × MakesCall self.old seat.old (call.Unlisten listener) done self.new seat.new) }
        ensures refused { IfErr result (λ e.
            RefusesCall self.old seat.old (call.Unlisten listener) e self.new seat.new) }
    {
        with_seat(self, seat, Call::unlisten(listener))?;
        Ok(())
    }

    /// Sets a tree at a path; null removes.
    pub fn set(&mut self, seat: &mut Seat, path: Path, tree: Tree) -> Result<u64, ClientError>
        ensures made { IfOk result (λ n.
            Numbers self.old seat.old (call.Write (Put path tree)) n self.new seat.new) }
        ensures refused { IfErr result (λ e.
            RefusesCall self.old seat.old (call.Write (Put path tree)) e self.new seat.new) }
    {
        number_of(self, seat, Call::set(path, tree))
    }

    /// Sets several trees, each at its path, in one write.
    pub fn update(
        &mut self,
        seat: &mut Seat,
        entries: Vec<(Path, Tree)>,
    ) -> Result<u64, ClientError>
        ensures made { IfOk result (λ n.
            Numbers self.old seat.old (call.Write (Merge entries.items)) n self.new seat.new) }
        ensures refused { IfErr result (λ e.
            RefusesCall self.old seat.old (call.Write (Merge entries.items)) e self.new seat.new) }
    {
        number_of(self, seat, Call::update(entries))
    }

    /// Removes what is at a path: sets null there.
    pub fn remove(&mut self, seat: &mut Seat, path: Path) -> Result<u64, ClientError>
        ensures made { IfOk result (λ n.
            Numbers self.old seat.old (call.Write (Put path null)) n self.new seat.new) }
        ensures refused { IfErr result (λ e.
            RefusesCall self.old seat.old (call.Write (Put path null)) e self.new seat.new) }
    {
        number_of(self, seat, Call::remove(path))
    }

    /// Asks the server for a write, which it makes when the connection ends.
    pub fn on_disconnect(&mut self, seat: &mut Seat, action: Action) -> Result<u64, ClientError>
        ensures made { IfOk result (λ n.
            Numbers self.old seat.old (call.OnDisconnect (Run action)) n self.new seat.new) }
        ensures refused { IfErr result (λ e.
            RefusesCall self.old seat.old (call.OnDisconnect (Run action)) e self.new seat.new) }
    {
        number_of(self, seat, Call::on_disconnect(action))
    }

    /// Drops what was to be written at and below a path when the connection ends.
    pub fn cancel_disconnect(&mut self, seat: &mut Seat, path: Path) -> Result<u64, ClientError>
        ensures made { IfOk result (λ n.
            Numbers self.old seat.old (call.OnDisconnect (Cancel path)) n self.new seat.new) }
        ensures refused { IfErr result (λ e.
            RefusesCall self.old seat.old (call.OnDisconnect (Cancel path)) e self.new seat.new) }
    {
        number_of(self, seat, Call::cancel_disconnect(path))
    }
}

/// The calls of whoever holds the connection. Each makes one step, as [`with_core`] does, and is
/// refused as it is.
impl Shared {
    /// Takes a message of the server.
    #[tactic(auto, using(crate::proofs::Seated::no_seats, crate::proofs::Seated::no_ends))]
    pub fn server_message(&mut self, message: ServerMessage) -> Result<Outcome, ClientError>
        ensures made { IfOk result (λ outcome.
            Comes self.old (step_of_message message) outcome self.new) }
        ensures refused { IfErr result (λ e. RefusesOn self.old (step_of_message message) e self.new) }
    {
        outcome_of(self, Step::from(message))
    }

    /// A connection is opened.
    pub fn connected(&mut self) -> Result<Outcome, ClientError>
        ensures made { IfOk result (λ outcome. Comes self.old step.Connected outcome self.new) }
        ensures refused { IfErr result (λ e. RefusesOn self.old step.Connected e self.new) }
    {
        outcome_of(self, Step::Connected)
    }

    /// The connection ends.
    pub fn disconnected(&mut self) -> Result<Outcome, ClientError>
        ensures made { IfOk result (λ outcome. Comes self.old step.Disconnected outcome self.new) }
        ensures refused { IfErr result (λ e. RefusesOn self.old step.Disconnected e self.new) }
    {
        outcome_of(self, Step::Disconnected)
    }
}

impl Shared {
    /// The next push id, for the moment now in milliseconds since 1970 and twelve random digits, each
    /// from 0 to 63. Makes no step, and is answered also once the client has failed.
    ///
    /// # Errors
    ///
    /// As of `PushIds::next` of `rt_push`. A refusal changes nothing.
    pub fn push_key(&mut self, now_ms: u64, random: [u8; 12]) -> Result<[u8; 20], PushError>
        ensures fault { result_err result ≡ push_fault self.old.ids now_ms random }
        ensures id { IfOk result (λ id. id ≡ push_id (used self.old.ids now_ms (number random))) }
        ensures text { IfOk result IsUtf8 }
        ensures used { OnOk result (self.new ≡ record (self.old) {
          ids = Some (used self.old.ids now_ms (number random));
        }) }
        ensures unchanged { OnErr result (self.new ≡ self.old) }
    {
        self.ids.next(now_ms, random)
    }
}

// ---- what a client's locked value hands over and shows, and the end of a seat

/// A seat that was not closed, handed back as it was, and why.
#[derive(Drop)]
pub struct Unclosed {
    pub seat: Seat,
    pub why: ClientError,
}

impl Shared {
    /// Takes out the first message that is to be sent; none where nothing is to be sent.
    ///
    /// # Errors
    ///
    /// Failed.
    pub fn take_outgoing(&mut self) -> Result<Option<ClientMessage>, ClientError>
        ensures taken { IfOk result (λ message. TakesMessage self.old message self.new) }
        ensures refused { IfErr result (λ e. (e ≡ Failed) × HasFailed self.old × (self.new ≡ self.old)) }
    {
        // For the prover: what the lock keeps is kept.
        keeping_law();
        let Some(held) = &mut self.held else {
            return Err(ClientError::Failed);
        };
        Ok(held.take_outgoing())
    }

    /// The listens that are kept, by tag, each with the least-numbered listener of its form.
    ///
    /// # Errors
    ///
    /// Failed, and NoMemory, after which the client goes on.
    pub fn cover(&self) -> Result<Vec<Kept>, ClientError>
        ensures shown { IfOk result (λ kept. ShowsCover self.now kept.items) }
        ensures refused { IfErr result (λ e. RefusesCover self.now e) }
    {
        let Some(held) = &self.held else {
            return Err(ClientError::Failed);
        };
        match held.cover() {
            Ok(kept) => Ok(kept),
            Err(_refused) => Err(ClientError::NoMemory),
        }
    }

    /// What a listener shows: the view that the core has, whose trees are shared. None where nothing is
    /// known of its path yet.
    ///
    /// # Errors
    ///
    /// Failed; the core's UnknownListener, where no listener has that number; and NoMemory, after which
    /// the client goes on.
    #[tactic(auto, using(crate::proofs::Viewed::refuses_view))]
    pub fn view(&self, listener: u64) -> Result<Option<Shown>, ClientError>
        ensures shown { IfOk result (λ shown. ShowsView self.now listener shown) }
        ensures refused { IfErr result (λ e. RefusesView self.now listener e) }
    {
        let Some(held) = &self.held else {
            return Err(ClientError::Failed);
        };
        held.view(listener)
    }

    /// Hands over to the seat's ring what waits for it, in order, as long as there is room. Makes no
    /// step.
    ///
    /// # Errors
    ///
    /// Failed and WrongSeat. It takes no memory.
    pub fn settle(&mut self, seat: &mut Seat) -> Result<(), ClientError>
        ensures settled { OnOk result (Settles self.old seat.old self.new seat.new) }
        ensures refused { IfErr result (λ e. RefusesSettle self.old seat.old e self.new seat.new) }
        ensures memory { IfErr result (λ e. e ≢ NoMemory) }
    {
        // For the prover: what the lock keeps is kept.
        keeping_law();
        let Some(held) = &mut self.held else {
            return Err(ClientError::Failed);
        };
        if seat.client != self.number || !held.lanes.has_lane(seat.number) {
            return Err(ClientError::WrongSeat);
        }
        held.settle(seat.number, &mut seat.inbox);
        Ok(())
    }

    /// Ends the seat: its listeners end, its requests stay, and what waits for it is dropped.
    ///
    /// # Errors
    ///
    /// Failed, WrongSeat, a refusal of the core, and NoMemory, after which the client has failed; the
    /// seat is handed back.
    pub fn close_seat(&mut self, seat: Seat) -> Result<(), Unclosed>
        ensures closed { OnOk result (Closes self.old seat self.new) }
        ensures back { IfErr result (λ refused. refused.seat ≡ seat) }
        ensures refused { IfErr result (λ refused. RefusesClose self.old seat refused.why self.new) }
    {
        // For the prover: a step keeps what the lock keeps.
        keeping_law();
        let Some(held) = &mut self.held else {
            let why = ClientError::Failed;
            return Err(Unclosed { seat, why });
        };
        if seat.client != self.number || !held.lanes.has_lane(seat.number) {
            let why = ClientError::WrongSeat;
            return Err(Unclosed { seat, why });
        }
        match held.close(seat.number) {
            Ok(_done) => {
                drop(seat);
                Ok(())
            }
            Err(ClientError::NoMemory) => {
                drop(self.held.take());
                let why = ClientError::NoMemory;
                Err(Unclosed { seat, why })
            }
            Err(ClientError::Core(refused)) => {
                let why = ClientError::Core(refused);
                Err(Unclosed { seat, why })
            }
            Err(
                ClientError::Failed
                | ClientError::WrongSeat
                | ClientError::MailboxFull
                | ClientError::TooManySeats,
            ) => unreachable!(),
        }
    }
}
