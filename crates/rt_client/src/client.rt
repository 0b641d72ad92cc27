// A client.
ghost use Rattle.std.specs.Prelude.{◌≡◌, ◌<◌, ◌≤◌, ◌⊎◌, IfOk, IfErr, length, ◌+◌, OnOk, ◌≢◌, ◌||◌, Ok, None};
ghost use Rattle.std.specs.Prelude.{true, IfSome};
ghost use Rattle.std.specs.Sync.Mutex.{mutex_guard_value};
ghost use Rattle.rt_client.specs.Opened.{new_locked, seats_from};
ghost use Rattle.rt_client.specs.declared.error.ClientError.TheVariants.{TooManySeats, NoMemory, Failed};
ghost use Rattle.rt_tree.specs.PathTree.{null};
ghost use Rattle.rt_wire.specs.declared.request.Action.TheVariants.{Put, Merge};
ghost use Rattle.rt_wire.specs.declared.request.Ending.TheVariants.{Run, Cancel};
ghost use Rattle.rt_world.specs.Calls.{step_of_message};
ghost use Rattle.rt_client.specs.Calls.{Keeps, handed_back};
ghost use Rattle.rt_client.specs.Waiting.{IsNumbered, IsMade, IsDone, IsUnmade, IsOpened, IsUnopened};
ghost use Rattle.rt_client.specs.Waiting.{IsClosed, IsUnclosed, HasOutcome, HasRefusal, is_due, IsSettled};
ghost use Rattle.rt_client.specs.Waiting.{IsUnsettled, Awaits, FindsMessage, IsFound, IsSent, has_none};
ghost use Rattle.rt_client.specs.Delivery.{RefusesTurn};
ghost use Rattle.rt_world.specs.declared.step.Call.TheVariants as call;
ghost use Rattle.rt_world.specs.declared.step.Step.TheVariants as step;

use crate::error::ClientError;
use crate::seat::Seat;
use crate::shared::{Done, Shared, Uncalled, Unclosed, try_call};
use rt_query::Query;
use rt_tree::{Path, Tree};
use rt_wire::{Action, ServerMessage};
use rt_world::{Call, ClientMessage, Limits, Outcome};
use std::alloc::Global;
use std::marker::Model;
use std::snapshot::Snapshot;
use std::sync::atomic::{AtomicU64, Ordering};
use std::sync::{Condvar, Mutex, MutexGuard, Wait};

/// A client, which threads share by reference; each has a seat of its own. Its calls lock it; whoever
/// locks it by itself lets go by [`Client::notify`] where others may wait for what was done.
pub struct Client {
    pub shared: Mutex<Shared>,
    /// What the lock kept first, which clauses alone read: it takes no memory.
    pub first: Snapshot<Shared>,
    // How often somebody was to be woken, which changes while the lock is held alone.
    pub(crate) notices: AtomicU64,
    pub(crate) news: Condvar,
}

impl Drop for Client {
    fn drop(self) {
        let Client {
            shared: _,
            first: _,
            notices: _,
            news: _,
        } = self;
    }
}

impl Client {
    // A client whose lock keeps that value first.
    fn around(shared: Shared) -> Client
        ensures { result.first.value ≡ shared }
    {
        let first = Snapshot::of(&shared);
        Client {
            shared: Mutex::new(shared),
            first,
            notices: AtomicU64::new(0),
            news: Condvar::new(),
        }
    }

    /// A client of that number, and a seat for each capacity of a ring: the first has the number 1.
    /// Of a capacity a 0 counts as 1, and more than 65,536 as that. A program keeps the numbers of
    /// its clients apart. What the lock keeps first is a new core of these limits, as of
    /// [`Shared::open`].
    ///
    /// # Errors
    ///
    /// TooManySeats above [`MAX_SEATS`](crate::MAX_SEATS), and NoMemory.
    pub fn open(
        alloc: Global,
        number: u64,
        capacities: &[usize],
        limits: Limits,
    ) -> Result<(Client, Vec<Seat>), ClientError>
        ensures few { IfOk result (λ opened. length capacities.now ≤ 64) }
        ensures locked { IfOk result (λ opened.
            opened.0.first.value ≡ new_locked number (length capacities.now) limits) }
        ensures seats { IfOk result (λ opened. opened.1.items ≡ seats_from number 1 capacities.now) }
        ensures refused { IfErr result (λ e. ((e ≡ TooManySeats) × (64 < length capacities.now))
            ⊎ (e ≡ NoMemory)) }
    {
        let (shared, seats) = Shared::open(alloc, number, capacities, limits)?;
        Ok((Client::around(shared), seats))
    }
}

// ---- clients whose numbers a counter gives out

/// Gives each client that it opens a number of its own: no two of them take each other's seats.
pub struct ClientNumbers {
    given: u64,
}

impl Drop for ClientNumbers {
    fn drop(self) {
        let ClientNumbers { given: _ } = self;
    }
}

impl Model for ClientNumbers {
    ghost use Rattle.std.specs.Prelude.{ℕ};

    ghost Value = { ℕ };

    ghost view = { λ a. a.given };
}

impl ClientNumbers {
    /// None is given out.
    pub fn new() -> ClientNumbers
        ensures { result ≡ 0 }
    {
        ClientNumbers { given: 0 }
    }

    /// A client of the next number, from 1, and its seats, as of [`Client::open`].
    ///
    /// # Errors
    ///
    /// TooManySeats above [`MAX_SEATS`](crate::MAX_SEATS), and where all numbers are given out; and
    /// NoMemory. After a refusal the number is still to be given out.
    pub fn open(
        &mut self,
        alloc: Global,
        capacities: &[usize],
        limits: Limits,
    ) -> Result<(Client, Vec<Seat>), ClientError>
        ensures few { IfOk result (λ opened. length capacities.now ≤ 64) }
        ensures given { OnOk result (self.new ≡ self.old + 1) }
        ensures locked { IfOk result (λ opened.
            opened.0.first.value ≡ new_locked self.new (length capacities.now) limits) }
        ensures seats { IfOk result (λ opened. opened.1.items ≡ seats_from self.new 1 capacities.now) }
        ensures refused { IfErr result (λ e. ((e ≡ TooManySeats)
            × ((64 < length capacities.now) ⊎ (self.old ≡ 18446744073709551615))) ⊎ (e ≡ NoMemory)) }
        ensures unchanged { IfErr result (λ _. self.new ≡ self.old) }
    {
        let Some(number) = self.given.checked_add(1) else {
            return Err(ClientError::TooManySeats);
        };
        let opened = Client::open(alloc, number, capacities, limits)?;
        self.given = number;
        Ok(opened)
    }
}

// ---- calls that lock the client themselves, and wake whoever waits

// Lets the lock go: of the value that it takes back holds what it keeps.
pub(crate) fn let_go(shared: MutexGuard<'_, Shared>)
    ensures { Keeps (mutex_guard_value shared.entry) }
{
    // For the prover: what the lock keeps.
    let _has_failed = shared.has_failed();
    drop(shared);
}

impl Client {
    // Locks the client: of the value that the guard gives holds what the lock keeps.
    pub(crate) fn locked<'a, R: Wait>(&'a self, rt: &R) -> MutexGuard<'a, Shared>
        ensures { Keeps (mutex_guard_value result) }
    {
        let shared = self.shared.lock(rt);
        // For the prover: what the lock keeps.
        let _has_failed = shared.has_failed();
        shared
    }
}

/// Each makes the call of [`Shared`](crate::Shared) that has its name, under the client's lock, and then
/// wakes whoever waits. It is refused as that is.
impl Client {
    /// Registers a listener, which the seat is told of from then on.
    pub fn listen<R: Wait>(&self, rt: &R, seat: &mut Seat, query: Query) -> Result<u64, ClientError>
        ensures made { IfOk result (λ n. IsNumbered seat.old (call.Listen query) n seat.new) }
        ensures refused { IfErr result (λ e. IsUnmade seat.old (call.Listen query) e seat.new) }
    {
        let mut shared = self.locked(rt);
        let answer = shared.listen(seat, query);
        self.notify(shared);
        answer
    }

    /// Ends a listener of the seat.
    pub fn unlisten<R: Wait>(
        &self,
        rt: &R,
        seat: &mut Seat,
        listener: u64,
    ) -> Result<(), ClientError>
        ensures made { OnOk result (IsMade seat.old (call.Unlisten listener) seat.new) }
        ensures refused { IfErr result (λ e. IsUnmade seat.old (call.Unlisten listener) e seat.new) }
    {
        let mut shared = self.locked(rt);
        let answer = shared.unlisten(seat, listener);
        self.notify(shared);
        answer
    }

    /// Sets a tree at a path; null removes.
    pub fn set<R: Wait>(
        &self,
        rt: &R,
        seat: &mut Seat,
        path: Path,
        tree: Tree,
    ) -> Result<u64, ClientError>
        ensures made { IfOk result (λ n. IsNumbered seat.old (call.Write (Put path tree)) n seat.new) }
        ensures refused { IfErr result (λ e. IsUnmade seat.old (call.Write (Put path tree)) e seat.new) }
    {
        let mut shared = self.locked(rt);
        let answer = shared.set(seat, path, tree);
        self.notify(shared);
        answer
    }

    /// Sets several trees, each at its path, in one write.
    pub fn update<R: Wait>(
        &self,
        rt: &R,
        seat: &mut Seat,
        entries: Vec<(Path, Tree)>,
    ) -> Result<u64, ClientError>
        ensures made { IfOk result (λ n. IsNumbered seat.old (call.Write (Merge entries.items)) n seat.new) }
        ensures refused { IfErr result (λ e.
            IsUnmade seat.old (call.Write (Merge entries.items)) e seat.new) }
    {
        let mut shared = self.locked(rt);
        let answer = shared.update(seat, entries);
        self.notify(shared);
        answer
    }

    /// Removes what is at a path: sets null there.
    pub fn remove<R: Wait>(&self, rt: &R, seat: &mut Seat, path: Path) -> Result<u64, ClientError>
        ensures made { IfOk result (λ n. IsNumbered seat.old (call.Write (Put path null)) n seat.new) }
        ensures refused { IfErr result (λ e. IsUnmade seat.old (call.Write (Put path null)) e seat.new) }
    {
        let mut shared = self.locked(rt);
        let answer = shared.remove(seat, path);
        self.notify(shared);
        answer
    }

    /// Asks the server for a write, which it makes when the connection ends.
    pub fn on_disconnect<R: Wait>(
        &self,
        rt: &R,
        seat: &mut Seat,
        action: Action,
    ) -> Result<u64, ClientError>
        ensures made { IfOk result (λ n. IsNumbered seat.old (call.OnDisconnect (Run action)) n seat.new) }
        ensures refused { IfErr result (λ e. IsUnmade seat.old (call.OnDisconnect (Run action)) e seat.new) }
    {
        let mut shared = self.locked(rt);
        let answer = shared.on_disconnect(seat, action);
        self.notify(shared);
        answer
    }

    /// Drops what was to be written at and below a path when the connection ends.
    pub fn cancel_disconnect<R: Wait>(
        &self,
        rt: &R,
        seat: &mut Seat,
        path: Path,
    ) -> Result<u64, ClientError>
        ensures made { IfOk result (λ n. IsNumbered seat.old (call.OnDisconnect (Cancel path)) n seat.new) }
        ensures refused { IfErr result (λ e. IsUnmade seat.old (call.OnDisconnect (Cancel path)) e seat.new) }
    {
        let mut shared = self.locked(rt);
        let answer = shared.cancel_disconnect(seat, path);
        self.notify(shared);
        answer
    }

    /// Makes a seat's call, and hands it back where the mailbox is full: [`try_call`](crate::try_call).
    pub fn try_call<R: Wait>(&self, rt: &R, seat: &mut Seat, call: Call) -> Result<Done, Uncalled>
        ensures made { IfOk result (λ done. IsDone seat.old call done seat.new) }
        ensures refused { IfErr result (λ u. IsUnmade seat.old call u.why seat.new) }
        ensures back { IfErr result (λ u. u.call ≡ handed_back u.why call) }
    {
        let mut shared = self.locked(rt);
        let answer = try_call(&mut shared, seat, call);
        self.notify(shared);
        answer
    }

    /// Opens one more seat. There is nothing that others may wait for then, so nobody is woken.
    pub fn open_seat<R: Wait>(&self, rt: &R, capacity: usize) -> Result<Seat, ClientError>
        ensures opened { IfOk result (λ seat. IsOpened capacity seat) }
        ensures refused { IfErr result (λ e. IsUnopened e) }
    {
        let mut shared = self.locked(rt);
        let answer = shared.open_seat(capacity);
        let_go(shared);
        answer
    }

    /// Ends the seat.
    pub fn close_seat<R: Wait>(&self, rt: &R, seat: Seat) -> Result<(), Unclosed>
        ensures closed { OnOk result (IsClosed seat) }
        ensures back { IfErr result (λ refused. refused.seat ≡ seat) }
        ensures refused { IfErr result (λ refused. IsUnclosed seat refused.why) }
    {
        let mut shared = self.locked(rt);
        let answer = shared.close_seat(seat);
        self.notify(shared);
        answer
    }
}

// What a step of the connection makes of the locked value is hidden by the lock, as no seat shows it. So
// these clauses say which outcomes and refusals the step can have, on a value that the lock keeps and keeps
// again, and `Shared`'s of the same names the rest.
/// The calls of whoever holds the connection, under the client's lock too.
impl Client {
    /// Takes a message of the server.
    pub fn server_message<R: Wait>(
        &self,
        rt: &R,
        message: ServerMessage,
    ) -> Result<Outcome, ClientError>
        ensures made { IfOk result (λ outcome. HasOutcome (step_of_message message) outcome) }
        ensures refused { IfErr result (λ e. HasRefusal (step_of_message message) e) }
    {
        let mut shared = self.locked(rt);
        let answer = shared.server_message(message);
        self.notify(shared);
        answer
    }

    /// A connection is opened.
    pub fn connected<R: Wait>(&self, rt: &R) -> Result<Outcome, ClientError>
        ensures made { IfOk result (λ outcome. HasOutcome step.Connected outcome) }
        ensures refused { IfErr result (λ e. HasRefusal step.Connected e) }
    {
        let mut shared = self.locked(rt);
        let answer = shared.connected();
        self.notify(shared);
        answer
    }

    /// The connection ends.
    pub fn disconnected<R: Wait>(&self, rt: &R) -> Result<Outcome, ClientError>
        ensures made { IfOk result (λ outcome. HasOutcome step.Disconnected outcome) }
        ensures refused { IfErr result (λ e. HasRefusal step.Disconnected e) }
    {
        let mut shared = self.locked(rt);
        let answer = shared.disconnected();
        self.notify(shared);
        answer
    }
}

// ---- waiting for what others do to a client, and waking whoever waits

// What those who wait look at.
impl Shared {
    /// Whether something is there for the seat: an item in its ring or its lane, or what it would be
    /// refused for.
    pub fn is_due(&self, seat: &Seat) -> bool
        ensures { result ≡ is_due self.now seat.now }
    {
        if seat.has_items() {
            return true;
        }
        let Some(held) = &self.held else {
            return true;
        };
        seat.client != self.number || !held.lanes.is_quiet(seat.number)
    }

    /// Tells those who wait to stop, also those who will.
    pub fn stop(&mut self)
        ensures { self.new ≡ record (self.old) { stopped = true } }
    {
        self.stopped = true;
    }

    /// Whether those who wait were told to stop.
    pub fn is_stopped(&self) -> bool
        ensures { result ≡ self.now.stopped }
    {
        self.stopped
    }

    /// What [`Client::wait_outgoing`] answers: the first message that is to be sent, which is taken out, or
    /// none where those who wait were told to stop. Nothing where it waits on, since neither is so.
    pub fn try_outgoing(&mut self) -> Option<Result<Option<ClientMessage>, ClientError>>
        ensures { FindsMessage self.old result self.new }
    {
        let is_stopped = self.is_stopped();
        match self.take_outgoing() {
            Ok(Some(message)) => Some(Ok(Some(message))),
            Ok(None) if is_stopped => Some(Ok(None)),
            Ok(None) => None,
            Err(why) => Some(Err(why)),
        }
    }
}

// How long one waits.
impl Client {
    // How often somebody was to be woken.
    pub(crate) fn notices(&self) -> u64 {
        self.notices.load(Ordering::SeqCst)
    }

    // Locks the client once something is there for the seat, or it was told to stop.
    fn lock_for<'a, R: Wait>(&'a self, rt: &R, seat: &Seat) -> MutexGuard<'a, Shared>
        ensures due { (is_due (mutex_guard_value result) seat.now || (mutex_guard_value result).stopped)
            ≡ true }
        ensures kept { Keeps (mutex_guard_value result) }
    {
        let mut shared = self.shared.lock(rt);
        for _ in rt.forever() {
            if shared.is_due(seat) || shared.is_stopped() {
                // For the prover: what the lock keeps.
                let _has_failed = shared.has_failed();
                return shared;
            }
            shared = self.news.wait(rt, shared);
        }
        unreachable!()
    }

    // Locks the client once something is there for the seat; none where somebody was to be woken after so
    // many times.
    pub(crate) fn lock_since<'a, R: Wait>(
        &'a self,
        rt: &R,
        seat: &Seat,
        notices: u64,
    ) -> Option<MutexGuard<'a, Shared>>
        ensures due { IfSome result (λ shared. is_due (mutex_guard_value shared) seat.now ≡ true) }
        ensures kept { IfSome result (λ shared. Keeps (mutex_guard_value shared)) }
    {
        let mut shared = self.shared.lock(rt);
        for _ in rt.forever() {
            if shared.is_due(seat) {
                // For the prover: what the lock keeps.
                let _has_failed = shared.has_failed();
                return Some(shared);
            }
            if self.notices() != notices {
                return None;
            }
            shared = self.news.wait(rt, shared);
        }
        unreachable!()
    }

    // Locks the client once a message is to be sent, which is taken out, or it was told to stop.
    #[tactic(auto, using(crate::proofs::Awaited::stopped_found, crate::proofs::Awaited::failed_found))]
    fn lock_to_send<'a, R: Wait>(
        &'a self,
        rt: &R,
    ) -> (
        Result<Option<ClientMessage>, ClientError>,
        MutexGuard<'a, Shared>,
    )
        ensures stopped { result.0 ≡ Ok None → (mutex_guard_value result.1).stopped ≡ true }
        ensures refused { IfErr result.0 (λ e. e ≡ Failed) }
        ensures found { IsFound result.0 (mutex_guard_value result.1) }
    {
        let mut shared = self.shared.lock(rt);
        for _ in rt.forever() {
            // For the prover: what the lock keeps.
            let _has_failed = shared.has_failed();
            if let Some(answer) = shared.try_outgoing() {
                return (answer, shared);
            }
            shared = self.news.wait(rt, shared);
        }
        unreachable!()
    }

    // Settles the seat once something is there for it, or the client was told to stop.
    #[tactic(auto, using(crate::proofs::Delivered::unsettled))]
    fn settle_due<R: Wait>(&self, rt: &R, seat: &mut Seat) -> Result<(), ClientError>
        ensures settled { OnOk result (IsSettled seat.old seat.new) }
        ensures refused { IfErr result (λ e. RefusesTurn seat.old e seat.new) }
        ensures memory { IfErr result (λ e. e ≢ NoMemory) }
        ensures unsettled { IfErr result (λ e. IsUnsettled seat.old e seat.new) }
    {
        let mut shared = self.lock_for(rt, seat);
        let answer = shared.settle(seat);
        let_go(shared);
        answer
    }

    /// Waits until something is there for the seat, and settles it: whether its ring holds an item then.
    /// It holds none where those who wait were told to stop, and nothing is there. Where the ring holds
    /// one already, nothing is waited for, and no lock is taken.
    ///
    /// # Errors
    ///
    /// Those of [`Shared::settle`], where the ring holds nothing.
    #[tactic(auto, using(crate::proofs::Awaited::already, crate::proofs::Awaited::settles, crate::proofs::Awaited::held_none))]
    pub fn wait<R: Wait>(&self, rt: &R, seat: &mut Seat) -> Result<bool, ClientError>
        ensures there { IfOk result (λ there. Awaits seat.old there seat.new) }
        ensures empty { IfErr result (λ _. has_none seat.old.ring.items ≡ true) }
        ensures refused { IfErr result (λ e. RefusesTurn seat.old e seat.new) }
        ensures memory { IfErr result (λ e. e ≢ NoMemory) }
        ensures unsettled { IfErr result (λ e. IsUnsettled seat.old e seat.new) }
    {
        if seat.has_items() {
            return Ok(true);
        }
        self.settle_due(rt, seat)?;
        Ok(seat.has_items())
    }

    /// Waits until a message is to be sent, and takes it out; none where those who wait were told to stop,
    /// and none is to be sent. Each time that it has the lock it makes [`Shared::try_outgoing`], once.
    ///
    /// # Errors
    ///
    /// Failed.
    pub fn wait_outgoing<R: Wait>(&self, rt: &R) -> Result<Option<ClientMessage>, ClientError>
        ensures refused { IfErr result (λ e. e ≡ Failed) }
        ensures sent { IsSent result }
    {
        let (answer, shared) = self.lock_to_send(rt);
        let_go(shared);
        answer
    }
}

// Who wakes whom. Notices are counted while the lock is held: one who holds it knows that none is given
// between a look and the sleep behind it.
//
// What these three do is done to an atomic, a condition and a locked value behind a shared reference, of which
// a contract sees nothing but what the lock takes back. That a stop is kept is `Shared::stop`'s clause; that
// sleepers are woken the test `sleepers_are_woken` of `rt_tests` shows, which would not end without it.
impl Client {
    /// Wakes whoever waits, and lets the lock go. Whoever locks the client by itself, and makes a call on
    /// it, ends so. Of the value that the lock takes back holds what it keeps.
    pub fn notify(&self, shared: MutexGuard<'_, Shared>)
        ensures { Keeps (mutex_guard_value shared.entry) }
    {
        self.notices.fetch_add(1, Ordering::SeqCst);
        self.news.notify_all();
        let_go(shared);
    }

    /// Wakes whoever waits: deliveries ask their gates again.
    pub fn wake<R: Wait>(&self, rt: &R) {
        self.notify(self.shared.lock(rt));
    }

    /// Tells those who wait to stop, also those who will, and wakes them. A delivery goes on as long as
    /// its gate says so.
    pub fn stop<R: Wait>(&self, rt: &R) {
        let mut shared = self.shared.lock(rt);
        shared.stop();
        self.notify(shared);
    }
}
