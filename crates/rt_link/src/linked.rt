// A client with what wakes its link.
ghost use Rattle.std.specs.Prelude.{◌≡◌, IfOk, IfErr, OnOk};
ghost use Rattle.std.specs.Fn.{FnOnceReturnsAt};
ghost use Rattle.rt_client.specs.Calls.{handed_back};
ghost use Rattle.rt_client.specs.Waiting.{IsDone, IsUnmade, IsClosed, IsUnclosed};
ghost use Rattle.rt_link.specs.Answering.{Answers, IsAsked, RefusesAnswering, ended_by, number_in};
ghost use Rattle.rt_client.specs.Giving.{Gives, RefusesGiving};
ghost use Rattle.rt_mail.specs.Snapshots.{after_items};
ghost use Rattle.rt_client.specs.Delivery.{emptied};
ghost use Rattle.rt_link.specs.Seeing.{is_shown, RefusesSeeing, SeesAll, SeesSome};
ghost use Rattle.rt_link.specs.Keeping.{HasWorked};

use crate::answers::{Answer, find_answer};
use crate::connection::millis_since;
use crate::error::LinkFault;
use crate::laws::link_crossing_law;
use crate::link::{Link, LinkEnd};
use mio::Waker;
use rt_client::{Call, Client, ClientError, Done, Seat, Uncalled, Unclosed};
use rt_mail::{Item, Snapshots};
use rt_world::Limits;
use std::alloc::{AllocError, Global};
use std::marker::Model;
use std::net::{Net, SocketAddr};
use std::random::RandomSource;
use std::sync::{Arc, Wait};
use std::thread::{self, Threads};
use std::time::{Clock, Duration, Instant};

/// What wakes a link. Threads share it, or each has a clone.
pub struct Bell {
    waker: Arc<Waker, Global>,
}

impl Drop for Bell {
    fn drop(self) {
        let Bell { waker: _ } = self;
    }
}

impl Model for Bell {
    ghost use Rattle.std.specs.Arc.{arc_value};
    ghost use Rattle.mio.specs.declared.waker.Waker.{Waker};

    // The waker that it rings.
    ghost Value = { Waker };

    ghost view = { λ bell. arc_value bell.waker };
}

impl Bell {
    pub(crate) fn new(alloc: Global, waker: Waker) -> Result<Bell, AllocError>
        ensures { IfOk result (λ bell. bell ≡ waker) }
    {
        let waker = Arc::new(alloc, waker)?;
        Ok(Bell { waker })
    }

    /// Another that wakes the same link.
    pub fn try_clone(&self) -> Result<Bell, AllocError>
        ensures { IfOk result (λ bell. bell ≡ self.now) }
    {
        let waker = Arc::try_clone(&self.waker)?;
        Ok(Bell { waker })
    }

    /// Wakes the link: there may be something to be sent.
    pub fn ring(&self) {
        // A counter of the system is added to, which is there as long as this is.
        drop(self.waker.wake());
    }
}

// The listener that a call ends; 0 of another call.
fn ended_by(call: &Call) -> u64
    ensures { result ≡ ended_by call.now }
{
    match call {
        Call::Unlisten { listener } => *listener,
        Call::Listen { .. } | Call::Write { .. } | Call::OnDisconnect { .. } => 0,
    }
}

// The number that a call is given, or the other one where it is given none.
fn number_in(given: Option<u64>, ended: u64) -> u64
    ensures { result ≡ number_in given ended }
{
    match given {
        Some(number) => number,
        None => ended,
    }
}

/// A client whose messages a [`Link`](crate::Link) carries. Threads share it by reference. Each of its calls
/// makes a call of the client, which wakes whoever waits for the client, and then wakes the link.
/// Whoever makes calls on the client itself, or locks it, wakes the link by [`Linked::ring`].
pub struct Linked {
    pub client: Client,
    pub bell: Bell,
}

impl Drop for Linked {
    fn drop(self) {
        let Linked { client: _, bell: _ } = self;
    }
}

impl Linked {
    pub(crate) fn new(client: Client, bell: Bell) -> Linked
        ensures { result ≡ record { client = client; bell = bell } }
    {
        Linked { client, bell }
    }

    /// Wakes the link: there may be something to be sent.
    pub fn ring(&self) {
        self.bell.ring();
    }

    /// What wakes the link, for a thread that makes no call.
    pub fn bell(&self) -> Result<Bell, AllocError>
        ensures { IfOk result (λ bell. bell ≡ self.now.bell) }
    {
        self.bell.try_clone()
    }

    /// Tells the link and those who wait for the client to stop, also those who will, and wakes them.
    pub fn stop<R: Wait>(&self, rt: &R) {
        self.client.stop(rt);
        self.ring();
    }

    // Whether they were told to stop.
    pub(crate) fn is_stopped<R: Wait>(&self, rt: &R) -> bool {
        self.client.shared.lock(rt).is_stopped()
    }

    /// Makes a seat's call. Answers the number of the new listener or request, or that of the listener that
    /// it ends.
    pub fn ask<R: Wait>(&self, rt: &R, seat: &mut Seat, call: Call) -> Result<u64, ClientError>
        ensures made { IfOk result (λ n. IsAsked seat.old call n seat.new) }
        ensures refused { IfErr result (λ e. IsUnmade seat.old call e seat.new) }
    {
        let ended = ended_by(&call);
        match self.try_call(rt, seat, call) {
            Ok(done) => Ok(number_in(done.given, ended)),
            Err(refused) => Err(refused.why),
        }
    }

    /// Makes a seat's call, and hands it back where the mailbox is full.
    pub fn try_call<R: Wait>(&self, rt: &R, seat: &mut Seat, call: Call) -> Result<Done, Uncalled>
        ensures made { IfOk result (λ done. IsDone seat.old call done seat.new) }
        ensures refused { IfErr result (λ u. IsUnmade seat.old call u.why seat.new) }
        ensures back { IfErr result (λ u. u.call ≡ handed_back u.why call) }
    {
        let answer = self.client.try_call(rt, seat, call);
        self.ring();
        answer
    }

    // What is said of a request by all that is there for the seat. Waits for nobody.
    #[tactic(auto, using(crate::proofs::Looked::not_settled))]
    fn look_for<R: Wait>(
        &self,
        rt: &R,
        seat: &mut Seat,
        request: u64,
    ) -> Result<Option<Answer>, ClientError>
        ensures said { IfOk result (λ said. Answers seat.old request said seat.new) }
        ensures refused { IfErr result (λ e. RefusesAnswering seat.old request e seat.new) }
    {
        self.settle(rt, seat)?;
        Ok(find_answer(seat, request))
    }

    /// Waits until the server has answered a request of the seat, but not longer than so long, and not once the
    /// client was told to stop: what it says; none where it has not answered yet. What else the seat is told
    /// until then is passed over, the answers of its other requests too. So who listens has a further seat for
    /// its requests, and who makes several before one is answered takes [`Linked::wait_answers`].
    ///
    /// # Errors
    ///
    /// As of [`Client::wait`].
    #[tactic(auto, using(crate::proofs::Looked::nothing_passed))]
    pub fn answer<R: Wait + Clock>(
        &self,
        rt: &R,
        seat: &mut Seat,
        request: u64,
        within: Duration,
    ) -> Result<Option<Answer>, ClientError>
        ensures said { IfOk result (λ said. Answers seat.old request said seat.new) }
        ensures refused { IfErr result (λ e. RefusesAnswering seat.old request e seat.new) }
    {
        let bound = WaitBound::new(rt, within);
        for _ in rt.forever() {
            let look = self.begin_look(rt, bound);
            match self.look_for(rt, seat, request)? {
                Some(answer) => return Ok(Some(answer)),
                None => {}
            }
            if !self.pauses(rt, seat, look) {
                return Ok(None);
            }
        }
        unreachable!()
    }

    /// Ends the seat.
    pub fn close_seat<R: Wait>(&self, rt: &R, seat: Seat) -> Result<(), Unclosed>
        ensures closed { OnOk result (IsClosed seat) }
        ensures back { IfErr result (λ refused. refused.seat ≡ seat) }
        ensures refused { IfErr result (λ refused. IsUnclosed seat refused.why) }
    {
        let answer = self.client.close_seat(rt, seat);
        self.ring();
        answer
    }
}

// ---- what a seat is told, given to a thread's work

impl Linked {
    /// Gives each item of the seat to a work, in order, as it comes, as [`Seat::for_each`] does, until all are
    /// told to stop or the work refuses one.
    ///
    /// ```text
    /// linked.for_each(rt, &mut seat, |item| show(rt, item))?
    /// ```
    ///
    /// # Errors
    ///
    /// As of [`Client::wait`](rt_client::Client::wait).
    pub fn for_each<R: Wait, E, F: FnMut(&Item) -> Result<(), E>>(
        &self,
        rt: &R,
        seat: &mut Seat,
        f: F,
    ) -> Result<Result<(), E>, ClientError>
        requires callable { F.IsAlwaysCallable f }
        ensures given { IfOk result (λ done. Gives F.FnMut f seat.old done seat.new) }
        ensures refused { IfErr result (λ e. RefusesGiving F.FnMut f seat.old e seat.new) }
    {
        seat.for_each(rt, &self.client, f)
    }
}

// ---- waits for what a seat is told, within a bound

// How many milliseconds lie between two looks at a seat of which nothing is there.
const LOOK_MS: u64 = 10;

// How long is waited at most: so many milliseconds from then on, where there is a clock.
#[derive(Clone, Copy)]
pub(crate) struct WaitBound {
    begun: Option<Instant>,
    most: u64,
}

impl WaitBound {
    // From now on.
    pub(crate) fn new<R: Clock>(rt: &R, within: Duration) -> WaitBound {
        WaitBound {
            begun: Instant::now(rt).ok(),
            most: u64::try_from(within.as_millis()).unwrap_or(u64::MAX),
        }
    }

    // How many milliseconds are left of it; none where there is no clock.
    fn left<R: Clock>(self, rt: &R) -> u64 {
        let Some(begun) = self.begun else {
            return 0;
        };
        match millis_since(rt, begun) {
            Ok(gone) => self.most.saturating_sub(gone),
            Err(_) => 0,
        }
    }
}

// What held before a look at a seat: what is told in between counts for the next look.
#[derive(Clone, Copy)]
pub(crate) struct Look {
    // How many milliseconds may still be waited.
    left: u64,
    // Whether nothing more is waited for.
    is_over: bool,
}

impl Look {
    // Nothing more is waited for, if that is so.
    pub(crate) fn over_if(self, is_over: bool) -> Look {
        Look {
            left: self.left,
            is_over: self.is_over || is_over,
        }
    }
}

impl Linked {
    // Before a look: how long may still be waited, and whether the client was told to stop.
    pub(crate) fn begin_look<R: Wait + Clock>(&self, rt: &R, bound: WaitBound) -> Look {
        let is_over = self.is_stopped(rt);
        Look {
            left: bound.left(rt),
            is_over,
        }
    }

    // Whether a further look is due behind that one. Sleeps before it, where nothing is there for the seat.
    pub(crate) fn pauses<R: Wait + Clock>(&self, rt: &R, seat: &Seat, look: Look) -> bool {
        let is_due = self.client.shared.lock(rt).is_due(seat);
        if look.left == 0 || (look.is_over && !is_due) {
            return false;
        }
        if !is_due {
            thread::sleep(rt, Duration::from_millis(look.left.min(LOOK_MS)));
        }
        true
    }
}

// ---- what a seat's thread sees: a wait for the first value of a listener

// Takes all that the seat's ring holds into the snapshots, in order.
fn see_ring(seat: &mut Seat, seen: &mut Snapshots) -> Result<(), AllocError>
    ensures seen { OnOk result (seen.new ≡ after_items seen.old seat.old.ring.items) }
    ensures seat { OnOk result (seat.new ≡ emptied seat.old) }
    ensures some { IfErr result (λ _. SeesSome seat.old seen.old seat.new seen.new) }
{
    while let Some(item) = seat.next() {
        let taken = seen.take(&item);
        drop(item);
        taken?;
    }
    Ok(())
}

// Whether a listener shows a value.
fn is_shown(seen: &Snapshots, listener: u64) -> bool
    ensures { result ≡ is_shown listener seen.now }
{
    match seen.get(listener) {
        Some(snapshot) => snapshot.value().is_some(),
        None => false,
    }
}

impl Linked {
    // Takes what is there for the seat into the snapshots, and waits for nobody.
    #[tactic(auto, using(crate::proofs::Seen::nothing_seen, crate::proofs::Seen::not_settled))]
    fn see<R: Wait>(&self, rt: &R, seat: &mut Seat, seen: &mut Snapshots) -> Result<(), ClientError>
        ensures seen { OnOk result (SeesAll seat.old seen.old seat.new seen.new) }
        ensures refused { IfErr result (λ e. RefusesSeeing seat.old seen.old e seat.new seen.new) }
    {
        self.settle(rt, seat)?;
        match see_ring(seat, seen) {
            Ok(()) => Ok(()),
            Err(_) => Err(ClientError::NoMemory),
        }
    }

    /// Waits until a listener of the seat shows a value, but not longer than so long, and not once the client
    /// was told to stop: whether it does. It waits no longer either for a listener that is not there, or that
    /// the server refuses. What the seat is told until then is taken into `seen`: what the seat was told of the
    /// listener before is to be in it, by [`Snapshots::take`].
    ///
    /// # Errors
    ///
    /// As of [`Client::wait`](rt_client::Client::wait), and NoMemory where there is none for an item: that one
    /// is lost then.
    #[tactic(auto, using(crate::proofs::Seen::nothing_seen))]
    pub fn wait_value<R: Wait + Clock>(
        &self,
        rt: &R,
        seat: &mut Seat,
        seen: &mut Snapshots,
        listener: u64,
        within: Duration,
    ) -> Result<bool, ClientError>
        ensures seen { OnOk result (SeesAll seat.old seen.old seat.new seen.new) }
        ensures shown { IfOk result (λ is. is ≡ is_shown listener seen.new) }
        ensures refused { IfErr result (λ e. RefusesSeeing seat.old seen.old e seat.new seen.new) }
    {
        let bound = WaitBound::new(rt, within);
        for _ in rt.forever() {
            let look = self.begin_look(rt, bound);
            self.see(rt, seat, seen)?;
            let is_shown = is_shown(seen, listener);
            let look = look.over_if(seen.get(listener).is_none());
            if is_shown || !self.pauses(rt, seat, look) {
                return Ok(is_shown);
            }
        }
        unreachable!()
    }
}

// ---- a client's connection, kept by a thread beside its work

impl Linked {
    // Keeps the connection until it is told to stop, and tells of each one that ends.
    fn keep_connected<R: Net + Wait + Clock + RandomSource, E: Fn(&Linked, &LinkEnd)>(
        &self,
        rt: &R,
        alloc: Global,
        link: &mut Link,
        server: SocketAddr,
        ends: E,
    ) -> Result<(), LinkFault>
        requires { E.IsAlwaysCallable ends }
    {
        for _ in rt.forever() {
            let ending = link.keep(rt, alloc, self, rt, server)?;
            let is_stopped = matches!(ending, LinkEnd::Stopped);
            if !is_stopped {
                ends(self, &ending);
            }
            drop(ending);
            if is_stopped {
                return Ok(());
            }
        }
        unreachable!()
    }

    /// Keeps the connection in this thread, as [`Link::keep`] does, again and again, and does the work in one
    /// more, which is handed this client. Each connection that ends is told to `ends`. Once the work is done, all
    /// who wait for the client are told to stop. Answers how the link has ended, and what the work answers.
    ///
    /// # Errors
    ///
    /// Those of [`Link::keep`] stand in the first answer. The work is told to stop then.
    pub fn keep_while<
        R: Threads + Net + Wait + Clock + RandomSource + Sync,
        E: Fn(&Linked, &LinkEnd),
        T: Send,
        W: FnOnce(&Linked) -> T + Send,
    >(
        &self,
        rt: &R,
        alloc: Global,
        link: &mut Link,
        server: SocketAddr,
        ends: E,
        work: W,
    ) -> (Result<(), LinkFault>, T)
        requires ends { E.IsAlwaysCallable ends }
        requires work { W.IsAlwaysCallable work }
        ensures { FnOnceReturnsAt W.FnOnce work self.now result.1 }
    {
        // For the prover: what may go to another thread.
        link_crossing_law();
        let (worked, kept) = thread::join(
            rt,
            || {
                let worked = work(self);
                self.stop(rt);
                worked
            },
            || {
                let kept = self.keep_connected(rt, alloc, link, server, ends);
                self.stop(rt);
                kept
            },
        );
        (kept, worked)
    }

    /// Opens a client, and keeps it connected in this thread while a work is done in one more, as
    /// [`Linked::keep_while`] does. Answers what the work answers. The client has no seat at first: each thread
    /// of the work opens its own.
    ///
    /// # Errors
    ///
    /// Those of [`Link::open`] and [`Link::keep`], and NoMemory of the client. What the work answers is lost then.
    pub fn connect_while<
        R: Threads + Net + Wait + Clock + RandomSource + Sync,
        E: Fn(&Linked, &LinkEnd),
        T: Send + Drop,
        W: FnOnce(&Linked) -> T + Send,
    >(rt: &R, alloc: Global, server: SocketAddr, ends: E, work: W) -> Result<T, LinkFault>
        requires ends { E.IsAlwaysCallable ends }
        requires work { W.IsAlwaysCallable work }
        ensures { IfOk result (HasWorked W.FnOnce work) }
    {
        let (client, seats) = Client::open(alloc, 1, &[], Limits::full())?;
        drop(seats);
        let (mut link, linked) = Link::open(rt, alloc, client)?;
        let (kept, worked) = linked.keep_while(rt, alloc, &mut link, server, ends, work);
        drop((link, linked));
        kept?;
        Ok(worked)
    }

    /// Does two works at once, the first one in a thread of its own. Each is handed this client. The one that is
    /// done first tells all who wait for the client to stop, and with them the other. Answers what both answer.
    pub fn both<
        R: Threads + Wait + Sync,
        A: Send,
        F: FnOnce(&Linked) -> A + Send,
        B,
        G: FnOnce(&Linked) -> B,
    >(&self, rt: &R, first: F, second: G) -> (A, B)
        requires first { F.IsAlwaysCallable first }
        requires second { G.IsAlwaysCallable second }
        ensures first { FnOnceReturnsAt F.FnOnce first self.now result.0 }
        ensures second { FnOnceReturnsAt G.FnOnce second self.now result.1 }
    {
        // For the prover: what may go to another thread.
        link_crossing_law();
        thread::join(
            rt,
            || {
                let done = first(self);
                self.stop(rt);
                done
            },
            || {
                let done = second(self);
                self.stop(rt);
                done
            },
        )
    }
}
