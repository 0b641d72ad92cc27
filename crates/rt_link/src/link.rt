// What runs a client's connections, one after another.
ghost use Rattle.std.specs.Prelude.{◌≡◌, ◌≤◌, IfErr, IfOk, OnOk};
ghost use Rattle.rt_link.specs.Carrying.{IsLeft, begun, Gone};
ghost use Rattle.rt_link.specs.inside.Counts.{counted};
ghost use Rattle.rt_link.specs.Keeping.{PassesMore, WaitsBehind};
ghost use Rattle.rt_link.specs.Turning.{left_by, next};

use crate::connection::{Connection, LinkTurn, millis_since};
use crate::error::LinkFault;
use crate::linked::{Bell, Linked};
use mio::net::TcpStream;
use mio::{Events, Interest, Poll, Token, Waker};
use rt_client::Client;
use rt_socket::{Lost, Patience, up_to, wait_after};
use std::alloc::Global;
use std::fmt;
use std::marker::Model;
use std::net::{Net, SocketAddr};
use std::random::RandomSource;
use std::sync::Wait;
use std::time::{Clock, Duration, Instant};

// By what the connection's stream and the waker are known.
const STREAM: Token = Token(0);

const WAKER: Token = Token(1);

// How many events are taken in one go. There are no more sources than these two.
const EVENTS: usize = 2;

/// Why a run of a link has ended.
#[derive(Debug, Drop)]
pub enum LinkEnd {
    /// It was told to stop.
    Stopped,
    /// No connection came about.
    NotOpened(Lost),
    /// The connection has ended.
    Ended(Lost),
}

impl fmt::Display for LinkEnd {
    fn fmt<W: fmt::Write>(&self, f: &mut fmt::Formatter<W>) -> fmt::Result {
        match self {
            LinkEnd::Stopped => f.write_str("told to stop"),
            LinkEnd::NotOpened(why) | LinkEnd::Ended(why) => fmt::Display::fmt(why, f),
        }
    }
}

// What a run does after a turn.
#[derive(Drop)]
enum LinkNext {
    // The next turn, at once.
    GoOn,
    // It sleeps, so long at most.
    Sleep(Duration),
    // It has ended.
    End(LinkEnd),
}

// What a run does after a turn, told to stop or not.
fn next_of(turn: LinkTurn, is_stopped: bool) -> LinkNext
    ensures { result ≡ next turn is_stopped }
{
    if is_stopped {
        return LinkNext::End(LinkEnd::Stopped);
    }
    match turn {
        LinkTurn::Idle(most) => LinkNext::Sleep(most),
        LinkTurn::More => LinkNext::GoOn,
        LinkTurn::NotOpened(why) => LinkNext::End(LinkEnd::NotOpened(why)),
        LinkTurn::Ended(why) => LinkNext::End(LinkEnd::Ended(why)),
    }
}

// What is done after a turn of a connection that is left.
#[derive(Clone, Copy)]
enum Parting {
    // The next turn, at once.
    GoOn,
    // It sleeps, so long at most.
    Sleep(Duration),
    // It is gone.
    Over,
}

fn left_by(turn: LinkTurn) -> Parting
    ensures { result ≡ left_by turn }
{
    match &turn {
        LinkTurn::Idle(most) => Parting::Sleep(*most),
        LinkTurn::More => Parting::GoOn,
        LinkTurn::NotOpened(_) | LinkTurn::Ended(_) => Parting::Over,
    }
}

/// What runs a client's connections, one after another, in one thread. The client is [`Linked`].
pub struct Link {
    poll: Poll,
    events: Events,
    passed_over: u64,
    // How many milliseconds were waited before the connection that is kept, or are due behind it.
    waited: u64,
}

impl Drop for Link {
    fn drop(self) {
        let Link {
            poll: _,
            events: _,
            passed_over: _,
            waited: _,
        } = self;
    }
}

impl Model for Link {
    ghost use Rattle.rt_link.specs.Keeping.{LinkState};

    ghost Value = { LinkState };

    ghost view = { λ link. record { passed_over = link.passed_over; waited = link.waited } };
}

// How long is waited behind an end, where so long was waited before the connection, which was begun then.
fn waited_behind<R: Clock>(
    rt: &R,
    ending: &LinkEnd,
    waited: u64,
    begun: Instant,
) -> Result<u64, LinkFault>
    ensures { IfOk result (λ new. WaitsBehind ending.now waited new) }
{
    match ending {
        LinkEnd::Stopped => Ok(waited),
        LinkEnd::NotOpened(_) => Ok(wait_after(waited, 0)),
        LinkEnd::Ended(_) => Ok(wait_after(waited, millis_since(rt, begun)?)),
    }
}

impl Link {
    /// A link, and the client with what wakes it.
    ///
    /// # Errors
    ///
    /// `System` where the system refuses what waiting needs, and `NoMemory`.
    pub fn open<R: Net>(rt: &R, alloc: Global, client: Client) -> Result<(Link, Linked), LinkFault>
        ensures link { IfOk result (λ opened. opened.0 ≡ record { passed_over = 0; waited = 0 }) }
        ensures client { IfOk result (λ opened. opened.1.client ≡ client) }
    {
        let poll = Poll::new(rt)?;
        let bell = Bell::new(alloc, Waker::new(poll.registry(), WAKER)?)?;
        let events = Events::with_capacity(alloc, EVENTS)?;
        let link = Link {
            poll,
            events,
            passed_over: 0,
            waited: 0,
        };
        Ok((link, Linked::new(client, bell)))
    }

    /// Begins to connect to an address, and does not wait for it.
    ///
    /// # Errors
    ///
    /// As of [`Connection::new`].
    pub fn connect<R: Net + Clock, N: RandomSource + Drop>(
        &mut self,
        rt: &R,
        alloc: Global,
        random: N,
        address: SocketAddr,
    ) -> Result<Result<Connection<TcpStream, N>, Lost>, LinkFault>
        ensures begun { IfOk result (λ made. IfOk made (λ connection. connection ≡ begun)) }
        ensures link { self.new ≡ self.old }
    {
        let mut stream = match TcpStream::connect(rt, address) {
            Ok(stream) => stream,
            Err(why) => return Ok(Err(Lost::Unreachable(why))),
        };
        // Small messages are sent at once, where the system does that.
        drop(stream.set_nodelay(true));
        let interests = Interest::READABLE | Interest::WRITABLE;
        self.poll
            .registry()
            .register(&mut stream, STREAM, interests)?;
        let uri = format!(in alloc; "ws://{address}/")?;
        Connection::new(rt, alloc, random, stream, uri.as_str())
    }

    /// Sleeps until something may be done for the connection, somebody wakes the link, or so long.
    ///
    /// # Errors
    ///
    /// `System`, where the system refuses it.
    pub fn wait(&mut self, most: Duration) -> Result<(), LinkFault>
        ensures link { self.new ≡ self.old }
    {
        self.poll.poll(&mut self.events, Some(most))?;
        Ok(())
    }

    // So many more messages were passed over, as far as the count goes.
    fn note(&mut self, passed: usize)
        ensures counted { self.new
            ≡ record (self.old) { passed_over = counted self.old.passed_over passed } }
        ensures more { PassesMore self.old self.new }
    {
        self.passed_over = self.passed_over.saturating_add(passed as u64);
    }

    /// How many messages of the server its runs have passed over, since they can't be read or the client
    /// refuses them.
    pub fn passed_over(&self) -> u64
        ensures { result ≡ self.now.passed_over }
    {
        self.passed_over
    }

    /// How many milliseconds [`Link::keep`] waits before it connects: those that are due behind the end of
    /// the connection before.
    pub fn next_wait(&self) -> u64
        ensures { result ≡ self.now.waited }
    {
        self.waited
    }

    // Carries a connection until it ends, or the link is told to stop.
    fn carry<R: Wait + Clock, N: RandomSource + Drop>(
        &mut self,
        rt: &R,
        linked: &Linked,
        connection: &mut Connection<TcpStream, N>,
    ) -> Result<LinkEnd, LinkFault>
        ensures link { PassesMore self.old self.new }
    {
        for _ in rt.forever() {
            let turn = connection.turn(rt, &linked.client)?;
            self.note(connection.take_passed().len());
            match next_of(turn, linked.is_stopped(rt)) {
                LinkNext::GoOn => {}
                LinkNext::Sleep(most) => self.wait(most)?,
                LinkNext::End(ending) => return Ok(ending),
            }
        }
        unreachable!()
    }

    /// Ends a connection, where it stands: tells the client so, and waits until the server has gone too, but
    /// not for long.
    ///
    /// # Errors
    ///
    /// As of [`Connection::close`] and [`Connection::turn`].
    #[tactic(auto, using(crate::proofs::Leaving::stays_left, crate::proofs::Leaving::over_is_gone, crate::proofs::Leaving::left_passes_nothing))]
    pub fn close<R: Wait + Clock, N: RandomSource + Drop>(
        &mut self,
        rt: &R,
        client: &Client,
        connection: &mut Connection<TcpStream, N>,
    ) -> Result<(), LinkFault>
        ensures gone { OnOk result (connection.new.standing ≡ Gone) }
        ensures passed { OnOk result (connection.new.passed ≡ connection.old.passed) }
        ensures link { self.new ≡ self.old }
    {
        connection.close(rt, client)?;
        for _ in rt.forever() {
            let turn = connection.turn(rt, client)?;
            match left_by(turn) {
                Parting::GoOn => {}
                Parting::Sleep(most) => self.wait(most)?,
                Parting::Over => return Ok(()),
            }
        }
        unreachable!()
    }

    // Carries a connection until it ends, or the link is told to stop, and ends it.
    fn carry_out<R: Wait + Clock, N: RandomSource + Drop>(
        &mut self,
        rt: &R,
        linked: &Linked,
        connection: &mut Connection<TcpStream, N>,
    ) -> Result<LinkEnd, LinkFault>
        ensures link { PassesMore self.old self.new }
    {
        let ending = self.carry(rt, linked, connection);
        match self.close(rt, &linked.client, connection) {
            Ok(()) => ending,
            Err(why) => {
                drop(ending);
                Err(why)
            }
        }
    }

    /// Connects to an address, and carries the client's connection until it ends or the link is told to
    /// stop. It sleeps while there is nothing to do. The client is told that it is connected once the
    /// handshake is done, and that it is disconnected before this returns. It can be run again.
    ///
    /// # Errors
    ///
    /// `Client` where the client has failed, or somebody else has told it of a connection; `System` where
    /// the system refuses what waiting needs; and `NoMemory`. The client is told that it is disconnected
    /// then too.
    pub fn run<R: Net + Wait + Clock, N: RandomSource + Drop>(
        &mut self,
        rt: &R,
        alloc: Global,
        linked: &Linked,
        random: N,
        address: SocketAddr,
    ) -> Result<LinkEnd, LinkFault>
        ensures link { PassesMore self.old self.new }
    {
        if linked.is_stopped(rt) {
            return Ok(LinkEnd::Stopped);
        }
        match self.connect(rt, alloc, random, address)? {
            Ok(mut connection) => {
                let ending = self.carry_out(rt, linked, &mut connection);
                drop(connection);
                ending
            }
            Err(why) => Ok(LinkEnd::NotOpened(why)),
        }
    }
    // Sleeps until so many milliseconds have gone by, or the link is told to stop.
    fn rest<R: Wait + Clock>(
        &mut self,
        rt: &R,
        linked: &Linked,
        millis: u64,
    ) -> Result<(), LinkFault>
        ensures link { self.new ≡ self.old }
    {
        let begun = Instant::now(rt)?;
        for _ in rt.forever() {
            if linked.is_stopped(rt) {
                return Ok(());
            }
            match up_to(millis, millis_since(rt, begun)?) {
                Patience::Wait(left) => self.wait(Duration::from_millis(left))?,
                Patience::Ping | Patience::GiveUp => return Ok(()),
            }
        }
        unreachable!()
    }

    /// The next connection of one that is kept: waits for as long as is due behind the end of the one before,
    /// then runs to the end of this one, as [`Link::run`] does. Called again until it answers `Stopped`, it
    /// connects again and again. Nothing is waited for the first time. Then it is a second, and twice as long
    /// behind each further end, up to 30 seconds; behind a connection that stood for 30 seconds it is a second
    /// again. A call of a seat does not cut the wait short, and a stop does.
    ///
    /// # Errors
    ///
    /// As of [`Link::run`].
    pub fn keep<R: Net + Wait + Clock, N: RandomSource + Drop>(
        &mut self,
        rt: &R,
        alloc: Global,
        linked: &Linked,
        random: N,
        address: SocketAddr,
    ) -> Result<LinkEnd, LinkFault>
        ensures waits { IfOk result (λ ending. WaitsBehind ending self.old.waited self.new.waited) }
        ensures counts { self.old.passed_over ≤ self.new.passed_over }
        ensures failed { IfErr result (λ _. self.new.waited ≡ self.old.waited) }
    {
        let due = self.waited;
        self.rest(rt, linked, due)?;
        let begun = Instant::now(rt)?;
        let ending = self.run(rt, alloc, linked, random, address)?;
        match waited_behind(rt, &ending, self.waited, begun) {
            Ok(waited) => {
                self.waited = waited;
                Ok(ending)
            }
            Err(why) => {
                drop(ending);
                Err(why)
            }
        }
    }
}
