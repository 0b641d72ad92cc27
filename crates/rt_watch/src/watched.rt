// A client that is driven by lines, while what the server sends is printed.
ghost use Rattle.std.specs.Prelude.{◌≡◌, ◌≢◌, ◌+◌, ◌<◌, ◌≤◌, ◌^◌, ℕ, List, [], Ok, Err, false};
ghost use Rattle.std.specs.Prelude.{if◌then◌else◌, IfOk, IfErr, OnOk};
ghost use Rattle.rt_connect.specs.Doing.{disconnected};
ghost use Rattle.std.specs.Sync.Mutex.{mutex_guard_value};
ghost use Rattle.rt_lines.specs.inside.Appending.{Appends};
ghost use Rattle.rt_watch.specs.Faults.{IsNoWriteFault, TellsWrite, of_link};
ghost use Rattle.rt_watch.specs.Pacing.{is_refused, left_by, millis_of, next, unopened};
ghost use Rattle.rt_watch.specs.Rounds.{DoesWaiting, EndsBy, IsNoted, IsTurned, NotesTurn, Rounds};
ghost use Rattle.rt_watch.specs.Rounds.{WritesTurn, is_carried, lost_by, said_lost, waited};
ghost use Rattle.rt_watch.specs.Watching.{PrintsNews};

use crate::effect::WatchFault;
use crate::lines::{Lines, Queue, feed};
use crate::terminal::{Terminal, WatchNext, next_of};
use mio::net::TcpStream;
use rt_client::{Client, Seat};
use rt_connect::open_seats;
use rt_input::{ConsoleError, Drain, Log, Source};
use rt_link::{Connection, Link, LinkFault, LinkTurn, Linked, Lost, link_crossing_law};
use rt_socket::wait_after;
use rt_world::Limits;
use std::alloc::{AllocError, Global};
use std::io::ErrorKind;
use std::net::{Net, SocketAddr};
use std::random::RandomSource;
use std::sync::{Arc, MutexGuard, Wait};
use std::thread::{Builder, JoinHandle, Threads};
use std::time::{Clock, Duration, Instant};

// The client's number, and how many items each of its seats holds.
const NUMBER: u64 = 1;

const CAPACITIES: [usize; 8] = [1_024; 8];

/// What is to be watched.
#[derive(Clone, Copy, Debug)]
pub struct Watching {
    /// Where the server listens.
    pub address: SocketAddr,
    /// After how many milliseconds in which nothing was printed the run ends, once the input has ended.
    pub idle_ms: Option<u64>,
    /// Whether there is no second connection where the first has ended.
    pub is_once: bool,
}

// What is told once the handshake is done, of the first connection and of a later one.
const CONNECTED: &str = "\
connected: type a line such as [\"listen\",1,\"/a\",[]]; 'kaltewi watch --help' has all forms; Ctrl-D ends \
the lines, and Ctrl-C the run";

const CONNECTED_AGAIN: &str = "connected again";

// What is told where the connection is gone, and another one is to come.
const WILL_CONNECT: &str = "\
the lines go on, and it connects again: in a second, and then less and less often, at least each 30 seconds";

// Where the connection stands.
#[derive(Clone, Copy, Debug, PartialEq, Eq)]
enum LinkStanding {
    // Its handshake is not done.
    Opening,
    // It stands.
    Open,
    // It has ended, or did not come about, and another one is to come.
    Waiting,
    // The handshake of another one is not done.
    Again,
    // It has ended, or did not come about.
    Gone,
}

// A run: what is typed and printed, and the client's connection.
#[derive(Drop)]
struct Watched<N: RandomSource + Drop> {
    address: SocketAddr,
    terminal: Terminal,
    connection: Connection<TcpStream, N>,
    standing: LinkStanding,
    // What the connection waits for next.
    waits: u64,
    is_once: bool,
    // When the connection was begun, and when it was lost, where that was noted; and how many milliseconds
    // were waited before it was begun, or are before the next one.
    begun: Instant,
    lost: Option<Instant>,
    waited: u64,
}

// What a turn of the connection leaves of a run.
#[derive(Drop)]
enum Left {
    // The connection waits so many milliseconds at most.
    Waits(u64),
    // Nothing listens there.
    Unreached(Lost),
    // The connection is gone, or did not come about.
    Lost(Lost),
}

// How many milliseconds it is, as far as 64 bits count.
fn millis_of(time: Duration) -> u64
    ensures { result ≡ millis_of time }
{
    u64::try_from(time.as_millis()).unwrap_or(u64::MAX)
}

// Whether a connection does not come about since nothing listens there. A stream that is closed or reset
// before the handshake is done has reached somebody.
fn is_refused(why: &Lost) -> bool
    ensures { result ≡ is_refused why.now }
{
    match why {
        Lost::Unreachable(why) => matches!(why.kind(), ErrorKind::ConnectionRefused),
        Lost::NoHandshake(_)
        | Lost::Late
        | Lost::Failed(_)
        | Lost::Closed
        | Lost::ClosedWith(_)
        | Lost::Silent => false,
    }
}

// What is left where no connection comes about.
fn unopened(why: Lost) -> Left
    ensures { result ≡ unopened why }
{
    if is_refused(&why) {
        Left::Unreached(why)
    } else {
        Left::Lost(why)
    }
}

// What a turn of the connection leaves.
fn left_by(turn: LinkTurn) -> Left
    ensures { result ≡ left_by turn }
{
    match turn {
        LinkTurn::Idle(most) => Left::Waits(millis_of(most)),
        LinkTurn::More => Left::Waits(0),
        LinkTurn::NotOpened(why) => unopened(why),
        LinkTurn::Ended(why) => Left::Lost(why),
    }
}

// For how long a connection is waited for, or for the next one while lines come; not where there is none.
fn waited(standing: LinkStanding, has_ended: bool, waits: u64) -> Option<u64>
    ensures { result ≡ waited standing has_ended waits }
{
    match standing {
        LinkStanding::Opening | LinkStanding::Open | LinkStanding::Again => Some(waits),
        LinkStanding::Waiting if has_ended => None,
        LinkStanding::Waiting => Some(waits),
        LinkStanding::Gone => None,
    }
}

// Where a run stands whose connection is gone.
fn standing_lost(is_once: bool) -> LinkStanding
    ensures { result ≡ lost_by is_once }
{
    if is_once {
        LinkStanding::Gone
    } else {
        LinkStanding::Waiting
    }
}

// Whether it is printed that the connection is gone: not where another one did not come about either.
fn is_news(standing: LinkStanding) -> bool
    ensures { (if result then disconnected else []) ≡ said_lost standing }
{
    match standing {
        LinkStanding::Opening | LinkStanding::Open | LinkStanding::Waiting | LinkStanding::Gone =>
            true,
        LinkStanding::Again => false,
    }
}

// Whether there is a connection, or one is begun.
fn is_carried(standing: LinkStanding) -> bool
    ensures { result ≡ is_carried standing }
{
    match standing {
        LinkStanding::Opening | LinkStanding::Open | LinkStanding::Again => true,
        LinkStanding::Waiting | LinkStanding::Gone => false,
    }
}

impl<N: RandomSource + Drop> Watched<N> {
    // The connection is gone, which is printed where one stood or was the first, and told why.
    fn lose<L: Log>(&mut self, why: &Lost, log: &mut L) -> Result<(), AllocError>
        ensures gone { self.new.standing ≡ lost_by self.old.is_once }
        ensures printed { OnOk result (Appends self.old.terminal.printed self.new.terminal.printed
            (said_lost self.old.standing)) }
        ensures rest { self.new ≡ record (self.old) {
          terminal = record (self.old.terminal) { printed = self.new.terminal.printed };
          standing = self.new.standing;
        } }
    {
        let is_news = is_news(self.standing);
        self.standing = standing_lost(self.is_once);
        self.terminal.tell_lost(why, is_news, log)?;
        if is_news && !self.is_once && !self.terminal.has_ended {
            log.tell(WILL_CONNECT);
        }
        Ok(())
    }

    // Tells that the connection stands, where it did not stand before.
    fn greet<L: Log>(&self, log: &mut L) {
        match self.standing {
            LinkStanding::Opening => log.tell(CONNECTED),
            LinkStanding::Again => log.tell(CONNECTED_AGAIN),
            LinkStanding::Open | LinkStanding::Waiting | LinkStanding::Gone => {}
        }
    }

    // Prints what the messages say that the client has taken.
    fn tell_news<R: Wait>(&mut self, rt: &R, linked: &Linked) -> Result<(), AllocError>
        ensures printed { OnOk result ((text : List ℕ)
            × Appends self.old.terminal.printed self.new.terminal.printed text
            × PrintsNews self.old.connection.passed self.old.terminal.seats.items text
            self.new.terminal.seats.items) }
        ensures rest { self.new ≡ record (self.old) {
          terminal = record (self.old.terminal) {
            seats = self.new.terminal.seats;
            printed = self.new.terminal.printed;
          };
          connection = record (self.old.connection) { passed = [] };
        } }
    {
        let passed = self.connection.take_passed();
        self.terminal.tell_news(rt, linked, passed.as_slice())
    }

    // Carries the connection on, and prints what comes of it.
    #[tactic(auto, using(crate::proofs::Faulting::faults))]
    fn turn<R: Wait + Clock, L: Log>(
        &mut self,
        rt: &R,
        linked: &Linked,
        log: &mut L,
    ) -> Result<(), WatchFault>
        ensures fault { IfErr result IsNoWriteFault }
        ensures gone { is_carried self.old.standing ≡ false → (result ≡ Ok tt) × (self.new ≡ self.old) }
        ensures turned { OnOk result (IsTurned self.old self.new) }
    {
        if !is_carried(self.standing) {
            return Ok(());
        }
        let turn = self.connection.turn(rt, &linked.client)?;
        self.note(rt, linked, turn, log)
    }

    // Prints what a turn's messages say, and notes what it leaves.
    #[tactic(auto, using(crate::proofs::Faulting::faults))]
    fn note<R: Wait, L: Log>(
        &mut self,
        rt: &R,
        linked: &Linked,
        turn: LinkTurn,
        log: &mut L,
    ) -> Result<(), WatchFault>
        ensures fault { IfErr result IsNoWriteFault }
        ensures noted { OnOk result (NotesTurn turn self.old self.new) }
    {
        if self.connection.is_open() {
            self.greet(log);
            self.standing = LinkStanding::Open;
        }
        if let Err(why) = self.tell_news(rt, linked) {
            drop(turn);
            return Err(WatchFault::from(why));
        }
        self.leave(turn, log)
    }

    // Notes what a turn leaves.
    #[tactic(auto, using(crate::proofs::Faulting::faults))]
    fn leave<L: Log>(&mut self, turn: LinkTurn, log: &mut L) -> Result<(), WatchFault>
        ensures fault { IfErr result IsNoWriteFault }
        ensures noted { OnOk result ((text : List ℕ)
            × Appends self.old.terminal.printed self.new.terminal.printed text
            × IsNoted (left_by turn) self.old.is_once self.old.waits self.old.standing self.new.waits
            self.new.standing text) }
        ensures ends { IfErr result (EndsBy (left_by turn) self.old.address) }
        ensures rest { self.new ≡ record (self.old) {
          terminal = record (self.old.terminal) { printed = self.new.terminal.printed };
          standing = self.new.standing;
          waits = self.new.waits;
        } }
    {
        match left_by(turn) {
            Left::Waits(most) => {
                self.waits = most;
                Ok(())
            }
            Left::Unreached(why) if self.standing == LinkStanding::Opening => {
                Err(WatchFault::NotConnected {
                    address: self.address,
                    why,
                })
            }
            Left::Unreached(why) | Left::Lost(why) => {
                let lost = self.lose(&why, log);
                drop(why);
                lost?;
                Ok(())
            }
        }
    }

    // Does the lines that wait, once the connection has come about or is gone, and writes what is printed of
    // them.
    #[tactic(auto, using(crate::proofs::Turned::waits))]
    fn do_waiting<R: Wait + Clock + RandomSource, D: Drain, L: Log>(
        &mut self,
        rt: &R,
        linked: &Linked,
        lines: &Lines,
        queue: MutexGuard<'_, Queue>,
        writer: &mut D,
        log: &mut L,
    ) -> Result<(), WatchFault>
        requires { D.failures writer.old + 1 < 2 ^ 64 }
        ensures ok { OnOk result (D.failures writer.new ≡ D.failures writer.old) }
        ensures fault { IfErr result (λ e. TellsWrite e (D.failures writer.old) (D.failures writer.new)) }
        ensures done { OnOk result (DoesWaiting (mutex_guard_value queue.entry) (D.contents writer.old)
            (D.contents writer.new) self.old self.new) }
    {
        if self.standing == LinkStanding::Opening {
            return Ok(());
        }
        let done = self.terminal.do_lines(rt, linked, lines, queue, log);
        self.terminal.write_out(rt, writer)?;
        done
    }

    // What the run does next, which has done all that it could.
    #[tactic(auto, using(crate::proofs::Faulting::faults))]
    fn next<R: Clock>(&self, rt: &R, enough: Option<u64>) -> Result<WatchNext, WatchFault>
        ensures fault { IfErr result IsNoWriteFault }
        ensures next { IfOk result (λ n. (quiet : ℕ)
            × (n ≡ next (waited self.now.standing self.now.terminal.has_ended self.now.waits)
            self.now.terminal.has_ended quiet enough)) }
    {
        let connection = waited(self.standing, self.terminal.has_ended, self.waits);
        let quiet = millis_of(self.terminal.quiet_since.elapsed(rt)?);
        Ok(next_of(connection, self.terminal.has_ended, quiet, enough))
    }

    // Carries the connection on, writes what is printed of it, and says what the run does next.
    #[tactic(auto, using(crate::proofs::Faulting::faults))]
    fn go_on<R: Wait + Clock, D: Drain, L: Log>(
        &mut self,
        rt: &R,
        linked: &Linked,
        enough: Option<u64>,
        writer: &mut D,
        log: &mut L,
    ) -> Result<WatchNext, WatchFault>
        requires { D.failures writer.old + 1 < 2 ^ 64 }
        ensures ok { OnOk result (D.failures writer.new ≡ D.failures writer.old) }
        ensures fault { IfErr result (λ e. TellsWrite e (D.failures writer.old) (D.failures writer.new)) }
        ensures done { IfOk result (λ n. WritesTurn (D.contents writer.old) (D.contents writer.new)
            enough self.old n self.new) }
    {
        let was = self.standing;
        let turned = self.turn(rt, linked, log);
        self.terminal.write_out(rt, writer)?;
        turned?;
        if self.standing != was {
            return Ok(WatchNext::GoOn);
        }
        self.next(rt, enough)
    }

    // One round: lines are done that wait, and the connection is carried on.
    #[tactic(auto, using(crate::proofs::Faulting::faults))]
    fn round<R: Wait + Clock + RandomSource, D: Drain, L: Log>(
        &mut self,
        rt: &R,
        linked: &Linked,
        lines: &Lines,
        queue: MutexGuard<'_, Queue>,
        enough: Option<u64>,
        writer: &mut D,
        log: &mut L,
    ) -> Result<WatchNext, WatchFault>
        requires { D.failures writer.old + 1 < 2 ^ 64 }
        ensures ok { OnOk result (D.failures writer.new ≡ D.failures writer.old) }
        ensures fault { IfErr result (λ e. TellsWrite e (D.failures writer.old) (D.failures writer.new)) }
        ensures done { IfOk result (λ n. Rounds (mutex_guard_value queue.entry) (D.contents writer.old)
            (D.contents writer.new) enough self.old n self.new) }
    {
        self.do_waiting(rt, linked, lines, queue, writer, log)?;
        self.go_on(rt, linked, enough, writer, log)
    }

    // What a run answers that ended so, and whose connection was closed so.
    fn outcome(
        &self,
        outcome: Result<(), WatchFault>,
        closed: Result<(), LinkFault>,
    ) -> Result<u64, WatchFault>
        ensures ok { IfOk result (λ bad_lines. (bad_lines ≡ self.now.terminal.bad_lines)) }
        ensures run { IfErr outcome (λ why. result ≡ Err why) }
        ensures closed { OnOk outcome (IfErr closed (λ why. result ≡ Err (of_link why))) }
        ensures done { OnOk outcome (OnOk closed (result ≡ Ok self.now.terminal.bad_lines)) }
    {
        outcome?;
        closed?;
        Ok(self.terminal.bad_lines)
    }

    // Notes when the connection was lost, and for how long the next one is waited for. Answers since when.
    #[tactic(auto, using(crate::proofs::Faulting::faults))]
    fn lost_since<R: Clock>(&mut self, rt: &R) -> Result<Instant, WatchFault>
        ensures fault { IfErr result IsNoWriteFault }
    {
        if let Some(lost) = self.lost {
            return Ok(lost);
        }
        let stood = millis_of(self.begun.elapsed(rt)?);
        self.waited = wait_after(self.waited, stood);
        let now = Instant::now(rt)?;
        self.lost = Some(now);
        Ok(now)
    }
}

impl<R: Net + Wait + Clock + RandomSource + Clone + Drop> Watched<R> {
    // Begins another connection.
    #[tactic(auto, using(crate::proofs::Faulting::faults))]
    fn connect(&mut self, rt: &R, alloc: Global, link: &mut Link) -> Result<(), WatchFault>
        ensures fault { IfErr result IsNoWriteFault }
    {
        self.lost = None;
        self.begun = Instant::now(rt)?;
        self.waits = 0;
        match link.connect(rt, alloc, rt.clone()?, self.address)? {
            Ok(connection) => {
                self.connection = connection;
                self.standing = LinkStanding::Again;
            }
            Err(why) => drop(why),
        }
        Ok(())
    }

    // Begins another connection where the last is gone, there is to be one, and enough time has gone by.
    #[tactic(auto, using(crate::proofs::Faulting::faults))]
    fn connect_again(&mut self, rt: &R, alloc: Global, link: &mut Link) -> Result<(), WatchFault>
        ensures fault { IfErr result IsNoWriteFault }
    {
        if self.standing != LinkStanding::Waiting || self.terminal.has_ended {
            return Ok(());
        }
        let lost = self.lost_since(rt)?;
        let passed = millis_of(lost.elapsed(rt)?);
        if passed < self.waited {
            self.waits = self.waited - passed;
            return Ok(());
        }
        self.connect(rt, alloc, link)
    }

    // Runs until the input has ended, and then the connection or the news.
    #[tactic(auto, using(crate::proofs::Faulting::faults))]
    fn run<D: Drain, L: Log>(
        &mut self,
        rt: &R,
        alloc: Global,
        linked: &Linked,
        link: &mut Link,
        lines: &Lines,
        enough: Option<u64>,
        writer: &mut D,
        log: &mut L,
    ) -> Result<(), WatchFault>
        requires { D.failures writer.old + 1 < 2 ^ 64 }
        ensures ok { OnOk result (D.failures writer.new ≡ D.failures writer.old) }
        ensures fault { IfErr result (λ e. TellsWrite e (D.failures writer.old) (D.failures writer.new)) }
    {
        for _ in rt.forever() {
            self.connect_again(rt, alloc, link)?;
            let queue = lines.lock(rt);
            match self.round(rt, linked, lines, queue, enough, writer, log)? {
                WatchNext::GoOn => {}
                WatchNext::Sleep(most) => link.wait(Duration::from_millis(most))?,
                WatchNext::End => return Ok(()),
            }
        }
        unreachable!()
    }
}

// A new client of eight seats, with what carries it.
#[tactic(auto, using(crate::proofs::Faulting::faults))]
fn open<R: Net>(rt: &R, alloc: Global) -> Result<(Link, Linked, Vec<Seat>), WatchFault>
    ensures { IfErr result IsNoWriteFault }
{
    let Ok((client, seats)) = Client::open(alloc, NUMBER, &CAPACITIES, Limits::full()) else {
        return Err(WatchFault::Ended(ConsoleError::NoMemory));
    };
    match Link::open(rt, alloc, client) {
        Ok((link, linked)) => Ok((link, linked, seats)),
        Err(why) => {
            drop(seats);
            Err(WatchFault::from(why))
        }
    }
}

// Starts the thread that reads lines. It gives the reader back.
#[tactic(auto, using(crate::proofs::Faulting::faults))]
fn read_on<R: Threads + Wait + Clone + Drop + Send + 'static, I: Source + Send + Drop + 'static>(
    rt: &R,
    alloc: Global,
    linked: &Linked,
    reader: I,
) -> Result<(Arc<Lines, Global>, JoinHandle<I>), WatchFault>
    requires bytes { I.given reader ≤ 2 ^ 63 }
    requires reads { I.failures reader + 1 < 2 ^ 64 }
    ensures { IfErr result IsNoWriteFault }
{
    // For the prover: what the thread is handed.
    link_crossing_law();
    let lines = Arc::new(alloc, Lines::new(alloc, linked.bell()?))?;
    let (theirs, theirs_rt) = (Arc::try_clone(&lines)?, rt.clone()?);
    let read = move || -> I
        requires bytes { I.given reader ≤ 2 ^ 63 }
        requires reads { I.failures reader + 1 < 2 ^ 64 }
    { feed(&theirs_rt, alloc, reader, &theirs) };
    let reading = Builder::new().spawn(rt, read)?;
    Ok((lines, reading))
}

// A run that is ready: its client has so many seats, and its connection is begun.
#[tactic(auto, using(crate::proofs::Faulting::faults))]
fn begin<R: Net + Clock + RandomSource + Clone + Drop>(
    rt: &R,
    alloc: Global,
    link: &mut Link,
    seats: Vec<Seat>,
    watching: Watching,
) -> Result<Watched<R>, WatchFault>
    ensures { IfErr result IsNoWriteFault }
{
    let begun = Instant::now(rt)?;
    let address = watching.address;
    let terminal = Terminal::new(alloc, open_seats(alloc, seats)?, begun);
    match link.connect(rt, alloc, rt.clone()?, address)? {
        Ok(connection) => Ok(Watched {
            address,
            terminal,
            connection,
            standing: LinkStanding::Opening,
            waits: 0,
            is_once: watching.is_once,
            begun,
            lost: None,
            waited: 0,
        }),
        Err(why @ Lost::Unreachable(_)) => {
            drop(terminal);
            Err(WatchFault::NotConnected { address, why })
        }
        // What a handshake says of an address is well-formed, so that only memory can lack for it.
        Err(why) => {
            drop(why);
            drop(terminal);
            Err(WatchFault::Ended(ConsoleError::NoMemory))
        }
    }
}

/// Connects a new client of eight seats to an address, and does the lines that a reader gives as they come:
/// the calls of its seats, by their numbers from 1, the end of a seat, and the listens that are kept. What
/// the server sends is taken as it comes, and what the seats are told of it is written at once. A message
/// prints nothing itself, but why it is refused. Answers the number of bad lines.
///
/// Lines are done from when the handshake is done. Where none comes about, and where the connection ends,
/// `disconnected` is printed, and the lines go on. While lines may come another connection is begun then, but
/// where there is to be one alone: after a second, twice as late behind each further end, up to 30 seconds,
/// as of [`Link::keep`]. Once the input has ended the run goes on until the connection has ended, or nothing
/// was printed for so long as is asked for. Then the client says that it goes, and waits a second at most
/// until the server has gone too.
///
/// The log is told how the connection stands, what to type, and what is wrong with each line.
///
/// The lines are read in a thread of their own, which ends with the input. It is not waited for where the
/// run ends early. The reader is given back where it is: that its cause can be had where it failed.
///
/// # Errors
///
/// `NotConnected` where nothing listens there, `System` where the system refuses the thread or what waiting
/// needs, and `Ended`: `ReadFault` where the reader fails or gives more than 67,108,864 bytes, `WriteFault`
/// where the writer fails, and `NoMemory`.
#[tactic(auto, using(crate::proofs::Faulting::faults))]
pub fn watch<
    R: Net + Threads + Wait + Clock + RandomSource + Clone + Drop + Send + 'static,
    I: Source + Send + Drop + 'static,
    D: Drain,
    L: Log,
>(
    rt: &R,
    alloc: Global,
    watching: Watching,
    reader: I,
    writer: &mut D,
    log: &mut L,
) -> (Result<u64, WatchFault>, Option<I>)
    requires bytes { I.given reader ≤ 2 ^ 63 }
    requires reads { I.failures reader + 1 < 2 ^ 64 }
    requires writes { D.failures writer.old + 1 < 2 ^ 64 }
    ensures ok { OnOk result.0 (D.failures writer.new ≡ D.failures writer.old) }
    ensures fault { IfErr result.0 (λ e. TellsWrite e (D.failures writer.old) (D.failures writer.new)) }
{
    let (mut link, linked, seats) = match open(rt, alloc) {
        Ok(opened) => opened,
        Err(why) => return (Err(why), Some(reader)),
    };
    let mut watched = match begin(rt, alloc, &mut link, seats, watching) {
        Ok(begun) => begun,
        Err(why) => return (Err(why), Some(reader)),
    };
    let (lines, reading) = match read_on(rt, alloc, &linked, reader) {
        Ok(started) => started,
        Err(why) => return (Err(why), None),
    };
    let outcome = watched.run(
        rt,
        alloc,
        &linked,
        &mut link,
        &lines,
        watching.idle_ms,
        writer,
        log,
    );
    lines.leave(rt);
    let reader = if watched.terminal.has_ended {
        Some(reading.join(rt))
    } else {
        drop(reading);
        None
    };
    let closed = link.close(rt, &linked.client, &mut watched.connection);
    (watched.outcome(outcome, closed), reader)
}
