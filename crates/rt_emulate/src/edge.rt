// What an emulator has of the system: its port, what wakes it, and the time.
ghost use Rattle.std.specs.Prelude.{IfOk};
ghost use Rattle.rt_emulate.specs.inside.Asking.{IsNextKey};

use crate::fault::EmulateFault;
use mio::event::Event;
use mio::net::{TcpListener, TcpStream};
use mio::{Events, Interest, Poll, Token, Waker};
use rt_http::Fault;
use rt_push::PushIds;
use rt_tree::{Key, TreeError};
use std::alloc::{AllocError, Global};
use std::net::{Net, SocketAddr};
use std::random::RandomSource;
use std::rt::Clock;
use std::slice::Iter;
use std::sync::Arc;
use std::time::{Duration, Instant, SystemTime, UNIX_EPOCH};
use std::{io, str};

/// The token of who connects; a guest's is its place.
pub(crate) const LISTENER: Token = Token(usize::MAX);

/// The token of who stops the emulator.
pub(crate) const WAKER: Token = Token(usize::MAX - 1);

// How many events are taken at once.
const MOST_EVENTS: usize = 1_024;

/// Ends an emulator, from another thread.
pub struct Stopper {
    waker: Arc<Waker>,
}

impl Drop for Stopper {
    fn drop(self) {
        let Stopper { waker: _ } = self;
    }
}

impl Stopper {
    /// The emulator ends with its next turn.
    ///
    /// # Errors
    ///
    /// Where the system can't wake it.
    pub fn stop(&self) -> io::Result<()> {
        self.waker.wake()
    }
}

// What is waited with.
struct Bell {
    poll: Poll,
    events: Events,
    waker: Arc<Waker>,
}

impl Drop for Bell {
    fn drop(self) {
        let Bell {
            poll: _,
            events: _,
            waker: _,
        } = self;
    }
}

// What wakes who waits with that.
fn waker_of(alloc: Global, poll: &Poll) -> Result<Arc<Waker>, EmulateFault> {
    match Waker::new(poll.registry(), WAKER) {
        Ok(waker) => Ok(Arc::new(alloc, waker)?),
        Err(why) => Err(EmulateFault::NotWaited(why)),
    }
}

impl Bell {
    fn new<R: Net>(rt: &R, alloc: Global) -> Result<Bell, EmulateFault> {
        let events = Events::with_capacity(alloc, MOST_EVENTS)?;
        match Poll::new(rt) {
            Ok(poll) => Bell::of(alloc, poll, events),
            Err(why) => Err(EmulateFault::NotWaited(why)),
        }
    }

    fn of(alloc: Global, poll: Poll, events: Events) -> Result<Bell, EmulateFault> {
        let waker = waker_of(alloc, &poll)?;
        Ok(Bell {
            poll,
            events,
            waker,
        })
    }
}

// A listener at the address, of which each that connects is an event.
fn listener_of<R: Net>(rt: &R, poll: &Poll, address: SocketAddr) -> io::Result<TcpListener> {
    let mut listener = TcpListener::bind(rt, address)?;
    poll.registry()
        .register(&mut listener, LISTENER, Interest::READABLE)?;
    Ok(listener)
}

/// What an emulator has of the system.
pub(crate) struct Edge {
    bell: Bell,
    listener: TcpListener,
    start: Instant,
}

impl Drop for Edge {
    fn drop(self) {
        let Edge {
            bell: _,
            listener: _,
            start: _,
        } = self;
    }
}

impl Edge {
    /// Waits at the address: from here on clients can connect.
    pub(crate) fn open<R: Net, Y: Clock>(
        rt: &R,
        system: &Y,
        alloc: Global,
        address: SocketAddr,
    ) -> Result<Edge, EmulateFault> {
        let start = match Instant::now(system) {
            Ok(start) => start,
            Err(why) => return Err(EmulateFault::NotWaited(why)),
        };
        let bell = Bell::new(rt, alloc)?;
        match listener_of(rt, &bell.poll, address) {
            Ok(listener) => Ok(Edge {
                bell,
                listener,
                start,
            }),
            Err(why) => Err(EmulateFault::NotBound {
                port: address.port(),
                why,
            }),
        }
    }

    /// What ends the emulator.
    pub(crate) fn stopper(&self) -> Result<Stopper, AllocError> {
        let waker = Arc::try_clone(&self.bell.waker)?;
        Ok(Stopper { waker })
    }

    /// How many milliseconds have passed since the start: as many as before, where the system says fewer or
    /// doesn't say it.
    pub(crate) fn now<Y: Clock>(&self, system: &Y, before: u64) -> u64 {
        let Ok(passed) = self.start.elapsed(system) else {
            return before;
        };
        match u64::try_from(passed.as_millis()) {
            Ok(now) => before.max(now),
            Err(_) => before,
        }
    }

    /// Waits until something happens, for so many milliseconds at most; none: for ever.
    pub(crate) fn wait(&mut self, patience: Option<u64>) -> io::Result<()> {
        let patience = patience.map(Duration::from_millis);
        self.bell.poll.poll(&mut self.bell.events, patience)
    }

    /// The next one that connects.
    pub(crate) fn accept(&self) -> io::Result<(TcpStream, SocketAddr)> {
        self.listener.accept()
    }

    /// From now on what the stream gives and takes are events of the guest at that place.
    pub(crate) fn listen_to(&self, stream: &mut TcpStream, place: usize) -> io::Result<()> {
        let both = Interest::READABLE | Interest::WRITABLE;
        self.bell
            .poll
            .registry()
            .register(stream, Token(place), both)
    }

    /// What happened, one after another.
    pub(crate) fn events(&self) -> Iter<'_, Event> {
        self.bell.events.iter()
    }
}

// ---- keys for what is written without one

/// Keys for what is written without one: push ids, each above those before.
pub(crate) struct Keys {
    ids: PushIds,
    // When it began, in milliseconds behind 1970.
    start: u64,
    random: [u8; 12],
}

impl Drop for Keys {
    fn drop(self) {
        let Keys {
            ids: _,
            start: _,
            random: _,
        } = self;
    }
}

// How many milliseconds have passed since 1970; none where the clock can't be read.
fn moment<Y: Clock>(system: &Y) -> u64 {
    let Ok(now) = SystemTime::now(system) else {
        return 0;
    };
    let Ok(passed) = now.duration_since(UNIX_EPOCH) else {
        return 0;
    };
    match u64::try_from(passed.as_millis()) {
        Ok(now) => now,
        Err(_) => 0,
    }
}

// Twelve digits of base 64, of which the first can be counted up; zeros where the system gives no others.
fn digits<Y: RandomSource>(system: &Y) -> [u8; 12] {
    let mut digits = [0; 12];
    if system.fill_bytes(&mut digits).is_err() {
        return [0; 12];
    }
    for at in 0..12 {
        digits[at] %= 64;
    }
    digits[0] %= 32;
    digits
}

impl Keys {
    /// No key was made yet.
    pub(crate) fn begin<Y: Clock + RandomSource>(system: &Y) -> Keys {
        Keys {
            ids: PushIds::new(),
            start: moment(system),
            random: digits(system),
        }
    }

    /// The next key, so many milliseconds behind the start.
    ///
    /// # Errors
    ///
    /// `NoMemory` where memory lacks, and `NoAnswer` where the clock is beyond the moments of push ids.
    pub(crate) fn next(&mut self, alloc: Global, now: u64) -> Result<Key, Fault>
        ensures key { IfOk result (λ key. IsNextKey self.old now key self.new) }
    {
        let Ok(id) = self.ids.next(self.start.saturating_add(now), self.random) else {
            return Err(Fault::NoAnswer);
        };
        match Key::parse(alloc, str::from_utf8(&id).unwrap()) {
            Ok(key) => Ok(key),
            Err(TreeError::NoMemory) => Err(Fault::NoMemory),
            Err(error) => Err(Fault::Path(error)),
        }
    }
}
