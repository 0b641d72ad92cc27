// The emulator: who connects is let in, and each has its turns.
ghost use Rattle.std.specs.Prelude.{◌≡◌, nat_le, false};
ghost use Rattle.std.specs.Option.{option_map_or};
ghost use Rattle.rt_emulate.specs.inside.Alarms.{patience};
ghost use Rattle.rt_emulate.specs.inside.Guests.{patience_of};

use crate::diary::{self, Diary};
use crate::edge::{Edge, Keys, LISTENER, Stopper, WAKER};
use crate::fault::EmulateFault;
use crate::guest::sooner;
use crate::guests::Guests;
use crate::keeper::{Keeper, say};
use crate::pen::Pen;
use crate::settings::{Emulating, Halt, Kind};
use crate::site::Site;
use mio::net::TcpStream;
use rt_hub::{Bounds, Hub};
use rt_journal::{Journal, tree_in};
use rt_tree::Tree;
use std::alloc::{AllocGlobal, Global};
use std::fs::File;
use std::io::{self, ErrorKind};
use std::net::{Net, SocketAddr};
use std::random::RandomSource;
use std::rt::{Clock, Files};
use std::sync::Wait;
use std::thread::Threads;

// How many that connect are let in at once.
const MOST_ACCEPTED: usize = 256;

// After how many milliseconds it is tried again to let somebody in, where that failed.
const RETRY_MS: u64 = 1_000;

// After how many milliseconds it is tried again to have lines written, where that was not taken.
const LINES_MS: u64 = 100;

/// Serves a tree to any number of clients at once.
pub struct Emulator {
    alloc: Global,
    edge: Edge,
    guests: Guests,
    count: Option<u16>,
    // How many milliseconds have passed since the start.
    now: u64,
    // Whether somebody may wait to be let in.
    has_visitor: bool,
    // When it is tried again to let somebody in, where that failed.
    retry_at: Option<u64>,
}

impl Drop for Emulator {
    fn drop(self) {
        let Emulator {
            alloc: _,
            edge: _,
            guests: _,
            count: _,
            now: _,
            has_visitor: _,
            retry_at: _,
        } = self;
    }
}

// The first tree is that of the seed, if there is one.
fn sow<Y>(system: &Y, emulating: &mut Emulating) -> Result<(), EmulateFault>
where
    Y: Files<File = File> + AllocGlobal,
{
    if let Some(seed) = emulating.seed.take() {
        emulating.tree = tree_in(system, seed.as_str())?;
    }
    Ok(())
}

// The folders whose files are served, if there are such.
fn site_of<Y: Files>(
    system: &Y,
    alloc: Global,
    emulating: &mut Emulating,
) -> Result<Site, EmulateFault> {
    let public = emulating.public.take();
    let page = emulating.page.take();
    Site::open(system, alloc, public, page)
}

// The journal of the file that the tree is kept in, if there is one. Its tree is the first one then.
fn journal_of<Y>(
    system: &Y,
    emulating: &mut Emulating,
    log: &mut Diary,
) -> Result<Option<Journal>, EmulateFault>
where
    Y: Files<File = File> + RandomSource + AllocGlobal,
{
    let Some(file) = emulating.file.take() else {
        return Ok(None);
    };
    let first = std::mem::replace(&mut emulating.tree, Tree::null());
    let is_synced = emulating.is_synced;
    let (journal, tree, notice) = Journal::open(system, file, first, is_synced)?.into_parts();
    emulating.tree = tree;
    say(&journal, notice, log);
    Ok(Some(journal))
}

// How many milliseconds may be waited, where something is next at that time; none: for ever. Nothing is
// waited for where there is work now.
fn patience(has_work: bool, next: Option<u64>, now: u64) -> Option<u64>
    ensures { result ≡ patience has_work next now }
{
    if has_work {
        return Some(0);
    }
    match next {
        Some(at) => Some(at.saturating_sub(now)),
        None => None,
    }
}

// Nobody has come yet to what is served. The folders are looked for, and the seed and the file are read, if there are
// such.
fn guests_of<Y>(
    system: &Y,
    alloc: Global,
    mut emulating: Emulating,
    log: &mut Diary,
) -> Result<Guests, EmulateFault>
where
    Y: Files<File = File> + RandomSource + Clock + AllocGlobal,
{
    let site = site_of(system, alloc, &mut emulating)?;
    sow(system, &mut emulating)?;
    let journal = journal_of(system, &mut emulating, log)?;
    let (tree, denied, origins) = emulating.into_parts();
    let hub = Hub::new(alloc, tree, denied, Bounds::full());
    Ok(Guests::new(
        alloc,
        hub,
        Keeper::new(journal),
        Keys::begin(system),
        site,
        origins,
        log.says(Kind::Message),
    ))
}

impl Emulator {
    /// Looks for the folders that are served, reads the seed and the file, if there are such, and waits
    /// at the port: from here on clients can connect.
    ///
    /// # Errors
    ///
    /// `NotKept` where a file can't be read or written, has no tree, or is another emulator's,
    /// `NotServed` where a folder isn't there or is none, `NotBound` where the port can't be bound,
    /// `NotWaited` where the system has nothing to wait with, each with the reason; `NoMemory` where
    /// memory is lacking.
    pub fn open<R, Y>(
        rt: &R,
        system: &Y,
        emulating: Emulating,
        log: &mut Diary,
    ) -> Result<Emulator, EmulateFault>
    where
        R: Net,
        Y: Files<File = File> + RandomSource + Clock + AllocGlobal,
    {
        let alloc = system.alloc();
        let (host, count) = (emulating.host, emulating.count);
        let address = SocketAddr::new(host, emulating.port);
        let edge = Edge::open(rt, system, alloc, address)?;
        let guests = guests_of(system, alloc, emulating, log)?;
        diary::listening(alloc, log, address);
        Ok(Emulator {
            alloc,
            edge,
            guests,
            count,
            now: 0,
            has_visitor: false,
            retry_at: None,
        })
    }

    /// What ends it.
    ///
    /// # Errors
    ///
    /// Where memory is lacking.
    pub fn stopper(&self) -> Result<Stopper, EmulateFault> {
        Ok(self.edge.stopper()?)
    }

    // How many milliseconds may be waited for events; none: for ever. Where lines wait they are handed on
    // soon.
    fn patience(&self, has_lines: bool) -> Option<u64>
        ensures { result ≡ patience_of self.entry.now has_lines }
    {
        let present = &self.guests.present;
        let is_idle = present.is_idle() && self.guests.leaving.is_empty();
        let has_work = !is_idle || (self.has_visitor && self.retry_at.is_none());
        let lines_at = if has_lines {
            Some(self.now.saturating_add(LINES_MS))
        } else {
            None
        };
        let next = sooner(sooner(present.alarms.next(), self.retry_at), lines_at);
        patience(
            has_work,
            sooner(next, self.guests.kept_at(self.now)),
            self.now,
        )
    }

    // Lets in who waits to be let in. Where that fails, it is tried again once a guest has gone or a
    // second has passed.
    fn let_in(&mut self, log: &mut Diary) -> Result<(), Halt> {
        for _ in 0..MOST_ACCEPTED {
            match self.edge.accept() {
                Ok((stream, from)) => {
                    self.retry_at = None;
                    self.let_one_in(stream, from, log)?;
                }
                Err(why) => {
                    if self.stops_letting_in(why, log) {
                        return Ok(());
                    }
                }
            }
        }
        Ok(())
    }

    // Nobody could be let in, for that reason. Answers whether nobody is for now.
    fn stops_letting_in(&mut self, why: io::Error, log: &mut Diary) -> bool {
        let kind = why.kind();
        if kind == ErrorKind::Interrupted || kind == ErrorKind::ConnectionAborted {
            return false;
        }
        if kind == ErrorKind::WouldBlock {
            self.has_visitor = false;
            self.retry_at = None;
            return true;
        }
        if self.retry_at.is_none() {
            diary::not_accepted(self.alloc, log, &why);
        }
        self.retry_at = Some(self.now.saturating_add(RETRY_MS));
        true
    }

    // Lets in one that has connected.
    fn let_one_in(
        &mut self,
        mut stream: TcpStream,
        from: SocketAddr,
        log: &mut Diary,
    ) -> Result<(), Halt> {
        let _at_once = stream.set_nodelay(true);
        match self
            .edge
            .listen_to(&mut stream, self.guests.present.all.vacant_key())
        {
            Ok(()) => self.guests.add(stream, from, self.now),
            Err(why) => {
                diary::not_accepted(self.alloc, log, &why);
                Ok(())
            }
        }
    }

    // Takes what happened, and answers whether it is to stop.
    fn take(&mut self) -> Result<bool, Halt> {
        let mut stops = false;
        for event in self.edge.events() {
            let token = event.token();
            if token == LISTENER {
                self.has_visitor = true;
            } else if token == WAKER {
                stops = true;
            } else {
                self.guests.present.wake(
                    token.0,
                    event.is_readable(),
                    event.is_writable(),
                    self.now,
                )?;
            }
        }
        Ok(stops)
    }

    // Those that have come have their turns.
    fn turn<Y: Files<File = File>>(&mut self, system: &Y, log: &mut Diary) -> Result<(), Halt> {
        let gone = self.guests.gone;
        let is_time = match self.retry_at {
            Some(at) => at <= self.now,
            None => true,
        };
        if self.has_visitor && is_time {
            self.let_in(log)?;
        }
        let count = self.guests.present.all.len();
        self.guests.turn_all(system, self.now, log)?;
        self.guests.ring_all(self.now, log)?;
        self.guests.leave_on()?;
        if self.guests.present.all.len() < count || gone < self.guests.gone {
            // A descriptor is free again.
            if self.retry_at.is_some() {
                self.retry_at = Some(self.now);
            }
        }
        Ok(())
    }

    // Whether as many connections have gone as are served.
    fn is_done(&self) -> bool
        ensures { result ≡ option_map_or (λ count. nat_le count self.entry.now.guests.gone)
            self.entry.now.count false }
    {
        match self.count {
            Some(count) => self.guests.gone >= u64::from(count),
            None => false,
        }
    }

    // Takes what happened, and does all that can be done now without waiting. Answers whether it has stopped,
    // as it was told to, or since as many connections have gone as are served: then all go, what they asked
    // for at their end is run, and the tree's file has it all.
    fn work<R, Y>(&mut self, rt: &R, system: &Y, log: &mut Diary) -> Result<bool, Halt>
    where
        R: Threads,
        Y: Files<File = File> + RandomSource,
    {
        let stops = self.take()?;
        self.turn(system, log)?;
        self.guests.renew_roster()?;
        self.guests.keep(rt, system, self.now, log)?;
        if stops || self.is_done() {
            self.guests.close(rt, system, log)?;
            return Ok(true);
        }
        Ok(false)
    }

    /// Serves who connects until it is told to stop, or as many connections have gone as it is to serve.
    /// Then all connections are ended, and the tree is written to its file. What is accepted before stands
    /// in the file's journal by the time that its client hears of it. What is said is handed on to the pen.
    ///
    /// # Errors
    ///
    /// `NotWaited` where the system can't be waited for, `NotKept` where the file or its journal can't be
    /// written, each with the reason; `NoMemory` where memory is lacking.
    pub fn run<R, Y>(
        mut self,
        rt: &R,
        system: &Y,
        log: &mut Diary,
        pen: &Pen,
    ) -> Result<(), EmulateFault>
    where
        R: Wait + Threads,
        Y: Files<File = File> + RandomSource + Clock,
    {
        for _ in rt.forever() {
            pen.hand_on(rt, log);
            let patience = self.patience(!log.is_empty());
            if let Err(why) = self.edge.wait(patience) {
                return Err(EmulateFault::NotWaited(why));
            }
            self.now = self.edge.now(system, self.now);
            log.at(self.now);
            match self.work(rt, system, log) {
                Ok(false) => {}
                Ok(true) => return Ok(()),
                Err(halt) => return Err(self.guests.fault_of(halt)),
            }
        }
        unreachable!()
    }
}
