// Those that are there, each at a place of its own, and who is next.
ghost use Rattle.std.specs.Prelude.{◌≡◌, ◌≢◌, ◌∷◌, ◌++◌, [], ℕ, None, OnOk};
ghost use Rattle.std.specs.Option.{option_copied, option_copied_mut, option_map};
ghost use Rattle.slab.specs.Slab.{get};
ghost use Rattle.rt_emulate.specs.inside.Guests.{asking_at, guest_of, is_idle, marked, noted_after};
ghost use Rattle.rt_emulate.specs.inside.Guests.{NotesAt, NotesEach, readied, ready_after, talk_at};
ghost use Rattle.rt_emulate.specs.inside.Places.{place_of};
ghost use Rattle.rt_emulate.specs.inside.Rosters.{client_in};

use crate::guest::{Alarms, Guest, HANDSHAKE_MS, Talk};
use crate::place::{Places, place_of};
use crate::requests::Asking;
use crate::settings::Halt;
use slab::Slab;
use std::alloc::Global;

/// Those that are there, each at a place of its own, and who is next.
pub(crate) struct Present {
    pub(crate) all: Slab<Guest>,
    pub(crate) places: Places,
    /// Those that have a turn next.
    pub(crate) ready: Vec<usize>,
    /// Those to whom what waits is handed over next.
    pub(crate) noted: Vec<usize>,
    /// When they are looked at.
    pub(crate) alarms: Alarms,
}

impl Drop for Present {
    fn drop(self) {
        let Present {
            all: _,
            places: _,
            ready: _,
            noted: _,
            alarms: _,
        } = self;
    }
}

impl Present {
    /// Nobody is there yet.
    pub(crate) fn new(alloc: Global) -> Present
        ensures nobody { (q : ℕ) → get result.all q ≡ None }
        ensures nothing { (result.places.items ≡ []) × (result.ready.items ≡ [])
            × (result.noted.items ≡ []) × (result.alarms ≡ []) }
    {
        Present {
            all: Slab::new(alloc),
            places: Vec::new(alloc),
            ready: Vec::new(alloc),
            noted: Vec::new(alloc),
            alarms: Alarms::new(alloc),
        }
    }

    /// The connection of the guest at that place, if it is one.
    pub(crate) fn talk(&mut self, place: usize) -> Option<&mut Talk>
        ensures { option_copied_mut result ≡ talk_at self.old place }
    {
        match self.all.get_mut(place) {
            Some(guest) => guest.talk(),
            None => None,
        }
    }

    /// The place of the guest of that connection, if it is still there.
    pub(crate) fn guest_of(&mut self, connection: u64) -> Option<usize>
        ensures { result ≡ guest_of self.old connection }
    {
        let place = place_of(&self.places, connection)?;
        match self.talk(place) {
            Some(talk) if talk.connection == connection => Some(place),
            Some(_) | None => None,
        }
    }

    /// The guest at that place, if it is that connection.
    pub(crate) fn client(&self, place: Option<usize>, connection: u64) -> Option<&Guest>
        ensures { option_copied result ≡ client_in self.now place connection }
    {
        match self.all.get(place?) {
            Some(guest) if guest.is_connection(connection) => Some(guest),
            Some(_) | None => None,
        }
    }

    /// The guest at that place, if it asks by plain HTTP.
    pub(crate) fn asking(&mut self, place: usize) -> Option<&mut Asking>
        ensures { option_copied_mut result ≡ asking_at self.old place }
    {
        match self.all.get_mut(place) {
            Some(guest) => guest.asking(),
            None => None,
        }
    }

    /// One comes now, to the next place, and has a turn next.
    pub(crate) fn add(&mut self, guest: Guest, now: u64) -> Result<(), Halt> {
        let serial = guest.serial;
        let Ok(place) = self.all.insert(guest) else {
            return Err(Halt::NoMemory);
        };
        self.alarms
            .set(now.saturating_add(HANDSHAKE_MS), serial, place)?;
        self.get_ready(place)
    }

    /// The guest at that place has a turn next.
    pub(crate) fn get_ready(&mut self, place: usize) -> Result<(), Halt>
        ensures ready { OnOk result (self.new.ready.items ≡ ready_after self.old place) }
        ensures readied { OnOk result (get self.new.all place ≡ option_map readied (get self.old.all place)) }
        ensures kept { self.new ≡ record (self.old) { all = self.new.all; ready = self.new.ready } }
    {
        let Some(guest) = self.all.get_mut(place) else {
            return Ok(());
        };
        if guest.is_ready {
            return Ok(());
        }
        guest.is_ready = true;
        push(&mut self.ready, place)
    }

    /// What waits for the guest at that place is handed over next.
    pub(crate) fn note(&mut self, place: usize) -> Result<(), Halt>
        ensures noted { OnOk result (self.new.noted.items ≡ noted_after self.old place) }
        ensures marked { OnOk result (get self.new.all place ≡ option_map marked (get self.old.all place)) }
        ensures others { (q : ℕ) → q ≢ place → get self.new.all q ≡ get self.old.all q }
        ensures kept { self.new ≡ record (self.old) { all = self.new.all; noted = self.new.noted } }
    {
        let Some(guest) = self.all.get_mut(place) else {
            return Ok(());
        };
        if guest.is_noted {
            return Ok(());
        }
        guest.is_noted = true;
        push(&mut self.noted, place)
    }

    // What waits for the guest of that connection is handed over next, if it is still there.
    fn note_of(&mut self, connection: u64) -> Result<(), Halt>
        ensures { OnOk result (NotesAt (place_of self.old.places.items connection) self.old self.new) }
    {
        match place_of(&self.places, connection) {
            Some(place) => self.note(place),
            None => Ok(()),
        }
    }

    /// What waits for the guests of these connections is handed over next.
    pub(crate) fn note_each(&mut self, connections: &[u64]) -> Result<(), Halt>
        ensures { OnOk result (NotesEach connections.now self.old self.new) }
    {
        for connection in connections {
            self.note_of(*connection)?;
        }
        Ok(())
    }

    /// The stream at that place has something to be read, or takes something.
    pub(crate) fn wake(
        &mut self,
        place: usize,
        is_readable: bool,
        is_writable: bool,
        now: u64,
    ) -> Result<(), Halt> {
        let Some(guest) = self.all.get_mut(place) else {
            return Ok(());
        };
        guest.wake(is_readable, is_writable, now);
        if is_writable {
            self.note(place)?;
        }
        self.get_ready(place)
    }

    /// Whether nobody has a turn, and nothing can be handed over.
    pub(crate) fn is_idle(&self) -> bool
        ensures { result ≡ is_idle self.now }
    {
        self.ready.is_empty() && self.noted.is_empty()
    }
}

fn push(places: &mut Vec<usize>, place: usize) -> Result<(), Halt>
    ensures { OnOk result (places.new.items ≡ places.old.items ++ place ∷ []) }
{
    match places.push(place) {
        Ok(()) => Ok(()),
        Err(_) => Err(Halt::NoMemory),
    }
}
