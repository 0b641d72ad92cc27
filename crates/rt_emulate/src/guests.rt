// Those that have come, over one hub.
ghost use Rattle.std.specs.Prelude.{◌≡◌, ◌++◌, ◌∷◌, ◌+◌, ◌-◌, ◌^◌, min, length, [], None, Ok, IfOk, OnOk, true};
ghost use Rattle.std.specs.Option.{option_map_or};
ghost use Rattle.slab.specs.Slab.{get};
ghost use Rattle.rt_emulate.specs.Clients.{clients_text};
ghost use Rattle.rt_emulate.specs.declared.ending.GuestEnd.TheVariants.{Stopped};
ghost use Rattle.rt_emulate.specs.inside.Guests.{HandsAt, NotesEach, asking_at, kept_at, talk_at};
ghost use Rattle.rt_emulate.specs.inside.Keeping.{fault_by};
ghost use Rattle.rt_emulate.specs.inside.Requests.{stopped_of};
ghost use Rattle.rt_emulate.specs.inside.Rosters.{BeginsAt, Ends, RenewsIf, clients_of, is_due};

use crate::calls::OnWay;
use crate::diary::{self, Diary};
use crate::edge::Keys;
use crate::ending::{GuestEnd, Leaving, too_much};
use crate::fault::EmulateFault;
use crate::guest::{Guest, TextSent, Turned};
use crate::keeper::Keeper;
use crate::origins::Judge;
use crate::place::set_place;
use crate::present::Present;
use crate::requests::Next;
use crate::roster::{Roster, clients_text};
use crate::settings::Halt;
use crate::site::Site;
use crate::socket::Broken;
use mio::net::TcpStream;
use rt_hub::{Hub, Notes};
use std::alloc::Global;
use std::cmp::Reverse;
use std::fs::File;
use std::net::SocketAddr;
use std::random::RandomSource;
use std::rt::Files;
use std::thread::Threads;

// How many messages of one guest are taken in one turn.
const TURN_MESSAGES: usize = 64;

// How many reads, writes and answers there are in one turn of a guest that asks by plain HTTP.
const TURN_STEPS: usize = 64;

// After how many texts that were sent those that wait are handed over before the next message is taken.
const MOST_SENT: usize = 4_096;

/// Those that have come, over one hub: each by its place.
pub(crate) struct Guests {
    alloc: Global,
    hub: Hub,
    on_way: OnWay,
    allowed: Vec<String>,
    is_telling: bool,
    pub(crate) present: Present,
    roster: Roster,
    pub(crate) leaving: Leaving,
    // What turns leave to be done.
    notes: Notes,
    // How many texts were sent since what waits was handed over.
    sent: usize,
    // How many have come, and how many connections have gone.
    came: u64,
    pub(crate) gone: u64,
    keeper: Keeper,
    keys: Keys,
    site: Site,
    // How many milliseconds have passed since the start.
    now: u64,
}

impl Drop for Guests {
    fn drop(self) {
        let Guests {
            alloc: _,
            hub: _,
            on_way: _,
            allowed: _,
            is_telling: _,
            present: _,
            roster: _,
            leaving: _,
            notes: _,
            sent: _,
            came: _,
            gone: _,
            keeper: _,
            keys: _,
            site: _,
            now: _,
        } = self;
    }
}

impl Guests {
    /// Nobody has come yet.
    pub(crate) fn new(
        alloc: Global,
        hub: Hub,
        keeper: Keeper,
        keys: Keys,
        site: Site,
        allowed: Vec<String>,
        is_telling: bool,
    ) -> Guests {
        Guests {
            alloc,
            hub,
            on_way: OnWay::new(alloc),
            allowed,
            is_telling,
            present: Present::new(alloc),
            roster: Roster::new(alloc),
            leaving: Leaving::new(alloc),
            notes: Notes::new(alloc),
            sent: 0,
            came: 0,
            gone: 0,
            keeper,
            keys,
            site,
            now: 0,
        }
    }

    /// One comes, to the next place.
    pub(crate) fn add(
        &mut self,
        stream: TcpStream,
        from: SocketAddr,
        now: u64,
    ) -> Result<(), Halt> {
        let guest = Guest::new(self.alloc, stream, from, self.came, now);
        self.came = self.came.saturating_add(1);
        self.present.add(guest, now)
    }

    // Notes those to whose connections something was sent.
    fn note_told(&mut self) -> Result<(), Halt>
        ensures noted { OnOk result (NotesEach self.old.notes.told.items self.old.present self.new.present) }
        ensures told { OnOk result (self.new.notes.told.items ≡ []) }
        ensures counted { self.new.sent
            ≡ min (self.old.sent + length self.old.notes.told.items) (2 ^ 64 - 1) }
        ensures kept { self.new ≡ record (self.old) {
          sent = self.new.sent;
          present = self.new.present;
          notes = record (self.old.notes) { told = self.new.notes.told };
        } }
    {
        self.sent = self.sent.saturating_add(self.notes.told.len());
        self.present.note_each(self.notes.told.as_slice())?;
        self.notes.told.clear();
        Ok(())
    }

    /// Each that is ready has a turn, and what waits is handed over.
    pub(crate) fn turn_all<Y: Files<File = File>>(
        &mut self,
        system: &Y,
        now: u64,
        log: &mut Diary,
    ) -> Result<(), Halt> {
        self.now = now;
        let ready = std::mem::replace(&mut self.present.ready, Vec::new(self.alloc));
        self.turn_each(system, ready.as_slice(), log)
    }

    // The guests at these places have a turn. Then those that ask are told who is connected, and what waits
    // is handed over.
    fn turn_each<Y: Files<File = File>>(
        &mut self,
        system: &Y,
        places: &[usize],
        log: &mut Diary,
    ) -> Result<(), Halt> {
        for place in places {
            match self.turn(system, *place, log)? {
                Turned::Idle => {}
                Turned::More => self.present.get_ready(*place)?,
                Turned::Ends(why) => self.remove(*place, why, log)?,
            }
        }
        self.renew_roster()?;
        self.hand_over_all(log)
    }

    // The guest at that place has a turn.
    fn turn<Y: Files<File = File>>(
        &mut self,
        system: &Y,
        place: usize,
        log: &mut Diary,
    ) -> Result<Turned, Halt> {
        let Some(guest) = self.present.all.get_mut(place) else {
            return Ok(Turned::Idle);
        };
        if guest.begin_turn() {
            return self.listen_to(place, log);
        }
        if guest.asking().is_some() {
            return self.hear_requests(system, place, log);
        }
        self.shake(place, log)
    }

    // The guest at that place goes on to shake hands.
    fn shake(&mut self, place: usize, log: &mut Diary) -> Result<Turned, Halt>
        ensures begins { IfOk result (λ turned. BeginsAt (get self.old.present.all place) turned
            self.old.hub self.new.hub self.old.roster self.new.roster) }
    {
        let Some(guest) = self.present.all.get_mut(place) else {
            return Ok(Turned::Idle);
        };
        match guest.shake(self.alloc, self.is_telling, log)? {
            Turned::More => {
                let asks = guest.visit.asks;
                let connection = guest.connect(self.alloc, &mut self.hub, log)?;
                set_place(&mut self.present.places, connection, place)?;
                self.roster.begin(connection, asks)?;
                Ok(Turned::More)
            }
            Turned::Idle => Ok(Turned::Idle),
            Turned::Ends(why) => Ok(Turned::Ends(why)),
        }
    }

    // Takes what the guest at that place asks by plain HTTP in its turn.
    fn hear_requests<Y: Files<File = File>>(
        &mut self,
        system: &Y,
        place: usize,
        log: &mut Diary,
    ) -> Result<Turned, Halt> {
        let turned = self.hear_each(system, place, log)?;
        if let Some(asking) = self.present.asking(place) {
            asking.settle(self.now);
        }
        Ok(turned)
    }

    // Does what is next of the guest at that place, which asks, one step after another.
    fn hear_each<Y: Files<File = File>>(
        &mut self,
        system: &Y,
        place: usize,
        log: &mut Diary,
    ) -> Result<Turned, Halt> {
        for _ in 0..TURN_STEPS {
            if let Some(turned) = self.hear_request(system, place, log)? {
                return Ok(turned);
            }
        }
        Ok(Turned::More)
    }

    // Does what is next of the guest at that place, which asks. Answers what became of its turn, if it is
    // over.
    fn hear_request<Y: Files<File = File>>(
        &mut self,
        system: &Y,
        place: usize,
        log: &mut Diary,
    ) -> Result<Option<Turned>, Halt> {
        let Some(asking) = self.present.asking(place) else {
            return Ok(Some(Turned::Idle));
        };
        match asking.next()? {
            Next::Again => Ok(None),
            Next::Pause => Ok(Some(Turned::More)),
            Next::Idle => Ok(Some(Turned::Idle)),
            Next::Answer => self.answer_request(system, place, log),
            Next::Upgrade(size) => Ok(Some(self.upgrade(place, size, log)?)),
            Next::Ends(why) => Ok(Some(Turned::Ends(why))),
        }
    }

    // Answers the request of the guest at that place. Answers what became of its turn, if it is over.
    fn answer_request<Y: Files<File = File>>(
        &mut self,
        system: &Y,
        place: usize,
        log: &mut Diary,
    ) -> Result<Option<Turned>, Halt> {
        let Some(asking) = self.present.asking(place) else {
            return Ok(Some(Turned::Idle));
        };
        asking.answer(
            system,
            &self.site,
            &mut self.hub,
            &mut self.keeper,
            &mut self.notes.told,
            &mut self.keys,
            self.allowed.as_slice(),
            self.now,
        )?;
        let is_long = asking.is_long();
        self.note_told()?;
        self.hand_over_many(log)?;
        Ok(if is_long { Some(Turned::More) } else { None })
    }

    // The guest at that place, which asks, shakes hands: the head of its handshake has so many bytes.
    fn upgrade(&mut self, place: usize, size: usize, log: &mut Diary) -> Result<Turned, Halt> {
        let judge = Judge::of(self.alloc, self.allowed.as_slice())?;
        if let Some(guest) = self.present.all.get_mut(place) {
            guest.upgrade(self.alloc, size, judge)?;
        }
        self.shake(place, log)
    }

    // Takes what the guest at that place has to say in its turn.
    fn listen_to(&mut self, place: usize, log: &mut Diary) -> Result<Turned, Halt> {
        for _ in 0..TURN_MESSAGES {
            if let Some(turned) = self.take_one(place, log)? {
                return Ok(turned);
            }
        }
        Ok(Turned::More)
    }

    // Takes the next message of the guest at that place. Answers what became of its turn, if it is over.
    fn take_one(&mut self, place: usize, log: &mut Diary) -> Result<Option<Turned>, Halt> {
        let Some(talk) = self.present.talk(place) else {
            return Ok(Some(Turned::Idle));
        };
        let connection = talk.connection;
        match talk.take(self.alloc, &mut self.hub, &mut self.notes, log)? {
            None => self.go_on(place, connection, log),
            turned => Ok(turned),
        }
    }

    // Does what a message leaves to be done. Answers what became of its guest's turn, if it is over.
    fn go_on(
        &mut self,
        place: usize,
        connection: u64,
        log: &mut Diary,
    ) -> Result<Option<Turned>, Halt> {
        self.roster.hear(!self.notes.accepted.is_empty());
        self.keeper
            .note(connection, self.notes.accepted.as_slice())?;
        self.notes.accepted.clear();
        self.note_told()?;
        if let Some(turned) = self.answer(place)? {
            return Ok(Some(turned));
        }
        if let Some(why) = self.hand_over_to(place, log)? {
            return Ok(Some(Turned::Ends(why)));
        }
        self.hand_over_many(log)?;
        Ok(None)
    }

    // Sends the guest at that place what it is answered for requests that can't be taken. Answers what
    // became of its turn, if it is over.
    fn answer(&mut self, place: usize) -> Result<Option<Turned>, Halt>
        ensures answered { self.new.notes.answers.items ≡ [] }
        ensures kept { self.new ≡ record (self.old) {
          on_way = self.new.on_way;
          present = self.new.present;
          notes = record (self.old.notes) { answers = self.new.notes.answers };
        } }
    {
        let answered = match self.present.talk(place) {
            Some(talk) => talk.answer(self.notes.answers.as_slice(), &mut self.on_way),
            None => Ok(None),
        };
        self.notes.answers.clear();
        answered
    }

    // Hands over to all that are noted before the next message is taken, where much was sent or more waits
    // for all than may.
    fn hand_over_many(&mut self, log: &mut Diary) -> Result<(), Halt> {
        if self.sent >= MOST_SENT || self.on_way.is_crowded(&self.hub) {
            return self.hand_over_all(log);
        }
        Ok(())
    }

    // Hands over to all that are noted. Where more waits for all then than may, the slowest go.
    fn hand_over_all(&mut self, log: &mut Diary) -> Result<(), Halt> {
        self.sent = 0;
        self.hand_over_noted(log)?;
        self.clear_crowd(log)
    }

    // Hands over to all that are noted.
    fn hand_over_noted(&mut self, log: &mut Diary) -> Result<(), Halt> {
        let noted = std::mem::replace(&mut self.present.noted, Vec::new(self.alloc));
        self.hand_over_each(noted.as_slice(), log)
    }

    // Hands over to the guests at these places.
    fn hand_over_each(&mut self, places: &[usize], log: &mut Diary) -> Result<(), Halt> {
        for place in places {
            if let Some(guest) = self.present.all.get_mut(*place) {
                guest.is_noted = false;
            }
            if let Some(why) = self.serve(*place, log)? {
                self.remove(*place, why, log)?;
            }
        }
        Ok(())
    }

    // Hands over to the guest at that place what waits for it, and tells it who is connected, where it is
    // owed that. Answers why it goes, if it does.
    fn serve(&mut self, place: usize, log: &mut Diary) -> Result<Option<GuestEnd>, Halt> {
        match self.hand_over_to(place, log)? {
            Some(why) => Ok(Some(why)),
            None => self.tell(place),
        }
    }

    // Tells the guest at that place who is connected, where it is owed that: what it is told goes out next.
    // Nobody is told a text that is to be made anew, since one that asks may not stand in it. The guest goes
    // where memory lacks for it, and nobody else does. Answers why, if it does.
    fn tell(&mut self, place: usize) -> Result<Option<GuestEnd>, Halt>
        ensures kept { self.new ≡ record (self.old) {
          present = self.new.present;
          on_way = self.new.on_way;
        } }
        ensures untold { talk_at self.old.present place ≡ None → result ≡ Ok None }
        ensures stale { is_due self.old.roster ≡ true → (self.new ≡ self.old) × (result ≡ Ok None) }
    {
        if self.roster.is_due() {
            return Ok(None);
        }
        let Some(talk) = self.present.talk(place) else {
            return Ok(None);
        };
        match talk.tell(self.roster.text.as_str(), self.roster.version) {
            Ok(TextSent::Nothing) => Ok(None),
            Ok(TextSent::Text | TextSent::Failed) => {
                talk.count_unsent(&mut self.on_way)?;
                self.present.note(place)?;
                Ok(None)
            }
            Err(_) => Ok(Some(GuestEnd::Failed(Broken::NoMemory))),
        }
    }

    /// Where somebody asks who is connected and that may have changed, the text that says it is made anew,
    /// and those that ask are told it next. Where memory lacks for it that is done behind a later round.
    #[tactic(auto, using(crate::proofs::Renewing::renews, crate::proofs::Renewing::stays))]
    pub(crate) fn renew_roster(&mut self) -> Result<(), Halt>
        ensures renewed { OnOk result (RenewsIf (is_due self.old.roster)
            (clients_text (clients_of self.old.hub self.old.present))
            self.old.roster self.old.present self.new.roster self.new.present) }
        ensures kept { self.new ≡ record (self.old) {
          present = self.new.present;
          roster = self.new.roster;
        } }
    {
        if !self.roster.is_due() {
            return Ok(());
        }
        match clients_text(self.alloc, &self.hub, &self.present) {
            Ok(text) => {
                self.roster.renew(text);
                self.present.note_each(self.roster.askers.as_slice())
            }
            Err(_) => Ok(()),
        }
    }

    // Hands over to the guest at that place what waits for it. Answers why it goes, if it does.
    fn hand_over_to(&mut self, place: usize, log: &mut Diary) -> Result<Option<GuestEnd>, Halt>
        ensures handed { IfOk result (λ why. HandsAt (talk_at self.old.present place) why
            self.old.hub self.new.hub) }
        ensures kept { self.new ≡ record (self.old) {
          hub = self.new.hub;
          on_way = self.new.on_way;
          present = self.new.present;
          keeper = self.new.keeper;
        } }
    {
        let Some(talk) = self.present.talk(place) else {
            return Ok(None);
        };
        if let Some(why) = too_much(&self.hub, talk.connection) {
            return Ok(Some(why));
        }
        if talk.is_blocked {
            return Ok(None);
        }
        // What it hears of is kept before.
        self.keeper.append()?;
        if talk.hand_over(self.alloc, &mut self.hub, &mut self.on_way, log)? {
            self.present.note(place)?;
        }
        Ok(None)
    }

    // While more waits for all than may, the guest goes for which the most waits: that is taken out in the
    // first turn of its end.
    fn clear_crowd(&mut self, log: &mut Diary) -> Result<(), Halt> {
        for _ in 0..u64::MAX {
            let Some(connection) = self.on_way.crowder(&self.hub) else {
                return Ok(());
            };
            if let Some(place) = self.present.guest_of(connection) {
                self.remove(place, GuestEnd::Crowding, log)?;
            }
            if self.leaving.is_empty() {
                return Ok(());
            }
            self.leave_on()?;
        }
        Ok(())
    }

    // The guest at that place goes.
    fn remove(&mut self, place: usize, why: GuestEnd, log: &mut Diary) -> Result<(), Halt> {
        let Some(guest) = self.present.all.try_remove(place) else {
            return Ok(());
        };
        let from = guest.from;
        match guest.end(why) {
            Some(connection) => self.leave(connection, why, log),
            None => {
                diary::unshaken(self.alloc, log, from, why);
                Ok(())
            }
        }
    }

    // The connection ends, in turns.
    fn leave(&mut self, connection: u64, why: GuestEnd, log: &mut Diary) -> Result<(), Halt>
        ensures asks { Ends connection self.old.roster self.new.roster }
        ensures leaves { OnOk result (self.new.leaving ≡ self.old.leaving ++ connection ∷ []) }
        ensures kept { self.new ≡ record (self.old) {
          on_way = self.new.on_way;
          roster = self.new.roster;
          leaving = self.new.leaving;
        } }
    {
        diary::ended(self.alloc, log, connection, why);
        self.roster.end(connection);
        self.on_way.set(connection, 0)?;
        Ok(self.leaving.add(connection)?)
    }

    /// The first of those that go has a turn of its end.
    pub(crate) fn leave_on(&mut self) -> Result<(), Halt> {
        if self
            .leaving
            .turn(&mut self.hub, &mut self.keeper, &mut self.notes.told)?
        {
            self.gone = self.gone.saturating_add(1);
        }
        self.note_told()
    }

    // All that go have all turns of their ends.
    fn leave_all(&mut self) -> Result<(), Halt> {
        for _ in 0..u64::MAX {
            if self.leaving.is_empty() {
                return Ok(());
            }
            self.leave_on()?;
        }
        Ok(())
    }

    /// Looks at each guest whose alarm rings.
    pub(crate) fn ring_all(&mut self, now: u64, log: &mut Diary) -> Result<(), Halt> {
        for _ in 0..u64::MAX {
            match self.present.alarms.ring(now) {
                Some(Reverse((_, serial, place))) => self.ring(place, serial, now, log)?,
                None => return Ok(()),
            }
        }
        Ok(())
    }

    // Looks at the guest at that place, if it is still the one with that serial number.
    fn ring(&mut self, place: usize, serial: u64, now: u64, log: &mut Diary) -> Result<(), Halt> {
        let Some(guest) = self.present.all.get_mut(place) else {
            return Ok(());
        };
        if guest.serial != serial {
            return Ok(());
        }
        match guest.ring(now) {
            Ok(at) => Ok(self.present.alarms.set(at, serial, place)?),
            Err(why) => self.remove(place, why, log),
        }
    }

    /// Makes the tree's file anew, as far as that is due.
    pub(crate) fn keep<R, Y>(
        &mut self,
        rt: &R,
        system: &Y,
        now: u64,
        log: &mut Diary,
    ) -> Result<(), Halt>
    where
        R: Threads,
        Y: Files<File = File> + RandomSource,
    {
        self.keeper.append()?;
        self.keeper.turn(rt, system, self.hub.tree(), now, log);
        Ok(())
    }

    /// When something of the tree's file is due.
    pub(crate) fn kept_at(&self, now: u64) -> Option<u64>
        ensures { result ≡ kept_at self.entry.now now }
    {
        self.keeper.next_at(now)
    }

    /// All go, and what was accepted stands in the tree's file from now on.
    pub(crate) fn close<R, Y>(&mut self, rt: &R, system: &Y, log: &mut Diary) -> Result<(), Halt>
    where
        R: Threads,
        Y: Files<File = File> + RandomSource,
    {
        self.remove_all(log)?;
        self.leave_all()?;
        self.keeper.append()?;
        self.keeper.close(rt, system, self.hub.tree(), log)
    }

    /// Why turns ended early, as it is said.
    pub(crate) fn fault_of(&mut self, halt: Halt) -> EmulateFault
        ensures { result ≡ fault_by halt self.old.keeper.fault }
    {
        self.keeper.fault_of(halt)
    }

    // All go.
    fn remove_all(&mut self, log: &mut Diary) -> Result<(), Halt> {
        for place in 0..self.present.all.capacity() {
            let why = self.stopped(place);
            self.remove(place, why, log)?;
        }
        Ok(())
    }

    // Why the guest at that place goes where all are ended.
    fn stopped(&mut self, place: usize) -> GuestEnd
        ensures { result ≡ option_map_or stopped_of (asking_at self.old.present place) Stopped }
    {
        match self.present.asking(place) {
            Some(asking) => asking.stopped(),
            None => GuestEnd::Stopped,
        }
    }
}
