// One that has come: a stream that asks, shakes hands or is a connection.
ghost use Rattle.std.specs.Prelude.{◌≡◌, IfOk, OnOk, Some, None, true, false, if◌then◌else◌, is_some, ◌∷◌, []};
ghost use Rattle.std.specs.Prelude.{IfSome};
ghost use Rattle.std.specs.Option.{option_copied_mut, option_map};
ghost use Rattle.std.specs.List.Sorted.{IsPermutation};
ghost use Rattle.rt_hub.specs.Hubs.{IsMade};
ghost use Rattle.rt_peer.specs.Peers.{least_free};
ghost use Rattle.rt_peer.specs.Runs.{Connect};
ghost use Rattle.rt_emulate.specs.inside.Crowds.{Counts};
ghost use Rattle.rt_emulate.specs.inside.Guests.{HandsAs, HearsAs, asking_of, number_of, numbered, rung, silence_after};
ghost use Rattle.rt_emulate.specs.inside.Guests.{talk_of, blocked_by, is_more, talks_as, unblocked};
ghost use Rattle.rt_emulate.specs.inside.Rosters.{Looks, Tells, is_owed, is_told_now};
ghost use Rattle.rt_emulate.specs.inside.Silences.{due_of};
ghost use Rattle.rt_emulate.specs.declared.guest.Stage.TheVariants.{Gone};
ghost use Rattle.rt_emulate.specs.inside.Alarms.{HasRung, WaitsBeyond, alarm, next_time, sooner};

use crate::calls::{OnWay, Replay};
use crate::diary::{self, Diary};
use crate::ending::GuestEnd;
use crate::origins::Judge;
use crate::requests::Asking;
use crate::settings::Halt;
use crate::socket::{Broken, Socket, TURN_BYTES, limits};
use crate::visit::Visit;
use mio::net::TcpStream;
use rt_hub::{Door, Handed, Hub, Notes, Turn, hand_over, take_turn};
use rt_input::Counted;
use std::alloc::{AllocError, Global};
use std::cmp::Reverse;
use std::collections::BinaryHeap;
use std::marker::Model;
use std::net::SocketAddr;
use tungstenite::handshake::MidHandshake;
use tungstenite::handshake::server::{self, ServerHandshake};
use tungstenite::{Error, HandshakeError};

/// What became of a guest's turn.
#[derive(Clone, Copy)]
pub(crate) enum Turned {
    /// Nothing more is there now.
    Idle,
    /// There may be more.
    More,
    /// It goes.
    Ends(GuestEnd),
}

/// What became of a guest that may be owed the text that says who is connected.
#[derive(Clone, Copy)]
pub(crate) enum TextSent {
    /// It is owed none, or takes none now.
    Nothing,
    /// It is on its way.
    Text,
    /// Its stream takes nothing any more.
    Failed,
}

/// A handshake that has begun.
pub(crate) type Shaking = MidHandshake<ServerHandshake<Counted<Replay>, Judge>>;

/// How far a guest is.
pub(crate) enum Stage {
    /// It asks by plain HTTP, or has said nothing yet.
    Asking(Asking),
    /// It shakes hands.
    Shaking(Shaking),
    /// It is a connection of the hub.
    Open(Talk),
    /// Its handshake has failed.
    Gone,
}

impl Drop for Stage {
    fn drop(self) {
        match self {
            Stage::Asking(_) | Stage::Shaking(_) | Stage::Open(_) | Stage::Gone => {}
        }
    }
}

impl Stage {
    // One that asks, if that is where it is.
    fn into_asking(self) -> Option<Asking>
        ensures { result ≡ asking_of self }
    {
        match self {
            Stage::Asking(asking) => Some(asking),
            Stage::Shaking(_) | Stage::Open(_) | Stage::Gone => None,
        }
    }

    // Its handshake, if that is where it is.
    fn into_shaking(self) -> Option<Shaking> {
        match self {
            Stage::Shaking(shaking) => Some(shaking),
            Stage::Asking(_) | Stage::Open(_) | Stage::Gone => None,
        }
    }
}

/// A guest's connection.
pub(crate) struct Talk {
    /// Its number; 0 until it has one.
    pub(crate) connection: u64,
    pub(crate) socket: Socket,
    /// Whether its stream takes nothing for now.
    pub(crate) is_blocked: bool,
    /// Which text it was told last that says who is connected; none where it doesn't ask.
    pub(crate) told: Option<u64>,
}

impl Drop for Talk {
    fn drop(self) {
        let Talk {
            connection: _,
            socket: _,
            is_blocked: _,
            told: _,
        } = self;
    }
}

impl Talk {
    /// Takes its next message. Answers what became of its turn, if it is over.
    pub(crate) fn take(
        &mut self,
        alloc: Global,
        hub: &mut Hub,
        notes: &mut Notes,
        log: &mut Diary,
    ) -> Result<Option<Turned>, Halt>
        ensures heard { IfOk result (λ turned. HearsAs turned self.old self.new hub.old hub.new
            notes.old notes.new) }
        ensures kept { self.new.connection ≡ self.old.connection }
    {
        match take_turn(alloc, hub, &mut self.socket, self.connection, 1, notes, log)? {
            Turn::Idle => Ok(Some(if self.socket.is_spent {
                Turned::More
            } else {
                Turned::Idle
            })),
            Turn::More => {
                if self.socket.was_binary {
                    diary::binary_passed_over(alloc, log, self.connection);
                }
                Ok(None)
            }
            Turn::Ended => Ok(Some(Turned::Ends(self.socket.ending()))),
        }
    }

    /// Sends these texts. Answers what became of its turn, if it is over: it reads nothing, and more waits
    /// for it than may.
    pub(crate) fn answer(
        &mut self,
        texts: &[String],
        on_way: &mut OnWay,
    ) -> Result<Option<Turned>, Halt>
        ensures { OnOk result (Counts self.new.connection self.new.socket.unsent on_way.old on_way.new) }
    {
        let answered = self.socket.answer(texts);
        self.count_unsent(on_way)?;
        match answered {
            Ok(true) => Ok(None),
            Ok(false) => Ok(Some(Turned::Ends(GuestEnd::Over))),
            Err(_) => Err(Halt::NoMemory),
        }
    }

    /// What its socket has not sent is on its way.
    pub(crate) fn count_unsent(&self, on_way: &mut OnWay) -> Result<(), AllocError>
        ensures { OnOk result (Counts self.now.connection self.now.socket.unsent on_way.old on_way.new) }
    {
        on_way.set(self.connection, self.socket.unsent)
    }

    /// Hands over what waits for it, and answers whether more may wait. What its socket has not sent then is
    /// on its way.
    pub(crate) fn hand_over(
        &mut self,
        alloc: Global,
        hub: &mut Hub,
        on_way: &mut OnWay,
        log: &mut Diary,
    ) -> Result<bool, Halt>
        ensures handed { IfOk result (λ more. HandsAs more self.old self.new hub.old hub.new) }
        ensures kept { self.new.connection ≡ self.old.connection }
        ensures on_way { OnOk result
            (Counts self.new.connection self.new.socket.unsent on_way.old on_way.new) }
    {
        let Ok(handed) = hand_over(hub, &mut self.socket, self.connection) else {
            return Err(Halt::NoMemory);
        };
        self.count_unsent(on_way)?;
        diary::refused(alloc, log, self.connection, self.socket.take_refusals());
        Ok(self.settle(alloc, handed, log))
    }

    // Keeps how far its stream took what waited, and answers whether more may wait.
    fn settle(&mut self, alloc: Global, handed: Handed, log: &mut Diary) -> bool
        ensures more { result ≡ is_more handed }
        ensures kept { self.new.connection ≡ self.old.connection }
        ensures blocked { self.new.is_blocked ≡ blocked_by handed self.old.is_blocked }
        ensures unsent { self.new.socket.unsent ≡ self.old.socket.unsent }
    {
        match handed {
            Handed::Drained => false,
            Handed::Blocked => {
                self.is_blocked = true;
                false
            }
            Handed::More => true,
            Handed::Failed => {
                if self.socket.pass_over_writes() {
                    diary::not_sent(alloc, log, self.connection);
                }
                false
            }
        }
    }

    // Whether it asks who is connected, and was told another text.
    fn is_owed(&self, version: u64) -> bool
        ensures { result ≡ is_owed version self.now }
    {
        match self.told {
            Some(last) => last != version,
            None => false,
        }
    }

    // Whether it is owed the text of that number now: its stream has taken all that came before.
    fn is_told_now(&self, version: u64) -> bool
        ensures { result ≡ is_told_now version self.now }
    {
        self.is_owed(version) && !self.is_blocked && self.socket.unsent == 0
    }

    /// Sends the text that says who is connected, which has that number, where it is owed that and its stream
    /// has taken all that came before: so one that is slow is told the newest alone.
    pub(crate) fn tell(&mut self, text: &str, version: u64) -> Result<TextSent, AllocError>
        ensures { IfOk result (λ said. Tells text.now version self.old said self.new) }
    {
        if !self.is_told_now(version) {
            return Ok(TextSent::Nothing);
        }
        self.told = Some(version);
        if self.socket.put(text)? {
            Ok(TextSent::Text)
        } else {
            Ok(TextSent::Failed)
        }
    }

    // It ends, and its client is told why by a code, where there is one. Answers its number.
    fn end(&mut self, why: GuestEnd) -> u64
        ensures { result ≡ self.old.connection }
    {
        if let Some(code) = why.close_code() {
            self.socket.close(code, why.close_reason());
        }
        self.connection
    }
}

/// One that has come.
pub(crate) struct Guest {
    pub(crate) stage: Stage,
    /// Where it comes from.
    pub(crate) from: SocketAddr,
    /// What the head of its handshake says of it.
    pub(crate) visit: Visit,
    /// How many came before it.
    pub(crate) serial: u64,
    pub(crate) silence: Silence,
    /// Whether it is among those that have a turn next.
    pub(crate) is_ready: bool,
    /// Whether it is among those to whom what waits is handed over next.
    pub(crate) is_noted: bool,
}

impl Drop for Guest {
    fn drop(self) {
        let Guest {
            stage: _,
            from: _,
            visit: _,
            serial: _,
            silence: _,
            is_ready: _,
            is_noted: _,
        } = self;
    }
}

impl Guest {
    /// One that comes now, and has said nothing yet.
    pub(crate) fn new(
        alloc: Global,
        stream: TcpStream,
        from: SocketAddr,
        serial: u64,
        now: u64,
    ) -> Guest
        ensures asks { is_some (asking_of result.stage) ≡ true }
        ensures rest { result ≡ record {
          stage = result.stage;
          from = from;
          visit = record { origin = None; asks = false };
          serial = serial;
          silence = record { heard_at = now; pinged_at = None };
          is_ready = false;
          is_noted = false;
        } }
    {
        Guest {
            stage: Stage::Asking(Asking::new(alloc, stream, now)),
            from,
            visit: Visit::none(),
            serial,
            silence: Silence::broken(now),
            is_ready: false,
            is_noted: false,
        }
    }

    /// Its connection, if it is one.
    pub(crate) fn talk(&mut self) -> Option<&mut Talk>
        ensures { option_copied_mut result ≡ talk_of self.old.stage }
    {
        match &mut self.stage {
            Stage::Open(talk) => Some(talk),
            Stage::Asking(_) | Stage::Shaking(_) | Stage::Gone => None,
        }
    }

    /// One that asks, if that is where it is.
    pub(crate) fn asking(&mut self) -> Option<&mut Asking>
        ensures { option_copied_mut result ≡ asking_of self.old.stage }
    {
        match &mut self.stage {
            Stage::Asking(asking) => Some(asking),
            Stage::Shaking(_) | Stage::Open(_) | Stage::Gone => None,
        }
    }

    /// Whether it is that connection.
    pub(crate) fn is_connection(&self, connection: u64) -> bool
        ensures { result ≡ talks_as connection (talk_of self.now.stage) }
    {
        match &self.stage {
            Stage::Open(talk) => talk.connection == connection,
            Stage::Asking(_) | Stage::Shaking(_) | Stage::Gone => false,
        }
    }

    /// Its stream has something to be read, or takes something.
    pub(crate) fn wake(&mut self, is_readable: bool, is_writable: bool, now: u64)
        ensures { self.new ≡ record (self.old) {
          silence = if is_readable then record { heard_at = now; pinged_at = None } else self.old.silence;
          stage = if is_writable then unblocked self.old.stage else self.old.stage;
        } }
    {
        if is_readable {
            self.silence = Silence::broken(now);
        }
        if is_writable {
            if let Stage::Open(talk) = &mut self.stage {
                talk.is_blocked = false;
            }
        }
    }

    /// Its turn begins. Answers whether it is a connection.
    pub(crate) fn begin_turn(&mut self) -> bool
        ensures talks { result ≡ is_some (talk_of self.old.stage) }
        ensures begun { self.new.is_ready ≡ false }
    {
        self.is_ready = false;
        match &mut self.stage {
            Stage::Open(talk) => {
                talk.socket.begin_turn();
                true
            }
            Stage::Asking(_) | Stage::Shaking(_) | Stage::Gone => false,
        }
    }

    // Keeps what the head of its handshake says of it, where it asks.
    fn look(&mut self) -> Result<(), AllocError>
        ensures { OnOk result (Looks (asking_of self.old.stage) self.old self.new) }
    {
        let visit = match &self.stage {
            Stage::Asking(asking) => asking.visit()?,
            Stage::Shaking(_) | Stage::Open(_) | Stage::Gone => return Ok(()),
        };
        self.visit = visit;
        Ok(())
    }

    /// One that asks shakes hands from now on: the head of its handshake has so many bytes. What that says of
    /// it is kept.
    pub(crate) fn upgrade(&mut self, alloc: Global, size: usize, judge: Judge) -> Result<(), Halt>
        ensures looked { OnOk result (Looks (asking_of self.old.stage) self.old
            (record (self.new) { stage = self.old.stage })) }
    {
        self.look()?;
        let stage = std::mem::replace(&mut self.stage, Stage::Gone);
        let Some(asking) = stage.into_asking() else {
            return Ok(());
        };
        let stream = Counted::new(asking.into_replay(size)?, TURN_BYTES);
        self.stage = Stage::Shaking(server::start(alloc, stream, judge, Some(limits())));
        Ok(())
    }

    // Its handshake, if it shakes hands: it is to be given back.
    fn take_shaking(&mut self) -> Option<Shaking>
        ensures { self.new ≡ record (self.old) { stage = Gone } }
    {
        std::mem::replace(&mut self.stage, Stage::Gone).into_shaking()
    }

    /// Goes on to shake hands. Answers what became of its turn: there is more once it is a connection, which
    /// has no number yet.
    pub(crate) fn shake(
        &mut self,
        alloc: Global,
        is_telling: bool,
        log: &mut Diary,
    ) -> Result<Turned, Halt>
        ensures kept { self.new ≡ record (self.old) { stage = self.new.stage } }
        ensures begins { IfSome (talk_of self.new.stage) (λ t. (t.connection ≡ 0) × (t.is_blocked ≡ false)
            × (t.told ≡ (if self.old.visit.asks then Some 0 else None))) }
    {
        let Some(mut shaking) = self.take_shaking() else {
            return Ok(Turned::Idle);
        };
        shaking.get_mut().await_message();
        match shaking.handshake() {
            Ok(socket) => {
                self.stage = Stage::Open(Talk {
                    connection: 0,
                    socket: Socket::new(alloc, socket, is_telling),
                    is_blocked: false,
                    told: if self.visit.asks { Some(0) } else { None },
                });
                Ok(Turned::More)
            }
            Err(HandshakeError::Interrupted(shaking)) => {
                self.stage = Stage::Shaking(shaking);
                Ok(Turned::Idle)
            }
            Err(HandshakeError::Failure(why)) => unshaken(alloc, self.from, why, log),
        }
    }

    /// It is a connection of the hub from now on. Answers its number.
    pub(crate) fn connect(
        &mut self,
        alloc: Global,
        hub: &mut Hub,
        log: &mut Diary,
    ) -> Result<u64, Halt>
        ensures number { IfOk result (λ n. IfSome hub.old (λ h. n ≡ least_free h.peer.connections)) }
        ensures made { IfOk result (λ n. IsMade hub.old Connect hub.new
            × (talk_of self.new.stage ≡ option_map (numbered n) (talk_of self.old.stage))) }
        ensures kept { self.new ≡ record (self.old) { stage = self.new.stage } }
    {
        let connection = hub.connect()?;
        if let Stage::Open(talk) = &mut self.stage {
            talk.connection = connection;
        }
        diary::begun(alloc, log, connection, self.from);
        Ok(connection)
    }

    /// Its alarm rings. Answers when it rings next, or why it goes.
    pub(crate) fn ring(&mut self, now: u64) -> Result<u64, GuestEnd>
        ensures rung { result ≡ rung self.old now }
        ensures silence { self.new.silence ≡ silence_after self.old now }
    {
        match &mut self.stage {
            Stage::Asking(asking) => asking.ring(now),
            Stage::Shaking(_) | Stage::Gone => Err(GuestEnd::Unshaken),
            Stage::Open(talk) => match self.silence.due(now) {
                Due::End => Err(GuestEnd::Silent),
                Due::Ping => {
                    talk.socket.ping();
                    self.silence = self.silence.pinged(now);
                    Ok(now.saturating_add(SILENCE_MS))
                }
                Due::Later(wait) => Ok(now.saturating_add(wait)),
            },
        }
    }

    /// It goes, and its client is told why by a code, where there is one. Answers the number of its
    /// connection, if it was one.
    pub(crate) fn end(mut self, why: GuestEnd) -> Option<u64>
        ensures { result ≡ number_of self.stage }
    {
        match self.talk() {
            Some(talk) => Some(talk.end(why)),
            None => None,
        }
    }
}

// A handshake with one from there has failed, which is told.
fn unshaken(alloc: Global, from: SocketAddr, why: Error, log: &mut Diary) -> Result<Turned, Halt> {
    diary::no_socket(alloc, log, from, &why);
    if Broken::of(why).lacks_memory() {
        Err(Halt::NoMemory)
    } else {
        Ok(Turned::Ends(GuestEnd::Refused))
    }
}

// ---- how long a guest may be silent

/// For how many milliseconds a guest may shake hands.
pub const HANDSHAKE_MS: u64 = 10_000;

/// After how many milliseconds of silence a guest is sent a ping, and after how many more it is ended.
pub const SILENCE_MS: u64 = 30_000;

/// When a guest was heard last, and when it was sent a ping since, in milliseconds from the start.
#[derive(Clone, Copy)]
pub(crate) struct Silence {
    pub(crate) heard_at: u64,
    pub(crate) pinged_at: Option<u64>,
}

/// What is due of a silent guest.
#[derive(Clone, Copy)]
pub(crate) enum Due {
    /// It is ended.
    End,
    /// It is sent a ping.
    Ping,
    /// Nothing for so many milliseconds, of which there is one at least.
    Later(u64),
}

impl Silence {
    /// It is heard now.
    pub(crate) fn broken(now: u64) -> Silence
        ensures { result ≡ record { heard_at = now; pinged_at = None } }
    {
        Silence {
            heard_at: now,
            pinged_at: None,
        }
    }

    /// It is sent a ping now.
    pub(crate) fn pinged(self, now: u64) -> Silence
        ensures { result ≡ record self { pinged_at = Some now } }
    {
        Silence {
            heard_at: self.heard_at,
            pinged_at: Some(now),
        }
    }

    /// What is due now.
    pub(crate) fn due(self, now: u64) -> Due
        ensures { result ≡ due_of self now }
    {
        let (since, due) = match self.pinged_at {
            Some(pinged_at) => (pinged_at, Due::End),
            None => (self.heard_at, Due::Ping),
        };
        let silent = now.saturating_sub(since);
        if silent >= SILENCE_MS {
            due
        } else {
            Due::Later(SILENCE_MS - silent)
        }
    }
}

// ---- when guests are looked at

/// When a guest is looked at, the guest's serial number, and its place.
pub(crate) type Alarm = Reverse<(u64, u64, usize)>;

/// When guests are looked at, the next one first.
pub(crate) struct Alarms {
    all: BinaryHeap<Alarm>,
}

impl Drop for Alarms {
    fn drop(self) {
        let Alarms { all: _ } = self;
    }
}

impl Model for Alarms {
    ghost use Rattle.std.specs.Prelude.{List};
    ghost use Rattle.std.specs.BinaryHeap.{IsHeap, heap_items};
    ghost use Rattle.rt_emulate.specs.inside.Alarms.{Alarm, in_order};

    ghost Value = { List Alarm };

    ghost view = { λ a. heap_items a.all };

    ghost invariant = { λ a. IsHeap in_order (heap_items a.all) };
}

impl Alarms {
    /// Nobody is looked at. Takes no memory.
    pub(crate) fn new(alloc: Global) -> Alarms
        ensures { result ≡ [] }
    {
        Alarms {
            all: BinaryHeap::new(alloc),
        }
    }

    /// The guest at that place, which has that serial number, is looked at then.
    pub(crate) fn set(&mut self, at: u64, serial: u64, place: usize) -> Result<(), AllocError>
        ensures { OnOk result (IsPermutation (alarm at serial place ∷ self.old) self.new) }
    {
        Ok(self.all.push(Reverse((at, serial, place)))?)
    }

    /// When the next guest is looked at.
    pub(crate) fn next(&self) -> Option<u64>
        ensures { result ≡ next_time self.now }
    {
        match self.all.peek() {
            Some(Reverse((at, _, _))) => Some(*at),
            None => None,
        }
    }

    /// The next alarm, if it rings by now. It is taken out.
    pub(crate) fn ring(&mut self, now: u64) -> Option<Alarm>
        ensures rung { IfSome result (λ a. HasRung now a self.old self.new) }
        ensures none { result ≡ None → (self.new ≡ self.old) × WaitsBeyond now (next_time self.old) }
    {
        let at = self.next()?;
        if at <= now { self.all.pop() } else { None }
    }
}

/// The sooner of two times, where there are some.
pub(crate) fn sooner(a: Option<u64>, b: Option<u64>) -> Option<u64>
    ensures { result ≡ sooner a b }
{
    match (a, b) {
        (Some(a), Some(b)) => Some(if a <= b { a } else { b }),
        (Some(at), None) | (None, Some(at)) => Some(at),
        (None, None) => None,
    }
}
