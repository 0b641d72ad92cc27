// Why a guest goes.
ghost use Rattle.std.specs.Prelude.{◌≡◌, false, ◌++◌, ◌∷◌, [], IfOk, OnOk};
ghost use Rattle.std.specs.Option.{option_map_or, option_map};
ghost use Rattle.rt_hub.specs.Hubs.{has_too_many_in, line_in};
ghost use Rattle.rt_emulate.specs.inside.Endings.{close_code, close_reason, is_told, stream_ending, too_much};
ghost use Rattle.rt_emulate.specs.inside.Guests.{is_none_of};
ghost use Rattle.rt_emulate.specs.inside.Leaving.{LeavesOn, notes_turn};

use crate::guest::{HANDSHAKE_MS, SILENCE_MS};
use crate::keeper::Keeper;
use crate::settings::Halt;
use crate::socket::Broken;
use rt_hub::{
    Hub, MAX_LISTENS, MAX_WAITING_BYTES, MAX_WAITING_IN_ALL, MAX_WAITING_MESSAGES, TURN_ACTIONS,
    leave,
};
use rt_socket::or_unknown;
use std::alloc::{AllocError, Global};
use std::collections::VecDeque;
use std::fmt;
use std::marker::Model;

/// Why a guest goes.
#[derive(Clone, Copy)]
pub(crate) enum GuestEnd {
    /// It closed the connection, with that code or with none.
    Closed(Option<u16>),
    /// A read of its stream failed, or found its end.
    Failed(Broken),
    /// Its handshake failed, which was told then.
    Refused,
    /// More was sent to it than may wait.
    Over,
    /// More waits for all together than may, and for no other more than for it.
    Crowding,
    /// It has more listens than it may.
    TooManyListens,
    /// Nothing is heard of it, and a ping was not answered.
    Silent,
    /// It didn't shake hands in time.
    Unshaken,
    /// It has asked by plain HTTP, and was answered.
    Answered,
    /// It has begun to ask, or was answered, and nothing comes on.
    Stalled,
    /// All are ended.
    Stopped,
}

impl GuestEnd {
    /// Whether nothing is told once the guest goes: it was told before, or all went well.
    pub(crate) fn is_told(self) -> bool
        ensures { result ≡ is_told self }
    {
        matches!(self, GuestEnd::Refused | GuestEnd::Answered)
    }

    /// The code that RFC 6455 (section 7.4.1) has for the client, where it is told why: as at
    /// [`Broken::close_code`], or it has more listens than it may, more waits for it or for all than may, or
    /// all are ended.
    pub(crate) fn close_code(self) -> Option<u16>
        ensures { result ≡ close_code self }
    {
        match self {
            GuestEnd::Failed(why) => why.close_code(),
            GuestEnd::Stopped => Some(1001),
            GuestEnd::TooManyListens => Some(1008),
            GuestEnd::Over | GuestEnd::Crowding => Some(1013),
            GuestEnd::Closed(_)
            | GuestEnd::Refused
            | GuestEnd::Silent
            | GuestEnd::Unshaken
            | GuestEnd::Answered
            | GuestEnd::Stalled => None,
        }
    }

    /// What the client is told behind the code.
    pub(crate) fn close_reason(self) -> &'static str
        ensures { result.now ≡ close_reason self }
    {
        match self {
            GuestEnd::TooManyListens => "more than 131072 listens",
            GuestEnd::Over => "too slow: more waits than may",
            GuestEnd::Crowding => "too slow: more than 134217728 bytes wait for all clients",
            GuestEnd::Closed(_)
            | GuestEnd::Failed(_)
            | GuestEnd::Refused
            | GuestEnd::Silent
            | GuestEnd::Unshaken
            | GuestEnd::Answered
            | GuestEnd::Stalled
            | GuestEnd::Stopped => "",
        }
    }
}

/// Why one goes whose stream has ended so, that has asked by plain HTTP or hasn't.
pub(crate) fn stream_ending(has_asked: bool, why: Broken) -> GuestEnd
    ensures { result ≡ stream_ending has_asked why }
{
    if has_asked {
        GuestEnd::Answered
    } else {
        GuestEnd::Failed(why)
    }
}

/// Why the connection goes, if it has more listens than it may or more waits for it than may.
pub(crate) fn too_much(hub: &Hub, connection: u64) -> Option<GuestEnd>
    ensures { result ≡ too_much (has_too_many_in hub.now connection)
        (option_map_or (λ l. l.is_over) (line_in hub.now connection) false) }
{
    if hub.has_too_many_listens(connection) {
        Some(GuestEnd::TooManyListens)
    } else if hub.is_over(connection) {
        Some(GuestEnd::Over)
    } else {
        None
    }
}

// Writes why a socket failed, and with which code it is closed.
fn write_broken<W: fmt::Write>(f: &mut fmt::Formatter<W>, why: Broken) -> fmt::Result {
    match why.close_code() {
        Some(code) => write!(f, "{why}; it is closed with {code}"),
        None => write!(f, "{why}"),
    }
}

impl fmt::Display for GuestEnd {
    fn fmt<W: fmt::Write>(&self, f: &mut fmt::Formatter<W>) -> fmt::Result {
        let words = match self {
            GuestEnd::Closed(None) => "the client closed it",
            GuestEnd::Closed(Some(code)) => {
                return write!(f, "the client closed it with {code}{}", or_unknown(*code));
            }
            GuestEnd::Failed(why) => return write_broken(f, *why),
            GuestEnd::Refused => "its handshake failed",
            GuestEnd::Over => {
                return write!(
                    f,
                    "it is too slow: more than {MAX_WAITING_MESSAGES} messages or {MAX_WAITING_BYTES} \
                     bytes wait for it"
                );
            }
            GuestEnd::Crowding => {
                return write!(
                    f,
                    "it is the slowest, and more than {MAX_WAITING_IN_ALL} bytes wait for all"
                );
            }
            GuestEnd::TooManyListens => {
                return write!(
                    f,
                    "it has more than {MAX_LISTENS} listens; it is closed with 1008"
                );
            }
            GuestEnd::Silent => {
                return write!(
                    f,
                    "nothing is heard of it, for {SILENCE_MS} ms after a ping"
                );
            }
            GuestEnd::Unshaken => return write!(f, "no handshake in {HANDSHAKE_MS} ms"),
            GuestEnd::Answered => "it was answered",
            GuestEnd::Stalled => "its request or its answer stands still",
            GuestEnd::Stopped => "the server stops; it is closed with 1001",
        };
        f.write_str(words)
    }
}

// ---- the ends of connections, in turns

/// Connections that end, the one whose turn is next first.
pub(crate) struct Leaving {
    all: VecDeque<u64>,
}

impl Drop for Leaving {
    fn drop(self) {
        let Leaving { all: _ } = self;
    }
}

impl Model for Leaving {
    ghost use Rattle.std.specs.Prelude.{List, ℕ};

    ghost Value = { List ℕ };

    ghost view = { λ l. l.all.items };
}

// A turn of a connection's end is noted: its last one as its end.
fn note_turn(keeper: &mut Keeper, connection: u64, is_last: bool) -> Result<(), Halt>
    ensures { OnOk result
        (keeper.new.journal ≡ option_map (notes_turn connection is_last) keeper.old.journal) }
{
    if is_last {
        keeper.note_end(connection)
    } else {
        keeper.note_turn(connection, TURN_ACTIONS)
    }
}

impl Leaving {
    /// Nobody goes. Takes no memory.
    pub(crate) fn new(alloc: Global) -> Leaving
        ensures { result ≡ [] }
    {
        Leaving {
            all: VecDeque::new(alloc),
        }
    }

    /// Whether nobody goes.
    pub(crate) fn is_empty(&self) -> bool
        ensures { result ≡ is_none_of self.now }
    {
        self.all.is_empty()
    }

    /// The connection goes, behind the others.
    pub(crate) fn add(&mut self, connection: u64) -> Result<(), AllocError>
        ensures { OnOk result (self.new ≡ self.old ++ connection ∷ []) }
    {
        Ok(self.all.push_back(connection)?)
    }

    /// The first one has a turn of its end, and stands behind the others then, but where it was the last
    /// turn. Answers whether a connection has gone. To whom something is sent is noted.
    #[tactic(auto, using(crate::proofs::LeavingLaws::leaves, crate::proofs::LeavingLaws::nobody))]
    pub(crate) fn turn(
        &mut self,
        hub: &mut Hub,
        keeper: &mut Keeper,
        told: &mut Vec<u64>,
    ) -> Result<bool, Halt>
        ensures { IfOk result (λ gone. LeavesOn self.old hub.old keeper.old.journal gone
            self.new hub.new keeper.new.journal) }
    {
        let Some(connection) = self.all.pop_front() else {
            return Ok(false);
        };
        let is_last = leave(hub, connection, told)?;
        note_turn(keeper, connection, is_last)?;
        if !is_last {
            self.add(connection)?;
        }
        Ok(is_last)
    }
}
